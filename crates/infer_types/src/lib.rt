// What hosts call: the functions of the archive, each with the contract of what it calls.
#![tactic(auto)]

ghost use Rattle.std.specs.Prelude.{◌≡◌};
ghost use Rattle.image.specs.Check.{check as check_of};
ghost use Rattle.infer.specs.Entry.{Infers};
ghost use Rattle.batch.specs.Entry.{Batches};
ghost use Rattle.listing.specs.Entry.{Lists};

use image::refusal::number_of;
use listing::ListingAnswer;
use run_answer::Answer;

// The image check, and then the run.
#[unsafe(no_mangle)]
pub extern "C" fn infer_types(
    image: &[u32],
    names: &[u8],
    budget: u32,
    work: &mut [u32],
    tables: &mut [u32],
) -> Answer
    ensures { Infers image.now names.now budget work.old work.new tables.old tables.new result }
{
    infer::infer_types(image, names, budget, work, tables)
}

// The check alone.
#[unsafe(no_mangle)]
pub extern "C" fn image_check(image: &[u32], names: &[u8], budget: u32, work: usize) -> u32
    ensures { result ≡ check_of image.now names.now budget work }
{
    number_of(image_check::check(image, names, budget, work))
}

// A list of images, each as by its own run.
#[unsafe(no_mangle)]
pub extern "C" fn infer_batch(
    list: &[u32],
    images: &[u32],
    names: &[u8],
    work: &mut [u32],
    tables: &mut [u32],
    answers: &mut [u32],
) -> u32
    ensures { Batches list.now images.now names.now work.old work.new tables.old tables.new answers.old answers.new result }
{
    batch::infer_batch(list, images, names, work, tables, answers)
}

// A run and the listing that explains a slot's type.
#[unsafe(no_mangle)]
pub extern "C" fn infer_listing(
    image: &[u32],
    names: &[u8],
    budget: u32,
    work: &mut [u32],
    tables: &mut [u32],
    slot: u32,
    listing: &mut [u32],
) -> ListingAnswer
    ensures { Lists image.now names.now budget work.old work.new tables.old tables.new slot listing.old listing.new result }
{
    listing::infer_listing(image, names, budget, work, tables, slot, listing)
}

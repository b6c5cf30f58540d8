// The check: the first of the refusals 1 to 10 that is due.
#![tactic(auto)]

ghost use Rattle.std.specs.Prelude.{◌≡◌};
ghost use Rattle.image.specs.Check.{unless, bodies_sound, check_tables, check as check_of};
ghost use Rattle.image.specs.Nesting.{nesting_sound};
ghost use Rattle.image.specs.Laid.{SizedInputs};
ghost use Rattle.image.specs.Refusals.{refused};

use image::refusal::Refusal;
use image::{LIMIT, WORK_WORDS_EACH, header};
use image_bodies::nesting::bodies_read;
use image_bodies::overlap::bodies_apart;
use image_shapes::shapes::shapes_sound;
use image_shapes::types::types_sound;
use image_tables::{header_sound, references_sound};
use image_views::{BodyImage, Header, Image, NamedImage};

// The bodies and their nesting.
fn check_bodies(bodies: &BodyImage) -> Result<(), Refusal>
    ensures { refused result ≡ unless (bodies_sound bodies.now) 9 (unless (nesting_sound bodies.now) 10 0) }
{
    if !bodies_apart(bodies) {
        return Err(Refusal::Bodies);
    }
    bodies_read(bodies)
}

// From the header on. It is compiled apart, so that only who gets here pays for its frame.
#[inline(never)]
fn check_tables(words: &[u32], names: &[u8]) -> Result<(), Refusal>
    requires { SizedInputs words.now names.now }
    ensures { refused result ≡ check_tables words.now names.now }
{
    let header = Header::new(words);
    if !header_sound(&header) {
        return Err(Refusal::Header);
    }
    let image = Image::new(header);
    if !references_sound(&image, names.len()) {
        return Err(Refusal::References);
    }
    let bodies = BodyImage::new(&image);
    let named = NamedImage::new(image, names);
    if !types_sound(named.image()) {
        return Err(Refusal::Types);
    }
    if !shapes_sound(&named) {
        return Err(Refusal::Shapes);
    }
    check_bodies(&bodies)
}

// The refusal of an image, its name bytes, the budget and the length of the work words, if one is due.
pub fn check(words: &[u32], names: &[u8], budget: u32, work: usize) -> Result<(), Refusal>
    ensures { refused result ≡ check_of words.now names.now budget work }
{
    if words.len() < header::WORDS || words.len() > LIMIT {
        return Err(Refusal::ImageWords);
    }
    if names.len() > LIMIT {
        return Err(Refusal::NameBytes);
    }
    if budget as usize > LIMIT {
        return Err(Refusal::Budget);
    }
    if work < WORK_WORDS_EACH * (words.len() + budget as usize) {
        return Err(Refusal::WorkWords);
    }
    check_tables(words, names)
}

// A run and the listing that explains a slot's type.
#![tactic(auto)]

ghost use Rattle.std.specs.Prelude.{◌≡◌, length};
ghost use Rattle.run_tables.specs.Output.{target};
ghost use Rattle.run_solve.specs.Solve.{RunAsked};
ghost use Rattle.listing.specs.Entry.{Lists};
ghost use Rattle.listing.specs.Rows.{AsksListingRow, EmitsListingRow, AsksListing, EmitsListing, WriteListingAsked, WritesListing, RunsListing};
ghost use Rattle.run_definition.specs.Infer.{refusal as refusal_of};
ghost use Rattle.run_answer.specs.Lent.{answer_of};
ghost use Rattle.image.specs.Refusals.{number};

use image::refusal::Refusal;
use image::{NONE, TypeId, WORK_WORDS_EACH};
use listing_walk::{list_variables, order_of};
use run_answer::{Answer, clear};
use run_solve::Solved;
use run_tables::emit_type;
use run_tables::output::{Counter, Output, Writer};
use unifier_nodes::node::Nodes;

// The answer of a run, and the words of its listing, as hosts in C are given them.
#[repr(C)]
#[derive(Clone, Copy)]
pub struct ListingAnswer {
    pub answer: Answer,
    pub listing_words: u32,
}

impl ListingAnswer {
    // That of a request that is refused: its counts and table words are 0.
    fn refused(reason: Refusal, steps: u32, listing_words: u32) -> Self
        ensures answer { answer_of result.answer ≡ (refusal_of (number reason) steps 0).answer }
        ensures words { result.listing_words ≡ listing_words }
    {
        ListingAnswer {
            answer: Answer::refused(reason, steps, 0),
            listing_words,
        }
    }
}

// A variable and its binding, put at a place. Gives the next place, as `emit_listing`.
fn emit_row<O: Output>(nodes: &Nodes, x: TypeId, out: &mut O, at: usize) -> usize
    requires { AsksListingRow O.sink nodes.now.words.now nodes.now.lo x.0 (target out.old at) }
    ensures { EmitsListingRow O.sink nodes.now.words.now nodes.now.lo x.0 (target out.old at) (target out.new result) }
{
    let Some(bound) = nodes.binding(x) else {
        return out.put_two(at, x.0, NONE);
    };
    let next = out.put(at, x.0);
    emit_type(nodes, bound, out, next)
}

// The rows of variables, put out from the start.
fn emit_listing<O: Output>(nodes: &Nodes, variables: &[u32], out: &mut O) -> usize
    requires { AsksListing O.sink nodes.now.words.now nodes.now.lo variables.now (target out.old 0) }
    ensures { EmitsListing O.sink nodes.now.words.now nodes.now.lo variables.now (target out.old 0) (target out.new result) }
{
    let mut next: usize = 0;
    for x in variables {
        next = emit_row(nodes, TypeId(*x), out, next);
    }
    next
}

fn write_listing(nodes: &Nodes, variables: &[u32], listing: &mut [u32])
    requires { WriteListingAsked nodes.now.words.now nodes.now.lo variables.now listing.old }
    ensures { WritesListing nodes.now.words.now nodes.now.lo variables.now listing.old listing.new }
{
    let mut out = Writer { table: listing };
    emit_listing(nodes, variables, &mut out);
}

// Everything after the check, in as many work words as it takes. Nothing is written before the last test.
fn run(
    img: &[u32],
    bytes: &[u8],
    budget: u32,
    w: &mut [u32],
    tables: &mut [u32],
    slot: u32,
    listing: &mut [u32],
) -> ListingAnswer
    requires { RunAsked img.now bytes.now budget w.old }
    ensures runs { RunsListing img.now bytes.now budget tables.old tables.new slot listing.old listing.new result }
    ensures len { length w.new ≡ length w.old }
{
    let solved = run_solve::solve(img, bytes, budget, w, tables.len());
    let (Solved { answer, lay }, words) = match solved {
        Ok(solved) => solved,
        Err(answer) => {
            return ListingAnswer {
                answer,
                listing_words: 0,
            };
        }
    };
    if slot >= answer.slots {
        return ListingAnswer::refused(Refusal::Slot, answer.steps, 0);
    }
    let n = list_variables(words, lay, slot);
    let order = order_of(lay) as usize;
    let words: &[u32] = words;
    let nodes = Nodes { words, lo: lay.lo };
    let variables = &words[order..order + n as usize];
    let size = emit_listing(&nodes, variables, &mut Counter);
    let listing_words = size as u32;
    if size > listing.len() {
        return ListingAnswer::refused(Refusal::ListingWords, answer.steps, listing_words);
    }
    write_listing(&nodes, variables, listing);
    run_tables::write(words, lay, answer.slots, tables);
    ListingAnswer {
        answer,
        listing_words,
    }
}

// The image check, then the run, then the listing of a slot.
pub fn infer_listing(
    image: &[u32],
    names: &[u8],
    budget: u32,
    work: &mut [u32],
    tables: &mut [u32],
    slot: u32,
    listing: &mut [u32],
) -> ListingAnswer
    ensures { Lists image.now names.now budget work.old work.new tables.old tables.new slot listing.old listing.new result }
{
    if let Err(refusal) = image_check::check(image, names, budget, work.len()) {
        return ListingAnswer::refused(refusal, 0, 0);
    }
    let need = WORK_WORDS_EACH * (image.len() + budget as usize);
    let answer = run(
        image,
        names,
        budget,
        &mut work[..need],
        tables,
        slot,
        listing,
    );
    clear(work, work.len());
    answer
}

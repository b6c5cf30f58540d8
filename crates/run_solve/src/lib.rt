// A run up to its final state in the work words: nothing is written yet.
#![tactic(auto)]

ghost use Rattle.std.specs.Prelude.{◌≡◌};
ghost use Rattle.run_solve.specs.Solve.{RunAsked, Begun, Solves};

use image::{Table, count};
use run_answer::Answer;
use run_layout::{Layout, lay_out};
use run_reading::env::Env;
use run_walk::Walk;
use unifier_counts::Counts;
use unifier_nodes::state::Unifier;

// The answer of a run that is done, with its tables, and where its final state stands.
#[derive(Clone, Copy)]
pub struct Solved {
    pub answer: Answer,
    pub lay: Layout,
}

// No slot is bound, and all is laid out that the equations read.
fn prepare<'a>(img: &'a [u32], bytes: &'a [u8], budget: u32, w: &mut [u32]) -> Env<'a>
    requires { RunAsked img.now bytes.now budget w.old }
    ensures image { result.image.now ≡ img.now }
    ensures names { result.names.now ≡ bytes.now }
    ensures begun { Begun result.image.now result.names.now budget result.lay w.new }
{
    let slots = count(img, Table::Slots) as usize + budget as usize;
    w[..slots].fill(0);
    let lay = lay_out(img, w, budget);
    Env::new(img, bytes, lay)
}

// Equations and visits of an image that passed the check, in as many work words as it takes. The answer is that with so many table
// words lent; none is written. The work words are given back, as they hold the final state.
pub fn solve<'a, 'w>(
    img: &'a [u32],
    bytes: &'a [u8],
    budget: u32,
    w: &'w mut [u32],
    table_words: usize,
) -> Result<(Solved, &'w mut [u32]), Answer>
    requires { RunAsked img.now bytes.now budget w.old }
    ensures { Solves img.now bytes.now budget table_words result }
{
    let env = prepare(img, bytes, budget, w);
    let lay = env.lay;
    let mut walk = Walk {
        unifier: Unifier {
            words: w,
            lo: lay.lo,
            left: budget,
            top: lay.top,
            stack: lay.stack,
        },
        next: lay.slots,
        names: lay.log,
        log: lay.log,
        counts: Counts {
            exact: 0,
            star: 0,
            hook: 0,
            nothing: 0,
        },
    };
    if let Err(why) = run_generate::generate(&env, &mut walk) {
        return Err(Answer::refused(why, budget - walk.unifier.left, 0));
    }
    if let Err(why) = run_apply::apply(&env, &mut walk.unifier) {
        return Err(Answer::refused(why, budget - walk.unifier.left, 0));
    }
    let Walk {
        unifier: Unifier { words, left, .. },
        next,
        counts,
        ..
    } = walk;
    let answer = run_tables::table_answer(words, lay, budget - left, next, counts, table_words)?;
    Ok((Solved { answer, lay }, words))
}

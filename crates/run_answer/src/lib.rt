// The answer of a run, and words that are set to zero.
#![tactic(auto)]

ghost use Rattle.std.specs.Prelude.{◌≡◌, ◌≤◌, length};
ghost use Rattle.image.specs.Refusals.{number as number_of};
ghost use Rattle.run_definition.specs.Infer.{refusal as refusal_of};
ghost use Rattle.run_answer.specs.Lent.{answer_of, cleared};

use image::refusal::Refusal;

// Document 01's answer, and document 02's four counts of lookups: by the exact name, the "*" entry, the hook rule, and nothing.
#[repr(C)]
#[derive(Clone, Copy)]
pub struct Answer {
    pub number: u32,
    pub steps: u32,
    pub slots: u32,
    pub bindings: u32,
    pub table_words: u32,
    pub exact: u32,
    pub star: u32,
    pub hook: u32,
    pub nothing: u32,
}

// That of a run, or of a screen of a list, that ends with this number.
pub fn refusal(number: u32, steps: u32, table_words: u32) -> Answer
    ensures { answer_of result ≡ (refusal_of number steps table_words).answer }
{
    Answer {
        number,
        steps,
        slots: 0,
        bindings: 0,
        table_words,
        exact: 0,
        star: 0,
        hook: 0,
        nothing: 0,
    }
}

impl Answer {
    // That of a run that is refused.
    pub fn refused(reason: Refusal, steps: u32, table_words: u32) -> Answer
        ensures { answer_of result ≡ (refusal_of (number_of reason) steps table_words).answer }
    {
        refusal(u32::from(reason), steps, table_words)
    }
}

// The first n words are 0 then.
pub fn clear(w: &mut [u32], n: usize)
    requires { n ≤ length w.old }
    ensures { w.new ≡ cleared n w.old }
{
    w[..n].fill(0);
}

// The run: from image check to tables.
#![tactic(auto)]

ghost use Rattle.std.specs.Prelude.{◌≡◌, length};
ghost use Rattle.infer.specs.Entry.{Infers};
ghost use Rattle.infer.specs.Run.{Runs};
ghost use Rattle.run_solve.specs.Solve.{RunAsked};

use image::WORK_WORDS_EACH;
pub use run_answer::Answer;
use run_answer::clear;
use run_solve::Solved;

// Everything after the check, in as many work words as it takes.
fn run(img: &[u32], bytes: &[u8], budget: u32, w: &mut [u32], tables: &mut [u32]) -> Answer
    requires { RunAsked img.now bytes.now budget w.old }
    ensures runs { Runs img.now bytes.now budget tables.old tables.new result }
    ensures len { length w.new ≡ length w.old }
{
    match run_solve::solve(img, bytes, budget, w, tables.len()) {
        Ok((Solved { answer, lay }, words)) => {
            run_tables::write(words, lay, answer.slots, tables);
            answer
        }
        Err(refused) => refused,
    }
}

// The image check, and then the run.
pub fn infer_types(
    image: &[u32],
    names: &[u8],
    budget: u32,
    work: &mut [u32],
    tables: &mut [u32],
) -> Answer
    ensures { Infers image.now names.now budget work.old work.new tables.old tables.new result }
{
    if let Err(refusal) = image_check::check(image, names, budget, work.len()) {
        return Answer::refused(refusal, 0, 0);
    }
    let need = WORK_WORDS_EACH * (image.len() + budget as usize);
    let answer = run(image, names, budget, &mut work[..need], tables);
    clear(work, work.len());
    answer
}

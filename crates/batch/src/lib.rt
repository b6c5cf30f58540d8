// A list of images, each run as by its own call, their tables one after another.
#![tactic(auto)]

ghost use Rattle.std.specs.Prelude.{◌≡◌, false, ◌+◌, ◌*◌, ◌-◌, ◌≤◌, length, take, drop, MatchResult};
ghost use Rattle.image.specs.Check.{inside};
ghost use Rattle.image.specs.Refusals.{refused};
ghost use Rattle.run_answer.specs.Lent.{put, answer_of};
ghost use Rattle.batch.specs.Batch.{list_fits, screen_inside, screens_inside, answer_row, not_run_rows};
ghost use Rattle.batch.specs.Entry.{Batches};
ghost use Rattle.batch.specs.Steps.{screen_of, screens, lent_work, check_passed, Inside, RunsOwn, ScreensAsked, RunsScreens, Rows};

use image::refusal::{Refusal, number_of};
use image::{NONE, WORK_WORDS_EACH};
use run_answer::{Answer, clear};

// The words of a list's row and of an answer's, and the most images of a list.
const LIST_ROW: usize = 5;

const ANSWER_ROW: usize = 9;

const MOST_IMAGES: usize = 256;

// The row of a screen that is not run.
const NOT_RUN: [u32; ANSWER_ROW] = [NONE, 0, 0, 0, 0, 0, 0, 0, 0];

// One screen's part of what all are lent together.
#[derive(Clone, Copy)]
struct Part {
    start: u32,
    length: u32,
}

impl Part {
    fn lies_in(self, total: usize) -> bool
        ensures { result ≡ inside self.start self.length total }
    {
        self.start as usize + self.length as usize <= total
    }

    fn of<T>(self, lent: &[T]) -> &[T]
        requires { self.start + self.length ≤ length lent.now }
        ensures { result.now ≡ take self.length (drop self.start lent.now) }
    {
        let start = self.start as usize;
        &lent[start..start + self.length as usize]
    }
}

// A row of the list.
#[derive(Clone, Copy)]
struct Screen {
    image: Part,
    names: Part,
    budget: u32,
}

impl From<[u32; LIST_ROW]> for Screen {
    ghost from_gives = { λ row s. s ≡ screen_of row };

    fn from(row: [u32; LIST_ROW]) -> Screen {
        let [image_start, image_words, name_start, name_bytes, budget] = row;
        Screen {
            image: Part {
                start: image_start,
                length: image_words,
            },
            names: Part {
                start: name_start,
                length: name_bytes,
            },
            budget,
        }
    }
}

impl Screen {
    fn lies_in(self, image_words: usize, name_bytes: usize) -> bool
        ensures { result ≡ screen_inside image_words name_bytes self }
    {
        self.image.lies_in(image_words) && self.names.lies_in(name_bytes)
    }

    // No more work words than it takes are lent to it: all that are lent are cleared.
    fn lent_work(self, work_words: usize) -> usize
        ensures { result ≡ lent_work self work_words }
    {
        let need = WORK_WORDS_EACH * (self.image.length as usize + self.budget as usize);
        need.min(work_words)
    }

    // Its run, with the table words from `used` on.
    fn run(
        self,
        images: &[u32],
        names: &[u8],
        work: &mut [u32],
        tables: &mut [u32],
        used: usize,
    ) -> Answer
        requires inside { Inside images.now names.now self }
        requires room { used ≤ length tables.old }
        ensures { RunsOwn images.now names.now self used work.old work.new tables.old tables.new result }
    {
        let lent = self.lent_work(work.len());
        infer::infer_types(
            self.image.of(images),
            self.names.of(names),
            self.budget,
            &mut work[..lent],
            &mut tables[used..],
        )
    }
}

// The rows of a list, if it has only whole ones, not too many, and there is room for their answers.
fn rows_of(list: &[u32], answer_words: usize) -> Result<&[[u32; LIST_ROW]], Refusal>
    ensures { MatchResult result (λ rows. Rows list.now answer_words rows.now) (λ r. (r ≡ Refusal.List) × (list_fits (length list.now) answer_words ≡ false)) }
{
    let (rows, rest) = list.as_chunks::<LIST_ROW>();
    if rows.len() > MOST_IMAGES || !rest.is_empty() || ANSWER_ROW * rows.len() > answer_words {
        return Err(Refusal::List);
    }
    Ok(rows)
}

fn screens_inside(rows: &[[u32; LIST_ROW]], image_words: usize, name_bytes: usize) -> bool
    ensures { result ≡ screens_inside image_words name_bytes (screens rows.now) }
{
    rows.iter()
        .map(|row| Screen::from(*row))
        .all(|screen| screen.lies_in(image_words, name_bytes))
}

fn answer_row(a: Answer) -> [u32; ANSWER_ROW]
    ensures { result ≡ answer_row (answer_of a) }
{
    [
        a.number,
        a.steps,
        a.slots,
        a.bindings,
        a.table_words,
        a.exact,
        a.star,
        a.hook,
        a.nothing,
    ]
}

// By its place, since after `chunks_exact_mut` no proof knows the slice's elements.
fn put_row(answers: &mut [u32], k: usize, row: [u32; ANSWER_ROW])
    requires { 9 * k + 9 ≤ length answers.old }
    ensures { answers.new ≡ put answers.old (9 * k) row }
{
    let start = ANSWER_ROW * k;
    answers[start..start + ANSWER_ROW].copy_from_slice(&row);
}

// Rows of screens that are not run, up to a number of them.
fn put_not_run(answers: &mut [u32], from: usize, count: usize)
    requires order { from ≤ count }
    requires room { 9 * count ≤ length answers.old }
    ensures { answers.new ≡ put answers.old (9 * from) (not_run_rows (count - from)) }
{
    for k in from..count {
        put_row(answers, k, NOT_RUN);
    }
}

// Whether the check of a run with this number has passed: its refusals come before the run's own. The number is that of an answer, as
// hosts are given it.
fn check_passed(number: u32) -> bool
    ensures { result ≡ check_passed number }
{
    number == 0 || number > u32::from(Refusal::Nesting)
}

// The screens one after another, up to the first that is refused with 14; whether the check of one has passed. The slices come one by
// one, as `infer_types` takes them; and after a call on a struct that borrows them no proof knows their elements.
fn run_screens(
    rows: &[[u32; LIST_ROW]],
    images: &[u32],
    names: &[u8],
    work: &mut [u32],
    tables: &mut [u32],
    answers: &mut [u32],
) -> bool
    requires { ScreensAsked rows.now images.now names.now answers.old }
    ensures { RunsScreens rows.now images.now names.now work.old work.new tables.old tables.new answers.old answers.new result }
{
    let mut passed = false;
    let mut used: usize = 0;
    for (k, row) in rows.iter().enumerate() {
        let answer = Screen::from(*row).run(images, names, work, tables, used);
        put_row(answers, k, answer_row(answer));
        passed |= check_passed(answer.number);
        if answer.number == u32::from(Refusal::TableWords) {
            put_not_run(answers, k + 1, rows.len());
            return passed;
        }
        used += answer.table_words as usize;
    }
    passed
}

// The tests of the list, then its screens.
fn run_list(
    list: &[u32],
    images: &[u32],
    names: &[u8],
    work: &mut [u32],
    tables: &mut [u32],
    answers: &mut [u32],
) -> Result<(), Refusal>
    ensures { Batches list.now images.now names.now work.old work.new tables.old tables.new answers.old answers.new (refused result) }
{
    let rows = rows_of(list, answers.len())?;
    if !screens_inside(rows, images.len(), names.len()) {
        return Err(Refusal::Ranges);
    }
    if run_screens(rows, images, names, work, tables, answers) {
        clear(work, work.len());
    }
    Ok(())
}

// Its number is 0 if the list was gone through.
pub fn infer_batch(
    list: &[u32],
    images: &[u32],
    names: &[u8],
    work: &mut [u32],
    tables: &mut [u32],
    answers: &mut [u32],
) -> u32
    ensures { Batches list.now images.now names.now work.old work.new tables.old tables.new answers.old answers.new result }
{
    number_of(run_list(list, images, names, work, tables, answers))
}

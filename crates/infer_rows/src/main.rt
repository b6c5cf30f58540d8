// Rows A to L of document 01 and its edges, through the compiled library. The images are written as decimal
// words, "-" for NONE: the header; names, identifiers, slots and types; nine absent shapes; the function and its body.
#![tactic(auto)]

ghost use Rattle.std.specs.Prelude.{◌≤◌, ◌≡◌, length};

use image::{NONE, WORK_WORDS_EACH};
use infer::{Answer, infer_types};
use std::fmt::{self, Display};
use std::io;

// What lent words hold before a run.
const HELD: u32 = 77;

// The most words of an image, and table words that are lent, and work words enough for a budget of 65,537. They stand in arrays: the
// program takes no heap.
const IMAGE_WORDS: usize = 128;

const TABLE_WORDS: usize = 64;

const WORK_WORDS: usize = 526000;

// What a run is lent: a budget, work words fewer than are asked for, table words.
#[derive(Clone, Copy)]
struct Lent {
    budget: u32,
    fewer: usize,
    tables: usize,
}

// Just enough work words, and enough of the others.
const ENOUGH: Lent = Lent {
    budget: 1024,
    fewer: 0,
    tables: TABLE_WORDS,
};

// The nine shapes, all absent.
const ABSENT_SHAPES: &str = "0 0 0 0 0 0 0 0 0 0 0 0 0 0 0 0 0 0 0 0 0 0 0 0 0 0 0";

const ROW_A: [&str; 4] = [
    "1 0 - 0 20 2 20 2 24 2 26 0 32 9 32 0 59 1 59 74",
    "0 - 1 - 0 1 0 0 0 0 1 0",
    ABSENT_SHAPES,
    "61 13 2 1 0 0 1 0 1 7 0 0 0 0 0",
];

// A word as it is printed.
#[derive(Clone, Copy)]
struct Word(u32);

impl Display for Word {
    fn fmt<W: fmt::Write>(&self, f: &mut fmt::Formatter<W>) -> fmt::Result {
        match self.0 {
            NONE => write!(f, "none"),
            word => write!(f, "{word}"),
        }
    }
}

// What became of lent words.
#[derive(Clone, Copy)]
enum State {
    Kept,
    Zero,
    Changed,
}

impl State {
    fn of(words: &[u32]) -> State {
        if words.iter().all(|word| *word == HELD) {
            State::Kept
        } else if words.iter().all(|word| *word == 0) {
            State::Zero
        } else {
            State::Changed
        }
    }
}

impl Display for State {
    fn fmt<W: fmt::Write>(&self, f: &mut fmt::Formatter<W>) -> fmt::Result {
        match self {
            State::Kept => write!(f, "kept"),
            State::Zero => write!(f, "zero"),
            State::Changed => write!(f, "changed"),
        }
    }
}

// Prints the answer, the tables and what became of the other lent words.
fn print_answer(
    rt: &impl Print,
    title: &str,
    answer: Answer,
    tables: &[u32],
    work: &[u32],
) -> io::Result<()> {
    let Answer {
        number,
        steps,
        slots,
        bindings,
        table_words,
        ..
    } = answer;
    print!(rt;
        "{title}: answer {number} steps {steps} slots {slots} binds {bindings} words {table_words}; tables"
    )?;
    let written = if number == 0 {
        tables.len().min(table_words as usize)
    } else {
        0
    };
    let (written, rest) = tables.split_at(written);
    for word in written {
        print!(rt; " {}", Word(*word))?;
    }
    println!(rt; "; rest {}; work {}", State::of(rest), State::of(work))
}

// An image, and zeros after it.
#[derive(Clone, Copy)]
struct Image {
    words: [u32; IMAGE_WORDS],
    len: usize,
}

// The image that texts write one after the other; a word that is no number is 0.
fn image_of(texts: &[&str]) -> Image
    ensures { result.len ≤ 128 }
{
    let mut words = [0; IMAGE_WORDS];
    let mut len = 0;
    for text in texts {
        for word in text.split(' ') {
            if let Some(place) = words.get_mut(len) {
                *place = if word == "-" {
                    NONE
                } else {
                    word.parse().unwrap_or(0)
                };
                len += 1;
            }
        }
    }
    Image {
        words,
        len: len.min(IMAGE_WORDS),
    }
}

// Runs the image of texts, with so many of the work words.
fn run(
    rt: &impl Print,
    title: &str,
    texts: &[&str],
    names: &str,
    lent: Lent,
    work: &mut [u32],
) -> io::Result<()> {
    let image = image_of(texts);
    let enough = WORK_WORDS_EACH * (image.len + lent.budget as usize);
    let lent_work = enough.saturating_sub(lent.fewer).min(work.len());
    let work = &mut work[..lent_work];
    work.fill(HELD);
    let mut table_words = [HELD; TABLE_WORDS];
    let tables = &mut table_words[..lent.tables.min(TABLE_WORDS)];
    let answer = infer_types(
        &image.words[..image.len],
        names.as_bytes(),
        lent.budget,
        work,
        tables,
    );
    print_answer(rt, title, answer, tables, work)
}

fn row(
    rt: &impl Print,
    title: &str,
    texts: &[&str],
    names: &str,
    work: &mut [u32],
) -> io::Result<()> {
    run(rt, title, texts, names, ENOUGH, work)
}

// A Primitive; with a Return of it; a phi of its own load; a callee that is its own lvalue.
fn rows_a_to_d(rt: &impl Print, work: &mut [u32]) -> io::Result<()> {
    row(rt, "A", &ROW_A, "", work)?;
    row(
        rt,
        "B",
        &[
            "1 0 - 0 20 2 20 2 24 2 26 0 32 9 32 0 59 1 59 74",
            "0 - 1 - 0 1 0 0 0 0 1 0",
            ABSENT_SHAPES,
            "61 13 2 1 0 0 1 0 1 7 0 0 0 1 0",
        ],
        "",
        work,
    )?;
    row(
        rt,
        "C",
        &[
            "1 0 - 0 20 4 20 4 28 4 32 0 44 9 44 0 71 1 71 93",
            "0 - 1 - 2 - 3 - 0 1 2 3 0 0 0 0 1 0 0 2 0 0 3 0",
            ABSENT_SHAPES,
            "73 20 2 3 0 0 1 1 1 2 0 2 1 0 2 0 1 0 1 0 0 0",
        ],
        "",
        work,
    )?;
    row(
        rt,
        "D",
        &[
            "1 0 - 0 20 2 20 2 24 2 26 0 32 9 32 0 59 1 59 77",
            "0 - 1 - 0 1 0 0 0 0 1 0",
            ABSENT_SHAPES,
            "61 16 2 1 0 0 1 0 1 11 0 0 1 0 0 0 0 0",
        ],
        "",
        work,
    )
}

// An empty phi into an unbound variable, and into one that is bound.
fn row_e(rt: &impl Print, work: &mut [u32]) -> io::Result<()> {
    row(
        rt,
        "E unbound",
        &[
            "1 0 - 0 20 2 20 2 24 2 26 0 32 9 32 0 59 1 59 72",
            "0 - 1 - 0 1 0 0 0 0 1 0",
            ABSENT_SHAPES,
            "61 11 2 1 0 0 1 1 0 0 0 0 0",
        ],
        "",
        work,
    )?;
    row(
        rt,
        "E bound",
        &[
            "1 0 - 0 20 2 20 2 24 2 26 0 32 9 32 0 59 1 59 80",
            "0 - 1 - 0 1 0 0 0 0 1 0",
            ABSENT_SHAPES,
            "61 19 2 1 0 0 2 0 1 7 0 0 0 0 0 1 0 0 0 0 0",
        ],
        "",
        work,
    )
}

// A phi of two functions.
fn row_f(rt: &impl Print, work: &mut [u32]) -> io::Result<()> {
    row(
        rt,
        "F",
        &[
            "1 0 - 0 20 4 20 4 28 7 32 0 53 9 53 0 80 1 80 107",
            "0 - 1 - 2 - 3 - 0 1 2 3 0 0 0 0 1 0 0 2 0 0 3 0 1 0 0 5 5 4 6 - 4",
            ABSENT_SHAPES,
            "82 25 2 3 0 0 2 0 2 28 0 5 0 28 1 6 0 0 0 1 2 2 0 1 0 0 0",
        ],
        "",
        work,
    )
}

// A phi of shape 8 and Primitive, and of shape 8 and shape 4, in both orders.
fn row_g(rt: &impl Print, work: &mut [u32]) -> io::Result<()> {
    for (title, words, first, second) in [
        ("G primitive second", "1 0 0", "4", "5"),
        ("G primitive first", "1 0 0", "5", "4"),
        ("G shape 4 second", "4 4 0", "4", "5"),
        ("G shape 4 first", "4 4 0", "5", "4"),
    ] {
        let texts = [
            "1 0 - 0 20 4 20 4 28 6 32 0 50 9 50 0 77 1 77 104",
            "0 - 1 - 2 - 3 - 0 1 2 3 0 0 0 0 1 0 0 2 0 0 3 0 4 8 0",
            words,
            ABSENT_SHAPES,
            "79 25 2 3 0 0 2 0 2 28 0",
            first,
            "0 28 1",
            second,
            "0 0 0 1 2 2 0 1 0 0 0",
        ];
        row(rt, title, &texts, "", work)?;
    }
    Ok(())
}

// A property of an object of a shape; its name's length and the shape are written as words.
fn load(
    rt: &impl Print,
    title: &str,
    name: &str,
    length: &str,
    shape: &str,
    work: &mut [u32],
) -> io::Result<()> {
    let texts = [
        "1 0 3 1 20 3 22 3 28 5 31 0 46 9 46 0 73 1 73 95",
        "0",
        length,
        "0 - 1 - 2 - 0 1 2 0 0 0 0 1 0 0 2 0 3 0 0 4",
        shape,
        "0",
        ABSENT_SHAPES,
        "75 20 2 2 0 0 1 0 2 28 0 4 0 23 1 0 1 0 0 0 0 0",
    ];
    row(rt, title, &texts, name, work)
}

// "current" of an object with a name of so many bytes; both names stand one behind the other.
fn current(
    rt: &impl Print,
    title: &str,
    names: &str,
    length: &str,
    work: &mut [u32],
) -> io::Result<()> {
    let texts = [
        "1 1 - 2 20 4 24 4 32 4 36 0 48 9 48 0 75 1 75 100",
        "0",
        length,
        length,
        "7 0 0 1 - 2 - 3 - 0 1 2 3 0 0 0 0 1 0 0 2 0 0 3 0",
        ABSENT_SHAPES,
        "77 23 2 3 0 0 1 0 2 0 1 0 1 0 0 0 23 2 1 1 0 1 0 0 0",
    ];
    row(rt, title, &texts, names, work)
}

// Names that are hooks, and names that are not.
fn row_h(rt: &impl Print, work: &mut [u32]) -> io::Result<()> {
    load(rt, "H useX", "useX", "4", "-", work)?;
    load(rt, "H use9", "use9", "4", "-", work)?;
    load(rt, "H use", "use", "3", "-", work)?;
    load(rt, "H usex", "usex", "4", "-", work)
}

// Names that are ref-like, and names that are not.
fn row_i(rt: &impl Print, work: &mut [u32]) -> io::Result<()> {
    current(rt, "I ref", "refcurrent", "3", work)?;
    current(rt, "I aRef", "aRefcurrent", "4", work)?;
    current(rt, "I $Ref", "$Refcurrent", "4", work)?;
    current(rt, "I Ref", "Refcurrent", "3", work)?;
    current(rt, "I 1Ref", "1Refcurrent", "4", work)
}

// useTimer on an absent shape, and on no shape.
fn row_j(rt: &impl Print, work: &mut [u32]) -> io::Result<()> {
    load(rt, "J absent", "useTimer", "8", "3", work)?;
    load(rt, "J none", "useTimer", "8", "-", work)
}

// A global Poly; a call after a load of "setX" and a load without a name.
fn rows_k_and_l(rt: &impl Print, work: &mut [u32]) -> io::Result<()> {
    row(
        rt,
        "K",
        &[
            "1 0 - 0 20 2 20 2 24 3 26 0 35 9 35 0 62 1 62 77",
            "0 - 1 - 0 1 0 0 0 0 1 0 2 0 0",
            ABSENT_SHAPES,
            "64 13 2 1 0 0 1 0 1 28 0 2 0 0 0",
        ],
        "",
        work,
    )?;
    row(
        rt,
        "L",
        &[
            "1 2 - 1 20 5 22 5 32 5 37 0 52 9 52 0 79 1 79 111",
            "0 4 0 0 1 - 2 - 3 - 4 - 0 1 2 3 4 0 0 0 0 1 0 0 2 0 0 3 0 0 4 0",
            ABSENT_SHAPES,
            "81 30 2 4 0 0 1 0 3 0 2 0 1 0 0 0 0 2 0 1 0 1 0 11 3 0 1 0 2 0 0 0",
        ],
        "setX",
        work,
    )
}

// Row A with other budgets.
fn budgets(rt: &impl Print, work: &mut [u32]) -> io::Result<()> {
    let cases = [
        ("A, budget 5", 5),
        ("A, budget 6", 6),
        ("A, budget 65536", 65536),
        ("A, budget 65537", 65537),
    ];
    for (title, budget) in cases {
        run(rt, title, &ROW_A, "", Lent { budget, ..ENOUGH }, work)?;
    }
    Ok(())
}

// Row A with other numbers of work words and table words.
fn lengths(rt: &impl Print, work: &mut [u32]) -> io::Result<()> {
    let one_fewer = Lent { fewer: 1, ..ENOUGH };
    run(rt, "A, one work word too few", &ROW_A, "", one_fewer, work)?;
    let five_tables = Lent {
        tables: 5,
        ..ENOUGH
    };
    run(rt, "A, five table words", &ROW_A, "", five_tables, work)?;
    let four_tables = Lent {
        tables: 4,
        ..ENOUGH
    };
    run(rt, "A, four table words", &ROW_A, "", four_tables, work)
}

fn work_words() -> [u32; WORK_WORDS]
    ensures { 526000 ≡ length result }
{
    [0; WORK_WORDS]
}

fn main(rt: HostRuntime) -> io::Result<()> {
    let mut work = work_words();
    rows_a_to_d(&rt, &mut work)?;
    row_e(&rt, &mut work)?;
    row_f(&rt, &mut work)?;
    row_g(&rt, &mut work)?;
    row_h(&rt, &mut work)?;
    row_i(&rt, &mut work)?;
    row_j(&rt, &mut work)?;
    rows_k_and_l(&rt, &mut work)?;
    budgets(&rt, &mut work)?;
    lengths(&rt, &mut work)
}

// Reads an image, its names and a budget from standard input, and prints what the run answers.
#![tactic(auto)]

ghost use Rattle.std.specs.Prelude.{◌≤◌, ◌<◌, ◌≡◌, length, take, IfOk, IfSome};
ghost use Rattle.std.specs.Io.KnownBytes.{Consumes, IsAtEnd};

use image::{NONE, WORK_WORDS_EACH, type_kinds};
use infer::Answer;
use std::fmt::{self, Display};
use std::io::{self, Read};

// The table words that are lent.
const TABLE_WORDS: usize = 4096;

// The most image words, name bytes and steps, the work words for these, and one byte more than the longest input. What is lent and
// read stands in arrays of so many: the program takes no heap.
const MOST_WORDS: usize = 1024;

const MOST_BYTES: usize = 4096;

const MOST_BUDGET: u32 = 1024;

const MOST_WORK: usize = WORK_WORDS_EACH * (MOST_WORDS + MOST_BUDGET as usize);

const MOST_INPUT: usize = 12 + 4 * MOST_WORDS + MOST_BYTES + 1;

// What an input asks for, its image in little-endian words.
#[derive(Clone, Copy)]
struct Request<'a> {
    image: &'a [u8],
    names: &'a [u8],
    budget: u32,
    ghost few_words: { length image.now ≤ 4096 },
    ghost few_steps: { budget ≤ 1024 },
}

// A little-endian word, and what follows it.
fn split_word(input: &[u8]) -> Option<(u32, &[u8])> {
    let (word, rest) = input.split_first_chunk()?;
    Some((u32::from_le_bytes(*word), rest))
}

// None if the input announces too much, or has another length than announced.
fn request_of(input: &[u8]) -> Option<Request<'_>> {
    let (words, rest) = split_word(input)?;
    let (bytes, rest) = split_word(rest)?;
    let (budget, rest) = split_word(rest)?;
    if words as usize > MOST_WORDS || bytes as usize > MOST_BYTES || budget > MOST_BUDGET {
        return None;
    }
    let (image, names) = rest.split_at_checked(4 * words as usize)?;
    if names.len() != bytes as usize {
        return None;
    }
    Some(Request {
        image,
        names,
        budget,
    })
}

// The little-endian words of bytes, and zeros after them.
fn words_of(bytes: &[u8]) -> [u32; MOST_WORDS] {
    let mut words = [0; MOST_WORDS];
    let (chunks, _) = bytes.as_chunks::<4>();
    for (word, chunk) in words.iter_mut().zip(chunks) {
        *word = u32::from_le_bytes(*chunk);
    }
    words
}

// The shape of an object, a function or a constructor, or NONE.
#[derive(Clone, Copy)]
struct Shape(u32);

impl Display for Shape {
    fn fmt<W: fmt::Write>(&self, f: &mut fmt::Formatter<W>) -> fmt::Result {
        match self.0 {
            NONE => write!(f, "none"),
            shape => write!(f, "{shape}"),
        }
    }
}

// A type in the table words, but for its parts.
#[derive(Clone, Copy)]
enum Head {
    Var(u32),
    Primitive,
    Poly,
    ObjectMethod,
    Object(Shape),
    Function(Shape),
    Constructor(Shape),
    Phi(u32),
}

impl Head {
    // The type at the start of table words, and the words after its own.
    fn split(tables: &[u32]) -> Option<(Head, &[u32])>
        ensures { IfSome result (λ split. length split.1.now < length tables.now) }
    {
        match tables {
            [type_kinds::PRIMITIVE, rest @ ..] => Some((Head::Primitive, rest)),
            [type_kinds::POLY, rest @ ..] => Some((Head::Poly, rest)),
            [type_kinds::OBJECT_METHOD, rest @ ..] => Some((Head::ObjectMethod, rest)),
            [type_kinds::VAR, slot, rest @ ..] => Some((Head::Var(*slot), rest)),
            [type_kinds::OBJECT, shape, rest @ ..] => Some((Head::Object(Shape(*shape)), rest)),
            [type_kinds::FUNCTION, shape, rest @ ..] => Some((Head::Function(Shape(*shape)), rest)),
            [type_kinds::CONSTRUCTOR, shape, rest @ ..] => {
                Some((Head::Constructor(Shape(*shape)), rest))
            }
            [_, operands, rest @ ..] => Some((Head::Phi(*operands), rest)),
            [] | [_] => None,
        }
    }

    // How many types follow as its parts.
    fn parts(&self) -> u32 {
        match self {
            Head::Function(_) | Head::Constructor(_) => 1,
            Head::Phi(operands) => *operands,
            _ => 0,
        }
    }
}

impl Display for Head {
    fn fmt<W: fmt::Write>(&self, f: &mut fmt::Formatter<W>) -> fmt::Result {
        match self {
            Head::Var(slot) => write!(f, "var {slot}"),
            Head::Primitive => write!(f, "primitive"),
            Head::Poly => write!(f, "poly"),
            Head::ObjectMethod => write!(f, "method"),
            Head::Object(shape) => write!(f, "object {shape}"),
            Head::Function(shape) => write!(f, "function {shape}"),
            Head::Constructor(shape) => write!(f, "constructor {shape}"),
            Head::Phi(operands) => write!(f, "phi {operands}"),
        }
    }
}

// Prints the type at the start of table words, and ends the line. Gives the words after it. How many types are left grows by a type's
// parts, so that no iterator counts them.
fn print_type<'a>(rt: &impl Print, tables: &'a [u32]) -> io::Result<&'a [u32]> {
    let mut rest = tables;
    let mut left = 1u64;
    while left > 0 {
        let Some((head, after)) = Head::split(rest) else {
            break;
        };
        print!(rt; " {head}")?;
        left = (left - 1).saturating_add(u64::from(head.parts()));
        rest = after;
    }
    println!(rt)?;
    Ok(rest)
}

// Prints the answer, each slot and its type, and each bound slot and its type.
fn print_answer(rt: &impl Print, answer: Answer, tables: &[u32]) -> io::Result<()> {
    let Answer {
        number,
        steps,
        slots,
        bindings,
        ..
    } = answer;
    println!(rt; "answer {number} steps {steps} slots {slots} binds {bindings}")?;
    let mut rest = tables;
    for slot in 0..slots {
        print!(rt; "slot {slot}")?;
        rest = print_type(rt, rest)?;
    }
    for _ in 0..bindings {
        let Some((slot, after)) = rest.split_first() else {
            break;
        };
        print!(rt; "bind {slot}")?;
        rest = print_type(rt, after)?;
    }
    Ok(())
}

// Runs what is asked for, and prints the answer.
fn run(rt: &impl Print, request: Request<'_>) -> io::Result<()> {
    let words = request.image.len() / 4;
    let image = words_of(request.image);
    let work_words = WORK_WORDS_EACH * (words + request.budget as usize);
    let mut work = [0; MOST_WORK];
    let mut tables = [0; TABLE_WORDS];
    let answer = infer::infer_types(
        &image[..words],
        request.names,
        request.budget,
        &mut work[..work_words],
        &mut tables,
    );
    print_answer(rt, answer, &tables)
}

// Reads until the buffer is full or the input ends, and gives how many bytes were read. `remaining` is what a reader
// has left, where that is known.
fn read_full<R: Read>(input: &mut R, buffer: &mut [u8]) -> io::Result<usize>
    ensures within { IfOk result (λ n. n ≤ length buffer.new) }
    ensures read { IfOk result (λ n. Consumes (R.remaining input.old) (R.remaining input.new) (take n buffer.new)) }
    ensures whole { IfOk result (λ n. n < length buffer.new → IsAtEnd (R.remaining input.new)) }
{
    let mut done = 0;
    for _ in 0..u64::MAX {
        let n = input.read(&mut buffer[done..])?;
        if n == 0 {
            break;
        }
        done += n;
    }
    Ok(done)
}

fn main(rt: HostRuntime) -> io::Result<()> {
    let mut input = [0; MOST_INPUT];
    let got = read_full(&mut rt.stdin(), &mut input)?;
    match request_of(&input[..got]) {
        Some(request) => run(&rt, request),
        None => println!(rt; "input unfit"),
    }
}

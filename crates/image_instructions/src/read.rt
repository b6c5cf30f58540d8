// Readers of the parts of a body that name no function. Each takes the words that are left, and answers those after the part, or nothing
// where a word is not allowed at its position or is missing. The words are no field of a reader behind a `&mut`: that took small images
// a quarter longer.
ghost use Rattle.image.specs.Read.{counted as counted_of};
ghost use Rattle.image.specs.Body.{identifier as identifier_of, param as param_of, phi_node, terminal as terminal_of};
ghost use Rattle.image_instructions.specs.Reads.{left, Leaves, Repeats, Counts};

use image::{Limits, markers};

// So many of what `read` reads.
pub(crate) fn many<'a, F: Fn(&'a [u32]) -> Option<&'a [u32]>>(
    n: u32,
    words: &'a [u32],
    read: F,
) -> Option<&'a [u32]>
    requires { F.IsAlwaysCallable read }
    ensures { Repeats (F.post read) n words.now result }
{
    let mut rest = words;
    for _ in 0..n {
        rest = read(rest)?;
    }
    Some(rest)
}

// A count, and that many.
fn counted<'a, F: Fn(&'a [u32]) -> Option<&'a [u32]>>(
    words: &'a [u32],
    read: F,
) -> Option<&'a [u32]>
    requires { F.IsAlwaysCallable read }
    ensures { Counts (F.post read) words.now result }
{
    let (n, rest) = words.split_first()?;
    many(*n, rest, read)
}

fn identifier(limits: Limits, words: &[u32]) -> Option<&[u32]>
    ensures { Leaves (left (identifier_of limits words.now)) result }
{
    let (identifier, rest) = words.split_first()?;
    if *identifier < limits.identifiers {
        Some(rest)
    } else {
        None
    }
}

// A count, and that many identifiers.
pub fn identifiers(limits: Limits, words: &[u32]) -> Option<&[u32]>
    ensures { Leaves (left (counted_of (identifier_of limits) words.now)) result }
{
    counted(words, |rest| identifier(limits, rest))
}

// 0 or 1, and an identifier. Here and in `terminal` the kind is a word that is only tested, so that no enum is made of it.
fn param(limits: Limits, words: &[u32]) -> Option<&[u32]>
    ensures { Leaves (left (param_of limits words.now)) result }
{
    let [kind, identifier, rest @ ..] = words else {
        return None;
    };
    if *kind < markers::PARAM_KINDS && *identifier < limits.identifiers {
        Some(rest)
    } else {
        None
    }
}

// A count, and that many parameters.
pub fn params(limits: Limits, words: &[u32]) -> Option<&[u32]>
    ensures { Leaves (left (counted_of (param_of limits) words.now)) result }
{
    counted(words, |rest| param(limits, rest))
}

// A place, and its operands.
fn phi(limits: Limits, words: &[u32]) -> Option<&[u32]>
    ensures { Leaves (left (phi_node limits words.now)) result }
{
    let rest = identifier(limits, words)?;
    identifiers(limits, rest)
}

// A count, and that many phis.
pub fn phis(limits: Limits, words: &[u32]) -> Option<&[u32]>
    ensures { Leaves (left (counted_of (phi_node limits) words.now)) result }
{
    counted(words, |rest| phi(limits, rest))
}

// 1 and an identifier for Return, else 0 and 0.
pub fn terminal(limits: Limits, words: &[u32]) -> Option<&[u32]>
    ensures { Leaves (left (terminal_of limits words.now)) result }
{
    let [kind, identifier, rest @ ..] = words else {
        return None;
    };
    let bound = if *kind == markers::NO_RETURN {
        1
    } else {
        limits.identifiers
    };
    if *kind < markers::TERMINALS && *identifier < bound {
        Some(rest)
    } else {
        None
    }
}

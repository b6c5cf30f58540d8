// Blocks and bodies.
ghost use Rattle.image.specs.Read.{counted};
ghost use Rattle.image.specs.Body.{block as block_of, body as body_of};
ghost use Rattle.image.specs.Nesting.{named_by_blocks};
ghost use Rattle.image_instructions.specs.Marks.{Notes, named_by_block, named_by_body};

use image::markers;
use image_instructions::instruction::instructions;
use image_instructions::marks::BodyReader;
use image_instructions::read::{identifiers, params, phis, terminal};

// Phis, instructions, terminal.
fn block<'a, const N: usize>(reader: &mut BodyReader<N>, words: &'a [u32]) -> Option<&'a [u32]>
    ensures { Notes named_by_block (block_of reader.old.limits words.now) reader.old reader.new result }
{
    let rest = phis(reader.limits, words)?;
    let rest = instructions(reader, rest)?;
    terminal(reader.limits, rest)
}

// A count, and that many blocks. A loop, as that over instructions.
fn blocks<'a, const N: usize>(reader: &mut BodyReader<N>, words: &'a [u32]) -> Option<&'a [u32]>
    ensures { Notes named_by_blocks (counted (block_of reader.old.limits) words.now) reader.old reader.new result }
{
    let (n, mut rest) = words.split_first()?;
    for _ in 0..*n {
        rest = block(reader, rest)?;
    }
    Some(rest)
}

// The kind of the function, returns, parameters, context, blocks. The kind is a word that is only tested, so that no enum is made of it.
pub fn body<'a, const N: usize>(reader: &mut BodyReader<N>, words: &'a [u32]) -> Option<&'a [u32]>
    ensures { Notes named_by_body (body_of reader.old.limits words.now) reader.old reader.new result }
{
    let [kind, returns, rest @ ..] = words else {
        return None;
    };
    if *kind >= markers::FN_TYPES || *returns >= reader.limits.identifiers {
        return None;
    }
    let rest = params(reader.limits, rest)?;
    let rest = identifiers(reader.limits, rest)?;
    blocks(reader, rest)
}

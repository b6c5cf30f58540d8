// Instructions: kind, lvalue, aux, n, then n items.
ghost use Rattle.std.specs.Prelude.{◌≡◌};
ghost use Rattle.image.specs.Body.{aux_fits, instruction as instruction_of};
ghost use Rattle.image.specs.Nesting.{named_by_instructions};
ghost use Rattle.image.specs.Read.{counted};
ghost use Rattle.image_instructions.specs.Forms.{aux_said};
ghost use Rattle.image_instructions.specs.Marks.{Notes, named_by};

use crate::form::{Aux, Form, form_of};
use crate::item::items;
use crate::marks::BodyReader;
use image::{Limits, NONE};

#[tactic(auto, unfolding(image::specs::Body::aux_fits))]
fn aux_allowed(limits: Limits, aux: Aux, word: u32) -> bool
    ensures { result ≡ aux_fits limits (aux_said aux) word }
{
    match aux {
        Aux::Unused => word == 0,
        Aux::Flag => word < 2,
        Aux::NameOrNone => word == NONE || word < limits.names,
        Aux::TypeOrNone => word == NONE || word < limits.types,
        Aux::Function => word < limits.functions,
    }
}

fn instruction<'a, const N: usize>(
    reader: &mut BodyReader<N>,
    words: &'a [u32],
) -> Option<&'a [u32]>
    ensures { Notes named_by (instruction_of reader.old.limits words.now) reader.old reader.new result }
{
    let [kind, lvalue, aux, n, rest @ ..] = words else {
        return None;
    };
    let Form(aux_form, item_form) = form_of(*kind)?;
    if *lvalue >= reader.limits.identifiers || !aux_allowed(reader.limits, aux_form, *aux) {
        return None;
    }
    let rest = items(reader.limits, item_form, *aux, *n, rest)?;
    if aux_form == Aux::Function {
        reader.note(*aux);
    }
    Some(rest)
}

// A count, and that many instructions. A loop, since a proof learns nothing of what a closure over the reader would note.
pub fn instructions<'a, const N: usize>(
    reader: &mut BodyReader<N>,
    words: &'a [u32],
) -> Option<&'a [u32]>
    ensures { Notes named_by_instructions (counted (instruction_of reader.old.limits) words.now) reader.old reader.new result }
{
    let (n, mut rest) = words.split_first()?;
    for _ in 0..*n {
        rest = instruction(reader, rest)?;
    }
    Some(rest)
}

// Refusal 7: the type rules.
ghost use Rattle.std.specs.Prelude.{◌≡◌, Bool, ◌&&◌, ◌≤◌, ◌<◌, eqb, length};
ghost use Rattle.std.specs.Bool.{then_some};
ghost use Rattle.image.specs.declared.Table.TheVariants.{Types};
ghost use Rattle.image.specs.Image.{count as count_of, node_function, node_phi, node_at};
ghost use Rattle.image.specs.Check.{types_sound};
ghost use Rattle.image_shapes.specs.Sizes.{node_words, Sized};

use image::{Table, type_kinds};
use image_views::Image;

// Types whose sizes take a small array, and as many as an image can have.
const FEW: usize = 342;

const MOST: usize = 21845;

// The words of a type without parts, if its first field fits and its second is unused.
fn leaf_words(fits: bool, b: u32, words: u32) -> Option<u32>
    ensures { result ≡ then_some (fits && eqb b 0) words }
{
    (fits && b == 0).then_some(words)
}

// The words of a Function, if it keeps the rules. Here and below, sizes has those of the types before it.
fn function_words(image: &Image, sizes: &[u16], a: u32, b: u32) -> Option<u32>
    requires { Sized image.now sizes.now (length sizes.now) }
    ensures { (c : Bool) → result ≡ node_words image.now (length sizes.now) (node_function c a b) }
{
    if !image.in_table_or_none(Table::Shapes, a) {
        return None;
    }
    let words = 2 + u32::from(*sizes.get(b as usize)?);
    (words <= type_kinds::LONGEST).then_some(words)
}

// The words of a Phi, if it keeps the rules.
fn phi_words(image: &Image, sizes: &[u16], a: u32, b: u32) -> Option<u32>
    requires { Sized image.now sizes.now (length sizes.now) }
    ensures { result ≡ node_words image.now (length sizes.now) (node_phi a b) }
{
    let mut words = 2;
    for t in image.list(a, b)? {
        words += u32::from(*sizes.get(*t as usize)?);
        if words > type_kinds::LONGEST {
            return None;
        }
    }
    Some(words)
}

// The words that the next type takes written out, if it keeps the rules.
fn type_words(image: &Image, sizes: &[u16]) -> Option<u32>
    requires row { length sizes.now < count_of Types image.now }
    requires few { length sizes.now < 65536 }
    requires earlier { Sized image.now sizes.now (length sizes.now) }
    ensures { result ≡ node_words image.now (length sizes.now) (node_at image.now (length sizes.now)) }
{
    let n = sizes.len() as u32;
    let kind = image.cell(Table::Types, n, 0);
    let a = image.cell(Table::Types, n, 1);
    let b = image.cell(Table::Types, n, 2);
    // The kind is a word of the image, read once: an enum made of it would only be matched again.
    match kind {
        type_kinds::VAR => leaf_words(image.in_table(Table::Slots, a), b, 2),
        type_kinds::PRIMITIVE | type_kinds::POLY | type_kinds::OBJECT_METHOD => leaf_words(
            a == 0,
            b,
            1,
        ),
        type_kinds::OBJECT => leaf_words(image.in_table_or_none(Table::Shapes, a), b, 2),
        type_kinds::FUNCTION | type_kinds::CONSTRUCTOR => function_words(image, sizes, a, b),
        type_kinds::PHI => phi_words(image, sizes, a, b),
        _ => None,
    }
}

// Whether every type keeps the type rules; the list is for their sizes.
fn types_in(image: &Image, sizes: &mut [u16]) -> bool
    requires { count_of Types image.now ≤ length sizes.old }
    ensures { result ≡ types_sound image.now }
{
    for n in 0..image.type_rows() as usize {
        let Some(words) = type_words(image, &sizes[..n]) else {
            return false;
        };
        sizes[n] = words as u16;
    }
    true
}

// The same of at most N types. It is compiled apart, since a function pays at entry for the size of its locals.
#[inline(never)]
fn types_sound_in<const N: usize>(image: &Image) -> bool
    requires enough { count_of Types image.now ≤ N }
    requires small { N < 65536 }
    ensures { result ≡ types_sound image.now }
{
    let mut sizes = [0u16; N];
    types_in(image, &mut sizes)
}

// Whether every type keeps the type rules.
pub fn types_sound(image: &Image) -> bool
    ensures { result ≡ types_sound image.now }
{
    if image.type_rows() as usize <= FEW {
        types_sound_in::<FEW>(image)
    } else {
        types_sound_in::<MOST>(image)
    }
}

// Refusal 8.
ghost use Rattle.std.specs.Prelude.{◌≡◌, true, false, ◌+◌, ◌-◌, ◌≤◌, ◌<◌, length, MatchOption};
ghost use Rattle.image.specs.Image.{count as count_of, cell as cell_of};
ghost use Rattle.image.specs.Check.{each, among, distinct, shape_sound, shapes_sound};
ghost use Rattle.image_shapes.specs.Shapes.{shape_fits, reach_sound};

use image::Table;
use image_numbering::numbering::Links;
use image_numbering::reach::reach;
use image_views::NamedImage;
use names::same_bytes;
use std::ops::Range;

// The property rows of a shape that fits: a present word of 0 or 1, and properties in their table, none under an absent shape.
#[tactic(auto, using(std::proofs::lemmas::Bool::Decides::nat_tests), unfolding(crate::specs::Shapes::shape_fits, image::specs::Check::inside))]
fn shape_rows(image: &NamedImage, s: u32) -> Option<Range<u32>>
    requires { s < count_of Table.Shapes image.now.words }
    ensures { MatchOption result (shape_fits image.now.words s ≡ false) (λ rows. (shape_fits image.now.words s ≡ true) × (rows.start ≡ cell_of Table.Shapes image.now.words s 1) × (rows.end ≡ rows.start + cell_of Table.Shapes image.now.words s 2) × (rows.end ≤ count_of Table.Properties image.now.words) × (count_of Table.Properties image.now.words ≤ 32768)) }
{
    let rows = image.property_rows();
    let tables = image.image();
    let present = tables.cell(Table::Shapes, s, 0);
    let start = tables.cell(Table::Shapes, s, 1);
    let n = tables.cell(Table::Shapes, s, 2);
    if present > image::shapes::PRESENT || start > rows || n > rows - start {
        return None;
    }
    if present == image::shapes::ABSENT && n > 0 {
        return None;
    }
    Some(start..start + n)
}

// Whether a row from first to end has this name.
fn is_among(image: &NamedImage, name: &[u8], first: u32, end: u32) -> bool
    requires { (first ≤ end) × (end ≤ count_of Table.Properties image.now.words) }
    ensures { result ≡ among image.now.words image.now.names name.now first (end - first) }
{
    (first..end).any(|k| same_bytes(name, image.property_name(k)))
}

// Whether the rows have different names, compared two by two.
fn are_distinct(image: &NamedImage, rows: &Range<u32>) -> bool
    requires { (rows.now.start ≤ rows.now.end) × (rows.now.end ≤ count_of Table.Properties image.now.words) }
    ensures { result ≡ distinct image.now.words image.now.names rows.now.start (rows.now.end - rows.now.start) }
{
    let end = rows.end;
    (rows.start..end).all(|k| !is_among(image, image.property_name(k), k + 1, end))
}

// Whether the rows are few, with short names: then they are compared two by two.
fn are_few(image: &NamedImage, rows: &Range<u32>) -> bool
    requires { (rows.now.start ≤ rows.now.end) × (rows.now.end ≤ count_of Table.Properties image.now.words) }
{
    rows.end - rows.start <= 64
        && (rows.start..rows.end).all(|k| image.property_name(k).len() <= 64)
}

// Whether a shape fits and its rows end before a name is repeated.
#[tactic(auto, using(std::proofs::lemmas::Bool::Decides::nat_tests), unfolding(crate::specs::Shapes::reach_sound))]
fn is_within(image: &NamedImage, ends: &[u16; 65536], s: u32) -> bool
    requires { s < count_of Table.Shapes image.now.words }
    ensures { result ≡ reach_sound image.now.words ends.now s }
{
    match shape_rows(image, s) {
        Some(rows) => rows.start == rows.end || rows.end <= u32::from(ends[rows.start as usize]),
        None => false,
    }
}

// Every shape, with the property rows numbered by their names. It is compiled apart, so that only who gets here pays for a large frame.
#[inline(never)]
pub fn shapes_numbered(image: &NamedImage) -> bool
    ensures { result ≡ each Table.Shapes image.now.words (shape_sound image.now.words image.now.names) }
{
    let mut links = Links::new();
    let ends = reach(image, &mut links);
    (0..image.image().count(Table::Shapes)).all(|s| is_within(image, ends, s))
}

// At least nine shapes, each sound. While no more rows were compared than there are, a shape of few rows is compared two by two; else all are numbered.
#[tactic(auto, using(crate::proofs::Shape::few_shapes))]
pub fn shapes_sound(image: &NamedImage) -> bool
    ensures { result ≡ shapes_sound image.now.words image.now.names }
{
    let shapes = image.image().count(Table::Shapes);
    if shapes < image::shapes::COUNT {
        return false;
    }
    let mut left = image.property_rows();
    for s in 0..shapes {
        let Some(rows) = shape_rows(image, s) else {
            return false;
        };
        let n = rows.end - rows.start;
        if left < n || !are_few(image, &rows) {
            return shapes_numbered(image);
        }
        if !are_distinct(image, &rows) {
            return false;
        }
        left -= n;
    }
    true
}

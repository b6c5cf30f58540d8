// Refusals 5 and 6: the header, and the numbers and ranges in the tables.
#![tactic(auto)]

ghost use Rattle.std.specs.Prelude.{◌≡◌, ◌<◌};
ghost use Rattle.image.specs.Image.{count as count_of};
ghost use Rattle.image.specs.Check.{inside as is_inside, table_fits, tables_fit, header_sound, reference_sound, table_sound, references_sound};

use image::header::{ALL_OPTIONS, HOOK_TYPE, LENGTH, OPTIONS, VERSION, VERSION_ONE, WORDS};
use image::{TABLES, Table, row_words};
use image_views::{Header, Image};

// The tables that refer to others, to the name bytes or to the image.
const REFERRING: [Table; 5] = [
    Table::Names,
    Table::Identifiers,
    Table::Slots,
    Table::Properties,
    Table::Functions,
];

// start + n is at most total.
fn is_inside(start: u32, n: u32, total: usize) -> bool
    ensures { result ≡ is_inside start n total }
{
    start as usize + n as usize <= total
}

fn table_fits(header: &Header, t: Table) -> bool
    ensures { result ≡ table_fits header.now t }
{
    let words = header.words();
    let start = header.offset(t) as usize;
    let end = start + header.count(t) as usize * row_words(words, t);
    WORDS <= start && end <= words.len()
}

fn tables_fit(header: &Header) -> bool
    ensures { result ≡ tables_fit header.now }
{
    TABLES.iter().all(|t| table_fits(header, *t))
}

// 5
pub fn header_sound(header: &Header) -> bool
    ensures { result ≡ header_sound header.now }
{
    let version = header.word(VERSION) == VERSION_ONE;
    let options = header.word(OPTIONS) <= ALL_OPTIONS;
    let functions = 0 < header.count(Table::Functions);
    let length = header.word(LENGTH) as usize == header.words().len();
    version & options & functions & length & tables_fit(header)
}

// What row n of a table refers to.
fn reference_sound(image: &Image, name_bytes: usize, t: Table, n: u32) -> bool
    requires { n < count_of t image.now }
    ensures { result ≡ reference_sound t image.now name_bytes n }
{
    let first = image.cell(t, n, 0);
    match t {
        Table::Names => is_inside(first, image.cell(t, n, 1), name_bytes),
        Table::Identifiers => {
            image.in_table(Table::Slots, first)
                && image.in_table_or_none(Table::Names, image.cell(t, n, 1))
        }
        Table::Slots => image.in_table(Table::Types, first),
        Table::Types | Table::Lists | Table::Shapes => true,
        Table::Properties => {
            image.in_table(Table::Names, first) && image.in_table(Table::Types, image.cell(t, n, 1))
        }
        Table::Functions => is_inside(first, image.cell(t, n, 1), image.words().len()),
    }
}

fn table_sound(image: &Image, name_bytes: usize, t: Table) -> bool
    ensures { result ≡ table_sound image.now name_bytes t }
{
    (0..image.count(t)).all(|n| reference_sound(image, name_bytes, t, n))
}

// 6
pub fn references_sound(image: &Image, name_bytes: usize) -> bool
    ensures { result ≡ references_sound image.now name_bytes }
{
    image.in_table_or_none(Table::Types, image.word(HOOK_TYPE))
        && REFERRING.iter().all(|t| table_sound(image, name_bytes, *t))
}

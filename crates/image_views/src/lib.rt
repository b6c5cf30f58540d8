// An image as a check leaves it: each view holds what the check before it has shown.
#![tactic(auto)]

ghost use Rattle.std.specs.Prelude.{◌≡◌, ◌≤◌, ◌<◌, ◌+◌, length, MatchOption};
ghost use Rattle.image.specs.Image.{word as word_of, width, count as count_of, offset as offset_of, cell as cell_of, limits as limits_of, name_at, operands, range};
ghost use Rattle.image.specs.Check.{in_table as is_in_table, in_table_or_none as is_in_table_or_none};
ghost use Rattle.image.specs.Laid.{Laid, NamesInside, BodiesInside, Sources};

use image::{Limits, NONE, Table};
use std::marker::Model;
use std::ops::Range;

// Words that are enough for a header.
#[derive(Drop)]
pub struct Header<'a> {
    words: &'a [u32],
}

impl<'a> Model for Header<'a> {
    ghost use Rattle.std.specs.Prelude.{ℕ, List, ◌≤◌, length};

    ghost Value = { List ℕ };

    ghost view = { λ h. h.words.now };

    ghost invariant = { λ h. 20 ≤ length h.words.now };
}

impl<'a> Header<'a> {
    ghost use Rattle.std.specs.Prelude.{◌≤◌};

    pub fn new(words: &'a [u32]) -> Self
        requires { 20 ≤ length words.now }
        ensures { result ≡ words.now }
    {
        Header { words }
    }

    // The words of the image.
    pub fn words(&self) -> &'a [u32]
        ensures { result.now ≡ self.now }
    {
        &self.words[..]
    }

    // A word of the header.
    pub fn word(&self, k: usize) -> u32
        requires { k < 20 }
        ensures { result ≡ word_of self.now k }
    {
        self.words[k]
    }

    // The rows of a table.
    pub fn count(&self, t: Table) -> u32
        ensures { result ≡ count_of t self.now }
    {
        image::count(self.words, t)
    }

    // The word at which a table starts.
    pub fn offset(&self, t: Table) -> u32
        ensures { result ≡ offset_of t self.now }
    {
        image::offset(self.words, t)
    }
}

// An image whose tables lie in it.
#[derive(Drop)]
pub struct Image<'a> {
    header: Header<'a>,
}

impl<'a> Model for Image<'a> {
    ghost use Rattle.std.specs.Prelude.{ℕ, List};
    ghost use Rattle.image.specs.Laid.{Laid};

    ghost Value = { List ℕ };

    ghost view = { λ i. i.header };

    ghost invariant = { λ i. Laid i.header };
}

impl<'a> Image<'a> {
    pub fn new(header: Header<'a>) -> Self
        requires { Laid header }
        ensures { result ≡ header.entry }
    {
        Image { header }
    }

    // A word of its header.
    pub fn word(&self, k: usize) -> u32
        requires { k < 20 }
        ensures { result ≡ word_of self.now k }
    {
        self.header.word(k)
    }

    // Its words.
    pub fn words(&self) -> &'a [u32]
        ensures { result.now ≡ self.now }
    {
        self.header.words()
    }

    // The rows of a table.
    pub fn count(&self, t: Table) -> u32
        ensures { result ≡ count_of t self.now }
    {
        self.header.count(t)
    }

    // Word k of row n of a table.
    pub fn cell(&self, t: Table, n: u32, k: usize) -> u32
        requires row { n < count_of t self.now }
        requires column { k < width t self.now }
        ensures { result ≡ cell_of t self.now n k }
    {
        image::cell(self.header.words(), t, n, k)
    }

    // The rows of the type table.
    pub fn type_rows(&self) -> u32
        ensures count { result ≡ count_of Table.Types self.now }
        ensures few { result ≤ 21845 }
    {
        self.header.count(Table::Types)
    }

    // So many words of the list table from one on, if they lie in it.
    pub fn list(&self, first: u32, n: u32) -> Option<&'a [u32]>
        ensures { MatchOption result (count_of Table.Lists self.now < first + n) (λ list. (first + n ≤ count_of Table.Lists self.now) × (list.now ≡ operands self.now first n)) }
    {
        if first as u64 + n as u64 > self.header.count(Table::Lists) as u64 {
            return None;
        }
        let start = self.header.offset(Table::Lists) as usize + first as usize;
        Some(&self.header.words()[start..start + n as usize])
    }

    // Whether a number is one of a table's row.
    pub fn in_table(&self, t: Table, n: u32) -> bool
        ensures { result ≡ is_in_table t self.now n }
    {
        n < self.count(t)
    }

    // The same, or NONE.
    pub fn in_table_or_none(&self, t: Table, n: u32) -> bool
        ensures { result ≡ is_in_table_or_none t self.now n }
    {
        n == NONE || n < self.count(t)
    }

    // The counts that bound the numbers in a body.
    pub fn limits(&self) -> Limits
        ensures { result ≡ limits_of self.now }
    {
        image::limits_of(self.header.words())
    }
}

// An image whose names lie in the name bytes that come with it.
#[derive(Drop)]
pub struct NamedImage<'a> {
    image: Image<'a>,
    names: &'a [u8],
}

impl<'a> Model for NamedImage<'a> {
    ghost use Rattle.image.specs.Laid.{NamesInside, Sources};

    ghost Value = { Sources };

    ghost view = { λ i. record { words = i.image; names = i.names.now } };

    ghost invariant = { λ i. NamesInside i.image i.names.now };
}

impl<'a> NamedImage<'a> {
    pub fn new(image: Image<'a>, names: &'a [u8]) -> Self
        requires { NamesInside image names.now }
        ensures { result ≡ record { words = image.entry; names = names.now } }
    {
        NamedImage { image, names }
    }

    // The image without its names.
    pub fn image(&self) -> &Image<'a>
        ensures { result.now ≡ self.now.words }
    {
        &self.image
    }

    // All name bytes.
    pub fn names(&self) -> &'a [u8]
        ensures names { result.now ≡ self.now.names }
        ensures inside { NamesInside self.now.words self.now.names }
    {
        self.names
    }

    // The bytes of a name.
    pub fn name(&self, n: u32) -> &'a [u8]
        requires { n < count_of Table.Names self.now.words }
        ensures { result.now ≡ name_at self.now.words self.now.names n }
    {
        image::name_bytes(self.image.words(), self.names, n)
    }

    // The rows of the property table.
    pub fn property_rows(&self) -> u32
        ensures count { result ≡ count_of Table.Properties self.now.words }
        ensures few { result ≤ 32768 }
        ensures inside { NamesInside self.now.words self.now.names }
    {
        self.image.count(Table::Properties)
    }

    // Where the bytes of a property's name are.
    pub fn property_name_range(&self, p: u32) -> Range<usize>
        requires { p < count_of Table.Properties self.now.words }
        ensures start { result.start ≡ cell_of Table.Names self.now.words (cell_of Table.Properties self.now.words p 0) 0 }
        ensures end { result.end ≡ result.start + cell_of Table.Names self.now.words (cell_of Table.Properties self.now.words p 0) 1 }
        ensures inside { result.end ≤ length self.now.names }
    {
        let name = self.image.cell(Table::Properties, p, 0);
        let start = self.image.cell(Table::Names, name, 0) as usize;
        start..start + self.image.cell(Table::Names, name, 1) as usize
    }

    // The bytes of a property's name.
    pub fn property_name(&self, p: u32) -> &'a [u8]
        requires { p < count_of Table.Properties self.now.words }
        ensures { result.now ≡ name_at self.now.words self.now.names (cell_of Table.Properties self.now.words p 0) }
    {
        self.name(self.image.cell(Table::Properties, p, 0))
    }
}

// An image whose bodies lie in it.
#[derive(Drop)]
pub struct BodyImage<'a> {
    image: Image<'a>,
}

impl<'a> Model for BodyImage<'a> {
    ghost use Rattle.std.specs.Prelude.{ℕ, List};
    ghost use Rattle.image.specs.Laid.{BodiesInside};

    ghost Value = { List ℕ };

    ghost view = { λ b. b.image };

    ghost invariant = { λ b. BodiesInside b.image };
}

impl<'a> BodyImage<'a> {
    pub fn new(image: &Image<'a>) -> Self
        requires { BodiesInside image.now }
        ensures { result ≡ image.now }
    {
        let header = Header::new(image.words());
        BodyImage {
            image: Image::new(header),
        }
    }

    // The counts that bound the numbers in a body.
    pub fn limits(&self) -> Limits
        ensures { result ≡ limits_of self.now }
    {
        self.image.limits()
    }

    // The functions. An image has room for at most 32,768 rows of two words.
    pub fn functions(&self) -> u32
        ensures count { result ≡ count_of Table.Functions self.now }
        ensures few { result ≤ 32768 }
    {
        self.image.count(Table::Functions)
    }

    // The word at which the body of function f starts.
    pub fn start(&self, f: u32) -> u32
        requires { f < count_of Table.Functions self.now }
        ensures { result ≡ cell_of Table.Functions self.now f 0 }
    {
        self.image.cell(Table::Functions, f, 0)
    }

    // The word after the last of it.
    pub fn end(&self, f: u32) -> u32
        requires { f < count_of Table.Functions self.now }
        ensures { result ≡ cell_of Table.Functions self.now f 0 + cell_of Table.Functions self.now f 1 }
    {
        self.start(f) + self.image.cell(Table::Functions, f, 1)
    }

    // The words of the body of function f.
    pub fn body(&self, f: u32) -> &'a [u32]
        requires { f < count_of Table.Functions self.now }
        ensures { result.now ≡ range self.now (cell_of Table.Functions self.now f 0) (cell_of Table.Functions self.now f 1) }
    {
        let start = self.start(f) as usize;
        let end = self.end(f) as usize;
        &self.image.words()[start..end]
    }
}

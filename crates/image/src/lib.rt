// The image: its accessors, and names for the numbers of its format.
#![tactic(auto)]

ghost use Rattle.std.specs.Prelude.{◌≡◌, ◌+◌, ◌≤◌, ◌<◌, length};
ghost use Rattle.image.specs.Image.{word, width, header_place, count as count_of, offset as offset_of, cell as cell_of, limits as limits_of, name_at};
ghost use Rattle.image.specs.Laid.{Laid, InTable, NamesInside};

pub mod header;
pub mod markers;
pub mod refusal;
pub mod shapes;
pub mod tags;
pub mod type_kinds;

// No name, type or shape; a property that is a number.
pub const NONE: u32 = 4294967295;

// The most words of an image, name bytes and steps.
pub const LIMIT: usize = 65536;

// The work words that are lent for each word of the image and each step of the budget.
pub const WORK_WORDS_EACH: usize = 8;

// The tables, in the header's order.
#[derive(Clone, Copy)]
pub enum Table {
    Names,
    Identifiers,
    Slots,
    Types,
    Lists,
    Shapes,
    Properties,
    Functions,
}

pub const TABLES: [Table; 8] = [
    Table::Names,
    Table::Identifiers,
    Table::Slots,
    Table::Types,
    Table::Lists,
    Table::Shapes,
    Table::Properties,
    Table::Functions,
];

// The counts that bound the numbers in a body.
#[derive(Clone, Copy)]
pub struct Limits {
    pub names: u32,
    pub identifiers: u32,
    pub types: u32,
    pub functions: u32,
}

// The number of an identifier.
#[derive(Clone, Copy)]
pub struct IdentifierId(pub u32);

// The number of a slot, which is the number of its type variable.
#[derive(Clone, Copy)]
pub struct TypeId(pub u32);

fn header_place(t: Table) -> usize
    ensures { result ≡ header_place t }
{
    match t {
        Table::Names => 3,
        Table::Identifiers => 5,
        Table::Slots => 7,
        Table::Types => 9,
        Table::Lists => 11,
        Table::Shapes => 13,
        Table::Properties => 15,
        Table::Functions => 17,
    }
}

// The accessors over words: the views call them, and so does the run, which reads bodies by place in the same words.

// The words of a row.
pub fn row_words(img: &[u32], t: Table) -> usize
    ensures { result ≡ width t img.now }
{
    match t {
        Table::Names => 2,
        Table::Identifiers => 2,
        Table::Slots => 1,
        Table::Types => 3,
        Table::Lists => 1,
        Table::Shapes => 3,
        Table::Properties => 2,
        Table::Functions => 2,
    }
}

// The rows of a table.
pub fn count(img: &[u32], t: Table) -> u32
    requires { 20 ≤ length img.now }
    ensures { result ≡ count_of t img.now }
{
    let at = header_place(t);
    img[at]
}

// The word at which a table starts.
pub fn offset(img: &[u32], t: Table) -> u32
    requires { 20 ≤ length img.now }
    ensures { result ≡ offset_of t img.now }
{
    let at = header_place(t) + 1;
    img[at]
}

// Word k of row n of a table.
pub fn cell(img: &[u32], t: Table, n: u32, k: usize) -> u32
    requires { InTable t img.now n k }
    ensures { result ≡ cell_of t img.now n k }
{
    let start = offset(img, t) as usize;
    let row = n as usize * row_words(img, t);
    img[start + row + k]
}

// The counts that bound the numbers in a body.
pub fn limits_of(img: &[u32]) -> Limits
    requires { 20 ≤ length img.now }
    ensures { result ≡ limits_of img.now }
{
    Limits {
        names: count(img, Table::Names),
        identifiers: count(img, Table::Identifiers),
        types: count(img, Table::Types),
        functions: count(img, Table::Functions),
    }
}

// The slot of an identifier.
pub fn slot_of(img: &[u32], id: IdentifierId) -> TypeId
    requires { InTable Table.Identifiers img.now id.0 0 }
    ensures { result.0 ≡ cell_of Table.Identifiers img.now id.0 0 }
{
    TypeId(cell(img, Table::Identifiers, id.0, 0))
}

// The name of an identifier, or NONE.
pub fn name_of(img: &[u32], id: IdentifierId) -> u32
    requires { InTable Table.Identifiers img.now id.0 1 }
    ensures { result ≡ cell_of Table.Identifiers img.now id.0 1 }
{
    cell(img, Table::Identifiers, id.0, 1)
}

// The bytes of a name.
pub fn name_bytes<'a>(img: &[u32], bytes: &'a [u8], n: u32) -> &'a [u8]
    requires { NamesInside img.now bytes.now × (n < count_of Table.Names img.now) }
    ensures { result.now ≡ name_at img.now bytes.now n }
{
    let start = cell(img, Table::Names, n, 0) as usize;
    let end = start + cell(img, Table::Names, n, 1) as usize;
    &bytes[start..end]
}

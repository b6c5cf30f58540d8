// An image whose tables lie in it, the name bytes that come with it, and where things stand in the work words. Who reads a name asks
// besides that the names lie in the name bytes.
ghost use Rattle.std.specs.Prelude.{◌≡◌, ◌+◌, ◌*◌, ◌≤◌, ◌<◌, length};
ghost use Rattle.image.specs.Image.{word, count as count_of, cell as cell_of, treats_refs, treats_setters, name_at};
ghost use Rattle.image.specs.Laid.{Laid, NamesInside};
ghost use Rattle.run_definition.specs.Fitting.{PlaceFits};

use image::{IdentifierId, NONE, Table, TypeId, cell, header};
use image_views::{Header, Image, NamedImage};
use run_layout::Layout;

#[derive(Clone, Copy)]
pub struct Env<'a> {
    pub image: &'a [u32],
    pub names: &'a [u8],
    pub lay: Layout,
    pub ghost laid: { Laid image.now },
}

impl<'a> Env<'a> {
    ghost use Rattle.run_reading.specs.Reading.{OrNone};

    pub fn new(image: &'a [u32], names: &'a [u8], lay: Layout) -> Self
        requires { Laid image.now }
        ensures image { result.image.now ≡ image.now }
        ensures names { result.names.now ≡ names.now }
        ensures lay { result.lay ≡ lay }
    {
        Env { image, names, lay }
    }

    // The image as a view, where its names lie in the name bytes.
    pub fn named(&self) -> NamedImage<'a>
        requires { NamesInside self.now.image.now self.now.names.now }
        ensures { result ≡ record { words = self.now.image.now; names = self.now.names.now } }
    {
        NamedImage::new(Image::new(Header::new(self.image)), self.names)
    }

    // Option bit 0.
    #[tactic(auto, unfolding(image::specs::Image::treats_refs))]
    pub fn treats_refs(&self) -> bool
        ensures { result ≡ treats_refs self.now.image.now }
    {
        self.image[header::OPTIONS] % 2 == 1
    }

    // Option bit 1.
    #[tactic(auto, unfolding(image::specs::Image::treats_setters))]
    pub fn treats_setters(&self) -> bool
        ensures { result ≡ treats_setters self.now.image.now }
    {
        self.image[header::OPTIONS] / 2 % 2 == 1
    }

    // The bytes of a name, likewise.
    pub fn name(&self, n: u32) -> &'a [u8]
        requires names { NamesInside self.now.image.now self.now.names.now }
        requires row { n < count_of Table.Names self.now.image.now }
        ensures { result.now ≡ name_at self.now.image.now self.now.names.now n }
    {
        image::name_bytes(self.image, self.names, n)
    }

    // The slot of an identifier.
    pub fn slot_of(&self, id: IdentifierId) -> TypeId
        requires { id.0 < count_of Table.Identifiers self.now.image.now }
        ensures { result.0 ≡ cell_of Table.Identifiers self.now.image.now id.0 0 }
    {
        image::slot_of(self.image, id)
    }

    // The number of the name of an identifier, if it has one.
    pub fn name_of(&self, id: IdentifierId) -> Option<u32>
        requires { id.0 < count_of Table.Identifiers self.now.image.now }
        ensures { OrNone (cell_of Table.Identifiers self.now.image.now id.0 1) result }
    {
        let name = image::name_of(self.image, id);
        if name == NONE {
            return None;
        }
        Some(name)
    }

    // The slot of the identifier at a position.
    pub fn slot_at(&self, at: usize) -> TypeId
        requires { PlaceFits self.now.image.now at }
        ensures { result.0 ≡ cell_of Table.Identifiers self.now.image.now (word self.now.image.now at) 0 }
    {
        self.slot_of(IdentifierId(self.image[at]))
    }

    // The position at which the body of a function starts.
    pub fn body(&self, f: u32) -> usize
        requires { f < count_of Table.Functions self.now.image.now }
        ensures { result ≡ cell_of Table.Functions self.now.image.now f 0 }
    {
        cell(self.image, Table::Functions, f, 0) as usize
    }

    // Where rows of so many words end; their count stands at a position, before the first.
    pub fn after_rows(&self, at: usize, width: usize) -> usize
        requires { at + 1 + width * word self.now.image.now at ≤ length self.now.image.now }
        ensures { result ≡ at + 1 + width * word self.now.image.now at }
    {
        run_layout::after_rows(self.image, at, width)
    }
}

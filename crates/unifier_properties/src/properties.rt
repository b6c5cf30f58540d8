// The properties of a shape.
ghost use Rattle.std.specs.Prelude.{◌≡◌, ◌≤◌};
ghost use Rattle.image.specs.Image.{count};
ghost use Rattle.image.specs.declared.Table.TheVariants.{Properties as PropertyTable};
ghost use Rattle.unifier_definition.specs.Property.{entry};
ghost use Rattle.unifier_properties.specs.Lookup.{entry_number, properties_in};

use image::Table;
use image_views::NamedImage;
use names::same_bytes;
use std::ops::Range;

// Rows of the property table.
#[derive(Drop)]
pub struct Properties<'a> {
    pub image: &'a NamedImage<'a>,
    pub rows: Range<u32>,
    ghost inside: { rows.end ≤ count PropertyTable image.now.words },
}

impl Properties<'_> {
    // The type number of the entry of this name.
    pub fn get(&self, name: &[u8]) -> Option<u32>
        ensures { result ≡ entry_number (entry (properties_in self.now.image.now self.now.rows) name.now) }
    {
        for p in self.rows.start..self.rows.end {
            if same_bytes(self.image.property_name(p), name) {
                return Some(self.image.image().cell(Table::Properties, p, 1));
            }
        }
        None
    }
}

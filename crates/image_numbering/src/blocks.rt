// Numbers for blocks of the name bytes, by doubling (Karp, Miller and Rosenberg): blocks of one length get one number exactly if they are equal.
ghost use Rattle.std.specs.Prelude.{◌≡◌, ℕ, List, ◌+◌, ◌≤◌, ◌<◌, length};
ghost use Rattle.image_numbering.specs.Blocks.{Blocks, Ends};

use crate::numbering::{Links, PairList};
use image_views::NamedImage;

// Blocks of one byte. A loop, since the library's copies do not widen.
fn number_bytes(bytes: &[u8], numbers: &mut [u16])
    requires { length bytes.now ≤ length numbers.old }
    ensures { Blocks bytes.now numbers.new 1 }
{
    for (i, byte) in bytes.iter().enumerate() {
        numbers[i] = u16::from(*byte);
    }
}

// Blocks of twice as many bytes, by the numbers of their halves.
fn number_doubled(
    bytes: &[u8],
    numbers: &[u16; 65536],
    h: usize,
    links: &mut Links,
    out: &mut [u16; 65536],
)
    requires half { (0 < h) × (h ≤ 131072) }
    requires blocks { (length bytes.now ≤ 65536) × Blocks bytes.now numbers.now h }
    ensures { Blocks bytes.now out.new (h + h) }
{
    if h + h <= bytes.len() {
        let n = bytes.len() - (h + h) + 1;
        links.number_pairs(&PairList::first(n, numbers, &numbers[h..]), out);
    }
}

// The numbers of the ends of names, at each property row: of as many bytes as the longest block that isn't longer than the name.
#[derive(Drop)]
pub struct NameEnds {
    pub fronts: [u16; 32768],
    pub backs: [u16; 32768],
}

impl NameEnds {
    // The ends of names of h bytes or more, and of fewer than twice as many.
    fn number(&mut self, image: &NamedImage, numbers: &[u16; 65536], h: usize)
        requires half { (0 < h) × (h ≤ 131072) }
        requires blocks { Blocks image.now.names numbers.now h }
        requires ends { Ends image.now.words image.now.names self.old.fronts self.old.backs h }
        ensures { Ends image.now.words image.now.names self.new.fronts self.new.backs (h + h) }
    {
        for p in 0..image.property_rows() {
            let name = image.property_name_range(p);
            let length = name.end - name.start;
            if h <= length && length < h + h {
                self.fronts[p as usize] = numbers[name.start];
                self.backs[p as usize] = numbers[name.end - h];
            }
        }
    }
}

// Room for numbers of blocks of the name bytes, for others, and for those of the ends of names.
#[derive(Drop)]
pub struct NameNumbers {
    pub numbers: [u16; 65536],
    pub other: [u16; 65536],
    pub ends: NameEnds,
}

impl NameNumbers {
    // No names have their ends yet.
    pub fn new() -> Self
        ensures { (image names : List ℕ) → Ends image names result.ends.fronts result.ends.backs 1 }
    {
        NameNumbers {
            numbers: [0; 65536],
            other: [0; 65536],
            ends: NameEnds {
                fronts: [0; 32768],
                backs: [0; 32768],
            },
        }
    }

    // The ends of every name.
    pub fn number_names(&mut self, image: &NamedImage, links: &mut Links)
        requires { Ends image.now.words image.now.names self.old.ends.fronts self.old.ends.backs 1 }
        ensures { Ends image.now.words image.now.names self.new.ends.fronts self.new.ends.backs (length image.now.names + 1) }
    {
        let bytes = image.names();
        number_bytes(bytes, &mut self.numbers);
        let mut h = 1;
        // Two levels a turn, so that the numbers come back to where they were: no range counts so.
        while h <= bytes.len() {
            let twice = h + h;
            self.ends.number(image, &self.numbers, h);
            number_doubled(bytes, &self.numbers, h, links, &mut self.other);
            self.ends.number(image, &self.other, twice);
            number_doubled(bytes, &self.other, twice, links, &mut self.numbers);
            h = twice + twice;
        }
    }
}

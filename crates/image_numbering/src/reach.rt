// Up to which row the names of property rows are different.
ghost use Rattle.std.specs.Prelude.{◌≡◌, ℕ, ◌+◌, ◌/◌, ◌%◌, ◌≤◌, ◌<◌, length};
ghost use Rattle.image.specs.declared.Table.TheVariants.{Properties};
ghost use Rattle.image.specs.Image.{count as count_of};
ghost use Rattle.image_numbering.specs.Numbering.{at, Pairs};
ghost use Rattle.image_numbering.specs.Blocks.{length_of, Ends, RowsNumbered, Nearer, Nearest, Reaches};

use crate::blocks::NameNumbers;
use crate::numbering::{Links, PairList};
use image_views::NamedImage;

// The lengths of the names, as two halves of a word.
fn split_lengths(image: &NamedImage, low: &mut [u16; 32768], high: &mut [u16; 32768])
    ensures low { (p : ℕ) → p < count_of Properties image.now.words → at low.new p ≡ length_of image.now.words p % 65536 }
    ensures high { (p : ℕ) → p < count_of Properties image.now.words → at high.new p ≡ length_of image.now.words p / 65536 }
{
    for p in 0..image.property_rows() {
        let name = image.property_name_range(p);
        let length = name.end - name.start;
        low[p as usize] = (length % 65536) as u16;
        high[p as usize] = (length / 65536) as u16;
    }
}

// t where it is above p and below end, else end.
fn nearer(p: usize, t: usize, end: usize) -> usize
    ensures { Nearer p t end result }
{
    if p < t && t < end { t } else { end }
}

// At each of n places the first one that follows a place from there on with the same key, or n.
fn spread(n: usize, next: &mut [u16; 65536])
    requires { n ≤ 32768 }
    ensures { (p : ℕ) → p < n → Nearest next.old n (at next.new p) p }
{
    let mut end = n;
    for p in (0..n).rev() {
        end = nearer(p, next[p] as usize, end);
        next[p] = end as u16;
    }
}

impl NameNumbers {
    // Numbers the property rows by their names. The numbers come in other.
    fn number_rows(&mut self, image: &NamedImage, links: &mut Links)
        requires { Ends image.now.words image.now.names self.old.ends.fronts self.old.ends.backs 1 }
        ensures { RowsNumbered image.now.words image.now.names self.new.other }
    {
        self.number_names(image, links);
        let n = image.property_rows() as usize;
        links.number_pairs(
            &PairList::first(n, &self.ends.fronts, &self.ends.backs),
            &mut self.other,
        );
        self.number_lengths(image, links);
    }

    // Numbers the property rows by their numbers in other and the lengths of their names.
    fn number_lengths(&mut self, image: &NamedImage, links: &mut Links)
        ensures { Pairs (count_of Properties image.now.words) (at self.old.other) (length_of image.now.words) self.new.other }
    {
        split_lengths(image, &mut self.ends.fronts, &mut self.ends.backs);
        let n = image.property_rows() as usize;
        links.number_pairs(
            &PairList::first(n, &self.other, &self.ends.fronts),
            &mut self.numbers,
        );
        links.number_pairs(
            &PairList::first(n, &self.numbers, &self.ends.backs),
            &mut self.other,
        );
    }
}

// At each property row, up to which row the names are different. The caller lends the room.
pub fn reach<'a>(image: &NamedImage, links: &'a mut Links) -> &'a [u16; 65536]
    ensures { Reaches image.now.words image.now.names result.now }
{
    let mut names = NameNumbers::new();
    names.number_rows(image, links);
    let n = image.property_rows() as usize;
    links.link(&names.other[..n]);
    spread(n, &mut links.next);
    &links.next
}

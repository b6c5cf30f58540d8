// All bodies, each read once: refusals 9 and 10, but for bodies that share a word.
ghost use Rattle.std.specs.Prelude.{◌≡◌, ◌<◌, ◌≤◌};
ghost use Rattle.image.specs.Image.{count as count_of, limits as limits_of};
ghost use Rattle.image.specs.Body.{body_at, bodies};
ghost use Rattle.image.specs.Refusals.{refused};
ghost use Rattle.image.specs.declared.Table.TheVariants.{Functions};
ghost use Rattle.image_bodies.specs.Answer.{Whole, bodies_refusal};

use crate::body::body;
use image::refusal::Refusal;
use image_instructions::marks::BodyReader;
use image_views::BodyImage;

// Whether the body of function f is read, and nothing is left of it.
fn body_whole<const N: usize>(image: &BodyImage, reader: &mut BodyReader<N>, f: u32) -> bool
    requires row { f < count_of Functions image.now }
    requires limits { reader.old.limits ≡ limits_of image.now }
    ensures { Whole f (body_at image.now f) reader.old reader.new result }
{
    reader.function = f;
    let Some(rest) = body(reader, image.body(f)) else {
        return false;
    };
    rest.is_empty()
}

// Every body, with room for marks of N functions.
fn bodies_marked<const N: usize>(image: &BodyImage) -> Result<(), Refusal>
    requires room { count_of Functions image.now ≤ N }
    requires first { 0 < N }
    requires few { N ≤ 32768 }
    ensures { refused result ≡ bodies_refusal (bodies image.now) }
{
    let mut reader: BodyReader<N> = BodyReader::new(image.limits());
    for f in 0..image.functions() {
        if !body_whole(image, &mut reader, f) {
            return Err(Refusal::Bodies);
        }
    }
    if reader.misnested() {
        return Err(Refusal::Nesting);
    }
    Ok(())
}

// Reads every body once. Marks cost time by their room, so an image of few functions has a room of its own.
pub fn bodies_read(image: &BodyImage) -> Result<(), Refusal>
    ensures { refused result ≡ bodies_refusal (bodies image.now) }
{
    if image.functions() <= 64 {
        bodies_marked::<64>(image)
    } else {
        bodies_marked::<32768>(image)
    }
}

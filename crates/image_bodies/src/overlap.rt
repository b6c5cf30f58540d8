// Refusal 9: whether bodies share a word.
ghost use Rattle.std.specs.Prelude.{◌≡◌, ◌<◌};
ghost use Rattle.image.specs.declared.Table.TheVariants.{Functions};
ghost use Rattle.image.specs.Image.{count as count_of};
ghost use Rattle.image.specs.Check.{each, apart, apart_from_earlier};
ghost use Rattle.image_bodies.specs.Span.{Spans};

use image_views::BodyImage;

// Words from low up to high.
#[derive(Clone, Copy)]
struct Span {
    low: u32,
    high: u32,
}

// Whether two bodies have no word in common.
#[tactic(auto, unfolding(image::specs::Check::apart, image::specs::Check::inside))]
fn apart(image: &BodyImage, f: u32, g: u32) -> bool
    requires one { f < count_of Functions image.now }
    requires other { g < count_of Functions image.now }
    ensures { result ≡ apart image.now f g }
{
    image.end(f) <= image.start(g) || image.end(g) <= image.start(f)
}

// Whether body g is apart from each earlier body, all of which lie in a span.
fn apart_from_earlier(image: &BodyImage, g: u32, earlier: Span) -> bool
    requires row { g < count_of Functions image.now }
    requires earlier { Spans image.now g earlier }
    ensures { result ≡ apart_from_earlier image.now g }
{
    if earlier.high <= image.start(g) || image.end(g) <= earlier.low {
        return true;
    }
    (0..g).all(|f| apart(image, f, g))
}

// Whether no two bodies share a word.
pub fn bodies_apart(image: &BodyImage) -> bool
    ensures { result ≡ each Functions image.now (apart_from_earlier image.now) }
{
    let mut earlier = Span {
        low: u32::MAX,
        high: 0,
    };
    for g in 0..image.functions() {
        if !apart_from_earlier(image, g, earlier) {
            return false;
        }
        earlier = Span {
            low: earlier.low.min(image.start(g)),
            high: earlier.high.max(image.end(g)),
        };
    }
    true
}

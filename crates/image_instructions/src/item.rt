// Items of instructions: tag, identifier, key.
ghost use Rattle.image.specs.Body.{one_of, item_identifiers, item_keys, item as item_of, runs as runs_of, pattern_tags, items_of};
ghost use Rattle.image.specs.Read.{many as many_of};
ghost use Rattle.image.specs.Tags.{word_of};
ghost use Rattle.image_instructions.specs.Forms.{tags_said, items_said};
ghost use Rattle.image_instructions.specs.Reads.{left, Leaves};
ghost use Rattle.std.specs.Prelude.{◌≡◌};

use crate::form::{Items, Tags};
use crate::read::many;
use image::Limits;
use image::tags::Tag;

#[tactic(auto, unfolding(image::specs::Body::one_of))]
fn tag_allowed(tags: Tags, tag: Tag) -> bool
    ensures { result ≡ one_of (tags_said tags) (word_of tag) }
{
    match tags {
        Tags::Nothing => false,
        Tags::Places => matches!(tag, Tag::Place),
        Tags::Arguments => matches!(tag, Tag::Place | Tag::Spread),
        Tags::Elements => matches!(tag, Tag::Place | Tag::Spread | Tag::Hole),
        Tags::Properties => {
            matches!(
                tag,
                Tag::Spread | Tag::NamedKey | Tag::ComputedKey | Tag::OtherKey
            )
        }
        Tags::Attributes => matches!(tag, Tag::Place | Tag::Spread | Tag::Attribute),
    }
}

// The identifiers and the keys that an item of this tag may have.
#[tactic(auto, unfolding(image::specs::Body::item_identifiers))]
fn identifiers_for(limits: Limits, tag: Tag) -> u32
    ensures { result ≡ item_identifiers limits (word_of tag) }
{
    match tag {
        Tag::Hole => 1,
        _ => limits.identifiers,
    }
}

#[tactic(auto, unfolding(image::specs::Body::item_keys, image::specs::Body::one_of))]
fn keys_for(limits: Limits, tag: Tag) -> u32
    ensures { result ≡ item_keys limits (word_of tag) }
{
    match tag {
        Tag::NamedKey | Tag::Attribute => limits.names,
        Tag::ComputedKey => limits.identifiers,
        _ => 1,
    }
}

fn item(limits: Limits, tags: Tags, words: &[u32]) -> Option<&[u32]>
    ensures { Leaves (left (item_of limits (tags_said tags) words.now)) result }
{
    let [tag, identifier, key, rest @ ..] = words else {
        return None;
    };
    let Ok(tag) = Tag::try_from(*tag) else {
        return None;
    };
    if tag_allowed(tags, tag)
        && *identifier < identifiers_for(limits, tag)
        && *key < keys_for(limits, tag)
    {
        Some(rest)
    } else {
        None
    }
}

// n items of some tags.
fn some_items(limits: Limits, tags: Tags, n: u32, words: &[u32]) -> Option<&[u32]>
    ensures { Leaves (left (many_of (item_of limits (tags_said tags)) n words.now)) result }
{
    many(n, words, |rest| item(limits, tags, rest))
}

// n items of some tags, then m of others.
fn runs(limits: Limits, first: Tags, n: u32, others: Tags, m: u32, words: &[u32]) -> Option<&[u32]>
    ensures { Leaves (left (runs_of limits (tags_said first) n (tags_said others) m words.now)) result }
{
    let rest = some_items(limits, first, n, words)?;
    some_items(limits, others, m, rest)
}

#[tactic(auto, unfolding(image::specs::Body::pattern_tags))]
fn pattern_tags(aux: u32) -> Tags
    ensures { tags_said result ≡ pattern_tags aux }
{
    match aux {
        0 => Tags::Elements,
        _ => Tags::Properties,
    }
}

// n items as a form wants them, given the aux word. Not inlined, the call takes small images a sixth longer.
#[inline(always)]
pub fn items(limits: Limits, form: Items, aux: u32, n: u32, words: &[u32]) -> Option<&[u32]>
    ensures { Leaves (left (items_of limits (items_said form) aux n words.now)) result }
{
    match form {
        Items::PlacesThen(places, tags) => {
            let others = n.checked_sub(places)?;
            runs(limits, Tags::Places, places, tags, others, words)
        }
        Items::Pattern => {
            let elements = n.checked_sub(1)?;
            runs(limits, pattern_tags(aux), elements, Tags::Places, 1, words)
        }
    }
}

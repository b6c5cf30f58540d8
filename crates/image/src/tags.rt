// The tags of items.
ghost use Rattle.image.specs.Tags.{Decodes};

pub const PLACE: u32 = 0;

pub const SPREAD: u32 = 1;

pub const HOLE: u32 = 2;

pub const NAMED_KEY: u32 = 3;

pub const COMPUTED_KEY: u32 = 4;

pub const OTHER_KEY: u32 = 5;

pub const ATTRIBUTE: u32 = 6;

// What an item is.
#[derive(Clone, Copy, Debug, PartialEq, Eq)]
pub enum Tag {
    Place,
    Spread,
    Hole,
    NamedKey,
    ComputedKey,
    OtherKey,
    Attribute,
}

// A word that is no tag.
#[derive(Clone, Copy, Debug, PartialEq, Eq)]
pub struct UnknownTag(pub u32);

impl TryFrom<u32> for Tag {
    type Error = UnknownTag;

    ghost try_from_gives = { Decodes };

    fn try_from(word: u32) -> Result<Self, UnknownTag> {
        match word {
            PLACE => Ok(Tag::Place),
            SPREAD => Ok(Tag::Spread),
            HOLE => Ok(Tag::Hole),
            NAMED_KEY => Ok(Tag::NamedKey),
            COMPUTED_KEY => Ok(Tag::ComputedKey),
            OTHER_KEY => Ok(Tag::OtherKey),
            ATTRIBUTE => Ok(Tag::Attribute),
            _ => Err(UnknownTag(word)),
        }
    }
}

// An instruction of an image that passed the check: kind, lvalue, aux, n, then n items of three words: tag, identifier, key.
ghost use Rattle.std.specs.Prelude.{◌≡◌, ◌+◌, ◌*◌, ◌<◌};
ghost use Rattle.image.specs.declared.Table.TheVariants.{Identifiers};
ghost use Rattle.image.specs.Image.{word, cell};
ghost use Rattle.run_definition.specs.Fitting.{InstructionFits};

use crate::env::Env;
use crate::kind::Kind;
use image::tags::Tag;
use image::{IdentifierId, NONE, TypeId};

// The words of an item.
const ITEM_WORDS: usize = 3;

#[derive(Clone, Copy)]
pub struct Instruction<'a> {
    pub env: &'a Env<'a>,
    pub at: usize,
    pub ghost fits: { InstructionFits env.now.image.now at },
}

// An item. A word that is no tag is none, and stands in no image that passed.
#[derive(Clone, Copy)]
pub struct Item {
    pub tag: Option<Tag>,
    pub id: IdentifierId,
    pub key: u32,
}

#[tactic(auto, unfolding(run_definition::specs::Position::after_instruction))]
impl<'a> Instruction<'a> {
    ghost use Rattle.run_reading.specs.Reading.{KindAt, OrNone, ItemIs};

    pub fn new(env: &'a Env<'a>, at: usize) -> Self
        requires { InstructionFits env.now.image.now at }
        ensures env { result.env.now ≡ env.now }
        ensures at { result.at ≡ at }
    {
        Instruction { env, at }
    }

    pub fn kind(&self) -> Kind
        ensures { KindAt self.now.env.now.image.now self.now.at result }
    {
        match Kind::try_from(self.env.image[self.at]) {
            Ok(kind) => kind,
            Err(_) => unreachable!(),
        }
    }

    pub fn lvalue(&self) -> IdentifierId
        ensures { result.0 ≡ word self.now.env.now.image.now (self.now.at + 1) }
    {
        IdentifierId(self.env.image[self.at + 1])
    }

    // The slot of the lvalue.
    pub fn slot(&self) -> TypeId
        ensures { result.0 ≡ cell Identifiers self.now.env.now.image.now (word self.now.env.now.image.now (self.now.at + 1)) 0 }
    {
        self.env.slot_of(self.lvalue())
    }

    pub fn aux(&self) -> u32
        ensures { result ≡ word self.now.env.now.image.now (self.now.at + 2) }
    {
        self.env.image[self.at + 2]
    }

    // Aux of a kind whose aux is NONE for none.
    pub fn aux_or_none(&self) -> Option<u32>
        ensures { OrNone (word self.now.env.now.image.now (self.now.at + 2)) result }
    {
        let aux = self.aux();
        if aux == NONE {
            return None;
        }
        Some(aux)
    }

    // How many items there are.
    pub fn items(&self) -> u32
        ensures { result ≡ word self.now.env.now.image.now (self.now.at + 3) }
    {
        self.env.image[self.at + 3]
    }

    pub fn item(&self, k: u32) -> Item
        requires { k < word self.now.env.now.image.now (self.now.at + 3) }
        ensures { ItemIs self.now.env.now.image.now (self.now.at + 4 + 3 * k) result }
    {
        let place = self.at + 4 + ITEM_WORDS * k as usize;
        Item {
            tag: Tag::try_from(self.env.image[place]).ok(),
            id: IdentifierId(self.env.image[place + 1]),
            key: self.env.image[place + 2],
        }
    }

    // The slot of item k's identifier.
    pub fn operand(&self, k: u32) -> TypeId
        requires { k < word self.now.env.now.image.now (self.now.at + 3) }
        ensures { result.0 ≡ cell Identifiers self.now.env.now.image.now (word self.now.env.now.image.now (self.now.at + 5 + 3 * k)) 0 }
    {
        self.env.slot_of(self.item(k).id)
    }
}

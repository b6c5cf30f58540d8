// The state of generate, and one equation at a time.
#![tactic(auto)]

ghost use Rattle.run_walk.specs.Solving.{HasStep, EqualAsked, Equates, MadeAsked, EquatesMade};

use image::TypeId;
use image::refusal::Refusal;
use unifier::bind::unify;
use unifier_counts::Counts;
use unifier_nodes::node::{NODE_WORDS, put_node};
use unifier_nodes::state::Unifier;

// The unifier; the next slot to be made; where the names log of the function in hand starts, and where the log ends; the counts of the
// lookups so far. After a refusal it is as it was then.
#[derive(Drop)]
pub struct Walk<'a> {
    pub unifier: Unifier<'a>,
    pub next: u32,
    pub names: u32,
    pub log: u32,
    pub counts: Counts,
}

impl Walk<'_> {
    // Whether a step is left for what comes next.
    pub fn has_step(&self) -> Result<(), Refusal>
        ensures { HasStep self.now.unifier result }
    {
        if self.unifier.left == 0 {
            return Err(Refusal::OutOfSteps);
        }
        Ok(())
    }

    // The types of a slot and of a node are made one.
    pub fn equal(&mut self, slot: TypeId, b: u32) -> Result<(), Refusal>
        requires { EqualAsked self.old slot.0 b }
        ensures { Equates self.old slot.0 b self.new result }
    {
        unify(&mut self.unifier, slot.0, b)
    }

    // The types of a slot and of a node that is made for it are made one. Kind, x and y are the node's words.
    pub fn equal_made(&mut self, slot: TypeId, kind: u32, x: u32, y: u32) -> Result<(), Refusal>
        requires { MadeAsked self.old slot.0 kind x y }
        ensures { EquatesMade self.old slot.0 kind x y self.new result }
    {
        self.has_step()?;
        let made = self.unifier.top;
        put_node(self.unifier.words, made, kind, x, y);
        self.unifier.top = made + NODE_WORDS;
        unify(&mut self.unifier, slot.0, made)
    }
}

// What the unifier's functions work on.
ghost use Rattle.std.specs.Prelude.{◌≡◌, ◌+◌, ◌<◌, ◌^◌, length};
ghost use Rattle.unifier_nodes.specs.Work.{at};
ghost use Rattle.unifier_nodes.specs.Walks.{Stands, ReadsNode, TellsKind};
ghost use Rattle.unifier_nodes.specs.States.{Takes, Charges, BindingIs, with_binding};

use crate::node::{Node, Nodes};
use image::TypeId;
use image::refusal::Refusal;

// The work words, which hold the types as nodes and the substitution; where nodes start; the steps left; the next free word; where
// the operands in hand start. That there is room for what the steps can make is no invariant: `unify` asks for it only after its own
// step, which makes no node and can pay for one that the caller made.
#[derive(Drop)]
pub struct Unifier<'a> {
    pub words: &'a mut [u32],
    pub lo: u32,
    pub left: u32,
    pub top: u32,
    pub stack: u32,
}

// A step is taken, if one is left.
pub fn charge(left: &mut u32) -> Result<(), Refusal>
    ensures { Takes left.old left.new result }
{
    if *left == 0 {
        return Err(Refusal::OutOfSteps);
    }
    *left -= 1;
    Ok(())
}

impl Unifier<'_> {
    // The same of its steps.
    pub fn charge(&mut self) -> Result<(), Refusal>
        ensures { Charges self.old self.new result }
    {
        charge(&mut self.left)
    }

    // Its words, to be read.
    pub fn nodes(&self) -> Nodes<'_>
        ensures words { result.words.now ≡ self.now.words.now }
        ensures lo { result.lo ≡ self.now.lo }
    {
        Nodes {
            words: &self.words[..],
            lo: self.lo,
        }
    }

    pub fn node(&self, n: u32) -> Node
        requires { Stands self.now.words.now self.now.lo n }
        ensures { ReadsNode self.now.words.now self.now.lo n result }
    {
        self.nodes().node(n)
    }

    pub fn kind(&self, n: u32) -> u32
        requires { Stands self.now.words.now self.now.lo n }
        ensures { TellsKind self.now.words.now self.now.lo n result }
    {
        self.nodes().kind(n)
    }

    // The node that a slot is bound to.
    pub fn binding(&self, slot: TypeId) -> Option<u32>
        requires { slot.0 < length self.now.words.now }
        ensures { BindingIs (at self.now.words.now slot.0) result }
    {
        self.nodes().binding(slot)
    }

    // The slot is bound to the node.
    pub fn bind(&mut self, slot: TypeId, node: u32)
        requires inside { slot.0 < length self.old.words.now }
        requires fits { node + 1 < 2 ^ 32 }
        ensures { self.new ≡ with_binding self.old slot.0 node }
    {
        self.words[slot.0 as usize] = node + 1;
    }
}

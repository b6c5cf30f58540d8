// Nodes, read as an enum; equality, unions, and what a type mentions.
ghost use Rattle.std.specs.Prelude.{◌≡◌, ◌+◌, ◌≤◌, ◌<◌, ◌^◌, length};
ghost use Rattle.unifier_nodes.specs.Walks.{Stands, ReadsNode, TellsKind, with_node, type_node, TypePlaced};
ghost use Rattle.unifier_nodes.specs.Work.{at};
ghost use Rattle.unifier_nodes.specs.States.{BindingIs};
ghost use Rattle.unifier_nodes.specs.Promises.{StandBoth, StandAll, Leaves, Equals, TellsShape, UnitesWith, Unites, TellsMention, TellsMentionAll};

use image::{Table, TypeId, cell, shapes, type_kinds};

// The words of a node.
pub const NODE_WORDS: u32 = 3;

#[derive(Clone, Copy)]
pub enum Node {
    Var(TypeId),
    Primitive,
    Poly,
    ObjectMethod,
    Object(u32),
    // FUNCTION or CONSTRUCTOR, a number since it is only compared with another and written again; shape; return type
    Function(u32, u32, u32),
    // where the operands stand, and how many they are
    Phi(u32, u32),
}

// Writes a node's three words. The kind is a number, since it is the word that is written.
pub fn put_node(w: &mut [u32], top: u32, kind: u32, a: u32, b: u32)
    requires { top + 3 ≤ length w.old }
    ensures { w.new ≡ with_node w.old top kind a b }
{
    let i = top as usize;
    w[i] = kind;
    w[i + 1] = a;
    w[i + 2] = b;
}

// The node of a type of the image.
pub fn node_of_type(img: &[u32], types: u32, t: u32) -> u32
    requires { TypePlaced img.now types t }
    ensures { result ≡ type_node img.now types t }
{
    if cell(img, Table::Types, t, 0) == type_kinds::VAR {
        return cell(img, Table::Types, t, 1);
    }
    types + NODE_WORDS * t
}

// Words that hold types and bindings, and where the nodes start. It reads, and writes nothing. Whether a number is a node is no fact of
// these words alone, so each function asks it of the number that it is given.
#[derive(Clone, Copy)]
pub struct Nodes<'a> {
    pub words: &'a [u32],
    pub lo: u32,
}

impl Nodes<'_> {
    pub fn node(&self, n: u32) -> Node
        requires { Stands self.now.words.now self.now.lo n }
        ensures { ReadsNode self.now.words.now self.now.lo n result }
    {
        if n < self.lo {
            return Node::Var(TypeId(n));
        }
        // The kind is a word of the node: here the number becomes a `Node`.
        let i = n as usize;
        let kind = self.words[i];
        let a = self.words[i + 1];
        let b = self.words[i + 2];
        match kind {
            type_kinds::PRIMITIVE => Node::Primitive,
            type_kinds::POLY => Node::Poly,
            type_kinds::OBJECT_METHOD => Node::ObjectMethod,
            type_kinds::OBJECT => Node::Object(a),
            type_kinds::PHI => Node::Phi(a, b),
            _ => Node::Function(kind, a, b),
        }
    }

    // The kind of a node. A number, since it is one word of the node: `node` reads three.
    pub fn kind(&self, n: u32) -> u32
        requires { Stands self.now.words.now self.now.lo n }
        ensures { TellsKind self.now.words.now self.now.lo n result }
    {
        if n < self.lo {
            return type_kinds::VAR;
        }
        self.words[n as usize]
    }

    // The node that a slot is bound to.
    pub fn binding(&self, slot: TypeId) -> Option<u32>
        requires { slot.0 < length self.now.words.now }
        ensures { BindingIs (at self.now.words.now slot.0) result }
    {
        self.words[slot.0 as usize].checked_sub(1)
    }

    // Two nodes of one kind that is no Function. The kind is the word that was compared.
    fn leaves_equal(&self, a: u32, b: u32, kind: u32) -> bool
        requires { Leaves self.now.words.now self.now.lo a b kind }
        ensures { Equals self.now.words.now self.now.lo a b result }
    {
        match kind {
            type_kinds::VAR => a == b,
            type_kinds::PRIMITIVE | type_kinds::POLY | type_kinds::OBJECT_METHOD => true,
            type_kinds::OBJECT => self.words[a as usize + 1] == self.words[b as usize + 1],
            _ => false,
        }
    }

    // Shape and constructor of Functions are not compared; two Phis are never equal.
    pub fn type_equals(&self, a: u32, b: u32) -> bool
        requires { StandBoth self.now.words.now self.now.lo a b }
        ensures { Equals self.now.words.now self.now.lo a b result }
    {
        let mut x = a;
        let mut y = b;
        loop {
            let Node::Function(_, _, from) = self.node(x) else {
                let kind = self.kind(x);
                if kind != self.kind(y) {
                    return false;
                }
                return self.leaves_equal(x, y, kind);
            };
            let Node::Function(_, _, to) = self.node(y) else {
                return false;
            };
            x = from;
            y = to;
        }
    }

    // Whether the type is the Object of a shape.
    pub fn is_object_of(&self, n: u32, shape: u32) -> bool
        requires { Stands self.now.words.now self.now.lo n }
        ensures { TellsShape self.now.words.now self.now.lo n shape result }
    {
        if self.kind(n) != type_kinds::OBJECT {
            return false;
        }
        self.words[n as usize + 1] == shape
    }

    fn union_with(&self, readonly: u32, other: u32) -> Option<u32>
        requires { StandBoth self.now.words.now self.now.lo readonly other }
        ensures { UnitesWith self.now.words.now self.now.lo readonly other result }
    {
        if self.kind(other) == type_kinds::PRIMITIVE {
            return Some(readonly);
        }
        if self.is_object_of(other, shapes::BUILT_IN_ARRAY_ID) {
            return Some(other);
        }
        None
    }

    // The candidate type of the two, if there is one.
    pub fn try_union_types(&self, a: u32, b: u32) -> Option<u32>
        requires { StandBoth self.now.words.now self.now.lo a b }
        ensures { Unites self.now.words.now self.now.lo a b result }
    {
        if self.is_object_of(a, shapes::BUILT_IN_MIXED_READONLY_ID) {
            return self.union_with(a, b);
        }
        if self.is_object_of(b, shapes::BUILT_IN_MIXED_READONLY_ID) {
            return self.union_with(b, a);
        }
        None
    }

    // Whether the type mentions the variable.
    #[cycle(mention)]
    pub fn mentions(&self, n: u32, v: TypeId) -> bool
        requires { Stands self.now.words.now self.now.lo n }
        ensures { TellsMention self.now.words.now self.now.lo n v.0 result }
    {
        match self.node(n) {
            Node::Var(x) => x.0 == v.0,
            Node::Function(_, _, return_type) => self.mentions(return_type, v),
            Node::Phi(at, count) => self.mentions_any(n, at, count, v),
            Node::Primitive | Node::Poly | Node::ObjectMethod | Node::Object(_) => false,
        }
    }

    // Whether one of the operands does, which are nodes below last. By index, since nothing says that a slice of none lies in the words.
    #[cycle(mention)]
    fn mentions_any(&self, last: u32, at: u32, count: u32, v: TypeId) -> bool
        requires { StandAll self.now.words.now self.now.lo last at count }
        ensures { TellsMentionAll self.now.words.now self.now.lo last at count v.0 result }
    {
        for k in 0..count {
            if self.mentions(self.words[at as usize + k as usize], v) {
                return true;
            }
        }
        false
    }
}

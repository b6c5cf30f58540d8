// get, occurs_check and try_resolve_type.
#![tactic(auto)]

ghost use Rattle.std.specs.Prelude.{◌≡◌, ◌<◌};
ghost use Rattle.unifier_definition.specs.Resolve.{try_resolve_type, resolve_var};
ghost use Rattle.unifier_nodes.specs.States.{Makes, MakesPhi, RoomFor, Known, KnownAll};
ghost use Rattle.unifier_nodes.specs.Promises.{Gives, GivesAll, Readable, ReadableAll, Checks, ChecksAll, Rewrites, RewritesAll, ResolvesBy};

use image::refusal::Refusal;
use image::{TypeId, type_kinds};
use unifier_nodes::node::{NODE_WORDS, Node, Nodes, put_node};
use unifier_nodes::state::{Unifier, charge};

// Makes a node of these words.
fn make_node(unifier: &mut Unifier, kind: u32, a: u32, b: u32) -> u32
    requires { RoomFor unifier.old 0 }
    ensures { Makes unifier.old kind a b unifier.new result }
{
    let node = unifier.top;
    put_node(unifier.words, node, kind, a, b);
    unifier.top = node + NODE_WORDS;
    node
}

// Makes a Phi of so many operands in hand, which are copied to below it.
fn make_phi(unifier: &mut Unifier, count: u32) -> u32
    requires { RoomFor unifier.old count }
    ensures { MakesPhi unifier.old count unifier.new result }
{
    let stack = unifier.stack as usize;
    let operands = unifier.top;
    unifier
        .words
        .copy_within(stack..stack + count as usize, operands as usize);
    unifier.top = operands + count;
    make_node(unifier, type_kinds::PHI, operands, count)
}

// The type with what its variables are bound to put in.
#[cycle(substitution)]
pub fn get(unifier: &mut Unifier, n: u32) -> Result<u32, Refusal>
    requires { Known unifier.old n }
    ensures { Gives unifier.old n unifier.new result }
{
    unifier.charge()?;
    match unifier.node(n) {
        Node::Var(slot) => match unifier.binding(slot) {
            Some(bound) => get(unifier, bound),
            None => Ok(n),
        },
        Node::Function(kind, shape, return_type) => {
            let resolved = get(unifier, return_type)?;
            Ok(make_node(unifier, kind, shape, resolved))
        }
        Node::Phi(at, count) => {
            let resolved = get_all(unifier, at, count)?;
            Ok(make_phi(unifier, resolved))
        }
        Node::Primitive | Node::Poly | Node::ObjectMethod | Node::Object(_) => Ok(n),
    }
}

// get of each operand; the results are put with the operands in hand, and counted. An operand's own go past those before it.
#[cycle(substitution)]
fn get_all(unifier: &mut Unifier, at: u32, count: u32) -> Result<u32, Refusal>
    requires { KnownAll unifier.old at count }
    ensures { GivesAll unifier.old at count unifier.new result }
{
    for k in 0..count {
        let n = unifier.words[at as usize + k as usize];
        unifier.stack += k;
        let resolved = get(unifier, n);
        unifier.stack -= k;
        unifier.words[unifier.stack as usize + k as usize] = resolved?;
    }
    Ok(count)
}

// Whether the variable stands in the type, through bindings. It takes steps, and writes no words.
#[cycle(occurrence)]
pub fn occurs_check(nodes: &Nodes, left: &mut u32, v: TypeId, n: u32) -> Result<bool, Refusal>
    requires { Readable nodes.now.words.now nodes.now.lo n }
    ensures { Checks nodes.now.words.now nodes.now.lo left.old left.new v.0 n result }
{
    charge(left)?;
    match nodes.node(n) {
        Node::Var(slot) => {
            if slot.0 == v.0 {
                return Ok(true);
            }
            match nodes.binding(slot) {
                Some(bound) => occurs_check(nodes, left, v, bound),
                None => Ok(false),
            }
        }
        Node::Function(_, _, return_type) => occurs_check(nodes, left, v, return_type),
        Node::Phi(at, count) => occurs_any(nodes, left, v, at, count),
        Node::Primitive | Node::Poly | Node::ObjectMethod | Node::Object(_) => Ok(false),
    }
}

// Whether it stands in one of the operands.
#[cycle(occurrence)]
fn occurs_any(
    nodes: &Nodes,
    left: &mut u32,
    v: TypeId,
    at: u32,
    count: u32,
) -> Result<bool, Refusal>
    requires { ReadableAll nodes.now.words.now nodes.now.lo at count }
    ensures { ChecksAll nodes.now.words.now nodes.now.lo left.old left.new v.0 at count result }
{
    for k in 0..count {
        let n = nodes.words[at as usize + k as usize];
        if occurs_check(nodes, left, v, n)? {
            return Ok(true);
        }
    }
    Ok(false)
}

// The type without v as an operand of its Phis; each bound variable on the way is bound anew, to what it was resolved to.
#[cycle(resolution)]
pub fn try_resolve_type(unifier: &mut Unifier, v: TypeId, n: u32) -> Result<u32, Refusal>
    requires known { Known unifier.old n }
    requires slot { v.0 < unifier.old.lo }
    ensures { Rewrites unifier.old v.0 n unifier.new result }
{
    unifier.charge()?;
    match unifier.node(n) {
        Node::Var(slot) => {
            let substitution = get(unifier, n)?;
            resolve_variable(unifier, v, slot, substitution)
        }
        Node::Function(kind, shape, return_type) => {
            let got = get(unifier, return_type)?;
            let resolved = try_resolve_type(unifier, v, got)?;
            Ok(make_node(unifier, kind, shape, resolved))
        }
        Node::Phi(at, count) => {
            let resolved = resolve_all(unifier, v, at, count)?;
            Ok(make_phi(unifier, resolved))
        }
        Node::Primitive | Node::Poly | Node::ObjectMethod | Node::Object(_) => Ok(n),
    }
}

// The Var of a slot for which get gave this; if that is another type, the slot is bound to what it resolves to.
#[cycle(resolution)]
fn resolve_variable(
    unifier: &mut Unifier,
    v: TypeId,
    slot: TypeId,
    substitution: u32,
) -> Result<u32, Refusal>
    requires known { Known unifier.old substitution }
    requires slots { (v.0 < unifier.old.lo) × (slot.0 < unifier.old.lo) }
    ensures { ResolvesBy 0 (λ σ s t. resolve_var (λ σ' s' t'. try_resolve_type σ' s' v.0 t') σ s slot.0 t) unifier.old substitution unifier.new result }
{
    if unifier.nodes().type_equals(substitution, slot.0) {
        return Ok(substitution);
    }
    let resolved = try_resolve_type(unifier, v, substitution)?;
    unifier.bind(slot, resolved);
    Ok(resolved)
}

// try_resolve_type of each operand but v; the results are put with the operands in hand, and counted, as in get_all.
#[cycle(resolution)]
fn resolve_all(unifier: &mut Unifier, v: TypeId, at: u32, count: u32) -> Result<u32, Refusal>
    requires known { KnownAll unifier.old at count }
    requires slot { v.0 < unifier.old.lo }
    ensures { RewritesAll unifier.old v.0 at count unifier.new result }
{
    let mut made: u32 = 0;
    for k in 0..count {
        let n = unifier.words[at as usize + k as usize];
        if n == v.0 {
            continue;
        }
        unifier.stack += made;
        let resolved = try_resolve_type(unifier, v, n);
        unifier.stack -= made;
        unifier.words[unifier.stack as usize + made as usize] = resolved?;
        made += 1;
    }
    Ok(made)
}

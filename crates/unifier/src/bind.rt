// unify and bind_variable_to.
ghost use Rattle.std.specs.Prelude.{◌≡◌, ◌<◌};
ghost use Rattle.unifier_nodes.specs.Walks.{ReadsNode};
ghost use Rattle.unifier_nodes.specs.States.{charged, Known, KnownBoth};
ghost use Rattle.unifier_nodes.specs.Promises.{Binds, BindsSlot, UnifiesNodes};
ghost use Rattle.unifier_nodes.specs.declared.node.Node.TheVariants.{Phi};
ghost use Rattle.unifier.specs.Choices.{unify_as_functions, KnownRest, Chooses};
ghost use Rattle.unifier_definition.specs.Unify.{unify as unify_types, bind_variable_to, bind_unbound, bind_checked, bind_resolved};

use image::refusal::Refusal;
use image::{TypeId, type_kinds};
use unifier_nodes::node::Node;
use unifier_nodes::state::Unifier;
use unifier_resolve::{get, occurs_check, try_resolve_type};

// The two types are made one. Its own step makes no node: what it asks, it asks after its charge.
#[cycle(unification)]
pub fn unify(unifier: &mut Unifier, a: u32, b: u32) -> Result<(), Refusal>
    requires { KnownBoth (charged unifier.old) a b }
    ensures { UnifiesNodes unifier.old a b unifier.new result }
{
    unifier.charge()?;
    if unifier.nodes().type_equals(a, b) {
        return Ok(());
    }
    if a < unifier.lo {
        return bind_variable_to(unifier, a, b);
    }
    if b < unifier.lo {
        return bind_variable_to(unifier, b, a);
    }
    unify_functions(unifier, a, b)
}

// The return types of two Functions, if both are constructors or neither is.
#[cycle(unification)]
fn unify_functions(unifier: &mut Unifier, a: u32, b: u32) -> Result<(), Refusal>
    requires { KnownBoth unifier.old a b }
    ensures { Binds unify_as_functions unifier.old a b unifier.new result }
{
    let Node::Function(kind, _, from) = unifier.node(a) else {
        return Ok(());
    };
    let Node::Function(other, _, to) = unifier.node(b) else {
        return Ok(());
    };
    if kind != other {
        return Ok(());
    }
    unify(unifier, from, to)
}

// The variable gets the type as its binding; where it has one, the two are unified.
#[cycle(unification)]
pub fn bind_variable_to(unifier: &mut Unifier, v: u32, ty: u32) -> Result<(), Refusal>
    requires { KnownBoth unifier.old v ty }
    ensures { Binds bind_variable_to unifier.old v ty unifier.new result }
{
    unifier.charge()?;
    let Node::Var(slot) = unifier.node(v) else {
        return Ok(());
    };
    // One word tells it; as a `Node` three would be read.
    if unifier.kind(ty) == type_kinds::POLY {
        return Ok(());
    }
    match unifier.binding(slot) {
        Some(bound) => unify(unifier, bound, ty),
        None => bind_unbound(unifier, slot, ty),
    }
}

// The variable has no binding.
#[cycle(unification)]
fn bind_unbound(unifier: &mut Unifier, slot: TypeId, ty: u32) -> Result<(), Refusal>
    requires known { Known unifier.old ty }
    requires slot_inside { slot.0 < unifier.old.lo }
    ensures { BindsSlot (bind_unbound unify_types) unifier.old slot.0 ty unifier.new result }
{
    match unifier.node(ty) {
        Node::Var(other) => match unifier.binding(other) {
            Some(bound) => unify(unifier, slot.0, bound),
            None => bind_checked(unifier, slot, ty),
        },
        Node::Phi(at, count) => bind_phi(unifier, slot, ty, at, count),
        _ => bind_checked(unifier, slot, ty),
    }
}

// The operand loop of a Phi that has operands; first is what the first one resolved to. Its break carries the candidate, or none at the
// first pair without union: the project's form for this place (docs/DECISIONS.md), which counts k by hand.
fn phi_candidate(
    unifier: &mut Unifier,
    first: u32,
    at: u32,
    count: u32,
) -> Result<Option<u32>, Refusal>
    requires { KnownRest unifier.old first at count }
    ensures { Chooses unifier.old first at count unifier.new result }
{
    let mut candidate = first;
    let mut k: u32 = 1;
    let chosen = loop {
        if k >= count {
            break Some(candidate);
        }
        let n = unifier.words[at as usize + k as usize];
        let resolved = get(unifier, n)?;
        if !unifier.nodes().type_equals(resolved, candidate) {
            match unifier.nodes().try_union_types(resolved, candidate) {
                Some(union) => candidate = union,
                None => break None,
            }
        }
        k += 1;
    };
    Ok(chosen)
}

// The same where the type is this Phi. Its frame is its own, so that the other entries of the cycle have small ones.
#[cycle(unification)]
#[inline(never)]
fn bind_phi(
    unifier: &mut Unifier,
    slot: TypeId,
    ty: u32,
    at: u32,
    count: u32,
) -> Result<(), Refusal>
    requires known { Known unifier.old ty }
    requires slot_inside { slot.0 < unifier.old.lo }
    requires reads_node { ReadsNode unifier.old.words.now unifier.old.lo ty (Phi at count) }
    ensures { BindsSlot (bind_unbound unify_types) unifier.old slot.0 ty unifier.new result }
{
    if count == 0 {
        return Err(Refusal::EmptyPhi);
    }
    let n = unifier.words[at as usize];
    let first = get(unifier, n)?;
    let candidate = phi_candidate(unifier, first, at, count)?;
    match candidate {
        Some(t) => unify(unifier, slot.0, t),
        None => bind_checked(unifier, slot, ty),
    }
}

// From occurs_check on.
fn bind_checked(unifier: &mut Unifier, slot: TypeId, ty: u32) -> Result<(), Refusal>
    requires known { Known unifier.old ty }
    requires slot_inside { slot.0 < unifier.old.lo }
    ensures { BindsSlot bind_checked unifier.old slot.0 ty unifier.new result }
{
    let mut left = unifier.left;
    let occurs = occurs_check(&unifier.nodes(), &mut left, slot, ty);
    unifier.left = left;
    if occurs? {
        return bind_resolved(unifier, slot, ty);
    }
    unifier.bind(slot, ty);
    Ok(())
}

// Where the variable occurs: its type without it, or a cycle.
fn bind_resolved(unifier: &mut Unifier, slot: TypeId, ty: u32) -> Result<(), Refusal>
    requires known { Known unifier.old ty }
    requires slot_inside { slot.0 < unifier.old.lo }
    ensures { BindsSlot bind_resolved unifier.old slot.0 ty unifier.new result }
{
    let resolved = try_resolve_type(unifier, slot, ty)?;
    if unifier.nodes().mentions(resolved, slot) {
        return Err(Refusal::Cycle);
    }
    unifier.bind(slot, resolved);
    Ok(())
}

// The equations of the instructions that read and log no name, of parameters, phis and returns.
#![tactic(auto)]

ghost use Rattle.std.specs.Prelude.{◌≡◌, ◌+◌, ◌<◌, ◌≤◌, false, eqb};
ghost use mathlib.Core.List.{[], ◌∷◌, ◌++◌, flat_map};
ghost use Rattle.image.specs.Ty.{JSX, OBJECT, FUNCTION, var, prim, method, object as object_type, func};
ghost use Rattle.image.specs.Image.{word};
ghost use Rattle.image.specs.Laid.{NamesInside};
ghost use Rattle.image.specs.Program.{program};
ghost use Rattle.unifier_definition.specs.Unify.{◌≐◌};
ghost use Rattle.run_definition.specs.Equations.{when, is_flagged, global_equations, key_equations, attribute_equations};
ghost use Rattle.run_definition.specs.Generate.{component_equations, phi_equation, return_equations};
ghost use Rattle.run_definition.specs.Position.{phi_at, body_from};
ghost use Rattle.run_definition.specs.Fitting.{PhiFits, PlaceFits};
ghost use Rattle.run_layout.specs.Layout.{returned_by};
ghost use Rattle.run_reading.specs.Reading.{KindAt};
ghost use Rattle.run_reading.specs.declared.kind.Kind.TheVariants.{LoadGlobal};
ghost use Rattle.run_walk.specs.Solving.{place_type, instruction_in, item_count, lvalue_type, operand_type, Solving, Solves, SolvesBy};
ghost use Rattle.run_walk.specs.Running.{program_of};
ghost use Rattle.run_equations.specs.Parts.{IsFunction, Calls, item_in, is_ref, ComponentAsked, FunctionAsked};

use image::refusal::Refusal;
use image::tags::Tag;
use image::{IdentifierId, TypeId, markers, shapes, type_kinds};
use names::same_bytes;
use run_layout::OWN_METHOD;
use run_reading::env::Env;
use run_reading::instruction::Instruction;
use run_walk::Walk;
use unifier_nodes::node::node_of_type;

pub fn primitive(on: &Instruction, walk: &mut Walk) -> Result<(), Refusal>
    requires solving { Solving on.now.env.now walk.old }
    ensures { Solves (lvalue_type on.now ≐ prim ∷ []) 0 walk.old walk.new result }
{
    walk.equal(on.slot(), on.env.lay.own)
}

// The Object of a shape.
pub fn object(on: &Instruction, walk: &mut Walk, shape: u32) -> Result<(), Refusal>
    requires solving { Solving on.now.env.now walk.old }
    requires few { shape < 8 }
    ensures { Solves (lvalue_type on.now ≐ object_type shape ∷ []) 0 walk.old walk.new result }
{
    walk.equal(on.slot(), on.env.lay.object_of(shape))
}

pub fn object_method(on: &Instruction, walk: &mut Walk) -> Result<(), Refusal>
    requires solving { Solving on.now.env.now walk.old }
    ensures { Solves (lvalue_type on.now ≐ method ∷ []) 0 walk.old walk.new result }
{
    walk.equal(on.slot(), on.env.lay.own + OWN_METHOD)
}

// The lvalue is its first item.
pub fn alias(on: &Instruction, walk: &mut Walk) -> Result<(), Refusal>
    requires solving { Solving on.now.env.now walk.old }
    requires items { 1 ≤ item_count on.now }
    ensures { Solves (lvalue_type on.now ≐ operand_type on.now 0 ∷ []) 0 walk.old walk.new result }
{
    walk.equal(on.slot(), on.operand(0).0)
}

pub fn store_local(on: &Instruction, walk: &mut Walk) -> Result<(), Refusal>
    requires solving { Solving on.now.env.now walk.old }
    requires items { 2 ≤ item_count on.now }
    ensures { Solves (lvalue_type on.now ≐ operand_type on.now 1 ∷ operand_type on.now 0 ≐ operand_type on.now 1 ∷ []) 0 walk.old walk.new result }
{
    let value = on.operand(1);
    walk.equal(on.slot(), value.0)?;
    walk.equal(on.operand(0), value.0)
}

// Only where it is Const.
pub fn store_context(on: &Instruction, walk: &mut Walk) -> Result<(), Refusal>
    requires solving { Solving on.now.env.now walk.old }
    requires items { 2 ≤ item_count on.now }
    ensures { Solves (when (is_flagged (instruction_in on.now)) (operand_type on.now 0 ≐ operand_type on.now 1 ∷ [])) 0 walk.old walk.new result }
{
    if on.aux() != 1 {
        return Ok(());
    }
    walk.equal(on.operand(0), on.operand(1).0)
}

// Both items and the lvalue.
pub fn primitives(on: &Instruction, walk: &mut Walk) -> Result<(), Refusal>
    requires solving { Solving on.now.env.now walk.old }
    requires items { 2 ≤ item_count on.now }
    ensures { Solves (operand_type on.now 0 ≐ prim ∷ operand_type on.now 1 ≐ prim ∷ lvalue_type on.now ≐ prim ∷ []) 0 walk.old walk.new result }
{
    let own = on.env.lay.own;
    walk.equal(on.operand(0), own)?;
    walk.equal(on.operand(1), own)?;
    walk.equal(on.slot(), own)
}

pub fn binary(on: &Instruction, walk: &mut Walk) -> Result<(), Refusal>
    requires solving { Solving on.now.env.now walk.old }
    requires items { 2 ≤ item_count on.now }
    ensures { Solves (when (is_flagged (instruction_in on.now)) (operand_type on.now 0 ≐ prim ∷ operand_type on.now 1 ≐ prim ∷ []) ++ lvalue_type on.now ≐ prim ∷ []) 0 walk.old walk.new result }
{
    if on.aux() == 1 {
        return primitives(on, walk);
    }
    primitive(on, walk)
}

// The type of a global, if it has one.
pub fn load_global(on: &Instruction, walk: &mut Walk) -> Result<(), Refusal>
    requires solving { Solving on.now.env.now walk.old }
    requires kind { KindAt on.now.env.now.image.now on.now.at LoadGlobal }
    ensures { SolvesBy (λ bytes. global_equations (program on.now.env.now.image.now bytes) (lvalue_type on.now) (instruction_in on.now).aux) walk.old walk.new result }
{
    match on.aux_or_none() {
        None => Ok(()),
        Some(t) => walk.equal(on.slot(), node_of_type(on.env.image, on.env.lay.lo, t)),
    }
}

// The callee is a Function of this kind and shape that returns a made type, which is the lvalue's. Both are words of its node: NONE is no
// shape.
pub fn call(
    on: &Instruction,
    walk: &mut Walk,
    callee: TypeId,
    kind: u32,
    shape: u32,
) -> Result<(), Refusal>
    requires solving { Solving on.now.env.now walk.old }
    requires callee { callee.0 < walk.old.unifier.lo }
    requires kind { IsFunction kind }
    ensures { Calls on.now walk.old callee.0 kind shape walk.new result }
{
    walk.has_step()?;
    let made = TypeId(walk.next);
    walk.equal_made(callee, kind, shape, made.0)?;
    walk.next = made.0 + 1;
    walk.equal(on.slot(), made.0)
}

// A FunctionExpression's own equation, after its function, of which this is the slot of the returns identifier.
pub fn function_type(on: &Instruction, walk: &mut Walk, returns: TypeId) -> Result<(), Refusal>
    requires solving { Solving on.now.env.now walk.old }
    requires returns { returns.0 < walk.old.unifier.lo }
    ensures { Solves (lvalue_type on.now ≐ func false FUNCTION (var returns.0) ∷ []) 0 walk.old walk.new result }
{
    walk.equal_made(
        on.slot(),
        type_kinds::FUNCTION,
        shapes::BUILT_IN_FUNCTION_ID,
        returns.0,
    )
}

// Computed keys are Primitive.
pub fn object_expression(on: &Instruction, walk: &mut Walk) -> Result<(), Refusal>
    requires solving { Solving on.now.env.now walk.old }
    ensures { SolvesBy (λ bytes. flat_map (key_equations (program on.now.env.now.image.now bytes)) (instruction_in on.now).items ++ lvalue_type on.now ≐ object_type OBJECT ∷ []) walk.old walk.new result }
{
    for k in 0..on.items() {
        let item = on.item(k);
        if item.tag == Some(Tag::ComputedKey) {
            walk.equal(on.env.slot_of(IdentifierId(item.key)), on.env.lay.own)?;
        }
    }
    object(on, walk, shapes::BUILT_IN_OBJECT_ID)
}

// Whether item k is an attribute "ref".
fn is_ref_attribute(on: &Instruction, k: u32) -> bool
    requires names { NamesInside on.now.env.now.image.now on.now.env.now.names.now }
    requires item { k < item_count on.now }
    ensures { result ≡ is_ref (program_of on.now.env.now) (item_in on.now k) }
{
    let item = on.item(k);
    item.tag == Some(Tag::Attribute) && same_bytes(on.env.name(item.key), b"ref")
}

fn ref_attributes(on: &Instruction, walk: &mut Walk) -> Result<(), Refusal>
    requires solving { Solving on.now.env.now walk.old }
    requires names { NamesInside on.now.env.now.image.now on.now.env.now.names.now }
    ensures { Solves (flat_map (attribute_equations (program_of on.now.env.now)) (instruction_in on.now).items) 0 walk.old walk.new result }
{
    for k in 0..on.items() {
        if is_ref_attribute(on, k) {
            walk.equal(
                on.operand(k),
                on.env.lay.object_of(shapes::BUILT_IN_USE_REF_ID),
            )?;
        }
    }
    Ok(())
}

// Under option bit 0 an attribute "ref" is USE_REF.
pub fn jsx_expression(on: &Instruction, walk: &mut Walk) -> Result<(), Refusal>
    requires solving { Solving on.now.env.now walk.old }
    requires names { NamesInside on.now.env.now.image.now on.now.env.now.names.now }
    ensures { Solves (when (program_of on.now.env.now).treats_refs (flat_map (attribute_equations (program_of on.now.env.now)) (instruction_in on.now).items) ++ lvalue_type on.now ≐ object_type JSX ∷ []) 0 walk.old walk.new result }
{
    if on.env.treats_refs() {
        ref_attributes(on, walk)?;
    }
    object(on, walk, shapes::BUILT_IN_JSX_ID)
}

// The place of a phi is the Phi of its operands.
pub fn phi(env: &Env, walk: &mut Walk, at: usize) -> Result<(), Refusal>
    requires solving { Solving env.now walk.old }
    requires fits { PhiFits env.now.image.now at }
    ensures { SolvesBy (λ bytes. phi_equation (program env.now.image.now bytes) (phi_at env.now.image.now at) ∷ []) walk.old walk.new result }
{
    walk.equal_made(
        env.slot_at(at),
        type_kinds::PHI,
        env.lay.places + at as u32 + 2,
        env.image[at + 1],
    )
}

// A parameter that is a place has this shape.
fn param(env: &Env, walk: &mut Walk, at: usize, shape: u32) -> Result<(), Refusal>
    requires solving { Solving env.now walk.old }
    requires place { PlaceFits env.now.image.now (at + 1) }
    requires few { shape < 8 }
    ensures { Solves (when (eqb (word env.now.image.now at) 0) (place_type env.now.image.now (at + 1) ≐ object_type shape ∷ [])) 0 walk.old walk.new result }
{
    // One comparison with a named number is no plainer as an enum, here and in `component`.
    if env.image[at] != markers::PLACE_PARAM {
        return Ok(());
    }
    walk.equal(env.slot_at(at + 1), env.lay.object_of(shape))
}

// The first parameter of a Component is PROPS, the second USE_REF.
pub fn component(env: &Env, walk: &mut Walk, at: usize) -> Result<(), Refusal>
    requires solving { Solving env.now walk.old }
    requires fits { ComponentAsked env.now.image.now at }
    ensures { SolvesBy (λ bytes. component_equations (program env.now.image.now bytes) (body_from env.now.image.now at)) walk.old walk.new result }
{
    if env.image[at] != markers::COMPONENT {
        return Ok(());
    }
    let n = env.image[at + 2];
    if n == 0 {
        return Ok(());
    }
    param(env, walk, at + 3, shapes::BUILT_IN_PROPS_ID)?;
    if n == 1 {
        return Ok(());
    }
    param(env, walk, at + 5, shapes::BUILT_IN_USE_REF_ID)
}

// The returns identifier is what is returned: nothing, one type, or a Phi of them.
pub fn returns(env: &Env, walk: &mut Walk, f: u32, at: usize) -> Result<(), Refusal>
    requires solving { Solving env.now walk.old }
    requires fits { FunctionAsked env.now.image.now f at }
    ensures { SolvesBy (λ bytes. return_equations (program env.now.image.now bytes) (place_type env.now.image.now (at + 1)) (returned_by env.now.image.now f)) walk.old walk.new result }
{
    let from = env.lay.returns + at as u32;
    let place = env.slot_at(at + 1);
    match walk.unifier.words[from as usize] {
        0 => Ok(()),
        1 => {
            let one = walk.unifier.words[from as usize + 1];
            walk.equal(place, one)
        }
        n => walk.equal_made(place, type_kinds::PHI, from + 1, n),
    }
}

// The names log, and the equations that read it.
#![tactic(auto)]

ghost use Rattle.std.specs.Prelude.{◌≡◌, ◌+◌, ◌≤◌, ◌<◌, [], ◌∷◌};
ghost use Rattle.image.specs.Image.{word, count};
ghost use Rattle.image.specs.declared.Table.TheVariants.{Identifiers};
ghost use Rattle.image.specs.Kind.{LoadLocal, PropertyLoad, PropertyStore, ComputedLoad, CallExpression, Destructure};
ghost use Rattle.unifier_properties.specs.Lookup.{KeyInside};
ghost use Rattle.run_walk.specs.Solving.{item_count};
ghost use Rattle.run_walk.specs.Running.{Ready, GeneratesAs};
ghost use Rattle.run_equations.specs.Parts.{item_in};
ghost use Rattle.run_naming.specs.Naming.{FindsName, TellsShape, TellsRef, Does, property_equation, PropertyAsked, literal_key, LogAsked, LogsName, pattern_of, item_equations};

use image::refusal::Refusal;
use image::tags::Tag;
use image::{IdentifierId, NONE, TypeId, shapes, type_kinds};
use names::{is_ref_like_name, same_bytes, starts_with_set};
use run_equations::call;
use run_reading::env::Env;
use run_reading::instruction::Instruction;
use run_walk::Walk;
use unifier::access::{Places, unify_property};
use unifier_counts::counted;
use unifier_properties::Key;

// The words of an entry of the names log: an identifier, and the number of its name.
const ENTRY_WORDS: usize = 2;

// Aux of a Destructure with an array pattern; any other has an object pattern.
const ARRAY_PATTERN: u32 = 0;

// The newest name that is logged for an identifier, empty if there is none.
fn logged_name<'a>(env: &Env<'a>, walk: &Walk, id: IdentifierId) -> &'a [u8]
    requires ready { Ready env.now walk.now }
    ensures { FindsName env.now walk.now id.0 result.now }
{
    let log = &walk.unifier.words[walk.names as usize..walk.log as usize];
    for entry in log.rchunks_exact(ENTRY_WORDS) {
        if entry[0] == id.0 {
            return env.name(entry[1]);
        }
    }
    &[]
}

// The shape of a call's callee, if it has one: by option bit 1, a callee whose name starts with "set" may be a state setter.
fn callee_shape(env: &Env, walk: &Walk, id: IdentifierId) -> Option<u32>
    requires ready { Ready env.now walk.now }
    ensures { TellsShape env.now walk.now id.0 result }
{
    if !env.treats_setters() {
        return None;
    }
    if starts_with_set(logged_name(env, walk, id)) {
        return Some(shapes::BUILT_IN_SET_STATE_ID);
    }
    None
}

// Whether option bit 0 and the names make this access one of a ref; only a property "current" can be.
fn is_ref_access(env: &Env, walk: &Walk, id: IdentifierId, key: Key) -> bool
    requires ready { Ready env.now walk.now }
    requires key { KeyInside env.now.image.now key }
    ensures { TellsRef env.now walk.now id.0 key result }
{
    if !env.treats_refs() {
        return false;
    }
    let Key::String(n) = key else {
        return false;
    };
    let name = env.name(n);
    same_bytes(name, b"current") && is_ref_like_name(logged_name(env, walk, id), name)
}

// A slot is a property of an identifier.
fn property(
    env: &Env,
    walk: &mut Walk,
    slot: TypeId,
    id: IdentifierId,
    key: Key,
) -> Result<(), Refusal>
    requires { PropertyAsked env.now walk.old slot.0 id.0 key }
    ensures { Does (λ ns. property_equation env.now ns slot.0 id.0 key ∷ []) env.now walk.old walk.new result }
{
    let ref_like = is_ref_access(env, walk, id, key);
    let object = env.slot_of(id);
    let places = Places {
        types: env.lay.lo,
        use_ref: env.lay.object_of(shapes::BUILT_IN_USE_REF_ID),
        ref_value: env.lay.object_of(shapes::BUILT_IN_REF_VALUE_ID),
    };
    let image = env.named();
    let accessed = unify_property(
        &image,
        &mut walk.unifier,
        places,
        slot.0,
        object.0,
        key,
        ref_like,
    );
    walk.counts = counted(walk.counts, accessed.given);
    accessed.outcome
}

// The key of a load or a store: a name, or a number.
#[tactic(auto, unfolding(crate::specs::Naming::literal_key))]
fn literal(on: &Instruction) -> Key
    ensures { result ≡ literal_key (word on.now.env.now.image.now (on.now.at + 2)) }
{
    match on.aux_or_none() {
        Some(n) => Key::String(n),
        None => Key::Number,
    }
}

pub fn property_load(on: &Instruction, walk: &mut Walk) -> Result<(), Refusal>
    requires ready { Ready on.now.env.now walk.old }
    requires items { 1 ≤ item_count on.now }
    requires kind { word on.now.env.now.image.now on.now.at ≡ 23 }
    ensures { GeneratesAs PropertyLoad on.now walk.old walk.new result }
{
    property(on.env, walk, on.slot(), on.item(0).id, literal(on))
}

pub fn computed_load(on: &Instruction, walk: &mut Walk) -> Result<(), Refusal>
    requires ready { Ready on.now.env.now walk.old }
    requires items { 1 ≤ item_count on.now }
    ensures { GeneratesAs ComputedLoad on.now walk.old walk.new result }
{
    property(on.env, walk, on.slot(), on.item(0).id, Key::Computed)
}

// A callee whose logged name starts with "set" may be a state setter.
pub fn call_expression(on: &Instruction, walk: &mut Walk) -> Result<(), Refusal>
    requires ready { Ready on.now.env.now walk.old }
    requires items { 1 ≤ item_count on.now }
    ensures { GeneratesAs CallExpression on.now walk.old walk.new result }
{
    let shape = callee_shape(on.env, walk, on.item(0).id).unwrap_or(NONE);
    call(on, walk, on.operand(0), type_kinds::FUNCTION, shape)
}

// A slot is made for what is stored.
pub fn property_store(on: &Instruction, walk: &mut Walk) -> Result<(), Refusal>
    requires ready { Ready on.now.env.now walk.old }
    requires items { 1 ≤ item_count on.now }
    requires kind { word on.now.env.now.image.now on.now.at ≡ 22 }
    ensures { GeneratesAs PropertyStore on.now walk.old walk.new result }
{
    walk.has_step()?;
    let slot = TypeId(walk.next);
    property(on.env, walk, slot, on.item(0).id, literal(on))?;
    walk.next = slot.0 + 1;
    Ok(())
}

// The pattern of a Destructure.
#[derive(Clone, Copy)]
enum Pattern {
    Array,
    Object,
}

// By aux.
impl From<u32> for Pattern {
    ghost from_gives = { λ aux pattern. pattern ≡ pattern_of aux };

    #[tactic(auto, unfolding(crate::specs::Naming::pattern_of))]
    fn from(aux: u32) -> Pattern {
        if aux == ARRAY_PATTERN {
            return Pattern::Array;
        }
        Pattern::Object
    }
}

// Item k of a pattern: in an array, a place is the value's property of that position, and a spread is an array; in an object, a key with a
// name is the value's property of that name.
fn pattern_item(
    on: &Instruction,
    walk: &mut Walk,
    pattern: Pattern,
    value: IdentifierId,
    k: u32,
) -> Result<(), Refusal>
    requires ready { Ready on.now.env.now walk.old }
    requires item { k < item_count on.now }
    requires value { value.0 < count Identifiers on.now.env.now.image.now }
    ensures { Does (λ ns. item_equations on.now.env.now ns pattern value.0 k (item_in on.now k)) on.now.env.now walk.old walk.new result }
{
    let env = on.env;
    let item = on.item(k);
    let slot = on.operand(k);
    let Some(tag) = item.tag else {
        return Ok(());
    };
    match (pattern, tag) {
        (Pattern::Array, Tag::Place) => property(env, walk, slot, value, Key::Position(k)),
        (Pattern::Array, Tag::Spread) => walk.equal(
            slot,
            env.lay.object_of(shapes::BUILT_IN_ARRAY_ID),
        ),
        (Pattern::Object, Tag::NamedKey) => property(env, walk, slot, value, Key::String(item.key)),
        _ => Ok(()),
    }
}

// The value of a Destructure is its last item, and those before it are its pattern.
pub fn destructure(on: &Instruction, walk: &mut Walk) -> Result<(), Refusal>
    requires ready { Ready on.now.env.now walk.old }
    requires items { 1 ≤ item_count on.now }
    ensures { GeneratesAs Destructure on.now walk.old walk.new result }
{
    let pattern = Pattern::from(on.aux());
    let last = on.items() - 1;
    let value = on.item(last).id;
    for k in 0..last {
        pattern_item(on, walk, pattern, value, k)?;
    }
    Ok(())
}

// Logs the name of what is loaded, if it has one.
fn log_name(env: &Env, walk: &mut Walk, id: IdentifierId, source: IdentifierId)
    requires { LogAsked env.now walk.old source.0 }
    ensures { LogsName env.now walk.old walk.new id.0 source.0 }
{
    if let Some(n) = env.name_of(source) {
        let log = walk.log as usize;
        walk.unifier.words[log] = id.0;
        walk.unifier.words[log + 1] = n;
        walk.log += 2;
    }
}

// The name is logged after the equation.
pub fn load_local(on: &Instruction, walk: &mut Walk) -> Result<(), Refusal>
    requires ready { Ready on.now.env.now walk.old }
    requires items { 1 ≤ item_count on.now }
    ensures { GeneratesAs LoadLocal on.now walk.old walk.new result }
{
    walk.equal(on.slot(), on.operand(0).0)?;
    log_name(on.env, walk, on.lvalue(), on.item(0).id);
    Ok(())
}

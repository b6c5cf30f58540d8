// apply_function: the type of each visited slot is resolved.
#![tactic(auto)]

ghost use Rattle.std.specs.Prelude.{ℕ, ◌+◌, ◌*◌, ◌<◌};
ghost use Rattle.image.specs.declared.Table.TheVariants.{Identifiers, Functions};
ghost use Rattle.image.specs.Image.{word, count};
ghost use Rattle.image.specs.Program.{program};
ghost use Rattle.run_definition.specs.Visits.{visits};
ghost use Rattle.run_definition.specs.Position.{after_phis, after_instructions, terminal_place};
ghost use Rattle.run_definition.specs.Fitting.{IdentifiersAt, InstructionsFit, PhisFit, BlockFits, BlocksFit};
ghost use Rattle.run_reading.specs.Reading.{NamesAbove};
ghost use Rattle.run_apply.specs.Applying.{Applying, Applies, PassingIn, AppliesIn, AppliesToIn, identifier_visits, item_visits_at, items_visits_at, context_visits_at, phis_visits_at, inner_visits, nested_visits_at, instruction_visits_at, instructions_visits_at, block_visits_at, blocks_visits_at};

use image::IdentifierId;
use image::refusal::Refusal;
use image::tags::Tag;
use run_reading::env::Env;
use run_reading::instruction::Instruction;
use run_reading::kind::Kind;
use unifier_nodes::state::Unifier;
use unifier_resolve::get;

fn resolve_identifier(env: &Env, unifier: &mut Unifier, id: IdentifierId) -> Result<(), Refusal>
    requires passing { PassingIn env.now unifier.old }
    requires id_bound { id.0 < count Identifiers env.now.image.now }
    ensures { (f b i k : ℕ) → AppliesIn (λ img. identifier_visits img f b i k id.0) env.now unifier.old unifier.new result }
{
    let entry = env.lay.entries as usize + env.slot_of(id).0 as usize;
    let node = unifier.words[entry];
    let resolved = get(unifier, node)?;
    unifier.words[entry] = resolved;
    Ok(())
}

// An item's identifier, a hole's 0 aside, and an ObjectExpression's computed key.
fn apply_item(instruction: Instruction, unifier: &mut Unifier, k: u32) -> Result<(), Refusal>
    requires passing { PassingIn instruction.env.now unifier.old }
    requires k_bound { k < word instruction.env.now.image.now (instruction.at + 3) }
    ensures { (f b i : ℕ) → AppliesIn (λ img. item_visits_at img f b i k instruction.entry.at (instruction.entry.at + 4 + 3 * k)) instruction.entry.env.now unifier.old unifier.new result }
{
    let item = instruction.item(k);
    if item.tag == Some(Tag::Hole) {
        return Ok(());
    }
    resolve_identifier(instruction.env, unifier, item.id)?;
    if item.tag == Some(Tag::ComputedKey) && instruction.kind() != Kind::Destructure {
        resolve_identifier(instruction.env, unifier, IdentifierId(item.key))?;
    }
    Ok(())
}

fn apply_items(instruction: Instruction, unifier: &mut Unifier) -> Result<(), Refusal>
    requires passing { PassingIn instruction.env.now unifier.old }
    ensures { (f b i : ℕ) → AppliesIn (λ img. items_visits_at img f b i instruction.entry.at 0 (instruction.entry.at + 4) (word img (instruction.entry.at + 3))) instruction.entry.env.now unifier.old unifier.new result }
{
    for k in 0..instruction.items() {
        apply_item(instruction, unifier, k)?;
    }
    Ok(())
}

fn apply_context(env: &Env, unifier: &mut Unifier, from: usize, n: u32) -> Result<(), Refusal>
    requires passing { PassingIn env.now unifier.old }
    requires identifiers_at { IdentifiersAt env.now.image.now from n }
    ensures { (f b i : ℕ) → AppliesIn (λ img. context_visits_at img f b i from n) env.now unifier.old unifier.new result }
{
    for k in 0..n {
        resolve_identifier(env, unifier, IdentifierId(env.image[from + k as usize]))?;
    }
    Ok(())
}

// The context of an inner function, and its body.
#[cycle(application)]
fn apply_inner(env: &Env, unifier: &mut Unifier, f: u32) -> Result<(), Refusal>
    requires passing { PassingIn env.now unifier.old }
    requires f_bound { f < count Functions env.now.image.now }
    ensures { (o b i : ℕ) → AppliesIn (λ img. nested_visits_at img o b i f) env.now unifier.old unifier.new result }
{
    let body = env.body(f);
    let context = env.after_rows(body + 2, 2);
    apply_context(env, unifier, context + 1, env.image[context])?;
    apply_function(env, unifier, f)
}

// Lvalue, items, and the function that a FunctionExpression or an ObjectMethod names.
#[cycle(application)]
fn apply_instruction(instruction: Instruction, unifier: &mut Unifier, f: u32) -> Result<(), Refusal>
    requires passing { PassingIn instruction.env.now unifier.old }
    requires above { NamesAbove instruction.env.now.image.now f instruction.at }
    ensures { (b i : ℕ) → AppliesIn (λ img. instruction_visits_at img f b i instruction.entry.at) instruction.entry.env.now unifier.old unifier.new result }
{
    resolve_identifier(instruction.env, unifier, instruction.lvalue())?;
    apply_items(instruction, unifier)?;
    match instruction.kind() {
        Kind::ObjectMethod | Kind::FunctionExpression => {
            apply_inner(instruction.env, unifier, instruction.aux())
        }
        _ => Ok(()),
    }
}

// Instructions, phis and a block answer where reading goes on.
#[cycle(application)]
fn apply_instructions(
    env: &Env,
    unifier: &mut Unifier,
    f: u32,
    from: usize,
    n: u32,
) -> Result<usize, Refusal>
    requires passing { PassingIn env.now unifier.old }
    requires instructions_fit { InstructionsFit env.now.image.now f from n }
    ensures { (b : ℕ) → AppliesToIn (λ img. after_instructions img from n) (λ img. instructions_visits_at img f b 0 from n) env.now unifier.old unifier.new result }
{
    let mut at = from;
    for _ in 0..n {
        apply_instruction(Instruction::new(&*env, at), unifier, f)?;
        at = env.after_rows(at + 3, 3);
    }
    Ok(at)
}

fn apply_phis(env: &Env, unifier: &mut Unifier, from: usize, n: u32) -> Result<usize, Refusal>
    requires passing { PassingIn env.now unifier.old }
    requires phis_fit { PhisFit env.now.image.now from n }
    ensures { (f b : ℕ) → AppliesToIn (λ img. after_phis img from n) (λ img. phis_visits_at img f b from n) env.now unifier.old unifier.new result }
{
    let mut at = from;
    for _ in 0..n {
        resolve_identifier(env, unifier, IdentifierId(env.image[at]))?;
        at = env.after_rows(at + 1, 1);
    }
    Ok(at)
}

#[cycle(application)]
fn apply_block(env: &Env, unifier: &mut Unifier, f: u32, at: usize) -> Result<usize, Refusal>
    requires passing { PassingIn env.now unifier.old }
    requires block_fits { BlockFits env.now.image.now f at }
    ensures { (b : ℕ) → AppliesToIn (λ img. terminal_place img at) (λ img. block_visits_at img f b at) env.now unifier.old unifier.new result }
{
    let count = apply_phis(env, unifier, at + 1, env.image[at])?;
    apply_instructions(env, unifier, f, count + 1, env.image[count])
}

#[cycle(application)]
fn apply_blocks(
    env: &Env,
    unifier: &mut Unifier,
    f: u32,
    from: usize,
    n: u32,
) -> Result<(), Refusal>
    requires passing { PassingIn env.now unifier.old }
    requires blocks_fit { BlocksFit env.now.image.now f from n }
    ensures { AppliesIn (λ img. blocks_visits_at img f 0 from n) env.now unifier.old unifier.new result }
{
    let mut at = from;
    for _ in 0..n {
        let terminal = apply_block(env, unifier, f, at)?;
        at = terminal + 2;
    }
    Ok(())
}

#[cycle(application)]
fn apply_function(env: &Env, unifier: &mut Unifier, f: u32) -> Result<(), Refusal>
    requires passing { PassingIn env.now unifier.old }
    requires f_bound { f < count Functions env.now.image.now }
    ensures { AppliesIn (λ img bytes. inner_visits img bytes f) env.now unifier.old unifier.new result }
{
    let at = env.body(f);
    let context = env.after_rows(at + 2, 2);
    let blocks = env.after_rows(context, 1);
    apply_blocks(env, unifier, f, blocks + 1, env.image[blocks])?;
    resolve_identifier(env, unifier, IdentifierId(env.image[at + 1]))
}

// The outermost function, and all inside it. A refusal ends the pass at once; the steps left are the unifier's then too.
pub fn apply(env: &Env, unifier: &mut Unifier) -> Result<(), Refusal>
    requires { Applying env.now.image.now env.now.lay unifier.old }
    ensures { Applies (λ bytes. visits (program env.now.image.now bytes)) env.now.image.now env.now.lay unifier.old unifier.new result }
{
    apply_function(env, unifier, 0)
}

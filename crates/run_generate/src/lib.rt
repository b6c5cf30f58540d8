// generate: the equations of a function and of those in it, unified as they come.
#![tactic(auto)]

ghost use Rattle.std.specs.Prelude.{◌<◌, ◌≡◌};
ghost use Rattle.image.specs.Image.{count};
ghost use Rattle.image.specs.Kind.{FunctionExpression};
ghost use Rattle.image.specs.Body.{kind_of};
ghost use Rattle.run_definition.specs.Position.{after_phis, after_instructions, terminal_place};
ghost use Rattle.run_definition.specs.Fitting.{InstructionOfFits, InstructionsFit, PhisFit, BlockFits, BlocksFit};
ghost use Rattle.run_reading.specs.Reading.{KindAt, NamesAbove};
ghost use Rattle.run_walk.specs.Solving.{instruction_in};
ghost use Rattle.run_walk.specs.Running.{program_of, Ready, Generates, GeneratesTo, GeneratesAs};
ghost use Rattle.run_generate.specs.Generating.{generate_for, nested_gives, instruction_gives, instructions_give, phis_give, block_gives, blocks_give, function_gives};

use image::refusal::Refusal;
use image::{NONE, Table, shapes, type_kinds};
use run_equations::{
    alias, binary, call, component, function_type, jsx_expression, load_global, object,
    object_expression, object_method, phi, primitive, primitives, returns, store_context,
    store_local,
};
use run_naming::{
    call_expression, computed_load, destructure, load_local, property_load, property_store,
};
use run_reading::env::Env;
use run_reading::instruction::Instruction;
use run_reading::kind::Kind;
use run_walk::Walk;

// A FunctionExpression's own equation: its function's returns identifier stands in the body's second word.
fn function_expression(on: &Instruction, walk: &mut Walk) -> Result<(), Refusal>
    requires ready { Ready on.now.env.now walk.old }
    requires kind { KindAt on.now.env.now.image.now on.now.at Kind.FunctionExpression }
    ensures { GeneratesAs FunctionExpression on.now walk.old walk.new result }
{
    let body = on.env.body(on.aux());
    function_type(on, walk, on.env.slot_at(body + 1))
}

// The equations of an instruction by its kind; an inner function is done before. Its frame is its own, so that the cycle below has small
// ones.
#[inline(never)]
fn instruction_types(on: &Instruction, walk: &mut Walk) -> Result<(), Refusal>
    requires ready { Ready on.now.env.now walk.old }
    ensures { GeneratesAs (kind_of (instruction_in on.now)) on.now walk.old walk.new result }
{
    match on.kind() {
        Kind::LoadLocal => load_local(on, walk),
        Kind::StoreLocal => store_local(on, walk),
        Kind::StoreContext => store_context(on, walk),
        Kind::Destructure => destructure(on, walk),
        Kind::Primitive
        | Kind::JSXText
        | Kind::UnaryExpression
        | Kind::PropertyDelete
        | Kind::ComputedDelete
        | Kind::TemplateLiteral
        | Kind::NextPropertyOf => primitive(on, walk),
        Kind::BinaryExpression => binary(on, walk),
        Kind::NewExpression => call(on, walk, on.operand(0), type_kinds::CONSTRUCTOR, NONE),
        Kind::CallExpression => call_expression(on, walk),
        Kind::MethodCall => call(on, walk, on.operand(1), type_kinds::FUNCTION, NONE),
        Kind::TypeCastExpression | Kind::StoreGlobal => alias(on, walk),
        Kind::JsxExpression => jsx_expression(on, walk),
        Kind::ObjectExpression => object_expression(on, walk),
        Kind::ObjectMethod => object_method(on, walk),
        Kind::ArrayExpression => object(on, walk, shapes::BUILT_IN_ARRAY_ID),
        Kind::JsxFragment => object(on, walk, shapes::BUILT_IN_JSX_ID),
        Kind::PropertyStore => property_store(on, walk),
        Kind::PropertyLoad => property_load(on, walk),
        Kind::ComputedLoad => computed_load(on, walk),
        Kind::LoadGlobal => load_global(on, walk),
        Kind::FunctionExpression => function_expression(on, walk),
        Kind::TaggedTemplateExpression => {
            call(on, walk, on.operand(0), type_kinds::FUNCTION, NONE)
        }
        Kind::PrefixUpdate | Kind::PostfixUpdate => primitives(on, walk),
        Kind::LoadContext
        | Kind::DeclareLocal
        | Kind::DeclareContext
        | Kind::RegExpLiteral
        | Kind::MetaProperty
        | Kind::ComputedStore
        | Kind::Await
        | Kind::GetIterator
        | Kind::IteratorNext
        | Kind::Debugger
        | Kind::StartMemoize
        | Kind::FinishMemoize => Ok(()),
    }
}

// The function that an instruction names, if it names one, with a stretch of the names log of its own; f is the function around it.
#[cycle(generation)]
fn inner(on: &Instruction, walk: &mut Walk, f: u32) -> Result<(), Refusal>
    requires ready { Ready on.now.env.now walk.old }
    requires above { NamesAbove on.now.env.now.image.now f on.now.at }
    ensures { Generates (nested_gives on.now) on.now.env.now walk.old walk.new result }
{
    let (Kind::ObjectMethod | Kind::FunctionExpression) = on.kind() else {
        return Ok(());
    };
    let names = walk.names;
    let log = walk.log;
    walk.names = log;
    generate_function(on.env, walk, on.aux())?;
    walk.names = names;
    walk.log = log;
    Ok(())
}

// The function that an instruction names, then its own equations.
#[cycle(generation)]
fn generate_instruction(env: &Env, walk: &mut Walk, f: u32, at: usize) -> Result<(), Refusal>
    requires ready { Ready env.now walk.old }
    requires instruction_of_fits { InstructionOfFits env.now.image.now f at }
    ensures { Generates (instruction_gives env.now at) env.now walk.old walk.new result }
{
    // Lent again, since an instruction holds its environment only as long as it lives.
    let on = Instruction::new(&*env, at);
    inner(&on, walk, f)?;
    instruction_types(&on, walk)
}

// Instructions, phis and a block answer where reading goes on.
#[cycle(generation)]
fn generate_instructions(
    env: &Env,
    walk: &mut Walk,
    f: u32,
    from: usize,
    n: u32,
) -> Result<usize, Refusal>
    requires ready { Ready env.now walk.old }
    requires instructions_fit { InstructionsFit env.now.image.now f from n }
    ensures { GeneratesTo (after_instructions env.now.image.now from n) (instructions_give env.now from n) env.now walk.old walk.new result }
{
    let mut at = from;
    for _ in 0..n {
        generate_instruction(env, walk, f, at)?;
        at = env.after_rows(at + 3, 3);
    }
    Ok(at)
}

fn generate_phis(env: &Env, walk: &mut Walk, from: usize, n: u32) -> Result<usize, Refusal>
    requires ready { Ready env.now walk.old }
    requires phis_fit { PhisFit env.now.image.now from n }
    ensures { GeneratesTo (after_phis env.now.image.now from n) (phis_give env.now from n) env.now walk.old walk.new result }
{
    let mut at = from;
    for _ in 0..n {
        phi(env, walk, at)?;
        at = env.after_rows(at + 1, 1);
    }
    Ok(at)
}

// Phis, then instructions.
#[cycle(generation)]
fn generate_block(env: &Env, walk: &mut Walk, f: u32, at: usize) -> Result<usize, Refusal>
    requires ready { Ready env.now walk.old }
    requires block_fits { BlockFits env.now.image.now f at }
    ensures { GeneratesTo (terminal_place env.now.image.now at) (block_gives env.now at) env.now walk.old walk.new result }
{
    let count = generate_phis(env, walk, at + 1, env.image[at])?;
    generate_instructions(env, walk, f, count + 1, env.image[count])
}

#[cycle(generation)]
fn generate_blocks(env: &Env, walk: &mut Walk, f: u32, from: usize, n: u32) -> Result<(), Refusal>
    requires ready { Ready env.now walk.old }
    requires blocks_fit { BlocksFit env.now.image.now f from n }
    ensures { Generates (blocks_give env.now from n) env.now walk.old walk.new result }
{
    let mut at = from;
    for _ in 0..n {
        let terminal = generate_block(env, walk, f, at)?;
        at = terminal + 2;
    }
    Ok(())
}

// Parameters, blocks, returns. Its stretch of the names log starts where the log ends.
#[cycle(generation)]
fn generate_function(env: &Env, walk: &mut Walk, f: u32) -> Result<(), Refusal>
    requires ready { Ready env.now walk.old }
    requires own { walk.old.names ≡ walk.old.log }
    requires f_bound { f < count Table.Functions env.now.image.now }
    ensures { Generates (function_gives env.now f) env.now walk.old walk.new result }
{
    let at = env.body(f);
    component(env, walk, at)?;
    let context = env.after_rows(at + 2, 2);
    let blocks = env.after_rows(context, 1);
    generate_blocks(env, walk, f, blocks + 1, env.image[blocks])?;
    returns(env, walk, f, at)
}

// The outermost function, and all inside it.
pub fn generate(env: &Env, walk: &mut Walk) -> Result<(), Refusal>
    requires ready { Ready env.now walk.old }
    requires own { walk.old.names ≡ walk.old.log }
    ensures { Generates (λ ns k. generate_for (program_of env.now) 0 k) env.now walk.old walk.new result }
{
    generate_function(env, walk, 0)
}

// The tables: every slot's type, then each bound slot's number and binding.
#![tactic(auto)]

ghost use Rattle.std.specs.Prelude.{◌≡◌, length};
ghost use mathlib.Core.List.{flat_map};
ghost use Rattle.image.specs.Ty.{written};
ghost use Rattle.run_definition.specs.Tables.{made_types};
ghost use Rattle.run_tables.specs.Standing.{AnswerAsked, AnswersTables};
ghost use Rattle.run_tables.specs.Output.{target, emit, has_room};
ghost use Rattle.run_tables.specs.Writing.{Asks, Emits, AsksRow, EmitsRow, AsksBindings, EmitsBindings, AsksTables, EmitsTables, Sizes, WriteAsked, Writes};

pub mod output;

use image::refusal::Refusal;
use image::{TypeId, type_kinds};
use output::{Counter, Output, Writer};
use run_answer::Answer;
use run_layout::Layout;
use unifier_counts::Counts;
use unifier_nodes::node::{Node, Nodes};

// Words of the tables, and rows of the binding table.
#[derive(Clone, Copy)]
struct Size {
    words: usize,
    bindings: u32,
}

// A type's words, put at a place. Gives the next place, as all that follow. The kind is a word that hosts read.
#[cycle(types)]
pub fn emit_type<O: Output>(nodes: &Nodes, n: u32, out: &mut O, at: usize) -> usize
    requires { Asks O.sink nodes.now.words.now nodes.now.lo n (target out.old at) }
    ensures { Emits O.sink nodes.now.words.now nodes.now.lo n (target out.old at) (target out.new result) }
{
    match nodes.node(n) {
        Node::Var(x) => out.put_two(at, type_kinds::VAR, x.0),
        Node::Primitive => out.put(at, type_kinds::PRIMITIVE),
        Node::Poly => out.put(at, type_kinds::POLY),
        Node::ObjectMethod => out.put(at, type_kinds::OBJECT_METHOD),
        Node::Object(s) => out.put_two(at, type_kinds::OBJECT, s),
        Node::Function(kind, s, ret) => {
            let next = out.put_two(at, kind, s);
            emit_type(nodes, ret, out, next)
        }
        Node::Phi(from, count) => {
            let next = out.put_two(at, type_kinds::PHI, count);
            emit_list(nodes, n, from, count, out, next)
        }
    }
}

// The same of a list of nodes below last. Where there are none, `from` may lie past the words, so it is no part of them that is gone over.
#[cycle(types)]
fn emit_list<O: Output>(
    nodes: &Nodes,
    last: u32,
    from: u32,
    count: u32,
    out: &mut O,
    at: usize,
) -> usize
    requires { AsksRow O.sink nodes.now.words.now nodes.now.lo last from count (target out.old at) }
    ensures { EmitsRow O.sink nodes.now.words.now nodes.now.lo last from count (target out.old at) (target out.new result) }
{
    let mut next = at;
    for k in 0..count {
        let n = nodes.words[from as usize + k as usize];
        next = emit_type(nodes, n, out, next);
    }
    next
}

// Each made slot is its own Var.
fn emit_made<O: Output>(slots: u32, made: u32, out: &mut O, at: usize) -> usize
    requires { has_room O.sink (target out.old at) (length (flat_map written (made_types slots made))) }
    ensures { target out.new result ≡ emit O.sink (target out.old at) (flat_map written (made_types slots made)) }
{
    let mut next = at;
    for k in slots..made {
        next = out.put_two(next, type_kinds::VAR, k);
    }
    next
}

// The bindings of the slots below `made`, which are counted too.
fn emit_bindings<O: Output>(nodes: &Nodes, made: u32, out: &mut O, at: usize) -> Size
    requires { AsksBindings O.sink nodes.now.words.now nodes.now.lo made (target out.old at) }
    ensures { EmitsBindings O.sink nodes.now.words.now nodes.now.lo made (target out.old at) out.new result }
{
    let mut words = at;
    let mut bindings: u32 = 0;
    for k in 0..made {
        if let Some(bound) = nodes.binding(TypeId(k)) {
            let next = out.put(words, k);
            words = emit_type(nodes, bound, out, next);
            bindings += 1;
        }
    }
    Size { words, bindings }
}

// Every slot's type, then the bindings.
fn emit_tables<O: Output>(w: &[u32], lay: Layout, made: u32, out: &mut O) -> Size
    requires { AsksTables O.sink w.now lay made (target out.old 0) }
    ensures { EmitsTables O.sink w.now lay made (target out.old 0) out.new result }
{
    let nodes = Nodes {
        words: w,
        lo: lay.lo,
    };
    let types = emit_list(&nodes, w.len() as u32, lay.entries, lay.slots, out, 0);
    let all = emit_made(lay.slots, made, out, types);
    emit_bindings(&nodes, made, out, all)
}

fn total_size(w: &[u32], lay: Layout, made: u32) -> Size
    requires { AnswerAsked w.now lay made }
    ensures { Sizes w.now lay made result }
{
    emit_tables(w, lay, made, &mut Counter)
}

pub fn write(w: &[u32], lay: Layout, made: u32, t: &mut [u32])
    requires { WriteAsked w.now lay made t.old }
    ensures { Writes w.now lay made t.old t.new }
{
    let mut out = Writer { table: t };
    emit_tables(w, lay, made, &mut out);
}

// The answer of a finished run, or the refusal of one whose tables are too long, with the length that they want.
pub fn table_answer(
    w: &[u32],
    lay: Layout,
    steps: u32,
    made: u32,
    counts: Counts,
    lent: usize,
) -> Result<Answer, Answer>
    requires { AnswerAsked w.now lay made }
    ensures { AnswersTables w.now lay made steps counts lent result }
{
    let size = total_size(w, lay, made);
    if size.words > lent {
        return Err(Answer::refused(Refusal::TableWords, steps, size.words as u32));
    }
    Ok(Answer {
        number: 0,
        steps,
        slots: made,
        bindings: size.bindings,
        table_words: size.words as u32,
        exact: counts.exact as u32,
        star: counts.star as u32,
        hook: counts.hook as u32,
        nothing: counts.nothing as u32,
    })
}

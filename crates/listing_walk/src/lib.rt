// The variables of a listing, in order: depth first, each once. They stand where a finished run has done with the work words.
#![tactic(auto)]

ghost use Rattle.std.specs.Prelude.{◌≡◌, ◌+◌, ℕ};
ghost use Rattle.listing_walk.specs.Walk.{order_at, mark_at, Places, Placed, PushAsked, Pushes, PushAllAsked, PushesAll, SeekAsked, Seeks, ListAsked, ListsOne, ListsAsked, ListsAll};

use image::TypeId;
use run_layout::Layout;
use unifier_nodes::node::{Node, Nodes};

// Where the variables listed stand, one after another: in the second half of the names log.
pub fn order_of(lay: Layout) -> u32
    requires { (size : ℕ) × Places lay size }
    ensures { result ≡ order_at lay }
{
    lay.log + (lay.lo - lay.slots)
}

// Where a listed variable's place among them stands: after the slots' types, or that of a made slot over the first half of the names log.
fn mark_of(lay: Layout, x: TypeId) -> u32
    requires { Placed lay x.0 }
    ensures { result ≡ mark_at lay x.0 }
{
    if x.0 < lay.slots {
        return lay.entries + lay.slots + x.0;
    }
    lay.log + (x.0 - lay.slots)
}

// The variables of a type put at the end of those pending, the leftmost last: it is the next. Gives their new end.
#[cycle(pushes)]
fn push_variables(w: &mut [u32], lo: u32, n: u32, end: u32) -> u32
    requires { PushAsked w.old lo n end }
    ensures { Pushes w.old w.new lo n end result }
{
    let nodes = Nodes { words: w, lo };
    match nodes.node(n) {
        Node::Var(x) => {
            w[end as usize] = x.0;
            end + 1
        }
        Node::Primitive | Node::Poly | Node::ObjectMethod | Node::Object(_) => end,
        Node::Function(_, _, ret) => push_variables(w, lo, ret, end),
        Node::Phi(at, count) => push_operands(w, lo, n, at, count, end),
    }
}

// The same of a list of nodes below last, from right to left.
#[cycle(pushes)]
fn push_operands(w: &mut [u32], lo: u32, last: u32, at: u32, count: u32, from: u32) -> u32
    requires { PushAllAsked w.old lo last at count from }
    ensures { PushesAll w.old w.new lo last at count from result }
{
    let mut end = from;
    for k in (0..count).rev() {
        let n = w[at as usize + k as usize];
        end = push_variables(w, lo, n, end);
    }
    end
}

// A listing on its way: how many variables are listed, and where those that are pending end, both in lent words: there is no heap.
#[derive(Drop)]
struct Walk<'a> {
    words: &'a mut [u32],
    lay: Layout,
    listed: u32,
    end: u32,
}

impl Walk<'_> {
    // The words, to be read.
    fn nodes(&self) -> Nodes<'_>
        ensures words { result.words.now ≡ self.now.words.now }
        ensures lo { result.lo ≡ self.now.lay.lo }
    {
        Nodes {
            words: &self.words[..],
            lo: self.lay.lo,
        }
    }

    // Whether a variable is listed. What stands at the mark of one that is not may be any word.
    fn is_listed(&self, x: TypeId) -> bool
        requires { SeekAsked self.now.words.now self.now.lay self.now.listed x.0 }
        ensures { Seeks self.now.words.now self.now.lay self.now.listed x.0 result }
    {
        let k = self.words[mark_of(self.lay, x) as usize];
        if k >= self.listed {
            return false;
        }
        self.words[order_of(self.lay) as usize + k as usize] == x.0
    }

    // The next variable is listed, and those in its binding are pending.
    fn list(&mut self, x: TypeId)
        requires { ListAsked self.old.words.now self.old.lay self.old.listed x.0 self.old.end }
        ensures same_words { self.new.words.ghost_name ≡ self.old.words.ghost_name }
        ensures same_layout { self.new.lay ≡ self.old.lay }
        ensures one_more { self.new.listed ≡ self.old.listed + 1 }
        ensures lists { ListsOne self.old.words.now self.new.words.now self.old.lay self.old.listed x.0 self.old.end self.new.end }
    {
        self.words[mark_of(self.lay, x) as usize] = self.listed;
        self.words[order_of(self.lay) as usize + self.listed as usize] = x.0;
        self.listed += 1;
        if let Some(bound) = self.nodes().binding(x) {
            self.end = push_variables(self.words, self.lay.lo, bound, self.end);
        }
    }
}

// The variable of a slot and all that it leads to; gives how many they are.
pub fn list_variables(w: &mut [u32], lay: Layout, slot: u32) -> u32
    requires { ListsAsked w.old lay slot }
    ensures { ListsAll w.old w.new lay slot result }
{
    let mut walk = Walk {
        words: w,
        lay,
        listed: 0,
        end: lay.stack,
    };
    walk.list(TypeId(slot));
    // Those that are pending grow as they are taken, so that no iterator goes over them.
    while walk.end > lay.stack {
        walk.end -= 1;
        let x = TypeId(walk.words[walk.end as usize]);
        if !walk.is_listed(x) {
            walk.list(x);
        }
    }
    walk.listed
}

// Where things stand in the work words, and what is laid out there before the first equation.
#![tactic(auto)]

ghost use Rattle.std.specs.Prelude.{◌≡◌, ◌+◌, ◌*◌, ◌≤◌, ◌<◌, length, true};
ghost use Rattle.image.specs.Image.{word, count as count_of, node_at};
ghost use Rattle.image.specs.Check.{node_sound};
ghost use Rattle.run_definition.specs.Position.{after_phis, after_instructions, terminal_place, blocks_place};
ghost use Rattle.run_definition.specs.Fitting.{PhisFit};
ghost use Rattle.run_layout.specs.Layout.{layout_of, LayAsked, LaysOut};
ghost use Rattle.run_layout.specs.Regions.{ImageFits, Regions, SomeInstructions, SomeBlock};

use image::{IdentifierId, Table, cell, count, markers, type_kinds};
use unifier_nodes::node::{NODE_WORDS, node_of_type, put_node};

// The own nodes: the Primitive; after so many words the ObjectMethod; after so many the Objects of the first shapes.
pub const OWN_METHOD: u32 = NODE_WORDS;

pub const OWN_OBJECTS: u32 = 2 * NODE_WORDS;

// How many shapes these are, and the words of all own nodes.
pub const OWN_SHAPES: u32 = 8;

pub const OWN_WORDS: u32 = OWN_OBJECTS + OWN_SHAPES * NODE_WORDS;

// The image's slots; where the nodes start; the lists of the image's Phis; by image position the slot of the identifier there; by
// a body's position the slots that it returns; the own nodes; where nodes are made; the operands in hand; the names log; the slots' types.
#[derive(Clone, Copy)]
pub struct Layout {
    pub slots: u32,
    pub lo: u32,
    pub lists: u32,
    pub places: u32,
    pub returns: u32,
    pub own: u32,
    pub top: u32,
    pub stack: u32,
    pub log: u32,
    pub entries: u32,
}

impl Layout {
    // The layout for an image and a budget.
    #[tactic(auto, unfolding(crate::specs::Layout::layout_of))]
    fn new(img: &[u32], budget: u32) -> Self
        requires { ImageFits img.now budget }
        ensures { result ≡ layout_of img.now budget }
    {
        let size = img.len() as u32;
        let slots = count(img, Table::Slots);
        let lo = slots + budget;
        let lists = lo + NODE_WORDS * count(img, Table::Types);
        let places = lists + count(img, Table::Lists);
        let returns = places + size;
        let own = returns + size;
        let top = own + OWN_WORDS;
        let stack = top + 4 * budget;
        let log = stack + budget;
        let entries = log + 2 * budget;
        Layout {
            slots,
            lo,
            lists,
            places,
            returns,
            own,
            top,
            stack,
            log,
            entries,
        }
    }

    // The node of the Object of a shape below 8.
    pub fn object_of(&self, shape: u32) -> u32
        requires { self.now.own + 6 + 3 * shape < 4294967296 }
        ensures { result ≡ self.now.own + 6 + 3 * shape }
    {
        self.own + OWN_OBJECTS + NODE_WORDS * shape
    }
}

// Where rows of so many words end; their count stands at a position, before the first.
pub fn after_rows(img: &[u32], at: usize, width: usize) -> usize
    requires { at + 1 + width * word img.now at ≤ length img.now }
    ensures { result ≡ at + 1 + width * word img.now at }
{
    at + 1 + width * img[at] as usize
}

// Where n phis end.
fn after_phis(img: &[u32], from: usize, n: u32) -> usize
    requires { PhisFit img.now from n }
    ensures { result ≡ after_phis img.now from n }
{
    let mut at = from;
    for _ in 0..n {
        at = after_rows(img, at + 1, 1);
    }
    at
}

// Where n instructions end.
fn after_instructions(img: &[u32], from: usize, n: u32) -> usize
    requires { SomeInstructions img.now from n }
    ensures { result ≡ after_instructions img.now from n }
{
    let mut at = from;
    for _ in 0..n {
        at = after_rows(img, at + 3, 3);
    }
    at
}

// Where a block's terminal stands.
fn terminal_place(img: &[u32], block: usize) -> usize
    requires { SomeBlock img.now block }
    ensures { result ≡ terminal_place img.now block }
{
    let count = after_phis(img, block + 1, img[block]);
    after_instructions(img, count + 1, img[count])
}

// Where a body's block count stands.
#[tactic(auto, unfolding(run_definition::specs::Position::blocks_place, run_definition::specs::Position::context_place))]
fn blocks_place(img: &[u32], body: usize) -> usize
    requires { blocks_place img.now body < length img.now }
    ensures { result ≡ blocks_place img.now body }
{
    let context = after_rows(img, body + 2, 2);
    after_rows(img, context, 1)
}

// The work words while they are laid out: their parts lie one after the other.
#[derive(Drop)]
struct Laying<'a> {
    image: &'a [u32],
    words: &'a mut [u32],
    lay: Layout,
    ghost regions: { Regions image.now words.now lay },
}

impl Laying<'_> {
    ghost use Rattle.run_layout.specs.Laying.{LaysPart, TypesSound, LaysType, LaysTypes, LaysLists, LaysPlaces, LaysOwn, ReturnedAsked, LaysReturned, PlacesLaid, BodiesApart, LaysReturns, SlotsTyped, LaysEntries};

    // A type of the table as a node. No enum of kinds: the table's word becomes the node's as it is.
    fn lay_type(&mut self, t: u32)
        requires row { t < count_of Table.Types self.old.image.now }
        requires sound { node_sound self.old.image.now t (node_at self.old.image.now t) ≡ true }
        ensures { LaysPart (LaysType t) self.old self.new }
    {
        let kind = cell(self.image, Table::Types, t, 0);
        let a = cell(self.image, Table::Types, t, 1);
        let b = cell(self.image, Table::Types, t, 2);
        let (a, b) = match kind {
            type_kinds::FUNCTION | type_kinds::CONSTRUCTOR => {
                (a, node_of_type(self.image, self.lay.lo, b))
            }
            type_kinds::PHI => (self.lay.lists + a, b),
            _ => (a, b),
        };
        put_node(self.words, self.lay.lo + NODE_WORDS * t, kind, a, b);
    }

    fn lay_types(&mut self)
        requires { TypesSound self.old.image.now }
        ensures { LaysPart LaysTypes self.old self.new }
    {
        for t in 0..count(self.image, Table::Types) {
            self.lay_type(t);
        }
    }

    // List words that are no type numbers are in no Phi.
    fn lay_lists(&mut self)
        ensures { LaysPart LaysLists self.old self.new }
    {
        let types = count(self.image, Table::Types);
        for k in 0..count(self.image, Table::Lists) {
            let t = cell(self.image, Table::Lists, k, 0);
            if t < types {
                let node = node_of_type(self.image, self.lay.lo, t);
                self.words[self.lay.lists as usize + k as usize] = node;
            }
        }
    }

    // The slot of each word that can be an identifier.
    fn lay_places(&mut self)
        ensures { LaysPart LaysPlaces self.old self.new }
    {
        let n = count(self.image, Table::Identifiers);
        for k in 0..self.image.len() {
            let id = IdentifierId(self.image[k]);
            if id.0 < n {
                let slot = image::slot_of(self.image, id);
                self.words[self.lay.places as usize + k] = slot.0;
            }
        }
    }

    // The own nodes. Their kinds are words too.
    fn lay_own(&mut self)
        ensures { LaysPart LaysOwn self.old self.new }
    {
        let own = self.lay.own;
        put_node(self.words, own, type_kinds::PRIMITIVE, 0, 0);
        put_node(
            self.words,
            own + OWN_METHOD,
            type_kinds::OBJECT_METHOD,
            0,
            0,
        );
        for s in 0..OWN_SHAPES {
            let node = own + OWN_OBJECTS + NODE_WORDS * s;
            put_node(self.words, node, type_kinds::OBJECT, s, 0);
        }
    }

    // The slots of the Return terminals of n blocks, after their count. A terminal is one word, compared with one number.
    fn lay_returned(&mut self, returns: usize, from: usize, n: u32)
        requires { ReturnedAsked self.old returns from n }
        ensures { LaysPart (LaysReturned returns from n) self.old self.new }
    {
        let mut at = from;
        let mut m: u32 = 0;
        for _ in 0..n {
            let terminal = terminal_place(self.image, at);
            if self.image[terminal] == markers::RETURN {
                let slot = self.words[self.lay.places as usize + terminal + 1];
                m += 1;
                self.words[returns + m as usize] = slot;
            }
            at = terminal + 2;
        }
        self.words[returns] = m;
    }

    // The slots that each function returns.
    fn lay_returns(&mut self)
        requires places { PlacesLaid self.old }
        requires bodies { BodiesApart self.old.image.now }
        ensures { LaysPart LaysReturns self.old self.new }
    {
        for f in 0..count(self.image, Table::Functions) {
            let at = cell(self.image, Table::Functions, f, 0) as usize;
            let blocks = blocks_place(self.image, at);
            let n = self.image[blocks];
            self.lay_returned(self.lay.returns as usize + at, blocks + 1, n);
        }
    }

    // The type each slot enters with.
    fn lay_entries(&mut self)
        requires { SlotsTyped self.old.image.now }
        ensures { LaysPart LaysEntries self.old self.new }
    {
        for k in 0..self.lay.slots {
            let t = cell(self.image, Table::Slots, k, 0);
            let node = node_of_type(self.image, self.lay.lo, t);
            self.words[self.lay.entries as usize + k as usize] = node;
        }
    }
}

pub fn lay_out(img: &[u32], w: &mut [u32], budget: u32) -> Layout
    requires { LayAsked img.now w.old budget }
    ensures { LaysOut img.now w.old w.new budget result }
{
    let lay = Layout::new(img, budget);
    let mut laying = Laying {
        image: img,
        words: w,
        lay,
    };
    laying.lay_types();
    laying.lay_lists();
    laying.lay_places();
    laying.lay_own();
    laying.lay_returns();
    laying.lay_entries();
    lay
}

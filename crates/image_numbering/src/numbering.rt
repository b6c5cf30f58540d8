// Numbers for pairs: places of two lists get one number exactly if they have one pair.
ghost use Rattle.std.specs.Prelude.{◌≡◌, ℕ, ◌≤◌, ◌<◌, length, take};
ghost use Rattle.image_numbering.specs.Numbering.{at, Later, Linked, Twin, Chain, Chained, Pairs};

// Two lists side by side: a pair of numbers at each place, of which the second is the place's key.
#[derive(Drop)]
pub(crate) struct PairList<'a> {
    firsts: &'a [u16],
    keys: &'a [u16],
    ghost one_length: { length firsts.now ≡ length keys.now },
    ghost few: { length keys.now ≤ 65536 },
}

impl<'a> PairList<'a> {
    // The first n places of two lists.
    pub(crate) fn first(n: usize, firsts: &'a [u16], keys: &'a [u16]) -> Self
        requires few { n ≤ 65536 }
        requires firsts { n ≤ length firsts.now }
        requires keys { n ≤ length keys.now }
        ensures firsts { result.firsts.now ≡ take n firsts.now }
        ensures keys { result.keys.now ≡ take n keys.now }
    {
        PairList {
            firsts: &firsts[..n],
            keys: &keys[..n],
        }
    }

    // f where it has the pair of place c, else c.
    fn twin(&self, c: usize, f: usize) -> usize
        requires { c < length self.now.keys.now }
        ensures { Twin self.now.firsts.now self.now.keys.now c f result }
    {
        if self.keys.len() <= f
            || self.firsts[f] != self.firsts[c]
            || self.keys[f] != self.keys[c]
        {
            c
        } else {
            f
        }
    }
}

// t where it is a later place than i with the same key, else i.
fn later(keys: &[u16], i: usize, t: usize) -> usize
    requires { i < length keys.now }
    ensures { Later keys.now i t result }
{
    if t <= i || keys.len() <= t || keys[t] != keys[i] {
        i
    } else {
        t
    }
}

// Room for links between the places that have one key, and for the numbers of their pairs.
#[derive(Drop)]
pub struct Links {
    // A key's first place.
    head: [u16; 65536],
    // A place's next one with the same key.
    pub(crate) next: [u16; 65536],
    // The last number given with a first number.
    recent: [u16; 65536],
}

impl Links {
    pub fn new() -> Self {
        Links {
            head: [0; 65536],
            next: [0; 65536],
            recent: [0; 65536],
        }
    }

    // Links the places by key.
    pub(crate) fn link(&mut self, keys: &[u16])
        requires { length keys.now ≤ 65536 }
        ensures { Linked keys.now self.new.head self.new.next 0 }
    {
        for i in (0..keys.len()).rev() {
            let y = keys[i] as usize;
            self.next[i] = later(keys, i, self.head[y] as usize) as u16;
            self.head[y] = i as u16;
        }
    }

    // Numbers the places with the key of start, the first of them.
    fn number_chain(&mut self, pairs: &PairList, out: &mut [u16], start: usize)
        requires chain { Chain pairs.now.keys.now self.old.next start }
        requires room { length pairs.now.keys.now ≤ length out.old }
        ensures links_kept { (self.new.head ≡ self.old.head) × (self.new.next ≡ self.old.next) }
        ensures chained { Chained pairs.now.firsts.now pairs.now.keys.now out.old out.new (at pairs.now.keys.now start) }
    {
        let firsts = pairs.firsts;
        let mut c = start;
        // A loop and no range: the links lead on from place to place.
        loop {
            let x = firsts[c] as usize;
            let number = pairs.twin(c, self.recent[x] as usize) as u16;
            self.recent[x] = number;
            out[c] = number;
            let t = self.next[c] as usize;
            if t <= c {
                return;
            }
            c = t;
        }
    }

    // Numbers the places key by key.
    fn number_chains(&mut self, pairs: &PairList, out: &mut [u16])
        requires linked { Linked pairs.now.keys.now self.old.head self.old.next 0 }
        requires room { length pairs.now.keys.now ≤ length out.old }
        ensures { Pairs (length pairs.now.keys.now) (at pairs.now.firsts.now) (at pairs.now.keys.now) out.new }
    {
        for (j, key) in pairs.keys.iter().enumerate() {
            if self.head[*key as usize] as usize == j {
                self.number_chain(pairs, out, j);
            }
        }
    }

    // Numbers the places by their pairs.
    pub(crate) fn number_pairs(&mut self, pairs: &PairList, out: &mut [u16])
        requires { length pairs.now.keys.now ≤ length out.old }
        ensures { Pairs (length pairs.now.keys.now) (at pairs.now.firsts.now) (at pairs.now.keys.now) out.new }
    {
        self.link(pairs.keys);
        self.number_chains(pairs, out);
    }
}

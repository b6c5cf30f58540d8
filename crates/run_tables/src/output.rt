// Where the words of a table go: they are counted, or written.
ghost use Rattle.std.specs.Prelude.{◌≡◌, [], ◌∷◌};
ghost use Rattle.run_tables.specs.Output.{Sink, target, emit, has_room, Lawful, counting, counting_lawful, writing, writing_lawful};

// Takes words one after another. Where the next goes is handed on by value, so that it stays in a register: kept in the output, a
// count took half as long again, and so did writing.
pub trait Output {
    ghost sink: { Sink Self };

    // Puts a word at a place, and gives the next place.
    fn put(&mut self, at: usize, word: u32) -> usize
        requires { has_room sink (target self.old at) 1 }
        ensures { target self.new result ≡ emit sink (target self.old at) (word ∷ []) };

    fn put_two(&mut self, at: usize, first: u32, second: u32) -> usize
        requires { has_room sink (target self.old at) 2 }
        ensures { target self.new result ≡ emit sink (target self.old at) (first ∷ second ∷ []) }
    {
        let next = self.put(at, first);
        self.put(next, second)
    }

    ghost lawful: { Lawful sink };
}

// Counts the words, as many as an answer can tell: the place after the last is their number.
#[derive(Clone, Copy)]
pub struct Counter;

impl Output for Counter {
    ghost sink = { counting };

    ghost lawful = { counting_lawful };

    fn put(&mut self, at: usize, _word: u32) -> usize {
        at + 1
    }
}

// Writes the words to a table.
#[derive(Drop)]
pub struct Writer<'a> {
    pub table: &'a mut [u32],
}

impl<'a> Output for Writer<'a> {
    ghost sink = { writing };

    ghost lawful = { writing_lawful };

    fn put(&mut self, at: usize, word: u32) -> usize {
        self.table[at] = word;
        at + 1
    }
}

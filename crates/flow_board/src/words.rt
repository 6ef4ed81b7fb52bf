ghost use Rattle.std.specs.Prelude.{◌≡◌, ◌+◌, ◌<◌, slice_index};
ghost use Rattle.flow_board.specs.Closed.{cell_in, done_in, least_in};

use crate::rule::TAKEN;
use atomic_table::Closed;
use gold_field::Gold;
use std::alloc::Global;
use std::marker::Model;

/// The words of a closed board.
pub struct Words {
    pub(crate) cells: u32,
    pub(crate) strands: u32,
    pub(crate) closed: Closed<u32, Global>,
}

impl Model for Words {
    ghost use Rattle.std.specs.Prelude.{◌≡◌, ◌+◌};
    ghost use Rattle.std.specs.Slots.{slots_items, slots_len, IsFull};
    ghost use Rattle.flow_board.specs.Closed.{ClosedWords, closed_words, AreInRange};

    ghost Value = { ClosedWords };

    ghost view = { λ w. closed_words w.cells w.strands (slots_items w.closed.words) };

    ghost invariant = { λ w.
        AreInRange (closed_words w.cells w.strands (slots_items w.closed.words))
        × IsFull w.closed.words × (slots_len w.closed.words ≡ 1 + w.cells + w.strands)
        × (slots_len w.closed.slots ≡ 0) };
}

impl Drop for Words {
    fn drop(self) {
        let Words {
            cells: _,
            strands: _,
            closed,
        } = self;
        closed.free();
    }
}

impl Words {
    fn word(&self, at: usize) -> u64
        requires { at < 1 + self.now.cells + self.now.strands }
        ensures { result ≡ slice_index self.now.words at }
    {
        self.closed.word(at)
    }

    /// The value of a cell, where it has one.
    pub fn cell(&self, cell: u32) -> Option<Gold>
        requires { cell < self.now.cells }
        ensures { result ≡ cell_in self.now cell }
    {
        // A look at a field opens the type, so that the proof has what it keeps.
        let _ = &self.cells;
        let word = self.word(1 + cell as usize);
        if word == 0 { None } else { Gold::new(word - 1) }
    }

    /// Whether a strand's word is that of a strand which was taken: below the least refused strand
    /// it is done.
    pub fn done(&self, strand: u32) -> bool
        requires { strand < self.now.strands }
        ensures { result ≡ done_in self.now strand }
    {
        self.word(1 + self.cells as usize + strand as usize) == TAKEN
    }

    /// The least refused strand.
    pub fn least(&self) -> Option<u32>
        ensures { result ≡ least_in self.now }
    {
        let word = self.word(0);
        if word == u64::from(self.strands) {
            None
        } else {
            Some(word as u32)
        }
    }
}

//! Declared signals, and which of their elements are written.
ghost use Rattle.std.specs.Prelude.{◌≡◌, false, length, replicate};
ghost use Rattle.cir_arrays.specs.Made.{made_count};

use cir_ast::Text;
use cir_ast::program::{Direction, Spot};
use smallvec::SmallVec;

/// A declared signal: the number of its first element, and which elements are written.
pub struct SignalEntry {
    pub name: Text,
    pub direction: Direction,
    /// Where it is declared.
    pub spot: Spot,
    pub dims: Vec<u64>,
    pub first: u128,
    /// None of an array that is too large.
    pub written: SmallVec<bool, 8>,
    pub ghost sized: { length written.items ≡ made_count dims.items },
}

// Written out, so that the proof of an owner sees one call and not the drop of each part.
impl Drop for SignalEntry {
    fn drop(self) {
        let SignalEntry {
            name: _name,
            direction: _direction,
            spot: _spot,
            dims: _dims,
            first: _first,
            written: _written,
        } = self;
    }
}

impl SignalEntry {
    ghost use Rattle.cir_meaning.specs.Frame as M;
    ghost use Rattle.cir_meaning.specs.Writing.{marked};
    ghost use Rattle.cir_frame.specs.Shown.{signal_of};

    /// Whether it is an input, which its template reads and never writes.
    pub fn is_input(&self) -> bool
        ensures { result ≡ M.is_input self.now.direction }
    {
        matches!(self.direction, Direction::Input)
    }

    /// Whether it is neither input nor output, and so can't be named outside its template.
    pub fn is_inner(&self) -> bool
        ensures { result ≡ M.is_inner self.now.direction }
    {
        matches!(self.direction, Direction::Inner)
    }

    /// Whether the element is written. Elements of an array that wasn't made need no write.
    pub fn is_written(&self, place: u64) -> bool
        ensures { result ≡ M.is_written (signal_of self.now) place }
    {
        match self.written.as_slice().get(place as usize) {
            Some(written) => *written,
            None => true,
        }
    }

    /// Whether each element is written; so it is in an array that wasn't made.
    pub fn is_all_written(&self) -> bool
        ensures { result ≡ M.is_all_written (signal_of self.now) }
    {
        for written in self.written.as_slice() {
            if !*written {
                return false;
            }
        }
        true
    }

    /// Marks the element as written.
    pub fn mark(&mut self, place: u64)
        ensures { signal_of self.new ≡ marked (signal_of self.old) place }
    {
        if place < self.written.len() as u64 {
            self.written.as_mut_slice()[place as usize] = true;
        }
    }

    /// Marks all elements as not written.
    pub fn unmark(&mut self)
        ensures { signal_of self.new ≡ record (signal_of self.old) {
          written = replicate (length (signal_of self.old).written) false;
        } }
    {
        clear(self.written.as_mut_slice());
    }
}

fn clear(marks: &mut [bool])
    ensures { marks.new ≡ replicate (length marks.old) false }
{
    for k in 0..marks.len() {
        marks[k] = false;
    }
}

ghost use Rattle.std.specs.Prelude.{◌≡◌, ◌∷◌, ◌++◌, [], length, IfOk, OnOk, OnErr};

use smallvec::SmallVec;
use std::alloc::{AllocError, Global};
use std::marker::Model;

/// A list of numbers: in every contract, the list of its elements.
///
/// Up to four lie in the value itself. So lists that are many and short, as the cells that a step
/// reads, take no memory of their own.
pub struct Numbers {
    items: SmallVec<u32, 4>,
}

impl Model for Numbers {
    ghost use Rattle.std.specs.Prelude.{ℕ, List};

    ghost Value = { List ℕ };

    ghost view = { λ n. n.items.items };
}

// Written out, so that the proof of an owner sees one call and not what is dropped by it.
impl Drop for Numbers {
    fn drop(self) {
        let Numbers { items: _items } = self;
    }
}

impl Numbers {
    /// Takes no memory.
    pub fn new(alloc: Global) -> Numbers
        ensures { result ≡ [] }
    {
        Numbers {
            items: SmallVec::new(alloc),
        }
    }

    /// Takes memory where there are more than four numbers.
    pub fn from_slice(alloc: Global, numbers: &[u32]) -> Result<Numbers, AllocError>
        ensures { IfOk result (λ n. n ≡ numbers.now) }
    {
        let items = SmallVec::from_slice(alloc, numbers)?;
        Ok(Numbers { items })
    }

    /// The numbers, wherever they lie.
    pub fn as_slice(&self) -> &[u32]
        ensures { result.now ≡ self.now }
    {
        self.items.as_slice()
    }

    /// How many numbers there are.
    pub fn len(&self) -> usize
        ensures { result ≡ length self.now }
    {
        self.items.len()
    }

    /// Takes memory for the fifth number and from time to time behind it.
    pub fn push(&mut self, number: u32) -> Result<(), AllocError>
        ensures ok { OnOk result (self.new ≡ self.old ++ number ∷ []) }
        ensures err { OnErr result (self.new ≡ self.old) }
    {
        self.items.push(number)?;
        Ok(())
    }
}

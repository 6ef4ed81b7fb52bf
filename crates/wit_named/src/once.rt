//! Numbers without repeats.
use std::alloc::{AllocError, Global};
use std::collections::BTreeSet;

// So many are looked through one by one.
const FEW: usize = 8;

/// Numbers, each once, in the order in which they come.
#[derive(Drop)]
pub struct Once {
    numbers: Vec<u32>,
    /// Those behind the first few.
    others: BTreeSet<u32>,
}

impl Once {
    pub(crate) fn new(alloc: Global) -> Once {
        Once {
            numbers: Vec::new(alloc),
            others: BTreeSet::new(alloc),
        }
    }

    /// The numbers in their order.
    pub fn as_slice(&self) -> &[u32] {
        self.numbers.as_slice()
    }

    pub(crate) fn contains(&self, n: u32) -> bool {
        self.others.contains(&n) || self.numbers.iter().take(FEW).any(|m| *m == n)
    }

    pub(crate) fn add(&mut self, n: u32) -> Result<(), AllocError> {
        if self.contains(n) {
            return Ok(());
        }
        if self.numbers.len() >= FEW {
            self.others.insert(n)?;
        }
        self.numbers.push(n)?;
        Ok(())
    }

    pub(crate) fn add_all(&mut self, numbers: &[u32]) -> Result<(), AllocError> {
        for n in numbers {
            self.add(*n)?;
        }
        Ok(())
    }
}

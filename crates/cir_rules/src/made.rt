//! The calls that are made when a statement runs.
ghost use Rattle.std.specs.Prelude.{◌≡◌, IfOk};
ghost use Rattle.cir_rules.specs.Shown.{made_of};

use std::alloc::{AllocError, Global};

/// A call that is made when a statement runs: the function, and the dimensions of its arguments.
#[derive(PartialEq, Eq, PartialOrd, Ord, Drop)]
pub struct Made {
    pub function: u32,
    pub shapes: Vec<Vec<u64>>,
}

impl Made {
    /// The same call, with shapes in memory of their own.
    pub fn copy(&self, alloc: Global) -> Result<Made, AllocError>
        ensures { IfOk result (λ m. made_of m ≡ made_of self.now) }
    {
        let mut shapes = Vec::new(alloc);
        for dims in self.shapes.as_slice() {
            shapes.push(Vec::from_slice(alloc, dims.as_slice())?)?;
        }
        Ok(Made {
            function: self.function,
            shapes,
        })
    }
}

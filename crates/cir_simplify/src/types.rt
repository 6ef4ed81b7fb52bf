use gold_field::{Constraint, Lc};
use items::Items;
use std::alloc::AllocError;

/// Which linear constraints are solved.
#[derive(Clone, Copy, PartialEq, Eq)]
pub enum Level {
    /// None: the list stays as it is, and every signal is kept.
    O0,
    /// Those that set a signal to a number, or make two signals equal.
    O1,
    /// All.
    O2,
}

/// What simplification goes by: signals 1 to `kept` are never eliminated, and all are below
/// `bound`.
#[derive(Clone, Copy)]
pub struct Rules {
    pub level: Level,
    pub kept: u32,
    pub bound: usize,
}

/// An equation: the signal has the value of the linear combination.
#[derive(Drop)]
pub struct Solved {
    pub signal: u32,
    pub value: Lc,
}

/// Constraints over wires, the signal of each wire, and the equations in the order in which they
/// were solved.
#[derive(Drop)]
pub struct Simple {
    pub constraints: Items<Constraint>,
    pub wires: Items<u32>,
    pub solved: Items<Solved>,
}

/// Why no simplified list is made.
#[derive(Debug, Drop)]
pub enum SimpFault {
    /// A list has more than 8,388,608 terms: `count`.
    Terms { count: u64 },
    OutOfMemory,
}

impl From<AllocError> for SimpFault {
    ghost use Rattle.std.specs.Prelude.{◌≡◌};
    ghost use Rattle.cir_simplify.specs.declared.types.SimpFault.TheVariants.{OutOfMemory};

    ghost from_gives = { λ _ fault. fault ≡ OutOfMemory };

    fn from(_error: AllocError) -> SimpFault {
        SimpFault::OutOfMemory
    }
}

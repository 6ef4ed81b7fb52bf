ghost use Rattle.std.specs.Prelude.{◌≡◌};
ghost use Rattle.lig_prover.specs.declared.fault.ProveFault.TheVariants.{OutOfMemory};

use std::alloc::AllocError;

/// Why there is no proof.
#[derive(Clone, Copy, PartialEq, Eq)]
pub enum ProveFault {
    /// The number of values isn't that of the wires.
    WrongLength { has: u64, wants: u32 },
    /// The value of wire 0 isn't 1.
    WireZero,
    /// The values don't satisfy this constraint, and it is the first one.
    Unsatisfied { constraint: u32 },
    OutOfMemory,
}

impl From<AllocError> for ProveFault {
    ghost from_gives = { λ _ e. e ≡ OutOfMemory };

    fn from(_e: AllocError) -> ProveFault {
        ProveFault::OutOfMemory
    }
}

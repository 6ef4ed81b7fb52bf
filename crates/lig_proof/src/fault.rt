ghost use Rattle.std.specs.Prelude.{◌≡◌};
ghost use Rattle.lig_proof.specs.declared.fault.ProofFault.TheVariants.{OutOfMemory};

use std::alloc::{AllocError, AllocFailed};

/// Why bytes were not read as a proof.
#[derive(Clone, Copy)]
pub enum ProofFault {
    /// The bytes are no proof. The offset is that of the first byte that is wrong, counted from 0;
    /// it is the length where the bytes end too early.
    Malformed { offset: u64 },
    OutOfMemory,
}

impl From<AllocError> for ProofFault {
    ghost from_gives = { λ _ e. e ≡ OutOfMemory };

    fn from(_e: AllocError) -> ProofFault {
        ProofFault::OutOfMemory
    }
}

impl<T: Drop> From<AllocFailed<T>> for ProofFault {
    ghost from_gives = { λ _ e. e ≡ OutOfMemory };

    fn from(_e: AllocFailed<T>) -> ProofFault {
        ProofFault::OutOfMemory
    }
}

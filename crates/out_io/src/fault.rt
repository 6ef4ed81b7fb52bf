ghost use Rattle.std.specs.Prelude.{◌≡◌};
ghost use Rattle.out_io.specs.declared.fault.IoFault.TheVariants.{OutOfMemory};

use std::alloc::{AllocError, AllocFailed};
use thiserror::Error;

/// Why a call to a store or a sink gave no answer.
#[derive(Clone, Copy, Debug, PartialEq, Eq, Hash, Error)]
pub enum IoFault {
    /// The system failed. The count of faults of the store or sink rose in that call.
    #[error("the system failed")]
    Failed,
    #[error("want of memory")]
    OutOfMemory,
}

impl From<AllocError> for IoFault {
    ghost from_gives = { λ _ fault. fault ≡ OutOfMemory };

    fn from(_: AllocError) -> IoFault {
        IoFault::OutOfMemory
    }
}

impl<T: Drop> From<AllocFailed<T>> for IoFault {
    ghost from_gives = { λ _ fault. fault ≡ OutOfMemory };

    fn from(_: AllocFailed<T>) -> IoFault {
        IoFault::OutOfMemory
    }
}

ghost use Rattle.std.specs.Prelude.{◌≡◌};
ghost use Rattle.circom_files.specs.Stops.{EndsBy, stop_of};
ghost use Rattle.circom_files.specs.declared.stop.Stop.TheVariants.{OutOfMemory};

use crate::reply::Reply;
use circom_lines::Refusal;
use out_io::IoFault;
use std::alloc::{AllocError, Global};

/// Why a command ends before its last step.
#[derive(Drop)]
pub enum Stop {
    Refused(Refusal),
    StoreFailed,
    OutOfMemory,
}

impl From<IoFault> for Stop {
    ghost from_gives = { λ fault stop. stop ≡ stop_of fault };

    fn from(fault: IoFault) -> Stop {
        match fault {
            IoFault::Failed => Stop::StoreFailed,
            IoFault::OutOfMemory => Stop::OutOfMemory,
        }
    }
}

impl From<AllocError> for Stop {
    ghost from_gives = { λ _ stop. stop ≡ OutOfMemory };

    fn from(_: AllocError) -> Stop {
        Stop::OutOfMemory
    }
}

impl Stop {
    /// The reply where a command was refused; else why there is none.
    pub fn reply<'w>(self, alloc: Global) -> Result<Reply<'w>, IoFault>
        ensures { EndsBy self result }
    {
        match self {
            Stop::Refused(refusal) => Ok(Reply::refused(alloc, &refusal)?),
            Stop::StoreFailed => Err(IoFault::Failed),
            Stop::OutOfMemory => Err(IoFault::OutOfMemory),
        }
    }
}

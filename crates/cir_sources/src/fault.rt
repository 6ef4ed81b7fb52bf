//! Why a program's sources aren't loaded.
ghost use Rattle.std.specs.Prelude.{◌≡◌};
ghost use Rattle.cir_ast.specs.Spot.{refusal_at};
ghost use Rattle.cir_sources.specs.Steps.{Refuses};

use cir_ast::program::Spot;
use cir_ast::{Kind, Refusal};
use out_io::IoFault;
use std::alloc::{AllocError, Global};

/// Why a program isn't loaded.
#[derive(Drop)]
pub enum LoadFault {
    /// There is no file of the program's name.
    Missing,
    Refused(Refusal),
    /// The store failed. Its count of faults rose.
    Fault,
    OutOfMemory,
}

impl From<AllocError> for LoadFault {
    ghost use Rattle.cir_sources.specs.declared.fault.LoadFault.TheVariants.{OutOfMemory};

    ghost from_gives = { λ _ fault. fault ≡ OutOfMemory };

    fn from(_: AllocError) -> LoadFault {
        LoadFault::OutOfMemory
    }
}

impl From<IoFault> for LoadFault {
    ghost use Rattle.cir_sources.specs.Loading.{fault_of};

    ghost from_gives = { λ fault stop. stop ≡ fault_of fault };

    fn from(fault: IoFault) -> LoadFault {
        match fault {
            IoFault::Failed => LoadFault::Fault,
            IoFault::OutOfMemory => LoadFault::OutOfMemory,
        }
    }
}

/// The refusal at a place of the file of this name, before any instance is made.
pub(crate) fn refusal(alloc: Global, name: &[u8], kind: Kind, spot: Spot) -> LoadFault
    ensures { Refuses (λ r. r ≡ refusal_at name.now kind spot) result }
{
    match Refusal::at(alloc, name, kind, spot) {
        Ok(refusal) => LoadFault::Refused(refusal),
        Err(_) => LoadFault::OutOfMemory,
    }
}

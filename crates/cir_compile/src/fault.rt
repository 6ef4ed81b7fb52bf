use cir_ast::Refusal;
use cir_inst::InstFault;
use cir_names::LoadFault;
use std::alloc::AllocError;

/// Why a source doesn't compile.
#[derive(Drop)]
pub enum CompileFault {
    /// There is no file of the source's name.
    Missing,
    Refused(Refusal),
    /// The store failed. Its count of faults rose.
    Fault,
    OutOfMemory,
}

impl From<AllocError> for CompileFault {
    ghost use Rattle.std.specs.Prelude.{◌≡◌};
    ghost use Rattle.cir_compile.specs.declared.fault.CompileFault.TheVariants.{OutOfMemory};

    ghost from_gives = { λ _ fault. fault ≡ OutOfMemory };

    fn from(_: AllocError) -> CompileFault {
        CompileFault::OutOfMemory
    }
}

impl From<LoadFault> for CompileFault {
    ghost use Rattle.std.specs.Prelude.{◌≡◌};
    ghost use Rattle.cir_compile.specs.Faults.{of_load};

    ghost from_gives = { λ fault made. made ≡ of_load fault };

    fn from(fault: LoadFault) -> CompileFault {
        match fault {
            LoadFault::Missing => CompileFault::Missing,
            LoadFault::Refused(refusal) => CompileFault::Refused(refusal),
            LoadFault::Fault => CompileFault::Fault,
            LoadFault::OutOfMemory => CompileFault::OutOfMemory,
        }
    }
}

impl From<InstFault> for CompileFault {
    ghost use Rattle.std.specs.Prelude.{◌≡◌};
    ghost use Rattle.cir_compile.specs.Faults.{of_instance};

    ghost from_gives = { λ fault made. made ≡ of_instance fault };

    fn from(fault: InstFault) -> CompileFault {
        match fault {
            InstFault::Refused(refusal) => CompileFault::Refused(refusal),
            InstFault::OutOfMemory => CompileFault::OutOfMemory,
        }
    }
}

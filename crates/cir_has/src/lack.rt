//! What a step's code lacks.
use cir_rules::Made;
use numbers::TooLarge;
use std::alloc::{AllocError, AllocFailed};

/// What is wanting.
#[derive(Drop)]
pub enum Lack {
    /// A call has no key yet.
    Key(Made),
    /// A name that the step may have an array of has no home; or what is declared has one already;
    /// or an array literal is empty.
    Home,
    OutOfMemory,
}

impl From<TooLarge> for Lack {
    ghost use Rattle.std.specs.Prelude.{◌≡◌};
    ghost use Rattle.cir_has.specs.declared.lack.Lack.TheVariants.{OutOfMemory};

    ghost from_gives = { λ _ r. r ≡ OutOfMemory };

    fn from(_error: TooLarge) -> Lack {
        Lack::OutOfMemory
    }
}

impl From<AllocError> for Lack {
    ghost use Rattle.std.specs.Prelude.{◌≡◌};
    ghost use Rattle.cir_has.specs.declared.lack.Lack.TheVariants.{OutOfMemory};

    ghost from_gives = { λ _ r. r ≡ OutOfMemory };

    fn from(_error: AllocError) -> Lack {
        Lack::OutOfMemory
    }
}

impl<T: Drop> From<AllocFailed<T>> for Lack {
    ghost use Rattle.std.specs.Prelude.{◌≡◌};
    ghost use Rattle.cir_has.specs.declared.lack.Lack.TheVariants.{OutOfMemory};

    ghost from_gives = { λ _ r. r ≡ OutOfMemory };

    fn from(_error: AllocFailed<T>) -> Lack {
        Lack::OutOfMemory
    }
}

use cir_ast::program::Spot;
use cir_ast::{Kind, Text};
use numbers::TooLarge;
use std::alloc::{AllocError, AllocFailed, Global};

/// Where a statement stands that is executed: its file among the program's, its place there, and
/// the instance in which it is executed, by its number and its path.
#[derive(Clone, Copy)]
pub struct Site<'a> {
    pub file: u32,
    pub spot: Spot,
    pub instance: u32,
    pub path: &'a [u8],
}

/// Why a program is refused, and where.
#[derive(Drop)]
pub struct Stop {
    pub kind: Kind,
    pub file: u32,
    pub spot: Spot,
    pub instance: u32,
    pub path: Text,
}

/// How a step ends that doesn't go on.
#[derive(Drop)]
pub enum Fault {
    Refused(Stop),
    OutOfMemory,
}

impl From<AllocError> for Fault {
    ghost use Rattle.std.specs.Prelude.{◌≡◌};
    ghost use Rattle.cir_arrays.specs.declared.stop.Fault.TheVariants.{OutOfMemory};

    ghost from_gives = { λ _ r. r ≡ OutOfMemory };

    fn from(_error: AllocError) -> Fault {
        Fault::OutOfMemory
    }
}

impl From<TooLarge> for Fault {
    ghost use Rattle.std.specs.Prelude.{◌≡◌};
    ghost use Rattle.cir_arrays.specs.declared.stop.Fault.TheVariants.{OutOfMemory};

    ghost from_gives = { λ _ r. r ≡ OutOfMemory };

    fn from(_error: TooLarge) -> Fault {
        Fault::OutOfMemory
    }
}

impl<T: Drop> From<AllocFailed<T>> for Fault {
    ghost use Rattle.std.specs.Prelude.{◌≡◌};
    ghost use Rattle.cir_arrays.specs.declared.stop.Fault.TheVariants.{OutOfMemory};

    ghost from_gives = { λ _ r. r ≡ OutOfMemory };

    fn from(_error: AllocFailed<T>) -> Fault {
        Fault::OutOfMemory
    }
}

impl Site<'_> {
    ghost use Rattle.cir_arrays.specs.Stopped.{where_of, Refuses};

    /// A refusal here.
    pub fn refused(&self, alloc: Global, kind: Kind) -> Fault
        ensures { Refuses (where_of self.now) kind result }
    {
        match Text::from_slice(alloc, self.path) {
            Ok(path) => Fault::Refused(Stop {
                kind,
                file: self.file,
                spot: self.spot,
                instance: self.instance,
                path,
            }),
            Err(_) => Fault::OutOfMemory,
        }
    }
}

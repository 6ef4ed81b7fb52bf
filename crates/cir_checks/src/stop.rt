ghost use Rattle.std.specs.Prelude.{◌≡◌, Option};
ghost use Rattle.cir_ast.specs.declared.refusal.Kind.{Kind};
ghost use Rattle.cir_checks.specs.declared.stop.Fault.{Fault};
ghost use Rattle.cir_checks.specs.Faults.{at, in_file};
ghost use Rattle.cir_checks.specs.Answers.{Finds};

use cir_ast::Kind;
use cir_ast::program::Spot;
use std::alloc::AllocError;

/// A fault and the place of the statement or the item that holds it.
#[derive(Clone, Copy)]
pub struct Fault {
    pub kind: Kind,
    pub spot: Spot,
}

/// A fault in the file of this place in the program's list.
#[derive(Clone, Copy)]
pub struct Found {
    pub file: u32,
    pub fault: Fault,
}

/// Why a check ended early.
#[derive(Clone, Copy)]
pub enum Stop<F> {
    /// It found this fault.
    At(F),
    OutOfMemory,
}

impl<F> From<AllocError> for Stop<F> {
    ghost use Rattle.cir_checks.specs.declared.stop.Stop.TheVariants.{OutOfMemory};

    ghost from_gives = { λ _ stop. stop ≡ OutOfMemory };

    fn from(_: AllocError) -> Stop<F> {
        Stop::OutOfMemory
    }
}

pub(crate) type Checked = Result<(), Stop<Kind>>;

/// A fault at this place.
pub(crate) fn at(spot: Spot, found: Checked) -> Result<(), Stop<Fault>>
    ensures { (fault : Option Kind) → Finds found fault → Finds result (at spot fault) }
{
    match found {
        Ok(()) => Ok(()),
        Err(Stop::At(kind)) => Err(Stop::At(Fault { kind, spot })),
        Err(Stop::OutOfMemory) => Err(Stop::OutOfMemory),
    }
}

/// A fault in this file.
pub(crate) fn in_file(file: u32, found: Result<(), Stop<Fault>>) -> Result<(), Stop<Found>>
    ensures { (fault : Option Fault) → Finds found fault → Finds result (in_file file fault) }
{
    match found {
        Ok(()) => Ok(()),
        Err(Stop::At(fault)) => Err(Stop::At(Found { file, fault })),
        Err(Stop::OutOfMemory) => Err(Stop::OutOfMemory),
    }
}

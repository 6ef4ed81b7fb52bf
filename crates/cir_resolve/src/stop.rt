ghost use Rattle.std.specs.Prelude.{◌≡◌};

use cir_ast::program::Spot;
use std::alloc::AllocError;

/// A place in the file of this place in the program's list.
#[derive(Clone, Copy)]
pub struct Found {
    pub file: u32,
    pub spot: Spot,
}

/// Why names weren't resolved: one is declared or defined a second time there.
#[derive(Clone, Copy)]
pub enum Stop<P> {
    Twice(P),
    OutOfMemory,
}

impl<P> From<AllocError> for Stop<P> {
    ghost use Rattle.cir_resolve.specs.declared.stop.Stop.TheVariants.{OutOfMemory};

    ghost from_gives = { λ _ stop. stop ≡ OutOfMemory };

    fn from(_: AllocError) -> Stop<P> {
        Stop::OutOfMemory
    }
}

ghost use Rattle.std.specs.Prelude.{◌≡◌};
ghost use Rattle.cir_parse.specs.declared.fault.ParseFault.TheVariants.{OutOfMemory};

use cir_ast::Form;
use std::alloc::{AllocError, AllocFailed};

/// The height of a file's tree is at most this.
pub const MAX_HEIGHT: u32 = 256;

/// Why tokens have no tree.
#[derive(Clone, Copy)]
pub enum ParseFault {
    /// A form that is left out of the language, at its first token.
    Form { token: u32, form: Form },
    /// No tree prints the tokens. This is the first token of the first item that has no reading.
    Syntax { token: u32 },
    OutOfMemory,
}

impl From<AllocError> for ParseFault {
    ghost from_gives = { λ _ fault. fault ≡ OutOfMemory };

    fn from(_: AllocError) -> ParseFault {
        ParseFault::OutOfMemory
    }
}

impl<T: Drop> From<AllocFailed<T>> for ParseFault {
    ghost from_gives = { λ _ fault. fault ≡ OutOfMemory };

    fn from(_: AllocFailed<T>) -> ParseFault {
        ParseFault::OutOfMemory
    }
}

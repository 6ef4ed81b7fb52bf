ghost use Rattle.std.specs.Prelude.{◌≡◌};
ghost use Rattle.wit_input.specs.declared.fault.InputFault.TheVariants.{OutOfMemory};

use cir_values::Text;
use std::alloc::{AllocError, AllocFailed};

/// Why an input or a public file isn't read. An input is named by its place among the inputs of the
/// signal table, counted from 0, and a value by its place among the values of its input.
#[derive(Drop)]
pub enum InputFault {
    /// The bytes are no JSON, or no object where inputs are read, or no array where public values
    /// are.
    NotJson,
    /// An input that has elements has no key.
    Missing { input: u32 },
    /// A key is the name of no input.
    UnknownSignal { key: Text },
    /// An input has another number of values than of elements.
    WrongCount { input: u32, has: u64, wants: u32 },
    /// A value is no number.
    BadNumber { input: u32, index: u64 },
    OutOfMemory,
}

impl From<AllocError> for InputFault {
    ghost from_gives = { λ _ fault. fault ≡ OutOfMemory };

    fn from(_: AllocError) -> InputFault {
        InputFault::OutOfMemory
    }
}

impl<T: Drop> From<AllocFailed<T>> for InputFault {
    ghost from_gives = { λ _ fault. fault ≡ OutOfMemory };

    fn from(_: AllocFailed<T>) -> InputFault {
        InputFault::OutOfMemory
    }
}

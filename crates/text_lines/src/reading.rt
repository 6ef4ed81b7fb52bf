ghost use Rattle.std.specs.Prelude.{◌≡◌, ◌+◌, ◌<◌, ◌≤◌, ◌^◌, ℕ, List, length};
ghost use Rattle.std.specs.Prelude.{Option, IfOk};
ghost use Rattle.binary_format.specs.Reading.{Gives};
ghost use Rattle.text_lines.specs.Reading.{reading, refused};
ghost use Rattle.text_lines.specs.declared.reading.LineFault.TheVariants.{OutOfMemory};

use crate::lines::first_line;
use std::alloc::{AllocError, AllocFailed, Global};

/// Why a text of lines isn't read. Lines are counted from 1.
#[derive(Clone, Copy)]
pub enum LineFault {
    /// The first line that isn't of the form.
    BadLine { line: u32 },
    /// The first line past the limit.
    Limit { line: u32 },
    OutOfMemory,
}

impl From<AllocError> for LineFault {
    ghost from_gives = { λ _ fault. fault ≡ OutOfMemory };

    fn from(_: AllocError) -> LineFault {
        LineFault::OutOfMemory
    }
}

impl<T: Drop> From<AllocFailed<T>> for LineFault {
    ghost from_gives = { λ _ fault. fault ≡ OutOfMemory };

    fn from(_: AllocFailed<T>) -> LineFault {
        LineFault::OutOfMemory
    }
}

/// What a line of a text says.
pub trait Line: Sized + Drop {
    // What the line says, if it is of the form.
    ghost form: { List ℕ → Option Self };

    fn read(alloc: Global, line: &[u8]) -> Result<Option<Self>, AllocError>
        ensures { IfOk result (λ said. said ≡ form line.now) };
}

/// What the lines of a text say, in order.
pub fn read_lines<T: Line>(alloc: Global, text: &[u8], limit: u32) -> Result<Vec<T>, LineFault>
    requires { limit + 1 < 2 ^ 32 }
    ensures said { Gives refused (λ values. values.items) result (reading T.form limit text.now) }
    ensures few { IfOk result (λ values. length values.items ≤ limit) }
{
    let mut values = Vec::new(alloc);
    let mut rest = text;
    for before in 0..limit {
        let Some((line, behind)) = first_line(rest) else {
            return Ok(values);
        };
        let Some(value) = T::read(alloc, line)? else {
            return Err(LineFault::BadLine { line: before + 1 });
        };
        values.push(value)?;
        rest = behind;
    }
    match first_line(rest) {
        Some(_) => Err(LineFault::Limit { line: limit + 1 }),
        None => Ok(values),
    }
}

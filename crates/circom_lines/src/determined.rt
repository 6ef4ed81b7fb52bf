//! The lines of `determine` and `confirm`.

ghost use Rattle.std.specs.Prelude.{◌≡◌, IfOk};
ghost use Rattle.circom_lines.specs.Determining.{determined_line, undetermined_line};
ghost use Rattle.circom_lines.specs.Determining.{confirmed_line, confirmed_status};

use crate::lines::line;
use cir_determined::Confirm;
use std::alloc::{AllocError, Global};

/// The line of `determine` where it has found rules.
pub fn determined_line(alloc: Global) -> Result<Vec<u8>, AllocError>
    ensures { IfOk result (λ v. v.items ≡ determined_line) }
{
    line(alloc, &[b"determined"])
}

/// The line of `determine` where no rules show this output.
pub fn undetermined_line(alloc: Global, wire: u32) -> Result<Vec<u8>, AllocError>
    ensures { IfOk result (λ v. v.items ≡ undetermined_line wire) }
{
    let wire = format!(in alloc; "{wire}")?;
    line(alloc, &[b"undetermined: wire ", wire.as_bytes()])
}

/// The exit status of `confirm`.
pub fn confirmed_status(found: Confirm) -> u8
    ensures { result ≡ confirmed_status found }
{
    match found {
        Confirm::Confirmed => 0,
        Confirm::BadRule { .. } | Confirm::Short { .. } => 2,
    }
}

/// The line of `confirm`.
pub fn confirmed_line(alloc: Global, found: Confirm) -> Result<Vec<u8>, AllocError>
    ensures { IfOk result (λ v. v.items ≡ confirmed_line found) }
{
    match found {
        Confirm::Confirmed => line(alloc, &[b"confirmed"]),
        Confirm::BadRule { index } => {
            let index = format!(in alloc; "{index}")?;
            line(alloc, &[b"unconfirmed: rule ", index.as_bytes()])
        }
        Confirm::Short { wire } => {
            let wire = format!(in alloc; "{wire}")?;
            line(alloc, &[b"unconfirmed: wire ", wire.as_bytes()])
        }
    }
}

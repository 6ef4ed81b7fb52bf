//! The lines of `prove`, `public` and `audit`.

ghost use Rattle.std.specs.Prelude.{◌≡◌, IfOk};
ghost use Rattle.circom_lines.specs.Proving.{proved_line, public_line, audit_status, audit_line};

use crate::lines::line;
use lig_proof::Verdict;
use std::alloc::{AllocError, Global};

/// The line of a command that has made a proof of so many bytes.
pub fn proved_line(alloc: Global, bytes: usize) -> Result<Vec<u8>, AllocError>
    ensures { IfOk result (λ v. v.items ≡ proved_line bytes) }
{
    let bytes = format!(in alloc; "{bytes}")?;
    line(alloc, &[b"proved: bytes ", bytes.as_bytes()])
}

/// The line of a command that has written so many public values.
pub fn public_line(alloc: Global, values: usize) -> Result<Vec<u8>, AllocError>
    ensures { IfOk result (λ v. v.items ≡ public_line values) }
{
    let values = format!(in alloc; "{values}")?;
    line(alloc, &[b"public: values ", values.as_bytes()])
}

/// The exit status of an audit.
pub fn audit_status(verdict: Verdict) -> u8
    ensures { result ≡ audit_status verdict }
{
    match verdict {
        Verdict::Accepted => 0,
        _ => 2,
    }
}

/// The line of an audit.
pub fn audit_line(alloc: Global, verdict: Verdict) -> Result<Vec<u8>, AllocError>
    ensures { IfOk result (λ v. v.items ≡ audit_line verdict) }
{
    match verdict {
        Verdict::Accepted => line(alloc, &[b"accepted"]),
        Verdict::PublicCount => line(alloc, &[b"rejected: 1 PublicCount"]),
        Verdict::Malformed { offset } => {
            let offset = format!(in alloc; "{offset}")?;
            line(
                alloc,
                &[b"rejected: 2 Malformed at byte ", offset.as_bytes()],
            )
        }
        Verdict::BadPath { opened } => {
            let opened = format!(in alloc; "{opened}")?;
            line(alloc, &[b"rejected: 3 BadPath ", opened.as_bytes()])
        }
        Verdict::Proximity => line(alloc, &[b"rejected: 4 Proximity"]),
        Verdict::LinearSum => line(alloc, &[b"rejected: 5 LinearSum"]),
        Verdict::LinearColumn => line(alloc, &[b"rejected: 6 LinearColumn"]),
        Verdict::QuadZero => line(alloc, &[b"rejected: 7 QuadZero"]),
        Verdict::QuadColumn => line(alloc, &[b"rejected: 8 QuadColumn"]),
    }
}

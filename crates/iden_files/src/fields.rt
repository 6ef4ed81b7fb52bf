ghost use Rattle.std.specs.Prelude.{◌≡◌, ◌+◌, ◌≤◌, length};
ghost use Rattle.std.specs.Int.{w32, w64};
ghost use Rattle.binary_format.specs.Reading.{Reads, number_of, or_short};
ghost use Rattle.iden_files.specs.Refusal.{refusal, refused, TakesNoMemory};
ghost use Rattle.iden_files.specs.Sections.{u32_at, u64_at};

use crate::fault::{FileCause, FileFault};
use binary_format::Reader;

/// The next number, or this cause where the bytes end.
pub fn next_u32(fields: &mut Reader<'_>, short: FileCause) -> Result<u32, FileFault>
    ensures taken { Reads refused (λ x. x) fields.new.rest.now result
        (or_short (number_of w32 fields.old.rest.now) (refusal short fields.old.end)) }
    ensures end { fields.new.end ≡ fields.old.end }
    ensures memory { TakesNoMemory result }
{
    let offset = fields.end;
    match fields.u32() {
        Some(n) => Ok(n),
        None => Err(FileFault::At {
            cause: short,
            offset,
        }),
    }
}

pub fn next_u64(fields: &mut Reader<'_>, short: FileCause) -> Result<u64, FileFault>
    ensures taken { Reads refused (λ x. x) fields.new.rest.now result
        (or_short (number_of w64 fields.old.rest.now) (refusal short fields.old.end)) }
    ensures end { fields.new.end ≡ fields.old.end }
    ensures memory { TakesNoMemory result }
{
    let offset = fields.end;
    match fields.u64() {
        Some(n) => Ok(n),
        None => Err(FileFault::At {
            cause: short,
            offset,
        }),
    }
}

pub fn u32_at(bytes: &[u8], at: usize) -> u32
    requires { at + 4 ≤ length bytes.now }
    ensures { result ≡ u32_at at bytes.now }
{
    let (_, rest) = bytes.split_at(at);
    let (number, _) = rest.split_at(4);
    u32::from_le_bytes([number[0], number[1], number[2], number[3]])
}

pub fn u64_at(bytes: &[u8], at: usize) -> u64
    requires { at + 8 ≤ length bytes.now }
    ensures { result ≡ u64_at at bytes.now }
{
    let (_, rest) = bytes.split_at(at);
    let (number, _) = rest.split_at(8);
    u64::from_le_bytes([
        number[0], number[1], number[2], number[3], number[4], number[5], number[6], number[7],
    ])
}

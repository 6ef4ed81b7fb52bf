ghost use Rattle.std.specs.Prelude.{◌≡◌, ◌++◌, OnOk};
ghost use Rattle.std.specs.Int.{w32, w64, to_le_bytes};

use byteorder::{ByteOrder, LittleEndian};
use std::alloc::AllocError;

/// Appends a number, its lowest byte first.
pub fn put_u32(out: &mut Vec<u8>, n: u32) -> Result<(), AllocError>
    ensures { OnOk result (out.new.items ≡ out.old.items ++ to_le_bytes w32 n) }
{
    let mut word = [0u8; 4];
    LittleEndian::write_u32(&mut word, n);
    out.extend_from_slice(&word)
}

/// Appends a number, its lowest byte first.
pub fn put_u64(out: &mut Vec<u8>, n: u64) -> Result<(), AllocError>
    ensures { OnOk result (out.new.items ≡ out.old.items ++ to_le_bytes w64 n) }
{
    let mut word = [0u8; 8];
    LittleEndian::write_u64(&mut word, n);
    out.extend_from_slice(&word)
}

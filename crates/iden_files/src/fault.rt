ghost use Rattle.std.specs.Prelude.{◌≡◌};
ghost use Rattle.iden_files.specs.declared.fault.FileFault.TheVariants.{OutOfMemory};

use std::alloc::{AllocError, AllocFailed};

/// What is wrong with a file.
#[derive(Clone, Copy, PartialEq, Eq)]
pub enum FileCause {
    /// The first four bytes aren't those of the format.
    Magic = 1,
    Version = 2,
    /// The bytes end within the header or within a section.
    Truncated = 3,
    SectionMissing = 4,
    SectionTwice = 5,
    /// The field isn't the one of order 2^64 - 2^32 + 1 with values of 8 bytes.
    WrongPrime = 6,
    /// A value isn't below the field's order.
    ValueTooLarge = 7,
    WireOutOfRange = 8,
    /// A count or a size doesn't fit the bytes that it counts.
    BadCount = 9,
    /// A section of custom gates.
    CustomGates = 10,
    Limit = 11,
}

impl FileCause {
    ghost use Rattle.iden_files.specs.Refusal.{cause_number};

    /// The number by which a refusal names the cause, from 1 to 11.
    pub fn number(self) -> u32
        ensures { result ≡ cause_number self }
    {
        self as u32
    }
}

/// Why a file isn't read.
#[derive(Clone, Copy)]
pub enum FileFault {
    /// The first thing that is wrong, and the place of the byte where it is, counted from 0.
    At { cause: FileCause, offset: u64 },
    OutOfMemory,
}

impl From<AllocError> for FileFault {
    ghost from_gives = { λ _ e. e ≡ OutOfMemory };

    fn from(_e: AllocError) -> FileFault {
        FileFault::OutOfMemory
    }
}

impl<T: Drop> From<AllocFailed<T>> for FileFault {
    ghost from_gives = { λ _ e. e ≡ OutOfMemory };

    fn from(_e: AllocFailed<T>) -> FileFault {
        FileFault::OutOfMemory
    }
}

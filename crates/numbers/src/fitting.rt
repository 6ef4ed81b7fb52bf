//! Numbers that have to fit their type.
ghost use Rattle.std.specs.Prelude.{◌≡◌, ◌+◌, ◌≤◌, IfOk, IfErr, ⊤};

use std::alloc::AllocError;

/// A number that doesn't fit its type.
#[derive(Clone, Copy)]
pub struct TooLarge;

// Whoever takes memory for so many answers that there is none.
impl From<TooLarge> for AllocError {
    ghost from_gives = { λ _ _. ⊤ };

    fn from(_: TooLarge) -> AllocError {
        AllocError
    }
}

/// The same number, where it is less than 2^32.
pub fn narrow(number: u64) -> Result<u32, TooLarge>
    ensures ok { IfOk result (λ same. same ≡ number) }
    ensures err { IfErr result (λ _. 4294967296 ≤ number) }
{
    u32::try_from(number).map_err(|_| TooLarge)
}

/// The number that is so much greater, where it is less than 2^32.
pub fn behind(first: u32, count: u64) -> Result<u32, TooLarge>
    ensures ok { IfOk result (λ number. number ≡ first + count) }
    ensures err { IfErr result (λ _. 4294967296 ≤ first + count) }
{
    narrow(u64::from(first).checked_add(count).ok_or(TooLarge)?)
}

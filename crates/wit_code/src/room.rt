ghost use Rattle.std.specs.Prelude.{◌≡◌, ◌≤◌, ◌++◌, false, replicate, slice_set};
ghost use Rattle.std.specs.Prelude.{take, IfOk, OnOk, OnErr, length};
ghost use Rattle.wit_code.specs.Room.{AreZeros, cleared};

use crate::frames::Caller;
use gold_field::Gold;
use std::alloc::{AllocError, Global};

/// What one run hands on to the next: numbers that are all 0, of which the next run makes its
/// frames, and the memory of two lists. It grows to the longest frame that it has served.
#[derive(Drop)]
pub struct Room {
    pub(crate) zeros: Vec<Gold>,
    pub(crate) places: Vec<usize>,
    pub(crate) callers: Vec<Caller>,
    ghost clear: { AreZeros zeros.items },
}

impl Room {
    /// An empty room. It takes no memory.
    pub fn new(alloc: Global) -> Room {
        Room {
            zeros: Vec::new(alloc),
            places: Vec::new(alloc),
            callers: Vec::new(alloc),
        }
    }
}

/// Puts zeros behind the numbers.
pub(crate) fn push_zeros(numbers: &mut Vec<Gold>, count: usize) -> Result<(), AllocError>
    ensures ok { OnOk result (numbers.new.items ≡ numbers.old.items ++ replicate count 0) }
    ensures err { OnErr result (numbers.new.items ≡ numbers.old.items) }
{
    let width = numbers.len();
    if width > usize::MAX - count {
        return Err(AllocError);
    }
    numbers.resize(width + count, Gold::ZERO)
}

/// Zeros, at least so many.
pub(crate) fn lengthened(mut zeros: Vec<Gold>, count: usize) -> Result<Vec<Gold>, AllocError>
    requires { AreZeros zeros.items }
    ensures clear { IfOk result (λ z. AreZeros z.items) }
    ensures long { IfOk result (λ z. count ≤ length z.items) }
{
    if zeros.len() < count {
        let short = count - zeros.len();
        push_zeros(&mut zeros, short)?;
    }
    Ok(zeros)
}

fn put_zero(numbers: &mut Vec<Gold>, at: usize)
    ensures { numbers.new.items ≡ slice_set numbers.old.items at 0 }
{
    if at < numbers.len() {
        numbers[at] = Gold::ZERO;
    }
}

// The numbers, with 0 at the places.
fn clear_places(mut numbers: Vec<Gold>, places: &[usize]) -> Vec<Gold>
    ensures { result.items ≡ cleared places.now numbers.items }
{
    for place in places {
        put_zero(&mut numbers, *place);
    }
    numbers
}

// Zeros in place of all numbers from `first` on.
fn clear_from(mut numbers: Vec<Gold>, first: usize) -> Vec<Gold>
    requires { AreZeros (take first numbers.items) }
    ensures { AreZeros result.items }
{
    let count = numbers.len();
    numbers.truncate(first);
    let _has_all = numbers.resize(count, Gold::ZERO);
    numbers
}

/// Zeros in place of the numbers, where all below `first` are 0 and, unless the notes are full, all
/// but the noted ones.
pub(crate) fn zeros_again(
    numbers: Vec<Gold>,
    places: &[usize],
    first: usize,
    is_full: bool,
) -> Vec<Gold>
    requires below { AreZeros (take first numbers.items) }
    requires noted { is_full ≡ false → AreZeros (cleared places.now numbers.items) }
    ensures { AreZeros result.items }
{
    if is_full {
        return clear_from(numbers, first);
    }
    clear_places(numbers, places)
}

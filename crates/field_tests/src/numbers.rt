//! Numbers of the field, for these tests and for those of proofs.

use gold_field::Gold;
use std::alloc::{AllocError, Global};

/// A number below p.
pub fn gold(n: u64) -> Gold {
    Gold::from_wide(u128::from(n))
}

pub fn golds(alloc: Global, numbers: &[u64]) -> Result<Vec<Gold>, AllocError> {
    let mut values = Vec::new(alloc);
    for number in numbers {
        values.push(gold(*number))?;
    }
    Ok(values)
}

/// The places take numbers below p, as far as the list goes.
pub fn fill(room: &mut [Gold], list: &[u64]) {
    for (place, n) in room.iter_mut().zip(list) {
        *place = gold(*n);
    }
}

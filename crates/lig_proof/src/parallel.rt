//! Lists that are made in parallel, place by place.

ghost use Rattle.std.specs.Prelude.{◌≡◌, ℕ, ◌<◌, Ok, IfOk};
ghost use Rattle.std.specs.List.{AllZip, range_with_len};

use rayon::prelude::*;
use std::alloc::{AllocError, Global};
use std::thread::Threads;

// How many places are worth a thread of their own.
const LEAST: usize = 4;

/// What `f` gives at each place below `count`, from as many threads as there are processors.
pub fn each_place<
    R: Threads + Sync,
    T: Send + Drop,
    F: Fn(usize) -> Result<T, AllocError> + Copy + Send + Sync,
>(rt: &R, alloc: Global, count: usize, f: F) -> Result<Vec<T>, AllocError>
    requires { (i : ℕ) → i < count → F.pre f i }
    ensures { IfOk result (λ v.
        AllZip (λ i x. F.post f i (Ok x)) (range_with_len 0 count) v.items) }
{
    (0..count)
        .into_par_iter()
        .map(f)
        .with_min_len(LEAST)
        .collect::<Result<Vec<T>, AllocError>>(rt, alloc)?
}

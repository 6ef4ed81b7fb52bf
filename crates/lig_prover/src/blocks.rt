//! Numbers at many places, which are sums over the rows of a matrix. They are made in blocks of
//! neighbouring places, so that each row is read from one end to the other.

ghost use Rattle.std.specs.Prelude.{◌≡◌, ℕ, ◌+◌, ◌*◌, ◌%◌, ◌^◌, ◌<◌, List, [], Ok, IfOk, length};
ghost use Rattle.std.specs.Prelude.{map, slice_index, slice_index_or};
ghost use Rattle.std.specs.List.{flat_map, range_with_len};
ghost use Rattle.gold_field.specs.declared.gold.TheConstants.{P};
ghost use Rattle.lig_prover.specs.Matrix.{IsBlock};

use gold_field::Gold;
use items::Items;
use lig_proof::each_place;
use std::alloc::{AllocError, Global};
use std::thread::Threads;

/// The numbers at all places of so many blocks, where `f` gives those of one.
pub fn in_blocks<
    R: Threads + Sync,
    F: Fn(usize) -> Result<Items<Gold>, AllocError> + Copy + Send + Sync,
>(rt: &R, alloc: Global, blocks: usize, f: F) -> Result<Vec<Gold>, AllocError>
    requires { (b : ℕ) → b < blocks → F.pre f b }
    ensures { IfOk result (λ v. (size : ℕ) (g : ℕ → ℕ)
        → ((b : ℕ) (xs : List ℕ) → b < blocks → F.post f b (Ok xs) → IsBlock g size b xs)
        → v.items ≡ map g (range_with_len 0 (blocks * size))) }
{
    let parts = each_place(rt, alloc, blocks, f)?;
    joined(alloc, &parts)
}

fn joined(alloc: Global, parts: &[Items<Gold>]) -> Result<Vec<Gold>, AllocError>
    ensures { IfOk result (λ v. v.items ≡ flat_map (λ part. part) parts.now) }
{
    let mut all = Vec::new(alloc);
    for part in parts {
        all.extend_from_slice(part.as_slice())?;
    }
    Ok(all)
}

/// Adds what `f` gives for each place to the number there. The first number's place is `first`.
pub fn add_each<F: Fn(usize) -> Gold + Copy>(sums: &mut [Gold], first: usize, f: F)
    requires small { first + length sums.old < 2 ^ 32 }
    requires each { (j : ℕ) → j < first + length sums.old → F.pre f j }
    ensures { (g : ℕ → ℕ) → ((j x : ℕ) → F.post f j x → x % P ≡ g j % P)
        → (i : ℕ) → i < length sums.old
        → slice_index sums.new i ≡ (slice_index sums.old i + g (first + i)) % P }
{
    for i in 0..sums.len() {
        sums[i] = sums[i].add(f(first + i));
    }
}

/// Row `k`, and no numbers behind the last.
pub fn row_in(rows: &[Items<Gold>], k: usize) -> &[Gold]
    ensures { result.now ≡ slice_index_or rows.now k [] }
{
    match rows.get(k) {
        Some(row) => row.as_slice(),
        None => &[],
    }
}

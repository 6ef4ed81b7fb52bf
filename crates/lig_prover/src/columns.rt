//! The columns of the encoded matrix, and the tree over them.

ghost use Rattle.std.specs.Prelude.{◌≡◌, ℕ, ◌≤◌, ◌<◌, ◌*◌, ◌^◌, IfOk, length, map};
ghost use Rattle.std.specs.List.{range_with_len};
ghost use Rattle.lig_layout.specs.Sizes.{IsParams};
ghost use Rattle.lig_merkle.specs.Merkle.{leaf_hash};
ghost use Rattle.lig_prover.specs.Matrix.{column_in};

use crate::transform::number_in;
use gold_field::Gold;
use items::Items;
use lig_layout::Params;
use lig_merkle::{Hash, Tree, leaf};
use lig_proof::each_place;
use std::alloc::{AllocError, Global};
use std::thread::Threads;

/// A column of the encoded matrix.
pub fn column(alloc: Global, codewords: &[Items<Gold>], at: usize) -> Result<Vec<Gold>, AllocError>
    ensures { IfOk result (λ v. v.items ≡ column_in codewords.now at) }
{
    let mut values = Vec::with_capacity(alloc, codewords.len())?;
    for codeword in codewords {
        values.push(number_in(codeword.as_slice(), at))?;
    }
    Ok(values)
}

fn leaf_at(alloc: Global, codewords: &[Items<Gold>], at: usize) -> Result<Hash, AllocError>
    ensures { IfOk result (λ hash. hash ≡ leaf_hash (column_in codewords.now at)) }
{
    let values = column(alloc, codewords, at)?;
    Ok(leaf(&values))
}

fn leaves<R: Threads + Sync>(
    rt: &R,
    alloc: Global,
    codewords: &[Items<Gold>],
    count: usize,
) -> Result<Vec<Hash>, AllocError>
    ensures { IfOk result (λ v. v.items
        ≡ map (λ i. leaf_hash (column_in codewords.now i)) (range_with_len 0 count)) }
{
    each_place(
        rt,
        alloc,
        count,
        |at: usize| -> Result<Hash, AllocError>
            ensures { IfOk result (λ hash. hash ≡ leaf_hash (column_in codewords.entry.now at)) }
        { leaf_at(alloc, codewords, at) },
    )
}

/// The tree over the columns.
pub fn commit<R: Threads + Sync>(
    rt: &R,
    alloc: Global,
    params: &Params,
    codewords: &[Items<Gold>],
) -> Result<Tree, AllocError>
    requires { IsParams params.now }
    ensures leaves { IfOk result (λ t. t.hashes
        ≡ map (λ i. leaf_hash (column_in codewords.now i)) (range_with_len 0 (8 * params.now.l))) }
    ensures depth { IfOk result (λ t. t.depth ≡ params.now.depth) }
{
    let leaves = leaves(rt, alloc, codewords, 8 * params.l as usize)?;
    Tree::make(alloc, &leaves)
}

//! Whether opened columns lead to the root.

ghost use Rattle.std.specs.Prelude.{◌≡◌, ◌<◌, ◌*◌, ◌^◌, ◌↔◌, ℕ, IfOk, IsTrue, MatchOption};
ghost use Rattle.std.specs.Prelude.{length, map};
ghost use Rattle.lig_layout.specs.declared.params.Params.{Params};
ghost use Rattle.lig_layout.specs.Sizes.{IsParams};
ghost use Rattle.lig_merkle.specs.Merkle.{leaf_hash};
ghost use Rattle.lig_merkle.specs.Shared.{AreOpened, shared_count, root_of_many};
ghost use Rattle.lig_proof.specs.declared.shared_proof.AnyProof.TheVariants.{First, Second};
ghost use Rattle.lig_auditor.specs.Ways.{HasWays, IsFirstAstray};

use gold_field::Gold;
use items::Items;
use lig_layout::Params;
use lig_merkle::{Hash, leaf, root_of, root_of_many};
use lig_proof::{AnyProof, Proof, Proof2};
use std::alloc::{AllocError, Global};

/// The first way that doesn't lead to the root: of a column with its path, in version 1; of all
/// columns with the shared nodes, in version 2.
pub fn first_astray(
    alloc: Global,
    params: &Params,
    indices: &[u32],
    proof: &AnyProof,
) -> Result<Option<u32>, AllocError>
    requires params { IsParams params.now }
    requires ways { HasWays params.now indices.now proof.now }
    ensures { IfOk result (IsFirstAstray params.now indices.now proof.now) }
{
    match proof {
        AnyProof::First(proof) => Ok(first_alone(proof, indices)),
        AnyProof::Second(proof) => Ok(failing(lead(alloc, params, indices, proof)?)),
    }
}

// The only way, where it fails.
fn failing(leads: bool) -> Option<u32>
    ensures { MatchOption result (IsTrue leads) (λ way. (way ≡ 0) × (¬ IsTrue leads)) }
{
    if leads { None } else { Some(0) }
}

// The first opened column that doesn't lead to the root with its path.
fn first_alone(proof: &Proof, indices: &[u32]) -> Option<u32>
    requires small { length proof.now.columns < 2 ^ 32 }
    requires indices { length indices.now ≡ length proof.now.columns }
    requires paths { length proof.now.paths ≡ length proof.now.columns }
    ensures { (p : Params) → IsFirstAstray p indices.now (First proof.now) result }
{
    let columns = proof.columns.as_slice();
    let paths = proof.paths.as_slice();
    for (q, column) in columns.iter().enumerate() {
        let hash = leaf(column.as_slice());
        if root_of(&hash, indices[q], paths[q].as_slice()) != proof.root {
            return Some(q as u32);
        }
    }
    None
}

// Whether all opened columns lead to the root with the shared nodes.
fn lead(alloc: Global, params: &Params, indices: &[u32], proof: &Proof2) -> Result<bool, AllocError>
    requires params { IsParams params.now }
    requires opened { AreOpened params.now.depth indices.now }
    requires columns { length proof.now.columns ≡ length indices.now }
    requires nodes { length proof.now.nodes ≡ shared_count params.now.depth indices.now }
    ensures { IfOk result (λ holds. IsTrue holds
        ↔ (root_of_many params.now.depth indices.now (map leaf_hash proof.now.columns)
        proof.now.nodes ≡ proof.now.root)) }
{
    let leaves = leaves(alloc, proof.columns.as_slice())?;
    let nodes = proof.nodes.as_slice();
    let root = root_of_many(alloc, params.depth, indices, &leaves, nodes)?;
    Ok(root == proof.root)
}

fn leaves(alloc: Global, columns: &[Items<Gold>]) -> Result<Vec<Hash>, AllocError>
    ensures { IfOk result (λ v. v.items ≡ map leaf_hash columns.now) }
{
    let mut leaves = Vec::with_capacity(alloc, columns.len())?;
    for column in columns {
        leaves.push(leaf(column.as_slice()))?;
    }
    Ok(leaves)
}

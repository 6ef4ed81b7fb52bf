//! The opened columns, and the bytes of the proof.

ghost use Rattle.std.specs.Prelude.{◌≡◌, ◌<◌, ◌*◌, All, IfOk, length, map};
ghost use Rattle.lig_layout.specs.Sizes.{IsParams};
ghost use Rattle.lig_merkle.specs.Merkle.{path_at};
ghost use Rattle.lig_proof.specs.declared.version.Version.TheVariants.{One, Two};
ghost use Rattle.lig_proof.specs.ProofBytes.{opened_count};
ghost use Rattle.lig_proof.specs.Proving.{proof_spelling};
ghost use Rattle.lig_prover.specs.Matrix.{column_in};

use crate::columns::column;
use gold_field::Gold;
use items::Items;
use lig_layout::Params;
use lig_merkle::{Hash, Tree};
use lig_proof::{Proof, Proof2, Version, opened_once, write_proof, write_proof2};
use std::alloc::{AllocError, Global};

/// The bytes of the proof that opens these columns, in this version.
pub fn proof_in(
    alloc: Global,
    version: Version,
    params: &Params,
    tree: &Tree,
    codewords: &[Items<Gold>],
    polys: Vec<Gold>,
    drawn: &[u32],
) -> Result<Vec<u8>, AllocError>
    requires params { IsParams params.now }
    requires depth { tree.now.depth ≡ params.now.depth }
    requires leaves { length tree.now.hashes ≡ 8 * params.now.l }
    requires count { length drawn.now ≡ opened_count }
    requires below { All (λ i. i < 8 * params.now.l) drawn.now }
    ensures { IfOk result (λ v. v.items
        ≡ proof_spelling version params.now (column_in codewords.now) tree.now.hashes polys.items
        drawn.now) }
{
    match version {
        Version::One => first_proof(alloc, params, tree, codewords, polys, drawn),
        Version::Two => second_proof(alloc, params, tree, codewords, polys, drawn),
    }
}

// Each column with its path.
fn first_proof(
    alloc: Global,
    params: &Params,
    tree: &Tree,
    codewords: &[Items<Gold>],
    polys: Vec<Gold>,
    drawn: &[u32],
) -> Result<Vec<u8>, AllocError>
    requires depth { tree.now.depth ≡ params.now.depth }
    requires leaves { length tree.now.hashes ≡ 8 * params.now.l }
    requires count { length drawn.now ≡ opened_count }
    requires below { All (λ i. i < 8 * params.now.l) drawn.now }
    ensures { IfOk result (λ v. v.items
        ≡ proof_spelling One params.now (column_in codewords.now) tree.now.hashes polys.items
        drawn.now) }
{
    let columns = columns(alloc, codewords, drawn)?;
    let paths = paths(alloc, tree, drawn)?;
    let proof = Proof {
        root: tree.root(),
        polys: Items::of(polys),
        columns: Items::of(columns),
        paths: Items::of(paths),
    };
    write_proof(alloc, &proof)
}

// Each column once, with the nodes that they share.
fn second_proof(
    alloc: Global,
    params: &Params,
    tree: &Tree,
    codewords: &[Items<Gold>],
    polys: Vec<Gold>,
    drawn: &[u32],
) -> Result<Vec<u8>, AllocError>
    requires params { IsParams params.now }
    requires depth { tree.now.depth ≡ params.now.depth }
    requires some { 0 < length drawn.now }
    requires below { All (λ i. i < 8 * params.now.l) drawn.now }
    ensures { IfOk result (λ v. v.items
        ≡ proof_spelling Two params.now (column_in codewords.now) tree.now.hashes polys.items
        drawn.now) }
{
    let opened = opened_once(alloc, params, drawn)?;
    let columns = columns(alloc, codewords, &opened)?;
    let nodes = tree.nodes(alloc, &opened)?;
    let proof = Proof2 {
        root: tree.root(),
        polys: Items::of(polys),
        columns: Items::of(columns),
        nodes: Items::of(nodes),
    };
    write_proof2(alloc, &proof)
}

fn columns(
    alloc: Global,
    codewords: &[Items<Gold>],
    opened: &[u32],
) -> Result<Vec<Items<Gold>>, AllocError>
    ensures { IfOk result (λ v. v.items ≡ map (column_in codewords.now) opened.now) }
{
    let mut columns = Vec::with_capacity(alloc, opened.len())?;
    for at in opened {
        let values = column(alloc, codewords, *at as usize)?;
        columns.push(Items::of(values))?;
    }
    Ok(columns)
}

fn paths(alloc: Global, tree: &Tree, drawn: &[u32]) -> Result<Vec<Items<Hash>>, AllocError>
    requires { All (λ i. i < length tree.now.hashes) drawn.now }
    ensures { IfOk result (λ v. v.items
        ≡ map (path_at tree.now.depth tree.now.hashes) drawn.now) }
{
    let mut paths = Vec::with_capacity(alloc, drawn.len())?;
    for at in drawn {
        let path = tree.path(alloc, *at)?;
        paths.push(Items::of(path))?;
    }
    Ok(paths)
}

//! Reading a proof of version 2.

ghost use Rattle.std.specs.Prelude.{◌≡◌, ◌+◌, ◌*◌, ◌<◌, ◌≤◌, ◌^◌, All, IfOk, Ok, length, vec_len};
ghost use Rattle.binary_format.specs.Reading.{Gives, Reads, repeated};
ghost use Rattle.lig_layout.specs.Sizes.{IsParams};
ghost use Rattle.lig_merkle.specs.Shared.{AreOpened};
ghost use Rattle.lig_proof.specs.ProofBytes.{opened_count};
ghost use Rattle.lig_proof.specs.Reading.{refused, next_value};
ghost use Rattle.lig_proof.specs.SharedProof.{IsProof2, opened_once, opened_for, proof2_bytes};
ghost use Rattle.lig_proof.specs.SharedReading.{proof2_of, rest_of};
ghost use Rattle.lig_proof.specs.declared.shared_proof.Proof2.{Proof2};

use crate::fault::ProofFault;
use crate::fields::{next_hash, next_hashes, next_values, read_head};
use crate::relation::Relation;
use crate::shared_proof::Proof2;
use crate::transcript::{first_key, queries};
use binary_format::Reader;
use gold_field::Gold;
use items::Items;
use lig_layout::Params;
use lig_merkle::{Hash, shared};
use std::alloc::{AllocError, Global};

/// Reads a proof of version 2 for a matrix of these sizes, all of the bytes. Which columns it has
/// follows from the relation, the public values and what stands before them.
pub fn read_proof2(
    alloc: Global,
    params: &Params,
    relation: &Relation<'_>,
    publics: &[Gold],
    bytes: &[u8],
) -> Result<Proof2, ProofFault>
    requires params { IsParams params.now }
    requires publics { length publics.now < 2 ^ 32 }
    // What is read is a proof that opens the columns that are due, and the bytes are its spelling.
    ensures found { IfOk result (λ proof.
        let opened = opened_for params.now relation.now.bytes.now publics.now proof.root
        proof.polys in IsProof2 params.now opened proof × (bytes.now ≡ proof2_bytes proof)) }
    // The spelling of such a proof is read, unless memory runs out.
    ensures only { (proof : Proof2)
        → (let opened = opened_for params.now relation.now.bytes.now publics.now proof.root
        proof.polys in IsProof2 params.now opened proof)
        → bytes.now ≡ proof2_bytes proof → Gives refused (λ x. x) result (Ok proof) }
    // Which fault it is, and where.
    ensures exact { Gives refused (λ x. x) result
        (proof2_of params.now relation.now.bytes.now publics.now bytes.now) }
{
    proof2_in(alloc, params, relation, publics, bytes)
}

#[tactic(auto, unfolding(crate::specs::SharedReading::proof2_of))]
fn proof2_in(
    alloc: Global,
    params: &Params,
    relation: &Relation<'_>,
    publics: &[Gold],
    bytes: &[u8],
) -> Result<Proof2, ProofFault>
    requires params { IsParams params.now }
    requires publics { length publics.now < 2 ^ 32 }
    ensures { Gives refused (λ x. x) result
        (proof2_of params.now relation.now.bytes.now publics.now bytes.now) }
{
    let mut fields = Reader::new(bytes);
    read_head(&mut fields, 2)?;
    let root = next_hash(&mut fields)?;
    // In each of two repetitions 2 * l, 3 * l and 4 * l coefficients.
    let polys = next_values(alloc, &mut fields, 18 * params.l)?;
    let opened = opened_for(alloc, params, relation, publics, &root, &polys)?;
    rest_in(alloc, &mut fields, params, root, polys, &opened)
}

// What stands behind the polynomials, up to the end of the bytes.
fn rest_in(
    alloc: Global,
    fields: &mut Reader<'_>,
    params: &Params,
    root: Hash,
    polys: Vec<Gold>,
    opened: &[u32],
) -> Result<Proof2, ProofFault>
    requires params { IsParams params.now }
    requires opened { AreOpened params.now.depth opened.now }
    requires few { length opened.now ≤ opened_count }
    ensures { Gives refused (λ x. x) result
        (rest_of params.now fields.old.end opened.now root polys.items fields.old.rest.now) }
{
    let columns = next_columns(alloc, fields, params, opened.len() as u32)?;
    let count = shared(alloc, params.depth, opened)?;
    let nodes = next_hashes(alloc, fields, count)?;
    if !fields.is_empty() {
        return Err(ProofFault::Malformed {
            offset: fields.offset(),
        });
    }
    Ok(Proof2 {
        root,
        polys: Items::of(polys),
        columns: Items::of(columns),
        nodes: Items::of(nodes),
    })
}

// The columns that a proof opens, by what stands before them.
fn opened_for(
    alloc: Global,
    params: &Params,
    relation: &Relation<'_>,
    publics: &[Gold],
    root: &Hash,
    polys: &[Gold],
) -> Result<Vec<u32>, AllocError>
    requires params { IsParams params.now }
    requires publics { length publics.now < 2 ^ 32 }
    ensures value { IfOk result (λ v. v.items
        ≡ opened_for params.now relation.now.bytes.now publics.now root.now polys.now) }
    ensures opened { IfOk result (λ v. AreOpened params.now.depth v.items) }
    ensures few { IfOk result (λ v. vec_len v ≤ opened_count) }
{
    let first = first_key(relation, publics, root);
    let drawn = queries(alloc, params, &first, polys)?;
    let opened = opened_once(alloc, params, &drawn)?;
    Ok(opened)
}

/// The columns that were drawn, in order and each once.
pub fn opened_once(alloc: Global, params: &Params, drawn: &[u32]) -> Result<Vec<u32>, AllocError>
    requires params { IsParams params.now }
    requires some { 0 < length drawn.now }
    requires below { All (λ column. column < 8 * params.now.l) drawn.now }
    ensures once { IfOk result (λ v. v.items ≡ opened_once params.now drawn.now) }
    ensures opened { IfOk result (λ v. AreOpened params.now.depth v.items) }
    ensures few { IfOk result (λ v. vec_len v ≤ length drawn.now) }
{
    let mut once = Vec::from_slice(alloc, drawn)?;
    once.sort_unstable();
    once.dedup();
    Ok(once)
}

// The next columns.
fn next_columns(
    alloc: Global,
    fields: &mut Reader<'_>,
    params: &Params,
    count: u32,
) -> Result<Vec<Items<Gold>>, ProofFault>
    requires { IsParams params.now }
    ensures read { let column = repeated (next_value fields.old.end) (params.now.rows + 6) in
        Reads refused (λ v. v.items) fields.new.rest.now result
        (repeated column count fields.old.rest.now) }
    ensures end { fields.new.end ≡ fields.old.end }
{
    let mut columns = Vec::with_capacity(alloc, count as usize)?;
    for _ in 0..count {
        // A value for each row, and for each of six masks.
        let column = next_values(alloc, fields, params.rows + 6)?;
        columns.push(Items::of(column))?;
    }
    Ok(columns)
}

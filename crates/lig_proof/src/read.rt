//! Reading a proof.

ghost use Rattle.std.specs.Prelude.{◌≡◌, ◌≤◌, ◌*◌, ◌^◌, ◌<◌, IfOk, Ok, length};
ghost use Rattle.binary_format.specs.Reading.{Gives, Reads};
ghost use Rattle.lig_layout.specs.Sizes.{IsParams};
ghost use Rattle.lig_proof.specs.declared.proof.Proof.{Proof};
ghost use Rattle.lig_proof.specs.ProofBytes.{IsProof, proof_bytes};
ghost use Rattle.lig_proof.specs.Reading.{refused, proof_of, next_openings};

use crate::challenge::OPENED;
use crate::fault::ProofFault;
use crate::fields::{next_hash, next_hashes, next_values, read_head};
use crate::proof::Proof;
use binary_format::Reader;
use gold_field::Gold;
use items::Items;
use lig_layout::Params;
use lig_merkle::Hash;
use std::alloc::Global;

/// Reads a proof for a matrix of these sizes, all of the bytes.
pub fn read_proof(alloc: Global, params: &Params, bytes: &[u8]) -> Result<Proof, ProofFault>
    requires { IsParams params.now }
    // What is read is a proof, and the bytes are its spelling.
    ensures found { IfOk result (λ proof.
        IsProof params.now proof × (bytes.now ≡ proof_bytes proof)) }
    // The spelling of a proof is read, unless memory runs out.
    ensures only { (proof : Proof) → IsProof params.now proof → bytes.now ≡ proof_bytes proof →
        Gives refused (λ x. x) result (Ok proof) }
    // Which fault it is, and where.
    ensures exact { Gives refused (λ x. x) result (proof_of params.now bytes.now) }
{
    proof_in(alloc, params, bytes)
}

#[tactic(auto, unfolding(crate::specs::Reading::proof_of))]
fn proof_in(alloc: Global, params: &Params, bytes: &[u8]) -> Result<Proof, ProofFault>
    requires { IsParams params.now }
    ensures { Gives refused (λ x. x) result (proof_of params.now bytes.now) }
{
    let mut fields = Reader::new(bytes);
    read_head(&mut fields, 1)?;
    let root = next_hash(&mut fields)?;
    // In each of two repetitions 2 * l, 3 * l and 4 * l coefficients.
    let polys = next_values(alloc, &mut fields, 18 * params.l)?;
    let (columns, paths) = next_openings(alloc, &mut fields, params, OPENED)?;
    if !fields.is_empty() {
        return Err(ProofFault::Malformed {
            offset: fields.offset(),
        });
    }
    Ok(Proof {
        root,
        polys: Items::of(polys),
        columns: Items::of(columns),
        paths: Items::of(paths),
    })
}

// The next opened columns, each with its path.
fn next_openings(
    alloc: Global,
    fields: &mut Reader<'_>,
    params: &Params,
    count: u32,
) -> Result<(Vec<Items<Gold>>, Vec<Items<Hash>>), ProofFault>
    requires { IsParams params.now }
    ensures read { Reads refused (λ x. (x.0.items, x.1.items)) fields.new.rest.now result
        (next_openings params.now fields.old.end count fields.old.rest.now) }
    ensures end { fields.new.end ≡ fields.old.end }
{
    let mut columns = Vec::with_capacity(alloc, count as usize)?;
    let mut paths = Vec::with_capacity(alloc, count as usize)?;
    for _ in 0..count {
        // A value for each row, and for each of six masks.
        let column = next_values(alloc, fields, params.rows + 6)?;
        let path = next_hashes(alloc, fields, params.depth)?;
        columns.push(Items::of(column))?;
        paths.push(Items::of(path))?;
    }
    Ok((columns, paths))
}

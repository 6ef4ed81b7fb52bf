//! Reading a proof of either version.

ghost use Rattle.std.specs.Prelude.{◌≡◌, ◌==◌, ◌<◌, ◌≤◌, ◌^◌, IfOk, false, length};
ghost use Rattle.lig_layout.specs.Sizes.{IsParams};
ghost use Rattle.binary_format.specs.Reading.{Gives};
ghost use Rattle.lig_proof.specs.Reading.{refused, version_at};
ghost use Rattle.lig_proof.specs.SharedReading.{any_proof_of, IsAny};

use crate::fault::ProofFault;
use crate::read::read_proof;
use crate::relation::Relation;
use crate::shared_proof::AnyProof;
use crate::shared_read::read_proof2;
use binary_format::Reader;
use gold_field::Gold;
use lig_layout::Params;
use std::alloc::Global;

/// Reads a proof of the version that the bytes name, as `read_proof` or `read_proof2` does.
pub fn read_any(
    alloc: Global,
    params: &Params,
    relation: &Relation<'_>,
    publics: &[Gold],
    bytes: &[u8],
) -> Result<AnyProof, ProofFault>
    requires params { IsParams params.now }
    requires publics { length publics.now < 2 ^ 32 }
    ensures found { IfOk result (λ proof.
        IsAny params.now relation.now.bytes.now publics.now proof) }
    // Which proof it is, or which fault, and where.
    ensures exact { Gives refused (λ x. x) result
        (any_proof_of params.now relation.now.bytes.now publics.now bytes.now) }
{
    if is_second(bytes) {
        match read_proof2(alloc, params, relation, publics, bytes) {
            Ok(proof) => Ok(AnyProof::Second(proof)),
            Err(fault) => Err(fault),
        }
    } else {
        match read_proof(alloc, params, bytes) {
            Ok(proof) => Ok(AnyProof::First(proof)),
            Err(fault) => Err(fault),
        }
    }
}

// Whether the bytes name version 2, if they have a name and a version.
fn is_second(bytes: &[u8]) -> bool
    ensures long { 8 ≤ length bytes.now → result ≡ (version_at bytes.now == 2) }
    ensures short { length bytes.now < 8 → result ≡ false }
{
    let mut fields = Reader::new(bytes);
    match (fields.u32(), fields.u32()) {
        (Some(_name), Some(version)) => version == 2,
        _ => false,
    }
}

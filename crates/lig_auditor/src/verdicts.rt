//! The verdict on bytes that are offered as a proof.

ghost use Rattle.std.specs.Prelude.{◌≡◌, ◌<◌, ◌+◌, ◌*◌, ◌^◌, ℕ, List, IfOk, length};
ghost use Rattle.iden_files.specs.File.{InLimits};
ghost use Rattle.lig_layout.specs.Sizes.{IsParams, params_of};
ghost use Rattle.lig_layout.specs.System.{public_count};
ghost use Rattle.lig_merkle.specs.Shared.{AreOpened};
ghost use Rattle.lig_proof.specs.Acceptance.{IsVerdict, IsProofVerdict};
ghost use Rattle.lig_proof.specs.Acceptance.{indices_in, polys_in, root_in};
ghost use Rattle.lig_proof.specs.SharedReading.{IsAny};
ghost use Rattle.lig_proof.specs.Transcript.{first_key, queries};
ghost use Rattle.lig_auditor.specs.Ways.{HasWays};

use crate::opening::Opening;
use crate::paths::first_astray;
use crate::testing::tested;
use gold_field::Gold;
use iden_files::R1cs;
use lig_layout::Params;
use lig_merkle::Hash;
use lig_proof::{
    AnyProof, ProofFault, Relation, Verdict, challenges, equation_count, opened_once, queries,
    read_any,
};
use std::alloc::{AllocError, Global};
use std::thread::Threads;

/// The verdict on the bytes of a proof of either version: the first test that fails, for the bytes
/// of an `.r1cs` file, what they mean, and public values.
pub fn audit<R: Threads + AllocGlobal + Sync>(
    rt: &R,
    r1cs_bytes: &[u8],
    file: &R1cs,
    publics: &[Gold],
    proof: &[u8],
) -> Result<Verdict, AllocError>
    requires { InLimits file.now }
    ensures { IfOk result (λ verdict.
        IsVerdict r1cs_bytes.now file.now publics.now proof.now verdict) }
{
    audit_relation(rt, &Relation::of(r1cs_bytes), file, publics, proof)
}

fn audit_relation<R: Threads + AllocGlobal + Sync>(
    rt: &R,
    relation: &Relation<'_>,
    file: &R1cs,
    publics: &[Gold],
    proof: &[u8],
) -> Result<Verdict, AllocError>
    requires { InLimits file.now }
    ensures { IfOk result (λ verdict.
        IsVerdict relation.now.bytes.now file.now publics.now proof.now verdict) }
{
    if publics.len() != public_count(file) {
        return Ok(Verdict::PublicCount);
    }
    let params = Params::of(file);
    match read_any(rt.alloc(), &params, relation, publics, proof) {
        Ok(proof) => audit_proof(rt, relation, file, publics, &params, &proof),
        Err(ProofFault::Malformed { offset }) => Ok(Verdict::Malformed { offset }),
        Err(ProofFault::OutOfMemory) => Err(AllocError),
    }
}

// How many public values the file has.
fn public_count(file: &R1cs) -> usize
    requires { InLimits file.now }
    ensures value { result ≡ public_count file.now }
    ensures few { result < 2 ^ 32 }
{
    // Its contract says that the public wires are wires.
    let _constraints = file.constraints();
    (file.outputs + file.public_inputs) as usize
}

// The verdict on a proof.
fn audit_proof<R: Threads + AllocGlobal + Sync>(
    rt: &R,
    relation: &Relation<'_>,
    file: &R1cs,
    publics: &[Gold],
    params: &Params,
    proof: &AnyProof,
) -> Result<Verdict, AllocError>
    requires limits { InLimits file.now }
    requires params { params.now ≡ params_of file.now }
    requires sizes { IsParams params.now }
    requires publics { length publics.now ≡ public_count file.now }
    requires proof { IsAny params.now relation.now.bytes.now publics.now proof.now }
    ensures { IfOk result (λ verdict.
        IsProofVerdict relation.now.bytes.now file.now publics.now proof.now verdict) }
{
    let alloc = rt.alloc();
    let equations = equation_count(file);
    let challenges = challenges(alloc, params, relation, publics, equations, proof.root())?;
    let indices = indices(alloc, params, &challenges.first, proof)?;
    let way = first_astray(alloc, params, &indices, proof)?;
    if let Some(opened) = way {
        return Ok(Verdict::BadPath { opened });
    }
    let opening = Opening {
        params,
        challenges: &challenges,
        polys: proof.polys(),
        indices: &indices,
        columns: proof.columns(),
    };
    tested(rt, alloc, file, publics, &opening)
}

// The indices of the columns that are due in a proof, by the first key.
fn indices(
    alloc: Global,
    params: &Params,
    first: &Hash,
    proof: &AnyProof,
) -> Result<Vec<u32>, AllocError>
    requires { IsParams params.now }
    ensures value { IfOk result (λ v. v.items ≡ indices_in params.now
        (queries params.now first.now (polys_in proof.now)) proof.now) }
    ensures ways { IfOk result (λ v. (r1cs_bytes publics : List ℕ)
        → first.now ≡ first_key r1cs_bytes publics (root_in proof.now)
        → IsAny params.now r1cs_bytes publics proof.now
        → HasWays params.now v.items proof.now) }
{
    let drawn = queries(alloc, params, first, proof.polys())?;
    match proof {
        AnyProof::First(_) => Ok(drawn),
        AnyProof::Second(_) => opened_once(alloc, params, &drawn),
    }
}

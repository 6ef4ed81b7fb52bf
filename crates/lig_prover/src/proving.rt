//! Whole proofs.

ghost use Rattle.std.specs.Prelude.{◌≡◌, IfOk, length};
ghost use Rattle.iden_files.specs.File.{InLimits};
ghost use Rattle.lig_layout.specs.Laws.{publics_of};
ghost use Rattle.lig_layout.specs.Sizes.{IsParams, params_of};
ghost use Rattle.lig_layout.specs.System.{equation_count};
ghost use Rattle.lig_proof.specs.declared.version.Version.TheVariants.{One, Two};
ghost use Rattle.lig_proof.specs.Proving.{AreMade, IsEncoded};
ghost use Rattle.lig_prover.specs.Matrix.{AreCodewords, encoded_by};
ghost use Rattle.lig_prover.specs.Proves.{AreOf, IsProofOrRefusal};
ghost use Rattle.lig_prover.specs.Refusing.{refusal_of};

use crate::columns::commit;
use crate::fault::ProveFault;
use crate::opening::proof_in;
use crate::rows::{evaluated, polynomials};
use crate::sent::sent;
use gold_field::Gold;
use iden_files::{R1cs, first_failing};
use items::Items;
use lig_layout::{Params, Vectors, vectors};
use lig_merkle::Hash;
use lig_proof::{Relation, Version, challenges, equation_count, queries};
use std::alloc::{AllocError, Global};
use std::thread::{Threads, join};

/// The proof of version 1 for values of the wires that satisfy the constraints of the file with
/// these bytes. The seed gives its random numbers: it is to be kept secret, and used once.
pub fn prove<R: Threads + AllocGlobal + Sync>(
    rt: &R,
    r1cs_bytes: &[u8],
    file: &R1cs,
    w: &[Gold],
    seed: [u8; 32],
) -> Result<Vec<u8>, ProveFault>
    requires { InLimits file.now }
    ensures { IsProofOrRefusal One r1cs_bytes.now file.now w.now seed result }
{
    prove_as(rt, Version::One, r1cs_bytes, file, w, seed)
}

/// The same in version 2, which has each opened column and each node on the ways to the root once.
pub fn prove2<R: Threads + AllocGlobal + Sync>(
    rt: &R,
    r1cs_bytes: &[u8],
    file: &R1cs,
    w: &[Gold],
    seed: [u8; 32],
) -> Result<Vec<u8>, ProveFault>
    requires { InLimits file.now }
    ensures { IsProofOrRefusal Two r1cs_bytes.now file.now w.now seed result }
{
    prove_as(rt, Version::Two, r1cs_bytes, file, w, seed)
}

/// The proof of version 1 for any values of the vectors: so there is one, which an auditor rejects,
/// of what doesn't hold.
pub fn prove_any<R: Threads + AllocGlobal + Sync>(
    rt: &R,
    r1cs_bytes: &[u8],
    file: &R1cs,
    vectors: &Vectors,
    seed: [u8; 32],
) -> Result<Vec<u8>, AllocError>
    requires limits { InLimits file.now }
    requires vectors { AreOf file.now vectors.now }
    ensures { IfOk result (λ v. AreMade One r1cs_bytes.now file.now vectors.now seed v.items) }
{
    prove_any_as(rt, Version::One, r1cs_bytes, file, vectors, seed)
}

fn prove_as<R: Threads + AllocGlobal + Sync>(
    rt: &R,
    version: Version,
    r1cs_bytes: &[u8],
    file: &R1cs,
    w: &[Gold],
    seed: [u8; 32],
) -> Result<Vec<u8>, ProveFault>
    requires { InLimits file.now }
    ensures { IsProofOrRefusal version r1cs_bytes.now file.now w.now seed result }
{
    if let Some(fault) = refusal_of(file, w) {
        return Err(fault);
    }
    let vectors = vectors(rt.alloc(), file, w)?;
    let bytes = prove_any_as(rt, version, r1cs_bytes, file, &vectors, seed)?;
    Ok(bytes)
}

// By the count of values, then wire 0, which stands for 1, then the constraints.
fn refusal_of(file: &R1cs, w: &[Gold]) -> Option<ProveFault>
    requires { InLimits file.now }
    ensures { result ≡ refusal_of file.now w.now }
{
    if w.len() != file.wires as usize {
        return Some(ProveFault::WrongLength {
            has: w.len() as u64,
            wants: file.wires,
        });
    }
    match w {
        [one, ..] if one.get() == 1 => {}
        _ => return Some(ProveFault::WireZero),
    }
    match first_failing(file, w) {
        None => None,
        Some(constraint) => Some(ProveFault::Unsatisfied { constraint }),
    }
}

/// The proof for any values of the vectors, in this version.
pub fn prove_any_as<R: Threads + AllocGlobal + Sync>(
    rt: &R,
    version: Version,
    r1cs_bytes: &[u8],
    file: &R1cs,
    vectors: &Vectors,
    seed: [u8; 32],
) -> Result<Vec<u8>, AllocError>
    requires limits { InLimits file.now }
    requires vectors { AreOf file.now vectors.now }
    ensures { IfOk result (λ v. AreMade version r1cs_bytes.now file.now vectors.now seed v.items) }
{
    let alloc = rt.alloc();
    let params = Params::of(file);
    // The digest of the file is taken beside the encoding.
    let (relation, encoded) = join(
        rt,
        || -> Relation<'_>
            ensures { result.bytes.now ≡ r1cs_bytes.entry.now }
        { Relation::of(r1cs_bytes) },
        || -> Result<(Vec<Items<Gold>>, Vec<Items<Gold>>), AllocError>
            requires { (params ≡ params_of file.now) × IsParams params × AreOf file.now vectors.now }
            ensures { IfOk result (λ m. IsEncoded params vectors.entry.now seed
                (encoded_by params m.0.items) × AreCodewords params m.0.items m.1.items) }
        { encode(rt, alloc, &params, file, vectors, &seed) },
    );
    let (polynomials, codewords) = encoded?;
    let tree = commit(rt, alloc, &params, &codewords)?;
    let publics = publics_of(file, vectors.w.as_slice());
    let equations = equation_count(file);
    let challenges = challenges(alloc, &params, &relation, publics, equations, &tree.root())?;
    let polys = sent(
        rt,
        alloc,
        file,
        &params,
        &challenges,
        polynomials,
        &codewords,
    )?;
    let drawn = queries(alloc, &params, &challenges.first, &polys)?;
    proof_in(alloc, version, &params, &tree, &codewords, polys, &drawn)
}

// The polynomials of the encoded matrix, and their codewords.
fn encode<R: Threads + Sync>(
    rt: &R,
    alloc: Global,
    params: &Params,
    file: &R1cs,
    vectors: &Vectors,
    seed: &Hash,
) -> Result<(Vec<Items<Gold>>, Vec<Items<Gold>>), AllocError>
    requires file { params.now ≡ params_of file.now }
    requires params { IsParams params.now }
    requires vectors { AreOf file.now vectors.now }
    ensures encoded { IfOk result (λ m. IsEncoded params.now vectors.now seed.now
        (encoded_by params.now m.0.items)) }
    ensures codewords { IfOk result (λ m. AreCodewords params.now m.0.items m.1.items) }
{
    let polynomials = polynomials(rt, alloc, params, vectors, seed)?;
    let codewords = evaluated(rt, alloc, &polynomials, params.depth)?;
    Ok((polynomials, codewords))
}

// The public values among those of the wires.
fn publics_of<'a>(file: &R1cs, w: &'a [Gold]) -> &'a [Gold]
    requires { length w.now ≡ file.now.wires }
    ensures { result.now ≡ publics_of file.now w.now }
{
    // Its contract says that the public wires are wires.
    let _constraints = file.constraints();
    let (_, from) = w.split_at(1);
    let (known, _) = from.split_at(file.outputs as usize + file.public_inputs as usize);
    known
}

//! What is sent before the columns are opened.

ghost use Rattle.std.specs.Prelude.{◌≡◌, ℕ, ◌*◌, List, IfOk, length};
ghost use Rattle.iden_files.specs.File.{InLimits};
ghost use Rattle.lig_layout.specs.Sizes.{IsParams, params_of};
ghost use Rattle.lig_layout.specs.System.{equation_count};
ghost use Rattle.lig_proof.specs.Proving.{AreSystems};
ghost use Rattle.lig_proof.specs.Sent.{proximity_test, in_order, sent_polynomials};
ghost use Rattle.lig_prover.specs.Matrix.{AreCodewords, encoded_by};

use crate::polynomials::{linear_test, product_test, proximity_test};
use gold_field::Gold;
use iden_files::R1cs;
use items::Items;
use lig_layout::Params;
use lig_proof::Challenges;
use std::alloc::{AllocError, Global};
use std::thread::Threads;

/// The coefficients of the six polynomials, as they stand in a proof.
pub fn sent<R: Threads + Sync>(
    rt: &R,
    alloc: Global,
    file: &R1cs,
    params: &Params,
    challenges: &Challenges,
    polynomials: Vec<Items<Gold>>,
    codewords: &[Items<Gold>],
) -> Result<Vec<Gold>, AllocError>
    requires limits { InLimits file.now }
    requires file { params.now ≡ params_of file.now }
    requires params { IsParams params.now }
    requires numbers { length challenges.now.r ≡ 2 * equation_count file.now }
    requires codewords { AreCodewords params.now polynomials.items codewords.now }
    ensures { IfOk result (λ v. (system : ℕ → ℕ → List ℕ)
        × AreSystems file.now challenges.now system
        × (v.items ≡ in_order (sent_polynomials params.now challenges.now
        (encoded_by params.now polynomials.items) system))) }
{
    let (proximity_0, proximity_1) = proximity_tests(rt, alloc, params, challenges, polynomials)?;
    let linear_0 = linear_test(rt, alloc, file, params, challenges, codewords, 0)?;
    let linear_1 = linear_test(rt, alloc, file, params, challenges, codewords, 1)?;
    let product_0 = product_test(rt, alloc, params, challenges, codewords, 0)?;
    let product_1 = product_test(rt, alloc, params, challenges, codewords, 1)?;
    let mut all = proximity_0;
    all.extend_from_slice(&linear_0)?;
    all.extend_from_slice(&product_0)?;
    all.extend_from_slice(&proximity_1)?;
    all.extend_from_slice(&linear_1)?;
    all.extend_from_slice(&product_1)?;
    Ok(all)
}

// The polynomials that test that the rows are codewords, of both repetitions. Those of the rows are
// given up here.
fn proximity_tests<R: Threads + Sync>(
    rt: &R,
    alloc: Global,
    params: &Params,
    challenges: &Challenges,
    polynomials: Vec<Items<Gold>>,
) -> Result<(Vec<Gold>, Vec<Gold>), AllocError>
    requires { IsParams params.now }
    ensures first { IfOk result (λ both. both.0.items ≡ proximity_test params.now challenges.now
        (encoded_by params.now polynomials.items) 0) }
    ensures second { IfOk result (λ both. both.1.items ≡ proximity_test params.now challenges.now
        (encoded_by params.now polynomials.items) 1) }
{
    let first = proximity_test(rt, alloc, params, challenges, &polynomials, 0)?;
    let second = proximity_test(rt, alloc, params, challenges, &polynomials, 1)?;
    Ok((first, second))
}

//! The rows of the matrix, as values, as polynomials and as codewords.

ghost use Rattle.std.specs.Prelude.{◌≡◌, ◌≤◌, ◌<◌, ◌+◌, ◌*◌, ◌^◌, ◌++◌, All, IfOk, OnOk, length};
ghost use Rattle.std.specs.Prelude.{map, slice_index_or, []};
ghost use Rattle.std.specs.List.{AllZip, range_with_len};
ghost use Rattle.lig_layout.specs.Sizes.{IsParams};
ghost use Rattle.lig_layout.specs.Layout.{message, padded, row_at};
ghost use Rattle.lig_proof.specs.Encoding.{IsMaskedRow};
ghost use Rattle.lig_proof.specs.Masks.{row_mask};
ghost use Rattle.lig_proof.specs.Proving.{IsEncoded};
ghost use Rattle.lig_prover.specs.Matrix.{FitRows, encoded_by};
ghost use Rattle.lig_prover.specs.Transform.{values_at};

use crate::masks::{put_test_masks, row_mask};
use crate::transform::{evaluate, masked_row};
use gold_field::Gold;
use gold_ntt::Coset;
use items::Items;
use lig_layout::{Params, Vectors};
use lig_merkle::Hash;
use lig_proof::{each_place, row_at};
use std::alloc::{AllocError, Global};
use std::thread::Threads;

/// The rows of the matrix one after another.
fn message(alloc: Global, params: &Params, vectors: &Vectors) -> Result<Vec<Gold>, AllocError>
    requires params { IsParams params.now }
    requires fit { FitRows params.now vectors.now }
    ensures { IfOk result (λ v. v.items ≡ message params.now vectors.now) }
{
    let l = params.l as usize;
    let wires = params.wire_rows as usize * l;
    let side = params.constraint_rows as usize * l;
    let mut values = Vec::with_capacity(alloc, params.rows as usize * l)?;
    put_padded(&mut values, vectors.w.as_slice(), wires)?;
    put_padded(&mut values, vectors.x.as_slice(), side)?;
    put_padded(&mut values, vectors.y.as_slice(), side)?;
    put_padded(&mut values, vectors.z.as_slice(), side)?;
    Ok(values)
}

// Appends so many numbers: these, and then zeros.
fn put_padded(out: &mut Vec<Gold>, values: &[Gold], count: usize) -> Result<(), AllocError>
    requires { length values.now ≤ count }
    ensures { OnOk result (out.new.items ≡ out.old.items ++ padded count values.now) }
{
    out.extend_from_slice(values)?;
    for _ in 0..count - values.len() {
        out.push(Gold::ZERO)?;
    }
    Ok(())
}

/// The polynomials of the rows and of the masks of the tests, in the order of a column.
pub fn polynomials<R: Threads + Sync>(
    rt: &R,
    alloc: Global,
    params: &Params,
    vectors: &Vectors,
    seed: &Hash,
) -> Result<Vec<Items<Gold>>, AllocError>
    requires params { IsParams params.now }
    requires fit { FitRows params.now vectors.now }
    ensures count { IfOk result (λ v. length v.items ≡ params.now.rows + 6) }
    ensures encoded { IfOk result (λ v. IsEncoded params.now vectors.now seed.now
        (encoded_by params.now v.items)) }
{
    let values = message(alloc, params, vectors)?;
    let mut all = masked_rows(rt, alloc, params, &values, seed)?;
    put_test_masks(&mut all, alloc, params, seed)?;
    Ok(all)
}

// The polynomial of each row under its mask.
fn masked_rows<R: Threads + Sync>(
    rt: &R,
    alloc: Global,
    params: &Params,
    values: &[Gold],
    seed: &Hash,
) -> Result<Vec<Items<Gold>>, AllocError>
    requires params { IsParams params.now }
    requires whole { length values.now ≡ params.now.rows * params.now.l }
    ensures { IfOk result (λ v. AllZip (λ k coefs. IsMaskedRow params.now
        (row_at params.now values.now k) (row_mask params.now seed.now k) coefs)
        (range_with_len 0 params.now.rows) v.items) }
{
    each_place(
        rt,
        alloc,
        params.rows as usize,
        |k: usize| -> Result<Items<Gold>, AllocError>
            requires { IsParams params.now × (k < params.now.rows)
                × (length values.now ≡ params.now.rows * params.now.l) }
            ensures { IfOk result (λ coefs. IsMaskedRow params.entry.now
                (row_at params.entry.now values.entry.now k)
                (row_mask params.entry.now seed.entry.now k) coefs) }
        { masked_row_at(alloc, params, values, seed, k) },
    )
}

fn masked_row_at(
    alloc: Global,
    params: &Params,
    values: &[Gold],
    seed: &Hash,
    k: usize,
) -> Result<Items<Gold>, AllocError>
    requires params { IsParams params.now }
    requires row { k < params.now.rows }
    requires whole { length values.now ≡ params.now.rows * params.now.l }
    ensures { IfOk result (λ coefs. IsMaskedRow params.now (row_at params.now values.now k)
        (row_mask params.now seed.now k) coefs) }
{
    let mask = row_mask(alloc, params, seed, k as u32)?;
    let coefs = masked_row(alloc, params, row_at(params, values, k), &mask)?;
    Ok(Items::of(coefs))
}

/// The values of each polynomial at 7 times the powers of the root of order `2^log`.
pub fn evaluated<R: Threads + Sync>(
    rt: &R,
    alloc: Global,
    polynomials: &[Items<Gold>],
    log: u32,
) -> Result<Vec<Items<Gold>>, AllocError>
    requires small { log ≤ 20 }
    requires fits { All (λ coefs. length coefs ≤ 2 ^ log) polynomials.now }
    ensures { IfOk result (λ v. v.items ≡ map (values_at log) polynomials.now) }
{
    let coset = Coset::of(alloc, log)?;
    evaluated_at(rt, alloc, polynomials, &coset)
}

fn evaluated_at<R: Threads + Sync>(
    rt: &R,
    alloc: Global,
    polynomials: &[Items<Gold>],
    coset: &Coset,
) -> Result<Vec<Items<Gold>>, AllocError>
    requires { All (λ coefs. length coefs ≤ 2 ^ coset.now.log) polynomials.now }
    ensures { IfOk result (λ v. v.items ≡ map (values_at coset.now.log) polynomials.now) }
{
    each_place(
        rt,
        alloc,
        polynomials.len(),
        |k: usize| -> Result<Items<Gold>, AllocError>
            requires { (k < length polynomials.now)
                × All (λ coefs. length coefs ≤ 2 ^ coset.now.log) polynomials.now }
            ensures { IfOk result (λ v. v
                ≡ values_at coset.entry.now.log (slice_index_or polynomials.entry.now k [])) }
        { values_of(alloc, polynomials, k, coset) },
    )
}

fn values_of(
    alloc: Global,
    polynomials: &[Items<Gold>],
    k: usize,
    coset: &Coset,
) -> Result<Items<Gold>, AllocError>
    requires inside { k < length polynomials.now }
    requires fits { All (λ coefs. length coefs ≤ 2 ^ coset.now.log) polynomials.now }
    ensures { IfOk result (λ v. v ≡ values_at coset.now.log (slice_index_or polynomials.now k [])) }
{
    let values = evaluate(alloc, coset, polynomials[k].as_slice())?;
    Ok(Items::of(values))
}

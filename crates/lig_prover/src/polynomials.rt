//! The six polynomials that are sent.

ghost use Rattle.std.specs.Prelude.{◌≡◌, ℕ, ◌≤◌, ◌<◌, ◌+◌, ◌-◌, ◌*◌, ◌/◌, ◌%◌, ◌^◌, List, [], IfOk};
ghost use Rattle.std.specs.Prelude.{length, map, take, slice_index, slice_index_or};
ghost use Rattle.std.specs.List.{range_with_len};
ghost use Rattle.gold_field.specs.declared.gold.TheConstants.{P};
ghost use Rattle.iden_files.specs.File.{InLimits};
ghost use Rattle.lig_layout.specs.Sizes.{IsParams, params_of};
ghost use Rattle.lig_layout.specs.Layout.{row_at};
ghost use Rattle.lig_layout.specs.System.{combined, left_sides, equation_count};
ghost use Rattle.lig_proof.specs.Encoding.{Interpolates, InterpolateRows};
ghost use Rattle.lig_proof.specs.ProofBytes.{AreValues};
ghost use Rattle.lig_proof.specs.Sent.{r_numbers, proximity_test, linear_test};
ghost use Rattle.lig_proof.specs.Sent.{product_test};
ghost use Rattle.lig_prover.specs.Matrix.{AreCodewords, IsBlock, IsLinearTest, encoded_by};
ghost use Rattle.lig_prover.specs.Matrix.{linear_value, product_value, proximity_value};
ghost use Rattle.lig_prover.specs.Transform.{values_at};

use crate::blocks::{add_each, in_blocks, row_in};
use crate::rows::evaluated;
use crate::transform::{interpolate, number_in};
use gold_field::Gold;
use iden_files::R1cs;
use items::Items;
use lig_layout::{Params, combine};
use lig_proof::{Challenges, r_numbers, row_polynomials};
use std::alloc::{AllocError, Global};
use std::thread::Threads;

/// The polynomial of one repetition that tests that the rows are codewords.
pub fn proximity_test<R: Threads + Sync>(
    rt: &R,
    alloc: Global,
    params: &Params,
    challenges: &Challenges,
    polynomials: &[Items<Gold>],
    t: usize,
) -> Result<Vec<Gold>, AllocError>
    requires params { IsParams params.now }
    requires repetition { t < 2 }
    ensures { IfOk result (λ v. v.items
        ≡ proximity_test params.now challenges.now (encoded_by params.now polynomials.now) t) }
{
    in_blocks(
        rt,
        alloc,
        16,
        |b: usize| -> Result<Items<Gold>, AllocError>
            requires { IsParams params.now × (t < 2) × (b < 16) }
            ensures { IfOk result (IsBlock (proximity_value params.entry.now challenges.entry.now
                polynomials.entry.now t) (params.entry.now.l / 8) b) }
        { proximity_block(alloc, params, challenges, polynomials, t, b) },
    )
}

fn proximity_block(
    alloc: Global,
    params: &Params,
    challenges: &Challenges,
    polynomials: &[Items<Gold>],
    t: usize,
    b: usize,
) -> Result<Items<Gold>, AllocError>
    requires params { IsParams params.now }
    requires repetition { t < 2 }
    requires block { b < 16 }
    ensures { IfOk result (IsBlock (proximity_value params.now challenges.now polynomials.now t)
        (params.now.l / 8) b) }
{
    let size = params.l as usize / 8;
    let first = b * size;
    let mut sums = vec![in alloc; Gold::ZERO; size]?;
    proximity_sums(&mut sums, params, challenges, polynomials, t, first);
    Ok(Items::of(sums))
}

fn proximity_sums(
    sums: &mut [Gold],
    params: &Params,
    challenges: &Challenges,
    polynomials: &[Items<Gold>],
    t: usize,
    first: usize,
)
    requires params { IsParams params.now }
    requires repetition { t < 2 }
    requires zeros { (i : ℕ) → i < length sums.old → slice_index sums.old i ≡ 0 }
    requires small { first + length sums.old < 2 ^ 32 }
    ensures { (i : ℕ) → i < length sums.old → slice_index sums.new i
        ≡ proximity_value params.now challenges.now polynomials.now t (first + i) }
{
    let rows = params.rows as usize;
    for k in 0..rows {
        let number = number_in(challenges.alpha.as_slice(), t * rows + k);
        let row = row_in(polynomials, k);
        add_each(
            sums,
            first,
            |i: usize| -> Gold
                ensures { result ≡ number * slice_index row.entry.now i % P }
            { number.mul(number_in(row, i)) },
        );
    }
    let mask = row_in(polynomials, rows + t);
    add_each(
        sums,
        first,
        |i: usize| -> Gold
            ensures { result ≡ slice_index mask.entry.now i }
        { number_in(mask, i) },
    );
}

/// The polynomial of one repetition that tests the linear system.
pub fn linear_test<R: Threads + Sync>(
    rt: &R,
    alloc: Global,
    file: &R1cs,
    params: &Params,
    challenges: &Challenges,
    codewords: &[Items<Gold>],
    t: usize,
) -> Result<Vec<Gold>, AllocError>
    requires limits { InLimits file.now }
    requires file { params.now ≡ params_of file.now }
    requires params { IsParams params.now }
    requires numbers { length challenges.now.r ≡ 2 * equation_count file.now }
    requires repetition { t < 2 }
    ensures { IfOk result (λ v. (polynomials : List (List ℕ))
        → AreCodewords params.now polynomials codewords.now
        → IsLinearTest params.now file.now challenges.now polynomials t v.items) }
{
    let system = combine(alloc, file, params, r_numbers(challenges, t))?;
    let rows = row_polynomials(rt, alloc, params, &system)?;
    let factors = evaluated(rt, alloc, &rows, params.depth - 1)?;
    let values = linear_values(rt, alloc, params, codewords, &factors, t)?;
    Ok(coefficients_of(params, values, 3 * params.l as usize))
}

// The first coefficients of the polynomial that has these values at every other code point.
fn coefficients_of(params: &Params, values: Vec<Gold>, count: usize) -> Vec<Gold>
    requires params { IsParams params.now }
    requires each { length values.items ≡ 4 * params.now.l }
    ensures { (coefs : List ℕ) → AreValues (4 * params.now.l) coefs
        → values.items ≡ values_at (params.now.depth - 1) coefs → result.items ≡ take count coefs }
{
    let mut coefs = values;
    interpolate(&mut coefs);
    coefs.truncate(count);
    coefs
}

fn linear_values<R: Threads + Sync>(
    rt: &R,
    alloc: Global,
    params: &Params,
    codewords: &[Items<Gold>],
    factors: &[Items<Gold>],
    t: usize,
) -> Result<Vec<Gold>, AllocError>
    requires params { IsParams params.now }
    requires repetition { t < 2 }
    ensures { IfOk result (λ v. v.items
        ≡ map (λ j. linear_value params.now codewords.now factors.now t (2 * j) j)
        (range_with_len 0 (4 * params.now.l))) }
{
    in_blocks(
        rt,
        alloc,
        32,
        |b: usize| -> Result<Items<Gold>, AllocError>
            requires { IsParams params.now × (t < 2) × (b < 32) }
            ensures { IfOk result (IsBlock (λ j. linear_value params.entry.now codewords.entry.now
                factors.entry.now t (2 * j) j) (params.entry.now.l / 8) b) }
        { linear_block(alloc, params, codewords, factors, t, b) },
    )
}

fn linear_block(
    alloc: Global,
    params: &Params,
    codewords: &[Items<Gold>],
    factors: &[Items<Gold>],
    t: usize,
    b: usize,
) -> Result<Items<Gold>, AllocError>
    requires params { IsParams params.now }
    requires repetition { t < 2 }
    requires block { b < 32 }
    ensures { IfOk result (IsBlock (λ j. linear_value params.now codewords.now factors.now t
        (2 * j) j) (params.now.l / 8) b) }
{
    let size = params.l as usize / 8;
    let first = b * size;
    let mut sums = vec![in alloc; Gold::ZERO; size]?;
    linear_sums(&mut sums, params, codewords, factors, t, first);
    Ok(Items::of(sums))
}

fn linear_sums(
    sums: &mut [Gold],
    params: &Params,
    codewords: &[Items<Gold>],
    factors: &[Items<Gold>],
    t: usize,
    first: usize,
)
    requires params { IsParams params.now }
    requires repetition { t < 2 }
    requires zeros { (i : ℕ) → i < length sums.old → slice_index sums.old i ≡ 0 }
    requires small { first + length sums.old < 2 ^ 32 }
    ensures { (i : ℕ) → i < length sums.old → slice_index sums.new i
        ≡ linear_value params.now codewords.now factors.now t (2 * (first + i)) (first + i) }
{
    let rows = params.rows as usize;
    for k in 0..rows {
        let factor = row_in(factors, k);
        let codeword = row_in(codewords, k);
        add_each(
            sums,
            first,
            |j: usize| -> Gold
                requires { j < 2 ^ 32 }
                ensures { result ≡ slice_index factor.entry.now j
                    * slice_index codeword.entry.now (2 * j) % P }
            { number_in(factor, j).mul(number_in(codeword, 2 * j)) },
        );
    }
    let mask = row_in(codewords, rows + 2 + t);
    add_each(
        sums,
        first,
        |j: usize| -> Gold
            requires { j < 2 ^ 32 }
            ensures { result ≡ slice_index mask.entry.now (2 * j) }
        { number_in(mask, 2 * j) },
    );
}

/// The polynomial of one repetition that tests the products.
pub fn product_test<R: Threads + Sync>(
    rt: &R,
    alloc: Global,
    params: &Params,
    challenges: &Challenges,
    codewords: &[Items<Gold>],
    t: usize,
) -> Result<Vec<Gold>, AllocError>
    requires params { IsParams params.now }
    requires repetition { t < 2 }
    ensures { IfOk result (λ v. (polynomials : List (List ℕ))
        → AreCodewords params.now polynomials codewords.now
        → v.items ≡ product_test params.now challenges.now (encoded_by params.now polynomials) t) }
{
    let values = product_values(rt, alloc, params, challenges, codewords, t)?;
    Ok(coefficients_of(params, values, 4 * params.l as usize))
}

fn product_values<R: Threads + Sync>(
    rt: &R,
    alloc: Global,
    params: &Params,
    challenges: &Challenges,
    codewords: &[Items<Gold>],
    t: usize,
) -> Result<Vec<Gold>, AllocError>
    requires params { IsParams params.now }
    requires repetition { t < 2 }
    ensures { IfOk result (λ v. v.items
        ≡ map (λ j. product_value params.now challenges.now codewords.now t (2 * j))
        (range_with_len 0 (4 * params.now.l))) }
{
    in_blocks(
        rt,
        alloc,
        32,
        |b: usize| -> Result<Items<Gold>, AllocError>
            requires { IsParams params.now × (t < 2) × (b < 32) }
            ensures { IfOk result (IsBlock (λ j. product_value params.entry.now
                challenges.entry.now codewords.entry.now t (2 * j)) (params.entry.now.l / 8) b) }
        { product_block(alloc, params, challenges, codewords, t, b) },
    )
}

fn product_block(
    alloc: Global,
    params: &Params,
    challenges: &Challenges,
    codewords: &[Items<Gold>],
    t: usize,
    b: usize,
) -> Result<Items<Gold>, AllocError>
    requires params { IsParams params.now }
    requires repetition { t < 2 }
    requires block { b < 32 }
    ensures { IfOk result (IsBlock (λ j. product_value params.now challenges.now codewords.now t
        (2 * j)) (params.now.l / 8) b) }
{
    let size = params.l as usize / 8;
    let first = b * size;
    let mut sums = vec![in alloc; Gold::ZERO; size]?;
    product_sums(&mut sums, params, challenges, codewords, t, first);
    Ok(Items::of(sums))
}

fn product_sums(
    sums: &mut [Gold],
    params: &Params,
    challenges: &Challenges,
    codewords: &[Items<Gold>],
    t: usize,
    first: usize,
)
    requires params { IsParams params.now }
    requires repetition { t < 2 }
    requires zeros { (i : ℕ) → i < length sums.old → slice_index sums.old i ≡ 0 }
    requires small { first + length sums.old < 2 ^ 32 }
    ensures { (i : ℕ) → i < length sums.old → slice_index sums.new i
        ≡ product_value params.now challenges.now codewords.now t (2 * (first + i)) }
{
    let rows = params.constraint_rows as usize;
    let start = params.wire_rows as usize;
    for k in 0..rows {
        let number = number_in(challenges.rho.as_slice(), t * rows + k);
        let x = row_in(codewords, start + k);
        let y = row_in(codewords, start + rows + k);
        let z = row_in(codewords, start + 2 * rows + k);
        add_each(
            sums,
            first,
            |j: usize| -> Gold
                requires { j < 2 ^ 32 }
                ensures { result ≡ number * (slice_index x.entry.now (2 * j)
                    * slice_index y.entry.now (2 * j)
                    + (P - slice_index z.entry.now (2 * j))) % P }
            {
                let at = 2 * j;
                excess(number, number_in(x, at), number_in(y, at), number_in(z, at))
            },
        );
    }
    let mask = row_in(codewords, params.rows as usize + 4 + t);
    add_each(
        sums,
        first,
        |j: usize| -> Gold
            requires { j < 2 ^ 32 }
            ensures { result ≡ slice_index mask.entry.now (2 * j) }
        { number_in(mask, 2 * j) },
    );
}

// By how much a product is too large, times a number.
fn excess(number: Gold, x: Gold, y: Gold, z: Gold) -> Gold
    ensures { result ≡ number * (x * y + (P - z)) % P }
{
    number.mul(x.mul(y).sub(z))
}

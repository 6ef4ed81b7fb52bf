//! The test that the values of the columns fit the linear system.

ghost use Rattle.std.specs.Prelude.{◌≡◌, ◌<◌, ◌*◌, ◌↔◌, [], ℕ, List, IfOk, IsTrue, length};
ghost use Rattle.iden_files.specs.File.{InLimits};
ghost use Rattle.lig_layout.specs.Sizes.{IsParams, params_of};
ghost use Rattle.lig_layout.specs.System.{equation_count};
ghost use Rattle.lig_proof.specs.Encoding.{InterpolateRows};
ghost use Rattle.lig_proof.specs.Proving.{AreSystems};
ghost use Rattle.lig_proof.specs.Audit.{LinearColumn, system_value};
ghost use Rattle.lig_auditor.specs.Opened.{IsOpening, ArePoints, RowsAgree, Weighs, audit_in};
ghost use Rattle.lig_auditor.specs.Opened.{column_of, point_of};

use crate::agreement::{agrees, both};
use crate::opening::{Opening, column, linear_polynomial};
use gold_field::Gold;
use gold_ntt::{intt, powers, sum_of_products};
use iden_files::R1cs;
use lig_layout::{Params, combine};
use lig_proof::{r_numbers, row_at};
use std::alloc::{AllocError, Global};
use std::thread::Threads;

/// Whether what was sent for the linear system has the values of the columns.
pub fn linear_column<R: Threads + Sync>(
    rt: &R,
    alloc: Global,
    file: &R1cs,
    opening: &Opening<'_>,
    points: &[Gold],
) -> Result<bool, AllocError>
    requires limits { InLimits file.now }
    requires params { opening.now.params.now ≡ params_of file.now }
    requires numbers { length opening.now.challenges.now.r ≡ 2 * equation_count file.now }
    requires opening { IsOpening opening.now }
    requires points { ArePoints opening.now.params.now opening.now.indices.now points.now }
    ensures { IfOk result (λ holds. (system : ℕ → ℕ → List ℕ)
        → AreSystems file.now opening.now.challenges.now system
        → IsTrue holds ↔ LinearColumn (audit_in opening.now [] system)) }
{
    let first = system_agrees(rt, alloc, file, opening, points, 0)?;
    let second = system_agrees(rt, alloc, file, opening, points, 1)?;
    Ok(both(first, second))
}

fn system_agrees<R: Threads + Sync>(
    rt: &R,
    alloc: Global,
    file: &R1cs,
    opening: &Opening<'_>,
    points: &[Gold],
    t: usize,
) -> Result<bool, AllocError>
    requires limits { InLimits file.now }
    requires params { opening.now.params.now ≡ params_of file.now }
    requires numbers { length opening.now.challenges.now.r ≡ 2 * equation_count file.now }
    requires opening { IsOpening opening.now }
    requires points { ArePoints opening.now.params.now opening.now.indices.now points.now }
    requires repetition { t < 2 }
    ensures { IfOk result (λ holds. (system : ℕ → ℕ → List ℕ)
        → AreSystems file.now opening.now.challenges.now system
        → IsTrue holds ↔ RowsAgree opening.now (system t) t) }
{
    let values = combine(
        alloc,
        file,
        opening.params,
        r_numbers(opening.challenges, t),
    )?;
    rows_agree(rt, alloc, opening, points, &values, t)
}

// Whether what was sent has the values of the columns, where the rows of the system have these
// values, one row after another.
fn rows_agree<R: Threads + Sync>(
    rt: &R,
    alloc: Global,
    opening: &Opening<'_>,
    points: &[Gold],
    values: &[Gold],
    t: usize,
) -> Result<bool, AllocError>
    requires opening { IsOpening opening.now }
    requires points { ArePoints opening.now.params.now opening.now.indices.now points.now }
    requires whole { length values.now ≡ opening.now.params.now.rows * opening.now.params.now.l }
    requires repetition { t < 2 }
    ensures { IfOk result (λ holds. (rows : ℕ → List ℕ)
        → InterpolateRows opening.now.params.now values.now rows
        → IsTrue holds ↔ RowsAgree opening.now rows t) }
{
    let polynomial = linear_polynomial(opening, t);
    agrees(
        rt,
        alloc,
        opening,
        points,
        polynomial,
        |q: usize| -> Result<Gold, AllocError>
            requires { IsOpening opening.now
                × ArePoints opening.now.params.now opening.now.indices.now points.now
                × (length values.now ≡ opening.now.params.now.rows * opening.now.params.now.l)
                × (t < 2) × (q < length opening.now.columns.now) }
            ensures { IfOk result (λ value. (rows : ℕ → List ℕ)
                → InterpolateRows opening.entry.now.params.now values.entry.now rows
                → value ≡ system_value opening.entry.now.params.now rows t
                (point_of opening.entry.now q) (column_of opening.entry.now q)) }
        { system_value(alloc, opening, points, values, t, q) },
    )
}

// A column's mask and its rows, combined by the values of the rows of the system at its point.
fn system_value(
    alloc: Global,
    opening: &Opening<'_>,
    points: &[Gold],
    values: &[Gold],
    t: usize,
    q: usize,
) -> Result<Gold, AllocError>
    requires opening { IsOpening opening.now }
    requires points { ArePoints opening.now.params.now opening.now.indices.now points.now }
    requires whole { length values.now ≡ opening.now.params.now.rows * opening.now.params.now.l }
    requires repetition { t < 2 }
    requires column { q < length opening.now.columns.now }
    ensures { IfOk result (λ value. (rows : ℕ → List ℕ)
        → InterpolateRows opening.now.params.now values.now rows
        → value ≡ system_value opening.now.params.now rows t (point_of opening.now q)
        (column_of opening.now q)) }
{
    let weights = weights(alloc, opening.params, points[q])?;
    Ok(combined_rows(opening, &weights, values, t, q))
}

// What the values of a row are multiplied by, so that they sum to the value at `x` of the row's
// polynomial: the inverse transform of the powers of `x`.
fn weights(alloc: Global, params: &Params, x: Gold) -> Result<Vec<Gold>, AllocError>
    requires { IsParams params.now }
    ensures count { IfOk result (λ v. length v.items ≡ params.now.l) }
    ensures weighs { IfOk result (λ v. Weighs params.now v.items x) }
{
    let mut weights = powers(alloc, x, params.l as usize)?;
    intt(&mut weights);
    Ok(weights)
}

// The same by the weights for the column's point.
fn combined_rows(
    opening: &Opening<'_>,
    weights: &[Gold],
    values: &[Gold],
    t: usize,
    q: usize,
) -> Gold
    requires opening { IsOpening opening.now }
    requires count { length weights.now ≡ opening.now.params.now.l }
    requires weighs { Weighs opening.now.params.now weights.now (point_of opening.now q) }
    requires whole { length values.now ≡ opening.now.params.now.rows * opening.now.params.now.l }
    requires repetition { t < 2 }
    requires column { q < length opening.now.columns.now }
    ensures { (rows : ℕ → List ℕ) → InterpolateRows opening.now.params.now values.now rows
        → result ≡ system_value opening.now.params.now rows t (point_of opening.now q)
        (column_of opening.now q) }
{
    let column = column(opening, q);
    let mut sum = Gold::ZERO;
    for k in 0..opening.params.rows as usize {
        let value = sum_of_products(row_at(opening.params, values, k), weights);
        sum = sum.add(value.mul(column[k]));
    }
    column[opening.params.rows as usize + 2 + t].add(sum)
}

//! The tests of the products.

ghost use Rattle.std.specs.Prelude.{◌≡◌, ◌<◌, ◌+◌, ◌-◌, ◌*◌, ◌%◌, ◌↔◌, [], ℕ, IfOk, IsTrue};
ghost use Rattle.std.specs.Prelude.{length, slice_index, slice_index_or};
ghost use Rattle.gold_field.specs.declared.gold.TheConstants.{P};
ghost use Rattle.lig_layout.specs.Sizes.{IsParams};
ghost use Rattle.lig_proof.specs.Audit.{QuadZero, QuadColumn, excess, product_value};
ghost use Rattle.lig_auditor.specs.Opened.{IsOpening, ArePoints, ProductsAgree, audit_in};
ghost use Rattle.lig_auditor.specs.Opened.{column_of, no_system, folded};

use crate::agreement::{agrees, both};
use crate::opening::{Opening, column, product_polynomial};
use gold_field::Gold;
use lig_layout::Params;
use std::alloc::{AllocError, Global};
use std::thread::Threads;

/// Whether what was sent for the products is 0 at the message points: where the remainder by
/// `X^l - 1` is 0.
pub fn quad_zero(opening: &Opening<'_>) -> bool
    requires { IsOpening opening.now }
    ensures { IsTrue result ↔ QuadZero (audit_in opening.now [] no_system) }
{
    let l = opening.params.l as usize;
    for t in 0..2 {
        if !folds_to_zero(product_polynomial(opening, t), l) {
            return false;
        }
    }
    true
}

// Whether the sum of every l-th coefficient is 0, from each place on.
fn folds_to_zero(polynomial: &[Gold], l: usize) -> bool
    requires count { length polynomial.now ≡ 4 * l }
    ensures { IsTrue result ↔ ((k : ℕ) → k < l → folded l polynomial.now k ≡ 0) }
{
    for k in 0..l {
        let low = polynomial[k].add(polynomial[l + k]);
        let high = polynomial[2 * l + k].add(polynomial[3 * l + k]);
        if low.add(high) != Gold::ZERO {
            return false;
        }
    }
    true
}

/// Whether what was sent for the products has the values of the columns.
pub fn quad_column<R: Threads + Sync>(
    rt: &R,
    alloc: Global,
    opening: &Opening<'_>,
    points: &[Gold],
) -> Result<bool, AllocError>
    requires opening { IsOpening opening.now }
    requires points { ArePoints opening.now.params.now opening.now.indices.now points.now }
    ensures { IfOk result (λ holds.
        IsTrue holds ↔ QuadColumn (audit_in opening.now [] no_system)) }
{
    let first = products_agree(rt, alloc, opening, points, 0)?;
    let second = products_agree(rt, alloc, opening, points, 1)?;
    Ok(both(first, second))
}

fn products_agree<R: Threads + Sync>(
    rt: &R,
    alloc: Global,
    opening: &Opening<'_>,
    points: &[Gold],
    t: usize,
) -> Result<bool, AllocError>
    requires opening { IsOpening opening.now }
    requires points { ArePoints opening.now.params.now opening.now.indices.now points.now }
    requires repetition { t < 2 }
    ensures { IfOk result (λ holds. IsTrue holds ↔ ProductsAgree opening.now t) }
{
    let polynomial = product_polynomial(opening, t);
    agrees(
        rt,
        alloc,
        opening,
        points,
        polynomial,
        |q: usize| -> Result<Gold, AllocError>
            requires { IsOpening opening.now × (t < 2) × (q < length opening.now.columns.now) }
            ensures { IfOk result (λ value. value ≡ product_value opening.entry.now.params.now
                opening.entry.now.challenges.now t (column_of opening.entry.now q)) }
        { Ok(product_value(opening, t, column(opening, q))) },
    )
}

// A column's mask and what its products have too much, combined by the challenges.
fn product_value(opening: &Opening<'_>, t: usize, column: &[Gold]) -> Gold
    requires opening { IsOpening opening.now }
    requires repetition { t < 2 }
    requires column { length column.now ≡ opening.now.params.now.rows + 6 }
    ensures { result
        ≡ product_value opening.now.params.now opening.now.challenges.now t column.now }
{
    let rows = opening.params.constraint_rows as usize;
    let rho = opening.challenges.rho.as_slice();
    let mut sum = Gold::ZERO;
    for k in 0..rows {
        sum = sum.add(rho[t * rows + k].mul(excess(opening.params, column, k)));
    }
    column[opening.params.rows as usize + 4 + t].add(sum)
}

// By how much a product is too large.
fn excess(params: &Params, column: &[Gold], k: usize) -> Gold
    requires params { IsParams params.now }
    requires row { k < params.now.constraint_rows }
    requires column { length column.now ≡ params.now.rows + 6 }
    ensures { result ≡ excess params.now column.now k % P }
{
    let rows = params.constraint_rows as usize;
    let x = params.wire_rows as usize + k;
    column[x].mul(column[x + rows]).sub(column[x + 2 * rows])
}

//! The test that the rows are codewords.

ghost use Rattle.std.specs.Prelude.{◌≡◌, ◌<◌, ◌+◌, ◌↔◌, [], IfOk, IsTrue, length};
ghost use Rattle.std.specs.Prelude.{slice_index_or};
ghost use Rattle.lig_proof.specs.Audit.{Proximity, proximity_value};
ghost use Rattle.lig_auditor.specs.Opened.{IsOpening, ArePoints, ProximityAgrees, audit_in};
ghost use Rattle.lig_auditor.specs.Opened.{column_of, no_system};

use crate::agreement::{agrees, both};
use crate::opening::{Opening, column, proximity_polynomial};
use gold_field::Gold;
use std::alloc::{AllocError, Global};
use std::thread::Threads;

/// Whether what was sent for the rows has the values of the columns.
pub fn proximity<R: Threads + Sync>(
    rt: &R,
    alloc: Global,
    opening: &Opening<'_>,
    points: &[Gold],
) -> Result<bool, AllocError>
    requires opening { IsOpening opening.now }
    requires points { ArePoints opening.now.params.now opening.now.indices.now points.now }
    ensures { IfOk result (λ holds. IsTrue holds ↔ Proximity (audit_in opening.now [] no_system)) }
{
    let first = proximity_agrees(rt, alloc, opening, points, 0)?;
    let second = proximity_agrees(rt, alloc, opening, points, 1)?;
    Ok(both(first, second))
}

fn proximity_agrees<R: Threads + Sync>(
    rt: &R,
    alloc: Global,
    opening: &Opening<'_>,
    points: &[Gold],
    t: usize,
) -> Result<bool, AllocError>
    requires opening { IsOpening opening.now }
    requires points { ArePoints opening.now.params.now opening.now.indices.now points.now }
    requires repetition { t < 2 }
    ensures { IfOk result (λ holds. IsTrue holds ↔ ProximityAgrees opening.now t) }
{
    let polynomial = proximity_polynomial(opening, t);
    agrees(
        rt,
        alloc,
        opening,
        points,
        polynomial,
        |q: usize| -> Result<Gold, AllocError>
            requires { IsOpening opening.now × (t < 2) × (q < length opening.now.columns.now) }
            ensures { IfOk result (λ value. value ≡ proximity_value opening.entry.now.params.now
                opening.entry.now.challenges.now t (column_of opening.entry.now q)) }
        { Ok(proximity_value(opening, t, column(opening, q))) },
    )
}

// A column's mask and its rows, combined by the challenges.
fn proximity_value(opening: &Opening<'_>, t: usize, column: &[Gold]) -> Gold
    requires opening { IsOpening opening.now }
    requires repetition { t < 2 }
    requires column { length column.now ≡ opening.now.params.now.rows + 6 }
    ensures { result
        ≡ proximity_value opening.now.params.now opening.now.challenges.now t column.now }
{
    let rows = opening.params.rows as usize;
    let alpha = opening.challenges.alpha.as_slice();
    let mut sum = Gold::ZERO;
    for k in 0..rows {
        sum = sum.add(alpha[t * rows + k].mul(column[k]));
    }
    column[rows + t].add(sum)
}

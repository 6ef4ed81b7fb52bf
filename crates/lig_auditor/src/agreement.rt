//! Whether what was sent has the values that the opened columns give.

ghost use Rattle.std.specs.Prelude.{◌≡◌, ◌<◌, ◌↔◌, ℕ, Ok, IfOk, IsTrue, length, slice_index};
ghost use Rattle.gold_ntt.specs.Polynomial.{eval_at};
ghost use Rattle.lig_auditor.specs.Opened.{ArePoints, Agrees, HasValuesAt};

use crate::opening::Opening;
use gold_field::Gold;
use gold_ntt::eval;
use lig_proof::each_place;
use std::alloc::{AllocError, Global};
use std::thread::Threads;

/// Whether a polynomial has, at the point of each opened column, the value that the column gives.
/// The values are computed in as many threads as there are processors.
pub fn agrees<R: Threads + Sync, F: Fn(usize) -> Result<Gold, AllocError> + Copy + Send + Sync>(
    rt: &R,
    alloc: Global,
    opening: &Opening<'_>,
    points: &[Gold],
    polynomial: &[Gold],
    value: F,
) -> Result<bool, AllocError>
    requires points { ArePoints opening.now.params.now opening.now.indices.now points.now }
    requires indices { length opening.now.indices.now ≡ length opening.now.columns.now }
    requires value { (q : ℕ) → q < length opening.now.columns.now → F.pre value q }
    ensures { IfOk result (λ holds. (f : ℕ → ℕ)
        → ((q x : ℕ) → q < length opening.now.columns.now → F.post value q (Ok x) → x ≡ f q)
        → IsTrue holds ↔ Agrees opening.now polynomial.now f) }
{
    let values = each_place(rt, alloc, opening.columns.len(), value)?;
    Ok(has_values(polynomial, points, &values))
}

// Whether a polynomial has these values at these points.
fn has_values(polynomial: &[Gold], points: &[Gold], values: &[Gold]) -> bool
    requires { length values.now ≡ length points.now }
    ensures { IsTrue result ↔ HasValuesAt polynomial.now points.now values.now }
{
    for (q, point) in points.iter().enumerate() {
        if eval(polynomial, *point) != values[q] {
            return false;
        }
    }
    true
}

/// Whether a test holds in both repetitions.
pub fn both(first: bool, second: bool) -> bool
    ensures { IsTrue result ↔ (IsTrue first × IsTrue second) }
{
    first && second
}

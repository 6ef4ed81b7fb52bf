ghost use Rattle.std.specs.Prelude.{◌≡◌, ◌<◌, ◌≤◌, ◌+◌, ◌^◌, ◌||◌, not, ℕ, Ok, All, map};
ghost use Rattle.std.specs.Prelude.{slice_index, IfOk, MatchResult};
ghost use Rattle.cir_lc.specs.Normal.{IsConstraintWithin};
ghost use Rattle.cir_lc.specs.Sparse.{IsNormalForm};
ghost use Rattle.cir_simplify.specs.Turn.{dropped, simplified};
ghost use Rattle.cir_simplify.specs.Shape.{is_empty as is_empty_constraint};
ghost use Rattle.cir_simplify.specs.Wires.{keeps_all, renamed_in};
ghost use Rattle.cir_simplify.specs.Answer.{Simplifies, IsOverWires, AnswersFault};
ghost use Rattle.cir_simplify.specs.Index.{row, IsGood, IsNameable, shown};

use crate::begin::begin;
use crate::pick::is_linear;
use crate::state::Rows;
use crate::turn::{MOST_TERMS, run_turns};
use crate::types::{Level, Rules, SimpFault, Simple, Solved};
use crate::wires::{is_all, marks, numbering, rename};
use gold_field::Constraint;
use items::Items;
use std::alloc::{AllocError, Global};

/// Solves the constraints of the list that fit the level, each time the first one, until none fits.
/// Of the signals 1 to `signals`, the first `kept_always` are never eliminated.
///
/// # Errors
///
/// `Terms` where the list at the start or after a turn has more than 8,388,608 terms.
pub fn simplify(
    alloc: Global,
    list: &[Constraint],
    signals: u32,
    kept_always: u32,
    level: Level,
) -> Result<Simple, SimpFault>
    requires normal { All IsNormalForm list.now }
    requires within { All (IsConstraintWithin (signals + 1)) list.now }
    requires kept { kept_always ≤ signals }
    ensures { Simplifies record { level = level; kept = kept_always; bound = signals + 1 } list.now
        result }
{
    let rules = Rules {
        level,
        kept: kept_always,
        bound: signals as usize + 1,
    };
    let End { rows, solved } = solve_all(alloc, list, rules)?;
    let simple = over_wires(alloc, rules, rows, solved)?;
    Ok(simple)
}

// The constraints at their places, and the equations.
#[derive(Drop)]
struct End {
    rows: Vec<Constraint>,
    solved: Items<Solved>,
}

fn solve_all(alloc: Global, list: &[Constraint], rules: Rules) -> Result<End, SimpFault>
    requires normal { All IsNormalForm list.now }
    requires within { All (IsConstraintWithin rules.bound) list.now }
    ensures answer { MatchResult result
        (λ e. simplified rules list.now
        ≡ Ok (shown rules record { list = e.rows.items; solved = e.solved }))
        (λ fault. AnswersFault fault (simplified rules list.now)) }
    ensures good { IfOk result (λ e. (i : ℕ) → IsGood rules.bound (row e.rows.items i)) }
{
    let mut s = begin(alloc, list, rules)?;
    if MOST_TERMS < s.terms {
        return Err(SimpFault::Terms { count: s.terms });
    }
    let mut solved = Items::new(alloc);
    if let Err(fault) = run_turns(alloc, &mut s, rules, list.len(), &mut solved) {
        return Err(fault);
    }
    let Rows {
        rows,
        holders: _,
        ready: _,
        terms: _,
    } = s;
    Ok(End { rows, solved })
}

// The constraints that are left, over the kept signals' places.
fn over_wires(
    alloc: Global,
    rules: Rules,
    rows: Vec<Constraint>,
    solved: Items<Solved>,
) -> Result<Simple, AllocError>
    requires bound { rules.bound ≤ 2 ^ 32 }
    requires good { (i : ℕ) → IsGood rules.bound (row rows.items i) }
    ensures { IfOk result
        (λ s. IsOverWires rules record { list = dropped rules.level rows.items; solved = solved }
        s) }
{
    let kept = marks(alloc, rows.as_slice(), rules)?;
    let numbers = numbering(alloc, kept.as_slice())?;
    let places = numbers.places.as_slice();
    let constraints = renumbered(alloc, rules.level, rows, places)?;
    Ok(Simple {
        constraints,
        wires: Items::of(numbers.wires),
        solved,
    })
}

fn renumbered(
    alloc: Global,
    level: Level,
    rows: Vec<Constraint>,
    places: &[u32],
) -> Result<Items<Constraint>, AllocError>
    requires { All (IsNameable places.now) rows.items }
    ensures { IfOk result
        (λ v. v ≡ map (renamed_in (slice_index places.now)) (dropped level rows.items)) }
{
    let mut list = Items::new(alloc);
    for q in rows {
        if stays(level, &q) {
            list.push(renamed(q, places))?;
        }
    }
    Ok(list)
}

fn stays(level: Level, q: &Constraint) -> bool
    ensures { result ≡ (keeps_all level || not (is_empty_constraint q.now)) }
{
    is_all(level) || !is_empty(q)
}

fn is_empty(q: &Constraint) -> bool
    ensures { result ≡ is_empty_constraint q.now }
{
    is_linear(&q.a) && is_linear(&q.b) && is_linear(&q.c)
}

fn renamed(q: Constraint, places: &[u32]) -> Constraint
    requires { IsNameable places.now q }
    ensures { result ≡ renamed_in (slice_index places.now) q }
{
    let Constraint { a, b, c } = q;
    Constraint {
        a: rename(a, places),
        b: rename(b, places),
        c: rename(c, places),
    }
}

ghost use Rattle.std.specs.Prelude.{◌≡◌, ◌<◌, ℕ, length, All, IfOk};
ghost use Rattle.cir_lc.specs.Normal.{IsConstraintWithin};
ghost use Rattle.cir_lc.specs.Sparse.{IsNormalForm};
ghost use Rattle.cir_simplify.specs.Index.{row, empty, IsIndexed};

use crate::places::Places;
use crate::state::{Ready, Rows, set};
use crate::types::Rules;
use cir_lc::in_order;
use gold_field::{Constraint, Lc};
use std::alloc::{AllocError, Global};
use std::collections::BTreeSet;

/// The constraints with their index.
pub(crate) fn begin(alloc: Global, list: &[Constraint], rules: Rules) -> Result<Rows, AllocError>
    requires normal { All IsNormalForm list.now }
    requires within { All (IsConstraintWithin rules.bound) list.now }
    ensures rows { IfOk result (λ s. s.rows.items ≡ list.now) }
    ensures indexed { IfOk result
        (λ s. IsIndexed rules s.rows.items s.holders.items s.ready s.terms) }
{
    let mut s = blank(alloc, list.len(), rules)?;
    for i in 0..list.len() {
        let q = copy(alloc, &list[i])?;
        in_order(&q);
        set(&mut s, rules, i, q)?;
    }
    Ok(s)
}

// Places without constraints.
fn blank(alloc: Global, count: usize, rules: Rules) -> Result<Rows, AllocError>
    ensures len { IfOk result (λ s. length s.rows.items ≡ count) }
    ensures indexed { IfOk result
        (λ s. IsIndexed rules s.rows.items s.holders.items s.ready s.terms) }
{
    let rows = no_rows(alloc, count)?;
    let holders = no_lists(alloc, rules.bound)?;
    Ok(Rows {
        rows,
        holders,
        ready: Ready {
            next: 0,
            again: BTreeSet::new(alloc),
        },
        terms: 0,
    })
}

fn no_rows(alloc: Global, count: usize) -> Result<Vec<Constraint>, AllocError>
    ensures len { IfOk result (λ v. length v.items ≡ count) }
    ensures empty { IfOk result (λ v. (i : ℕ) → row v.items i ≡ empty) }
{
    let mut rows = Vec::with_capacity(alloc, count)?;
    for k in 0..count {
        rows.push(nothing(alloc))?;
    }
    Ok(rows)
}

/// The constraint without terms.
pub(crate) fn nothing(alloc: Global) -> Constraint
    ensures { result ≡ empty }
{
    Constraint {
        a: Lc::of(Vec::new(alloc)),
        b: Lc::of(Vec::new(alloc)),
        c: Lc::of(Vec::new(alloc)),
    }
}

fn no_lists(alloc: Global, count: usize) -> Result<Vec<Places>, AllocError>
    ensures { IfOk result (λ v. length v.items ≡ count) }
{
    let mut lists = Vec::with_capacity(alloc, count)?;
    for k in 0..count {
        lists.push(Places::new(alloc))?;
    }
    Ok(lists)
}

fn copy(alloc: Global, q: &Constraint) -> Result<Constraint, AllocError>
    ensures { IfOk result (λ k. k ≡ q.now) }
{
    let a = copy_form(alloc, &q.a)?;
    let b = copy_form(alloc, &q.b)?;
    let c = copy_form(alloc, &q.c)?;
    Ok(Constraint { a, b, c })
}

fn copy_form(alloc: Global, f: &Lc) -> Result<Lc, AllocError>
    ensures { IfOk result (λ g. g ≡ f.now) }
{
    let terms = Vec::from_slice(alloc, f.as_slice())?;
    Ok(Lc::of(terms))
}

ghost use Rattle.std.specs.Prelude.{◌≡◌, ◌<◌, ◌≤◌, ◌||◌, ◌^◌, ℕ, false, nat_le, length, All, map};
ghost use Rattle.std.specs.Prelude.{slice_index, slice_index_or, IfOk};
ghost use Rattle.gold_field.specs.Rises.{RisesFrom};
ghost use Rattle.gold_field.specs.declared.form.Term.{Term};
ghost use Rattle.cir_lc.specs.Normal.{IsConstraintWithin};
ghost use Rattle.gold_field.specs.Form.{SignalsBelow};
ghost use Rattle.cir_simplify.specs.Shape.{names, names_in};
ghost use Rattle.cir_simplify.specs.Wires.{keeps_all, is_kept, kept_below, wire_of, renamed};

use crate::types::{Level, Rules};
use gold_field::{Constraint, Lc, Term};
use std::alloc::{AllocError, Global};

/// For each signal whether it is kept.
pub(crate) fn marks(
    alloc: Global,
    rows: &[Constraint],
    rules: Rules,
) -> Result<Vec<bool>, AllocError>
    requires { All (IsConstraintWithin rules.bound) rows.now }
    ensures len { IfOk result (λ v. length v.items ≡ rules.bound) }
    ensures kept { IfOk result (λ v. (x : ℕ) → x < rules.bound
        → slice_index_or v.items x false ≡ is_kept rules.level rules.kept rows.now x) }
{
    let mut marks = first_marks(alloc, rules)?;
    for q in rows {
        mark(&mut marks, q);
    }
    Ok(marks)
}

// The signals that are kept whatever the constraints are.
fn first_marks(alloc: Global, rules: Rules) -> Result<Vec<bool>, AllocError>
    ensures len { IfOk result (λ v. length v.items ≡ rules.bound) }
    ensures kept { IfOk result (λ v. (x : ℕ) → x < rules.bound
        → slice_index_or v.items x false ≡ (keeps_all rules.level || nat_le x rules.kept)) }
{
    let all = is_all(rules.level);
    let mut marks = Vec::with_capacity(alloc, rules.bound)?;
    for x in 0..rules.bound {
        marks.push(all || x <= rules.kept as usize)?;
    }
    Ok(marks)
}

pub(crate) fn is_all(level: Level) -> bool
    ensures { result ≡ keeps_all level }
{
    match level {
        Level::O0 => true,
        Level::O1 => false,
        Level::O2 => false,
    }
}

fn mark(marks: &mut Vec<bool>, q: &Constraint)
    requires a { SignalsBelow (length marks.old.items) q.now.a }
    requires b { SignalsBelow (length marks.old.items) q.now.b }
    requires c { SignalsBelow (length marks.old.items) q.now.c }
    ensures len { length marks.new.items ≡ length marks.old.items }
    ensures marks { (x : ℕ) → x < length marks.old.items → slice_index_or marks.new.items x false
        ≡ (slice_index_or marks.old.items x false || names_in x q.now) }
{
    mark_form(marks, &q.a);
    mark_form(marks, &q.b);
    mark_form(marks, &q.c);
}

fn mark_form(marks: &mut Vec<bool>, f: &Lc)
    requires { SignalsBelow (length marks.old.items) f.now }
    ensures len { length marks.new.items ≡ length marks.old.items }
    ensures marks { (x : ℕ) → x < length marks.old.items → slice_index_or marks.new.items x false
        ≡ (slice_index_or marks.old.items x false || names x f.now) }
{
    for t in f.as_slice() {
        marks[t.signal as usize] = true;
    }
}

/// The signals that are kept, and for each signal how many of those below it are.
#[derive(Drop)]
pub(crate) struct Numbers {
    pub(crate) wires: Vec<u32>,
    pub(crate) places: Vec<u32>,
}

/// The numbers of the signals with a mark.
pub(crate) fn numbering(alloc: Global, marks: &[bool]) -> Result<Numbers, AllocError>
    requires { length marks.now ≤ 2 ^ 32 }
    ensures wires { IfOk result (λ n. n.wires.items
        ≡ kept_below (λ x. slice_index_or marks.now x false) (length marks.now)) }
    ensures len { IfOk result (λ n. length n.places.items ≡ length marks.now) }
    ensures places { IfOk result (λ n. (x : ℕ) → x < length marks.now
        → slice_index n.places.items x ≡ wire_of (λ x. slice_index_or marks.now x false) x) }
{
    let mut wires = Vec::new(alloc);
    let mut places = Vec::with_capacity(alloc, marks.len())?;
    for x in 0..marks.len() {
        places.push(wires.len() as u32)?;
        if marks[x] {
            wires.push(x as u32)?;
        }
    }
    Ok(Numbers { wires, places })
}

/// The terms with the places of their signals as signals. Takes no memory.
pub(crate) fn rename(f: Lc, places: &[u32]) -> Lc
    requires below { SignalsBelow (length places.now) f }
    requires rises { RisesFrom 0 (map (renamed (slice_index places.now)) f) }
    ensures { result ≡ map (renamed (slice_index places.now)) f }
{
    let mut terms = f.into_vec();
    for k in 0..terms.len() {
        let Term { signal, coef } = terms[k];
        terms[k] = Term {
            signal: places[signal as usize],
            coef,
        };
    }
    Lc::of(terms)
}

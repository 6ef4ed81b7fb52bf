ghost use Rattle.std.specs.Prelude.{◌≡◌, ◌<◌, ◌≤◌, ◌+◌, ◌++◌, ◌∷◌, [], ℕ, length, map, slice_set};
ghost use Rattle.std.specs.Prelude.{IfOk, OnOk, IsTrue, true};
ghost use Rattle.cir_lc.specs.Terms.{IsWithin};
ghost use Rattle.cir_lc.specs.Substitution.{substitute};
ghost use Rattle.cir_simplify.specs.Shape.{names, terms_in};
ghost use Rattle.cir_simplify.specs.Index.{row, held, IsGood, IsIndexed, NotesForm, Notes, Queues};
ghost use Rattle.cir_simplify.specs.Index.{empty};
ghost use Rattle.gold_field.specs.Form.{SignalsBelow};
ghost use Rattle.std.specs.List.{Contains};
ghost use Rattle.std.specs.List.Sorted.{IsStrictlyIncreasing};

use crate::begin::nothing;
use crate::pick::pivot;
use crate::places::Places;
use crate::row::{sum, terms};
use crate::types::Rules;
use cir_lc::subst;
use gold_field::{Constraint, Lc, Term};
use numbers::TooLarge;
use std::alloc::{AllocError, Global};
use std::collections::BTreeSet;

/// The constraints, each at its place, with what finds those that a turn changes.
#[derive(Drop)]
pub(crate) struct Rows {
    pub(crate) rows: Vec<Constraint>,
    pub(crate) holders: Vec<Places>,
    pub(crate) ready: Ready,
    pub(crate) terms: u64,
}

/// The worklist: all places from `next` on, and those before it whose constraints changed since.
#[derive(Drop)]
pub(crate) struct Ready {
    pub(crate) next: usize,
    pub(crate) again: BTreeSet<usize>,
}

/// A place in a form that isn't before the terms of lower signals.
fn skip_to(terms: &[Term], from: usize, signal: u32) -> usize
    requires { from ≤ length terms.now }
    ensures { result ≤ length terms.now }
{
    let mut place = from;
    while place < terms.len() && terms[place].signal < signal {
        place += 1;
    }
    place
}

fn is_at(terms: &[Term], place: usize, signal: u32) -> bool
    ensures { IsTrue result → names signal terms.now ≡ true }
{
    place < terms.len() && terms[place].signal == signal
}

// Adds the place to a signal's list.
fn push_at(holders: &mut Vec<Places>, x: usize, i: usize) -> Result<(), AllocError>
    requires { x < length holders.old.items }
    ensures { OnOk result (holders.new.items
        ≡ slice_set holders.old.items x (held holders.old.items x ++ i ∷ [])) }
{
    holders[x].push(i)?;
    Ok(())
}

fn held_at(holders: &Vec<Places>, x: usize) -> &Places
    requires { x < length holders.now.items }
    ensures { result.now ≡ held holders.now.items x }
{
    &holders[x]
}

// Notes the place at each signal of the new form that the old one lacks, by one walk over both.
fn note_form(holders: &mut Vec<Places>, new: &Lc, old: &Lc, i: usize) -> Result<(), AllocError>
    requires { SignalsBelow (length holders.old.items) new.now }
    ensures { OnOk result (NotesForm old.now new.now i holders.old.items holders.new.items) }
{
    let before = old.as_slice();
    let mut place = 0;
    for t in new.as_slice() {
        place = skip_to(before, place, t.signal);
        if !is_at(before, place, t.signal) {
            push_at(holders, t.signal as usize, i)?;
        }
    }
    Ok(())
}

fn note(
    holders: &mut Vec<Places>,
    new: &Constraint,
    old: &Constraint,
    i: usize,
) -> Result<(), AllocError>
    requires a { SignalsBelow (length holders.old.items) new.now.a }
    requires b { SignalsBelow (length holders.old.items) new.now.b }
    requires c { SignalsBelow (length holders.old.items) new.now.c }
    ensures { OnOk result (Notes old.now new.now i holders.old.items holders.new.items) }
{
    note_form(holders, &new.a, &old.a, i)?;
    note_form(holders, &new.b, &old.b, i)?;
    note_form(holders, &new.c, &old.c, i)?;
    Ok(())
}

fn queue(ready: &mut Ready, rules: Rules, q: &Constraint, i: usize) -> Result<(), AllocError>
    ensures { OnOk result (Queues rules q.now i ready.old ready.new) }
{
    if i < ready.next && pivot(rules, q).is_some() {
        ready.again.insert(i)?;
    }
    Ok(())
}

fn recount(count: u64, old: &Constraint, new: &Constraint) -> Result<u64, TooLarge>
    requires { terms_in old.now ≤ count }
    ensures { IfOk result (λ n. n + terms_in old.now ≡ count + terms_in new.now) }
{
    let gone = terms(old)?;
    sum(count - gone, terms(new)?)
}

pub(crate) fn at(rows: &Vec<Constraint>, i: usize) -> &Constraint
    requires { i < length rows.now.items }
    ensures { result.now ≡ row rows.now.items i }
{
    &rows[i]
}

/// Puts a constraint in the place of another.
pub(crate) fn set(s: &mut Rows, rules: Rules, i: usize, q: Constraint) -> Result<(), AllocError>
    requires place { i < length s.old.rows.items }
    requires good { IsGood rules.bound q }
    requires indexed { IsIndexed rules s.old.rows.items s.old.holders.items s.old.ready
        s.old.terms }
    ensures rows { OnOk result (s.new.rows.items ≡ slice_set s.old.rows.items i q) }
    ensures indexed { OnOk result
        (IsIndexed rules s.new.rows.items s.new.holders.items s.new.ready s.new.terms) }
{
    note(&mut s.holders, &q, at(&s.rows, i), i)?;
    queue(&mut s.ready, rules, &q, i)?;
    s.terms = recount(s.terms, at(&s.rows, i), &q)?;
    s.rows[i] = q;
    Ok(())
}

// Puts `by` in place of the signal in one constraint.
fn replace_one(
    alloc: Global,
    s: &mut Rows,
    rules: Rules,
    x: u32,
    by: &Lc,
    i: usize,
) -> Result<(), AllocError>
    requires place { i < length s.old.rows.items }
    requires signal { 0 < x }
    requires below { x < rules.bound }
    requires by { IsWithin rules.bound by.now }
    requires indexed { IsIndexed rules s.old.rows.items s.old.holders.items s.old.ready
        s.old.terms }
    ensures rows { OnOk result (s.new.rows.items
        ≡ slice_set s.old.rows.items i (substitute rules.bound x by.now (row s.old.rows.items i))) }
    ensures indexed { OnOk result
        (IsIndexed rules s.new.rows.items s.new.holders.items s.new.ready s.new.terms) }
{
    let q = subst(alloc, at(&s.rows, i), x, by)?;
    set(s, rules, i, q)?;
    Ok(())
}

// The same, where the constraint at the place `own` is the one that was solved: it becomes empty.
fn replace_at(
    alloc: Global,
    s: &mut Rows,
    rules: Rules,
    x: u32,
    by: &Lc,
    own: usize,
    i: usize,
) -> Result<(), AllocError>
    requires place { i < length s.old.rows.items }
    requires signal { 0 < x }
    requires below { x < rules.bound }
    requires by { IsWithin rules.bound by.now }
    requires own { i ≡ own → substitute rules.bound x by.now (row s.old.rows.items i) ≡ empty }
    requires indexed { IsIndexed rules s.old.rows.items s.old.holders.items s.old.ready
        s.old.terms }
    ensures rows { OnOk result (s.new.rows.items
        ≡ slice_set s.old.rows.items i (substitute rules.bound x by.now (row s.old.rows.items i))) }
    ensures indexed { OnOk result
        (IsIndexed rules s.new.rows.items s.new.holders.items s.new.ready s.new.terms) }
{
    if i == own {
        set(s, rules, i, nothing(alloc))?;
        return Ok(());
    }
    replace_one(alloc, s, rules, x, by, i)?;
    Ok(())
}

// The places of the constraints that name the signal, and perhaps others, each once.
fn places(alloc: Global, s: &Rows, x: u32) -> Result<Vec<usize>, AllocError>
    requires { x < length s.now.holders.items }
    ensures all { IfOk result (λ v. (i : ℕ) → Contains (held s.now.holders.items x) i
        → Contains v.items i) }
    ensures once { IfOk result (λ v. IsStrictlyIncreasing v.items) }
{
    let mut places = Vec::from_slice(alloc, held_at(&s.holders, x as usize).as_slice())?;
    places.sort_unstable();
    places.dedup();
    Ok(places)
}

/// Puts `by` in place of the signal in every constraint. The one at `own` becomes empty by it.
pub(crate) fn replace_all(
    alloc: Global,
    s: &mut Rows,
    rules: Rules,
    x: u32,
    by: &Lc,
    own: usize,
) -> Result<(), AllocError>
    requires signal { 0 < x }
    requires below { x < rules.bound }
    requires by { IsWithin rules.bound by.now }
    requires own { substitute rules.bound x by.now (row s.old.rows.items own) ≡ empty }
    requires indexed { IsIndexed rules s.old.rows.items s.old.holders.items s.old.ready
        s.old.terms }
    ensures rows { OnOk result
        (s.new.rows.items ≡ map (substitute rules.bound x by.now) s.old.rows.items) }
    ensures indexed { OnOk result
        (IsIndexed rules s.new.rows.items s.new.holders.items s.new.ready s.new.terms) }
{
    let places = places(alloc, s, x)?;
    for i in places.as_slice() {
        if *i < s.rows.len() {
            replace_at(alloc, s, rules, x, by, own, *i)?;
        }
    }
    Ok(())
}

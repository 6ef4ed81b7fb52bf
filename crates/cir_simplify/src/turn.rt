ghost use Rattle.std.specs.Prelude.{◌≡◌, ◌<◌, ◌≤◌, ◌+◌, ℕ, length, Some, None, IfOk, OnOk};
ghost use Rattle.std.specs.Prelude.{MatchOption};
ghost use Rattle.cir_lc.specs.Terms.{IsWithin};
ghost use Rattle.cir_simplify.specs.Turn.{first_pivot, solution as solution_of, turns as turns_of};
ghost use Rattle.cir_simplify.specs.Index.{row, IsReady, IsIndexed, IsFirst, IsTurn, Answers};
ghost use Rattle.cir_simplify.specs.Index.{IsNoneBefore, shown};

use crate::pick::pivot;
use crate::row::solution;
use crate::state::{Ready, Rows, at, replace_all};
use crate::types::{Rules, SimpFault, Solved};
use gold_field::{Constraint, Lc, Term};
use items::Items;
use std::alloc::{AllocError, Global};

/// The most terms of a list.
pub(crate) const MOST_TERMS: u64 = 8388608;

/// A constraint's place, and the term for whose signal it is solved.
#[derive(Clone, Copy)]
pub(crate) struct Found {
    pub(crate) place: usize,
    pub(crate) term: Term,
}

// The first constraint that is solved, of those that changed since their place was passed. What
// else stood there before it is out of date, and goes.
fn first_again(ready: &mut Ready, rows: &Vec<Constraint>, rules: Rules) -> Option<Found>
    requires { IsReady rules rows.now.items ready.old }
    ensures ready { IsReady rules rows.now.items ready.new }
    ensures found { MatchOption result (IsNoneBefore rules rows.now.items ready.new.next)
        (λ f. IsFirst rules rows.now.items f.place f.term) }
{
    while let Some(place) = ready.again.first() {
        let place = *place;
        if place < ready.next && place < rows.len() {
            if let Some(term) = pivot(rules, at(rows, place)) {
                return Some(Found { place, term });
            }
        }
        ready.again.pop_first();
    }
    None
}

// The first constraint that is solved, where none is that was passed.
fn first_behind(ready: &mut Ready, rows: &Vec<Constraint>, rules: Rules) -> Option<Found>
    requires ready { IsReady rules rows.now.items ready.old }
    requires before { IsNoneBefore rules rows.now.items ready.old.next }
    ensures ready { IsReady rules rows.now.items ready.new }
    ensures found { MatchOption result (first_pivot rules rows.now.items ≡ None)
        (λ f. IsFirst rules rows.now.items f.place f.term) }
{
    while ready.next < rows.len() {
        let place = ready.next;
        if let Some(term) = pivot(rules, at(rows, place)) {
            return Some(Found { place, term });
        }
        ready.next += 1;
    }
    None
}

fn first(ready: &mut Ready, rows: &Vec<Constraint>, rules: Rules) -> Option<Found>
    requires { IsReady rules rows.now.items ready.old }
    ensures ready { IsReady rules rows.now.items ready.new }
    ensures found { MatchOption result (first_pivot rules rows.now.items ≡ None)
        (λ f. IsFirst rules rows.now.items f.place f.term) }
{
    if let Some(found) = first_again(ready, rows, rules) {
        return Some(found);
    }
    first_behind(ready, rows, rules)
}

/// Solves the first constraint that fits, and puts what it says of its signal in everywhere.
pub(crate) fn one_turn(
    alloc: Global,
    s: &mut Rows,
    rules: Rules,
) -> Result<Option<Solved>, AllocError>
    requires { IsIndexed rules s.old.rows.items s.old.holders.items s.old.ready s.old.terms }
    ensures turn { IfOk result (λ e. IsTurn rules s.old.rows.items s.new.rows.items e) }
    ensures indexed { OnOk result
        (IsIndexed rules s.new.rows.items s.new.holders.items s.new.ready s.new.terms) }
{
    match first(&mut s.ready, &s.rows, rules) {
        None => Ok(None),
        Some(found) => {
            let solved = solve(alloc, s, rules, found)?;
            Ok(Some(solved))
        }
    }
}

// What the constraint at the place says of the signal.
fn solved_at(alloc: Global, rows: &Vec<Constraint>, found: Found) -> Result<Lc, AllocError>
    requires place { found.place < length rows.now.items }
    requires coef { 0 < found.term.coef }
    ensures form { IfOk result (λ f. (n : ℕ) → found.term.signal < n
        → IsWithin n (row rows.now.items found.place).c
        → f ≡ solution_of n record {
          term = found.term;
          form = (row rows.now.items found.place).c;
        }) }
    ensures within { IfOk result (λ f. (n : ℕ) → found.term.signal < n
        → IsWithin n (row rows.now.items found.place).c → IsWithin n f) }
{
    let q = at(rows, found.place);
    let c = &q.c;
    let f = solution(alloc, found.term, c)?;
    Ok(f)
}

fn solve(alloc: Global, s: &mut Rows, rules: Rules, found: Found) -> Result<Solved, AllocError>
    requires first { IsFirst rules s.old.rows.items found.place found.term }
    requires indexed { IsIndexed rules s.old.rows.items s.old.holders.items s.old.ready
        s.old.terms }
    ensures turn { IfOk result (λ e. IsTurn rules s.old.rows.items s.new.rows.items (Some e)) }
    ensures indexed { OnOk result
        (IsIndexed rules s.new.rows.items s.new.holders.items s.new.ready s.new.terms) }
{
    let place = found.place;
    let signal = found.term.signal;
    let value = solved_at(alloc, &s.rows, found)?;
    replace_all(alloc, s, rules, signal, &value, place)?;
    Ok(Solved { signal, value })
}

/// Turns until no constraint fits, at most so many; the equations go behind those that are there.
pub(crate) fn run_turns(
    alloc: Global,
    s: &mut Rows,
    rules: Rules,
    turns: usize,
    solved: &mut Items<Solved>,
) -> Result<(), SimpFault>
    requires { IsIndexed rules s.old.rows.items s.old.holders.items s.old.ready s.old.terms }
    ensures answer { Answers result
        (shown rules record { list = s.new.rows.items; solved = solved.new })
        (turns_of rules turns
        (shown rules record { list = s.old.rows.items; solved = solved.old })) }
    ensures indexed { OnOk result
        (IsIndexed rules s.new.rows.items s.new.holders.items s.new.ready s.new.terms) }
{
    for k in 0..turns {
        let Some(equation) = one_turn(alloc, s, rules)? else {
            return Ok(());
        };
        solved.push(equation)?;
        if MOST_TERMS < s.terms {
            return Err(SimpFault::Terms { count: s.terms });
        }
    }
    Ok(())
}

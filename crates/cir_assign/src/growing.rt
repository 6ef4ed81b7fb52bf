//! Sums that are made in the memory of a variable. `x += e` and `x = x + e` add to a number that is
//! linear where it stands, so that a sum over many signals takes each of them once.
ghost use Rattle.std.specs.Prelude.{◌≡◌, true, not, slice_set, count_by};
ghost use Rattle.std.specs.Prelude.{List, IfOk, IfSome, OnOk, ◌++◌};
ghost use Rattle.gold_field.specs.Rises.{RisesFrom};
ghost use Rattle.cir_ast.specs.Tree.{bare, bare_place};
ghost use Rattle.cir_lc.specs.Number.{value_of, added};
ghost use Rattle.cir_values.specs.Meant.{meant};
ghost use Rattle.cir_meaning.specs.Limits.{Counts as AnyCounts};
ghost use Rattle.cir_meaning.specs.Values.{Linear as LinearValue, sum_of};
ghost use Rattle.cir_meaning.specs.Arrays as A;
ghost use Rattle.cir_meaning.specs.Frame.{State, variable_at};
ghost use Rattle.cir_meaning.specs.Source.{Equation};
ghost use Rattle.cir_meaning.specs.Writing as W;
ghost use Rattle.cir_meaning.specs.Evaluate as E;
ghost use Rattle.cir_frame.specs.Shown.{frame_of, state_of};
ghost use Rattle.cir_evaluate.specs.Within.{Means, context_at, kept_of, where_at};
ghost use Rattle.cir_assign.specs.Given.{given_by};
ghost use Rattle.cir_assign.specs.Assigns.{IsAssignment};
ghost use Rattle.cir_assign.specs.Grows.{AddsTo, GivesNew, IsLinear, IsNew, IsWhole};

use crate::assigning::{Assignment, Given, Written, given_value};
use cir_arrays::{Datum, Fault};
use cir_ast::program::{Binary, Compound, Expr, Meant, Place, Spot};
use cir_evaluate::{Here, number};
use cir_frame::{Frame, World};
use cir_lc::add;
use cir_values::{Value, constant_form, sum};
use gold_field::{Gold, Lc, Term};
use std::alloc::{AllocError, Global};
use std::mem::replace;

/// What is written to a variable: a value, or what is added to its number, which is linear.
#[derive(Drop)]
pub enum NewValue {
    Whole(Datum),
    Added(Value),
}

impl NewValue {
    /// The dimensions of the new value.
    pub fn dims(&self) -> &[u64]
        ensures { (old new : A.Datum) → IsNew old self.now new → result.now ≡ new.dims }
    {
        match self {
            NewValue::Whole(d) => d.dims(),
            NewValue::Added(_) => &[],
        }
    }

    /// Whether each item of the new value is a known number.
    pub fn is_all_known(&self) -> bool
        ensures { (old new : A.Datum) → IsNew old self.now new → result ≡ A.is_all_known new }
    {
        match self {
            NewValue::Whole(d) => d.is_all_known(),
            NewValue::Added(_) => false,
        }
    }

    /// How many items of the new value aren't known.
    pub fn unknown_count(&self) -> u64
        ensures { (old new : A.Datum) → IsNew old self.now new
            → result ≡ count_by (λ v. not (A.is_known v)) new.items }
    {
        match self {
            NewValue::Whole(d) => d.unknown_count(),
            NewValue::Added(_) => 1,
        }
    }
}

/// What an assignment writes to its variable.
pub fn new_value<C: Fn(Spot, u32, Vec<Datum>, &mut World) -> Result<Datum, Fault>>(
    here: &Here<C>,
    w: &Written,
    frame: &Frame,
    world: &mut World,
) -> Result<NewValue, Fault>
    requires calls { C.IsAlwaysCallable here.now.context.now.call.now }
    ensures value { (m : Means (C.post here.now.context.now.call.now) here.now.context.now)
        (qs : List Equation) → GivesNew w.now.variable (state_of frame.now world.new qs) result
        (E.value_in (context_at here.now m) (where_at here.now) here.now.shaded
        A.Whole (given_by w.now.given) (state_of frame.now world.old qs)) }
    ensures keeps { Means (C.post here.now.context.now.call.now) here.now.context.now
        → kept_of world.new ≡ kept_of world.old }
{
    if is_linear(w.variable, frame) {
        if let Some(e) = added_to(w.variable, w.given) {
            let y = number(here, e, frame, world)?;
            return Ok(NewValue::Added(y));
        }
    }
    let d = given_value(here, w.given, frame, world)?;
    Ok(NewValue::Whole(d))
}

fn is_linear(n: u32, frame: &Frame) -> bool
    ensures { result ≡ true → (c : AnyCounts)
        → IsLinear (variable_at (frame_of frame.now c) n) }
{
    match frame.variable(n) {
        Some(Datum::Number(Value::Linear(_))) => true,
        _ => false,
    }
}

/// The expression that is added to the variable, where that is what is given.
fn added_to<'a>(n: u32, given: Given<'a>) -> Option<&'a Expr>
    ensures { IfSome result (λ e. AddsTo n (given_by given.entry) (bare e.now)) }
{
    match given {
        Given::Plain(e) => second_of(n, e),
        Given::Compound(Compound::Add, place, e) => {
            if is_whole(n, place) { Some(e) } else { None }
        }
        Given::Compound(_, _, _) | Given::Increment(_) | Given::Decrement(_) => None,
    }
}

/// The second operand of a sum whose first one is the variable.
fn second_of(n: u32, e: &Expr) -> Option<&Expr>
    ensures { IfSome result (λ b. AddsTo n (bare e.now) (bare b.now)) }
{
    match e {
        Expr::Binary(Binary::Add, a, b) => { if is_variable(n, a) { Some(b) } else { None } }
        _ => None,
    }
}

fn is_variable(n: u32, e: &Expr) -> bool
    ensures { result ≡ true → IsWhole n (bare e.now) }
{
    match e {
        Expr::Place(place) => is_whole(n, place),
        _ => false,
    }
}

/// Whether it is the variable, without indices.
fn is_whole(n: u32, place: &Place) -> bool
    ensures { result ≡ true → IsWhole n (bare_place place.now) }
{
    if !place.accessors.as_slice().is_empty() {
        return false;
    }
    match place.meant {
        Meant::Variable(v) => v == n,
        _ => false,
    }
}

/// Writes what an assignment gives.
pub fn write_assigned(
    alloc: Global,
    n: u32,
    a: Assignment,
    frame: &mut Frame,
) -> Result<(), AllocError>
    ensures { (s : State) (x : W.VariableAssignment) → IsAssignment n s a x
        → s.frame ≡ frame_of frame.old s.frame.added
        → OnOk result (frame_of frame.new s.frame.added
        ≡ record (frame_of frame.old s.frame.added) {
          variables = slice_set (frame_of frame.old s.frame.added).variables n
              (W.written_datum (variable_at (frame_of frame.old s.frame.added) n) x.reach x.value);
        }) }
{
    let Assignment { value, reach } = a;
    match value {
        NewValue::Whole(d) => {
            frame.write_variable(n, &reach, d);
            Ok(())
        }
        NewValue::Added(y) => {
            let x = taken(n, frame);
            let v = grown(alloc, x, y)?;
            frame.set_variable(n, Datum::Number(v));
            Ok(())
        }
    }
}

/// The number of the variable, out of its place.
fn taken(n: u32, frame: &mut Frame) -> Value
    ensures number { (c : AnyCounts)
        → meant result ≡ A.the_item (variable_at (frame_of frame.old c) n) }
    ensures rest { (c : AnyCounts) (d : A.Datum)
        → record (frame_of frame.new c) {
          variables = slice_set (frame_of frame.new c).variables n d;
        } ≡ record (frame_of frame.old c) {
          variables = slice_set (frame_of frame.old c).variables n d;
        } }
{
    if (n as usize) < frame.variables.len() {
        let old = replace(
            &mut frame.variables[n as usize],
            Datum::Number(Value::Opaque),
        );
        return old.into_item();
    }
    Value::Known(Gold::ZERO)
}

/// `x + y`, in the memory of `x` where that is linear.
fn grown(alloc: Global, x: Value, y: Value) -> Result<Value, AllocError>
    ensures { IfOk result (λ v. meant v ≡ sum_of (meant x) (meant y)) }
{
    match x {
        Value::Linear(f) => linear_grown(alloc, f, y),
        Value::Known(_) | Value::Quadratic(_) | Value::Opaque => sum(alloc, x, y),
    }
}

fn linear_grown(alloc: Global, f: Lc, y: Value) -> Result<Value, AllocError>
    ensures { IfOk result (λ v. meant v ≡ sum_of (LinearValue (value_of f)) (meant y)) }
{
    match y {
        Value::Known(k) => {
            let g = constant_form(alloc, k)?;
            let h = form_grown(alloc, f, &g)?;
            Ok(Value::Linear(h))
        }
        Value::Linear(g) => {
            let h = form_grown(alloc, f, &g)?;
            Ok(Value::Linear(h))
        }
        Value::Quadratic(_) | Value::Opaque => sum(alloc, Value::Linear(f), y),
    }
}

/// `f + g`, in the memory of `f` where the signals of `g` lie behind those of `f`; the numbers that
/// are added to both are added at once.
fn form_grown(alloc: Global, f: Lc, g: &Lc) -> Result<Lc, AllocError>
    ensures { IfOk result (λ h. value_of h ≡ added (value_of f) (value_of g.now)) }
{
    let mut terms = f.into_vec();
    let rest = add_constant(&mut terms, g.as_slice());
    if follows(terms.as_slice(), rest) {
        terms.extend_from_slice(rest)?;
        return Ok(Lc::of(terms));
    }
    let rest = Vec::from_slice(alloc, rest)?;
    add(alloc, &Lc::of(terms), &Lc::of(rest))
}

/// Adds the constant term to that of the list, where both have one. What is left is answered.
fn add_constant<'a>(terms: &mut Vec<Term>, more: &'a [Term]) -> &'a [Term]
    requires left { RisesFrom 0 terms.old.items }
    requires right { RisesFrom 0 more.now }
    ensures terms { RisesFrom 0 terms.new.items }
    ensures rest { RisesFrom 0 result.now }
    ensures value { added (value_of terms.new.items) (value_of result.now)
        ≡ added (value_of terms.old.items) (value_of more.now) }
{
    let [first, rest @ ..] = more else {
        return more;
    };
    if first.signal != 0 || terms.is_empty() {
        return more;
    }
    let old = terms[0];
    let coef = old.coef.add(first.coef);
    if old.signal != 0 || coef == Gold::ZERO {
        return more;
    }
    terms[0] = Term { signal: 0, coef };
    rest
}

/// Whether the signals of the second list lie behind those of the first one.
fn follows(terms: &[Term], more: &[Term]) -> bool
    requires left { RisesFrom 0 terms.now }
    requires right { RisesFrom 0 more.now }
    ensures { result ≡ true → RisesFrom 0 (terms.now ++ more.now) }
{
    let [.., last] = terms else {
        return true;
    };
    let [first, ..] = more else {
        return true;
    };
    last.signal < first.signal
}

ghost use Rattle.std.specs.Prelude.{◌≡◌, ◌<◌, ◌↔◌, [], true, Some, length, IfOk, IsTrue};
ghost use Rattle.gold_field.specs.Form.{ConstraintBelow};
ghost use Rattle.cir_determined.specs.Marks.{marks_of};
ghost use Rattle.cir_determined.specs.Rules.{IsMultiple, IsMultipleLessOne, SaysBoolean, Solves};
ghost use Rattle.cir_determined.specs.Rules.{ShowsBoolean, ShowsBits, AppliesTo, shown_at};
ghost use Rattle.cir_determined.specs.Rules.{is_named};
ghost use Rattle.cir_determined.specs.Rules.{with_known, with_boolean, with_all_known};

use crate::bits::are_bits;
use crate::marks::{
    Mark, are_boolean, are_known_but, is_boolean, is_known, mark_all_known, mark_boolean,
    mark_known, names, unknown_coefs,
};
use crate::normal::{is_empty, is_formed};
use crate::rule::Rule;
use gold_field::{Constraint, Lc, P};
use std::alloc::{AllocError, Global};

/// Takes the step, if the rule applies to the constraint.
pub(crate) fn step(
    alloc: Global,
    marks: &mut [Mark],
    k: &Constraint,
    rule: Rule,
) -> Result<bool, AllocError>
    requires { ConstraintBelow (length marks.old) k.now }
    ensures applies { IfOk result
        (λ b. IsTrue b ↔ AppliesTo (Some k.now) (marks_of marks.old) rule) }
    ensures shows { IfOk result
        (λ b. IsTrue b → marks_of marks.new ≡ shown_at k.now (marks_of marks.old) rule) }
{
    match rule {
        Rule::Solve { wire, .. } => Ok(solve(marks, k, wire)),
        Rule::Bool { wire, .. } => Ok(show_boolean(marks, k, wire)),
        Rule::Bits { .. } => show_bits(alloc, marks, k),
    }
}

fn solve(marks: &mut [Mark], k: &Constraint, wire: u32) -> bool
    requires { ConstraintBelow (length marks.old) k.now }
    ensures applies { IsTrue result ↔ Solves (marks_of marks.old) k.now wire }
    ensures shows { IsTrue result → marks_of marks.new ≡ with_known wire (marks_of marks.old) }
{
    if !names(wire, k.c.as_slice()) {
        return false;
    }
    if !is_last_unknown(marks, k, wire) {
        return false;
    }
    mark_known(marks, wire);
    true
}

/// Whether the wire is the one of the constraint that isn't known, and stands in C alone.
pub(crate) fn is_last_unknown(marks: &[Mark], k: &Constraint, wire: u32) -> bool
    requires within { ConstraintBelow (length marks.now) k.now }
    requires named { is_named wire k.now.c ≡ true }
    ensures { IsTrue result ↔ Solves (marks_of marks.now) k.now wire }
{
    let a = k.a.as_slice();
    let b = k.b.as_slice();
    let c = k.c.as_slice();
    !is_known(marks, wire)
        && !names(wire, a)
        && !names(wire, b)
        && are_known_but(marks, wire, a)
        && are_known_but(marks, wire, b)
        && are_known_but(marks, wire, c)
}

fn show_boolean(marks: &mut [Mark], k: &Constraint, wire: u32) -> bool
    requires { ConstraintBelow (length marks.old) k.now }
    ensures applies { IsTrue result ↔ ShowsBoolean (marks_of marks.old) k.now wire }
    ensures shows { IsTrue result → marks_of marks.new ≡ with_boolean wire (marks_of marks.old) }
{
    if !shows_boolean(marks, k, wire) {
        return false;
    }
    mark_boolean(marks, wire);
    true
}

pub(crate) fn shows_boolean(marks: &[Mark], k: &Constraint, wire: u32) -> bool
    requires { ConstraintBelow (length marks.now) k.now }
    ensures shows { IsTrue result ↔ ShowsBoolean (marks_of marks.now) k.now wire }
    ensures below { IsTrue result → wire < length marks.now }
{
    if wire == 0 {
        return false;
    }
    if !says_boolean(k, wire) {
        return false;
    }
    !is_boolean(marks, wire)
}

// Whether the constraint says that the wire is 0 or 1.
fn says_boolean(k: &Constraint, wire: u32) -> bool
    ensures { IsTrue result ↔ SaysBoolean k.now wire }
{
    is_empty(&k.c)
        && ((is_multiple(&k.a, wire) && is_multiple_less_one(&k.b, wire))
            || (is_multiple_less_one(&k.a, wire) && is_multiple(&k.b, wire)))
}

fn is_multiple(f: &Lc, wire: u32) -> bool
    ensures { IsTrue result ↔ IsMultiple wire f.now }
{
    match f.as_slice() {
        [term] => term.signal == wire && term.coef.get() != 0,
        _ => false,
    }
}

fn is_multiple_less_one(f: &Lc, wire: u32) -> bool
    ensures { IsTrue result ↔ IsMultipleLessOne wire f.now }
{
    match f.as_slice() {
        [one, term] => {
            one.signal == 0
                && term.signal == wire
                && term.coef.get() != 0
                && one.coef.get() == P - term.coef.get()
        }
        _ => false,
    }
}

fn show_bits(alloc: Global, marks: &mut [Mark], k: &Constraint) -> Result<bool, AllocError>
    requires { ConstraintBelow (length marks.old) k.now }
    ensures applies { IfOk result (λ b. IsTrue b ↔ ShowsBits (marks_of marks.old) k.now) }
    ensures shows { IfOk result
        (λ b. IsTrue b → marks_of marks.new ≡ with_all_known k.now.c (marks_of marks.old)) }
{
    if !shows_bits(alloc, marks, k)? {
        return Ok(false);
    }
    mark_all_known(marks, k.c.as_slice());
    Ok(true)
}

pub(crate) fn shows_bits(alloc: Global, marks: &[Mark], k: &Constraint) -> Result<bool, AllocError>
    requires { ConstraintBelow (length marks.now) k.now }
    ensures { IfOk result (λ b. IsTrue b ↔ ShowsBits (marks_of marks.now) k.now) }
{
    if !is_linear(k) {
        return Ok(false);
    }
    let c = k.c.as_slice();
    if !are_boolean(marks, c) {
        return Ok(false);
    }
    is_formed(&k.c);
    let coefs = unknown_coefs(alloc, marks, c)?;
    if !are_bits(&coefs) {
        return Ok(false);
    }
    Ok(true)
}

fn is_linear(k: &Constraint) -> bool
    ensures { IsTrue result ↔ (k.now.a ≡ []) × (k.now.b ≡ []) }
{
    is_empty(&k.a) && is_empty(&k.b)
}

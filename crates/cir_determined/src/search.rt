ghost use Rattle.std.specs.Prelude.{◌≡◌, ℕ, ◌+◌, ◌<◌, ◌≤◌, ◌^◌, ◌⊎◌, true, false, length, map, All};
ghost use Rattle.std.specs.Prelude.{IfOk};
ghost use Rattle.std.specs.Prelude.{MatchOption};
ghost use Rattle.gold_field.specs.Form.{ConstraintBelow, SignalsBelow};
ghost use Rattle.cir_determined.specs.Circuit.{in_normal_form, normalized};
ghost use Rattle.cir_determined.specs.Marks.{marks_of};
ghost use Rattle.cir_determined.specs.Rules.{AppliesTo, place_of, is_named, Solves, ShowsBoolean};
ghost use Rattle.cir_determined.specs.Rules.{IsMultiple, IsMultipleLessOne};
ghost use Rattle.cir_determined.specs.Certificate.{IsAnswer, IsClosed};
ghost use Rattle.cir_determined.specs.Search.{HasNone, Visits, AddsRules};
ghost use Rattle.std.specs.Prelude.{Some};

use crate::chase::chase;
use crate::marks::{Mark, first_unknown, is_known, opening};
use crate::normal::{is_normal, normalized};
use crate::rule::{Answer, Rule};
use crate::step::{is_last_unknown, shows_bits, shows_boolean, step};
use gold_field::{Constraint, Term};
use std::alloc::{AllocError, Global};

/// Rules that make all outputs known, or the least output that no rules make known. The last sweep
/// over the constraints finds nothing more; nearly all is found by the first, and by a chase.
pub fn determine(
    alloc: Global,
    constraints: &[Constraint],
    wires: u32,
    outputs: u32,
    inputs: u32,
) -> Result<Answer, AllocError>
    requires below { All (ConstraintBelow wires) constraints.now }
    requires few_constraints { length constraints.now < 2 ^ 32 }
    requires wired { 1 + outputs + inputs ≤ wires }
    ensures { IfOk result (IsAnswer (in_normal_form (record {
      constraints = constraints.now;
      wires = wires;
      outputs = outputs;
      inputs = inputs;
    }))) }
{
    let mut marks = opening(alloc, wires, outputs, inputs)?;
    let mut rules = Vec::new(alloc);
    loop {
        let more = round(alloc, &mut marks, constraints, &mut rules)?;
        if !more {
            return match first_unknown(&marks, outputs) {
                Some(wire) => Ok(Answer::NotShown { wire }),
                None => Ok(Answer::Shown(rules)),
            };
        }
    }
}

// A sweep, and behind one that found something a chase; whether anything was found.
fn round(
    alloc: Global,
    marks: &mut [Mark],
    constraints: &[Constraint],
    rules: &mut Vec<Rule>,
) -> Result<bool, AllocError>
    requires below { All (ConstraintBelow (length marks.old)) constraints.now }
    requires few { length constraints.now < 2 ^ 32 }
    ensures steps { IfOk result (λ more. AddsRules
        (map (normalized (length marks.old)) constraints.now) (marks_of marks.old)
        (marks_of marks.new) rules.old.items rules.new.items) }
    ensures more { IfOk result (λ more. more ≡ true
        → length rules.old.items < length rules.new.items) }
    ensures closed { IfOk result (λ more. more ≡ false
        → IsClosed (map (normalized (length marks.old)) constraints.now) (marks_of marks.new)) }
{
    let more = sweep(alloc, marks, constraints, rules)?;
    if !more {
        return Ok(false);
    }
    chase(alloc, marks, constraints, rules)?;
    Ok(true)
}

// Takes at each constraint in turn a rule that applies to it, if there is one; whether there was
// any.
fn sweep(
    alloc: Global,
    marks: &mut [Mark],
    constraints: &[Constraint],
    rules: &mut Vec<Rule>,
) -> Result<bool, AllocError>
    requires below { All (ConstraintBelow (length marks.old)) constraints.now }
    requires few { length constraints.now < 2 ^ 32 }
    ensures steps { IfOk result (λ more. AddsRules
        (map (normalized (length marks.old)) constraints.now) (marks_of marks.old)
        (marks_of marks.new) rules.old.items rules.new.items) }
    ensures more { IfOk result (λ more. more ≡ true
        → length rules.old.items < length rules.new.items) }
    ensures closed { IfOk result (λ more. more ≡ false
        → IsClosed (map (normalized (length marks.old)) constraints.now) (marks_of marks.new)) }
{
    let mut more = false;
    let mut place = 0;
    for k in constraints {
        let taken = visit(alloc, marks, k, place, rules)?;
        more = more || taken;
        place += 1;
    }
    Ok(more)
}

/// Takes a rule that applies to the constraint at the place, if there is one.
pub(crate) fn visit(
    alloc: Global,
    marks: &mut [Mark],
    k: &Constraint,
    place: u32,
    rules: &mut Vec<Rule>,
) -> Result<bool, AllocError>
    requires { ConstraintBelow (length marks.old) k.now }
    ensures { IfOk result (Visits (normalized (length marks.old) k.now) place
        (marks_of marks.old) (marks_of marks.new) rules.old.items rules.new.items) }
{
    if is_normal(k) {
        return visit_normal(alloc, marks, k, place, rules);
    }
    let normal = normalized(alloc, k)?;
    visit_normal(alloc, marks, &normal, place, rules)
}

fn visit_normal(
    alloc: Global,
    marks: &mut [Mark],
    k: &Constraint,
    place: u32,
    rules: &mut Vec<Rule>,
) -> Result<bool, AllocError>
    requires { ConstraintBelow (length marks.old) k.now }
    ensures { IfOk result (Visits k.now place (marks_of marks.old) (marks_of marks.new)
        rules.old.items rules.new.items) }
{
    let Some(rule) = rule_for(alloc, marks, k, place)? else {
        return Ok(false);
    };
    let taken = step(alloc, marks, k, rule)?;
    if taken {
        rules.push(rule)?;
    }
    Ok(taken)
}

// A rule that applies to the constraint at the place.
fn rule_for(
    alloc: Global,
    marks: &[Mark],
    k: &Constraint,
    place: u32,
) -> Result<Option<Rule>, AllocError>
    requires { ConstraintBelow (length marks.now) k.now }
    ensures { IfOk result (λ found. MatchOption found (HasNone k.now place (marks_of marks.now))
        (λ r. (place_of r ≡ place) × AppliesTo (Some k.now) (marks_of marks.now) r)) }
{
    if let Some(wire) = boolean_wire(marks, k) {
        let rule = Rule::Bool {
            constraint: place,
            wire,
        };
        return Ok(Some(rule));
    }
    if let Some(wire) = last_unknown(marks, k) {
        let rule = Rule::Solve {
            constraint: place,
            wire,
        };
        return Ok(Some(rule));
    }
    if shows_bits(alloc, marks, k)? {
        return Ok(Some(Rule::Bits { constraint: place }));
    }
    Ok(None)
}

fn boolean_wire(marks: &[Mark], k: &Constraint) -> Option<u32>
    requires { ConstraintBelow (length marks.now) k.now }
    ensures { MatchOption result ((w : ℕ) → ShowsBoolean (marks_of marks.now) k.now w → ⊥)
        (ShowsBoolean (marks_of marks.now) k.now) }
{
    match last_wire(k.a.as_slice()) {
        Some(wire) => {
            if shows_boolean(marks, k, wire) {
                Some(wire)
            } else {
                None
            }
        }
        None => None,
    }
}

// The wire of a form that may say that it is 0 or 1.
fn last_wire(terms: &[Term]) -> Option<u32>
    ensures { (w : ℕ) → IsMultiple w terms.now ⊎ IsMultipleLessOne w terms.now
        → result ≡ Some w }
{
    match terms {
        [term] => Some(term.signal),
        [one, term] => Some(term.signal),
        _ => None,
    }
}

fn last_unknown(marks: &[Mark], k: &Constraint) -> Option<u32>
    requires { ConstraintBelow (length marks.now) k.now }
    ensures { MatchOption result ((w : ℕ) → Solves (marks_of marks.now) k.now w → ⊥)
        (Solves (marks_of marks.now) k.now) }
{
    match unknown_wire(marks, k.c.as_slice()) {
        Some(wire) => {
            if is_last_unknown(marks, k, wire) {
                Some(wire)
            } else {
                None
            }
        }
        None => None,
    }
}

fn unknown_wire(marks: &[Mark], terms: &[Term]) -> Option<u32>
    requires { SignalsBelow (length marks.now) terms.now }
    ensures { MatchOption result (All (λ t. (marks_of marks.now).known t.signal ≡ true) terms.now)
        (λ w. (is_named w terms.now ≡ true) × ((marks_of marks.now).known w ≡ false)) }
{
    for t in terms {
        if !is_known(marks, t.signal) {
            return Some(t.signal);
        }
    }
    None
}

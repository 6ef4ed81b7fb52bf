ghost use Rattle.std.specs.Prelude.{◌≡◌, ℕ, ◌+◌, ◌<◌, ◌≤◌, ◌^◌, ◌↔◌, true, length, map, All, IfOk};
ghost use Rattle.std.specs.Prelude.{IsTrue, Ok, IsNone, IfSome, false};
ghost use Rattle.gold_field.specs.Form.{ConstraintBelow};
ghost use Rattle.cir_determined.specs.Circuit.{Circuit, in_normal_form, normalized};
ghost use Rattle.cir_determined.specs.Marks.{marks_of};
ghost use Rattle.cir_determined.specs.Rules.{Applies, place_of, shown};
ghost use Rattle.cir_determined.specs.Certificate.{IsVerdict};

use crate::marks::{Mark, first_unknown, opening};
use crate::normal::{is_normal, normalized};
use crate::rule::{Confirm, Rule};
use crate::step::step;
use gold_field::Constraint;
use std::alloc::{AllocError, Global};

/// What the rules are worth for the circuit, in time linear in its terms. A constraint in normal
/// form isn't copied.
pub fn confirm(
    alloc: Global,
    constraints: &[Constraint],
    wires: u32,
    outputs: u32,
    inputs: u32,
    rules: &[Rule],
) -> Result<Confirm, AllocError>
    requires below { All (ConstraintBelow wires) constraints.now }
    requires few_constraints { length constraints.now < 2 ^ 32 }
    requires few_rules { length rules.now < 2 ^ 32 }
    requires wired { 1 + outputs + inputs ≤ wires }
    ensures { IfOk result (IsVerdict (in_normal_form (record {
      constraints = constraints.now;
      wires = wires;
      outputs = outputs;
      inputs = inputs;
    })) rules.now) }
{
    let mut marks = opening(alloc, wires, outputs, inputs)?;
    let mut index = 0;
    for rule in rules {
        if !step_at(alloc, &mut marks, constraints, *rule)? {
            return Ok(Confirm::BadRule { index });
        }
        index += 1;
    }
    Ok(match first_unknown(&marks, outputs) {
        Some(wire) => Confirm::Short { wire },
        None => Confirm::Confirmed,
    })
}

// Takes the step, if the rule applies to the constraint at its place.
fn step_at(
    alloc: Global,
    marks: &mut [Mark],
    constraints: &[Constraint],
    rule: Rule,
) -> Result<bool, AllocError>
    requires { All (ConstraintBelow (length marks.old)) constraints.now }
    ensures applies { IfOk result (λ b. IsTrue b
        ↔ Applies (map (normalized (length marks.old)) constraints.now) (marks_of marks.old) rule) }
    ensures shows { IfOk result (λ b. IsTrue b → marks_of marks.new
        ≡ shown (map (normalized (length marks.old)) constraints.now) (marks_of marks.old) rule) }
{
    let Some(k) = constraints.get(place(rule) as usize) else {
        return Ok(false);
    };
    if is_normal(k) {
        return step(alloc, marks, k, rule);
    }
    let normal = normalized(alloc, k)?;
    step(alloc, marks, &normal, rule)
}

// The place of the rule's constraint.
fn place(rule: Rule) -> u32
    ensures { result ≡ place_of rule }
{
    match rule {
        Rule::Solve { constraint, .. } | Rule::Bool { constraint, .. } => constraint,
        Rule::Bits { constraint } => constraint,
    }
}

ghost use Rattle.std.specs.Prelude.{◌≡◌, ◌<◌, ◌≤◌, ◌+◌, ◌^◌, ◌↔◌, ◌⊎◌, ◌||◌, ◌&&◌, ◌==◌, nat_lt};
ghost use Rattle.std.specs.Prelude.{nat_le};
ghost use Rattle.std.specs.Prelude.{[], ℕ, true, false, length, map, slice_get, All, IfOk, IfSome};
ghost use Rattle.std.specs.Prelude.{IsNone, IsTrue};
ghost use Rattle.gold_field.specs.Form.{SignalsBelow};
ghost use Rattle.cir_determined.specs.Marks.{marks_of, opening};
ghost use Rattle.cir_determined.specs.Rules.{is_named, unknown, unknown_coefs, AreKnownBut};
ghost use Rattle.cir_determined.specs.Rules.{with_known, with_boolean, with_all_known};

use gold_field::{Gold, Term};
use std::alloc::{AllocError, Global};

/// What has been shown of a wire: that the inputs determine it, and that it is 0 or 1.
#[derive(Clone, Copy)]
pub(crate) struct Mark {
    pub(crate) known: bool,
    pub(crate) boolean: bool,
}

/// A mark for each wire, before the first rule.
pub(crate) fn opening(
    alloc: Global,
    wires: u32,
    outputs: u32,
    inputs: u32,
) -> Result<Vec<Mark>, AllocError>
    requires { 1 + outputs + inputs ≤ wires }
    ensures length { IfOk result (λ marks. length marks.items ≡ wires) }
    ensures marks { IfOk result (λ marks. marks_of marks.items ≡ opening (record {
      constraints = [];
      wires = wires;
      outputs = outputs;
      inputs = inputs;
    })) }
{
    let mut marks = Vec::with_capacity(alloc, wires as usize)?;
    for wire in 0..wires {
        let known = is_given(wire, outputs, outputs + inputs);
        let boolean = false;
        marks.push(Mark { known, boolean })?;
    }
    Ok(marks)
}

// Whether the wire is 0 or one of the inputs.
fn is_given(wire: u32, last_output: u32, last_input: u32) -> bool
    ensures { result ≡ ((wire == 0) || (nat_lt last_output wire && nat_le wire last_input)) }
{
    wire == 0 || (last_output < wire && wire <= last_input)
}

pub(crate) fn is_known(marks: &[Mark], wire: u32) -> bool
    requires { wire < length marks.now }
    ensures { result ≡ (marks_of marks.now).known wire }
{
    marks[wire as usize].known
}

pub(crate) fn is_boolean(marks: &[Mark], wire: u32) -> bool
    requires { wire < length marks.now }
    ensures { result ≡ (marks_of marks.now).boolean wire }
{
    marks[wire as usize].boolean
}

pub(crate) fn mark_known(marks: &mut [Mark], wire: u32)
    requires { wire < length marks.old }
    ensures { marks_of marks.new ≡ with_known wire (marks_of marks.old) }
{
    let mark = marks[wire as usize];
    let boolean = mark.boolean;
    marks[wire as usize] = Mark {
        known: true,
        boolean,
    };
}

pub(crate) fn mark_boolean(marks: &mut [Mark], wire: u32)
    requires { wire < length marks.old }
    ensures { marks_of marks.new ≡ with_boolean wire (marks_of marks.old) }
{
    let mark = marks[wire as usize];
    let known = mark.known;
    marks[wire as usize] = Mark {
        known,
        boolean: true,
    };
}

pub(crate) fn mark_all_known(marks: &mut [Mark], terms: &[Term])
    requires { SignalsBelow (length marks.old) terms.now }
    ensures { marks_of marks.new ≡ with_all_known terms.now (marks_of marks.old) }
{
    for t in terms {
        mark_known(marks, t.signal);
    }
}

/// Whether the wire stands in one of the terms.
pub(crate) fn names(wire: u32, terms: &[Term]) -> bool
    ensures { result ≡ is_named wire terms.now }
{
    for t in terms {
        if t.signal == wire {
            return true;
        }
    }
    false
}

/// Whether every wire of the terms is known, or is this one.
pub(crate) fn are_known_but(marks: &[Mark], wire: u32, terms: &[Term]) -> bool
    requires { SignalsBelow (length marks.now) terms.now }
    ensures { IsTrue result ↔ AreKnownBut (marks_of marks.now) wire terms.now }
{
    for t in terms {
        if !is_known_but(marks, wire, t.signal) {
            return false;
        }
    }
    true
}

fn is_known_but(marks: &[Mark], wire: u32, signal: u32) -> bool
    requires { signal < length marks.now }
    ensures { IsTrue result ↔ (signal ≡ wire) ⊎ ((marks_of marks.now).known signal ≡ true) }
{
    signal == wire || is_known(marks, signal)
}

/// Whether every wire of the terms that isn't known is 0 or 1.
pub(crate) fn are_boolean(marks: &[Mark], terms: &[Term]) -> bool
    requires { SignalsBelow (length marks.now) terms.now }
    ensures { IsTrue result
        ↔ All (λ t. (marks_of marks.now).boolean t.signal ≡ true)
        (unknown (marks_of marks.now) terms.now) }
{
    for t in terms {
        if !is_known(marks, t.signal) {
            if !is_boolean(marks, t.signal) {
                return false;
            }
        }
    }
    true
}

/// The coefficients of the wires that aren't known.
pub(crate) fn unknown_coefs(
    alloc: Global,
    marks: &[Mark],
    terms: &[Term],
) -> Result<Vec<Gold>, AllocError>
    requires { SignalsBelow (length marks.now) terms.now }
    ensures { IfOk result
        (λ coefs. coefs.items ≡ unknown_coefs (marks_of marks.now) terms.now) }
{
    let mut coefs = Vec::new(alloc);
    for t in terms {
        if !is_known(marks, t.signal) {
            coefs.push(t.coef)?;
        }
    }
    Ok(coefs)
}

/// The least output that isn't known.
pub(crate) fn first_unknown(marks: &[Mark], outputs: u32) -> Option<u32>
    requires within { outputs < length marks.now }
    requires fits { outputs + 1 < 2 ^ 32 }
    ensures all { IsNone result
        → (w : ℕ) → 1 ≤ w → w ≤ outputs → (marks_of marks.now).known w ≡ true }
    ensures output { IfSome result (λ wire. (1 ≤ wire) × (wire ≤ outputs)) }
    ensures unknown { IfSome result (λ wire. (marks_of marks.now).known wire ≡ false) }
    ensures least { IfSome result (λ wire. (w : ℕ) → 1 ≤ w → w < wire
        → (marks_of marks.now).known w ≡ true) }
{
    for wire in 1..outputs + 1 {
        if !is_known(marks, wire) {
            return Some(wire);
        }
    }
    None
}

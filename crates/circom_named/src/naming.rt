//! The names of the wires of a constraint.

ghost use Rattle.std.specs.Prelude.{◌≡◌, ◌||◌, ◌-◌, ◌<◌, ◌≤◌, ℕ, false};
ghost use Rattle.std.specs.Prelude.{None, Some, find};
ghost use Rattle.std.specs.Prelude.{All, get_or, length, replicate, slice_get, IfOk};
ghost use Rattle.std.specs.Prelude.{if◌then◌else◌};
ghost use Rattle.std.specs.Option.{option_and_then};
ghost use Rattle.gold_field.specs.Form.{ConstraintBelow, SignalsBelow};
ghost use Rattle.circom_named.specs.Named.{is_of, is_wire, name_by, names_of, stands_in, wires_to};

use cir_ast::Text;
use circom_lines::wire_name;
use gold_field::{Constraint, Term};
use std::alloc::{AllocError, Global};
use sym_file::SymLine;

/// The names of the constraint's wires, rising, each once, without wire 0; all wires are below
/// `wires`.
pub fn names_of(
    alloc: Global,
    lines: &[SymLine],
    wires: u32,
    constraint: &Constraint,
) -> Result<Vec<Text>, AllocError>
    requires few { length lines.now ≤ 16777216 }
    requires below { ConstraintBelow wires constraint.now }
    ensures { IfOk result (λ names. names.items ≡ names_of lines.now wires constraint.now) }
{
    let first = first_lines(alloc, wires, lines)?;
    let found = wires_of(alloc, wires, constraint)?;
    let mut names = Vec::new(alloc);
    for wire in &found {
        let place = first[*wire as usize];
        names.push(name_at(alloc, lines, place, *wire)?)?;
    }
    Ok(names)
}

// The name of a wire whose first line stands at this place.
fn name_at(
    alloc: Global,
    lines: &[SymLine],
    place: Option<u32>,
    wire: u32,
) -> Result<Text, AllocError>
    ensures { IfOk result (λ name. name
        ≡ name_by wire (option_and_then (slice_get lines.now) place)) }
{
    let Some(place) = place else {
        return wire_name(alloc, wire);
    };
    match lines.get(place as usize) {
        Some(line) => Text::from_slice(alloc, line.name.as_slice()),
        None => wire_name(alloc, wire),
    }
}

// The wires from 1 on that occur in the constraint.
fn wires_of(alloc: Global, wires: u32, constraint: &Constraint) -> Result<Vec<u32>, AllocError>
    requires { ConstraintBelow wires constraint.now }
    ensures wires { IfOk result (λ v. v.items ≡ wires_to (wires - 1) constraint.now) }
    ensures below { IfOk result (λ v. All (λ wire. wire < wires) v.items) }
{
    let mut marks = vec![in alloc; false; wires as usize]?;
    mark(&mut marks, constraint.a.as_slice());
    mark(&mut marks, constraint.b.as_slice());
    mark(&mut marks, constraint.c.as_slice());
    let mut found = Vec::new(alloc);
    for wire in 1..wires {
        if marks[wire as usize] {
            found.push(wire)?;
        }
    }
    Ok(found)
}

// Marks the wires of these terms.
fn mark(marks: &mut Vec<bool>, terms: &[Term])
    requires { SignalsBelow (length marks.old.items) terms.now }
    ensures count { length marks.new.items ≡ length marks.old.items }
    ensures marks { (wire : ℕ) → wire < length marks.old.items
        → get_or marks.new.items wire false
        ≡ (get_or marks.old.items wire false || stands_in wire terms.now) }
{
    for term in terms {
        marks[term.signal as usize] = true;
    }
}

// The place of the first line of each wire.
fn first_lines(alloc: Global, wires: u32, lines: &[SymLine]) -> Result<Vec<Option<u32>>, AllocError>
    requires { length lines.now ≤ 16777216 }
    ensures count { IfOk result (λ first. length first.items ≡ wires) }
    ensures first { IfOk result (λ first. (wire : ℕ) → wire < wires
        → find (is_of wire) lines.now
        ≡ option_and_then (slice_get lines.now) (get_or first.items wire None)) }
{
    let mut first = no_lines(alloc, wires)?;
    let mut place = lines.len();
    while place > 0 {
        place -= 1;
        note(&mut first, lines[place].wire, place as u32);
    }
    Ok(first)
}

fn no_lines(alloc: Global, wires: u32) -> Result<Vec<Option<u32>>, AllocError>
    ensures { IfOk result (λ first. first.items ≡ replicate wires None) }
{
    vec![in alloc; None; wires as usize]
}

// A line of this wire stands at this place, before those that were noted.
fn note(first: &mut Vec<Option<u32>>, wire: Option<u32>, place: u32)
    ensures count { length first.new.items ≡ length first.old.items }
    ensures noted { (w : ℕ) → w < length first.old.items → get_or first.new.items w None
        ≡ (if is_wire w wire then Some place else get_or first.old.items w None) }
{
    let Some(wire) = wire else {
        return;
    };
    if (wire as usize) < first.len() {
        first[wire as usize] = Some(place);
    }
}

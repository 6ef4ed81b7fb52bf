ghost use Rattle.std.specs.Prelude.{◌≡◌, length, map, All, OnOk};
ghost use Rattle.gold_field.specs.Form.{ConstraintBelow};
ghost use Rattle.cir_determined.specs.Circuit.{normalized};
ghost use Rattle.cir_determined.specs.Marks.{marks_of};
ghost use Rattle.cir_determined.specs.Search.{AddsRules};

use crate::marks::Mark;
use crate::rule::Rule;
use crate::search::visit;
use gold_field::{Constraint, Term};
use std::alloc::{AllocError, Global};

/// The bits of one number are at most so many.
const MOST_BITS: u32 = 64;

/// What tells which constraints are worth a look.
#[derive(Drop)]
struct Notes {
    /// Where the entries of each wire stand.
    spans: Vec<Span>,
    /// The places of the constraints that name each unknown wire, once for each term.
    entries: Vec<u32>,
    /// What is left of each constraint.
    left: Vec<Left>,
    /// The places that are to be looked at.
    stack: Vec<u32>,
}

/// Entries from the first on, up to the end.
#[derive(Clone, Copy)]
struct Span {
    first: u32,
    end: u32,
}

/// The terms of a constraint whose wires aren't known.
#[derive(Clone, Copy)]
struct Left {
    unknown: u32,
    /// Those of them whose wires aren't shown to be 0 or 1 either.
    odd: u32,
}

impl Left {
    fn and_one(self, boolean: bool) -> Left {
        Left {
            unknown: self.unknown.saturating_add(1),
            odd: self.odd.saturating_add(u32::from(!boolean)),
        }
    }

    fn less_one(self, boolean: bool) -> Left {
        Left {
            unknown: self.unknown.saturating_sub(1),
            odd: self.odd.saturating_sub(u32::from(!boolean)),
        }
    }

    // Whether a rule may apply: the last unknown wire is solved for, and few ones are bits.
    fn is_worth_a_look(self) -> bool {
        self.unknown == 1 || (self.odd == 0 && 0 < self.unknown && self.unknown <= MOST_BITS)
    }
}

/// Takes rules where they are likely to apply, which are the constraints of wires that become
/// known. A constraint is looked at where one unknown wire is left, and where the last 64 are all 0
/// or 1, so the time grows with the number of terms.
pub(crate) fn chase(
    alloc: Global,
    marks: &mut [Mark],
    constraints: &[Constraint],
    rules: &mut Vec<Rule>,
) -> Result<(), AllocError>
    requires { All (ConstraintBelow (length marks.old)) constraints.now }
    ensures { OnOk result (AddsRules (map (normalized (length marks.old)) constraints.now)
        (marks_of marks.old) (marks_of marks.new) rules.old.items rules.new.items) }
{
    let mut notes = noted(alloc, marks, constraints)?;
    let looks = notes.left.len().saturating_add(notes.entries.len());
    for turn in 0..looks {
        let Some(place) = notes.stack.pop() else {
            return Ok(());
        };
        look(alloc, marks, constraints, place, rules, &mut notes)?;
    }
    Ok(())
}

fn look(
    alloc: Global,
    marks: &mut [Mark],
    constraints: &[Constraint],
    place: u32,
    rules: &mut Vec<Rule>,
    notes: &mut Notes,
) -> Result<(), AllocError>
    requires { All (ConstraintBelow (length marks.old)) constraints.now }
    ensures { OnOk result (AddsRules (map (normalized (length marks.old)) constraints.now)
        (marks_of marks.old) (marks_of marks.new) rules.old.items rules.new.items) }
{
    let Some(k) = constraints.get(place as usize) else {
        return Ok(());
    };
    let taken = visit(alloc, marks, k, place, rules)?;
    if taken {
        tell_constraint(notes, marks, k)?;
    }
    Ok(())
}

fn noted(alloc: Global, marks: &[Mark], constraints: &[Constraint]) -> Result<Notes, AllocError> {
    let mut spans = Vec::new(alloc);
    spans.resize(marks.len(), Span { first: 0, end: 0 })?;
    let mut left = Vec::with_capacity(alloc, constraints.len())?;
    for k in constraints {
        left.push(counted(&mut spans, marks, k))?;
    }
    let total = lay_out(&mut spans);
    let mut entries = Vec::new(alloc);
    entries.resize(total as usize, 0)?;
    let mut place = 0u32;
    for k in constraints {
        enter(&mut entries, &mut spans, marks, k.a.as_slice(), place);
        enter(&mut entries, &mut spans, marks, k.b.as_slice(), place);
        enter(&mut entries, &mut spans, marks, k.c.as_slice(), place);
        place = place.saturating_add(1);
    }
    let stack = first_looks(alloc, &left)?;
    Ok(Notes {
        spans,
        entries,
        left,
        stack,
    })
}

// What is left of the constraint, of whose terms each span takes note.
fn counted(spans: &mut [Span], marks: &[Mark], k: &Constraint) -> Left {
    let none = Left { unknown: 0, odd: 0 };
    let a = count_terms(spans, marks, k.a.as_slice(), none);
    let b = count_terms(spans, marks, k.b.as_slice(), a);
    count_terms(spans, marks, k.c.as_slice(), b)
}

fn count_terms(spans: &mut [Span], marks: &[Mark], terms: &[Term], before: Left) -> Left {
    let mut left = before;
    for t in terms {
        let wire = t.signal as usize;
        if wire < marks.len() && !marks[wire].known {
            left = left.and_one(marks[wire].boolean);
            lengthen(spans, wire);
        }
    }
    left
}

// Adds a place to the span of the wire, and answers which one it is.
fn lengthen(spans: &mut [Span], wire: usize) -> u32 {
    if wire < spans.len() {
        let Span { first, end } = spans[wire];
        let more = end.saturating_add(1);
        spans[wire] = Span { first, end: more };
        end
    } else {
        0
    }
}

// Puts the spans, whose ends are their lengths, one behind the other, each still empty, and answers
// the sum of the lengths.
fn lay_out(spans: &mut [Span]) -> u32 {
    let mut total = 0u32;
    for span in spans.iter_mut() {
        let first = total;
        total = total.saturating_add(span.end);
        *span = Span { first, end: first };
    }
    total
}

// Puts the place of a constraint into the span of each unknown wire of the terms.
fn enter(entries: &mut [u32], spans: &mut [Span], marks: &[Mark], terms: &[Term], place: u32) {
    for t in terms {
        let wire = t.signal as usize;
        if wire < marks.len() && !marks[wire].known {
            let at = lengthen(spans, wire);
            write_at(entries, at as usize, place);
        }
    }
}

fn write_at(entries: &mut [u32], at: usize, place: u32) {
    if at < entries.len() {
        entries[at] = place;
    }
}

fn first_looks(alloc: Global, left: &[Left]) -> Result<Vec<u32>, AllocError> {
    let mut stack = Vec::new(alloc);
    let mut place = 0u32;
    for l in left {
        if l.is_worth_a_look() {
            stack.push(place)?;
        }
        place = place.saturating_add(1);
    }
    Ok(stack)
}

fn tell_constraint(notes: &mut Notes, marks: &[Mark], k: &Constraint) -> Result<(), AllocError> {
    tell_all(notes, marks, k.a.as_slice())?;
    tell_all(notes, marks, k.b.as_slice())?;
    tell_all(notes, marks, k.c.as_slice())
}

// Tells of each wire of the terms that is known.
fn tell_all(notes: &mut Notes, marks: &[Mark], terms: &[Term]) -> Result<(), AllocError> {
    for t in terms {
        let wire = t.signal as usize;
        if wire < marks.len() && marks[wire].known {
            tell(notes, wire, marks[wire].boolean)?;
        }
    }
    Ok(())
}

// Tells the constraints of a wire that it is known, the first time.
fn tell(notes: &mut Notes, wire: usize, boolean: bool) -> Result<(), AllocError> {
    let span = taken(&mut notes.spans, wire);
    for at in span.first..span.end {
        let at = at as usize;
        if at < notes.entries.len() {
            let place = notes.entries[at];
            tell_place(notes, place, boolean)?;
        }
    }
    Ok(())
}

// The span of the wire, which is empty from then on.
fn taken(spans: &mut [Span], wire: usize) -> Span {
    if wire < spans.len() {
        let span = spans[wire];
        let first = span.first;
        spans[wire] = Span { first, end: first };
        span
    } else {
        Span { first: 0, end: 0 }
    }
}

fn tell_place(notes: &mut Notes, place: u32, boolean: bool) -> Result<(), AllocError> {
    let at = place as usize;
    if at < notes.left.len() {
        let left = notes.left[at].less_one(boolean);
        notes.left[at] = left;
        if left.is_worth_a_look() {
            notes.stack.push(place)?;
        }
    }
    Ok(())
}

//! Assignments to variables. One is a step where an element that it writes isn't known afterwards:
//! those elements have new cells.
ghost use Rattle.std.specs.Prelude.{◌≡◌, ◌+◌, ◌++◌, ℕ, List, Ok, false, filter, length, map};
ghost use Rattle.std.specs.Prelude.{slice_get, IfOk, OnOk};
ghost use Rattle.cir_ast.specs.declared.program.Meant.TheVariants.{Variable};
ghost use Rattle.cir_ast.specs.Tree.{as_accessors};
ghost use Rattle.cir_arrays.specs.Shown.{datum_of};
ghost use Rattle.cir_frame.specs.Shown.{frame_of, state_of};
ghost use Rattle.cir_meaning.specs.Arrays as A;
ghost use Rattle.cir_meaning.specs.Source.{Equation};
ghost use Rattle.cir_meaning.specs.Costs.{Made as Key};
ghost use Rattle.cir_meaning.specs.Frame.{State};
ghost use Rattle.cir_meaning.specs.Places.{numbers_from};
ghost use Rattle.cir_meaning.specs.Simple as X;
ghost use Rattle.cir_meaning.specs.Writing as W;
ghost use Rattle.cir_evaluate.specs.Within.{Means, at_spot, context_at, where_at};
ghost use Rattle.cir_assign.specs.Assigns.{IsAssignment};
ghost use Rattle.cir_assign.specs.Given.{IsPlaceOf, given_by, written_by};
ghost use Rattle.cir_assign.specs.Leads.{Leads};
ghost use Rattle.cir_steps.specs.Making.{new_places};
ghost use Rattle.cir_steps.specs.Step as S;
ghost use Rattle.cir_steps.specs.Emission.{Emission, Emitted, known_in};
ghost use Rattle.cir_steps.specs.Emit as E;
ghost use Rattle.cir_write.specs.Assigned.{HasCells, assigned_after, assigned_steps, put_at_places};
ghost use Rattle.cir_write.specs.Assigned.{is_new_at, is_new_in, put_one};
ghost use Rattle.cir_make.specs.Cells.{source_by};
ghost use Rattle.cir_make.specs.Emits.{Emits, go_on};
ghost use Rattle.cir_make.specs.Means.{BodyMeans, emitting_in};
ghost use Rattle.cir_make.specs.Shows.{IsKept, Shows, source_in};

use crate::wiring::item_count;
use cir_arrays::{Datum, Fault, Meaning, elements};
use cir_assign::{
    Assignment, NewValue, Step, Written, is_unknown, variable_assignment, variable_step,
    write_assigned,
};
use cir_ast::program::Spot;
use cir_cost::stepped;
use cir_evaluate::Here;
use cir_frame::{Frame, World};
use cir_make::{Body, Cast, Doing, Inside, Source, VariableCells, Whole, plain_step};
use gold_field::Gold;
use numbers::{Numbers, behind};
use std::alloc::{AllocError, Global};

/// A variable is written. It is a step where an element that it writes isn't known afterwards.
pub fn set_variable<C, M>(
    body: &Body<C, M>,
    spot: Spot,
    w: &Written,
    inside: &mut Inside,
    whole: &mut Whole,
) -> Result<(), Fault>
where
    C: Fn(Spot, u32, Vec<Datum>, &mut World) -> Result<Datum, Fault>,
    M: Fn(Spot, u32, Vec<Datum>, &[u8], &mut Whole) -> Result<Cast, Fault>,
    requires calls { C.IsAlwaysCallable body.now.context.now.call.now }
    requires makes { M.IsAlwaysCallable body.now.make.now }
    ensures { (m : BodyMeans (C.post body.now.context.now.call.now) (M.post body.now.make.now)
        body.now) (name : List ℕ) (d : Emitted)
        → IsPlaceOf name (Variable w.now.variable) w.now.accessors.now w.now.given
        → Shows m.first inside.old whole.old d
        → Emits m.first inside.new whole.new result
        (go_on d (E.emit_set_variable (emitting_in body.now m) (at_spot body.now.context.now spot)
        (written_by name (Variable w.now.variable) w.now.accessors.now w.now.given)
        w.now.variable (as_accessors w.now.accessors.now) (given_by w.now.given))) }
{
    let here = body.context.here(spot);
    write(&here, w, inside, whole)
}

fn write<C: Fn(Spot, u32, Vec<Datum>, &mut World) -> Result<Datum, Fault>>(
    here: &Here<C>,
    w: &Written,
    inside: &mut Inside,
    whole: &mut Whole,
) -> Result<(), Fault>
    requires calls { C.IsAlwaysCallable here.now.context.now.call.now }
    ensures leads { (m : Means (C.post here.now.context.now.call.now) here.now.context.now)
        (name : List ℕ) (qs : List Equation) → here.now.shaded ≡ false
        → IsPlaceOf name (Variable w.now.variable) w.now.accessors.now w.now.given
        → Leads qs whole.old.world inside.new.frame whole.new.world result
        (X.set_variable (context_at here.now m) (where_at here.now)
        (written_by name (Variable w.now.variable) w.now.accessors.now w.now.given)
        w.now.variable (as_accessors w.now.accessors.now) (given_by w.now.given)
        (state_of inside.old.frame whole.old.world qs)) }
    ensures kept { (m : Means (C.post here.now.context.now.call.now) here.now.context.now)
        (name : List ℕ) (qs : List Equation) (first : List Key) (x : Emission)
        (steps : List S.Step) (a : W.VariableAssignment) → here.now.shaded ≡ false
        → IsPlaceOf name (Variable w.now.variable) w.now.accessors.now w.now.given
        → known_in x ≡ state_of inside.old.frame whole.old.world qs
        → W.variable_assignment (context_at here.now m) (where_at here.now) w.now.variable
        (as_accessors w.now.accessors.now) (given_by w.now.given) (known_in x) ≡ Ok a
        → IsKept first inside.old.frame inside.old.cells whole.old.made x steps
        → OnOk result ((es : List Equation) → IsKept first inside.new.frame inside.new.cells
        whole.new.made (assigned_after w.now.variable a
        (state_of inside.new.frame whole.new.world es) x)
        (steps ++ assigned_steps (context_at here.now m) (where_at here.now)
        (written_by name (Variable w.now.variable) w.now.accessors.now w.now.given)
        w.now.variable (as_accessors w.now.accessors.now) (given_by w.now.given) a x)) }
{
    let a = variable_assignment(here, w, &inside.frame, &mut whole.world)?;
    if !is_unknown(&a, elements(inside.frame.variable_dims(w.variable))) {
        write_assigned(here.alloc(), w.variable, a, &mut inside.frame)?;
        return Ok(());
    }
    let places = places_of(here.alloc(), w.variable, &a, &inside.frame)?;
    let targets = numbers(here.alloc(), whole.made.next, places.len() as u64)?;
    plain_step(
        here,
        Doing::Sets(w, places.as_slice()),
        targets,
        &inside.frame,
        &mut inside.cells,
        &mut whole.made,
        &mut whole.world,
    )?;
    let step = variable_step(
        here,
        w.variable,
        w.accessors,
        w.given,
        &a,
        &inside.frame,
        &mut whole.world,
    )?;
    let Step { cost, cells } = step;
    write_assigned(here.alloc(), w.variable, a, &mut inside.frame)?;
    let next = whole.made.next;
    whole.made.next = put_cells(
        &mut inside.cells.variables,
        w.variable,
        places.as_slice(),
        next,
    )?;
    stepped(here, cost, cells, &mut whole.world)
}

/// The elements that aren't known afterwards, of those that are written.
fn places_of(alloc: Global, n: u32, a: &Assignment, frame: &Frame) -> Result<Vec<u64>, AllocError>
    ensures { (s : State) (x : W.VariableAssignment) → s.frame ≡ frame_of frame.now s.frame.added
        → IsAssignment n s a.now x → IfOk result (λ places. places.items ≡ new_places n x) }
{
    let Some(old) = frame.variable(n) else {
        return Ok(Vec::new(alloc));
    };
    match a.reach.part {
        Meaning::Known { first, count } => match &a.value {
            NewValue::Whole(value) => unknown_places(alloc, first, count, old, value),
            NewValue::Added(_) => all_places(alloc, old),
        },
        Meaning::Unknown | Meaning::Outside => all_places(alloc, old),
    }
}

/// The places in a row whose new items aren't known.
fn unknown_places(
    alloc: Global,
    first: u64,
    count: u64,
    old: &Datum,
    value: &Datum,
) -> Result<Vec<u64>, AllocError>
    ensures { IfOk result (λ places. places.items ≡ filter (is_new_in (A.put_items
        (numbers_from first count) (datum_of value.now).items (datum_of old.now).items))
        (numbers_from first count)) }
{
    let mut places = Vec::new(alloc);
    for at in 0..count {
        let place = first.checked_add(at).ok_or(AllocError)?;
        if is_new(old, value, place, at) {
            places.push(place)?;
        }
    }
    Ok(places)
}

/// Whether the item that is put at a place isn't known.
fn is_new(old: &Datum, value: &Datum, place: u64, at: u64) -> bool
    ensures { result ≡ is_new_at (slice_get (datum_of old.now).items place)
        (slice_get (datum_of value.now).items at) }
{
    match old.item(place) {
        None => false,
        Some(before) => match value.item(at) {
            None => !before.is_known(),
            Some(v) => !v.is_known(),
        },
    }
}

/// All places of an array.
fn all_places(alloc: Global, old: &Datum) -> Result<Vec<u64>, AllocError>
    ensures { IfOk result (λ places. places.items
        ≡ numbers_from 0 (length (datum_of old.now).items)) }
{
    let mut places = Vec::new(alloc);
    for at in 0..item_count(old) {
        places.push(at)?;
    }
    Ok(places)
}

/// So many numbers from one on.
pub fn numbers(alloc: Global, first: u32, count: u64) -> Result<Numbers, AllocError>
    ensures { IfOk result (λ numbers. numbers ≡ numbers_from first count) }
{
    let mut numbers = Numbers::new(alloc);
    for at in 0..count {
        numbers.push(behind(first, at)?)?;
    }
    Ok(numbers)
}

/// The elements at these places have new cells, from one on. The next cell is answered.
fn put_cells(
    variables: &mut Vec<VariableCells>,
    n: u32,
    places: &[u64],
    first: u32,
) -> Result<u32, AllocError>
    ensures cells { OnOk result (HasCells n places.now first variables.old.items
        variables.new.items) }
    ensures next { IfOk result (λ next. next ≡ first + length places.now) }
{
    let next = behind(first, places.len() as u64)?;
    if (n as usize) < variables.len() {
        put_all(&mut variables[n as usize].sources, places, first)?;
    }
    Ok(next)
}

fn put_all(sources: &mut Vec<Source>, places: &[u64], first: u32) -> Result<(), AllocError>
    ensures { (k : ℕ) → OnOk result (source_in (map source_by sources.new.items) k
        ≡ put_at_places places.now first (source_in (map source_by sources.old.items)) k) }
{
    for at in 0..places.len() {
        let cell = behind(first, at as u64)?;
        put(sources, places[at], cell)?;
    }
    Ok(())
}

/// The element at a place has a cell.
fn put(sources: &mut Vec<Source>, place: u64, cell: u32) -> Result<(), AllocError>
    ensures { (k : ℕ) → OnOk result (source_in (map source_by sources.new.items) k
        ≡ put_one place cell (source_in (map source_by sources.old.items)) k) }
{
    lengthen(sources, place as usize)?;
    if (place as usize) < sources.len() {
        sources[place as usize] = Source::Cell(cell);
        return Ok(());
    }
    Err(AllocError)
}

/// There is a source at this place.
fn lengthen(sources: &mut Vec<Source>, place: usize) -> Result<(), AllocError>
    ensures { (k : ℕ) → OnOk result (source_in (map source_by sources.new.items) k
        ≡ source_in (map source_by sources.old.items) k) }
{
    for _at in sources.len()..place.saturating_add(1) {
        sources.push(Source::Constant(Gold::ZERO))?;
    }
    Ok(())
}

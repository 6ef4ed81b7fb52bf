//! Assignments to signals. Each is a step, which gives the value; where it writes the last input of
//! a component, the component's steps follow.
ghost use Rattle.std.specs.Prelude.{◌≡◌, ◌++◌, ◌+◌, ℕ, List, Ok, false, length, map, slice_get};
ghost use Rattle.std.specs.Prelude.{unwrap_or, IfOk, OnOk};
ghost use Rattle.cir_ast.specs.Tree.{Left as LeftAssign, as_accessors, bare};
ghost use Rattle.cir_arrays.specs.Shown.{datum_of};
ghost use Rattle.cir_frame.specs.Shown.{part_of, state_of};
ghost use Rattle.cir_frame.specs.Targets.{run_of};
ghost use Rattle.cir_meaning.specs.Source.{Equation};
ghost use Rattle.cir_meaning.specs.Costs.{Made as Key};
ghost use Rattle.cir_meaning.specs.Frame.{is_fed};
ghost use Rattle.cir_meaning.specs.Places.{numbers_from};
ghost use Rattle.cir_meaning.specs.Simple as X;
ghost use Rattle.cir_meaning.specs.Writing as W;
ghost use Rattle.cir_evaluate.specs.Within.{Means, at_spot, context_at, where_at};
ghost use Rattle.cir_assign.specs.Leads.{Leads};
ghost use Rattle.cir_steps.specs.Step as S;
ghost use Rattle.cir_steps.specs.Emission.{Emission, Emitted, known_in, ports_of, wire_cell};
ghost use Rattle.cir_steps.specs.Emission.{with_state};
ghost use Rattle.cir_steps.specs.Emit as E;
ghost use Rattle.cir_steps.specs.Making.{freed_at, written_elements};
ghost use Rattle.cir_make.specs.declared.whole.Made.{Made as AnyMade};
ghost use Rattle.cir_make.specs.Cells.{cell_in};
ghost use Rattle.cir_make.specs.Emits.{Emits, go_on};
ghost use Rattle.cir_make.specs.Means.{BodyMeans, emitting_in};
ghost use Rattle.cir_make.specs.Shows.{HaveCells, IsKept, Shows, keys_of};
ghost use Rattle.cir_write.specs.Waiting.{IsReleased, WasMade, rows_at, rows_in, wired_steps};

use cir_arrays::{Datum, Fault, same_dims};
use cir_assign::{Wiring, target_in, wiring_cost, write_signal};
use cir_ast::Kind;
use cir_ast::program::Spot;
use cir_cost::stepped;
use cir_evaluate::{Here, datum};
use cir_frame::{Frame, Target, World};
use cir_make::{Body, Cast, Cells, Doing, Inside, Run, Whole, plain_step};
use numbers::{Numbers, TooLarge, behind};
use std::alloc::{AllocError, Global};

/// A signal is written, and constrained by `<==`. A write of no signal is no step.
pub fn set_signal<C, M>(
    body: &Body<C, M>,
    spot: Spot,
    w: &Wiring,
    inside: &mut Inside,
    whole: &mut Whole,
) -> Result<(), Fault>
where
    C: Fn(Spot, u32, Vec<Datum>, &mut World) -> Result<Datum, Fault>,
    M: Fn(Spot, u32, Vec<Datum>, &[u8], &mut Whole) -> Result<Cast, Fault>,
    requires calls { C.IsAlwaysCallable body.now.context.now.call.now }
    requires makes { M.IsAlwaysCallable body.now.make.now }
    ensures { (m : BodyMeans (C.post body.now.context.now.call.now) (M.post body.now.make.now)
        body.now) (name : List ℕ) (d : Emitted)
        → Shows m.first inside.old whole.old d
        → Emits m.first inside.new whole.new result
        (go_on d (E.emit_set_signal (emitting_in body.now m) (at_spot body.now.context.now spot)
        (LeftAssign name w.now.meant (as_accessors w.now.accessors.now) w.now.arrow
        (bare w.now.value.now)) w.now.meant (as_accessors w.now.accessors.now) w.now.arrow
        (bare w.now.value.now))) }
{
    let here = body.context.here(spot);
    wire(&here, w, inside, whole)
}

fn wire<C: Fn(Spot, u32, Vec<Datum>, &mut World) -> Result<Datum, Fault>>(
    here: &Here<C>,
    w: &Wiring,
    inside: &mut Inside,
    whole: &mut Whole,
) -> Result<(), Fault>
    requires calls { C.IsAlwaysCallable here.now.context.now.call.now }
    ensures leads { (m : Means (C.post here.now.context.now.call.now) here.now.context.now)
        (name : List ℕ) (qs : List Equation) → here.now.shaded ≡ false
        → Leads qs whole.old.world inside.new.frame whole.new.world result
        (X.set_signal (context_at here.now m) (where_at here.now)
        (LeftAssign name w.now.meant (as_accessors w.now.accessors.now) w.now.arrow
        (bare w.now.value.now)) w.now.meant (as_accessors w.now.accessors.now) w.now.arrow
        (bare w.now.value.now) (state_of inside.old.frame whole.old.world qs)) }
    ensures kept { (m : Means (C.post here.now.context.now.call.now) here.now.context.now)
        (name : List ℕ) (qs : List Equation) (first : List Key) (x : Emission)
        (steps : List S.Step) (a : W.SignalAssignment) → here.now.shaded ≡ false
        → known_in x ≡ state_of inside.old.frame whole.old.world qs
        → W.signal_assignment (context_at here.now m) (where_at here.now) w.now.meant
        (as_accessors w.now.accessors.now) (bare w.now.value.now) (known_in x) ≡ Ok a
        → IsKept first inside.old.frame inside.old.cells whole.old.made x steps
        → OnOk result ((es : List Equation) → IsKept first inside.new.frame inside.new.cells
        whole.new.made (with_state (state_of inside.new.frame whole.new.world es) x)
        (steps ++ wired_steps (context_at here.now m) (where_at here.now)
        (LeftAssign name w.now.meant (as_accessors w.now.accessors.now) w.now.arrow
        (bare w.now.value.now)) (as_accessors w.now.accessors.now) (bare w.now.value.now) a
        (state_of inside.new.frame whole.new.world es) x)) }
{
    let value = datum(here, w.value, &inside.frame, &mut whole.world)?;
    let target = target_in(here, w.meant, w.accessors, &inside.frame, &mut whole.world)?;
    if !same_dims(target.reach.left.as_slice(), value.dims()) {
        return Err(here.refused(Kind::ShapeDiffers));
    }
    let (_, count) = target.run();
    if count == 0 {
        return Ok(());
    }
    let targets = targets(here.alloc(), &target, &value, &inside.cells)?;
    plain_step(
        here,
        Doing::Gives(w.value),
        targets,
        &inside.frame,
        &mut inside.cells,
        &mut whole.made,
        &mut whole.world,
    )?;
    let cost = wiring_cost(here, w, &inside.frame, &mut whole.world)?;
    let part = target.part;
    let was_fed = was_fed(part, &inside.frame);
    write_signal(
        here,
        w.arrow,
        &target,
        value,
        &mut inside.frame,
        &mut whole.world,
    )?;
    free(part, was_fed, &inside.frame, &mut inside.cells)?;
    stepped(here, cost, 0, &mut whole.world)
}

/// The cells of the elements that are written.
fn targets(
    alloc: Global,
    target: &Target,
    value: &Datum,
    cells: &Cells,
) -> Result<Numbers, AllocError>
    ensures { (x : Emission) (first count : ℕ) → HaveCells x cells.now
        → run_of target.now.reach.part ≡ (first, count) → IfOk result (λ targets. targets
        ≡ map (wire_cell (ports_of target.now.part x) target.now.number)
        (written_elements (numbers_from first count) (datum_of value.now).items)) }
{
    let (first, count) = target.run();
    let rows = find_rows(cells, target.part, target.number);
    let mut targets = Numbers::new(alloc);
    for at in 0..count.min(item_count(value)) {
        let place = first.checked_add(at).ok_or(AllocError)?;
        targets.push(cell(rows, place)?)?;
    }
    Ok(targets)
}

/// How many items were made.
pub fn item_count(value: &Datum) -> u64
    ensures { result ≡ length (datum_of value.now).items }
{
    match value {
        Datum::Number(_) => 1,
        Datum::Array(array) => array.items.len() as u64,
    }
}

/// The rows of cells of a signal of the body, or of a component.
fn find_rows(cells: &Cells, part: Option<u32>, number: usize) -> &[Run]
    ensures { result.now ≡ rows_at cells.now part number }
{
    match part {
        None => rows(cells.signals.as_slice(), number),
        Some(j) => match cells.parts.get(j as usize) {
            Some(part) => rows(part.ports.as_slice(), number),
            None => &[],
        },
    }
}

/// The rows of cells of the signal of this number.
pub fn rows(signals: &[Vec<Run>], number: usize) -> &[Run]
    ensures { result.now ≡ rows_in signals.now number }
{
    match signals.get(number) {
        Some(rows) => rows.as_slice(),
        None => &[],
    }
}

/// The cell of an element, or 0.
pub fn cell(rows: &[Run], place: u64) -> Result<u32, TooLarge>
    ensures { IfOk result (λ c. c ≡ unwrap_or (cell_in rows.now place) 0) }
{
    for row in rows {
        if place < row.count {
            return behind(row.first, place);
        }
    }
    Ok(0)
}

/// Whether all inputs of a component are written.
fn is_part_fed(j: u32, frame: &Frame) -> bool
    ensures { result ≡ is_fed (W.part_signals (slice_get (map part_of frame.now.parts.items) j)) }
{
    match frame.parts.get(j as usize) {
        Some(part) => part.is_fed(),
        None => true,
    }
}

fn was_fed(part: Option<u32>, frame: &Frame) -> bool
    ensures { (j : ℕ) → part ≡ Some j → result
        ≡ is_fed (W.part_signals (slice_get (map part_of frame.now.parts.items) j)) }
{
    match part {
        None => true,
        Some(j) => is_part_fed(j, frame),
    }
}

/// Where a component is fed, and wasn't before, its steps follow.
pub fn free(
    part: Option<u32>,
    was_fed: bool,
    frame: &Frame,
    cells: &mut Cells,
) -> Result<(), AllocError>
    ensures { (first : List Key) (made : AnyMade) (x : Emission) (steps : List S.Step)
        → (known_in x).frame.parts ≡ map part_of frame.now.parts.items
        → WasMade (keys_of made) part was_fed x cells.old
        → IsKept first frame.now cells.old made x steps → OnOk result
        (IsKept first frame.now cells.new made x (steps ++ freed_at part was_fed x)) }
{
    let Some(j) = part else {
        return Ok(());
    };
    if was_fed || !is_part_fed(j, frame) {
        return Ok(());
    }
    release(j as usize, cells)
}

fn release(j: usize, cells: &mut Cells) -> Result<(), AllocError>
    ensures { OnOk result (IsReleased j cells.old cells.new) }
{
    if j < cells.parts.len() {
        cells.steps.append(&mut cells.parts[j].steps)?;
        return Ok(());
    }
    Err(AllocError)
}

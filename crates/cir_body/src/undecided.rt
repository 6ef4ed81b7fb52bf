//! What is left of a statement whose condition isn't known is one step.
ghost use Rattle.std.specs.Prelude.{◌≡◌, ◌++◌, ◌∷◌, [], false, List, map, slice_get, IfOk};
ghost use Rattle.std.specs.Prelude.{OnOk};
ghost use Rattle.cir_arrays.specs.Shown.{datum_of};
ghost use Rattle.cir_execute.specs.Rests.{rest_by, rest_fault};
ghost use Rattle.cir_frame.specs.Shown.{state_of};
ghost use Rattle.cir_meaning.specs.Arrays.{Datum as AnyDatum};
ghost use Rattle.cir_meaning.specs.Costs.{Made as Key};
ghost use Rattle.cir_meaning.specs.Scan as X;
ghost use Rattle.cir_meaning.specs.Source.{Equation};
ghost use Rattle.cir_evaluate.specs.Within.{Means, context_at, where_at};
ghost use Rattle.cir_assign.specs.Leads.{Leads};
ghost use Rattle.cir_steps.specs.Step as S;
ghost use Rattle.cir_steps.specs.Emission.{Emission, Emitted, known_in};
ghost use Rattle.cir_steps.specs.Statements as E;
ghost use Rattle.cir_make.specs.Emits.{Emits, go_on};
ghost use Rattle.cir_make.specs.Means.{BodyMeans, emitting_in};
ghost use Rattle.cir_make.specs.Shows.{IsKept, Shows};
ghost use Rattle.cir_make.specs.Steps.{put_before};
ghost use Rattle.cir_body.specs.Undone.{left_behind, left_step, put_back, put_one};

use crate::renewing::{count_all, lose, renew, wanted};
use cir_arrays::{Datum, Fault};
use cir_ast::program::Spot;
use cir_evaluate::Here;
use cir_execute::{Rest, execute_undecided, touched};
use cir_frame::{Frame, World};
use cir_make::{Before, Body, Cast, Doing, Inside, Making, Whole, make_step};
use cir_write::numbers;
use std::alloc::{AllocError, Global};

/// What is left where a condition isn't known is one step.
pub fn left<C, M>(
    body: &Body<C, M>,
    spot: Spot,
    rest: &Rest,
    inside: &mut Inside,
    whole: &mut Whole,
) -> Result<(), Fault>
where
    C: Fn(Spot, u32, Vec<Datum>, &mut World) -> Result<Datum, Fault>,
    M: Fn(Spot, u32, Vec<Datum>, &[u8], &mut Whole) -> Result<Cast, Fault>,
    requires calls { C.IsAlwaysCallable body.now.context.now.call.now }
    requires makes { M.IsAlwaysCallable body.now.make.now }
    ensures { (m : BodyMeans (C.post body.now.context.now.call.now) (M.post body.now.make.now)
        body.now) (d : Emitted) → Shows m.first inside.old whole.old d
        → Emits m.first inside.new whole.new result
        (go_on d (E.emit_undecided (emitting_in body.now m) spot (rest_fault rest.now)
        (rest_by spot rest.now))) }
{
    let here = body.context.here(spot);
    leave(&here, rest, inside, whole)
}

/// It is executed, its step is made behind it, and the elements that it may assign have new cells.
fn leave<C: Fn(Spot, u32, Vec<Datum>, &mut World) -> Result<Datum, Fault>>(
    here: &Here<C>,
    rest: &Rest,
    inside: &mut Inside,
    whole: &mut Whole,
) -> Result<(), Fault>
    requires calls { C.IsAlwaysCallable here.now.context.now.call.now }
    ensures leads { (m : Means (C.post here.now.context.now.call.now) here.now.context.now)
        (qs : List Equation) → Leads qs whole.old.world inside.new.frame whole.new.world result
        (X.undecided (context_at here.now m) here.now.spot (rest_fault rest.now)
        (rest_by here.now.spot rest.now) (state_of inside.old.frame whole.old.world qs)) }
    ensures kept { (m : Means (C.post here.now.context.now.call.now) here.now.context.now)
        (qs : List Equation) (first : List Key) (x : Emission) (steps : List S.Step)
        → here.now.shaded ≡ false
        → known_in x ≡ state_of inside.old.frame whole.old.world qs
        → IsKept first inside.old.frame inside.old.cells whole.old.made x steps
        → OnOk result ((es : List Equation) → IsKept first inside.new.frame inside.new.cells
        whole.new.made (left_behind (rest_by here.now.spot rest.now)
        (state_of inside.new.frame whole.new.world es) x)
        (steps ++ left_step (context_at here.now m) (where_at here.now)
        (rest_by here.now.spot rest.now) (state_of inside.new.frame whole.new.world es) x ∷ [])) }
{
    let touched = touched(here.context, rest)?;
    let assigned = touched.assigned.as_slice();
    let declared = touched.declared.as_slice();
    let befores = befores_of(here.alloc(), assigned, declared, &inside.frame)?;
    let wanted = wanted(here.alloc(), assigned, &inside.frame)?;
    let count = count_all(wanted.as_slice())?;
    let targets = numbers(here.alloc(), whole.made.next, count)?;
    execute_undecided(
        here.context,
        here.spot,
        rest,
        &mut inside.frame,
        &mut whole.world,
    )?;
    let step = Making {
        doing: Doing::Decides(rest, wanted.as_slice()),
        befores: befores.as_slice(),
        targets,
        line: None,
    };
    make_step(
        here,
        step,
        &inside.frame,
        &mut inside.cells,
        &mut whole.made,
        &mut whole.world,
    )?;
    let next = whole.made.next;
    whole.made.next = renew(&mut inside.cells.variables, wanted.as_slice(), next)?;
    lose(declared, &mut inside.cells.variables);
    Ok(())
}

/// What is assigned or declared as it stands before.
fn befores_of(
    alloc: Global,
    assigned: &[u32],
    declared: &[u32],
    frame: &Frame,
) -> Result<Vec<Before>, AllocError>
    ensures { (ds : List AnyDatum) → IfOk result (λ befores. put_before befores.items ds
        ≡ put_back (assigned.now ++ declared.now) (map datum_of frame.now.variables.items) ds) }
{
    let mut befores = Vec::new(alloc);
    keep_all(alloc, assigned, frame, &mut befores)?;
    keep_all(alloc, declared, frame, &mut befores)?;
    Ok(befores)
}

/// Variables as they stand before what may assign or declare them.
fn keep_all(
    alloc: Global,
    variables: &[u32],
    frame: &Frame,
    befores: &mut Vec<Before>,
) -> Result<(), AllocError>
    ensures { (ds : List AnyDatum) → OnOk result (put_before befores.new.items ds
        ≡ put_back variables.now (map datum_of frame.now.variables.items)
        (put_before befores.old.items ds)) }
{
    for n in variables {
        keep(alloc, *n, frame, befores)?;
    }
    Ok(())
}

fn keep(alloc: Global, n: u32, frame: &Frame, befores: &mut Vec<Before>) -> Result<(), AllocError>
    ensures { (ds : List AnyDatum) → OnOk result (put_before befores.new.items ds
        ≡ put_one (slice_get (map datum_of frame.now.variables.items) n) n
        (put_before befores.old.items ds)) }
{
    let Some(value) = frame.variable(n) else {
        return Ok(());
    };
    let value = value.copy(alloc)?;
    befores.push(Before { variable: n, value })?;
    Ok(())
}

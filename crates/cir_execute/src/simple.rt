//! The execution of simple statements. Limits are tested at the end of each, with all that it adds.
ghost use Rattle.std.specs.Prelude.{◌≡◌, false, List, length, map, IfOk, ◌≤◌, IfErr};
ghost use Rattle.cir_ast.specs.Tree.{Assigned, Simple as AnySimple, Vars as AnyVars, bare};
ghost use Rattle.cir_ast.specs.Tree.{bare_assign, bare_simple, bare_slot, bare_source, bare_target};
ghost use Rattle.cir_ast.specs.Tree.{bare_variable};
ghost use Rattle.cir_ast.specs.declared.program.Meant.{Meant as AnyMeant};
ghost use Rattle.cir_frame.specs.Shown.{state_of};
ghost use Rattle.cir_meaning.specs.Source.{Equation};
ghost use Rattle.cir_meaning.specs.Anonymous as A;
ghost use Rattle.cir_meaning.specs.Simple as S;
ghost use Rattle.cir_lift.specs.Lifts.{IsLifted};
ghost use Rattle.cir_lift.specs.Turned.{turned};
ghost use Rattle.cir_evaluate.specs.Within.{Means, at_spot, context_at, where_at};
ghost use Rattle.cir_assign.specs.Leads.{Leads};
ghost use Rattle.cir_create.specs.Makes.{BodyMeans, context_in};
ghost use Rattle.cir_execute.specs.Turned.{turned_all};

use cir_arrays::{Datum, Fault};
use cir_assign::{Wiring, equal, placed_of, set_signal};
use cir_ast::Kind;
use cir_ast::program::{Arrow, Assign, Components, Expr, Simple, Slot, Source, Spot, Target, Vars};
use cir_create::{Body, components, created, set, signals, variables};
use cir_evaluate::{Here, datum};
use cir_frame::{Frame, SignalEntry, World};
use cir_lift::{Lifted, assign_holds, holds, lift_assign, lift_simple};
use numbers::{TooLarge, narrow};
use std::alloc::AllocError;

/// Executes a simple statement: first the statements for its anonymous components, at its own
/// place.
pub fn simple<C, M>(
    body: &Body<C, M>,
    spot: Spot,
    form: &Simple,
    frame: &mut Frame,
    world: &mut World,
) -> Result<(), Fault>
where
    C: Fn(Spot, u32, Vec<Datum>, &mut World) -> Result<Datum, Fault>,
    M: Fn(Spot, u32, Vec<Datum>, &[u8], &mut World) -> Result<Vec<Option<SignalEntry>>, Fault>,
    requires calls { C.IsAlwaysCallable body.now.context.now.call.now }
    requires makes { M.IsAlwaysCallable body.now.make.now }
    ensures { (m : BodyMeans (C.post body.now.context.now.call.now) (M.post body.now.make.now)
        body.now) (qs : List Equation) → Leads qs world.old frame.new world.new result
        (S.simple (context_in body.now m) spot (bare_simple form.now)
        (state_of frame.old world.old qs)) }
{
    if !holds(form) {
        return execute_counted(body, spot, form, frame, world);
    }
    let next = next_component(frame)?;
    let first = body.context.named_components;
    let l = lift_simple(body.context.alloc, body.context.program, first, next, form)?;
    let result = lifted(body, spot, &l, frame, world);
    drop(l);
    result
}

/// The same of an assignment.
pub fn simple_assign<C, M>(
    body: &Body<C, M>,
    spot: Spot,
    assign: &Assign,
    frame: &mut Frame,
    world: &mut World,
) -> Result<(), Fault>
where
    C: Fn(Spot, u32, Vec<Datum>, &mut World) -> Result<Datum, Fault>,
    M: Fn(Spot, u32, Vec<Datum>, &[u8], &mut World) -> Result<Vec<Option<SignalEntry>>, Fault>,
    requires calls { C.IsAlwaysCallable body.now.context.now.call.now }
    requires makes { M.IsAlwaysCallable body.now.make.now }
    ensures { (m : BodyMeans (C.post body.now.context.now.call.now) (M.post body.now.make.now)
        body.now) (qs : List Equation) → Leads qs world.old frame.new world.new result
        (S.simple (context_in body.now m) spot (Assigned (bare_assign assign.now))
        (state_of frame.old world.old qs)) }
{
    if !assign_holds(assign) {
        assigned(body, spot, assign, frame, world)?;
        return body.context.counted(spot, world);
    }
    let next = next_component(frame)?;
    let first = body.context.named_components;
    let l = lift_assign(
        body.context.alloc,
        body.context.program,
        first,
        next,
        assign,
    )?;
    let result = lifted(body, spot, &l, frame, world);
    drop(l);
    result
}

/// The same of declarations of variables.
pub fn simple_vars<C, M>(
    body: &Body<C, M>,
    spot: Spot,
    vars: &Vars,
    frame: &mut Frame,
    world: &mut World,
) -> Result<(), Fault>
where
    C: Fn(Spot, u32, Vec<Datum>, &mut World) -> Result<Datum, Fault>,
    M: Fn(Spot, u32, Vec<Datum>, &[u8], &mut World) -> Result<Vec<Option<SignalEntry>>, Fault>,
    requires calls { C.IsAlwaysCallable body.now.context.now.call.now }
    requires makes { M.IsAlwaysCallable body.now.make.now }
    ensures { (m : BodyMeans (C.post body.now.context.now.call.now) (M.post body.now.make.now)
        body.now) (qs : List Equation) → Leads qs world.old frame.new world.new result
        (S.simple (context_in body.now m) spot (AnyVars (map bare_variable vars.now.variables))
        (state_of frame.old world.old qs)) }
{
    variables(body, spot, vars.variables.as_slice(), frame, world)?;
    body.context.counted(spot, world)
}

/// The number of the next component.
pub fn next_component(frame: &Frame) -> Result<u32, TooLarge>
    ensures ok { IfOk result (λ n. n ≡ length frame.now.components.items) }
    ensures err { IfErr result (λ _. 4294967296 ≤ length frame.now.components.items) }
{
    narrow(frame.components.len() as u64)
}

/// A statement and those that are lifted before it, each counted.
fn lifted<C, M>(
    body: &Body<C, M>,
    spot: Spot,
    l: &Lifted,
    frame: &mut Frame,
    world: &mut World,
) -> Result<(), Fault>
where
    C: Fn(Spot, u32, Vec<Datum>, &mut World) -> Result<Datum, Fault>,
    M: Fn(Spot, u32, Vec<Datum>, &[u8], &mut World) -> Result<Vec<Option<SignalEntry>>, Fault>,
    requires calls { C.IsAlwaysCallable body.now.context.now.call.now }
    requires makes { M.IsAlwaysCallable body.now.make.now }
    ensures { (m : BodyMeans (C.post body.now.context.now.call.now) (M.post body.now.make.now)
        body.now) (x : A.Lifted (AnySimple AnyMeant)) (qs : List Equation) → IsLifted x l.now
        → Leads qs world.old frame.new world.new result
        (S.lifted (context_in body.now m) spot (turned_all x) (state_of frame.old world.old qs)) }
{
    for before in l.before.as_slice() {
        execute_counted(body, spot, before, frame, world)?;
    }
    execute_counted(body, spot, &l.value, frame, world)
}

/// Executes a statement without anonymous components, and counts it.
fn execute_counted<C, M>(
    body: &Body<C, M>,
    spot: Spot,
    form: &Simple,
    frame: &mut Frame,
    world: &mut World,
) -> Result<(), Fault>
where
    C: Fn(Spot, u32, Vec<Datum>, &mut World) -> Result<Datum, Fault>,
    M: Fn(Spot, u32, Vec<Datum>, &[u8], &mut World) -> Result<Vec<Option<SignalEntry>>, Fault>,
    requires calls { C.IsAlwaysCallable body.now.context.now.call.now }
    requires makes { M.IsAlwaysCallable body.now.make.now }
    ensures { (m : BodyMeans (C.post body.now.context.now.call.now) (M.post body.now.make.now)
        body.now) (qs : List Equation) → Leads qs world.old frame.new world.new result
        (S.execute_counted (context_in body.now m) spot (turned (bare_simple form.now))
        (state_of frame.old world.old qs)) }
{
    execute(body, spot, form, frame, world)?;
    body.context.counted(spot, world)
}

/// Executes a statement without anonymous components.
fn execute<C, M>(
    body: &Body<C, M>,
    spot: Spot,
    form: &Simple,
    frame: &mut Frame,
    world: &mut World,
) -> Result<(), Fault>
where
    C: Fn(Spot, u32, Vec<Datum>, &mut World) -> Result<Datum, Fault>,
    M: Fn(Spot, u32, Vec<Datum>, &[u8], &mut World) -> Result<Vec<Option<SignalEntry>>, Fault>,
    requires calls { C.IsAlwaysCallable body.now.context.now.call.now }
    requires makes { M.IsAlwaysCallable body.now.make.now }
    ensures { (m : BodyMeans (C.post body.now.context.now.call.now) (M.post body.now.make.now)
        body.now) (qs : List Equation) → Leads qs world.old frame.new world.new result
        (S.execute (context_in body.now m) spot (turned (bare_simple form.now))
        (state_of frame.old world.old qs)) }
{
    let here = body.context.here(spot);
    match form {
        Simple::Vars(vars) => variables(body, spot, vars.variables.as_slice(), frame, world),
        Simple::Signals(s) => {
            signals(
                body.context,
                spot,
                s.direction,
                s.signals.as_slice(),
                frame,
                world,
            )
        }
        Simple::Components(Components::Declared(cs)) => {
            components(&here, cs.as_slice(), frame, world)
        }
        Simple::Components(Components::Created(name, meant, e)) => {
            created(body, spot, name, *meant, e, frame, world)
        }
        Simple::Assign(assign) => assigned(body, spot, assign, frame, world),
        Simple::Constrain(left, right) => equal(&here, left, right, frame, world),
        Simple::Right(value, arrow, place) => {
            let w = Wiring {
                meant: place.meant,
                accessors: place.accessors.as_slice(),
                arrow: *arrow,
                value,
            };
            set_signal(&here, &w, frame, world)
        }
        Simple::TargetLeft(target, arrow, source) => {
            tuple(&here, *arrow, target, source, frame, world)
        }
        Simple::TargetRight(source, arrow, target) => {
            tuple(&here, *arrow, target, source, frame, world)
        }
        Simple::Anonymous(_) => Err(here.refused(Kind::WrongKind)),
    }
}

/// An assignment without anonymous components.
fn assigned<C, M>(
    body: &Body<C, M>,
    spot: Spot,
    assign: &Assign,
    frame: &mut Frame,
    world: &mut World,
) -> Result<(), Fault>
where
    C: Fn(Spot, u32, Vec<Datum>, &mut World) -> Result<Datum, Fault>,
    M: Fn(Spot, u32, Vec<Datum>, &[u8], &mut World) -> Result<Vec<Option<SignalEntry>>, Fault>,
    requires calls { C.IsAlwaysCallable body.now.context.now.call.now }
    requires makes { M.IsAlwaysCallable body.now.make.now }
    ensures { (m : BodyMeans (C.post body.now.context.now.call.now) (M.post body.now.make.now)
        body.now) (qs : List Equation) → Leads qs world.old frame.new world.new result
        (S.assign (context_in body.now m) (at_spot body.now.context.now spot)
        (bare_assign assign.now)
        (state_of frame.old world.old qs)) }
{
    match assign {
        Assign::Left(place, arrow, value) => {
            let here = body.context.here(spot);
            let w = Wiring {
                meant: place.meant,
                accessors: place.accessors.as_slice(),
                arrow: *arrow,
                value,
            };
            set_signal(&here, &w, frame, world)
        }
        _ => match placed_of(assign) {
            Some(p) => set(body, spot, &p, frame, world),
            None => Err(body.context.here(spot).refused(Kind::WrongKind)),
        },
    }
}

/// Slot by slot, each with its value.
fn tuple<C: Fn(Spot, u32, Vec<Datum>, &mut World) -> Result<Datum, Fault>>(
    here: &Here<C>,
    arrow: Arrow,
    target: &Target,
    source: &Source,
    frame: &mut Frame,
    world: &mut World,
) -> Result<(), Fault>
    requires calls { C.IsAlwaysCallable here.now.context.now.call.now }
    ensures { (m : Means (C.post here.now.context.now.call.now) here.now.context.now)
        (qs : List Equation) → here.now.shaded ≡ false
        → Leads qs world.old frame.new world.new result
        (S.tuple (context_at here.now m) (where_at here.now) arrow (bare_target target.now)
        (S.values_of (bare_source source.now))
        (state_of frame.old world.old qs)) }
{
    match target {
        Target::Discard => match source {
            Source::One(e) => dropped(here, e, frame, world),
            Source::Tuple(es) => all_dropped(here, es.as_slice(), frame, world),
        },
        Target::Tuple(slots) => match source {
            Source::One(e) => match slots.as_slice() {
                [first, ..] => slot(here, arrow, first, e, frame, world),
                [] => Ok(()),
            },
            Source::Tuple(es) => {
                all_slots(here, arrow, slots.as_slice(), es.as_slice(), frame, world)
            }
        },
    }
}

/// All values are dropped.
fn all_dropped<C: Fn(Spot, u32, Vec<Datum>, &mut World) -> Result<Datum, Fault>>(
    here: &Here<C>,
    es: &[Expr],
    frame: &Frame,
    world: &mut World,
) -> Result<(), Fault>
    requires calls { C.IsAlwaysCallable here.now.context.now.call.now }
    ensures { (m : Means (C.post here.now.context.now.call.now) here.now.context.now)
        (qs : List Equation) → here.now.shaded ≡ false
        → Leads qs world.old frame.now world.new result
        (S.each (S.dropped (context_at here.now m) (where_at here.now)) (map bare es.now)
        (state_of frame.now world.old qs)) }
{
    for e in es {
        dropped(here, e, frame, world)?;
    }
    Ok(())
}

/// Slots and values in pairs; what is left of either is left out.
fn all_slots<C: Fn(Spot, u32, Vec<Datum>, &mut World) -> Result<Datum, Fault>>(
    here: &Here<C>,
    arrow: Arrow,
    slots: &[Slot],
    es: &[Expr],
    frame: &mut Frame,
    world: &mut World,
) -> Result<(), Fault>
    requires calls { C.IsAlwaysCallable here.now.context.now.call.now }
    ensures { (m : Means (C.post here.now.context.now.call.now) here.now.context.now)
        (qs : List Equation) → here.now.shaded ≡ false
        → Leads qs world.old frame.new world.new result
        (S.slots (context_at here.now m) (where_at here.now) arrow (map bare_slot slots.now)
        (map bare es.now)
        (state_of frame.old world.old qs)) }
{
    for at in 0..slots.len().min(es.len()) {
        slot(here, arrow, &slots[at], &es[at], frame, world)?;
    }
    Ok(())
}

/// One slot, with its value.
fn slot<C: Fn(Spot, u32, Vec<Datum>, &mut World) -> Result<Datum, Fault>>(
    here: &Here<C>,
    arrow: Arrow,
    slot: &Slot,
    value: &Expr,
    frame: &mut Frame,
    world: &mut World,
) -> Result<(), Fault>
    requires calls { C.IsAlwaysCallable here.now.context.now.call.now }
    ensures { (m : Means (C.post here.now.context.now.call.now) here.now.context.now)
        (qs : List Equation) → here.now.shaded ≡ false
        → Leads qs world.old frame.new world.new result
        (S.slot (context_at here.now m) (where_at here.now) arrow (bare_slot slot.now)
        (bare value.now)
        (state_of frame.old world.old qs)) }
{
    match slot {
        Slot::Place(place) => {
            let w = Wiring {
                meant: place.meant,
                accessors: place.accessors.as_slice(),
                arrow,
                value,
            };
            set_signal(here, &w, frame, world)
        }
        Slot::Discard => dropped(here, value, frame, world),
    }
}

/// A value that `_` receives is evaluated, without a constraint.
fn dropped<C: Fn(Spot, u32, Vec<Datum>, &mut World) -> Result<Datum, Fault>>(
    here: &Here<C>,
    e: &Expr,
    frame: &Frame,
    world: &mut World,
) -> Result<(), Fault>
    requires calls { C.IsAlwaysCallable here.now.context.now.call.now }
    ensures { (m : Means (C.post here.now.context.now.call.now) here.now.context.now)
        (qs : List Equation) → here.now.shaded ≡ false
        → Leads qs world.old frame.now world.new result
        (S.dropped (context_at here.now m) (where_at here.now) (bare e.now)
        (state_of frame.now world.old qs)) }
{
    let _value = datum(here, e, frame, world)?;
    Ok(())
}

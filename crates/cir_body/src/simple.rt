//! The execution of simple statements. Limits are tested at the end of each, with all that it adds.
ghost use Rattle.std.specs.Prelude.{map};
ghost use Rattle.cir_ast.specs.declared.program.Meant.{Meant as AnyMeant};
ghost use Rattle.cir_ast.specs.Tree.{Assigned, Simple as AnySimple, Vars as AnyVars, bare};
ghost use Rattle.cir_ast.specs.Tree.{bare_assign, bare_simple, bare_slot, bare_source, bare_target};
ghost use Rattle.cir_ast.specs.Tree.{bare_variable};
ghost use Rattle.cir_meaning.specs.Anonymous as A;
ghost use Rattle.cir_meaning.specs.Simple as X;
ghost use Rattle.cir_meaning.specs.Writing.{plain};
ghost use Rattle.cir_evaluate.specs.Within.{at_spot};
ghost use Rattle.cir_lift.specs.Lifts.{IsLifted};
ghost use Rattle.cir_lift.specs.Turned.{turned};
ghost use Rattle.cir_execute.specs.Turned.{turned_all};
ghost use Rattle.cir_steps.specs.Emission.{Emitted, emit_known};
ghost use Rattle.cir_steps.specs.Emit as E;
ghost use Rattle.cir_make.specs.Emits.{Emits, go_on};
ghost use Rattle.cir_make.specs.Means.{BodyMeans, emitting_in};
ghost use Rattle.cir_make.specs.Shows.{Shows};

use cir_arrays::{Datum, Fault};
use cir_assign::{Wiring, placed_of};
use cir_ast::Kind;
use cir_ast::program::{Arrow, Assign, Components, Expr, Simple, Slot, Source, Spot, Target, Vars};
use cir_evaluate::datum;
use cir_execute::next_component;
use cir_frame::World;
use cir_lift::{Lifted, assign_holds, holds, lift_assign, lift_simple};
use cir_make::{Body, Cast, Inside, Whole};
use cir_write::{
    created, declare_components, declare_signals, declare_variables, equal, set, set_signal,
};

/// Executes a simple statement: first the statements for its anonymous components, at its own
/// place.
pub fn simple<C, M>(
    body: &Body<C, M>,
    spot: Spot,
    form: &Simple,
    inside: &mut Inside,
    whole: &mut Whole,
) -> Result<(), Fault>
where
    C: Fn(Spot, u32, Vec<Datum>, &mut World) -> Result<Datum, Fault>,
    M: Fn(Spot, u32, Vec<Datum>, &[u8], &mut Whole) -> Result<Cast, Fault>,
    requires calls { C.IsAlwaysCallable body.now.context.now.call.now }
    requires makes { M.IsAlwaysCallable body.now.make.now }
    ensures { (m : BodyMeans (C.post body.now.context.now.call.now) (M.post body.now.make.now)
        body.now) (d : Emitted) → Shows m.first inside.old whole.old d
        → Emits m.first inside.new whole.new result
        (go_on d (E.emit_simple (emitting_in body.now m) spot (bare_simple form.now))) }
{
    if !holds(form) {
        return execute_counted(body, spot, form, inside, whole);
    }
    let next = next_component(&inside.frame)?;
    let first = body.context.named_components;
    let l = lift_simple(body.context.alloc, body.context.program, first, next, form)?;
    let result = lifted(body, spot, &l, inside, whole);
    drop(l);
    result
}

/// The same of an assignment.
pub fn simple_assign<C, M>(
    body: &Body<C, M>,
    spot: Spot,
    assign: &Assign,
    inside: &mut Inside,
    whole: &mut Whole,
) -> Result<(), Fault>
where
    C: Fn(Spot, u32, Vec<Datum>, &mut World) -> Result<Datum, Fault>,
    M: Fn(Spot, u32, Vec<Datum>, &[u8], &mut Whole) -> Result<Cast, Fault>,
    requires calls { C.IsAlwaysCallable body.now.context.now.call.now }
    requires makes { M.IsAlwaysCallable body.now.make.now }
    ensures { (m : BodyMeans (C.post body.now.context.now.call.now) (M.post body.now.make.now)
        body.now) (d : Emitted) → Shows m.first inside.old whole.old d
        → Emits m.first inside.new whole.new result
        (go_on d (E.emit_simple (emitting_in body.now m) spot
        (Assigned (bare_assign assign.now)))) }
{
    if !assign_holds(assign) {
        assigned(body, spot, assign, inside, whole)?;
        return body.context.counted(spot, &mut whole.world);
    }
    let next = next_component(&inside.frame)?;
    let first = body.context.named_components;
    let l = lift_assign(
        body.context.alloc,
        body.context.program,
        first,
        next,
        assign,
    )?;
    let result = lifted(body, spot, &l, inside, whole);
    drop(l);
    result
}

/// The same of declarations of variables.
pub fn simple_vars<C, M>(
    body: &Body<C, M>,
    spot: Spot,
    vars: &Vars,
    inside: &mut Inside,
    whole: &mut Whole,
) -> Result<(), Fault>
where
    C: Fn(Spot, u32, Vec<Datum>, &mut World) -> Result<Datum, Fault>,
    M: Fn(Spot, u32, Vec<Datum>, &[u8], &mut Whole) -> Result<Cast, Fault>,
    requires calls { C.IsAlwaysCallable body.now.context.now.call.now }
    requires makes { M.IsAlwaysCallable body.now.make.now }
    ensures { (m : BodyMeans (C.post body.now.context.now.call.now) (M.post body.now.make.now)
        body.now) (d : Emitted) → Shows m.first inside.old whole.old d
        → Emits m.first inside.new whole.new result
        (go_on d (E.emit_simple (emitting_in body.now m) spot
        (AnyVars (map bare_variable vars.now.variables)))) }
{
    declare_variables(body, spot, vars.variables.as_slice(), inside, whole)?;
    body.context.counted(spot, &mut whole.world)
}

/// A statement and those that are lifted before it, each counted.
fn lifted<C, M>(
    body: &Body<C, M>,
    spot: Spot,
    l: &Lifted,
    inside: &mut Inside,
    whole: &mut Whole,
) -> Result<(), Fault>
where
    C: Fn(Spot, u32, Vec<Datum>, &mut World) -> Result<Datum, Fault>,
    M: Fn(Spot, u32, Vec<Datum>, &[u8], &mut Whole) -> Result<Cast, Fault>,
    requires calls { C.IsAlwaysCallable body.now.context.now.call.now }
    requires makes { M.IsAlwaysCallable body.now.make.now }
    ensures { (m : BodyMeans (C.post body.now.context.now.call.now) (M.post body.now.make.now)
        body.now) (x : A.Lifted (AnySimple AnyMeant)) (d : Emitted) → IsLifted x l.now
        → Shows m.first inside.old whole.old d
        → Emits m.first inside.new whole.new result
        (go_on d (E.emit_lifted (emitting_in body.now m) spot (turned_all x))) }
{
    for before in l.before.as_slice() {
        execute_counted(body, spot, before, inside, whole)?;
    }
    execute_counted(body, spot, &l.value, inside, whole)
}

/// Executes a statement without anonymous components, and counts it.
fn execute_counted<C, M>(
    body: &Body<C, M>,
    spot: Spot,
    form: &Simple,
    inside: &mut Inside,
    whole: &mut Whole,
) -> Result<(), Fault>
where
    C: Fn(Spot, u32, Vec<Datum>, &mut World) -> Result<Datum, Fault>,
    M: Fn(Spot, u32, Vec<Datum>, &[u8], &mut Whole) -> Result<Cast, Fault>,
    requires calls { C.IsAlwaysCallable body.now.context.now.call.now }
    requires makes { M.IsAlwaysCallable body.now.make.now }
    ensures { (m : BodyMeans (C.post body.now.context.now.call.now) (M.post body.now.make.now)
        body.now) (d : Emitted) → Shows m.first inside.old whole.old d
        → Emits m.first inside.new whole.new result
        (go_on d (E.emit_execute_counted (emitting_in body.now m) spot
        (turned (bare_simple form.now)))) }
{
    execute(body, spot, form, inside, whole)?;
    body.context.counted(spot, &mut whole.world)
}

/// Executes a statement without anonymous components.
fn execute<C, M>(
    body: &Body<C, M>,
    spot: Spot,
    form: &Simple,
    inside: &mut Inside,
    whole: &mut Whole,
) -> Result<(), Fault>
where
    C: Fn(Spot, u32, Vec<Datum>, &mut World) -> Result<Datum, Fault>,
    M: Fn(Spot, u32, Vec<Datum>, &[u8], &mut Whole) -> Result<Cast, Fault>,
    requires calls { C.IsAlwaysCallable body.now.context.now.call.now }
    requires makes { M.IsAlwaysCallable body.now.make.now }
    ensures { (m : BodyMeans (C.post body.now.context.now.call.now) (M.post body.now.make.now)
        body.now) (d : Emitted) → Shows m.first inside.old whole.old d
        → Emits m.first inside.new whole.new result
        (go_on d (E.emit_execute (emitting_in body.now m) spot (turned (bare_simple form.now)))) }
{
    match form {
        Simple::Vars(vars) => declare_variables(
            body,
            spot,
            vars.variables.as_slice(),
            inside,
            whole,
        ),
        Simple::Signals(s) => {
            declare_signals(body, spot, s.direction, s.signals.as_slice(), inside, whole)
        }
        Simple::Components(Components::Declared(cs)) => {
            declare_components(body, spot, cs.as_slice(), inside, whole)
        }
        Simple::Components(Components::Created(name, meant, e)) => {
            created(body, spot, name, *meant, e, inside, whole)
        }
        Simple::Assign(assign) => assigned(body, spot, assign, inside, whole),
        Simple::Constrain(left, right) => equal(body, spot, left, right, inside, whole),
        Simple::Right(value, arrow, place) => {
            let w = Wiring {
                meant: place.meant,
                accessors: place.accessors.as_slice(),
                arrow: *arrow,
                value,
            };
            set_signal(body, spot, &w, inside, whole)
        }
        Simple::TargetLeft(target, arrow, source) => {
            tuple(body, spot, *arrow, target, source, inside, whole)
        }
        Simple::TargetRight(source, arrow, target) => {
            tuple(body, spot, *arrow, target, source, inside, whole)
        }
        Simple::Anonymous(_) => Err(body.context.here(spot).refused(Kind::WrongKind)),
    }
}

/// An assignment without anonymous components.
fn assigned<C, M>(
    body: &Body<C, M>,
    spot: Spot,
    assign: &Assign,
    inside: &mut Inside,
    whole: &mut Whole,
) -> Result<(), Fault>
where
    C: Fn(Spot, u32, Vec<Datum>, &mut World) -> Result<Datum, Fault>,
    M: Fn(Spot, u32, Vec<Datum>, &[u8], &mut Whole) -> Result<Cast, Fault>,
    requires calls { C.IsAlwaysCallable body.now.context.now.call.now }
    requires makes { M.IsAlwaysCallable body.now.make.now }
    ensures { (m : BodyMeans (C.post body.now.context.now.call.now) (M.post body.now.make.now)
        body.now) (d : Emitted) → Shows m.first inside.old whole.old d
        → Emits m.first inside.new whole.new result
        (go_on d (E.emit_assigned (emitting_in body.now m) (at_spot body.now.context.now spot)
        (bare_assign assign.now) (plain (bare_assign assign.now)))) }
{
    match assign {
        Assign::Left(place, arrow, value) => {
            let w = Wiring {
                meant: place.meant,
                accessors: place.accessors.as_slice(),
                arrow: *arrow,
                value,
            };
            set_signal(body, spot, &w, inside, whole)
        }
        _ => match placed_of(assign) {
            Some(p) => set(body, spot, &p, inside, whole),
            None => Err(body.context.here(spot).refused(Kind::WrongKind)),
        },
    }
}

/// Slot by slot, each with its value.
fn tuple<C, M>(
    body: &Body<C, M>,
    spot: Spot,
    arrow: Arrow,
    target: &Target,
    source: &Source,
    inside: &mut Inside,
    whole: &mut Whole,
) -> Result<(), Fault>
where
    C: Fn(Spot, u32, Vec<Datum>, &mut World) -> Result<Datum, Fault>,
    M: Fn(Spot, u32, Vec<Datum>, &[u8], &mut Whole) -> Result<Cast, Fault>,
    requires calls { C.IsAlwaysCallable body.now.context.now.call.now }
    requires makes { M.IsAlwaysCallable body.now.make.now }
    ensures { (m : BodyMeans (C.post body.now.context.now.call.now) (M.post body.now.make.now)
        body.now) (d : Emitted) → Shows m.first inside.old whole.old d
        → Emits m.first inside.new whole.new result
        (go_on d (E.emit_tuple (emitting_in body.now m) (at_spot body.now.context.now spot) arrow
        (bare_target target.now) (X.values_of (bare_source source.now)))) }
{
    match (target, source) {
        (Target::Discard, Source::One(e)) => dropped(body, spot, e, inside, whole),
        (Target::Discard, Source::Tuple(es)) => {
            all_dropped(body, spot, es.as_slice(), inside, whole)
        }
        (Target::Tuple(slots), Source::One(e)) => match slots.as_slice() {
            [first, ..] => slot(body, spot, arrow, first, e, inside, whole),
            [] => Ok(()),
        },
        (Target::Tuple(slots), Source::Tuple(es)) => {
            all_slots(
                body,
                spot,
                arrow,
                slots.as_slice(),
                es.as_slice(),
                inside,
                whole,
            )
        }
    }
}

/// All values are dropped.
fn all_dropped<C, M>(
    body: &Body<C, M>,
    spot: Spot,
    es: &[Expr],
    inside: &mut Inside,
    whole: &mut Whole,
) -> Result<(), Fault>
where
    C: Fn(Spot, u32, Vec<Datum>, &mut World) -> Result<Datum, Fault>,
    M: Fn(Spot, u32, Vec<Datum>, &[u8], &mut Whole) -> Result<Cast, Fault>,
    requires calls { C.IsAlwaysCallable body.now.context.now.call.now }
    requires makes { M.IsAlwaysCallable body.now.make.now }
    ensures { (m : BodyMeans (C.post body.now.context.now.call.now) (M.post body.now.make.now)
        body.now) (d : Emitted) → Shows m.first inside.old whole.old d
        → Emits m.first inside.new whole.new result
        (go_on d (E.emit_each (λ e. emit_known (X.dropped
        (emitting_in body.now m).context (at_spot body.now.context.now spot) e))
        (map bare es.now))) }
{
    for e in es {
        dropped(body, spot, e, inside, whole)?;
    }
    Ok(())
}

/// Slots and values in pairs; what is left of either is left out.
fn all_slots<C, M>(
    body: &Body<C, M>,
    spot: Spot,
    arrow: Arrow,
    slots: &[Slot],
    es: &[Expr],
    inside: &mut Inside,
    whole: &mut Whole,
) -> Result<(), Fault>
where
    C: Fn(Spot, u32, Vec<Datum>, &mut World) -> Result<Datum, Fault>,
    M: Fn(Spot, u32, Vec<Datum>, &[u8], &mut Whole) -> Result<Cast, Fault>,
    requires calls { C.IsAlwaysCallable body.now.context.now.call.now }
    requires makes { M.IsAlwaysCallable body.now.make.now }
    ensures { (m : BodyMeans (C.post body.now.context.now.call.now) (M.post body.now.make.now)
        body.now) (d : Emitted) → Shows m.first inside.old whole.old d
        → Emits m.first inside.new whole.new result
        (go_on d (E.emit_slots (emitting_in body.now m) (at_spot body.now.context.now spot) arrow
        (map bare_slot slots.now) (map bare es.now))) }
{
    for at in 0..slots.len().min(es.len()) {
        slot(body, spot, arrow, &slots[at], &es[at], inside, whole)?;
    }
    Ok(())
}

/// One slot, with its value.
fn slot<C, M>(
    body: &Body<C, M>,
    spot: Spot,
    arrow: Arrow,
    slot: &Slot,
    value: &Expr,
    inside: &mut Inside,
    whole: &mut Whole,
) -> Result<(), Fault>
where
    C: Fn(Spot, u32, Vec<Datum>, &mut World) -> Result<Datum, Fault>,
    M: Fn(Spot, u32, Vec<Datum>, &[u8], &mut Whole) -> Result<Cast, Fault>,
    requires calls { C.IsAlwaysCallable body.now.context.now.call.now }
    requires makes { M.IsAlwaysCallable body.now.make.now }
    ensures { (m : BodyMeans (C.post body.now.context.now.call.now) (M.post body.now.make.now)
        body.now) (d : Emitted) → Shows m.first inside.old whole.old d
        → Emits m.first inside.new whole.new result
        (go_on d (E.emit_slot (emitting_in body.now m) (at_spot body.now.context.now spot) arrow
        (bare_slot slot.now) (bare value.now))) }
{
    match slot {
        Slot::Place(place) => {
            let w = Wiring {
                meant: place.meant,
                accessors: place.accessors.as_slice(),
                arrow,
                value,
            };
            set_signal(body, spot, &w, inside, whole)
        }
        Slot::Discard => dropped(body, spot, value, inside, whole),
    }
}

/// A value that `_` receives is evaluated, without a constraint.
fn dropped<C, M>(
    body: &Body<C, M>,
    spot: Spot,
    e: &Expr,
    inside: &mut Inside,
    whole: &mut Whole,
) -> Result<(), Fault>
where
    C: Fn(Spot, u32, Vec<Datum>, &mut World) -> Result<Datum, Fault>,
    M: Fn(Spot, u32, Vec<Datum>, &[u8], &mut Whole) -> Result<Cast, Fault>,
    requires calls { C.IsAlwaysCallable body.now.context.now.call.now }
    requires makes { M.IsAlwaysCallable body.now.make.now }
    ensures { (m : BodyMeans (C.post body.now.context.now.call.now) (M.post body.now.make.now)
        body.now) (d : Emitted) → Shows m.first inside.old whole.old d
        → Emits m.first inside.new whole.new result
        (go_on d (emit_known (X.dropped (emitting_in body.now m).context
        (at_spot body.now.context.now spot) (bare e.now)))) }
{
    let here = body.context.here(spot);
    let _value = datum(&here, e, &inside.frame, &mut whole.world)?;
    Ok(())
}

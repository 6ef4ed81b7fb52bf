//! Declarations of signals, and assignments to them.
ghost use Rattle.std.specs.Prelude.{◌≡◌, ◌+◌, map, IfOk, OnOk};
ghost use Rattle.cir_ast.specs.Tree.{bare_signal};
ghost use Rattle.cir_meaning.specs.Run.{Wires};
ghost use Rattle.cir_evaluate.specs.Within.{where_at};
ghost use Rattle.cir_steps.specs.Emission.{Emitted, put_signal};
ghost use Rattle.cir_steps.specs.Emit as E;
ghost use Rattle.cir_make.specs.Cells.{wires_by};
ghost use Rattle.cir_write.specs.Declarations.{Numbers, declared_signal};
ghost use Rattle.cir_make.specs.Emits.{Emits, go_on};
ghost use Rattle.cir_make.specs.Means.{BodyMeans, emitting_in};
ghost use Rattle.cir_make.specs.Shows.{SameWires, Shows};

use crate::wiring::set_signal;
use cir_arrays::{Datum, Fault, made_elements};
use cir_assign::Wiring;
use cir_ast::Kind;
use cir_ast::program::{DeclaredSignal, Direction, Meant, SignalValue, Spot};
use cir_declare::{NewSignal, declare_signal};
use cir_evaluate::{Here, dims_in};
use cir_frame::World;
use cir_make::{Body, Cast, Inside, Run, Whole};
use std::alloc::{AllocError, Global};

/// The number of what is declared.
pub fn number_of<C>(here: &Here<C>, meant: Meant) -> Result<u32, Fault>
    ensures { Numbers (where_at here.now) meant result }
{
    match meant {
        Meant::Variable(n) | Meant::Signal(_, n) | Meant::Component(n) => Ok(n),
        Meant::Other | Meant::Template(_) | Meant::Function(_) => {
            Err(here.refused(Kind::WrongKind))
        }
    }
}

/// Declares signals one after the other, and writes those that have a value.
pub fn signals<C, M>(
    body: &Body<C, M>,
    spot: Spot,
    direction: Direction,
    declared: &[DeclaredSignal],
    inside: &mut Inside,
    whole: &mut Whole,
) -> Result<(), Fault>
where
    C: Fn(Spot, u32, Vec<Datum>, &mut World) -> Result<Datum, Fault>,
    M: Fn(Spot, u32, Vec<Datum>, &[u8], &mut Whole) -> Result<Cast, Fault>,
    requires calls { C.IsAlwaysCallable body.now.context.now.call.now }
    requires makes { M.IsAlwaysCallable body.now.make.now }
    ensures { (m : BodyMeans (C.post body.now.context.now.call.now) (M.post body.now.make.now)
        body.now) (d : Emitted)
        → Shows m.first inside.old whole.old d
        → Emits m.first inside.new whole.new result
        (go_on d (E.emit_each (E.emit_signal (emitting_in body.now m) spot direction)
        (map bare_signal declared.now))) }
{
    for d in declared {
        signal(body, spot, direction, d, inside, whole)?;
    }
    Ok(())
}

/// A declaration comes first, and its name is seen in its value.
fn signal<C, M>(
    body: &Body<C, M>,
    spot: Spot,
    direction: Direction,
    d: &DeclaredSignal,
    inside: &mut Inside,
    whole: &mut Whole,
) -> Result<(), Fault>
where
    C: Fn(Spot, u32, Vec<Datum>, &mut World) -> Result<Datum, Fault>,
    M: Fn(Spot, u32, Vec<Datum>, &[u8], &mut Whole) -> Result<Cast, Fault>,
    requires calls { C.IsAlwaysCallable body.now.context.now.call.now }
    requires makes { M.IsAlwaysCallable body.now.make.now }
    ensures { (m : BodyMeans (C.post body.now.context.now.call.now) (M.post body.now.make.now)
        body.now) (y : Emitted)
        → Shows m.first inside.old whole.old y
        → Emits m.first inside.new whole.new result
        (go_on y (E.emit_signal (emitting_in body.now m) spot direction
        (bare_signal d.now))) }
{
    declare(body, spot, direction, d, inside, whole)?;
    match &d.value {
        SignalValue::Nothing => Ok(()),
        SignalValue::Given(arrow, e) => {
            let w = Wiring {
                meant: d.meant,
                accessors: &[],
                arrow: *arrow,
                value: e,
            };
            set_signal(body, spot, &w, inside, whole)
        }
    }
}

/// Its elements have new cells.
fn declare<C, M>(
    body: &Body<C, M>,
    spot: Spot,
    direction: Direction,
    d: &DeclaredSignal,
    inside: &mut Inside,
    whole: &mut Whole,
) -> Result<(), Fault>
where
    C: Fn(Spot, u32, Vec<Datum>, &mut World) -> Result<Datum, Fault>,
    M: Fn(Spot, u32, Vec<Datum>, &[u8], &mut Whole) -> Result<Cast, Fault>,
    requires calls { C.IsAlwaysCallable body.now.context.now.call.now }
    requires makes { M.IsAlwaysCallable body.now.make.now }
    ensures { (m : BodyMeans (C.post body.now.context.now.call.now) (M.post body.now.make.now)
        body.now) (y : Emitted)
        → Shows m.first inside.old whole.old y
        → Emits m.first inside.new whole.new result
        (go_on y (declared_signal (emitting_in body.now m) spot direction
        (bare_signal d.now))) }
{
    let here = body.context.here(spot);
    let number = number_of(&here, d.meant)?;
    let dims = dims_in(
        &here,
        d.dimensions.as_slice(),
        &inside.frame,
        &mut whole.world,
    )?;
    let count = made_elements(dims.as_slice());
    let new = NewSignal {
        spot,
        direction,
        number,
        name: d.name.as_slice(),
        instance: here.context.instance,
        grouping: here.context.grouping,
    };
    declare_signal(
        here.alloc(),
        &new,
        dims,
        &mut inside.frame,
        &mut whole.world,
    )?;
    let signals = &mut inside.cells.signals;
    whole.made.next = add_cells(here.alloc(), signals, number, whole.made.next, count)?;
    Ok(())
}

/// So many cells more for a signal. The next cell is answered.
fn add_cells(
    alloc: Global,
    signals: &mut Vec<Vec<Run>>,
    n: u32,
    first: u32,
    count: u64,
) -> Result<u32, AllocError>
    ensures wires { (own : Wires) → SameWires own (wires_by signals.old.items)
        → OnOk result (SameWires (put_signal n first count own) (wires_by signals.new.items)) }
    ensures next { IfOk result (λ next. next ≡ first + count) }
{
    let next = u64::from(first).checked_add(count).ok_or(AllocError)?;
    let Ok(next) = u32::try_from(next) else {
        return Err(AllocError);
    };
    lengthen(alloc, signals, n as usize)?;
    if (n as usize) < signals.len() {
        signals[n as usize].push(Run { first, count })?;
        return Ok(next);
    }
    Err(AllocError)
}

/// There is a list for the signal of this number.
fn lengthen(alloc: Global, signals: &mut Vec<Vec<Run>>, n: usize) -> Result<(), AllocError>
    ensures { (own : Wires) → SameWires own (wires_by signals.old.items)
        → OnOk result (SameWires own (wires_by signals.new.items)) }
{
    for _at in signals.len()..n.saturating_add(1) {
        signals.push(Vec::new(alloc))?;
    }
    Ok(())
}

//! Declarations. A declaration comes first, and its name is seen in its value.
ghost use Rattle.std.specs.Prelude.{◌≡◌, List, [], map, false};
ghost use Rattle.cir_ast.specs.Tree.{bare, bare_component, bare_signal, bare_variable, done};
ghost use Rattle.cir_frame.specs.Shown.{state_of};
ghost use Rattle.cir_meaning.specs.Tried.{next};
ghost use Rattle.cir_meaning.specs.Source.{Equation};
ghost use Rattle.cir_meaning.specs.Declaring as D;
ghost use Rattle.cir_meaning.specs.Simple as S;
ghost use Rattle.cir_evaluate.specs.Within.{Means, at_spot, context_at, context_of, where_at};
ghost use Rattle.cir_assign.specs.Leads.{Leads};
ghost use Rattle.cir_create.specs.Makes.{BodyMeans, context_in};
ghost use Rattle.cir_create.specs.Declares.{Numbers};

use crate::body::Body;
use crate::creating::create;
use crate::setting::set;
use cir_arrays::{Datum, Fault, Filling};
use cir_assign::{Given, Placed, Wiring, set_signal};
use cir_ast::program::{
    DeclaredComponent, DeclaredSignal, DeclaredVariable, Direction, Expr, Meant, SignalValue, Spot,
};
use cir_ast::{Kind, Text};
use cir_declare::{NewSignal, declare_component, declare_signal, declare_variable};
use cir_evaluate::{Context, Here, dims_in};
use cir_frame::{Frame, SignalEntry, World};

/// The number of what is declared.
pub fn declared_number<C>(here: &Here<C>, meant: Meant) -> Result<u32, Fault>
    ensures { Numbers (where_at here.now) meant result }
{
    match meant {
        Meant::Variable(n) | Meant::Signal(_, n) | Meant::Component(n) => Ok(n),
        Meant::Other | Meant::Template(_) | Meant::Function(_) => {
            Err(here.refused(Kind::WrongKind))
        }
    }
}

/// `var name[dimension].. = value, ..`: each is declared and set before the next one.
pub fn variables<C, M>(
    body: &Body<C, M>,
    spot: Spot,
    vs: &[DeclaredVariable],
    frame: &mut Frame,
    world: &mut World,
) -> Result<(), Fault>
where
    C: Fn(Spot, u32, Vec<Datum>, &mut World) -> Result<Datum, Fault>,
    M: Fn(Spot, u32, Vec<Datum>, &[u8], &mut World) -> Result<Vec<Option<SignalEntry>>, Fault>,
    requires calls { C.IsAlwaysCallable body.now.context.now.call.now }
    requires makes { M.IsAlwaysCallable body.now.make.now }
    ensures { (m : BodyMeans (C.post body.now.context.now.call.now) (M.post body.now.make.now)
        body.now) (qs : List Equation) → Leads qs world.old frame.new world.new result
        (S.each (S.variable_declaration (context_in body.now m) (at_spot body.now.context.now spot))
        (map bare_variable vs.now)
        (state_of frame.old world.old qs)) }
{
    for v in vs {
        variable(body, spot, v, frame, world)?;
    }
    Ok(())
}

fn variable<C, M>(
    body: &Body<C, M>,
    spot: Spot,
    v: &DeclaredVariable,
    frame: &mut Frame,
    world: &mut World,
) -> Result<(), Fault>
where
    C: Fn(Spot, u32, Vec<Datum>, &mut World) -> Result<Datum, Fault>,
    M: Fn(Spot, u32, Vec<Datum>, &[u8], &mut World) -> Result<Vec<Option<SignalEntry>>, Fault>,
    requires calls { C.IsAlwaysCallable body.now.context.now.call.now }
    requires makes { M.IsAlwaysCallable body.now.make.now }
    ensures { (m : BodyMeans (C.post body.now.context.now.call.now) (M.post body.now.make.now)
        body.now) (qs : List Equation) → Leads qs world.old frame.new world.new result
        (S.variable_declaration (context_in body.now m) (at_spot body.now.context.now spot)
        (bare_variable v.now)
        (state_of frame.old world.old qs)) }
{
    let here = body.context.here(spot);
    let n = declared_number(&here, v.meant)?;
    let dims = dims_in(&here, v.dimensions.as_slice(), frame, world)?;
    declare_variable(here.alloc(), n, dims, Filling::Zero, frame, world)?;
    match &v.value {
        None => Ok(()),
        Some(e) => {
            let p = Placed {
                meant: v.meant,
                accessors: &[],
                given: Given::Plain(e),
            };
            set(body, spot, &p, frame, world)
        }
    }
}

/// `signal input name[dimension].., ..`, also with values: each is declared, and written where it
/// has one, before the next one.
pub fn signals<C: Fn(Spot, u32, Vec<Datum>, &mut World) -> Result<Datum, Fault>>(
    context: &Context<C>,
    spot: Spot,
    direction: Direction,
    declared: &[DeclaredSignal],
    frame: &mut Frame,
    world: &mut World,
) -> Result<(), Fault>
    requires calls { C.IsAlwaysCallable context.now.call.now }
    ensures { (m : Means (C.post context.now.call.now) context.now) (qs : List Equation)
        → Leads qs world.old frame.new world.new result
        (S.each (S.signal_declaration (context_of context.now m.call m.make) spot direction)
        (map bare_signal declared.now) (state_of frame.old world.old qs)) }
{
    let here = context.here(spot);
    for d in declared {
        signal(&here, direction, d, frame, world)?;
    }
    Ok(())
}

fn signal<C: Fn(Spot, u32, Vec<Datum>, &mut World) -> Result<Datum, Fault>>(
    here: &Here<C>,
    direction: Direction,
    d: &DeclaredSignal,
    frame: &mut Frame,
    world: &mut World,
) -> Result<(), Fault>
    requires calls { C.IsAlwaysCallable here.now.context.now.call.now }
    ensures { (m : Means (C.post here.now.context.now.call.now) here.now.context.now)
        (qs : List Equation) → here.now.shaded ≡ false
        → Leads qs world.old frame.new world.new result
        (S.signal_declaration (context_at here.now m) here.now.spot direction
        (bare_signal d.now) (state_of frame.old world.old qs)) }
{
    let number = declared_number(here, d.meant)?;
    let dims = dims_in(here, d.dimensions.as_slice(), frame, world)?;
    let new = NewSignal {
        spot: here.spot,
        direction,
        number,
        name: d.name.as_slice(),
        instance: here.context.instance,
        grouping: here.context.grouping,
    };
    declare_signal(here.alloc(), &new, dims, frame, world)?;
    match &d.value {
        SignalValue::Nothing => Ok(()),
        SignalValue::Given(arrow, e) => {
            let w = Wiring {
                meant: d.meant,
                accessors: &[],
                arrow: *arrow,
                value: e,
            };
            set_signal(here, &w, frame, world)
        }
    }
}

/// `component name[dimension].., ..`, none of which is created yet.
pub fn components<C: Fn(Spot, u32, Vec<Datum>, &mut World) -> Result<Datum, Fault>>(
    here: &Here<C>,
    cs: &[DeclaredComponent],
    frame: &mut Frame,
    world: &mut World,
) -> Result<(), Fault>
    requires calls { C.IsAlwaysCallable here.now.context.now.call.now }
    ensures { (m : Means (C.post here.now.context.now.call.now) here.now.context.now)
        (qs : List Equation) → here.now.shaded ≡ false
        → Leads qs world.old frame.new world.new result
        (S.each (S.component_declaration (context_at here.now m) (where_at here.now))
        (map bare_component cs.now) (state_of frame.old world.old qs)) }
{
    for c in cs {
        component(here, c, frame, world)?;
    }
    Ok(())
}

fn component<C: Fn(Spot, u32, Vec<Datum>, &mut World) -> Result<Datum, Fault>>(
    here: &Here<C>,
    c: &DeclaredComponent,
    frame: &mut Frame,
    world: &mut World,
) -> Result<(), Fault>
    requires calls { C.IsAlwaysCallable here.now.context.now.call.now }
    ensures { (m : Means (C.post here.now.context.now.call.now) here.now.context.now)
        (qs : List Equation) → here.now.shaded ≡ false
        → Leads qs world.old frame.new world.new result
        (S.component_declaration (context_at here.now m) (where_at here.now)
        (bare_component c.now) (state_of frame.old world.old qs)) }
{
    let n = declared_number(here, c.meant)?;
    let dims = dims_in(here, c.dimensions.as_slice(), frame, world)?;
    declare_component(here.alloc(), n, c.name.as_slice(), dims, frame, world)?;
    Ok(())
}

/// A component that is declared and created at once.
pub fn created<C, M>(
    body: &Body<C, M>,
    spot: Spot,
    name: &Text,
    meant: Meant,
    e: &Expr,
    frame: &mut Frame,
    world: &mut World,
) -> Result<(), Fault>
where
    C: Fn(Spot, u32, Vec<Datum>, &mut World) -> Result<Datum, Fault>,
    M: Fn(Spot, u32, Vec<Datum>, &[u8], &mut World) -> Result<Vec<Option<SignalEntry>>, Fault>,
    requires calls { C.IsAlwaysCallable body.now.context.now.call.now }
    requires makes { M.IsAlwaysCallable body.now.make.now }
    ensures { (m : BodyMeans (C.post body.now.context.now.call.now) (M.post body.now.make.now)
        body.now) (qs : List Equation) → Leads qs world.old frame.new world.new result
        (S.declared_number (at_spot body.now.context.now spot) meant (λ n.
        next (D.creation (context_in body.now m) (at_spot body.now.context.now spot) n done
        (bare e.now)
        (D.declare_component n name.now [] (state_of frame.old world.old qs)))
        (D.create (context_in body.now m) (at_spot body.now.context.now spot)))) }
{
    let here = body.context.here(spot);
    let n = declared_number(&here, meant)?;
    let no_dims = Vec::new(here.alloc());
    declare_component(here.alloc(), n, name.as_slice(), no_dims, frame, world)?;
    create(body, spot, n, &[], e, frame, world)
}

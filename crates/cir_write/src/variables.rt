//! Declarations of variables, and assignments to them.
ghost use Rattle.std.specs.Prelude.{◌≡◌, ◌≢◌, ℕ, List, false, map, slice_get, IfOk};
ghost use Rattle.cir_ast.specs.Tree.{bare_variable};
ghost use Rattle.cir_meaning.specs.Source.{Equation};
ghost use Rattle.cir_frame.specs.Shown.{state_of};
ghost use Rattle.cir_assign.specs.Leads.{Leads};
ghost use Rattle.cir_evaluate.specs.Within.{Means, at_spot, context_at, where_at};
ghost use Rattle.cir_steps.specs.Emission.{Emitted, emit_known};
ghost use Rattle.cir_steps.specs.Emit as E;
ghost use Rattle.cir_write.specs.Declarations.{IsDeclared, declared_variable};
ghost use Rattle.cir_make.specs.Emits.{Emits, go_on};
ghost use Rattle.cir_make.specs.Means.{BodyMeans, emitting_in};
ghost use Rattle.cir_make.specs.Shows.{Shows};

use crate::setting::set;
use cir_arrays::{Datum, Fault, Filling};
use cir_assign::{Given, Placed};
use cir_ast::program::{DeclaredVariable, Spot};
use cir_create::declared_number;
use cir_declare::declare_variable;
use cir_evaluate::{Here, dims_in};
use cir_frame::{Frame, World};
use cir_make::{Body, Cast, Inside, VariableCells, Whole};

/// Declares variables one after the other, and assigns those that have a value.
pub fn variables<C, M>(
    body: &Body<C, M>,
    spot: Spot,
    vs: &[DeclaredVariable],
    inside: &mut Inside,
    whole: &mut Whole,
) -> Result<(), Fault>
where
    C: Fn(Spot, u32, Vec<Datum>, &mut World) -> Result<Datum, Fault>,
    M: Fn(Spot, u32, Vec<Datum>, &[u8], &mut Whole) -> Result<Cast, Fault>,
    requires calls { C.IsAlwaysCallable body.now.context.now.call.now }
    requires makes { M.IsAlwaysCallable body.now.make.now }
    ensures { (m : BodyMeans (C.post body.now.context.now.call.now) (M.post body.now.make.now)
        body.now) (d : Emitted) → Shows m.first inside.old whole.old d
        → Emits m.first inside.new whole.new result
        (go_on d (E.emit_each (E.emit_variable (emitting_in body.now m)
        (at_spot body.now.context.now spot)) (map bare_variable vs.now))) }
{
    for v in vs {
        variable(body, spot, v, inside, whole)?;
    }
    Ok(())
}

/// A declaration comes first, and its name is seen in its value.
fn variable<C, M>(
    body: &Body<C, M>,
    spot: Spot,
    v: &DeclaredVariable,
    inside: &mut Inside,
    whole: &mut Whole,
) -> Result<(), Fault>
where
    C: Fn(Spot, u32, Vec<Datum>, &mut World) -> Result<Datum, Fault>,
    M: Fn(Spot, u32, Vec<Datum>, &[u8], &mut Whole) -> Result<Cast, Fault>,
    requires calls { C.IsAlwaysCallable body.now.context.now.call.now }
    requires makes { M.IsAlwaysCallable body.now.make.now }
    ensures { (m : BodyMeans (C.post body.now.context.now.call.now) (M.post body.now.make.now)
        body.now) (d : Emitted) → Shows m.first inside.old whole.old d
        → Emits m.first inside.new whole.new result
        (go_on d (E.emit_variable (emitting_in body.now m) (at_spot body.now.context.now spot)
        (bare_variable v.now))) }
{
    declare(body, spot, v, inside, whole)?;
    match &v.value {
        None => Ok(()),
        Some(e) => {
            let p = Placed {
                meant: v.meant,
                accessors: &[],
                given: Given::Plain(e),
            };
            set(body, spot, &p, inside, whole)
        }
    }
}

/// Its elements are 0.
fn declare<C, M>(
    body: &Body<C, M>,
    spot: Spot,
    v: &DeclaredVariable,
    inside: &mut Inside,
    whole: &mut Whole,
) -> Result<(), Fault>
where
    C: Fn(Spot, u32, Vec<Datum>, &mut World) -> Result<Datum, Fault>,
    M: Fn(Spot, u32, Vec<Datum>, &[u8], &mut Whole) -> Result<Cast, Fault>,
    requires calls { C.IsAlwaysCallable body.now.context.now.call.now }
    requires makes { M.IsAlwaysCallable body.now.make.now }
    ensures { (m : BodyMeans (C.post body.now.context.now.call.now) (M.post body.now.make.now)
        body.now) (d : Emitted) → Shows m.first inside.old whole.old d
        → Emits m.first inside.new whole.new result
        (go_on d (emit_known (declared_variable (emitting_in body.now m).context
        (at_spot body.now.context.now spot) (bare_variable v.now)))) }
{
    let here = body.context.here(spot);
    let n = declare_elements(&here, v, &mut inside.frame, &mut whole.world)?;
    find(&mut inside.cells.variables, n);
    Ok(())
}

/// The number of the variable.
fn declare_elements<C: Fn(Spot, u32, Vec<Datum>, &mut World) -> Result<Datum, Fault>>(
    here: &Here<C>,
    v: &DeclaredVariable,
    frame: &mut Frame,
    world: &mut World,
) -> Result<u32, Fault>
    requires calls { C.IsAlwaysCallable here.now.context.now.call.now }
    ensures leads { (m : Means (C.post here.now.context.now.call.now) here.now.context.now)
        (qs : List Equation) → here.now.shaded ≡ false
        → Leads qs world.old frame.new world.new result
        (declared_variable (context_at here.now m) (where_at here.now) (bare_variable v.now)
        (state_of frame.old world.old qs)) }
    ensures declared { IfOk result (λ n. IsDeclared frame.old frame.new n) }
{
    let n = declared_number(here, v.meant)?;
    let dims = dims_in(here, v.dimensions.as_slice(), frame, world)?;
    declare_variable(here.alloc(), n, dims, Filling::Zero, frame, world)?;
    Ok(n)
}

/// What is declared can be named.
fn find(variables: &mut Vec<VariableCells>, n: u32)
    ensures { (m : ℕ) → m ≢ n
        → slice_get variables.new.items m ≡ slice_get variables.old.items m }
{
    if (n as usize) < variables.len() {
        variables[n as usize].is_lost = false;
    }
}

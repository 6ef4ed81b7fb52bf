//! Declarations of components.
ghost use Rattle.std.specs.Prelude.{◌≡◌, List, map, false, OnOk};
ghost use Rattle.cir_ast.specs.Tree.{bare_component};
ghost use Rattle.cir_meaning.specs.Source.{Equation};
ghost use Rattle.cir_meaning.specs.Simple as X;
ghost use Rattle.cir_frame.specs.Shown.{state_of};
ghost use Rattle.cir_assign.specs.Leads.{Leads};
ghost use Rattle.cir_evaluate.specs.Within.{Means, at_spot, context_at, where_at};
ghost use Rattle.cir_steps.specs.Emission.{Emitted, emit_known};
ghost use Rattle.cir_steps.specs.Emit as E;
ghost use Rattle.cir_make.specs.Emits.{Emits, go_on};
ghost use Rattle.cir_make.specs.Means.{BodyMeans, emitting_in};
ghost use Rattle.cir_make.specs.Shows.{SameBody, Shows};

use cir_arrays::{Datum, Fault};
use cir_ast::program::{DeclaredComponent, Spot};
use cir_create::declared_number;
use cir_declare::declare_component;
use cir_evaluate::{Here, dims_in};
use cir_frame::{Frame, World};
use cir_make::{Body, Cast, Inside, Whole};

/// Declares components, none of which is created yet.
pub fn components<C, M>(
    body: &Body<C, M>,
    spot: Spot,
    cs: &[DeclaredComponent],
    inside: &mut Inside,
    whole: &mut Whole,
) -> Result<(), Fault>
where
    C: Fn(Spot, u32, Vec<Datum>, &mut World) -> Result<Datum, Fault>,
    M: Fn(Spot, u32, Vec<Datum>, &[u8], &mut Whole) -> Result<Cast, Fault>,
    requires calls { C.IsAlwaysCallable body.now.context.now.call.now }
    requires makes { M.IsAlwaysCallable body.now.make.now }
    ensures { (m : BodyMeans (C.post body.now.context.now.call.now) (M.post body.now.make.now)
        body.now) (d : Emitted) → Shows m.first inside.old whole.old d
        → Emits m.first inside.new whole.new result
        (go_on d (E.emit_each (λ c. emit_known (X.component_declaration
        (emitting_in body.now m).context (at_spot body.now.context.now spot) c))
        (map bare_component cs.now))) }
{
    for c in cs {
        component(body, spot, c, inside, whole)?;
    }
    Ok(())
}

fn component<C, M>(
    body: &Body<C, M>,
    spot: Spot,
    c: &DeclaredComponent,
    inside: &mut Inside,
    whole: &mut Whole,
) -> Result<(), Fault>
where
    C: Fn(Spot, u32, Vec<Datum>, &mut World) -> Result<Datum, Fault>,
    M: Fn(Spot, u32, Vec<Datum>, &[u8], &mut Whole) -> Result<Cast, Fault>,
    requires calls { C.IsAlwaysCallable body.now.context.now.call.now }
    requires makes { M.IsAlwaysCallable body.now.make.now }
    ensures { (m : BodyMeans (C.post body.now.context.now.call.now) (M.post body.now.make.now)
        body.now) (d : Emitted) → Shows m.first inside.old whole.old d
        → Emits m.first inside.new whole.new result
        (go_on d (emit_known (X.component_declaration
        (emitting_in body.now m).context (at_spot body.now.context.now spot)
        (bare_component c.now)))) }
{
    let here = body.context.here(spot);
    declare(&here, c, &mut inside.frame, &mut whole.world)
}

fn declare<C: Fn(Spot, u32, Vec<Datum>, &mut World) -> Result<Datum, Fault>>(
    here: &Here<C>,
    c: &DeclaredComponent,
    frame: &mut Frame,
    world: &mut World,
) -> Result<(), Fault>
    requires calls { C.IsAlwaysCallable here.now.context.now.call.now }
    ensures leads { (m : Means (C.post here.now.context.now.call.now) here.now.context.now)
        (qs : List Equation) → here.now.shaded ≡ false
        → Leads qs world.old frame.new world.new result
        (X.component_declaration (context_at here.now m) (where_at here.now)
        (bare_component c.now) (state_of frame.old world.old qs)) }
    ensures same { OnOk result (SameBody frame.old frame.new) }
{
    let n = declared_number(here, c.meant)?;
    let dims = dims_in(here, c.dimensions.as_slice(), frame, world)?;
    declare_component(here.alloc(), n, c.name.as_slice(), dims, frame, world)?;
    Ok(())
}

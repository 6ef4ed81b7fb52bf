//! The creation of components. Its steps are made, and wait for its inputs.
ghost use Rattle.std.specs.Prelude.{◌≡◌, List, length, IfOk};
ghost use Rattle.cir_ast.specs.Tree.{Created, as_accessors, bare};
ghost use Rattle.cir_frame.specs.Shown.{state_of};
ghost use Rattle.cir_meaning.specs.Tried.{next};
ghost use Rattle.cir_meaning.specs.Source.{Equation};
ghost use Rattle.cir_meaning.specs.Declaring as D;
ghost use Rattle.cir_evaluate.specs.Within.{at_spot};
ghost use Rattle.cir_create.specs.Declares.{IsCreation};
ghost use Rattle.cir_assign.specs.Leads.{IsListed};
ghost use Rattle.cir_steps.specs.Step as S;
ghost use Rattle.cir_steps.specs.Emission.{Emission, Emitted, behind};
ghost use Rattle.cir_steps.specs.Emit as E;
ghost use Rattle.cir_make.specs.Emits.{Emits, go_on};
ghost use Rattle.cir_make.specs.Means.{BodyMeans, emitting_in};
ghost use Rattle.cir_make.specs.Shows.{IsKept, Shows};

use crate::signals::number_of;
use crate::wiring::free;
use cir_arrays::{Datum, Fault};
use cir_ast::program::{Accessor, Expr, Meant, Spot};
use cir_ast::{Form, Kind, Text};
use cir_create::{Creation, created_at, may_be, path_of, template_call};
use cir_declare::{add_part, declare_component, opened};
use cir_evaluate::{arguments_in, indices_in};
use cir_frame::World;
use cir_make::{Body, Cast, Inside, PartCells, Whole};
use numbers::narrow;
use std::alloc::AllocError;

/// A component without dimensions is declared and created.
pub fn created<C, M>(
    body: &Body<C, M>,
    spot: Spot,
    name: &Text,
    meant: Meant,
    e: &Expr,
    inside: &mut Inside,
    whole: &mut Whole,
) -> Result<(), Fault>
where
    C: Fn(Spot, u32, Vec<Datum>, &mut World) -> Result<Datum, Fault>,
    M: Fn(Spot, u32, Vec<Datum>, &[u8], &mut Whole) -> Result<Cast, Fault>,
    requires calls { C.IsAlwaysCallable body.now.context.now.call.now }
    requires makes { M.IsAlwaysCallable body.now.make.now }
    ensures { (m : BodyMeans (C.post body.now.context.now.call.now) (M.post body.now.make.now)
        body.now) (d : Emitted)
        → Shows m.first inside.old whole.old d
        → Emits m.first inside.new whole.new result
        (go_on d (E.emit_execute (emitting_in body.now m) spot
        (Created name.now meant (bare e.now)))) }
{
    let here = body.context.here(spot);
    let n = number_of(&here, meant)?;
    let no_dims = Vec::new(here.alloc());
    declare_component(
        here.alloc(),
        n,
        name.as_slice(),
        no_dims,
        &mut inside.frame,
        &mut whole.world,
    )?;
    create(body, spot, n, &[], e, inside, whole)
}

/// `place = T(arguments)`: the arguments come before the indices of the place.
pub fn create<C, M>(
    body: &Body<C, M>,
    spot: Spot,
    n: u32,
    accessors: &[Accessor],
    e: &Expr,
    inside: &mut Inside,
    whole: &mut Whole,
) -> Result<(), Fault>
where
    C: Fn(Spot, u32, Vec<Datum>, &mut World) -> Result<Datum, Fault>,
    M: Fn(Spot, u32, Vec<Datum>, &[u8], &mut Whole) -> Result<Cast, Fault>,
    requires calls { C.IsAlwaysCallable body.now.context.now.call.now }
    requires makes { M.IsAlwaysCallable body.now.make.now }
    ensures { (m : BodyMeans (C.post body.now.context.now.call.now) (M.post body.now.make.now)
        body.now) (d : Emitted)
        → Shows m.first inside.old whole.old d
        → Emits m.first inside.new whole.new result
        (go_on d (E.emit_create (emitting_in body.now m) (at_spot body.now.context.now spot) n
        (as_accessors accessors.now) (bare e.now))) }
{
    let here = body.context.here(spot);
    let Some((template, arguments)) = template_call(e) else {
        return Err(here.refused(Kind::WrongKind));
    };
    let arguments = arguments_in(&here, arguments, &inside.frame, &mut whole.world)?;
    let indices = indices_in(&here, accessors, &inside.frame, &mut whole.world)?;
    let c = created_at(
        &here,
        n,
        indices.as_slice(),
        template,
        arguments,
        &inside.frame,
    )?;
    create_at(body, spot, c, inside, whole)
}

/// A component is created once, below at most 255 others, and of the template of the others in its
/// array; then its body is executed.
fn create_at<C, M>(
    body: &Body<C, M>,
    spot: Spot,
    c: Creation,
    inside: &mut Inside,
    whole: &mut Whole,
) -> Result<(), Fault>
where
    C: Fn(Spot, u32, Vec<Datum>, &mut World) -> Result<Datum, Fault>,
    M: Fn(Spot, u32, Vec<Datum>, &[u8], &mut Whole) -> Result<Cast, Fault>,
    requires calls { C.IsAlwaysCallable body.now.context.now.call.now }
    requires makes { M.IsAlwaysCallable body.now.make.now }
    ensures { (m : BodyMeans (C.post body.now.context.now.call.now) (M.post body.now.make.now)
        body.now) (x : D.Creation) (qs : List Equation) (z : Emission) (steps : List S.Step)
        → IsCreation (state_of inside.old.frame whole.old.world qs) c x
        → IsListed qs whole.old.world
        → IsKept m.first inside.old.frame inside.old.cells whole.old.made z steps
        → Emits m.first inside.new whole.new result (behind steps (next
        (D.create (emitting_in body.now m).context (at_spot body.now.context.now spot) x)
        (λ s. E.emit_created (emitting_in body.now m) (at_spot body.now.context.now spot) x
        x.places s z))) }
{
    let here = body.context.here(spot);
    let Creation {
        component,
        indices,
        place,
        template,
        arguments,
    } = c;
    let Some(place) = place else {
        return Err(Fault::OutOfMemory);
    };
    let alloc = here.alloc();
    let Some(entry) = inside.frame.component(component) else {
        return Err(here.refused(Kind::ReadBeforeWrite));
    };
    if entry.part(place).is_some() {
        return Err(here.refused(Kind::SecondWrite));
    }
    if !body.may_make {
        return Err(here.refused(Kind::TooDeep));
    }
    if !may_be(template, entry, &inside.frame) {
        let form = Form::MixedComponents;
        return Err(here.refused(Kind::NotInProfile { form }));
    }
    let name = entry.name.as_slice();
    let path = path_of(alloc, body.context.path, name, indices.as_slice())?;
    let cast = (body.make)(spot, template, arguments, path.as_slice(), whole)?;
    let Cast {
        signals,
        ports,
        inside: homes,
        steps,
    } = cast;
    let part = opened(spot, template, signals);
    add_part(component, place, part, &mut inside.frame)?;
    let j = narrow(inside.cells.parts.as_slice().len() as u64)?;
    inside.cells.parts.push(PartCells {
        ports,
        inside: homes,
        steps,
    })?;
    free(Some(j), false, &inside.frame, &mut inside.cells)?;
    Ok(())
}

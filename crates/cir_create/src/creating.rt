//! The creation of components.
ghost use Rattle.std.specs.Prelude.{◌≡◌, ◌++◌, ℕ, Bool, List, Option, map, false};
ghost use Rattle.std.specs.Prelude.{codes, IfOk};
ghost use Rattle.cir_ast.specs.Tree.{Call, Exprs, as_accessors, bare, bare_exprs};
ghost use Rattle.cir_arrays.specs.Shown.{datum_of};
ghost use Rattle.cir_frame.specs.Shown.{frame_of, state_of};
ghost use Rattle.cir_meaning.specs.Tried.{Tried, Where, next};
ghost use Rattle.cir_meaning.specs.Source.{Equation};
ghost use Rattle.cir_meaning.specs.Frame.{State};
ghost use Rattle.cir_meaning.specs.Limits.{Counts as AnyCounts};
ghost use Rattle.cir_meaning.specs.Places.{brackets};
ghost use Rattle.cir_meaning.specs.Declaring as D;
ghost use Rattle.cir_evaluate.specs.Within.{at_spot, where_at};
ghost use Rattle.cir_assign.specs.Leads.{Leads};
ghost use Rattle.cir_create.specs.Makes.{BodyMeans, context_in};
ghost use Rattle.cir_create.specs.Declares.{Creates, IsCreation, place_by, told_call};

use crate::body::Body;
use cir_arrays::{Datum, Fault, Meaning, Want, all_known, reach_of};
use cir_ast::program::{Accessor, Expr, Meant, Spot};
use cir_ast::{Form, Kind, Text};
use cir_declare::{add_part, opened};
use cir_evaluate::{Here, arguments_in, indices_in, reading};
use cir_frame::{ComponentEntry, Frame, SignalEntry, World};
use cir_values::indexed;
use std::alloc::{AllocError, Global};

/// What is to be created, and where.
#[derive(Drop)]
pub struct Creation {
    pub component: u32,
    pub indices: Vec<u64>,
    /// The element's place in row order.
    pub place: Option<u64>,
    pub template: u32,
    pub arguments: Vec<Datum>,
}

/// `place = T(arguments)`: the arguments come before the indices of the place.
pub fn create<C, M>(
    body: &Body<C, M>,
    spot: Spot,
    n: u32,
    accessors: &[Accessor],
    e: &Expr,
    frame: &mut Frame,
    world: &mut World,
) -> Result<(), Fault>
where
    C: Fn(Spot, u32, Vec<Datum>, &mut World) -> Result<Datum, Fault>,
    M: Fn(Spot, u32, Vec<Datum>, &[u8], &mut World) -> Result<Vec<Option<SignalEntry>>, Fault>,
    requires calls { C.IsAlwaysCallable body.now.context.now.call.now }
    requires makes { M.IsAlwaysCallable body.now.make.now }
    ensures { (m : BodyMeans (C.post body.now.context.now.call.now) (M.post body.now.make.now)
        body.now) (qs : List Equation) → Leads qs world.old frame.new world.new result
        (next (D.creation (context_in body.now m) (at_spot body.now.context.now spot) n
        (as_accessors accessors.now) (bare e.now) (state_of frame.old world.old qs))
        (D.create (context_in body.now m) (at_spot body.now.context.now spot))) }
{
    let here = body.context.here(spot);
    let Some((template, arguments)) = template_call(e) else {
        return Err(here.refused(Kind::WrongKind));
    };
    let arguments = arguments_in(&here, arguments, frame, world)?;
    let indices = indices_in(&here, accessors, frame, world)?;
    let c = created_at(&here, n, indices.as_slice(), template, arguments, frame)?;
    create_at(body, spot, c, frame, world)
}

/// The template and the arguments of a call, through parentheses.
pub fn template_call(e: &Expr) -> Option<(u32, &[Expr])>
    ensures { (w : Where) (go : ℕ → Exprs Meant → Tried D.Creation)
        → D.template_call w (bare e.now) go ≡ told_call w result go }
{
    match e {
        Expr::Parentheses(inner) => template_call(inner),
        Expr::Call(_, _, meant, arguments) => called_template(*meant, arguments.as_slice()),
        _ => None,
    }
}

/// Of a call by its name.
fn called_template(meant: Meant, arguments: &[Expr]) -> Option<(u32, &[Expr])>
    ensures { (w : Where) (parallel : Bool) (name : List ℕ)
        (go : ℕ → Exprs Meant → Tried D.Creation)
        → D.template_call w (Call parallel name meant (bare_exprs arguments.now)) go
        ≡ told_call w result go }
{
    match meant {
        Meant::Template(t) => Some((t, arguments)),
        Meant::Other
        | Meant::Variable(_)
        | Meant::Signal(_, _)
        | Meant::Component(_)
        | Meant::Function(_) => None,
    }
}

/// All indices of a created component must be known.
pub fn created_at<C>(
    here: &Here<C>,
    n: u32,
    indices: &[Option<u64>],
    template: u32,
    arguments: Vec<Datum>,
    frame: &Frame,
) -> Result<Creation, Fault>
    ensures { (s : State) → s.frame ≡ frame_of frame.now s.frame.added
        → Creates s result (D.created_at (where_at here.now) n indices.now template
        (map datum_of arguments.items) s) }
{
    let Some(entry) = frame.component(n) else {
        return Err(here.refused(Kind::ReadBeforeWrite));
    };
    let Some(numbers) = all_known(here.alloc(), indices)? else {
        return Err(here.refused(Kind::UnknownIndex));
    };
    let dims = entry.dims.as_slice();
    let site = here.site();
    let r = reading(&site, false, indices);
    let reach = reach_of(here.alloc(), r.site, false, Want::Scalar, dims, r.indices)?;
    Ok(Creation {
        component: n,
        indices: numbers,
        place: place_of(reach.part),
        template,
        arguments,
    })
}

fn place_of(part: Meaning) -> Option<u64>
    ensures { result ≡ place_by part }
{
    match part {
        Meaning::Known { first, count: _ } => Some(first),
        Meaning::Unknown | Meaning::Outside => None,
    }
}

/// A component is created once, below at most 255 others, and of the template of the others in its
/// array; then its body is executed.
fn create_at<C, M>(
    body: &Body<C, M>,
    spot: Spot,
    c: Creation,
    frame: &mut Frame,
    world: &mut World,
) -> Result<(), Fault>
where
    C: Fn(Spot, u32, Vec<Datum>, &mut World) -> Result<Datum, Fault>,
    M: Fn(Spot, u32, Vec<Datum>, &[u8], &mut World) -> Result<Vec<Option<SignalEntry>>, Fault>,
    requires calls { C.IsAlwaysCallable body.now.context.now.call.now }
    requires makes { M.IsAlwaysCallable body.now.make.now }
    ensures { (m : BodyMeans (C.post body.now.context.now.call.now) (M.post body.now.make.now)
        body.now) (x : D.Creation) (qs : List Equation) →
        IsCreation (state_of frame.old world.old qs) c x
        → Leads qs world.old frame.new world.new result
        (D.create (context_in body.now m) (at_spot body.now.context.now spot) x) }
{
    let here = body.context.here(spot);
    let Creation {
        component,
        indices,
        place,
        template,
        arguments,
    } = c;
    let Some(place) = place else {
        return Ok(());
    };
    let alloc = here.alloc();
    let Some(entry) = frame.component(component) else {
        return Err(here.refused(Kind::ReadBeforeWrite));
    };
    if entry.part(place).is_some() {
        return Err(here.refused(Kind::SecondWrite));
    }
    if !body.may_make {
        return Err(here.refused(Kind::TooDeep));
    }
    if !may_be(template, entry, frame) {
        let form = Form::MixedComponents;
        return Err(here.refused(Kind::NotInProfile { form }));
    }
    let path = path_of(
        alloc,
        body.context.path,
        entry.name.as_slice(),
        indices.as_slice(),
    )?;
    let signals = (body.make)(spot, template, arguments, path.as_slice(), world)?;
    let part = opened(spot, template, signals);
    add_part(component, place, part, frame)?;
    Ok(())
}

/// Whether elements of one array are of this template: those that are created have one template.
pub fn may_be(template: u32, entry: &ComponentEntry, frame: &Frame) -> bool
    ensures { (c : AnyCounts) → result
        ≡ D.may_be template (D.template_of (frame_of frame.now c).parts entry.now.parts.items) }
{
    let Some(first) = entry.first else {
        return true;
    };
    match entry.part(first as u64) {
        Some(j) => match frame.part(j) {
            Some(part) => template == part.template,
            None => true,
        },
        None => true,
    }
}

/// The path of an element of a component, in an instance of this path.
pub fn path_of(alloc: Global, path: &[u8], name: &[u8], indices: &[u64]) -> Result<Text, AllocError>
    ensures { IfOk result (λ text. text
        ≡ path.now ++ (codes "." ++ (name.now ++ brackets indices.now))) }
{
    let mut base = Vec::from_slice(alloc, path)?;
    base.push(b'.')?;
    base.extend_from_slice(name)?;
    let text = indexed(alloc, base.as_slice(), indices)?;
    Ok(text)
}

//! The bodies of components, with their steps. Templates are open at most 256 deep.
ghost use Rattle.std.specs.Prelude.{◌≡◌, ◌-◌, ℕ, List, [], length, map, Some, IfOk, OnOk};
ghost use Rattle.std.specs.Prelude.{slice_get};
ghost use Rattle.cir_ast.specs.Program.{bare_program, bare_template};
ghost use Rattle.cir_meaning.specs.Bodies.{call_at, make_at, most_open};
ghost use Rattle.cir_meaning.specs.Compile.{group_size};
ghost use Rattle.cir_meaning.specs.Costs.{Made as Key};
ghost use Rattle.cir_meaning.specs.Frame as F;
ghost use Rattle.cir_meaning.specs.Limits.{nothing};
ghost use Rattle.cir_meaning.specs.Scoped.{IsResolved};
ghost use Rattle.cir_meaning.specs.Source.{Equation};
ghost use Rattle.cir_arrays.specs.Counted.{counts_of};
ghost use Rattle.cir_arrays.specs.Stopped.{Gives, where_of};
ghost use Rattle.cir_arrays.specs.Shown.{datum_of};
ghost use Rattle.cir_frame.specs.Shown.{group_by, world_of};
ghost use Rattle.cir_evaluate.specs.Within.{kept_of};
ghost use Rattle.cir_assign.specs.Leads.{IsListed};
ghost use Rattle.cir_inst.specs.Opened.{maker_of};
ghost use Rattle.cir_steps.specs.Statements.{cast_at};
ghost use Rattle.cir_make.specs.declared.whole.Whole.{Whole as AnyWhole};
ghost use Rattle.cir_body.specs.Bodies.{AreWithoutCells, Follows, body_cast, emission_at};
ghost use Rattle.cir_body.specs.Bodies.{template_cast};
ghost use Rattle.cir_make.specs.Means.{BodyMeans, Casts, emitting_in, made_by};
ghost use Rattle.cir_make.specs.Shows.{Shows, keys_of};

use crate::statement::execute_all;
use cir_arrays::{Counts, Datum, Fault, Site};
use cir_ast::Kind;
use cir_ast::program::{Spot, Template};
use cir_declare::{Room, begun};
use cir_frame::{Grouping, World};
use cir_homes::homes_inside;
use cir_inst::{
    MOST_OPEN, Opening, Place, all_ended, call_function, context_in, more_than, new_instance,
};
use cir_make::{Body, Cast, Cells, Inside, VariableCells, Whole};
use std::alloc::{AllocError, Global};

/// A template is made into a component of this path, by a statement at this place, with its steps.
#[cycle(casting)]
fn cast_component<'x>(
    opening: Opening<'x>,
    site: Site<'x>,
    t: u32,
    arguments: Vec<Datum>,
    path: &'x [u8],
    whole: &mut Whole,
) -> Result<Cast, Fault>
    ensures casts { (qs : List Equation) → IsResolved (bare_program opening.entry.program.now)
        → IsListed qs whole.old.world → Casts qs whole.old whole.new result
        (made_by (maker_of (make_at (bare_program opening.entry.program.now) group_size
        opening.entry.room))
        (cast_at (bare_program opening.entry.program.now) group_size opening.entry.room)
        (where_of site.entry) t (map datum_of arguments.items) path.now
        (world_of whole.old.world qs) whole.old.made.next) }
    ensures added { OnOk result (whole.new.world.added ≡ whole.old.world.added) }
{
    if opening.room == 0 {
        return Err(site.refused(opening.alloc, Kind::TooDeep));
    }
    let Some(template) = opening.program.templates.get(t as usize) else {
        return Err(site.refused(opening.alloc, Kind::WrongKind));
    };
    let inside = opening.inside(opening.room - 1);
    let grouping = Grouping::Inside;
    cast_template(inside, template, &grouping, arguments, path, whole)
}

/// A template that is executed as an instance of this path, with its steps. What its statements add
/// is counted, and nothing else is added.
#[cycle(casting)]
pub fn cast_template<'x>(
    opening: Opening<'x>,
    template: &'x Template,
    grouping: &'x Grouping<'x>,
    arguments: Vec<Datum>,
    path: &'x [u8],
    whole: &mut Whole,
) -> Result<Cast, Fault>
    ensures casts { (qs : List Equation) (n : ℕ)
        → IsResolved (bare_program opening.entry.program.now)
        → slice_get (bare_program opening.entry.program.now).templates n
        ≡ Some (bare_template template.now)
        → IsListed qs whole.old.world → Casts qs whole.old whole.new result
        (template_cast (bare_program opening.entry.program.now) (call_at
        (bare_program opening.entry.program.now) group_size most_open)
        (make_at (bare_program opening.entry.program.now) group_size opening.entry.room)
        (group_by grouping.now)
        (cast_at (bare_program opening.entry.program.now) group_size opening.entry.room)
        (bare_template template.now) (map datum_of arguments.items)
        path.now (world_of whole.old.world qs) whole.old.made.next) }
    ensures added { OnOk result (whole.new.world.added ≡ whole.old.world.added) }
{
    let alloc = opening.alloc;
    let file = template.file;
    let added = whole.world.added;
    whole.world.added = Counts::NOTHING;
    let instance = new_instance(alloc, path, &mut whole.world)?;
    let functions = opening.inside(MOST_OPEN);
    let call = |spot: Spot, f: u32, arguments: Vec<Datum>, world: &mut World| -> Result<
        Datum,
        Fault,
    >
        ensures gives { (qs : List Equation) → Gives (λ d. (datum_of d, world_of world.new qs))
            result
            (call_at (bare_program functions.entry.program.now) group_size functions.entry.room
            record { file = file; spot = spot; instance = instance; path = path.entry.now }
            f (map datum_of arguments.items) (world_of world.old qs)) }
        ensures added { world.new.added ≡ world.old.added }
        ensures keeps { kept_of world.new ≡ kept_of world.old }
    {
        let site = Site {
            file,
            spot,
            instance,
            path,
        };
        call_function(functions, site, f, arguments, world)
    };
    let make = |spot: Spot, t: u32, arguments: Vec<
        Datum,
    >, inner: &[u8], whole: &mut Whole| -> Result<Cast, Fault>
        ensures casts { (qs : List Equation) → IsResolved (bare_program opening.entry.program.now)
            → IsListed qs whole.old.world → Casts qs whole.old whole.new result
            (made_by (maker_of (make_at (bare_program opening.entry.program.now) group_size
            opening.entry.room))
            (cast_at (bare_program opening.entry.program.now) group_size opening.entry.room)
            record { file = file; spot = spot; instance = instance; path = path.entry.now }
            t (map datum_of arguments.items) inner.now (world_of whole.old.world qs)
            whole.old.made.next) }
        ensures added { OnOk result (whole.new.world.added ≡ whole.old.world.added) }
    {
        let site = Site {
            file,
            spot,
            instance,
            path,
        };
        cast_component(opening, site, t, arguments, inner, whole)
    };
    let place = Place {
        file,
        instance,
        components: template.components,
    };
    let context = context_in(&*opening.program, alloc, place, &*path, &*grouping, &call);
    let body = Body {
        context: &context,
        make: &make,
        may_make: opening.room > 0,
    };
    let cast = cast_body(&body, template, arguments, whole)?;
    whole.world.added = added;
    Ok(cast)
}

/// A body begins without cells.
fn begin_body(
    alloc: Global,
    template: &Template,
    arguments: Vec<Datum>,
) -> Result<Inside, AllocError>
    ensures { IfOk result (λ inside. (first : List Key) (w : AnyWhole) (qs : List Equation)
        (s : F.State) → s ≡ record {
          frame = F.begun (map datum_of arguments.items)
              (template.now.variables - length arguments.items) template.now.signals
              template.now.components;
          world = world_of w.world qs;
        }
        → first ≡ keys_of w.made → counts_of w.world.added ≡ nothing → IsListed qs w.world
        → Shows first inside w record { state = emission_at s w.made.next; steps = [] }) }
{
    let room = Room {
        variables: more_than(template.variables, arguments.len()),
        signals: template.signals,
        components: template.components,
    };
    let frame = begun(alloc, arguments, room)?;
    let variables = without_cells(alloc, frame.variables.len())?;
    Ok(Inside {
        frame,
        cells: Cells {
            variables,
            signals: Vec::new(alloc),
            parts: Vec::new(alloc),
            steps: Vec::new(alloc),
        },
    })
}

/// So many variables whose elements are known.
fn without_cells(alloc: Global, count: usize) -> Result<Vec<VariableCells>, AllocError>
    ensures many { IfOk result (λ variables. length variables.items ≡ count) }
    ensures none { IfOk result (λ variables. AreWithoutCells variables.items) }
{
    let mut variables = Vec::new(alloc);
    for _at in 0..count {
        variables.push(VariableCells {
            sources: Vec::new(alloc),
            is_lost: false,
        })?;
    }
    Ok(variables)
}

/// A body begins, is executed and ends.
fn cast_body<C, M>(
    body: &Body<C, M>,
    template: &Template,
    arguments: Vec<Datum>,
    whole: &mut Whole,
) -> Result<Cast, Fault>
where
    C: Fn(Spot, u32, Vec<Datum>, &mut World) -> Result<Datum, Fault>,
    M: Fn(Spot, u32, Vec<Datum>, &[u8], &mut Whole) -> Result<Cast, Fault>,
    requires calls { C.IsAlwaysCallable body.now.context.now.call.now }
    requires makes { M.IsAlwaysCallable body.now.make.now }
    requires added { counts_of whole.old.world.added ≡ nothing }
    ensures { (m : BodyMeans (C.post body.now.context.now.call.now) (M.post body.now.make.now)
        body.now) (qs : List Equation) (s : F.State)
        → s ≡ record {
          frame = F.begun (map datum_of arguments.items)
              (template.now.variables - length arguments.items) template.now.signals
              template.now.components;
          world = world_of whole.old.world qs;
        }
        → m.first ≡ keys_of whole.old.made → IsListed qs whole.old.world
        → Follows (emitting_in body.now m) (bare_template template.now).body s whole.old.made.next
        → Casts qs whole.old whole.new result (body_cast (emitting_in body.now m)
        (bare_template template.now).body s whole.old.made.next) }
{
    let mut inside = begin_body(body.context.alloc, template, arguments)?;
    execute_all(
        body,
        template.body.statements.as_slice(),
        &mut inside,
        whole,
    )?;
    let Inside { frame, cells } = inside;
    all_ended(body.context, &frame)?;
    let parts = frame.parts.as_slice();
    let inside = homes_inside(body.context.alloc, parts, cells.parts.as_slice())?;
    Ok(Cast {
        signals: frame.into_signals(),
        ports: cells.signals,
        inside,
        steps: cells.steps,
    })
}

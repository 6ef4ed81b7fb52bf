//! The execution of functions and of templates. Calls are open at most 256 deep, and so are
//! templates.
ghost use Rattle.std.specs.Prelude.{◌≡◌, ◌-◌, ◌++◌, ◌∷◌, [], ◌<◌, IfOk, OnOk, List, length, map};
ghost use Rattle.std.specs.Prelude.{Ok, Err};
ghost use Rattle.cir_ast.specs.Program.{bare_function, bare_program, bare_template};
ghost use Rattle.cir_meaning.specs.Limits.{nothing};
ghost use Rattle.cir_meaning.specs.Source.{Equation};
ghost use Rattle.cir_meaning.specs.Tried.{next};
ghost use Rattle.cir_meaning.specs.Frame as F;
ghost use Rattle.cir_meaning.specs.Statement as X;
ghost use Rattle.cir_meaning.specs.Bodies as B;
ghost use Rattle.cir_meaning.specs.Bodies.{answer_of, call_at, counted_in, ended_flow, make_at};
ghost use Rattle.cir_meaning.specs.Bodies.{most_open};
ghost use Rattle.cir_meaning.specs.Compile.{group_size};
ghost use Rattle.cir_arrays.specs.Counted.{counts_of};
ghost use Rattle.cir_arrays.specs.Stopped.{Gives, where_of};
ghost use Rattle.cir_arrays.specs.Shown.{datum_of};
ghost use Rattle.cir_frame.specs.Shown.{group_by, part_of, signals_of, world_of};
ghost use Rattle.cir_evaluate.specs.Within.{context_of, kept_of};
ghost use Rattle.cir_create.specs.Makes.{BodyMeans, Creates, context_in};
ghost use Rattle.cir_inst.specs.Opened.{function_answer, maker_of, template_made};

use cir_arrays::{Counts, Datum, Fault, Site};
use cir_ast::program::{Function, Program, Spot, Template};
use cir_ast::{Kind, Text};
use cir_create::Body;
use cir_declare::{Room, begun};
use cir_evaluate::Context;
use cir_execute::{Flow, execute_all};
use cir_frame::{Frame, Grouping, Part, SignalEntry, World};
use std::alloc::{AllocError, Global};

/// How many calls may be open.
pub const MOST_OPEN: u32 = 256;

/// A program whose functions are called, or whose templates are opened.
#[derive(Clone, Copy)]
pub struct Opening<'a> {
    pub alloc: Global,
    pub program: &'a Program,
    /// How many may be opened inside each other.
    pub room: u32,
}

impl<'a> Opening<'a> {
    /// The same program, with this room for what is opened inside.
    pub fn inside(self, room: u32) -> Opening<'a>
        ensures { result ≡ record self.entry { room = room } }
    {
        Opening {
            alloc: self.alloc,
            program: self.program,
            room,
        }
    }
}

/// What a function answers to known arguments, called at this place. It changes nothing but what
/// is counted.
#[cycle(calling)]
pub fn call_function<'x>(
    opening: Opening<'x>,
    site: Site<'x>,
    f: u32,
    arguments: Vec<Datum>,
    world: &mut World,
) -> Result<Datum, Fault>
    ensures gives { (qs : List Equation) → Gives (λ d. (datum_of d, world_of world.new qs)) result
        (call_at (bare_program opening.entry.program.now) group_size opening.entry.room
        (where_of site.entry) f (map datum_of arguments.items) (world_of world.old qs)) }
    ensures added { world.new.added ≡ world.old.added }
    ensures keeps { kept_of world.new ≡ kept_of world.old }
{
    if opening.room == 0 {
        return Err(site.refused(opening.alloc, Kind::TooDeep));
    }
    let Some(function) = opening.program.functions.get(f as usize) else {
        return Err(site.refused(opening.alloc, Kind::WrongKind));
    };
    let inside = opening.inside(opening.room - 1);
    let (answer, counts) = run_function(inside, site, function, arguments, world)?;
    world.counts = counts;
    Ok(answer)
}

/// The answer, and what is counted behind the call.
#[cycle(calling)]
fn run_function<'x>(
    opening: Opening<'x>,
    site: Site<'x>,
    function: &'x Function,
    arguments: Vec<Datum>,
    world: &World,
) -> Result<(Datum, Counts), Fault>
    ensures { (qs : List Equation) → Gives (λ x. (
      datum_of x.0,
      record (world_of world.now qs) { counts = counts_of x.1 },
    )) result
        (function_answer (bare_program opening.entry.program.now) (call_at
        (bare_program opening.entry.program.now) group_size opening.entry.room)
        (where_of site.entry)
        (bare_function function.now) (map datum_of arguments.items) (world_of world.now qs)) }
{
    let alloc = opening.alloc;
    let file = function.file;
    let instance = site.instance;
    let path = site.path;
    let call = |spot: Spot, f: u32, arguments: Vec<Datum>, world: &mut World| -> Result<
        Datum,
        Fault,
    >
        ensures gives { (qs : List Equation) → Gives (λ d. (datum_of d, world_of world.new qs))
            result
            (call_at (bare_program opening.entry.program.now) group_size
            opening.entry.room
            record { file = file; spot = spot; instance = instance; path = path.entry.now }
            f (map datum_of arguments.items) (world_of world.old qs)) }
        ensures added { world.new.added ≡ world.old.added }
        ensures keeps { kept_of world.new ≡ kept_of world.old }
    {
        let site = Site {
            file,
            spot,
            instance,
            path,
        };
        call_function(opening, site, f, arguments, world)
    };
    let make = |_spot: Spot, _t: u32, _arguments: Vec<
        Datum,
    >, _path: &[u8], _world: &mut World| -> Result<Vec<Option<SignalEntry>>, Fault>
        ensures { result ≡ Err Fault.OutOfMemory }
    { Err(Fault::OutOfMemory) };
    let grouping = Grouping::Inside;
    let place = Place {
        file,
        instance,
        components: 0,
    };
    let context = context_in(&*opening.program, alloc, place, &*path, &grouping, &call);
    let body = Body {
        context: &context,
        make: &make,
        may_make: false,
    };
    answered(&body, function, arguments, world)
}

/// What a function's body answers, and what is counted behind it.
fn answered<C, M>(
    body: &Body<C, M>,
    function: &Function,
    arguments: Vec<Datum>,
    world: &World,
) -> Result<(Datum, Counts), Fault>
where
    C: Fn(Spot, u32, Vec<Datum>, &mut World) -> Result<Datum, Fault>,
    M: Fn(Spot, u32, Vec<Datum>, &[u8], &mut World) -> Result<Vec<Option<SignalEntry>>, Fault>,
    requires calls { C.IsAlwaysCallable body.now.context.now.call.now }
    requires makes { M.IsAlwaysCallable body.now.make.now }
    ensures { (m : BodyMeans (C.post body.now.context.now.call.now) (M.post body.now.make.now)
        body.now) (qs : List Equation) → Gives (λ x. (
          datum_of x.0,
          record (world_of world.now qs) { counts = counts_of x.1 },
        )) result
        (next (X.exec_all (context_in body.now m) (bare_function function.now).body record {
          frame = F.begun (map datum_of arguments.items)
              (function.now.variables - length arguments.items) 0 0;
          world = B.emptied (world_of world.now qs);
        }) (λ flow. Ok (counted_in (world_of world.now qs) (answer_of flow)))) }
{
    let alloc = body.context.alloc;
    let room = Room {
        variables: more_than(function.variables, arguments.len()),
        signals: 0,
        components: 0,
    };
    let mut frame = begun(alloc, arguments, room)?;
    let mut inside = emptied(alloc, world);
    let statements = function.body.statements.as_slice();
    match execute_all(body, statements, &mut frame, &mut inside)? {
        Flow::Going => Ok((Datum::zero(), inside.counts)),
        Flow::Returned(d) => Ok((d, inside.counts)),
    }
}

/// Where a body stands, and how many of its components have a name.
#[derive(Clone, Copy)]
pub struct Place {
    pub file: u32,
    pub instance: u32,
    pub components: u32,
}

/// The context of a body that stands there.
pub fn context_in<'y, C>(
    program: &'y Program,
    alloc: Global,
    place: Place,
    path: &'y [u8],
    grouping: &'y Grouping<'y>,
    call: &'y C,
) -> Context<'y, C>
    ensures { result ≡ record {
      alloc = alloc;
      program = program.entry;
      file = place.file;
      instance = place.instance;
      path = path.entry;
      grouping = grouping.now;
      named_components = place.components;
      call = call.entry;
    } }
{
    let grouping = *grouping;
    Context {
        alloc,
        program,
        file: place.file,
        instance: place.instance,
        path,
        grouping,
        named_components: place.components,
        call,
    }
}

/// What a function sees of the world.
fn emptied(alloc: Global, world: &World) -> World
    ensures world { (qs : List Equation) → world_of result [] ≡ B.emptied (world_of world.now qs) }
    ensures added { counts_of result.added ≡ nothing }
{
    World {
        rows: Vec::new(alloc),
        sizes: world.sizes,
        constraints: Vec::new(alloc),
        instances: Vec::new(alloc),
        counts: world.counts,
        added: Counts::NOTHING,
    }
}

/// How many of a body's variables begin at 0, since no argument gives them a value.
pub fn more_than(variables: u32, arguments: usize) -> u32
    ensures { result ≡ variables - arguments }
{
    match u32::try_from(arguments) {
        Ok(arguments) => variables.saturating_sub(arguments),
        Err(_) => 0,
    }
}

/// A template is made into a component of this path, by a statement at this place.
#[cycle(making)]
fn make_component<'x>(
    opening: Opening<'x>,
    site: Site<'x>,
    t: u32,
    arguments: Vec<Datum>,
    path: &'x [u8],
    world: &mut World,
) -> Result<Vec<Option<SignalEntry>>, Fault>
    ensures creates { (qs : List Equation) → Creates qs world.old world.new result
        (maker_of (make_at (bare_program opening.entry.program.now) group_size opening.entry.room)
        (where_of site.entry) t (map datum_of arguments.items) path.now (world_of world.old qs)) }
    ensures added { OnOk result (world.new.added ≡ world.old.added) }
{
    if opening.room == 0 {
        return Err(site.refused(opening.alloc, Kind::TooDeep));
    }
    let Some(template) = opening.program.templates.get(t as usize) else {
        return Err(site.refused(opening.alloc, Kind::WrongKind));
    };
    let inside = opening.inside(opening.room - 1);
    let grouping = Grouping::Inside;
    run_template(inside, template, &grouping, arguments, path, world)
}

/// The signals of a template that is executed as an instance of this path. What its statements add
/// is counted, and nothing else is added.
#[cycle(making)]
pub fn run_template<'x>(
    opening: Opening<'x>,
    template: &'x Template,
    grouping: &'x Grouping<'x>,
    arguments: Vec<Datum>,
    path: &'x [u8],
    world: &mut World,
) -> Result<Vec<Option<SignalEntry>>, Fault>
    ensures creates { (qs : List Equation) → Creates qs world.old world.new result
        (template_made (bare_program opening.entry.program.now) (call_at
        (bare_program opening.entry.program.now) group_size most_open)
        (make_at (bare_program opening.entry.program.now) group_size opening.entry.room)
        (group_by grouping.now) (bare_template template.now) (map datum_of arguments.items)
        path.now (world_of world.old qs)) }
    ensures added { OnOk result (world.new.added ≡ world.old.added) }
{
    let alloc = opening.alloc;
    let file = template.file;
    let added = world.added;
    world.added = Counts::NOTHING;
    let instance = new_instance(alloc, path, world)?;
    let functions = opening.inside(MOST_OPEN);
    let call = |spot: Spot, f: u32, arguments: Vec<Datum>, world: &mut World| -> Result<
        Datum,
        Fault,
    >
        ensures gives { (qs : List Equation) → Gives (λ d. (datum_of d, world_of world.new qs))
            result
            (call_at (bare_program functions.entry.program.now) group_size functions.entry.room
            record { file = file; spot = spot; instance = instance; path = path.entry.now }
            f (map datum_of arguments.items) (world_of world.old qs)) }
        ensures added { world.new.added ≡ world.old.added }
        ensures keeps { kept_of world.new ≡ kept_of world.old }
    {
        let site = Site {
            file,
            spot,
            instance,
            path,
        };
        call_function(functions, site, f, arguments, world)
    };
    let make = |spot: Spot, t: u32, arguments: Vec<
        Datum,
    >, inner: &[u8], world: &mut World| -> Result<Vec<Option<SignalEntry>>, Fault>
        ensures creates { (qs : List Equation) → Creates qs world.old world.new result
            (maker_of (make_at (bare_program opening.entry.program.now) group_size
            opening.entry.room)
            record { file = file; spot = spot; instance = instance; path = path.entry.now }
            t (map datum_of arguments.items) inner.now (world_of world.old qs)) }
        ensures added { OnOk result (world.new.added ≡ world.old.added) }
    {
        let site = Site {
            file,
            spot,
            instance,
            path,
        };
        make_component(opening, site, t, arguments, inner, world)
    };
    let place = Place {
        file,
        instance,
        components: template.components,
    };
    let context = context_in(&*opening.program, alloc, place, &*path, &*grouping, &call);
    let body = Body {
        context: &context,
        make: &make,
        may_make: opening.room > 0,
    };
    let signals = run_body(&body, template, arguments, world)?;
    world.added = added;
    Ok(signals)
}

fn run_body<C, M>(
    body: &Body<C, M>,
    template: &Template,
    arguments: Vec<Datum>,
    world: &mut World,
) -> Result<Vec<Option<SignalEntry>>, Fault>
where
    C: Fn(Spot, u32, Vec<Datum>, &mut World) -> Result<Datum, Fault>,
    M: Fn(Spot, u32, Vec<Datum>, &[u8], &mut World) -> Result<Vec<Option<SignalEntry>>, Fault>,
    requires calls { C.IsAlwaysCallable body.now.context.now.call.now }
    requires makes { M.IsAlwaysCallable body.now.make.now }
    requires added { counts_of world.old.added ≡ nothing }
    ensures { (m : BodyMeans (C.post body.now.context.now.call.now) (M.post body.now.make.now)
        body.now) (qs : List Equation) → Creates qs world.old world.new result
        (next (X.exec_all (context_in body.now m) (bare_template template.now).body record {
          frame = F.begun (map datum_of arguments.items)
              (template.now.variables - length arguments.items) template.now.signals
              template.now.components;
          world = world_of world.old qs;
        }) (ended_flow (context_in body.now m))) }
{
    let alloc = body.context.alloc;
    let room = Room {
        variables: more_than(template.variables, arguments.len()),
        signals: template.signals,
        components: template.components,
    };
    let mut frame = begun(alloc, arguments, room)?;
    let statements = template.body.statements.as_slice();
    match execute_all(body, statements, &mut frame, world)? {
        Flow::Going => ended(body.context, frame),
        Flow::Returned(_) => Ok(Vec::new(alloc)),
    }
}

/// Adds an instance of this path behind the others, and answers its number.
pub fn new_instance(alloc: Global, path: &[u8], world: &mut World) -> Result<u32, AllocError>
    ensures number { IfOk result (λ n. n ≡ length world.old.instances.items) }
    ensures world { (qs : List Equation) → OnOk result (world_of world.new qs
        ≡ record (world_of world.old qs) {
          instances = (world_of world.old qs).instances ++ path.now ∷ [];
        }) }
    ensures constraints { world.new.constraints.items ≡ world.old.constraints.items }
    ensures added { world.new.added ≡ world.old.added }
{
    let Ok(instance) = u32::try_from(world.instances.len()) else {
        return Err(AllocError);
    };
    world.instances.push(Text::from_slice(alloc, path)?)?;
    Ok(instance)
}

/// The signals of a body that has ended.
fn ended<C>(context: &Context<C>, frame: Frame) -> Result<Vec<Option<SignalEntry>>, Fault>
    ensures { (call : F.Caller) (make : _) (s : F.State) →
        s.frame.signals ≡ signals_of frame.signals.items →
        s.frame.parts ≡ map part_of frame.parts.items →
        Gives (λ signals. (signals_of signals.items, s.world)) result
        (B.ended (context_of context.now call make) s) }
{
    all_ended(context, &frame)?;
    Ok(frame.into_signals())
}

/// At the end of a body every output and every inner signal is written, and every input of each
/// component.
pub fn all_ended<C>(context: &Context<C>, frame: &Frame) -> Result<(), Fault>
    ensures { (call : F.Caller) (make : _) (s : F.State) →
        s.frame.signals ≡ signals_of frame.now.signals.items →
        s.frame.parts ≡ map part_of frame.now.parts.items →
        Gives (λ u. (signals_of frame.now.signals.items, s.world)) result
        (B.ended (context_of context.now call make) s) }
{
    all_written(context, frame.signals.as_slice())?;
    all_fed(context, frame.parts.as_slice())?;
    Ok(())
}

fn all_written<C>(context: &Context<C>, signals: &[Option<SignalEntry>]) -> Result<(), Fault>
    ensures { (call : F.Caller) (make : _) → Gives (λ u. u) result
        (B.all_written (context_of context.now call make) (signals_of signals.now)) }
{
    for signal in signals {
        if let Some(entry) = signal {
            if !entry.is_input() && !entry.is_all_written() {
                let site = context.at(entry.spot);
                return Err(site.refused(context.alloc, Kind::NeverWritten));
            }
        }
    }
    Ok(())
}

fn all_fed<C>(context: &Context<C>, parts: &[Part]) -> Result<(), Fault>
    ensures { (call : F.Caller) (make : _) → Gives (λ u. u) result
        (B.all_fed (context_of context.now call make) (map part_of parts.now)) }
{
    for part in parts {
        if !part.is_fed() {
            let site = context.at(part.spot);
            return Err(site.refused(context.alloc, Kind::InputsMissing));
        }
    }
    Ok(())
}

ghost use Rattle.std.specs.Prelude.{◌≡◌, ◌↔◌, IfOk, OnOk, All, List, [], codes, map, slice_get};
ghost use Rattle.std.specs.Prelude.{unwrap_or};
ghost use Rattle.gold_field.specs.Form.{Holds};
ghost use Rattle.cir_lc.specs.Number.{Assignment};
ghost use Rattle.cir_ast.specs.Program.{bare_main, bare_program};
ghost use Rattle.cir_checks.specs.Checked.{IsChecked};
ghost use Rattle.cir_meaning.specs.Limits.{Counts as AnyCounts};
ghost use Rattle.cir_meaning.specs.SignalFree.{AreFunctionsFree};
ghost use Rattle.cir_meaning.specs.Source.{Equation};
ghost use Rattle.cir_meaning.specs.Frame as F;
ghost use Rattle.cir_meaning.specs.Bodies.{call_at, exec_template, make_at, most_open};
ghost use Rattle.cir_meaning.specs.Compile as M;
ghost use Rattle.cir_meaning.specs.Compile.{Satisfies, compiled, group_size, refusal_of};
ghost use Rattle.cir_arrays.specs.Shown.{datum_of};
ghost use Rattle.cir_arrays.specs.Stopped.{Gives, refused_of};
ghost use Rattle.cir_frame.specs.Shown.{frame_of, world_of};
ghost use Rattle.cir_evaluate.specs.Within.{Means, at_spot, context_of, kept_of};
ghost use Rattle.cir_create.specs.Makes.{Creates};
ghost use Rattle.cir_inst.specs.Compiled.{Instantiates, IsCircuitOf, IsWithinLimits};
ghost use Rattle.cir_inst.specs.Made.{Compiles, IsMade, Makes, Shows};

use crate::bodies::{MOST_OPEN, Opening, Place, call_function, context_in, run_template};
use crate::table::{renumbered, table_of};
use cir_arrays::{Datum, Fault, Site, Stop};
use cir_ast::program::{Main, Meant, Program, Spot};
use cir_ast::{Kind, Refusal, Text};
use cir_declare::{Room, begun};
use cir_evaluate::{Context, arguments_in};
use cir_frame::{Frame, Grouping, SignalEntry, World};
use cir_values::Signals;
use gold_field::Constraint;
use items::Items;
use std::alloc::{AllocError, Global};

/// What a program compiles to.
pub struct Circuit {
    pub signals: Signals,
    /// Normal constraints, in the order in which they are executed.
    pub constraints: Items<Constraint>,
    /// The paths of the instances in order of creation, main first.
    pub instances: Items<Text>,
}

// Written out, so that the proof of an owner sees one call and not the drop of each part.
impl Drop for Circuit {
    fn drop(self) {
        let Circuit {
            signals: _signals,
            constraints: _constraints,
            instances: _instances,
        } = self;
    }
}

/// Why a program doesn't compile.
#[derive(Drop)]
pub enum InstFault {
    Refused(Refusal),
    OutOfMemory,
}

impl From<AllocError> for InstFault {
    ghost use Rattle.std.specs.Prelude.{◌≡◌};
    ghost use Rattle.cir_inst.specs.declared.circuit.InstFault.TheVariants.{OutOfMemory};

    ghost from_gives = { λ _ r. r ≡ OutOfMemory };

    fn from(_error: AllocError) -> InstFault {
        InstFault::OutOfMemory
    }
}

/// Executes the main component of a program.
pub fn instantiate(alloc: Global, program: &Program) -> Result<Circuit, InstFault>
    requires checked { IsChecked (bare_program program.now) }
    requires free { AreFunctionsFree (bare_program program.now) }
    // A program is refused exactly where its meaning is, of the same kind and at the same place;
    // else the circuit has the meaning's table of signals, and the normal constraints of its
    // equations.
    ensures meaning { Instantiates (bare_program program.now) result }
    // They hold at just the assignments that satisfy the program.
    ensures satisfied { IfOk result (λ c. (s : Assignment)
        → Satisfies (bare_program program.now) s ↔ All (Holds s.at) c.constraints) }
    ensures fits { IfOk result IsWithinLimits }
{
    match compile(alloc, program) {
        Ok(circuit) => Ok(circuit),
        Err(fault) => Err(placed(alloc, program, fault)),
    }
}

fn compile(alloc: Global, program: &Program) -> Result<Circuit, Fault>
    requires { AreFunctionsFree (bare_program program.now) }
    ensures meaning { Compiles result (compiled (bare_program program.now)) }
    ensures fits { IfOk result IsWithinLimits }
{
    let main = main_of(alloc, program)?;
    let world = run_main(alloc, program, main)?;
    let circuit = circuit_of(alloc, world)?;
    Ok(circuit)
}

/// The first main component. A program without one is refused, at no place of its own.
pub fn main_of<'p>(alloc: Global, program: &'p Program) -> Result<&'p Main, Fault>
    ensures { Gives (λ m. bare_main m.now) result (M.the_main (bare_program program.now)) }
{
    let [main, ..] = program.mains.as_slice() else {
        let nowhere = Site {
            file: 0,
            spot: Spot { line: 1, column: 1 },
            instance: 0,
            path: b"-",
        };
        return Err(nowhere.refused(alloc, Kind::Main));
    };
    Ok(main)
}

/// Main is executed in a context of its own.
fn run_main<'x>(alloc: Global, program: &'x Program, main: &'x Main) -> Result<World, Fault>
    requires { AreFunctionsFree (bare_program program.now) }
    ensures { Makes result (M.exec_main (bare_program program.now) group_size (bare_main main.now)
        main.now.meant) }
{
    let opening = Opening {
        alloc,
        program,
        room: MOST_OPEN,
    };
    let file = main.file;
    let call = |spot: Spot, f: u32, arguments: Vec<Datum>, world: &mut World| -> Result<
        Datum,
        Fault,
    >
        ensures gives { (qs : List Equation) → Gives (λ d. (datum_of d, world_of world.new qs))
            result
            (call_at (bare_program opening.entry.program.now) group_size opening.entry.room
            record { file = file; spot = spot; instance = 0; path = codes "main" }
            f (map datum_of arguments.items) (world_of world.old qs)) }
        ensures added { world.new.added ≡ world.old.added }
        ensures keeps { kept_of world.new ≡ kept_of world.old }
    {
        let site = Site {
            file,
            spot,
            instance: 0,
            path: b"main",
        };
        call_function(opening, site, f, arguments, world)
    };
    let grouping = Grouping::Inside;
    let place = Place {
        file,
        instance: 0,
        components: 0,
    };
    let context = context_in(program, alloc, place, b"main", &grouping, &call);
    execute_main(&context, main)
}

/// Main's arguments are evaluated at its statement, and its body is executed.
fn execute_main<C>(context: &Context<C>, main: &Main) -> Result<World, Fault>
where
    C: Fn(Spot, u32, Vec<Datum>, &mut World) -> Result<Datum, Fault>,
    requires calls { C.IsAlwaysCallable context.now.call.now }
    requires free { AreFunctionsFree (bare_program context.now.program.now) }
    ensures { (m : Means (C.post context.now.call.now) context.now)
        → context_of context.now m.call m.make
        ≡ M.main_context (bare_program context.now.program.now) group_size (bare_main main.now)
        → Makes result (M.exec_main (bare_program context.now.program.now) group_size
        (bare_main main.now) main.now.meant) }
{
    let here = context.here(main.spot);
    let Meant::Template(t) = main.meant else {
        return Err(here.refused(Kind::WrongKind));
    };
    let mut world = World::new(context.alloc);
    let frame = no_frame(context.alloc)?;
    let arguments = arguments_in(&here, main.arguments.as_slice(), &frame, &mut world)?;
    let _signals = open_main(context, main, t, arguments, &mut world)?;
    context.settle(main.spot, &mut world)?;
    Ok(world)
}

/// The signals of main's template, if there is one of this number.
fn open_main<C>(
    context: &Context<C>,
    main: &Main,
    t: u32,
    arguments: Vec<Datum>,
    world: &mut World,
) -> Result<Vec<Option<SignalEntry>>, Fault>
    ensures creates { (qs : List Equation) → Creates qs world.old world.new result
        (exec_template (bare_program context.now.program.now) group_size
        (call_at (bare_program context.now.program.now) group_size most_open)
        (make_at (bare_program context.now.program.now) group_size 255)
        (M.main_group main.now.public) (at_spot context.now main.now.spot) t
        (map datum_of arguments.items) (codes "main") (world_of world.old qs)) }
    ensures added { OnOk result (world.new.added ≡ world.old.added) }
{
    let Some(template) = context.program.templates.get(t as usize) else {
        return Err(context.here(main.spot).refused(Kind::WrongKind));
    };
    let opening = Opening {
        alloc: context.alloc,
        program: context.program,
        room: MOST_OPEN - 1,
    };
    let grouping = Grouping::Main(main.public.as_slice());
    run_template(opening, template, &grouping, arguments, b"main", world)
}

/// No variable, signal or component is declared.
pub fn no_frame(alloc: Global) -> Result<Frame, AllocError>
    ensures { (c : AnyCounts) → IfOk result (λ f. frame_of f c
        ≡ record (F.begun [] 0 0 0) { added = c }) }
{
    let room = Room {
        variables: 0,
        signals: 0,
        components: 0,
    };
    begun(alloc, Vec::new(alloc), room)
}

/// The circuit of a program that is executed.
pub fn circuit_of(alloc: Global, world: World) -> Result<Circuit, AllocError>
    requires { (es : List Equation) × IsMade es world }
    ensures circuit { (es : List Equation) → IsMade es world
        → IfOk result (IsCircuitOf (M.circuit_of group_size (world_of world es))) }
    ensures fits { IfOk result IsWithinLimits }
{
    let signals = table_of(alloc, &world)?;
    let sizes = world.sizes;
    let (constraints, instances) = world.into_lists();
    let constraints = renumbered(alloc, &sizes, constraints)?;
    Ok(Circuit {
        signals,
        constraints,
        instances: Items::of(instances),
    })
}

/// A refusal as a user sees it, with its file's name.
pub fn placed(alloc: Global, program: &Program, fault: Fault) -> InstFault
    ensures { Shows (bare_program program.now) fault result }
{
    match fault {
        Fault::OutOfMemory => InstFault::OutOfMemory,
        Fault::Refused(stop) => match refusal(alloc, program, stop) {
            Ok(refusal) => InstFault::Refused(refusal),
            Err(_) => InstFault::OutOfMemory,
        },
    }
}

fn refusal(alloc: Global, program: &Program, stop: Stop) -> Result<Refusal, AllocError>
    ensures { IfOk result (λ r. r ≡ refusal_of (bare_program program.now) (refused_of stop)) }
{
    let Stop {
        kind,
        file,
        spot,
        instance: _,
        path,
    } = stop;
    let file = file_name(alloc, program, file)?;
    Ok(Refusal {
        kind,
        place: cir_ast::Place {
            file,
            line: spot.line,
            column: spot.column,
            path,
        },
    })
}

fn file_name(alloc: Global, program: &Program, file: u32) -> Result<Text, AllocError>
    ensures { IfOk result (λ name. name ≡ unwrap_or (slice_get program.now.files file) []) }
{
    match program.files.get(file as usize) {
        Some(name) => {
            let copy = Text::from_slice(alloc, name.as_slice())?;
            Ok(copy)
        }
        None => Ok(Text::new()),
    }
}

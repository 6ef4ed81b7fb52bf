//! The execution of a program's main component, with its steps.
ghost use Rattle.std.specs.Prelude.{◌≡◌, List, OnOk, codes, map};
ghost use Rattle.cir_ast.specs.Program.{bare_main, bare_program};
ghost use Rattle.cir_meaning.specs.Bodies.{call_at};
ghost use Rattle.cir_meaning.specs.Compile as M;
ghost use Rattle.cir_meaning.specs.Compile.{group_size};
ghost use Rattle.cir_meaning.specs.Scoped.{IsResolved};
ghost use Rattle.cir_meaning.specs.SignalFree.{AreFunctionsFree};
ghost use Rattle.cir_meaning.specs.Source.{Equation};
ghost use Rattle.cir_arrays.specs.Shown.{datum_of};
ghost use Rattle.cir_arrays.specs.Stopped.{Gives};
ghost use Rattle.cir_frame.specs.Shown.{world_of};
ghost use Rattle.cir_evaluate.specs.Within.{Means, at_spot, context_of, kept_of};
ghost use Rattle.cir_assign.specs.Leads.{IsListed};
ghost use Rattle.cir_make.specs.Means.{Casts};
ghost use Rattle.cir_body.specs.Mains.{Executes, main_cast};

use crate::bodies::cast_template;
use cir_arrays::{Datum, Fault, Site};
use cir_ast::Kind;
use cir_ast::program::{Main, Meant, Program, Spot};
use cir_evaluate::{Context, arguments_in};
use cir_frame::{Grouping, World};
use cir_inst::{MOST_OPEN, Opening, Place, call_function, context_in, no_frame};
use cir_make::{Cast, Made, Whole};
use cir_rules::CallTable;
use std::alloc::Global;

/// The program behind the execution of main, and what main's body gives.
#[derive(Drop)]
pub struct Executed {
    pub whole: Whole,
    pub cast: Cast,
}

/// Main is executed in a context of its own.
pub fn execute_main<'x>(
    alloc: Global,
    program: &'x Program,
    main: &'x Main,
) -> Result<Executed, Fault>
    requires free { AreFunctionsFree (bare_program program.now) }
    requires resolved { IsResolved (bare_program program.now) }
    ensures { Executes (bare_program program.now) (bare_main main.now) result }
{
    let opening = Opening {
        alloc,
        program,
        room: MOST_OPEN,
    };
    let file = main.file;
    let call = |spot: Spot, f: u32, arguments: Vec<Datum>, world: &mut World| -> Result<
        Datum,
        Fault,
    >
        ensures gives { (qs : List Equation) → Gives (λ d. (datum_of d, world_of world.new qs))
            result
            (call_at (bare_program opening.entry.program.now) group_size opening.entry.room
            record { file = file; spot = spot; instance = 0; path = codes "main" }
            f (map datum_of arguments.items) (world_of world.old qs)) }
        ensures added { world.new.added ≡ world.old.added }
        ensures keeps { kept_of world.new ≡ kept_of world.old }
    {
        let site = Site {
            file,
            spot,
            instance: 0,
            path: b"main",
        };
        call_function(opening, site, f, arguments, world)
    };
    let grouping = Grouping::Inside;
    let place = Place {
        file,
        instance: 0,
        components: 0,
    };
    let context = context_in(program, alloc, place, b"main", &grouping, &call);
    execute_in(&context, main)
}

/// Main's arguments are evaluated at its statement, and its body is executed.
fn execute_in<C>(context: &Context<C>, main: &Main) -> Result<Executed, Fault>
where
    C: Fn(Spot, u32, Vec<Datum>, &mut World) -> Result<Datum, Fault>,
    requires calls { C.IsAlwaysCallable context.now.call.now }
    requires free { AreFunctionsFree (bare_program context.now.program.now) }
    requires resolved { IsResolved (bare_program context.now.program.now) }
    ensures { (m : Means (C.post context.now.call.now) context.now)
        → context_of context.now m.call m.make
        ≡ M.main_context (bare_program context.now.program.now) group_size (bare_main main.now)
        → Executes (bare_program context.now.program.now) (bare_main main.now) result }
{
    let here = context.here(main.spot);
    let Meant::Template(t) = main.meant else {
        return Err(here.refused(Kind::WrongKind));
    };
    let mut world = World::new(context.alloc);
    let frame = no_frame(context.alloc)?;
    let arguments = arguments_in(&here, main.arguments.as_slice(), &frame, &mut world)?;
    let keys = CallTable::new(context.alloc);
    let mut whole = Whole {
        world,
        made: Made { next: 1, keys },
    };
    let cast = cast_main(context, main, t, arguments, &mut whole)?;
    context.settle(main.spot, &mut whole.world)?;
    Ok(Executed { whole, cast })
}

/// Main's template is executed, if there is one of this number.
fn cast_main<C>(
    context: &Context<C>,
    main: &Main,
    t: u32,
    arguments: Vec<Datum>,
    whole: &mut Whole,
) -> Result<Cast, Fault>
    ensures casts { (qs : List Equation) → IsResolved (bare_program context.now.program.now)
        → IsListed qs whole.old.world → Casts qs whole.old whole.new result
        (main_cast (bare_program context.now.program.now) main.now.public
        (at_spot context.now main.now.spot) t (map datum_of arguments.items)
        (world_of whole.old.world qs) whole.old.made.next) }
    ensures added { OnOk result (whole.new.world.added ≡ whole.old.world.added) }
{
    let Some(template) = context.program.templates.get(t as usize) else {
        return Err(context.here(main.spot).refused(Kind::WrongKind));
    };
    let opening = Opening {
        alloc: context.alloc,
        program: context.program,
        room: MOST_OPEN - 1,
    };
    let grouping = Grouping::Main(main.public.as_slice());
    cast_template(opening, template, &grouping, arguments, b"main", whole)
}

//! The circuit of a program, with the code of its steps.
ghost use Rattle.std.specs.Prelude.{◌↔◌, ◌++◌, ◌<◌, All, Err, IfOk, List, map, vec_len};
ghost use Rattle.gold_field.specs.Form.{Holds};
ghost use Rattle.cir_lc.specs.Number.{Assignment};
ghost use Rattle.cir_ast.specs.Program.{bare_main, bare_program};
ghost use Rattle.cir_checks.specs.Checked.{IsChecked};
ghost use Rattle.cir_meaning.specs.Compile.{Satisfies, compiled};
ghost use Rattle.cir_meaning.specs.Costs.{Made as Key};
ghost use Rattle.cir_meaning.specs.Scoped.{IsResolved};
ghost use Rattle.cir_meaning.specs.SignalFree.{AreFunctionsFree};
ghost use Rattle.cir_scope.specs.Counted.{AreCounted};
ghost use Rattle.cir_scope.specs.Runnable.{AreRunnable};
ghost use Rattle.cir_frame.specs.Shown.{sizes_of};
ghost use Rattle.cir_inst.specs.Compiled.{Instantiates, IsWithinLimits};
ghost use Rattle.cir_rules.specs.Shown.{made_of};
ghost use Rattle.cir_steps.specs.Circuit as S;
ghost use Rattle.wit_lower.specs.Procedures.{IsTable};
ghost use Rattle.wit_circuit.specs.Whole.{IsCircuitOf, StandsFor};
ghost use Rattle.cir_body.specs.Coded.{Codes, IsCoded, circuit_in};

use crate::mains::{Executed, execute_main};
use cir_arrays::Fault;
use cir_ast::program::{Main, Program};
use cir_frame::Sizes;
use cir_homes::{homes_of, start_cells};
use cir_inst::{Circuit, InstFault, circuit_of, instantiate, main_of, placed};
use cir_make::{Cast, Made, Whole};
use cir_rules::CallTable;
use std::alloc::{AllocError, Global};
use wit_circuit::CircuitCode;
use wit_circuit::laws::code_of_circuits_is_made;
use wit_code::Proc;
use wit_procs::Procs;

/// Executes the main component of a program, and makes the code of its steps.
pub fn circuit_code(alloc: Global, program: &Program) -> Result<(Circuit, CircuitCode), InstFault>
    requires checked { IsChecked (bare_program program.now) }
    requires free { AreFunctionsFree (bare_program program.now) }
    // Names mean what is in scope, as in every program that is loaded.
    requires resolved { IsResolved (bare_program program.now) }
    // A program is refused exactly where its meaning is, of the same kind and at the same place;
    // else the circuit has the meaning's table of signals, and the normal constraints of its
    // equations.
    ensures meaning { Instantiates (bare_program program.now) (circuit_in result) }
    // They hold at just the assignments that satisfy the program.
    ensures satisfied { IfOk result (λ x. (s : Assignment)
        → Satisfies (bare_program program.now) s ↔ All (Holds s.at) x.0.constraints) }
    ensures fits { IfOk result (λ x. IsWithinLimits x.0) }
    // The code is that of the program's circuit.
    ensures coded { AreCounted (bare_program program.now) → AreRunnable (bare_program program.now)
        → IfOk result (λ x. IsCircuitOf (bare_program program.now) x.1) }
{
    match execute(alloc, program) {
        Ok(made) => Ok(made),
        Err(Fault::OutOfMemory) => Err(without_code(alloc, program)),
        Err(fault) => Err(placed(alloc, program, fault)),
    }
}

/// Why there is no code: a step is made before the limits of its statement are tested, so a program
/// that passes one of them may first come to a step that can't be made.
fn without_code(alloc: Global, program: &Program) -> InstFault
    requires checked { IsChecked (bare_program program.now) }
    requires free { AreFunctionsFree (bare_program program.now) }
    ensures { Instantiates (bare_program program.now) (Err result) }
{
    match instantiate(alloc, program) {
        Err(fault) => fault,
        Ok(_) => InstFault::OutOfMemory,
    }
}

fn execute(alloc: Global, program: &Program) -> Result<(Circuit, CircuitCode), Fault>
    requires checked { IsChecked (bare_program program.now) }
    requires free { AreFunctionsFree (bare_program program.now) }
    requires resolved { IsResolved (bare_program program.now) }
    ensures { Codes (bare_program program.now) result }
{
    let main = main_of(alloc, program)?;
    let executed = execute_main(alloc, program, main)?;
    let Executed { whole, cast } = executed;
    let Whole { world, made } = whole;
    let code = code_of(alloc, program, main, &world.sizes, made, cast)?;
    let circuit = circuit_of(alloc, world)?;
    Ok((circuit, code))
}

/// The code of the circuit whose steps are made.
fn code_of(
    alloc: Global,
    program: &Program,
    main: &Main,
    sizes: &Sizes,
    made: Made,
    cast: Cast,
) -> Result<CircuitCode, AllocError>
    requires checked { IsChecked (bare_program program.now) }
    requires resolved { IsResolved (bare_program program.now) }
    requires few { vec_len cast.steps < 4294967296 }
    ensures { (b : S.Circuit) → IsCoded (bare_program program.now) (bare_main main.now)
        (sizes_of sizes.now) made cast b
        → AreCounted (bare_program program.now) → AreRunnable (bare_program program.now)
        → IfOk result (StandsFor (bare_program program.now) b) }
{
    let Cast {
        signals,
        ports,
        inside,
        steps,
    } = cast;
    let Made { next, keys } = made;
    let starts = start_cells(alloc, main, signals.as_slice(), ports.as_slice())?;
    let homes = homes_of(
        alloc,
        sizes,
        signals.as_slice(),
        ports.as_slice(),
        inside.as_slice(),
    )?;
    let procs = procs_of(alloc, program, keys)?;
    code_of_circuits_is_made();
    CircuitCode::of(alloc, steps, procs, next, starts, homes)
}

/// The procedures of these calls and of all that they reach, which stand behind them.
fn procs_of(alloc: Global, program: &Program, keys: CallTable) -> Result<Vec<Proc>, AllocError>
    ensures { AreRunnable (bare_program program.now) → IfOk result (λ procs.
        (later : List Key) × IsTable (bare_program program.now)
        (map made_of keys.calls.items ++ later) procs.items) }
{
    match Procs::of(alloc, program, keys) {
        Ok(table) => Ok(table.finish()),
        Err(_) => Err(AllocError),
    }
}

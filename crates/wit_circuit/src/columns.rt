ghost use Rattle.std.specs.Prelude.{◌≡◌, ◌<◌, ◌++◌, [], IfOk, List, OnOk, map, Some, vec_len};
ghost use Rattle.cir_ast.specs.Program.{Program};
ghost use Rattle.cir_meaning.specs.Bodies.{most_open};
ghost use Rattle.cir_meaning.specs.RunStatements.{run_call};
ghost use Rattle.cir_steps.specs.Circuit.{Circuit};
ghost use Rattle.wit_circuit.specs.Made.{AreMadeOf};
ghost use Rattle.wit_circuit.specs.Whole.{AreStepsOf, StandsFor, codes_of, log_of};

use crate::code::{CircuitCode, LogLine, LogPart, StepPlace};
use items::Items;
use std::alloc::{AllocError, Global};
use wit_code::{Proc, Step};

/// A step as it is made: its code, where its statement stands, and the line that it logs, if any.
#[derive(Drop)]
pub struct MadeStep {
    pub place: StepPlace,
    pub code: Step,
    pub line: Option<Items<LogPart>>,
}

fn push_log(
    logs: &mut Vec<LogLine>,
    step: usize,
    line: Option<Items<LogPart>>,
) -> Result<(), AllocError>
    requires { step < 4294967296 }
    ensures { OnOk result (logs.new.items ≡ logs.old.items ++ log_of step line []) }
{
    if let Some(parts) = line {
        let step = step as u32;
        logs.push(LogLine { step, parts })?;
    }
    Ok(())
}

impl CircuitCode {
    /// The code of a circuit from its steps as they are made, which are moved.
    pub fn of(
        alloc: Global,
        made: Vec<MadeStep>,
        procs: Vec<Proc>,
        cells: u32,
        starts: Vec<u32>,
        homes: Vec<u32>,
    ) -> Result<CircuitCode, AllocError>
        requires few { vec_len made < 4294967296 }
        ensures { (p : Program) (b : Circuit)
            → AreStepsOf b.steps made.items
            → AreMadeOf (run_call p most_open) procs.items b.steps (codes_of made.items)
            → cells ≡ b.cells → starts.items ≡ b.starts → map Some homes.items ≡ b.homes
            → IfOk result (StandsFor p b) }
    {
        let mut steps = Vec::with_capacity(alloc, made.len())?;
        let mut places = Vec::with_capacity(alloc, made.len())?;
        let mut logs = Vec::new(alloc);
        for step in made {
            let MadeStep { place, code, line } = step;
            push_log(&mut logs, steps.len(), line)?;
            steps.push(code)?;
            places.push(place)?;
        }
        Ok(CircuitCode {
            steps: Items::of(steps),
            procs: Items::of(procs),
            cells,
            starts: Items::of(starts),
            homes: Items::of(homes),
            places: Items::of(places),
            logs: Items::of(logs),
        })
    }
}

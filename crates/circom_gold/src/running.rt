//! The run of a compiled source.

ghost use Rattle.std.specs.Prelude.{◌≡◌, ◌≤◌, ℕ, List, [], IfOk, length, slice_get};
ghost use Rattle.std.specs.Prelude.{unwrap_or};
ghost use Rattle.iden_files.specs.File.{InLimits};
ghost use Rattle.iden_files.specs.Limits.{most_wires};
ghost use Rattle.cir_ast.specs.Program.{Program};
ghost use Rattle.cir_meaning.specs.RunBodies.{Ending, ran};
ghost use Rattle.cir_meaning.specs.Run.{RunTried};
ghost use Rattle.wit_run.specs.Ending.{IsEndOf};
ghost use Rattle.wit_run.specs.Task.{IsTask};
ghost use Rattle.circom_files.specs.Running.{values_of};
ghost use Rattle.circom_gold.specs.Running.{EndsIn, GeneratesIn, IsHaltAt, shown_place};

use cir_ast::{Place, Text};
use circom_files::{Generated, Halt, Ran};
use circom_words::RunOptions;
use flow_engine::OpenGate;
use gold_field::Gold;
use iden_files::R1cs;
use items::Items;
use std::alloc::{AllocError, AllocGlobal, Global};
use std::sync::Wait;
use std::thread::Threads;
use wit_circuit::{CircuitCode, StepPlace};
use wit_code::Stop;
use wit_run::{CutCircuit, RunEnd, values_by_wire};

/// Runs the code of a circuit from these numbers: 1, and those of main's inputs.
pub fn run_code<R: Threads + Wait + AllocGlobal + Sync>(
    rt: &R,
    code: CircuitCode,
    start: &[Gold],
    running: RunOptions,
) -> Result<RunEnd, AllocError>
    requires task { (p : Program) × (inputs : List ℕ) × IsTask p code start.now inputs }
    requires some { 1 ≤ running.workers }
    requires few { running.workers ≤ 64 }
    ensures { (p : Program) (inputs : List ℕ) (task : IsTask p code start.now inputs)
        → IfOk result (λ end. IsEndOf task.meaning.instances end (ran p running.fuel inputs)) }
{
    let cut = CutCircuit::of(rt.alloc(), code)?;
    cut.run_many(
        rt,
        start,
        u64::from(running.fuel),
        running.workers,
        &OpenGate,
    )
}

/// The place of a step, as a user sees it: with the names of its file and of its instance.
pub fn place_in(
    alloc: Global,
    files: &[Text],
    instances: &[Text],
    place: StepPlace,
) -> Result<Place, AllocError>
    ensures { IfOk result (λ p. p ≡ shown_place files.now instances.now place) }
{
    let file = name_at(alloc, files, place.file)?;
    let path = name_at(alloc, instances, place.instance)?;
    Ok(Place {
        file,
        line: place.spot.line,
        column: place.spot.column,
        path,
    })
}

fn name_at(alloc: Global, names: &[Text], number: u32) -> Result<Text, AllocError>
    ensures { IfOk result (λ name. name ≡ unwrap_or (slice_get names.now number) []) }
{
    match names.get(number as usize) {
        Some(name) => Ok(Text::from_slice(alloc, name.as_slice())?),
        None => Ok(Text::new()),
    }
}

fn halt_of(
    alloc: Global,
    files: &[Text],
    instances: &[Text],
    stop: Stop,
    place: StepPlace,
    log: Items<Text>,
) -> Result<Halt, AllocError>
    ensures { IfOk result (IsHaltAt files.now instances.now stop place log) }
{
    let place = place_in(alloc, files, instances, place)?;
    Ok(Halt { stop, place, log })
}

/// How the run of a circuit ends, with the values of the wires of the source's file.
pub fn ran_by(
    alloc: Global,
    files: &[Text],
    instances: &[Text],
    file: &R1cs,
    end: RunEnd,
) -> Result<Ran, AllocError>
    requires { InLimits file.now }
    ensures ends { IfOk result (EndsIn files.now instances.now file.now end) }
    ensures few { IfOk result (λ r. length (values_of r) ≤ most_wires) }
{
    match end {
        RunEnd::Ended { values, log } => {
            let wires = values_by_wire(alloc, values.as_slice(), file.labels.as_slice())?;
            Ok(Ran::Ended {
                values: Items::of(wires),
                log,
            })
        }
        RunEnd::Stopped { stop, place, log } => {
            let halt = halt_of(alloc, files, instances, stop, place, log)?;
            Ok(Ran::Halted(halt))
        }
    }
}

/// How the run of a generated circuit ends.
pub fn generated_by(
    alloc: Global,
    files: &[Text],
    instances: &[Text],
    file: &R1cs,
    end: RunEnd,
) -> Result<Generated, AllocError>
    requires { InLimits file.now }
    ensures { IfOk result (GeneratesIn files.now instances.now file.now end) }
{
    match end {
        RunEnd::Ended { values, log } => Ok(Generated::Ended {
            wires: file.wires,
            constraints: file.constraints().len() as u32,
            out: values.as_slice().get(1).copied().unwrap_or(Gold::ZERO),
            log,
        }),
        RunEnd::Stopped { stop, place, log } => {
            let halt = halt_of(alloc, files, instances, stop, place, log)?;
            Ok(Generated::Halted(halt))
        }
    }
}

ghost use Rattle.std.specs.Prelude.{◌≡◌, ◌<◌, ◌≤◌, ℕ, All, List, IfOk, IsErrOf};
ghost use Rattle.std.specs.Prelude.{IsTrue};
ghost use Rattle.gold_field.specs.declared.gold.TheConstants.{P};
ghost use Rattle.out_io.specs.declared.fault.IoFault.TheVariants.{Failed};
ghost use Rattle.wit_run.specs.Task.{IsTask};
ghost use Rattle.circom_files.specs.Reply.{Says};
ghost use Rattle.circom_files.specs.Running.{generated};
ghost use Rattle.circom_files.specs.Shown.{shown};
ghost use Rattle.circom_gold.specs.Source.{IsCoded, program_of};
ghost use Rattle.circom_gold.specs.Generate.{MakesGenerated, SourcesGenerated};
ghost use Rattle.circom_gold.specs.Witness.{Generates, IsGeneratedRun};
ghost use Rattle.cir_simplify.specs.declared.types.Level.{Level as AnyLevel};
ghost use Rattle.cir_simplify.specs.declared.types.Level.TheVariants.{O1};

use crate::one_file::OneFile;
use crate::running::{generated_by, run_code};
use crate::source::{Coded, source_in};
use cir_compile::Level;
use cir_values::Signals;
use circom_files::{Generated, Reply, Stop};
use circom_lines::{generated_start, generated_text};
use circom_words::{Options, RunOptions};
use gold_field::Gold;
use out_io::{History, IoFault};
use std::alloc::{AllocError, AllocGlobal, Global};
use std::sync::Wait;
use std::thread::Threads;

/// The reply of `generate`: what the circuit of so many links comes to, and the value of its
/// output.
pub fn generate_reply<'w, R: Threads + Wait + AllocGlobal + Sync>(
    rt: &R,
    alloc: Global,
    seed: u32,
    size: u32,
    running: RunOptions,
) -> Result<Reply<'w>, IoFault>
    requires some { 1 ≤ running.workers }
    requires few { running.workers ≤ 64 }
    ensures says { IfOk result (λ r. Says (generated size)
        (λ found. Generates seed size running.fuel found) (shown r)) }
    ensures status { IfOk result (λ r. r.status < 3) }
    ensures no_fault { ¬ IsErrOf result Failed }
{
    match generated_in(rt, alloc, seed, size, running) {
        Ok(found) => Ok(Reply::generated(alloc, size, found)?),
        Err(stop) => stop.reply(alloc),
    }
}

// How the run of the circuit ends.
fn generated_in<R: Threads + Wait + AllocGlobal + Sync>(
    rt: &R,
    alloc: Global,
    seed: u32,
    size: u32,
    running: RunOptions,
) -> Result<Generated, Stop>
    requires some { 1 ≤ running.workers }
    requires few { running.workers ≤ 64 }
    ensures { MakesGenerated seed size running.fuel result }
{
    let coded = source_of(alloc, size)?;
    let start = generated_start(alloc, seed)?;
    if !has_inputs(&coded.circuit.signals) {
        // That the source has its nine inputs isn't proved. It has.
        return Err(Stop::OutOfMemory);
    }
    let found = generated_of(rt, alloc, coded, start.as_slice(), running)?;
    Ok(found)
}

fn has_inputs(signals: &Signals) -> bool
    ensures { IsTrue result
        → (signals.now.public_inputs ≡ 0) × (signals.now.private_inputs ≡ 9) }
{
    signals.public_inputs == 0 && signals.private_inputs == 9
}

// What the made source comes to.
fn source_of(alloc: Global, size: u32) -> Result<Coded, Stop>
    ensures sources { SourcesGenerated size result }
    ensures coded { IfOk result (IsCoded O1) }
{
    let text = generated_text(alloc, size)?;
    let mut store = OneFile {
        text,
        history: History::new(),
    };
    let options = Options {
        level: Level::O1,
        folder: None,
    };
    source_in(alloc, &mut store, "generated", options)
}

fn generated_of<R: Threads + Wait + AllocGlobal + Sync>(
    rt: &R,
    alloc: Global,
    coded: Coded,
    start: &[Gold],
    running: RunOptions,
) -> Result<Generated, AllocError>
    requires coded { (level : AnyLevel) × IsCoded level coded }
    requires task { (inputs : List ℕ) × IsTask (program_of coded) coded.code start.now inputs }
    requires some { 1 ≤ running.workers }
    requires few { running.workers ≤ 64 }
    ensures { (inputs : List ℕ) → IsTask (program_of coded) coded.code start.now inputs
        → All (λ n. n < P) inputs
        → IfOk result (IsGeneratedRun (program_of coded) coded.file running.fuel inputs) }
{
    let (code, built) = coded.take_code();
    let end = run_code(rt, code, start, running)?;
    let files = built.loaded.program.files.as_slice();
    let instances = built.circuit.instances.as_slice();
    generated_by(alloc, files, instances, &built.file, end)
}

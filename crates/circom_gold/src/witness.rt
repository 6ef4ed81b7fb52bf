ghost use Rattle.std.specs.Prelude.{◌≡◌, ◌<◌, ◌≤◌, ℕ, List, Ok, IfOk, IsErrOf};
ghost use Rattle.std.specs.Prelude.{length};
ghost use Rattle.out_io.specs.Faults.{Rose, faults_after};
ghost use Rattle.out_io.specs.declared.fault.IoFault.TheVariants.{Failed};
ghost use Rattle.iden_files.specs.Limits.{most_wires};
ghost use Rattle.wit_run.specs.Task.{IsTask};
ghost use Rattle.out_io.specs.Held.{OfAll, OnlyReads};
ghost use Rattle.circom_files.specs.Reply.{Says};
ghost use Rattle.circom_files.specs.Running.{values_of, witnessed};
ghost use Rattle.circom_files.specs.Shown.{shown};
ghost use Rattle.circom_files.specs.Steps.{StepsTo};
ghost use Rattle.circom_files.specs.Stops.{faults_by};
ghost use Rattle.circom_gold.specs.Source.{IsCoded, program_of};
ghost use Rattle.circom_gold.specs.Witness.{IsRunOf, Witnesses};
ghost use Rattle.circom_words.specs.Words.{meant_options};
ghost use Rattle.cir_simplify.specs.declared.types.Level.{Level};

use crate::running::{ran_by, run_code};
use crate::source::{Coded, source_in, start_in};
use circom_files::{Ran, Reply, Stop};
use circom_words::{Options, RunOptions};
use gold_field::Gold;
use out_io::{IoFault, Store};
use std::alloc::{AllocError, AllocGlobal, Global};
use std::sync::Wait;
use std::thread::Threads;

/// The reply of `witness`: the values of the wires, under the name `out`, of the run of the
/// source's program on the input.
pub fn witness_reply<'w, R: Threads + Wait + AllocGlobal + Sync, S: Store>(
    rt: &R,
    alloc: Global,
    source: &str,
    input: &str,
    out: &'w str,
    options: Options<'_>,
    running: RunOptions,
    store: &mut S,
) -> Result<Reply<'w>, IoFault>
    requires some { 1 ≤ running.workers }
    requires few { running.workers ≤ 64 }
    ensures says { IfOk result (λ r. OfAll (S.may_hold store.new) (λ files.
        Says (witnessed out.entry.now)
        (λ found. Witnesses files source.now input.now (meant_options options.entry)
        running.fuel found) (shown r))) }
    ensures status { IfOk result (λ r. r.status < 3) }
    ensures fault { IsErrOf result Failed → Rose (S.faults store.old) (S.faults store.new) }
    ensures counted { S.faults store.new ≡ faults_after result (S.faults store.old) }
    ensures store { OnlyReads (S.may_hold store.old) (S.may_hold store.new)
        (S.faults store.old) (S.faults store.new)
        (S.never_fails store.old) (S.never_fails store.new) }
{
    match witness_in(rt, alloc, source, input, options, running, store) {
        Ok(ran) => Ok(Reply::witnessed(alloc, out, ran)?),
        Err(stop) => stop.reply(alloc),
    }
}

// How the run of the source's program on the input ends.
fn witness_in<R: Threads + Wait + AllocGlobal + Sync, S: Store>(
    rt: &R,
    alloc: Global,
    source: &str,
    input: &str,
    options: Options<'_>,
    running: RunOptions,
    store: &mut S,
) -> Result<Ran, Stop>
    requires some { 1 ≤ running.workers }
    requires few { running.workers ≤ 64 }
    ensures step { StepsTo (λ r. r) (S.may_hold store.new)
        (λ files found. Witnesses files source.now input.now (meant_options options.entry)
        running.fuel found) (Rose (S.faults store.old) (S.faults store.new)) result }
    ensures few { IfOk result (λ r. length (values_of r) ≤ most_wires) }
    ensures counted { S.faults store.new ≡ faults_by result (S.faults store.old) }
    ensures store { OnlyReads (S.may_hold store.old) (S.may_hold store.new)
        (S.faults store.old) (S.faults store.new)
        (S.never_fails store.old) (S.never_fails store.new) }
{
    let coded = source_in(alloc, store, source, options)?;
    let start = start_in(alloc, store, &coded, input)?;
    let ran = witness_of(rt, alloc, coded, start.as_slice(), running)?;
    Ok(ran)
}

// How the run of what a source comes to ends, from these numbers on.
fn witness_of<R: Threads + Wait + AllocGlobal + Sync>(
    rt: &R,
    alloc: Global,
    coded: Coded,
    start: &[Gold],
    running: RunOptions,
) -> Result<Ran, AllocError>
    requires coded { (level : Level) × IsCoded level coded }
    requires task { (inputs : List ℕ) × IsTask (program_of coded) coded.code start.now inputs }
    requires some { 1 ≤ running.workers }
    requires few { running.workers ≤ 64 }
    ensures run { (inputs : List ℕ) → IsTask (program_of coded) coded.code start.now inputs
        → IfOk result (IsRunOf (program_of coded) coded.file running.fuel inputs) }
    ensures few { IfOk result (λ r. length (values_of r) ≤ most_wires) }
{
    let (code, built) = coded.take_code();
    let end = run_code(rt, code, start, running)?;
    let files = built.loaded.program.files.as_slice();
    let instances = built.circuit.instances.as_slice();
    ran_by(alloc, files, instances, &built.file, end)
}

ghost use Rattle.std.specs.Prelude.{◌≡◌, ◌<◌, ◌≤◌, ℕ, All, IfOk, IsErrOf, length};
ghost use Rattle.std.specs.List.{AllZip};
ghost use Rattle.out_io.specs.Faults.{Rose, faults_after};
ghost use Rattle.out_io.specs.declared.fault.IoFault.TheVariants.{Failed};
ghost use Rattle.iden_files.specs.File.{InLimits};
ghost use Rattle.cir_simplify.specs.declared.types.Level.{Level};
ghost use Rattle.out_io.specs.Held.{OfAll, OnlyReads};
ghost use Rattle.circom_files.specs.Reply.{Says};
ghost use Rattle.circom_files.specs.Shown.{shown};
ghost use Rattle.circom_files.specs.Steps.{StepsTo};
ghost use Rattle.circom_files.specs.Stops.{faults_by};
ghost use Rattle.circom_gold.specs.Batch.{Batches, batched};
ghost use Rattle.circom_gold.specs.Batching.{BatchesOn, IsEntryItem, IsWithin, end_item};
ghost use Rattle.circom_gold.specs.Source.{IsCoded, program_of};
ghost use Rattle.circom_words.specs.Words.{meant_options};

use crate::running::place_in;
use crate::source::{Built, Coded, MOST_INPUTS, source_in};
use circom_batch::{Entry, Inputs, Item, batch_bytes, inputs_in, lines, without_feed, witnesses};
use circom_files::{Reply, Stop, bytes_in};
use circom_lines::{Refusal, batch_line, stop_line};
use circom_words::{Options, RunOptions};
use flow_engine::OpenGate;
use iden_files::write_wtns;
use items::Items;
use out_io::{IoFault, Store};
use std::alloc::{AllocError, AllocGlobal, Global};
use std::sync::Wait;
use std::thread::Threads;
use wit_run::{CutCircuit, RunEnd, values_by_wire};

const MOST_BATCH: u128 = 33554432;

/// The reply of `batch`: under the name `out`, of each line of the inputs what `witness` has for
/// it: the file of values, or the line of its refusal.
pub fn batch_reply<'w, R: Threads + Wait + AllocGlobal + Sync, S: Store>(
    rt: &R,
    alloc: Global,
    source: &str,
    inputs: &str,
    out: &'w str,
    options: Options<'_>,
    running: RunOptions,
    store: &mut S,
) -> Result<Reply<'w>, IoFault>
    requires some { 1 ≤ running.workers }
    requires few { running.workers ≤ 64 }
    ensures says { IfOk result (λ r. OfAll (S.may_hold store.new) (λ files.
        Says (batched out.entry.now)
        (λ found. Batches files source.now inputs.now (meant_options options.entry)
        running.fuel found) (shown r))) }
    ensures status { IfOk result (λ r. r.status < 3) }
    ensures fault { IsErrOf result Failed → Rose (S.faults store.old) (S.faults store.new) }
    ensures counted { S.faults store.new ≡ faults_after result (S.faults store.old) }
    ensures store { OnlyReads (S.may_hold store.old) (S.may_hold store.new)
        (S.faults store.old) (S.faults store.new)
        (S.never_fails store.old) (S.never_fails store.new) }
{
    match batch_in(rt, alloc, source, inputs, options, running, store) {
        Ok(items) => Ok(written(alloc, out, items.as_slice())?),
        Err(stop) => stop.reply(alloc),
    }
}

// The reply that writes the items under the name.
fn written<'w>(alloc: Global, out: &'w str, items: &[Item]) -> Result<Reply<'w>, AllocError>
    requires { length items.now < 4294967296 }
    ensures { IfOk result (λ r. shown r ≡ batched out.entry.now items.now) }
{
    let bytes = batch_bytes(alloc, items)?;
    let text = batch_line(alloc, items.len() as u32, witnesses(items) as u32)?;
    Ok(Reply::written(text, out, Items::of(bytes)))
}

// What the lines of the inputs come to.
fn batch_in<R: Threads + Wait + AllocGlobal + Sync, S: Store>(
    rt: &R,
    alloc: Global,
    source: &str,
    inputs: &str,
    options: Options<'_>,
    running: RunOptions,
    store: &mut S,
) -> Result<Items<Item>, Stop>
    requires some { 1 ≤ running.workers }
    requires few { running.workers ≤ 64 }
    ensures step { StepsTo (λ items. items) (S.may_hold store.new)
        (λ files found. Batches files source.now inputs.now (meant_options options.entry)
        running.fuel found) (Rose (S.faults store.old) (S.faults store.new)) result }
    ensures few { IfOk result (λ items. length items < 4294967296) }
    ensures counted { S.faults store.new ≡ faults_by result (S.faults store.old) }
    ensures store { OnlyReads (S.may_hold store.old) (S.may_hold store.new)
        (S.faults store.old) (S.faults store.new)
        (S.never_fails store.old) (S.never_fails store.new) }
{
    let coded = source_in(alloc, store, source, options)?;
    let text = bytes_in(alloc, store, inputs)?;
    batch_of(rt, alloc, coded, text.as_slice(), running)
}

// What the program of a source comes to on the lines of a text.
fn batch_of<R: Threads + Wait + AllocGlobal + Sync>(
    rt: &R,
    alloc: Global,
    coded: Coded,
    text: &[u8],
    running: RunOptions,
) -> Result<Items<Item>, Stop>
    requires coded { (level : Level) × IsCoded level coded }
    requires some { 1 ≤ running.workers }
    requires few { running.workers ≤ 64 }
    ensures batches { BatchesOn (program_of coded) coded.file running.fuel text.now result }
    ensures few { IfOk result (λ items. length items < 4294967296) }
{
    let lines = lines(alloc, text)?;
    let (code, built) = coded.take_code();
    let cut = CutCircuit::of(alloc, code)?;
    let size = cut.batch_size(lines.len());
    if size > MOST_BATCH {
        return Err(Stop::Refused(Refusal::LargeBatch { size }));
    }
    let signals = &built.circuit.signals;
    if signals.inputs.len() > MOST_INPUTS {
        return Err(Stop::OutOfMemory);
    }
    let Inputs { starts, entries } = inputs_in(alloc, lines.as_slice(), signals)?;
    let fuel = u64::from(running.fuel);
    let ends = cut.run_batch(rt, starts.as_slice(), fuel, running.workers, &OpenGate)?;
    let items = items_of(alloc, &built, entries, ends.as_slice())?;
    Ok(Items::of(items))
}

// The items of entries, by the ends of the runs.
fn items_of(
    alloc: Global,
    built: &Built,
    entries: Vec<Entry>,
    ends: &[RunEnd],
) -> Result<Vec<Item>, AllocError>
    requires limits { InLimits built.now.file }
    requires within { All (IsWithin (length ends.now)) entries.items }
    ensures { IfOk result (λ items. AllZip (IsEntryItem built.now.loaded.program.files
        built.now.circuit.instances built.now.file ends.now) entries.items items.items) }
{
    let mut items = Vec::with_capacity(alloc, entries.len())?;
    for entry in entries {
        let item = item_at(alloc, built, entry, ends)?;
        items.push(item)?;
    }
    Ok(items)
}

fn item_at(alloc: Global, built: &Built, entry: Entry, ends: &[RunEnd]) -> Result<Item, AllocError>
    requires limits { InLimits built.now.file }
    requires within { IsWithin (length ends.now) entry }
    ensures { IfOk result (IsEntryItem built.now.loaded.program.files
        built.now.circuit.instances built.now.file ends.now entry) }
{
    match entry {
        Entry::Start(place) => item_of(alloc, built, &ends[place]),
        Entry::Refused(line) => Ok(Item::Refused(line)),
    }
}

// The item of a run's end.
fn item_of(alloc: Global, built: &Built, end: &RunEnd) -> Result<Item, AllocError>
    requires { InLimits built.now.file }
    ensures { IfOk result (λ item. item ≡ end_item built.now.loaded.program.files
        built.now.circuit.instances built.now.file end.now) }
{
    match end {
        RunEnd::Ended { values, .. } => {
            let wires = values_by_wire(alloc, values.as_slice(), built.file.labels.as_slice())?;
            let bytes = write_wtns(alloc, wires.as_slice())?;
            Ok(Item::Witness(Items::of(bytes)))
        }
        RunEnd::Stopped { stop, place, .. } => {
            let files = built.loaded.program.files.as_slice();
            let instances = built.circuit.instances.as_slice();
            let place = place_in(alloc, files, instances, *place)?;
            Ok(Item::Refused(without_feed(stop_line(alloc, *stop, &place)?)))
        }
    }
}

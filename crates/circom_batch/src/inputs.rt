ghost use Rattle.std.specs.Prelude.{◌≡◌, ◌≤◌, ◌^◌, All, IfOk, length};
ghost use Rattle.std.specs.List.{AllZip};
ghost use Rattle.circom_batch.specs.Inputs.{IsEntry, IsInput, IsLineOf, IsTaken};

use crate::item::without_feed;
use cir_values::Signals;
use circom_files::{Stop, input_from};
use gold_field::Gold;
use items::Items;
use std::alloc::{AllocError, Global};

/// What a line gives as an input.
#[derive(Drop)]
pub enum Entry {
    /// The place of its numbers among the lists of numbers.
    Start(usize),
    /// The line of its refusal, without its line feed.
    Refused(Items<u8>),
}

/// What lines give as inputs: an entry each, and the lists of numbers that runs start from.
#[derive(Drop)]
pub struct Inputs {
    pub starts: Vec<Vec<Gold>>,
    pub entries: Vec<Entry>,
}

/// What each of the lines gives as the input of a circuit with these signals.
pub fn inputs_in(alloc: Global, lines: &[&[u8]], signals: &Signals) -> Result<Inputs, AllocError>
    requires { length signals.now.inputs ≤ 2 ^ 32 }
    ensures entries { IfOk result (λ r. AllZip
        (λ line entry. IsEntry signals.now.inputs r.starts.items line.now entry)
        lines.now r.entries.items) }
    ensures starts { IfOk result (λ r.
        All (λ start. IsInput signals.now.inputs start.items) r.starts.items) }
    ensures few { IfOk result (λ r. length r.starts.items ≤ length lines.now) }
{
    let mut starts = Vec::new(alloc);
    let mut entries = Vec::with_capacity(alloc, lines.len())?;
    for line in lines {
        let entry = entry_of(alloc, line, signals, &mut starts)?;
        entries.push(entry)?;
    }
    Ok(Inputs { starts, entries })
}

// What a line gives; its numbers go behind those of the lines before it.
fn entry_of(
    alloc: Global,
    line: &[u8],
    signals: &Signals,
    starts: &mut Vec<Vec<Gold>>,
) -> Result<Entry, AllocError>
    requires { length signals.now.inputs ≤ 2 ^ 32 }
    ensures { IfOk result
        (IsTaken signals.now.inputs starts.old.items line.now starts.new.items) }
{
    match input_from(alloc, line, signals) {
        Ok(start) => {
            let place = starts.len();
            starts.push(start)?;
            Ok(Entry::Start(place))
        }
        Err(stop) => Ok(Entry::Refused(refused_line(alloc, stop)?)),
    }
}

// The line of the refusal, without its line feed.
fn refused_line(alloc: Global, stop: Stop) -> Result<Items<u8>, AllocError>
    ensures { IfOk result (IsLineOf stop) }
{
    match stop {
        Stop::Refused(refusal) => Ok(without_feed(refusal.line(alloc)?)),
        _ => Err(AllocError),
    }
}

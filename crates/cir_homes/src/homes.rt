//! Where the signals of components stand, by their numbers.
ghost use Rattle.std.specs.Prelude.{◌≡◌, ◌++◌, IfOk, OnOk};
ghost use Rattle.cir_homes.specs.Homed.{declared_homes, entry_homes, part_homes, signal_homes};

use cir_frame::{Part, SignalEntry};
use cir_make::{Homes, PartCells, Run};
use std::alloc::{AllocError, Global};

/// Adds the rows of a signal. All of them begin with its first element.
fn add_signal(entry: &SignalEntry, rows: &[Run], homes: &mut Vec<Homes>) -> Result<(), AllocError>
    ensures { OnOk result (homes.new.items ≡ homes.old.items ++ entry_homes entry.now rows.now) }
{
    let written = entry.written.len() as u64;
    for row in rows {
        homes.push(Homes {
            number: entry.first,
            count: row.count.min(written),
            cell: row.first,
        })?;
    }
    Ok(())
}

/// Adds the rows of the signals of a body, or of a component.
pub fn add_signals(
    signals: &[Option<SignalEntry>],
    ports: &[Vec<Run>],
    homes: &mut Vec<Homes>,
) -> Result<(), AllocError>
    ensures { OnOk result (homes.new.items
        ≡ homes.old.items ++ signal_homes signals.now ports.now) }
{
    for n in 0..signals.len().min(ports.len()) {
        add_declared(&signals[n], ports[n].as_slice(), homes)?;
    }
    Ok(())
}

fn add_declared(
    signal: &Option<SignalEntry>,
    rows: &[Run],
    homes: &mut Vec<Homes>,
) -> Result<(), AllocError>
    ensures { OnOk result (homes.new.items
        ≡ homes.old.items ++ declared_homes signal.now rows.now) }
{
    match signal {
        Some(entry) => add_signal(entry, rows, homes),
        None => Ok(()),
    }
}

/// Where the signals of a body's components stand, and those of the components in them.
pub fn homes_inside(
    alloc: Global,
    parts: &[Part],
    cells: &[PartCells],
) -> Result<Vec<Homes>, AllocError>
    ensures { IfOk result (λ homes. homes.items ≡ part_homes parts.now cells.now) }
{
    let mut homes = Vec::new(alloc);
    for j in 0..parts.len().min(cells.len()) {
        let signals = parts[j].signals.as_slice();
        let part = &cells[j];
        add_signals(signals, part.ports.as_slice(), &mut homes)?;
        homes.extend_from_slice(part.inside.as_slice())?;
    }
    Ok(homes)
}

//! The cells that have numbers when a program's run begins.
ghost use Rattle.std.specs.Prelude.{◌≡◌, ◌++◌, ◌&&◌, IfOk, OnOk, map, option_map};
ghost use Rattle.cir_ast.specs.Program.{bare_main};
ghost use Rattle.cir_meaning.specs.Frame.{is_input};
ghost use Rattle.cir_meaning.specs.Places.{numbers_from};
ghost use Rattle.cir_frame.specs.Shown.{signal_of, signals_of};
ghost use Rattle.cir_steps.specs.Circuit.{input_cells, is_public, start_cells};
ghost use Rattle.cir_steps.specs.Emission.{wire_cell};
ghost use Rattle.cir_make.specs.Cells.{wires_by};
ghost use Rattle.cir_homes.specs.Started.{chosen_cells, is_chosen};

use cir_ast::program::{Direction, Main};
use cir_frame::{Group, Grouping, SignalEntry};
use cir_make::Run;
use cir_write::{cell, rows};
use std::alloc::{AllocError, Global};

/// Cell 0, and the cells of main's inputs, the public ones first.
pub fn start_cells(
    alloc: Global,
    main: &Main,
    signals: &[Option<SignalEntry>],
    ports: &[Vec<Run>],
) -> Result<Vec<u32>, AllocError>
    ensures { IfOk result (λ starts. starts.items
        ≡ start_cells (bare_main main.now) (wires_by ports.now) (signals_of signals.now)) }
{
    let mut starts = Vec::new(alloc);
    starts.push(0)?;
    add_inputs(main, true, signals, ports, &mut starts)?;
    add_inputs(main, false, signals, ports, &mut starts)?;
    Ok(starts)
}

/// The cells of the public inputs, or of the others.
fn add_inputs(
    main: &Main,
    public: bool,
    signals: &[Option<SignalEntry>],
    ports: &[Vec<Run>],
    starts: &mut Vec<u32>,
) -> Result<(), AllocError>
    ensures { OnOk result (starts.new.items ≡ starts.old.items
        ++ input_cells (is_chosen (bare_main main.now) public) (wires_by ports.now) 0
        (signals_of signals.now)) }
{
    for n in 0..signals.len() {
        add_input(main, public, &signals[n], ports, n, starts)?;
    }
    Ok(())
}

/// The cells of the signal of this number, if it is declared and such an input.
fn add_input(
    main: &Main,
    public: bool,
    signal: &Option<SignalEntry>,
    ports: &[Vec<Run>],
    n: usize,
    starts: &mut Vec<u32>,
) -> Result<(), AllocError>
    ensures { OnOk result (starts.new.items ≡ starts.old.items
        ++ chosen_cells (is_chosen (bare_main main.now) public) (wires_by ports.now) n
        (option_map signal_of signal.now)) }
{
    let Some(entry) = signal else {
        return Ok(());
    };
    if is_chosen(main, public, entry) {
        return add_elements(ports, n, entry.written.len(), starts);
    }
    Ok(())
}

fn is_chosen(main: &Main, public: bool, entry: &SignalEntry) -> bool
    ensures { result ≡ (is_input entry.now.direction
        && is_chosen (bare_main main.now) public (signal_of entry.now)) }
{
    entry.is_input() && is_public(main, entry) == public
}

fn is_public(main: &Main, entry: &SignalEntry) -> bool
    ensures { result ≡ is_public (bare_main main.now) (signal_of entry.now) }
{
    let grouping = Grouping::Main(main.public.as_slice());
    match grouping.of(Direction::Input, entry.name.as_slice()) {
        Group::PublicInputs => true,
        _ => false,
    }
}

/// The cells of so many elements of a signal.
fn add_elements(
    ports: &[Vec<Run>],
    n: usize,
    count: usize,
    starts: &mut Vec<u32>,
) -> Result<(), AllocError>
    ensures { OnOk result (starts.new.items ≡ starts.old.items
        ++ map (wire_cell (wires_by ports.now) n) (numbers_from 0 count)) }
{
    let rows = rows(ports, n);
    for k in 0..count {
        starts.push(cell(rows, k as u64)?)?;
    }
    Ok(())
}

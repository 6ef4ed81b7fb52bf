ghost use Rattle.std.specs.Prelude.{◌≡◌, ◌+◌, ◌≤◌, ◌∷◌, ◌++◌, [], List};
ghost use Rattle.std.specs.Prelude.{length, codes, Ok};
ghost use Rattle.std.specs.Prelude.{IfOk, OnOk, is_some, if◌then◌else◌};
ghost use Rattle.std.specs.List.Sorted.{IsStrictlyIncreasing};
ghost use Rattle.sym_file.specs.declared.line.SymLine.{SymLine as ASymLine};
ghost use Rattle.sym_file.specs.Line.{IsNarrowLine, line_of, symbols_of, wire_text};
ghost use Rattle.sym_file.specs.Table.{AreKept, AreLinesOf, CanAllBeNamed, CanBeNamed, IsLineOf};
ghost use Rattle.sym_file.specs.Table.{IsSplit, IsTextOf, wire_among};

use crate::line::SymLine;
use cir_values::Signals;
use std::alloc::{AllocError, Global};
use text::Text;
use text_lines::put_number;

/// The lines of a circuit's signals in the order of their numbers, signal 0 left out. `wires` has
/// the signals that are kept, by their wires.
pub fn write_sym(
    alloc: Global,
    signals: &Signals,
    instances: &[Text],
    wires: &[u32],
) -> Result<Vec<u8>, AllocError>
    requires kept { AreKept signals.now wires.now }
    requires few { length signals.now.names ≤ 16777216 }
    requires named { CanAllBeNamed signals.now instances.now }
    ensures text { IfOk result (λ text. IsTextOf signals.now instances.now wires.now text.items) }
    ensures read_back { IfOk result (λ text. (lines : List ASymLine)
        → AreLinesOf signals.now instances.now wires.now lines
        → symbols_of text.items ≡ Ok lines) }
{
    let mut text = Vec::new(alloc);
    let mut next = 1;
    for place in 0..signals.names.len() {
        let signal = place as u32 + 1;
        let wire = wire_at(wires, next, signal);
        let line = line_at(alloc, signals, instances, signal, wire)?;
        put_line(&mut text, &line)?;
        next = behind(next, wire);
    }
    Ok(text)
}

// The place behind that of this wire, or the same place.
fn behind(next: usize, wire: Option<u32>) -> usize
    requires { next ≤ 16777216 }
    ensures { result ≡ (if is_some wire then next + 1 else next) }
{
    match wire {
        Some(_) => next + 1,
        None => next,
    }
}

// The wire of a signal, where the signals before this place are those below it.
fn wire_at(wires: &[u32], next: usize, signal: u32) -> Option<u32>
    requires rise { IsStrictlyIncreasing wires.now }
    requires split { IsSplit wires.now next signal }
    requires within { next ≤ signal }
    ensures wire { result ≡ wire_among wires.now signal }
    ensures behind { IsSplit wires.now (if is_some result then next + 1 else next) (signal + 1) }
{
    if next < wires.len() {
        if wires[next] == signal {
            return Some(next as u32);
        }
    }
    None
}

fn line_at(
    alloc: Global,
    signals: &Signals,
    instances: &[Text],
    signal: u32,
    wire: Option<u32>,
) -> Result<SymLine, AllocError>
    requires { CanBeNamed signals.now instances.now signal }
    ensures line { IfOk result (IsLineOf signals.now instances.now signal wire) }
    ensures narrow { IfOk result IsNarrowLine }
{
    let local = signals.name(alloc, signal)?;
    let entry = &signals.names.as_slice()[signal as usize - 1];
    let path = &instances[entry.instance as usize];
    let name = full_name(alloc, path, &local)?;
    Ok(SymLine {
        label: u64::from(signal),
        wire,
        instance: u64::from(entry.instance),
        name,
    })
}

fn full_name(alloc: Global, path: &Text, local: &Text) -> Result<Text, AllocError>
    ensures { IfOk result (λ name. name ≡ path.now ++ (codes "." ++ local.now)) }
{
    let mut name = Vec::new(alloc);
    name.extend_from_slice(path.as_slice())?;
    name.push(b'.')?;
    name.extend_from_slice(local.as_slice())?;
    Text::from_slice(alloc, name.as_slice())
}

fn put_line(out: &mut Vec<u8>, line: &SymLine) -> Result<(), AllocError>
    ensures { OnOk result (out.new.items ≡ out.old.items ++ (line_of line.now ++ 10 ∷ [])) }
{
    put_number(out, line.label)?;
    out.push(b',')?;
    put_wire(out, line.wire)?;
    out.push(b',')?;
    put_number(out, line.instance)?;
    out.push(b',')?;
    out.extend_from_slice(line.name.as_slice())?;
    out.push(b'\n')?;
    Ok(())
}

fn put_wire(out: &mut Vec<u8>, wire: Option<u32>) -> Result<(), AllocError>
    ensures { OnOk result (out.new.items ≡ out.old.items ++ wire_text wire) }
{
    match wire {
        Some(wire) => put_number(out, u64::from(wire)),
        None => out.extend_from_slice(b"-1"),
    }
}

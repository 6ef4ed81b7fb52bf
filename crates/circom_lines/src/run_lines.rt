//! The lines of the commands that run a circuit.

ghost use Rattle.std.specs.Prelude.{◌≡◌, IfOk};
ghost use Rattle.circom_lines.specs.RunLines.{log_text, stop_text, stop_line, witness_line};
ghost use Rattle.circom_lines.specs.RunLines.{batch_line, generated_line};

use crate::lines::line;
use crate::sources::placed_line;
use cir_ast::{Place, Text};
use std::alloc::{AllocError, Global};
use wit_code::Stop;

/// A line for each of these.
pub fn log_text(alloc: Global, lines: &[Text]) -> Result<Vec<u8>, AllocError>
    ensures { IfOk result (λ v. v.items ≡ log_text lines.now) }
{
    let mut text = Vec::new(alloc);
    for line in lines {
        text.extend_from_slice(line.as_slice())?;
        text.push(b'\n')?;
    }
    Ok(text)
}

/// The line of a run that stops.
pub fn stop_line(alloc: Global, stop: Stop, place: &Place) -> Result<Vec<u8>, AllocError>
    ensures { IfOk result (λ v. v.items ≡ stop_line stop place.now) }
{
    placed_line(alloc, stop_text(stop), "", "", place)
}

// No line says that a run wants memory.
fn stop_text(stop: Stop) -> &'static str
    ensures { result.now ≡ stop_text stop }
{
    match stop {
        Stop::ConstraintFails => "W1 ConstraintFails",
        Stop::AssertFails => "W2 AssertFails",
        Stop::ZeroDivisor => "W3 ZeroDivisor",
        Stop::IndexOut => "W4 IndexOut",
        Stop::FuelSpent => "W5 FuelSpent",
        Stop::TooDeep => "W6 TooDeep",
        Stop::OutOfMemory => "",
    }
}

/// The line of a command that has written so many values.
pub fn witness_line(alloc: Global, values: usize) -> Result<Vec<u8>, AllocError>
    ensures { IfOk result (λ v. v.items ≡ witness_line values) }
{
    let values = format!(in alloc; "{values}")?;
    line(alloc, &[b"witness: values ", values.as_bytes()])
}

/// The line of a batch of so many inputs, of which so many have a witness.
pub fn batch_line(alloc: Global, inputs: u32, witnesses: u32) -> Result<Vec<u8>, AllocError>
    ensures { IfOk result (λ v. v.items ≡ batch_line inputs witnesses) }
{
    let inputs = format!(in alloc; "{inputs}")?;
    let witnesses = format!(in alloc; "{witnesses}")?;
    line(
        alloc,
        &[
            b"batch: inputs ",
            inputs.as_bytes(),
            b", witnesses ",
            witnesses.as_bytes(),
        ],
    )
}

/// The line of a generated circuit that was run: its links, wires and constraints, and the value of
/// its output.
pub fn generated_line(
    alloc: Global,
    links: u32,
    wires: u32,
    constraints: u32,
    out: u64,
) -> Result<Vec<u8>, AllocError>
    ensures { IfOk result (λ v. v.items ≡ generated_line links wires constraints out) }
{
    let links = format!(in alloc; "{links}")?;
    let wires = format!(in alloc; "{wires}")?;
    let constraints = format!(in alloc; "{constraints}")?;
    let out = format!(in alloc; "{out}")?;
    line(
        alloc,
        &[
            b"generated: links ",
            links.as_bytes(),
            b", wires ",
            wires.as_bytes(),
            b", constraints ",
            constraints.as_bytes(),
            b", satisfied, out ",
            out.as_bytes(),
        ],
    )
}

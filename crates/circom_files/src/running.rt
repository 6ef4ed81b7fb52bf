//! The input of a run.

ghost use Rattle.std.specs.Prelude.{◌≡◌, ◌≢◌, ◌≤◌, ◌^◌, IfOk, length};
ghost use Rattle.wit_input.specs.Input.{input_of};
ghost use Rattle.wit_input.specs.declared.fault.InputFault.TheVariants.{OutOfMemory};
ghost use Rattle.circom_files.specs.Running.{accepted_input, bad_input, name_at};
ghost use Rattle.circom_files.specs.Steps.{Gets};

use crate::stop::Stop;
use cir_ast::Text;
use cir_values::{InputShape, Signals};
use circom_lines::{BadInput, Refusal};
use gold_field::Gold;
use std::alloc::{AllocError, Global};
use wit_input::{InputFault, read_input};

/// The numbers that a run starts from, 1 and those of main's inputs, in bytes that were read.
pub fn input_from(alloc: Global, bytes: &[u8], signals: &Signals) -> Result<Vec<Gold>, Stop>
    requires { length signals.now.inputs ≤ 2 ^ 32 }
    ensures { Gets (λ v. v.items)
        (accepted_input signals.now.inputs (input_of bytes.now signals.now.inputs)) result }
{
    match read_input(alloc, bytes, signals) {
        Ok(values) => Ok(values),
        Err(fault) => match bad_input(alloc, signals.inputs.as_slice(), fault) {
            Ok(refusal) => Err(Stop::Refused(Refusal::BadInput(refusal))),
            Err(_) => Err(Stop::OutOfMemory),
        },
    }
}

// What is wrong with the input, by the names of main's inputs.
fn bad_input(
    alloc: Global,
    inputs: &[InputShape],
    fault: InputFault,
) -> Result<BadInput, AllocError>
    ensures { IfOk result (λ r. (fault ≢ OutOfMemory) × (r ≡ bad_input inputs.now fault)) }
{
    match fault {
        InputFault::NotJson => Ok(BadInput::NotJson),
        InputFault::Missing { input } => {
            let name = name_at(alloc, inputs, input)?;
            Ok(BadInput::Missing { name })
        }
        InputFault::UnknownSignal { key } => Ok(BadInput::UnknownSignal { key }),
        InputFault::WrongCount { input, has, wants } => {
            let name = name_at(alloc, inputs, input)?;
            Ok(BadInput::WrongCount { name, has, wants })
        }
        InputFault::BadNumber { input, index } => {
            let name = name_at(alloc, inputs, input)?;
            Ok(BadInput::BadNumber { name, index })
        }
        InputFault::OutOfMemory => Err(AllocError),
    }
}

// The name of the input of this place.
fn name_at(alloc: Global, inputs: &[InputShape], place: u32) -> Result<Text, AllocError>
    ensures { IfOk result (λ name. name ≡ name_at inputs.now place) }
{
    match inputs.get(place as usize) {
        Some(input) => Text::from_slice(alloc, input.name.as_slice()),
        None => Ok(Text::new()),
    }
}

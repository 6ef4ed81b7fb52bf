ghost use Rattle.std.specs.Prelude.{◌≡◌, ◌≢◌, ◌≤◌, ◌^◌, length, Ok, Err, IfErr, IfOk};
ghost use Rattle.serde_json.specs.View.{members_view};
ghost use Rattle.wit_input.specs.Input.{all_numbers, given, input_of};
ghost use Rattle.wit_input.specs.declared.fault.InputFault.TheVariants.{OutOfMemory};

use crate::checks::{Members, all_counted, all_known, all_present, input_values};
use crate::document::document;
use crate::fault::InputFault;
use crate::values::numbers;
use cir_values::{InputShape, Signals};
use gold_field::Gold;
use std::alloc::Global;

/// 1, and then the values of the inputs in the order of their numbers, from a JSON object that has
/// a key for each input.
#[tactic(auto, unfolding(crate::specs::Input::input_of))]
pub fn read_input(alloc: Global, bytes: &[u8], signals: &Signals) -> Result<Vec<Gold>, InputFault>
    requires { length signals.now.inputs ≤ 2 ^ 32 }
    ensures ok { IfOk result (λ v. input_of bytes.now signals.now.inputs ≡ Ok v.items) }
    ensures err { IfErr result (λ e. e ≢ OutOfMemory
        → input_of bytes.now signals.now.inputs ≡ Err e) }
{
    let document = document(alloc, bytes)?;
    match document.as_object() {
        Some(members) => given(alloc, members, signals.inputs.as_slice()),
        None => Err(InputFault::NotJson),
    }
}

// The same from the members of the object.
fn given(alloc: Global, members: &Members, inputs: &[InputShape]) -> Result<Vec<Gold>, InputFault>
    requires { length inputs.now ≤ 2 ^ 32 }
    ensures ok { IfOk result
        (λ v. given inputs.now (members_view members.now.entries) ≡ Ok v.items) }
    ensures err { IfErr result (λ e. e ≢ OutOfMemory
        → given inputs.now (members_view members.now.entries) ≡ Err e) }
{
    all_present(members, inputs)?;
    all_known(alloc, members, inputs)?;
    all_counted(alloc, members, inputs)?;
    let mut values = vec![in alloc; Gold::ONE]?;
    let others = all_numbers(alloc, members, inputs)?;
    values.extend_from_slice(others.as_slice())?;
    Ok(values)
}

// The numbers of all inputs.
fn all_numbers(
    alloc: Global,
    members: &Members,
    inputs: &[InputShape],
) -> Result<Vec<Gold>, InputFault>
    requires { length inputs.now ≤ 2 ^ 32 }
    ensures ok { IfOk result
        (λ v. all_numbers (members_view members.now.entries) 0 inputs.now ≡ Ok v.items) }
    ensures err { IfErr result (λ e. e ≢ OutOfMemory
        → all_numbers (members_view members.now.entries) 0 inputs.now ≡ Err e) }
{
    let mut found = Vec::new(alloc);
    for (place, input) in inputs.iter().enumerate() {
        let values = input_values(alloc, members, input)?;
        let these = numbers(alloc, place as u32, values.as_slice())?;
        found.extend_from_slice(these.as_slice())?;
    }
    Ok(found)
}

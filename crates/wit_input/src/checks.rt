//! The tests of an object of inputs, in their order.

ghost use Rattle.std.specs.Prelude.{◌≡◌, ◌≢◌, ◌≤◌, ◌^◌, length, None, Some, OnOk, IfErr, IfOk};
ghost use Rattle.std.specs.Prelude.{option_map, map};
ghost use Rattle.serde_json.specs.Find.{get_member};
ghost use Rattle.serde_json.specs.View.{view, members_view};
ghost use Rattle.wit_input.specs.Input.{first_fault, is_input, missing, unknown, unless};
ghost use Rattle.wit_input.specs.Input.{values_for, wrong_count};
ghost use Rattle.wit_input.specs.declared.fault.InputFault.TheVariants.{OutOfMemory};

use crate::fault::InputFault;
use crate::names::NameSet;
use crate::values::values_in;
use cir_values::{InputShape, Text};
use serde_json::{Map, Value};
use std::alloc::{AllocError, Global};
use std::{slice, str};

/// The members of a JSON object.
pub(crate) type Members = Map<String, Value>;

// The value under the name.
fn member<'v>(members: &'v Members, name: &[u8]) -> Option<&'v Value>
    ensures { option_map (λ v. view v.now) result
        ≡ get_member name.now (members_view members.now.entries) }
{
    match str::from_utf8(name) {
        Ok(name) => members.get(name),
        Err(_) => None,
    }
}

/// The values under an input's name.
pub(crate) fn input_values<'v>(
    alloc: Global,
    members: &'v Members,
    input: &InputShape,
) -> Result<Vec<&'v Value>, AllocError>
    ensures { IfOk result (λ found. map (λ v. view v.now) found.items
        ≡ values_for (members_view members.now.entries) input.now) }
{
    match member(members, input.name.as_slice()) {
        Some(value) => values_in(alloc, slice::from_ref(value)),
        None => Ok(Vec::new(alloc)),
    }
}

/// Each input that has elements has a key.
pub(crate) fn all_present(members: &Members, inputs: &[InputShape]) -> Result<(), InputFault>
    requires { length inputs.now ≤ 2 ^ 32 }
    ensures { result
        ≡ unless (first_fault (missing (members_view members.now.entries)) 0 inputs.now) }
{
    for (place, input) in inputs.iter().enumerate() {
        if input.count > 0 && member(members, input.name.as_slice()).is_none() {
            return Err(InputFault::Missing {
                input: place as u32,
            });
        }
    }
    Ok(())
}

/// Each key is the name of an input.
pub(crate) fn all_known(
    alloc: Global,
    members: &Members,
    inputs: &[InputShape],
) -> Result<(), InputFault>
    ensures ok { OnOk result
        (unknown (is_input inputs.now) (members_view members.now.entries) ≡ None) }
    ensures err { IfErr result (λ e. e ≢ OutOfMemory
        → unknown (is_input inputs.now) (members_view members.now.entries) ≡ Some e) }
{
    let names = NameSet::of_inputs(alloc, inputs)?;
    for (key, _) in members.iter() {
        if !names.contains(key.as_bytes()) {
            return Err(InputFault::UnknownSignal {
                key: Text::from_slice(alloc, key.as_bytes())?,
            });
        }
    }
    Ok(())
}

/// Each input has as many values as elements.
pub(crate) fn all_counted(
    alloc: Global,
    members: &Members,
    inputs: &[InputShape],
) -> Result<(), InputFault>
    requires { length inputs.now ≤ 2 ^ 32 }
    ensures ok { OnOk result
        (first_fault (wrong_count (members_view members.now.entries)) 0 inputs.now ≡ None) }
    ensures err { IfErr result (λ e. e ≢ OutOfMemory
        → first_fault (wrong_count (members_view members.now.entries)) 0 inputs.now ≡ Some e) }
{
    for (place, input) in inputs.iter().enumerate() {
        let has = input_values(alloc, members, input)?.len() as u64;
        if has != u64::from(input.count) {
            return Err(InputFault::WrongCount {
                input: place as u32,
                has,
                wants: input.count,
            });
        }
    }
    Ok(())
}

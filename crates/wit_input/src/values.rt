//! The values in nested arrays, and their numbers.

ghost use Rattle.std.specs.Prelude.{◌≡◌, ◌≢◌, ◌∷◌, [], map, Ok, Err, IfErr, IfOk};
ghost use Rattle.serde_json.specs.View.{view, items_of};
ghost use Rattle.wit_input.specs.Input.{numbers_from};
ghost use Rattle.wit_input.specs.Values.{values_in};
ghost use Rattle.wit_input.specs.declared.fault.InputFault.TheVariants.{OutOfMemory};

use crate::fault::InputFault;
use crate::number::number;
use gold_field::Gold;
use serde_json::Value;
use std::alloc::{AllocError, Global};

/// The values in a list of JSON values, an array's own in its place. Arrays that are begun wait in
/// a list, so that nesting takes no stack.
pub(crate) fn values_in<'v>(alloc: Global, items: &'v [Value]) -> Result<Vec<&'v Value>, AllocError>
    ensures { IfOk result (λ found. map (λ v. view v.now) found.items
        ≡ values_in (items_of (map view items.now))) }
{
    let mut found = Vec::new(alloc);
    let mut pending = Vec::new(alloc);
    pending.push(items)?;
    while let Some(items) = pending.pop() {
        if items.is_empty() {
            continue;
        }
        let first = &items[0];
        pending.push(&items[1..])?;
        match first.as_array() {
            Some(inner) => pending.push(inner.as_slice())?,
            None => found.push(first)?,
        }
    }
    Ok(found)
}

/// The numbers of the values of an input.
pub(crate) fn numbers(alloc: Global, input: u32, values: &[&Value]) -> Result<Vec<Gold>, InputFault>
    ensures ok { IfOk result
        (λ v. numbers_from input 0 (map (λ x. view x.now) values.now) ≡ Ok v.items) }
    ensures err { IfErr result (λ e. e ≢ OutOfMemory
        → numbers_from input 0 (map (λ x. view x.now) values.now) ≡ Err e) }
{
    let mut numbers = Vec::new(alloc);
    for (place, value) in values.iter().enumerate() {
        match number(value) {
            Some(number) => numbers.push(number)?,
            None => {
                return Err(InputFault::BadNumber {
                    input,
                    index: place as u64,
                });
            }
        }
    }
    Ok(numbers)
}

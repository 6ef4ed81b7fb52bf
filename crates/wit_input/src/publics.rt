ghost use Rattle.std.specs.Prelude.{◌≡◌, ◌≢◌, ◌++◌, Ok, Err, IfErr, IfOk, OnOk};
ghost use Rattle.wit_input.specs.Publics.{publics_of, publics_text, items_text, others_text};
ghost use Rattle.wit_input.specs.Publics.{quoted};
ghost use Rattle.wit_input.specs.declared.fault.InputFault.TheVariants.{OutOfMemory};

use crate::document::document;
use crate::fault::InputFault;
use crate::values::{numbers, values_in};
use gold_field::Gold;
use std::alloc::{AllocError, Global};

/// The values of a JSON array.
#[tactic(auto, unfolding(crate::specs::Publics::publics_of))]
pub fn read_publics(alloc: Global, bytes: &[u8]) -> Result<Vec<Gold>, InputFault>
    ensures ok { IfOk result (λ v. publics_of bytes.now ≡ Ok v.items) }
    ensures err { IfErr result (λ e. e ≢ OutOfMemory → publics_of bytes.now ≡ Err e) }
{
    let document = document(alloc, bytes)?;
    match document.as_array() {
        Some(items) => {
            let values = values_in(alloc, items.as_slice())?;
            numbers(alloc, 0, values.as_slice())
        }
        None => Err(InputFault::NotJson),
    }
}

/// The JSON array of the values, as decimal strings: `["33","3"]`.
pub fn write_publics(alloc: Global, values: &[Gold]) -> Result<Vec<u8>, AllocError>
    ensures { IfOk result (λ v. v.items ≡ publics_text values.now) }
{
    let mut text = Vec::new(alloc);
    text.push(b'[')?;
    push_items(alloc, &mut text, values)?;
    text.push(b']')?;
    Ok(text)
}

fn push_items(alloc: Global, text: &mut Vec<u8>, values: &[Gold]) -> Result<(), AllocError>
    ensures { OnOk result (text.new.items ≡ text.old.items ++ items_text values.now) }
{
    if values.is_empty() {
        return Ok(());
    }
    push_quoted(alloc, text, values[0])?;
    push_others(alloc, text, &values[1..])
}

fn push_others(alloc: Global, text: &mut Vec<u8>, values: &[Gold]) -> Result<(), AllocError>
    ensures { OnOk result (text.new.items ≡ text.old.items ++ others_text values.now) }
{
    for value in values {
        text.push(b',')?;
        push_quoted(alloc, text, *value)?;
    }
    Ok(())
}

fn push_quoted(alloc: Global, text: &mut Vec<u8>, value: Gold) -> Result<(), AllocError>
    ensures { OnOk result (text.new.items ≡ text.old.items ++ quoted value) }
{
    let number = value.get();
    let piece = format!(in alloc; "\"{number}\"")?;
    text.extend_from_slice(piece.as_bytes())?;
    Ok(())
}

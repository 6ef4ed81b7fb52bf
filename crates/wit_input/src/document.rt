ghost use Rattle.std.specs.Prelude.{◌≡◌, ◌≢◌, None, Some, IfErr, IfOk};
ghost use Rattle.serde_json.specs.View.{view};
ghost use Rattle.wit_input.specs.Document.{json_of};
ghost use Rattle.wit_input.specs.declared.fault.InputFault.TheVariants.{NotJson, OutOfMemory};

use crate::fault::InputFault;
use serde_json::Value;
use std::alloc::Global;

/// The JSON value that the bytes spell.
pub(crate) fn document(alloc: Global, bytes: &[u8]) -> Result<Value, InputFault>
    ensures ok { IfOk result (λ v. json_of bytes.now ≡ Some (view v)) }
    ensures err { IfErr result (λ e. e ≢ OutOfMemory
        → (e ≡ NotJson) × (json_of bytes.now ≡ None)) }
{
    match Value::from_slice(alloc, bytes) {
        Ok(document) => Ok(document),
        Err(error) => {
            if error.is_memory() {
                Err(InputFault::OutOfMemory)
            } else {
                Err(InputFault::NotJson)
            }
        }
    }
}

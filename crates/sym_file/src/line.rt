ghost use Rattle.std.specs.Prelude.{◌≡◌, IfOk};
ghost use Rattle.sym_file.specs.Line.{said_by, wire_of, is_name};

use std::alloc::{AllocError, Global};
use text::Text;
use text_lines::{Line, number, split_once};

/// What a line of a file of symbols says of a signal.
#[derive(Drop)]
pub struct SymLine {
    pub label: u64,
    /// None where the signal isn't kept, so that it has no wire.
    pub wire: Option<u32>,
    pub instance: u64,
    /// The path of its instance, a dot, and its name there.
    pub name: Text,
}

impl Line for SymLine {
    ghost use Rattle.sym_file.specs.Line.{said};

    ghost form = { said };

    fn read(alloc: Global, line: &[u8]) -> Result<Option<SymLine>, AllocError> {
        let Some((label, behind)) = split_once(line, b',') else {
            return Ok(None);
        };
        let Some((wire, rest)) = split_once(behind, b',') else {
            return Ok(None);
        };
        let Some((instance, name)) = split_once(rest, b',') else {
            return Ok(None);
        };
        said_by(alloc, label, wire, instance, name)
    }
}

fn said_by(
    alloc: Global,
    label: &[u8],
    wire: &[u8],
    instance: &[u8],
    name: &[u8],
) -> Result<Option<SymLine>, AllocError>
    ensures { IfOk result (λ said. said ≡ said_by label.now wire.now instance.now name.now) }
{
    let Some(label) = number(label) else {
        return Ok(None);
    };
    let Some(wire) = wire_of(wire) else {
        return Ok(None);
    };
    let Some(instance) = number(instance) else {
        return Ok(None);
    };
    if !is_name(name) {
        return Ok(None);
    }
    let name = Text::from_slice(alloc, name)?;
    Ok(Some(SymLine {
        label,
        wire,
        instance,
        name,
    }))
}

// The wire, or None within for `-1`.
fn wire_of(text: &[u8]) -> Option<Option<u32>>
    ensures { result ≡ wire_of text.now }
{
    if text == b"-1".as_slice() {
        return Some(None);
    }
    match number(text) {
        Some(wire) => {
            if wire < 4294967296 {
                Some(Some(wire as u32))
            } else {
                None
            }
        }
        None => None,
    }
}

fn is_name(bytes: &[u8]) -> bool
    ensures { result ≡ is_name bytes.now }
{
    if bytes.is_empty() {
        return false;
    }
    match str::from_utf8(bytes) {
        Ok(_) => true,
        Err(_) => false,
    }
}

//! The lines of `sym`, and of `check` where wires have names.

ghost use Rattle.std.specs.Prelude.{◌≡◌, IfOk};
ghost use Rattle.circom_lines.specs.Symbols.{named_line, names_text, symbols_line, wire_name};

use crate::lines::line;
use cir_ast::Text;
use std::alloc::{AllocError, Global};

/// The line of a command that has written so many lines.
pub fn symbols_line(alloc: Global, lines: u32) -> Result<Vec<u8>, AllocError>
    ensures { IfOk result (λ v. v.items ≡ symbols_line lines) }
{
    let lines = format!(in alloc; "{lines}")?;
    line(alloc, &[b"sym: lines ", lines.as_bytes()])
}

/// What stands for the name of a wire that no line names.
pub fn wire_name(alloc: Global, wire: u32) -> Result<Text, AllocError>
    ensures { IfOk result (λ name. name ≡ wire_name wire) }
{
    let name = format!(in alloc; "wire {wire}")?;
    Text::from_slice(alloc, name.as_bytes())
}

/// The line of a constraint that fails, with the names of its wires.
pub fn named_line(alloc: Global, index: u32, names: &[Text]) -> Result<Vec<u8>, AllocError>
    ensures { IfOk result (λ v. v.items ≡ named_line index names.now) }
{
    let index = format!(in alloc; "{index}")?;
    let names = names_text(alloc, names)?;
    line(
        alloc,
        &[
            b"unsatisfied: constraint ",
            index.as_bytes(),
            b":",
            names.as_slice(),
        ],
    )
}

// The names, with a space before each.
fn names_text(alloc: Global, names: &[Text]) -> Result<Vec<u8>, AllocError>
    ensures { IfOk result (λ v. v.items ≡ names_text names.now) }
{
    let mut text = Vec::new(alloc);
    for name in names {
        text.push(b' ')?;
        text.extend_from_slice(name.as_slice())?;
    }
    Ok(text)
}

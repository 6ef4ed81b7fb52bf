ghost use Rattle.std.specs.Prelude.{◌≡◌, IfOk, map};
ghost use Rattle.text_lines.specs.Lines.{lines_of};

use std::alloc::{AllocError, Global};
use text_lines::first_line;

/// The lines of a text.
pub fn lines(alloc: Global, text: &[u8]) -> Result<Vec<&[u8]>, AllocError>
    ensures { IfOk result (λ v. map (λ line. line.now) v.items ≡ lines_of text.now) }
{
    let mut lines = Vec::new(alloc);
    let mut rest = text;
    while let Some((line, behind)) = first_line(rest) {
        lines.push(line)?;
        rest = behind;
    }
    Ok(lines)
}

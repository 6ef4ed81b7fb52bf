ghost use Rattle.std.specs.Prelude.{◌≤◌, length, IfOk};
ghost use Rattle.binary_format.specs.Reading.{Gives};
ghost use Rattle.text_lines.specs.Reading.{refused};
ghost use Rattle.sym_file.specs.Line.{symbols_of};

use crate::line::SymLine;
use std::alloc::Global;
use text_lines::{LineFault, read_lines};

/// A file of symbols has at most so many lines.
const MOST_LINES: u32 = 16777216;

/// Why a file of symbols isn't read.
pub type SymFault = LineFault;

/// What the lines of a file of symbols say, in order. The last line feed may be missing.
pub fn read_sym(alloc: Global, bytes: &[u8]) -> Result<Vec<SymLine>, SymFault>
    ensures lines { Gives refused (λ lines. lines.items) result (symbols_of bytes.now) }
    ensures few { IfOk result (λ lines. length lines.items ≤ 16777216) }
{
    read_lines(alloc, bytes, MOST_LINES)
}

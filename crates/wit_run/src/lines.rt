// The log lines of a run, by what cells hold behind it.
ghost use Rattle.std.specs.Prelude.{◌≡◌, ◌++◌, ◌∷◌, [], IfOk, OnOk, unwrap_or};
ghost use Rattle.std.specs.Fmt.{decimal};
ghost use Rattle.wit_run.specs.Lines.{behind_space, cells_in, part_text, line_text, lines_before};

use cir_ast::Text;
use gold_field::Gold;
use std::alloc::{AllocError, Global};
use wit_circuit::{LogLine, LogPart};

/// What cells hold: a number each, or a number where they have one.
#[derive(Clone, Copy)]
pub(crate) enum Held<'v> {
    All(&'v [Gold]),
    Some(&'v [Option<Gold>]),
}

// The number in a cell, which is 0 where it has none.
fn number_in(held: Held<'_>, cell: u32) -> Gold
    ensures { result ≡ unwrap_or (cells_in held.entry cell) 0 }
{
    match held {
        Held::All(values) => values.get(cell as usize).copied().unwrap_or(Gold::ZERO),
        Held::Some(cells) => match cells.get(cell as usize) {
            Some(Some(value)) => *value,
            _ => Gold::ZERO,
        },
    }
}

fn push_number(alloc: Global, text: &mut Vec<u8>, number: u64) -> Result<(), AllocError>
    ensures { OnOk result (text.new.items ≡ text.old.items ++ decimal number) }
{
    let digits = format!(in alloc; "{number}")?;
    text.extend_from_slice(digits.as_bytes())?;
    Ok(())
}

fn push_part(
    alloc: Global,
    text: &mut Vec<u8>,
    part: &LogPart,
    held: Held<'_>,
) -> Result<(), AllocError>
    ensures { OnOk result (text.new.items
        ≡ text.old.items ++ part_text (cells_in held.entry) part.now) }
{
    match part {
        LogPart::Words(words) => {
            text.extend_from_slice(words.as_slice())?;
            Ok(())
        }
        LogPart::Cell(cell) => push_number(alloc, text, number_in(held, *cell).get()),
    }
}

// The part at this place of a line, behind a space unless it is the first.
fn push_at(
    alloc: Global,
    text: &mut Vec<u8>,
    place: usize,
    part: &LogPart,
    held: Held<'_>,
) -> Result<(), AllocError>
    ensures { OnOk result (text.new.items
        ≡ text.old.items ++ behind_space place (part_text (cells_in held.entry) part.now)) }
{
    if place == 0 {
        return push_part(alloc, text, part, held);
    }
    text.push(b' ')?;
    push_part(alloc, text, part, held)
}

// The parts of a line with one space between them.
fn line_of(alloc: Global, parts: &[LogPart], held: Held<'_>) -> Result<Text, AllocError>
    ensures { IfOk result (λ t. t ≡ line_text (cells_in held.entry) parts.now) }
{
    let mut text = Vec::new(alloc);
    for (place, part) in parts.iter().enumerate() {
        push_at(alloc, &mut text, place, part, held)?;
    }
    Text::from_slice(alloc, text.as_slice())
}

fn push_before(
    alloc: Global,
    lines: &mut Vec<Text>,
    log: &LogLine,
    step: usize,
    held: Held<'_>,
) -> Result<(), AllocError>
    ensures { OnOk result (lines.new.items
        ≡ lines.old.items ++ lines_before step (cells_in held.entry) (log.now ∷ [])) }
{
    if (log.step as usize) < step {
        let line = line_of(alloc, log.parts.as_slice(), held)?;
        lines.push(line)?;
    }
    Ok(())
}

/// The log lines of the steps before this one.
pub(crate) fn lines_before(
    alloc: Global,
    logs: &[LogLine],
    step: usize,
    held: Held<'_>,
) -> Result<Vec<Text>, AllocError>
    ensures { IfOk result (λ v. v.items ≡ lines_before step (cells_in held.entry) logs.now) }
{
    let mut lines = Vec::new(alloc);
    for log in logs {
        push_before(alloc, &mut lines, log, step, held)?;
    }
    Ok(lines)
}

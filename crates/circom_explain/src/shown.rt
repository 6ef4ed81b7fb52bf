//! A source's line, with a caret under the place.

use source_hints::{Advice, Spot, add};
use std::alloc::{AllocError, Global};

// A line is shown from so many bytes before the column to so many behind it.
const BEFORE: u32 = 60;

const BEHIND: u32 = 100;

/// The text of the advice, with the line of the source, which has this name, where there is one.
pub fn text_of(
    alloc: Global,
    advice: &Advice,
    file: &str,
    source: Option<&[u8]>,
) -> Result<String, AllocError> {
    let mut text = String::new(alloc);
    add(&mut text, &["note: ", advice.note.as_str(), "\n"])?;
    if let Some(spot) = advice.spot {
        let line = source.and_then(|bytes| line_of(bytes, spot.line));
        add_place(alloc, &mut text, file, spot, line)?;
    }
    if !advice.help.as_str().is_empty() {
        add(&mut text, &["help: ", advice.help.as_str(), "\n"])?;
    }
    Ok(text)
}

/// The line of this number, counted from 1, without its line feed.
pub fn line_of(source: &[u8], number: u32) -> Option<&[u8]> {
    let mut at: u32 = 0;
    for line in source.split(|byte| *byte == b'\n') {
        at = at.saturating_add(1);
        if at == number {
            return Some(line);
        }
    }
    None
}

// `--> FILE:LINE:COLUMN`, and under it the line and the caret.
fn add_place(
    alloc: Global,
    text: &mut String,
    file: &str,
    spot: Spot,
    line: Option<&[u8]>,
) -> Result<(), AllocError> {
    let row = spot.line;
    let column = spot.column;
    let row = format!(in alloc; "{row}")?;
    let column = format!(in alloc; "{column}")?;
    add_blanks(text, row.len())?;
    add(
        text,
        &["--> ", file, ":", row.as_str(), ":", column.as_str(), "\n"],
    )?;
    let Some(line) = line else {
        return Ok(());
    };
    add_blanks(text, row.len())?;
    add(text, &[" |\n", row.as_str(), " | "])?;
    let first = spot.column.saturating_sub(BEFORE).max(1);
    add_line(text, line, first)?;
    text.push('\n')?;
    add_blanks(text, row.len())?;
    text.push_str(" | ")?;
    let skipped = if first > 1 { 2 } else { 0 };
    add_blanks(
        text,
        (spot.column.saturating_sub(first) as usize).saturating_add(skipped),
    )?;
    add_carets(text, spot.len)?;
    text.push('\n')?;
    Ok(())
}

// The line from this column on, and `..` where a part isn't shown. A tab is shown as one blank, and
// a byte that isn't ASCII as `?`.
fn add_line(text: &mut String, line: &[u8], first: u32) -> Result<(), AllocError> {
    let last = first.saturating_add(BEFORE).saturating_add(BEHIND);
    if first > 1 {
        text.push_str("..")?;
    }
    let mut column: u32 = 0;
    for byte in line {
        column = column.saturating_add(1);
        if first <= column && column <= last {
            text.push(shown(*byte))?;
        }
    }
    if column > last {
        text.push_str("..")?;
    }
    Ok(())
}

fn shown(byte: u8) -> char {
    match byte {
        b' '..=b'~' => char::from(byte),
        b'\t' | b'\r' => ' ',
        _ => '?',
    }
}

fn add_blanks(text: &mut String, count: usize) -> Result<(), AllocError> {
    for _ in 0..count {
        text.push(' ')?;
    }
    Ok(())
}

fn add_carets(text: &mut String, count: u32) -> Result<(), AllocError> {
    for _ in 0..count.clamp(1, BEHIND) {
        text.push('^')?;
    }
    Ok(())
}

//! Files that aren't there, that can't be read or written, or whose bytes are refused.

use crate::case::Case;
use crate::commands::form_of;
use crate::usage::Walked;
use source_hints::{Advice, add};
use std::alloc::{AllocError, Global};
use watched_io::{Asked, Outcome};

/// A file of the words isn't there.
pub fn absent_advice(alloc: Global, name: &str) -> Result<Advice, AllocError> {
    let mut advice = Advice::new(alloc);
    advice.note(&["there is no file ", name])?;
    if !name.starts_with('/') {
        advice.help(&["names are taken from the folder in which the program runs"])?;
    }
    Ok(advice)
}

/// An include names no file.
pub fn include_advice(alloc: Global, case: &Case<'_>) -> Result<Advice, AllocError> {
    let mut advice = Advice::new(alloc);
    advice.note(&["no file is found; looked for "])?;
    let mut between = "";
    for asked in last_absent(case.asked) {
        advice.note(&[between, asked.name.as_str()])?;
        between = " and ";
    }
    let has_folder = case
        .words
        .iter()
        .any(|word| word.as_str().starts_with("-l"));
    if has_folder {
        advice.help(&["an include's name begins at its own file's folder, or at that of -l"])?;
    } else {
        advice.help(&["name the folder that has it: -l DIR"])?;
    }
    Ok(advice)
}

// The last calls that found no file, two at most.
fn last_absent(asked: &[Asked]) -> &[Asked] {
    let mut count: usize = 0;
    for call in asked.iter().rev() {
        if count == 2 || call.outcome != Outcome::NotThere {
            break;
        }
        count = count.saturating_add(1);
    }
    match asked.get(asked.len().saturating_sub(count)..) {
        Some(last) => last,
        None => asked,
    }
}

/// The store failed.
pub fn fault_advice(alloc: Global, case: &Case<'_>) -> Result<Option<Advice>, AllocError> {
    let Some(asked) = case.asked.iter().rev().find(|asked| is_failed(asked)) else {
        return Ok(None);
    };
    let done = match asked.outcome {
        Outcome::WriteFailed => " can't be written",
        _ => " can't be read",
    };
    let mut advice = Advice::new(alloc);
    advice.note(&[asked.name.as_str(), done])?;
    if let Some(cause) = case.system {
        advice.note(&[": ", cause])?;
    }
    Ok(Some(advice))
}

fn is_failed(asked: &Asked) -> bool {
    matches!(asked.outcome, Outcome::ReadFailed | Outcome::WriteFailed)
}

/// A file's bytes are refused.
pub fn bad_file_advice<'x>(
    alloc: Global,
    name: &'x str,
    code: &'x str,
    place: &'x str,
) -> Result<Advice, AllocError> {
    let mut advice = Advice::new(alloc);
    advice.note(&[name, ", ", place, ": "])?;
    advice.note(&[cause_text(code)])?;
    advice.help(&[cause_help(code)])?;
    Ok(advice)
}

fn cause_text(code: &str) -> &'static str {
    match code {
        "F1" => "the file doesn't begin as its kind of file does",
        "F2" => "the format's version is another one",
        "F3" => "the file ends too early",
        "F4" => "a section is missing",
        "F5" => "a section stands twice",
        "F6" =>
            "the file is for another prime than 2^64 - 2^32 + 1, or its values aren't of 8 bytes",
        "F7" => "a value isn't below the prime",
        "F8" => "a constraint names a wire that isn't there",
        "F9" => "two counts of the file don't agree",
        "F10" => "the file has custom gates",
        "F11" => "the file passes a limit",
        "C1" => "this isn't a rule of a certificate",
        "C2" => "there are more rules than are read",
        "S1" => "this isn't a line of a file of names",
        "S2" => "there are more lines than are read",
        _ => "the file is refused",
    }
}

fn cause_help(code: &str) -> &'static str {
    match code {
        "F1" => "look at the order of the words: R1CS comes before WTNS",
        "F6" => "compile the source anew by circom_gold: files of another field mean nothing here",
        "C1" | "C2" => "docs/determined.md has the form of a certificate",
        _ => "docs/file-formats.md has the form of the files and their limits",
    }
}

/// The warning that the file to be written is also one that is read. Paths are compared as they are
/// spelled, but for `./` before them.
pub fn overwriting(alloc: Global, words: &[String]) -> Result<Option<String>, AllocError> {
    let Some((command, others)) = words.split_first() else {
        return Ok(None);
    };
    let Some(form) = form_of(command.as_str()) else {
        return Ok(None);
    };
    let walked = Walked::over(alloc, form, others)?;
    let Some((out, inputs)) = walked.names.split_last() else {
        return Ok(None);
    };
    let is_read = inputs.iter().any(|input| plain(input) == plain(out));
    if !form.writes || walked.names.len() != form.files.len() || !is_read {
        return Ok(None);
    }
    let mut text = String::new(alloc);
    let lost = " is also a file that is read, and its bytes are lost\n";
    add(&mut text, &["warning: ", out, lost])?;
    Ok(Some(text))
}

fn plain(name: &str) -> &str {
    name.trim_start_matches("./")
}

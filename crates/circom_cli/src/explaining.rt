//! What is said on standard error besides the answer. The answer, its line and its status, is
//! `run`'s alone.

use circom_explain::{Case, explanation, file_to_show, overwriting};
use std::alloc::{AllocError, AllocGlobal, Global};
use std::env;
use std::fs::{File, OpenOptions, metadata, read};
use std::io::{Error, ErrorKind, IsTerminal, Read};
use std::rt::Files;
use watched_io::{Asked, Outcome};

// No longer source is shown.
const LONGEST: u64 = 1 << 24;

/// Whether explanations are asked for: `CIRCOM_GOLD_EXPLAIN` is 1; or it isn't 0, and standard
/// error is a terminal.
pub fn is_explaining(rt: &HostRuntime) -> bool {
    let is_terminal = rt.stderr().is_terminal();
    match env::var(rt, "CIRCOM_GOLD_EXPLAIN") {
        Ok(value) => match value.as_str() {
            "0" => false,
            "1" => true,
            _ => is_terminal,
        },
        Err(_) => is_terminal,
    }
}

/// Whether the progress of a long command is shown: standard error is a terminal, and explanations
/// are asked for.
pub fn is_watched(rt: &HostRuntime, explains: bool) -> bool {
    explains && rt.stderr().is_terminal()
}

/// Says, before a command begins, that it loses a file.
pub fn warn(rt: &(impl Eprint + AllocGlobal), words: &[String]) {
    if let Ok(Some(text)) = overwriting(rt.alloc(), words) {
        let _ = eprint!(rt; "{text}");
    }
}

/// Says what the answer means, where there is memory for it.
pub fn explain<'x, R: Files + Eprint + AllocGlobal>(
    rt: &R,
    words: &'x [String],
    printed: &'x [u8],
    status: u8,
    asked: &'x [Asked],
) -> Result<(), AllocError> {
    let source = source_of(rt, words, printed);
    let system = cause_of(rt, asked)?;
    let case = Case {
        words,
        printed,
        status,
        asked,
        source: None,
        system: None,
    };
    match explained(rt.alloc(), &case, &source, &system)? {
        Some(text) => {
            let _ = eprint!(rt; "{text}");
            Ok(())
        }
        None => Ok(()),
    }
}

// The explanation with what the files show. One lifetime is that of all.
fn explained<'x>(
    alloc: Global,
    case: &Case<'x>,
    source: &'x Option<Vec<u8>>,
    system: &'x Option<String>,
) -> Result<Option<String>, AllocError> {
    let source = source.as_ref().map(|bytes| bytes.as_slice());
    let system = system.as_ref().map(|text| text.as_str());
    let case = Case {
        words: case.words,
        printed: case.printed,
        status: case.status,
        asked: case.asked,
        source,
        system,
    };
    explanation(alloc, &case)
}

// The source that was refused, read once more. What isn't a file of its own, as a pipe, isn't.
fn source_of<R: Files + AllocGlobal>(rt: &R, words: &[String], printed: &[u8]) -> Option<Vec<u8>> {
    let name = file_to_show(words, printed)?;
    match metadata(rt, name) {
        Ok(found) if found.is_file() && found.len() <= LONGEST => read(rt, name).ok(),
        _ => None,
    }
}

// What the system says of the call that failed, when it is asked once more.
fn cause_of<R: Files + AllocGlobal>(rt: &R, asked: &[Asked]) -> Result<Option<String>, AllocError> {
    for call in asked.iter().rev() {
        let name = call.name.as_str();
        match call.outcome {
            Outcome::ReadFailed => return read_again(rt, name),
            Outcome::WriteFailed => return open_again(rt, name),
            _ => {}
        }
    }
    Ok(None)
}

fn read_again<R: Files + AllocGlobal>(rt: &R, name: &str) -> Result<Option<String>, AllocError> {
    let mut buffer = [0u8; 1];
    match File::open(rt, name) {
        Ok(mut file) => match file.read(&mut buffer) {
            Ok(_) => Ok(None),
            Err(error) => text_of(rt.alloc(), error),
        },
        Err(error) => text_of(rt.alloc(), error),
    }
}

// The file is opened for writing, and neither made nor changed.
fn open_again<R: Files + AllocGlobal>(rt: &R, name: &str) -> Result<Option<String>, AllocError> {
    match OpenOptions::new().write(true).open(rt, name) {
        Ok(_) => cause(
            rt.alloc(),
            "the system took only a part of it; is there room?",
        ),
        Err(error) if error.kind() == ErrorKind::NotFound => absent_cause(rt, name),
        Err(error) => text_of(rt.alloc(), error),
    }
}

fn absent_cause<R: Files + AllocGlobal>(rt: &R, name: &str) -> Result<Option<String>, AllocError> {
    let is_folder = match name.rsplit_once('/') {
        Some(("", _)) | None => true,
        Some((folder, _)) => match metadata(rt, folder) {
            Ok(found) => found.is_dir(),
            Err(_) => false,
        },
    };
    if is_folder {
        cause(rt.alloc(), "a file can't be made in its folder")
    } else {
        cause(rt.alloc(), "its folder isn't there")
    }
}

fn cause(alloc: Global, text: &str) -> Result<Option<String>, AllocError> {
    Ok(Some(String::from_str(alloc, text)?))
}

fn text_of(alloc: Global, error: Error) -> Result<Option<String>, AllocError> {
    Ok(Some(format!(in alloc; "{error}")?))
}

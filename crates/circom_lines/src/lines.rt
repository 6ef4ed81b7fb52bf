ghost use Rattle.std.specs.Prelude.{◌≡◌, map, IfOk};
ghost use Rattle.circom_lines.specs.Lines.{line, usage_line, fault_line, compiled_line};
ghost use Rattle.circom_lines.specs.Lines.{bad_file_line, cause_text, count_line};
ghost use Rattle.circom_lines.specs.Lines.{bad_lines_line, line_cause_text};

use crate::answer::{BadInput, LineCause, LineKind, Refusal, Verdict};
use crate::sources::source_line;
use iden_files::FileCause;
use std::alloc::{AllocError, Global};

impl Refusal {
    ghost use Rattle.circom_lines.specs.Lines.{refusal_line};

    /// The printed line, with its line feed.
    pub fn line(&self, alloc: Global) -> Result<Vec<u8>, AllocError>
        ensures { IfOk result (λ v. v.items ≡ refusal_line self.now) }
    {
        match self {
            Refusal::NoSuchFile { name } => {
                line(alloc, &[b"refused: ", name.as_slice(), b": no such file"])
            }
            Refusal::BadFile {
                name,
                cause,
                offset,
            } => {
                let offset = format!(in alloc; "{offset}")?;
                bad_file_line(alloc, name.as_slice(), cause_text(*cause), offset.as_str())
            }
            Refusal::BadLines {
                name,
                kind,
                cause,
                line,
            } => {
                let line = format!(in alloc; "{line}")?;
                let cause = line_cause_text(*kind, *cause);
                bad_lines_line(alloc, name.as_slice(), cause, line.as_str())
            }
            Refusal::BadSource(refusal) => source_line(alloc, refusal),
            Refusal::BadInput(refusal) => refusal.line(alloc),
            Refusal::LargeBatch { size } => {
                let size = format!(in alloc; "{size}")?;
                line(alloc, &[b"refused: B1 Limit ", size.as_bytes()])
            }
        }
    }
}

impl BadInput {
    ghost use Rattle.circom_lines.specs.Lines.{input_line};

    /// The printed line, with its line feed.
    pub fn line(&self, alloc: Global) -> Result<Vec<u8>, AllocError>
        ensures { IfOk result (λ v. v.items ≡ input_line self.now) }
    {
        match self {
            BadInput::NotJson => line(alloc, &[b"refused: I1 NotJson"]),
            BadInput::Missing { name } => {
                line(alloc, &[b"refused: I2 Missing ", name.as_slice()])
            }
            BadInput::UnknownSignal { key } => {
                line(alloc, &[b"refused: I3 UnknownSignal ", key.as_slice()])
            }
            BadInput::WrongCount { name, has, wants } => {
                let has = format!(in alloc; "{has}")?;
                let wants = format!(in alloc; "{wants}")?;
                count_line(alloc, name.as_slice(), has.as_str(), wants.as_str())
            }
            BadInput::BadNumber { name, index } => {
                let index = format!(in alloc; "{index}")?;
                line(
                    alloc,
                    &[
                        b"refused: I5 BadNumber ",
                        name.as_slice(),
                        b" ",
                        index.as_bytes(),
                    ],
                )
            }
        }
    }
}

fn count_line<'a>(
    alloc: Global,
    name: &'a [u8],
    has: &'a str,
    wants: &'a str,
) -> Result<Vec<u8>, AllocError>
    ensures { IfOk result (λ v. v.items ≡ count_line name.now has.now wants.now) }
{
    line(
        alloc,
        &[
            b"refused: I4 WrongCount ",
            name,
            b" ",
            has.as_bytes(),
            b" ",
            wants.as_bytes(),
        ],
    )
}

impl Verdict {
    ghost use Rattle.circom_lines.specs.Lines.{verdict_status, verdict_line};

    /// The exit status.
    pub fn status(&self) -> u8
        ensures { result ≡ verdict_status self.now }
    {
        match self {
            Verdict::CountsDiffer { .. } => 1,
            Verdict::WireZero | Verdict::ConstraintFails { .. } => 2,
            Verdict::Satisfied => 0,
        }
    }

    /// The printed line, with its line feed.
    pub fn line(&self, alloc: Global) -> Result<Vec<u8>, AllocError>
        ensures { IfOk result (λ v. v.items ≡ verdict_line self.now) }
    {
        match self {
            Verdict::CountsDiffer { values, wires } => {
                let values = format!(in alloc; "{values}")?;
                let wires = format!(in alloc; "{wires}")?;
                line(
                    alloc,
                    &[
                        b"refused: ",
                        values.as_bytes(),
                        b" values for ",
                        wires.as_bytes(),
                        b" wires",
                    ],
                )
            }
            Verdict::WireZero => line(alloc, &[b"unsatisfied: wire 0"]),
            Verdict::ConstraintFails { index } => {
                let index = format!(in alloc; "{index}")?;
                line(alloc, &[b"unsatisfied: constraint ", index.as_bytes()])
            }
            Verdict::Satisfied => line(alloc, &[b"satisfied"]),
        }
    }
}

fn bad_file_line<'a>(
    alloc: Global,
    name: &'a [u8],
    cause: &'a str,
    offset: &'a str,
) -> Result<Vec<u8>, AllocError>
    ensures { IfOk result (λ v. v.items ≡ bad_file_line name.now cause.now offset.now) }
{
    line(
        alloc,
        &[
            b"refused: ",
            name,
            b": ",
            cause.as_bytes(),
            b" at byte ",
            offset.as_bytes(),
        ],
    )
}

fn bad_lines_line<'a>(
    alloc: Global,
    name: &'a [u8],
    cause: &'a str,
    number: &'a str,
) -> Result<Vec<u8>, AllocError>
    ensures { IfOk result (λ v. v.items ≡ bad_lines_line name.now cause.now number.now) }
{
    line(
        alloc,
        &[
            b"refused: ",
            name,
            b": ",
            cause.as_bytes(),
            b" at line ",
            number.as_bytes(),
        ],
    )
}

fn line_cause_text(kind: LineKind, cause: LineCause) -> &'static str
    ensures { result.now ≡ line_cause_text kind cause }
{
    match (kind, cause) {
        (LineKind::Rule, LineCause::BadLine) => "C1 BadLine",
        (LineKind::Rule, LineCause::Limit) => "C2 Limit",
        (LineKind::Symbol, LineCause::BadLine) => "S1 BadLine",
        (LineKind::Symbol, LineCause::Limit) => "S2 Limit",
    }
}

fn cause_text(cause: FileCause) -> &'static str
    ensures { result.now ≡ cause_text cause }
{
    match cause {
        FileCause::Magic => "F1 Magic",
        FileCause::Version => "F2 Version",
        FileCause::Truncated => "F3 Truncated",
        FileCause::SectionMissing => "F4 SectionMissing",
        FileCause::SectionTwice => "F5 SectionTwice",
        FileCause::WrongPrime => "F6 WrongPrime",
        FileCause::ValueTooLarge => "F7 ValueTooLarge",
        FileCause::WireOutOfRange => "F8 WireOutOfRange",
        FileCause::BadCount => "F9 BadCount",
        FileCause::CustomGates => "F10 CustomGates",
        FileCause::Limit => "F11 Limit",
    }
}

/// The line of a command that has made a file of so many wires and constraints.
pub fn compiled_line(alloc: Global, wires: u32, constraints: u32) -> Result<Vec<u8>, AllocError>
    ensures { IfOk result (λ v. v.items ≡ compiled_line wires constraints) }
{
    let wires = format!(in alloc; "{wires}")?;
    let constraints = format!(in alloc; "{constraints}")?;
    line(
        alloc,
        &[
            b"compiled: wires ",
            wires.as_bytes(),
            b", constraints ",
            constraints.as_bytes(),
        ],
    )
}

/// The line of words without a reading.
pub fn usage_line(alloc: Global) -> Result<Vec<u8>, AllocError>
    ensures { IfOk result (λ v. v.items ≡ usage_line) }
{
    line(
        alloc,
        &[
            b"usage: circom_gold check, compile, witness, prove, public, audit, sym, batch, ",
            b"series, determine, confirm or generate",
        ],
    )
}

/// The line that says that the store failed.
pub fn fault_line(alloc: Global) -> Result<Vec<u8>, AllocError>
    ensures { IfOk result (λ v. v.items ≡ fault_line) }
{
    line(alloc, &[b"fault: store"])
}

/// The parts one after another, and a line feed.
pub fn line(alloc: Global, parts: &[&[u8]]) -> Result<Vec<u8>, AllocError>
    ensures { IfOk result (λ v. v.items ≡ line (map (λ part. part.now) parts.now)) }
{
    let mut bytes = Vec::new(alloc);
    for part in parts {
        bytes.extend_from_slice(part)?;
    }
    bytes.push(b'\n')?;
    Ok(bytes)
}

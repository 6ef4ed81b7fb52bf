ghost use Rattle.std.specs.Prelude.{◌≡◌, ◌≤◌, ◌++◌, IfOk, length};
ghost use Rattle.iden_files.specs.Limits.{most_wires};
ghost use Rattle.circom_lines.specs.RunLines.{log_text};
ghost use Rattle.circom_files.specs.Shown.{shown};

use crate::outcome::{Generated, Halt, Named, Outcome, Published, Ran};
use cir_ast::Text;
use cir_determined::{Answer, Confirm, write_rules};
use circom_lines::{
    Refusal, Verdict, audit_line, audit_status, confirmed_line, confirmed_status, determined_line,
    fault_line, generated_line, log_text, named_line, proved_line, public_line, stop_line,
    symbols_line, undetermined_line, usage_line, witness_line,
};
use iden_files::write_wtns;
use items::Items;
use lig_proof::Verdict as Audited;
use std::alloc::{AllocError, Global};
use wit_input::write_publics;

/// What the program answers: the exit status, all that it puts, and the file that it writes before,
/// if any.
pub struct Reply<'w> {
    pub status: u8,
    pub text: Items<u8>,
    pub file: Option<NewFile<'w>>,
}

// Written out, so that the proof of an owner sees one call and not the drop of each part.
impl Drop for Reply<'_> {
    fn drop(self) {
        let Reply {
            status: _status,
            text: _text,
            file: _file,
        } = self;
    }
}

/// A file that is written.
#[derive(Drop)]
pub struct NewFile<'w> {
    pub name: &'w str,
    pub bytes: Items<u8>,
}

impl<'w> Reply<'w> {
    ghost use Rattle.circom_files.specs.Reply.{usage, refused, checked, written, proved, published};
    ghost use Rattle.circom_files.specs.Reply.{audited, checked_by_name, confirmed, determined};
    ghost use Rattle.circom_files.specs.Reply.{store_failed, symbols_written};
    ghost use Rattle.circom_files.specs.Determining.{IsReadBack};
    ghost use Rattle.circom_files.specs.Running.{witnessed, generated, halted, values_of};

    /// A reply that writes no file.
    fn saying(status: u8, text: Vec<u8>) -> Reply<'w>
        ensures { shown result ≡ record { status = status; text = text.items; file = None } }
    {
        Reply {
            status,
            text: Items::of(text),
            file: None,
        }
    }

    /// The reply to words without a reading.
    pub fn usage(alloc: Global) -> Result<Reply<'w>, AllocError>
        ensures { IfOk result (λ r. shown r ≡ usage) }
    {
        Ok(Reply::saying(64, usage_line(alloc)?))
    }

    /// The reply to a file, a source or inputs that are refused.
    pub fn refused(alloc: Global, refusal: &Refusal) -> Result<Reply<'w>, AllocError>
        ensures { IfOk result (λ r. shown r ≡ refused refusal.now) }
    {
        Ok(Reply::saying(1, refusal.line(alloc)?))
    }

    /// The reply of `check`.
    pub fn checked(alloc: Global, verdict: Verdict) -> Result<Reply<'w>, AllocError>
        ensures { IfOk result (λ r. shown r ≡ checked verdict) }
    {
        Ok(Reply::saying(verdict.status(), verdict.line(alloc)?))
    }

    /// The reply of `check` where wires have names.
    pub fn checked_by_name(alloc: Global, found: Named) -> Result<Reply<'w>, AllocError>
        ensures { IfOk result (λ r. shown r ≡ checked_by_name found) }
    {
        match found.verdict {
            Verdict::ConstraintFails { index } => {
                let text = named_line(alloc, index, found.names.as_slice())?;
                Ok(Reply::saying(2, text))
            }
            Verdict::CountsDiffer { .. } | Verdict::WireZero | Verdict::Satisfied => {
                Reply::checked(alloc, found.verdict)
            }
        }
    }

    /// The reply of `sym`: so many lines are written under the name.
    pub fn symbols_written(
        alloc: Global,
        out: &'w str,
        lines: u32,
        text: Items<u8>,
    ) -> Result<Reply<'w>, AllocError>
        ensures { IfOk result (λ r. shown r ≡ symbols_written out.entry.now lines text) }
    {
        Ok(Reply::written(symbols_line(alloc, lines)?, out, text))
    }

    /// Success, with this line, and a file under the name.
    pub fn written(text: Vec<u8>, out: &'w str, bytes: Items<u8>) -> Reply<'w>
        ensures { shown result ≡ written text.items out.entry.now bytes }
    {
        Reply {
            status: 0,
            text: Items::of(text),
            file: Some(NewFile { name: out, bytes }),
        }
    }

    /// The reply of `prove`.
    pub fn proved(alloc: Global, out: &'w str, outcome: Outcome) -> Result<Reply<'w>, AllocError>
        ensures { IfOk result (λ r. shown r ≡ proved out.entry.now outcome) }
    {
        match outcome {
            Outcome::Made(bytes) => {
                let text = proved_line(alloc, bytes.len())?;
                Ok(Reply::written(text, out, bytes))
            }
            Outcome::Unmade(verdict) => Reply::checked(alloc, verdict),
        }
    }

    /// The reply of `public`.
    pub fn published(alloc: Global, out: &'w str, found: Published) -> Result<Reply<'w>, AllocError>
        ensures { IfOk result (λ r. shown r ≡ published out.entry.now found) }
    {
        match found {
            Published::Values(values) => {
                let bytes = write_publics(alloc, values.as_slice())?;
                let text = public_line(alloc, values.len())?;
                Ok(Reply::written(text, out, Items::of(bytes)))
            }
            Published::Wrong(verdict) => Reply::checked(alloc, verdict),
        }
    }

    /// The reply of `audit`.
    pub fn audited(alloc: Global, verdict: Audited) -> Result<Reply<'w>, AllocError>
        ensures { IfOk result (λ r. shown r ≡ audited verdict) }
    {
        Ok(Reply::saying(audit_status(verdict), audit_line(alloc, verdict)?))
    }

    /// The reply of `determine`.
    pub fn determined(alloc: Global, out: &'w str, found: Answer) -> Result<Reply<'w>, AllocError>
        ensures reply { IfOk result (λ r. shown r ≡ determined out.entry.now found) }
        ensures read_back { IfOk result (λ _. IsReadBack found) }
    {
        match found {
            Answer::Shown(rules) => {
                let bytes = write_rules(alloc, rules.as_slice())?;
                let text = determined_line(alloc)?;
                Ok(Reply::written(text, out, Items::of(bytes)))
            }
            Answer::NotShown { wire } => Ok(Reply::saying(2, undetermined_line(alloc, wire)?)),
        }
    }

    /// The reply of `confirm`.
    pub fn confirmed(alloc: Global, found: Confirm) -> Result<Reply<'w>, AllocError>
        ensures { IfOk result (λ r. shown r ≡ confirmed found) }
    {
        Ok(Reply::saying(confirmed_status(found), confirmed_line(alloc, found)?))
    }

    /// What is said where the store failed.
    pub fn store_failed(alloc: Global) -> Result<Reply<'w>, AllocError>
        ensures { IfOk result (λ r. shown r ≡ store_failed) }
    {
        Ok(Reply::saying(3, fault_line(alloc)?))
    }

    /// The reply of a command whose run stops.
    fn halted(alloc: Global, halt: &Halt) -> Result<Reply<'w>, AllocError>
        ensures { IfOk result (λ r. shown r ≡ halted halt.now) }
    {
        let line = stop_line(alloc, halt.stop, &halt.place)?;
        let text = logged(alloc, halt.log.as_slice(), line)?;
        Ok(Reply::saying(1, text))
    }

    /// The reply of `witness`.
    pub fn witnessed(alloc: Global, out: &'w str, ran: Ran) -> Result<Reply<'w>, AllocError>
        requires { length (values_of ran) ≤ most_wires }
        ensures { IfOk result (λ r. shown r ≡ witnessed out.entry.now ran) }
    {
        match ran {
            Ran::Ended { values, log } => {
                let line = witness_line(alloc, values.len())?;
                let text = logged(alloc, log.as_slice(), line)?;
                let bytes = write_wtns(alloc, values.as_slice())?;
                Ok(Reply::written(text, out, Items::of(bytes)))
            }
            Ran::Halted(halt) => Reply::halted(alloc, &halt),
        }
    }

    /// The reply of `generate`.
    pub fn generated(alloc: Global, links: u32, found: Generated) -> Result<Reply<'w>, AllocError>
        ensures { IfOk result (λ r. shown r ≡ generated links found) }
    {
        match found {
            Generated::Ended {
                wires,
                constraints,
                out,
                log,
            } => {
                let line = generated_line(alloc, links, wires, constraints, out.get())?;
                let text = logged(alloc, log.as_slice(), line)?;
                Ok(Reply::saying(0, text))
            }
            Generated::Halted(halt) => Reply::halted(alloc, &halt),
        }
    }
}

// The log lines, and one more line.
fn logged(alloc: Global, log: &[Text], line: Vec<u8>) -> Result<Vec<u8>, AllocError>
    ensures { IfOk result (λ v. v.items ≡ log_text log.now ++ line.items) }
{
    let mut text = log_text(alloc, log)?;
    text.extend_from_slice(line.as_slice())?;
    Ok(text)
}

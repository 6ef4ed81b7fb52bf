ghost use Rattle.out_io.specs.Held.{OfAll, OnlyReads};
ghost use Rattle.out_io.specs.Faults.{Rose};
ghost use Rattle.iden_files.specs.File.{InLimits};
ghost use Rattle.std.specs.Prelude.{◌≡◌, ◌∷◌, [], ◌<◌, ◌≤◌, ◌^◌, All, IfOk, length, Ok};
ghost use Rattle.gold_field.specs.declared.gold.TheConstants.{P};
ghost use Rattle.iden_files.specs.ReadR1cs.{r1cs_of};
ghost use Rattle.iden_files.specs.ReadWtns.{wtns_of};
ghost use Rattle.wit_input.specs.Publics.{publics_of};
ghost use Rattle.cir_determined.specs.Text.{rules_of};
ghost use Rattle.sym_file.specs.Line.{symbols_of};
ghost use Rattle.circom_files.specs.Asked.{Asks};
ghost use Rattle.circom_files.specs.Files.{accepted, accepted_publics, accepted_rules};
ghost use Rattle.circom_files.specs.Files.{accepted_symbols, bytes_in};
ghost use Rattle.circom_files.specs.Proving.{witness_of};
ghost use Rattle.circom_files.specs.Steps.{Gets, HeldWith, Refuses, RefusesPublics};
ghost use Rattle.circom_files.specs.Steps.{RefusesLines, Steps};
ghost use Rattle.circom_files.specs.Stops.{faults_by};

use crate::outcome::Witness;
use crate::stop::Stop;
use cir_ast::Text;
use cir_determined::{Rule, read_rules};
use circom_lines::{BadInput, LineCause, LineKind, Refusal};
use gold_field::Gold;
use iden_files::{FileFault, R1cs, read_r1cs, read_wtns};
use items::Items;
use out_io::Store;
use std::alloc::Global;
use sym_file::{SymLine, read_sym};
use text_lines::LineFault;
use wit_input::{InputFault, read_publics};

/// The bytes that were read under a name.
#[derive(Clone, Copy)]
pub struct Read<'n> {
    pub name: &'n str,
    pub bytes: &'n [u8],
}

/// The bytes under the name.
pub fn bytes_in<S: Store>(alloc: Global, store: &mut S, name: &str) -> Result<Vec<u8>, Stop>
    ensures step { Steps (λ v. v.items) (S.may_hold store.new) (λ files. bytes_in files name.now)
        (Rose (S.faults store.old) (S.faults store.new)) result }
    ensures asked { Asks (name.now ∷ []) (S.calls store.old) (S.calls store.new) }
    ensures counted { S.faults store.new ≡ faults_by result (S.faults store.old) }
    ensures store { OnlyReads (S.may_hold store.old) (S.may_hold store.new)
        (S.faults store.old) (S.faults store.new)
        (S.never_fails store.old) (S.never_fails store.new) }
{
    match store.read(alloc, name)? {
        Some(bytes) => Ok(bytes),
        None => Err(Stop::Refused(Refusal::NoSuchFile {
            name: Text::from_slice(alloc, name.as_bytes())?,
        })),
    }
}

/// The bytes under the name, which is read only where it isn't one of those that were read before.
pub fn bytes_after<S: Store>(
    alloc: Global,
    store: &mut S,
    first: Read<'_>,
    second: Option<Read<'_>>,
    name: &str,
) -> Result<Vec<u8>, Stop>
    ensures step { Steps (λ v. v.items)
        (HeldWith (S.may_hold store.new) first.entry second.entry)
        (λ files. bytes_in files name.now)
        (Rose (S.faults store.old) (S.faults store.new)) result }
    ensures asked { Asks (name.now ∷ []) (S.calls store.old) (S.calls store.new) }
    ensures counted { S.faults store.new ≡ faults_by result (S.faults store.old) }
    ensures store { OnlyReads (S.may_hold store.old) (S.may_hold store.new)
        (S.faults store.old) (S.faults store.new)
        (S.never_fails store.old) (S.never_fails store.new) }
{
    if first.name == name {
        return Ok(Vec::from_slice(alloc, first.bytes)?);
    }
    if let Some(second) = second {
        if second.name == name {
            return Ok(Vec::from_slice(alloc, second.bytes)?);
        }
    }
    bytes_in(alloc, store, name)
}

// Why the file isn't read.
fn refused(alloc: Global, name: &str, fault: FileFault) -> Stop
    ensures { Refuses name.now fault result }
{
    match fault {
        FileFault::At { cause, offset } => match Text::from_slice(alloc, name.as_bytes()) {
            Ok(name) => Stop::Refused(Refusal::BadFile {
                name,
                cause,
                offset,
            }),
            Err(_) => Stop::OutOfMemory,
        },
        FileFault::OutOfMemory => Stop::OutOfMemory,
    }
}

/// The file of constraints in the bytes that were read under the name.
pub fn r1cs_from(alloc: Global, name: &str, bytes: &[u8]) -> Result<R1cs, Stop>
    ensures step { Gets (λ file. file) (accepted name.now (r1cs_of bytes.now)) result }
    ensures limits { IfOk result InLimits }
{
    match read_r1cs(alloc, bytes) {
        Ok(file) => Ok(file),
        Err(fault) => Err(refused(alloc, name, fault)),
    }
}

/// The values in the bytes that were read under the name.
pub fn wtns_from(alloc: Global, name: &str, bytes: &[u8]) -> Result<Vec<Gold>, Stop>
    ensures step { Gets (λ v. v.items) (accepted name.now (wtns_of bytes.now)) result }
    ensures numbers { IfOk result (λ v. All (λ value. value < P) v.items) }
{
    match read_wtns(alloc, bytes) {
        Ok(values) => Ok(values),
        Err(fault) => Err(refused(alloc, name, fault)),
    }
}

/// The public values in bytes that were read.
pub fn publics_from(alloc: Global, bytes: &[u8]) -> Result<Vec<Gold>, Stop>
    ensures { Gets (λ v. v.items) (accepted_publics (publics_of bytes.now)) result }
{
    match read_publics(alloc, bytes) {
        Ok(values) => Ok(values),
        Err(fault) => Err(refused_publics(alloc, fault)),
    }
}

/// The rules in the bytes that were read under the name.
pub fn rules_from(alloc: Global, name: &str, bytes: &[u8]) -> Result<Vec<Rule>, Stop>
    ensures step { Gets (λ v. v.items) (accepted_rules name.now (rules_of bytes.now)) result }
    ensures few { IfOk result (λ v. length v.items < 2 ^ 32) }
{
    match read_rules(alloc, bytes) {
        Ok(rules) => Ok(rules),
        Err(fault) => Err(refused_lines(alloc, name, LineKind::Rule, fault)),
    }
}

/// What is said of signals in the bytes that were read under the name.
pub fn symbols_from(alloc: Global, name: &str, bytes: &[u8]) -> Result<Vec<SymLine>, Stop>
    ensures step { Gets (λ v. v.items) (accepted_symbols name.now (symbols_of bytes.now)) result }
    ensures few { IfOk result (λ v. length v.items ≤ 16777216) }
{
    match read_sym(alloc, bytes) {
        Ok(lines) => Ok(lines),
        Err(fault) => Err(refused_lines(alloc, name, LineKind::Symbol, fault)),
    }
}

// Why a text of lines isn't read.
fn refused_lines(alloc: Global, name: &str, kind: LineKind, fault: LineFault) -> Stop
    ensures { RefusesLines kind name.now fault result }
{
    let (cause, line) = match fault {
        LineFault::BadLine { line } => (LineCause::BadLine, line),
        LineFault::Limit { line } => (LineCause::Limit, line),
        LineFault::OutOfMemory => return Stop::OutOfMemory,
    };
    match Text::from_slice(alloc, name.as_bytes()) {
        Ok(name) => Stop::Refused(Refusal::BadLines {
            name,
            kind,
            cause,
            line,
        }),
        Err(_) => Stop::OutOfMemory,
    }
}

/// The file of constraints and the values.
pub fn witness_in<S: Store>(
    alloc: Global,
    r1cs: &str,
    wtns: &str,
    store: &mut S,
) -> Result<Witness, Stop>
    ensures step { Steps (λ w. w) (S.may_hold store.new)
        (λ files. witness_of files r1cs.now wtns.now)
        (Rose (S.faults store.old) (S.faults store.new)) result }
    ensures limits { IfOk result (λ w. InLimits w.file) }
    ensures numbers { IfOk result (λ w. All (λ value. value < P) w.values) }
    ensures asked { Asks (r1cs.now ∷ wtns.now ∷ []) (S.calls store.old) (S.calls store.new) }
    ensures counted { S.faults store.new ≡ faults_by result (S.faults store.old) }
    ensures store { OnlyReads (S.may_hold store.old) (S.may_hold store.new)
        (S.faults store.old) (S.faults store.new)
        (S.never_fails store.old) (S.never_fails store.new) }
{
    let (witness, _) = witness_with_text(alloc, r1cs, wtns, store)?;
    Ok(witness)
}

/// The same, with the bytes of the file of values.
pub fn witness_with_text<S: Store>(
    alloc: Global,
    r1cs: &str,
    wtns: &str,
    store: &mut S,
) -> Result<(Witness, Vec<u8>), Stop>
    ensures step { Steps (λ read. read.0) (S.may_hold store.new)
        (λ files. witness_of files r1cs.now wtns.now)
        (Rose (S.faults store.old) (S.faults store.new)) result }
    ensures bytes { IfOk result (λ read. OfAll (S.may_hold store.new)
        (λ files. bytes_in files r1cs.now ≡ Ok read.0.bytes)) }
    ensures text { IfOk result (λ read. OfAll (S.may_hold store.new)
        (λ files. bytes_in files wtns.now ≡ Ok read.1.items)) }
    ensures limits { IfOk result (λ read. InLimits read.0.file) }
    ensures numbers { IfOk result (λ read. All (λ value. value < P) read.0.values) }
    ensures asked { Asks (r1cs.now ∷ wtns.now ∷ []) (S.calls store.old) (S.calls store.new) }
    ensures counted { S.faults store.new ≡ faults_by result (S.faults store.old) }
    ensures store { OnlyReads (S.may_hold store.old) (S.may_hold store.new)
        (S.faults store.old) (S.faults store.new)
        (S.never_fails store.old) (S.never_fails store.new) }
{
    let bytes = bytes_in(alloc, store, r1cs)?;
    let file = r1cs_from(alloc, r1cs, bytes.as_slice())?;
    let read = Read {
        name: r1cs,
        bytes: bytes.as_slice(),
    };
    let text = bytes_after(alloc, store, read, None, wtns)?;
    let values = wtns_from(alloc, wtns, text.as_slice())?;
    let witness = Witness {
        bytes: Items::of(bytes),
        file,
        values: Items::of(values),
    };
    Ok((witness, text))
}

// Why the public values aren't read.
fn refused_publics(alloc: Global, fault: InputFault) -> Stop
    ensures { RefusesPublics fault result }
{
    match fault {
        InputFault::OutOfMemory => Stop::OutOfMemory,
        InputFault::BadNumber { index, .. } => match Text::from_slice(alloc, b"public") {
            Ok(name) => Stop::Refused(Refusal::BadInput(BadInput::BadNumber { name, index })),
            Err(_) => Stop::OutOfMemory,
        },
        _ => Stop::Refused(Refusal::BadInput(BadInput::NotJson)),
    }
}

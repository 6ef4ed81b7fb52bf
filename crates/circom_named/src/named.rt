//! The command `check` where wires have names.

ghost use Rattle.std.specs.Prelude.{◌≡◌, ◌∷◌, [], ◌<◌, ◌≤◌, length, IfOk};
ghost use Rattle.std.specs.Prelude.{IsErrOf};
ghost use Rattle.out_io.specs.Held.{OfAll, OnlyReads};
ghost use Rattle.out_io.specs.Faults.{Rose, faults_after};
ghost use Rattle.out_io.specs.declared.fault.IoFault.TheVariants.{Failed};
ghost use Rattle.iden_files.specs.File.{InLimits};
ghost use Rattle.circom_files.specs.Asked.{Asks};
ghost use Rattle.circom_named.specs.Named.{check_named_of, described_of, failing_names, named};
ghost use Rattle.circom_files.specs.Reply.{Says, checked_by_name};
ghost use Rattle.circom_files.specs.Shown.{shown};
ghost use Rattle.circom_files.specs.Steps.{Steps};
ghost use Rattle.circom_files.specs.Stops.{faults_by};

use crate::described::Described;
use crate::naming::names_of;
use cir_ast::Text;
use circom_files::{
    Named, Read, Reply, Stop, bytes_after, symbols_from, verdict, witness_with_text,
};
use circom_lines::Verdict;
use iden_files::R1cs;
use items::Items;
use out_io::{IoFault, Store};
use std::alloc::{AllocError, Global};
use sym_file::SymLine;

/// The reply of `check` where the third file names wires: whether the values in the second satisfy
/// the constraints in the first.
pub fn check_named_reply<'w, S: Store>(
    alloc: Global,
    r1cs: &str,
    wtns: &str,
    names: &str,
    store: &mut S,
) -> Result<Reply<'w>, IoFault>
    ensures says { IfOk result (λ r. OfAll (S.may_hold store.new) (λ files. Says checked_by_name
        (λ found. check_named_of files r1cs.now wtns.now names.now ≡ found) (shown r))) }
    ensures status { IfOk result (λ r. r.status < 3) }
    ensures fault { IsErrOf result Failed → Rose (S.faults store.old) (S.faults store.new) }
    ensures asked { Asks (r1cs.now ∷ wtns.now ∷ names.now ∷ [])
        (S.calls store.old) (S.calls store.new) }
    ensures counted { S.faults store.new ≡ faults_after result (S.faults store.old) }
    ensures store { OnlyReads (S.may_hold store.old) (S.may_hold store.new)
        (S.faults store.old) (S.faults store.new)
        (S.never_fails store.old) (S.never_fails store.new) }
{
    match check_named(alloc, r1cs, wtns, names, store) {
        Ok(found) => Ok(Reply::checked_by_name(alloc, found)?),
        Err(stop) => stop.reply(alloc),
    }
}

// What `check` finds in the three files.
fn check_named<S: Store>(
    alloc: Global,
    r1cs: &str,
    wtns: &str,
    names: &str,
    store: &mut S,
) -> Result<Named, Stop>
    ensures step { Steps (λ found. found) (S.may_hold store.new)
        (λ files. check_named_of files r1cs.now wtns.now names.now)
        (Rose (S.faults store.old) (S.faults store.new)) result }
    ensures asked { Asks (r1cs.now ∷ wtns.now ∷ names.now ∷ [])
        (S.calls store.old) (S.calls store.new) }
    ensures counted { S.faults store.new ≡ faults_by result (S.faults store.old) }
    ensures store { OnlyReads (S.may_hold store.old) (S.may_hold store.new)
        (S.faults store.old) (S.faults store.new)
        (S.never_fails store.old) (S.never_fails store.new) }
{
    let described = described_in(alloc, r1cs, wtns, names, store)?;
    let found = named(alloc, &described)?;
    Ok(found)
}

// The constraints and the values, and the names of wires, which are read last.
fn described_in<S: Store>(
    alloc: Global,
    r1cs: &str,
    wtns: &str,
    names: &str,
    store: &mut S,
) -> Result<Described, Stop>
    ensures step { Steps (λ d. d) (S.may_hold store.new)
        (λ files. described_of files r1cs.now wtns.now names.now)
        (Rose (S.faults store.old) (S.faults store.new)) result }
    ensures limits { IfOk result (λ d. InLimits d.witness.file) }
    ensures few { IfOk result (λ d. length d.lines ≤ 16777216) }
    ensures asked { Asks (r1cs.now ∷ wtns.now ∷ names.now ∷ [])
        (S.calls store.old) (S.calls store.new) }
    ensures counted { S.faults store.new ≡ faults_by result (S.faults store.old) }
    ensures store { OnlyReads (S.may_hold store.old) (S.may_hold store.new)
        (S.faults store.old) (S.faults store.new)
        (S.never_fails store.old) (S.never_fails store.new) }
{
    let (witness, values) = witness_with_text(alloc, r1cs, wtns, store)?;
    let first = Read {
        name: r1cs,
        bytes: witness.bytes.as_slice(),
    };
    let second = Read {
        name: wtns,
        bytes: values.as_slice(),
    };
    let text = bytes_after(alloc, store, first, Some(second), names)?;
    let lines = symbols_from(alloc, names, text.as_slice())?;
    Ok(Described {
        witness,
        lines: Items::of(lines),
    })
}

// What `check` finds, with names.
fn named(alloc: Global, described: &Described) -> Result<Named, AllocError>
    requires limits { InLimits described.now.witness.file }
    requires few { length described.now.lines ≤ 16777216 }
    ensures { IfOk result (λ found. found ≡ named described.now.witness.file
        described.now.witness.values described.now.lines) }
{
    let file = &described.witness.file;
    let verdict = verdict(file, described.witness.values.as_slice());
    let names = failing_names(alloc, file, described.lines.as_slice(), verdict)?;
    Ok(Named {
        verdict,
        names: Items::of(names),
    })
}

// The names of the wires of the constraint that fails, if one does.
fn failing_names(
    alloc: Global,
    file: &R1cs,
    lines: &[SymLine],
    verdict: Verdict,
) -> Result<Vec<Text>, AllocError>
    requires { length lines.now ≤ 16777216 }
    ensures { IfOk result (λ names. names.items ≡ failing_names file.now lines.now verdict) }
{
    match verdict {
        Verdict::ConstraintFails { index } => {
            match file.constraints().get(index as usize) {
                Some(constraint) => names_of(alloc, lines, file.wires, constraint),
                None => Ok(Vec::new(alloc)),
            }
        }
        _ => Ok(Vec::new(alloc)),
    }
}

//! The commands `determine` and `confirm`.

ghost use Rattle.std.specs.Prelude.{◌≡◌, ◌∷◌, [], ◌<◌, ◌^◌, length, IfOk, IsErrOf};
ghost use Rattle.out_io.specs.Held.{OfAll, OnlyReads};
ghost use Rattle.out_io.specs.Faults.{Rose, faults_after};
ghost use Rattle.out_io.specs.declared.fault.IoFault.TheVariants.{Failed};
ghost use Rattle.iden_files.specs.File.{InLimits};
ghost use Rattle.circom_files.specs.Asked.{Asks};
ghost use Rattle.circom_files.specs.Determining.{Confirms, IsConfirmed, IsSearched, Searches};
ghost use Rattle.circom_files.specs.Determining.{HasDetermined, WritesCertificate, circuit_of};
ghost use Rattle.circom_files.specs.Determining.{claim_of};
ghost use Rattle.cir_determined.specs.Determined.{Determines};
ghost use Rattle.cir_determined.specs.declared.rule.Confirm.TheVariants.{Confirmed};
ghost use Rattle.circom_files.specs.Files.{r1cs_in};
ghost use Rattle.circom_files.specs.Reply.{Says, confirmed, determined};
ghost use Rattle.circom_files.specs.Shown.{shown};
ghost use Rattle.circom_files.specs.Steps.{Steps, StepsTo};
ghost use Rattle.circom_files.specs.Stops.{faults_by};

use crate::inputs::{Read, bytes_after, bytes_in, r1cs_from, rules_from};
use crate::outcome::Claim;
use crate::reply::Reply;
use crate::stop::Stop;
use cir_determined::{Answer, Confirm, confirm, determine};
use iden_files::R1cs;
use items::Items;
use out_io::{IoFault, Store};
use std::alloc::{AllocError, Global};

/// The reply of `determine`: rules by which the inputs determine the outputs, under the name `out`,
/// or the least output that no rules make known.
pub fn determine_reply<'w, S: Store>(
    alloc: Global,
    r1cs: &str,
    out: &'w str,
    store: &mut S,
) -> Result<Reply<'w>, IoFault>
    ensures says { IfOk result (λ r. OfAll (S.may_hold store.new) (λ files.
        Says (determined out.entry.now) (λ found. Searches files r1cs.now found) (shown r))) }
    ensures certificate { IfOk result (λ r. OfAll (S.may_hold store.new) (λ files.
        r.status ≡ 0 → WritesCertificate files r1cs.now out.entry.now (shown r))) }
    ensures status { IfOk result (λ r. r.status < 3) }
    ensures fault { IsErrOf result Failed → Rose (S.faults store.old) (S.faults store.new) }
    ensures asked { Asks (r1cs.now ∷ []) (S.calls store.old) (S.calls store.new) }
    ensures counted { S.faults store.new ≡ faults_after result (S.faults store.old) }
    ensures store { OnlyReads (S.may_hold store.old) (S.may_hold store.new)
        (S.faults store.old) (S.faults store.new)
        (S.never_fails store.old) (S.never_fails store.new) }
{
    match answer_in(alloc, r1cs, store) {
        Ok(answer) => Ok(Reply::determined(alloc, out, answer)?),
        Err(stop) => stop.reply(alloc),
    }
}

// What a search for rules finds.
fn answer_in<S: Store>(alloc: Global, r1cs: &str, store: &mut S) -> Result<Answer, Stop>
    ensures step { StepsTo (λ answer. answer) (S.may_hold store.new)
        (λ files found. Searches files r1cs.now found)
        (Rose (S.faults store.old) (S.faults store.new)) result }
    ensures asked { Asks (r1cs.now ∷ []) (S.calls store.old) (S.calls store.new) }
    ensures counted { S.faults store.new ≡ faults_by result (S.faults store.old) }
    ensures store { OnlyReads (S.may_hold store.old) (S.may_hold store.new)
        (S.faults store.old) (S.faults store.new)
        (S.never_fails store.old) (S.never_fails store.new) }
{
    let file = file_in(alloc, store, r1cs)?;
    let answer = searched(alloc, &file)?;
    Ok(answer)
}

// The file of constraints under the name.
fn file_in<S: Store>(alloc: Global, store: &mut S, name: &str) -> Result<R1cs, Stop>
    ensures step { Steps (λ f. f) (S.may_hold store.new) (λ files. r1cs_in files name.now)
        (Rose (S.faults store.old) (S.faults store.new)) result }
    ensures limits { IfOk result InLimits }
    ensures asked { Asks (name.now ∷ []) (S.calls store.old) (S.calls store.new) }
    ensures counted { S.faults store.new ≡ faults_by result (S.faults store.old) }
    ensures store { OnlyReads (S.may_hold store.old) (S.may_hold store.new)
        (S.faults store.old) (S.faults store.new)
        (S.never_fails store.old) (S.never_fails store.new) }
{
    let bytes = bytes_in(alloc, store, name)?;
    r1cs_from(alloc, name, bytes.as_slice())
}

// Rules that show it, or the least output that no rules make known.
fn searched(alloc: Global, file: &R1cs) -> Result<Answer, AllocError>
    requires { InLimits file.now }
    ensures { IfOk result (IsSearched file.now) }
{
    let inputs = file.public_inputs + file.private_inputs;
    determine(alloc, file.constraints(), file.wires, file.outputs, inputs)
}

/// The reply of `confirm`: what the rules in one file are worth for the constraints in the other.
pub fn confirm_reply<'w, S: Store>(
    alloc: Global,
    r1cs: &str,
    certificate: &str,
    store: &mut S,
) -> Result<Reply<'w>, IoFault>
    ensures says { IfOk result (λ r. OfAll (S.may_hold store.new) (λ files. Says confirmed
        (λ found. Confirms files r1cs.now certificate.now found) (shown r))) }
    ensures determined { IfOk result (λ r. OfAll (S.may_hold store.new)
        (λ files. r.status ≡ 0 → HasDetermined files r1cs.now)) }
    ensures status { IfOk result (λ r. r.status < 3) }
    ensures fault { IsErrOf result Failed → Rose (S.faults store.old) (S.faults store.new) }
    ensures asked { Asks (r1cs.now ∷ certificate.now ∷ []) (S.calls store.old) (S.calls store.new) }
    ensures counted { S.faults store.new ≡ faults_after result (S.faults store.old) }
    ensures store { OnlyReads (S.may_hold store.old) (S.may_hold store.new)
        (S.faults store.old) (S.faults store.new)
        (S.never_fails store.old) (S.never_fails store.new) }
{
    match verdict_in(alloc, r1cs, certificate, store) {
        Ok(verdict) => Ok(Reply::confirmed(alloc, verdict)?),
        Err(stop) => stop.reply(alloc),
    }
}

// What the rules are worth.
fn verdict_in<S: Store>(
    alloc: Global,
    r1cs: &str,
    certificate: &str,
    store: &mut S,
) -> Result<Confirm, Stop>
    ensures step { StepsTo (λ verdict. verdict) (S.may_hold store.new)
        (λ files found. Confirms files r1cs.now certificate.now found)
        (Rose (S.faults store.old) (S.faults store.new)) result }
    ensures determined { IfOk result (λ verdict. verdict ≡ Confirmed
        → OfAll (S.may_hold store.new) (λ files. HasDetermined files r1cs.now)) }
    ensures asked { Asks (r1cs.now ∷ certificate.now ∷ []) (S.calls store.old) (S.calls store.new) }
    ensures counted { S.faults store.new ≡ faults_by result (S.faults store.old) }
    ensures store { OnlyReads (S.may_hold store.old) (S.may_hold store.new)
        (S.faults store.old) (S.faults store.new)
        (S.never_fails store.old) (S.never_fails store.new) }
{
    let claim = claim_in(alloc, r1cs, certificate, store)?;
    let verdict = confirmed(alloc, &claim)?;
    Ok(verdict)
}

fn confirmed(alloc: Global, claim: &Claim) -> Result<Confirm, AllocError>
    requires limits { InLimits claim.now.file }
    requires few { length claim.now.rules < 2 ^ 32 }
    ensures confirmed { IfOk result (IsConfirmed claim.now) }
    ensures determined { IfOk result (λ verdict. verdict ≡ Confirmed
        → Determines (circuit_of claim.now.file)) }
{
    let file = &claim.file;
    let inputs = file.public_inputs + file.private_inputs;
    let rules = claim.rules.as_slice();
    confirm(
        alloc,
        file.constraints(),
        file.wires,
        file.outputs,
        inputs,
        rules,
    )
}

// The file of constraints and the rules.
fn claim_in<S: Store>(
    alloc: Global,
    r1cs: &str,
    certificate: &str,
    store: &mut S,
) -> Result<Claim, Stop>
    ensures step { Steps (λ c. c) (S.may_hold store.new)
        (λ files. claim_of files r1cs.now certificate.now)
        (Rose (S.faults store.old) (S.faults store.new)) result }
    ensures limits { IfOk result (λ c. InLimits c.file) }
    ensures few { IfOk result (λ c. length c.rules < 2 ^ 32) }
    ensures asked { Asks (r1cs.now ∷ certificate.now ∷ []) (S.calls store.old) (S.calls store.new) }
    ensures counted { S.faults store.new ≡ faults_by result (S.faults store.old) }
    ensures store { OnlyReads (S.may_hold store.old) (S.may_hold store.new)
        (S.faults store.old) (S.faults store.new)
        (S.never_fails store.old) (S.never_fails store.new) }
{
    let bytes = bytes_in(alloc, store, r1cs)?;
    let file = r1cs_from(alloc, r1cs, bytes.as_slice())?;
    let read = Read {
        name: r1cs,
        bytes: bytes.as_slice(),
    };
    let text = bytes_after(alloc, store, read, None, certificate)?;
    let rules = rules_from(alloc, certificate, text.as_slice())?;
    Ok(Claim {
        file,
        rules: Items::of(rules),
    })
}

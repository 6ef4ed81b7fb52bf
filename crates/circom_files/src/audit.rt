ghost use Rattle.std.specs.Prelude.{◌≡◌, ◌∷◌, [], ◌↔◌, ◌<◌, IfOk, IsErrOf};
ghost use Rattle.out_io.specs.Held.{OfAll, OnlyReads};
ghost use Rattle.out_io.specs.Faults.{Rose, faults_after};
ghost use Rattle.out_io.specs.declared.fault.IoFault.TheVariants.{Failed};
ghost use Rattle.iden_files.specs.File.{InLimits};
ghost use Rattle.circom_files.specs.Asked.{Asks};
ghost use Rattle.circom_files.specs.Accepted.{IsAccepted};
ghost use Rattle.circom_files.specs.Proving.{Audits, IsAudited, offer_of};
ghost use Rattle.circom_files.specs.Reply.{Says, audited};
ghost use Rattle.circom_files.specs.Shown.{shown};
ghost use Rattle.circom_files.specs.Steps.{Steps, StepsTo};
ghost use Rattle.circom_files.specs.Stops.{faults_by};

use crate::inputs::{Read, bytes_after, bytes_in, publics_from, r1cs_from};
use crate::outcome::Offer;
use crate::reply::Reply;
use crate::stop::Stop;
use items::Items;
use lig_auditor::audit;
use lig_proof::Verdict;
use out_io::{IoFault, Store};
use std::alloc::{AllocError, Global};
use std::thread::Threads;

/// The reply of `audit`: the verdict on the bytes that one file offers as a proof.
pub fn audit_reply<'w, R: Threads + AllocGlobal + Sync, S: Store>(
    rt: &R,
    alloc: Global,
    r1cs: &str,
    publics: &str,
    proof: &str,
    store: &mut S,
) -> Result<Reply<'w>, IoFault>
    ensures says { IfOk result (λ r. OfAll (S.may_hold store.new) (λ files. Says audited
        (λ found. Audits files r1cs.now publics.now proof.now found) (shown r))) }
    ensures accepted { IfOk result (λ r. OfAll (S.may_hold store.new) (λ files.
        (r.status ≡ 0) ↔ IsAccepted files r1cs.now publics.now proof.now)) }
    ensures status { IfOk result (λ r. r.status < 3) }
    ensures fault { IsErrOf result Failed → Rose (S.faults store.old) (S.faults store.new) }
    ensures asked { Asks (r1cs.now ∷ publics.now ∷ proof.now ∷ [])
        (S.calls store.old) (S.calls store.new) }
    ensures counted { S.faults store.new ≡ faults_after result (S.faults store.old) }
    ensures store { OnlyReads (S.may_hold store.old) (S.may_hold store.new)
        (S.faults store.old) (S.faults store.new)
        (S.never_fails store.old) (S.never_fails store.new) }
{
    match verdict_in(rt, alloc, r1cs, publics, proof, store) {
        Ok(verdict) => Ok(Reply::audited(alloc, verdict)?),
        Err(stop) => stop.reply(alloc),
    }
}

// The verdict on what is offered.
fn verdict_in<R: Threads + AllocGlobal + Sync, S: Store>(
    rt: &R,
    alloc: Global,
    r1cs: &str,
    publics: &str,
    proof: &str,
    store: &mut S,
) -> Result<Verdict, Stop>
    ensures step { StepsTo (λ verdict. verdict) (S.may_hold store.new)
        (λ files found. Audits files r1cs.now publics.now proof.now found)
        (Rose (S.faults store.old) (S.faults store.new)) result }
    ensures asked { Asks (r1cs.now ∷ publics.now ∷ proof.now ∷ [])
        (S.calls store.old) (S.calls store.new) }
    ensures counted { S.faults store.new ≡ faults_by result (S.faults store.old) }
    ensures store { OnlyReads (S.may_hold store.old) (S.may_hold store.new)
        (S.faults store.old) (S.faults store.new)
        (S.never_fails store.old) (S.never_fails store.new) }
{
    let offer = offer_in(alloc, r1cs, publics, proof, store)?;
    let verdict = verdict_on(rt, &offer)?;
    Ok(verdict)
}

fn verdict_on<R: Threads + AllocGlobal + Sync>(rt: &R, offer: &Offer) -> Result<Verdict, AllocError>
    requires { InLimits offer.now.file }
    ensures { IfOk result (IsAudited offer.now) }
{
    audit(
        rt,
        offer.bytes.as_slice(),
        &offer.file,
        offer.publics.as_slice(),
        offer.proof.as_slice(),
    )
}

// The file of constraints, the public values and the proof.
fn offer_in<S: Store>(
    alloc: Global,
    r1cs: &str,
    publics: &str,
    proof: &str,
    store: &mut S,
) -> Result<Offer, Stop>
    ensures step { Steps (λ o. o) (S.may_hold store.new)
        (λ files. offer_of files r1cs.now publics.now proof.now)
        (Rose (S.faults store.old) (S.faults store.new)) result }
    ensures limits { IfOk result (λ o. InLimits o.file) }
    ensures asked { Asks (r1cs.now ∷ publics.now ∷ proof.now ∷ [])
        (S.calls store.old) (S.calls store.new) }
    ensures counted { S.faults store.new ≡ faults_by result (S.faults store.old) }
    ensures store { OnlyReads (S.may_hold store.old) (S.may_hold store.new)
        (S.faults store.old) (S.faults store.new)
        (S.never_fails store.old) (S.never_fails store.new) }
{
    let bytes = bytes_in(alloc, store, r1cs)?;
    let file = r1cs_from(alloc, r1cs, bytes.as_slice())?;
    let first = Read {
        name: r1cs,
        bytes: bytes.as_slice(),
    };
    let text = bytes_after(alloc, store, first, None, publics)?;
    let values = publics_from(alloc, text.as_slice())?;
    let second = Read {
        name: publics,
        bytes: text.as_slice(),
    };
    let offered = bytes_after(alloc, store, first, Some(second), proof)?;
    Ok(Offer {
        bytes: Items::of(bytes),
        file,
        publics: Items::of(values),
        proof: Items::of(offered),
    })
}

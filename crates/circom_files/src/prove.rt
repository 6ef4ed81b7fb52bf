ghost use Rattle.std.specs.Prelude.{◌≡◌, ◌∷◌, [], ◌<◌, ℕ, List, All, IfOk, IsErrOf};
ghost use Rattle.out_io.specs.Held.{OfAll, OnlyReads};
ghost use Rattle.out_io.specs.Faults.{Rose, faults_after};
ghost use Rattle.out_io.specs.declared.fault.IoFault.TheVariants.{Failed};
ghost use Rattle.iden_files.specs.File.{InLimits, IsFile};
ghost use Rattle.gold_field.specs.declared.gold.TheConstants.{P};
ghost use Rattle.lig_prover.specs.Proves.{IsProofOrRefusal};
ghost use Rattle.circom_words.specs.Words.{meant_proving};
ghost use Rattle.circom_files.specs.Asked.{Asks};
ghost use Rattle.circom_files.specs.Accepted.{IsAcceptedFor, IsProofOf, WritesProof};
ghost use Rattle.circom_files.specs.Proving.{IsProved, Proves};
ghost use Rattle.circom_files.specs.Reply.{Says, proved};
ghost use Rattle.circom_files.specs.Shown.{shown};
ghost use Rattle.circom_files.specs.Steps.{StepsTo};
ghost use Rattle.circom_files.specs.Stops.{faults_by};
ghost use Rattle.circom_files.specs.declared.outcome.Outcome.TheVariants.{Made};

use crate::inputs::witness_in;
use crate::outcome::{Outcome, Witness};
use crate::reply::Reply;
use crate::stop::Stop;
use circom_lines::Verdict;
use circom_words::ProveOptions;
use items::Items;
use lig_proof::Version;
use lig_prover::{ProveFault, prove, prove2};
use out_io::{IoFault, Store};
use std::alloc::{AllocError, Global};
use std::thread::Threads;

/// The reply of `prove`: the proof, under the name `out`, that the values in one file satisfy the
/// constraints in the other.
pub fn prove_reply<'w, R: Threads + AllocGlobal + Sync, S: Store>(
    rt: &R,
    alloc: Global,
    r1cs: &str,
    wtns: &str,
    out: &'w str,
    options: ProveOptions,
    store: &mut S,
) -> Result<Reply<'w>, IoFault>
    ensures says { IfOk result (λ r. OfAll (S.may_hold store.new) (λ files.
        Says (proved out.entry.now)
        (λ found. Proves files r1cs.now wtns.now (meant_proving options) found) (shown r))) }
    ensures accepted { IfOk result (λ r. OfAll (S.may_hold store.new) (λ files.
        r.status ≡ 0 → WritesProof files r1cs.now wtns.now out.entry.now (shown r))) }
    ensures status { IfOk result (λ r. r.status < 3) }
    ensures fault { IsErrOf result Failed → Rose (S.faults store.old) (S.faults store.new) }
    ensures asked { Asks (r1cs.now ∷ wtns.now ∷ []) (S.calls store.old) (S.calls store.new) }
    ensures counted { S.faults store.new ≡ faults_after result (S.faults store.old) }
    ensures store { OnlyReads (S.may_hold store.old) (S.may_hold store.new)
        (S.faults store.old) (S.faults store.new)
        (S.never_fails store.old) (S.never_fails store.new) }
{
    match outcome_in(rt, alloc, r1cs, wtns, options, store) {
        Ok(outcome) => Ok(Reply::proved(alloc, out, outcome)?),
        Err(stop) => stop.reply(alloc),
    }
}

// The proof, or what is wrong with the values.
fn outcome_in<R: Threads + AllocGlobal + Sync, S: Store>(
    rt: &R,
    alloc: Global,
    r1cs: &str,
    wtns: &str,
    options: ProveOptions,
    store: &mut S,
) -> Result<Outcome, Stop>
    ensures step { StepsTo (λ outcome. outcome) (S.may_hold store.new)
        (λ files found. Proves files r1cs.now wtns.now (meant_proving options) found)
        (Rose (S.faults store.old) (S.faults store.new)) result }
    ensures accepted { IfOk result (λ outcome. (proof : List ℕ) → outcome ≡ Made proof
        → OfAll (S.may_hold store.new) (λ files. IsProofOf files r1cs.now wtns.now proof)) }
    ensures asked { Asks (r1cs.now ∷ wtns.now ∷ []) (S.calls store.old) (S.calls store.new) }
    ensures counted { S.faults store.new ≡ faults_by result (S.faults store.old) }
    ensures store { OnlyReads (S.may_hold store.old) (S.may_hold store.new)
        (S.faults store.old) (S.faults store.new)
        (S.never_fails store.old) (S.never_fails store.new) }
{
    let witness = witness_in(alloc, r1cs, wtns, store)?;
    let outcome = outcome_of(rt, &witness, options)?;
    Ok(outcome)
}

// The proof that the values satisfy the file, or what is wrong with them.
fn outcome_of<R: Threads + AllocGlobal + Sync>(
    rt: &R,
    witness: &Witness,
    options: ProveOptions,
) -> Result<Outcome, AllocError>
    requires limits { InLimits witness.now.file }
    requires numbers { All (λ value. value < P) witness.now.values }
    ensures proved { IfOk result (IsProved (meant_proving options) witness.now) }
    ensures accepted { IfOk result (λ outcome. (proof : List ℕ) → outcome ≡ Made proof
        → IsAcceptedFor witness.now proof) }
{
    match proof_of(rt, witness, options) {
        Ok(proof) => Ok(Outcome::Made(Items::of(proof))),
        Err(ProveFault::WrongLength { has, wants }) => Ok(Outcome::Unmade(Verdict::CountsDiffer {
            values: has,
            wires: wants,
        })),
        Err(ProveFault::WireZero) => Ok(Outcome::Unmade(Verdict::WireZero)),
        Err(ProveFault::Unsatisfied { constraint }) => {
            Ok(Outcome::Unmade(Verdict::ConstraintFails { index: constraint }))
        }
        Err(ProveFault::OutOfMemory) => Err(AllocError),
    }
}

// The proof in the version that is asked for.
fn proof_of<R: Threads + AllocGlobal + Sync>(
    rt: &R,
    witness: &Witness,
    options: ProveOptions,
) -> Result<Vec<u8>, ProveFault>
    requires { InLimits witness.now.file }
    ensures proved { IsProofOrRefusal options.version witness.now.bytes witness.now.file
        witness.now.values options.seed result }
    ensures file { IsFile witness.now.file }
{
    // That the file's parts fit: this call's contract says so.
    let _constraints = witness.file.constraints();
    let bytes = witness.bytes.as_slice();
    let values = witness.values.as_slice();
    match options.version {
        Version::One => prove(rt, bytes, &witness.file, values, options.seed),
        Version::Two => prove2(rt, bytes, &witness.file, values, options.seed),
    }
}

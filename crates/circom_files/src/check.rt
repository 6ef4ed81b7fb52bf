ghost use Rattle.out_io.specs.Held.{OfAll, OnlyReads};
ghost use Rattle.std.specs.Prelude.{◌≡◌, ◌∷◌, [], ◌<◌, IfOk, IsErrOf};
ghost use Rattle.out_io.specs.Faults.{Rose, faults_after};
ghost use Rattle.iden_files.specs.File.{InLimits};
ghost use Rattle.circom_files.specs.Asked.{Asks};
ghost use Rattle.circom_files.specs.Check.{verdict, check_of};
ghost use Rattle.circom_files.specs.Reply.{Says, checked};
ghost use Rattle.circom_files.specs.Shown.{shown};
ghost use Rattle.circom_files.specs.Steps.{Steps};
ghost use Rattle.circom_files.specs.Stops.{faults_by};
ghost use Rattle.out_io.specs.declared.fault.IoFault.TheVariants.{Failed};

use crate::inputs::witness_in;
use crate::reply::Reply;
use crate::stop::Stop;
use circom_lines::Verdict;
use gold_field::Gold;
use iden_files::{R1cs, first_failing};
use out_io::{IoFault, Store};
use std::alloc::Global;

/// The reply of `check`: whether the values in one file satisfy the constraints in the other.
pub fn check_reply<'w, S: Store>(
    alloc: Global,
    r1cs: &str,
    wtns: &str,
    store: &mut S,
) -> Result<Reply<'w>, IoFault>
    ensures says { IfOk result (λ r. OfAll (S.may_hold store.new) (λ files. Says checked
        (λ found. check_of files r1cs.now wtns.now ≡ found) (shown r))) }
    ensures status { IfOk result (λ r. r.status < 3) }
    ensures fault { IsErrOf result Failed → Rose (S.faults store.old) (S.faults store.new) }
    ensures asked { Asks (r1cs.now ∷ wtns.now ∷ []) (S.calls store.old) (S.calls store.new) }
    ensures counted { S.faults store.new ≡ faults_after result (S.faults store.old) }
    ensures store { OnlyReads (S.may_hold store.old) (S.may_hold store.new)
        (S.faults store.old) (S.faults store.new)
        (S.never_fails store.old) (S.never_fails store.new) }
{
    match check(alloc, r1cs, wtns, store) {
        Ok(verdict) => Ok(Reply::checked(alloc, verdict)?),
        Err(stop) => stop.reply(alloc),
    }
}

// Whether the values in one file satisfy the constraints in the other.
fn check<S: Store>(alloc: Global, r1cs: &str, wtns: &str, store: &mut S) -> Result<Verdict, Stop>
    ensures step { Steps (λ verdict. verdict) (S.may_hold store.new)
        (λ files. check_of files r1cs.now wtns.now)
        (Rose (S.faults store.old) (S.faults store.new)) result }
    ensures asked { Asks (r1cs.now ∷ wtns.now ∷ []) (S.calls store.old) (S.calls store.new) }
    ensures counted { S.faults store.new ≡ faults_by result (S.faults store.old) }
    ensures store { OnlyReads (S.may_hold store.old) (S.may_hold store.new)
        (S.faults store.old) (S.faults store.new)
        (S.never_fails store.old) (S.never_fails store.new) }
{
    let witness = witness_in(alloc, r1cs, wtns, store)?;
    Ok(verdict(&witness.file, witness.values.as_slice()))
}

/// By the count of values, then wire 0, which stands for 1, then the constraints.
pub fn verdict(file: &R1cs, values: &[Gold]) -> Verdict
    requires { InLimits file.now }
    ensures { result ≡ verdict file.now values.now }
{
    if values.len() != file.wires as usize {
        return Verdict::CountsDiffer {
            values: values.len() as u64,
            wires: file.wires,
        };
    }
    match values {
        [one, ..] if one.get() == 1 => {}
        _ => return Verdict::WireZero,
    }
    match first_failing(file, values) {
        None => Verdict::Satisfied,
        Some(index) => Verdict::ConstraintFails { index },
    }
}

ghost use Rattle.std.specs.Prelude.{◌≡◌, ◌∷◌, [], ◌<◌, IfOk, IsErrOf};
ghost use Rattle.out_io.specs.Held.{OfAll, OnlyReads};
ghost use Rattle.out_io.specs.Faults.{Rose, faults_after};
ghost use Rattle.out_io.specs.declared.fault.IoFault.TheVariants.{Failed};
ghost use Rattle.circom_files.specs.Asked.{Asks};
ghost use Rattle.circom_files.specs.Proving.{public_of, published_values};
ghost use Rattle.circom_files.specs.Reply.{Says, published};
ghost use Rattle.circom_files.specs.Shown.{shown};
ghost use Rattle.circom_files.specs.Steps.{Steps};
ghost use Rattle.circom_files.specs.Stops.{faults_by};

use crate::inputs::witness_in;
use crate::outcome::Published;
use crate::reply::Reply;
use crate::stop::Stop;
use circom_lines::Verdict;
use gold_field::Gold;
use iden_files::R1cs;
use items::Items;
use out_io::{IoFault, Store};
use std::alloc::{AllocError, Global};

/// The reply of `public`: the public values among those in one file, under the name `out`.
pub fn public_reply<'w, S: Store>(
    alloc: Global,
    r1cs: &str,
    wtns: &str,
    out: &'w str,
    store: &mut S,
) -> Result<Reply<'w>, IoFault>
    ensures says { IfOk result (λ r. OfAll (S.may_hold store.new) (λ files.
        Says (published out.entry.now)
        (λ found. public_of files r1cs.now wtns.now ≡ found) (shown r))) }
    ensures status { IfOk result (λ r. r.status < 3) }
    ensures fault { IsErrOf result Failed → Rose (S.faults store.old) (S.faults store.new) }
    ensures asked { Asks (r1cs.now ∷ wtns.now ∷ []) (S.calls store.old) (S.calls store.new) }
    ensures counted { S.faults store.new ≡ faults_after result (S.faults store.old) }
    ensures store { OnlyReads (S.may_hold store.old) (S.may_hold store.new)
        (S.faults store.old) (S.faults store.new)
        (S.never_fails store.old) (S.never_fails store.new) }
{
    match published_in(alloc, r1cs, wtns, store) {
        Ok(published) => Ok(Reply::published(alloc, out, published)?),
        Err(stop) => stop.reply(alloc),
    }
}

// The public values, or what is wrong with the values.
fn published_in<S: Store>(
    alloc: Global,
    r1cs: &str,
    wtns: &str,
    store: &mut S,
) -> Result<Published, Stop>
    ensures step { Steps (λ found. found) (S.may_hold store.new)
        (λ files. public_of files r1cs.now wtns.now)
        (Rose (S.faults store.old) (S.faults store.new)) result }
    ensures asked { Asks (r1cs.now ∷ wtns.now ∷ []) (S.calls store.old) (S.calls store.new) }
    ensures counted { S.faults store.new ≡ faults_by result (S.faults store.old) }
    ensures store { OnlyReads (S.may_hold store.old) (S.may_hold store.new)
        (S.faults store.old) (S.faults store.new)
        (S.never_fails store.old) (S.never_fails store.new) }
{
    let witness = witness_in(alloc, r1cs, wtns, store)?;
    let found = published_values(alloc, &witness.file, witness.values.as_slice())?;
    Ok(found)
}

// By the count of values, then wire 0.
fn published_values(alloc: Global, file: &R1cs, values: &[Gold]) -> Result<Published, AllocError>
    ensures { IfOk result (λ found. found ≡ published_values file.now values.now) }
{
    if values.len() != file.wires as usize {
        return Ok(Published::Wrong(Verdict::CountsDiffer {
            values: values.len() as u64,
            wires: file.wires,
        }));
    }
    if values.is_empty() || values[0].get() != 1 {
        return Ok(Published::Wrong(Verdict::WireZero));
    }
    let count = file.outputs as usize + file.public_inputs as usize;
    let rest = &values[1..];
    Ok(Published::Values(Items::from_slice(alloc, &rest[..count])?))
}

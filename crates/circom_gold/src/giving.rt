//! What is done with the answer to a command.

ghost use Rattle.std.specs.Prelude.{IfOk};
ghost use Rattle.out_io.specs.Calls.{Counting};
ghost use Rattle.out_io.specs.Faults.{Rose};
ghost use Rattle.out_io.specs.Held.{Becomes};
ghost use Rattle.circom_files.specs.Asked.{PutsOnce};
ghost use Rattle.circom_gold.specs.Answering.{ExitsBy, PutsAnswer};

use circom_files::{Reply, put_fault, put_text};
use out_io::{IoFault, Sink};
use std::alloc::{AllocError, Global};

/// Puts the text of the reply, or says that the store failed, and gives the exit status.
pub fn give<K: Sink>(
    alloc: Global,
    answer: Result<Reply<'_>, IoFault>,
    out: &mut K,
) -> Result<u8, AllocError>
    ensures exits { IfOk result
        (ExitsBy answer.entry (Rose (K.faults out.old) (K.faults out.new))) }
    ensures puts { Becomes
        (PutsAnswer answer.entry (Rose (K.faults out.old) (K.faults out.new)) result)
        (K.may_have out.old) (K.may_have out.new) }
    ensures asked { PutsOnce (K.calls out.old) (K.calls out.new) }
    ensures sink { Counting (K.faults out.old) (K.faults out.new)
        (K.never_fails out.old) (K.never_fails out.new) }
{
    match answer {
        Ok(reply) => put_text(&reply, out),
        Err(fault) => put_fault(alloc, fault, out),
    }
}

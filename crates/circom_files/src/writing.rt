//! What is done with a reply.

ghost use Rattle.std.specs.Prelude.{◌≡◌, None, IfOk, IsErrOf, IsOk, OnOk, OnErr};
ghost use Rattle.out_io.specs.Calls.{Counting};
ghost use Rattle.out_io.specs.Faults.{Rose, faults_after};
ghost use Rattle.out_io.specs.declared.fault.IoFault.TheVariants.{Failed};
ghost use Rattle.circom_files.specs.Asked.{PutsOnce, WritesOnce};
ghost use Rattle.circom_files.specs.Given.{Exits, Leaves, LeavesInPart, Puts, PutsFault};
ghost use Rattle.out_io.specs.Held.{Becomes};
ghost use Rattle.circom_files.specs.Shown.{shown};

use crate::reply::Reply;
use out_io::{IoFault, Sink, Store};
use std::alloc::{AllocError, Global};

// The exit status where a call to the store or the sink failed.
const FAULT: u8 = 3;

/// Writes the reply's file, if it has one.
pub fn write_file<S: Store>(alloc: Global, reply: &Reply<'_>, store: &mut S) -> Result<(), IoFault>
    ensures ok { OnOk result (Becomes (Leaves (shown reply.now).file)
        (S.may_hold store.old) (S.may_hold store.new)) }
    ensures err { OnErr result (Becomes (LeavesInPart (shown reply.now).file)
        (S.may_hold store.old) (S.may_hold store.new)) }
    ensures asked { WritesOnce (S.calls store.old) (S.calls store.new) }
    ensures none { (shown reply.now).file ≡ None → (S.calls store.new ≡ S.calls store.old)
        × (S.faults store.new ≡ S.faults store.old) × IsOk result }
    ensures fault { IsErrOf result Failed → Rose (S.faults store.old) (S.faults store.new) }
    ensures counted { S.faults store.new ≡ faults_after result (S.faults store.old) }
    ensures counting { Counting (S.faults store.old) (S.faults store.new)
        (S.never_fails store.old) (S.never_fails store.new) }
{
    match &reply.file {
        None => Ok(()),
        Some(file) => store.write(alloc, file.name, file.bytes.as_slice()),
    }
}

/// Puts the reply's text at once, and gives the exit status.
pub fn put_text<K: Sink>(reply: &Reply<'_>, out: &mut K) -> Result<u8, AllocError>
    ensures exits { IfOk result
        (Exits (shown reply.now).status (Rose (K.faults out.old) (K.faults out.new))) }
    ensures puts { Becomes
        (Puts (shown reply.now) (Rose (K.faults out.old) (K.faults out.new)) result)
        (K.may_have out.old) (K.may_have out.new) }
    ensures asked { PutsOnce (K.calls out.old) (K.calls out.new) }
    ensures counting { Counting (K.faults out.old) (K.faults out.new)
        (K.never_fails out.old) (K.never_fails out.new) }
{
    match out.put(reply.text.as_slice()) {
        Ok(()) => Ok(reply.status),
        Err(IoFault::Failed) => Ok(FAULT),
        Err(IoFault::OutOfMemory) => Err(AllocError),
    }
}

/// Says that the store failed, where that is the fault, and gives the exit status.
pub fn put_fault<K: Sink>(alloc: Global, fault: IoFault, out: &mut K) -> Result<u8, AllocError>
    ensures exits { IfOk result (λ exit. (fault ≡ Failed) × (exit ≡ 3)) }
    ensures puts { Becomes (PutsFault fault (Rose (K.faults out.old) (K.faults out.new)) result)
        (K.may_have out.old) (K.may_have out.new) }
    ensures asked { PutsOnce (K.calls out.old) (K.calls out.new) }
    ensures counting { Counting (K.faults out.old) (K.faults out.new)
        (K.never_fails out.old) (K.never_fails out.new) }
{
    match fault {
        IoFault::Failed => put_text(&Reply::store_failed(alloc)?, out),
        IoFault::OutOfMemory => Err(AllocError),
    }
}

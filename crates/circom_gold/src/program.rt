ghost use Rattle.std.specs.Prelude.{◌≡◌, ◌≢◌, ◌↔◌, ◌++◌, ℕ, List, [], None};
ghost use Rattle.std.specs.Prelude.{IfOk, true};
ghost use Rattle.std.specs.Result.{result_ok};
ghost use Rattle.out_io.specs.Calls.{Counting};
ghost use Rattle.out_io.specs.Memory.{files_of};
ghost use Rattle.circom_gold.specs.Course.{device};
ghost use Rattle.circom_gold.specs.Run.{Does, IsReplied, plain_status};
ghost use Rattle.circom_words.specs.Words.{command_of, first_waits, texts};

use crate::circuit::run_circuit;
use crate::plain::run_command;
use circom_words::Command;
use out_io::{MemSink, MemStore, Sink, Store};
use std::alloc::{AllocError, AllocGlobal, Global};
use std::sync::Wait;
use std::thread::Threads;

/// Does what the words ask for, and gives the exit status:
///
/// - 0: success; the values satisfy the constraints, the proof is accepted, or the file is written
/// - 1: a file, a source, an input or public values are refused, or the run stops
/// - 2: the values don't satisfy the constraints, or the proof is rejected
/// - 3: the count of faults of the store or of the sink rose
/// - 64: the words have no reading
///
/// The error is want of memory. `witness`, `batch` and `generate` wait for other threads. On all
/// other words it is what `run_plain` answers, which waits for nobody.
pub fn run<R: Threads + Wait + AllocGlobal + Sync, S: Store, K: Sink>(
    rt: &R,
    alloc: Global,
    words: &[String],
    store: &mut S,
    out: &mut K,
) -> Result<u8, AllocError>
    ensures does { Does (command_of (texts words.now))
        (device (S.may_hold store.old) (S.may_hold store.new)
        (S.calls store.old) (S.calls store.new) (S.faults store.old) (S.faults store.new))
        (device (K.may_have out.old) (K.may_have out.new)
        (K.calls out.old) (K.calls out.new) (K.faults out.old) (K.faults out.new))
        (result_ok result) }

    // The counts of faults never fall, and stand still in a store or a sink that never fails.
    ensures store { Counting (S.faults store.old) (S.faults store.new)
        (S.never_fails store.old) (S.never_fails store.new) }
    ensures sink { Counting (K.faults out.old) (K.faults out.new)
        (K.never_fails out.old) (K.never_fails out.new) }
{
    match run_plain(rt, alloc, words, store, out)? {
        Some(status) => Ok(status),
        None => run_circuit(rt, alloc, words, store, out),
    }
}

/// The part of `run` that waits for nobody: the exit status, which is that of `run`; or `None`,
/// with nothing read, written or put, exactly where the first word is `witness`, `batch` or
/// `generate`.
pub fn run_plain<R: Threads + AllocGlobal + Sync, S: Store, K: Sink>(
    rt: &R,
    alloc: Global,
    words: &[String],
    store: &mut S,
    out: &mut K,
) -> Result<Option<u8>, AllocError>
    ensures waits { IfOk result
        (λ o. (o ≡ None) ↔ (first_waits (texts words.now) ≡ true)) }
    ensures untouched { IfOk result (λ o. o ≡ None
        → (store.new ≡ store.old) × (out.new ≡ out.old)) }

    // What holds of `run` holds of this part.
    ensures does { Does (command_of (texts words.now))
        (device (S.may_hold store.old) (S.may_hold store.new)
        (S.calls store.old) (S.calls store.new) (S.faults store.old) (S.faults store.new))
        (device (K.may_have out.old) (K.may_have out.new)
        (K.calls out.old) (K.calls out.new) (K.faults out.old) (K.faults out.new))
        (plain_status result) }
    ensures store { Counting (S.faults store.old) (S.faults store.new)
        (S.never_fails store.old) (S.never_fails store.new) }
    ensures sink { Counting (K.faults out.old) (K.faults out.new)
        (K.never_fails out.old) (K.never_fails out.new) }
{
    if Command::waits(words) {
        return Ok(None);
    }
    match run_command(rt, alloc, words, store, out) {
        Ok(status) => Ok(Some(status)),
        Err(error) => Err(error),
    }
}

/// `run` over memory where no call fails: the reply is given, so the exit status is never 3, and no
/// call fails after it.
pub fn run_in_memory<R: Threads + Wait + AllocGlobal + Sync>(
    rt: &R,
    alloc: Global,
    words: &[String],
    store: &mut MemStore,
    out: &mut MemSink,
) -> Result<u8, AllocError>
    requires store { store.old.fail.items ≡ [] }
    requires store_faults { store.old.faults ≡ 0 }
    requires out { out.old.fail.items ≡ [] }
    requires out_faults { out.old.faults ≡ 0 }
    ensures reply { IfOk result (λ exit. (text : List ℕ)
        × (out.new.bytes.items ≡ out.old.bytes.items ++ text)
        × IsReplied (command_of (texts words.now)) (files_of store.old.files)
        (files_of store.new.files) exit text) }
    ensures no_fault { IfOk result (λ exit. exit ≢ 3) }
    ensures store { (store.new.fail.items ≡ []) × (store.new.faults ≡ 0) }
    ensures out { (out.new.fail.items ≡ []) × (out.new.faults ≡ 0) }
{
    run(rt, alloc, words, store, out)
}

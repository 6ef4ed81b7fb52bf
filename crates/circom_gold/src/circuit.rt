//! The commands that run a circuit on many threads.

ghost use Rattle.std.specs.Prelude.{◌≡◌, None, IfOk, IfSome, IsErrOf, true, option_map};
ghost use Rattle.std.specs.Result.{result_ok};
ghost use Rattle.out_io.specs.Calls.{Counting};
ghost use Rattle.out_io.specs.Faults.{Rose, faults_after};
ghost use Rattle.out_io.specs.declared.fault.IoFault.TheVariants.{Failed};
ghost use Rattle.out_io.specs.Held.{OfAll, OnlyReads};
ghost use Rattle.circom_files.specs.Shown.{shown};
ghost use Rattle.circom_gold.specs.Answering.{Fits, IsAnswered};
ghost use Rattle.circom_gold.specs.Asking.{Asked, ReadsFor};
ghost use Rattle.circom_gold.specs.Course.{device};
ghost use Rattle.circom_gold.specs.Reply.{Answers};
ghost use Rattle.circom_gold.specs.Run.{Does};
ghost use Rattle.circom_words.specs.Ranges.{AreInRange, HasRanges};
ghost use Rattle.circom_words.specs.Words.{command_of, first_waits, meant, meant_circuit, texts};
ghost use Rattle.circom_words.specs.Words.{runs_circuit};

use crate::batch::batch_reply;
use crate::generate::generate_reply;
use crate::giving::give;
use crate::witness::witness_reply;
use circom_files::{Reply, write_file};
use circom_words::{CircuitCommand, Command};
use out_io::{IoFault, Sink, Store};
use std::alloc::{AllocError, AllocGlobal, Global};
use std::sync::Wait;
use std::thread::Threads;

/// Does what words ask for whose first names a command that runs a circuit.
pub fn run_circuit<R: Threads + Wait + AllocGlobal + Sync, S: Store, K: Sink>(
    rt: &R,
    alloc: Global,
    words: &[String],
    store: &mut S,
    out: &mut K,
) -> Result<u8, AllocError>
    requires { first_waits (texts words.now) ≡ true }
    ensures does { Does (command_of (texts words.now))
        (device (S.may_hold store.old) (S.may_hold store.new)
        (S.calls store.old) (S.calls store.new) (S.faults store.old) (S.faults store.new))
        (device (K.may_have out.old) (K.may_have out.new)
        (K.calls out.old) (K.calls out.new) (K.faults out.old) (K.faults out.new))
        (result_ok result) }
    ensures store { Counting (S.faults store.old) (S.faults store.new)
        (S.never_fails store.old) (S.never_fails store.new) }
    ensures sink { Counting (K.faults out.old) (K.faults out.new)
        (K.never_fails out.old) (K.never_fails out.new) }
{
    let command = circuit(Command::of(alloc, words)?);
    let answer = answered(rt, alloc, command, store);
    give(alloc, answer, out)
}

// The command, which runs a circuit.
fn circuit<'w>(command: Option<Command<'w>>) -> Option<CircuitCommand<'w>>
    requires circuit { IfSome command (λ c. runs_circuit c ≡ true) }
    requires ranges { IfSome command AreInRange }
    ensures meant { option_map meant_circuit result ≡ option_map meant command.entry }
    ensures ranges { IfSome result HasRanges }
{
    match command {
        Some(Command::Circuit(command)) => Some(command),
        _ => None,
    }
}

// The reply to the command, whose file is written.
fn answered<'w, R: Threads + Wait + AllocGlobal + Sync, S: Store>(
    rt: &R,
    alloc: Global,
    command: Option<CircuitCommand<'w>>,
    store: &mut S,
) -> Result<Reply<'w>, IoFault>
    requires ranges { IfSome command HasRanges }
    ensures answered { IsAnswered (option_map meant_circuit command.entry)
        (device (S.may_hold store.old) (S.may_hold store.new)
        (S.calls store.old) (S.calls store.new) (S.faults store.old) (S.faults store.new))
        result }
    ensures asked { Asked (option_map meant_circuit command.entry)
        (S.calls store.old) (S.calls store.new) }
    ensures counted { S.faults store.new ≡ faults_after result (S.faults store.old) }
    ensures counting { Counting (S.faults store.old) (S.faults store.new)
        (S.never_fails store.old) (S.never_fails store.new) }
{
    let reply = reply_to(rt, alloc, command, store)?;
    write_file(alloc, &reply, store)?;
    Ok(reply)
}

// The reply to the command. Its file isn't written.
fn reply_to<'w, R: Threads + Wait + AllocGlobal + Sync, S: Store>(
    rt: &R,
    alloc: Global,
    command: Option<CircuitCommand<'w>>,
    store: &mut S,
) -> Result<Reply<'w>, IoFault>
    requires ranges { IfSome command HasRanges }
    ensures answers { IfOk result (λ r. OfAll (S.may_hold store.new)
        (λ files. Answers files (option_map meant_circuit command.entry) (shown r))) }
    ensures fits { IfOk result (λ r. Fits (option_map meant_circuit command.entry) (shown r)) }
    ensures unread { option_map meant_circuit command.entry ≡ None
        → (S.calls store.new ≡ S.calls store.old) × (S.faults store.new ≡ S.faults store.old)
        × ¬ IsErrOf result Failed }
    ensures fault { IsErrOf result Failed → Rose (S.faults store.old) (S.faults store.new) }
    ensures asked { ReadsFor (option_map meant_circuit command.entry)
        (S.calls store.old) (S.calls store.new) }
    ensures counted { S.faults store.new ≡ faults_after result (S.faults store.old) }
    ensures store { OnlyReads (S.may_hold store.old) (S.may_hold store.new)
        (S.faults store.old) (S.faults store.new)
        (S.never_fails store.old) (S.never_fails store.new) }
{
    match command {
        None => Ok(Reply::usage(alloc)?),
        Some(
            CircuitCommand::Witness {
                source,
                input,
                out,
                options,
                running,
            },
        ) => witness_reply(rt, alloc, source, input, out, options, running, store),
        Some(
            CircuitCommand::Batch {
                source,
                inputs,
                out,
                options,
                running,
            },
        ) => batch_reply(rt, alloc, source, inputs, out, options, running, store),
        Some(
            CircuitCommand::Generate {
                seed,
                size,
                running,
            },
        ) => generate_reply(rt, alloc, seed, size, running),
    }
}

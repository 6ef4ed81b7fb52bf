//! The commands that wait for nobody.

ghost use Rattle.std.specs.Prelude.{◌≡◌, None, IfOk, IfSome, IsErrOf, false, option_map};
ghost use Rattle.std.specs.Result.{result_ok};
ghost use Rattle.out_io.specs.Calls.{Counting};
ghost use Rattle.out_io.specs.Faults.{Rose, faults_after};
ghost use Rattle.out_io.specs.declared.fault.IoFault.TheVariants.{Failed};
ghost use Rattle.out_io.specs.Held.{OfAll, OnlyReads};
ghost use Rattle.circom_files.specs.Shown.{shown};
ghost use Rattle.circom_gold.specs.Answering.{Assures, Fits, IsAnswered};
ghost use Rattle.circom_gold.specs.Asking.{Asked, ReadsFor};
ghost use Rattle.circom_gold.specs.Course.{device};
ghost use Rattle.circom_gold.specs.Reply.{Answers};
ghost use Rattle.circom_gold.specs.Run.{Does};
ghost use Rattle.circom_words.specs.Words.{command_of, first_waits, meant, meant_plain, texts};
ghost use Rattle.circom_words.specs.Words.{runs_circuit};

use crate::compile::compile_reply;
use crate::giving::give;
use crate::symbols::symbols_reply;
use circom_files::{
    Reply, audit_reply, check_reply, confirm_reply, determine_reply, prove_reply, public_reply,
    write_file,
};
use circom_named::check_named_reply;
use circom_words::{Command, PlainCommand};
use out_io::{IoFault, Sink, Store};
use std::alloc::{AllocError, Global};
use std::thread::Threads;

/// Does what words ask for whose first names no command that runs a circuit.
pub fn run_command<R: Threads + AllocGlobal + Sync, S: Store, K: Sink>(
    rt: &R,
    alloc: Global,
    words: &[String],
    store: &mut S,
    out: &mut K,
) -> Result<u8, AllocError>
    requires { first_waits (texts words.now) ≡ false }
    ensures does { Does (command_of (texts words.now))
        (device (S.may_hold store.old) (S.may_hold store.new)
        (S.calls store.old) (S.calls store.new) (S.faults store.old) (S.faults store.new))
        (device (K.may_have out.old) (K.may_have out.new)
        (K.calls out.old) (K.calls out.new) (K.faults out.old) (K.faults out.new))
        (result_ok result) }
    ensures store { Counting (S.faults store.old) (S.faults store.new)
        (S.never_fails store.old) (S.never_fails store.new) }
    ensures sink { Counting (K.faults out.old) (K.faults out.new)
        (K.never_fails out.old) (K.never_fails out.new) }
{
    let command = plain(Command::of(alloc, words)?);
    let answer = answered(rt, alloc, command, store);
    give(alloc, answer, out)
}

// The command, which runs no circuit.
fn plain<'w>(command: Option<Command<'w>>) -> Option<PlainCommand<'w>>
    requires { IfSome command (λ c. runs_circuit c ≡ false) }
    ensures { option_map meant_plain result ≡ option_map meant command.entry }
{
    match command {
        Some(Command::Plain(command)) => Some(command),
        _ => None,
    }
}

// The reply to the command, whose file is written.
fn answered<'w, R: Threads + AllocGlobal + Sync, S: Store>(
    rt: &R,
    alloc: Global,
    command: Option<PlainCommand<'w>>,
    store: &mut S,
) -> Result<Reply<'w>, IoFault>
    ensures answered { IsAnswered (option_map meant_plain command.entry)
        (device (S.may_hold store.old) (S.may_hold store.new)
        (S.calls store.old) (S.calls store.new) (S.faults store.old) (S.faults store.new))
        result }
    ensures asked { Asked (option_map meant_plain command.entry)
        (S.calls store.old) (S.calls store.new) }
    ensures counted { S.faults store.new ≡ faults_after result (S.faults store.old) }
    ensures counting { Counting (S.faults store.old) (S.faults store.new)
        (S.never_fails store.old) (S.never_fails store.new) }
{
    let reply = reply_to(rt, alloc, command, store)?;
    write_file(alloc, &reply, store)?;
    Ok(reply)
}

// The reply to the command. Its file isn't written.
fn reply_to<'w, R: Threads + AllocGlobal + Sync, S: Store>(
    rt: &R,
    alloc: Global,
    command: Option<PlainCommand<'w>>,
    store: &mut S,
) -> Result<Reply<'w>, IoFault>
    ensures answers { IfOk result (λ r. OfAll (S.may_hold store.new)
        (λ files. Answers files (option_map meant_plain command.entry) (shown r))) }
    ensures fits { IfOk result (λ r. Fits (option_map meant_plain command.entry) (shown r)) }
    ensures assures { IfOk result (λ r. OfAll (S.may_hold store.new)
        (λ files. IfSome (option_map meant_plain command.entry)
        (λ c. Assures c files (shown r)))) }
    ensures unread { option_map meant_plain command.entry ≡ None
        → (S.calls store.new ≡ S.calls store.old) × (S.faults store.new ≡ S.faults store.old)
        × ¬ IsErrOf result Failed }
    ensures fault { IsErrOf result Failed → Rose (S.faults store.old) (S.faults store.new) }
    ensures asked { ReadsFor (option_map meant_plain command.entry)
        (S.calls store.old) (S.calls store.new) }
    ensures counted { S.faults store.new ≡ faults_after result (S.faults store.old) }
    ensures store { OnlyReads (S.may_hold store.old) (S.may_hold store.new)
        (S.faults store.old) (S.faults store.new)
        (S.never_fails store.old) (S.never_fails store.new) }
{
    match command {
        None => Ok(Reply::usage(alloc)?),
        Some(PlainCommand::Check { r1cs, wtns }) => check_reply(alloc, r1cs, wtns, store),
        Some(PlainCommand::CheckNamed { r1cs, wtns, names }) => {
            check_named_reply(alloc, r1cs, wtns, names, store)
        }
        Some(
            PlainCommand::Compile {
                source,
                out,
                options,
            },
        ) => compile_reply(alloc, source, out, options, store),
        Some(
            PlainCommand::Prove {
                r1cs,
                wtns,
                out,
                options,
            },
        ) => prove_reply(rt, alloc, r1cs, wtns, out, options, store),
        Some(PlainCommand::Public { r1cs, wtns, out }) => {
            public_reply(alloc, r1cs, wtns, out, store)
        }
        Some(
            PlainCommand::Audit {
                r1cs,
                publics,
                proof,
            },
        ) => audit_reply(rt, alloc, r1cs, publics, proof, store),
        Some(
            PlainCommand::Sym {
                source,
                out,
                options,
            },
        ) => symbols_reply(alloc, source, out, options, store),
        Some(PlainCommand::Determine { r1cs, out }) => determine_reply(alloc, r1cs, out, store),
        Some(PlainCommand::Confirm { r1cs, certificate }) => {
            confirm_reply(alloc, r1cs, certificate, store)
        }
    }
}

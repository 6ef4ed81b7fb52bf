//! The words that name commands.

ghost use Rattle.std.specs.Prelude.{◌≡◌, IfOk, true};
ghost use Rattle.clap.specs.Faults.{is_simple_and_free};
ghost use Rattle.clap.specs.Simple.{app_of};
ghost use Rattle.circom_words.specs.Forms.{form_of};
ghost use Rattle.circom_words.specs.Words.{command_word, waits};

use crate::forms::{
    audit_form, batch_form, check_form, compile_form, confirm_form, determine_form, generate_form,
    prove_form, public_form, sym_form, witness_form,
};
use std::alloc::{AllocError, Global};

/// The name of a command.
#[derive(Clone, Copy)]
pub enum CommandWord {
    Check,
    Compile,
    Witness,
    Prove,
    Public,
    Audit,
    Sym,
    Batch,
    Determine,
    Confirm,
    Generate,
}

impl CommandWord {
    pub fn of(name: &str) -> Option<CommandWord>
        ensures { result ≡ command_word name.now }
    {
        match name {
            "check" => Some(CommandWord::Check),
            "compile" => Some(CommandWord::Compile),
            "witness" => Some(CommandWord::Witness),
            "prove" => Some(CommandWord::Prove),
            "public" => Some(CommandWord::Public),
            "audit" => Some(CommandWord::Audit),
            "sym" => Some(CommandWord::Sym),
            "batch" => Some(CommandWord::Batch),
            "determine" => Some(CommandWord::Determine),
            "confirm" => Some(CommandWord::Confirm),
            "generate" => Some(CommandWord::Generate),
            _ => None,
        }
    }

    /// Whether the command runs a circuit, and so waits for the threads that do.
    pub fn waits(self) -> bool
        ensures { result ≡ waits self }
    {
        match self {
            CommandWord::Witness | CommandWord::Batch | CommandWord::Generate => true,
            _ => false,
        }
    }

    pub fn form<'w>(self, alloc: Global) -> Result<clap::Command<'w>, AllocError>
        ensures form { IfOk result (λ form. app_of form ≡ form_of self) }
        ensures simple { IfOk result (λ form. is_simple_and_free (app_of form) ≡ true) }
    {
        match self {
            CommandWord::Check => check_form(alloc),
            CommandWord::Compile => compile_form(alloc),
            CommandWord::Witness => witness_form(alloc),
            CommandWord::Prove => prove_form(alloc),
            CommandWord::Public => public_form(alloc),
            CommandWord::Audit => audit_form(alloc),
            CommandWord::Sym => sym_form(alloc),
            CommandWord::Batch => batch_form(alloc),
            CommandWord::Determine => determine_form(alloc),
            CommandWord::Confirm => confirm_form(alloc),
            CommandWord::Generate => generate_form(alloc),
        }
    }
}

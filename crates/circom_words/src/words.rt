ghost use Rattle.std.specs.Prelude.{◌≡◌, true, IfOk, IfSome, option_map, Some};
ghost use Rattle.clap.specs.Faults.{is_simple_and_free};
ghost use Rattle.clap.specs.Simple.{app_of};
ghost use Rattle.circom_words.specs.Matches.{rows_in};
ghost use Rattle.circom_words.specs.Words.{texts, found, command_of, reading_of, command_in};
ghost use Rattle.circom_words.specs.Words.{first_waits, meant, runs_circuit, waits};

use crate::circuit::CircuitCommand;
use crate::names::CommandWord;
use crate::plain::PlainCommand;
use clap::ArgMatches;
use clap::error::ErrorKind;
use std::alloc::{AllocError, Global};

/// What the words ask for.
#[derive(Clone, Copy)]
pub enum Command<'w> {
    /// A command that waits for nobody.
    Plain(PlainCommand<'w>),
    /// A command that runs a circuit, and waits for the threads that do.
    Circuit(CircuitCommand<'w>),
}

impl<'w> Command<'w> {
    ghost use Rattle.circom_words.specs.Ranges.{AreInRange};

    /// Whether the first word names a command that runs a circuit.
    pub fn waits(words: &[String]) -> bool
        ensures { result ≡ first_waits (texts words.now) }
    {
        match words {
            [name, ..] => match CommandWord::of(name.as_str()) {
                Some(word) => word.waits(),
                None => false,
            },
            [] => false,
        }
    }

    /// `None` exactly where the words have no reading.
    pub fn of(alloc: Global, words: &'w [String]) -> Result<Option<Command<'w>>, AllocError>
        ensures meant { IfOk result (λ command.
            option_map meant command ≡ command_of (texts words.now)) }
        ensures ranges { IfOk result (λ command. IfSome command AreInRange) }
        ensures kind { IfOk result (λ command.
            IfSome command (λ c. runs_circuit c ≡ first_waits (texts words.now))) }
    {
        match words {
            [name, ..] => match CommandWord::of(name.as_str()) {
                Some(word) => Command::reading(alloc, word, words),
                None => Ok(None),
            },
            [] => Ok(None),
        }
    }

    fn reading(
        alloc: Global,
        word: CommandWord,
        words: &'w [String],
    ) -> Result<Option<Command<'w>>, AllocError>
        ensures meant { IfOk result (λ command.
            option_map meant command ≡ reading_of (texts words.now) word) }
        ensures ranges { IfOk result (λ command. IfSome command AreInRange) }
        ensures kind { IfOk result (λ command.
            IfSome command (λ c. runs_circuit c ≡ waits word)) }
    {
        let form = word.form(alloc)?;
        match found(form, words)? {
            None => Ok(None),
            Some(matches) => Ok(Command::read(word, &matches)),
        }
    }

    fn read(word: CommandWord, matches: &ArgMatches<'w>) -> Option<Command<'w>>
        ensures meant { option_map meant result ≡ command_in word (rows_in matches.now) }
        ensures ranges { IfSome result AreInRange }
        ensures kind { IfSome result (λ c. runs_circuit c ≡ waits word) }
    {
        let command = match word {
            CommandWord::Check => Command::Plain(PlainCommand::check_in(matches)?),
            CommandWord::Compile => Command::Plain(PlainCommand::compile_in(matches)?),
            CommandWord::Witness => Command::Circuit(CircuitCommand::witness_in(matches)?),
            CommandWord::Prove => Command::Plain(PlainCommand::prove_in(matches)?),
            CommandWord::Public => Command::Plain(PlainCommand::public_in(matches)?),
            CommandWord::Audit => Command::Plain(PlainCommand::audit_in(matches)?),
            CommandWord::Sym => Command::Plain(PlainCommand::sym_in(matches)?),
            CommandWord::Batch => Command::Circuit(CircuitCommand::batch_in(matches)?),
            CommandWord::Determine => Command::Plain(PlainCommand::determine_in(matches)?),
            CommandWord::Confirm => Command::Plain(PlainCommand::confirm_in(matches)?),
            CommandWord::Generate => Command::Circuit(CircuitCommand::generate_in(matches)?),
        };
        Some(command)
    }
}

/// What `clap` finds in the words, `None` where it refuses them.
fn found<'w>(
    form: clap::Command<'w>,
    words: &'w [String],
) -> Result<Option<ArgMatches<'w>>, AllocError>
    requires { is_simple_and_free (app_of form) ≡ true }
    ensures { IfOk result (λ matches. option_map rows_in matches
        ≡ found (app_of form.entry) (texts words.now)) }
{
    match form.try_get_matches_from(words) {
        Ok(matches) => Ok(Some(matches)),
        Err(error) => match error.kind() {
            ErrorKind::OutOfMemory => Err(AllocError),
            _ => Ok(None),
        },
    }
}

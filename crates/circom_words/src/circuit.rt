//! The commands that run a circuit.

ghost use Rattle.std.specs.Prelude.{◌≡◌, IfSome, option_map};
ghost use Rattle.circom_words.specs.Matches.{rows_in};
ghost use Rattle.circom_words.specs.Words.{meant_circuit, witness_in, batch_in, generate_in};

use crate::options::{Options, RunOptions, ThreeNames, number_at, options_in, running_in};
use clap::ArgMatches;

/// What the words of a command that runs a circuit ask for.
#[derive(Clone, Copy)]
pub enum CircuitCommand<'w> {
    Witness {
        source: &'w str,
        input: &'w str,
        out: &'w str,
        options: Options<'w>,
        running: RunOptions,
    },
    Batch {
        source: &'w str,
        inputs: &'w str,
        out: &'w str,
        options: Options<'w>,
        running: RunOptions,
    },
    Generate {
        seed: u32,
        size: u32,
        running: RunOptions,
    },
}

impl<'w> CircuitCommand<'w> {
    ghost use Rattle.circom_words.specs.Ranges.{HasRanges};

    pub fn witness_in(matches: &ArgMatches<'w>) -> Option<CircuitCommand<'w>>
        ensures meant { option_map meant_circuit result ≡ witness_in (rows_in matches.now) }
        ensures ranges { IfSome result HasRanges }
    {
        let names = ThreeNames::of(matches, "SRC", "INPUT", "OUT")?;
        let options = options_in(matches)?;
        let running = running_in(matches)?;
        Some(CircuitCommand::Witness {
            source: names.first,
            input: names.second,
            out: names.third,
            options,
            running,
        })
    }

    pub fn batch_in(matches: &ArgMatches<'w>) -> Option<CircuitCommand<'w>>
        ensures meant { option_map meant_circuit result ≡ batch_in (rows_in matches.now) }
        ensures ranges { IfSome result HasRanges }
    {
        let names = ThreeNames::of(matches, "SRC", "INPUTS", "OUT")?;
        let options = options_in(matches)?;
        let running = running_in(matches)?;
        Some(CircuitCommand::Batch {
            source: names.first,
            inputs: names.second,
            out: names.third,
            options,
            running,
        })
    }

    pub fn generate_in(matches: &ArgMatches<'w>) -> Option<CircuitCommand<'w>>
        ensures meant { option_map meant_circuit result ≡ generate_in (rows_in matches.now) }
        ensures ranges { IfSome result HasRanges }
    {
        let seed = number_at(matches, "SEED", 0, 4_294_967_295)?;
        let size = number_at(matches, "SIZE", 1, 300_000)?;
        let running = running_in(matches)?;
        Some(CircuitCommand::Generate {
            seed,
            size,
            running,
        })
    }
}

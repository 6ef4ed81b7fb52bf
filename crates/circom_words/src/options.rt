//! What stands behind the name of a command: names of files, and options.

ghost use Rattle.std.specs.Prelude.{◌≡◌, ◌≤◌, ◌<◌, ◌^◌, Some, IfSome, option_map};
ghost use Rattle.std.specs.Option.{option_and_then};
ghost use Rattle.clap.specs.Walk.{first_of};
ghost use Rattle.circom_words.specs.Matches.{rows_in};
ghost use Rattle.circom_words.specs.Numbers.{number_in};
ghost use Rattle.circom_words.specs.Words.{is_set, level_in, options_in, meant_options, seed_of};
ghost use Rattle.circom_words.specs.Words.{seed_in, version_at, version_in, number_or, number_at};
ghost use Rattle.circom_words.specs.Words.{running_in};

use crate::number::number_in;
use cir_simplify::Level;
use clap::ArgMatches;
use hex::FromHex;
use lig_proof::Version;

/// What the options of a command say.
#[derive(Clone, Copy)]
pub struct Options<'w> {
    /// Which linear constraints are solved.
    pub level: Level,
    /// The folder of `-l`, in which included files are looked for too.
    pub folder: Option<&'w str>,
}

/// What the options of a command that runs a circuit say.
#[derive(Clone, Copy)]
pub struct RunOptions {
    /// How many threads run it, 1 to 64.
    pub workers: u32,
    /// The units that each step begins with.
    pub fuel: u32,
}

/// What the options of `prove` say.
#[derive(Clone, Copy)]
pub struct ProveOptions {
    pub seed: [u8; 32],
    pub version: Version,
}

/// The values of three names.
#[derive(Clone, Copy)]
pub struct ThreeNames<'w> {
    pub first: &'w str,
    pub second: &'w str,
    pub third: &'w str,
}

impl<'w> ThreeNames<'w> {
    ghost use Rattle.circom_words.specs.Words.{names_in, meant_names};

    /// The values of these names, where all are found.
    #[tactic(auto, using(crate::proofs::Found::first_rows))]
    pub fn of(
        matches: &ArgMatches<'w>,
        first: &str,
        second: &str,
        third: &str,
    ) -> Option<ThreeNames<'w>>
        ensures { option_map meant_names result
            ≡ names_in first.now second.now third.now (rows_in matches.now) }
    {
        let first = matches.get_str(first)?;
        let second = matches.get_str(second)?;
        let third = matches.get_str(third)?;
        Some(ThreeNames {
            first,
            second,
            third,
        })
    }
}

/// Two levels have no reading.
#[tactic(auto, using(crate::proofs::Found::first_rows))]
pub fn options_in<'w>(matches: &ArgMatches<'w>) -> Option<Options<'w>>
    ensures { option_map meant_options result ≡ options_in (rows_in matches.now) }
{
    match level_in(matches) {
        None => None,
        Some(level) => Some(Options {
            level,
            folder: matches.get_str("DIR"),
        }),
    }
}

fn level_in(matches: &ArgMatches<'_>) -> Option<Level>
    ensures { result ≡ level_in (rows_in matches.now) }
{
    match (
        is_set(matches, "O0"),
        is_set(matches, "O1"),
        is_set(matches, "O2"),
    ) {
        (true, false, false) => Some(Level::O0),
        (false, true, false) => Some(Level::O1),
        (false, false, true) => Some(Level::O2),
        (false, false, false) => Some(Level::O1),
        _ => None,
    }
}

// Whether the flag stands among the words.
#[tactic(auto, using(crate::proofs::Found::first_rows))]
fn is_set(matches: &ArgMatches<'_>, name: &str) -> bool
    ensures { result ≡ is_set name.now (rows_in matches.now) }
{
    match matches.get_str(name) {
        Some(text) => text == "true",
        None => false,
    }
}

/// 4 workers and 1,048,576 units, where no others are asked for.
pub fn running_in(matches: &ArgMatches<'_>) -> Option<RunOptions>
    ensures meant { result ≡ running_in (rows_in matches.now) }
    ensures workers { IfSome result (λ r. (1 ≤ r.workers) × (r.workers ≤ 64)) }
{
    let workers = number_or(matches, "workers", 4, 1, 64)?;
    let fuel = number_or(matches, "fuel", 1_048_576, 0, 4_294_967_295)?;
    Some(RunOptions { workers, fuel })
}

// The number of an option's word; this one where the option isn't given.
#[tactic(auto, using(crate::proofs::Found::first_rows))]
fn number_or(matches: &ArgMatches<'_>, name: &str, default: u32, low: u32, high: u32) -> Option<u32>
    requires { (low ≤ default) × (default ≤ high) }
    ensures number { result
        ≡ number_or default low high (first_of name.now (rows_in matches.now)) }
    ensures range { IfSome result (λ n. (low ≤ n) × (n ≤ high)) }
{
    match matches.get_str(name) {
        None => Some(default),
        Some(word) => number_in(low, high, word.as_bytes()),
    }
}

/// The number of a word that must be given.
#[tactic(auto, using(crate::proofs::Found::first_rows))]
pub fn number_at(matches: &ArgMatches<'_>, name: &str, low: u32, high: u32) -> Option<u32>
    ensures number { result ≡ number_at name.now low high (rows_in matches.now) }
    ensures range { IfSome result (λ n. (low ≤ n) × (n ≤ high)) }
{
    let word = matches.get_str(name)?;
    number_in(low, high, word.as_bytes())
}

/// The bytes of the seed's 64 hexadecimal digits.
#[tactic(auto, using(crate::proofs::Found::first_rows))]
pub fn seed_in(matches: &ArgMatches<'_>) -> Option<[u8; 32]>
    ensures { result ≡ seed_in (rows_in matches.now) }
{
    let text = matches.get_str("seed")?;
    seed_of(text)
}

fn seed_of(text: &str) -> Option<[u8; 32]>
    ensures { result ≡ seed_of text.now }
{
    <[u8; 32] as FromHex>::from_hex(text).ok()
}

/// The version that is asked for, the second where none is.
pub fn version_in(matches: &ArgMatches<'_>) -> Option<Version>
    ensures { result ≡ version_in (rows_in matches.now) }
{
    match number_or(matches, "proof", 2, 1, 2)? {
        1 => Some(Version::One),
        _ => Some(Version::Two),
    }
}

//! The commands that wait for nobody.

ghost use Rattle.std.specs.Prelude.{◌≡◌, option_map};
ghost use Rattle.circom_words.specs.Matches.{rows_in};
ghost use Rattle.circom_words.specs.Words.{meant_plain, check_in, compile_in, prove_in, public_in};
ghost use Rattle.circom_words.specs.Words.{audit_in, sym_in, determine_in, confirm_in};

use crate::options::{Options, ProveOptions, ThreeNames, options_in, seed_in, version_in};
use clap::ArgMatches;

/// What the words of a command that waits for nobody ask for.
#[derive(Clone, Copy)]
pub enum PlainCommand<'w> {
    Check {
        r1cs: &'w str,
        wtns: &'w str,
    },
    /// The same, with the file of the names of wires.
    CheckNamed {
        r1cs: &'w str,
        wtns: &'w str,
        names: &'w str,
    },
    Compile {
        source: &'w str,
        out: &'w str,
        options: Options<'w>,
    },
    Prove {
        r1cs: &'w str,
        wtns: &'w str,
        out: &'w str,
        options: ProveOptions,
    },
    Public {
        r1cs: &'w str,
        wtns: &'w str,
        out: &'w str,
    },
    Audit {
        r1cs: &'w str,
        publics: &'w str,
        proof: &'w str,
    },
    Sym {
        source: &'w str,
        out: &'w str,
        options: Options<'w>,
    },
    Determine {
        r1cs: &'w str,
        out: &'w str,
    },
    Confirm {
        r1cs: &'w str,
        certificate: &'w str,
    },
}

impl<'w> PlainCommand<'w> {
    #[tactic(auto, using(crate::proofs::Found::first_rows))]
    pub fn check_in(matches: &ArgMatches<'w>) -> Option<PlainCommand<'w>>
        ensures { option_map meant_plain result ≡ check_in (rows_in matches.now) }
    {
        let r1cs = matches.get_str("R1CS")?;
        let wtns = matches.get_str("WTNS")?;
        match matches.get_str("sym") {
            None => Some(PlainCommand::Check { r1cs, wtns }),
            Some(names) => Some(PlainCommand::CheckNamed { r1cs, wtns, names }),
        }
    }

    #[tactic(auto, using(crate::proofs::Found::first_rows))]
    pub fn compile_in(matches: &ArgMatches<'w>) -> Option<PlainCommand<'w>>
        ensures { option_map meant_plain result ≡ compile_in (rows_in matches.now) }
    {
        let options = options_in(matches)?;
        let source = matches.get_str("SRC")?;
        let out = matches.get_str("OUT")?;
        Some(PlainCommand::Compile {
            source,
            out,
            options,
        })
    }

    pub fn prove_in(matches: &ArgMatches<'w>) -> Option<PlainCommand<'w>>
        ensures { option_map meant_plain result ≡ prove_in (rows_in matches.now) }
    {
        let names = ThreeNames::of(matches, "R1CS", "WTNS", "OUT")?;
        let seed = seed_in(matches)?;
        let version = version_in(matches)?;
        Some(PlainCommand::Prove {
            r1cs: names.first,
            wtns: names.second,
            out: names.third,
            options: ProveOptions { seed, version },
        })
    }

    pub fn public_in(matches: &ArgMatches<'w>) -> Option<PlainCommand<'w>>
        ensures { option_map meant_plain result ≡ public_in (rows_in matches.now) }
    {
        let names = ThreeNames::of(matches, "R1CS", "WTNS", "OUT")?;
        Some(PlainCommand::Public {
            r1cs: names.first,
            wtns: names.second,
            out: names.third,
        })
    }

    pub fn audit_in(matches: &ArgMatches<'w>) -> Option<PlainCommand<'w>>
        ensures { option_map meant_plain result ≡ audit_in (rows_in matches.now) }
    {
        let names = ThreeNames::of(matches, "R1CS", "PUBLIC", "PROOF")?;
        Some(PlainCommand::Audit {
            r1cs: names.first,
            publics: names.second,
            proof: names.third,
        })
    }

    #[tactic(auto, using(crate::proofs::Found::first_rows))]
    pub fn sym_in(matches: &ArgMatches<'w>) -> Option<PlainCommand<'w>>
        ensures { option_map meant_plain result ≡ sym_in (rows_in matches.now) }
    {
        let options = options_in(matches)?;
        let source = matches.get_str("SRC")?;
        let out = matches.get_str("OUT")?;
        Some(PlainCommand::Sym {
            source,
            out,
            options,
        })
    }

    #[tactic(auto, using(crate::proofs::Found::first_rows))]
    pub fn determine_in(matches: &ArgMatches<'w>) -> Option<PlainCommand<'w>>
        ensures { option_map meant_plain result ≡ determine_in (rows_in matches.now) }
    {
        let r1cs = matches.get_str("R1CS")?;
        let out = matches.get_str("OUT")?;
        Some(PlainCommand::Determine { r1cs, out })
    }

    #[tactic(auto, using(crate::proofs::Found::first_rows))]
    pub fn confirm_in(matches: &ArgMatches<'w>) -> Option<PlainCommand<'w>>
        ensures { option_map meant_plain result ≡ confirm_in (rows_in matches.now) }
    {
        let r1cs = matches.get_str("R1CS")?;
        let certificate = matches.get_str("CERT")?;
        Some(PlainCommand::Confirm { r1cs, certificate })
    }
}

//! Answers of status 2, and values that don't fit.

use source_hints::Rule;

/// What is said of an answer of status 2.
pub fn verdict_rule(line: &str) -> Option<Rule> {
    if line.starts_with("unsatisfied: ") {
        return Some(unsatisfied(line));
    }
    if let Some(test) = line.strip_prefix("rejected: ") {
        return Some(rejected(test));
    }
    if line.starts_with("undetermined: ") {
        return Some(Rule {
            note: "no rule that determine has shows that the inputs fix this output",
            help: "it may be fixed all the same: docs/determined.md has the rules",
        });
    }
    if line.starts_with("unconfirmed: ") {
        return Some(Rule {
            note: "the file isn't a certificate for these constraints",
            help: "make it anew by determine, from the same .r1cs file",
        });
    }
    None
}

fn unsatisfied(line: &str) -> Rule {
    if line == "unsatisfied: wire 0" {
        return Rule {
            note: "the first value of a witness is 1, and here it isn't",
            help: "make the witness anew by witness",
        };
    }
    Rule {
        note: "these values don't satisfy this constraint, counted from 0",
        help: "the witness is of another source or level, or was changed; \
            tools/look.py r1cs print FILE shows the constraint",
    }
}

fn rejected(test: &str) -> Rule {
    if test.starts_with("1 ") {
        return Rule {
            note: "there are more or fewer public values than these constraints have",
            help: "the values are main's outputs and then its public inputs: public writes them",
        };
    }
    if test.starts_with("2 ") {
        return Rule {
            note: "the file isn't a proof for constraints of this size",
            help: "it is cut off, or was made from another .r1cs file",
        };
    }
    Rule {
        note: "the proof doesn't show that these constraints and public values have a witness",
        help: "take the .r1cs file and the public values that it was made from",
    }
}

/// What is said where there aren't as many values as wires.
pub fn counts_rule() -> Rule {
    Rule {
        note: "the two files are of different circuits, or of different levels",
        help: "say the same level, --O0, --O1 or --O2, in compile and in witness",
    }
}

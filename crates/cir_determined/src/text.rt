ghost use Rattle.std.specs.Prelude.{◌≡◌, ◌≤◌, [], ◌∷◌, ◌++◌, length, decimal, IfOk, OnOk, Ok};
ghost use Rattle.binary_format.specs.Reading.{Gives};
ghost use Rattle.text_lines.specs.Reading.{refused};
ghost use Rattle.cir_determined.specs.Text.{line_of, pair_of, pair_text, rule_of, rule_named};
ghost use Rattle.cir_determined.specs.Text.{rules_of, rules_text, IsNarrow};

use crate::rule::Rule;
use std::alloc::{AllocError, Global};
use text_lines::{Line, LineFault, plain_number, put_number, read_lines, split_once};

/// A text of rules has at most so many lines.
const MOST_RULES: u32 = 4194304;

/// Why a text of rules isn't read.
pub type RuleFault = LineFault;

/// The text of rules: `solve K W`, `bool K W` or `bits K`, each with a line feed behind it.
pub fn write_rules(alloc: Global, rules: &[Rule]) -> Result<Vec<u8>, AllocError>
    ensures text { IfOk result (λ text. text.items ≡ rules_text rules.now) }
    ensures read_back { IfOk result (λ text. length rules.now ≤ 4194304
        → rules_of text.items ≡ Ok rules.now) }
{
    let mut text = Vec::new(alloc);
    for rule in rules {
        put_rule(&mut text, *rule)?;
    }
    Ok(text)
}

/// The rules of a text, one for each line, in order. The last line feed may be missing.
pub fn read_rules(alloc: Global, text: &[u8]) -> Result<Vec<Rule>, RuleFault>
    ensures rules { Gives refused (λ rules. rules.items) result (rules_of text.now) }
    ensures few { IfOk result (λ rules. length rules.items ≤ 4194304) }
{
    read_lines(alloc, text, MOST_RULES)
}

fn put_rule(out: &mut Vec<u8>, rule: Rule) -> Result<(), AllocError>
    ensures text { OnOk result (out.new.items ≡ out.old.items ++ (line_of rule ++ 10 ∷ [])) }
    ensures narrow { IsNarrow rule }
{
    match rule {
        Rule::Solve { constraint, wire } => {
            out.extend_from_slice(b"solve ")?;
            put_pair(out, constraint, wire)?;
        }
        Rule::Bool { constraint, wire } => {
            out.extend_from_slice(b"bool ")?;
            put_pair(out, constraint, wire)?;
        }
        Rule::Bits { constraint } => {
            out.extend_from_slice(b"bits ")?;
            put_number(out, u64::from(constraint))?;
        }
    }
    out.push(b'\n')?;
    Ok(())
}

fn put_pair(out: &mut Vec<u8>, first: u32, second: u32) -> Result<(), AllocError>
    ensures { OnOk result (out.new.items ≡ out.old.items ++ pair_text first second) }
{
    put_number(out, u64::from(first))?;
    out.push(b' ')?;
    put_number(out, u64::from(second))
}

impl Line for Rule {
    ghost use Rattle.cir_determined.specs.Text.{rule_of};

    ghost form = { rule_of };

    fn read(_alloc: Global, line: &[u8]) -> Result<Option<Rule>, AllocError> {
        Ok(rule_of(line))
    }
}

fn rule_of(line: &[u8]) -> Option<Rule>
    ensures { result ≡ rule_of line.now }
{
    match split_once(line, b' ') {
        Some((name, numbers)) => rule_named(name, numbers),
        None => None,
    }
}

fn rule_named(name: &[u8], numbers: &[u8]) -> Option<Rule>
    ensures { result ≡ rule_named name.now numbers.now }
{
    if name == b"solve".as_slice() {
        let (constraint, wire) = pair_of(numbers)?;
        return Some(Rule::Solve { constraint, wire });
    }
    if name == b"bool".as_slice() {
        let (constraint, wire) = pair_of(numbers)?;
        return Some(Rule::Bool { constraint, wire });
    }
    if name == b"bits".as_slice() {
        let constraint = plain_number(numbers)?;
        return Some(Rule::Bits { constraint });
    }
    None
}

// The two numbers that a space parts.
fn pair_of(text: &[u8]) -> Option<(u32, u32)>
    ensures { result ≡ pair_of text.now }
{
    match split_once(text, b' ') {
        Some((first, second)) => Some((plain_number(first)?, plain_number(second)?)),
        None => None,
    }
}

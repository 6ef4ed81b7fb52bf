//! What is said of a slip in an item's syntax.

use crate::advice::Advice;
use crate::names::Source;
use crate::tokens::{spelled, spot_of, symbol_of};
use cir_token::{Symbol, Token};
use std::alloc::{AllocError, Global};
use token_slips::{Found, Slip, first_slip};

/// Where the item stops being one. Where nothing is found, the advice stays.
pub fn syntax_slip(
    alloc: Global,
    source: Source<'_>,
    advice: &mut Advice,
) -> Result<(), AllocError> {
    let Some(found) = first_slip(alloc, source.here)? else {
        return Ok(());
    };
    let Some(token) = source.here.get(found.at) else {
        return Ok(());
    };
    let mut told = Advice::new(alloc);
    told.spot = Some(spot_of(source.bytes, token));
    match source.here.get(..found.at) {
        Some([.., before]) => add_behind(alloc, &mut told, source.bytes, found, before, token)?,
        _ => add_alone(&mut told, source.bytes, found, token)?,
    }
    *advice = told;
    Ok(())
}

// What is said of a token behind another one.
fn add_behind(
    alloc: Global,
    told: &mut Advice,
    source: &[u8],
    found: Found,
    before: &Token,
    token: &Token,
) -> Result<(), AllocError> {
    let name = spelled(source, token);
    let previous = spelled(source, before);
    match found.slip {
        Slip::Semicolon => {
            let line = spot_of(source, before).line;
            let row = format!(in alloc; "{line}")?;
            let is_next = line == spot_of(source, token).line;
            told.note(&[if is_next {
                "an operator or ; is"
            } else {
                "; is"
            }])?;
            told.note(&[" wanted before \"", name, "\""])?;
            told.help(&["the statement in line ", row.as_str(), " isn't ended: "])?;
            told.help(&["put ; behind \"", previous, "\""])
        }
        Slip::Unexpected => {
            told.note(&["\"", name, "\" can't stand behind \"", previous, "\""])?;
            told.help(&[between(symbol_of(before), symbol_of(token))])
        }
        _ => add_alone(told, source, found, token),
    }
}

// What mostly stands between two tokens.
fn between(before: Option<Symbol>, next: Option<Symbol>) -> &'static str {
    match (before, next) {
        (Some(Symbol::CloseBrace), Some(Symbol::Semicolon)) => "there is no ; behind a block",
        (Some(Symbol::Semicolon), Some(Symbol::Semicolon)) => "one ; ends a statement",
        (None, Some(Symbol::OpenBrace)) => {
            "parentheses are wanted before the block, for parameters or a condition"
        }
        (Some(Symbol::CloseParenthesis), _) => {
            "indices and members stand behind names: give the value to a name first"
        }
        (Some(_), _) => "a number, a name or a call is wanted between them",
        _ => "docs/language.md has the grammar",
    }
}

// What is said of a token by itself.
fn add_alone(
    told: &mut Advice,
    source: &[u8],
    found: Found,
    token: &Token,
) -> Result<(), AllocError> {
    match found.slip {
        Slip::Unclosed => {
            told.note(&["this ", spelled(source, token), " isn't closed"])?;
            told.help(&["the file, the statement or another bracket ends before it is closed"])
        }
        Slip::NotOpened => told.note(&["this ", spelled(source, token), " closes no bracket"]),
        other => {
            let (note, help) = sentences(other);
            told.note(&[note])?;
            told.help(&[help])
        }
    }
}

fn sentences(slip: Slip) -> (&'static str, &'static str) {
    match slip {
        Slip::NoEffect => (
            "this statement does nothing",
            "assign by =, <== or <--, or constrain by ===",
        ),
        Slip::SignalValue => (
            "a signal is given its value by <== or <--, and not by =",
            "<== also constrains; var declares what = assigns",
        ),
        Slip::ComponentValue => (
            "a declaration of several components gives none of them a value",
            "component a = A(); component b = B();",
        ),
        Slip::Block => (
            "a block is wanted here: {",
            "a template or a function is NAME(..) { .. }",
        ),
        Slip::Cut => (
            "the file ends before this item does",
            "put ; or the closing bracket behind it",
        ),
        _ => (
            "outside of templates and functions stand only pragma, include, template, function \
            and component main",
            "look for a } too many before it",
        ),
    }
}

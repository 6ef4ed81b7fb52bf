//! Refusals of shapes: which they are, as the file declares them.

use crate::advice::Advice;
use crate::declared::{Declaring, count_listed, definition_of};
use crate::names::Source;
use crate::tokens::{name_of, spelled, statement, symbol_of, word_of};
use cir_token::{Reserved, Symbol, Token};
use std::alloc::{AllocError, Global};

/// Both sides' shapes where they are names; and the reason where one is a call that waits for the
/// run.
pub fn wrong_shape(
    alloc: Global,
    source: Source<'_>,
    advice: &mut Advice,
) -> Result<(), AllocError> {
    let tokens = statement(source.here);
    let Some(at) = tokens.iter().position(is_arrow) else {
        return Ok(());
    };
    let (Some(left), Some(right)) = (tokens.get(..at), tokens.get(at.saturating_add(1)..)) else {
        return Ok(());
    };
    if calls_at_run(source.tokens, right) {
        *advice = Advice::new(alloc);
        advice.note(&["a call that waits for the run gives one number, and no array"])?;
        return advice.help(&[
            "write a function for each element, or the statements in the template",
        ]);
    }
    match (left, right) {
        ([.., to], [from]) => add_shapes(advice, source, to, from),
        _ => Ok(()),
    }
}

fn is_arrow(token: &Token) -> bool {
    matches!(
        symbol_of(token),
        Some(
            Symbol::ConstrainLeft
                | Symbol::AssignLeft
                | Symbol::Equal
                | Symbol::ConstrainRight
                | Symbol::AssignRight
        )
    )
}

// Whether the tokens are a call of a function of the file, with a signal among the arguments.
fn calls_at_run(tokens: &[Token], right: &[Token]) -> bool {
    let [name, behind @ ..] = right else {
        return false;
    };
    let Some(name) = name_of(name) else {
        return false;
    };
    if count_listed(behind).is_none() || definition_of(tokens, name).is_none() {
        return false;
    }
    behind.iter().any(|token| match name_of(token) {
        Some(argument) => is_signal(tokens, argument),
        None => false,
    })
}

// Whether the file declares a signal of this name.
fn is_signal(tokens: &[Token], name: &str) -> bool {
    let mut declaring = Declaring::new();
    let mut is_signal = false;
    for token in tokens {
        match word_of(token) {
            Some(Reserved::Signal) => is_signal = true,
            Some(Reserved::Input | Reserved::Output) | None => {}
            Some(_) => is_signal = false,
        }
        if declaring.declares(token) && is_signal && name_of(token) == Some(name) {
            return true;
        }
    }
    false
}

fn add_shapes(
    advice: &mut Advice,
    source: Source<'_>,
    to: &Token,
    from: &Token,
) -> Result<(), AllocError> {
    let (Some(to), Some(from)) = (name_of(to), name_of(from)) else {
        return Ok(());
    };
    advice.note(&["; in this file ", to, " is declared as ", to])?;
    add_dimensions(advice, source, to)?;
    advice.note(&[" and ", from, " as ", from])?;
    add_dimensions(advice, source, from)
}

// The dimensions behind the name where the file first declares it.
fn add_dimensions(advice: &mut Advice, source: Source<'_>, name: &str) -> Result<(), AllocError> {
    let mut declaring = Declaring::new();
    let mut depth: u32 = 0;
    let mut is_found = false;
    for token in source.tokens {
        if is_found {
            match symbol_of(token) {
                Some(Symbol::OpenBracket) => depth = depth.saturating_add(1),
                Some(Symbol::CloseBracket) => depth = depth.saturating_sub(1),
                _ if depth == 0 => return Ok(()),
                _ => {}
            }
            advice.note(&[spelled(source.bytes, token)])?;
        } else {
            is_found = declaring.declares(token) && name_of(token) == Some(name);
        }
    }
    Ok(())
}

//! Refusals on names: which name it is, and which was meant.

use crate::advice::{Advice, Spot};
use crate::declared::{
    Declaring, count_listed, definition_of, inputs_of, is_declared, main_template,
};
use crate::nearest::Nearest;
use crate::tokens::{is_symbol, name_of, spelled, spot_of, statement, symbol_of};
use cir_token::{Symbol, Token};
use std::alloc::{AllocError, Global};

// How many names of a statement are looked at.
const LOOKED_AT: usize = 64;

/// A source, and its tokens.
#[derive(Clone, Copy)]
pub struct Source<'s> {
    pub bytes: &'s [u8],
    pub tokens: &'s [Token],
    /// The tokens from the refused place on.
    pub here: &'s [Token],
}

/// Which name of the statement is unknown.
pub fn unknown_name(
    alloc: Global,
    source: Source<'_>,
    advice: &mut Advice,
) -> Result<(), AllocError> {
    let Some(token) = undeclared(source) else {
        return Ok(());
    };
    let name = spelled(source.bytes, token);
    let mut told = Advice::new(alloc);
    told.note(&["nothing in this file declares \"", name, "\""])?;
    told.spot = Some(spot_of(source.bytes, token));
    match nearest_declared(alloc, source.tokens, name)? {
        Some(meant) => told.help(&["did you mean \"", meant, "\"?"])?,
        None => told.help(&["declare it before this line, or include the file that has it"])?,
    }
    *advice = told;
    Ok(())
}

// The first name of the statement, not behind a dot, that the file doesn't declare.
fn undeclared(source: Source<'_>) -> Option<&Token> {
    let mut is_field = false;
    for token in statement(source.here).iter().take(LOOKED_AT) {
        if let Some(name) = name_of(token)
            && !is_field
            && !is_declared(source.tokens, name)
        {
            return Some(token);
        }
        is_field = is_symbol(Some(token), Symbol::Dot);
    }
    None
}

// The nearest name that the file declares.
fn nearest_declared<'t>(
    alloc: Global,
    tokens: &'t [Token],
    name: &'t str,
) -> Result<Option<&'t str>, AllocError> {
    let mut declaring = Declaring::new();
    let mut nearest = Nearest::to(name);
    for token in tokens {
        if declaring.declares(token)
            && let Some(other) = name_of(token)
        {
            nearest.look(alloc, other)?;
        }
    }
    Ok(nearest.best())
}

/// Which call has too few or too many arguments.
pub fn wrong_arity(
    alloc: Global,
    source: Source<'_>,
    advice: &mut Advice,
) -> Result<(), AllocError> {
    let tokens = statement(source.here);
    for (index, token) in tokens.iter().enumerate() {
        if let Some(behind) = tokens.get(index.saturating_add(1)..)
            && let Some(counts) = differing(source, token, behind)
        {
            let spot = spot_of(source.bytes, token);
            *advice = Advice::new(alloc);
            advice.spot = Some(spot);
            return add_arity(alloc, advice, source, token, counts);
        }
    }
    Ok(())
}

// How many arguments are given, and how many parameters there are.
#[derive(Clone, Copy)]
struct Counts {
    given: usize,
    wanted: usize,
}

// The counts of a call of a definition of this file, where they differ.
fn differing(source: Source<'_>, token: &Token, behind: &[Token]) -> Option<Counts> {
    let name = name_of(token)?;
    let given = count_listed(behind)?;
    let definition = definition_of(source.tokens, name)?;
    let wanted = count_listed(definition.behind)?;
    if given == wanted {
        return None;
    }
    Some(Counts { given, wanted })
}

fn add_arity(
    alloc: Global,
    advice: &mut Advice,
    source: Source<'_>,
    token: &Token,
    counts: Counts,
) -> Result<(), AllocError> {
    let name = spelled(source.bytes, token);
    let given = counts.given;
    let wanted = counts.wanted;
    let given = format!(in alloc; "{given}")?;
    let count = format!(in alloc; "{wanted}")?;
    advice.note(&[name, " takes "])?;
    advice.note(&[count.as_str()])?;
    advice.note(&[if wanted == 1 {
        " argument"
    } else {
        " arguments"
    }])?;
    if let Some(definition) = definition_of(source.tokens, name) {
        add_list(advice, source.bytes, definition.behind)?;
    }
    advice.note(&[", and ", given.as_str(), " are given"])?;
    advice.help(&["give one for each parameter"])
}

// The list in the parentheses at the front, as the source spells its tokens.
fn add_list(advice: &mut Advice, source: &[u8], tokens: &[Token]) -> Result<(), AllocError> {
    if is_symbol(tokens.get(1), Symbol::CloseParenthesis) {
        return Ok(());
    }
    advice.note(&[" "])?;
    for token in tokens.iter().take(LOOKED_AT) {
        advice.note(&[spelled(source, token)])?;
        match symbol_of(token) {
            Some(Symbol::CloseParenthesis) => return Ok(()),
            Some(Symbol::Comma) => advice.note(&[" "])?,
            _ => {}
        }
    }
    Ok(())
}

/// Which inputs main has, where the file of inputs has another key.
pub fn unknown_key<'x>(
    alloc: Global,
    tokens: &'x [Token],
    key: &'x str,
    advice: &mut Advice,
) -> Result<(), AllocError> {
    let Some(main) = main_template(tokens) else {
        return Ok(());
    };
    let Some(definition) = definition_of(tokens, main) else {
        return Ok(());
    };
    let inputs = inputs_of(alloc, definition.behind)?;
    add_inputs(advice, main, &inputs)?;
    if let Some(meant) = nearest_of(alloc, key, &inputs)? {
        advice.help = String::new(alloc);
        advice.help(&["did you mean \"", meant, "\"?"])?;
    }
    Ok(())
}

fn add_inputs(advice: &mut Advice, main: &str, inputs: &[&str]) -> Result<(), AllocError> {
    advice.note(&["; ", main, " declares the inputs"])?;
    let mut between = " ";
    for name in inputs {
        advice.note(&[between])?;
        advice.note(&[name])?;
        between = ", ";
    }
    Ok(())
}

fn nearest_of<'w>(
    alloc: Global,
    word: &'w str,
    words: &[&'w str],
) -> Result<Option<&'w str>, AllocError> {
    let mut nearest = Nearest::to(word);
    for other in words {
        nearest.look(alloc, other)?;
    }
    Ok(nearest.best())
}

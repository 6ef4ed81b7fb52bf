//! The tokens of a source that is explained.

use crate::advice::Spot;
use cir_lexer::lex;
use cir_token::{Reserved, Symbol, Token, TokenKind};
use std::alloc::{AllocError, Global};

// The most bytes that have tokens.
const MOST: usize = 1 << 24;

// The most tokens of a statement that are looked at.
const LOOKED_AT: usize = 512;

/// The tokens of a source, where its bytes have some and there is memory.
pub fn tokens_of(alloc: Global, source: &[u8]) -> Vec<Token> {
    if source.len() > MOST {
        return Vec::new(alloc);
    }
    match lex(alloc, source) {
        Ok(tokens) => tokens,
        Err(_) => Vec::new(alloc),
    }
}

/// The tokens from this place on.
pub fn tokens_from<'t>(source: &[u8], tokens: &'t [Token], line: u32, column: u32) -> &'t [Token] {
    let offset = offset_of(source, line, column);
    for (index, token) in tokens.iter().enumerate() {
        if offset <= token.offset as usize {
            return tokens.get(index..).unwrap_or(tokens);
        }
    }
    &[]
}

// The offset of a place.
fn offset_of(source: &[u8], line: u32, column: u32) -> usize {
    let mut before: usize = 0;
    let mut number: u32 = 1;
    for row in source.split(|byte| *byte == b'\n') {
        if number >= line {
            break;
        }
        before = before.saturating_add(row.len()).saturating_add(1);
        number = number.saturating_add(1);
    }
    before.saturating_add(column.saturating_sub(1) as usize)
}

/// Where the token stands.
pub fn spot_of(source: &[u8], token: &Token) -> Spot {
    let mut line: u32 = 1;
    let mut column: u32 = 1;
    for byte in source.iter().take(token.offset as usize) {
        if *byte == b'\n' {
            line = line.saturating_add(1);
            column = 1;
        } else {
            column = column.saturating_add(1);
        }
    }
    Spot {
        line,
        column,
        len: token.len,
    }
}

/// The token as the source spells it.
pub fn spelled<'s>(source: &'s [u8], token: &Token) -> &'s str {
    let first = token.offset as usize;
    let last = first.saturating_add(token.len as usize);
    match source.get(first..last) {
        Some(bytes) => str::from_utf8(bytes).unwrap_or("?"),
        None => "?",
    }
}

/// The tokens of the statement at the front, up to the `;` or the brace that ends it; of a long
/// one those that are looked at.
pub fn statement(tokens: &[Token]) -> &[Token] {
    let tokens = tokens.get(..LOOKED_AT).unwrap_or(tokens);
    let mut depth: u32 = 0;
    for (index, token) in tokens.iter().enumerate() {
        let is_end = match symbol_of(token) {
            Some(Symbol::OpenParenthesis | Symbol::OpenBracket) => {
                depth = depth.saturating_add(1);
                false
            }
            Some(Symbol::CloseParenthesis | Symbol::CloseBracket) => {
                depth = depth.saturating_sub(1);
                false
            }
            Some(Symbol::Semicolon | Symbol::OpenBrace | Symbol::CloseBrace) => depth == 0,
            _ => false,
        };
        if is_end {
            return tokens.get(..index).unwrap_or(tokens);
        }
    }
    tokens
}

/// The token's name, where it is one.
pub fn name_of(token: &Token) -> Option<&str> {
    match &token.kind {
        TokenKind::Name(name) => match str::from_utf8(name.as_slice()) {
            Ok(name) => Some(name),
            Err(_) => None,
        },
        _ => None,
    }
}

/// The token's symbol, where it is one.
pub fn symbol_of(token: &Token) -> Option<Symbol> {
    match &token.kind {
        TokenKind::Symbol(symbol) => Some(*symbol),
        _ => None,
    }
}

/// The token's reserved word, where it is one.
pub fn word_of(token: &Token) -> Option<Reserved> {
    match &token.kind {
        TokenKind::Reserved(word) => Some(*word),
        _ => None,
    }
}

/// Whether the token is this symbol.
pub fn is_symbol(token: Option<&Token>, symbol: Symbol) -> bool {
    match token {
        Some(token) => symbol_of(token) == Some(symbol),
        None => false,
    }
}

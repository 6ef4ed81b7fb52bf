//! What stands at the front of a text: a gap, a token, or a fault.
ghost use Rattle.std.specs.Prelude.{◌≡◌, ◌+◌, ◌^◌, ◌<◌, ◌≤◌, ◌∷◌, [], ◌++◌, true, false, length};
ghost use Rattle.std.specs.Prelude.{OnOk, IfOk, IfErr};
ghost use Rattle.std.specs.Str.{IsUtf8};
ghost use Rattle.std.specs.Str.Lossy.{utf8_valid_len};
ghost use Rattle.cir_lexer.specs.Spelling.{IsSpelling, is_identifier};
ghost use Rattle.cir_lexer.specs.Reading.{IsNarrow};
ghost use Rattle.cir_lexer.specs.Class.{first_class};
ghost use Rattle.cir_lexer.specs.Lengths.{identifier_len, begins_pair};
ghost use Rattle.cir_lexer.specs.Steps.{IsAt, Steps, IsNumeralAt};

use crate::class::{Class, class_of};
use crate::fault::LexFault;
use crate::scan;
use cir_token::{LexCause, Text, Token, TokenKind};
use std::alloc::{AllocError, Global};

impl From<AllocError> for LexFault {
    ghost use Rattle.cir_lexer.specs.declared.fault.LexFault.TheVariants.{OutOfMemory};

    ghost from_gives = { λ _ fault. fault ≡ OutOfMemory };

    fn from(_: AllocError) -> LexFault {
        LexFault::OutOfMemory
    }
}

fn fault_at(cause: LexCause, offset: u32) -> LexFault
    ensures { result ≡ LexFault.At cause offset }
{
    LexFault::At { cause, offset }
}

/// Adds a token of `len` bytes at this offset.
fn push(tokens: &mut Vec<Token>, kind: TokenKind, offset: u32, len: u32) -> Result<(), LexFault>
    ensures ok { OnOk result
        (tokens.new.items ≡ tokens.old.items ++ record { kind = kind; offset = offset; len = len }
        ∷ []) }
    ensures err { IfErr result (λ fault. fault ≡ LexFault.OutOfMemory) }
{
    match tokens.push(Token { kind, offset, len }) {
        Ok(()) => Ok(()),
        Err(_) => Err(LexFault::OutOfMemory),
    }
}

/// A fault at the first byte that begins no character, where there is one in these at this offset.
fn characters(bytes: &[u8], offset: u32) -> Result<(), LexFault>
    requires { offset + length bytes.now ≤ 2 ^ 24 }
    ensures ok { OnOk result (IsUtf8 bytes.now) }
    ensures err { IfErr result (λ fault. (¬ IsUtf8 bytes.now)
        × (fault ≡ LexFault.At LexCause.BadChar (offset + utf8_valid_len bytes.now))) }
{
    match str::from_utf8(bytes) {
        Ok(_) => Ok(()),
        Err(error) => Err(fault_at(LexCause::BadChar, offset + error.valid_up_to() as u32)),
    }
}

/// The identifier as a reserved word or a name.
fn word_kind(alloc: Global, name: &[u8]) -> Result<TokenKind, LexFault>
    requires { is_identifier name.now ≡ true }
    ensures ok { IfOk result (λ kind. IsSpelling name.now kind × IsNarrow kind) }
    ensures err { IfErr result (λ fault. fault ≡ LexFault.OutOfMemory) }
{
    match scan::reserved(name) {
        Some(word) => Ok(TokenKind::Reserved(word)),
        None => Ok(TokenKind::Name(Text::from_slice(alloc, name)?)),
    }
}

/// An identifier, a reserved word, or `_`.
fn word(alloc: Global, text: &[u8], offset: u32, tokens: &mut Vec<Token>) -> Result<usize, LexFault>
    requires here { IsAt text.now offset Class.Word }
    ensures { Steps text.now offset tokens.old.items tokens.new.items result }
{
    let len = scan::identifier_len(text);
    if len == 0 {
        return underscores(text, offset, tokens);
    }
    let name = &text[..len];
    let kind = word_kind(alloc, name)?;
    push(tokens, kind, offset, len as u32)?;
    Ok(len)
}

/// A run of `_` that begins no identifier.
fn underscores(text: &[u8], offset: u32, tokens: &mut Vec<Token>) -> Result<usize, LexFault>
    requires here { IsAt text.now offset Class.Word }
    requires no_name { identifier_len text.now ≡ 0 }
    ensures { Steps text.now offset tokens.old.items tokens.new.items result }
{
    let count = scan::underscores_len(text);
    if count == 0 {
        return Err(fault_at(LexCause::BadChar, offset));
    }
    for i in 0..count {
        push(tokens, TokenKind::Underscore, offset + i as u32, 1)?;
    }
    Ok(count)
}

/// The length of the number at the front, and its value where it is below 2^128.
fn numeral(text: &[u8]) -> (usize, Option<u128>)
    requires some { 0 < length text.now }
    requires class { first_class text.now ≡ Class.Digit }
    ensures { IsNumeralAt text.now result.0 result.1 }
{
    if scan::begins_hexadecimal(text) {
        let rest = &text[2..];
        let len = scan::hexadecimals_len(rest);
        (len + 2, scan::number_in(16, &rest[..len]))
    } else {
        let len = scan::digits_len(text);
        (len, scan::number_in(10, &text[..len]))
    }
}

fn number(text: &[u8], offset: u32, tokens: &mut Vec<Token>) -> Result<usize, LexFault>
    requires here { IsAt text.now offset Class.Digit }
    ensures { Steps text.now offset tokens.old.items tokens.new.items result }
{
    let (len, value) = numeral(text);
    let Some(value) = value else {
        return Err(fault_at(LexCause::NumberTooWide, offset));
    };
    push(tokens, TokenKind::Number(value), offset, len as u32)?;
    Ok(len)
}

fn string(
    alloc: Global,
    text: &[u8],
    offset: u32,
    tokens: &mut Vec<Token>,
) -> Result<usize, LexFault>
    requires here { IsAt text.now offset Class.Quote }
    ensures { Steps text.now offset tokens.old.items tokens.new.items result }
{
    let Some(body) = scan::quoted_body(text) else {
        return Err(fault_at(LexCause::OpenString, offset));
    };
    characters(body, offset + 1)?;
    let kind = TokenKind::Str(Text::from_slice(alloc, body)?);
    let len = body.len() + 2;
    push(tokens, kind, offset, len as u32)?;
    Ok(len)
}

fn symbol(text: &[u8], offset: u32, tokens: &mut Vec<Token>) -> Result<usize, LexFault>
    requires here { IsAt text.now offset Class.Other }
    requires no_line { begins_pair 47 47 text.now ≡ false }
    requires no_block { begins_pair 47 42 text.now ≡ false }
    ensures { Steps text.now offset tokens.old.items tokens.new.items result }
{
    let Some(symbol) = scan::symbol(text) else {
        return Err(fault_at(LexCause::BadChar, offset));
    };
    let len = symbol.spelling().len();
    push(tokens, TokenKind::Symbol(symbol), offset, len as u32)?;
    Ok(len)
}

/// `//` and the rest of the line, `/*` up to the first `*/`, or a symbol.
fn comment_or_symbol(text: &[u8], offset: u32, tokens: &mut Vec<Token>) -> Result<usize, LexFault>
    requires here { IsAt text.now offset Class.Other }
    ensures { Steps text.now offset tokens.old.items tokens.new.items result }
{
    if scan::begins_pair(text, b'/', b'/') {
        let body = scan::line_body(text);
        characters(body, offset + 2)?;
        Ok(body.len() + 2)
    } else if scan::begins_pair(text, b'/', b'*') {
        let Some(body) = scan::block_body(text) else {
            return Err(fault_at(LexCause::OpenComment, offset));
        };
        characters(body, offset + 2)?;
        Ok(body.len() + 4)
    } else {
        symbol(text, offset, tokens)
    }
}

/// Steps over the gap at the front of the text, or adds the token there, and answers how far it
/// went.
#[tactic(auto, using(crate::proofs::Taking::takes_blank))]
pub(crate) fn step(
    alloc: Global,
    text: &[u8],
    offset: u32,
    tokens: &mut Vec<Token>,
) -> Result<usize, LexFault>
    requires some { 0 < length text.now }
    requires fits { offset + length text.now ≤ 2 ^ 24 }
    ensures { Steps text.now offset tokens.old.items tokens.new.items result }
{
    match class_of(text[0]) {
        Class::Blank => Ok(1),
        Class::Word => word(alloc, text, offset, tokens),
        Class::Digit => number(text, offset, tokens),
        Class::Quote => string(alloc, text, offset, tokens),
        Class::Other => comment_or_symbol(text, offset, tokens),
    }
}

//! How far what stands at the front of a text reaches.
ghost use Rattle.std.specs.Prelude.{◌≡◌, ◌≢◌, ℕ, ◌+◌, ◌<◌, ◌≤◌, ◌^◌, ◌++◌, ◌==◌, nat_eq, true, not};
ghost use Rattle.std.specs.Prelude.{List, length, drop, IfSome, IfNone, MatchOption};
ghost use Rattle.std.specs.List.{prefix_len, find, starts_with};
ghost use Rattle.std.specs.Cmp.Lexicographic.{pointwise};
ghost use Rattle.std.specs.Option.{SomeIff};
ghost use Rattle.cir_lexer.specs.Bytes.{is_mark, is_name_byte, is_digit, is_hexadecimal};
ghost use Rattle.cir_lexer.specs.Class.{first_class};
ghost use Rattle.cir_lexer.specs.Lengths.{identifier_len, is_quotable, is_in_line, begins_pair};
ghost use Rattle.cir_lexer.specs.Lengths.{begins_hexadecimal, IsFirstClose, IsLongestSymbol};
ghost use Rattle.cir_lexer.specs.Reading.{Closes, IsLineComment, IsBlockComment, IsQuotation};
ghost use Rattle.cir_lexer.specs.Reading.{IsFault};
ghost use Rattle.cir_lexer.specs.Spelling.{number_in};
ghost use Rattle.cir_token.specs.Spelling.{reserved_bytes, symbol_bytes};
ghost use Rattle.cir_token.specs.declared.token.Reserved.{Reserved};
ghost use Rattle.cir_token.specs.declared.token.Symbol.{Symbol};

use crate::class::{
    Class, digit_value, is_digit, is_hexadecimal, is_letter, is_mark, is_name_byte,
};
use crate::tables::{symbols_from, words_from};
use cir_token::{LexCause, Reserved, Symbol};

#[tactic(auto, using(crate::proofs::Taking::prefixes))]
fn name_bytes_len(text: &[u8]) -> usize
    ensures value { result ≡ prefix_len is_name_byte text.now }
    ensures within { result ≤ length text.now }
{
    text.iter().take_while(|byte| is_name_byte(**byte)).count()
}

/// The first byte that's neither `$` nor `_`.
fn behind_marks(text: &[u8]) -> Option<u8>
    ensures { result ≡ find (λ c. not (is_mark c)) text.now }
{
    text.iter().copied().find(|byte| !is_mark(*byte))
}

/// The length of the identifier at the front, 0 where there is none.
pub(crate) fn identifier_len(text: &[u8]) -> usize
    ensures value { result ≡ identifier_len text.now }
    ensures within { result ≤ length text.now }
{
    match behind_marks(text) {
        Some(first) if is_letter(first) => name_bytes_len(text),
        _ => 0,
    }
}

pub(crate) fn underscores_len(text: &[u8]) -> usize
    ensures { result ≡ prefix_len (λ c. c == 95) text.now }
{
    text.iter().take_while(|byte| **byte == b'_').count()
}

pub(crate) fn digits_len(text: &[u8]) -> usize
    ensures { result ≡ prefix_len is_digit text.now }
{
    text.iter().take_while(|byte| is_digit(**byte)).count()
}

#[tactic(auto, using(crate::proofs::Taking::prefixes))]
pub(crate) fn hexadecimals_len(text: &[u8]) -> usize
    ensures value { result ≡ prefix_len is_hexadecimal text.now }
    ensures within { result ≤ length text.now }
{
    text.iter()
        .take_while(|byte| is_hexadecimal(**byte))
        .count()
}

/// The number of bytes before the first quote or line feed.
fn quotable_len(text: &[u8]) -> usize
    ensures { result ≡ prefix_len is_quotable text.now }
{
    text.iter()
        .take_while(|byte| **byte != b'"' && **byte != b'\n')
        .count()
}

/// The body of the string at the front, `None` where the line ends before its second quote.
pub(crate) fn quoted_body(text: &[u8]) -> Option<&[u8]>
    requires some { 0 < length text.now }
    requires class { first_class text.now ≡ Class.Quote }
    ensures some { IfSome result (λ body. (after : List ℕ) × IsQuotation text.now body.now after
        × (length body.now + 2 ≤ length text.now)) }
    ensures none { IfNone result (IsFault text.now LexCause.OpenString 0) }
{
    let rest = &text[1..];
    let len = quotable_len(rest);
    if len < rest.len() && rest[len] == b'"' {
        Some(&rest[..len])
    } else {
        None
    }
}

fn line_len(text: &[u8]) -> usize
    ensures { result ≡ prefix_len is_in_line text.now }
{
    text.iter().take_while(|byte| **byte != b'\n').count()
}

/// The body of the line comment at the front.
pub(crate) fn line_body(text: &[u8]) -> &[u8]
    requires { begins_pair 47 47 text.now ≡ true }
    ensures { (after : List ℕ) × IsLineComment text.now result.now after
        × (length result.now + 2 ≤ length text.now) }
{
    let rest = &text[2..];
    &rest[..line_len(rest)]
}

/// Whether the text begins with these two bytes.
pub(crate) fn begins_pair(text: &[u8], first: u8, second: u8) -> bool
    ensures { result ≡ begins_pair first second text.now }
{
    text.len() > 1 && text[0] == first && text[1] == second
}

/// Whether the text begins with `0x` and a hexadecimal digit.
pub(crate) fn begins_hexadecimal(text: &[u8]) -> bool
    ensures { result ≡ begins_hexadecimal text.now }
{
    text.len() > 2 && text[0] == b'0' && text[1] == b'x' && is_hexadecimal(text[2])
}

/// Where the first `*/` begins.
fn close_at(text: &[u8]) -> Option<usize>
    ensures { MatchOption result ((k : ℕ) → ¬ Closes (drop k text.now))
        (λ n. IsFirstClose text.now n) }
{
    for at in 0..text.len() {
        if begins_pair(&text[at..], b'*', b'/') {
            return Some(at);
        }
    }
    None
}

/// The body of the block comment at the front, `None` where it isn't ended.
pub(crate) fn block_body(text: &[u8]) -> Option<&[u8]>
    requires { begins_pair 47 42 text.now ≡ true }
    ensures some { IfSome result (λ body. (after : List ℕ) × IsBlockComment text.now body.now after
        × (length body.now + 4 ≤ length text.now)) }
    ensures none { IfNone result (IsFault text.now LexCause.OpenComment 0) }
{
    let rest = &text[2..];
    match close_at(rest) {
        Some(len) => Some(&rest[..len]),
        None => None,
    }
}

/// The number that the digits mean, `None` where it is 2^128 or more.
pub(crate) fn number_in(base: u128, digits: &[u8]) -> Option<u128>
    requires { 1 ≤ base }
    ensures { SomeIff result (number_in base digits.now < 2 ^ 128) (number_in base digits.now) }
{
    let mut value: u128 = 0;
    for digit in digits {
        value = value
            .checked_mul(base)?
            .checked_add(u128::from(digit_value(*digit)))?;
    }
    Some(value)
}

fn find_reserved(words: &[Reserved], name: &[u8]) -> Option<Reserved>
    ensures { result ≡ find (λ word. pointwise nat_eq (reserved_bytes word) name.now) words.now }
{
    words.iter().copied().find(|word| word.spelling() == name)
}

/// The reserved word that these bytes are. Only those with the same first byte are looked at.
pub(crate) fn reserved(name: &[u8]) -> Option<Reserved>
    requires { 0 < length name.now }
    ensures { MatchOption result ((word : Reserved) → name.now ≢ reserved_bytes word)
        (λ word. name.now ≡ reserved_bytes word) }
{
    find_reserved(words_from(name[0]), name)
}

/// Whether the text begins with these bytes. A symbol has so few that they are compared one by one.
fn begins_with(text: &[u8], bytes: &[u8]) -> bool
    ensures { result ≡ starts_with nat_eq text.now bytes.now }
{
    match (bytes, text) {
        ([a], [x, ..]) => *a == *x,
        ([a, b], [x, y, ..]) => *a == *x && *b == *y,
        ([a, b, c], [x, y, z, ..]) => *a == *x && *b == *y && *c == *z,
        _ => text.starts_with(bytes),
    }
}

fn find_symbol(symbols: &[Symbol], text: &[u8]) -> Option<Symbol>
    ensures { result
        ≡ find (λ symbol. starts_with nat_eq text.now (symbol_bytes symbol)) symbols.now }
{
    symbols
        .iter()
        .copied()
        .find(|symbol| begins_with(text, symbol.spelling()))
}

/// The longest symbol at the front. Most are told by their first byte, and of the others only those
/// with the same first byte are looked at.
pub(crate) fn symbol(text: &[u8]) -> Option<Symbol>
    requires { 0 < length text.now }
    ensures { MatchOption result ((other : Symbol) (after : List ℕ)
        → text.now ≢ symbol_bytes other ++ after) (λ symbol. IsLongestSymbol text.now symbol) }
{
    match symbols_from(text[0]) {
        [symbol] => Some(*symbol),
        symbols => find_symbol(symbols, text),
    }
}

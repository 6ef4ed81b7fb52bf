//! The lexical rules of Circom 2: a source's bytes, and the tokens that they spell.
#![tactic(auto)]

mod class;
mod fault;
mod front;
mod scan;
mod tables;

ghost use Rattle.std.specs.Prelude.{◌≡◌, ◌^◌, ◌≤◌, ℕ, List, Result, length};
ghost use Rattle.cir_lexer.specs.Reading.{Reads, IsReading};
ghost use Rattle.cir_token.specs.declared.token.Token.{Token as TheToken};
ghost use Rattle.cir_lexer.specs.declared.fault.LexFault.{LexFault as TheFault};

pub use cir_token::{LexCause, Reserved, Symbol, Text, Token, TokenKind};
pub use fault::LexFault;
use std::alloc::Global;

/// The tokens of a source, or its first fault in the order of bytes: the lexical rules of the
/// Circom 2 documentation, with `_` as a token of its own and numbers below 2^128.
pub fn lex(alloc: Global, bytes: &[u8]) -> Result<Vec<Token>, LexFault>
    requires { length bytes.now ≤ 2 ^ 24 }
    ensures { Reads bytes.now result }
{
    let mut tokens = Vec::new(alloc);
    let mut at = 0;
    while at < bytes.len() {
        at += front::step(alloc, &bytes[at..], at as u32, &mut tokens)?;
    }
    Ok(tokens)
}

/// Bytes have one reading: no two lists of tokens, no two faults, and not both tokens and a fault.
pub fn one_reading()
    ensures { (bytes : List ℕ) (a b : Result (List TheToken) TheFault) → IsReading bytes a
        → IsReading bytes b → a ≡ b }
{}

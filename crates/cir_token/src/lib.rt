//! The tokens of a source: reserved words, symbols and their spellings.
#![tactic(auto)]

mod spelling;
mod token;

pub use text::Text;
pub use token::{LexCause, Reserved, Symbol, Token, TokenKind};

//! The lines that name a program's signals, with the wires of the file that it is compiled to.
#![tactic(auto)]

pub mod laws;
mod symbols;

pub use symbols::{Symbols, symbols_of};

//! The words on the command line of `circom_gold`.
#![tactic(auto)]

mod circuit;
mod forms;
mod names;
mod number;
mod options;
mod plain;
mod words;

pub use circuit::CircuitCommand;
pub use options::{Options, ProveOptions, RunOptions};
pub use plain::PlainCommand;
pub use words::Command;

//! The execution of a template's body, with the steps of its run-time statements.
#![tactic(auto)]

mod bodies;
mod circuit;
mod mains;
mod renewing;
mod simple;
mod statement;
mod undecided;

pub use circuit::circuit_code;

//! The procedures of functions that are called when a program runs: one for each function with the
//! shapes of its arguments, made where a call first asks for it, with those of all that it calls.
#![tactic(auto)]

mod keeping;
mod keys;
mod procs;

pub use procs::{LowerFault, Procs};

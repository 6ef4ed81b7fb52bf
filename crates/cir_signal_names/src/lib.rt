//! The signals of each program that loads and compiles have names.
#![tactic(auto)]

pub mod laws;

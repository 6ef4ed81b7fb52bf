//! The names of a program that loading gives are identifiers.
#![tactic(auto)]

pub mod laws;

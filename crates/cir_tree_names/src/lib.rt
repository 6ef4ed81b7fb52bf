//! The names in a tree are names among the tokens that it prints.
#![tactic(auto)]

pub mod laws;

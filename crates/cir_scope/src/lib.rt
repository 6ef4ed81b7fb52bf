//! The names of a program that loading gives mean what is in scope.
#![tactic(auto)]

pub mod laws;

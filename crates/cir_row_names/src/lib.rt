//! The names of the signals and the paths of the instances that a program makes.
#![tactic(auto)]

pub mod laws;

//! The steps of a circuit: what a program that compiles does when it runs, as one list of
//! statements over numbered cells, each with the cells that it reads and writes.
#![tactic(auto)]

pub mod laws;

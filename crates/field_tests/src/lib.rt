//! Tests of the field, of its transforms and of Merkle trees. The expected numbers come from other
//! programs.
#![tactic(auto)]

#[cfg(test)]
mod checks;
#[cfg(test)]
mod field;
mod numbers;
#[cfg(test)]
mod transforms;
#[cfg(test)]
mod trees;

pub use numbers::{fill, gold, golds};

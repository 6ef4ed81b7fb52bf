//! Tests of files of symbols.
#![tactic(auto)]

#[cfg(test)]
mod lines;

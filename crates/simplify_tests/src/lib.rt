//! Tests of simplification on long lists of constraints.
#![tactic(auto)]

#[cfg(test)]
mod chains;

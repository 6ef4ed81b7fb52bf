//! Tests of the texts that explain an answer.
#![tactic(auto)]

#[cfg(test)]
mod slips;

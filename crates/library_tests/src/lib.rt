//! Tests of circuits of the folder `circuits/`, by commands over files in memory.
#![tactic(auto)]

#[cfg(test)]
mod library;
#[cfg(test)]
mod texts;

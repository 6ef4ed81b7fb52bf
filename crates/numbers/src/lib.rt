//! Lists of numbers of which most are short, and numbers that have to fit in 32 bits.
#![tactic(auto)]

mod fitting;
mod numbers;

pub use fitting::{TooLarge, behind, narrow};
pub use numbers::Numbers;

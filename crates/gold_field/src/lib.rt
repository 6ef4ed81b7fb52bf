//! The field of the numbers below p = 2^64 - 2^32 + 1 (the Goldilocks field), and sparse linear
//! combinations and rank-1 constraints over it.
#![tactic(auto)]

mod form;
mod gold;
pub mod laws;
mod operators;
mod power;

pub use form::{Constraint, Lc, Term};
pub use gold::{Gold, P};
pub use operators::{Op1, Op2, binary, unary};

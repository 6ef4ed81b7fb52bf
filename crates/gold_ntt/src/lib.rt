//! Polynomials over the field of order p: evaluation, and number-theoretic transforms.
#![tactic(auto)]

mod coset;
mod dot;
pub mod laws;
mod polynomial;
mod roots;
mod transform;

pub use coset::Coset;
pub use dot::{powers, sum_of_products};
pub use polynomial::{eval, mul, padded};
pub use roots::{ROOT, root};
pub use transform::{intt, ntt, scale_by_powers};

//! Sums, multiples and products of sparse linear combinations, and the normal form of a rank-1
//! constraint. Every call is linear in the length of its operands.
#![tactic(auto)]

mod change;
mod laws;
mod quad;
mod sums;

pub use change::{in_order, multiple, subst};
pub use laws::{constant_part, form_numbers, one_combination, one_form, one_normal, term_count};
pub use quad::{Quad, copy_of, minus, normal, times};
pub use sums::{add, add_multiple, scale, signal_and};

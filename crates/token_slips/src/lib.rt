//! Where an item that has no reading stops being one, by the tokens that stand side by side and by
//! their brackets.
#![tactic(auto)]

mod kinds;
mod syntax;

pub use syntax::{Found, Slip, first_slip};

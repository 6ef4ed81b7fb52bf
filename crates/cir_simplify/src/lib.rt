//! Simplification of a list of rank-1 constraints: linear constraints are solved, and what they say
//! of a signal is put in everywhere.
#![tactic(auto)]

mod begin;
mod laws;
mod pick;
mod places;
mod row;
mod solving;
mod state;
mod turn;
mod types;
mod wires;

pub use laws::{kept_values, nothing_fits, wire_values};
pub use solving::simplify;
pub use types::{Level, Rules, SimpFault, Simple, Solved};

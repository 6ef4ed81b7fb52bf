//! The first fault of a program's names.
#![tactic(auto)]

mod calls;
mod checking;
mod expressions;
pub mod laws;
mod name_set;
mod positions;
mod statements;
mod stop;
mod table;

pub use checking::checks;
pub use stop::{Fault, Found, Stop};

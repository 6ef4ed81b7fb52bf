//! The cells of a program's signals by their numbers, and those that have numbers at first.
#![tactic(auto)]

mod filling;
mod homes;
mod starts;

pub use filling::homes_of;
pub use homes::homes_inside;
pub use starts::start_cells;

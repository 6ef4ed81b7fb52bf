//! Assignments to variables and signals, and constraints.
#![tactic(auto)]

mod assigning;
mod growing;
mod record;
mod terms;
mod wiring;

pub use assigning::{
    Assignment, Given, Placed, Step, Written, add_assigned, is_unknown, placed_of, set_variable,
    variable_assignment, variable_step,
};
pub use growing::{NewValue, write_assigned};
pub use record::constrain;
pub use wiring::{Wiring, equal, set_signal, target_in, wiring_cost, write_signal};

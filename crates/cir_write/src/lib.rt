//! Declarations and writes of a template's body, with the steps that they make.
#![tactic(auto)]

mod assigning;
mod comparing;
mod components;
mod creating;
mod setting;
mod signals;
mod variables;
mod wiring;

pub use assigning::numbers;
pub use comparing::equal;
pub use components::components as declare_components;
pub use creating::created;
pub use setting::set;
pub use signals::signals as declare_signals;
pub use variables::variables as declare_variables;
pub use wiring::{cell, item_count, rows, set_signal};

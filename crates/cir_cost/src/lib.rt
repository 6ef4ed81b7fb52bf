//! What a run-time statement costs.
#![tactic(auto)]

mod cost;
mod nodes;
mod reads;
mod seen;
mod steps;

pub use cost::{Cost, log_cost};
pub use reads::Cell;
pub use seen::seen as seen_value;
pub use steps::stepped;

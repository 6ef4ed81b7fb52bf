//! Makes the code of a run-time statement, and of what a step writes.
#![tactic(auto)]

mod asked;
mod assigning;
mod declaring;
mod slots;
mod statements;
mod steps;
mod tasks;

pub use asked::{StepTask, asked_calls};
pub use declaring::{declare_as, known_dims};
pub use slots::{most_named, params_of};
pub use statements::emit_block;
pub use steps::emit_step;
pub use tasks::{Element, Task, emit_task};

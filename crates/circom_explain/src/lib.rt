//! What the program says on standard error of an answer that it gave: the rule that was broken, the
//! line where, and what mostly mends it. No file is opened here, and no clause says which text it
//! is: the tests do.
#![tactic(auto)]

mod answers;
mod case;
mod commands;
mod files;
mod inputs;
mod printed;
mod rules;
mod shown;
mod usage;
mod verdicts;

pub use answers::{explanation, file_to_show};
pub use case::Case;
pub use commands::{command_number, work_of};
pub use files::overwriting;

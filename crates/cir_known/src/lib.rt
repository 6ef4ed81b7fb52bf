//! What is known of the statements under a condition that is unknown when the program is compiled.
//!
//! Such statements are not executed at compile time. What is wanted of them is which outer
//! variables they may assign, since those have no known value afterwards, and whether they may
//! stand there at all.
#![tactic(auto)]

mod faults;
mod variables;

pub use faults::{UnknownFault, allowed_assign, allowed_statement, allowed_unknown};
pub use variables::{Touched, assigned, assigned_by, touched_by, touched_by_loop};

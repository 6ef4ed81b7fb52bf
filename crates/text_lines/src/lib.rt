//! Texts of lines: the lines of a text, what each of them says, and the numbers in them.
#![tactic(auto)]

mod digits;
pub mod laws;
mod lines;
mod reading;
mod written;

pub use digits::{number, plain_number};
pub use lines::{first_line, split_once};
pub use reading::{Line, LineFault, read_lines};
pub use written::put_number;

//! Files in memory and runs of the program over them, for the tests of its commands.
#![tactic(auto)]

mod circuits;
mod runs;
mod stores;

pub use circuits::{MUL, with_library};
pub use runs::{Ran, run_into, run_words, split};
pub use stores::{put_file, sources, wtns};

//! The commands of `circom_gold` over files of constraints and values: what they find in the files,
//! and their replies.
#![tactic(auto)]

mod audit;
mod check;
mod determined;
mod inputs;
mod laws;
mod outcome;
mod prove;
mod publics;
mod reply;
mod running;
mod stop;
mod writing;

pub use audit::audit_reply;
pub use check::{check_reply, verdict};
pub use determined::{confirm_reply, determine_reply};
pub use inputs::{Read, bytes_after, bytes_in, symbols_from, witness_with_text};
pub use laws::check_laws;
pub use outcome::{Generated, Halt, Named, Ran, Witness};
pub use prove::prove_reply;
pub use publics::public_reply;
pub use reply::{NewFile, Reply};
pub use running::input_from;
pub use stop::Stop;
pub use writing::{put_fault, put_text, write_file};

//! The command `check` where wires have names: what it finds in three files, and its reply.
#![tactic(auto)]

mod described;
mod named;
mod naming;

pub use described::Described;
pub use named::check_named_reply;

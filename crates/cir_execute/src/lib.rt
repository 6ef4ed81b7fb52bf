//! The execution of a body, statement by statement.
#![tactic(auto)]

mod inside;
mod scan;
mod simple;
mod statement;
mod undecided;

pub use inside::inside_cost;
pub use simple::next_component;
pub use statement::{Flow, decide, decide_branch, execute_all, log, too_many};
pub use undecided::{
    Loop, Rest, allowed, enclose, forget, read_before, scan_rest, touched,
    undecided as execute_undecided,
};

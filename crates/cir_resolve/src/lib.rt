//! What each name of a program means where it stands, and which declaration it is.
#![tactic(auto)]

mod declarations;
mod definition;
mod expressions;
mod lists;
mod names;
mod parts;
mod resolving;
mod scope;
mod simple;
mod statements;
mod stop;
mod table;

pub use definition::Definition;
pub use resolving::resolve;
pub use stop::{Found, Stop};

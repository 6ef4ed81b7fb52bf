//! What a program means, as it is compiled and as it is run: the values of its expressions at an
//! assignment of numbers to its signals, their classes, and what each operator makes of them; its
//! statements, templates and functions; its equations, and what list of constraints stands for
//! them. The definitions are in `specs/`, and `laws` are the theorems on them.
#![tactic(auto)]

mod class;
pub mod laws;

pub use class::Class;

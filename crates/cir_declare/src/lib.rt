//! Declarations of variables, signals and components, and what the creation of a component adds to
//! the body that it stands in.
#![tactic(auto)]

mod declaring;

pub use declaring::{
    NewSignal, Room, add_part, begun, declare_component, declare_signal, declare_variable, opened,
};

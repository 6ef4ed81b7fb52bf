//! What a program compiles to: the constraints of its main component, and the table of its signals.
#![tactic(auto)]

mod bodies;
mod circuit;
mod table;

pub use bodies::{
    MOST_OPEN, Opening, Place, all_ended, call_function, context_in, more_than, new_instance,
};
pub use circuit::{Circuit, InstFault, circuit_of, instantiate, main_of, no_frame, placed};

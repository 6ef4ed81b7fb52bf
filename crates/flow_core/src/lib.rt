//! The witness engine as a pure state machine: strands of work, the cells that they read and write,
//! and five kinds of event that any number of workers may bring in any order.
#![tactic(auto)]

mod at_rest;
mod drawing;
mod events;
mod graph;
mod laws;
mod linking;
mod state;

pub use at_rest::quiet;
pub use drawing::GraphFault;
pub use events::step;
pub use graph::Graph;
pub use laws::{
    a_cell_has_one_value, every_event_keeps_a_state_sound, every_honest_event_keeps_the_invariant,
    every_honest_run_keeps_the_invariant, one_release_finds_a_strand_ready,
    quiet_states_are_settled, settled_states_have_the_answer,
};
pub use state::{Event, Hold, Phase, State};

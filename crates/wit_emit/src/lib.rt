//! Makes the code of a run-time statement's expressions.
#![tactic(auto)]

mod calls;
mod ground;
mod jumps;
mod keys;
mod pieces;
mod reading;
mod shapes;
mod values;

pub use ground::{Front, Ground, Knowing};
pub use jumps::{begin_jump, begin_other, begin_turns, end_jump, end_jump_zero, end_turns};
pub use keys::place_of;
pub use pieces::zeros;
pub use reading::write;
pub use shapes::{shapes_of, size_of};
pub use values::{decided_by, emit, emit_place, emit_right};

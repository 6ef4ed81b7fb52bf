//! What a run-time statement reads: homes of names in a frame, sources of elements and the code
//! that loads them, and the numbers that are known whatever is read.
#![tactic(auto)]

mod elements;
mod ends;
mod homes;
mod known;
mod loaded;
mod names;
mod reads;
mod same;
mod sources;

pub use elements::{is_inside, offset};
pub use ends::Ends;
pub use homes::{Home, Placed, Scope};
pub use known::{is_listed, number_of};
pub use loaded::{CallValue, Called, Loaded, component_dims};
pub use names::{Key, Sought};
pub use reads::Reads;
pub use same::is_same;
pub use sources::{Input, Named, Shape, Source, Sources, emit_sources};

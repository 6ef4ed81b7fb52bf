//! What the execution of a program keeps: the variables, signals and components of a body, and what
//! the whole program has made so far.
#![tactic(auto)]

mod entries;
mod frame;
mod reading;
mod signal;
mod world;
mod writing;

pub use frame::{ComponentEntry, Frame, Part};
pub use reading::{
    Reading, Root, Source, inner_source, number_at, number_of, part_at, read_datum, read_number,
    source_of,
};
pub use signal::SignalEntry;
pub use world::{GROUP_SIZE, Group, Grouping, Marks, Row, Sizes, World};
pub use writing::{Target, input_at, own_target, target_of, write_element};

//! A `Vec` that contracts see as the list of its elements.
#![tactic(auto)]

mod items;

pub use items::Items;

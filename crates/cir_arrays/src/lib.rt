//! Numbers and arrays, the parts of them that indices mean, the limits, and how a step stops that
//! doesn't go on.
#![tactic(auto)]

mod arrays;
mod counts;
mod places;
mod reach;
mod stop;
mod values;

pub use arrays::{Array, Contents, Datum, Filling};
pub use counts::{Counts, add_array, elements, is_too_large, made_elements, size_of};
pub use places::{all_known, is_all_known, place_of, places_of, same_dims};
pub use reach::{Part as Meaning, Reach, Want, reach_of};
pub use stop::{Fault, Site, Stop};

//! Byte strings, of which short ones lie in the value itself.
#![tactic(auto)]

mod text;

pub use text::Text;

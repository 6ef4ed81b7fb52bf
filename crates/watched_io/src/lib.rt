//! A store and a sink that note what is asked of them, and are otherwise the ones inside.
#![tactic(auto)]

mod asked;
mod heard;
mod watched;
mod watcher;

pub use asked::{Asked, Outcome};
pub use heard::Heard;
pub use watched::Watched;
pub use watcher::{Step, Watcher};

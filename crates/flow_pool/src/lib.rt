//! The strands that wait for a worker, under a lock, and how workers ask for them and rest.
#![tactic(auto)]

mod pool;
mod state;

pub use pool::Pool;
pub use state::PoolState;

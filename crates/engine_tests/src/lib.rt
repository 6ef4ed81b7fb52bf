//! Tests of the witness machine and of the engine's core and board.
#![tactic(auto)]

#[cfg(test)]
mod board;
#[cfg(test)]
mod checks;
#[cfg(test)]
mod events;
#[cfg(test)]
mod machine;
#[cfg(test)]
mod workers;

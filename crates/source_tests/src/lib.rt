//! Tests of the commands that take a source, over files in memory.
#![tactic(auto)]

#[cfg(test)]
mod batching;
#[cfg(test)]
mod checks;
#[cfg(test)]
mod compiling;
#[cfg(test)]
mod naming;
#[cfg(test)]
mod refusing;
#[cfg(test)]
mod running;
#[cfg(test)]
mod stepping;

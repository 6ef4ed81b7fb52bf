//! Tests of the runs of whole flows, on one thread and on workers.
#![tactic(auto)]

#[cfg(test)]
mod checks;
#[cfg(test)]
mod circuits;
#[cfg(test)]
mod flow;
#[cfg(test)]
mod gates;
#[cfg(test)]
mod many;

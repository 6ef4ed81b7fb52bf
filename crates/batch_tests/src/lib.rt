//! Tests of many lists of start values over one pool of workers.
#![tactic(auto)]

#[cfg(test)]
mod batches;
#[cfg(test)]
mod gates;

//! Tests of layouts, proof bytes, prover and auditor, with expected numbers of other programs.
#![tactic(auto)]

#[cfg(test)]
mod audits;
#[cfg(test)]
mod chain;
#[cfg(test)]
mod checks;
#[cfg(test)]
mod forged;
#[cfg(test)]
mod layout;
#[cfg(test)]
mod proofs;
#[cfg(test)]
mod proving;
#[cfg(test)]
mod samples;

//! Tests of certificates, on small circuits and on texts of rules.
#![tactic(auto)]

#[cfg(test)]
mod circuits;
#[cfg(test)]
mod texts;

//! Tests of the crates that read and write files, on runs that end well and on those that fail.
#![tactic(auto)]

#[cfg(test)]
mod checks;
#[cfg(test)]
mod constraint_files;
#[cfg(test)]
mod fields;
#[cfg(test)]
mod inputs;
#[cfg(test)]
mod lists;
#[cfg(test)]
mod stores;

//! Tests of the crates that read the language and build its constraints, mostly by sources.
#![tactic(auto)]

#[cfg(test)]
mod checks;
#[cfg(test)]
mod combinations;
#[cfg(test)]
mod compiling;
#[cfg(test)]
mod conditions;
#[cfg(test)]
mod expressions;
#[cfg(test)]
mod faults;
#[cfg(test)]
mod loading;
#[cfg(test)]
mod parsing;
#[cfg(test)]
mod placing;
#[cfg(test)]
mod refusals;
#[cfg(test)]
mod sources;
#[cfg(test)]
mod tokens;
#[cfg(test)]
mod values;

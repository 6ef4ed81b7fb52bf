//! The sources so far.
use std::collections::BTreeMap;
use wit_sourced::Sources;

/// The sources so far; where in the list the source of a slot stands, but for the first few, which
/// are looked through; and whether each reading so far has a source.
#[derive(Drop)]
pub struct Found<'a> {
    pub sources: Sources<'a>,
    pub places: BTreeMap<u32, usize>,
    pub is_whole: bool,
}

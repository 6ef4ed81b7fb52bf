//! The texts of files of `circuits/`, without their comments. `tools/library_texts.py` writes
//! this file and those of the folder.

mod bits;
mod comparators;
mod merkle;
mod poseidon;
mod poseidon_constants;
mod range;
mod select;
mod sha256;
mod sha256_constants;
mod sort;

/// Their names in a store, and their texts.
pub static FILES: [(&str, &str); 10] = [
    ("lib/comparators.circom", comparators::TEXT),
    ("lib/bits.circom", bits::TEXT),
    ("lib/range.circom", range::TEXT),
    ("lib/select.circom", select::TEXT),
    ("lib/sha256_constants.circom", sha256_constants::TEXT),
    ("lib/sha256.circom", sha256::TEXT),
    ("lib/poseidon_constants.circom", poseidon_constants::TEXT),
    ("lib/poseidon.circom", poseidon::TEXT),
    ("lib/merkle.circom", merkle::TEXT),
    ("lib/sort.circom", sort::TEXT),
];

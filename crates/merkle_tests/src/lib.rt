//! Tests of `xet_merkle` with values that were computed without this code: the hashes of the crate
//! `xet-core-structures`, and worked examples.
#![tactic(auto)]

#[cfg(test)]
mod error;
#[cfg(test)]
mod merge_tree;
#[cfg(test)]
mod merkle_hash_subtree;
#[cfg(test)]
mod upstream;

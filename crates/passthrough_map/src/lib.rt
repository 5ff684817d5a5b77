//! A map for deduplication, and the hasher for its keys, which are already hashes. This ports the modules
//! `passthrough_hashmap` and `passthrough_hasher` of the crate `xet-core-structures` 1.5.2.
#![tactic(auto)]

pub mod laws;
pub mod passthrough_hasher;
pub mod passthrough_hashmap;

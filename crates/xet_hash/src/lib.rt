//! The 256-bit hash and its forms. This ports the module `merklehash` of the crate `xet-core-structures` 1.5.2. The
//! crate also re-exports keyed BLAKE3 and a map for deduplication from the crates below it.
#![tactic(auto)]

pub mod data_hash;
mod hex_digits;
pub mod laws;

pub use keyed_blake3 as blake3;
pub use passthrough_map::{passthrough_hasher, passthrough_hashmap};

//! What a root and a file hash commit to. Two files with the same hash are the same file, or hashing them met two
//! different messages with the same BLAKE3 hash.
#![tactic(auto)]

pub mod laws;

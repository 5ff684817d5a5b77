//! From the bytes of a file to its hash: they are cut into chunks, whose hashes become the file hash.
#![tactic(auto)]

pub mod file_hasher;

pub use file_hasher::FileHasher;

//! Ranges of chunks that merge with their neighbours, whatever they keep of their chunks: the trait that says what
//! merging promises, the range that keeps all chunks, and merging under any bracketing.
#![tactic(auto)]

pub mod adjacent;
pub mod chunk_range;
pub mod merge_tree;
mod open_range;
pub mod plain_range;

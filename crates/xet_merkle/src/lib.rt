//! Roots and file hashes of lists of chunks, and subtrees of adjacent ranges, which merge without their chunks. This
//! ports the module `merklehash` of the crate `xet-core-structures` 1.5.2.
#![tactic(auto)]

pub mod laws;
pub mod merkle_hash_subtree;

pub use chunk_ranges::{
    chunk_range as chunk_range, merge_tree as merge_tree, plain_range as plain_range,
};
pub use level_nodes::node_json as node_json;
pub use xet_roots::{
    CoreError, aggregated_hashes as aggregated_hashes, as_node as as_node, error as error,
    parent_maker as parent_maker,
};

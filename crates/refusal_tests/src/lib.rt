//! Tests of the calls that take an allocator. Those that allocate are in the table `Call`, and have each of their
//! requests refused in turn. The calls that don't allocate are called while each request is refused.
//!
//! These calls allocate and aren't in the table:
//!
//! - `program` of both programs is in `line_tests`.
//! - What calls take from the global allocator, as `to_json` and the two lists of `MergeTree::run` do, is in
//!   `global_refusals` and `exhaustion_tests`.
//! - Others are only called through those of the table: `SessionOf::place`, `Runs`, `KeptHashes` and `SeenHashes`;
//!   `parents`, `hashes_of_open`, `read_nodes`, `with_nodes` and the calls of `subtree_levels`; and the parts of the
//!   programs.
#![tactic(auto)]

#[cfg(test)]
mod calls;

//! Canonical subtrees of lists of chunks, and merging them. This ports the module `merkle_hash_subtree` of the crate
//! `xet-core-structures` 1.5.2.
//!
//! A subtree keeps of a range of chunks, level by level, only the nodes whose groups may still change when other chunks
//! come before or after the range. Subtrees of adjacent ranges merge without their chunks. Whichever two merge first, the
//! result is the one canonical subtree of all chunks, and with both ends marked it has their root. The guide
//! (`docs/GUIDE.md`) explains groups, stable points and merging with pictures. `specs/Canonical.antt` of `subtree_levels`
//! defines the canonical subtree. `specs/Steps/LevelMerging.antt` there states how levels are merged, as a relation, and
//! `proofs/Merging/LevelMerge.antt` proves that the canonical subtrees of two lists then give that of both lists, one
//! after the other.
//!
//! # Names
//!
//! The calls have the names of the Rust crate. `left` and `right` are its private `left_at` and `right_at`. Its
//! `Clone`, `Serialize` and `Deserialize` are `try_clone`, `to_json` and `from_json` here. The invariant of the type
//! (`IsWellFormed` of `subtree_levels`) replaces its `verify_invariants`. There is no `debug_chunks`. Only this
//! port has `at_start`, `at_end`, `total_size` and equality.

mod json_parts;
mod subtree;

pub use chunk_ranges::chunk_range::ChunkRange;
pub use chunk_ranges::merge_tree::MergeTree;
pub use chunk_ranges::plain_range::PlainRange;
pub use stable_points::search::{
    find_stable_end, find_stable_end_of, find_stable_start, find_stable_start_of,
};
pub use subtree::MerkleHashSubtree;
pub use xet_roots::parent_maker::ParentMaker;

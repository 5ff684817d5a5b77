//! Range proofs. Whoever knows the hash of a file checks a part of it with a few kilobytes: the nodes of the part's
//! chunks, and the other nodes of each group on the way up.
#![tactic(auto)]

mod bytes;
mod differing;
mod flat;
pub mod hash_tree;
mod json;
pub mod laws;
pub mod open_error;
pub mod opened_range;
mod places;
pub mod proof;
mod proof_parts;
mod reading;
mod sides;
mod tops;
mod tree_level;

pub use hash_tree::HashTree;
pub use open_error::{OpenError, OpenFault};
pub use opened_range::OpenedRange;
pub use proof::RangeProof;

//! Groups of nodes, their parents, and the roots and file hashes of lists of chunks. This ports the module
//! `aggregated_hashes` of the crate `xet-core-structures` 1.5.2.
#![tactic(auto)]

pub mod aggregated_hashes;
pub mod as_node;
pub mod error;
pub mod groups;
pub mod laws;
pub mod parent_maker;
mod sizes;

pub use error::CoreError;

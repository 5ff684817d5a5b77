//! The nodes that are kept on both sides of a level, of a subtree or of a range proof: their lists, flat lists, and JSON.
#![tactic(auto)]

pub mod flat;
mod left_nodes;
pub mod levels;
pub mod node_json;

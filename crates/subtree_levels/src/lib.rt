//! The levels of a canonical subtree: what it keeps of each, the rules that they keep, and merging level by level.
#![tactic(auto)]

pub mod collapse;
mod in_place;
mod in_sight;
pub mod laws;
pub mod level_rules;
pub mod levels;
pub mod merge_levels;
mod sides;
pub mod split;

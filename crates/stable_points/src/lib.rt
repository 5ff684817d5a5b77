//! Stable points: the places in a list of nodes at which a group ends, whatever nodes come before and after the list.
#![tactic(auto)]

pub mod laws;
pub mod search;

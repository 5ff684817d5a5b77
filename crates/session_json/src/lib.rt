//! Sessions over subtrees as JSON, and subtrees as JSON text.
#![tactic(auto)]

pub mod fault;
pub mod laws;
mod lists;
mod pieces;
pub mod reading;
pub mod reading_back;
pub mod subtree_text;
pub mod writing;

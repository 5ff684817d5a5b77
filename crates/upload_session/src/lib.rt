//! Upload sessions: ranges of chunks by their positions, which come in any order.
#![tactic(auto)]

pub mod kept_hashes;
pub mod laws;
pub mod range_fault;
mod runs;
pub mod session;
pub mod session_fault;
pub mod subtree_laws;

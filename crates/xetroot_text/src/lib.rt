//! The library of the program `xetroot`: the root and the file hash of pairs, which lines put at positions. The crate
//! also re-exports the session that keeps the pairs, from the crate below it.
#![tactic(auto)]

pub mod fault;
pub mod laws;
mod placed_pairs;
pub mod program;
pub mod run;

pub use upload_session::{kept_hashes, session, session_fault};

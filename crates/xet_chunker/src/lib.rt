//! The cuts of a message into chunks, as Xet's chunker makes them.
//!
//! - A [`Chunker`] finds them in a message that comes in pieces.
//! - Where many machines have pieces of a message, each finds the candidates of its own by a [`CandidateFinder`], and a [`CutChoice`] makes
//!   the cuts out of all candidates.
#![tactic(auto)]

mod candidates;
mod choice;
mod chunker;
mod gear;
pub mod laws;

pub use candidates::CandidateFinder;
pub use choice::CutChoice;
pub use chunker::Chunker;

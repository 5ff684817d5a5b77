//! Bytes of a file that is somewhere else: what was checked of them, and is kept.
#![tactic(auto)]

mod kept_chunks;
pub mod part;
pub mod part_fault;
pub mod reader;

pub use part::WantedPart;
pub use part_fault::PartFault;
pub use reader::VerifiedReader;

//! The error of opening a range proof.

use crate::proof::RangeProof;
use std::alloc::{Allocator, Global};
use thiserror::Error;

/// Why a range proof wasn't opened.
#[derive(Clone, Copy, Debug, PartialEq, Eq, Error)]
pub enum OpenFault {
    /// The proof doesn't show the hash.
    #[error("the proof doesn't show this hash")]
    Mismatch,
    /// An allocation failed.
    #[error("out of memory")]
    OutOfMemory,
}

/// A range proof that wasn't opened, unchanged, and why.
#[derive(Debug, Drop)]
pub struct OpenError<A: Allocator = Global> {
    pub proof: RangeProof<A>,
    pub fault: OpenFault,
}

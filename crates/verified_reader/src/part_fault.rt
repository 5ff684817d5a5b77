//! Why a proof isn't that of a part that was asked for.

use thiserror::Error;

/// Why a proof isn't that of a part that was asked for.
#[derive(Clone, Copy, Debug, PartialEq, Eq, Error)]
pub enum PartFault {
    /// The proof doesn't show the file hash under the salt.
    #[error("the proof doesn't show this file hash")]
    Mismatch,
    /// The proof's range doesn't hold the places: it begins at the first of these places, and ends at the second.
    #[error("the proof is of the bytes from {0} up to {1}, and not of those that are wanted")]
    Elsewhere(u64, u64),
    /// The proof's range, which begins at the first of these places and ends at the second, has more bytes beside those
    /// that are wanted than are allowed.
    #[error("the proof is of the bytes from {0} up to {1}, too far beyond those that are wanted")]
    TooFar(u64, u64),
    /// An allocation failed.
    #[error("out of memory")]
    OutOfMemory,
}

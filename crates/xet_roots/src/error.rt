//! The error of this crate.

ghost use Rattle.std.specs.Prelude.{◌≡◌};
ghost use Rattle.xet_roots.specs.declared.error.CoreError.TheVariants.{OutOfMemory};

use std::alloc::{AllocError, AllocFailed};
use thiserror::Error;

/// Why a call failed. After a failure every object that the call borrowed is unchanged.
#[derive(Clone, Copy, Debug, PartialEq, Eq, Error)]
pub enum CoreError {
    /// A range other than the last is marked at its end, or a range other than the first at its start. Of a range proof:
    /// its range is empty, or goes past the end of the list.
    #[error("invalid arguments")]
    InvalidArguments,
    /// The sizes of all nodes add up to more than `u64::MAX` bytes.
    #[error("size overflow")]
    SizeOverflow,
    /// An allocation failed.
    #[error("out of memory")]
    OutOfMemory,
    /// A JSON value describes no subtree or no range proof. It is of JSON values alone. The number is the lowest rule that the
    /// value breaks: from 1 to 13 of a subtree, from 1 to 8 of a range proof. `from_json` of `MerkleHashSubtree` and of
    /// `RangeProof` list the rules.
    #[error("invalid JSON: rule {0}")]
    InvalidJson(u8),
    /// Flat lists describe no subtree or no range proof. The number is the lowest rule that they break, from 5 up. The rules
    /// are those of `from_json`.
    #[error("invalid flat lists: rule {0}")]
    InvalidLists(u8),
}

impl From<AllocError> for CoreError {
    ghost from_gives = { λ _ e. e ≡ OutOfMemory };

    fn from(_e: AllocError) -> CoreError {
        CoreError::OutOfMemory
    }
}

impl<T: Drop> From<AllocFailed<T>> for CoreError {
    ghost from_gives = { λ _ e. e ≡ OutOfMemory };

    fn from(_e: AllocFailed<T>) -> CoreError {
        CoreError::OutOfMemory
    }
}

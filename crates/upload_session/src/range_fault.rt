//! The error of putting a range or another session.

ghost use Rattle.std.specs.Prelude.{◌≡◌};
ghost use Rattle.upload_session.specs.declared.range_fault.RangeFault.TheVariants.{Memory};

use std::alloc::AllocError;
use thiserror::Error;

/// Why a range, or another session, wasn't put into a session. If several faults apply, the call returns the one that is
/// listed first. After a failure nothing has changed.
#[derive(Clone, Copy, Debug, PartialEq, Eq, Error)]
pub enum RangeFault {
    /// The range is said to have no chunks, or one of its ends is marked.
    #[error("a range without chunks, or with a marked end")]
    Range,
    /// A position is taken: of a range the first of them, and of a session one that both have.
    #[error("position {0} is taken")]
    Overlap(u64),
    /// The first position plus the number of chunks is more than `u64::MAX`.
    #[error("positions past 2^64 - 1")]
    Positions,
    /// The sizes of all chunks add up to more than `u64::MAX` bytes.
    #[error("sizes past 2^64 - 1")]
    Sizes,
    /// An allocation failed.
    #[error("out of memory")]
    Memory,
}

impl From<AllocError> for RangeFault {
    ghost from_gives = { λ _ fault. fault ≡ Memory };

    fn from(_error: AllocError) -> RangeFault {
        RangeFault::Memory
    }
}

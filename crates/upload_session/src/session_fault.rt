//! The error of a session.

ghost use Rattle.std.specs.Prelude.{◌≡◌};
ghost use Rattle.upload_session.specs.declared.session_fault.SessionFault.TheVariants.{Memory};

use std::alloc::AllocError;
use thiserror::Error;

/// Why a call of a session failed. If several faults apply, the call returns the one that is listed first. After a
/// failure nothing has changed.
#[derive(Clone, Copy, Debug, PartialEq, Eq, Error)]
pub enum SessionFault {
    /// A position is taken.
    #[error("a position is taken")]
    Overlap,
    /// The first position plus the number of chunks is more than `u64::MAX`.
    #[error("positions past 2^64 - 1")]
    Positions,
    /// The sizes of all chunks add up to more than `u64::MAX` bytes.
    #[error("sizes past 2^64 - 1")]
    Sizes,
    /// An allocation failed.
    #[error("out of memory")]
    Memory,
    /// The taken positions aren't exactly those below the total.
    #[error("a position isn't taken, or one is past the total")]
    Gap,
}

impl From<AllocError> for SessionFault {
    ghost from_gives = { λ _ fault. fault ≡ Memory };

    fn from(_error: AllocError) -> SessionFault {
        SessionFault::Memory
    }
}

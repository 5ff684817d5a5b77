//! The error of a text that describes no session.

ghost use Rattle.std.specs.Prelude.{◌≡◌};
ghost use Rattle.session_json.specs.declared.fault.SessionTextFault.TheVariants.{Memory};

use std::alloc::{AllocError, AllocFailed};
use thiserror::Error;

/// Why a session wasn't read from a text.
#[derive(Clone, Copy, Debug, PartialEq, Eq, Error)]
pub enum SessionTextFault {
    /// The text isn't UTF-8, isn't JSON, is nested more than 32 deep, or has a member twice in an object.
    #[error("no JSON, or a member twice")]
    Text,
    /// The value breaks this rule of sessions, and none with a lower number.
    #[error("JSON breaks rule {0} of sessions")]
    Rule(u8),
    /// The value breaks rule 5 of sessions, and none with a lower number: the first of its runs whose chunks aren't a
    /// subtree breaks this rule of subtrees, and none with a lower number.
    #[error("JSON of a run's chunks breaks rule {0} of subtrees")]
    Subtree(u8),
    /// An allocation failed.
    #[error("out of memory")]
    Memory,
}

impl From<AllocError> for SessionTextFault {
    ghost from_gives = { λ _ fault. fault ≡ Memory };

    fn from(_error: AllocError) -> SessionTextFault {
        SessionTextFault::Memory
    }
}

impl<T: Drop> From<AllocFailed<T>> for SessionTextFault {
    ghost from_gives = { λ _ fault. fault ≡ Memory };

    fn from(_error: AllocFailed<T>) -> SessionTextFault {
        SessionTextFault::Memory
    }
}

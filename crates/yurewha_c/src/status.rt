//! The statuses that exports return. The status is 0 if and only if the call succeeded.

ghost use Rattle.std.specs.Prelude.{◌≡◌};
ghost use Rattle.yurewha_c.specs.Statuses.{core_status, open_status, proof_status, range_status, session_status, text_status};

use range_proof::OpenFault;
use session_json::fault::SessionTextFault;
use upload_session::range_fault::RangeFault;
use upload_session::session_fault::SessionFault;
use xet_merkle::CoreError;

/// The call succeeded.
pub const DONE: u32 = 0;

/// The arguments don't fit together, or the requested thing doesn't exist.
pub const ARGUMENTS: u32 = 1;

/// Sizes or lengths add up to more than 2^64 - 1.
pub const SIZES: u32 = 2;

/// An allocation failed.
pub const MEMORY: u32 = 3;

/// A text doesn't have the expected form.
pub const TEXT: u32 = 4;

/// The room is too small.
pub const ROOM: u32 = 5;

/// A handle that the call reads is empty.
pub const EMPTY_HANDLE: u32 = 6;

/// The range proof doesn't show the hash, or the data isn't that of the range.
pub const MISMATCH: u32 = 7;

/// This plus the number of a rule, from 1 to 13: the JSON value, or the flat lists, of a subtree break this rule and none
/// with a lower number.
pub const RULE: u32 = 16;

/// A position of a session is taken.
pub const SESSION_OVERLAP: u32 = 33;

/// The first position plus the number of chunks is more than 2^64 - 1.
pub const SESSION_POSITIONS: u32 = 34;

/// The taken positions of a session aren't exactly those below the total. Up to version 1.0, calls of a session returned
/// 35 for `SIZES` and 36 for `MEMORY`. No status gets these numbers again.
pub const SESSION_GAP: u32 = 37;

/// The range of a proof doesn't hold the bytes of the file that are asked for.
pub const ELSEWHERE: u32 = 38;

/// The range of a proof has more bytes beside those that are asked for than are allowed.
pub const TOO_FAR: u32 = 39;

/// This plus the number of a rule, from 1 to 8: the JSON value, the bytes or the flat lists of a range proof break this
/// rule and none with a lower number.
pub const PROOF_RULE: u32 = 48;

/// This plus the number of a rule, from 1 to 7 but 5: the JSON value of a session breaks this rule and none with a lower
/// number. If it breaks rule 5, the status is `RULE` plus a rule of subtrees.
pub const SESSION_RULE: u32 = 64;

// Returns the status of an error.
pub(crate) fn status_of(error: CoreError) -> u32
    ensures { result ≡ core_status error }
{
    match error {
        CoreError::InvalidArguments => ARGUMENTS,
        CoreError::SizeOverflow => SIZES,
        CoreError::OutOfMemory => MEMORY,
        CoreError::InvalidJson(rule) | CoreError::InvalidLists(rule) => RULE + u32::from(rule),
    }
}

// Returns the status of a session's fault.
pub(crate) fn status_of_fault(fault: SessionFault) -> u32
    ensures { result ≡ session_status fault }
{
    match fault {
        SessionFault::Overlap => SESSION_OVERLAP,
        SessionFault::Positions => SESSION_POSITIONS,
        SessionFault::Sizes => SIZES,
        SessionFault::Memory => MEMORY,
        SessionFault::Gap => SESSION_GAP,
    }
}

// Returns the status of an error of a call that puts a range or another session.
pub(crate) fn status_of_range_fault(fault: RangeFault) -> u32
    ensures { result ≡ range_status fault }
{
    match fault {
        RangeFault::Range => ARGUMENTS,
        RangeFault::Overlap(_) => SESSION_OVERLAP,
        RangeFault::Positions => SESSION_POSITIONS,
        RangeFault::Sizes => SIZES,
        RangeFault::Memory => MEMORY,
    }
}

// Returns the status of an error of a range proof, whose rules have statuses of their own.
pub(crate) fn status_of_proof(error: CoreError) -> u32
    ensures { result ≡ proof_status error }
{
    match error {
        CoreError::InvalidJson(rule) | CoreError::InvalidLists(rule) => {
            PROOF_RULE + u32::from(rule)
        }
        other => status_of(other),
    }
}

// Returns the status of a range proof that wasn't opened.
pub(crate) fn status_of_open(fault: OpenFault) -> u32
    ensures { result ≡ open_status fault }
{
    match fault {
        OpenFault::Mismatch => MISMATCH,
        OpenFault::OutOfMemory => MEMORY,
    }
}

// Returns the status of a text that says no session.
pub(crate) fn status_of_text(fault: SessionTextFault) -> u32
    ensures { result ≡ text_status fault }
{
    match fault {
        SessionTextFault::Text => TEXT,
        SessionTextFault::Rule(rule) => SESSION_RULE + u32::from(rule),
        SessionTextFault::Subtree(rule) => RULE + u32::from(rule),
        SessionTextFault::Memory => MEMORY,
    }
}

//! What each status means, in English.

ghost use Rattle.std.specs.Prelude.{◌≡◌, ◌-◌, ◌≤◌, length};
ghost use Rattle.yurewha_c.specs.StatusTexts.{proof_rule_text, rule_text, session_rule_text, status_text};
ghost use Rattle.yurewha_c.specs.Texts.{WritesText};

use crate::status::{
    ARGUMENTS, DONE, ELSEWHERE, EMPTY_HANDLE, MEMORY, MISMATCH, PROOF_RULE, ROOM, RULE,
    SESSION_GAP, SESSION_OVERLAP, SESSION_POSITIONS, SESSION_RULE, SIZES, TEXT, TOO_FAR,
};
use crate::text::write_text;

// Returns how a subtree's value breaks a rule.
fn rule_text(rule: u32) -> &'static str
    ensures value { result.now ≡ rule_text rule }
    ensures fits { length result.now ≤ 96 }
{
    match rule {
        1 => "rule 1: the value isn't an object",
        2 => "rule 2: the nodes or levels aren't an array, or a mark isn't a boolean",
        3 => "rule 3: a node isn't a hash and a size",
        4 => "rule 4: a level isn't two counts",
        5 => "rule 5: there is no level",
        6 => "rule 6: the counts don't add up to the number of nodes",
        7 => "rule 7: the sizes add up to more than 2^64 - 1",
        8 => "rule 8: there are right nodes at the top, or although the end is marked",
        9 => "rule 9: there are left nodes below the top, although the start is marked",
        10 => "rule 10: the top has several nodes, although both ends are marked",
        11 => "rule 11: the top of several levels has no node",
        12 => "rule 12: left nodes don't end at a first stable point",
        13 => "rule 13: right nodes don't begin at a last stable point",
        _ => "unknown status",
    }
}

// Returns how a range proof's value breaks a rule.
fn proof_rule_text(rule: u32) -> &'static str
    ensures value { result.now ≡ proof_rule_text rule }
    ensures fits { length result.now ≤ 96 }
{
    match rule {
        1 => "rule 1: the range proof isn't an object, or has no byte",
        2 => "rule 2: the chunks or levels aren't an array",
        3 => "rule 3: a level isn't an object with two arrays, or two bytes",
        4 => "rule 4: a node isn't a hash and a size",
        5 => "rule 5: there is no chunk",
        6 => "rule 6: there are more than 64 levels",
        7 => "rule 7: a side of a level has more than 8 nodes",
        8 => "rule 8: the sizes add up to more than 2^64 - 1",
        _ => "unknown status",
    }
}

// Returns how a session's value breaks a rule.
fn session_rule_text(rule: u32) -> &'static str
    ensures value { result.now ≡ session_rule_text rule }
    ensures fits { length result.now ≤ 96 }
{
    match rule {
        1 => "rule 1: the session isn't an object",
        2 => "rule 2: the runs or known hashes aren't an array",
        3 => "rule 3: a run isn't an object with two positions and chunks",
        4 => "rule 4: a known hash isn't an array of four words",
        6 => "rule 6: a run has no position, a marked end, or no free position before it",
        7 => "rule 7: the sizes of all runs add up to more than 2^64 - 1",
        _ => "unknown status",
    }
}

// Returns what a status means.
fn status_text(status: u32) -> &'static str
    ensures value { result.now ≡ status_text status }
    ensures fits { length result.now ≤ 96 }
{
    match status {
        DONE => "the call succeeded",
        ARGUMENTS => "the arguments don't fit together, or the requested thing doesn't exist",
        SIZES => "sizes or lengths add up to more than 2^64 - 1",
        MEMORY => "out of memory",
        TEXT => "a text doesn't have the expected form",
        ROOM => "the room is too small",
        EMPTY_HANDLE => "a handle is empty",
        MISMATCH => "the range proof doesn't show the hash, or the data isn't that of the range",
        SESSION_OVERLAP => "a position is taken",
        SESSION_POSITIONS => "the first position plus the number of chunks passes 2^64 - 1",
        SESSION_GAP => "the taken positions aren't exactly those below the total",
        ELSEWHERE => "the range proof isn't of the bytes that are asked for",
        TOO_FAR => "the range proof is of too many bytes beside those that are asked for",
        0..=PROOF_RULE => rule_text(status.saturating_sub(RULE)),
        0..=SESSION_RULE => proof_rule_text(status - PROOF_RULE),
        _ => session_rule_text(status - SESSION_RULE),
    }
}

/// Writes what a status means to `room`, in English, and the length of this text to `text_len`. For a number that is no
/// status the text is "unknown status". No text is longer than `YUREWHA_STATUS_TEXT_LENGTH`, which is 96. It allocates
/// nothing.
///
/// - `DONE`: it is written.
/// - `ROOM`: the text doesn't fit, and `text_len` is the needed length.
///
/// Since 1.1.
#[unsafe(no_mangle)]
pub extern "C" fn yurewha_status_text(status: u32, room: &mut [u8], text_len: &mut usize) -> u32
    ensures text { WritesText (status_text status) room.old room.new text_len.new result }
    ensures fits { text_len.new ≤ 96 }
{
    write_text(status_text(status).as_bytes(), room, text_len)
}

//! Sessions as JSON text.

ghost use Rattle.std.specs.Prelude.{◌≡◌, ◌≢◌, ◌⊎◌, ◌↔◌, ℕ, ◌+◌, None, IsSomeAnd, List};
ghost use Rattle.serde_json.specs.Data.{Data};
ghost use Rattle.session_json.specs.Reading.{BreaksRule, BreaksSubtreeRule, IsStrictText, SaysSession};
ghost use Rattle.session_json.specs.SessionJson.{IsTextOf};
ghost use Rattle.yurewha_c.specs.Texts.{WritesText};

use crate::kept_session::KeptSession;
use crate::session_handle::SessionHandle;
use crate::status::{DONE, EMPTY_HANDLE, MEMORY, ROOM, RULE, SESSION_RULE, TEXT, status_of_text};
use crate::text::write_text;
use session_json::reading::read_session;
use session_json::writing::write_session;
use std::alloc::Global;

/// Writes the compact JSON text of a session to `room`, and its length to `text_len`. Equal sessions have equal texts: runs
/// are written by rising position, and hashes by rising order. If `with_hashes` is false, no hash is written.
///
/// - `DONE`: it is written.
/// - `ROOM`: the text doesn't fit, and `text_len` is the needed length.
/// - `MEMORY`: an allocation failed.
/// - `EMPTY_HANDLE`: if and only if the handle is empty.
///
/// Since 1.1.
#[unsafe(no_mangle)]
pub extern "C" fn yurewha_session_to_json(
    alloc: Global,
    session: &mut SessionHandle,
    with_hashes: bool,
    room: &mut [u8],
    text_len: &mut usize,
) -> u32
    ensures written { (result ≡ DONE) ⊎ (result ≡ ROOM) → IsSomeAnd session.old.value (λ kept. (text : List ℕ)
        × IsTextOf kept.session with_hashes text × WritesText text room.old room.new text_len.new result) }
    ensures empty { (result ≡ EMPTY_HANDLE) ↔ (session.old.value ≡ None) }
    ensures statuses { (result ≡ DONE) ⊎ ((result ≡ ROOM) ⊎ ((result ≡ MEMORY) ⊎ (result ≡ EMPTY_HANDLE))) }
    ensures unchanged { result ≢ DONE → room.new ≡ room.old }
    ensures no_len { result ≢ DONE → result ≢ ROOM → text_len.new ≡ text_len.old }
    ensures kept { session.new.value ≡ session.old.value }
{
    let Some(kept) = session.take(alloc) else {
        return EMPTY_HANDLE;
    };
    let text = write_session(alloc, &kept.session, with_hashes);
    session.put(kept);
    match text {
        Ok(text) => write_text(&text, room, text_len),
        Err(_) => MEMORY,
    }
}

/// Reads a session from JSON text. The handle owns it. If `keep_hashes` is false, the session keeps none, and those of the
/// text are left out. The value is an object with these members: `runs`, each an object with its positions, from `first`
/// to `end` - 1, and the subtree of its chunks as `chunks`; and `known_hashes`, each an array of its four words. Members
/// with other names are ignored. Time and memory are in proportion to the text, so refuse a stranger's text above a limit
/// before this call.
///
/// The call can't check that a subtree is of as many chunks as its run has positions, as `yurewha_session_push_run`
/// can't.
///
/// - `DONE`: it is read.
/// - `TEXT`: the text isn't UTF-8, isn't JSON, is nested more than 32 deep, or has a member twice in an object.
/// - `SESSION_RULE` + rule: the value breaks this rule, and none with a lower number:
///   1. it is an object
///   2. `runs` and `known_hashes` are arrays
///   3. a run is an object with `first` and `end`, whole numbers below 2^64, and `chunks`
///   4. a known hash is an array of four whole numbers below 2^64
///   5. each `chunks` is a subtree; this rule has the next status
///   6. each run can follow those before it: `end` is greater than `first`, its subtree is marked at no end, and the
///      position before `first` and all after it are free
///   7. the sizes of all chunks add up to at most 2^64 - 1
/// - `RULE` + rule: it breaks rule 5, and none with a lower number. The first `chunks` that is no subtree breaks this rule
///   of `yurewha_subtree_from_json`, and none with a lower number.
/// - `MEMORY`: an allocation failed; this may be returned instead of `TEXT` or a rule.
///
/// Since 1.1.
#[unsafe(no_mangle)]
pub extern "C" fn yurewha_session_from_json(
    alloc: Global,
    text: &[u8],
    keep_hashes: bool,
    session: &mut SessionHandle,
) -> u32
    ensures says { result ≡ DONE → IsSomeAnd session.new.value (λ made.
        SaysSession text.now keep_hashes made.session × (made.keeps_hashes ≡ keep_hashes)) }
    ensures text { result ≡ TEXT → (json : Data) → ¬ (IsStrictText text.now json) }
    ensures statuses { (result ≡ DONE) ⊎ ((result ≡ TEXT) ⊎ ((result ≡ MEMORY)
        ⊎ (((rule : ℕ) × (result ≡ SESSION_RULE + rule) × (json : Data) × IsStrictText text.now json × BreaksRule json rule)
        ⊎ ((rule : ℕ) × (result ≡ RULE + rule) × (json : Data) × IsStrictText text.now json × BreaksSubtreeRule json rule)))) }
    ensures unchanged { result ≢ DONE → session.new.value ≡ session.old.value }
{
    match read_session(alloc, text, keep_hashes) {
        Ok(made) => session.hold(
            alloc,
            KeptSession {
                session: made,
                keeps_hashes: keep_hashes,
            },
        ),
        Err(fault) => status_of_text(fault),
    }
}

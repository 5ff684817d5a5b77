//! Subtrees as JSON text.

ghost use Rattle.std.specs.Prelude.{◌≡◌, ◌≢◌, ◌⊎◌, ◌↔◌, ℕ, ◌+◌, ◌<◌, ◌≤◌, None, IsSomeAnd, ◌++◌, drop, length};
ghost use Rattle.serde_json.specs.Data.{Data};
ghost use Rattle.json_text.specs.JsonText.{IsJsonText};
ghost use Rattle.serde_json.specs.Written.{compact_text};
ghost use Rattle.xet_merkle.specs.JsonRules.{BreaksRule, Reads};
ghost use Rattle.xet_merkle.specs.SubtreeJson.{subtree_json};

use crate::status::{DONE, EMPTY_HANDLE, MEMORY, ROOM, RULE, TEXT, status_of};
use crate::subtree_handle::SubtreeHandle;
use crate::text::write_text;
use json_text::reading::{TextFault, read};
use session_json::reading_back::read_back;
use session_json::subtree_text::subtree_text;
use std::alloc::Global;
use xet_merkle::merkle_hash_subtree::MerkleHashSubtree;

/// Writes the compact JSON text of a subtree to `room`, and its length to `text_len`.
///
/// - `DONE`: it is written.
/// - `ROOM`: the text doesn't fit, and `text_len` is the needed length.
/// - `MEMORY`: an allocation failed.
/// - `EMPTY_HANDLE`: if and only if the handle is empty.
///
/// Since 1.1.
#[unsafe(no_mangle)]
pub extern "C" fn yurewha_subtree_to_json(
    alloc: Global,
    subtree: &mut SubtreeHandle,
    room: &mut [u8],
    text_len: &mut usize,
) -> u32
    ensures written { result ≡ DONE → IsSomeAnd subtree.old.value (λ kept.
        room.new ≡ compact_text (subtree_json kept) ++ drop text_len.new room.old) }
    ensures len { (result ≡ DONE) ⊎ (result ≡ ROOM) → IsSomeAnd subtree.old.value (λ kept.
        text_len.new ≡ length (compact_text (subtree_json kept))) }
    ensures done { result ≡ DONE → text_len.new ≤ length room.old }
    ensures room { result ≡ ROOM → length room.old < text_len.new }
    ensures empty { (result ≡ EMPTY_HANDLE) ↔ (subtree.old.value ≡ None) }
    ensures statuses { (result ≡ DONE) ⊎ ((result ≡ ROOM) ⊎ ((result ≡ MEMORY) ⊎ (result ≡ EMPTY_HANDLE))) }
    ensures unchanged { result ≢ DONE → room.new ≡ room.old }
    ensures no_len { (result ≡ MEMORY) ⊎ (result ≡ EMPTY_HANDLE) → text_len.new ≡ text_len.old }
    ensures kept { subtree.new.value ≡ subtree.old.value }
{
    let Some(kept) = subtree.take(alloc) else {
        return EMPTY_HANDLE;
    };
    let text = subtree_text(alloc, &kept);
    subtree.put(kept);
    match text {
        Ok(text) => write_text(&text, room, text_len),
        Err(_) => MEMORY,
    }
}

/// Reads a subtree from JSON text. The handle owns it. The value is an object with these members: `at_start` and
/// `at_end`, the marks; `levels`, the number of left and right nodes of each level, from the chunks up; and `nodes`,
/// each with its `hash` in hex and its `size`. `nodes` has the left nodes of all levels, lowest level first, then the
/// right nodes of all levels, highest level first.
///
/// - `DONE`: it is read.
/// - `TEXT`: the text isn't UTF-8, isn't JSON, or is nested more than 32 deep.
/// - `RULE` + rule: the value breaks this rule, and none with a lower number:
///   1. it is an object
///   2. `nodes` and `levels` are arrays, and `at_start` and `at_end` are booleans
///   3. a node is an object with `hash`, 64 hex digits, and `size`, a whole number below 2^64
///   4. a level is an array of two whole numbers below 2^64
///   5. there is at least one level
///   6. the counts of all levels add up to the number of nodes
///   7. the sizes of all nodes add up to at most 2^64 - 1
///   8. the top level has no right nodes; with `at_end`, no level has any
///   9. with `at_start`, no level below the top has left nodes
///   10. with both marks, the top level has at most one node
///   11. if there are several levels, the top level has a node
///   12. without `at_start`, left nodes below the top end like the nodes before a first stable point
///   13. without `at_end`, right nodes below the top begin like the nodes after a last stable point
/// - `MEMORY`: an allocation failed; this may be returned instead of `TEXT` or a rule.
///
/// Since 1.1.
#[unsafe(no_mangle)]
pub extern "C" fn yurewha_subtree_from_json(
    alloc: Global,
    text: &[u8],
    subtree: &mut SubtreeHandle,
) -> u32
    ensures reads { result ≡ DONE → IsSomeAnd subtree.new.value (λ made.
        (json : Data) × IsJsonText text.now json × Reads json made) }
    ensures text { result ≡ TEXT → (json : Data) → ¬ (IsJsonText text.now json) }
    ensures statuses { (result ≡ DONE) ⊎ ((result ≡ TEXT) ⊎ ((result ≡ MEMORY)
        ⊎ ((rule : ℕ) × (result ≡ RULE + rule)
        × (json : Data) × IsJsonText text.now json × BreaksRule json rule))) }
    ensures unchanged { result ≢ DONE → subtree.new.value ≡ subtree.old.value }
{
    match read_back(alloc, text) {
        Ok(Some(made)) => return subtree.hold(alloc, made),
        Ok(None) => {}
        Err(_) => return MEMORY,
    }
    let value = match read(alloc, text) {
        Ok(value) => value,
        Err(TextFault::Text) => return TEXT,
        Err(TextFault::Memory) => return MEMORY,
    };
    match MerkleHashSubtree::from_json(alloc, &value) {
        Ok(made) => subtree.hold(alloc, made),
        Err(error) => status_of(error),
    }
}

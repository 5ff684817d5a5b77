//! Keyed BLAKE3 with 32 bytes of output, as the BLAKE3 specification defines it. [`keyed_hash`] hashes a whole message.
//! A [`Hasher`] hashes a message that comes in pieces. Neither allocates.
//!
//! The modules build on each other:
//!
//! - `compression` compresses a block of 64 bytes into a chaining value.
//! - `chunk` compresses the blocks of a chunk one after another.
//! - `two_chunks` compresses those of two chunks at once, and `four_chunks` those of four.
//! - `chunks` compresses those of several chunks side by side.
//! - `messages` hashes several messages of at most a chunk side by side.
//! - `slots` hashes messages that begin slots of a chunk's length, where they are.
//! - `subtrees` compresses several chunks and their parents side by side, up to the value of a complete subtree.
//! - `tree` compresses the chaining values of two subtrees into their parent's, up to the root.
#![tactic(auto)]

ghost use Rattle.std.specs.Prelude.{◌≡◌, ℕ, ◌<◌, ◌≤◌, [], get_or, length, map, replicate, slice_index, take};
ghost use Rattle.keyed_blake3.specs.Blake3.{keyed_hash};

mod chunk;
mod chunks;
mod compression;
mod four_chunks;
mod hasher;
mod messages;
mod slots;
mod subtrees;
mod tree;
mod two_chunks;

use chunk::{CHUNK_LEN, chunk_value, words};
pub use hasher::Hasher;
use hasher::UNKEYED;
use messages::{are_short, hash_next};
use slots::fill_last_blocks;
use tree::{ROOT, output};
use two_chunks::two_chunk_values;

/// Returns the keyed BLAKE3 hash of `data` (BLAKE3 specification, section 2.3).
#[tactic(auto, unfolding(crate::specs::Blake3Hasher::count_of))]
pub fn keyed_hash(key: &[u8; 32], data: &[u8]) -> [u8; 32]
    ensures { result ≡ keyed_hash key.now «data».now }
{
    if data.len() <= CHUNK_LEN {
        return output(&chunk_value(&words(key), data, 0, ROOT));
    }
    let mut hasher = UNKEYED;
    hasher.set_key(key);
    hasher.update(data);
    hasher.finalize()
}

/// Returns the keyed BLAKE3 hashes of two messages under one key. If neither has more than 1024 bytes, both are hashed at once,
/// which takes less time than one after the other.
pub fn keyed_hash_two(key: &[u8; 32], first: &[u8], second: &[u8]) -> ([u8; 32], [u8; 32])
    ensures first { result.0 ≡ keyed_hash key.now first.now }
    ensures second { result.1 ≡ keyed_hash key.now second.now }
{
    if first.len() > CHUNK_LEN || second.len() > CHUNK_LEN {
        return (keyed_hash(key, first), keyed_hash(key, second));
    }
    let (of_first, of_second) = two_chunk_values(&words(key), first, second, (0, 0), ROOT);
    (output(&of_first), output(&of_second))
}

/// Returns the keyed BLAKE3 hashes of at most `N` messages under one key: element j of the result is that of message j. If none has
/// more than 1024 bytes, they are hashed side by side, which takes less time than one after the other. Elements past the last
/// message are zeros.
pub fn keyed_hash_each<const N: usize>(key: &[u8; 32], messages: &[&[u8]]) -> [[u8; 32]; N]
    requires { length messages.now ≤ N }
    ensures hashes { (j : ℕ) → j < length messages.now
        → get_or result j [] ≡ keyed_hash key.now (get_or (map (λ m. m.now) messages.now) j []) }
    ensures past { (j : ℕ) → length messages.now ≤ j → j < N → get_or result j [] ≡ replicate 32 0 }
{
    let mut hashes = [[0; 32]; N];
    let short = are_short(messages);
    let mut done = 0;
    'messages: while done < messages.len() {
        done = hash_next(key, messages, done, short, &mut hashes);
    }
    hashes
}

/// The number of slots of [`keyed_hash_slots`].
pub const SLOTS: usize = 16;

/// The bytes of a slot: the most that a message in it may have.
pub const SLOT_LEN: usize = 1024;

/// Returns the keyed BLAKE3 hashes of messages in slots under one key: element j of the result is that of message j, which is the first
/// `lens[j]` bytes of slot j. They are hashed side by side where they are, so none is copied. What follows a message in its slot may be
/// overwritten.
pub fn keyed_hash_slots(
    key: &[u8; 32],
    slots: &mut [[u8; SLOT_LEN]; SLOTS],
    lens: &[usize],
) -> [[u8; 32]; SLOTS]
    requires sizes { (j : ℕ) → j < SLOTS → length (get_or slots.old j []) ≡ SLOT_LEN }
    requires few { length lens.now ≤ SLOTS }
    requires short { (j : ℕ) → j < length lens.now → slice_index lens.now j ≤ SLOT_LEN }
    ensures sizes { (j : ℕ) → j < SLOTS → length (get_or slots.new j []) ≡ SLOT_LEN }
    ensures hashes { (j : ℕ) → j < length lens.now
        → get_or result j [] ≡ keyed_hash key.now (take (slice_index lens.now j) (get_or slots.old j [])) }
{
    let mut hashes = [[0; 32]; SLOTS];
    fill_last_blocks(slots, lens);
    let mut done = 0;
    'messages: while done < lens.len() {
        done = slots::hash_next(key, slots, lens, done, &mut hashes);
    }
    hashes
}

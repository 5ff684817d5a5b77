//! The keyed hashes of messages in slots, side by side (BLAKE3 specification, 2.4). Each message begins a slot of its own, which is as
//! long as a chunk, and is hashed there, so none is copied.

ghost use Rattle.std.specs.Prelude.{◌≡◌, ℕ, ◌-◌, ◌*◌, ◌/◌, ◌<◌, ◌≤◌, List, [], get_or, length, slice_index, take};
ghost use Rattle.keyed_blake3.specs.Blake3.{block, blocks_before_last, keyed_hash};
ghost use Rattle.keyed_blake3.specs.Steps.Messages.{AreFilled, AreSlots, message_in};

use crate::chunk::{BLOCK_LEN, CHUNK_LEN};
use crate::compression::lanes::lane;
use crate::compression::width::{Eight, Four, Lanes, Sixteen, WIDEST, Width};
use crate::messages::{FEW, ended_values};
use crate::subtrees::neighbours;
use crate::tree::output;
use crate::{keyed_hash, keyed_hash_two};

// Fills up the last block of a message with zero bytes.
fn fill_last_block(slot: &mut [u8; CHUNK_LEN], len: usize)
    requires { len ≤ 1024 }
    ensures size { length slot.new ≡ 1024 }
    ensures message { take len slot.new ≡ take len slot.old }
    ensures filled { (n : ℕ) → n ≤ blocks_before_last (take len slot.old) → block slot.new n ≡ block (take len slot.old) n }
{
    let end = CHUNK_LEN.min(len + BLOCK_LEN);
    slot[len..end].copy_from_slice(&[0; BLOCK_LEN][..end - len]);
}

// Fills up the last block of each message with zero bytes.
pub(crate) fn fill_last_blocks<const N: usize>(slots: &mut [[u8; CHUNK_LEN]; N], lens: &[usize])
    requires { AreSlots N slots.old lens.now }
    ensures slots { AreSlots N slots.new lens.now }
    ensures messages { (j : ℕ) → j < length lens.now → message_in slots.new lens.now j ≡ message_in slots.old lens.now j }
    ensures filled { AreFilled slots.new lens.now }
{
    'messages: for j in 0..lens.len() {
        fill_last_block(&mut slots[j], lens[j]);
    }
}

// Returns the number of the last block of each message of some lengths, how many bytes this block has, and the highest such number.
fn last_blocks<const L: usize>(lens: &[usize]) -> (Lanes<L>, Lanes<L>, usize)
    requires few { length lens.now ≤ L }
    requires short { (j : ℕ) → j < length lens.now → slice_index lens.now j ≤ 1024 }
    ensures full { (length result.0 ≡ L) × (length result.1 ≡ L) }
    ensures last { (j : ℕ) → j < length lens.now → slice_index result.0 j ≡ (slice_index lens.now j - 1) / 64 }
    ensures rest { (j : ℕ) → j < length lens.now
        → slice_index result.1 j ≡ slice_index lens.now j - 64 * ((slice_index lens.now j - 1) / 64) }
    ensures few { result.2 < 16 }
    ensures most { (j : ℕ) → j < length lens.now → (slice_index lens.now j - 1) / 64 ≤ result.2 }
{
    let mut last = [0; L];
    let mut rest = [0; L];
    let mut most = 0usize;
    'lens: for j in 0..lens.len() {
        let place = lens[j].saturating_sub(1) / BLOCK_LEN;
        last[j] = place as u32;
        rest[j] = (lens[j] - BLOCK_LEN * place) as u32;
        most = most.max(place);
    }
    (last, rest, most)
}

// Writes the hashes of the next messages side by side. The first `done` have theirs. Returns how many have theirs then.
fn hash_lanes<W: Width<L, B>, const L: usize, const B: usize, const N: usize>(
    key: &[u8; 32],
    slots: &[[u8; CHUNK_LEN]; N],
    lens: &[usize],
    done: usize,
    hashes: &mut [[u8; 32]; N],
) -> usize
    requires some { done < length lens.now }
    requires slots { AreSlots N slots.now lens.now }
    requires filled { AreFilled slots.now lens.now }
    ensures more { (done < result) × (result ≤ length lens.now) }
    ensures before { (i : ℕ) → i < done → get_or hashes.new i [] ≡ get_or hashes.old i [] }
    ensures hashes { (i : ℕ) → done ≤ i → i < result
        → get_or hashes.new i [] ≡ keyed_hash key.now (message_in slots.now lens.now i) }
{
    let count = (lens.len() - done).min(L);
    let (last, rest, most) = last_blocks::<L>(&lens[done..done + count]);
    let all = &slots[..];
    let bytes = all[done..].as_flattened();
    let places = neighbours(count - 1);
    let ended = ended_values::<W, L, B>(key, bytes, &places, &last, &rest, most);
    'hashes: for j in 0..count {
        hashes[done + j] = output(&lane(&ended, j));
    }
    done + count
}

// Writes the hashes of the next messages. The first `done` have theirs. Returns how many have theirs then.
pub(crate) fn hash_next<const N: usize>(
    key: &[u8; 32],
    slots: &[[u8; CHUNK_LEN]; N],
    lens: &[usize],
    done: usize,
    hashes: &mut [[u8; 32]; N],
) -> usize
    requires some { done < length lens.now }
    requires slots { AreSlots N slots.now lens.now }
    requires filled { AreFilled slots.now lens.now }
    ensures more { (done < result) × (result ≤ length lens.now) }
    ensures before { (i : ℕ) → i < done → get_or hashes.new i [] ≡ get_or hashes.old i [] }
    ensures hashes { (i : ℕ) → done ≤ i → i < result
        → get_or hashes.new i [] ≡ keyed_hash key.now (message_in slots.now lens.now i) }
{
    let left = lens.len() - done;
    if left > FEW {
        if WIDEST > 8 {
            return hash_lanes::<Sixteen, 16, 64, N>(key, slots, lens, done, hashes);
        }
        if WIDEST > 4 {
            return hash_lanes::<Eight, 8, 32, N>(key, slots, lens, done, hashes);
        }
        return hash_lanes::<Four, 4, 16, N>(key, slots, lens, done, hashes);
    }
    let first = &slots[done][..lens[done]];
    if left == 1 {
        hashes[done] = keyed_hash(key, first);
        return done + 1;
    }
    let second = &slots[done + 1][..lens[done + 1]];
    let (of_first, of_second) = keyed_hash_two(key, first, second);
    hashes[done] = of_first;
    hashes[done + 1] = of_second;
    done + 2
}

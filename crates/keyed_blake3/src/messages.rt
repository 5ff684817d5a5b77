//! The keyed hashes of messages of at most a chunk, side by side (BLAKE3 specification, 2.4): lane j belongs to message j. The
//! messages may have their own lengths.

ghost use Rattle.std.specs.Prelude.{◌≡◌, ◌≢◌, ℕ, ◌+◌, ◌-◌, ◌*◌, ◌<◌, ◌≤◌, ◌++◌, IsTrue, List, [], drop, get_or, length, map, replicate, slice_index};
ghost use Rattle.keyed_blake3.specs.Blake3.{block, blocks_before_last, chunk_value, keyed_hash, words_at};
ghost use Rattle.keyed_blake3.specs.Steps.Blocks.{block_flags, block_len};
ghost use Rattle.keyed_blake3.specs.Steps.Lanes.{AreFull, lane};
ghost use Rattle.keyed_blake3.specs.Steps.Messages.{AreShort, HasMessage};

use crate::chunk::{BLOCK_LEN, CHUNK_END, CHUNK_LEN, KEYED_HASH, last_block, start_flag, words};
use crate::chunks::{key_of_each, take_block};
use crate::compression::lanes::lane;
use crate::compression::width::{Eight, Four, Lanes, Sixteen, WIDEST, Width, lanes_of, vector};
use crate::subtrees::neighbours;
use crate::tree::{ROOT, output};
use crate::{keyed_hash, keyed_hash_two};
use std::simd::prelude::*;

// The most messages that are hashed two by two. More of them take less time side by side, though lanes stand empty.
pub(crate) const FEW: usize = if WIDEST > 4 { 4 } else { 2 };

// Returns whether no message has more than a chunk.
pub(crate) fn are_short(messages: &[&[u8]]) -> bool
    ensures { IsTrue result → AreShort (map (λ m. m.now) messages.now) }
{
    'messages: for j in 0..messages.len() {
        if messages[j].len() > CHUNK_LEN {
            return false;
        }
    }
    true
}

// Writes a message over the first bytes of a chunk.
#[inline(always)]
fn begin_with(chunk: &mut [u8; CHUNK_LEN], message: &[u8])
    requires { length message.now ≤ 1024 }
    ensures { chunk.new ≡ message.now ++ drop (length message.now) chunk.old }
{
    chunk[..message.len()].copy_from_slice(message);
}

// Writes each message to a chunk of its own, which zero bytes then fill up; and the number of its last block to `last`, and the number
// of bytes in that block to `rest`. There may be fewer messages than lanes.
#[inline(always)]
fn put_side_by_side<const L: usize>(
    messages: &[&[u8]],
    chunks: &mut [[u8; CHUNK_LEN]; L],
    last: &mut Lanes<L>,
    rest: &mut Lanes<L>,
)
    requires few { length messages.now ≤ L }
    requires short { AreShort (map (λ m. m.now) messages.now) }
    requires room { (length chunks.old ≡ L) × (length last.old ≡ L) × (length rest.old ≡ L) }
    requires zeros { (j : ℕ) → j < L → get_or chunks.old j [] ≡ replicate 1024 0 }
    ensures room { (length chunks.new ≡ L) × (length last.new ≡ L) × (length rest.new ≡ L) }
    ensures sizes { (j : ℕ) → j < L → length (get_or chunks.new j []) ≡ 1024 }
    ensures padded { (j n : ℕ) → j < length messages.now
        → n ≤ blocks_before_last (get_or (map (λ m. m.now) messages.now) j [])
        → block (get_or chunks.new j []) n ≡ block (get_or (map (λ m. m.now) messages.now) j []) n }
    ensures last { (j : ℕ) → j < length messages.now
        → slice_index last.new j ≡ blocks_before_last (get_or (map (λ m. m.now) messages.now) j []) }
    ensures rest { (j : ℕ) → j < length messages.now → slice_index rest.new j
        ≡ length (get_or (map (λ m. m.now) messages.now) j []) - 64 * blocks_before_last (get_or (map (λ m. m.now) messages.now) j []) }
{
    'messages: for j in 0..messages.len() {
        let message = messages[j];
        let place = last_block(message);
        begin_with(&mut chunks[j], message);
        last[j] = place as u32;
        rest[j] = (message.len() - BLOCK_LEN * place) as u32;
    }
}

// Returns the word of `yes` in lanes where `x` has the word `n`, and that of `no` in the others.
#[inline(always)]
fn chosen<const L: usize>(x: &Lanes<L>, n: u32, yes: &Lanes<L>, no: &Lanes<L>) -> Lanes<L>
    requires full { (length x.now ≡ L) × (length yes.now ≡ L) × (length no.now ≡ L) }
    ensures full { length result ≡ L }
    ensures yes { (j : ℕ) → j < L → slice_index x.now j ≡ n → slice_index result j ≡ slice_index yes.now j }
    ensures no { (j : ℕ) → j < L → slice_index x.now j ≢ n → slice_index result j ≡ slice_index no.now j }
{
    let is_n = vector(x).simd_eq(Simd::splat(n));
    lanes_of(is_n.select(vector(yes), vector(no)))
}

// Returns how many bytes block number `n` of each message has, and its flags.
#[inline(always)]
fn lens_and_flags<W: Width<L, B>, const L: usize, const B: usize>(
    last: &Lanes<L>,
    rest: &Lanes<L>,
    n: u32,
) -> (Lanes<L>, Lanes<L>)
    requires last { length last.now ≡ L }
    requires rest { length rest.now ≡ L }
    ensures full { (length result.0 ≡ L) × (length result.1 ≡ L) }
    ensures lanes { (j : ℕ) (m : List ℕ) → j < L → n ≤ blocks_before_last m → slice_index last.now j ≡ blocks_before_last m
        → slice_index rest.now j ≡ length m - 64 * blocks_before_last m
        → (slice_index result.0 j ≡ block_len m n) × (slice_index result.1 j ≡ block_flags m n 8) }
{
    let flags = KEYED_HASH + start_flag(n as u64);
    let last_flags = flags + CHUNK_END + ROOT;
    (
        chosen(last, n, rest, &W::each(BLOCK_LEN as u32)),
        chosen(last, n, &W::each(last_flags), &W::each(flags)),
    )
}

// Returns the values that have ended: those of `h` in lanes whose last block has number `n`, and those of `ended` in the others.
#[inline(always)]
fn all_kept<const L: usize>(
    ended: &[Lanes<L>; 8],
    h: &[Lanes<L>; 8],
    last: &Lanes<L>,
    n: u32,
) -> [Lanes<L>; 8]
    requires ended { AreFull L ended.now }
    requires full { AreFull L h.now }
    requires last { length last.now ≡ L }
    ensures full { AreFull L result }
    ensures kept { (j : ℕ) → j < L → slice_index last.now j ≡ n → lane j result ≡ lane j h.now }
    ensures others { (j : ℕ) → j < L → slice_index last.now j ≢ n → lane j result ≡ lane j ended.now }
{
    [
        chosen(last, n, &h[0], &ended[0]),
        chosen(last, n, &h[1], &ended[1]),
        chosen(last, n, &h[2], &ended[2]),
        chosen(last, n, &h[3], &ended[3]),
        chosen(last, n, &h[4], &ended[4]),
        chosen(last, n, &h[5], &ended[5]),
        chosen(last, n, &h[6], &ended[6]),
        chosen(last, n, &h[7], &ended[7]),
    ]
}

// Returns the values of messages side by side. The message of each lane begins the chunk at the lane's place, where zero bytes fill up
// its last block. That block has number `last`, and `rest` of its bytes are the message's. None has a number above `most`.
pub(crate) fn ended_values<W: Width<L, B>, const L: usize, const B: usize>(
    key: &[u8; 32],
    chunks: &[u8],
    places: &[usize; L],
    last: &Lanes<L>,
    rest: &Lanes<L>,
    most: usize,
) -> [Lanes<L>; 8]
    requires places { (j : ℕ) → j < L → 1024 * slice_index places.now j + 1024 ≤ length chunks.now }
    requires full { (length last.now ≡ L) × (length rest.now ≡ L) }
    requires most { most < 16 }
    ensures full { AreFull L result }
    ensures lanes { (j : ℕ) (m : List ℕ) → j < L → blocks_before_last m ≤ most
        → HasMessage chunks.now places.now last.now rest.now j m → lane j result ≡ chunk_value (words_at 8 key.now) 0 m 8 }
{
    let zero = W::each(0);
    let counters = (zero, zero);
    let mut h = key_of_each::<W, L, B>(&words(key));
    let mut ended = h;
    'chain: for n in 0..most + 1 {
        let (lens, flags) = lens_and_flags::<W, L, B>(last, rest, n as u32);
        take_block::<W, L, B>(&mut h, chunks, places, n, &counters, &lens, &flags);
        ended = all_kept(&ended, &h, last, n as u32);
    }
    ended
}

// Returns the most blocks that a message has before its last one.
fn most_before_last(messages: &[&[u8]]) -> usize
    requires { AreShort (map (λ m. m.now) messages.now) }
    ensures few { result < 16 }
    ensures most { (j : ℕ) → j < length messages.now → blocks_before_last (get_or (map (λ m. m.now) messages.now) j []) ≤ result }
{
    let mut most = 0usize;
    'messages: for j in 0..messages.len() {
        most = most.max(last_block(messages[j]));
    }
    most
}

// Writes the hashes of at most `L` messages, the first one at place `at`.
fn hash_side_by_side<W: Width<L, B>, const L: usize, const B: usize, const N: usize>(
    key: &[u8; 32],
    messages: &[&[u8]],
    at: usize,
    hashes: &mut [[u8; 32]; N],
)
    requires few { length messages.now ≤ L }
    requires short { AreShort (map (λ m. m.now) messages.now) }
    requires room { at + length messages.now ≤ N }
    ensures before { (i : ℕ) → i < at → get_or hashes.new i [] ≡ get_or hashes.old i [] }
    ensures after { (i : ℕ) → at + length messages.now ≤ i → get_or hashes.new i [] ≡ get_or hashes.old i [] }
    ensures hashes { (j : ℕ) → j < length messages.now
        → get_or hashes.new (at + j) [] ≡ keyed_hash key.now (get_or (map (λ m. m.now) messages.now) j []) }
{
    let mut chunks = [[0; CHUNK_LEN]; L];
    let mut last = [0; L];
    let mut rest = [0; L];
    put_side_by_side(messages, &mut chunks, &mut last, &mut rest);
    let most = most_before_last(messages);
    let bytes = chunks.as_flattened();
    let ended = ended_values::<W, L, B>(key, bytes, &neighbours(L - 1), &last, &rest, most);
    'hashes: for j in 0..messages.len() {
        hashes[at + j] = output(&lane(&ended, j));
    }
}

// Writes the hashes of the next messages side by side. The first `done` have theirs. Returns how many have theirs then.
fn hash_lanes<W: Width<L, B>, const L: usize, const B: usize, const N: usize>(
    key: &[u8; 32],
    messages: &[&[u8]],
    done: usize,
    hashes: &mut [[u8; 32]; N],
) -> usize
    requires some { done < length messages.now }
    requires room { length messages.now ≤ N }
    requires short { AreShort (map (λ m. m.now) messages.now) }
    ensures more { (done < result) × (result ≤ length messages.now) }
    ensures before { (i : ℕ) → i < done → get_or hashes.new i [] ≡ get_or hashes.old i [] }
    ensures after { (i : ℕ) → result ≤ i → get_or hashes.new i [] ≡ get_or hashes.old i [] }
    ensures hashes { (i : ℕ) → done ≤ i → i < result
        → get_or hashes.new i [] ≡ keyed_hash key.now (get_or (map (λ m. m.now) messages.now) i []) }
{
    let end = done + (messages.len() - done).min(L);
    hash_side_by_side::<W, L, B, N>(key, &messages[done..end], done, hashes);
    end
}

// Writes the hashes of the next messages. The first `done` have theirs. Returns how many have theirs then.
pub(crate) fn hash_next<const N: usize>(
    key: &[u8; 32],
    messages: &[&[u8]],
    done: usize,
    short: bool,
    hashes: &mut [[u8; 32]; N],
) -> usize
    requires some { done < length messages.now }
    requires room { length messages.now ≤ N }
    requires short { IsTrue short → AreShort (map (λ m. m.now) messages.now) }
    ensures more { (done < result) × (result ≤ length messages.now) }
    ensures before { (i : ℕ) → i < done → get_or hashes.new i [] ≡ get_or hashes.old i [] }
    ensures after { (i : ℕ) → result ≤ i → get_or hashes.new i [] ≡ get_or hashes.old i [] }
    ensures hashes { (i : ℕ) → done ≤ i → i < result
        → get_or hashes.new i [] ≡ keyed_hash key.now (get_or (map (λ m. m.now) messages.now) i []) }
{
    let left = messages.len() - done;
    if short && left > FEW {
        if WIDEST > 8 {
            return hash_lanes::<Sixteen, 16, 64, N>(key, messages, done, hashes);
        }
        if WIDEST > 4 {
            return hash_lanes::<Eight, 8, 32, N>(key, messages, done, hashes);
        }
        return hash_lanes::<Four, 4, 16, N>(key, messages, done, hashes);
    }
    if left == 1 {
        hashes[done] = keyed_hash(key, messages[done]);
        return done + 1;
    }
    let (first, second) = keyed_hash_two(key, messages[done], messages[done + 1]);
    hashes[done] = first;
    hashes[done + 1] = second;
    done + 2
}

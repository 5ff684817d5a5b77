//! The chaining values of four whole chunks at once (BLAKE3 specification, 2.4): those at places of a list, which count from the
//! first of some chunks.

ghost use Rattle.std.specs.Prelude.{◌≡◌, ℕ, ◌*◌, ◌+◌, ◌/◌, ◌%◌, ◌^◌, ◌<◌, ◌≤◌, [], ◌∷◌, List, drop, length, slice_index};
ghost use Rattle.keyed_blake3.specs.Blake3.{block, words_at};
ghost use Rattle.keyed_blake3.specs.Steps.Blocks.{block_flags};
ghost use Rattle.keyed_blake3.specs.Steps.Lanes.{AreFull, chunk_at, lane, value_at};
ghost use Rattle.keyed_blake3.specs.Steps.Rows.{quad_at, words_in};

use crate::chunk::{BLOCK_LEN, BLOCKS_PER_CHUNK, CHUNK_LEN, flags_of};
use crate::compression::four::{beside, four_times, lanes_of_values};
use crate::compression::rows::{Quads, Rows};
use crate::compression::states::{BLOCKS, FourStates, States, compress_all, last_row};
use crate::compression::width::{Four, Lanes, Width, lanes_of, vector};
use std::simd::prelude::*;

// Returns four words of some bytes from place `at` on.
#[inline(always)]
fn quad_from(bytes: &[u8], at: usize) -> u32x4
    requires { at + 16 ≤ length bytes.now }
    ensures full { length result ≡ 4 }
    ensures words { result ≡ words_at 4 (drop at bytes.now) }
{
    vector(&Four::row(&bytes[at..]))
}

// Returns four words of each chunk from place `at` on.
#[inline(always)]
fn quads_from(chunks: &[u8], places: &[usize; 4], at: usize) -> u32x16
    requires places { (j : ℕ) → j < 4 → 1024 * slice_index places.now j + 1024 ≤ length chunks.now }
    requires at { at + 16 ≤ 1024 }
    ensures full { length result ≡ 16 }
    ensures quads { (j : ℕ) → j < 4
        → quad_at j result ≡ words_at 4 (drop (1024 * slice_index places.now j + at) chunks.now) }
{
    let [i, j, k, l] = *places;
    beside(
        quad_from(chunks, CHUNK_LEN * i + at),
        quad_from(chunks, CHUNK_LEN * j + at),
        quad_from(chunks, CHUNK_LEN * k + at),
        quad_from(chunks, CHUNK_LEN * l + at),
    )
}

// Returns the quads of block number `n` of each chunk.
#[inline(always)]
fn blocks_of(chunks: &[u8], places: &[usize; 4], n: usize) -> Quads<16>
    requires places { (j : ℕ) → j < 4 → 1024 * slice_index places.now j + 1024 ≤ length chunks.now }
    requires block { n < 16 }
    ensures { (j : ℕ) → j < 4
        → words_in j result ≡ words_at 16 (block (chunk_at (slice_index places.now j) chunks.now) n) }
{
    let at = BLOCK_LEN * n;
    FourStates::quads(&Rows {
        a: lanes_of(quads_from(chunks, places, at)),
        b: lanes_of(quads_from(chunks, places, at + 16)),
        c: lanes_of(quads_from(chunks, places, at + 32)),
        d: lanes_of(quads_from(chunks, places, at + 48)),
    })
}

// Returns the last rows of the states: those of blocks of 64 bytes with the flags `flags`. The first of `chunks` has number `first`.
#[inline(always)]
fn last_rows(first: u64, places: &[usize; 4], flags: u32) -> u32x16
    requires { (j : ℕ) → j < 4 → first + slice_index places.now j < 2 ^ 64 }
    ensures { (j : ℕ) → j < 4 → quad_at j result ≡ (first + slice_index places.now j) % 2 ^ 32
        ∷ (first + slice_index places.now j) / 2 ^ 32 ∷ 64 ∷ flags ∷ [] }
{
    let [i, j, k, l] = *places;
    let len = BLOCK_LEN as u32;
    beside(
        last_row(first + i as u64, len, flags),
        last_row(first + j as u64, len, flags),
        last_row(first + k as u64, len, flags),
        last_row(first + l as u64, len, flags),
    )
}

// Returns the chaining values of the chunks at four places. The first of `chunks` has number `first`. It holds the compressions,
// so that the values stay in registers from block to block.
#[inline(never)]
pub(crate) fn four_chunk_values(
    key: &[u32; 8],
    chunks: &[u8],
    places: &[usize; 4],
    first: u64,
) -> [Lanes<4>; 8]
    requires counter { (j : ℕ) → j < 4 → first + slice_index places.now j < 2 ^ 64 }
    requires places { (j : ℕ) → j < 4 → 1024 * slice_index places.now j + 1024 ≤ length chunks.now }
    ensures full { AreFull 4 result }
    ensures lanes { (j : ℕ) → j < 4 → lane j result ≡ value_at key.now first chunks.now (slice_index places.now j) }
{
    let mut h = four_times(key);
    'chain: for n in 0..BLOCKS_PER_CHUNK {
        let m = blocks_of(chunks, places, n as usize);
        let d = lanes_of(last_rows(first, places, flags_of(n)));
        h = compress_all::<FourStates, 16, BLOCKS>(&h, &d, &m);
    }
    lanes_of_values(&h)
}

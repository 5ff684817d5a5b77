//! The chaining values of whole chunks, side by side (BLAKE3 specification, 2.4): lane j belongs to the chunk at place j of a
//! list of places, which count from the first of some chunks.

ghost use Rattle.std.specs.Prelude.{◌≡◌, ℕ, ◌+◌, ◌*◌, ◌/◌, ◌%◌, ◌^◌, ◌<◌, ◌≤◌, [], drop, get_or, length, slice_index};
ghost use Rattle.keyed_blake3.specs.Blake3.{block, chunk_value, compress, words_at};
ghost use Rattle.keyed_blake3.specs.Steps.Lanes.{AreFull, chunk_at, lane};

use crate::chunk::{BLOCK_LEN, BLOCKS_PER_CHUNK, CHUNK_LEN, flags_of};
use crate::compression::lanes::{BLOCKS_OF_CHUNKS, BLOCKS_OF_MESSAGES, compress_each, counters};
use crate::compression::width::{Lanes, Width};

// Returns `L` words of each chunk from place `at` on.
#[inline(always)]
fn row_of_each<W: Width<L, B>, const L: usize, const B: usize>(
    chunks: &[u8],
    places: &[usize; L],
    at: usize,
) -> [Lanes<L>; L]
    requires places { (j : ℕ) → j < L → 1024 * slice_index places.now j + 1024 ≤ length chunks.now }
    requires at { at + 4 * L ≤ 1024 }
    ensures full { AreFull L result }
    ensures rows { (j : ℕ) → j < L
        → get_or result j [] ≡ words_at L (drop (1024 * slice_index places.now j + at) chunks.now) }
{
    let mut rows = [[0u32; L]; L];
    'rows: for j in 0..L {
        rows[j] = W::row(&chunks[CHUNK_LEN * places[j] + at..]);
    }
    rows
}

// Writes `columns` over the words from place `at` on. LLVM would copy a slice through memory once more.
#[inline(always)]
fn put_columns<const L: usize>(words: &mut [Lanes<L>; 16], at: usize, columns: &[Lanes<L>; L])
    requires { at + L ≤ 16 }
    ensures size { length words.new ≡ 16 }
    ensures before { (k : ℕ) → k < at → get_or words.new k [] ≡ get_or words.old k [] }
    ensures columns { (k : ℕ) → k < L → get_or words.new (at + k) [] ≡ get_or columns.now k [] }
{
    'columns: for k in 0..L {
        words[at + k] = columns[k];
    }
}

// Returns the words of block number `n` of each chunk.
#[inline(always)]
fn block_of_each<W: Width<L, B>, const L: usize, const B: usize>(
    chunks: &[u8],
    places: &[usize; L],
    n: usize,
) -> [Lanes<L>; 16]
    requires places { (j : ℕ) → j < L → 1024 * slice_index places.now j + 1024 ≤ length chunks.now }
    requires block { n < 16 }
    ensures { (j : ℕ) → j < L
        → lane j result ≡ words_at 16 (block (chunk_at (slice_index places.now j) chunks.now) n) }
{
    let mut words = [[0u32; L]; 16];
    'rows: for i in 0..16 / L {
        let rows = row_of_each::<W, L, B>(chunks, places, BLOCK_LEN * n + B * i);
        put_columns(&mut words, L * i, &W::transposed(&rows));
    }
    words
}

// Returns the chaining values `h` after block number `n` of each chunk, of which `lens` has the bytes that count and `flags` the flags.
// Each caller has a copy of its own, as of `compress_each`.
#[inline(always)]
fn values_after<W: Width<L, B>, const L: usize, const B: usize, const CALLER: usize>(
    h: &[Lanes<L>; 8],
    chunks: &[u8],
    places: &[usize; L],
    n: usize,
    counters: &(Lanes<L>, Lanes<L>),
    lens: &Lanes<L>,
    flags: &Lanes<L>,
) -> [Lanes<L>; 8]
    requires full { AreFull L h.now }
    requires places { (j : ℕ) → j < L → 1024 * slice_index places.now j + 1024 ≤ length chunks.now }
    requires block { n < 16 }
    requires counters { (length counters.now.0 ≡ L) × (length counters.now.1 ≡ L) }
    requires lens { length lens.now ≡ L }
    requires flags { length flags.now ≡ L }
    ensures full { AreFull L result }
    ensures lanes { (j c : ℕ) → j < L → slice_index counters.now.0 j ≡ c % 2 ^ 32
        → slice_index counters.now.1 j ≡ c / 2 ^ 32 → lane j result ≡ compress (lane j h.now)
        (words_at 16 (block (chunk_at (slice_index places.now j) chunks.now) n)) c
        (slice_index lens.now j) (slice_index flags.now j) }
{
    let words = block_of_each::<W, L, B>(chunks, places, n);
    compress_each::<W, L, B, CALLER>(h, &words, counters, lens, flags)
}

// Takes in block number `n` of each chunk, of which `lens` has the bytes that count and `flags` the flags: the chaining values `h` are
// then those after the block. It holds the whole compression of a block, so that the message words stay in its own frame.
#[inline(never)]
pub(crate) fn take_block<W: Width<L, B>, const L: usize, const B: usize>(
    h: &mut [Lanes<L>; 8],
    chunks: &[u8],
    places: &[usize; L],
    n: usize,
    counters: &(Lanes<L>, Lanes<L>),
    lens: &Lanes<L>,
    flags: &Lanes<L>,
)
    requires full { AreFull L h.old }
    requires places { (j : ℕ) → j < L → 1024 * slice_index places.now j + 1024 ≤ length chunks.now }
    requires block { n < 16 }
    requires counters { (length counters.now.0 ≡ L) × (length counters.now.1 ≡ L) }
    requires lens { length lens.now ≡ L }
    requires flags { length flags.now ≡ L }
    ensures full { AreFull L h.new }
    ensures lanes { (j c : ℕ) → j < L → slice_index counters.now.0 j ≡ c % 2 ^ 32
        → slice_index counters.now.1 j ≡ c / 2 ^ 32 → lane j h.new ≡ compress (lane j h.old)
        (words_at 16 (block (chunk_at (slice_index places.now j) chunks.now) n)) c
        (slice_index lens.now j) (slice_index flags.now j) }
{
    *h = values_after::<W, L, B, BLOCKS_OF_MESSAGES>(h, chunks, places, n, counters, lens, flags);
}

// Returns the key's words, the same for each lane.
pub(crate) fn key_of_each<W: Width<L, B>, const L: usize, const B: usize>(
    key: &[u32; 8],
) -> [Lanes<L>; 8]
    ensures full { AreFull L result }
    ensures lanes { (j : ℕ) → j < L → lane j result ≡ key.now }
{
    [
        W::each(key[0]),
        W::each(key[1]),
        W::each(key[2]),
        W::each(key[3]),
        W::each(key[4]),
        W::each(key[5]),
        W::each(key[6]),
        W::each(key[7]),
    ]
}

// Returns the chaining values of the chunks at some places. The first of `chunks` has number `first`. It holds the compressions,
// so that the values stay in registers from block to block.
#[inline(never)]
pub(crate) fn chunk_values<W: Width<L, B>, const L: usize, const B: usize>(
    key: &[u32; 8],
    chunks: &[u8],
    places: &[usize; L],
    first: u64,
) -> [Lanes<L>; 8]
    requires counter { (j : ℕ) → j < L → first + slice_index places.now j < 2 ^ 64 }
    requires places { (j : ℕ) → j < L → 1024 * slice_index places.now j + 1024 ≤ length chunks.now }
    ensures full { AreFull L result }
    ensures lanes { (j : ℕ) → j < L → lane j result ≡ chunk_value key.now (first + slice_index places.now j)
        (chunk_at (slice_index places.now j) chunks.now) 0 }
{
    let counters = counters(first, places);
    let lens = W::each(BLOCK_LEN as u32);
    let mut h = key_of_each::<W, L, B>(key);
    'chain: for n in 0..BLOCKS_PER_CHUNK {
        let flags = W::each(flags_of(n));
        h = values_after::<W, L, B, BLOCKS_OF_CHUNKS>(
            &h, chunks, places, n as usize, &counters, &lens, &flags,
        );
    }
    h
}

//! The chaining values of two chunks at once (BLAKE3 specification, 2.4). The chunks may have their own lengths.

ghost use Rattle.std.specs.Prelude.{◌≡◌, ℕ, ◌+◌, ◌≤◌, List, length};
ghost use Rattle.keyed_blake3.specs.Blake3.{block, blocks_before_last, chunk_value, words_at};
ghost use Rattle.keyed_blake3.specs.Steps.Blocks.{block_flags, block_len, value_after};
ghost use Rattle.keyed_blake3.specs.Steps.Rows.{value_in};

use crate::chunk::{BLOCK_LEN, CHUNK_END, KEYED_HASH, last_block, start_flag, value_from, words};
use crate::compression::rows::{Block, Values};
use crate::compression::two::{apart, both, compress_two};

// Returns the words of a block of at most 64 bytes, filled up with zero bytes.
#[inline(always)]
fn filled_words(rest: &[u8]) -> [u32; 16]
    requires { length rest.now ≤ 64 }
    ensures { result ≡ words_at 16 (block rest.now 0) }
{
    if rest.len() == BLOCK_LEN {
        return words(rest);
    }
    let mut filled = [0u8; BLOCK_LEN];
    filled[..rest.len()].copy_from_slice(rest);
    words(&filled)
}

// Returns block number `n` of a chunk. The last one has the flags `flags`, too.
#[inline(always)]
fn block_of(chunk: &[u8], n: usize, counter: u64, flags: u32) -> Block
    requires chunk { length chunk.now ≤ 1024 }
    requires block { n ≤ blocks_before_last chunk.now }
    requires flags { flags ≤ 8 }
    ensures words { result.words ≡ words_at 16 (block chunk.now n) }
    ensures counter { result.counter ≡ counter }
    ensures len { result.len ≡ block_len chunk.now n }
    ensures flags { result.flags ≡ block_flags chunk.now n flags }
{
    let at = BLOCK_LEN * n;
    if n < last_block(chunk) {
        return Block {
            words: words(&chunk[at..at + BLOCK_LEN]),
            counter,
            len: BLOCK_LEN as u32,
            flags: KEYED_HASH + start_flag(n as u64),
        };
    }
    let rest = &chunk[at..];
    Block {
        words: filled_words(rest),
        counter,
        len: rest.len() as u32,
        flags: KEYED_HASH + start_flag(n as u64) + CHUNK_END + flags,
    }
}

// Takes in block number `n` of two chunks. The last one of each has the flags `flags`, too.
#[inline(always)]
fn take_blocks(
    h: &Values<8>,
    first: &[u8],
    second: &[u8],
    n: usize,
    counters: (u64, u64),
    flags: u32,
) -> Values<8>
    requires first { (length first.now ≤ 1024) × (n ≤ blocks_before_last first.now) }
    requires second { (length second.now ≤ 1024) × (n ≤ blocks_before_last second.now) }
    requires flags { flags ≤ 8 }
    ensures first { (key : List ℕ) → value_in 0 h.now ≡ value_after key counters.0 first.now flags n
        → value_in 0 result ≡ value_after key counters.0 first.now flags (n + 1) }
    ensures second { (key : List ℕ) → value_in 1 h.now ≡ value_after key counters.1 second.now flags n
        → value_in 1 result ≡ value_after key counters.1 second.now flags (n + 1) }
{
    let of_first = block_of(first, n, counters.0, flags);
    let of_second = block_of(second, n, counters.1, flags);
    compress_two(h, &of_first, &of_second)
}

// Returns the chaining values of two chunks, each of at most 1024 bytes (2.4). Blocks that only the longer one has are taken
// in alone.
pub(crate) fn two_chunk_values(
    key: &[u32; 8],
    first: &[u8],
    second: &[u8],
    counters: (u64, u64),
    flags: u32,
) -> ([u32; 8], [u32; 8])
    requires first { length first.now ≤ 1024 }
    requires second { length second.now ≤ 1024 }
    requires flags { flags ≤ 8 }
    ensures first { result.0 ≡ chunk_value key.now counters.0 first.now flags }
    ensures second { result.1 ≡ chunk_value key.now counters.1 second.now flags }
{
    let blocks = last_block(first).min(last_block(second)) + 1;
    let mut h = both(key, key);
    'chain: for n in 0..blocks {
        h = take_blocks(&h, first, second, n, counters, flags);
    }
    let (of_first, of_second) = apart(&h);
    (
        value_from(&of_first, first, blocks, counters.0, flags),
        value_from(&of_second, second, blocks, counters.1, flags),
    )
}

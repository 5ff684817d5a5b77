//! The chaining value of a chunk, block by block (BLAKE3 specification, 2.4).

ghost use Rattle.std.specs.Prelude.{◌≡◌, ℕ, ◌+◌, ◌*◌, ◌<◌, ◌≤◌, List, drop, length};
ghost use Rattle.std.specs.Int.{from_le_bytes, w32};
ghost use Rattle.keyed_blake3.specs.Blake3.{block, blocks_before_last, chunk_end_flag, chunk_value, compress, keyed_hash_flag, start_flag, words_at};
ghost use Rattle.keyed_blake3.specs.Steps.Blocks.{block_flags, value_after};

use crate::compression::compress;

// The bytes of a block and of a chunk, and the blocks of a whole chunk.
pub(crate) const BLOCK_LEN: usize = 64;

pub(crate) const CHUNK_LEN: usize = 1024;

pub(crate) const BLOCKS_PER_CHUNK: u64 = 16;

// The domain flags (table 3) of a chunk's blocks, and the one of every block under a key.
const CHUNK_START: u32 = 1;

pub(crate) const CHUNK_END: u32 = 2;

pub(crate) const KEYED_HASH: u32 = 16;

// Returns the little-endian word at place `at` of some bytes.
#[inline(always)]
pub(crate) fn word_at(bytes: &[u8], at: usize) -> u32
    requires { at + 4 ≤ length bytes.now }
    ensures { result ≡ from_le_bytes w32 (drop at bytes.now) }
{
    u32::from_le_bytes([bytes[at], bytes[at + 1], bytes[at + 2], bytes[at + 3]])
}

// Returns the first `N` words of some bytes.
#[inline(always)]
pub(crate) fn words<const N: usize>(bytes: &[u8]) -> [u32; N]
    requires { 4 * N ≤ length bytes.now }
    ensures { result ≡ words_at N bytes.now }
{
    let mut words = [0u32; N];
    'words: for k in 0..N {
        words[k] = word_at(bytes, 4 * k);
    }
    words
}

// Returns the compression of a block of 64 bytes.
pub(crate) fn compress_block(
    h: &[u32; 8],
    block: &[u8],
    counter: u64,
    block_len: u32,
    flags: u32,
) -> [u32; 8]
    requires { length block.now ≡ 64 }
    ensures { result ≡ compress h.now (words_at 16 block.now) counter block_len flags }
{
    compress(h, &words(block), counter, block_len, flags)
}

// Returns CHUNK_START for a chunk's first block, and else 0.
#[inline(always)]
pub(crate) fn start_flag(place: u64) -> u32
    ensures { result ≡ start_flag place }
{
    if place == 0 { CHUNK_START } else { 0 }
}

// Returns the flags of block number `n` of a whole chunk.
#[inline(always)]
pub(crate) fn flags_of(n: u64) -> u32
    requires { n < 16 }
    ensures { (chunk : List ℕ) → length chunk ≡ 1024 → result ≡ block_flags chunk n 0 }
{
    if n < BLOCKS_PER_CHUNK - 1 {
        return KEYED_HASH + start_flag(n);
    }
    KEYED_HASH + start_flag(n) + CHUNK_END
}

// Returns the chaining value of a chunk from that before its last block: block number `place`, of which `rest` are the
// bytes (2.4).
pub(crate) fn last_value(
    h: &[u32; 8],
    rest: &[u8],
    counter: u64,
    place: u64,
    flags: u32,
) -> [u32; 8]
    requires block { length rest.now ≤ 64 }
    requires flags { flags ≤ 8 }
    ensures { result ≡ compress h.now (words_at 16 (block rest.now 0)) counter (length rest.now)
        (keyed_hash_flag + start_flag place + chunk_end_flag + flags) }
{
    let flags = KEYED_HASH + start_flag(place) + CHUNK_END + flags;
    if rest.len() == BLOCK_LEN {
        return compress_block(h, rest, counter, BLOCK_LEN as u32, flags);
    }
    let mut block = [0u8; BLOCK_LEN];
    block[..rest.len()].copy_from_slice(rest);
    compress_block(h, &block, counter, rest.len() as u32, flags)
}

// Returns the number of a chunk's last block. An empty chunk has one block, too.
#[inline(always)]
pub(crate) fn last_block(chunk: &[u8]) -> usize
    ensures { result ≡ blocks_before_last chunk.now }
{
    chunk.len().saturating_sub(1) / BLOCK_LEN
}

// Returns the chaining value of a chunk of at most 1024 bytes from that after its first `blocks` blocks (2.4). The last block
// may be one of them.
pub(crate) fn value_from(
    h: &[u32; 8],
    chunk: &[u8],
    blocks: usize,
    counter: u64,
    flags: u32,
) -> [u32; 8]
    requires chunk { length chunk.now ≤ 1024 }
    requires flags { flags ≤ 8 }
    ensures { (key : List ℕ) → h.now ≡ value_after key counter chunk.now flags blocks
        → result ≡ chunk_value key counter chunk.now flags }
{
    let last = last_block(chunk);
    if blocks > last {
        return *h;
    }
    let mut value = *h;
    'chain: for n in blocks..last {
        let at = BLOCK_LEN * n;
        let block = &chunk[at..at + BLOCK_LEN];
        let block_flags = KEYED_HASH + start_flag(n as u64);
        value = compress_block(&value, block, counter, BLOCK_LEN as u32, block_flags);
    }
    let rest = &chunk[BLOCK_LEN * last..];
    last_value(&value, rest, counter, last as u64, flags)
}

// Returns the chaining value of a chunk of at most 1024 bytes (2.4).
pub(crate) fn chunk_value(key: &[u32; 8], chunk: &[u8], counter: u64, flags: u32) -> [u32; 8]
    requires chunk { length chunk.now ≤ 1024 }
    requires flags { flags ≤ 8 }
    ensures { result ≡ chunk_value key.now counter chunk.now flags }
{
    value_from(key, chunk, 0, counter, flags)
}

//! The compression function (BLAKE3 specification, 2.2) on two blocks at once.

ghost use Rattle.std.specs.Prelude.{◌≡◌, ℕ, ◌/◌, ◌%◌, ◌^◌, ◌++◌, [], ◌∷◌, length};
ghost use Rattle.keyed_blake3.specs.Blake3.{compress};
ghost use Rattle.keyed_blake3.specs.Steps.Rows.{quad_at, value_in, words_in};

use crate::compression::rows::{Block, Quads, Rows, Values};
use crate::compression::states::{BLOCKS, States, TwoStates, compress_all, last_row};
use crate::compression::width::lanes_of;
use std::simd::prelude::*;

// Returns a vector of the first's words and then the second's.
#[inline(always)]
fn beside(first: u32x4, second: u32x4) -> u32x8
    ensures full { length result ≡ 8 }
    ensures words { result ≡ first ++ second }
{
    first.shuffle(second, [0, 1, 2, 3, 4, 5, 6, 7])
}

// Returns the quads of two message blocks.
#[inline(always)]
fn quads_of(first: &[u32; 16], second: &[u32; 16]) -> Quads<8>
    ensures first { words_in 0 result ≡ first.now }
    ensures second { words_in 1 result ≡ second.now }
{
    TwoStates::quads(&Rows {
        a: lanes_of(beside(
            u32x4::from_slice(&first[..4]),
            u32x4::from_slice(&second[..4]),
        )),
        b: lanes_of(beside(
            u32x4::from_slice(&first[4..8]),
            u32x4::from_slice(&second[4..8]),
        )),
        c: lanes_of(beside(
            u32x4::from_slice(&first[8..12]),
            u32x4::from_slice(&second[8..12]),
        )),
        d: lanes_of(beside(
            u32x4::from_slice(&first[12..]),
            u32x4::from_slice(&second[12..]),
        )),
    })
}

// Returns the compressions of two blocks, from the chaining values `h`. `d` is the last row of the states: a caller that stored what it
// is made of, word by word, would wait until these words can be read as a vector.
fn compress_two_from(h: &Values<8>, d: u32x8, first: &[u32; 16], second: &[u32; 16]) -> Values<8>
    ensures first { (counter block_len flags : ℕ)
        → quad_at 0 d ≡ counter % 2 ^ 32 ∷ counter / 2 ^ 32 ∷ block_len ∷ flags ∷ []
        → value_in 0 result ≡ compress (value_in 0 h.now) first.now counter block_len flags }
    ensures second { (counter block_len flags : ℕ)
        → quad_at 1 d ≡ counter % 2 ^ 32 ∷ counter / 2 ^ 32 ∷ block_len ∷ flags ∷ []
        → value_in 1 result ≡ compress (value_in 1 h.now) second.now counter block_len flags }
{
    compress_all::<TwoStates, 8, BLOCKS>(h, &lanes_of(d), &quads_of(first, second))
}

// Returns the compressions of two blocks, from the chaining values `h`.
#[inline(always)]
pub(crate) fn compress_two(h: &Values<8>, first: &Block, second: &Block) -> Values<8>
    ensures first { value_in 0 result
        ≡ compress (value_in 0 h.now) first.now.words first.now.counter first.now.len first.now.flags }
    ensures second { value_in 1 result
        ≡ compress (value_in 1 h.now) second.now.words second.now.counter second.now.len second.now.flags }
{
    let d = beside(
        last_row(first.counter, first.len, first.flags),
        last_row(second.counter, second.len, second.flags),
    );
    compress_two_from(h, d, &first.words, &second.words)
}

// Returns the vectors of two chaining values.
#[inline(always)]
pub(crate) fn both(first: &[u32; 8], second: &[u32; 8]) -> Values<8>
    ensures first { value_in 0 result ≡ first.now }
    ensures second { value_in 1 result ≡ second.now }
{
    Values {
        a: lanes_of(beside(
            u32x4::from_slice(&first[..4]),
            u32x4::from_slice(&second[..4]),
        )),
        b: lanes_of(beside(
            u32x4::from_slice(&first[4..]),
            u32x4::from_slice(&second[4..]),
        )),
    }
}

// Returns the two chaining values of vectors.
#[inline(always)]
pub(crate) fn apart(h: &Values<8>) -> ([u32; 8], [u32; 8])
    ensures first { result.0 ≡ value_in 0 h.now }
    ensures second { result.1 ≡ value_in 1 h.now }
{
    let (a, b) = (h.a, h.b);
    (
        [a[0], a[1], a[2], a[3], b[0], b[1], b[2], b[3]],
        [a[4], a[5], a[6], a[7], b[4], b[5], b[6], b[7]],
    )
}

//! The compression function (BLAKE3 specification, 2.2) on one block.

ghost use Rattle.std.specs.Prelude.{◌≡◌};
ghost use Rattle.keyed_blake3.specs.Blake3.{compress};
ghost use Rattle.keyed_blake3.specs.Steps.Rows.{value_in, words_in};

pub(crate) mod four;
mod in_step;
mod lane_rows;
pub(crate) mod lanes;
pub(crate) mod rows;
pub(crate) mod states;
pub(crate) mod two;
pub(crate) mod width;

use rows::{Quads, Rows, Values};
use states::{BLOCKS, OneState, States, compress_all, last_row};
use std::simd::prelude::*;
use width::lanes_of;

// Returns the quads of a message block.
#[inline(always)]
fn quads_of(m: &[u32; 16]) -> Quads<4>
    ensures { words_in 0 result ≡ m.now }
{
    OneState::quads(&Rows {
        a: lanes_of(u32x4::from_slice(&m[..4])),
        b: lanes_of(u32x4::from_slice(&m[4..8])),
        c: lanes_of(u32x4::from_slice(&m[8..12])),
        d: lanes_of(u32x4::from_slice(&m[12..])),
    })
}

// Returns the rows of a chaining value.
#[inline(always)]
fn value_of(h: &[u32; 8]) -> Values<4>
    ensures { value_in 0 result ≡ h.now }
{
    Values {
        a: lanes_of(u32x4::from_slice(&h[..4])),
        b: lanes_of(u32x4::from_slice(&h[4..])),
    }
}

// Returns the words of a chaining value.
#[inline(always)]
fn words_of(h: &Values<4>) -> [u32; 8]
    ensures { result ≡ value_in 0 h.now }
{
    let (x, y) = (h.a, h.b);
    [x[0], x[1], x[2], x[3], y[0], y[1], y[2], y[3]]
}

// Returns the compression of a message block, from the chaining value `h`. It is never inlined, so that the machine check finds
// one function that compresses a block.
#[inline(never)]
pub(crate) fn compress(
    h: &[u32; 8],
    m: &[u32; 16],
    counter: u64,
    block_len: u32,
    flags: u32,
) -> [u32; 8]
    ensures { result ≡ compress h.now m.now counter block_len flags }
{
    let d = lanes_of(last_row(counter, block_len, flags));
    words_of(&compress_all::<OneState, 4, BLOCKS>(&value_of(h), &d, &quads_of(m)))
}

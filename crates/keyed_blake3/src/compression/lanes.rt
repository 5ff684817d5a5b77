//! The compression function (BLAKE3 specification, 2.2) on `L` blocks side by side: lane j of each vector belongs to block j.

ghost use Rattle.std.specs.Prelude.{◌≡◌, ℕ, ◌+◌, ◌/◌, ◌%◌, ◌^◌, ◌<◌, ◌≤◌, ◌++◌, length, replicate, slice_index};
ghost use Rattle.keyed_blake3.specs.Blake3.{compress, first_state, folded, permuted};
ghost use Rattle.keyed_blake3.specs.Steps.LaneRows.{row_at, state_at};
ghost use Rattle.keyed_blake3.specs.Steps.Lanes.{AreFull, lane};

use crate::compression::in_step::{byte_row, round, row, word_row, xor};
use crate::compression::lane_rows::{LaneRows, Row};
use crate::compression::states::INITIALIZATION_VECTOR;
use crate::compression::width::{Lanes, WIDEST, Width, lanes_of};
use std::simd::prelude::*;

// Returns the message words of the next round.
#[inline(always)]
fn permuted<const L: usize>(m: &[Lanes<L>; 16]) -> [Lanes<L>; 16]
    ensures { (j : ℕ) → lane j result ≡ permuted (lane j m.now) }
{
    [
        m[2], m[6], m[3], m[10], m[7], m[0], m[4], m[13], m[1], m[11], m[12], m[5], m[9], m[14],
        m[15], m[8],
    ]
}

// Returns the halves of the counter of each lane: the number of the chunk at its place, if the first chunk has number
// `first`.
#[inline(always)]
pub(crate) fn counters<const L: usize>(first: u64, places: &[usize; L]) -> (Lanes<L>, Lanes<L>)
    requires { (j : ℕ) → j < L → first + slice_index places.now j < 2 ^ 64 }
    ensures full { (length result.0 ≡ L) × (length result.1 ≡ L) }
    ensures lanes { (j : ℕ) → j < L → (slice_index result.0 j ≡ (first + slice_index places.now j) % 2 ^ 32)
        × (slice_index result.1 j ≡ (first + slice_index places.now j) / 2 ^ 32) }
{
    let mut low = [0u32; L];
    let mut high = [0u32; L];
    'counters: for j in 0..L {
        let counter = first + places[j] as u64;
        low[j] = (counter % (1 << 32)) as u32;
        high[j] = (counter >> 32) as u32;
    }
    (low, high)
}

// Returns a word in each lane, by a call.
#[inline(never)]
fn each_by_call<const L: usize>(x: u32) -> Simd<u32, L>
    ensures { result ≡ replicate L x }
{
    Simd::splat(x)
}

// Returns a word in each lane, and has LLVM align the frame of the caller, which it does for vectors of 32 bytes only where the address
// of one is passed on. In another frame, vectors that are kept on the stack cross lines of the cache, which is slower at half of the
// places of the stack, and much slower at a few. Where there may be 16 lanes, dist/make aligns the frames.
#[inline(always)]
fn each_aligned<W: Width<L, B>, const L: usize, const B: usize>(x: u32) -> Lanes<L>
    ensures { result ≡ replicate L x }
{
    if L == 8 && WIDEST == 8 {
        return lanes_of(each_by_call(x));
    }
    W::each(x)
}

// Returns the states before the first round.
#[inline(always)]
fn first_state<W: Width<L, B>, const L: usize, const B: usize>(
    h: &[Lanes<L>; 8],
    counters: &(Lanes<L>, Lanes<L>),
    lens: &Lanes<L>,
    flags: &Lanes<L>,
) -> LaneRows<L, B>
    requires counters { (length counters.now.0 ≡ L) × (length counters.now.1 ≡ L) }
    requires full { AreFull L h.now }
    requires lens { length lens.now ≡ L }
    requires flags { length flags.now ≡ L }
    ensures { (j n : ℕ) → j < L → slice_index counters.now.0 j ≡ n % 2 ^ 32 → slice_index counters.now.1 j ≡ n / 2 ^ 32
        → state_at j result ≡ first_state (lane j h.now) n (slice_index lens.now j) (slice_index flags.now j) }
{
    let [iv0, iv1, iv2, iv3] = INITIALIZATION_VECTOR;
    let (low, high) = counters;
    LaneRows {
        a: row(&h[0], &h[1], &h[2], &h[3]),
        b: row(&h[4], &h[5], &h[6], &h[7]),
        c: row(
            &each_aligned::<W, L, B>(iv0),
            &W::each(iv1),
            &W::each(iv2),
            &W::each(iv3),
        ),
        d: byte_row::<W, L, B>(&row(low, high, lens, flags)),
    }
}

// Returns the words of two rows.
#[inline(always)]
fn words_of_rows<const L: usize>(x: &Row<L>, y: &Row<L>) -> [Lanes<L>; 8]
    ensures full { AreFull L result }
    ensures lanes { (j : ℕ) → j < L → lane j result ≡ row_at j x.now ++ row_at j y.now }
{
    [x.w0, x.w1, x.w2, x.w3, y.w0, y.w1, y.w2, y.w3]
}

// Returns the first eight words of each output.
#[inline(always)]
fn folded<W: Width<L, B>, const L: usize, const B: usize>(v: &LaneRows<L, B>) -> [Lanes<L>; 8]
    ensures full { AreFull L result }
    ensures lanes { (j : ℕ) → j < L → lane j result ≡ folded (state_at j v.now) }
{
    let x = xor::<W, L, B>(&v.a, &v.c);
    let y = xor::<W, L, B>(&v.b, &word_row::<W, L, B>(&v.d));
    words_of_rows(&x, &y)
}

// The callers of `compress_each`, by what they compress.
pub(crate) const BLOCKS_OF_CHUNKS: usize = 0;

pub(crate) const BLOCKS_OF_MESSAGES: usize = 1;

const PARENTS: usize = 2;

// Returns the compression of blocks, from the chaining values `h`. `counters` has the halves of each one's counter. Each caller
// has a copy of its own, by its number `CALLER`: LLVM inlines a function of this size at its only call alone.
#[inline(always)]
pub(crate) fn compress_each<W: Width<L, B>, const L: usize, const B: usize, const CALLER: usize>(
    h: &[Lanes<L>; 8],
    m: &[Lanes<L>; 16],
    counters: &(Lanes<L>, Lanes<L>),
    lens: &Lanes<L>,
    flags: &Lanes<L>,
) -> [Lanes<L>; 8]
    requires counters { (length counters.now.0 ≡ L) × (length counters.now.1 ≡ L) }
    requires full { AreFull L h.now }
    requires lens { length lens.now ≡ L }
    requires flags { length flags.now ≡ L }
    ensures full { AreFull L result }
    ensures lanes { (j n : ℕ) → j < L → slice_index counters.now.0 j ≡ n % 2 ^ 32
        → slice_index counters.now.1 j ≡ n / 2 ^ 32 → lane j result
        ≡ compress (lane j h.now) (lane j m.now) n (slice_index lens.now j) (slice_index flags.now j) }
{
    let v = first_state::<W, L, B>(h, counters, lens, flags);
    let v = round::<W, L, B>(&v, m);
    let m = permuted(m);
    let v = round::<W, L, B>(&v, &m);
    let m = permuted(&m);
    let v = round::<W, L, B>(&v, &m);
    let m = permuted(&m);
    let v = round::<W, L, B>(&v, &m);
    let m = permuted(&m);
    let v = round::<W, L, B>(&v, &m);
    let m = permuted(&m);
    let v = round::<W, L, B>(&v, &m);
    let m = permuted(&m);
    let v = round::<W, L, B>(&v, &m);
    folded::<W, L, B>(&v)
}

// Takes in a block of each message whose counter is 0: `h` then has the chaining values after them.
#[inline(never)]
pub(crate) fn take_in_each<W: Width<L, B>, const L: usize, const B: usize>(
    h: &mut [Lanes<L>; 8],
    m: &[Lanes<L>; 16],
    lens: &Lanes<L>,
    flags: &Lanes<L>,
)
    requires full { AreFull L h.old }
    requires lens { length lens.now ≡ L }
    requires flags { length flags.now ≡ L }
    ensures full { AreFull L h.new }
    ensures lanes { (j : ℕ) → j < L → lane j h.new
        ≡ compress (lane j h.old) (lane j m.now) 0 (slice_index lens.now j) (slice_index flags.now j) }
{
    let zero = W::each(0);
    *h = compress_each::<W, L, B, PARENTS>(h, m, &(zero, zero), lens, flags);
}

// Returns lane j of the chaining values.
pub(crate) fn lane<const L: usize>(h: &[Lanes<L>; 8], j: usize) -> [u32; 8]
    requires lane { j < L }
    requires full { AreFull L h.now }
    ensures { result ≡ lane j h.now }
{
    [
        h[0][j], h[1][j], h[2][j], h[3][j], h[4][j], h[5][j], h[6][j], h[7][j],
    ]
}

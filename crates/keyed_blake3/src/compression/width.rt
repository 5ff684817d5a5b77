//! How many blocks are compressed side by side: four, eight or sixteen. Here is what differs by that number.

ghost use Rattle.std.specs.Prelude.{◌≡◌, ◌*◌, ◌<◌, ◌≤◌, ℕ, ◌+◌, ◌/◌, ◌++◌, bit_xor, length, map, replicate, slice_index};
ghost use Rattle.std.specs.Int.{rotate_right, w32};
ghost use Rattle.std.specs.List.{range_with_len};
ghost use Rattle.keyed_blake3.specs.Blake3.{add32, words_at};
ghost use Rattle.keyed_blake3.specs.Steps.LaneRows.{words_of_bytes};
ghost use Rattle.keyed_blake3.specs.Steps.Lanes.{AreFull, lane};
ghost use lib.Lanes.{zip2};

use std::simd::prelude::*;

mod eight_lanes;
mod four_lanes;
mod sixteen_lanes;

// The most lanes that are used: as many as a vector register holds words. Builds for x86-64-v3 use eight and those for x86-64-v4
// sixteen, for which the proofs hold, too.
pub(crate) const WIDEST: usize = 4;

// One word of each of `L` blocks.
pub(crate) type Lanes<const L: usize> = [u32; L];

// The same word as bytes, of which `B` is the number.
pub(crate) type LaneBytes<const B: usize> = [u8; B];

// The widths.
pub(crate) struct Four;

pub(crate) struct Eight;

pub(crate) struct Sixteen;

// A width of `L` lanes, in which one word of each lane has `B` bytes.
pub(crate) trait Width<const L: usize, const B: usize> {
    // Returns a word in each lane.
    fn each(x: u32) -> Lanes<L>
        ensures { result ≡ replicate L x };

    // Adds each word of `x` and one of `y`.
    fn sum(x: &Lanes<L>, y: &Lanes<L>) -> Lanes<L>
        ensures { result ≡ zip2 add32 x.now y.now };

    // Xors each word of `x` with one of `y`.
    fn xor(x: &Lanes<L>, y: &Lanes<L>) -> Lanes<L>
        ensures { result ≡ zip2 bit_xor x.now y.now };

    // Rotates each word to the right.
    fn rotated(x: &Lanes<L>, n: u32) -> Lanes<L>
        requires low { 1 ≤ n }
        requires high { n < 32 }
        ensures { result ≡ map (λ y. rotate_right w32 y n) x.now };

    // Returns the bytes of words.
    fn bytes_of(x: &Lanes<L>) -> LaneBytes<B>
        ensures { words_of_bytes L result ≡ x.now };

    // Returns the words of bytes.
    fn words_of(x: &LaneBytes<B>) -> Lanes<L>
        ensures { result ≡ words_of_bytes L x.now };

    // Xors each word of `x` with one of `y`.
    fn xor_bytes(x: &LaneBytes<B>, y: &LaneBytes<B>) -> LaneBytes<B>
        ensures { words_of_bytes L result ≡ zip2 bit_xor (words_of_bytes L x.now) (words_of_bytes L y.now) };

    // Rotates each word to the right by 16.
    fn rotated_by_16(x: &LaneBytes<B>) -> LaneBytes<B>
        ensures { words_of_bytes L result ≡ map (λ y. rotate_right w32 y 16) (words_of_bytes L x.now) };

    // Rotates each word to the right by 8.
    fn rotated_by_8(x: &LaneBytes<B>) -> LaneBytes<B>
        ensures { words_of_bytes L result ≡ map (λ y. rotate_right w32 y 8) (words_of_bytes L x.now) };

    // Returns the first `L` words of some bytes.
    fn row(bytes: &[u8]) -> Lanes<L>
        requires { 4 * L ≤ length bytes.now }
        ensures { result ≡ words_at L bytes.now };

    // Returns a square table turned: lane j of the result is row j of the table.
    fn transposed(rows: &[Lanes<L>; L]) -> [Lanes<L>; L]
        ensures full { AreFull L rows.now → AreFull L result }
        ensures lanes { AreFull L rows.now → map (λ j. lane j result) (range_with_len 0 L) ≡ rows.now };

    // Returns the words at even places of the two together, and those at odd places.
    fn apart(left: &Lanes<L>, right: &Lanes<L>) -> (Lanes<L>, Lanes<L>)
        ensures { (j : ℕ) → j < L → (slice_index result.0 j ≡ slice_index (left.now ++ right.now) (2 * j))
            × (slice_index result.1 j ≡ slice_index (left.now ++ right.now) (2 * j + 1)) };

    // A word has four bytes.
    ghost bytes_per_word: { B ≡ 4 * L };

    // The lanes divide a block's words.
    ghost lanes: { (4 ≤ L) × (L ≤ 16) × (16 / L * L ≡ 16) };
}

// Returns some words as a vector.
#[inline(always)]
pub(crate) fn vector<const L: usize>(x: &Lanes<L>) -> Simd<u32, L>
    ensures { result ≡ x.now }
{
    Simd::from_slice(x)
}

// Returns the words of a vector. LLVM would take those of `to_array` out one by one.
#[inline(always)]
pub(crate) fn lanes_of<const L: usize>(x: Simd<u32, L>) -> Lanes<L>
    ensures { result ≡ x.entry }
{
    *x.as_array()
}

// Returns some bytes as a vector.
#[inline(always)]
fn byte_vector<const B: usize>(x: &LaneBytes<B>) -> Simd<u8, B>
    ensures { result ≡ x.now }
{
    Simd::from_slice(x)
}

// Returns the bytes of a vector.
#[inline(always)]
fn bytes<const B: usize>(x: Simd<u8, B>) -> LaneBytes<B>
    ensures { result ≡ x.entry }
{
    *x.as_array()
}

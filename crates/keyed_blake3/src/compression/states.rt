//! The compression function (BLAKE3 specification, 2.2) on one, two or four blocks at once. Their states share vectors, which a
//! processor with such registers works on as fast as on four words. Here is what doesn't differ by the number of states.

ghost use Rattle.std.specs.Prelude.{◌≡◌, ℕ, ◌*◌, ◌/◌, ◌%◌, ◌^◌, ◌<◌, ◌≤◌, [], ◌∷◌, bit_xor, length, map};
ghost use Rattle.std.specs.Int.{rotate_right, w32};
ghost use Rattle.keyed_blake3.specs.Blake3.{add32, compress, first_state, folded, permuted, round};
ghost use Rattle.keyed_blake3.specs.Steps.Rows.{half_columns, quad_at, state_in, turned, turned_back, value_in, words_in};
ghost use lib.Lanes.{zip2};

mod four_states;
mod one_state;
mod two_states;

use crate::compression::rows::{Quads, Rows, Values};
use crate::compression::width::{Lanes, lanes_of, vector};
use std::simd::prelude::*;

// The initialization vector's first four words (table 1).
pub(crate) const INITIALIZATION_VECTOR: [u32; 4] = [0x6A09E667, 0xBB67AE85, 0x3C6EF372, 0xA54FF53A];

// How many states share a vector.
pub(crate) struct OneState;

pub(crate) struct TwoStates;

pub(crate) struct FourStates;

// States that share vectors of `N` words: quad j of a vector is state j's.
pub(crate) trait States<const N: usize> {
    // Returns the same quad for each state.
    fn each(quad: u32x4) -> Lanes<N>
        ensures full { length result ≡ N }
        ensures quads { (j : ℕ) → j < N / 4 → quad_at j result ≡ quad };

    // Returns the quads of message blocks, of which row a has the first four words, and so on.
    fn quads(m: &Rows<N>) -> Quads<N>
        ensures { (j : ℕ) → j < N / 4 → words_in j result ≡ state_in j m.now };

    // Returns the message words of the next round.
    fn permuted(m: &Quads<N>) -> Quads<N>
        ensures { (j : ℕ) → j < N / 4 → words_in j result ≡ permuted (words_in j m.now) };

    // Turns the rows so that the diagonals stand as columns. Row b stays in place: a half step makes it last and the next
    // one needs it first, so a turn of it would be waited for.
    fn turned(v: &Rows<N>) -> Rows<N>
        ensures { (j : ℕ) → j < N / 4 → state_in j result ≡ turned (state_in j v.now) };

    // Turns them back.
    fn turned_back(v: &Rows<N>) -> Rows<N>
        ensures { (j : ℕ) → j < N / 4 → state_in j result ≡ turned_back (state_in j v.now) };

    // Each state has a quad.
    ghost quads_fit: { 4 * (N / 4) ≡ N };
}

// Rotates each lane to the right.
#[inline(always)]
pub(crate) fn rotated<const N: usize>(x: Simd<u32, N>, n: u32) -> Simd<u32, N>
    requires low { 1 ≤ n }
    requires high { n < 32 }
    ensures { result ≡ map (λ y. rotate_right w32 y n) x.entry }
{
    (x >> Simd::splat(n)) | (x << Simd::splat(32 - n))
}

// Adds each word of `x` and one of `y`.
#[inline(always)]
fn sum<const N: usize>(x: &Lanes<N>, y: &Lanes<N>) -> Lanes<N>
    ensures { result ≡ zip2 add32 x.now y.now }
{
    lanes_of(vector(x) + vector(y))
}

// Xors each word of `x` with one of `y`.
#[inline(always)]
fn xor<const N: usize>(x: &Lanes<N>, y: &Lanes<N>) -> Lanes<N>
    ensures { result ≡ zip2 bit_xor x.now y.now }
{
    lanes_of(vector(x) ^ vector(y))
}

// Rotates each word to the right.
#[inline(always)]
fn rotated_row<const N: usize>(x: &Lanes<N>, n: u32) -> Lanes<N>
    requires low { 1 ≤ n }
    requires high { n < 32 }
    ensures { result ≡ map (λ y. rotate_right w32 y n) x.now }
{
    lanes_of(rotated(vector(x), n))
}

// Does half of G on each column of each state: a message word for each, and two rotations.
#[inline(always)]
fn half_columns<const N: usize>(v: &Rows<N>, x: &Lanes<N>, r: u32, s: u32) -> Rows<N>
    requires full { length x.now ≡ N }
    requires r_low { 1 ≤ r }
    requires r_high { r < 32 }
    requires s_low { 1 ≤ s }
    requires s_high { s < 32 }
    ensures { (j : ℕ) → j < N / 4 → state_in j result ≡ half_columns (state_in j v.now) (quad_at j x.now) r s }
{
    let a = sum(&sum(&v.a, &v.b), x);
    let d = rotated_row(&xor(&v.d, &a), r);
    let c = sum(&v.c, &d);
    let b = rotated_row(&xor(&v.b, &c), s);
    Rows { a, b, c, d }
}

// Does one round of each state: G on the columns, then on the diagonals, which are turned to stand as columns.
#[inline(always)]
fn round<S: States<N>, const N: usize>(v: &Rows<N>, m: &Quads<N>) -> Rows<N>
    ensures { (j : ℕ) → j < N / 4 → state_in j result ≡ round (state_in j v.now) (words_in j m.now) }
{
    let v = half_columns(v, &m.column_first, 16, 12);
    let v = half_columns(&v, &m.column_second, 8, 7);
    let v = S::turned(&v);
    let v = half_columns(&v, &m.diagonal_first, 16, 12);
    let v = half_columns(&v, &m.diagonal_second, 8, 7);
    S::turned_back(&v)
}

// Returns the last row of a state before the first round.
#[inline(always)]
pub(crate) fn last_row(counter: u64, block_len: u32, flags: u32) -> u32x4
    ensures full { length result ≡ 4 }
    ensures words { result ≡ counter % 2 ^ 32 ∷ counter / 2 ^ 32 ∷ block_len ∷ flags ∷ [] }
{
    let low = (counter % (1 << 32)) as u32;
    let high = (counter >> 32) as u32;
    u32x4::from_array([low, high, block_len, flags])
}

// Returns the states before the first round, of which `d` is the last row.
#[inline(always)]
fn first_state<S: States<N>, const N: usize>(h: &Values<N>, d: &Lanes<N>) -> Rows<N>
    requires { length d.now ≡ N }
    ensures { (j counter block_len flags : ℕ) → j < N / 4
        → quad_at j d.now ≡ counter % 2 ^ 32 ∷ counter / 2 ^ 32 ∷ block_len ∷ flags ∷ []
        → state_in j result ≡ first_state (value_in j h.now) counter block_len flags }
{
    Rows {
        a: h.a,
        b: h.b,
        c: S::each(u32x4::from_array(INITIALIZATION_VECTOR)),
        d: *d,
    }
}

// Returns the first eight words of each output.
#[inline(always)]
fn folded<const N: usize>(v: &Rows<N>) -> Values<N>
    ensures { (j : ℕ) → j < N / 4 → value_in j result ≡ folded (state_in j v.now) }
{
    Values {
        a: xor(&v.a, &v.c),
        b: xor(&v.b, &v.d),
    }
}

// The callers of `compress_all`, by what they compress.
pub(crate) const BLOCKS: usize = 0;

// Returns the compressions of blocks, from the chaining values `h`. `d` is the last row of the states. The rounds are written out:
// a loop over them is slower. Each caller has a copy of its own, by its number `CALLER`: LLVM inlines a function of this size at
// its only call alone.
#[inline(always)]
pub(crate) fn compress_all<S: States<N>, const N: usize, const CALLER: usize>(
    h: &Values<N>,
    d: &Lanes<N>,
    m: &Quads<N>,
) -> Values<N>
    requires { length d.now ≡ N }
    ensures { (j counter block_len flags : ℕ) → j < N / 4
        → quad_at j d.now ≡ counter % 2 ^ 32 ∷ counter / 2 ^ 32 ∷ block_len ∷ flags ∷ []
        → value_in j result ≡ compress (value_in j h.now) (words_in j m.now) counter block_len flags }
{
    let v = first_state::<S, N>(h, d);
    let v = round::<S, N>(&v, m);
    let m = S::permuted(m);
    let v = round::<S, N>(&v, &m);
    let m = S::permuted(&m);
    let v = round::<S, N>(&v, &m);
    let m = S::permuted(&m);
    let v = round::<S, N>(&v, &m);
    let m = S::permuted(&m);
    let v = round::<S, N>(&v, &m);
    let m = S::permuted(&m);
    let v = round::<S, N>(&v, &m);
    let m = S::permuted(&m);
    let v = round::<S, N>(&v, &m);
    folded(&v)
}

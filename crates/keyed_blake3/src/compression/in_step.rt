//! The round of `L` compressions side by side. Each step works on a whole row, so that the four columns go in step.

ghost use Rattle.std.specs.Prelude.{◌≡◌, ◌<◌, ◌≤◌, ℕ, ◌∷◌, ◌++◌, [], bit_xor, map, slice_index};
ghost use Rattle.std.specs.Int.{rotate_right, w32};
ghost use Rattle.keyed_blake3.specs.Blake3.{add32, round};
ghost use Rattle.keyed_blake3.specs.Steps.Lanes.{lane};
ghost use Rattle.keyed_blake3.specs.Steps.LaneRows.{byte_row_at, from_word, row_at, state_at, words_of_bytes};
ghost use Rattle.keyed_blake3.specs.Steps.Rows.{half_columns};
ghost use lib.Lanes.{zip2};

use crate::compression::lane_rows::{ByteRow, LaneRows, Row};
use crate::compression::width::{LaneBytes, Lanes, Width};

#[inline(always)]
pub(crate) fn row<const L: usize>(
    w0: &Lanes<L>,
    w1: &Lanes<L>,
    w2: &Lanes<L>,
    w3: &Lanes<L>,
) -> Row<L>
    ensures { (j : ℕ) → row_at j result
        ≡ slice_index w0.now j ∷ slice_index w1.now j ∷ slice_index w2.now j ∷ slice_index w3.now j ∷ [] }
{
    Row {
        w0: *w0,
        w1: *w1,
        w2: *w2,
        w3: *w3,
    }
}

#[inline(always)]
fn sum<W: Width<L, B>, const L: usize, const B: usize>(x: &Row<L>, y: &Row<L>) -> Row<L>
    ensures { (j : ℕ) → j < L → row_at j result ≡ zip2 add32 (row_at j x.now) (row_at j y.now) }
{
    Row {
        w0: W::sum(&x.w0, &y.w0),
        w1: W::sum(&x.w1, &y.w1),
        w2: W::sum(&x.w2, &y.w2),
        w3: W::sum(&x.w3, &y.w3),
    }
}

#[inline(always)]
pub(crate) fn xor<W: Width<L, B>, const L: usize, const B: usize>(x: &Row<L>, y: &Row<L>) -> Row<L>
    ensures { (j : ℕ) → j < L → row_at j result ≡ zip2 bit_xor (row_at j x.now) (row_at j y.now) }
{
    Row {
        w0: W::xor(&x.w0, &y.w0),
        w1: W::xor(&x.w1, &y.w1),
        w2: W::xor(&x.w2, &y.w2),
        w3: W::xor(&x.w3, &y.w3),
    }
}

// Rotates each word to the right.
#[inline(always)]
fn rotated_row<W: Width<L, B>, const L: usize, const B: usize>(x: &Row<L>, n: u32) -> Row<L>
    requires low { 1 ≤ n }
    requires high { n < 32 }
    ensures { (j : ℕ) → j < L → row_at j result ≡ map (λ y. rotate_right w32 y n) (row_at j x.now) }
{
    Row {
        w0: W::rotated(&x.w0, n),
        w1: W::rotated(&x.w1, n),
        w2: W::rotated(&x.w2, n),
        w3: W::rotated(&x.w3, n),
    }
}

#[inline(always)]
pub(crate) fn byte_row<W: Width<L, B>, const L: usize, const B: usize>(x: &Row<L>) -> ByteRow<B>
    ensures { (j : ℕ) → byte_row_at L j result ≡ row_at j x.now }
{
    ByteRow {
        w0: W::bytes_of(&x.w0),
        w1: W::bytes_of(&x.w1),
        w2: W::bytes_of(&x.w2),
        w3: W::bytes_of(&x.w3),
    }
}

#[inline(always)]
pub(crate) fn word_row<W: Width<L, B>, const L: usize, const B: usize>(x: &ByteRow<B>) -> Row<L>
    ensures { (j : ℕ) → row_at j result ≡ byte_row_at L j x.now }
{
    Row {
        w0: W::words_of(&x.w0),
        w1: W::words_of(&x.w1),
        w2: W::words_of(&x.w2),
        w3: W::words_of(&x.w3),
    }
}

// Rotates each word to the right.
#[inline(always)]
fn rotated_bytes<W: Width<L, B>, const L: usize, const B: usize>(
    x: &LaneBytes<B>,
    n: u32,
) -> LaneBytes<B>
    requires low { 1 ≤ n }
    requires high { n < 32 }
    ensures { words_of_bytes L result ≡ map (λ y. rotate_right w32 y n) (words_of_bytes L x.now) }
{
    match n {
        16 => W::rotated_by_16(x),
        8 => W::rotated_by_8(x),
        _ => W::bytes_of(&W::rotated(&W::words_of(x), n)),
    }
}

// Xors each word of `x` with one of `y`, and rotates it to the right.
#[inline(always)]
fn rotated_xor<W: Width<L, B>, const L: usize, const B: usize>(
    x: &LaneBytes<B>,
    y: &Lanes<L>,
    n: u32,
) -> LaneBytes<B>
    requires low { 1 ≤ n }
    requires high { n < 32 }
    ensures { words_of_bytes L result ≡ map (λ t. rotate_right w32 t n) (zip2 bit_xor (words_of_bytes L x.now) y.now) }
{
    rotated_bytes::<W, L, B>(&W::xor_bytes(x, &W::bytes_of(y)), n)
}

// Xors each word of `x` with one of `y`, and rotates it to the right.
#[inline(always)]
fn rotated_xor_row<W: Width<L, B>, const L: usize, const B: usize>(
    x: &ByteRow<B>,
    y: &Row<L>,
    n: u32,
) -> ByteRow<B>
    requires low { 1 ≤ n }
    requires high { n < 32 }
    ensures { (j : ℕ) → j < L
        → byte_row_at L j result ≡ map (λ t. rotate_right w32 t n) (zip2 bit_xor (byte_row_at L j x.now) (row_at j y.now)) }
{
    ByteRow {
        w0: rotated_xor::<W, L, B>(&x.w0, &y.w0, n),
        w1: rotated_xor::<W, L, B>(&x.w1, &y.w1, n),
        w2: rotated_xor::<W, L, B>(&x.w2, &y.w2, n),
        w3: rotated_xor::<W, L, B>(&x.w3, &y.w3, n),
    }
}

// Does half of G on each column: a message word for each, and two rotations.
#[inline(always)]
fn half_columns<W: Width<L, B>, const L: usize, const B: usize>(
    v: &LaneRows<L, B>,
    x: &Row<L>,
    r: u32,
    s: u32,
) -> LaneRows<L, B>
    requires r_low { 1 ≤ r }
    requires r_high { r < 32 }
    requires s_low { 1 ≤ s }
    requires s_high { s < 32 }
    ensures { (j : ℕ) → j < L → state_at j result ≡ half_columns (state_at j v.now) (row_at j x.now) r s }
{
    let a = sum::<W, L, B>(&sum::<W, L, B>(&v.a, &v.b), x);
    let d = rotated_xor_row::<W, L, B>(&v.d, &a, r);
    let c = sum::<W, L, B>(&v.c, &word_row::<W, L, B>(&d));
    let b = rotated_row::<W, L, B>(&xor::<W, L, B>(&v.b, &c), s);
    LaneRows { a, b, c, d }
}

// Turns the rows of each state so that its diagonals stand as columns.
#[inline(always)]
fn turned<const L: usize, const B: usize>(v: &LaneRows<L, B>) -> LaneRows<L, B>
    ensures { (j : ℕ) → state_at j result ≡ from_word 3 (row_at j v.now.a) ++ row_at j v.now.b
        ++ from_word 1 (row_at j v.now.c) ++ from_word 2 (byte_row_at L j v.now.d) }
{
    LaneRows {
        a: row(&v.a.w3, &v.a.w0, &v.a.w1, &v.a.w2),
        b: row(&v.b.w0, &v.b.w1, &v.b.w2, &v.b.w3),
        c: row(&v.c.w1, &v.c.w2, &v.c.w3, &v.c.w0),
        d: ByteRow {
            w0: v.d.w2,
            w1: v.d.w3,
            w2: v.d.w0,
            w3: v.d.w1,
        },
    }
}

// Turns them back.
#[inline(always)]
fn turned_back<const L: usize, const B: usize>(v: &LaneRows<L, B>) -> LaneRows<L, B>
    ensures { (j : ℕ) → state_at j result ≡ from_word 1 (row_at j v.now.a) ++ row_at j v.now.b
        ++ from_word 3 (row_at j v.now.c) ++ from_word 2 (byte_row_at L j v.now.d) }
{
    LaneRows {
        a: row(&v.a.w1, &v.a.w2, &v.a.w3, &v.a.w0),
        b: row(&v.b.w0, &v.b.w1, &v.b.w2, &v.b.w3),
        c: row(&v.c.w3, &v.c.w0, &v.c.w1, &v.c.w2),
        d: ByteRow {
            w0: v.d.w2,
            w1: v.d.w3,
            w2: v.d.w0,
            w3: v.d.w1,
        },
    }
}

// Does one round of each state: G on the columns, then on the diagonals, which are turned to stand as columns.
#[inline(always)]
pub(crate) fn round<W: Width<L, B>, const L: usize, const B: usize>(
    v: &LaneRows<L, B>,
    m: &[Lanes<L>; 16],
) -> LaneRows<L, B>
    ensures { (j : ℕ) → j < L → state_at j result ≡ round (state_at j v.now) (lane j m.now) }
{
    let v = half_columns::<W, L, B>(v, &row(&m[0], &m[2], &m[4], &m[6]), 16, 12);
    let v = half_columns::<W, L, B>(&v, &row(&m[1], &m[3], &m[5], &m[7]), 8, 7);
    let v = turned(&v);
    let v = half_columns::<W, L, B>(&v, &row(&m[14], &m[8], &m[10], &m[12]), 16, 12);
    let v = half_columns::<W, L, B>(&v, &row(&m[15], &m[9], &m[11], &m[13]), 8, 7);
    turned_back(&v)
}

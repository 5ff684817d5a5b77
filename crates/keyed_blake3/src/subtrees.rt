//! The chaining values of subtrees of one size, side by side (BLAKE3 specification, 2.5): lane j belongs to subtree j.

ghost use Rattle.std.specs.Prelude.{◌≡◌, ℕ, ◌+◌, ◌*◌, ◌/◌, ◌^◌, ◌<◌, ◌≤◌, ◌++◌, List, drop, length, slice_index, take};
ghost use Rattle.keyed_blake3.specs.Blake3.{chunk_value, compress, keyed_hash_flag, parent_flag, parent_value};
ghost use Rattle.keyed_blake3.specs.declared.compression.width.TheConstants.{WIDEST};
ghost use Rattle.keyed_blake3.specs.Steps.Lanes.{AreFull, beside, lane, value_at};
ghost use Rattle.keyed_blake3.specs.Steps.Rows.{words_in};
ghost use Rattle.keyed_blake3.specs.Steps.Tree.{subtree_at};

use crate::chunk::{BLOCK_LEN, CHUNK_LEN, KEYED_HASH};
use crate::chunks::{chunk_values, key_of_each};
use crate::compression::four::{four_times, lanes_of_values, of_neighbours};
use crate::compression::lanes::{lane, take_in_each};
use crate::compression::rows::{Block, Quads, Rows};
use crate::compression::states::{FourStates, States, compress_all, last_row};
use crate::compression::two::{apart, both, compress_two};
use crate::compression::width::{Lanes, WIDEST, Width, lanes_of};
use crate::four_chunks::four_chunk_values;
use crate::two_chunks::two_chunk_values;

// The domain flag (table 3) of a parent.
pub(crate) const PARENT: u32 = 4;

// Returns the messages of parents: the values of two neighbours each.
#[inline(always)]
fn pair_of_each<W: Width<L, B>, const L: usize, const B: usize>(
    left: &[Lanes<L>; 8],
    right: &[Lanes<L>; 8],
) -> [Lanes<L>; 16]
    requires left { AreFull L left.now }
    requires right { AreFull L right.now }
    ensures { (j : ℕ) → j < L → lane j result
        ≡ lane (2 * j) (beside left.now right.now) ++ lane (2 * j + 1) (beside left.now right.now) }
{
    let (x0, y0) = W::apart(&left[0], &right[0]);
    let (x1, y1) = W::apart(&left[1], &right[1]);
    let (x2, y2) = W::apart(&left[2], &right[2]);
    let (x3, y3) = W::apart(&left[3], &right[3]);
    let (x4, y4) = W::apart(&left[4], &right[4]);
    let (x5, y5) = W::apart(&left[5], &right[5]);
    let (x6, y6) = W::apart(&left[6], &right[6]);
    let (x7, y7) = W::apart(&left[7], &right[7]);
    [
        x0, x1, x2, x3, x4, x5, x6, x7, y0, y1, y2, y3, y4, y5, y6, y7,
    ]
}

// Returns the values of parents from their messages: the values of two subtrees each.
fn values_of_parents<W: Width<L, B>, const L: usize, const B: usize>(
    key: &[u32; 8],
    messages: &[Lanes<L>; 16],
) -> [Lanes<L>; 8]
    ensures full { AreFull L result }
    ensures lanes { (j : ℕ) → j < L → lane j result
        ≡ compress key.now (lane j messages.now) 0 64 (keyed_hash_flag + parent_flag) }
{
    let lens = W::each(BLOCK_LEN as u32);
    let flags = W::each(KEYED_HASH + PARENT);
    let mut values = key_of_each::<W, L, B>(key);
    take_in_each::<W, L, B>(&mut values, messages, &lens, &flags);
    values
}

// Returns the values of the parents of `2 * L` subtrees, of which `left` has the first half.
fn parent_values<W: Width<L, B>, const L: usize, const B: usize>(
    key: &[u32; 8],
    left: &[Lanes<L>; 8],
    right: &[Lanes<L>; 8],
) -> [Lanes<L>; 8]
    requires left { AreFull L left.now }
    requires right { AreFull L right.now }
    ensures sizes { (length left.now ≡ 8) × (length right.now ≡ 8) }
    ensures full { AreFull L result }
    ensures lanes { (j : ℕ) → j < L → lane j result ≡ parent_value key.now
        (lane (2 * j) (beside left.now right.now)) (lane (2 * j + 1) (beside left.now right.now)) 0 }
{
    values_of_parents::<W, L, B>(key, &pair_of_each::<W, L, B>(left, right))
}

// Returns the places of chunks that follow each other, 0 to `last`. Lanes that are left over take the last one again.
pub(crate) fn neighbours<const L: usize>(last: usize) -> [usize; L]
    ensures { (j : ℕ) → j < L → (slice_index result j ≤ last) × (j ≤ last → slice_index result j ≡ j) }
{
    let mut places = [0; L];
    'places: for j in 0..L {
        places[j] = j.min(last);
    }
    places
}

// Returns the places that are `by` chunks further on.
fn moved<const L: usize>(places: &[usize; L], by: usize) -> [usize; L]
    requires { (j : ℕ) → j < L → slice_index places.now j + by < 2 ^ 64 }
    ensures { (j : ℕ) → j < L → slice_index result j ≡ slice_index places.now j + by }
{
    let mut next = [0; L];
    'places: for j in 0..L {
        next[j] = places[j] + by;
    }
    next
}

// Returns the values of `L` subtrees of `size` chunks that follow each other. The first one begins at place `place` of some chunks, of
// which the first has number `first`. The chunks are taken in their order, `L` at a time, as they lie in memory: rows that are a multiple
// of 4 KiB apart would share a few lines of the nearest cache.
fn neighbour_values<W: Width<L, B>, const L: usize, const B: usize>(
    key: &[u32; 8],
    chunks: &[u8],
    place: usize,
    size: usize,
    first: u64,
) -> [Lanes<L>; 8]
    requires some { 0 < size }
    requires counter { first + length chunks.now / 1024 < 2 ^ 64 }
    requires chunks { 1024 * (place + size * L) ≤ length chunks.now }
    ensures full { AreFull L result }
    ensures lanes { (k j : ℕ) (m : List ℕ) → size ≡ 2 ^ k → j < L
        → chunks.now ≡ take (length chunks.now) (drop (1024 * first) m)
        → lane j result ≡ subtree_at key.now k (first + (place + size * j)) m }
{
    if size == 1 {
        return chunk_values::<W, L, B>(key, chunks, &moved(&neighbours(L - 1), place), first);
    }
    let half = size / 2;
    let left = neighbour_values::<W, L, B>(key, chunks, place, half, first);
    let right = neighbour_values::<W, L, B>(key, chunks, place + half * L, half, first);
    parent_values::<W, L, B>(key, &left, &right)
}

// Returns a vector's first two lanes: two words, and zeros.
#[inline(always)]
fn of_two<W: Width<L, B>, const L: usize, const B: usize>(x: u32, y: u32) -> Lanes<L>
    ensures full { length result ≡ L }
    ensures lanes { (slice_index result 0 ≡ x) × (slice_index result 1 ≡ y) }
{
    let mut words = [0u32; L];
    words[0] = x;
    words[1] = y;
    words
}

// Returns vectors of the words of two values, in the first two lanes.
#[inline(always)]
fn lanes_of_two<W: Width<L, B>, const L: usize, const B: usize>(
    x: &[u32; 8],
    y: &[u32; 8],
) -> [Lanes<L>; 8]
    ensures full { AreFull L result }
    ensures first { lane 0 result ≡ x.now }
    ensures second { lane 1 result ≡ y.now }
{
    [
        of_two::<W, L, B>(x[0], y[0]),
        of_two::<W, L, B>(x[1], y[1]),
        of_two::<W, L, B>(x[2], y[2]),
        of_two::<W, L, B>(x[3], y[3]),
        of_two::<W, L, B>(x[4], y[4]),
        of_two::<W, L, B>(x[5], y[5]),
        of_two::<W, L, B>(x[6], y[6]),
        of_two::<W, L, B>(x[7], y[7]),
    ]
}

// Returns a vector whose first four lanes these are, and zeros.
#[inline(always)]
fn of_four<W: Width<L, B>, const L: usize, const B: usize>(x: &Lanes<4>) -> Lanes<L>
    ensures full { length result ≡ L }
    ensures lanes { (j : ℕ) → j < 4 → slice_index result j ≡ slice_index x.now j }
{
    let mut words = [0u32; L];
    words[..4].copy_from_slice(x);
    words
}

// Returns vectors whose first four lanes these are.
#[inline(always)]
fn lanes_of_four<W: Width<L, B>, const L: usize, const B: usize>(x: &[Lanes<4>; 8]) -> [Lanes<L>; 8]
    requires { AreFull 4 x.now }
    ensures full { AreFull L result }
    ensures lanes { (j : ℕ) → j < 4 → lane j result ≡ lane j x.now }
{
    [
        of_four::<W, L, B>(&x[0]),
        of_four::<W, L, B>(&x[1]),
        of_four::<W, L, B>(&x[2]),
        of_four::<W, L, B>(&x[3]),
        of_four::<W, L, B>(&x[4]),
        of_four::<W, L, B>(&x[5]),
        of_four::<W, L, B>(&x[6]),
        of_four::<W, L, B>(&x[7]),
    ]
}

// Returns the values of two chunks, in the first two lanes. The first one has number `first`.
fn values_of_two<W: Width<L, B>, const L: usize, const B: usize>(
    key: &[u32; 8],
    chunks: &[u8],
    first: u64,
) -> [Lanes<L>; 8]
    requires counter { first + 1 < 2 ^ 64 }
    requires chunks { length chunks.now ≡ 2048 }
    ensures full { AreFull L result }
    ensures lanes { (j : ℕ) → j < 2 → lane j result ≡ value_at key.now first chunks.now j }
{
    let (left, right) = chunks.split_at(CHUNK_LEN);
    let (x, y) = two_chunk_values(key, left, right, (first, first + 1), 0);
    lanes_of_two::<W, L, B>(&x, &y)
}

// Returns the values of up to four chunks, in the first lanes. The first one has number `first`.
fn values_of_four<W: Width<L, B>, const L: usize, const B: usize>(
    key: &[u32; 8],
    chunks: &[u8],
    first: u64,
) -> [Lanes<L>; 8]
    requires counter { first + 4 < 2 ^ 64 }
    requires chunks { (1024 ≤ length chunks.now) × (length chunks.now ≤ 4096) }
    ensures full { AreFull L result }
    ensures lanes { (j : ℕ) → 1024 * j + 1024 ≤ length chunks.now → lane j result ≡ value_at key.now first chunks.now j }
{
    let places = neighbours(chunks.len() / CHUNK_LEN - 1);
    lanes_of_four::<W, L, B>(&four_chunk_values(key, chunks, &places, first))
}

// Returns the values of up to `L` subtrees of one size, of which the first begins with chunk number `first`. If
// there are fewer than `L`, each is a chunk.
pub(crate) fn subtree_values<W: Width<L, B>, const L: usize, const B: usize>(
    key: &[u32; 8],
    chunks: &[u8],
    first: u64,
) -> [Lanes<L>; 8]
    requires counter { first + length chunks.now / 1024 + L ≤ 2 ^ 64 }
    requires chunks { 1024 ≤ length chunks.now }
    requires narrow { L < WIDEST → length chunks.now ≤ 1024 * L }
    ensures full { AreFull L result }
    ensures lanes { (k n j : ℕ) (m : List ℕ) → length chunks.now ≡ 1024 * (2 ^ k * n) → n ≤ L
        → (0 < k → n ≡ L) → chunks.now ≡ take (length chunks.now) (drop (1024 * first) m) → j < n
        → lane j result ≡ subtree_at key.now k (first + 2 ^ k * j) m }
{
    if chunks.len() == 2 * CHUNK_LEN {
        return values_of_two::<W, L, B>(key, chunks, first);
    }
    if L == 4 && L < WIDEST {
        return values_of_four::<W, L, B>(key, chunks, first);
    }
    if L < WIDEST || chunks.len() <= CHUNK_LEN * L {
        let places = neighbours(chunks.len() / CHUNK_LEN - 1);
        return chunk_values::<W, L, B>(key, chunks, &places, first);
    }
    let len = chunks.len() / (CHUNK_LEN * L);
    neighbour_values::<W, L, B>(key, chunks, 0, len, first)
}

// Returns the block of a parent: the values of its two subtrees (2.5).
#[inline(always)]
fn parent_block(left: &[u32; 8], right: &[u32; 8]) -> Block
    ensures words { result.words ≡ left.now ++ right.now }
    ensures counter { result.counter ≡ 0 }
    ensures len { result.len ≡ 64 }
    ensures flags { result.flags ≡ keyed_hash_flag + parent_flag }
{
    let mut words = [0u32; 16];
    words[..8].copy_from_slice(left);
    words[8..].copy_from_slice(right);
    Block {
        words,
        counter: 0,
        len: BLOCK_LEN as u32,
        flags: KEYED_HASH + PARENT,
    }
}

// Returns the values of the parents of four subtrees, in the first two lanes.
fn two_parent_values<W: Width<L, B>, const L: usize, const B: usize>(
    key: &[u32; 8],
    values: &[Lanes<L>; 8],
) -> [Lanes<L>; 8]
    requires { AreFull L values.now }
    ensures full { AreFull L result }
    ensures lanes { (j : ℕ) → j < 2 → lane j result
        ≡ parent_value key.now (lane (2 * j) values.now) (lane (2 * j + 1) values.now) 0 }
{
    let first = parent_block(&lane(values, 0), &lane(values, 1));
    let second = parent_block(&lane(values, 2), &lane(values, 3));
    let (x, y) = apart(&compress_two(&both(key, key), &first, &second));
    lanes_of_two::<W, L, B>(&x, &y)
}

// Returns the blocks of the parents of eight subtrees (2.5).
#[inline(always)]
fn parent_blocks<W: Width<L, B>, const L: usize, const B: usize>(
    values: &[Lanes<L>; 8],
) -> Quads<16>
    requires lanes { 8 ≤ L }
    requires full { AreFull L values.now }
    ensures { (j : ℕ) → j < 4 → words_in j result ≡ lane (2 * j) values.now ++ lane (2 * j + 1) values.now }
{
    let (a, c) = of_neighbours(&values[0], &values[1], &values[2], &values[3]);
    let (b, d) = of_neighbours(&values[4], &values[5], &values[6], &values[7]);
    FourStates::quads(&Rows {
        a: lanes_of(a),
        b: lanes_of(b),
        c: lanes_of(c),
        d: lanes_of(d),
    })
}

// Returns the values of the parents of eight subtrees, by the four of which each lane has one.
#[inline(never)]
fn four_parent_values<W: Width<L, B>, const L: usize, const B: usize>(
    key: &[u32; 8],
    values: &[Lanes<L>; 8],
) -> [Lanes<4>; 8]
    requires lanes { 8 ≤ L }
    requires full { AreFull L values.now }
    ensures full { AreFull 4 result }
    ensures lanes { (j : ℕ) → j < 4 → lane j result
        ≡ parent_value key.now (lane (2 * j) values.now) (lane (2 * j + 1) values.now) 0 }
{
    let m = parent_blocks::<W, L, B>(values);
    let d = FourStates::each(last_row(0, BLOCK_LEN as u32, KEYED_HASH + PARENT));
    lanes_of_values(&compress_all::<FourStates, 16, L>(&four_times(key), &d, &m))
}

// Returns the values of the parents of the first `count` subtrees, two for each. Four parents at once take the longest vectors, which
// slow the clock of some processors: so they do only where the lanes take these, too.
fn joined_values<W: Width<L, B>, const L: usize, const B: usize>(
    key: &[u32; 8],
    values: &[Lanes<L>; 8],
    count: usize,
) -> [Lanes<L>; 8]
    requires count { count ≤ L }
    requires full { AreFull L values.now }
    ensures full { AreFull L result }
    ensures lanes { (j : ℕ) → 2 * j + 1 < count → lane j result
        ≡ parent_value key.now (lane (2 * j) values.now) (lane (2 * j + 1) values.now) 0 }
{
    if L == 4 || count <= 4 {
        return two_parent_values::<W, L, B>(key, values);
    }
    if L >= 8 && L >= WIDEST && count <= 8 {
        return lanes_of_four::<W, L, B>(&four_parent_values::<W, L, B>(key, values));
    }
    parent_values::<W, L, B>(key, values, values)
}

// Joins neighbouring subtrees of one size side by side, level by level, while more than two are left and each has its
// sibling among them. `values` has their values, `count` is how many they are, and `number` is that of the first. Returns
// the number of the first subtree that is left, and how many are.
pub(crate) fn join_in_pairs<W: Width<L, B>, const L: usize, const B: usize>(
    key: &[u32; 8],
    number: u64,
    count: usize,
    values: &mut [Lanes<L>; 8],
) -> (u64, usize)
    requires some { 1 < count }
    requires count { count ≤ L }
    requires full { AreFull L values.old }
    requires number { number + count < 2 ^ 54 }
    ensures some { 1 < result.1 }
    ensures count { result.1 ≤ count }
    ensures number { result.0 + result.1 ≤ number + count }
    ensures full { AreFull L values.new }
    ensures lanes { (k c : ℕ) (m : List ℕ) → c ≡ 2 ^ k * number → 1024 * (c + 2 ^ k * count) ≤ length m
        → ((j : ℕ) → j < count → lane j values.old ≡ subtree_at key.now k (c + 2 ^ k * j) m)
        → (level : ℕ) × (c ≡ 2 ^ level * result.0) × (2 ^ k * count ≡ 2 ^ level * result.1)
        × ((j : ℕ) → j < result.1 → lane j values.new ≡ subtree_at key.now level (c + 2 ^ level * j) m) }
{
    let mut number = number;
    let mut count = count;
    'levels: while count > 2 && count % 2 == 0 && number % 2 == 0 {
        *values = joined_values::<W, L, B>(key, values, count);
        number /= 2;
        count /= 2;
    }
    (number, count)
}

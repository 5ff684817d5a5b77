//! Four chaining values at once, and the message words of four blocks, as vectors of sixteen words.

ghost use Rattle.std.specs.Prelude.{◌≡◌, ℕ, ◌<◌, ◌≤◌, ◌*◌, ◌+◌, ◌++◌, [], ◌∷◌, length, slice_index};
ghost use Rattle.keyed_blake3.specs.Steps.Lanes.{AreFull, lane};
ghost use Rattle.keyed_blake3.specs.Steps.Rows.{quad_at, value_in};

use crate::compression::rows::Values;
use crate::compression::states::{FourStates, States};
use crate::compression::width::{Lanes, lanes_of, vector};
use std::simd::prelude::*;

// Returns a vector of the words of all four.
#[inline(always)]
pub(crate) fn beside(first: u32x4, second: u32x4, third: u32x4, fourth: u32x4) -> u32x16
    ensures full { length result ≡ 16 }
    ensures words { result ≡ first ++ second ++ third ++ fourth }
{
    let x = first.shuffle(second, [0, 1, 2, 3, 4, 5, 6, 7]);
    let y = third.shuffle(fourth, [0, 1, 2, 3, 4, 5, 6, 7]);
    x.shuffle(y, [0, 1, 2, 3, 4, 5, 6, 7, 8, 9, 10, 11, 12, 13, 14, 15])
}

// Returns the vectors of the same chaining value four times.
#[inline(always)]
pub(crate) fn four_times(h: &[u32; 8]) -> Values<16>
    ensures { (j : ℕ) → j < 4 → value_in j result ≡ h.now }
{
    Values {
        a: FourStates::each(u32x4::from_slice(&h[..4])),
        b: FourStates::each(u32x4::from_slice(&h[4..])),
    }
}

// Returns the words of lanes 0, 2, 4 and 6 of four vectors, those of each lane side by side, and those of lanes 1, 3, 5 and 7.
#[inline(always)]
pub(crate) fn of_neighbours<const L: usize>(
    w0: &Lanes<L>,
    w1: &Lanes<L>,
    w2: &Lanes<L>,
    w3: &Lanes<L>,
) -> (u32x16, u32x16)
    requires lanes { 8 ≤ L }
    requires full { (length w0.now ≡ L) × (length w1.now ≡ L) × (length w2.now ≡ L) × (length w3.now ≡ L) }
    ensures full { (length result.0 ≡ 16) × (length result.1 ≡ 16) }
    ensures even { (j : ℕ) → j < 4 → quad_at j result.0 ≡ slice_index w0.now (2 * j) ∷ slice_index w1.now (2 * j)
        ∷ slice_index w2.now (2 * j) ∷ slice_index w3.now (2 * j) ∷ [] }
    ensures odd { (j : ℕ) → j < 4 → quad_at j result.1 ≡ slice_index w0.now (2 * j + 1) ∷ slice_index w1.now (2 * j + 1)
        ∷ slice_index w2.now (2 * j + 1) ∷ slice_index w3.now (2 * j + 1) ∷ [] }
{
    let a = u32x8::from_slice(&w0[..8]);
    let b = u32x8::from_slice(&w1[..8]);
    let c = u32x8::from_slice(&w2[..8]);
    let d = u32x8::from_slice(&w3[..8]);
    let x = a.shuffle(b, [0, 8, 2, 10, 4, 12, 6, 14, 1, 9, 3, 11, 5, 13, 7, 15]);
    let y = c.shuffle(d, [0, 8, 2, 10, 4, 12, 6, 14, 1, 9, 3, 11, 5, 13, 7, 15]);
    (
        x.shuffle(y, [0, 1, 16, 17, 2, 3, 18, 19, 4, 5, 20, 21, 6, 7, 22, 23]),
        x.shuffle(
            y,
            [8, 9, 24, 25, 10, 11, 26, 27, 12, 13, 28, 29, 14, 15, 30, 31],
        ),
    )
}

// Returns the four chaining values of vectors, side by side.
#[inline(always)]
pub(crate) fn lanes_of_values(h: &Values<16>) -> [Lanes<4>; 8]
    ensures full { AreFull 4 result }
    ensures lanes { (j : ℕ) → j < 4 → lane j result ≡ value_in j h.now }
{
    let a = vector(&h.a).swizzle([0, 4, 8, 12, 1, 5, 9, 13, 2, 6, 10, 14, 3, 7, 11, 15]);
    let b = vector(&h.b).swizzle([0, 4, 8, 12, 1, 5, 9, 13, 2, 6, 10, 14, 3, 7, 11, 15]);
    [
        lanes_of(a.extract::<0, 4>()),
        lanes_of(a.extract::<4, 4>()),
        lanes_of(a.extract::<8, 4>()),
        lanes_of(a.extract::<12, 4>()),
        lanes_of(b.extract::<0, 4>()),
        lanes_of(b.extract::<4, 4>()),
        lanes_of(b.extract::<8, 4>()),
        lanes_of(b.extract::<12, 4>()),
    ]
}

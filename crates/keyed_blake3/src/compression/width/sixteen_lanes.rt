//! Sixteen lanes.

ghost use Rattle.std.proofs.Common.{rules};
ghost use Rattle.std.specs.Prelude.{◌≡◌, ◌+◌, ◌++◌};
ghost use Rattle.keyed_blake3.specs.Steps.Transposition.{by_turns, by_twos, halves, picked, quarters};

use crate::compression::states::rotated;
use crate::compression::width::{
    Eight, LaneBytes, Lanes, Sixteen, Width, byte_vector, bytes, lanes_of, vector,
};
use std::simd::prelude::*;

// Returns words of two vectors, one of each by turns: the first two of each quarter, and the last two.
#[inline(always)]
fn by_turns(a: u32x16, b: u32x16) -> (u32x16, u32x16)
    ensures { (result.0 ≡ picked by_turns (a ++ b)) × (result.1 ≡ picked (λ k. by_turns k + 2) (a ++ b)) }
{
    (
        a.shuffle(
            b,
            [0, 16, 1, 17, 4, 20, 5, 21, 8, 24, 9, 25, 12, 28, 13, 29],
        ),
        a.shuffle(
            b,
            [2, 18, 3, 19, 6, 22, 7, 23, 10, 26, 11, 27, 14, 30, 15, 31],
        ),
    )
}

// Returns the same words, two of each by turns.
#[inline(always)]
fn by_twos(a: u32x16, b: u32x16) -> (u32x16, u32x16)
    ensures { (result.0 ≡ picked by_twos (a ++ b)) × (result.1 ≡ picked (λ k. by_twos k + 2) (a ++ b)) }
{
    (
        a.shuffle(
            b,
            [0, 1, 16, 17, 4, 5, 20, 21, 8, 9, 24, 25, 12, 13, 28, 29],
        ),
        a.shuffle(
            b,
            [2, 3, 18, 19, 6, 7, 22, 23, 10, 11, 26, 27, 14, 15, 30, 31],
        ),
    )
}

// Returns the quarters at even places of the two together, and those at odd places.
#[inline(always)]
fn quarters(a: u32x16, b: u32x16) -> (u32x16, u32x16)
    ensures { (result.0 ≡ picked quarters (a ++ b)) × (result.1 ≡ picked (λ k. quarters k + 4) (a ++ b)) }
{
    (
        a.shuffle(
            b,
            [0, 1, 2, 3, 8, 9, 10, 11, 16, 17, 18, 19, 24, 25, 26, 27],
        ),
        a.shuffle(
            b,
            [4, 5, 6, 7, 12, 13, 14, 15, 20, 21, 22, 23, 28, 29, 30, 31],
        ),
    )
}

// Returns the first halves of two vectors, and the last halves.
#[inline(always)]
fn halves(a: u32x16, b: u32x16) -> (u32x16, u32x16)
    ensures { (result.0 ≡ picked halves (a ++ b)) × (result.1 ≡ picked (λ k. halves k + 8) (a ++ b)) }
{
    (
        a.shuffle(b, [0, 1, 2, 3, 4, 5, 6, 7, 16, 17, 18, 19, 20, 21, 22, 23]),
        a.shuffle(
            b,
            [8, 9, 10, 11, 12, 13, 14, 15, 24, 25, 26, 27, 28, 29, 30, 31],
        ),
    )
}

impl Width<16, 64> for Sixteen {
    #[inline(always)]
    fn each(x: u32) -> Lanes<16> {
        lanes_of(Simd::splat(x))
    }

    #[inline(always)]
    fn sum(x: &Lanes<16>, y: &Lanes<16>) -> Lanes<16> {
        lanes_of(vector(x) + vector(y))
    }

    #[inline(always)]
    fn xor(x: &Lanes<16>, y: &Lanes<16>) -> Lanes<16> {
        lanes_of(vector(x) ^ vector(y))
    }

    #[inline(always)]
    fn rotated(x: &Lanes<16>, n: u32) -> Lanes<16> {
        lanes_of(rotated(vector(x), n))
    }

    #[inline(always)]
    fn bytes_of(x: &Lanes<16>) -> LaneBytes<64> {
        bytes(vector(x).to_le_bytes())
    }

    #[inline(always)]
    fn words_of(x: &LaneBytes<64>) -> Lanes<16> {
        lanes_of(u32x16::from_le_bytes(byte_vector(x)))
    }

    #[inline(always)]
    fn xor_bytes(x: &LaneBytes<64>, y: &LaneBytes<64>) -> LaneBytes<64> {
        bytes(byte_vector(x) ^ byte_vector(y))
    }

    #[inline(always)]
    fn rotated_by_16(x: &LaneBytes<64>) -> LaneBytes<64> {
        bytes(byte_vector(x).swizzle([
            2, 3, 0, 1, 6, 7, 4, 5, 10, 11, 8, 9, 14, 15, 12, 13, 18, 19, 16, 17, 22, 23, 20, 21,
            26, 27, 24, 25, 30, 31, 28, 29, 34, 35, 32, 33, 38, 39, 36, 37, 42, 43, 40, 41, 46, 47,
            44, 45, 50, 51, 48, 49, 54, 55, 52, 53, 58, 59, 56, 57, 62, 63, 60, 61,
        ]))
    }

    #[inline(always)]
    fn rotated_by_8(x: &LaneBytes<64>) -> LaneBytes<64> {
        bytes(byte_vector(x).swizzle([
            1, 2, 3, 0, 5, 6, 7, 4, 9, 10, 11, 8, 13, 14, 15, 12, 17, 18, 19, 16, 21, 22, 23, 20,
            25, 26, 27, 24, 29, 30, 31, 28, 33, 34, 35, 32, 37, 38, 39, 36, 41, 42, 43, 40, 45, 46,
            47, 44, 49, 50, 51, 48, 53, 54, 55, 52, 57, 58, 59, 56, 61, 62, 63, 60,
        ]))
    }

    #[inline(always)]
    fn row(bytes: &[u8]) -> Lanes<16> {
        // Each half is a load of its own. So `halves` has none to take apart, and the second of two halves is loaded into its place.
        let low = vector(&Eight::row(bytes));
        let high = vector(&Eight::row(&bytes[32..]));
        lanes_of(low.shuffle(high, [0, 1, 2, 3, 4, 5, 6, 7, 8, 9, 10, 11, 12, 13, 14, 15]))
    }

    #[inline(always)]
    fn transposed(rows: &[Lanes<16>; 16]) -> [Lanes<16>; 16] {
        let (a0, b0) = halves(vector(&rows[0]), vector(&rows[4]));
        let (a1, b1) = halves(vector(&rows[1]), vector(&rows[5]));
        let (a2, b2) = halves(vector(&rows[2]), vector(&rows[6]));
        let (a3, b3) = halves(vector(&rows[3]), vector(&rows[7]));
        let (c0, d0) = halves(vector(&rows[8]), vector(&rows[12]));
        let (c1, d1) = halves(vector(&rows[9]), vector(&rows[13]));
        let (c2, d2) = halves(vector(&rows[10]), vector(&rows[14]));
        let (c3, d3) = halves(vector(&rows[11]), vector(&rows[15]));
        let (t0, t1) = by_turns(a0, a1);
        let (t2, t3) = by_turns(a2, a3);
        let (t4, t5) = by_turns(c0, c1);
        let (t6, t7) = by_turns(c2, c3);
        let (t8, t9) = by_turns(b0, b1);
        let (t10, t11) = by_turns(b2, b3);
        let (t12, t13) = by_turns(d0, d1);
        let (t14, t15) = by_turns(d2, d3);
        let (u0, u1) = by_twos(t0, t2);
        let (u2, u3) = by_twos(t1, t3);
        let (u4, u5) = by_twos(t4, t6);
        let (u6, u7) = by_twos(t5, t7);
        let (u8, u9) = by_twos(t8, t10);
        let (u10, u11) = by_twos(t9, t11);
        let (u12, u13) = by_twos(t12, t14);
        let (u14, u15) = by_twos(t13, t15);
        let (r0, r4) = quarters(u0, u4);
        let (r1, r5) = quarters(u1, u5);
        let (r2, r6) = quarters(u2, u6);
        let (r3, r7) = quarters(u3, u7);
        let (r8, r12) = quarters(u8, u12);
        let (r9, r13) = quarters(u9, u13);
        let (r10, r14) = quarters(u10, u14);
        let (r11, r15) = quarters(u11, u15);
        [
            lanes_of(r0),
            lanes_of(r1),
            lanes_of(r2),
            lanes_of(r3),
            lanes_of(r4),
            lanes_of(r5),
            lanes_of(r6),
            lanes_of(r7),
            lanes_of(r8),
            lanes_of(r9),
            lanes_of(r10),
            lanes_of(r11),
            lanes_of(r12),
            lanes_of(r13),
            lanes_of(r14),
            lanes_of(r15),
        ]
    }

    #[inline(always)]
    fn apart(left: &Lanes<16>, right: &Lanes<16>) -> (Lanes<16>, Lanes<16>) {
        let (x, y) = vector(left).deinterleave(vector(right));
        (lanes_of(x), lanes_of(y))
    }

    ghost bytes_per_word = { Prim.search rules };

    ghost lanes = { Prim.search rules };
}

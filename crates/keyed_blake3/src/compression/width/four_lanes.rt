//! Four lanes.

ghost use Rattle.std.proofs.Common.{rules};

use crate::compression::states::rotated;
use crate::compression::width::{
    Four, LaneBytes, Lanes, Width, byte_vector, bytes, lanes_of, vector,
};
use std::simd::prelude::*;

impl Width<4, 16> for Four {
    #[inline(always)]
    fn each(x: u32) -> Lanes<4> {
        lanes_of(Simd::splat(x))
    }

    #[inline(always)]
    fn sum(x: &Lanes<4>, y: &Lanes<4>) -> Lanes<4> {
        lanes_of(vector(x) + vector(y))
    }

    #[inline(always)]
    fn xor(x: &Lanes<4>, y: &Lanes<4>) -> Lanes<4> {
        lanes_of(vector(x) ^ vector(y))
    }

    #[inline(always)]
    fn rotated(x: &Lanes<4>, n: u32) -> Lanes<4> {
        lanes_of(rotated(vector(x), n))
    }

    #[inline(always)]
    fn bytes_of(x: &Lanes<4>) -> LaneBytes<16> {
        bytes(vector(x).to_le_bytes())
    }

    #[inline(always)]
    fn words_of(x: &LaneBytes<16>) -> Lanes<4> {
        lanes_of(u32x4::from_le_bytes(byte_vector(x)))
    }

    #[inline(always)]
    fn xor_bytes(x: &LaneBytes<16>, y: &LaneBytes<16>) -> LaneBytes<16> {
        bytes(byte_vector(x) ^ byte_vector(y))
    }

    #[inline(always)]
    fn rotated_by_16(x: &LaneBytes<16>) -> LaneBytes<16> {
        let words = u32x4::from_le_bytes(byte_vector(x));
        bytes(rotated(words, 16).to_le_bytes())
    }

    #[inline(always)]
    fn rotated_by_8(x: &LaneBytes<16>) -> LaneBytes<16> {
        bytes(byte_vector(x).swizzle([1, 2, 3, 0, 5, 6, 7, 4, 9, 10, 11, 8, 13, 14, 15, 12]))
    }

    #[inline(always)]
    fn row(bytes: &[u8]) -> Lanes<4> {
        lanes_of(u32x4::from_le_bytes(u8x16::from_slice(bytes)))
    }

    #[inline(always)]
    fn transposed(rows: &[Lanes<4>; 4]) -> [Lanes<4>; 4] {
        let a = vector(&rows[0]);
        let b = vector(&rows[1]);
        let c = vector(&rows[2]);
        let d = vector(&rows[3]);
        let (a, c) = a.interleave(c);
        let (b, d) = b.interleave(d);
        let (e, f) = a.interleave(b);
        let (g, h) = c.interleave(d);
        [lanes_of(e), lanes_of(f), lanes_of(g), lanes_of(h)]
    }

    #[inline(always)]
    fn apart(left: &Lanes<4>, right: &Lanes<4>) -> (Lanes<4>, Lanes<4>) {
        let (x, y) = vector(left).deinterleave(vector(right));
        (lanes_of(x), lanes_of(y))
    }

    ghost bytes_per_word = { Prim.search rules };

    ghost lanes = { Prim.search rules };
}

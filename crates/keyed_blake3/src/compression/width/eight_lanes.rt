//! Eight lanes.

ghost use Rattle.std.proofs.Common.{rules};

use crate::compression::states::rotated;
use crate::compression::width::{
    Eight, LaneBytes, Lanes, Width, byte_vector, bytes, lanes_of, vector,
};
use std::simd::prelude::*;

impl Width<8, 32> for Eight {
    #[inline(always)]
    fn each(x: u32) -> Lanes<8> {
        lanes_of(Simd::splat(x))
    }

    #[inline(always)]
    fn sum(x: &Lanes<8>, y: &Lanes<8>) -> Lanes<8> {
        lanes_of(vector(x) + vector(y))
    }

    #[inline(always)]
    fn xor(x: &Lanes<8>, y: &Lanes<8>) -> Lanes<8> {
        lanes_of(vector(x) ^ vector(y))
    }

    #[inline(always)]
    fn rotated(x: &Lanes<8>, n: u32) -> Lanes<8> {
        lanes_of(rotated(vector(x), n))
    }

    #[inline(always)]
    fn bytes_of(x: &Lanes<8>) -> LaneBytes<32> {
        bytes(vector(x).to_le_bytes())
    }

    #[inline(always)]
    fn words_of(x: &LaneBytes<32>) -> Lanes<8> {
        lanes_of(u32x8::from_le_bytes(byte_vector(x)))
    }

    #[inline(always)]
    fn xor_bytes(x: &LaneBytes<32>, y: &LaneBytes<32>) -> LaneBytes<32> {
        bytes(byte_vector(x) ^ byte_vector(y))
    }

    #[inline(always)]
    fn rotated_by_16(x: &LaneBytes<32>) -> LaneBytes<32> {
        bytes(byte_vector(x).swizzle([
            2, 3, 0, 1, 6, 7, 4, 5, 10, 11, 8, 9, 14, 15, 12, 13, 18, 19, 16, 17, 22, 23, 20, 21,
            26, 27, 24, 25, 30, 31, 28, 29,
        ]))
    }

    #[inline(always)]
    fn rotated_by_8(x: &LaneBytes<32>) -> LaneBytes<32> {
        bytes(byte_vector(x).swizzle([
            1, 2, 3, 0, 5, 6, 7, 4, 9, 10, 11, 8, 13, 14, 15, 12, 17, 18, 19, 16, 21, 22, 23, 20,
            25, 26, 27, 24, 29, 30, 31, 28,
        ]))
    }

    #[inline(always)]
    fn row(bytes: &[u8]) -> Lanes<8> {
        lanes_of(u32x8::from_le_bytes(u8x32::from_slice(bytes)))
    }

    #[inline(always)]
    fn transposed(rows: &[Lanes<8>; 8]) -> [Lanes<8>; 8] {
        let a = vector(&rows[0]);
        let b = vector(&rows[1]);
        let c = vector(&rows[2]);
        let d = vector(&rows[3]);
        let e = vector(&rows[4]);
        let f = vector(&rows[5]);
        let g = vector(&rows[6]);
        let h = vector(&rows[7]);
        let t0 = a.shuffle(b, [0, 8, 1, 9, 4, 12, 5, 13]);
        let t1 = a.shuffle(b, [2, 10, 3, 11, 6, 14, 7, 15]);
        let t2 = c.shuffle(d, [0, 8, 1, 9, 4, 12, 5, 13]);
        let t3 = c.shuffle(d, [2, 10, 3, 11, 6, 14, 7, 15]);
        let t4 = e.shuffle(f, [0, 8, 1, 9, 4, 12, 5, 13]);
        let t5 = e.shuffle(f, [2, 10, 3, 11, 6, 14, 7, 15]);
        let t6 = g.shuffle(h, [0, 8, 1, 9, 4, 12, 5, 13]);
        let t7 = g.shuffle(h, [2, 10, 3, 11, 6, 14, 7, 15]);
        let u0 = t0.shuffle(t2, [0, 1, 8, 9, 4, 5, 12, 13]);
        let u1 = t0.shuffle(t2, [2, 3, 10, 11, 6, 7, 14, 15]);
        let u2 = t1.shuffle(t3, [0, 1, 8, 9, 4, 5, 12, 13]);
        let u3 = t1.shuffle(t3, [2, 3, 10, 11, 6, 7, 14, 15]);
        let u4 = t4.shuffle(t6, [0, 1, 8, 9, 4, 5, 12, 13]);
        let u5 = t4.shuffle(t6, [2, 3, 10, 11, 6, 7, 14, 15]);
        let u6 = t5.shuffle(t7, [0, 1, 8, 9, 4, 5, 12, 13]);
        let u7 = t5.shuffle(t7, [2, 3, 10, 11, 6, 7, 14, 15]);
        [
            lanes_of(u0.shuffle(u4, [0, 1, 2, 3, 8, 9, 10, 11])),
            lanes_of(u1.shuffle(u5, [0, 1, 2, 3, 8, 9, 10, 11])),
            lanes_of(u2.shuffle(u6, [0, 1, 2, 3, 8, 9, 10, 11])),
            lanes_of(u3.shuffle(u7, [0, 1, 2, 3, 8, 9, 10, 11])),
            lanes_of(u0.shuffle(u4, [4, 5, 6, 7, 12, 13, 14, 15])),
            lanes_of(u1.shuffle(u5, [4, 5, 6, 7, 12, 13, 14, 15])),
            lanes_of(u2.shuffle(u6, [4, 5, 6, 7, 12, 13, 14, 15])),
            lanes_of(u3.shuffle(u7, [4, 5, 6, 7, 12, 13, 14, 15])),
        ]
    }

    #[inline(always)]
    fn apart(left: &Lanes<8>, right: &Lanes<8>) -> (Lanes<8>, Lanes<8>) {
        let (x, y) = vector(left).deinterleave(vector(right));
        (lanes_of(x), lanes_of(y))
    }

    ghost bytes_per_word = { Prim.search rules };

    ghost lanes = { Prim.search rules };
}

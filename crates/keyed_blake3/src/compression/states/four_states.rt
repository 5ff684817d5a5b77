//! Four states.

ghost use Rattle.std.proofs.Common.{rules};

use crate::compression::rows::{Quads, Rows};
use crate::compression::states::{FourStates, States};
use crate::compression::width::{Lanes, lanes_of, vector};
use std::simd::prelude::*;

impl States<16> for FourStates {
    #[inline(always)]
    fn each(quad: u32x4) -> Lanes<16> {
        lanes_of(quad.swizzle([0, 1, 2, 3, 0, 1, 2, 3, 0, 1, 2, 3, 0, 1, 2, 3]))
    }

    #[inline(always)]
    fn quads(m: &Rows<16>) -> Quads<16> {
        let (p, q) = (vector(&m.a), vector(&m.b));
        let (r, s) = (vector(&m.c), vector(&m.d));
        Quads {
            column_first: lanes_of(p.shuffle(
                q,
                [0, 2, 16, 18, 4, 6, 20, 22, 8, 10, 24, 26, 12, 14, 28, 30],
            )),
            column_second: lanes_of(p.shuffle(
                q,
                [1, 3, 17, 19, 5, 7, 21, 23, 9, 11, 25, 27, 13, 15, 29, 31],
            )),
            diagonal_first: lanes_of(r.shuffle(
                s,
                [18, 0, 2, 16, 22, 4, 6, 20, 26, 8, 10, 24, 30, 12, 14, 28],
            )),
            diagonal_second: lanes_of(r.shuffle(
                s,
                [19, 1, 3, 17, 23, 5, 7, 21, 27, 9, 11, 25, 31, 13, 15, 29],
            )),
        }
    }

    #[inline(always)]
    fn permuted(m: &Quads<16>) -> Quads<16> {
        let (x, y) = (vector(&m.column_first), vector(&m.column_second));
        let (z, w) = (vector(&m.diagonal_first), vector(&m.diagonal_second));
        let column_first = x
            .shuffle(
                y,
                [2, 1, 17, 19, 6, 5, 21, 23, 10, 9, 25, 27, 14, 13, 29, 31],
            )
            .swizzle([1, 2, 3, 0, 5, 6, 7, 4, 9, 10, 11, 8, 13, 14, 15, 12]);
        // No shuffle takes words of two vectors from the same places: that would be a choice by a mask.
        let z_and_w = z.shuffle(
            w,
            [2, 2, 19, 19, 6, 6, 23, 23, 10, 10, 27, 27, 14, 14, 31, 31],
        );
        let column_second = x.shuffle(
            z_and_w,
            [3, 16, 0, 18, 7, 20, 4, 22, 11, 24, 8, 26, 15, 28, 12, 30],
        );
        let diagonal_first = w
            .shuffle(y, [0, 1, 16, 0, 4, 5, 20, 4, 8, 9, 24, 8, 12, 13, 28, 12])
            .shuffle(z, [0, 2, 19, 1, 4, 6, 23, 5, 8, 10, 27, 9, 12, 14, 31, 13]);
        let diagonal_second = z
            .shuffle(w, [1, 18, 0, 0, 5, 22, 4, 4, 9, 26, 8, 8, 13, 30, 12, 12])
            .shuffle(y, [0, 1, 18, 2, 4, 5, 22, 6, 8, 9, 26, 10, 12, 13, 30, 14]);
        Quads {
            column_first: lanes_of(column_first),
            column_second: lanes_of(column_second),
            diagonal_first: lanes_of(diagonal_first),
            diagonal_second: lanes_of(diagonal_second),
        }
    }

    #[inline(always)]
    fn turned(v: &Rows<16>) -> Rows<16> {
        Rows {
            a: lanes_of(vector(&v.a).swizzle([
                3, 0, 1, 2, 7, 4, 5, 6, 11, 8, 9, 10, 15, 12, 13, 14,
            ])),
            b: v.b,
            c: lanes_of(vector(&v.c).swizzle([
                1, 2, 3, 0, 5, 6, 7, 4, 9, 10, 11, 8, 13, 14, 15, 12,
            ])),
            d: lanes_of(vector(&v.d).swizzle([
                2, 3, 0, 1, 6, 7, 4, 5, 10, 11, 8, 9, 14, 15, 12, 13,
            ])),
        }
    }

    #[inline(always)]
    fn turned_back(v: &Rows<16>) -> Rows<16> {
        Rows {
            a: lanes_of(vector(&v.a).swizzle([
                1, 2, 3, 0, 5, 6, 7, 4, 9, 10, 11, 8, 13, 14, 15, 12,
            ])),
            b: v.b,
            c: lanes_of(vector(&v.c).swizzle([
                3, 0, 1, 2, 7, 4, 5, 6, 11, 8, 9, 10, 15, 12, 13, 14,
            ])),
            d: lanes_of(vector(&v.d).swizzle([
                2, 3, 0, 1, 6, 7, 4, 5, 10, 11, 8, 9, 14, 15, 12, 13,
            ])),
        }
    }

    ghost quads_fit = { Prim.search rules };
}

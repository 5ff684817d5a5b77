//! Two states.

ghost use Rattle.std.proofs.Common.{rules};

use crate::compression::rows::{Quads, Rows};
use crate::compression::states::{States, TwoStates};
use crate::compression::width::{Lanes, lanes_of, vector};
use std::simd::prelude::*;

impl States<8> for TwoStates {
    #[inline(always)]
    fn each(quad: u32x4) -> Lanes<8> {
        lanes_of(quad.swizzle([0, 1, 2, 3, 0, 1, 2, 3]))
    }

    #[inline(always)]
    fn quads(m: &Rows<8>) -> Quads<8> {
        let (p, q) = (vector(&m.a), vector(&m.b));
        let (r, s) = (vector(&m.c), vector(&m.d));
        Quads {
            column_first: lanes_of(p.shuffle(q, [0, 2, 8, 10, 4, 6, 12, 14])),
            column_second: lanes_of(p.shuffle(q, [1, 3, 9, 11, 5, 7, 13, 15])),
            diagonal_first: lanes_of(r.shuffle(s, [10, 0, 2, 8, 14, 4, 6, 12])),
            diagonal_second: lanes_of(r.shuffle(s, [11, 1, 3, 9, 15, 5, 7, 13])),
        }
    }

    #[inline(always)]
    fn permuted(m: &Quads<8>) -> Quads<8> {
        let (x, y) = (vector(&m.column_first), vector(&m.column_second));
        let (z, w) = (vector(&m.diagonal_first), vector(&m.diagonal_second));
        let column_first = x
            .shuffle(y, [2, 1, 9, 11, 6, 5, 13, 15])
            .swizzle([1, 2, 3, 0, 5, 6, 7, 4]);
        let column_second = x
            .shuffle(z, [3, 10, 0, 0, 7, 14, 4, 4])
            .shuffle(w, [0, 1, 2, 11, 4, 5, 6, 15]);
        let diagonal_first = w
            .shuffle(y, [0, 1, 8, 0, 4, 5, 12, 4])
            .shuffle(z, [0, 2, 11, 1, 4, 6, 15, 5]);
        let diagonal_second = z
            .shuffle(w, [1, 10, 0, 0, 5, 14, 4, 4])
            .shuffle(y, [0, 1, 10, 2, 4, 5, 14, 6]);
        Quads {
            column_first: lanes_of(column_first),
            column_second: lanes_of(column_second),
            diagonal_first: lanes_of(diagonal_first),
            diagonal_second: lanes_of(diagonal_second),
        }
    }

    #[inline(always)]
    fn turned(v: &Rows<8>) -> Rows<8> {
        Rows {
            a: lanes_of(vector(&v.a).swizzle([3, 0, 1, 2, 7, 4, 5, 6])),
            b: v.b,
            c: lanes_of(vector(&v.c).swizzle([1, 2, 3, 0, 5, 6, 7, 4])),
            d: lanes_of(vector(&v.d).swizzle([2, 3, 0, 1, 6, 7, 4, 5])),
        }
    }

    #[inline(always)]
    fn turned_back(v: &Rows<8>) -> Rows<8> {
        Rows {
            a: lanes_of(vector(&v.a).swizzle([1, 2, 3, 0, 5, 6, 7, 4])),
            b: v.b,
            c: lanes_of(vector(&v.c).swizzle([3, 0, 1, 2, 7, 4, 5, 6])),
            d: lanes_of(vector(&v.d).swizzle([2, 3, 0, 1, 6, 7, 4, 5])),
        }
    }

    ghost quads_fit = { Prim.search rules };
}

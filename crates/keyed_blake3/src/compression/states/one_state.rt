//! One state.

ghost use Rattle.std.proofs.Common.{rules};

use crate::compression::rows::{Quads, Rows};
use crate::compression::states::{OneState, States};
use crate::compression::width::{Lanes, lanes_of, vector};
use std::simd::prelude::*;

impl States<4> for OneState {
    #[inline(always)]
    fn each(quad: u32x4) -> Lanes<4> {
        lanes_of(quad)
    }

    #[inline(always)]
    fn quads(m: &Rows<4>) -> Quads<4> {
        let (p, q) = (vector(&m.a), vector(&m.b));
        let (r, s) = (vector(&m.c), vector(&m.d));
        Quads {
            column_first: lanes_of(p.shuffle(q, [0, 2, 4, 6])),
            column_second: lanes_of(p.shuffle(q, [1, 3, 5, 7])),
            diagonal_first: lanes_of(r.shuffle(s, [6, 0, 2, 4])),
            diagonal_second: lanes_of(r.shuffle(s, [7, 1, 3, 5])),
        }
    }

    #[inline(always)]
    fn permuted(m: &Quads<4>) -> Quads<4> {
        let (x, y) = (vector(&m.column_first), vector(&m.column_second));
        let (z, w) = (vector(&m.diagonal_first), vector(&m.diagonal_second));
        let column_first = x.shuffle(y, [2, 1, 5, 7]).swizzle([1, 2, 3, 0]);
        let column_second = x.shuffle(z, [3, 6, 0, 0]).shuffle(w, [0, 1, 2, 7]);
        let diagonal_first = w.shuffle(y, [0, 1, 4, 0]).shuffle(z, [0, 2, 7, 1]);
        let diagonal_second = z.shuffle(w, [1, 6, 0, 0]).shuffle(y, [0, 1, 6, 2]);
        Quads {
            column_first: lanes_of(column_first),
            column_second: lanes_of(column_second),
            diagonal_first: lanes_of(diagonal_first),
            diagonal_second: lanes_of(diagonal_second),
        }
    }

    #[inline(always)]
    fn turned(v: &Rows<4>) -> Rows<4> {
        Rows {
            a: lanes_of(vector(&v.a).swizzle([3, 0, 1, 2])),
            b: v.b,
            c: lanes_of(vector(&v.c).swizzle([1, 2, 3, 0])),
            d: lanes_of(vector(&v.d).swizzle([2, 3, 0, 1])),
        }
    }

    #[inline(always)]
    fn turned_back(v: &Rows<4>) -> Rows<4> {
        Rows {
            a: lanes_of(vector(&v.a).swizzle([1, 2, 3, 0])),
            b: v.b,
            c: lanes_of(vector(&v.c).swizzle([3, 0, 1, 2])),
            d: lanes_of(vector(&v.d).swizzle([2, 3, 0, 1])),
        }
    }

    ghost quads_fit = { Prim.search rules };
}

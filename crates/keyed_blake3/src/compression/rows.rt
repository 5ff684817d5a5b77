//! The states of compressions and their message blocks, as vectors of `N` words: four for each compression, a quad.

ghost use Rattle.std.specs.Prelude.{◌≡◌, length};

use crate::compression::width::Lanes;

// The states as the rows of squares: a column of a square is what one G works on.
#[derive(Clone, Copy)]
pub(crate) struct Rows<const N: usize> {
    pub(crate) a: Lanes<N>,
    pub(crate) b: Lanes<N>,
    pub(crate) c: Lanes<N>,
    pub(crate) d: Lanes<N>,
    ghost full: { (length a ≡ N) × (length b ≡ N) × (length c ≡ N) × (length d ≡ N) },
}

// The words of the message blocks, by the part of the round that they enter: the columns' first and
// second halves, then the diagonals'. The last diagonal stands first, since it has the first word of
// row b.
#[derive(Clone, Copy)]
pub(crate) struct Quads<const N: usize> {
    pub(crate) column_first: Lanes<N>,
    pub(crate) column_second: Lanes<N>,
    pub(crate) diagonal_first: Lanes<N>,
    pub(crate) diagonal_second: Lanes<N>,
    ghost full: { (length column_first ≡ N) × (length column_second ≡ N) × (length diagonal_first ≡ N)
        × (length diagonal_second ≡ N) },
}

// The chaining values, as rows a and b of the states that begin with them.
#[derive(Clone, Copy)]
pub(crate) struct Values<const N: usize> {
    pub(crate) a: Lanes<N>,
    pub(crate) b: Lanes<N>,
    ghost full: { (length a ≡ N) × (length b ≡ N) },
}

// What a compression takes in beside the chaining value.
#[derive(Clone, Copy)]
pub(crate) struct Block {
    pub(crate) words: [u32; 16],
    pub(crate) counter: u64,
    pub(crate) len: u32,
    pub(crate) flags: u32,
}

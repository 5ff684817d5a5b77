//! The states of `L` compressions, as rows of words or of bytes.

ghost use Rattle.std.specs.Prelude.{◌≡◌, length};

use crate::compression::width::{LaneBytes, Lanes};

// A row of the states: a word of each column.
#[derive(Clone, Copy)]
pub(crate) struct Row<const L: usize> {
    pub(crate) w0: Lanes<L>,
    pub(crate) w1: Lanes<L>,
    pub(crate) w2: Lanes<L>,
    pub(crate) w3: Lanes<L>,
    ghost full: { (length w0 ≡ L) × (length w1 ≡ L) × (length w2 ≡ L) × (length w3 ≡ L) },
}

// A row as bytes.
#[derive(Clone, Copy)]
pub(crate) struct ByteRow<const B: usize> {
    pub(crate) w0: LaneBytes<B>,
    pub(crate) w1: LaneBytes<B>,
    pub(crate) w2: LaneBytes<B>,
    pub(crate) w3: LaneBytes<B>,
}

// The states as squares: a column is what one G works on. Row d is kept as bytes: it is rotated by whole bytes alone, and
// LLVM exchanges bytes twice as often if it's kept as words.
#[derive(Clone, Copy)]
pub(crate) struct LaneRows<const L: usize, const B: usize> {
    pub(crate) a: Row<L>,
    pub(crate) b: Row<L>,
    pub(crate) c: Row<L>,
    pub(crate) d: ByteRow<B>,
}

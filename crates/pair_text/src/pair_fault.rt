//! Why a line of pairs is faulty.

/// The fault of a line after good ones, if no line names a position.
#[derive(Clone, Copy, Debug, PartialEq, Eq)]
pub enum PairFault {
    /// The line isn't a pair, a chunk or a separator, or it contains byte number 2^40 + 1 of the input.
    Bad,
    /// The line isn't bad. With its pair, the sizes add up to more than `u64::MAX`.
    Sizes,
}

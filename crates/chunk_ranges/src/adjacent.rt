//! What is known of adjacent ranges that were passed one after another, and why they can't be merged.

ghost use Rattle.std.specs.Prelude.{◌≡◌, ℕ, ◌+◌, ◌^◌, ◌<◌, ◌↔◌, List, [], ◌∷◌, ◌++◌, true, Some, None, SomeIff, IsTrue};
ghost use Rattle.chunk_ranges.specs.Steps.Adjacent.{IsPassed, Follows, refusal};

use crate::chunk_range::ChunkRange;
use xet_roots::error::CoreError;

/// What is known of the ranges that were passed.
#[derive(Clone, Copy)]
pub struct Passed {
    // The end mark of the last range, if there is one.
    last_end: Option<bool>,
    // Whether no mark is between two of the ranges.
    no_mark_between: bool,
    // The sum of their sizes, if it is at most `u64::MAX`.
    total: Option<u64>,
}

impl Passed {
    /// Starts with no ranges.
    pub fn new() -> Self
        ensures { result ≡ record { last_end = None; no_mark_between = true; total = Some 0 } }
    {
        Passed {
            last_end: None,
            no_mark_between: true,
            total: Some(0),
        }
    }

    /// Passes one more range.
    pub fn pass<R: ChunkRange>(self, range: &R) -> Self
        ensures { (ranges : List R) → IsPassed R.start R.end R.total self ranges →
            IsPassed R.start R.end R.total result (ranges ++ range.now ∷ []) }
    {
        Passed {
            last_end: Some(range.at_end()),
            no_mark_between: stay_unmarked(self.no_mark_between, self.last_end, range.at_start()),
            total: add_size(self.total, range.total_size()),
        }
    }

    /// Returns why the ranges can't be merged, if there is a reason other than memory.
    pub fn refusal(self) -> Option<CoreError>
        ensures { result ≡ refusal self.no_mark_between self.total }
    {
        if !self.no_mark_between {
            Some(CoreError::InvalidArguments)
        } else if self.total.is_none() {
            Some(CoreError::SizeOverflow)
        } else {
            None
        }
    }
}

// Returns whether there is still no mark between ranges after one more. `last_end` is the end mark of the last range
// before it, if there is one.
fn stay_unmarked(no_mark_between: bool, last_end: Option<bool>, at_start: bool) -> bool
    ensures { IsTrue result ↔ (IsTrue no_mark_between × Follows last_end at_start) }
{
    match last_end {
        None => no_mark_between,
        Some(last_end) => no_mark_between && !last_end && !at_start,
    }
}

// Adds one more size to a sum. Returns `None` if the sum is more than `u64::MAX`, or was before.
fn add_size(total: Option<u64>, size: u64) -> Option<u64>
    ensures { (sum : ℕ) → SomeIff total (sum < 2 ^ 64) sum → SomeIff result (sum + size < 2 ^ 64) (sum + size) }
{
    total?.checked_add(size)
}

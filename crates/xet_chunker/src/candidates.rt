//! The candidates for cuts in a part of a message.

ghost use Rattle.std.specs.Prelude.{◌≡◌, ℕ, ◌+◌, ◌<◌, ◌≤◌, List, [], ◌∷◌, ◌++◌, length, take, IfSome, IfNone};
ghost use Rattle.xet_chunker.specs.Candidates.{Passed, candidates};

use crate::gear::{before_low, gear_after};

// The bytes before the last of those that decide whether a place is a candidate.
const BEFORE: usize = 63;

/// Finds the candidates of a part of a message that comes in pieces, and keeps none of its bytes. Whether a place is a candidate, the 64
/// bytes before it decide. So a part has to begin with 63 bytes that come before the places that are wanted, unless the message begins
/// later.
#[derive(Clone, Copy)]
#[repr(C)]
pub struct CandidateFinder {
    // The bytes of the part so far, or 63, if there are more.
    count: usize,
    // Their gear.
    gear: u64,
}

impl CandidateFinder {
    /// Makes a finder at the beginning of a part.
    pub const fn new() -> CandidateFinder
        ensures { Passed result [] }
    {
        CandidateFinder { count: 0, gear: 0 }
    }

    /// Takes more of the part. If there is a candidate in `data`, returns after how many bytes of it the first one is, and takes no more
    /// than these: the caller passes what follows in the next call. Otherwise takes all of `data`, and returns `None`.
    pub fn next_candidate(&mut self, data: &[u8]) -> Option<usize>
        ensures some { IfSome result (λ end. 0 < end) }
        ensures fits { IfSome result (λ end. end ≤ length «data».now) }
        ensures first { IfSome result (λ end. (part rest : List ℕ) → Passed self.old part →
            candidates (part ++ («data».now ++ rest)) (length part) end ≡ (length part + end) ∷ []) }
        ensures goes_on { IfSome result (λ end. (part : List ℕ) → Passed self.old part → Passed self.new (part ++ take end «data».now)) }
        ensures none { IfNone result ((part rest : List ℕ) → Passed self.old part →
            candidates (part ++ («data».now ++ rest)) (length part) (length «data».now) ≡ []) }
        ensures all { IfNone result ((part : List ℕ) → Passed self.old part → Passed self.new (part ++ «data».now)) }
    {
        let unready = BEFORE.saturating_sub(self.count).min(data.len());
        let (front, rest) = data.split_at(unready);
        let (count, gear) = before_low(gear_after(self.gear, front), rest);
        self.count += unready;
        self.gear = gear;
        if count == rest.len() {
            return None;
        }
        Some(unready + count + 1)
    }
}

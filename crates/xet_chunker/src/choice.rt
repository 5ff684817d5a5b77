//! The cuts of a message, made out of its candidates.

ghost use Rattle.std.specs.Prelude.{◌≡◌, ℕ, ◌+◌, ◌∷◌, List, [], drop, length, IfSome, IfNone};
ghost use Rattle.xet_chunker.specs.Cuts.{cuts_at};
ghost use Rattle.xet_chunker.specs.CutChoice.{IsGiven, IsNext, NoneBetween, last_cut};

// The fewest bytes of a chunk that isn't the last, and the most of any.
const LEAST: u64 = 8 * 1024;

const MOST: u64 = 128 * 1024;

/// Makes the cuts of a message out of its candidates, which are given in order.
#[derive(Clone, Copy)]
#[repr(C)]
pub struct CutChoice {
    // The last cut, or 0.
    start: u64,
}

impl CutChoice {
    /// Makes a choice that was given no candidate.
    #[tactic(auto, unfolding(crate::specs::CutChoice::last_cut))]
    pub const fn new() -> CutChoice
        ensures given { (message : List ℕ) → IsGiven result message 0 }
        ensures start { last_cut result ≡ 0 }
    {
        CutChoice { start: 0 }
    }

    /// Takes the next candidate, and returns the next cut. It may come before the candidate, which then has to be passed again: until
    /// `None` is returned.
    pub fn next_cut(&mut self, candidate: u64) -> Option<u64>
        ensures last { IfSome result (λ cut. last_cut self.new ≡ cut) }
        ensures cut { IfSome result (λ cut. (message : List ℕ) (known : ℕ) → IsGiven self.old message known → IsNext message known candidate →
            cuts_at (last_cut self.old) (drop (last_cut self.old) message) ≡ cut ∷ cuts_at cut (drop cut message)) }
        ensures again { IfSome result (λ cut. (message : List ℕ) (known : ℕ) → IsGiven self.old message known → IsNext message known candidate →
            IsGiven self.new message known) }
        ensures same { IfNone result (self.new ≡ self.old) }
        ensures given { IfNone result ((message : List ℕ) (known : ℕ) → IsGiven self.old message known → IsNext message known candidate →
            IsGiven self.new message candidate) }
    {
        let size = candidate.saturating_sub(self.start);
        if size < LEAST {
            return None;
        }
        let end = self.start + size.min(MOST);
        self.start = end;
        Some(end)
    }

    /// After all candidates, takes the length of the message, and returns the next cut: until `None` is returned.
    pub fn next_at_end(&mut self, count: u64) -> Option<u64>
        ensures last { IfSome result (λ cut. last_cut self.new ≡ cut) }
        ensures cut { IfSome result (λ cut. (message : List ℕ) (known : ℕ) → count ≡ length message → IsGiven self.old message known →
            NoneBetween message known (count + 1) →
            cuts_at (last_cut self.old) (drop (last_cut self.old) message) ≡ cut ∷ cuts_at cut (drop cut message)) }
        ensures again { IfSome result (λ cut. (message : List ℕ) (known : ℕ) → count ≡ length message → IsGiven self.old message known →
            IsGiven self.new message known) }
        ensures none { IfNone result ((message : List ℕ) (known : ℕ) → count ≡ length message → IsGiven self.old message known →
            cuts_at (last_cut self.old) (drop (last_cut self.old) message) ≡ []) }
    {
        let size = count.saturating_sub(self.start);
        if size == 0 {
            return None;
        }
        let end = self.start + size.min(MOST);
        self.start = end;
        Some(end)
    }
}

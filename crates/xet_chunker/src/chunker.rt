//! A chunker of a message that comes in pieces.

ghost use Rattle.std.specs.Prelude.{◌≡◌, ℕ, ◌+◌, ◌<◌, ◌≤◌, ◌∷◌, List, [], ◌++◌, length, take, IfSome, IfNone, if◌then◌else◌, ◌==◌};
ghost use Rattle.xet_chunker.specs.Cuts.{cuts_at, least};
ghost use Rattle.xet_chunker.specs.Chunker.{Holds};

use crate::gear::{before_low, gear_after};

// The fewest bytes of a chunk that isn't the last, and the most of any.
const LEAST: usize = 8 * 1024;

const MOST: usize = 128 * 1024;

// The bytes of a chunk that no cut depends on: all before the 64 bytes that decide the first gear that is tested.
const UNREAD: usize = LEAST - 64;

/// Finds the cuts of a message that comes in pieces. It keeps none of its bytes.
#[derive(Clone, Copy)]
#[repr(C)]
pub struct Chunker {
    // The bytes of the chunk so far.
    size: usize,
    // The gear of those of them that were read.
    gear: u64,
}

impl Chunker {
    /// Makes a chunker at the beginning of a chunk.
    pub const fn new() -> Chunker
        ensures { Holds result [] }
    {
        Chunker { size: 0, gear: 0 }
    }

    /// Takes more of the message. If the chunk ends in `data`, returns after how many bytes of it, and the next chunk begins there:
    /// the caller passes what follows in the next call. Otherwise all of `data` belongs to the chunk, and `None` is returned.
    pub fn next_boundary(&mut self, data: &[u8]) -> Option<usize>
        ensures some { IfSome result (λ end. 0 < end) }
        ensures fits { IfSome result (λ end. end ≤ length «data».now) }
        ensures next { IfSome result (λ end. Holds self.new []) }
        ensures least { IfSome result (λ end. (chunk : List ℕ) → Holds self.old chunk → least ≤ length chunk + end) }
        ensures end { IfSome result (λ end. (at : ℕ) (chunk rest : List ℕ) → Holds self.old chunk →
            cuts_at at (chunk ++ (take end «data».now ++ rest))
            ≡ (at + (length chunk + end)) ∷ cuts_at (at + (length chunk + end)) rest) }
        ensures goes_on { IfNone result ((chunk : List ℕ) → Holds self.old chunk → Holds self.new (chunk ++ «data».now)) }
    {
        let skipped = UNREAD.saturating_sub(self.size).min(data.len());
        let (_, unskipped) = data.split_at(skipped);
        let size = self.size + skipped;
        let untested = (LEAST - 1).saturating_sub(size).min(unskipped.len());
        let (warm, tested) = unskipped.split_at(untested);
        let gear = gear_after(self.gear, warm);
        let size = size + untested;
        let passed = skipped + untested;
        let room = MOST.saturating_sub(size).max(1);
        let looked = room.min(tested.len());
        let (look, _) = tested.split_at(looked);
        let (count, gear) = before_low(gear, look);
        if count < looked {
            *self = Chunker::new();
            return Some(passed + count + 1);
        }
        if looked == room {
            *self = Chunker::new();
            return Some(passed + looked);
        }
        self.size = size + looked;
        self.gear = gear;
        None
    }

    /// Returns how many bytes of the chunk were taken so far. If the message ends here, and there are any, it ends with a cut.
    pub fn taken(&self) -> usize
        ensures count { (chunk : List ℕ) → Holds self.now chunk → result ≡ length chunk }
        ensures last { (at : ℕ) (chunk : List ℕ) → Holds self.now chunk →
            cuts_at at chunk ≡ if result == 0 then [] else (at + result) ∷ [] }
    {
        self.size
    }
}

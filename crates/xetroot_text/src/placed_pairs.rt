//! The pairs of the lines, put into a session by their positions, range by range.

ghost use Rattle.std.specs.Prelude.{◌≡◌, ◌+◌, ◌-◌, ◌^◌, ◌<◌, ◌≤◌, ℕ, List, length, [], ◌∷◌, replicate, IfOk, IfErr, OnErr, OnOk, IsTrue};
ghost use Rattle.line_io.specs.Faults.{IfFaulty};
ghost use Rattle.xet_roots.specs.Roots.{IsRoot, IsFileHash};
ghost use Rattle.upload_session.specs.Session.{Placed, IsWhole, chunks_of, is_taken, place};

use crate::fault::{Gap, LineFault};
use chunk_ranges::chunk_range::ChunkRange;
use line_io::fault::Refusal;
use pair_text::line::Line;
use pair_text::said_lines::TakeSaid;
use std::alloc::AllocError;
use std::marker::Model;
use upload_session::kept_hashes::NoHashes;
use upload_session::session::SessionOf;
use upload_session::session_fault::SessionFault;
use xet_hash::data_hash::MerkleHash;
use xet_roots::aggregated_hashes::Node;

// The most pairs of a range. A longer range is put in several parts.
const MAX_RANGE_LEN: usize = 4096;

/// All pairs so far, by their positions.
///
/// It keeps the pairs of the open range, 40 bytes each and at most [`MAX_RANGE_LEN`]. It puts the ended ranges into a
/// session.
#[derive(Drop)]
pub struct PlacedPairs<C: ChunkRange> {
    // The ended ranges.
    session: SessionOf<C, NoHashes>,
    // The pairs of the open range.
    range: Vec<Node, C::Alloc>,
    // The position of the open range's first pair.
    first: u64,
    // The position of the next pair.
    next: u64,
    // The number of all pairs.
    count: u64,
    // The sum of the sizes of all pairs.
    total: u64,
}

impl<C: ChunkRange> Model for PlacedPairs<C> {
    ghost use Rattle.std.specs.Prelude.{List};
    ghost use Rattle.upload_session.specs.Session.{Placed};
    ghost use Rattle.xetroot_text.specs.Steps.PlacedPairs.{Gathered, StandForPlaced};

    ghost Value = { Gathered C };

    ghost view = { λ stored. record {
      session = stored.session;
      range = stored.range.items;
      first = stored.first;
      next = stored.next;
      count = stored.count;
      total = stored.total;
    } };

    ghost invariant = { λ stored. (pairs : List Placed)
        × StandForPlaced C.ChunkRange stored.session stored.range.items stored.first stored.next
        stored.total pairs };
}

impl<C: ChunkRange> PlacedPairs<C> {
    ghost use Rattle.xetroot_text.specs.Steps.PlacedPairs.{StandForPairs, IsPairFault};

    /// Starts without pairs. Fails if an allocation fails.
    pub fn new(alloc: C::Alloc) -> Result<Self, AllocError>
        ensures none { IfOk result (λ placed. StandForPairs C.ChunkRange placed [] 0) }
        ensures counted { IfOk result (λ placed. placed.count ≡ 0) }
    {
        Ok(PlacedPairs {
            session: SessionOf::new_in(alloc.clone()?)?,
            range: Vec::new(alloc),
            first: 0,
            next: 0,
            count: 0,
            total: 0,
        })
    }

    /// Adds a pair at the next position. Before it allocates, it fails with the first of these that applies:
    ///
    /// - [`LineFault::Bad`] if the next position is `u64::MAX`;
    /// - [`LineFault::Overlap`] if the next position is taken;
    /// - [`LineFault::Sizes`] if all sizes add up to more than `u64::MAX` bytes.
    ///
    /// Otherwise fails with [`Refusal::Memory`] if an allocation fails.
    pub fn push(&mut self, pair: Node) -> Result<(), Refusal<LineFault>>
        ensures pushed { OnOk result ((pairs : List Placed) (next : ℕ) →
            StandForPairs C.ChunkRange self.old pairs next →
            StandForPairs C.ChunkRange self.new (place pairs next (pair ∷ [])) (next + 1)) }
        ensures counted { OnOk result (self.old.count < 2 ^ 64 - 1 →
            self.new.count ≡ self.old.count + 1) }
        ensures free { OnOk result ((pairs : List Placed) (next : ℕ) →
            StandForPairs C.ChunkRange self.old pairs next →
            (next < 2 ^ 64 - 1) × ¬ (IsTrue (is_taken pairs next))) }
        ensures few { OnOk result (length self.new.range ≤ MAX_RANGE_LEN) }
        ensures fault { IfErr result (λ refusal. (pairs : List Placed) (next : ℕ) →
            StandForPairs C.ChunkRange self.old pairs next →
            IfFaulty refusal (IsPairFault pairs next pair)) }
        ensures kept_pairs { OnErr result ((pairs : List Placed) (next : ℕ) →
            StandForPairs C.ChunkRange self.old pairs next →
            StandForPairs C.ChunkRange self.new pairs next) }
        ensures kept_count { OnErr result (self.new.count ≡ self.old.count) }
    {
        let Some(next) = self.next.checked_add(1) else {
            return Err(Refusal::Faulty(LineFault::Bad));
        };
        if self.session.taken(self.next) {
            return Err(Refusal::Faulty(LineFault::Overlap));
        }
        let Some(total) = self.total.checked_add(pair.1) else {
            return Err(Refusal::Faulty(LineFault::Sizes));
        };
        self.make_room()?;
        self.range.push(pair)?;
        self.next = next;
        self.count = self.count.saturating_add(1);
        self.total = total;
        Ok(())
    }

    /// Sets the position of the next pair. It ends the open range if that position changes. Fails if an allocation
    /// fails.
    pub fn go_to(&mut self, position: u64) -> Result<(), AllocError>
        ensures same { OnOk result ((pairs : List Placed) (next : ℕ) →
            StandForPairs C.ChunkRange self.old pairs next →
            StandForPairs C.ChunkRange self.new pairs position) }
        ensures kept_pairs { OnErr result ((pairs : List Placed) (next : ℕ) →
            StandForPairs C.ChunkRange self.old pairs next →
            StandForPairs C.ChunkRange self.new pairs next) }
        ensures counted { self.new.count ≡ self.old.count }
    {
        if position == self.next {
            return Ok(());
        }
        self.end_range()?;
        self.first = position;
        self.next = position;
        Ok(())
    }

    // Ends the open range if it is full.
    fn make_room(&mut self) -> Result<(), AllocError>
        ensures same { OnOk result ((pairs : List Placed) (next : ℕ) →
            StandForPairs C.ChunkRange self.old pairs next →
            StandForPairs C.ChunkRange self.new pairs next) }
        ensures kept { (self.new.next ≡ self.old.next) × (self.new.count ≡ self.old.count)
            × (self.new.total ≡ self.old.total) }
        ensures room { OnOk result (length self.new.range < MAX_RANGE_LEN) }
        ensures kept_pairs { OnErr result ((pairs : List Placed) (next : ℕ) →
            StandForPairs C.ChunkRange self.old pairs next →
            StandForPairs C.ChunkRange self.new pairs next) }
    {
        if self.range.len() < MAX_RANGE_LEN {
            return Ok(());
        }
        self.end_range()
    }

    // Ends the open range. The next one has no pairs yet.
    fn end_range(&mut self) -> Result<(), AllocError>
        ensures same { OnOk result ((pairs : List Placed) (next : ℕ) →
            StandForPairs C.ChunkRange self.old pairs next →
            StandForPairs C.ChunkRange self.new pairs next) }
        ensures kept { (self.new.next ≡ self.old.next) × (self.new.count ≡ self.old.count)
            × (self.new.total ≡ self.old.total) }
        ensures none { OnOk result (self.new.range ≡ []) }
        ensures kept_pairs { OnErr result ((pairs : List Placed) (next : ℕ) →
            StandForPairs C.ChunkRange self.old pairs next →
            StandForPairs C.ChunkRange self.new pairs next) }
    {
        if self.range.is_empty() {
            return Ok(());
        }
        self.session.place(self.first, &self.range, self.total)?;
        self.range.clear();
        self.first = self.next;
        Ok(())
    }

    /// Returns the root and the file hash of all pairs in the order of their positions.
    ///
    /// Fails with [`Gap`] if the taken positions aren't exactly those below the number of pairs. Fails with
    /// [`Refusal::Memory`] if an allocation fails.
    pub fn hashes(mut self) -> Result<(MerkleHash, MerkleHash), Refusal<Gap>>
        ensures whole { OnOk result ((pairs : List Placed) (next : ℕ) →
            StandForPairs C.ChunkRange self pairs next → IsWhole self.count pairs) }
        ensures root { IfOk result (λ hashes. (pairs : List Placed) (next : ℕ) →
            StandForPairs C.ChunkRange self pairs next → IsRoot (chunks_of pairs) hashes.0) }
        ensures file { IfOk result (λ hashes. (pairs : List Placed) (next : ℕ) →
            StandForPairs C.ChunkRange self pairs next →
            IsFileHash (chunks_of pairs) (replicate 32 0) hashes.1) }
        ensures gap { IfErr result (λ refusal. (pairs : List Placed) (next : ℕ) →
            StandForPairs C.ChunkRange self pairs next →
            IfFaulty refusal (λ _. ¬ (IsWhole self.count pairs))) }
    {
        self.end_range()?;
        match self.session.hashes(self.count) {
            Ok(hashes) => Ok(hashes),
            Err(SessionFault::Gap) => Err(Refusal::Faulty(Gap)),
            Err(error) => Err(out_of_memory(error).into()),
        }
    }
}

impl<C: ChunkRange> TakeSaid for PlacedPairs<C> {
    type Fault = LineFault;

    ghost use Rattle.xetroot_text.specs.Answer.{IsLineFault};
    ghost use Rattle.xetroot_text.specs.Steps.PlacedPairs.{StandForLines};

    ghost stands_for = { StandForLines C.ChunkRange };

    ghost is_fault = { IsLineFault };

    // A separator changes no pair.
    fn take(&mut self, said: Line) -> Result<(), Refusal<LineFault>> {
        match said {
            Line::Separator => Ok(()),
            Line::Position(position) => Ok(self.go_to(position)?),
            Line::Pair(pair) => self.push(pair),
        }
    }

    fn bad(&self) -> LineFault {
        LineFault::Bad
    }
}

// Converts the error of a session call that fails only for lack of memory.
fn out_of_memory(error: SessionFault) -> AllocError
    requires { error ≡ SessionFault.Memory }
{
    match error {
        SessionFault::Memory => AllocError,
        _ => unreachable!(),
    }
}

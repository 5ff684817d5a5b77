//! A session: ranges of chunks that come in any order, merged as they become adjacent.

ghost use Rattle.std.specs.Prelude.{◌≡◌, ℕ, ◌+◌, ◌^◌, ◌<◌, ◌≤◌, ◌↔◌, ◌⊎◌, List, [], false, length, replicate, find, option_map, slice_get, Ok, All, IfOk, IfErr, IfNone, IfSome, SomeIff, OnOk, OnErr, IsOk, IsTrue, IsErrOf};
ghost use Rattle.xet_roots.specs.Groups.{Node};
ghost use Rattle.xet_roots.specs.Roots.{total_size, IsRoot, IsFileHash};
ghost use Rattle.std.specs.List.{IsDistinct};
ghost use Rattle.upload_session.specs.Gaps.{num_positions, AllTaken, IsFirstTaken, IsNextGap};
ghost use Rattle.upload_session.specs.Hashes.{Hash, hash_eq, is_among, Knows};
ghost use Rattle.upload_session.specs.Session.{PlacedRun, ends_after, meet, chunks_of, is_taken, overlaps, size_of_runs, with_last, AreApart, AreBothAt, AreFree, AreJoined, CanFollow, CanPlace, CountsNew, CountsNewOf, Cover, HasNothing, HaveBoth, HaveFileHash, HaveRoot, HaveSaltedHash, HoldsOfPlaced, IsRangeJoined, IsUnchanged, IsWhole, KeepsKnown, LearnsAll, LearnsHashes, PlacesChunks, PlacesRange, StandForBoth};
ghost use Rattle.upload_session.specs.Sizes.{HasSizeOf, HaveChunkSizes, PlacesRangeSizes, PlacesSizes};

use crate::kept_hashes::{KeptHashes, SeenHashes};
use crate::range_fault::RangeFault;
use crate::runs::Runs;
use crate::session_fault::SessionFault;
use chunk_ranges::chunk_range::{ChunkRange, CopyableRange, hashes_of_open};
use std::alloc::{AllocError, Global};
use std::marker::Model;
use xet_hash::data_hash::MerkleHash;
use xet_merkle::merkle_hash_subtree::MerkleHashSubtree;
use xet_roots::CoreError;
use xet_roots::aggregated_hashes::{Node, file_hash_of_root};

/// A session over subtrees, which keeps all hashes.
pub type Session<A = Global> = SessionOf<MerkleHashSubtree<A>>;

/// Chunks by their positions, which come in any order.
///
/// For each run of adjacent taken positions it keeps one range, open at both ends. Of the hashes it keeps what `H`
/// keeps.
#[derive(Drop)]
pub struct SessionOf<C: ChunkRange, H = SeenHashes<<C as ChunkRange>::Alloc>> {
    runs: Runs<C>,
    kept: H,
    // The sum of the sizes of all chunks.
    size: u64,
}

impl<C: ChunkRange, H> Model for SessionOf<C, H> {
    ghost use Rattle.std.specs.Prelude.{◌≡◌};
    ghost use Rattle.upload_session.specs.Session.{Parts, size_of_runs, AreApart};
    ghost use Rattle.upload_session.specs.Steps.OpenRuns.{AreOpen};

    ghost Value = { Parts C H };

    ghost view = { λ stored. record {
      runs = stored.runs;
      kept = stored.kept;
      size = stored.size;
    } };

    ghost invariant = { λ stored. AreOpen C.ChunkRange stored.runs × AreApart stored.runs
        × (stored.size ≡ size_of_runs C.ChunkRange stored.runs) };
}

impl<C: ChunkRange<Alloc = Global>, H: KeptHashes<Global>> SessionOf<C, H> {
    /// Makes a session without chunks. It uses the global allocator, and allocates nothing yet. Use
    /// [`SessionOf::new_in`] for other allocators.
    pub fn new(alloc: Global) -> Self
        ensures { HasNothing H.KeptHashes result }
    {
        Self::from_parts(Runs::new(alloc, alloc), H::new(alloc))
    }
}

impl<C: ChunkRange, H: KeptHashes<C::Alloc>> SessionOf<C, H> {
    /// Makes a session without chunks that uses `alloc`. Fails if `alloc` can't be cloned. It allocates nothing itself.
    /// [`SessionOf::new`] does the same with the global allocator, and can't fail.
    pub fn new_in(alloc: C::Alloc) -> Result<Self, AllocError>
        ensures empty { IfOk result (λ session. HasNothing H.KeptHashes session) }
        ensures succeeds { ((a : C.Alloc) → C.Alloc.is_infallible a) → IsOk result }
    {
        let kept = H::new(alloc.clone()?);
        Ok(Self::from_parts(Runs::new(alloc.clone()?, alloc), kept))
    }

    // Makes a session without chunks from its parts.
    fn from_parts(runs: Runs<C>, kept: H) -> Self
        requires none { runs ≡ [] }
        requires knows { H.knows kept [] }
        ensures { HasNothing H.KeptHashes result }
    {
        SessionOf {
            runs,
            kept,
            size: 0,
        }
    }

    /// Returns whether a position is taken. It allocates nothing.
    pub fn taken(&self, position: u64) -> bool
        ensures runs { result ≡ meet self.now.runs position 1 }
        ensures placed { HoldsOfPlaced C.ChunkRange self.now (λ placed. result ≡ is_taken placed position) }
    {
        self.runs.taken(position)
    }

    /// Returns the number of runs of adjacent taken positions. It allocates nothing.
    ///
    /// Whatever calls a session has had, a free position lies between two of its runs, and its size is that of all
    /// ranges together. If each range of this kind has the size of its chunks, as subtrees and plain ranges do, then
    /// the session's size is that of all chunks.
    pub fn num_runs(&self) -> usize
        ensures count { result ≡ length self.now.runs }
        ensures apart { AreApart self.now.runs }
        ensures size { self.now.size ≡ size_of_runs C.ChunkRange self.now.runs }
        ensures placed { HaveChunkSizes C.ChunkRange → HoldsOfPlaced C.ChunkRange self.now (HasSizeOf self.now) }
    {
        self.runs.len()
    }

    /// Returns the number of chunks, which is that of taken positions. It allocates nothing. The time is proportional to
    /// the number of runs.
    pub fn num_chunks(&self) -> u64
        ensures runs { result ≡ num_positions self.now.runs }
        ensures placed { HoldsOfPlaced C.ChunkRange self.now (λ placed. result ≡ length placed) }
    {
        self.runs.num_positions()
    }

    /// Returns the sum of the sizes of all chunks, in bytes. It allocates nothing.
    pub fn total_size(&self) -> u64
        ensures size { result ≡ self.now.size }
        ensures placed { HaveChunkSizes C.ChunkRange → HoldsOfPlaced C.ChunkRange self.now (λ placed.
            result ≡ total_size (chunks_of placed)) }
    {
        self.size
    }

    /// Returns the first gap from a position on and below `total`: its first position and the position after its last one.
    /// Returns `None` if each of these positions is taken. Calls from position 0 and then from each gap's end walk all
    /// gaps. It allocates nothing.
    pub fn next_gap(&self, position: u64, total: u64) -> Option<(u64, u64)>
        ensures gap { IfSome result (λ gap. IsNextGap self.now.runs position total gap.0 gap.1) }
        ensures none { IfNone result (AllTaken self.now.runs position total) }
        ensures placed { HoldsOfPlaced C.ChunkRange self.now (λ placed. (place : ℕ) →
            is_taken placed place ≡ meet self.now.runs place 1) }
    {
        self.runs.next_gap(position, total)
    }

    /// Returns the first position and the range of a run of adjacent taken positions, or `None` if there is no such
    /// run. Runs are numbered from 0, by rising position. It allocates nothing. The time is proportional to the number.
    pub fn range(&self, i: usize) -> Option<(u64, &C)>
        ensures { option_map {U = ℕ × C} (λ shown. (shown.0, shown.1.now)) result
            ≡ option_map {U = ℕ × C} (λ run. (run.0, run.1.range)) (slice_get self.now.runs i) }
    {
        self.runs.nth(i)
    }

    /// Returns the run that contains a position, or else the next one: its first position, the position after its last
    /// one, and its range. Returns `None` if all runs end before. Calls from position 0 and then from each run's end
    /// walk all runs. It allocates nothing.
    pub fn run_from(&self, position: u64) -> Option<(u64, u64, &C)>
        ensures { option_map {U = PlacedRun C} (λ found. (found.0, record { end = found.1; range = found.2.now })) result
            ≡ find (ends_after position) self.now.runs }
    {
        self.runs.run_from(position)
    }

    /// Puts chunks at the positions from `first` on. Returns how many of their hashes no earlier successful put had,
    /// and counts each hash once. With no chunks it returns 0 and changes nothing, whatever `first` is.
    ///
    /// Before it allocates, it fails with the first of these that applies:
    ///
    /// - [`SessionFault::Overlap`] if one of the positions is taken;
    /// - [`SessionFault::Positions`] if `first` plus the number of chunks is more than `u64::MAX`;
    /// - [`SessionFault::Sizes`] if the sizes of all chunks add up to more than `u64::MAX` bytes.
    ///
    /// Otherwise fails with [`SessionFault::Memory`] if an allocation fails. After a failure the session has the same
    /// ranges, and knows the same hashes.
    #[tactic(auto, using(crate::proofs::Positions::meet_overlaps))]
    pub fn put(&mut self, first: u64, chunks: &[Node]) -> Result<u64, SessionFault>
        ensures nothing { length chunks.now ≡ 0 → (result ≡ Ok 0) × (self.new ≡ self.old) }
        ensures joined { OnOk result (0 < length chunks.now →
            AreJoined C.ChunkRange self.old.runs first chunks.now self.new.runs) }
        ensures placed { OnOk result (PlacesChunks C.ChunkRange self.old first chunks.now self.new) }
        ensures placed_size { OnOk result (PlacesSizes C.ChunkRange self.old first chunks.now self.new) }
        ensures size { OnOk result (self.new.size ≡ self.old.size + total_size chunks.now) }
        ensures learned { OnOk result (0 < length chunks.now →
            LearnsHashes H.KeptHashes self.old.kept chunks.now self.new.kept) }
        ensures new { IfOk result (λ count. 0 < length chunks.now →
            CountsNew H.KeptHashes self.old.kept chunks.now count) }
        ensures overlap { 0 < length chunks.now → (IsErrOf result SessionFault.Overlap
            ↔ IsTrue (meet self.old.runs first (length chunks.now))) }
        ensures positions { 0 < length chunks.now → (IsErrOf result SessionFault.Positions
            ↔ (¬ IsTrue (meet self.old.runs first (length chunks.now)) × (2 ^ 64 ≤ first + length chunks.now))) }
        ensures sizes { 0 < length chunks.now → (IsErrOf result SessionFault.Sizes
            ↔ (¬ IsTrue (meet self.old.runs first (length chunks.now)) × (first + length chunks.now < 2 ^ 64)
            × (2 ^ 64 ≤ self.old.size + total_size chunks.now))) }
        ensures errors { IfErr result (λ e.
            (e ≡ SessionFault.Overlap) ⊎ ((e ≡ SessionFault.Positions)
            ⊎ ((e ≡ SessionFault.Sizes) ⊎ (e ≡ SessionFault.Memory)))) }
        ensures unchanged { OnErr result (IsUnchanged H.KeptHashes self.old self.new) }
        ensures meets { HoldsOfPlaced C.ChunkRange self.old (λ placed. 0 < length chunks.now →
            meet self.old.runs first (length chunks.now) ≡ overlaps placed first (length chunks.now)) }
    {
        let (count, size) = (chunks.len() as u64, self.size);
        if count == 0 {
            return Ok(0);
        }
        if self.runs.overlap(first, count) {
            return Err(SessionFault::Overlap);
        }
        first.checked_add(count).ok_or(SessionFault::Positions)?;
        let size = add_sizes(size, chunks).ok_or(SessionFault::Sizes)?;
        Ok(self.place(first, chunks, size)?)
    }

    /// Does the same as [`SessionOf::put`] for at least one chunk, if the caller has already checked positions and
    /// sizes. The positions must be free and at most `u64::MAX - 1`. `size` must be the sum of the sizes of all chunks,
    /// including these.
    ///
    /// Fails only if an allocation fails. Then the session is as a failed [`SessionOf::put`] leaves it.
    pub fn place(&mut self, first: u64, chunks: &[Node], size: u64) -> Result<u64, AllocError>
        requires some { 0 < length chunks.now }
        requires free { meet self.old.runs first (length chunks.now) ≡ false }
        requires positions { first + length chunks.now < 2 ^ 64 }
        requires sizes { size ≡ self.old.size + total_size chunks.now }
        ensures joined { OnOk result (AreJoined C.ChunkRange self.old.runs first chunks.now self.new.runs) }
        ensures placed { OnOk result (PlacesChunks C.ChunkRange self.old first chunks.now self.new) }
        ensures placed_size { OnOk result (PlacesSizes C.ChunkRange self.old first chunks.now self.new) }
        ensures size { OnOk result (self.new.size ≡ size) }
        ensures learned { OnOk result (LearnsHashes H.KeptHashes self.old.kept chunks.now self.new.kept) }
        ensures new { IfOk result (CountsNew H.KeptHashes self.old.kept chunks.now) }
        ensures unchanged { OnErr result (IsUnchanged H.KeptHashes self.old self.new) }
    {
        let new = self.kept.keep(self.runs.allocator().clone()?, chunks)?;
        match self.runs.place(first, chunks) {
            Ok(()) => {
                self.size = size;
                Ok(new.len() as u64)
            }
            Err(error) => {
                self.kept.give_up(&new);
                Err(out_of_memory(error))
            }
        }
    }

    /// Puts a range of `count` chunks, open at both ends, at the positions from `first` on, as [`SessionOf::put`] puts
    /// chunks. The session doesn't learn the hashes of its chunks, so pass them to [`SessionOf::keep_hashes`].
    ///
    /// A range doesn't know how many chunks it has. If `range` doesn't stand for `count` chunks, all calls go by the
    /// positions of the runs as ever, and the root and the file hash are those of the chunks of the ranges.
    ///
    /// Before it allocates, it fails with the first of these that applies:
    ///
    /// - [`RangeFault::Range`] if `count` is 0 or an end of the range is marked;
    /// - [`RangeFault::Overlap`] if one of the positions is taken, with the first of them;
    /// - [`RangeFault::Positions`] if `first` plus `count` is more than `u64::MAX`;
    /// - [`RangeFault::Sizes`] if the sizes of all chunks add up to more than `u64::MAX` bytes.
    ///
    /// Otherwise fails with [`RangeFault::Memory`] if an allocation fails. After a failure the session is unchanged.
    #[tactic(auto, using(crate::proofs::Ranges::not_first_taken))]
    pub fn put_range(&mut self, first: u64, count: u64, range: C) -> Result<(), RangeFault>
        ensures joined { OnOk result (IsRangeJoined C.ChunkRange self.old.runs first count range self.new.runs) }
        ensures placed { OnOk result (PlacesRange C.ChunkRange self.old first count range self.new) }
        ensures placed_size { OnOk result (PlacesRangeSizes C.ChunkRange self.old first count range self.new) }
        ensures size { OnOk result (self.new.size ≡ self.old.size + C.total range) }
        ensures kept { self.new.kept ≡ self.old.kept }
        ensures range { IsErrOf result RangeFault.Range ↔ ¬ CanPlace C.ChunkRange count range }
        ensures overlap { (position : ℕ) → IsErrOf result (RangeFault.Overlap position)
            ↔ (CanPlace C.ChunkRange count range × IsFirstTaken self.old.runs first count position) }
        ensures positions { IsErrOf result RangeFault.Positions
            ↔ (CanPlace C.ChunkRange count range × (meet self.old.runs first count ≡ false)
            × (2 ^ 64 ≤ first + count)) }
        ensures sizes { IsErrOf result RangeFault.Sizes
            ↔ (CanPlace C.ChunkRange count range × (meet self.old.runs first count ≡ false)
            × (first + count < 2 ^ 64) × (2 ^ 64 ≤ self.old.size + C.total range)) }
        ensures errors { IfErr result (λ e. (e ≡ RangeFault.Range)
            ⊎ (((position : ℕ) × (e ≡ RangeFault.Overlap position))
            ⊎ ((e ≡ RangeFault.Positions) ⊎ ((e ≡ RangeFault.Sizes) ⊎ (e ≡ RangeFault.Memory))))) }
        ensures unchanged { OnErr result (self.new ≡ self.old) }
    {
        if count == 0 || range.at_start() || range.at_end() {
            return Err(RangeFault::Range);
        }
        if let Some(position) = self.runs.first_taken(first, count) {
            return Err(RangeFault::Overlap(position));
        }
        first.checked_add(count).ok_or(RangeFault::Positions)?;
        let size = self
            .size
            .checked_add(range.total_size())
            .ok_or(RangeFault::Sizes)?;
        match self.runs.place_range(first, count, range) {
            Ok(()) => {
                self.size = size;
                Ok(())
            }
            Err(error) => Err(RangeFault::from(out_of_memory(error))),
        }
    }

    /// Adds a run after all runs, as saved from another session. The session doesn't learn the hashes of its chunks, so
    /// pass them to [`SessionOf::keep_hashes`].
    ///
    /// A range doesn't know how many chunks it has. If `range` doesn't stand for `end - first` chunks, all calls go by
    /// the positions of the runs as ever, and the root and the file hash are those of the chunks of the ranges.
    ///
    /// Fails with the first of these that applies:
    ///
    /// - [`CoreError::InvalidArguments`] if `end` is at most `first`, if an end of the range is marked, or if the last
    ///   run leaves no free position before `first`;
    /// - [`CoreError::SizeOverflow`] if the sizes of all chunks add up to more than `u64::MAX` bytes;
    /// - [`CoreError::OutOfMemory`] if an allocation fails.
    ///
    /// After a failure the session is unchanged.
    pub fn push_run(&mut self, first: u64, end: u64, range: C) -> Result<(), CoreError>
        ensures pushed { OnOk result (self.new
            ≡ with_last C.ChunkRange self.old (first, record { end = end; range = range })) }
        ensures placed_size { OnOk result ((chunks : List Node) → C.stands range chunks →
            self.new.size ≡ self.old.size + total_size chunks) }
        ensures arguments { IsErrOf result CoreError.InvalidArguments
            ↔ ¬ CanFollow C.ChunkRange self.old.runs (first, record { end = end; range = range }) }
        ensures sizes { IsErrOf result CoreError.SizeOverflow
            ↔ (CanFollow C.ChunkRange self.old.runs (first, record { end = end; range = range })
            × (2 ^ 64 ≤ self.old.size + C.total range)) }
        ensures errors { IfErr result (λ e. (e ≡ CoreError.InvalidArguments)
            ⊎ ((e ≡ CoreError.SizeOverflow) ⊎ (e ≡ CoreError.OutOfMemory))) }
        ensures unchanged { OnErr result (self.new ≡ self.old) }
    {
        if !self.can_push(first, end, &range) {
            return Err(CoreError::InvalidArguments);
        }
        let size = self
            .size
            .checked_add(range.total_size())
            .ok_or(CoreError::SizeOverflow)?;
        self.runs.push(first, end, range)?;
        self.size = size;
        Ok(())
    }

    // Returns whether a run can follow all runs.
    fn can_push(&self, first: u64, end: u64, range: &C) -> bool
        ensures follows { IsTrue result
            ↔ CanFollow C.ChunkRange self.now.runs (first, record { end = end; range = range.now }) }
        ensures all { IsTrue result → All (λ (run : PlacedRun C). run.0 < first) self.now.runs }
    {
        first < end && !range.at_start() && !range.at_end() && self.runs.end_before(first)
    }

    /// Keeps the hashes of some chunks, as if an earlier put had had them. They may be hashes that no chunk of the session
    /// has. The sizes aren't used.
    ///
    /// Fails if an allocation fails. The session then knows the same hashes as before.
    pub fn keep_hashes(&mut self, chunks: &[Node]) -> Result<(), AllocError>
        ensures learned { OnOk result (LearnsHashes H.KeptHashes self.old.kept chunks.now self.new.kept) }
        ensures unchanged { OnErr result (KeepsKnown H.KeptHashes self.old.kept self.new.kept) }
        ensures runs { self.new.runs ≡ self.old.runs }
        ensures size { self.new.size ≡ self.old.size }
    {
        self.kept.keep(self.runs.allocator().clone()?, chunks)?;
        Ok(())
    }

    /// Returns the root and the file hash of all chunks in the order of their positions. The file hash has no salt, so
    /// it is the one under 32 zero bytes.
    ///
    /// Fails with [`SessionFault::Gap`] if the taken positions aren't exactly those from 0 to `total` - 1, before it
    /// allocates. Fails with [`SessionFault::Memory`] if an allocation fails.
    pub fn hashes(&self, total: u64) -> Result<(MerkleHash, MerkleHash), SessionFault>
        ensures root { IfOk result (λ hashes. HaveRoot C.ChunkRange self.now.runs hashes.0) }
        ensures file { IfOk result (λ hashes. HaveFileHash C.ChunkRange self.now.runs hashes.1) }
        ensures placed_root { IfOk result (λ hashes. HoldsOfPlaced C.ChunkRange self.now (λ placed.
            IsRoot (chunks_of placed) hashes.0)) }
        ensures placed_file { IfOk result (λ hashes. HoldsOfPlaced C.ChunkRange self.now (λ placed.
            IsFileHash (chunks_of placed) (replicate 32 0) hashes.1)) }
        ensures cover { ¬ IsErrOf result SessionFault.Gap → Cover total self.now.runs }
        ensures gap { IsErrOf result SessionFault.Gap → ¬ Cover total self.now.runs }
        ensures errors { IfErr result (λ e. (e ≡ SessionFault.Gap) ⊎ (e ≡ SessionFault.Memory)) }
        ensures whole { HoldsOfPlaced C.ChunkRange self.now (λ placed.
            IsWhole total placed ↔ Cover total self.now.runs) }
    {
        let whole = self.runs.whole_range(total)?;
        match hashes_of_open(self.runs.allocator(), whole) {
            Ok(hashes) => Ok(hashes),
            Err(error) => Err(out_of_memory(error).into()),
        }
    }

    /// Returns the root of all chunks in the order of their positions. Fails like [`SessionOf::hashes`].
    pub fn root(&self, total: u64) -> Result<MerkleHash, SessionFault>
        ensures root { IfOk result (HaveRoot C.ChunkRange self.now.runs) }
        ensures placed { IfOk result (λ root. HoldsOfPlaced C.ChunkRange self.now (λ placed.
            IsRoot (chunks_of placed) root)) }
        ensures cover { ¬ IsErrOf result SessionFault.Gap → Cover total self.now.runs }
        ensures gap { IsErrOf result SessionFault.Gap → ¬ Cover total self.now.runs }
        ensures errors { IfErr result (λ e. (e ≡ SessionFault.Gap) ⊎ (e ≡ SessionFault.Memory)) }
        ensures whole { HoldsOfPlaced C.ChunkRange self.now (λ placed.
            IsWhole total placed ↔ Cover total self.now.runs) }
    {
        Ok(self.hashes(total)?.0)
    }

    /// Returns the file hash, without a salt, of all chunks in the order of their positions. It is the one under 32
    /// zero bytes. Fails like [`SessionOf::hashes`].
    pub fn finish(&self, total: u64) -> Result<MerkleHash, SessionFault>
        ensures file { IfOk result (HaveFileHash C.ChunkRange self.now.runs) }
        ensures placed { IfOk result (λ file. HoldsOfPlaced C.ChunkRange self.now (λ placed.
            IsFileHash (chunks_of placed) (replicate 32 0) file)) }
        ensures cover { ¬ IsErrOf result SessionFault.Gap → Cover total self.now.runs }
        ensures gap { IsErrOf result SessionFault.Gap → ¬ Cover total self.now.runs }
        ensures errors { IfErr result (λ e. (e ≡ SessionFault.Gap) ⊎ (e ≡ SessionFault.Memory)) }
        ensures whole { HoldsOfPlaced C.ChunkRange self.now (λ placed.
            IsWhole total placed ↔ Cover total self.now.runs) }
    {
        Ok(self.hashes(total)?.1)
    }

    /// Returns the file hash under a salt of all chunks in the order of their positions. Under 32 zero bytes it is that
    /// of [`SessionOf::finish`]. Fails like [`SessionOf::hashes`].
    pub fn finish_with_salt(&self, total: u64, salt: &[u8; 32]) -> Result<MerkleHash, SessionFault>
        ensures file { IfOk result (HaveSaltedHash C.ChunkRange salt.now self.now.runs) }
        ensures placed { IfOk result (λ file. HoldsOfPlaced C.ChunkRange self.now (λ placed.
            IsFileHash (chunks_of placed) salt.now file)) }
        ensures cover { ¬ IsErrOf result SessionFault.Gap → Cover total self.now.runs }
        ensures gap { IsErrOf result SessionFault.Gap → ¬ Cover total self.now.runs }
        ensures errors { IfErr result (λ e. (e ≡ SessionFault.Gap) ⊎ (e ≡ SessionFault.Memory)) }
        ensures whole { HoldsOfPlaced C.ChunkRange self.now (λ placed.
            IsWhole total placed ↔ Cover total self.now.runs) }
    {
        let root = self.root(total)?;
        Ok(file_hash_of_root(root, self.runs.len() == 0, salt))
    }
}

impl<C: ChunkRange> SessionOf<C> {
    /// Returns whether a hash is known: whether a put had it, or [`SessionOf::keep_hashes`] kept it. It allocates nothing.
    pub fn knows(&self, hash: &MerkleHash) -> bool
        ensures { (known : List Hash) → Knows self.now.kept known → result ≡ is_among known hash.now }
    {
        self.kept.contains(hash)
    }

    /// Forgets all known hashes, and frees their memory, so that each hash counts as new again. The chunks and their
    /// positions are unchanged. Hashes that are kept later take memory of `alloc`.
    pub fn forget_hashes(&mut self, alloc: C::Alloc)
        ensures forgotten { Knows self.new.kept [] }
        ensures runs { self.new.runs ≡ self.old.runs }
        ensures size { self.new.size ≡ self.old.size }
    {
        self.kept.forget_all(alloc);
    }

    /// Returns the number of known hashes: those that puts had and those that [`SessionOf::keep_hashes`] kept, each
    /// counted once. It allocates nothing.
    pub fn num_known_hashes(&self) -> usize
        ensures { (distinct : List Hash) → Knows self.now.kept distinct → IsDistinct hash_eq distinct →
            result ≡ length distinct }
    {
        self.kept.len()
    }

    /// Returns all known hashes, each once, in no particular order. Fails if an allocation fails.
    pub fn known_hashes(&self) -> Result<Vec<MerkleHash, C::Alloc>, AllocError>
        ensures all { IfOk result (λ hashes. Knows self.now.kept hashes.items) }
        ensures each_once { IfOk result (λ hashes. IsDistinct hash_eq hashes.items) }
    {
        self.kept.to_vec(self.runs.allocator().clone()?)
    }
}

impl<C: CopyableRange, H: KeptHashes<C::Alloc>> SessionOf<C, H> {
    /// Puts all runs of another session at their positions, and learns the hashes that it knows. Returns how many of these
    /// are new, as [`SessionOf::put`] does. It doesn't matter which of two sessions is joined to the other, or of many which
    /// two come together first: the result stands for all their chunks.
    ///
    /// Before it allocates, it fails with the first of these that applies:
    ///
    /// - [`RangeFault::Overlap`] if both have taken a position, with such a position;
    /// - [`RangeFault::Sizes`] if the sizes of all chunks add up to more than `u64::MAX` bytes.
    ///
    /// Otherwise fails with [`RangeFault::Memory`] if an allocation fails. After a failure the session has the same
    /// ranges, and knows the same hashes. A session of one run is put in place. For more runs it copies its runs before it
    /// changes them, so the time is proportional to the nodes that both sessions keep.
    #[tactic(auto, using(crate::proofs::JoiningRuns::not_free))]
    pub fn join(&mut self, other: &Self) -> Result<u64, RangeFault>
        ensures placed { OnOk result (StandForBoth C.ChunkRange self.old.runs other.now.runs self.new.runs) }
        ensures taken { OnOk result (HaveBoth self.old.runs other.now.runs self.new.runs) }
        ensures size { OnOk result (self.new.size ≡ self.old.size + other.now.size) }
        ensures learned { OnOk result (LearnsAll H.KeptHashes self.old.kept other.now.kept self.new.kept) }
        ensures new { IfOk result (CountsNewOf H.KeptHashes self.old.kept other.now.kept) }
        ensures overlap { IfErr result (λ e. (position : ℕ) → e ≡ RangeFault.Overlap position →
            AreBothAt self.old.runs other.now.runs position) }
        ensures free { ((position : ℕ) → ¬ IsErrOf result (RangeFault.Overlap position)) →
            AreFree self.old.runs other.now.runs }
        ensures sizes { IsErrOf result RangeFault.Sizes
            ↔ (AreFree self.old.runs other.now.runs × (2 ^ 64 ≤ self.old.size + other.now.size)) }
        ensures errors { IfErr result (λ e. ((position : ℕ) × (e ≡ RangeFault.Overlap position))
            ⊎ ((e ≡ RangeFault.Sizes) ⊎ (e ≡ RangeFault.Memory))) }
        ensures unchanged { OnErr result (IsUnchanged H.KeptHashes self.old self.new) }
    {
        if let Some(position) = self.runs.first_shared(&other.runs) {
            return Err(RangeFault::Overlap(position));
        }
        let size = self.size.checked_add(other.size).ok_or(RangeFault::Sizes)?;
        let learned = self
            .kept
            .keep_all(self.runs.allocator().clone()?, &other.kept)?;
        match self.runs.join(&other.runs) {
            Ok(()) => {
                self.size = size;
                Ok(learned.len() as u64)
            }
            Err(error) => {
                self.kept.give_up(&learned);
                Err(RangeFault::from(out_of_memory(error)))
            }
        }
    }
}

impl<C: CopyableRange> SessionOf<C> {
    /// Returns a copy, which stands for the same chunks. Fails if an allocation fails.
    pub fn try_clone(&self) -> Result<Self, AllocError>
        ensures { IfOk result (λ copy. copy ≡ self.now) }
    {
        Ok(SessionOf {
            runs: self.runs.try_clone()?,
            kept: self.kept.try_clone()?,
            size: self.size,
        })
    }
}

// Adds the sizes of some chunks to a size. Returns `None` if the sum is more than `u64::MAX`.
fn add_sizes(size: u64, chunks: &[Node]) -> Option<u64>
    ensures { SomeIff result (size + total_size chunks.now < 2 ^ 64)
        (size + total_size chunks.now) }
{
    let mut sum = size;
    for (_, size) in chunks {
        sum = sum.checked_add(*size)?;
    }
    Some(sum)
}

// Converts the error of a call on ranges that fails only for lack of memory.
fn out_of_memory(error: CoreError) -> AllocError
    requires { error ≡ CoreError.OutOfMemory }
{
    match error {
        CoreError::OutOfMemory => AllocError,
        _ => unreachable!(),
    }
}

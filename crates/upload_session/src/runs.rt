//! Ranges of chunks by their positions, merged as they become adjacent.

ghost use Rattle.std.specs.Prelude.{◌≡◌, ◌≢◌, ◌↔◌, ◌+◌, ◌^◌, ◌<◌, ◌≤◌, List, ℕ, [], ◌∷◌, ◌++◌, false, length, find, option_map, slice_get, Some, None, All, IfOk, IfErr, IfSome, IfNone, IsSome, IsTrue, OnOk, OnErr};
ghost use Rattle.std.specs.Ordering.{nat_cmp};
ghost use Rattle.std.specs.BTreeMap.{is_at};
ghost use Rattle.std.specs.Map.{lookup};
ghost use Rattle.upload_session.specs.declared.runs.Run.{Run};
ghost use Rattle.xet_roots.specs.Groups.{Node};
ghost use Rattle.xet_roots.specs.Roots.{total_size};
ghost use Rattle.upload_session.specs.Steps.Neighbours.{IsPrevious, IsWithNext, AreAround, IsPutBefore, Places, TakeIn};
ghost use Rattle.upload_session.specs.Steps.OpenRuns.{IsOpen, AreOpen, HaveRoom, HaveRoomFor, GrowBy, size_at, sizes_of};
ghost use Rattle.upload_session.specs.Gaps.{num_positions, AllTaken, IsFirstTaken, IsNextGap};
ghost use Rattle.upload_session.specs.Session.{Placed, PlacedRun, ends_after, meet, place, size_of_runs, AreApart, AreBothAt, AreFree, AreJoined, Cover, EndBefore, HaveBoth, StandFor, StandForBoth};

use crate::session_fault::SessionFault;
use chunk_ranges::chunk_range::{ChunkRange, CopyableRange};
use std::alloc::AllocError;
use std::collections::BTreeMap;
use std::marker::Model;
use xet_roots::CoreError;
use xet_roots::aggregated_hashes::Node;

// What is kept of a run of adjacent taken positions.
#[derive(Drop)]
struct Run<C> {
    // The position after the last one.
    end: u64,
    // The range of the chunks.
    range: C,
}

impl<C: CopyableRange> Clone for Run<C> {
    ghost is_clone = { λ run copy. copy ≡ run };

    fn clone(&self) -> Result<Self, AllocError> {
        match self.range.try_clone() {
            Ok(range) => Ok(Run {
                end: self.end,
                range,
            }),
            Err(_) => Err(AllocError),
        }
    }
}

/// The runs of adjacent taken positions. Each has one range of its chunks, which is open at both ends.
#[derive(Drop)]
pub struct Runs<C: ChunkRange> {
    // The runs by their first positions.
    runs: BTreeMap<u64, Run<C>, C::Alloc>,
    alloc: C::Alloc,
}

impl<C: ChunkRange> Model for Runs<C> {
    ghost use Rattle.std.specs.Prelude.{List};
    ghost use Rattle.upload_session.specs.Session.{PlacedRun};

    ghost Value = { List (PlacedRun C) };

    ghost view = { λ stored. stored.runs.entries };
}

impl<C: CopyableRange> Runs<C> {
    /// Returns a copy. Fails if an allocation fails.
    pub fn try_clone(&self) -> Result<Self, AllocError>
        ensures { IfOk result (λ copy. copy ≡ self.now) }
    {
        Ok(Runs {
            runs: self.runs.clone()?,
            alloc: self.alloc.clone()?,
        })
    }

    /// Places copies of all runs of another. No position may be taken by both. One run is placed in place; for more, all
    /// runs are copied first.
    ///
    /// Fails with [`CoreError::OutOfMemory`] if an allocation fails. After a failure nothing has changed.
    pub fn join(&mut self, other: &Self) -> Result<(), CoreError>
        requires apart { AreApart self.old }
        requires others_apart { AreApart other.now }
        requires open { AreOpen C.ChunkRange self.old }
        requires others_open { AreOpen C.ChunkRange other.now }
        requires room { size_of_runs C.ChunkRange self.old + size_of_runs C.ChunkRange other.now < 2 ^ 64 }
        requires free { AreFree self.old other.now }
        ensures placed { OnOk result (StandForBoth C.ChunkRange self.old other.now self.new) }
        ensures taken { OnOk result (HaveBoth self.old other.now self.new) }
        ensures apart { OnOk result (AreApart self.new) }
        ensures open { OnOk result (AreOpen C.ChunkRange self.new) }
        ensures sizes { OnOk result (size_of_runs C.ChunkRange self.new
            ≡ size_of_runs C.ChunkRange self.old + size_of_runs C.ChunkRange other.now) }
        ensures errors { IfErr result (λ e. e ≡ CoreError.OutOfMemory) }
        ensures unchanged { OnErr result (self.new ≡ self.old) }
    {
        let Some((first, run)) = other.runs.first_key_value() else {
            return Ok(());
        };
        if 1 < other.runs.len() {
            *self = self.joined(other)?;
            return Ok(());
        }
        let (first, end) = (*first, run.end);
        self.place_range(first, end - first, run.range.try_clone()?)?;
        Ok(())
    }

    // Returns the runs of both, with those joined that are adjacent. No position may be taken by both.
    fn joined(&self, other: &Self) -> Result<Self, CoreError>
        requires apart { AreApart self.now }
        requires others_apart { AreApart other.now }
        requires open { AreOpen C.ChunkRange self.now }
        requires others_open { AreOpen C.ChunkRange other.now }
        requires room { size_of_runs C.ChunkRange self.now + size_of_runs C.ChunkRange other.now < 2 ^ 64 }
        requires free { AreFree self.now other.now }
        ensures placed { IfOk result (StandForBoth C.ChunkRange self.now other.now) }
        ensures taken { IfOk result (HaveBoth self.now other.now) }
        ensures apart { IfOk result AreApart }
        ensures open { IfOk result (AreOpen C.ChunkRange) }
        ensures sizes { IfOk result (λ all. size_of_runs C.ChunkRange all
            ≡ size_of_runs C.ChunkRange self.now + size_of_runs C.ChunkRange other.now) }
        ensures errors { IfErr result (λ e. e ≡ CoreError.OutOfMemory) }
    {
        let mut all = self.try_clone()?;
        'runs: for (first, run) in &other.runs {
            let (first, end) = (*first, run.end);
            all.place_range(first, end - first, run.range.try_clone()?)?;
        }
        Ok(all)
    }
}

impl<C: ChunkRange> Runs<C> {
    /// Makes it without runs. The map of the runs allocates by `of_runs`. Each range allocates by a clone of `alloc`.
    pub fn new(of_runs: C::Alloc, alloc: C::Alloc) -> Self
        ensures { result ≡ [] }
    {
        Runs {
            runs: BTreeMap::new(of_runs),
            alloc,
        }
    }

    /// Returns the allocator of the ranges.
    pub fn allocator(&self) -> &C::Alloc {
        &self.alloc
    }

    /// Returns whether a position is taken. It allocates nothing.
    pub fn taken(&self, position: u64) -> bool
        requires { AreApart self.now }
        ensures { result ≡ meet self.now position 1 }
    {
        match self.runs.range(..=position).next_back() {
            Some((_, run)) => position < run.end,
            None => false,
        }
    }

    /// Returns whether one of `count` positions from `first` on is taken. `count` must not be 0. It allocates nothing.
    pub fn overlap(&self, first: u64, count: u64) -> bool
        requires some { 0 < count }
        requires apart { AreApart self.now }
        ensures { result ≡ meet self.now first count }
    {
        if self.taken(first) {
            return true;
        }
        match self.runs.range(first..).next() {
            Some((next, _)) => *next - first < count,
            None => false,
        }
    }

    /// Returns the first of `count` positions from `first` on that is taken. `count` must not be 0. It allocates nothing.
    pub fn first_taken(&self, first: u64, count: u64) -> Option<u64>
        requires some { 0 < count }
        requires apart { AreApart self.now }
        ensures some { IfSome result (λ position. IsFirstTaken self.now first count position) }
        ensures none { IfNone result (meet self.now first count ≡ false) }
    {
        match self.run_from(first) {
            Some((begin, _, _)) => {
                if begin <= first {
                    Some(first)
                } else if begin - first < count {
                    Some(begin)
                } else {
                    None
                }
            }
            None => None,
        }
    }

    /// Returns the first position that both have taken. It allocates nothing.
    pub fn first_shared(&self, other: &Self) -> Option<u64>
        requires apart { AreApart self.now }
        requires others_apart { AreApart other.now }
        ensures some { IfSome result (AreBothAt self.now other.now) }
        ensures none { IfNone result (AreFree self.now other.now) }
    {
        'runs: for (first, run) in &other.runs {
            let (first, end) = (*first, run.end);
            if let Some(position) = self.first_taken(first, end - first) {
                return Some(position);
            }
        }
        None
    }

    /// Returns the number of runs. It allocates nothing.
    pub fn len(&self) -> usize
        ensures { result ≡ length self.now }
    {
        self.runs.len()
    }

    /// Returns the first position and the range of a run, or `None` if there is no such run. Runs are numbered from 0,
    /// by rising position. It allocates nothing.
    pub fn nth(&self, i: usize) -> Option<(u64, &C)>
        ensures { option_map {U = ℕ × C} (λ shown. (shown.0, shown.1.now)) result
            ≡ option_map {U = ℕ × C} (λ run. (run.0, run.1.range)) (slice_get self.now i) }
    {
        let (first, run) = self.runs.iter().nth(i)?;
        Some((*first, &run.range))
    }

    /// Returns the run that contains a position, or else the next one: its first position, the position after its last
    /// one, and its range. Returns `None` if all runs end before. It allocates nothing.
    pub fn run_from(&self, position: u64) -> Option<(u64, u64, &C)>
        requires { AreApart self.now }
        ensures { option_map {U = PlacedRun C} (λ found. (found.0, record { end = found.1; range = found.2.now })) result
            ≡ find (ends_after position) self.now }
    {
        if self.taken(position) {
            let (first, run) = self.runs.range(..=position).next_back()?;
            return Some((*first, run.end, &run.range));
        }
        let (first, run) = self.runs.range(position..).next()?;
        Some((*first, run.end, &run.range))
    }

    /// Returns the first gap from a position on and below `total`: its first position and the position after its last one.
    /// Returns `None` if each of these positions is taken. It allocates nothing.
    pub fn next_gap(&self, position: u64, total: u64) -> Option<(u64, u64)>
        requires { AreApart self.now }
        ensures gap { IfSome result (λ gap. IsNextGap self.now position total gap.0 gap.1) }
        ensures none { IfNone result (AllTaken self.now position total) }
    {
        let first = self.free_from(position);
        if total <= first {
            return None;
        }
        let end = match self.run_from(first) {
            Some((next, _, _)) if next < total => next,
            _ => total,
        };
        Some((first, end))
    }

    // Returns the first free position from a position on.
    fn free_from(&self, position: u64) -> u64
        requires { AreApart self.now }
        ensures from { position ≤ result }
        ensures taken { AllTaken self.now position result }
        ensures free { meet self.now result 1 ≡ false }
    {
        match self.run_from(position) {
            Some((first, end, _)) if first <= position => end,
            _ => position,
        }
    }

    /// Returns the number of taken positions. It allocates nothing. The time is proportional to the number of runs.
    pub fn num_positions(&self) -> u64
        requires { AreApart self.now }
        ensures { result ≡ num_positions self.now }
    {
        let mut count = 0;
        'runs: for (first, run) in &self.runs {
            let (first, end) = (*first, run.end);
            count += end - first;
        }
        count
    }

    /// Returns the range of all chunks, or `None` if there are no chunks. Fails with [`SessionFault::Gap`] if the taken
    /// positions aren't exactly those below `total`. It allocates nothing.
    pub fn whole_range(&self, total: u64) -> Result<Option<&C>, SessionFault>
        requires { AreOpen C.ChunkRange self.now }
        ensures whole { OnOk result (Cover total self.now) }
        ensures gap { OnErr result (¬ Cover total self.now) }
        ensures errors { IfErr result (λ e. e ≡ SessionFault.Gap) }
        ensures none { IfOk result (λ whole. IfNone whole (self.now ≡ [])) }
        ensures range { IfOk result (λ whole. IfSome whole (λ range.
            (run : PlacedRun C) × (self.now ≡ run ∷ []) × (range.now ≡ run.1.range))) }
        ensures marks { IfOk result (λ whole. IfSome whole (λ range. IsOpen C.ChunkRange range.now)) }
    {
        let Some((first, run)) = self.runs.first_key_value() else {
            return if total == 0 {
                Ok(None)
            } else {
                Err(SessionFault::Gap)
            };
        };
        if 0 < *first || run.end != total || 1 < self.runs.len() {
            return Err(SessionFault::Gap);
        }
        Ok(Some(&run.range))
    }

    /// Returns whether the last run, if there is one, begins and ends before a position. It allocates nothing.
    pub fn end_before(&self, position: u64) -> bool
        ensures last { IsTrue result ↔ EndBefore self.now position }
        ensures all { IsTrue result → All (λ (run : PlacedRun C). run.0 < position) self.now }
    {
        match self.runs.last_key_value() {
            Some((first, run)) => *first < position && run.end < position,
            None => true,
        }
    }

    /// Adds a run after all others, which must begin before it. Fails if an allocation fails. After a failure nothing
    /// has changed.
    pub fn push(&mut self, first: u64, end: u64, range: C) -> Result<(), AllocError>
        requires { All (λ (run : PlacedRun C). run.0 < first) self.old }
        ensures pushed { OnOk result (self.new ≡ self.old ++ (first, record { end = end; range = range }) ∷ []) }
        ensures unchanged { OnErr result (self.new ≡ self.old) }
    {
        self.runs.insert(first, Run { end, range })?;
        Ok(())
    }

    /// Places chunks, at least one, at adjacent positions that aren't taken. Fails with [`CoreError::OutOfMemory`] if
    /// an allocation fails. After a failure nothing has changed.
    pub fn place(&mut self, first: u64, chunks: &[Node]) -> Result<(), CoreError>
        requires positions { first + length chunks.now < 2 ^ 64 }
        requires some { 0 < length chunks.now }
        requires room { HaveRoom C.ChunkRange (total_size chunks.now) self.old }
        requires apart { AreApart self.old }
        requires free { meet self.old first (length chunks.now) ≡ false }
        ensures joined { OnOk result (AreJoined C.ChunkRange self.old first chunks.now self.new) }
        ensures placed { OnOk result ((placed : List Placed) → StandFor C.ChunkRange self.old placed →
            StandFor C.ChunkRange self.new (place placed first chunks.now)) }
        ensures apart { OnOk result (AreApart self.new) }
        ensures sizes { OnOk result (GrowBy C.ChunkRange (total_size chunks.now) self.old self.new) }
        ensures errors { IfErr result (λ e. e ≡ CoreError.OutOfMemory) }
        ensures unchanged { OnErr result (self.new ≡ self.old) }
    {
        let made = C::from_chunks(self.alloc.clone()?, false, chunks, false)?;
        self.place_range(first, chunks.len() as u64, made)?;
        Ok(())
    }

    /// Places a range of `count` chunks, open at both ends, at adjacent positions that aren't taken. Fails with
    /// [`CoreError::OutOfMemory`] if an allocation fails. After a failure nothing has changed.
    ///
    /// If there is a run right before the range and one right after it, it changes the range that keeps more nodes in
    /// place.
    pub fn place_range(&mut self, first: u64, count: u64, made: C) -> Result<(), CoreError>
        requires positions { first + count < 2 ^ 64 }
        requires some { 0 < count }
        requires room { HaveRoomFor C.ChunkRange made self.old }
        requires apart { AreApart self.old }
        requires free { meet self.old first count ≡ false }
        ensures taken { OnOk result (TakeIn C.ChunkRange self.old first count made self.new) }
        ensures sizes { OnOk result (GrowBy C.ChunkRange (C.total made) self.old self.new) }
        ensures errors { IfErr result (λ e. e ≡ CoreError.OutOfMemory) }
        ensures unchanged { OnErr result (self.new ≡ self.old) }
    {
        let after = first + count;
        let previous = self.run_before(first);
        if self.next_stays(first, previous, &made, after) {
            self.place_before_next(first, previous, made, after)?;
        } else {
            self.place_after_previous(first, previous, made, after)?;
        }
        Ok(())
    }

    // Returns whether the new range `made` should be merged into the run that begins right after it. That is so if this
    // run keeps more nodes than the run that ends right before, or than `made` if there is no such run.
    fn next_stays(&self, first: u64, previous: Option<u64>, made: &C, after: u64) -> bool
        ensures next { IsTrue result → IsSome (lookup (is_at (nat_cmp after)) self.now) }
        ensures free { IsTrue result → IfNone previous (lookup (is_at (nat_cmp first)) self.now ≡ None) }
    {
        let Some(next) = self.runs.get(&after) else {
            return false;
        };
        let nodes = next.range.num_nodes();
        match previous {
            Some(begin) => match self.runs.get(&begin) {
                Some(run) => run.range.num_nodes() < nodes,
                None => false,
            },
            None => made.num_nodes() < nodes && !self.runs.contains_key(&first),
        }
    }

    // Appends `made`, and then the range of the run after it, to the run before it. If there is no run before it, they
    // become a new run.
    fn place_after_previous(
        &mut self,
        first: u64,
        previous: Option<u64>,
        made: C,
        after: u64,
    ) -> Result<(), CoreError>
        requires previous { IsPrevious self.old first previous }
        requires ahead { first < after }
        requires room { HaveRoomFor C.ChunkRange made self.old }
        ensures placed { OnOk result (Places C.ChunkRange self.old first after made self.new) }
        ensures sizes { OnOk result (GrowBy C.ChunkRange (C.total made) self.old self.new) }
        ensures errors { IfErr result (λ e. e ≡ CoreError.OutOfMemory) }
        ensures unchanged { OnErr result (self.new ≡ self.old) }
    {
        let made = self.with_next(made, after)?;
        match previous {
            Some(begin) => {
                if let Some(run) = self.runs.get_mut(&begin) {
                    run.range.join(&made.range)?;
                    run.end = made.end;
                }
            }
            None => {
                self.runs.insert(first, made)?;
            }
        }
        self.runs.remove(&after);
        Ok(())
    }

    // Puts `made`, and before it the range of the run before it, if there is one, in front of the run after it.
    fn place_before_next(
        &mut self,
        first: u64,
        previous: Option<u64>,
        made: C,
        after: u64,
    ) -> Result<(), CoreError>
        requires previous { IsPrevious self.old first previous }
        requires ahead { first < after }
        requires room { HaveRoomFor C.ChunkRange made self.old }
        requires next { IsSome (lookup (is_at (nat_cmp after)) self.old) }
        requires free { IfNone previous (lookup (is_at (nat_cmp first)) self.old ≡ None) }
        ensures placed { OnOk result (Places C.ChunkRange self.old first after made self.new) }
        ensures sizes { OnOk result (GrowBy C.ChunkRange (C.total made) self.old self.new) }
        ensures errors { IfErr result (λ e. e ≡ CoreError.OutOfMemory) }
        ensures unchanged { OnErr result (self.new ≡ self.old) }
    {
        match previous {
            Some(begin) => {
                let front = self.with_previous(begin, &made)?;
                self.put_before_next(begin, front, after)?;
            }
            None => self.begin_before_next(first, made, after)?,
        }
        Ok(())
    }

    // Puts a range in front of that of the run at `after`, in place. This run then replaces the run at `begin`, whose
    // chunks `front` begins with.
    fn put_before_next(&mut self, begin: u64, front: C, after: u64) -> Result<(), CoreError>
        requires begin { IsSome (lookup (is_at (nat_cmp begin)) self.old) }
        requires next { IsSome (lookup (is_at (nat_cmp after)) self.old) }
        requires apart { begin ≢ after }
        requires front { IsOpen C.ChunkRange front }
        requires room { AreOpen C.ChunkRange self.old
            × (C.total front + size_at C.ChunkRange after self.old < 2 ^ 64) }
        ensures put { OnOk result ((others : List (PlacedRun C)) (last next : Run C) (back : List (PlacedRun C)) →
            self.old ≡ others ++ (begin, last) ∷ (after, next) ∷ back → AreAround begin after others back →
            IsPutBefore C.ChunkRange begin front next others back self.new) }
        ensures sizes { OnOk result (AreOpen C.ChunkRange self.new
            × (sizes_of C.ChunkRange self.new + size_at C.ChunkRange begin self.old
            ≤ sizes_of C.ChunkRange self.old + C.total front)) }
        ensures errors { IfErr result (λ e. e ≡ CoreError.OutOfMemory) }
        ensures unchanged { OnErr result (self.new ≡ self.old) }
    {
        if let Some(next) = self.runs.get_mut(&after) {
            next.range.prepend(front)?;
        }
        if let Some(next) = self.runs.remove(&after) {
            if let Some(run) = self.runs.get_mut(&begin) {
                *run = next;
            }
        }
        Ok(())
    }

    // Puts a range in front of that of the run at `after`, in place. This run then stands at `first`. Since the entry
    // there needs memory, it is made first. It is removed again if the run can't be changed.
    fn begin_before_next(&mut self, first: u64, made: C, after: u64) -> Result<(), CoreError>
        requires free { lookup (is_at (nat_cmp first)) self.old ≡ None }
        requires next { IsSome (lookup (is_at (nat_cmp after)) self.old) }
        requires ahead { first < after }
        requires room { HaveRoomFor C.ChunkRange made self.old }
        ensures put { OnOk result ((others : List (PlacedRun C)) (next : Run C) (back : List (PlacedRun C)) →
            self.old ≡ others ++ (after, next) ∷ back → AreAround first after others back →
            IsPutBefore C.ChunkRange first made next others back self.new) }
        ensures sizes { OnOk result (GrowBy C.ChunkRange (C.total made) self.old self.new) }
        ensures errors { IfErr result (λ e. e ≡ CoreError.OutOfMemory) }
        ensures unchanged { OnErr result (self.new ≡ self.old) }
    {
        let range = C::from_chunks(self.alloc.clone()?, false, &[], false)?;
        self.runs.insert(first, Run { end: after, range })?;
        match self.put_before_next(first, made, after) {
            Ok(()) => Ok(()),
            Err(error) => {
                self.runs.remove(&first);
                Err(error)
            }
        }
    }

    // Returns a range of the chunks of the run at `begin`, followed by those of `made`.
    fn with_previous(&self, begin: u64, made: &C) -> Result<C, CoreError>
        requires made { IsOpen C.ChunkRange made.now }
        requires room { AreOpen C.ChunkRange self.now
            × (size_at C.ChunkRange begin self.now + C.total made.now < 2 ^ 64) }
        ensures stands { IfOk result (λ front. (last : Run C) →
            lookup (is_at (nat_cmp begin)) self.now ≡ Some last → (a b : List Node) →
            C.stands last.range a → C.stands made.now b → C.stands front (a ++ b)) }
        ensures start { IfOk result (λ front. C.start front ≡ false) }
        ensures end { IfOk result (λ front. C.end front ≡ C.end made.now) }
        ensures total { IfOk result (λ front.
            C.total front ≡ size_at C.ChunkRange begin self.now + C.total made.now) }
        ensures errors { IfErr result (λ e. e ≡ CoreError.OutOfMemory) }
    {
        let mut front = C::from_chunks(self.alloc.clone()?, false, &[], false)?;
        if let Some(run) = self.runs.get(&begin) {
            front.join(&run.range)?;
        }
        front.join(made)?;
        Ok(front)
    }

    // Returns a run of the chunks of `made`, followed by those of the run at `after`, if there is one.
    fn with_next(&self, made: C, after: u64) -> Result<Run<C>, CoreError>
        requires made { IsOpen C.ChunkRange made }
        requires room { AreOpen C.ChunkRange self.now
            × (C.total made + size_at C.ChunkRange after self.now < 2 ^ 64) }
        ensures stands { IfOk result (λ run. IsWithNext C.ChunkRange self.now after made run) }
        ensures marks { IfOk result (λ run. IsOpen C.ChunkRange run.range) }
        ensures total { IfOk result (λ run.
            C.total run.range ≡ C.total made + size_at C.ChunkRange after self.now) }
        ensures errors { IfErr result (λ e. e ≡ CoreError.OutOfMemory) }
    {
        let mut range = made;
        let end = match self.runs.get(&after) {
            Some(next) => {
                range.join(&next.range)?;
                next.end
            }
            None => after,
        };
        Ok(Run { end, range })
    }

    // Returns the first position of the run that ends right before a position.
    fn run_before(&self, position: u64) -> Option<u64>
        ensures { IsPrevious self.now position result }
    {
        match self.runs.range(..=position).next_back() {
            Some((start, run)) if run.end == position => Some(*start),
            _ => None,
        }
    }
}

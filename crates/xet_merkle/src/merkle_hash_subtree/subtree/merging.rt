//! Merges the subtrees of adjacent ranges, without their chunks.

ghost use Rattle.std.specs.Prelude.{◌≡◌, ◌+◌, ◌-◌, ◌*◌, ◌^◌, ◌<◌, ◌≤◌, List, [], ◌∷◌, length, flat_map, IfOk, IfErr};
ghost use Rattle.xet_roots.specs.Groups.{Node};
ghost use Rattle.xet_roots.specs.Roots.{parent_by, parent};
ghost use Rattle.subtree_levels.specs.Levels.{levels_size, node_count};
ghost use Rattle.subtree_levels.specs.Subtree.{Subtree, IsCanonical};
ghost use Rattle.xet_merkle.specs.Merging.{IsMerged, IsMergedBy, MergeRefusals, NoMarkBetweenSubtrees, start_mark, end_mark, ranges_size, AreCanonical};
ghost use Rattle.chunk_ranges.specs.Ranges.{Refusals};
ghost use Rattle.subtree_levels.specs.Steps.LevelMerging.{front_of, back_of};
ghost use Rattle.subtree_levels.specs.Steps.Building.{AreMergeable};
ghost use Rattle.xet_merkle.specs.Steps.SubtreeMerging.{MergesTo, RefusalOf};

use super::MerkleHashSubtree;
use chunk_ranges::adjacent::Passed;
use std::alloc::Allocator;
use subtree_levels::levels::Operand;
use subtree_levels::merge_levels::merge_levels;
use subtree_levels::split::Marks;
use xet_roots::error::CoreError;
use xet_roots::parent_maker::{ParentHashes, ParentMaker};

// Returns why adjacent ranges can't be merged, if there is a reason other than memory.
fn refusal<A: Allocator + Clone>(ranges: &[MerkleHashSubtree<A>]) -> Option<CoreError>
    ensures { RefusalOf ranges.now result }
{
    let mut passed = Passed::new();
    'passing: for range in ranges {
        passed = passed.pass(range);
    }
    passed.refusal()
}

// Returns the marks and the size of two adjacent ranges together. Fails if they can't be merged.
fn whole_of<A: Allocator>(
    front: &MerkleHashSubtree<A>,
    back: &MerkleHashSubtree<A>,
) -> Result<(Marks, u64), CoreError>
    ensures mergeable { IfOk result (λ whole. AreMergeable front.now back.now whole.0.at_start whole.0.at_end whole.1) }
    ensures refusals { MergeRefusals front.now back.now result }
{
    let marks = Marks {
        at_start: front.at_start(),
        at_end: back.at_end(),
    };
    if front.at_end() || back.at_start() {
        return Err(CoreError::InvalidArguments);
    }
    let Some(size) = front.total_size().checked_add(back.total_size()) else {
        return Err(CoreError::SizeOverflow);
    };
    // It treats more than `usize::MAX` nodes as a failed allocation, since no memory holds them.
    let Some(_nodes) = front.num_nodes().checked_add(back.num_nodes()) else {
        return Err(CoreError::OutOfMemory);
    };
    Ok((marks, size))
}

// Does the same for a range and another one. `kept` says which operand the first is.
fn whole_with<A: Allocator>(
    this: &MerkleHashSubtree<A>,
    other: &MerkleHashSubtree<A>,
    kept: Operand,
) -> Result<(Marks, u64), CoreError>
    ensures mergeable { IfOk result (λ whole.
        AreMergeable (front_of kept this.now other.now) (back_of kept this.now other.now) whole.0.at_start whole.0.at_end whole.1) }
    ensures refusals { MergeRefusals (front_of kept this.now other.now) (back_of kept this.now other.now) result }
{
    match kept {
        Operand::Front => whole_of(this, other),
        Operand::Back => whole_of(other, this),
    }
}

impl<A: Allocator + Clone> MerkleHashSubtree<A> {
    /// Merges the subtree of the range that follows into this one. This one becomes the canonical subtree of the
    /// concatenated list. It keeps its own start mark and takes the end mark of the other.
    ///
    /// Fails with [`CoreError::InvalidArguments`] if this range is marked at its end or the other at its start, even if
    /// one of them is empty. Otherwise fails with [`CoreError::SizeOverflow`] if the two sizes add up to more than
    /// `u64::MAX`, before it allocates. Fails with [`CoreError::OutOfMemory`] if an allocation fails. After a failure
    /// this subtree is unchanged.
    pub fn merge_into(&mut self, other: &Self) -> Result<(), CoreError>
        ensures merged { IfOk result (λ _. IsMerged self.old other.now self.new) }
        ensures unchanged { IfErr result (λ _. self.new ≡ self.old) }
        ensures refusals { MergeRefusals self.old other.now result }
    {
        let _maker = self.merge_with(other, Operand::Front, ParentHashes::new())?;
        Ok(())
    }

    /// Does the same as [`merge_into`](Self::merge_into), and returns how many parents were hashed. That is at most
    /// half the number of nodes in both ranges, plus one for each level of the merged range but the top.
    ///
    /// Fails like `merge_into`, in the same order. After a failure this subtree is unchanged.
    pub fn merge_into_counted(&mut self, other: &Self) -> Result<u128, CoreError>
        ensures merged { IfOk result (λ count. IsMergedBy parent count self.old other.now self.new) }
        ensures bound { IfOk result (λ count.
            2 * count ≤ node_count self.old.levels + node_count other.now.levels + 2 * length self.new.levels) }
        ensures closer_bound { IfOk result (λ count.
            2 * count ≤ node_count self.old.levels + node_count other.now.levels + 2 * (length self.new.levels - 1)) }
        ensures unchanged { IfErr result (λ _. self.new ≡ self.old) }
        ensures refusals { MergeRefusals self.old other.now result }
    {
        let maker = self.merge_with(other, Operand::Front, ParentHashes::new())?;
        Ok(maker.made())
    }

    /// Does the same as [`merge_into`](Self::merge_into), but takes the hash of each parent from `maker`. The maker
    /// must have made no hash before. The call returns it with the number of hashes that it made. If both ranges have
    /// the parents of this maker, so has the merged one.
    ///
    /// Fails like `merge_into`, in the same order. After a failure this subtree is unchanged, and the maker is
    /// consumed.
    pub fn merge_into_by<P: ParentMaker>(&mut self, other: &Self, maker: P) -> Result<P, CoreError>
        requires { P.count maker ≡ 0 }
        ensures merged { IfOk result (λ maker. IsMergedBy (parent_by P.hash_of) (P.count maker) self.old other.now self.new) }
        ensures bound { IfOk result (λ maker.
            2 * P.count maker ≤ node_count self.old.levels + node_count other.now.levels + 2 * length self.new.levels) }
        ensures closer_bound { IfOk result (λ maker.
            2 * P.count maker ≤ node_count self.old.levels + node_count other.now.levels + 2 * (length self.new.levels - 1)) }
        ensures unchanged { IfErr result (λ _. self.new ≡ self.old) }
        ensures refusals { MergeRefusals self.old other.now result }
    {
        self.merge_with(other, Operand::Front, maker)
    }

    // Merges this range's subtree with another one, in place. `kept` says which operand this range is.
    pub(super) fn merge_with<P: ParentMaker>(
        &mut self,
        other: &Self,
        kept: Operand,
        maker: P,
    ) -> Result<P, CoreError>
        requires { P.count maker ≡ 0 }
        ensures merged { IfOk result (λ maker. IsMergedBy (parent_by P.hash_of) (P.count maker) (front_of kept self.old other.now) (back_of kept self.old other.now) self.new) }
        ensures bound { IfOk result (λ maker.
            2 * P.count maker ≤ node_count self.old.levels + node_count other.now.levels + 2 * (length self.new.levels - 1)) }
        ensures unchanged { IfErr result (λ _. self.new ≡ self.old) }
        ensures refusals { MergeRefusals (front_of kept self.old other.now) (back_of kept self.old other.now) result }
    {
        let mut maker = maker;
        let (marks, size) = whole_with(self, other, kept)?;
        merge_levels(&mut self.levels, other.levels(), kept, marks, &mut maker)?;
        self.at_start = marks.at_start;
        self.at_end = marks.at_end;
        self.total_size = size;
        Ok(maker)
    }

    /// Merges adjacent ranges, in order. Returns the canonical subtree of the concatenated list, with the start mark of
    /// the first range and the end mark of the last one. With no ranges it is the empty subtree with both marks. With
    /// one it is a copy.
    ///
    /// Fails with [`CoreError::InvalidArguments`] if a range other than the first is marked at its start, or one other
    /// than the last at its end. Otherwise fails with [`CoreError::SizeOverflow`] if the sizes of all ranges add up to
    /// more than `u64::MAX`, before it allocates. Fails with [`CoreError::OutOfMemory`] if an allocation fails.
    pub fn merge(alloc: A, ranges: &[MerkleHashSubtree<A>]) -> Result<Self, CoreError>
        ensures canonical { IfOk result (λ merged. (lists : List (List Node)) →
            AreCanonical ranges.now lists → IsCanonical merged (flat_map (λ list. list) lists)) }
        ensures start { IfOk result (λ merged. merged.at_start ≡ start_mark ranges.now) }
        ensures end { IfOk result (λ merged. merged.at_end ≡ end_mark ranges.now) }
        ensures size { IfOk result (λ merged. levels_size merged.levels ≡ ranges_size ranges.now) }
        ensures copy { IfOk result (λ merged. (range : Subtree) → ranges.now ≡ range ∷ [] → merged ≡ range) }
        ensures refusals { Refusals (NoMarkBetweenSubtrees ranges.now) (ranges_size ranges.now) result }
    {
        if let Some(error) = refusal(ranges) {
            return Err(error);
        }
        match ranges {
            [] => Self::from_chunks(alloc, true, &[], true),
            [first, others @ ..] => Ok(first.copy(alloc)?.merged_with(others)?),
        }
    }

    // Merges ranges that follow into this one, one after another, so that each node is copied once.
    fn merged_with(self, others: &[MerkleHashSubtree<A>]) -> Result<Self, CoreError>
        requires marks { NoMarkBetweenSubtrees (self ∷ others.now) }
        requires fits { ranges_size (self ∷ others.now) < 2 ^ 64 }
        ensures merges { IfOk result (λ merged. MergesTo (self ∷ others.now) (merged ∷ [])) }
        ensures copy { IfOk result (λ merged. others.now ≡ [] → merged ≡ self) }
        ensures errors { IfErr result (λ e. e ≡ CoreError.OutOfMemory) }
    {
        let mut merged = self;
        'others: for other in others {
            merged.merge_into(other)?;
        }
        Ok(merged)
    }
}

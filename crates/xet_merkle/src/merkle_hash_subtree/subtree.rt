//! The canonical subtree of a list of chunks.

ghost use Rattle.std.specs.Prelude.{◌≡◌, ◌^◌, ◌<◌, ◌≤◌, ◌↔◌, ◌⊎◌, ◌+◌, List, [], length, map, IfOk, IfErr, IsErrOf, IfSome, IsSome, IsTrue};
ghost use Rattle.xet_roots.specs.Groups.{Node};
ghost use Rattle.xet_roots.specs.Roots.{total_size, IsRoot};
ghost use Rattle.subtree_levels.specs.Levels.{top_hash, hash_of_first, left_at, right_at, node_count, levels_size};
ghost use Rattle.subtree_levels.specs.Subtree.{Subtree, IsCanonical, same_subtree};
ghost use Rattle.subtree_levels.specs.Steps.SubtreeEquality.{same_subtree-per, same_subtree-equiv};
ghost use Rattle.subtree_levels.specs.WellFormed.{IsWellFormed};
ghost use Rattle.subtree_levels.specs.Steps.Building.{IsStored};

mod as_range;
mod json;
mod merging;

use std::alloc::{AllocError, Allocator, Global};
use std::marker::Model;
use subtree_levels::collapse::collapse_chunks;
use subtree_levels::levels::{LevelNodes, copy_levels, count_nodes, left_at, right_at, top};
use xet_hash::data_hash::MerkleHash;
use xet_roots::aggregated_hashes::Node;
use xet_roots::as_node::{AsNode, total_size_of};
use xet_roots::error::CoreError;

/// What is known of the tree over a list of chunks without the chunks before and after it. On each level it keeps the
/// nodes on either side whose groups may still change. The start of the list is marked if no chunk comes before it, and
/// the end if none comes after it.
#[derive(Debug, Drop)]
pub struct MerkleHashSubtree<A: Allocator = Global> {
    at_start: bool,
    at_end: bool,
    // From the chunks up, at least one.
    levels: Vec<LevelNodes<A>, A>,
    // The sum of the sizes of all nodes.
    total_size: u64,
}

impl<A: Allocator> Model for MerkleHashSubtree<A> {
    ghost Value = { Subtree };

    ghost view = { λ stored. record {
      at_start = stored.at_start;
      at_end = stored.at_end;
      levels = stored.levels.items;
    } };

    ghost invariant = { λ stored. IsStored stored.at_start stored.at_end stored.levels.items stored.total_size };
}

// Returns the hash of the first of some nodes, or the default hash.
fn first_hash(nodes: &[Node]) -> MerkleHash
    ensures { result ≡ hash_of_first nodes.now }
{
    match nodes {
        [] => MerkleHash::default(),
        [(hash, _), ..] => *hash,
    }
}

impl<A: Allocator + Clone> MerkleHashSubtree<A> {
    /// Makes the canonical subtree of some chunks. The caller marks the list's start, its end, both or neither.
    ///
    /// Fails with [`CoreError::SizeOverflow`] if the sizes add up to more than `u64::MAX`, before it allocates. Fails
    /// with [`CoreError::OutOfMemory`] if an allocation fails.
    pub fn from_chunks(
        alloc: A,
        at_start: bool,
        chunks: &[Node],
        at_end: bool,
    ) -> Result<Self, CoreError>
        ensures canonical { IfOk result (λ subtree. IsCanonical subtree chunks.now) }
        ensures start { IfOk result (λ subtree. subtree.at_start ≡ at_start) }
        ensures end { IfOk result (λ subtree. subtree.at_end ≡ at_end) }
        ensures size { IfOk result (λ subtree. levels_size subtree.levels ≡ total_size chunks.now) }
        ensures overflow { IsErrOf result CoreError.SizeOverflow ↔ (2 ^ 64 ≤ total_size chunks.now) }
        ensures errors { IfErr result (λ e. (e ≡ CoreError.SizeOverflow) ⊎ (e ≡ CoreError.OutOfMemory)) }
    {
        Self::from_chunks_of(alloc, at_start, chunks, at_end)
    }

    /// Does the same as [`from_chunks`](Self::from_chunks) for chunks in a form of the caller's own. It reads them piece
    /// by piece, and copies only those that stay.
    pub fn from_chunks_of<T: AsNode>(
        alloc: A,
        at_start: bool,
        chunks: &[T],
        at_end: bool,
    ) -> Result<Self, CoreError>
        ensures canonical { IfOk result (λ subtree. IsCanonical subtree (map T.node_of chunks.now)) }
        ensures start { IfOk result (λ subtree. subtree.at_start ≡ at_start) }
        ensures end { IfOk result (λ subtree. subtree.at_end ≡ at_end) }
        ensures size { IfOk result (λ subtree. levels_size subtree.levels ≡ total_size (map T.node_of chunks.now)) }
        ensures overflow { IsErrOf result CoreError.SizeOverflow ↔ (2 ^ 64 ≤ total_size (map T.node_of chunks.now)) }
        ensures errors { IfErr result (λ e. (e ≡ CoreError.SizeOverflow) ⊎ (e ≡ CoreError.OutOfMemory)) }
    {
        let Some(size) = total_size_of(chunks) else {
            return Err(CoreError::SizeOverflow);
        };
        let levels = collapse_chunks(alloc, chunks, at_start, at_end)?;
        Ok(Self::from_levels(levels, at_start, at_end, size)?)
    }

    /// Returns a copy. Fails with [`CoreError::OutOfMemory`] if an allocation fails.
    pub fn try_clone(&self) -> Result<Self, CoreError>
        ensures copy { IfOk result (λ copy. copy ≡ self.now) }
        ensures errors { IfErr result (λ e. e ≡ CoreError.OutOfMemory) }
    {
        Ok(self.copy(self.levels.allocator().clone()?)?)
    }

    // Returns a copy, allocated by `alloc`.
    fn copy(&self, alloc: A) -> Result<Self, AllocError>
        ensures { IfOk result (λ copy. copy ≡ self.now) }
    {
        Ok(MerkleHashSubtree {
            at_start: self.at_start,
            at_end: self.at_end,
            levels: copy_levels(alloc, &self.levels)?,
            total_size: self.total_size,
        })
    }

    // Makes a subtree of complete levels. It treats more than `usize::MAX` nodes as a failed allocation, since no
    // memory holds them.
    fn from_levels(
        levels: Vec<LevelNodes<A>, A>,
        at_start: bool,
        at_end: bool,
        size: u64,
    ) -> Result<Self, AllocError>
        requires well_formed { IsWellFormed (record { at_start = at_start; at_end = at_end; levels = levels.items }) }
        requires size { levels_size levels.items ≡ size }
        ensures { IfOk result (λ subtree. subtree ≡ record { at_start = at_start; at_end = at_end; levels = levels.items }) }
    {
        if count_nodes(&levels).is_none() {
            return Err(AllocError);
        }
        Ok(MerkleHashSubtree {
            at_start,
            at_end,
            levels,
            total_size: size,
        })
    }
}

impl<A: Allocator> MerkleHashSubtree<A> {
    // Returns the levels from the chunks up.
    fn levels(&self) -> &[LevelNodes<A>]
        ensures levels { result.now ≡ self.now.levels }
        ensures well_formed { IsWellFormed self.now }
        ensures few { node_count self.now.levels < 2 ^ 64 }
    {
        &self.levels
    }

    /// Returns the number of kept nodes.
    pub fn num_nodes(&self) -> usize
        ensures nodes { result ≡ node_count self.now.levels }
        ensures well_formed { IsWellFormed self.now }
    {
        count_nodes(&self.levels).unwrap()
    }

    /// Returns the number of levels. There is at least one.
    pub fn num_levels(&self) -> usize
        ensures levels { result ≡ length self.now.levels }
        ensures some { 0 < result }
        ensures well_formed { IsWellFormed self.now }
    {
        self.levels.len()
    }

    /// Returns whether no node is kept. That is so for the empty list, and for no other.
    pub fn is_empty(&self) -> bool
        ensures nodes { IsTrue result ↔ (node_count self.now.levels ≡ 0) }
        ensures chunks { (chunks : List Node) → IsCanonical self.now chunks → IsTrue result ↔ (length chunks ≡ 0) }
    {
        self.num_nodes() == 0
    }

    /// Returns the left nodes of a level, or none if there is no such level. Levels count from the chunks up, from 0.
    pub fn left(&self, level: usize) -> &[Node]
        ensures { result.now ≡ left_at self.now.levels level }
    {
        left_at(&self.levels, level)
    }

    /// Returns the right nodes of a level, or none if there is no such level. Levels count from the chunks up, from 0.
    pub fn right(&self, level: usize) -> &[Node]
        ensures { result.now ≡ right_at self.now.levels level }
    {
        right_at(&self.levels, level)
    }

    /// Returns whether the start of the list is marked.
    pub fn at_start(&self) -> bool
        ensures { result ≡ self.now.at_start }
    {
        self.at_start
    }

    /// Returns whether the end of the list is marked.
    pub fn at_end(&self) -> bool
        ensures { result ≡ self.now.at_end }
    {
        self.at_end
    }

    /// Returns the sum of the sizes of all nodes, in bytes. It is also the sum of the sizes of the chunks.
    pub fn total_size(&self) -> u64
        ensures nodes { result ≡ levels_size self.now.levels }
        ensures chunks { (chunks : List Node) → IsCanonical self.now chunks → result ≡ total_size chunks }
    {
        self.total_size
    }

    /// Returns the root of the list if both of its ends are marked, and `None` if not. It is the hash of the top's
    /// node, or the default hash if there is no node.
    pub fn final_hash(&self) -> Option<MerkleHash>
        ensures marks { IsSome result ↔ (IsTrue self.now.at_start × IsTrue self.now.at_end) }
        ensures hash { IfSome result (λ hash. hash ≡ top_hash self.now.levels) }
        ensures root { (chunks : List Node) → IsCanonical self.now chunks → IfSome result (IsRoot chunks) }
    {
        if !(self.at_start && self.at_end) {
            return None;
        }
        Some(first_hash(top(self.levels()).left()))
    }
}

impl<A: Allocator> PartialEq for MerkleHashSubtree<A> {
    ghost eq = { same_subtree };

    ghost laws = { same_subtree-per };

    fn eq(&self, other: &Self) -> bool {
        self.at_start == other.at_start
            && self.at_end == other.at_end
            && self.levels == other.levels
    }
}

impl<A: Allocator> Eq for MerkleHashSubtree<A> {
    ghost laws = { same_subtree-equiv };
}

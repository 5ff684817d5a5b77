//! The hash tree over a list of chunks, which makes range proofs.

ghost use Rattle.std.specs.Prelude.{◌≡◌, ℕ, ◌+◌, ◌^◌, ◌<◌, ◌≤◌, ◌↔◌, ◌⊎◌, min, length, map, take, IfOk, IfErr, IfSome, IfNone, IsErrOf, SomeIff};
ghost use Rattle.xet_roots.specs.Roots.{total_size, IsRoot, IsFileHash};
ghost use Rattle.range_proof.specs.Differing.{IsCommonPrefix, IsCommonSuffix};
ghost use Rattle.range_proof.specs.Proving.{Proves, IsRangeOfBytes};
ghost use Rattle.range_proof.specs.Steps.Trees.{AreSidesOf};

use crate::differing::{common_prefix, common_suffix};
use crate::laws::{
    range_proofs_are_well_formed, range_proofs_name_places, range_proofs_show_the_file_hash,
    range_proofs_show_the_root,
};
use crate::places::places;
use crate::proof::RangeProof;
use crate::tops::only_hash;
use crate::tree_level::{TreeLevel, make_levels, part_at};
use level_nodes::levels::LevelNodes;
use std::alloc::{AllocError, Allocator, Global};
use std::marker::Model;
use xet_hash::data_hash::MerkleHash;
use xet_roots::aggregated_hashes::{Node, file_hash_of_root};
use xet_roots::as_node::{AsNode, read_nodes, total_size_of};
use xet_roots::error::CoreError;
use xet_roots::groups::total_size;

/// All levels of nodes over a list of chunks, kept so that the proof of a range takes time with the number of levels and
/// of the proof's own nodes, and not with the number of chunks.
#[derive(Debug, Drop)]
pub struct HashTree<A: Allocator = Global> {
    // The levels of two nodes or more, from the chunks up.
    levels: Vec<TreeLevel<A>, A>,
    // What is above them: one node, or none if there are no chunks.
    top: Vec<Node, A>,
    // Where in the file each chunk begins, and last where the file ends.
    places: Vec<u64, A>,
}

impl<A: Allocator> Model for HashTree<A> {
    ghost use Rattle.std.specs.Prelude.{List};
    ghost use Rattle.xet_roots.specs.Groups.{Node};
    ghost use Rattle.range_proof.specs.Steps.Trees.{IsKept, lowest};

    ghost Value = { List Node };

    ghost view = { λ tree. lowest tree.levels.items tree.top.items };

    ghost invariant = { λ tree. IsKept tree.levels.items tree.top.items tree.places.items };
}

impl<A: Allocator + Clone> HashTree<A> {
    /// Makes the tree over some chunks.
    ///
    /// Fails with [`CoreError::SizeOverflow`] if the sizes add up to more than `u64::MAX`, before it allocates. Fails
    /// with [`CoreError::OutOfMemory`] if an allocation fails.
    pub fn from_chunks(alloc: A, chunks: &[Node]) -> Result<Self, CoreError>
        ensures chunks { IfOk result (λ tree. tree ≡ chunks.now) }
        ensures overflow { IsErrOf result CoreError.SizeOverflow ↔ (2 ^ 64 ≤ total_size chunks.now) }
        ensures errors { IfErr result (λ e. (e ≡ CoreError.SizeOverflow) ⊎ (e ≡ CoreError.OutOfMemory)) }
    {
        Self::from_chunks_of(alloc, chunks)
    }

    /// Does the same as [`from_chunks`](Self::from_chunks) for chunks in a form of the caller's own. It copies them once.
    pub fn from_chunks_of<T: AsNode>(alloc: A, chunks: &[T]) -> Result<Self, CoreError>
        ensures chunks { IfOk result (λ tree. tree ≡ map T.node_of chunks.now) }
        ensures overflow { IsErrOf result CoreError.SizeOverflow ↔ (2 ^ 64 ≤ total_size (map T.node_of chunks.now)) }
        ensures errors { IfErr result (λ e. (e ≡ CoreError.SizeOverflow) ⊎ (e ≡ CoreError.OutOfMemory)) }
    {
        if total_size_of(chunks).is_none() {
            return Err(CoreError::SizeOverflow);
        }
        let nodes = read_nodes(alloc.clone()?, chunks)?;
        let places = places(alloc.clone()?, 0, &nodes)?;
        let (levels, top) = make_levels(alloc, nodes)?;
        Ok(HashTree {
            levels,
            top,
            places,
        })
    }

    /// Returns the proof of the chunks from number `first` up to, but without, number `end`. It is allocated by `alloc`.
    ///
    /// Fails with [`CoreError::InvalidArguments`] unless `first` is less than `end`, and `end` at most the number of
    /// chunks. Fails with [`CoreError::OutOfMemory`] if an allocation fails.
    pub fn proof(&self, alloc: A, first: usize, end: usize) -> Result<RangeProof<A>, CoreError>
        ensures proves { IfOk result (Proves self.now first end) }
        ensures refused { IsErrOf result CoreError.InvalidArguments ↔ ((end ≤ first) ⊎ (length self.now < end)) }
        ensures errors { IfErr result (λ e. (e ≡ CoreError.InvalidArguments) ⊎ (e ≡ CoreError.OutOfMemory)) }
    {
        if end <= first || self.num_chunks() < end {
            return Err(CoreError::InvalidArguments);
        }
        // The laws of completeness, for the clause `proves`.
        range_proofs_are_well_formed();
        range_proofs_show_the_file_hash();
        range_proofs_show_the_root();
        range_proofs_name_places();
        let nodes = self.chunks();
        let chunks = nodes[first..end].to_vec(alloc.clone()?)?;
        let levels = self.sides(alloc, first, end)?;
        Ok(RangeProof::new(chunks, levels))
    }

    // Returns the sides of a range of chunks on each level.
    fn sides(&self, alloc: A, first: usize, end: usize) -> Result<Vec<LevelNodes<A>, A>, AllocError>
        requires some { first < end }
        requires within { end ≤ length self.now }
        ensures { IfOk result (λ sides. AreSidesOf self.now first end sides.items) }
    {
        let levels = self.levels.as_slice();
        let mut from = first;
        let mut to = end;
        let mut all = Vec::with_capacity(alloc.clone()?, levels.len())?;
        'levels: for level in levels {
            let found = level.beside(alloc.clone()?, from, to)?;
            from = found.first;
            to = found.end;
            all.push(found.sides)?;
        }
        Ok(all)
    }
}

impl<A: Allocator> HashTree<A> {
    // Returns the nodes of the chunks.
    fn chunks(&self) -> &[Node]
        ensures nodes { result.now ≡ self.now }
        ensures few { length self.now < 2 ^ 64 }
        ensures fits { total_size self.now < 2 ^ 64 }
    {
        match self.levels.as_slice() {
            [level, ..] => level.nodes(),
            [] => &self.top,
        }
    }

    /// Returns the root of the chunks. With no chunks it is the default hash.
    pub fn root(&self) -> MerkleHash
        ensures { IsRoot self.now result }
    {
        match only_hash(&self.top) {
            Some(hash) => hash,
            None => MerkleHash::default(),
        }
    }

    /// Returns the file hash of the chunks under a salt. With no chunks it is the default hash, whatever the salt.
    pub fn file_hash(&self, salt: &[u8; 32]) -> MerkleHash
        ensures { IsFileHash self.now salt.now result }
    {
        file_hash_of_root(self.root(), self.num_chunks() == 0, salt)
    }

    /// Returns the number of chunks.
    pub fn num_chunks(&self) -> usize
        ensures { result ≡ length self.now }
    {
        self.chunks().len()
    }

    /// Returns the sum of the chunks' sizes: the size of the file in bytes.
    pub fn total_size(&self) -> u64
        ensures { result ≡ total_size self.now }
    {
        self.places[self.num_chunks()]
    }

    /// Returns the least range of chunks that holds the bytes of the file from `from` up to, but without, `to`, or the end
    /// of the file if that comes first: the number of the first chunk, and the number after that of the last one. Returns
    /// `None` if there are no such bytes. It allocates nothing.
    pub fn chunks_at(&self, from: u64, to: u64) -> Option<(usize, usize)>
        ensures range { IfSome result (λ range. IsRangeOfBytes self.now from (min to (total_size self.now)) range.0 range.1) }
        ensures some { IfSome result (λ _. from < min to (total_size self.now)) }
        ensures none { IfNone result (min to (total_size self.now) ≤ from) }
    {
        let stop = to.min(self.total_size());
        if stop <= from {
            return None;
        }
        let first = part_at(&self.places, from);
        let last = part_at(&self.places, stop - 1);
        Some((first, last + 1))
    }

    /// Returns where in the file the chunks from number `first` up to, but without, number `end` begin and end, in bytes.
    /// Returns `None` unless `first` is less than `end`, and `end` at most the number of chunks. It allocates nothing.
    pub fn bytes_of(&self, first: usize, end: usize) -> Option<(u64, u64)>
        ensures { SomeIff result ((first < end) × (end ≤ length self.now)) (total_size (take first self.now), total_size (take end self.now)) }
    {
        if end <= first || self.num_chunks() < end {
            return None;
        }
        Some((self.places[first], self.places[end]))
    }

    /// Returns how many chunks this file and another one have in common at the front. The chunk with this number is the
    /// first in which they differ, unless a file ends there. It allocates nothing.
    pub fn common_prefix<B: Allocator>(&self, other: &HashTree<B>) -> usize
        ensures { IsCommonPrefix self.now other.now result }
    {
        common_prefix(self.chunks(), other.chunks())
    }

    /// Returns how many chunks this file and another one have in common at the end, but at most `most`. It allocates
    /// nothing.
    pub fn common_suffix<B: Allocator>(&self, other: &HashTree<B>, most: usize) -> usize
        ensures { IsCommonSuffix self.now other.now most result }
    {
        common_suffix(self.chunks(), other.chunks(), most)
    }
}

impl<A: Allocator + Clone> RangeProof<A> {
    /// Makes the proof of the chunks from number `first` up to, but without, number `end` of a list. To make several proofs
    /// of one list, keep its [`HashTree`].
    ///
    /// Fails with [`CoreError::InvalidArguments`] unless `first` is less than `end`, and `end` at most the number of
    /// chunks. Otherwise fails with [`CoreError::SizeOverflow`] if the sizes add up to more than `u64::MAX`, before it
    /// allocates. Fails with [`CoreError::OutOfMemory`] if an allocation fails.
    pub fn from_chunks(
        alloc: A,
        chunks: &[Node],
        first: usize,
        end: usize,
    ) -> Result<Self, CoreError>
        ensures proves { IfOk result (Proves chunks.now first end) }
        ensures refused { IsErrOf result CoreError.InvalidArguments ↔ ((end ≤ first) ⊎ (length chunks.now < end)) }
        ensures overflow { IsErrOf result CoreError.SizeOverflow ↔ ((first < end) × (end ≤ length chunks.now) × (2 ^ 64 ≤ total_size chunks.now)) }
        ensures errors { IfErr result (λ e. (e ≡ CoreError.InvalidArguments) ⊎ (e ≡ CoreError.SizeOverflow) ⊎ (e ≡ CoreError.OutOfMemory)) }
    {
        if end <= first || chunks.len() < end {
            return Err(CoreError::InvalidArguments);
        }
        if total_size(chunks).is_none() {
            return Err(CoreError::SizeOverflow);
        }
        let tree = HashTree::from_chunks(alloc.clone()?, chunks)?;
        tree.proof(alloc, first, end)
    }
}

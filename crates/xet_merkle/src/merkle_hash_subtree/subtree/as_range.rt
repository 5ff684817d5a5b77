//! The subtree as a range of chunks.
ghost use Rattle.subtree_levels.specs.Levels.{levels_size};
ghost use Rattle.subtree_levels.specs.Subtree.{IsCanonical};

use super::MerkleHashSubtree;
use chunk_ranges::chunk_range::{ChunkRange, CopyableRange};
use std::alloc::Allocator;
use subtree_levels::levels::Operand;
use xet_hash::data_hash::MerkleHash;
use xet_roots::aggregated_hashes::Node;
use xet_roots::error::CoreError;
use xet_roots::parent_maker::ParentHashes;

impl<A: Allocator + Clone> ChunkRange for MerkleHashSubtree<A> {
    type Alloc = A;

    ghost stands = { IsCanonical };

    ghost start = { λ subtree. subtree.at_start };

    ghost end = { λ subtree. subtree.at_end };

    ghost total = { λ subtree. levels_size subtree.levels };

    fn from_chunks(
        alloc: A,
        at_start: bool,
        chunks: &[Node],
        at_end: bool,
    ) -> Result<Self, CoreError> {
        MerkleHashSubtree::from_chunks(alloc, at_start, chunks, at_end)
    }

    fn at_start(&self) -> bool {
        MerkleHashSubtree::at_start(self)
    }

    fn at_end(&self) -> bool {
        MerkleHashSubtree::at_end(self)
    }

    fn total_size(&self) -> u64 {
        MerkleHashSubtree::total_size(self)
    }

    fn join(&mut self, back: &Self) -> Result<(), CoreError> {
        self.merge_into(back)
    }

    fn prepend(&mut self, front: Self) -> Result<(), CoreError> {
        let _maker = self.merge_with(&front, Operand::Back, ParentHashes::new())?;
        Ok(())
    }

    fn num_nodes(&self) -> usize {
        MerkleHashSubtree::num_nodes(self)
    }

    fn root(&self) -> Result<Option<MerkleHash>, CoreError> {
        Ok(self.final_hash())
    }
}

impl<A: Allocator + Clone> CopyableRange for MerkleHashSubtree<A> {
    fn try_clone(&self) -> Result<Self, CoreError> {
        MerkleHashSubtree::try_clone(self)
    }
}

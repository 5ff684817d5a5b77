//! The flat form of a range proof: the numbers of nodes on both sides of each level, and all nodes in one list.

ghost use Rattle.std.specs.Prelude.{◌≡◌, ◌⊎◌, ◌<◌, ◌↔◌, ℕ, map, IfOk, IfErr, IsTrue};
ghost use Rattle.xet_roots.specs.declared.error.CoreError.TheVariants.{InvalidLists};
ghost use Rattle.range_proof.specs.RangeProof.{IsWellFormed};
ghost use Rattle.level_nodes.specs.FlatLevels.{count_sum, count_of, flat_nodes, IsFlat};
ghost use Rattle.range_proof.specs.FlatProof.{BreaksFlatRule};

use crate::proof::RangeProof;
use crate::proof_parts::from_parts;
use level_nodes::flat::{count_of, count_sum, cut_levels};
use level_nodes::levels::LevelNodes;
use std::alloc::{AllocError, Allocator};
use xet_roots::aggregated_hashes::Node;
use xet_roots::error::CoreError;

// Returns whether counts leave a node for the chunks.
fn leave_a_chunk(counts: &[(usize, usize)], len: usize) -> bool
    ensures { IsTrue result ↔ (count_sum counts.now < len) }
{
    match count_sum(counts) {
        Some(sum) => sum < len,
        None => false,
    }
}

impl<A: Allocator + Clone> RangeProof<A> {
    /// Makes a proof from flat lists. `counts` has the numbers of left and right nodes of each level, from the chunks up.
    /// `nodes` has all nodes in the order of the file: the left ones of all levels, lowest level first, those of the
    /// chunks, and the right ones of all levels, highest level first.
    ///
    /// Fails with [`CoreError::InvalidLists`] and the lowest rule from 5 to 8 of [`Self::from_json`] that they break; rule 5
    /// means that the counts leave no node for the chunks. Fails with [`CoreError::OutOfMemory`] if an allocation fails;
    /// this may be returned instead of a rule.
    pub fn from_flat(alloc: A, counts: &[(usize, usize)], nodes: &[Node]) -> Result<Self, CoreError>
        ensures flat { IfOk result (λ proof. IsFlat counts.now nodes.now proof.levels proof.chunks) }
        ensures well_formed { IfOk result IsWellFormed }
        ensures errors { IfErr result (λ e. (e ≡ CoreError.OutOfMemory) ⊎ ((rule : ℕ) × (e ≡ InvalidLists rule)
            × BreaksFlatRule counts.now nodes.now rule)) }
    {
        if !leave_a_chunk(counts, nodes.len()) {
            return Err(CoreError::InvalidLists(5));
        }
        let parts = cut_levels(alloc.clone()?, counts, nodes)?;
        let chunks = parts.between.to_vec(alloc)?;
        match from_parts(chunks, parts.levels) {
            Ok(proof) => Ok(proof),
            Err(rule) => Err(CoreError::InvalidLists(rule)),
        }
    }

    /// Returns the numbers of left and right nodes of each level, from the chunks up, and all nodes in the order of the
    /// file: what [`Self::from_flat`] makes the proof from.
    ///
    /// Fails with [`CoreError::OutOfMemory`] if an allocation fails.
    pub fn to_flat(&self) -> Result<(Vec<(usize, usize), A>, Vec<Node, A>), CoreError>
        ensures flat { IfOk result (λ lists. IsFlat lists.0.items lists.1.items self.now.levels self.now.chunks) }
        ensures errors { IfErr result (λ e. e ≡ CoreError.OutOfMemory) }
    {
        let counts = counts_of(self.allocator()?, self.levels())?;
        let nodes = nodes_of(self.allocator()?, self.chunks(), self.levels())?;
        Ok((counts, nodes))
    }
}

// Returns the numbers of nodes on both sides of each level.
fn counts_of<A: Allocator>(
    alloc: A,
    levels: &[LevelNodes<A>],
) -> Result<Vec<(usize, usize), A>, AllocError>
    ensures { IfOk result (λ counts. counts.items ≡ map count_of levels.now) }
{
    let mut counts = Vec::with_capacity(alloc, levels.len())?;
    'counts: for level in levels {
        counts.push(count_of(level))?;
    }
    Ok(counts)
}

// Returns the nodes of a proof in the order of the file.
pub(crate) fn nodes_of<A: Allocator>(
    alloc: A,
    chunks: &[Node],
    levels: &[LevelNodes<A>],
) -> Result<Vec<Node, A>, AllocError>
    ensures { IfOk result (λ nodes. nodes.items ≡ flat_nodes levels.now chunks.now) }
{
    let mut nodes = Vec::new(alloc);
    'lefts: for level in levels {
        nodes.extend_from_slice(level.left())?;
    }
    nodes.extend_from_slice(chunks)?;
    let mut rest = levels;
    'rights: while let [below @ .., level] = rest {
        nodes.extend_from_slice(level.right())?;
        rest = below;
    }
    Ok(nodes)
}

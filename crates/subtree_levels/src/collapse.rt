//! The levels of canonical subtrees, from the lowest level up.

ghost use Rattle.std.specs.Prelude.{◌≡◌, ℕ, ◌+◌, ◌^◌, ◌<◌, ◌≤◌, ◌++◌, ◌∷◌, [], length, map, IfOk};
ghost use Rattle.xet_roots.specs.Groups.{Node};
ghost use Rattle.xet_roots.specs.Roots.{total_size, parent_by, parent};
ghost use Rattle.subtree_levels.specs.Canonical.{IsCanonicalBy};
ghost use Rattle.subtree_levels.specs.Steps.Building.{AddsCanonical};
ghost use Rattle.xet_roots.specs.Steps.Scan.{AreParents};
ghost use Rattle.xet_roots.specs.Steps.Room.{most_made};

use crate::levels::{LevelNodes, pushed};
use crate::split::{Marks, Split, find_split};
use std::alloc::{AllocError, Allocator};
use xet_roots::aggregated_hashes::{Node, parents};
use xet_roots::as_node::{AsNode, parents_of, read_nodes};
use xet_roots::parent_maker::{ParentHashes, ParentMaker};

// Adds a level at the top: the split's left and right nodes. Returns the levels, and the parents of the split's middle.
pub(crate) fn collapse_middle<A: Allocator + Clone, P: ParentMaker>(
    alloc: A,
    levels: Vec<LevelNodes<A>, A>,
    split: Split<Node>,
    maker: &mut P,
) -> Result<(Vec<LevelNodes<A>, A>, Vec<Node, A>), AllocError>
    requires fits { total_size split.middle.now < 2 ^ 64 }
    requires room { P.count maker.old ≤ most_made }
    ensures levels { IfOk result (λ made. made.0.items ≡ levels.items ++ record { left = split.entry.left.now; right = split.entry.right.now } ∷ []) }
    ensures parents { IfOk result (λ made. AreParents (parent_by P.hash_of) split.entry.middle.now made.1.items) }
    ensures count { IfOk result (λ made. P.count maker.new ≡ P.count maker.old + length made.1.items) }
    ensures few { IfOk result (λ made. length made.1.items < 2 ^ 64) }
{
    let level = LevelNodes::copied(alloc.clone()?, split.left, split.right)?;
    let levels = pushed(levels, level)?;
    let parents = parents(alloc, split.middle, maker)?;
    Ok((levels, parents))
}

// Adds the levels of the canonical subtree of some nodes on top.
pub(crate) fn collapse<A: Allocator + Clone, P: ParentMaker>(
    alloc: A,
    levels: Vec<LevelNodes<A>, A>,
    nodes: Vec<Node, A>,
    marks: Marks,
    maker: &mut P,
) -> Result<Vec<LevelNodes<A>, A>, AllocError>
    requires fits { total_size nodes.items < 2 ^ 64 }
    requires room { P.count maker.old + length nodes.items ≤ most_made }
    ensures { IfOk result (λ all. AddsCanonical (parent_by P.hash_of) marks.at_start marks.at_end nodes.items
        levels.items (P.count maker.old) all.items (P.count maker.new)) }
{
    let mut levels = levels;
    let mut nodes = nodes;
    'collapsing: while let Some(split) = find_split(&nodes, marks) {
        (levels, nodes) = collapse_middle(alloc.clone()?, levels, split, maker)?;
    }
    Ok(pushed(levels, LevelNodes::new(nodes, Vec::new(alloc)))?)
}

// Adds the levels of the canonical subtree of some nodes on top. It copies only the nodes that stay.
pub(crate) fn collapse_slice<A: Allocator + Clone, T: AsNode, P: ParentMaker>(
    alloc: A,
    levels: Vec<LevelNodes<A>, A>,
    nodes: &[T],
    marks: Marks,
    maker: &mut P,
) -> Result<Vec<LevelNodes<A>, A>, AllocError>
    requires fits { total_size (map T.node_of nodes.now) < 2 ^ 64 }
    requires room { P.count maker.old + length nodes.now ≤ most_made }
    ensures { IfOk result (λ all. AddsCanonical (parent_by P.hash_of) marks.at_start marks.at_end (map T.node_of nodes.now)
        levels.items (P.count maker.old) all.items (P.count maker.new)) }
{
    match find_split(nodes, marks) {
        None => {
            let left = read_nodes(alloc.clone()?, nodes)?;
            Ok(pushed(levels, LevelNodes::new(left, Vec::new(alloc)))?)
        }
        Some(split) => {
            let left = read_nodes(alloc.clone()?, split.left)?;
            let right = read_nodes(alloc.clone()?, split.right)?;
            let levels = pushed(levels, LevelNodes::new(left, right))?;
            let parents = parents_of(alloc.clone()?, split.middle, maker)?;
            Ok(collapse(alloc, levels, parents, marks, maker)?)
        }
    }
}

/// Returns the levels of the canonical subtree of some chunks.
pub fn collapse_chunks<A: Allocator + Clone, T: AsNode>(
    alloc: A,
    chunks: &[T],
    at_start: bool,
    at_end: bool,
) -> Result<Vec<LevelNodes<A>, A>, AllocError>
    requires { total_size (map T.node_of chunks.now) < 2 ^ 64 }
    ensures { IfOk result (λ levels. (work : ℕ) × IsCanonicalBy parent at_start at_end (map T.node_of chunks.now) levels.items work) }
{
    // Most short lists have one level.
    let levels = Vec::with_capacity(alloc.clone()?, 1)?;
    Ok(collapse_slice(
        alloc,
        levels,
        chunks,
        Marks { at_start, at_end },
        &mut ParentHashes::new(),
    )?)
}

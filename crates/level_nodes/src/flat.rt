//! Levels as flat lists: the numbers of nodes on both sides of each level, and all nodes in one list.

ghost use Rattle.std.specs.Prelude.{◌≡◌, ◌^◌, ◌<◌, ◌≤◌, length, IfOk, SomeIff};
ghost use Rattle.level_nodes.specs.FlatLevels.{count_of, count_sum, IsFlat};

use crate::levels::LevelNodes;
use std::alloc::{AllocError, Allocator};
use xet_roots::aggregated_hashes::Node;

/// Returns the numbers of left and right nodes of a level.
pub fn count_of<A: Allocator>(level: &LevelNodes<A>) -> (usize, usize)
    ensures { result ≡ count_of level.now }
{
    (level.left().len(), level.right().len())
}

/// Returns the sum of all counts, if it is at most `usize::MAX`.
pub fn count_sum(counts: &[(usize, usize)]) -> Option<usize>
    ensures { SomeIff result (count_sum counts.now < 2 ^ 64) (count_sum counts.now) }
{
    let mut sum = 0usize;
    'sum: for (left, right) in counts {
        sum = sum.checked_add(*left)?.checked_add(*right)?;
    }
    Some(sum)
}

/// What a flat list of nodes has: levels, and the nodes that are left between their sides.
#[derive(Drop)]
pub struct FlatParts<'n, A: Allocator> {
    pub levels: Vec<LevelNodes<A>, A>,
    pub between: &'n [Node],
}

/// Cuts a list of nodes into levels with these counts, and the nodes between.
pub fn cut_levels<'n, A: Allocator + Clone>(
    alloc: A,
    counts: &[(usize, usize)],
    nodes: &'n [Node],
) -> Result<FlatParts<'n, A>, AllocError>
    requires { count_sum counts.now ≤ length nodes.now }
    ensures { IfOk result (λ parts. IsFlat counts.now nodes.now parts.levels.items parts.between.now) }
{
    let mut levels = Vec::with_capacity(alloc.clone()?, counts.len())?;
    let mut between = nodes;
    'levels: for count in counts {
        let (left, after) = between.split_at(count.0);
        let (inner, right) = after.split_at(after.len() - count.1);
        levels.push(LevelNodes::copied(alloc.clone()?, left, right)?)?;
        between = inner;
    }
    Ok(FlatParts { levels, between })
}

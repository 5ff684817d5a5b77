//! What is kept of the levels of a subtree, from the chunks up.

ghost use Rattle.std.specs.Prelude.{◌≡◌, ◌^◌, ◌<◌, ◌-◌, ◌∷◌, ◌++◌, [], length, drop, IfOk, SomeIff};
ghost use Rattle.subtree_levels.specs.Levels.{top_of, below_top, node_count};
ghost use Rattle.subtree_levels.specs.Steps.LevelMerging.{operand, inner_nodes};

pub use level_nodes::levels::{LevelNodes, copy_levels, left_at, right_at};
use std::alloc::{AllocError, Allocator};
use xet_roots::aggregated_hashes::Node;

/// One of the two operands of a merge.
#[derive(Clone, Copy)]
pub enum Operand {
    Front,
    Back,
}

/// Adds a level at the top.
pub fn pushed<A: Allocator>(
    levels: Vec<LevelNodes<A>, A>,
    level: LevelNodes<A>,
) -> Result<Vec<LevelNodes<A>, A>, AllocError>
    ensures { IfOk result (λ more. more.items ≡ levels.items ++ level ∷ []) }
{
    let mut levels = levels;
    levels.push(level)?;
    Ok(levels)
}

/// Returns the number of nodes in levels, if it is at most `usize::MAX`.
pub fn count_nodes<A: Allocator>(levels: &[LevelNodes<A>]) -> Option<usize>
    ensures { SomeIff result (node_count levels.now < 2 ^ 64) (node_count levels.now) }
{
    let mut count = 0usize;
    'levels: for level in levels {
        count = count
            .checked_add(level.left().len())?
            .checked_add(level.right().len())?;
    }
    Some(count)
}

/// Returns the last level.
pub fn top<A: Allocator>(levels: &[LevelNodes<A>]) -> &LevelNodes<A>
    requires { 0 < length levels.now }
    ensures { result.now ≡ top_of levels.now }
{
    levels.last().unwrap()
}

// Returns all levels but the last.
pub(crate) fn below_top<A: Allocator>(levels: &[LevelNodes<A>]) -> &[LevelNodes<A>]
    ensures { result.now ≡ below_top levels.now }
{
    match levels {
        [below @ .., _] => below,
        [] => levels,
    }
}

// Returns the nodes of a front operand's lowest level that face the back one: all of the top, or else the right nodes.
pub(crate) fn inner<A: Allocator>(levels: &[LevelNodes<A>]) -> &[Node]
    ensures { result.now ≡ inner_nodes (operand levels.now) }
{
    match levels {
        [top] => top.left(),
        _ => right_at(levels, 0),
    }
}

// Returns the levels from `level` up.
pub(crate) fn levels_from<A: Allocator>(levels: &[LevelNodes<A>], level: usize) -> &[LevelNodes<A>]
    ensures { result.now ≡ drop level levels.now }
{
    &levels[level.min(levels.len())..]
}

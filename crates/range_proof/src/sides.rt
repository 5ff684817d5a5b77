//! The sides of a level: its nodes beside those of a range.

ghost use Rattle.std.specs.Prelude.{◌≡◌, ◌+◌, ◌^◌, ◌<◌, ◌≤◌, ◌++◌, length, sum_by, IfOk};
ghost use Rattle.xet_roots.specs.Roots.{total_size, parent};
ghost use Rattle.xet_roots.specs.Steps.Scan.{AreParents};

use level_nodes::levels::LevelNodes;
use std::alloc::{AllocError, Allocator};
use xet_roots::aggregated_hashes::{Node, parents};
use xet_roots::groups::total_size;
use xet_roots::parent_maker::ParentHashes;

// Returns the parents of a level's nodes: those of its left side, some nodes of the range, and those of its right side.
pub(crate) fn parents_between<A: Allocator + Clone>(
    alloc: A,
    sides: &LevelNodes<A>,
    nodes: &[Node],
) -> Result<Vec<Node, A>, AllocError>
    requires few { length sides.now.left + length sides.now.right ≤ 16 }
    requires fits { total_size (sides.now.left ++ nodes.now ++ sides.now.right) < 2 ^ 64 }
    ensures { IfOk result (λ made. AreParents parent (sides.now.left ++ nodes.now ++ sides.now.right) made.items) }
{
    let len = sides.left().len() + sides.right().len() + nodes.len();
    let mut level = Vec::with_capacity(alloc.clone()?, len)?;
    level.extend_from_slice(sides.left())?;
    level.extend_from_slice(nodes)?;
    level.extend_from_slice(sides.right())?;
    parents(alloc, &level, &mut ParentHashes::new())
}

// Returns the sum of the sizes of some nodes.
pub(crate) fn size_of_nodes(nodes: &[Node]) -> u64
    requires { total_size nodes.now < 2 ^ 64 }
    ensures { result ≡ total_size nodes.now }
{
    total_size(nodes).unwrap()
}

// Returns the sums of the sizes on all left and on all right sides.
#[tactic(auto, using(crate::proofs::SidesOf::level_fits))]
pub(crate) fn sizes_beside<A: Allocator>(levels: &[LevelNodes<A>]) -> (u64, u64)
    requires { sum_by (λ sides. total_size sides.left + total_size sides.right) levels.now < 2 ^ 64 }
    ensures left { result.0 ≡ sum_by (λ sides. total_size sides.left) levels.now }
    ensures both { result.0 + result.1 ≡ sum_by (λ sides. total_size sides.left + total_size sides.right) levels.now }
{
    let mut before = 0;
    let mut after = 0;
    'levels: for level in levels {
        before += size_of_nodes(level.left());
        after += size_of_nodes(level.right());
    }
    (before, after)
}

//! A level of a hash tree, and where its groups begin.

ghost use Rattle.std.specs.Prelude.{◌≡◌, ℕ, ◌+◌, ◌-◌, ◌^◌, ◌<◌, ◌≤◌, List, length, slice_index, IfOk};
ghost use Rattle.xet_roots.specs.Groups.{Node, Groups};
ghost use Rattle.xet_roots.specs.Roots.{total_size, parent};
ghost use Rattle.xet_roots.specs.Steps.Scan.{AreParents};
ghost use Rattle.range_proof.specs.Steps.Places.{AreBounds};
ghost use Rattle.range_proof.specs.Steps.Trees.{IsBeside, IsTree};

use level_nodes::levels::LevelNodes;
use std::alloc::{AllocError, Allocator};
use std::marker::Model;
use xet_roots::aggregated_hashes::{Node, parents};
use xet_roots::groups::{MIN_GROUP_LEN, first_group_len};
use xet_roots::parent_maker::ParentHashes;

// A level of two nodes or more.
#[derive(Debug, Drop)]
pub(crate) struct TreeLevel<A: Allocator> {
    nodes: Vec<Node, A>,
    // Where each group begins, and last where the last one ends.
    bounds: Vec<u64, A>,
}

impl<A: Allocator> Model for TreeLevel<A> {
    ghost use Rattle.std.specs.Prelude.{List};
    ghost use Rattle.xet_roots.specs.Groups.{Node};
    ghost use Rattle.range_proof.specs.Steps.Trees.{IsLevelKept};

    ghost Value = { List Node };

    ghost view = { λ level. level.nodes.items };

    ghost invariant = { λ level. IsLevelKept level.nodes.items level.bounds.items };
}

// The sides of a range of nodes on their level, and the range of the groups that it lies in.
#[derive(Drop)]
pub(crate) struct Beside<A: Allocator> {
    pub(crate) sides: LevelNodes<A>,
    pub(crate) first: usize,
    pub(crate) end: usize,
}

// Returns the number of the part that a place is in. A part begins at each bound but the last, and ends at the next one.
pub(crate) fn part_at(bounds: &[u64], place: u64) -> usize
    requires some { 0 < length bounds.now }
    requires begin { slice_index bounds.now 0 ≤ place }
    requires end { place < slice_index bounds.now (length bounds.now - 1) }
    ensures within { result + 1 < length bounds.now }
    ensures begins { slice_index bounds.now result ≤ place }
    ensures ends { place < slice_index bounds.now (result + 1) }
{
    let mut low = 0;
    let mut high = bounds.len() - 1;
    'search: while high - low > 1 {
        let middle = low + (high - low) / 2;
        if bounds[middle] <= place {
            low = middle;
        } else {
            high = middle;
        }
    }
    low
}

// Returns where each group of some nodes begins, and last where the last one ends.
fn group_bounds<A: Allocator>(alloc: A, nodes: &[Node]) -> Result<Vec<u64, A>, AllocError>
    ensures { IfOk result (λ bounds. (groups : List (List Node)) → Groups nodes.now groups → AreBounds groups bounds.items) }
{
    let mut bounds = Vec::with_capacity(alloc, nodes.len().div_ceil(MIN_GROUP_LEN) + 1)?;
    let mut begin = 0;
    bounds.push(0)?;
    'groups: while begin < nodes.len() {
        begin += first_group_len(&nodes[begin..]);
        bounds.push(begin as u64)?;
    }
    Ok(bounds)
}

impl<A: Allocator> TreeLevel<A> {
    // Returns the nodes.
    pub(crate) fn nodes(&self) -> &[Node]
        ensures { result.now ≡ self.now }
    {
        &self.nodes
    }
}

impl<A: Allocator + Clone> TreeLevel<A> {
    // Makes a level of its nodes.
    fn new(alloc: A, nodes: Vec<Node, A>) -> Result<Self, AllocError>
        requires { 2 ≤ length nodes.items }
        ensures { IfOk result (λ level. level ≡ nodes.items) }
    {
        let bounds = group_bounds(alloc, &nodes)?;
        Ok(TreeLevel { nodes, bounds })
    }

    // Returns the sides of a range of nodes, and the range of the groups that it lies in.
    pub(crate) fn beside(&self, alloc: A, first: usize, end: usize) -> Result<Beside<A>, AllocError>
        requires some { first < end }
        requires within { end ≤ length self.now }
        ensures { IfOk result (λ beside. (groups : List (List Node)) → Groups self.now groups →
            IsBeside self.now groups first end beside.sides beside.first beside.end) }
    {
        let from = part_at(&self.bounds, first as u64);
        let last = part_at(&self.bounds, (end - 1) as u64);
        let begin = self.bounds[from] as usize;
        let stop = self.bounds[last + 1] as usize;
        let sides = LevelNodes::copied(alloc, &self.nodes[begin..first], &self.nodes[end..stop])?;
        Ok(Beside {
            sides,
            first: from,
            end: last + 1,
        })
    }
}

// Returns the levels of two nodes or more over some nodes, and what is above them: at most one node.
pub(crate) fn make_levels<A: Allocator + Clone>(
    alloc: A,
    chunks: Vec<Node, A>,
) -> Result<(Vec<TreeLevel<A>, A>, Vec<Node, A>), AllocError>
    requires { total_size chunks.items < 2 ^ 64 }
    ensures { IfOk result (λ made. IsTree made.0.items made.1.items chunks.items) }
{
    let mut levels = Vec::new(alloc.clone()?);
    let mut nodes = chunks;
    'levels: while nodes.len() > 1 {
        let above = parents(alloc.clone()?, &nodes, &mut ParentHashes::new())?;
        levels.push(TreeLevel::new(alloc.clone()?, nodes)?)?;
        nodes = above;
    }
    Ok((levels, nodes))
}

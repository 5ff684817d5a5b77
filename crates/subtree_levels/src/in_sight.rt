//! What is in sight at a level of a merge: the inner nodes of both operands, and the parents made one level below.

ghost use Rattle.std.specs.Prelude.{◌≡◌, ◌+◌, ◌^◌, ◌<◌, ◌≤◌, ◌⊎◌, ◌↔◌, [], length, take, drop, IfOk, IsTrue};
ghost use Rattle.xet_roots.specs.Roots.{total_size, parent_by};
ghost use Rattle.subtree_levels.specs.Levels.{left_at};
ghost use Rattle.subtree_levels.specs.Steps.Building.{AddsCanonical};
ghost use Rattle.subtree_levels.specs.Steps.LevelMerging.{operand, inner_nodes, IsHighAfter, IsLowBefore, seen, sight_up, IsSightSplit, sight_of, levels_of, OnlyExtends};
ghost use Rattle.xet_roots.specs.Steps.Room.{most_made};

use crate::collapse::{collapse, collapse_slice};
use crate::levels::{LevelNodes, Operand, inner, left_at, levels_from, right_at};
use crate::split::{Marks, Split};
use stable_points::search::{
    adds_no_stable, adds_no_stable_before, find_stable_start, last_stable,
};
use std::alloc::{AllocError, Allocator};
use std::marker::Model;
use xet_roots::aggregated_hashes::Node;
use xet_roots::parent_maker::ParentMaker;

// What is in sight at one level of a merge.
#[derive(Drop)]
pub(crate) struct InSight<'a, A: Allocator> {
    // The levels of the front operand from that level up; `back` has those of the other.
    front: &'a [LevelNodes<A>],
    // The parents that were made one level below.
    carry: Vec<Node, A>,
    back: &'a [LevelNodes<A>],
    // The marks of the concatenated list.
    marks: Marks,
}

impl<'a, A: Allocator> Model for InSight<'a, A> {
    ghost use Rattle.subtree_levels.specs.Steps.LevelMerging.{operand, Sight};

    ghost Value = { Sight };

    ghost view = { λ sight. record {
      front = operand sight.front.now;
      carry = sight.carry.items;
      back = operand sight.back.now;
      at_start = sight.marks.at_start;
      at_end = sight.marks.at_end;
    } };
}

// Returns how many nodes are collapsed, if the nodes before them are collapsed too and the last of these is a natural
// cut.
fn high_end_after(nodes: &[Node], at_end: bool) -> usize
    ensures bound { result ≤ length nodes.now }
    ensures high { IsHighAfter at_end (take result nodes.now) (drop result nodes.now) }
{
    if at_end {
        nodes.len()
    } else {
        last_stable(nodes, true).unwrap_or(0)
    }
}

// Returns how many nodes stay on the left, if the nodes after them are collapsed.
fn low_end_before(nodes: &[Node], at_start: bool) -> usize
    ensures bound { result ≤ length nodes.now }
    ensures low { IsLowBefore at_start (take result nodes.now) (drop result nodes.now) }
{
    if at_start {
        0
    } else {
        find_stable_start(nodes).unwrap_or(nodes.len())
    }
}

impl<'a, A: Allocator> InSight<'a, A> {
    // Starts from the levels of both operands. `kept` says which of them `levels` belongs to.
    pub(crate) fn new(
        kept: Operand,
        levels: &'a [LevelNodes<A>],
        other: &'a [LevelNodes<A>],
        carry: Vec<Node, A>,
        marks: Marks,
    ) -> Self
        ensures { result ≡ sight_up 0 (sight_of kept marks.at_start marks.at_end levels.now [] other.now) carry.items }
    {
        match kept {
            Operand::Front => InSight {
                front: levels,
                carry,
                back: other,
                marks,
            },
            Operand::Back => InSight {
                front: other,
                carry,
                back: levels,
                marks,
            },
        }
    }

    // Returns the carried nodes.
    pub(crate) fn into_carry(self) -> Vec<Node, A>
        ensures { result.items ≡ self.entry.carry }
    {
        self.carry
    }

    // Goes one level up, given the parents that were made.
    pub(crate) fn above(self, parents: Vec<Node, A>) -> Self
        ensures { result ≡ sight_up 1 self.entry parents.items }
    {
        InSight {
            front: levels_from(self.front, 1),
            carry: parents,
            back: levels_from(self.back, 1),
            marks: self.marks,
        }
    }

    // Returns whether an operand has levels above.
    pub(crate) fn is_collapsed(&self, operand: Operand) -> bool
        ensures { IsTrue result ↔ (1 < length (levels_of operand self.now)) }
    {
        match operand {
            Operand::Front => self.front.len() > 1,
            Operand::Back => self.back.len() > 1,
        }
    }

    // Splits the nodes in sight into what is collapsed and what stays on either side. An operand that has levels above
    // keeps its outer side.
    pub(crate) fn split<'s>(&'s self, nodes: &'s [Node]) -> Split<'s, Node>
        requires above { (1 < length self.now.front) ⊎ (1 < length self.now.back) }
        requires nodes { nodes.now ≡ seen self.now }
        ensures { IsSightSplit self.now result.left.now result.middle.now result.right.now }
    {
        if self.front.len() < 2 {
            let (left, middle) = nodes.split_at(low_end_before(nodes, self.marks.at_start));
            Split {
                left,
                middle,
                right: right_at(self.back, 0),
            }
        } else if self.back.len() < 2 {
            let (middle, right) = nodes.split_at(high_end_after(nodes, self.marks.at_end));
            Split {
                left: left_at(self.front, 0),
                middle,
                right,
            }
        } else {
            Split {
                left: left_at(self.front, 0),
                middle: nodes,
                right: right_at(self.back, 0),
            }
        }
    }

    // Returns whether the carry, and the nodes of the back operand, are only appended to the front operand's nodes of
    // the level.
    fn only_appends(&self) -> bool
        ensures { IsTrue result → OnlyExtends Operand.Front self.now }
    {
        !self.marks.at_end
            && self.back.len() <= 1
            && adds_no_stable(inner(self.front), &self.carry, left_at(self.back, 0))
    }

    // Returns whether the carry, and the nodes of the front operand, are only put before the back operand's nodes of
    // the level.
    fn only_prepends(&self) -> bool
        ensures { IsTrue result → OnlyExtends Operand.Back self.now }
    {
        !self.marks.at_start
            && self.front.len() <= 1
            && adds_no_stable_before(inner(self.front), &self.carry, left_at(self.back, 0))
    }

    // Returns whether the nodes in sight only extend an operand's level, so that nothing is collapsed from here on.
    // That is so if the outer end of the other operand isn't marked, that operand has no levels above, and no stable
    // point is added.
    pub(crate) fn only_extends(&self, operand: Operand) -> bool
        ensures { IsTrue result → OnlyExtends operand self.now }
    {
        match operand {
            Operand::Front => self.only_appends(),
            Operand::Back => self.only_prepends(),
        }
    }

    // Returns whether only nodes of the front operand are in sight.
    fn is_front_alone(&self) -> bool
        ensures { IsTrue result → seen self.now ≡ inner_nodes self.now.front }
    {
        self.carry.is_empty() && left_at(self.back, 0).is_empty()
    }
}

impl<'a, A: Allocator + Clone> InSight<'a, A> {
    // Returns the nodes in sight.
    pub(crate) fn nodes(&self) -> Result<Vec<Node, A>, AllocError>
        ensures { IfOk result (λ nodes. nodes.items ≡ seen self.now) }
    {
        let (first, last) = (inner(self.front), left_at(self.back, 0));
        let alloc = self.carry.allocator().clone()?;
        let mut nodes = Vec::with_capacity(alloc, first.len() + self.carry.len() + last.len())?;
        nodes.extend_from_slice(first)?;
        nodes.extend_from_slice(&self.carry)?;
        nodes.extend_from_slice(last)?;
        Ok(nodes)
    }

    // Adds the levels of the canonical subtree of the nodes in sight on top. If all of them are the front operand's, it
    // copies only those that stay.
    pub(crate) fn collapse<P: ParentMaker>(
        &self,
        levels: Vec<LevelNodes<A>, A>,
        maker: &mut P,
    ) -> Result<Vec<LevelNodes<A>, A>, AllocError>
        requires fits { total_size (seen self.now) < 2 ^ 64 }
        requires room { P.count maker.old + length (seen self.now) ≤ most_made }
        ensures { IfOk result (λ all. AddsCanonical (parent_by P.hash_of) self.now.at_start self.now.at_end (seen self.now)
            levels.items (P.count maker.old) all.items (P.count maker.new)) }
    {
        let alloc = self.carry.allocator().clone()?;
        if self.is_front_alone() {
            return Ok(collapse_slice(alloc, levels, inner(self.front), self.marks, maker)?);
        }
        Ok(collapse(alloc, levels, self.nodes()?, self.marks, maker)?)
    }
}

//! What is collapsed of a level's nodes, and what stays on either side.

ghost use Rattle.std.specs.Prelude.{◌≡◌, ◌≤◌, List, ◌++◌, length, map, take, drop, IfSome, IfNone};
ghost use Rattle.xet_roots.specs.Groups.{Node};
ghost use Rattle.subtree_levels.specs.Canonical.{IsLow, IsHigh, IsSplit};
ghost use Rattle.subtree_levels.specs.Steps.LevelMerging.{inner_side};

use crate::levels::Operand;
use stable_points::search::{find_stable_end_of, find_stable_start_of};
use xet_roots::aggregated_hashes::Node;
use xet_roots::as_node::AsNode;

/// Whether a list is marked at its start, and at its end.
#[derive(Clone, Copy)]
pub struct Marks {
    pub at_start: bool,
    pub at_end: bool,
}

// The nodes of a level: those that are collapsed, between those that stay on either side.
#[derive(Clone, Copy)]
pub(crate) struct Split<'a, T> {
    pub(crate) left: &'a [T],
    pub(crate) middle: &'a [T],
    pub(crate) right: &'a [T],
}

impl<'a> Split<'a, Node> {
    // Returns the nodes that stay on an operand's inner side, which faces the other operand.
    pub(crate) fn inner(self, operand: Operand) -> &'a [Node]
        ensures { result.now ≡ inner_side operand self.entry.left.now self.entry.right.now }
    {
        match operand {
            Operand::Front => self.right,
            Operand::Back => self.left,
        }
    }
}

// Returns where the collapsed nodes begin, if they do.
fn low_end<T: AsNode>(nodes: &[T], at_start: bool) -> Option<usize>
    ensures bound { IfSome result (λ p. p ≤ length nodes.now) }
    ensures low { IfSome result (λ p. IsLow at_start (take p (map T.node_of nodes.now)) (drop p (map T.node_of nodes.now))) }
    ensures none { IfNone result ((left rest : List Node) → map T.node_of nodes.now ≡ left ++ rest → ¬ (IsLow at_start left rest)) }
{
    if at_start {
        Some(0)
    } else {
        find_stable_start_of(nodes)
    }
}

// Returns where the collapsed nodes end, if they do, given the nodes from their beginning on.
fn high_end<T: AsNode>(nodes: &[T], at_end: bool) -> Option<usize>
    ensures bound { IfSome result (λ p. p ≤ length nodes.now) }
    ensures high { IfSome result (λ p. IsHigh at_end (take p (map T.node_of nodes.now)) (drop p (map T.node_of nodes.now))) }
    ensures none { IfNone result ((middle right : List Node) → map T.node_of nodes.now ≡ middle ++ right → ¬ (IsHigh at_end middle right)) }
{
    if at_end {
        Some(nodes.len())
    } else {
        find_stable_end_of(nodes)
    }
}

// Returns the split of a level's nodes under marks, if there is one.
pub(crate) fn find_split<T: AsNode>(nodes: &[T], marks: Marks) -> Option<Split<T>>
    ensures split { IfSome result (λ s. IsSplit marks.at_start marks.at_end (map T.node_of nodes.now)
        (map T.node_of s.left.now) (map T.node_of s.middle.now) (map T.node_of s.right.now)) }
    ensures none { IfNone result ((left middle right : List Node) →
        ¬ (IsSplit marks.at_start marks.at_end (map T.node_of nodes.now) left middle right)) }
{
    if nodes.len() < 2 {
        return None;
    }
    let low = low_end(nodes, marks.at_start)?;
    let (left, rest) = nodes.split_at(low);
    let high = high_end(rest, marks.at_end)?;
    let (middle, right) = rest.split_at(high);
    Some(Split {
        left,
        middle,
        right,
    })
}

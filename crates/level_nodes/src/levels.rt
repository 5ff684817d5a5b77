//! The kept nodes of a level, on both sides.

ghost use Rattle.std.specs.Prelude.{◌≡◌, ◌++◌, IfOk, OnOk, OnErr};
ghost use Rattle.level_nodes.specs.Level.{Level, left_at, right_at, same_level};
ghost use Rattle.level_nodes.specs.Steps.LevelEquality.{same_level-per, same_level-equiv};

use crate::left_nodes::LeftNodes;
use std::alloc::{AllocError, Allocator};
use std::marker::Model;
use xet_roots::aggregated_hashes::Node;

/// The kept nodes of a level, on both sides.
#[derive(Debug, Drop)]
pub struct LevelNodes<A: Allocator> {
    left: LeftNodes<A>,
    right: Vec<Node, A>,
}

impl<A: Allocator> Model for LevelNodes<A> {
    ghost Value = { Level };

    ghost view = { λ nodes. record { left = nodes.left; right = nodes.right.items } };
}

impl<A: Allocator> LevelNodes<A> {
    /// Makes a level of its nodes.
    pub fn new(left: Vec<Node, A>, right: Vec<Node, A>) -> Self
        ensures { result ≡ record { left = left.items; right = right.items } }
    {
        LevelNodes {
            left: LeftNodes::new(left),
            right,
        }
    }

    /// Returns the left nodes.
    pub fn left(&self) -> &[Node]
        ensures { result.now ≡ self.now.left }
    {
        self.left.as_slice()
    }

    /// Returns the right nodes.
    pub fn right(&self) -> &[Node]
        ensures { result.now ≡ self.now.right }
    {
        &self.right
    }

    /// Replaces the left nodes.
    pub fn set_left(&mut self, left: Vec<Node, A>)
        ensures { self.new ≡ record { left = left.items; right = self.old.right } }
    {
        self.left = LeftNodes::new(left);
    }

    /// Replaces the right nodes.
    pub fn set_right(&mut self, right: Vec<Node, A>)
        ensures { self.new ≡ record { left = self.old.left; right = right.items } }
    {
        self.right = right;
    }

    /// Puts nodes after the left ones.
    pub fn extend_left(&mut self, more: &[Node]) -> Result<(), AllocError>
        ensures extended { OnOk result (self.new ≡ record { left = self.old.left ++ more.now; right = self.old.right }) }
        ensures unchanged { OnErr result (self.new ≡ self.old) }
    {
        self.left.extend(more)
    }

    /// Puts nodes after the right ones.
    pub fn extend_right(&mut self, more: &[Node]) -> Result<(), AllocError>
        ensures extended { OnOk result (self.new ≡ record { left = self.old.left; right = self.old.right ++ more.now }) }
        ensures unchanged { OnErr result (self.new ≡ self.old) }
    {
        self.right.extend_from_slice(more)
    }
}

impl<A: Allocator + Clone> LevelNodes<A> {
    /// Returns a level with copies of these nodes, allocated by `alloc`.
    pub fn copied(alloc: A, left: &[Node], right: &[Node]) -> Result<Self, AllocError>
        ensures { IfOk result (λ level. level ≡ record { left = left.now; right = right.now }) }
    {
        let left = left.to_vec(alloc.clone()?)?;
        let right = right.to_vec(alloc)?;
        Ok(LevelNodes::new(left, right))
    }

    /// Puts nodes before the left ones. On average each node is copied a constant number of times.
    pub fn prepend_left(&mut self, more: &[Node]) -> Result<(), AllocError>
        ensures prepended { OnOk result (self.new ≡ record { left = more.now ++ self.old.left; right = self.old.right }) }
        ensures unchanged { OnErr result (self.new ≡ self.old) }
    {
        self.left.prepend(more)
    }
}

impl<A: Allocator> PartialEq for LevelNodes<A> {
    ghost eq = { same_level };

    ghost laws = { same_level-per };

    fn eq(&self, other: &Self) -> bool {
        self.left() == other.left() && self.right == other.right
    }
}

impl<A: Allocator> Eq for LevelNodes<A> {
    ghost laws = { same_level-equiv };
}

/// Returns a copy of levels.
pub fn copy_levels<A: Allocator + Clone>(
    alloc: A,
    levels: &[LevelNodes<A>],
) -> Result<Vec<LevelNodes<A>, A>, AllocError>
    ensures { IfOk result (λ copy. copy.items ≡ levels.now) }
{
    let mut copy = Vec::with_capacity(alloc.clone()?, levels.len())?;
    'levels: for level in levels {
        copy.push(LevelNodes::copied(alloc.clone()?, level.left(), level.right())?)?;
    }
    Ok(copy)
}

/// Returns the left nodes of a level, or none if there is no such level.
pub fn left_at<A: Allocator>(levels: &[LevelNodes<A>], level: usize) -> &[Node]
    ensures { result.now ≡ left_at levels.now level }
{
    match levels.get(level) {
        Some(level) => level.left(),
        None => &[],
    }
}

/// Returns the right nodes of a level, or none if there is no such level.
pub fn right_at<A: Allocator>(levels: &[LevelNodes<A>], level: usize) -> &[Node]
    ensures { result.now ≡ right_at levels.now level }
{
    match levels.get(level) {
        Some(level) => level.right(),
        None => &[],
    }
}

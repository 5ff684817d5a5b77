//! The rules that the marks and the levels of a subtree keep.

ghost use Rattle.std.specs.Prelude.{◌≡◌, ◌↔◌, ◌<◌, false, [], length, IfSome, IfNone, IsTrue};
ghost use Rattle.std.specs.List.{AllByRecursion as Each};
ghost use Rattle.subtree_levels.specs.Levels.{top_nodes, below_top, top_of};
ghost use Rattle.subtree_levels.specs.WellFormed.{Rule8, Rule9, Rule10, Rule11, Rule12, Rule13, IsWellFormed};
ghost use Rattle.subtree_levels.specs.LevelRules.{BreaksLevelRule};
ghost use Rattle.subtree_levels.specs.Steps.LevelSides.{HasSide};

use crate::levels::{LevelNodes, below_top, top};
use crate::sides::{is_left_side, is_right_side};
use std::alloc::Allocator;

// A requirement for each level below the top.
#[derive(Clone, Copy)]
enum Side {
    // It has no left nodes.
    NoLeft,
    // It has no right nodes.
    NoRight,
    // Its left nodes may stay on the left if the start isn't marked.
    Left,
    // Its right nodes may stay on the right if the end isn't marked.
    Right,
}

// Returns whether a level meets a requirement.
fn has_side<A: Allocator>(level: &LevelNodes<A>, side: Side) -> bool
    ensures { IsTrue result ↔ HasSide side level.now }
{
    match side {
        Side::NoLeft => level.left().is_empty(),
        Side::NoRight => level.right().is_empty(),
        Side::Left => is_left_side(level.left()),
        Side::Right => is_right_side(level.right()),
    }
}

// Returns whether each of some levels meets a requirement.
fn each_has_side<A: Allocator>(levels: &[LevelNodes<A>], side: Side) -> bool
    ensures { IsTrue result ↔ Each (HasSide side) levels.now }
{
    'levels: for level in levels {
        if !has_side(level, side) {
            return false;
        }
    }
    true
}

// Returns how many nodes the top has. It has no right nodes.
fn top_len<A: Allocator>(levels: &[LevelNodes<A>]) -> usize
    requires some { 0 < length levels.now }
    requires no_right { (top_of levels.now).right ≡ [] }
    ensures { result ≡ length (top_nodes levels.now) }
{
    top(levels).left().len()
}

// Returns whether marks and levels keep rule 8. The next functions do the same for the rules 9 to 13.
fn keep_rule_8<A: Allocator>(levels: &[LevelNodes<A>], at_end: bool) -> bool
    requires { 0 < length levels.now }
    ensures { IsTrue result ↔ Rule8 at_end levels.now }
{
    top(levels).right().is_empty() && (!at_end || each_has_side(below_top(levels), Side::NoRight))
}

fn keep_rule_9<A: Allocator>(levels: &[LevelNodes<A>], at_start: bool) -> bool
    ensures { IsTrue result ↔ Rule9 at_start levels.now }
{
    !at_start || each_has_side(below_top(levels), Side::NoLeft)
}

fn keep_rule_10<A: Allocator>(levels: &[LevelNodes<A>], at_start: bool, at_end: bool) -> bool
    requires some { 0 < length levels.now }
    requires rule_8 { Rule8 at_end levels.now }
    ensures { IsTrue result ↔ Rule10 at_start at_end levels.now }
{
    !at_start || !at_end || top_len(levels) <= 1
}

fn keep_rule_11<A: Allocator>(levels: &[LevelNodes<A>], at_end: bool) -> bool
    requires some { 0 < length levels.now }
    requires rule_8 { Rule8 at_end levels.now }
    ensures { IsTrue result ↔ Rule11 levels.now }
{
    levels.len() <= 1 || 0 < top_len(levels)
}

fn keep_rule_12<A: Allocator>(levels: &[LevelNodes<A>], at_start: bool) -> bool
    ensures { IsTrue result ↔ Rule12 at_start levels.now }
{
    at_start || each_has_side(below_top(levels), Side::Left)
}

fn keep_rule_13<A: Allocator>(levels: &[LevelNodes<A>], at_end: bool) -> bool
    ensures { IsTrue result ↔ Rule13 at_end levels.now }
{
    at_end || each_has_side(below_top(levels), Side::Right)
}

/// Returns the lowest rule from 8 to 13 that marks and levels break.
pub fn broken_rule<A: Allocator>(
    levels: &[LevelNodes<A>],
    at_start: bool,
    at_end: bool,
) -> Option<u8>
    requires { 0 < length levels.now }
    ensures kept { IfNone result (IsWellFormed (record { at_start = at_start; at_end = at_end; levels = levels.now })) }
    ensures broken { IfSome result (BreaksLevelRule at_start at_end levels.now) }
{
    if !keep_rule_8(levels, at_end) {
        Some(8)
    } else if !keep_rule_9(levels, at_start) {
        Some(9)
    } else if !keep_rule_10(levels, at_start, at_end) {
        Some(10)
    } else if !keep_rule_11(levels, at_end) {
        Some(11)
    } else if !keep_rule_12(levels, at_start) {
        Some(12)
    } else if !keep_rule_13(levels, at_end) {
        Some(13)
    } else {
        None
    }
}

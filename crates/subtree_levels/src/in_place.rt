//! Changes the levels of an operand in place.

ghost use Rattle.std.specs.Prelude.{◌≡◌, ◌<◌, ◌≤◌, ◌-◌, ◌++◌, length, map, take, drop, IfOk, IfErr};
ghost use Rattle.subtree_levels.specs.Steps.LevelMerging.{with_side, lowest_with, with_inner, with_left, extended};

use crate::levels::{LevelNodes, Operand, inner, left_at};
use std::alloc::{AllocError, Allocator};
use xet_roots::aggregated_hashes::Node;

// Replaces an operand's nodes of a level on its inner side, which faces the other operand.
fn replace_side<A: Allocator>(level: &mut LevelNodes<A>, side: Vec<Node, A>, kept: Operand)
    ensures { level.new ≡ with_side kept level.old side.items }
{
    match kept {
        Operand::Front => level.set_right(side),
        Operand::Back => level.set_left(side),
    }
}

// Appends nodes to those of a front operand's level that face the back one.
pub(crate) fn extend_inner<A: Allocator>(
    levels: &mut Vec<LevelNodes<A>, A>,
    at: usize,
    more: &[Node],
) -> Result<(), AllocError>
    requires { at < length levels.old.items }
    ensures extended { IfOk result (λ _. levels.new.items ≡ take at levels.old.items ++ with_inner (drop at levels.old.items) more.now) }
    ensures unchanged { IfErr result (λ _. levels.new.items ≡ levels.old.items) }
{
    if at + 1 == levels.len() {
        levels[at].extend_left(more)?;
    } else {
        levels[at].extend_right(more)?;
    }
    Ok(())
}

// Adds the carry, and the nodes of the other operand, to those of an operand's level that face the other one.
pub(crate) fn extend<A: Allocator + Clone>(
    levels: &mut Vec<LevelNodes<A>, A>,
    at: usize,
    carry: Vec<Node, A>,
    other: &[LevelNodes<A>],
    kept: Operand,
) -> Result<(), AllocError>
    requires { at < length levels.old.items }
    ensures extended { IfOk result (λ _. levels.new.items ≡ take at levels.old.items ++ extended kept (drop at levels.old.items) carry.items other.now) }
    ensures unchanged { IfErr result (λ _. levels.new.items ≡ levels.old.items) }
{
    match kept {
        Operand::Front => append(levels, at, carry, left_at(other, 0)),
        Operand::Back => prepend(levels, at, inner(other), &carry),
    }
}

// Appends nodes, in two parts, to those of a front operand's level.
fn append<A: Allocator>(
    levels: &mut Vec<LevelNodes<A>, A>,
    at: usize,
    first: Vec<Node, A>,
    second: &[Node],
) -> Result<(), AllocError>
    requires { at < length levels.old.items }
    ensures extended { IfOk result (λ _. levels.new.items ≡ take at levels.old.items ++ with_inner (drop at levels.old.items) (first.items ++ second.now)) }
    ensures unchanged { IfErr result (λ _. levels.new.items ≡ levels.old.items) }
{
    if first.is_empty() {
        return extend_inner(levels, at, second);
    }
    let mut more = first;
    more.extend_from_slice(second)?;
    extend_inner(levels, at, &more)
}

// Puts nodes, in two parts, before those of a back operand's level.
fn prepend<A: Allocator + Clone>(
    levels: &mut Vec<LevelNodes<A>, A>,
    at: usize,
    first: &[Node],
    second: &[Node],
) -> Result<(), AllocError>
    requires { at < length levels.old.items }
    ensures extended { IfOk result (λ _. levels.new.items ≡ take at levels.old.items ++ with_left (drop at levels.old.items) (first.now ++ second.now)) }
    ensures unchanged { IfErr result (λ _. levels.new.items ≡ levels.old.items) }
{
    let alloc = levels.allocator().clone()?;
    let mut more = Vec::with_capacity(alloc, first.len() + second.len())?;
    more.extend_from_slice(first)?;
    more.extend_from_slice(second)?;
    levels[at].prepend_left(&more)?;
    Ok(())
}

// Replaces the top by levels.
pub(crate) fn replace_top<A: Allocator>(
    levels: &mut Vec<LevelNodes<A>, A>,
    tops: Vec<LevelNodes<A>, A>,
) -> Result<(), AllocError>
    requires { 0 < length levels.old.items }
    ensures replaced { IfOk result (λ _. levels.new.items ≡ take (length levels.old.items - 1) levels.old.items ++ tops.items) }
    ensures unchanged { IfErr result (λ _. levels.new.items ≡ levels.old.items) }
{
    let top = levels.len() - 1;
    let mut tops = tops;
    levels.append(&mut tops)?;
    levels.remove(top);
    Ok(())
}

// Replaces the nodes of an operand's lowest levels on the side that faces the other operand.
pub(crate) fn replace_sides<A: Allocator>(
    levels: &mut Vec<LevelNodes<A>, A>,
    sides: Vec<Vec<Node, A>, A>,
    kept: Operand,
)
    requires { length sides.items ≤ length levels.old.items }
    ensures { levels.new.items ≡ lowest_with kept (map (λ side. side.items) sides.items) levels.old.items ++ drop (length sides.items) levels.old.items }
{
    let mut sides = sides;
    'sides: while let Some(side) = sides.pop() {
        replace_side(&mut levels[sides.len()], side, kept);
    }
}

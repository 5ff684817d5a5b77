//! Merges two subtrees of adjacent ranges from what they keep of each level, from the chunks up.
//!
//! It changes the levels of one operand in place, and only what has to change. Below its top each level keeps its outer
//! nodes. Above the first level at which nothing is collapsed, all levels stay. It allocates everything before it
//! changes anything.

ghost use Rattle.std.specs.Prelude.{◌≡◌, ℕ, ◌+◌, ◌<◌, false, [], length, map, IfOk, IfErr, IsTrue};
ghost use Rattle.xet_roots.specs.Groups.{Node};
ghost use Rattle.xet_roots.specs.Roots.{parent_by};
ghost use Rattle.subtree_levels.specs.Steps.LevelMerging.{sight_up, IsSightMerge, sight_of, levels_of, HaveSidesOf, OnlyExtends};
ghost use Rattle.subtree_levels.specs.Steps.Building.{CanMerge, MergesLevel, MergesLower};

use crate::collapse::collapse_middle;
use crate::in_place::{extend, replace_sides, replace_top};
use crate::in_sight::InSight;
use crate::levels::{LevelNodes, Operand, levels_from};
use crate::split::Marks;
use std::alloc::{AllocError, Allocator};
use xet_roots::aggregated_hashes::{Node, parents};
use xet_roots::parent_maker::ParentMaker;

// What was made below an operand's top, or below the level from which on nothing is collapsed.
struct Lower<A: Allocator> {
    // The new inner nodes of each level. The level keeps its outer ones.
    sides: Vec<Vec<Node, A>, A>,
    // The parents of what was collapsed at the last of these levels.
    carry: Vec<Node, A>,
    // Whether nothing is collapsed from here on.
    extends: bool,
}

// Merges one level below the top of an operand. Pushes the nodes that stay towards the other operand onto the sides, and
// returns what is in sight above, which carries the parents of the rest.
fn merge_level<'a, A: Allocator + Clone, P: ParentMaker>(
    alloc: A,
    sight: InSight<'a, A>,
    kept: Operand,
    sides: &mut Vec<Vec<Node, A>, A>,
    maker: &mut P,
) -> Result<InSight<'a, A>, AllocError>
    requires below_top { 1 < length (levels_of kept sight) }
    requires can_merge { CanMerge (P.count maker.old) sight }
    ensures merges { IfOk result (λ next. MergesLevel (parent_by P.hash_of) kept sight.entry
        (map (λ side. side.items) sides.old.items) next (map (λ side. side.items) sides.new.items)) }
    ensures count { IfOk result (λ next. P.count maker.new ≡ P.count maker.old + length next.carry) }
{
    let nodes = sight.nodes()?;
    let split = sight.split(&nodes);
    sides.push(split.inner(kept).to_vec(alloc.clone()?)?)?;
    let parents = parents(alloc, split.middle, maker)?;
    Ok(sight.above(parents))
}

// Merges what is in sight below the top of one operand, as long as something is collapsed.
fn merge_lower<A: Allocator + Clone, P: ParentMaker>(
    alloc: A,
    sight: InSight<A>,
    kept: Operand,
    maker: &mut P,
) -> Result<Lower<A>, AllocError>
    requires none_made { P.count maker.old ≡ 0 }
    requires can_merge { CanMerge (P.count maker.old) sight }
    ensures merges { IfOk result (λ lower. MergesLower (parent_by P.hash_of) kept sight.entry (map (λ side. side.items) lower.sides.items)
        (P.count maker.new) (sight_up (length lower.sides.items) sight.entry lower.carry.items)) }
    ensures extends { IfOk result (λ lower. IsTrue lower.extends → OnlyExtends kept (sight_up (length lower.sides.items) sight.entry lower.carry.items)) }
    ensures top { IfOk result (λ lower. lower.extends ≡ false → length (levels_of kept sight.entry) ≡ length lower.sides.items + 1) }
{
    let mut sides = Vec::new(alloc.clone()?);
    let mut sight = sight;
    let mut extends = sight.only_extends(kept);
    'levels: while !extends && sight.is_collapsed(kept) {
        sight = merge_level(alloc.clone()?, sight, kept, &mut sides, maker)?;
        extends = sight.only_extends(kept);
    }
    Ok(Lower {
        sides,
        carry: sight.into_carry(),
        extends,
    })
}

// Returns the levels that all nodes in sight are merged to.
fn merge_top<A: Allocator + Clone, P: ParentMaker>(
    alloc: A,
    sight: InSight<A>,
    maker: &mut P,
) -> Result<Vec<LevelNodes<A>, A>, AllocError>
    requires { CanMerge (P.count maker.old) sight }
    ensures { IfOk result (λ levels. (work : ℕ) × IsSightMerge (parent_by P.hash_of) sight.entry levels.items work
        × (P.count maker.new ≡ P.count maker.old + work)) }
{
    let mut levels = Vec::new(alloc.clone()?);
    let mut sight = sight;
    'levels: while sight.is_collapsed(Operand::Front) || sight.is_collapsed(Operand::Back) {
        let nodes = sight.nodes()?;
        let (more, parents) = collapse_middle(alloc.clone()?, levels, sight.split(&nodes), maker)?;
        levels = more;
        sight = sight.above(parents);
    }
    Ok(sight.collapse(levels, maker)?)
}

/// Merges the levels of one operand with those of the other, in place. They are unchanged if an allocation fails.
pub fn merge_levels<A: Allocator + Clone, P: ParentMaker>(
    levels: &mut Vec<LevelNodes<A>, A>,
    other: &[LevelNodes<A>],
    kept: Operand,
    marks: Marks,
    maker: &mut P,
) -> Result<(), AllocError>
    requires sides { HaveSidesOf kept marks.at_start marks.at_end levels.old.items }
    requires none_made { P.count maker.old ≡ 0 }
    requires can_merge { CanMerge 0 (sight_of kept marks.at_start marks.at_end levels.old.items [] other.now) }
    ensures merged { IfOk result (λ _.
        IsSightMerge (parent_by P.hash_of) (sight_of kept marks.at_start marks.at_end levels.old.items [] other.now) levels.new.items (P.count maker.new)) }
    ensures unchanged { IfErr result (λ _. levels.new.items ≡ levels.old.items) }
{
    let alloc = levels.allocator().clone()?;
    let none = Vec::new(alloc.clone()?);
    let sight = InSight::new(kept, levels, other, none, marks);
    let Lower {
        sides,
        carry,
        extends,
    } = merge_lower(alloc.clone()?, sight, kept, maker)?;
    let at = sides.len();
    let other = levels_from(other, at);
    if extends {
        extend(levels, at, carry, other, kept)?;
    } else {
        let sight = InSight::new(kept, levels_from(levels, at), other, carry, marks);
        let tops = merge_top(alloc, sight, maker)?;
        replace_top(levels, tops)?;
    }
    replace_sides(levels, sides, kept);
    Ok(())
}

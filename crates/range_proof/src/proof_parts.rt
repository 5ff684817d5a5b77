//! Makes a proof of its parts, if they keep the rules 5 to 8.

ghost use Rattle.std.specs.Prelude.{◌≡◌, ◌+◌, ◌^◌, ◌<◌, ◌↔◌, sum_by, IfOk, IfErr, IfSome, IfNone, IsTrue, SomeIff};
ghost use Rattle.xet_roots.specs.Roots.{total_size};
ghost use Rattle.range_proof.specs.RangeProof.{IsWellFormed};
ghost use Rattle.range_proof.specs.ProofJson.{BreaksValueRule, HasFewBeside};

use crate::proof::RangeProof;
use level_nodes::levels::LevelNodes;
use std::alloc::Allocator;
use xet_roots::aggregated_hashes::Node;
use xet_roots::groups::total_size;

// The most levels of a proof.
const MAX_LEVELS: usize = 64;

// The most nodes on one side of a level.
const MAX_SIDE: usize = 8;

// Returns whether each side has at most 8 nodes.
fn have_few_beside<A: Allocator>(levels: &[LevelNodes<A>]) -> bool
    ensures { IsTrue result ↔ HasFewBeside levels.now }
{
    'levels: for level in levels {
        if level.left().len() > MAX_SIDE || level.right().len() > MAX_SIDE {
            return false;
        }
    }
    true
}

// Returns the sum of the sizes on all sides, if it is at most `u64::MAX`.
fn size_beside<A: Allocator>(levels: &[LevelNodes<A>]) -> Option<u64>
    ensures { SomeIff result (sum_by (λ sides. total_size sides.left + total_size sides.right) levels.now < 2 ^ 64)
        (sum_by (λ sides. total_size sides.left + total_size sides.right) levels.now) }
{
    let mut size = 0u64;
    'sizes: for level in levels {
        size = size
            .checked_add(total_size(level.left())?)?
            .checked_add(total_size(level.right())?)?;
    }
    Some(size)
}

// Returns whether the sizes of all nodes add up to at most `u64::MAX`.
fn sizes_fit<A: Allocator>(chunks: &[Node], levels: &[LevelNodes<A>]) -> bool
    ensures { IsTrue result ↔ (total_size chunks.now
        + sum_by (λ sides. total_size sides.left + total_size sides.right) levels.now < 2 ^ 64) }
{
    let (Some(of_chunks), Some(beside)) = (total_size(chunks), size_beside(levels)) else {
        return false;
    };
    of_chunks.checked_add(beside).is_some()
}

// Returns the lowest rule from 5 to 8 that chunks and levels break.
fn broken_rule<A: Allocator>(chunks: &[Node], levels: &[LevelNodes<A>]) -> Option<u8>
    ensures broken { IfSome result (BreaksValueRule (record { chunks = chunks.now; levels = levels.now })) }
    ensures kept { IfNone result (IsWellFormed (record { chunks = chunks.now; levels = levels.now })) }
{
    if chunks.is_empty() {
        return Some(5);
    }
    if levels.len() > MAX_LEVELS {
        return Some(6);
    }
    if !have_few_beside(levels) {
        return Some(7);
    }
    if !sizes_fit(chunks, levels) {
        return Some(8);
    }
    None
}

// Makes a proof of its chunks and levels, or returns the lowest rule from 5 to 8 that they break.
pub(crate) fn from_parts<A: Allocator>(
    chunks: Vec<Node, A>,
    levels: Vec<LevelNodes<A>, A>,
) -> Result<RangeProof<A>, u8>
    ensures same { IfOk result (λ proof. proof ≡ record { chunks = chunks.items; levels = levels.items }) }
    ensures well_formed { IfOk result IsWellFormed }
    ensures broken { IfErr result (BreaksValueRule (record { chunks = chunks.items; levels = levels.items })) }
{
    match broken_rule(&chunks, &levels) {
        Some(rule) => Err(rule),
        None => Ok(RangeProof::new(chunks, levels)),
    }
}

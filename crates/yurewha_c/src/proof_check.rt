//! Checks the flat lists of range proofs without making the proof.

ghost use Rattle.std.specs.Prelude.{◌≡◌, ◌⊎◌, ◌↔◌, ◌+◌, ◌^◌, ◌<◌, sum_by, IfSome, IfNone, IsTrue, SomeIff};
ghost use Rattle.range_proof.specs.RangeProof.{Proof};
ghost use Rattle.range_proof.specs.FlatLevels.{count_sum};
ghost use Rattle.range_proof.specs.FlatProof.{BreaksFlatRule};
ghost use Rattle.yurewha_c.specs.Chunks.{nodes_of};
ghost use Rattle.yurewha_c.specs.FlatLists.{counts_of};
ghost use Rattle.yurewha_c.specs.ProofLists.{AreOfProof, HaveFewBeside, IsFlatRule};

use crate::chunks::{Chunk, sizes_fit};
use crate::status::{DONE, PROOF_RULE};
use crate::subtree_flat::Level;

// The most levels of a range proof.
const MAX_LEVELS: usize = 64;

// The most nodes on one side of a level.
const MAX_SIDE: usize = 8;

// Returns the sum of all counts, if it is at most `usize::MAX`.
fn count_sum(levels: &[Level]) -> Option<usize>
    ensures { SomeIff result (sum_by (λ level. level.left + level.right) levels.now < 2 ^ 64)
        (sum_by (λ level. level.left + level.right) levels.now) }
{
    let mut sum = 0usize;
    'sum: for level in levels {
        sum = sum.checked_add(level.left)?.checked_add(level.right)?;
    }
    Some(sum)
}

// Returns whether the counts of some levels leave a node for the chunks.
#[tactic(auto, using(crate::proofs::FlatProofs::count_sum_of_levels))]
fn leave_a_chunk(levels: &[Level], len: usize) -> bool
    ensures { IsTrue result ↔ (count_sum (counts_of levels.now) < len) }
{
    match count_sum(levels) {
        Some(sum) => sum < len,
        None => false,
    }
}

// Returns whether each side of each level has at most 8 nodes.
fn have_few_beside(levels: &[Level]) -> bool
    ensures { IsTrue result ↔ HaveFewBeside levels.now }
{
    'levels: for level in levels {
        if level.left > MAX_SIDE || level.right > MAX_SIDE {
            return false;
        }
    }
    true
}

// Returns the lowest rule from 5 to 8 that flat lists break.
fn broken_rule(levels: &[Level], nodes: &[Chunk]) -> Option<u32>
    ensures broken { IfSome result (BreaksFlatRule (counts_of levels.now) (nodes_of nodes.now)) }
    ensures kept { IfNone result ((proof : Proof) × AreOfProof levels.now nodes.now proof) }
{
    if !leave_a_chunk(levels, nodes.len()) {
        return Some(5);
    }
    if levels.len() > MAX_LEVELS {
        return Some(6);
    }
    if !have_few_beside(levels) {
        return Some(7);
    }
    if !sizes_fit(nodes) {
        return Some(8);
    }
    None
}

/// Returns whether flat lists are those of a range proof, or which rule they break. It opens nothing, so `DONE` doesn't
/// say that the proof shows any hash. It allocates nothing.
///
/// - `DONE`: if and only if they are those of a range proof.
/// - `PROOF_RULE` + rule: the lists break this rule, from 5 to 8 of `yurewha_range_proof_from_json`, and none of these
///   with a lower number.
///
/// Since 1.1.
#[unsafe(no_mangle)]
pub extern "C" fn yurewha_range_proof_check(levels: &[Level], nodes: &[Chunk]) -> u32
    ensures valid { (result ≡ DONE) ↔ ((proof : Proof) × AreOfProof levels.now nodes.now proof) }
    ensures statuses { (result ≡ DONE) ⊎ IsFlatRule levels.now nodes.now result }
{
    match broken_rule(levels, nodes) {
        Some(rule) => PROOF_RULE + rule,
        None => DONE,
    }
}

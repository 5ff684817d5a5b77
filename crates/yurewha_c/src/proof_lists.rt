//! Range proofs as flat lists, for binary formats.

ghost use Rattle.std.specs.Prelude.{◌≡◌, ◌⊎◌, ◌<◌, ◌≤◌, ◌++◌, drop, length, map, take, IfOk, IfErr};
ghost use Rattle.range_proof.specs.RangeProof.{Proof};
ghost use Rattle.yurewha_c.specs.Chunks.{nodes_of};
ghost use Rattle.yurewha_c.specs.FlatLists.{counts_of};
ghost use Rattle.yurewha_c.specs.ProofLists.{AreOfProof, IsFlatRule, WritesProof};

use crate::chunks::Chunk;
use crate::status::{DONE, MEMORY, ROOM, status_of_proof};
use crate::subtree_flat::{Level, counts_of, write_nodes};
use range_proof::RangeProof;
use std::alloc::Global;
use xet_merkle::as_node::read_nodes;

// Makes a range proof from flat lists. Fails with `MEMORY`, or `PROOF_RULE` and the lowest rule from 5 to 8 that they break.
pub(crate) fn read_proof(
    alloc: Global,
    levels: &[Level],
    nodes: &[Chunk],
) -> Result<RangeProof, u32>
    ensures read { IfOk result (AreOfProof levels.now nodes.now) }
    ensures refused { IfErr result (λ status. (status ≡ MEMORY) ⊎ IsFlatRule levels.now nodes.now status) }
{
    let Ok(counts) = counts_of(alloc, levels) else {
        return Err(MEMORY);
    };
    let Ok(nodes) = read_nodes(alloc, nodes) else {
        return Err(MEMORY);
    };
    match RangeProof::from_flat(alloc, &counts, &nodes) {
        Ok(proof) => Ok(proof),
        Err(error) => Err(status_of_proof(error)),
    }
}

// Writes counts to the beginning of a list of levels.
fn write_counts(counts: &[(usize, usize)], levels: &mut [Level])
    requires { length counts.now ≤ length levels.old }
    ensures written { counts_of (take (length counts.now) levels.new) ≡ counts.now }
    ensures rest { drop (length counts.now) levels.new ≡ drop (length counts.now) levels.old }
{
    'counts: for i in 0..counts.len() {
        let (left, right) = counts[i];
        levels[i] = Level { left, right };
    }
}

// Writes a range proof as flat lists to the beginnings of two rooms, and the lengths of the lists. If a room is too
// small, it writes the lengths alone and returns `ROOM`. If an allocation fails, it writes nothing and returns `MEMORY`.
pub(crate) fn write_proof(
    proof: &RangeProof,
    levels: &mut [Level],
    nodes: &mut [Chunk],
    level_len: &mut usize,
    node_len: &mut usize,
) -> u32
    ensures statuses { (result ≡ DONE) ⊎ ((result ≡ ROOM) ⊎ (result ≡ MEMORY)) }
    ensures written { (result ≡ DONE) ⊎ (result ≡ ROOM) →
        WritesProof proof.now levels.old levels.new nodes.old nodes.new level_len.new node_len.new result }
    ensures unchanged { result ≡ MEMORY → (levels.new ≡ levels.old) × (nodes.new ≡ nodes.old)
        × (level_len.new ≡ level_len.old) × (node_len.new ≡ node_len.old) }
{
    let Ok((counts, all)) = proof.to_flat() else {
        return MEMORY;
    };
    *level_len = counts.len();
    *node_len = all.len();
    if levels.len() < counts.len() || nodes.len() < all.len() {
        return ROOM;
    }
    write_counts(&counts, levels);
    write_nodes(&all, nodes, 0);
    DONE
}

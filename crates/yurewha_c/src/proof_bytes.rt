//! Range proofs in their binary form.

ghost use Rattle.std.specs.Prelude.{◌≡◌, ◌≢◌, ◌⊎◌, ℕ, ◌+◌};
ghost use Rattle.range_proof.specs.RangeProof.{Proof};
ghost use Rattle.range_proof.specs.ProofBytes.{BreakRule, SayProof, proof_bytes};
ghost use Rattle.yurewha_c.specs.ProofLists.{AreOfProof, IsFlatRule, WritesProof};
ghost use Rattle.yurewha_c.specs.Texts.{WritesText};

use crate::chunks::Chunk;
use crate::proof_lists::{read_proof, write_proof};
use crate::status::{DONE, MEMORY, PROOF_RULE, ROOM, status_of_proof};
use crate::subtree_flat::Level;
use crate::text::write_text;
use range_proof::RangeProof;
use std::alloc::Global;

/// Writes the binary form of a range proof to the beginning of `bytes`, and its length to `byte_len`. It is a byte with
/// the number of levels; for each level, from the chunks up, two bytes with the numbers of its left and right nodes; and
/// for each node, in the order of the flat list, the 32 bytes of its hash and the 8 of its size, little-endian. That is
/// 1 byte, 2 for each level, and 40 for each node.
///
/// - `DONE`: it is written.
/// - `ROOM`: it doesn't fit, and `byte_len` is the needed length.
/// - `PROOF_RULE` + rule: the lists break this rule, from 5 to 8 of `yurewha_range_proof_from_json`, and none of these
///   with a lower number.
/// - `MEMORY`: an allocation failed; this may be returned instead of the two above.
///
/// Since 1.1.
#[unsafe(no_mangle)]
pub extern "C" fn yurewha_range_proof_to_bytes(
    alloc: Global,
    levels: &[Level],
    nodes: &[Chunk],
    bytes: &mut [u8],
    byte_len: &mut usize,
) -> u32
    ensures written { (result ≡ DONE) ⊎ (result ≡ ROOM) → (proof : Proof) × AreOfProof levels.now nodes.now proof
        × WritesText (proof_bytes proof) bytes.old bytes.new byte_len.new result }
    ensures statuses { (result ≡ DONE) ⊎ ((result ≡ ROOM) ⊎ ((result ≡ MEMORY) ⊎ IsFlatRule levels.now nodes.now result)) }
    ensures unchanged { result ≢ DONE → bytes.new ≡ bytes.old }
    ensures no_len { result ≢ DONE → result ≢ ROOM → byte_len.new ≡ byte_len.old }
{
    let proof = match read_proof(alloc, levels, nodes) {
        Ok(proof) => proof,
        Err(status) => return status,
    };
    match proof.to_bytes() {
        Ok(all) => write_text(&all, bytes, byte_len),
        Err(_) => MEMORY,
    }
}

/// Reads a range proof from its binary form, which `yurewha_range_proof_to_bytes` writes, and writes it as flat lists.
/// Time and memory are in proportion to the bytes, so refuse more than 2^23 bytes from a stranger, or another limit,
/// before this call: that many are enough for about 200,000 chunks.
///
/// - `DONE`: the lists are written.
/// - `ROOM`: a list is longer than its room; nothing is written to either, and `level_len` and `node_len` are the
///   needed lengths. There are at most 64 levels, and a node for each 40 bytes.
/// - `PROOF_RULE` + rule: the bytes break this rule, and none with a lower number. It is one of these, or of those from 5
///   to 8 of `yurewha_range_proof_from_json`:
///   1. there is a first byte
///   3. two bytes follow for each level
///   4. whole nodes follow, of 40 bytes each
/// - `MEMORY`: an allocation failed; this may be returned instead of the two above.
///
/// Since 1.1.
#[unsafe(no_mangle)]
pub extern "C" fn yurewha_range_proof_from_bytes(
    alloc: Global,
    bytes: &[u8],
    levels: &mut [Level],
    nodes: &mut [Chunk],
    level_len: &mut usize,
    node_len: &mut usize,
) -> u32
    ensures reads { (result ≡ DONE) ⊎ (result ≡ ROOM) → (proof : Proof) × SayProof bytes.now proof
        × WritesProof proof levels.old levels.new nodes.old nodes.new level_len.new node_len.new result }
    ensures statuses { (result ≡ DONE) ⊎ ((result ≡ ROOM) ⊎ ((result ≡ MEMORY)
        ⊎ ((rule : ℕ) × (result ≡ PROOF_RULE + rule) × BreakRule bytes.now rule))) }
    ensures unchanged { result ≢ DONE → (levels.new ≡ levels.old) × (nodes.new ≡ nodes.old) }
    ensures no_lens { result ≢ DONE → result ≢ ROOM → (level_len.new ≡ level_len.old) × (node_len.new ≡ node_len.old) }
{
    match RangeProof::from_bytes(alloc, bytes) {
        Ok(proof) => write_proof(&proof, levels, nodes, level_len, node_len),
        Err(error) => status_of_proof(error),
    }
}

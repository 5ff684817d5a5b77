//! Range proofs as JSON text.

ghost use Rattle.std.specs.Prelude.{◌≡◌, ◌≢◌, ◌⊎◌, ℕ, ◌+◌, IfOk};
ghost use Rattle.serde_json.specs.Data.{Data};
ghost use Rattle.json_text.specs.JsonText.{IsJsonText};
ghost use Rattle.serde_json.specs.Written.{compact_text};
ghost use Rattle.range_proof.specs.RangeProof.{Proof};
ghost use Rattle.range_proof.specs.ProofJson.{BreaksRule, Reads, proof_json};
ghost use Rattle.yurewha_c.specs.ProofLists.{AreOfProof, IsFlatRule, WritesProof};
ghost use Rattle.yurewha_c.specs.Texts.{WritesText};

use crate::chunks::Chunk;
use crate::proof_lists::{read_proof, write_proof};
use crate::status::{DONE, MEMORY, PROOF_RULE, ROOM, TEXT, status_of_proof};
use crate::subtree_flat::Level;
use crate::text::write_text;
use json_text::reading::{TextFault, read};
use range_proof::RangeProof;
use range_proof::laws::proof_json_has_no_float;
use std::alloc::{AllocError, Global};

// Returns the compact JSON text of a range proof.
fn json_text(alloc: Global, proof: &RangeProof) -> Result<Vec<u8>, AllocError>
    ensures { IfOk result (λ text. text.items ≡ compact_text (proof_json proof.now)) }
{
    let Ok(value) = proof.to_json(alloc) else {
        return Err(AllocError);
    };
    // The contract needs this law: `to_vec` promises its text only for values without floats.
    proof_json_has_no_float();
    value.to_vec(alloc)
}

/// Writes the compact JSON text of a range proof to `room`, and its length to `text_len`.
///
/// - `DONE`: it is written.
/// - `ROOM`: the text doesn't fit, and `text_len` is the needed length.
/// - `PROOF_RULE` + rule: the lists break this rule, from 5 to 8 of `yurewha_range_proof_from_json`, and none of these
///   with a lower number.
/// - `MEMORY`: an allocation failed; this may be returned instead of the two above.
///
/// Since 1.1.
#[unsafe(no_mangle)]
pub extern "C" fn yurewha_range_proof_to_json(
    alloc: Global,
    levels: &[Level],
    nodes: &[Chunk],
    room: &mut [u8],
    text_len: &mut usize,
) -> u32
    ensures written { (result ≡ DONE) ⊎ (result ≡ ROOM) → (proof : Proof) × AreOfProof levels.now nodes.now proof
        × WritesText (compact_text (proof_json proof)) room.old room.new text_len.new result }
    ensures statuses { (result ≡ DONE) ⊎ ((result ≡ ROOM) ⊎ ((result ≡ MEMORY) ⊎ IsFlatRule levels.now nodes.now result)) }
    ensures unchanged { result ≢ DONE → room.new ≡ room.old }
    ensures no_len { result ≢ DONE → result ≢ ROOM → text_len.new ≡ text_len.old }
{
    let proof = match read_proof(alloc, levels, nodes) {
        Ok(proof) => proof,
        Err(status) => return status,
    };
    match json_text(alloc, &proof) {
        Ok(text) => write_text(&text, room, text_len),
        Err(_) => MEMORY,
    }
}

/// Reads a range proof from JSON text, and writes it as flat lists. The value is an object with these members:
/// `chunks`, the nodes of the range's chunks; and `levels`, an object for each level, from the chunks up, with the
/// nodes of both sides as `left` and `right`. Each node has its `hash` in hex and its `size`. Time and memory are in
/// proportion to the text, so refuse a stranger's text of more than 2^24 bytes, or another limit, before this call:
/// that many are enough for about 180,000 chunks.
///
/// - `DONE`: the lists are written.
/// - `ROOM`: a list is longer than its room; nothing is written to either, and `level_len` and `node_len` are the
///   needed lengths.
/// - `TEXT`: the text isn't UTF-8, isn't JSON, or is nested more than 32 deep.
/// - `PROOF_RULE` + rule: the value breaks this rule, and none with a lower number:
///   1. it is an object
///   2. `chunks` and `levels` are arrays
///   3. a level is an object, and its `left` and `right` are arrays
///   4. a node is an object with `hash`, 64 hex digits, and `size`, a whole number below 2^64
///   5. there is at least one chunk; in flat lists, the counts leave at least one node for the chunks
///   6. there are at most 64 levels
///   7. a side of a level has at most 8 nodes
///   8. the sizes of all nodes add up to at most 2^64 - 1
/// - `MEMORY`: an allocation failed; this may be returned instead of the three above.
///
/// Since 1.1.
#[unsafe(no_mangle)]
pub extern "C" fn yurewha_range_proof_from_json(
    alloc: Global,
    text: &[u8],
    levels: &mut [Level],
    nodes: &mut [Chunk],
    level_len: &mut usize,
    node_len: &mut usize,
) -> u32
    ensures reads { (result ≡ DONE) ⊎ (result ≡ ROOM) → (proof : Proof)
        × ((json : Data) × IsJsonText text.now json × Reads json proof)
        × WritesProof proof levels.old levels.new nodes.old nodes.new level_len.new node_len.new result }
    ensures text { result ≡ TEXT → (json : Data) → ¬ (IsJsonText text.now json) }
    ensures statuses { (result ≡ DONE) ⊎ ((result ≡ ROOM) ⊎ ((result ≡ TEXT) ⊎ ((result ≡ MEMORY)
        ⊎ ((rule : ℕ) × (result ≡ PROOF_RULE + rule)
        × (json : Data) × IsJsonText text.now json × BreaksRule json rule)))) }
    ensures unchanged { result ≢ DONE → (levels.new ≡ levels.old) × (nodes.new ≡ nodes.old) }
    ensures no_lens { result ≢ DONE → result ≢ ROOM → (level_len.new ≡ level_len.old) × (node_len.new ≡ node_len.old) }
{
    let value = match read(alloc, text) {
        Ok(value) => value,
        Err(TextFault::Text) => return TEXT,
        Err(TextFault::Memory) => return MEMORY,
    };
    match RangeProof::from_json(alloc, &value) {
        Ok(proof) => write_proof(&proof, levels, nodes, level_len, node_len),
        Err(error) => status_of_proof(error),
    }
}

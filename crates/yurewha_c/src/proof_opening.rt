//! Opens range proofs, which may come from anybody, with a file hash or a root.

ghost use Rattle.std.specs.Prelude.{◌≡◌, ◌≢◌, ◌⊎◌, IsSomeAnd};
ghost use Rattle.range_proof.specs.RangeProof.{Proof, Shows, ShowsRoot};
ghost use Rattle.yurewha_c.specs.ProofLists.{AreOfProof, IsFlatRule};

use crate::chunks::Chunk;
use crate::hash::{Bytes, Hash};
use crate::opened_range_handle::OpenedRangeHandle;
use crate::proof_lists::read_proof;
use crate::status::{DONE, MEMORY, MISMATCH, status_of_open};
use crate::subtree_flat::Level;
use std::alloc::Global;

/// Opens a range proof with a file hash under a salt. The handle owns the opened range. The default hash is never
/// shown, since it is the hash of the empty file.
///
/// - `DONE`: the proof shows the file hash.
/// - `MISMATCH`: it doesn't.
/// - `PROOF_RULE` + rule: the lists break this rule, from 5 to 8 of `yurewha_range_proof_from_json`, and none of these
///   with a lower number.
/// - `MEMORY`: an allocation failed; this may be returned instead of the two above.
///
/// Since 1.1.
#[unsafe(no_mangle)]
pub extern "C" fn yurewha_range_proof_open(
    alloc: Global,
    levels: &[Level],
    nodes: &[Chunk],
    file_hash: &Hash,
    salt: &Bytes,
    range: &mut OpenedRangeHandle,
) -> u32
    ensures shows { result ≡ DONE → IsSomeAnd range.new.value (λ proof. AreOfProof levels.now nodes.now proof
        × Shows proof file_hash.now.words salt.now.bytes) }
    ensures mismatch { result ≡ MISMATCH → (proof : Proof) × AreOfProof levels.now nodes.now proof
        × ¬ (Shows proof file_hash.now.words salt.now.bytes) }
    ensures statuses { (result ≡ DONE) ⊎ ((result ≡ MISMATCH) ⊎ ((result ≡ MEMORY) ⊎ IsFlatRule levels.now nodes.now result)) }
    ensures unchanged { result ≢ DONE → range.new.value ≡ range.old.value }
{
    let proof = match read_proof(alloc, levels, nodes) {
        Ok(proof) => proof,
        Err(status) => return status,
    };
    match proof.open(&file_hash.value(), &salt.bytes) {
        Ok(opened) => range.hold(alloc, opened),
        Err(error) => status_of_open(error.fault),
    }
}

/// Opens a range proof with the root of the file's chunks, as `yurewha_range_proof_open` does with a file hash. The
/// statuses are those of `yurewha_range_proof_open`, with the root in place of the file hash.
///
/// Since 1.1.
#[unsafe(no_mangle)]
pub extern "C" fn yurewha_range_proof_open_root(
    alloc: Global,
    levels: &[Level],
    nodes: &[Chunk],
    root: &Hash,
    range: &mut OpenedRangeHandle,
) -> u32
    ensures shows { result ≡ DONE → IsSomeAnd range.new.value (λ proof. AreOfProof levels.now nodes.now proof
        × ShowsRoot proof root.now.words) }
    ensures mismatch { result ≡ MISMATCH → (proof : Proof) × AreOfProof levels.now nodes.now proof
        × ¬ (ShowsRoot proof root.now.words) }
    ensures statuses { (result ≡ DONE) ⊎ ((result ≡ MISMATCH) ⊎ ((result ≡ MEMORY) ⊎ IsFlatRule levels.now nodes.now result)) }
    ensures unchanged { result ≢ DONE → range.new.value ≡ range.old.value }
{
    let proof = match read_proof(alloc, levels, nodes) {
        Ok(proof) => proof,
        Err(status) => return status,
    };
    match proof.open_root(&root.value()) {
        Ok(opened) => range.hold(alloc, opened),
        Err(error) => status_of_open(error.fault),
    }
}

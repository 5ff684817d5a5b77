//! Parts of a file that were asked for: their proofs, which may come from anybody, and the checks of their data.

ghost use Rattle.std.specs.Prelude.{◌≡◌, ◌≢◌, ◌⊎◌, ◌↔◌, ◌+◌, ◌-◌, ◌≤◌, ℕ, List, None, Some, [], length, slice_range, IfNone, IfSome, IsSomeAnd, IsTrue};
ghost use Rattle.range_proof.specs.RangeProof.{Proof, Shows, begin_of, file_size_of};
ghost use Rattle.range_proof.specs.Checking.{IsSoundRead};
ghost use Rattle.range_proof.specs.Reading.{IsRead};
ghost use Rattle.verified_reader.specs.Reader.{GoesFrom, IsWhyRefused};
ghost use Rattle.verified_reader.specs.declared.part_fault.PartFault.TheVariants.{Elsewhere, TooFar};
ghost use Rattle.yurewha_c.specs.Handles.{BothHold, Reads};
ghost use Rattle.yurewha_c.specs.ProofLists.{AreOfProof, IsFlatRule};
ghost use Rattle.yurewha_c.specs.Readers.{HasChecked, IsOpened};

use crate::chunks::Chunk;
use crate::hash::{Bytes, Hash};
use crate::part_handle::PartHandle;
use crate::proof_lists::read_proof;
use crate::status::{DONE, ELSEWHERE, EMPTY_HANDLE, MEMORY, MISMATCH, TOO_FAR};
use crate::subtree_flat::Level;
use range_proof::RangeProof;
use std::alloc::Global;
use verified_reader::{PartFault, WantedPart};

// Opens a proof for some bytes of a file, as the exports do.
fn open_part(
    alloc: Global,
    proof: RangeProof,
    file_hash: &Hash,
    salt: &Bytes,
    from: u64,
    to: u64,
    beyond: u64,
    part: &mut PartHandle,
    begin: &mut u64,
    end: &mut u64,
) -> u32
    ensures opened { result ≡ DONE → IsSomeAnd part.new.value (λ opened. (opened.proof ≡ proof)
        × IsOpened opened file_hash.now.words salt.now.bytes from to beyond) }
    ensures places { result ≡ DONE → GoesFrom proof begin.new end.new }
    ensures mismatch { result ≡ MISMATCH → ¬ (Shows proof file_hash.now.words salt.now.bytes) }
    ensures elsewhere { result ≡ ELSEWHERE →
        IsWhyRefused proof file_hash.now.words salt.now.bytes from to beyond (Elsewhere begin.new end.new) }
    ensures too_far { result ≡ TOO_FAR →
        IsWhyRefused proof file_hash.now.words salt.now.bytes from to beyond (TooFar begin.new end.new) }
    ensures statuses { (result ≡ DONE) ⊎ ((result ≡ MISMATCH) ⊎ ((result ≡ ELSEWHERE) ⊎ ((result ≡ TOO_FAR) ⊎ (result ≡ MEMORY)))) }
    ensures unchanged { result ≢ DONE → part.new.value ≡ part.old.value }
    ensures unwritten { result ≢ DONE → result ≢ ELSEWHERE → result ≢ TOO_FAR → (begin.new ≡ begin.old) × (end.new ≡ end.old) }
{
    match WantedPart::open(
        alloc,
        proof,
        &file_hash.value(),
        &salt.bytes,
        from,
        to,
        beyond,
    ) {
        Ok(opened) => {
            let places = opened.places();
            let status = part.hold(alloc, opened);
            if status == DONE {
                *begin = places.0;
                *end = places.1;
            }
            status
        }
        Err(PartFault::Mismatch) => MISMATCH,
        Err(PartFault::OutOfMemory) => MEMORY,
        Err(PartFault::Elsewhere(first, last)) => {
            *begin = first;
            *end = last;
            ELSEWHERE
        }
        Err(PartFault::TooFar(first, last)) => {
            *begin = first;
            *end = last;
            TOO_FAR
        }
    }
}

/// Opens a range proof with a file hash under a salt, for the bytes of the file from the place `from` up to, but without,
/// the place `to`, or up to the end of the file if that comes first. The handle owns the part. Writes where in the file the
/// proof's range begins and ends: the data of these places is what `yurewha_part_check` checks. A part needs nothing of a
/// reader: any number may be open at once, and may be checked and taken in any order.
///
/// A proof of a file without bytes is opened for any places. Its range ends where it begins.
///
/// - `DONE`: the proof shows the file hash, and its range holds the bytes.
/// - `PROOF_RULE` + rule: the lists break this rule, from 5 to 8 of `yurewha_range_proof_from_json`, and none of these
///   with a lower number.
/// - `MISMATCH`: the proof doesn't show the file hash.
/// - `ELSEWHERE`: it does, and the file has bytes, but the range doesn't hold those that are asked for, or the file ends
///   before them. `begin` and `end` are written.
/// - `TOO_FAR`: the range holds them, but begins more than `beyond` bytes before them, or ends more than that after them.
///   `begin` and `end` are written.
/// - `MEMORY`: an allocation failed; this may be returned instead of another one.
///
/// Since 1.1.
#[unsafe(no_mangle)]
pub extern "C" fn yurewha_part_open(
    alloc: Global,
    levels: &[Level],
    nodes: &[Chunk],
    file_hash: &Hash,
    salt: &Bytes,
    from: u64,
    to: u64,
    beyond: u64,
    begin: &mut u64,
    end: &mut u64,
    part: &mut PartHandle,
) -> u32
    ensures opened { result ≡ DONE → IsSomeAnd part.new.value (λ opened. AreOfProof levels.now nodes.now opened.proof
        × IsOpened opened file_hash.now.words salt.now.bytes from to beyond × GoesFrom opened.proof begin.new end.new) }
    ensures mismatch { result ≡ MISMATCH → (proof : Proof) × AreOfProof levels.now nodes.now proof
        × ¬ (Shows proof file_hash.now.words salt.now.bytes) }
    ensures elsewhere { result ≡ ELSEWHERE → (proof : Proof) × AreOfProof levels.now nodes.now proof
        × IsWhyRefused proof file_hash.now.words salt.now.bytes from to beyond (Elsewhere begin.new end.new) }
    ensures too_far { result ≡ TOO_FAR → (proof : Proof) × AreOfProof levels.now nodes.now proof
        × IsWhyRefused proof file_hash.now.words salt.now.bytes from to beyond (TooFar begin.new end.new) }
    ensures statuses { (result ≡ DONE) ⊎ ((result ≡ MISMATCH) ⊎ ((result ≡ ELSEWHERE) ⊎ ((result ≡ TOO_FAR)
        ⊎ ((result ≡ MEMORY) ⊎ IsFlatRule levels.now nodes.now result)))) }
    ensures unchanged { result ≢ DONE → part.new.value ≡ part.old.value }
    ensures unwritten { result ≢ DONE → result ≢ ELSEWHERE → result ≢ TOO_FAR → (begin.new ≡ begin.old) × (end.new ≡ end.old) }
{
    match read_proof(alloc, levels, nodes) {
        Ok(proof) => open_part(
            alloc, proof, file_hash, salt, from, to, beyond, part, begin, end,
        ),
        Err(status) => status,
    }
}

// Checks the data of all chunks of a part's range. Returns where in it the wanted bytes begin and how many there are, if it is
// the data of these chunks.
fn check_part(part: &mut WantedPart, data: &[u8], keep: bool) -> Option<(usize, usize)>
    ensures read { IfSome result (λ wanted. IsRead part.old.proof part.old.from part.old.to «data».now
        (slice_range «data».now wanted.0 (wanted.0 + wanted.1))) }
    ensures sound { IfSome result (λ wanted. Shows part.old.proof part.old.hash part.old.salt
        × IsSoundRead part.old.proof part.old.from part.old.to «data».now (slice_range «data».now wanted.0 (wanted.0 + wanted.1))) }
    ensures within { IfSome result (λ wanted. wanted.0 + wanted.1 ≤ length «data».now) }
    ensures all { IfSome result (λ wanted. wanted.1 ≡ part.old.to - part.old.from) }
    ensures mismatch { IfNone result ((bytes : List ℕ) → ¬ (IsRead part.old.proof part.old.from part.old.to «data».now bytes)) }
    ensures checked { HasChecked part.old part.new «data».now }
    ensures uncopied { ¬ (IsTrue keep) → part.new.checked ≡ [] }
{
    let bytes = part.check(data, keep)?;
    Some((part.skipped() as usize, bytes.len()))
}

/// Checks the data of all chunks of a part's range, which come one after another with nothing else, and finds the wanted
/// bytes in it: they are the `count` bytes from `data[start]` on, and are all that were asked for, or all up to the end of
/// the file.
///
/// `data` may be cut off anywhere or wrong. If `keep` is true, the part gets copies of the first chunks that are right, up to
/// the first one that is wrong, whatever is returned, instead of those of an earlier call; a chunk for which an allocation
/// fails isn't copied. If `keep` is false, the part has no chunks, and the call allocates nothing.
///
/// After `DONE`, each file with the hash and the salt has these bytes at their place, unless two messages that were hashed
/// have the same BLAKE3 hash.
///
/// - `DONE`: the data is that of the range's chunks.
/// - `MISMATCH`: it isn't. `yurewha_part_checked` says how much of it is.
/// - `EMPTY_HANDLE`: if and only if the handle is empty.
///
/// Since 1.1.
#[unsafe(no_mangle)]
pub extern "C" fn yurewha_part_check(
    alloc: Global,
    part: &mut PartHandle,
    data: &[u8],
    keep: bool,
    start: &mut usize,
    count: &mut usize,
) -> u32
    ensures read { result ≡ DONE → IsSomeAnd part.old.value (λ opened. IsRead opened.proof opened.from opened.to «data».now
        (slice_range «data».now start.new (start.new + count.new))) }
    ensures sound { result ≡ DONE → IsSomeAnd part.old.value (λ opened. Shows opened.proof opened.hash opened.salt
        × IsSoundRead opened.proof opened.from opened.to «data».now (slice_range «data».now start.new (start.new + count.new))) }
    ensures within { result ≡ DONE → start.new + count.new ≤ length «data».now }
    ensures all { result ≡ DONE → IsSomeAnd part.old.value (λ opened. count.new ≡ opened.to - opened.from) }
    ensures mismatch { result ≡ MISMATCH → IsSomeAnd part.old.value (λ opened.
        (bytes : List ℕ) → ¬ (IsRead opened.proof opened.from opened.to «data».now bytes)) }
    ensures checked { result ≢ EMPTY_HANDLE → BothHold part.old.value part.new.value (λ old new.
        HasChecked old new «data».now × (¬ (IsTrue keep) → new.checked ≡ [])) }
    ensures empty { (result ≡ EMPTY_HANDLE) ↔ (part.old.value ≡ None) }
    ensures still_empty { result ≡ EMPTY_HANDLE → part.new.value ≡ None }
    ensures statuses { (result ≡ DONE) ⊎ ((result ≡ MISMATCH) ⊎ (result ≡ EMPTY_HANDLE)) }
    ensures unchanged { result ≢ DONE → (start.new ≡ start.old) × (count.new ≡ count.old) }
{
    let Some(mut kept) = part.take(alloc) else {
        return EMPTY_HANDLE;
    };
    let wanted = check_part(&mut kept, data, keep);
    part.put(kept);
    let Some((skipped, len)) = wanted else {
        return MISMATCH;
    };
    *start = skipped;
    *count = len;
    DONE
}

/// Writes the size of the file in bytes as the proof of a part says it. It is the proof's own word until data was checked.
/// It allocates nothing.
///
/// - `DONE`: it is written.
/// - `EMPTY_HANDLE`: the handle is empty.
///
/// Since 1.1.
#[unsafe(no_mangle)]
pub extern "C" fn yurewha_part_file_size(
    alloc: Global,
    part: &mut PartHandle,
    size: &mut u64,
) -> u32
    ensures { Reads part.old.value part.new.value result (size.new ≡ size.old) (λ opened. size.new ≡ file_size_of opened.proof) }
{
    let Some(kept) = part.take(alloc) else {
        return EMPTY_HANDLE;
    };
    *size = kept.file_size();
    part.put(kept);
    DONE
}

/// Writes how many chunks of a part's range the last `yurewha_part_check` found right, and where in the file they end, in
/// bytes. The first chunk that was wrong has this number, as the chunks of the range count from 0, and begins at this place.
/// If all chunks were right, these are the number of chunks and the end of the range. It allocates nothing.
///
/// - `DONE`: they are written.
/// - `EMPTY_HANDLE`: the handle is empty.
///
/// Since 1.1.
#[unsafe(no_mangle)]
pub extern "C" fn yurewha_part_checked(
    alloc: Global,
    part: &mut PartHandle,
    chunks: &mut usize,
    place: &mut u64,
) -> u32
    ensures { Reads part.old.value part.new.value result ((chunks.new ≡ chunks.old) × (place.new ≡ place.old)) (λ opened.
        (chunks.new ≡ opened.right) × (place.new ≡ begin_of opened.proof opened.right)) }
{
    let Some(kept) = part.take(alloc) else {
        return EMPTY_HANDLE;
    };
    let right = kept.right();
    part.put(kept);
    *chunks = right.0;
    *place = right.1;
    DONE
}

/// Frees what the handle owns, and leaves it empty.
///
/// Since 1.1.
#[unsafe(no_mangle)]
pub extern "C" fn yurewha_part_free(alloc: Global, part: &mut PartHandle)
    ensures { part.new.value ≡ None }
{
    drop(part.take(alloc));
}

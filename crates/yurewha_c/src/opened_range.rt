//! Opened ranges: their places, and the checks of their chunks' data.

ghost use Rattle.std.specs.Prelude.{◌≡◌, ◌≢◌, ◌⊎◌, ◌↔◌, ℕ, ◌+◌, ◌-◌, ◌<◌, ◌≤◌, List, None, Some, IfSome, IfNone, IsSomeAnd, length, slice_get, slice_range};
ghost use Rattle.commitment.specs.Commitment.{chunk_node};
ghost use Rattle.range_proof.specs.RangeProof.{begin_of, file_size_of};
ghost use Rattle.range_proof.specs.Reading.{IsRead};
ghost use Rattle.range_proof.specs.Checking.{IsSoundCheck, IsSoundCheckForRoot, IsSoundRead, IsSoundReadForRoot};
ghost use Rattle.yurewha_c.specs.Handles.{Reads};

use crate::opened_range_handle::OpenedRangeHandle;
use crate::status::{ARGUMENTS, DONE, EMPTY_HANDLE, MISMATCH};
use range_proof::OpenedRange;
use std::alloc::Global;

/// Writes the size of the file in bytes. Like all places of an opened range, the size is the proof's own word until
/// data was checked: it tells a reader where to cut, and no more. It allocates nothing.
///
/// - `DONE`: it is written.
/// - `EMPTY_HANDLE`: the handle is empty.
///
/// Since 1.1.
#[unsafe(no_mangle)]
pub extern "C" fn yurewha_opened_range_file_size(
    alloc: Global,
    range: &mut OpenedRangeHandle,
    size: &mut u64,
) -> u32
    ensures { Reads range.old.value range.new.value result (size.new ≡ size.old) (λ proof. size.new ≡ file_size_of proof) }
{
    let Some(kept) = range.take(alloc) else {
        return EMPTY_HANDLE;
    };
    *size = kept.file_size();
    range.put(kept);
    DONE
}

/// Writes the number of chunks of the range. It allocates nothing.
///
/// - `DONE`: it is written.
/// - `EMPTY_HANDLE`: the handle is empty.
///
/// Since 1.1.
#[unsafe(no_mangle)]
pub extern "C" fn yurewha_opened_range_num_chunks(
    alloc: Global,
    range: &mut OpenedRangeHandle,
    count: &mut usize,
) -> u32
    ensures { Reads range.old.value range.new.value result (count.new ≡ count.old) (λ proof. count.new ≡ length proof.chunks) }
{
    let Some(kept) = range.take(alloc) else {
        return EMPTY_HANDLE;
    };
    *count = kept.num_chunks();
    range.put(kept);
    DONE
}

// Returns where in the file a chunk of the range begins and ends, if there is such a chunk.
fn places_of(range: &OpenedRange, chunk: usize) -> Option<(u64, u64)>
    ensures some { IfSome result (λ places. (chunk < length range.now.chunks)
        × (places.0 ≡ begin_of range.now chunk) × (places.1 ≡ begin_of range.now (chunk + 1))) }
    ensures none { IfNone result (length range.now.chunks ≤ chunk) }
{
    let from = range.begins(chunk)?;
    let to = range.ends(chunk)?;
    Some((from, to))
}

/// Writes where in the file a chunk of the range begins and ends, in bytes, as the proof says it. The chunks of the
/// range count from 0. It allocates nothing.
///
/// - `DONE`: the two places are written.
/// - `ARGUMENTS`: if and only if there is a range, and it has no such chunk.
/// - `EMPTY_HANDLE`: if and only if the handle is empty.
///
/// Since 1.1.
#[unsafe(no_mangle)]
pub extern "C" fn yurewha_opened_range_bytes_of(
    alloc: Global,
    range: &mut OpenedRangeHandle,
    chunk: usize,
    from: &mut u64,
    to: &mut u64,
) -> u32
    ensures places { result ≡ DONE → IsSomeAnd range.old.value (λ proof.
        (from.new ≡ begin_of proof chunk) × (to.new ≡ begin_of proof (chunk + 1))) }
    ensures arguments { (result ≡ ARGUMENTS) ↔ IsSomeAnd range.old.value (λ proof. length proof.chunks ≤ chunk) }
    ensures empty { (result ≡ EMPTY_HANDLE) ↔ (range.old.value ≡ None) }
    ensures statuses { (result ≡ DONE) ⊎ ((result ≡ ARGUMENTS) ⊎ (result ≡ EMPTY_HANDLE)) }
    ensures unchanged { result ≢ DONE → (from.new ≡ from.old) × (to.new ≡ to.old) }
    ensures kept { range.new.value ≡ range.old.value }
{
    let Some(kept) = range.take(alloc) else {
        return EMPTY_HANDLE;
    };
    let places = places_of(&kept, chunk);
    range.put(kept);
    let Some(found) = places else {
        return ARGUMENTS;
    };
    *from = found.0;
    *to = found.1;
    DONE
}

/// Checks the data of a chunk of the range, and writes where in the file it begins, in bytes. The chunks of the range
/// count from 0. It allocates nothing.
///
/// After `DONE`, each file with the hash that the proof was opened with has this data at this place, and has the size
/// that the proof says, unless two messages that were hashed have the same BLAKE3 hash.
///
/// - `DONE`: the hash and the length of the data are those of the chunk's node.
/// - `MISMATCH`: they aren't, or the range has no such chunk.
/// - `EMPTY_HANDLE`: if and only if the handle is empty.
///
/// Since 1.1.
#[unsafe(no_mangle)]
pub extern "C" fn yurewha_opened_range_check(
    alloc: Global,
    range: &mut OpenedRangeHandle,
    chunk: usize,
    data: &[u8],
    place: &mut u64,
) -> u32
    ensures place { result ≡ DONE → IsSomeAnd range.old.value (λ proof. place.new ≡ begin_of proof chunk) }
    ensures sound { result ≡ DONE → IsSomeAnd range.old.value (λ proof. IsSoundCheck proof chunk «data».now) }
    ensures sound_for_root { result ≡ DONE → IsSomeAnd range.old.value (λ proof. IsSoundCheckForRoot proof chunk «data».now) }
    ensures done { (result ≡ DONE) ↔ IsSomeAnd range.old.value (λ proof. slice_get proof.chunks chunk ≡ Some (chunk_node «data».now)) }
    ensures empty { (result ≡ EMPTY_HANDLE) ↔ (range.old.value ≡ None) }
    ensures statuses { (result ≡ DONE) ⊎ ((result ≡ MISMATCH) ⊎ (result ≡ EMPTY_HANDLE)) }
    ensures unchanged { result ≢ DONE → place.new ≡ place.old }
    ensures kept { range.new.value ≡ range.old.value }
{
    let Some(kept) = range.take(alloc) else {
        return EMPTY_HANDLE;
    };
    let checked = kept.check(chunk, data);
    range.put(kept);
    let Some(begin) = checked else {
        return MISMATCH;
    };
    *place = begin;
    DONE
}

// Checks the data of all chunks of a range. Returns where in the data the bytes of the file from a place on are, if the
// data is that of these chunks and the range holds both places.
#[tactic(auto, using(crate::proofs::RangeReading::begins_before, crate::proofs::RangeReading::bytes_from, crate::proofs::RangeReading::ends_within))]
fn start_of(range: &OpenedRange, from: u64, to: u64, data: &[u8]) -> Option<usize>
    ensures read { IfSome result (λ start. IsRead range.now from to «data».now (slice_range «data».now start (start + (to - from)))) }
    ensures within { IfSome result (λ start. start + (to - from) ≤ length «data».now) }
    ensures none { IfNone result ((bytes : List ℕ) → ¬ (IsRead range.now from to «data».now bytes)) }
    ensures sound { IfSome result (λ start. IsSoundRead range.now from to «data».now (slice_range «data».now start (start + (to - from)))) }
    ensures sound_for_root { IfSome result (λ start. IsSoundReadForRoot range.now from to «data».now
        (slice_range «data».now start (start + (to - from)))) }
{
    // A range has a chunk, and its first one begins where the range does.
    let _count = range.num_chunks();
    let begin = range.begins(0)?;
    let _bytes = range.read(from, to, data)?;
    Some((from - begin) as usize)
}

/// Checks the data of all chunks of the range, which come one after another with nothing else, and finds in it the
/// bytes of the file from the place `from` up to, but without, the place `to`: they are the `to` - `from` bytes from
/// `data[start]` on. It allocates nothing.
///
/// After `DONE`, each file with the hash that the proof was opened with has these bytes between these places, and has
/// the size that the proof says, unless two messages that were hashed have the same BLAKE3 hash.
///
/// - `DONE`: the data is that of the range's chunks, and the range holds both places, which are in order.
/// - `MISMATCH`: the data isn't, or the range doesn't hold the places, or `to` is less than `from`.
/// - `EMPTY_HANDLE`: if and only if the handle is empty.
///
/// Since 1.1.
#[unsafe(no_mangle)]
pub extern "C" fn yurewha_opened_range_read(
    alloc: Global,
    range: &mut OpenedRangeHandle,
    from: u64,
    to: u64,
    data: &[u8],
    start: &mut usize,
) -> u32
    ensures read { result ≡ DONE → IsSomeAnd range.old.value (λ proof.
        IsRead proof from to «data».now (slice_range «data».now start.new (start.new + (to - from)))) }
    ensures within { result ≡ DONE → start.new + (to - from) ≤ length «data».now }
    ensures sound { result ≡ DONE → IsSomeAnd range.old.value (λ proof.
        IsSoundRead proof from to «data».now (slice_range «data».now start.new (start.new + (to - from)))) }
    ensures sound_for_root { result ≡ DONE → IsSomeAnd range.old.value (λ proof.
        IsSoundReadForRoot proof from to «data».now (slice_range «data».now start.new (start.new + (to - from)))) }
    ensures mismatch { result ≡ MISMATCH → IsSomeAnd range.old.value (λ proof.
        (bytes : List ℕ) → ¬ (IsRead proof from to «data».now bytes)) }
    ensures empty { (result ≡ EMPTY_HANDLE) ↔ (range.old.value ≡ None) }
    ensures statuses { (result ≡ DONE) ⊎ ((result ≡ MISMATCH) ⊎ (result ≡ EMPTY_HANDLE)) }
    ensures unchanged { result ≢ DONE → start.new ≡ start.old }
    ensures kept { range.new.value ≡ range.old.value }
{
    let Some(kept) = range.take(alloc) else {
        return EMPTY_HANDLE;
    };
    let place = start_of(&kept, from, to, data);
    range.put(kept);
    let Some(found) = place else {
        return MISMATCH;
    };
    *start = found;
    DONE
}

/// Frees what the handle owns, and leaves it empty.
///
/// Since 1.1.
#[unsafe(no_mangle)]
pub extern "C" fn yurewha_opened_range_free(alloc: Global, range: &mut OpenedRangeHandle)
    ensures { range.new.value ≡ None }
{
    drop(range.take(alloc));
}

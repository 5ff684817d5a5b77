//! Readers of files that are somewhere else: what was checked of a file, and is kept.

ghost use Rattle.std.specs.Prelude.{◌≡◌, ◌≢◌, ◌⊎◌, ◌↔◌, ◌≤◌, List, None, Some, [], IfSome, IsSomeAnd};
ghost use Rattle.verified_reader.specs.Kept.{AllKept, size_of_kept};
ghost use Rattle.verified_reader.specs.Reader.{Check, IsPartOf, IsPieceAt, IsShownBy, IsSizeOfFile, last_place, within_file};
ghost use Rattle.yurewha_c.specs.Handles.{BothHold, Reads};
ghost use Rattle.yurewha_c.specs.Readers.{IsLimited, IsWanted, ReadsFrom, Takes};

use crate::hash::{Bytes, Hash};
use crate::part_handle::PartHandle;
use crate::reader_handle::ReaderHandle;
use crate::status::{ARGUMENTS, DONE, EMPTY_HANDLE, MEMORY};
use std::alloc::Global;
use verified_reader::VerifiedReader;

/// Makes a reader of the file with a file hash under a salt. The handle owns it. It keeps nothing yet. Its chunks will count
/// at most `most`, where each counts its bytes and 128 for the memory beside them.
///
/// - `DONE`: it is made.
/// - `MEMORY`: an allocation failed.
///
/// Since 1.1.
#[unsafe(no_mangle)]
pub extern "C" fn yurewha_reader_new(
    alloc: Global,
    file_hash: &Hash,
    salt: &Bytes,
    most: u64,
    reader: &mut ReaderHandle,
) -> u32
    ensures made { result ≡ DONE → reader.new.value ≡ Some (record {
      hash = file_hash.now.words;
      salt = salt.now.bytes;
      most = most;
      kept = [];
      size = None;
    }) }
    ensures statuses { (result ≡ DONE) ⊎ (result ≡ MEMORY) }
    ensures unchanged { result ≢ DONE → reader.new.value ≡ reader.old.value }
{
    match VerifiedReader::new(alloc, &file_hash.value(), &salt.bytes, most) {
        Ok(made) => reader.hold(alloc, made),
        Err(_) => MEMORY,
    }
}

// Copies what a reader keeps to the front of `bytes`. Returns how many bytes these are, and up to where the next ones are wanted.
fn read_kept(reader: &mut VerifiedReader, from: u64, bytes: &mut [u8], piece: u64) -> (usize, u64)
    ensures read { ReadsFrom reader.old reader.new from piece bytes.old bytes.new result.0 result.1 }
    ensures shown { (checks : List Check) × IsShownBy checks reader.old }
{
    let count = reader.read(from, bytes);
    let place = from.saturating_add(count as u64);
    let last = from.saturating_add(bytes.len() as u64);
    match reader.needs(place, last, piece) {
        Some((_, end)) => (count, end),
        None => (count, place),
    }
}

/// Copies the bytes that a reader keeps from the place `from` on to the beginning of `bytes`, as far as they follow one
/// another, and writes how many these are to `filled`. The rest of `bytes` stays the same. Writes to `end` which bytes are
/// wanted next: those from `from` + `filled`, which isn't kept, up to, but without, `end`. They are at most `piece`, or one if
/// that is 0. If `end` is `from` + `filled`, none is: `bytes` is full, or the file has no more.
///
/// Each file with the hash and the salt of the reader has the copied bytes at their places, unless two messages that were
/// hashed have the same BLAKE3 hash. The chunks that they are of count as used last. It allocates memory for these notes
/// alone. If there is none, a chunk counts as used when it was before.
///
/// - `DONE`: it is copied and written.
/// - `EMPTY_HANDLE`: if and only if the handle is empty.
///
/// Since 1.1.
#[unsafe(no_mangle)]
pub extern "C" fn yurewha_reader_read(
    alloc: Global,
    reader: &mut ReaderHandle,
    from: u64,
    bytes: &mut [u8],
    piece: u64,
    filled: &mut usize,
    end: &mut u64,
) -> u32
    ensures read { result ≡ DONE → BothHold reader.old.value reader.new.value (λ old new.
        ReadsFrom old new from piece bytes.old bytes.new filled.new end.new) }
    ensures shown { IfSome reader.old.value (λ old. (checks : List Check) × IsShownBy checks old) }
    ensures empty { (result ≡ EMPTY_HANDLE) ↔ (reader.old.value ≡ None) }
    ensures statuses { (result ≡ DONE) ⊎ (result ≡ EMPTY_HANDLE) }
    ensures unchanged { result ≢ DONE → (reader.new.value ≡ reader.old.value) × (bytes.new ≡ bytes.old)
        × (filled.new ≡ filled.old) × (end.new ≡ end.old) }
{
    let Some(mut kept) = reader.take(alloc) else {
        return EMPTY_HANDLE;
    };
    let (count, last) = read_kept(&mut kept, from, bytes, piece);
    reader.put(kept);
    *filled = count;
    *end = last;
    DONE
}

/// Writes what is missing of the bytes from the place `from` up to, but without, the place `to`, or up to the end of the file
/// if its size is known. `first` gets the place of the first byte that isn't kept, and `end` the place up to which the bytes
/// from there on are wanted: at most `piece` of them, or one if that is 0. It allocates nothing.
///
/// - `DONE`: they are written.
/// - `ARGUMENTS`: if and only if there is a reader, and it keeps all these bytes.
/// - `EMPTY_HANDLE`: if and only if the handle is empty.
///
/// Since 1.1.
#[unsafe(no_mangle)]
pub extern "C" fn yurewha_reader_needs(
    alloc: Global,
    reader: &mut ReaderHandle,
    from: u64,
    to: u64,
    piece: u64,
    first: &mut u64,
    end: &mut u64,
) -> u32
    ensures wanted { result ≡ DONE → IsSomeAnd reader.old.value (λ kept. IsWanted kept from to piece first.new end.new) }
    ensures arguments { IfSome reader.old.value (λ kept. (result ≡ ARGUMENTS) ↔ AllKept kept.kept from (within_file kept.size to)) }
    ensures empty { (result ≡ EMPTY_HANDLE) ↔ (reader.old.value ≡ None) }
    ensures statuses { (result ≡ DONE) ⊎ ((result ≡ ARGUMENTS) ⊎ (result ≡ EMPTY_HANDLE)) }
    ensures kept { reader.new.value ≡ reader.old.value }
    ensures unchanged { result ≢ DONE → (first.new ≡ first.old) × (end.new ≡ end.old) }
{
    let Some(kept) = reader.take(alloc) else {
        return EMPTY_HANDLE;
    };
    let missing = kept.needs(from, to, piece);
    reader.put(kept);
    let Some((begin, after)) = missing else {
        return ARGUMENTS;
    };
    *first = begin;
    *end = after;
    DONE
}

/// Writes which piece of the file has the place `place`, where pieces of `piece` bytes follow one another from the file's start.
/// `begin` gets where it begins, and `end` where it ends, which for the last piece is the end of the file if its size is known. So
/// a server can keep a proof of each piece. It allocates nothing.
///
/// - `DONE`: they are written.
/// - `ARGUMENTS`: if and only if there is a reader, and `piece` is 0 or the file has no byte at the place. While its size isn't
///   known, only the place 2^64 - 1 is such a one.
/// - `EMPTY_HANDLE`: if and only if the handle is empty.
///
/// Since 1.1.
#[unsafe(no_mangle)]
pub extern "C" fn yurewha_reader_piece(
    alloc: Global,
    reader: &mut ReaderHandle,
    place: u64,
    piece: u64,
    begin: &mut u64,
    end: &mut u64,
) -> u32
    ensures piece { result ≡ DONE → IsSomeAnd reader.old.value (λ kept. IsPieceAt kept.size piece place begin.new end.new) }
    ensures arguments { IfSome reader.old.value (λ kept. (result ≡ ARGUMENTS) ↔ ((piece ≡ 0) ⊎ (last_place kept.size ≤ place))) }
    ensures empty { (result ≡ EMPTY_HANDLE) ↔ (reader.old.value ≡ None) }
    ensures statuses { (result ≡ DONE) ⊎ ((result ≡ ARGUMENTS) ⊎ (result ≡ EMPTY_HANDLE)) }
    ensures kept { reader.new.value ≡ reader.old.value }
    ensures unchanged { result ≢ DONE → (begin.new ≡ begin.old) × (end.new ≡ end.old) }
{
    let Some(kept) = reader.take(alloc) else {
        return EMPTY_HANDLE;
    };
    let found = kept.piece_at(place, piece);
    reader.put(kept);
    let Some((first, last)) = found else {
        return ARGUMENTS;
    };
    *begin = first;
    *end = last;
    DONE
}

/// Writes the size of the file in bytes. It is known once a part with a checked chunk was taken. It allocates nothing.
///
/// Each file with the hash and the salt of the reader has this size, unless two messages that were hashed have the same
/// BLAKE3 hash.
///
/// - `DONE`: it is written.
/// - `ARGUMENTS`: if and only if there is a reader, and the size isn't known yet.
/// - `EMPTY_HANDLE`: if and only if the handle is empty.
///
/// Since 1.1.
#[unsafe(no_mangle)]
pub extern "C" fn yurewha_reader_size(
    alloc: Global,
    reader: &mut ReaderHandle,
    size: &mut u64,
) -> u32
    ensures size { result ≡ DONE → IsSomeAnd reader.old.value (λ kept. kept.size ≡ Some size.new) }
    ensures sound { result ≡ DONE → IsSomeAnd reader.old.value (λ kept. (checks : List Check) → IsShownBy checks kept →
        IsSizeOfFile checks kept.hash kept.salt size.new) }
    ensures shown { IfSome reader.old.value (λ kept. (checks : List Check) × IsShownBy checks kept) }
    ensures arguments { IfSome reader.old.value (λ kept. (result ≡ ARGUMENTS) ↔ (kept.size ≡ None)) }
    ensures empty { (result ≡ EMPTY_HANDLE) ↔ (reader.old.value ≡ None) }
    ensures statuses { (result ≡ DONE) ⊎ ((result ≡ ARGUMENTS) ⊎ (result ≡ EMPTY_HANDLE)) }
    ensures kept { reader.new.value ≡ reader.old.value }
    ensures unchanged { result ≢ DONE → size.new ≡ size.old }
{
    let Some(kept) = reader.take(alloc) else {
        return EMPTY_HANDLE;
    };
    let known = kept.size();
    reader.put(kept);
    let Some(found) = known else {
        return ARGUMENTS;
    };
    *size = found;
    DONE
}

/// Writes what all chunks of a reader count: their bytes, and 128 for each. It allocates nothing.
///
/// - `DONE`: it is written.
/// - `EMPTY_HANDLE`: the handle is empty.
///
/// Since 1.1.
#[unsafe(no_mangle)]
pub extern "C" fn yurewha_reader_counted(
    alloc: Global,
    reader: &mut ReaderHandle,
    counted: &mut u64,
) -> u32
    ensures { Reads reader.old.value reader.new.value result (counted.new ≡ counted.old) (λ kept.
        (counted.new ≡ size_of_kept kept.kept) × (counted.new ≤ kept.most)) }
{
    let Some(kept) = reader.take(alloc) else {
        return EMPTY_HANDLE;
    };
    *counted = kept.counted();
    reader.put(kept);
    DONE
}

/// Changes what all chunks of a reader may count to `most`. Drops the chunks that were used longest ago until they do. It
/// allocates nothing.
///
/// - `DONE`: it is changed.
/// - `EMPTY_HANDLE`: if and only if the handle is empty.
///
/// Since 1.1.
#[unsafe(no_mangle)]
pub extern "C" fn yurewha_reader_keep_at_most(
    alloc: Global,
    reader: &mut ReaderHandle,
    most: u64,
) -> u32
    ensures limited { result ≡ DONE → BothHold reader.old.value reader.new.value (λ old new. IsLimited old new most) }
    ensures empty { (result ≡ EMPTY_HANDLE) ↔ (reader.old.value ≡ None) }
    ensures statuses { (result ≡ DONE) ⊎ (result ≡ EMPTY_HANDLE) }
    ensures unchanged { result ≢ DONE → reader.new.value ≡ reader.old.value }
{
    let Some(mut kept) = reader.take(alloc) else {
        return EMPTY_HANDLE;
    };
    kept.keep_at_most(most);
    reader.put(kept);
    DONE
}

/// Moves the chunks of a part that were checked to a reader, one after another, and then drops the chunks that were used
/// longest ago until all count as much as they may. Frees the part, and leaves its handle empty. If a chunk was checked, the
/// size of the file is known from now on. It hashes nothing, and copies no data. A chunk for which an allocation fails isn't
/// kept.
///
/// - `DONE`: the chunks are moved.
/// - `ARGUMENTS`: if and only if neither handle is empty, and the part is of another file hash or salt than the reader, or
///   its proof says another size of the file than is known.
/// - `EMPTY_HANDLE`: if and only if a handle is empty.
///
/// Since 1.1.
#[unsafe(no_mangle)]
pub extern "C" fn yurewha_reader_take(
    alloc: Global,
    reader: &mut ReaderHandle,
    part: &mut PartHandle,
) -> u32
    ensures taken { result ≡ DONE → IsSomeAnd part.old.value (λ given.
        BothHold reader.old.value reader.new.value (λ old new. Takes old given new)) }
    ensures freed { result ≡ DONE → part.new.value ≡ None }
    ensures arguments { IfSome reader.old.value (λ kept. IfSome part.old.value (λ given.
        (result ≡ ARGUMENTS) ↔ ¬ (IsPartOf kept given))) }
    ensures empty { (result ≡ EMPTY_HANDLE) ↔ ((reader.old.value ≡ None) ⊎ (part.old.value ≡ None)) }
    ensures statuses { (result ≡ DONE) ⊎ ((result ≡ ARGUMENTS) ⊎ (result ≡ EMPTY_HANDLE)) }
    ensures unchanged { result ≢ DONE → (reader.new.value ≡ reader.old.value) × (part.new.value ≡ part.old.value) }
{
    let Some(mut kept) = reader.take(alloc) else {
        return EMPTY_HANDLE;
    };
    let Some(given) = part.take(alloc) else {
        reader.put(kept);
        return EMPTY_HANDLE;
    };
    if !kept.is_part(&given) {
        reader.put(kept);
        part.put(given);
        return ARGUMENTS;
    }
    let _taken = kept.take(Box::into_inner(given));
    reader.put(kept);
    DONE
}

/// Frees what the handle owns, and leaves it empty.
///
/// Since 1.1.
#[unsafe(no_mangle)]
pub extern "C" fn yurewha_reader_free(alloc: Global, reader: &mut ReaderHandle)
    ensures { reader.new.value ≡ None }
{
    drop(reader.take(alloc));
}

//! Hashers of files: the bytes of a file go in, in pieces, and its hash comes out.

ghost use Rattle.std.specs.Prelude.{◌≡◌, ◌≢◌, ◌⊎◌, ◌↔◌, ℕ, ◌+◌, ◌^◌, ◌≤◌, None, IfSome, IsSomeAnd, List, [], ◌++◌, length, replicate};
ghost use Rattle.xet_roots.specs.Roots.{IsRoot};
ghost use Rattle.commitment.specs.Commitment.{chunk_nodes};
ghost use Rattle.xet_file.specs.Chunks.{chunks_of, IsHashOfBytes};
ghost use Rattle.yurewha_c.specs.FileHashers.{HasTaken};
ghost use Rattle.yurewha_c.specs.Handles.{BothHold, IsCopyStatus, Reads};

use crate::file_hasher_handle::FileHasherHandle;
use crate::hash::{Bytes, Hash};
use crate::kept_file::KeptFile;
use crate::status::{DONE, EMPTY_HANDLE, MEMORY, SIZES, status_of};
use std::alloc::Global;
use xet_file::FileHasher;

/// Makes a hasher of the empty file. The handle owns it.
///
/// It cuts the bytes into chunks, as `yurewha_chunker_next_boundary` does, hashes these, and keeps none of the bytes. In pieces of up to
/// 1 MiB, a file of random bytes takes less than 1 MB of memory, whatever its size. One whose chunks are all equal takes up to 160 bytes
/// for each.
///
/// - `DONE`: it is made.
/// - `MEMORY`: an allocation failed.
///
/// Since 1.1.
#[unsafe(no_mangle)]
pub extern "C" fn yurewha_file_hasher_new(alloc: Global, hasher: &mut FileHasherHandle) -> u32
    ensures made { result ≡ DONE → IsSomeAnd hasher.new.value (λ made. HasTaken made []) }
    ensures statuses { (result ≡ DONE) ⊎ (result ≡ MEMORY) }
    ensures unchanged { result ≢ DONE → hasher.new.value ≡ hasher.old.value }
{
    match FileHasher::new(alloc) {
        Ok(made) => hasher.hold(alloc, KeptFile { hasher: made }),
        Err(error) => status_of(error),
    }
}

/// Appends a piece to the file.
///
/// - `DONE`: it is appended.
/// - `EMPTY_HANDLE`: if and only if the handle is empty.
/// - `SIZES`: if and only if there is a hasher, and the file would have more than 2^64 - 1 bytes.
/// - `MEMORY`: an allocation failed; nothing of the piece is taken.
///
/// Since 1.1.
#[unsafe(no_mangle)]
pub extern "C" fn yurewha_file_hasher_update(
    alloc: Global,
    hasher: &mut FileHasherHandle,
    piece: &[u8],
) -> u32
    ensures taken { result ≡ DONE → BothHold hasher.old.value hasher.new.value (λ before after. (file : List ℕ) →
        HasTaken before file → HasTaken after (file ++ piece.now)) }
    ensures empty { (result ≡ EMPTY_HANDLE) ↔ (hasher.old.value ≡ None) }
    ensures sizes { IfSome hasher.old.value (λ before.
        (result ≡ SIZES) ↔ (2 ^ 64 ≤ before.hasher.size + length piece.now)) }
    ensures statuses { (result ≡ DONE) ⊎ ((result ≡ EMPTY_HANDLE) ⊎ ((result ≡ SIZES) ⊎ (result ≡ MEMORY))) }
    ensures unchanged { result ≢ DONE → hasher.new.value ≡ hasher.old.value }
{
    let Some(mut kept) = hasher.take(alloc) else {
        return EMPTY_HANDLE;
    };
    let taken = kept.hasher.update(piece);
    hasher.put(kept);
    match taken {
        Ok(()) => DONE,
        Err(error) => status_of(error),
    }
}

/// Writes how many bytes the file has so far. It allocates nothing.
///
/// - `DONE`: it is written.
/// - `EMPTY_HANDLE`: the handle is empty.
///
/// Since 1.1.
#[unsafe(no_mangle)]
pub extern "C" fn yurewha_file_hasher_size(
    alloc: Global,
    hasher: &mut FileHasherHandle,
    size: &mut u64,
) -> u32
    ensures { Reads hasher.old.value hasher.new.value result (size.new ≡ size.old)
        (λ kept. (size.new ≡ kept.hasher.size) × ((file : List ℕ) → HasTaken kept file → size.new ≡ length file)) }
{
    let Some(kept) = hasher.take(alloc) else {
        return EMPTY_HANDLE;
    };
    *size = kept.hasher.size();
    hasher.put(kept);
    DONE
}

/// Writes the root of the chunks of the file so far. More pieces can follow.
///
/// - `DONE`: the hash is written.
/// - `EMPTY_HANDLE`: if and only if the handle is empty.
/// - `MEMORY`: an allocation failed.
///
/// Since 1.1.
#[unsafe(no_mangle)]
pub extern "C" fn yurewha_file_hasher_root(
    alloc: Global,
    hasher: &mut FileHasherHandle,
    root: &mut Hash,
) -> u32
    ensures root { result ≡ DONE → IsSomeAnd hasher.old.value (λ kept. (file : List ℕ) → HasTaken kept file →
        IsRoot (chunk_nodes (chunks_of file)) root.new.words) }
    ensures status { IsCopyStatus hasher.old.value result }
    ensures kept { hasher.new.value ≡ hasher.old.value }
    ensures unchanged { result ≢ DONE → root.new ≡ root.old }
{
    let Some(kept) = hasher.take(alloc) else {
        return EMPTY_HANDLE;
    };
    let found = kept.hasher.root();
    hasher.put(kept);
    match found {
        Ok(value) => {
            *root = Hash::of(value);
            DONE
        }
        Err(error) => status_of(error),
    }
}

/// Writes the file hash, without a salt, of the file so far: the hash by which Xet names a file of these bytes. It is the one under 32
/// zero bytes. More pieces can follow. The statuses are those of `yurewha_file_hasher_root`.
///
/// Since 1.1.
#[unsafe(no_mangle)]
pub extern "C" fn yurewha_file_hasher_finish(
    alloc: Global,
    hasher: &mut FileHasherHandle,
    hash: &mut Hash,
) -> u32
    ensures hash { result ≡ DONE → IsSomeAnd hasher.old.value (λ kept. (file : List ℕ) → HasTaken kept file →
        IsHashOfBytes file (replicate 32 0) hash.new.words) }
    ensures status { IsCopyStatus hasher.old.value result }
    ensures kept { hasher.new.value ≡ hasher.old.value }
    ensures unchanged { result ≢ DONE → hash.new ≡ hash.old }
{
    let Some(kept) = hasher.take(alloc) else {
        return EMPTY_HANDLE;
    };
    let found = kept.hasher.file_hash();
    hasher.put(kept);
    match found {
        Ok(value) => {
            *hash = Hash::of(value);
            DONE
        }
        Err(error) => status_of(error),
    }
}

/// Writes the file hash under a salt of the file so far. The statuses are those of `yurewha_file_hasher_root`.
///
/// Since 1.1.
#[unsafe(no_mangle)]
pub extern "C" fn yurewha_file_hasher_finish_with_salt(
    alloc: Global,
    hasher: &mut FileHasherHandle,
    salt: &Bytes,
    hash: &mut Hash,
) -> u32
    ensures hash { result ≡ DONE → IsSomeAnd hasher.old.value (λ kept. (file : List ℕ) → HasTaken kept file →
        IsHashOfBytes file salt.now.bytes hash.new.words) }
    ensures status { IsCopyStatus hasher.old.value result }
    ensures kept { hasher.new.value ≡ hasher.old.value }
    ensures unchanged { result ≢ DONE → hash.new ≡ hash.old }
{
    let Some(kept) = hasher.take(alloc) else {
        return EMPTY_HANDLE;
    };
    let found = kept.hasher.file_hash_with_salt(&salt.bytes);
    hasher.put(kept);
    match found {
        Ok(value) => {
            *hash = Hash::of(value);
            DONE
        }
        Err(error) => status_of(error),
    }
}

/// Frees what the handle owns, and leaves it empty.
///
/// Since 1.1.
#[unsafe(no_mangle)]
pub extern "C" fn yurewha_file_hasher_free(alloc: Global, hasher: &mut FileHasherHandle)
    ensures { hasher.new.value ≡ None }
{
    drop(hasher.take(alloc));
}

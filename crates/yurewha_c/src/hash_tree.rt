//! Hash trees: made from chunks, read, and freed, and the range proofs that they make.

ghost use Rattle.std.specs.Prelude.{◌≡◌, ◌≢◌, ◌⊎◌, ◌↔◌, ◌^◌, ◌<◌, ◌≤◌, min, None, Some, IsSomeAnd, length, take};
ghost use Rattle.range_proof.specs.Differing.{IsCommonPrefix, IsCommonSuffix};
ghost use Rattle.range_proof.specs.Proving.{Proves, IsRangeOfBytes};
ghost use Rattle.range_proof.specs.RangeProof.{Proof};
ghost use Rattle.xet_roots.specs.Roots.{total_size, IsRoot, IsFileHash};
ghost use Rattle.yurewha_c.specs.Chunks.{nodes_of};
ghost use Rattle.yurewha_c.specs.Handles.{Reads, ReadsBoth};
ghost use Rattle.yurewha_c.specs.ProofLists.{WritesProof};

use crate::chunks::Chunk;
use crate::hash::{Bytes, Hash};
use crate::hash_tree_handle::HashTreeHandle;
use crate::proof_lists::write_proof;
use crate::status::{ARGUMENTS, DONE, EMPTY_HANDLE, MEMORY, ROOM, SIZES, status_of};
use crate::subtree_flat::Level;
use range_proof::HashTree;
use std::alloc::Global;

/// Makes the hash tree over some chunks, and writes it to the handle, which owns it.
///
/// - `DONE`: it is made.
/// - `SIZES`: if and only if the sizes add up to more than 2^64 - 1.
/// - `MEMORY`: an allocation failed.
///
/// Since 1.1.
#[unsafe(no_mangle)]
pub extern "C" fn yurewha_hash_tree_from_chunks(
    alloc: Global,
    chunks: &[Chunk],
    tree: &mut HashTreeHandle,
) -> u32
    ensures made { result ≡ DONE → tree.new.value ≡ Some (nodes_of chunks.now) }
    ensures sizes { (result ≡ SIZES) ↔ (2 ^ 64 ≤ total_size (nodes_of chunks.now)) }
    ensures statuses { (result ≡ DONE) ⊎ ((result ≡ SIZES) ⊎ (result ≡ MEMORY)) }
    ensures unchanged { result ≢ DONE → tree.new.value ≡ tree.old.value }
{
    match HashTree::from_chunks_of(alloc, chunks) {
        Ok(made) => tree.hold(alloc, made),
        Err(error) => status_of(error),
    }
}

/// Writes the root of the chunks. With no chunks it is the default hash. It allocates nothing.
///
/// - `DONE`: it is written.
/// - `EMPTY_HANDLE`: the handle is empty.
///
/// Since 1.1.
#[unsafe(no_mangle)]
pub extern "C" fn yurewha_hash_tree_root(
    alloc: Global,
    tree: &mut HashTreeHandle,
    root: &mut Hash,
) -> u32
    ensures { Reads tree.old.value tree.new.value result (root.new ≡ root.old) (λ chunks. IsRoot chunks root.new.words) }
{
    let Some(kept) = tree.take(alloc) else {
        return EMPTY_HANDLE;
    };
    *root = Hash::of(kept.root());
    tree.put(kept);
    DONE
}

/// Writes the file hash of the chunks under a salt. With no chunks it is the default hash, whatever the salt. It
/// allocates nothing.
///
/// - `DONE`: it is written.
/// - `EMPTY_HANDLE`: the handle is empty.
///
/// Since 1.1.
#[unsafe(no_mangle)]
pub extern "C" fn yurewha_hash_tree_file_hash(
    alloc: Global,
    tree: &mut HashTreeHandle,
    salt: &Bytes,
    hash: &mut Hash,
) -> u32
    ensures { Reads tree.old.value tree.new.value result (hash.new ≡ hash.old)
        (λ chunks. IsFileHash chunks salt.now.bytes hash.new.words) }
{
    let Some(kept) = tree.take(alloc) else {
        return EMPTY_HANDLE;
    };
    *hash = Hash::of(kept.file_hash(&salt.bytes));
    tree.put(kept);
    DONE
}

/// Writes the number of chunks. It allocates nothing.
///
/// - `DONE`: it is written.
/// - `EMPTY_HANDLE`: the handle is empty.
///
/// Since 1.1.
#[unsafe(no_mangle)]
pub extern "C" fn yurewha_hash_tree_num_chunks(
    alloc: Global,
    tree: &mut HashTreeHandle,
    count: &mut usize,
) -> u32
    ensures { Reads tree.old.value tree.new.value result (count.new ≡ count.old) (λ chunks. count.new ≡ length chunks) }
{
    let Some(kept) = tree.take(alloc) else {
        return EMPTY_HANDLE;
    };
    *count = kept.num_chunks();
    tree.put(kept);
    DONE
}

/// Writes the sum of the chunks' sizes, which is the size of the file in bytes. It allocates nothing.
///
/// - `DONE`: it is written.
/// - `EMPTY_HANDLE`: the handle is empty.
///
/// Since 1.1.
#[unsafe(no_mangle)]
pub extern "C" fn yurewha_hash_tree_total_size(
    alloc: Global,
    tree: &mut HashTreeHandle,
    size: &mut u64,
) -> u32
    ensures { Reads tree.old.value tree.new.value result (size.new ≡ size.old) (λ chunks. size.new ≡ total_size chunks) }
{
    let Some(kept) = tree.take(alloc) else {
        return EMPTY_HANDLE;
    };
    *size = kept.total_size();
    tree.put(kept);
    DONE
}

/// Writes the least range of chunks that holds the bytes of the file from the place `from` up to, but without, the
/// place `to`, or up to the end of the file if that comes first. `first` gets the number of its first chunk, and `end`
/// the number after that of its last one. It allocates nothing.
///
/// - `DONE`: they are written.
/// - `ARGUMENTS`: if and only if there is a tree, and there are no such bytes.
/// - `EMPTY_HANDLE`: if and only if the handle is empty.
///
/// Since 1.1.
#[unsafe(no_mangle)]
pub extern "C" fn yurewha_hash_tree_chunks_at(
    alloc: Global,
    tree: &mut HashTreeHandle,
    from: u64,
    to: u64,
    first: &mut usize,
    end: &mut usize,
) -> u32
    ensures range { result ≡ DONE → IsSomeAnd tree.old.value (λ chunks.
        IsRangeOfBytes chunks from (min to (total_size chunks)) first.new end.new) }
    ensures arguments { (result ≡ ARGUMENTS) ↔ IsSomeAnd tree.old.value (λ chunks. min to (total_size chunks) ≤ from) }
    ensures empty { (result ≡ EMPTY_HANDLE) ↔ (tree.old.value ≡ None) }
    ensures statuses { (result ≡ DONE) ⊎ ((result ≡ ARGUMENTS) ⊎ (result ≡ EMPTY_HANDLE)) }
    ensures unchanged { result ≢ DONE → (first.new ≡ first.old) × (end.new ≡ end.old) }
    ensures kept { tree.new.value ≡ tree.old.value }
{
    let Some(kept) = tree.take(alloc) else {
        return EMPTY_HANDLE;
    };
    let range = kept.chunks_at(from, to);
    tree.put(kept);
    let Some(found) = range else {
        return ARGUMENTS;
    };
    *first = found.0;
    *end = found.1;
    DONE
}

/// Writes where in the file the chunks from number `first` up to, but without, number `end` begin and end, in bytes. It
/// allocates nothing.
///
/// - `DONE`: the two places are written.
/// - `ARGUMENTS`: if and only if there is a tree, and `first` isn't less than `end` or there are fewer than `end`
///   chunks.
/// - `EMPTY_HANDLE`: if and only if the handle is empty.
///
/// Since 1.1.
#[unsafe(no_mangle)]
pub extern "C" fn yurewha_hash_tree_bytes_of(
    alloc: Global,
    tree: &mut HashTreeHandle,
    first: usize,
    end: usize,
    from: &mut u64,
    to: &mut u64,
) -> u32
    ensures places { result ≡ DONE → IsSomeAnd tree.old.value (λ chunks.
        (from.new ≡ total_size (take first chunks)) × (to.new ≡ total_size (take end chunks))) }
    ensures arguments { (result ≡ ARGUMENTS) ↔ IsSomeAnd tree.old.value (λ chunks. (end ≤ first) ⊎ (length chunks < end)) }
    ensures empty { (result ≡ EMPTY_HANDLE) ↔ (tree.old.value ≡ None) }
    ensures statuses { (result ≡ DONE) ⊎ ((result ≡ ARGUMENTS) ⊎ (result ≡ EMPTY_HANDLE)) }
    ensures unchanged { result ≢ DONE → (from.new ≡ from.old) × (to.new ≡ to.old) }
    ensures kept { tree.new.value ≡ tree.old.value }
{
    let Some(kept) = tree.take(alloc) else {
        return EMPTY_HANDLE;
    };
    let places = kept.bytes_of(first, end);
    tree.put(kept);
    let Some(found) = places else {
        return ARGUMENTS;
    };
    *from = found.0;
    *to = found.1;
    DONE
}

/// Writes the range proof of the chunks from number `first` up to, but without, number `end`, as flat lists. `levels`
/// gets the numbers of left and right nodes of each level, from the chunks up. `nodes` gets all nodes in the order of
/// the file: the left nodes of all levels, lowest level first, then the nodes of the chunks, then the right nodes of
/// all levels, highest level first. `level_len` and `node_len` get the lengths of the lists. A room for 64 levels and
/// `end` - `first` + 1024 nodes is always large enough.
///
/// - `DONE`: the lists are written.
/// - `ROOM`: a list is longer than its room; nothing is written to either, and `level_len` and `node_len` are the
///   needed lengths.
/// - `ARGUMENTS`: if and only if there is a tree, and `first` isn't less than `end` or there are fewer than `end`
///   chunks.
/// - `MEMORY`: an allocation failed.
/// - `EMPTY_HANDLE`: if and only if the handle is empty.
///
/// Since 1.1.
#[unsafe(no_mangle)]
pub extern "C" fn yurewha_hash_tree_proof(
    alloc: Global,
    tree: &mut HashTreeHandle,
    first: usize,
    end: usize,
    levels: &mut [Level],
    nodes: &mut [Chunk],
    level_len: &mut usize,
    node_len: &mut usize,
) -> u32
    ensures proves { (result ≡ DONE) ⊎ (result ≡ ROOM) → IsSomeAnd tree.old.value (λ chunks.
        (proof : Proof) × Proves chunks first end proof
        × WritesProof proof levels.old levels.new nodes.old nodes.new level_len.new node_len.new result) }
    ensures arguments { (result ≡ ARGUMENTS) ↔ IsSomeAnd tree.old.value (λ chunks. (end ≤ first) ⊎ (length chunks < end)) }
    ensures empty { (result ≡ EMPTY_HANDLE) ↔ (tree.old.value ≡ None) }
    ensures statuses { (result ≡ DONE) ⊎ ((result ≡ ROOM) ⊎ ((result ≡ ARGUMENTS) ⊎ ((result ≡ MEMORY) ⊎ (result ≡ EMPTY_HANDLE)))) }
    ensures unchanged { result ≢ DONE → (levels.new ≡ levels.old) × (nodes.new ≡ nodes.old) }
    ensures no_lens { result ≢ DONE → result ≢ ROOM → (level_len.new ≡ level_len.old) × (node_len.new ≡ node_len.old) }
    ensures kept { tree.new.value ≡ tree.old.value }
{
    let Some(kept) = tree.take(alloc) else {
        return EMPTY_HANDLE;
    };
    let proof = kept.proof(alloc, first, end);
    tree.put(kept);
    match proof {
        Ok(proof) => write_proof(&proof, levels, nodes, level_len, node_len),
        Err(error) => status_of(error),
    }
}

/// Writes how many chunks two files have in common at the front: this many are the same in both hash trees, and no more
/// are. The chunk with this number is the first in which they differ, unless a file ends there. The contract is for two
/// handles, but a caller may pass one handle twice, and gets the number of its chunks. It allocates nothing. The time is
/// proportional to `count`.
///
/// - `DONE`: it is written.
/// - `EMPTY_HANDLE`: a handle is empty.
///
/// Since 1.1.
#[unsafe(no_mangle)]
pub extern "C" fn yurewha_hash_tree_common_prefix(
    alloc: Global,
    first: &mut HashTreeHandle,
    second: &mut HashTreeHandle,
    count: &mut usize,
) -> u32
    ensures prefix { ReadsBoth first.old.value second.old.value result (count.new ≡ count.old)
        (λ a b. IsCommonPrefix a b count.new) }
    ensures first_kept { first.new.value ≡ first.old.value }
    ensures second_kept { second.new.value ≡ second.old.value }
{
    if second.is_empty(alloc) {
        return EMPTY_HANDLE;
    }
    let Some(one) = first.take(alloc) else {
        return EMPTY_HANDLE;
    };
    *count = match second.take(alloc) {
        Some(other) => {
            let found = one.common_prefix(&other);
            second.put(other);
            found
        }
        // The second handle wasn't empty before the first was taken out, so they are the same.
        None => one.num_chunks(),
    };
    first.put(one);
    DONE
}

/// Writes how many chunks two files have in common at the end, but at most `most`. If `most` is how many chunks the
/// shorter file has beside those in common at the front, which `yurewha_hash_tree_common_prefix` counts, then no chunk
/// is counted twice. The contract is for two handles, but a caller may pass one handle twice. It allocates nothing. The
/// time is proportional to `count`.
///
/// - `DONE`: it is written.
/// - `EMPTY_HANDLE`: a handle is empty.
///
/// Since 1.1.
#[unsafe(no_mangle)]
pub extern "C" fn yurewha_hash_tree_common_suffix(
    alloc: Global,
    first: &mut HashTreeHandle,
    second: &mut HashTreeHandle,
    most: usize,
    count: &mut usize,
) -> u32
    ensures suffix { ReadsBoth first.old.value second.old.value result (count.new ≡ count.old)
        (λ a b. IsCommonSuffix a b most count.new) }
    ensures first_kept { first.new.value ≡ first.old.value }
    ensures second_kept { second.new.value ≡ second.old.value }
{
    if second.is_empty(alloc) {
        return EMPTY_HANDLE;
    }
    let Some(one) = first.take(alloc) else {
        return EMPTY_HANDLE;
    };
    *count = match second.take(alloc) {
        Some(other) => {
            let found = one.common_suffix(&other, most);
            second.put(other);
            found
        }
        // The second handle wasn't empty before the first was taken out, so they are the same.
        None => one.num_chunks().min(most),
    };
    first.put(one);
    DONE
}

/// Frees what the handle owns, and leaves it empty.
///
/// Since 1.1.
#[unsafe(no_mangle)]
pub extern "C" fn yurewha_hash_tree_free(alloc: Global, tree: &mut HashTreeHandle)
    ensures { tree.new.value ≡ None }
{
    drop(tree.take(alloc));
}

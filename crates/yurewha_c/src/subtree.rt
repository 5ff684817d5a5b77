//! Subtrees: made from chunks, read, copied and freed.

ghost use Rattle.std.specs.Prelude.{◌≡◌, ◌≢◌, ◌⊎◌, ◌↔◌, ◌^◌, ◌≤◌, None, IsSomeAnd, IsTrue, List, length};
ghost use Rattle.xet_merkle.specs.Levels.{levels_size, node_count, top_hash};
ghost use Rattle.xet_merkle.specs.Roots.{total_size, IsRoot};
ghost use Rattle.xet_merkle.specs.Groups.{Node};
ghost use Rattle.xet_merkle.specs.Subtree.{IsCanonical};
ghost use Rattle.yurewha_c.specs.Chunks.{nodes_of};
ghost use Rattle.yurewha_c.specs.Handles.{IsCopyStatus, Reads, ReadsBoth};

use crate::chunks::Chunk;
use crate::hash::Hash;
use crate::status::{ARGUMENTS, DONE, EMPTY_HANDLE, MEMORY, SIZES, status_of};
use crate::subtree_handle::SubtreeHandle;
use std::alloc::Global;
use xet_merkle::laws::equal_subtrees;
use xet_merkle::merkle_hash_subtree::MerkleHashSubtree;

/// Makes the canonical subtree of some chunks, and writes it to the handle, which owns it. `at_start` marks its start:
/// no chunk comes before these. `at_end` marks its end: no chunk comes after these.
///
/// - `DONE`: it is made.
/// - `SIZES`: if and only if the sizes add up to more than 2^64 - 1.
/// - `MEMORY`: an allocation failed.
///
/// Since 1.1.
#[unsafe(no_mangle)]
pub extern "C" fn yurewha_subtree_from_chunks(
    alloc: Global,
    at_start: bool,
    chunks: &[Chunk],
    at_end: bool,
    subtree: &mut SubtreeHandle,
) -> u32
    ensures made { result ≡ DONE → IsSomeAnd subtree.new.value (λ made. IsCanonical made (nodes_of chunks.now)
        × (made.at_start ≡ at_start) × (made.at_end ≡ at_end)
        × (levels_size made.levels ≡ total_size (nodes_of chunks.now))) }
    ensures sizes { (result ≡ SIZES) ↔ (2 ^ 64 ≤ total_size (nodes_of chunks.now)) }
    ensures statuses { (result ≡ DONE) ⊎ ((result ≡ SIZES) ⊎ (result ≡ MEMORY)) }
    ensures unchanged { result ≢ DONE → subtree.new.value ≡ subtree.old.value }
{
    match MerkleHashSubtree::from_chunks_of(alloc, at_start, chunks, at_end) {
        Ok(made) => subtree.hold(alloc, made),
        Err(error) => status_of(error),
    }
}

/// Copies a subtree. The second handle owns the copy. The first is unchanged.
///
/// - `DONE`: it is copied.
/// - `MEMORY`: an allocation failed.
/// - `EMPTY_HANDLE`: if and only if the first handle is empty.
///
/// Since 1.1.
#[unsafe(no_mangle)]
pub extern "C" fn yurewha_subtree_clone(
    alloc: Global,
    subtree: &mut SubtreeHandle,
    copy: &mut SubtreeHandle,
) -> u32
    ensures copy { result ≡ DONE → copy.new.value ≡ subtree.old.value }
    ensures status { IsCopyStatus subtree.old.value result }
    ensures kept { subtree.new.value ≡ subtree.old.value }
    ensures unchanged { result ≢ DONE → copy.new.value ≡ copy.old.value }
{
    match subtree.copy(alloc) {
        Ok(made) => copy.hold(alloc, made),
        Err(status) => status,
    }
}

// Returns whether two subtrees are equal.
fn are_equal(first: &MerkleHashSubtree, second: &MerkleHashSubtree) -> bool
    ensures { IsTrue result ↔ (first.now ≡ second.now) }
{
    // A law of equality, for the contract.
    equal_subtrees();
    first == second
}

/// Writes whether two subtrees have the same marks, levels and nodes. The contract is for two handles, but a caller may
/// pass one handle twice, and finds it equal to itself. It allocates nothing.
///
/// - `DONE`: it is written.
/// - `EMPTY_HANDLE`: a handle is empty.
///
/// Since 1.1.
#[unsafe(no_mangle)]
pub extern "C" fn yurewha_subtree_equal(
    alloc: Global,
    first: &mut SubtreeHandle,
    second: &mut SubtreeHandle,
    equal: &mut bool,
) -> u32
    ensures equal { ReadsBoth first.old.value second.old.value result (equal.new ≡ equal.old)
        (λ a b. IsTrue equal.new ↔ (a ≡ b)) }
    ensures first_kept { first.new.value ≡ first.old.value }
    ensures second_kept { second.new.value ≡ second.old.value }
{
    if second.is_empty(alloc) {
        return EMPTY_HANDLE;
    }
    let Some(one) = first.take(alloc) else {
        return EMPTY_HANDLE;
    };
    *equal = match second.take(alloc) {
        Some(other) => {
            let equal = are_equal(&one, &other);
            second.put(other);
            equal
        }
        // The second handle wasn't empty before the first was taken out, so they are the same.
        None => true,
    };
    first.put(one);
    DONE
}

/// Writes the marks: whether no chunk comes before those of the subtree, and whether none comes after them. It
/// allocates nothing.
///
/// - `DONE`: they are written.
/// - `EMPTY_HANDLE`: the handle is empty.
///
/// Since 1.1.
#[unsafe(no_mangle)]
pub extern "C" fn yurewha_subtree_marks(
    alloc: Global,
    subtree: &mut SubtreeHandle,
    at_start: &mut bool,
    at_end: &mut bool,
) -> u32
    ensures { Reads subtree.old.value subtree.new.value result
        ((at_start.new ≡ at_start.old) × (at_end.new ≡ at_end.old))
        (λ kept. (at_start.new ≡ kept.at_start) × (at_end.new ≡ kept.at_end)) }
{
    let Some(kept) = subtree.take(alloc) else {
        return EMPTY_HANDLE;
    };
    *at_start = kept.at_start();
    *at_end = kept.at_end();
    subtree.put(kept);
    DONE
}

/// Writes the total size of the chunks in bytes, which is the sum of the sizes of all nodes. It allocates nothing.
///
/// - `DONE`: it is written.
/// - `EMPTY_HANDLE`: the handle is empty.
///
/// Since 1.1.
#[unsafe(no_mangle)]
pub extern "C" fn yurewha_subtree_total_size(
    alloc: Global,
    subtree: &mut SubtreeHandle,
    size: &mut u64,
) -> u32
    ensures { Reads subtree.old.value subtree.new.value result (size.new ≡ size.old) (λ kept. size.new ≡ levels_size kept.levels) }
{
    let Some(kept) = subtree.take(alloc) else {
        return EMPTY_HANDLE;
    };
    *size = kept.total_size();
    subtree.put(kept);
    DONE
}

/// Writes the number of kept nodes. It allocates nothing.
///
/// - `DONE`: it is written.
/// - `EMPTY_HANDLE`: the handle is empty.
///
/// Since 1.1.
#[unsafe(no_mangle)]
pub extern "C" fn yurewha_subtree_num_nodes(
    alloc: Global,
    subtree: &mut SubtreeHandle,
    count: &mut usize,
) -> u32
    ensures { Reads subtree.old.value subtree.new.value result (count.new ≡ count.old) (λ kept. count.new ≡ node_count kept.levels) }
{
    let Some(kept) = subtree.take(alloc) else {
        return EMPTY_HANDLE;
    };
    *count = kept.num_nodes();
    subtree.put(kept);
    DONE
}

/// Writes the number of levels. There is at least one. It allocates nothing.
///
/// - `DONE`: it is written.
/// - `EMPTY_HANDLE`: the handle is empty.
///
/// Since 1.1.
#[unsafe(no_mangle)]
pub extern "C" fn yurewha_subtree_num_levels(
    alloc: Global,
    subtree: &mut SubtreeHandle,
    count: &mut usize,
) -> u32
    ensures { Reads subtree.old.value subtree.new.value result (count.new ≡ count.old) (λ kept. count.new ≡ length kept.levels) }
{
    let Some(kept) = subtree.take(alloc) else {
        return EMPTY_HANDLE;
    };
    *count = kept.num_levels();
    subtree.put(kept);
    DONE
}

/// Writes the root of the chunks. Both ends of the subtree must be marked. It allocates nothing.
///
/// - `DONE`: the root is written.
/// - `ARGUMENTS`: an end isn't marked, so there is no root yet.
/// - `EMPTY_HANDLE`: the handle is empty.
///
/// Since 1.1.
#[unsafe(no_mangle)]
pub extern "C" fn yurewha_subtree_final_hash(
    alloc: Global,
    subtree: &mut SubtreeHandle,
    hash: &mut Hash,
) -> u32
    ensures hash { result ≡ DONE → IsSomeAnd subtree.old.value (λ kept. hash.new.words ≡ top_hash kept.levels) }
    ensures root { result ≡ DONE → IsSomeAnd subtree.old.value (λ kept.
        (chunks : List Node) → IsCanonical kept chunks → IsRoot chunks hash.new.words) }
    ensures marks { (result ≡ DONE) ↔ IsSomeAnd subtree.old.value (λ kept. IsTrue kept.at_start × IsTrue kept.at_end) }
    ensures arguments { (result ≡ ARGUMENTS) ↔ IsSomeAnd subtree.old.value (λ kept.
        ¬ (IsTrue kept.at_start × IsTrue kept.at_end)) }
    ensures empty { (result ≡ EMPTY_HANDLE) ↔ (subtree.old.value ≡ None) }
    ensures kept { subtree.new.value ≡ subtree.old.value }
    ensures unchanged { result ≢ DONE → hash.new ≡ hash.old }
{
    let Some(kept) = subtree.take(alloc) else {
        return EMPTY_HANDLE;
    };
    let root = kept.final_hash();
    subtree.put(kept);
    match root {
        Some(root) => {
            *hash = Hash::of(root);
            DONE
        }
        None => ARGUMENTS,
    }
}

/// Frees what the handle owns, and leaves it empty.
///
/// Since 1.1.
#[unsafe(no_mangle)]
pub extern "C" fn yurewha_subtree_free(alloc: Global, subtree: &mut SubtreeHandle)
    ensures { subtree.new.value ≡ None }
{
    drop(subtree.take(alloc));
}

//! Indexes of hashes: a number for each of some hashes.

ghost use Rattle.std.specs.Prelude.{◌≡◌, ◌≢◌, ◌⊎◌, ◌↔◌, None, Some, IfOk, IfSome, IsSomeAnd, [], length};
ghost use Rattle.hash_numbers.specs.Index.{AreSame, Inserts, IsIndex};
ghost use Rattle.yurewha_c.specs.Handles.{BothHold, Reads};
ghost use Rattle.yurewha_c.specs.HashNumbers.{pairs_of, AreNumbersOf};

use crate::hash::Hash;
use crate::hash_index_handle::HashIndexHandle;
use crate::status::{ARGUMENTS, DONE, EMPTY_HANDLE, MEMORY};
use hash_numbers::HashIndex;
use std::alloc::{AllocError, Global};
use xet_hash::data_hash::MerkleHash;

/// Makes an index without hashes. The handle owns it.
///
/// - `DONE`: it is made.
/// - `MEMORY`: an allocation failed.
///
/// Since 1.1.
#[unsafe(no_mangle)]
pub extern "C" fn yurewha_hash_index_new(alloc: Global, index: &mut HashIndexHandle) -> u32
    ensures made { result ≡ DONE → index.new.value ≡ Some [] }
    ensures statuses { (result ≡ DONE) ⊎ (result ≡ MEMORY) }
    ensures unchanged { result ≢ DONE → index.new.value ≡ index.old.value }
{
    index.hold(alloc, HashIndex::new(alloc))
}

// Returns hashes with their numbers, in allocated memory.
fn pairs_of(
    alloc: Global,
    hashes: &[Hash],
    numbers: &[u64],
) -> Result<Vec<(MerkleHash, u64)>, AllocError>
    requires { length numbers.now ≡ length hashes.now }
    ensures { IfOk result (λ pairs. pairs.items ≡ pairs_of hashes.now numbers.now) }
{
    let mut pairs = Vec::with_capacity(alloc, hashes.len())?;
    'hashes: for i in 0..hashes.len() {
        pairs.push((hashes[i].value(), numbers[i]))?;
    }
    Ok(pairs)
}

// Puts hashes with their numbers into an index, as its `insert` does, if the lists have the same length. Writes how many
// were new, and returns the status.
fn insert_pairs(
    alloc: Global,
    kept: &mut HashIndex,
    hashes: &[Hash],
    numbers: &[u64],
    new_hashes: &mut usize,
) -> u32
    ensures inserts { result ≡ DONE → Inserts kept.old (pairs_of hashes.now numbers.now) kept.new new_hashes.new }
    ensures arguments { (result ≡ ARGUMENTS) ↔ (length numbers.now ≢ length hashes.now) }
    ensures statuses { (result ≡ DONE) ⊎ ((result ≡ ARGUMENTS) ⊎ (result ≡ MEMORY)) }
    ensures refused { result ≡ MEMORY → AreSame kept.old kept.new }
    ensures unchanged { result ≡ ARGUMENTS → kept.new ≡ kept.old }
    ensures not_counted { result ≢ DONE → new_hashes.new ≡ new_hashes.old }
{
    if numbers.len() != hashes.len() {
        return ARGUMENTS;
    }
    let Ok(pairs) = pairs_of(alloc, hashes, numbers) else {
        return MEMORY;
    };
    match kept.insert(alloc, &pairs) {
        Ok(new) => {
            *new_hashes = new;
            DONE
        }
        Err(_) => MEMORY,
    }
}

/// Gives each hash of a list the number beside it in `numbers`, unless the hash has one already: the number that came
/// first stays, also among those of one call. `new_hashes` gets how many hashes had no number before, each counted once.
///
/// - `DONE`: each hash has a number.
/// - `EMPTY_HANDLE`: if and only if the handle is empty.
/// - `ARGUMENTS`: if and only if there is an index, and the two lists have different lengths.
/// - `MEMORY`: an allocation failed.
///
/// Since 1.1.
#[unsafe(no_mangle)]
pub extern "C" fn yurewha_hash_index_insert(
    alloc: Global,
    index: &mut HashIndexHandle,
    hashes: &[Hash],
    numbers: &[u64],
    new_hashes: &mut usize,
) -> u32
    ensures inserts { result ≡ DONE → BothHold index.old.value index.new.value (λ before after.
        Inserts before (pairs_of hashes.now numbers.now) after new_hashes.new) }
    ensures arguments { IfSome index.old.value (λ before. (result ≡ ARGUMENTS) ↔ (length numbers.now ≢ length hashes.now)) }
    ensures refused { result ≡ MEMORY → BothHold index.old.value index.new.value AreSame }
    ensures unchanged { result ≡ ARGUMENTS → index.new.value ≡ index.old.value }
    ensures empty { (result ≡ EMPTY_HANDLE) ↔ (index.old.value ≡ None) }
    ensures still_empty { result ≡ EMPTY_HANDLE → index.new.value ≡ None }
    ensures statuses { (result ≡ DONE) ⊎ ((result ≡ EMPTY_HANDLE) ⊎ ((result ≡ ARGUMENTS) ⊎ (result ≡ MEMORY))) }
    ensures not_counted { result ≢ DONE → new_hashes.new ≡ new_hashes.old }
{
    let Some(mut kept) = index.take(alloc) else {
        return EMPTY_HANDLE;
    };
    let status = insert_pairs(alloc, &mut kept, hashes, numbers, new_hashes);
    index.put(kept);
    status
}

// Writes what an index has of each hash to two lists of their length.
fn write_numbers(kept: &HashIndex, hashes: &[Hash], found: &mut [u8], numbers: &mut [u64])
    requires found { length found.old ≡ length hashes.now }
    requires numbers { length numbers.old ≡ length hashes.now }
    ensures { AreNumbersOf kept.now hashes.now found.new numbers.new }
{
    'hashes: for i in 0..hashes.len() {
        let number = kept.get(&hashes[i].value());
        found[i] = number.is_some() as u8;
        numbers[i] = number.unwrap_or(0);
    }
}

// Does the same if the lists have the same length. Returns the status.
fn find_each(kept: &HashIndex, hashes: &[Hash], found: &mut [u8], numbers: &mut [u64]) -> u32
    ensures found { result ≡ DONE → AreNumbersOf kept.now hashes.now found.new numbers.new }
    ensures arguments { (result ≡ ARGUMENTS)
        ↔ ((length found.old ≢ length hashes.now) ⊎ (length numbers.old ≢ length hashes.now)) }
    ensures statuses { (result ≡ DONE) ⊎ (result ≡ ARGUMENTS) }
    ensures unchanged { result ≢ DONE → (found.new ≡ found.old) × (numbers.new ≡ numbers.old) }
{
    if found.len() != hashes.len() || numbers.len() != hashes.len() {
        return ARGUMENTS;
    }
    write_numbers(kept, hashes, found, numbers);
    DONE
}

/// Writes for each of some hashes 1 to `found` and its number to `numbers`, or 0 to both if the index has no number for
/// it. It allocates nothing.
///
/// - `DONE`: they are written.
/// - `EMPTY_HANDLE`: if and only if the handle is empty.
/// - `ARGUMENTS`: if and only if there is an index, and the three lists don't have the same length.
///
/// Since 1.1.
#[unsafe(no_mangle)]
pub extern "C" fn yurewha_hash_index_find(
    alloc: Global,
    index: &mut HashIndexHandle,
    hashes: &[Hash],
    found: &mut [u8],
    numbers: &mut [u64],
) -> u32
    ensures found { result ≡ DONE → IsSomeAnd index.old.value (λ kept.
        AreNumbersOf kept hashes.now found.new numbers.new) }
    ensures arguments { IfSome index.old.value (λ kept. (result ≡ ARGUMENTS)
        ↔ ((length found.old ≢ length hashes.now) ⊎ (length numbers.old ≢ length hashes.now))) }
    ensures empty { (result ≡ EMPTY_HANDLE) ↔ (index.old.value ≡ None) }
    ensures statuses { (result ≡ DONE) ⊎ ((result ≡ EMPTY_HANDLE) ⊎ (result ≡ ARGUMENTS)) }
    ensures kept { index.new.value ≡ index.old.value }
    ensures unchanged { result ≢ DONE → (found.new ≡ found.old) × (numbers.new ≡ numbers.old) }
{
    let Some(kept) = index.take(alloc) else {
        return EMPTY_HANDLE;
    };
    let status = find_each(&kept, hashes, found, numbers);
    index.put(kept);
    status
}

// Writes entries to two lists of their number.
fn write_entries(entries: &[(MerkleHash, u64)], hashes: &mut [Hash], numbers: &mut [u64])
    requires hashes { length hashes.old ≡ length entries.now }
    requires numbers { length numbers.old ≡ length entries.now }
    ensures { pairs_of hashes.new numbers.new ≡ entries.now }
{
    'pairs: for i in 0..entries.len() {
        let entry = entries[i];
        hashes[i] = Hash::of(entry.0);
        numbers[i] = entry.1;
    }
}

// Does the same if the lists have this length. Returns the status.
fn write_all(kept: &HashIndex, hashes: &mut [Hash], numbers: &mut [u64]) -> u32
    ensures entries { result ≡ DONE → pairs_of hashes.new numbers.new ≡ kept.now }
    ensures each_once { result ≡ DONE → IsIndex (pairs_of hashes.new numbers.new) }
    ensures arguments { (result ≡ ARGUMENTS)
        ↔ ((length hashes.old ≢ length kept.now) ⊎ (length numbers.old ≢ length kept.now)) }
    ensures statuses { (result ≡ DONE) ⊎ (result ≡ ARGUMENTS) }
    ensures unchanged { result ≢ DONE → (hashes.new ≡ hashes.old) × (numbers.new ≡ numbers.old) }
{
    let count = kept.len();
    if hashes.len() != count || numbers.len() != count {
        return ARGUMENTS;
    }
    write_entries(kept.entries(), hashes, numbers);
    DONE
}

/// Writes all hashes that have a number, each once, in no particular order, and beside each its number. It allocates
/// nothing.
///
/// - `DONE`: they are written.
/// - `EMPTY_HANDLE`: if and only if the handle is empty.
/// - `ARGUMENTS`: if and only if there is an index, and the length of a list isn't the number of its hashes.
///
/// Since 1.1.
#[unsafe(no_mangle)]
pub extern "C" fn yurewha_hash_index_entries(
    alloc: Global,
    index: &mut HashIndexHandle,
    hashes: &mut [Hash],
    numbers: &mut [u64],
) -> u32
    ensures entries { result ≡ DONE → index.old.value ≡ Some (pairs_of hashes.new numbers.new) }
    ensures each_once { result ≡ DONE → IsIndex (pairs_of hashes.new numbers.new) }
    ensures arguments { IfSome index.old.value (λ kept. (result ≡ ARGUMENTS)
        ↔ ((length hashes.old ≢ length kept) ⊎ (length numbers.old ≢ length kept))) }
    ensures empty { (result ≡ EMPTY_HANDLE) ↔ (index.old.value ≡ None) }
    ensures statuses { (result ≡ DONE) ⊎ ((result ≡ EMPTY_HANDLE) ⊎ (result ≡ ARGUMENTS)) }
    ensures kept { index.new.value ≡ index.old.value }
    ensures unchanged { result ≢ DONE → (hashes.new ≡ hashes.old) × (numbers.new ≡ numbers.old) }
{
    let Some(kept) = index.take(alloc) else {
        return EMPTY_HANDLE;
    };
    let status = write_all(&kept, hashes, numbers);
    index.put(kept);
    status
}

/// Writes how many hashes have a number. It allocates nothing.
///
/// - `DONE`: it is written.
/// - `EMPTY_HANDLE`: the handle is empty.
///
/// Since 1.1.
#[unsafe(no_mangle)]
pub extern "C" fn yurewha_hash_index_len(
    alloc: Global,
    index: &mut HashIndexHandle,
    count: &mut usize,
) -> u32
    ensures { Reads index.old.value index.new.value result (count.new ≡ count.old)
        (λ kept. (count.new ≡ length kept) × IsIndex kept) }
{
    let Some(kept) = index.take(alloc) else {
        return EMPTY_HANDLE;
    };
    *count = kept.len();
    index.put(kept);
    DONE
}

/// Frees what the handle owns, and leaves it empty.
///
/// Since 1.1.
#[unsafe(no_mangle)]
pub extern "C" fn yurewha_hash_index_free(alloc: Global, index: &mut HashIndexHandle)
    ensures { index.new.value ≡ None }
{
    drop(index.take(alloc));
}

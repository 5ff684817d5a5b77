//! Merges subtrees of adjacent ranges.

ghost use Rattle.std.specs.Prelude.{◌≡◌, ◌≢◌, ◌⊎◌, ◌↔◌, ℕ, ◌+◌, ◌-◌, ◌*◌, ◌^◌, ◌<◌, ◌≤◌, List, length, min, IsSomeAnd, IfSome, IfNone, MatchOption, IfOk, IfErr};
ghost use Rattle.xet_merkle.specs.Levels.{node_count, levels_size};
ghost use Rattle.xet_merkle.specs.Merging.{IsMerged, IsMergedBy, NoMarkBetweenSubtrees, ranges_size};
ghost use Rattle.xet_merkle.specs.Roots.{parent};
ghost use Rattle.xet_merkle.specs.Steps.SubtreeMerging.{ArePassed};
ghost use Rattle.xet_merkle.specs.Subtree.{Subtree};
ghost use Rattle.yurewha_c.specs.Handles.{AllHold, values_of};
ghost use Rattle.yurewha_c.specs.Merging.{IsMergeOf, IsMergeStatus, Merges, NoMarkBetween};

use crate::status::{ARGUMENTS, DONE, EMPTY_HANDLE, MEMORY, SIZES, status_of};
use crate::subtree_handle::SubtreeHandle;
use chunk_ranges::adjacent::Passed;
use std::alloc::Global;
use xet_merkle::CoreError;
use xet_merkle::merkle_hash_subtree::MerkleHashSubtree;

/// Merges `other`, the subtree of the range that follows, into `subtree`. `subtree` becomes the canonical subtree of
/// the concatenated chunk lists. It keeps its own start mark and takes the end mark of `other`. `other` is unchanged.
///
/// - `DONE`: they are merged.
/// - `EMPTY_HANDLE`: if and only if a handle is empty.
/// - `ARGUMENTS`: if and only if neither handle is empty, and `subtree` is marked at its end or `other` at its start.
/// - `SIZES`: if and only if neither of these applies, and the two sizes add up to more than 2^64 - 1.
/// - `MEMORY`: an allocation failed.
///
/// Since 1.1.
#[unsafe(no_mangle)]
pub extern "C" fn yurewha_subtree_merge_into(
    alloc: Global,
    subtree: &mut SubtreeHandle,
    other: &mut SubtreeHandle,
) -> u32
    ensures merged { result ≡ DONE → Merges subtree.old.value other.old.value subtree.new.value IsMerged }
    ensures status { IsMergeStatus subtree.old.value other.old.value result }
    ensures unchanged { result ≢ DONE → subtree.new.value ≡ subtree.old.value }
    ensures kept { other.new.value ≡ other.old.value }
{
    let Some((mut front, back)) = SubtreeHandle::take_both(alloc, subtree, other) else {
        return EMPTY_HANDLE;
    };
    let merged = front.merge_into(&back);
    subtree.put(front);
    other.put(back);
    match merged {
        Ok(()) => DONE,
        Err(error) => status_of(error),
    }
}

/// Does the same as `yurewha_subtree_merge_into`, and writes how many parents were hashed for it, or 2^64 - 1 if there
/// were more. The statuses are those of `yurewha_subtree_merge_into`.
///
/// Since 1.1.
#[unsafe(no_mangle)]
pub extern "C" fn yurewha_subtree_merge_into_counted(
    alloc: Global,
    subtree: &mut SubtreeHandle,
    other: &mut SubtreeHandle,
    parents: &mut u64,
) -> u32
    ensures merged { result ≡ DONE → Merges subtree.old.value other.old.value subtree.new.value (λ front back merged.
        (made : ℕ) × IsMergedBy parent made front back merged × (parents.new ≡ min made (2 ^ 64 - 1))
        × (2 * made ≤ node_count front.levels + node_count back.levels + 2 * (length merged.levels - 1))) }
    ensures status { IsMergeStatus subtree.old.value other.old.value result }
    ensures unchanged { result ≢ DONE → (subtree.new.value ≡ subtree.old.value) × (parents.new ≡ parents.old) }
    ensures kept { other.new.value ≡ other.old.value }
{
    let Some((mut front, back)) = SubtreeHandle::take_both(alloc, subtree, other) else {
        return EMPTY_HANDLE;
    };
    let merged = front.merge_into_counted(&back);
    subtree.put(front);
    other.put(back);
    match merged {
        Ok(made) => {
            *parents = made.min(u128::from(u64::MAX)) as u64;
            DONE
        }
        Err(error) => status_of(error),
    }
}

// Returns what is known of the subtrees of some handles, or `None` if a handle is empty. It allocates nothing.
fn passed_of(alloc: Global, ranges: &mut [SubtreeHandle]) -> Option<Passed>
    ensures passed { IfSome result (λ passed. (held : List Subtree) × AllHold ranges.old held × ArePassed passed held) }
    ensures empty { IfNone result ((held : List Subtree) → ¬ (AllHold ranges.old held)) }
    ensures kept { values_of ranges.new ≡ values_of ranges.old }
{
    let mut passed = Passed::new();
    'passing: for range in ranges.iter_mut() {
        let subtree = range.take(alloc)?;
        passed = passed.pass(&*subtree);
        range.put(subtree);
    }
    Some(passed)
}

// Merges a subtree into that of the ranges before it, or copies it if there are none. It fails only for lack of memory.
fn join_next(
    before: Option<MerkleHashSubtree>,
    next: &MerkleHashSubtree,
) -> Result<MerkleHashSubtree, CoreError>
    requires { IfSome before (λ front. NoMarkBetween front next.now × (levels_size front.levels + levels_size next.now.levels < 2 ^ 64)) }
    ensures joined { IfOk result (λ joined. MatchOption before (joined ≡ next.now) (λ front. IsMerged front next.now joined)) }
    ensures errors { IfErr result (λ error. error ≡ CoreError.OutOfMemory) }
{
    let Some(mut joined) = before else {
        return next.try_clone();
    };
    joined.merge_into(next)?;
    Ok(joined)
}

// Merges the subtrees of some handles, in order. It fails only for lack of memory.
fn merge_held(alloc: Global, ranges: &mut [SubtreeHandle]) -> Result<MerkleHashSubtree, CoreError>
    requires { (held : List Subtree) × AllHold ranges.old held × NoMarkBetweenSubtrees held × (ranges_size held < 2 ^ 64) }
    ensures merged { IfOk result (λ merged. (held : List Subtree) × AllHold ranges.old held × IsMergeOf held merged) }
    ensures kept { values_of ranges.new ≡ values_of ranges.old }
    ensures errors { IfErr result (λ error. error ≡ CoreError.OutOfMemory) }
{
    let mut merged = None;
    'merging: for range in ranges.iter_mut() {
        let subtree = range.take(alloc).unwrap();
        let joined = join_next(merged, &subtree);
        range.put(subtree);
        merged = Some(joined?);
    }
    match merged {
        Some(merged) => Ok(merged),
        None => MerkleHashSubtree::from_chunks(alloc, true, &[], true),
    }
}

/// Merges the subtrees of adjacent ranges, in order, into one. `merged` owns it. It is the canonical subtree of the
/// concatenated chunk lists, with the start mark of the first range and the end mark of the last one. With no ranges it
/// is the empty subtree with both marks. With one range it is a copy. The ranges are unchanged.
///
/// - `DONE`: they are merged.
/// - `EMPTY_HANDLE`: if and only if the handle of a range is empty.
/// - `ARGUMENTS`: if and only if no handle of a range is empty, and a range other than the first is marked at its start,
///   or one other than the last at its end.
/// - `SIZES`: if and only if neither of these applies, and the sizes of all ranges add up to more than 2^64 - 1.
/// - `MEMORY`: an allocation failed.
///
/// Since 1.1.
#[unsafe(no_mangle)]
pub extern "C" fn yurewha_subtree_merge(
    alloc: Global,
    ranges: &mut [SubtreeHandle],
    merged: &mut SubtreeHandle,
) -> u32
    ensures merged { result ≡ DONE → (kept : List Subtree) → AllHold ranges.old kept →
        IsSomeAnd merged.new.value (IsMergeOf kept) }
    ensures empty { (result ≡ EMPTY_HANDLE) ↔ ((kept : List Subtree) → ¬ (AllHold ranges.old kept)) }
    ensures arguments { (kept : List Subtree) → AllHold ranges.old kept →
        ((result ≡ ARGUMENTS) ↔ (¬ (NoMarkBetweenSubtrees kept))) }
    ensures sizes { (kept : List Subtree) → AllHold ranges.old kept →
        ((result ≡ SIZES) ↔ (NoMarkBetweenSubtrees kept × (2 ^ 64 ≤ ranges_size kept))) }
    ensures statuses { (result ≡ DONE) ⊎ ((result ≡ EMPTY_HANDLE) ⊎ ((result ≡ ARGUMENTS)
        ⊎ ((result ≡ SIZES) ⊎ (result ≡ MEMORY)))) }
    ensures kept { values_of ranges.new ≡ values_of ranges.old }
    ensures unchanged { result ≢ DONE → merged.new.value ≡ merged.old.value }
{
    let Some(passed) = passed_of(alloc, ranges) else {
        return EMPTY_HANDLE;
    };
    if let Some(error) = passed.refusal() {
        return status_of(error);
    }
    match merge_held(alloc, ranges) {
        Ok(made) => merged.hold(alloc, made),
        Err(error) => status_of(error),
    }
}

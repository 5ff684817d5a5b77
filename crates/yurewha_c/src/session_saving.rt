//! What saves a session and restores it: its runs, which `session_runs` reads, and its known hashes.

ghost use Rattle.std.specs.Prelude.{◌≡◌, ◌≢◌, ◌⊎◌, ◌↔◌, ◌<◌, false, None, Some, IfOk, IfSome, IsSomeAnd, List, OnErr, OnOk, length};
ghost use Rattle.std.specs.List.{IsDistinct};
ghost use Rattle.upload_session.specs.Hashes.{Hash as HashWords, hash_eq, hashes_of, AreBoth, Knows};
ghost use Rattle.yurewha_c.specs.Handles.{BothHold, Reads};
ghost use Rattle.yurewha_c.specs.Pieces.{words_of};
ghost use Rattle.yurewha_c.specs.Sessions.{IsPushStatus, pushed, run_of};

use crate::hash::Hash;
use crate::kept_session::KeptSession;
use crate::session_handle::SessionHandle;
use crate::status::{ARGUMENTS, DONE, EMPTY_HANDLE, MEMORY, status_of};
use crate::subtree_handle::SubtreeHandle;
use std::alloc::{AllocError, Global};
use xet_hash::data_hash::MerkleHash;
use xet_merkle::aggregated_hashes::Node;

// Adds a copy of the subtree of a handle to the end of a session. Returns the status.
fn push_copy(
    alloc: Global,
    kept: &mut KeptSession,
    first: u64,
    end: u64,
    range: &mut SubtreeHandle,
) -> u32
    ensures pushed { result ≡ DONE → IsSomeAnd range.old.value (λ range.
        kept.new ≡ pushed kept.old (run_of first end range)) }
    ensures status { IsPushStatus (Some kept.old) first end range.old.value result }
    ensures kept { range.new.value ≡ range.old.value }
    ensures unchanged { result ≢ DONE → kept.new ≡ kept.old }
{
    let copy = match range.copy(alloc) {
        Ok(copy) => copy,
        Err(status) => return status,
    };
    match kept.session.push_run(first, end, copy) {
        Ok(()) => DONE,
        Err(error) => status_of(error),
    }
}

/// Adds a run after all runs of a session. Its positions are those from `first` to `end` - 1. The session gets a copy
/// of `range`, the subtree of the run's chunks. `range` is unchanged. The session doesn't know the hashes of these
/// chunks before they are kept or put.
///
/// The call can't check that `range` is of `end` - `first` chunks. If it isn't, all calls go by the positions of the
/// runs as ever, and the root and the file hash are those of the chunks of the subtrees.
///
/// - `DONE`: the run is added.
/// - `EMPTY_HANDLE`: if and only if a handle is empty.
/// - `ARGUMENTS`: `end` isn't greater than `first`, `range` is marked at an end, or a position from `first` - 1 on is
///   taken.
/// - `SIZES`: otherwise, the sizes of all chunks add up to more than 2^64 - 1.
/// - `MEMORY`: an allocation failed; this may be returned instead of the two above.
///
/// Since 1.1.
#[unsafe(no_mangle)]
pub extern "C" fn yurewha_session_push_run(
    alloc: Global,
    session: &mut SessionHandle,
    first: u64,
    end: u64,
    range: &mut SubtreeHandle,
) -> u32
    ensures pushed { result ≡ DONE → BothHold session.old.value range.old.value (λ before range.
        session.new.value ≡ Some (pushed before (run_of first end range))) }
    ensures status { IsPushStatus session.old.value first end range.old.value result }
    ensures kept { range.new.value ≡ range.old.value }
    ensures unchanged { result ≢ DONE → session.new.value ≡ session.old.value }
{
    let Some(mut kept) = session.take(alloc) else {
        return EMPTY_HANDLE;
    };
    let status = push_copy(alloc, &mut kept, first, end, range);
    session.put(kept);
    status
}

// Returns chunks of size 0 that have some hashes, in allocated memory.
fn nodes_of_hashes(alloc: Global, hashes: &[Hash]) -> Result<Vec<Node>, AllocError>
    ensures { IfOk result (λ nodes. hashes_of nodes.items ≡ words_of hashes.now) }
{
    let mut nodes = Vec::with_capacity(alloc, hashes.len())?;
    'hashes: for hash in hashes {
        nodes.push((hash.value(), 0))?;
    }
    Ok(nodes)
}

// Keeps hashes, as `keep_hashes` of a session does, if the session keeps any. Returns the status.
fn keep(alloc: Global, kept: &mut KeptSession, hashes: &[Hash]) -> u32
    ensures kept { result ≡ DONE → (known all : List HashWords) → Knows kept.old.session.kept known →
        AreBoth known (words_of hashes.now) all → Knows kept.new.session.kept all }
    ensures arguments { (result ≡ ARGUMENTS) ↔ ((0 < length hashes.now) × (kept.old.keeps_hashes ≡ false)) }
    ensures statuses { (result ≡ DONE) ⊎ ((result ≡ ARGUMENTS) ⊎ (result ≡ MEMORY)) }
    ensures refused { result ≡ MEMORY → (known : List HashWords) →
        Knows kept.old.session.kept known → Knows kept.new.session.kept known }
    ensures unchanged { result ≡ ARGUMENTS → kept.new ≡ kept.old }
    ensures same_kind { kept.new.keeps_hashes ≡ kept.old.keeps_hashes }
    ensures runs { kept.new.session.runs ≡ kept.old.session.runs }
    ensures size { kept.new.session.size ≡ kept.old.session.size }
{
    if !kept.keeps_hashes && !hashes.is_empty() {
        return ARGUMENTS;
    }
    let Ok(nodes) = nodes_of_hashes(alloc, hashes) else {
        return MEMORY;
    };
    match kept.session.keep_hashes(&nodes) {
        Ok(()) => DONE,
        Err(_) => MEMORY,
    }
}

/// Keeps hashes, as if an earlier put had had them: the session then knows them. Its runs are unchanged. Hashes that no
/// chunk has may be kept, too: they change only which hashes are new.
///
/// - `DONE`: they are kept.
/// - `EMPTY_HANDLE`: if and only if the handle is empty.
/// - `ARGUMENTS`: if and only if there are hashes, and a session that keeps none.
/// - `MEMORY`: an allocation failed.
///
/// Since 1.1.
#[unsafe(no_mangle)]
pub extern "C" fn yurewha_session_keep_hashes(
    alloc: Global,
    session: &mut SessionHandle,
    hashes: &[Hash],
) -> u32
    ensures kept { result ≡ DONE → BothHold session.old.value session.new.value (λ before after.
        (known all : List HashWords) → Knows before.session.kept known →
        AreBoth known (words_of hashes.now) all → Knows after.session.kept all) }
    ensures arguments { IfSome session.old.value (λ before. (result ≡ ARGUMENTS)
        ↔ ((0 < length hashes.now) × (before.keeps_hashes ≡ false))) }
    ensures refused { result ≡ MEMORY → BothHold session.old.value session.new.value (λ before after.
        (known : List HashWords) → Knows before.session.kept known → Knows after.session.kept known) }
    ensures unchanged { result ≡ ARGUMENTS → session.new.value ≡ session.old.value }
    ensures same_kind { result ≢ EMPTY_HANDLE → BothHold session.old.value session.new.value (λ before after.
        after.keeps_hashes ≡ before.keeps_hashes) }
    ensures runs { result ≢ EMPTY_HANDLE → BothHold session.old.value session.new.value (λ before after.
        (after.session.runs ≡ before.session.runs) × (after.session.size ≡ before.session.size)) }
    ensures empty { (result ≡ EMPTY_HANDLE) ↔ (session.old.value ≡ None) }
    ensures still_empty { result ≡ EMPTY_HANDLE → session.new.value ≡ None }
    ensures statuses { (result ≡ DONE) ⊎ ((result ≡ EMPTY_HANDLE) ⊎ ((result ≡ ARGUMENTS) ⊎ (result ≡ MEMORY))) }
{
    let Some(mut kept) = session.take(alloc) else {
        return EMPTY_HANDLE;
    };
    let status = keep(alloc, &mut kept, hashes);
    session.put(kept);
    status
}

/// Writes whether a session keeps the hashes of its chunks. It allocates nothing.
///
/// - `DONE`: it is written.
/// - `EMPTY_HANDLE`: the handle is empty.
///
/// Since 1.1.
#[unsafe(no_mangle)]
pub extern "C" fn yurewha_session_keeps_hashes(
    alloc: Global,
    session: &mut SessionHandle,
    keeps: &mut bool,
) -> u32
    ensures { Reads session.old.value session.new.value result (keeps.new ≡ keeps.old)
        (λ kept. keeps.new ≡ kept.keeps_hashes) }
{
    let Some(kept) = session.take(alloc) else {
        return EMPTY_HANDLE;
    };
    *keeps = kept.keeps_hashes;
    session.put(kept);
    DONE
}

/// Writes the number of hashes that a session knows: those that puts had and those that `yurewha_session_keep_hashes`
/// kept, each counted once. It allocates nothing.
///
/// - `DONE`: it is written.
/// - `EMPTY_HANDLE`: the handle is empty.
///
/// Since 1.1.
#[unsafe(no_mangle)]
pub extern "C" fn yurewha_session_num_known_hashes(
    alloc: Global,
    session: &mut SessionHandle,
    count: &mut usize,
) -> u32
    ensures { Reads session.old.value session.new.value result (count.new ≡ count.old) (λ kept.
        (distinct : List HashWords) → Knows kept.session.kept distinct → IsDistinct hash_eq distinct →
        count.new ≡ length distinct) }
{
    let Some(kept) = session.take(alloc) else {
        return EMPTY_HANDLE;
    };
    *count = kept.session.num_known_hashes();
    session.put(kept);
    DONE
}

// Writes hashes to a list of their length.
fn write_known(known: &[MerkleHash], hashes: &mut [Hash])
    requires { length known.now ≡ length hashes.old }
    ensures { words_of hashes.new ≡ known.now }
{
    'hashes: for i in 0..hashes.len() {
        hashes[i] = Hash::of(known[i]);
    }
}

// Writes the hashes that a session knows. Returns the status.
fn write_hashes(kept: &KeptSession, hashes: &mut [Hash]) -> u32
    ensures all { result ≡ DONE → Knows kept.now.session.kept (words_of hashes.new) }
    ensures each_once { result ≡ DONE → IsDistinct hash_eq (words_of hashes.new) }
    ensures arguments { (distinct : List HashWords) → Knows kept.now.session.kept distinct →
        IsDistinct hash_eq distinct → ((result ≡ ARGUMENTS) ↔ (length hashes.old ≢ length distinct)) }
    ensures statuses { (result ≡ DONE) ⊎ ((result ≡ ARGUMENTS) ⊎ (result ≡ MEMORY)) }
    ensures unchanged { result ≢ DONE → hashes.new ≡ hashes.old }
{
    if hashes.len() != kept.session.num_known_hashes() {
        return ARGUMENTS;
    }
    let Ok(known) = kept.session.known_hashes() else {
        return MEMORY;
    };
    write_known(&known, hashes);
    DONE
}

/// Writes all hashes that a session knows, each once, in no particular order.
///
/// - `DONE`: they are written.
/// - `EMPTY_HANDLE`: if and only if the handle is empty.
/// - `ARGUMENTS`: if and only if there is a session, and the length of the list isn't the number of hashes that it
///   knows.
/// - `MEMORY`: an allocation failed.
///
/// Since 1.1.
#[unsafe(no_mangle)]
pub extern "C" fn yurewha_session_known_hashes(
    alloc: Global,
    session: &mut SessionHandle,
    hashes: &mut [Hash],
) -> u32
    ensures all { result ≡ DONE → IsSomeAnd session.old.value (λ kept. Knows kept.session.kept (words_of hashes.new)) }
    ensures each_once { result ≡ DONE → IsDistinct hash_eq (words_of hashes.new) }
    ensures arguments { IfSome session.old.value (λ kept. (distinct : List HashWords) →
        Knows kept.session.kept distinct → IsDistinct hash_eq distinct →
        ((result ≡ ARGUMENTS) ↔ (length hashes.old ≢ length distinct))) }
    ensures empty { (result ≡ EMPTY_HANDLE) ↔ (session.old.value ≡ None) }
    ensures statuses { (result ≡ DONE) ⊎ ((result ≡ EMPTY_HANDLE) ⊎ ((result ≡ ARGUMENTS) ⊎ (result ≡ MEMORY))) }
    ensures kept { session.new.value ≡ session.old.value }
    ensures unchanged { result ≢ DONE → hashes.new ≡ hashes.old }
{
    let Some(kept) = session.take(alloc) else {
        return EMPTY_HANDLE;
    };
    let status = write_hashes(&kept, hashes);
    session.put(kept);
    status
}

//! Sessions: chunks by their positions, which come in any order.

ghost use Rattle.std.specs.Prelude.{◌≡◌, ◌≢◌, ◌⊎◌, ◌↔◌, ◌+◌, ◌^◌, ◌<◌, ◌≤◌, None, IfErr, IfOk, IfSome, IsErrOf, IsSomeAnd, IsTrue, [], OnErr, OnOk, Ok, replicate, length, true, false};
ghost use Rattle.xet_merkle.specs.Roots.{IsRoot, IsFileHash, total_size};
ghost use Rattle.upload_session.specs.Session.{place, chunks_of, is_taken, meet, overlaps, AreJoined, CountsNew, HasNothing, HaveFileHash, HaveRoot, IsUnchanged, LearnsHashes};
ghost use Rattle.upload_session.specs.Hashes.{Knows};
ghost use Rattle.upload_session.specs.Subtrees.{subtrees};
ghost use Rattle.yurewha_c.specs.Chunks.{nodes_of};
ghost use Rattle.yurewha_c.specs.Handles.{BothHold, IsCopyStatus, Reads};
ghost use Rattle.yurewha_c.specs.Sessions.{seen_hashes, HoldsOfPlaced, IsWholeStatus, Stands};

use crate::chunks::Chunk;
use crate::hash::Hash;
use crate::kept_session::KeptSession;
use crate::session_handle::SessionHandle;
use crate::status::{
    DONE, EMPTY_HANDLE, MEMORY, SESSION_GAP, SESSION_OVERLAP, SESSION_POSITIONS, SIZES,
    status_of_fault,
};
use std::alloc::Global;
use upload_session::session::SessionOf;
use upload_session::session_fault::SessionFault;
use xet_merkle::as_node::read_nodes;

/// Makes a session without chunks. The handle owns it.
///
/// - `DONE`: it is made.
/// - `MEMORY`: an allocation failed.
///
/// Since 1.1.
#[unsafe(no_mangle)]
pub extern "C" fn yurewha_session_new(alloc: Global, session: &mut SessionHandle) -> u32
    ensures made { result ≡ DONE → IsSomeAnd session.new.value (λ made.
        HasNothing seen_hashes made.session × (made.keeps_hashes ≡ true)) }
    ensures statuses { (result ≡ DONE) ⊎ (result ≡ MEMORY) }
    ensures unchanged { result ≢ DONE → session.new.value ≡ session.old.value }
{
    let made = KeptSession {
        session: SessionOf::new(alloc),
        keeps_hashes: true,
    };
    session.hold(alloc, made)
}

/// Makes a session without chunks that keeps no hashes, so that its memory is proportional to the number of its runs. It
/// counts as new each hash of a put, once. The handle owns it. The statuses are those of `yurewha_session_new`.
///
/// Since 1.1.
#[unsafe(no_mangle)]
pub extern "C" fn yurewha_session_new_without_hashes(
    alloc: Global,
    session: &mut SessionHandle,
) -> u32
    ensures made { result ≡ DONE → IsSomeAnd session.new.value (λ made.
        HasNothing seen_hashes made.session × (made.keeps_hashes ≡ false)) }
    ensures statuses { (result ≡ DONE) ⊎ (result ≡ MEMORY) }
    ensures unchanged { result ≢ DONE → session.new.value ≡ session.old.value }
{
    let made = KeptSession {
        session: SessionOf::new(alloc),
        keeps_hashes: false,
    };
    session.hold(alloc, made)
}

// Forgets the hashes of a session that keeps none.
pub(crate) fn forget_unkept(alloc: Global, kept: &mut KeptSession)
    ensures unchanged { kept.old.keeps_hashes ≡ true → kept.new ≡ kept.old }
    ensures forgotten { kept.old.keeps_hashes ≡ false → Knows kept.new.session.kept [] }
    ensures runs { kept.new.session.runs ≡ kept.old.session.runs }
    ensures size { kept.new.session.size ≡ kept.old.session.size }
    ensures same_kind { kept.new.keeps_hashes ≡ kept.old.keeps_hashes }
{
    if !kept.keeps_hashes {
        kept.session.forget_hashes(alloc);
    }
}

// Puts chunks, as `put` of a session does, and forgets their hashes if none are kept. If the allocation of their nodes
// fails, `Memory` may be returned instead of another fault.
fn put_chunks(
    alloc: Global,
    kept: &mut KeptSession,
    first: u64,
    chunks: &[Chunk],
) -> Result<u64, SessionFault>
    ensures nothing { length chunks.now ≡ 0 → (result ≡ Ok 0) × (kept.new ≡ kept.old) }
    ensures joined { OnOk result (0 < length chunks.now →
        AreJoined {A = Global} subtrees kept.old.session.runs first (nodes_of chunks.now) kept.new.session.runs) }
    ensures placed { OnOk result (HoldsOfPlaced kept.old (λ placed.
        Stands kept.new (place placed first (nodes_of chunks.now)))) }
    ensures size { OnOk result (kept.new.session.size ≡ kept.old.session.size + total_size (nodes_of chunks.now)) }
    ensures learned { OnOk result (0 < length chunks.now → kept.old.keeps_hashes ≡ true →
        LearnsHashes seen_hashes kept.old.session.kept (nodes_of chunks.now) kept.new.session.kept) }
    ensures forgotten { OnOk result (0 < length chunks.now → kept.old.keeps_hashes ≡ false →
        Knows kept.new.session.kept []) }
    ensures same_kind { kept.new.keeps_hashes ≡ kept.old.keeps_hashes }
    ensures new { IfOk result (λ count. 0 < length chunks.now →
        CountsNew seen_hashes kept.old.session.kept (nodes_of chunks.now) count) }
    ensures overlap { 0 < length chunks.now → ¬ IsErrOf result SessionFault.Memory →
        (IsErrOf result SessionFault.Overlap ↔ IsTrue (meet kept.old.session.runs first (length chunks.now))) }
    ensures positions { 0 < length chunks.now → ¬ IsErrOf result SessionFault.Memory →
        (IsErrOf result SessionFault.Positions ↔ (¬ IsTrue (meet kept.old.session.runs first (length chunks.now))
        × (2 ^ 64 ≤ first + length chunks.now))) }
    ensures sizes { 0 < length chunks.now → ¬ IsErrOf result SessionFault.Memory →
        (IsErrOf result SessionFault.Sizes ↔ (¬ IsTrue (meet kept.old.session.runs first (length chunks.now))
        × (first + length chunks.now < 2 ^ 64)
        × (2 ^ 64 ≤ kept.old.session.size + total_size (nodes_of chunks.now)))) }
    ensures errors { IfErr result (λ e. (e ≡ SessionFault.Overlap) ⊎ ((e ≡ SessionFault.Positions)
        ⊎ ((e ≡ SessionFault.Sizes) ⊎ (e ≡ SessionFault.Memory)))) }
    ensures unchanged { OnErr result (IsUnchanged seen_hashes kept.old.session kept.new.session) }
{
    if chunks.is_empty() {
        return kept.session.put(first, &[]);
    }
    let nodes = read_nodes(alloc, chunks)?;
    let count = kept.session.put(first, &nodes)?;
    forget_unkept(alloc, kept);
    Ok(count)
}

/// Puts chunks at the positions from `first` on. Writes how many of their hashes the session didn't know, and counts each
/// hash once. It then knows them, unless it keeps no hashes. With no chunks it writes 0 and changes nothing, whatever
/// `first` is.
///
/// - `DONE`: the chunks are put.
/// - `EMPTY_HANDLE`: if and only if the handle is empty.
/// - `SESSION_OVERLAP`: one of the positions is taken.
/// - `SESSION_POSITIONS`: otherwise, `first` plus the number of chunks is more than 2^64 - 1.
/// - `SIZES`: otherwise, the sizes of all chunks add up to more than 2^64 - 1.
/// - `MEMORY`: an allocation failed; this may be returned instead of the three above.
///
/// Since 1.1.
#[unsafe(no_mangle)]
pub extern "C" fn yurewha_session_put(
    alloc: Global,
    session: &mut SessionHandle,
    first: u64,
    chunks: &[Chunk],
    new_hashes: &mut u64,
) -> u32
    ensures nothing { length chunks.now ≡ 0 → session.old.value ≢ None →
        (result ≡ DONE) × (new_hashes.new ≡ 0) × (session.new.value ≡ session.old.value) }
    ensures joined { result ≡ DONE → BothHold session.old.value session.new.value (λ before after. 0 < length chunks.now →
        AreJoined {A = Global} subtrees before.session.runs first (nodes_of chunks.now) after.session.runs) }
    ensures placed { result ≡ DONE → BothHold session.old.value session.new.value (λ before after.
        HoldsOfPlaced before (λ placed. Stands after (place placed first (nodes_of chunks.now)))) }
    ensures size { result ≡ DONE → BothHold session.old.value session.new.value (λ before after.
        after.session.size ≡ before.session.size + total_size (nodes_of chunks.now)) }
    ensures learned { result ≡ DONE → BothHold session.old.value session.new.value (λ before after. 0 < length chunks.now →
        before.keeps_hashes ≡ true →
        LearnsHashes seen_hashes before.session.kept (nodes_of chunks.now) after.session.kept) }
    ensures forgotten { result ≡ DONE → BothHold session.old.value session.new.value (λ before after.
        0 < length chunks.now → before.keeps_hashes ≡ false → Knows after.session.kept []) }
    ensures same_kind { result ≢ EMPTY_HANDLE → BothHold session.old.value session.new.value (λ before after.
        after.keeps_hashes ≡ before.keeps_hashes) }
    ensures new { result ≡ DONE → IsSomeAnd session.old.value (λ before. 0 < length chunks.now →
        CountsNew seen_hashes before.session.kept (nodes_of chunks.now) new_hashes.new) }
    ensures empty { (result ≡ EMPTY_HANDLE) ↔ (session.old.value ≡ None) }
    ensures overlap { result ≢ MEMORY → 0 < length chunks.now → IfSome session.old.value (λ before.
        (result ≡ SESSION_OVERLAP) ↔ IsTrue (meet before.session.runs first (length chunks.now))) }
    ensures positions { result ≢ MEMORY → 0 < length chunks.now → IfSome session.old.value (λ before.
        (result ≡ SESSION_POSITIONS) ↔ (¬ IsTrue (meet before.session.runs first (length chunks.now))
        × (2 ^ 64 ≤ first + length chunks.now))) }
    ensures sizes { result ≢ MEMORY → 0 < length chunks.now → IfSome session.old.value (λ before.
        (result ≡ SIZES) ↔ (¬ IsTrue (meet before.session.runs first (length chunks.now))
        × (first + length chunks.now < 2 ^ 64)
        × (2 ^ 64 ≤ before.session.size + total_size (nodes_of chunks.now)))) }
    ensures meets { IfSome session.old.value (λ before. HoldsOfPlaced before (λ placed. 0 < length chunks.now →
        meet before.session.runs first (length chunks.now) ≡ overlaps placed first (length chunks.now))) }
    ensures statuses { (result ≡ DONE) ⊎ ((result ≡ EMPTY_HANDLE) ⊎ ((result ≡ SESSION_OVERLAP)
        ⊎ ((result ≡ SESSION_POSITIONS) ⊎ ((result ≡ SIZES) ⊎ (result ≡ MEMORY))))) }
    ensures refused { result ≢ DONE → result ≢ EMPTY_HANDLE →
        BothHold session.old.value session.new.value (λ before after. IsUnchanged seen_hashes before.session after.session) }
    ensures still_empty { result ≡ EMPTY_HANDLE → session.new.value ≡ None }
    ensures unchanged { result ≢ DONE → new_hashes.new ≡ new_hashes.old }
{
    let Some(mut kept) = session.take(alloc) else {
        return EMPTY_HANDLE;
    };
    let placed = put_chunks(alloc, &mut kept, first, chunks);
    session.put(kept);
    match placed {
        Ok(count) => {
            *new_hashes = count;
            DONE
        }
        Err(fault) => status_of_fault(fault),
    }
}

/// Writes whether a position is taken. It allocates nothing.
///
/// - `DONE`: it is written.
/// - `EMPTY_HANDLE`: the handle is empty.
///
/// Since 1.1.
#[unsafe(no_mangle)]
pub extern "C" fn yurewha_session_taken(
    alloc: Global,
    session: &mut SessionHandle,
    position: u64,
    taken: &mut bool,
) -> u32
    ensures { Reads session.old.value session.new.value result (taken.new ≡ taken.old)
        (λ kept. (taken.new ≡ meet kept.session.runs position 1)
        × HoldsOfPlaced kept (λ placed. taken.new ≡ is_taken placed position)) }
{
    let Some(kept) = session.take(alloc) else {
        return EMPTY_HANDLE;
    };
    *taken = kept.session.taken(position);
    session.put(kept);
    DONE
}

/// Writes the root of all chunks in the order of their positions.
///
/// - `DONE`: the hash is written.
/// - `EMPTY_HANDLE`: if and only if the handle is empty.
/// - `SESSION_GAP`: if and only if there is a session, and the taken positions aren't exactly those from 0 to `total` -
///   1.
/// - `MEMORY`: an allocation failed.
///
/// Since 1.1.
#[unsafe(no_mangle)]
pub extern "C" fn yurewha_session_root(
    alloc: Global,
    session: &mut SessionHandle,
    total: u64,
    root: &mut Hash,
) -> u32
    ensures root { result ≡ DONE → IsSomeAnd session.old.value (λ kept.
        HaveRoot {A = Global} subtrees kept.session.runs root.new.words) }
    ensures placed { result ≡ DONE → IsSomeAnd session.old.value (λ kept. HoldsOfPlaced kept (λ placed.
        IsRoot (chunks_of placed) root.new.words)) }
    ensures status { IsWholeStatus session.old.value total result }
    ensures kept { session.new.value ≡ session.old.value }
    ensures unchanged { result ≢ DONE → root.new ≡ root.old }
{
    let Some(kept) = session.take(alloc) else {
        return EMPTY_HANDLE;
    };
    let found = kept.session.root(total);
    session.put(kept);
    match found {
        Ok(value) => {
            *root = Hash::of(value);
            DONE
        }
        Err(fault) => status_of_fault(fault),
    }
}

/// Writes the file hash, without a salt, of all chunks in the order of their positions. It is the one under 32 zero
/// bytes. The statuses are those of `yurewha_session_root`.
///
/// Since 1.1.
#[unsafe(no_mangle)]
pub extern "C" fn yurewha_session_finish(
    alloc: Global,
    session: &mut SessionHandle,
    total: u64,
    hash: &mut Hash,
) -> u32
    ensures file { result ≡ DONE → IsSomeAnd session.old.value (λ kept.
        HaveFileHash {A = Global} subtrees kept.session.runs hash.new.words) }
    ensures placed { result ≡ DONE → IsSomeAnd session.old.value (λ kept. HoldsOfPlaced kept (λ placed.
        IsFileHash (chunks_of placed) (replicate 32 0) hash.new.words)) }
    ensures status { IsWholeStatus session.old.value total result }
    ensures kept { session.new.value ≡ session.old.value }
    ensures unchanged { result ≢ DONE → hash.new ≡ hash.old }
{
    let Some(kept) = session.take(alloc) else {
        return EMPTY_HANDLE;
    };
    let found = kept.session.finish(total);
    session.put(kept);
    match found {
        Ok(value) => {
            *hash = Hash::of(value);
            DONE
        }
        Err(fault) => status_of_fault(fault),
    }
}

/// Copies a session. The second handle owns the copy, which has the same chunks, knows the same hashes, and keeps hashes
/// if the first session does. The first session is unchanged, and the two are independent.
///
/// - `DONE`: it is copied.
/// - `MEMORY`: an allocation failed.
/// - `EMPTY_HANDLE`: if and only if the first handle is empty.
///
/// Since 1.1.
#[unsafe(no_mangle)]
pub extern "C" fn yurewha_session_copy(
    alloc: Global,
    session: &mut SessionHandle,
    copy: &mut SessionHandle,
) -> u32
    ensures copy { result ≡ DONE → copy.new.value ≡ session.old.value }
    ensures status { IsCopyStatus session.old.value result }
    ensures kept { session.new.value ≡ session.old.value }
    ensures unchanged { result ≢ DONE → copy.new.value ≡ copy.old.value }
{
    let Some(kept) = session.take(alloc) else {
        return EMPTY_HANDLE;
    };
    let keeps_hashes = kept.keeps_hashes;
    let made = kept.session.try_clone();
    session.put(kept);
    match made {
        Ok(made) => {
            let made = KeptSession {
                session: made,
                keeps_hashes,
            };
            copy.hold(alloc, made)
        }
        Err(_) => MEMORY,
    }
}

/// Frees what the handle owns, and leaves it empty.
///
/// Since 1.1.
#[unsafe(no_mangle)]
pub extern "C" fn yurewha_session_free(alloc: Global, session: &mut SessionHandle)
    ensures { session.new.value ≡ None }
{
    drop(session.take(alloc));
}

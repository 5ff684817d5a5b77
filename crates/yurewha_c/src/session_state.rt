//! What a session has: chunks, gaps and known hashes.

ghost use Rattle.std.specs.Prelude.{◌≡◌, ◌≢◌, ◌⊎◌, ◌↔◌, ℕ, None, IfSome, IsSomeAnd, List, OnOk, length, map};
ghost use Rattle.upload_session.specs.Gaps.{num_positions, AllTaken, IsNextGap};
ghost use Rattle.upload_session.specs.Hashes.{Hash as HashWords, is_among, Knows};
ghost use Rattle.upload_session.specs.Session.{chunks_of, is_taken, meet, HaveSaltedHash};
ghost use Rattle.upload_session.specs.Subtrees.{subtrees};
ghost use Rattle.xet_merkle.specs.Roots.{total_size, IsFileHash};
ghost use Rattle.yurewha_c.specs.Handles.{Reads};
ghost use Rattle.yurewha_c.specs.Pieces.{words_of};
ghost use Rattle.yurewha_c.specs.Sessions.{one_if, HoldsOfPlaced, IsWholeStatus};

use crate::hash::{Bytes, Hash};
use crate::kept_session::KeptSession;
use crate::session_handle::SessionHandle;
use crate::status::{ARGUMENTS, DONE, EMPTY_HANDLE, status_of_fault};
use std::alloc::Global;

/// Writes the number of chunks of a session, which is that of taken positions. It allocates nothing. The time is
/// proportional to the number of runs.
///
/// - `DONE`: it is written.
/// - `EMPTY_HANDLE`: the handle is empty.
///
/// Since 1.1.
#[unsafe(no_mangle)]
pub extern "C" fn yurewha_session_num_chunks(
    alloc: Global,
    session: &mut SessionHandle,
    count: &mut u64,
) -> u32
    ensures { Reads session.old.value session.new.value result (count.new ≡ count.old) (λ kept.
        (count.new ≡ num_positions kept.session.runs) × HoldsOfPlaced kept (λ placed. count.new ≡ length placed)) }
{
    let Some(kept) = session.take(alloc) else {
        return EMPTY_HANDLE;
    };
    *count = kept.session.num_chunks();
    session.put(kept);
    DONE
}

/// Writes the sum of the sizes of all chunks of a session, in bytes. It allocates nothing.
///
/// - `DONE`: it is written.
/// - `EMPTY_HANDLE`: the handle is empty.
///
/// Since 1.1.
#[unsafe(no_mangle)]
pub extern "C" fn yurewha_session_total_size(
    alloc: Global,
    session: &mut SessionHandle,
    size: &mut u64,
) -> u32
    ensures { Reads session.old.value session.new.value result (size.new ≡ size.old) (λ kept.
        (size.new ≡ kept.session.size) × HoldsOfPlaced kept (λ placed. size.new ≡ total_size (chunks_of placed))) }
{
    let Some(kept) = session.take(alloc) else {
        return EMPTY_HANDLE;
    };
    *size = kept.session.total_size();
    session.put(kept);
    DONE
}

/// Writes the first gap of a session from a position on and below `total`: adjacent free positions, as many as there
/// are. `first` gets the first of them, and `end` the position after the last one. To go through all gaps, begin at
/// position 0 and go on at each gap's end. Finding a gap takes logarithmic time. It allocates nothing.
///
/// - `DONE`: they are written.
/// - `EMPTY_HANDLE`: if and only if the handle is empty.
/// - `ARGUMENTS`: if and only if there is a session, and each of these positions is taken.
///
/// Since 1.1.
#[unsafe(no_mangle)]
pub extern "C" fn yurewha_session_next_gap(
    alloc: Global,
    session: &mut SessionHandle,
    position: u64,
    total: u64,
    first: &mut u64,
    end: &mut u64,
) -> u32
    ensures gap { result ≡ DONE → IsSomeAnd session.old.value (λ kept.
        IsNextGap kept.session.runs position total first.new end.new) }
    ensures arguments { IfSome session.old.value (λ kept.
        (result ≡ ARGUMENTS) ↔ AllTaken kept.session.runs position total) }
    ensures empty { (result ≡ EMPTY_HANDLE) ↔ (session.old.value ≡ None) }
    ensures statuses { (result ≡ DONE) ⊎ ((result ≡ EMPTY_HANDLE) ⊎ (result ≡ ARGUMENTS)) }
    ensures placed { IfSome session.old.value (λ kept. HoldsOfPlaced kept (λ placed. (place : ℕ) →
        is_taken placed place ≡ meet kept.session.runs place 1)) }
    ensures kept { session.new.value ≡ session.old.value }
    ensures unchanged { result ≢ DONE → (first.new ≡ first.old) × (end.new ≡ end.old) }
{
    let Some(kept) = session.take(alloc) else {
        return EMPTY_HANDLE;
    };
    let gap = kept.session.next_gap(position, total);
    session.put(kept);
    let Some((from, to)) = gap else {
        return ARGUMENTS;
    };
    *first = from;
    *end = to;
    DONE
}

/// Writes whether a session knows a hash: whether a put had it, or `yurewha_session_keep_hashes` kept it. It allocates
/// nothing.
///
/// - `DONE`: it is written.
/// - `EMPTY_HANDLE`: the handle is empty.
///
/// Since 1.1.
#[unsafe(no_mangle)]
pub extern "C" fn yurewha_session_knows(
    alloc: Global,
    session: &mut SessionHandle,
    hash: &Hash,
    known: &mut bool,
) -> u32
    ensures { Reads session.old.value session.new.value result (known.new ≡ known.old) (λ kept.
        (all : List HashWords) → Knows kept.session.kept all → known.new ≡ is_among all hash.now.words) }
{
    let Some(kept) = session.take(alloc) else {
        return EMPTY_HANDLE;
    };
    *known = kept.session.knows(&hash.value());
    session.put(kept);
    DONE
}

// Writes 1 for each hash that a session knows, and 0 for the others, to a list of their length.
fn write_known(kept: &KeptSession, hashes: &[Hash], known: &mut [u8])
    requires { length known.old ≡ length hashes.now }
    ensures { (all : List HashWords) → Knows kept.now.session.kept all →
        known.new ≡ map (λ hash. one_if (is_among all hash)) (words_of hashes.now) }
{
    'hashes: for i in 0..known.len() {
        known[i] = kept.session.knows(&hashes[i].value()) as u8;
    }
}

// Does the same if the lists have the same length. Returns the status.
fn write_known_each(kept: &KeptSession, hashes: &[Hash], known: &mut [u8]) -> u32
    ensures known { result ≡ DONE → (all : List HashWords) → Knows kept.now.session.kept all →
        known.new ≡ map (λ hash. one_if (is_among all hash)) (words_of hashes.now) }
    ensures arguments { (result ≡ ARGUMENTS) ↔ (length known.old ≢ length hashes.now) }
    ensures statuses { (result ≡ DONE) ⊎ (result ≡ ARGUMENTS) }
    ensures unchanged { result ≢ DONE → known.new ≡ known.old }
{
    if known.len() != hashes.len() {
        return ARGUMENTS;
    }
    write_known(kept, hashes, known);
    DONE
}

/// Writes for each of some hashes 1 if a session knows it, and 0 if not. It allocates nothing.
///
/// - `DONE`: they are written.
/// - `EMPTY_HANDLE`: if and only if the handle is empty.
/// - `ARGUMENTS`: if and only if there is a session, and the two lists have different lengths.
///
/// Since 1.1.
#[unsafe(no_mangle)]
pub extern "C" fn yurewha_session_knows_each(
    alloc: Global,
    session: &mut SessionHandle,
    hashes: &[Hash],
    known: &mut [u8],
) -> u32
    ensures known { result ≡ DONE → IsSomeAnd session.old.value (λ kept. (all : List HashWords) →
        Knows kept.session.kept all → known.new ≡ map (λ hash. one_if (is_among all hash)) (words_of hashes.now)) }
    ensures arguments { IfSome session.old.value (λ kept. (result ≡ ARGUMENTS) ↔ (length known.old ≢ length hashes.now)) }
    ensures empty { (result ≡ EMPTY_HANDLE) ↔ (session.old.value ≡ None) }
    ensures statuses { (result ≡ DONE) ⊎ ((result ≡ EMPTY_HANDLE) ⊎ (result ≡ ARGUMENTS)) }
    ensures kept { session.new.value ≡ session.old.value }
    ensures unchanged { result ≢ DONE → known.new ≡ known.old }
{
    let Some(kept) = session.take(alloc) else {
        return EMPTY_HANDLE;
    };
    let status = write_known_each(&kept, hashes, known);
    session.put(kept);
    status
}

/// Writes the file hash under a salt of all chunks in the order of their positions. Under 32 zero bytes it is that of
/// `yurewha_session_finish`. The statuses are those of `yurewha_session_root`.
///
/// Since 1.1.
#[unsafe(no_mangle)]
pub extern "C" fn yurewha_session_finish_with_salt(
    alloc: Global,
    session: &mut SessionHandle,
    total: u64,
    salt: &Bytes,
    hash: &mut Hash,
) -> u32
    ensures file { result ≡ DONE → IsSomeAnd session.old.value (λ kept.
        HaveSaltedHash {A = Global} subtrees salt.now.bytes kept.session.runs hash.new.words) }
    ensures placed { result ≡ DONE → IsSomeAnd session.old.value (λ kept. HoldsOfPlaced kept (λ placed.
        IsFileHash (chunks_of placed) salt.now.bytes hash.new.words)) }
    ensures status { IsWholeStatus session.old.value total result }
    ensures kept { session.new.value ≡ session.old.value }
    ensures unchanged { result ≢ DONE → hash.new ≡ hash.old }
{
    let Some(kept) = session.take(alloc) else {
        return EMPTY_HANDLE;
    };
    let found = kept.session.finish_with_salt(total, &salt.bytes);
    session.put(kept);
    match found {
        Ok(value) => {
            *hash = Hash::of(value);
            DONE
        }
        Err(fault) => status_of_fault(fault),
    }
}

//! What joins the parts of a file: ranges at their positions, and sessions.

ghost use Rattle.std.specs.Prelude.{◌≡◌, ◌≢◌, ◌⊎◌, ◌↔◌, ◌+◌, ◌^◌, ◌≤◌, Some, IfErr, IfOk, IsErrOf, IsSomeAnd, OnErr, OnOk, ℕ};
ghost use Rattle.upload_session.specs.Session.{AreBothAt, AreFree, CountsNewOf, IsUnchanged};
ghost use Rattle.upload_session.specs.declared.range_fault.RangeFault.{RangeFault};
ghost use Rattle.yurewha_c.specs.Handles.{BothHold};
ghost use Rattle.yurewha_c.specs.Sessions.{seen_hashes, IsJoinOf, IsJoinStatus, IsPutRangeStatus, IsRangePut};

use crate::kept_session::KeptSession;
use crate::session::forget_unkept;
use crate::session_handle::SessionHandle;
use crate::status::{DONE, EMPTY_HANDLE, status_of_range_fault};
use crate::subtree_handle::SubtreeHandle;
use std::alloc::Global;
use upload_session::range_fault::RangeFault;

// Puts a copy of the subtree of a handle at positions of a session. Returns the status.
fn put_copy(
    alloc: Global,
    kept: &mut KeptSession,
    first: u64,
    count: u64,
    range: &mut SubtreeHandle,
) -> u32
    ensures put { result ≡ DONE → IsSomeAnd range.old.value (λ range. IsRangePut kept.old first count range kept.new) }
    ensures status { IsPutRangeStatus (Some kept.old) first count range.old.value result }
    ensures kept { range.new.value ≡ range.old.value }
    ensures unchanged { result ≢ DONE → kept.new ≡ kept.old }
{
    let copy = match range.copy(alloc) {
        Ok(copy) => copy,
        Err(status) => return status,
    };
    match kept.session.put_range(first, count, copy) {
        Ok(()) => DONE,
        Err(fault) => status_of_range_fault(fault),
    }
}

/// Puts a range of `count` chunks at the positions from `first` on, as `yurewha_session_put` puts chunks. The session gets
/// a copy of `range`, the subtree of these chunks, which is unchanged. It doesn't know their hashes before they are kept
/// or put.
///
/// The call can't check that `range` is of `count` chunks. If it isn't, all calls go by the positions of the runs as
/// ever, and the root and the file hash are those of the chunks of the subtrees.
///
/// - `DONE`: the range is put.
/// - `EMPTY_HANDLE`: if and only if a handle is empty.
/// - `ARGUMENTS`: `count` is 0, or `range` is marked at an end.
/// - `SESSION_OVERLAP`: otherwise, one of the positions is taken.
/// - `SESSION_POSITIONS`: otherwise, `first` plus `count` is more than 2^64 - 1.
/// - `SIZES`: otherwise, the sizes of all chunks add up to more than 2^64 - 1.
/// - `MEMORY`: an allocation failed; this may be returned instead of the four above.
///
/// Since 1.1.
#[unsafe(no_mangle)]
pub extern "C" fn yurewha_session_put_range(
    alloc: Global,
    session: &mut SessionHandle,
    first: u64,
    count: u64,
    range: &mut SubtreeHandle,
) -> u32
    ensures put { result ≡ DONE → BothHold session.old.value range.old.value (λ before range.
        IsSomeAnd session.new.value (λ after. IsRangePut before first count range after)) }
    ensures status { IsPutRangeStatus session.old.value first count range.old.value result }
    ensures kept { range.new.value ≡ range.old.value }
    ensures unchanged { result ≢ DONE → session.new.value ≡ session.old.value }
{
    let Some(mut kept) = session.take(alloc) else {
        return EMPTY_HANDLE;
    };
    let status = put_copy(alloc, &mut kept, first, count, range);
    session.put(kept);
    status
}

// Joins another session to one, as `join` of a session does, and forgets all hashes if none are kept.
fn join_other(alloc: Global, kept: &mut KeptSession, other: &KeptSession) -> Result<u64, RangeFault>
    ensures joined { OnOk result (IsJoinOf kept.old other.now kept.new) }
    ensures new { IfOk result (CountsNewOf seen_hashes kept.old.session.kept other.now.session.kept) }
    ensures overlap { IfErr result (λ e. (position : ℕ) → e ≡ RangeFault.Overlap position →
        AreBothAt kept.old.session.runs other.now.session.runs position) }
    ensures free { ((position : ℕ) → ¬ IsErrOf result (RangeFault.Overlap position)) →
        AreFree kept.old.session.runs other.now.session.runs }
    ensures sizes { IsErrOf result RangeFault.Sizes ↔ (AreFree kept.old.session.runs other.now.session.runs
        × (2 ^ 64 ≤ kept.old.session.size + other.now.session.size)) }
    ensures errors { IfErr result (λ e. ((position : ℕ) × (e ≡ RangeFault.Overlap position))
        ⊎ ((e ≡ RangeFault.Sizes) ⊎ (e ≡ RangeFault.Memory))) }
    ensures unchanged { OnErr result (IsUnchanged seen_hashes kept.old.session kept.new.session) }
    ensures same_kind { kept.new.keeps_hashes ≡ kept.old.keeps_hashes }
{
    let count = kept.session.join(&other.session)?;
    forget_unkept(alloc, kept);
    Ok(count)
}

/// Puts copies of all runs of another session at their positions, and keeps the hashes that it knows, unless the first
/// session keeps none. Writes how many of these the first session didn't know. The other session is unchanged.
///
/// The order doesn't matter: of many sessions that have no position in common any two can be joined first, and the last
/// one stands for the chunks of all.
///
/// - `DONE`: the session has the runs of both.
/// - `EMPTY_HANDLE`: if and only if a handle is empty.
/// - `SESSION_OVERLAP`: a position is taken in both.
/// - `SIZES`: otherwise, the sizes of all chunks add up to more than 2^64 - 1.
/// - `MEMORY`: an allocation failed.
///
/// Since 1.1.
#[unsafe(no_mangle)]
pub extern "C" fn yurewha_session_join(
    alloc: Global,
    session: &mut SessionHandle,
    other: &mut SessionHandle,
    new_hashes: &mut u64,
) -> u32
    ensures joined { result ≡ DONE → BothHold session.old.value other.old.value (λ one other.
        IsSomeAnd session.new.value (IsJoinOf one other)) }
    ensures new { result ≡ DONE → BothHold session.old.value other.old.value (λ one other.
        CountsNewOf seen_hashes one.session.kept other.session.kept new_hashes.new) }
    ensures status { IsJoinStatus session.old.value other.old.value result }
    ensures kept { other.new.value ≡ other.old.value }
    ensures refused { result ≢ DONE → result ≢ EMPTY_HANDLE →
        BothHold session.old.value session.new.value (λ before after.
        IsUnchanged seen_hashes before.session after.session × (after.keeps_hashes ≡ before.keeps_hashes)) }
    ensures still_empty { result ≡ EMPTY_HANDLE → session.new.value ≡ session.old.value }
    ensures unchanged { result ≢ DONE → new_hashes.new ≡ new_hashes.old }
{
    let Some((mut kept, added)) = SessionHandle::take_both(alloc, session, other) else {
        return EMPTY_HANDLE;
    };
    let joined = join_other(alloc, &mut kept, &added);
    session.put(kept);
    other.put(added);
    match joined {
        Ok(count) => {
            *new_hashes = count;
            DONE
        }
        Err(fault) => status_of_range_fault(fault),
    }
}

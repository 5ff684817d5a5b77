//! The runs of a session.

ghost use Rattle.std.specs.Prelude.{◌≡◌, ◌≢◌, ◌⊎◌, ◌↔◌, None, Some, IfErr, IfOk, IfSome, IsSomeAnd, length, slice_get};
ghost use Rattle.yurewha_c.specs.Handles.{BothHold, Reads};
ghost use Rattle.upload_session.specs.Session.{size_of_runs, AreApart};
ghost use Rattle.upload_session.specs.Subtrees.{subtrees};
ghost use Rattle.yurewha_c.specs.Sessions.{run_from, run_of};

use crate::kept_session::KeptSession;
use crate::session_handle::SessionHandle;
use crate::status::{ARGUMENTS, DONE, EMPTY_HANDLE, MEMORY, status_of};
use crate::subtree_handle::SubtreeHandle;
use std::alloc::Global;
use upload_session::session::Session;
use xet_merkle::merkle_hash_subtree::MerkleHashSubtree;

/// Writes the number of runs of adjacent taken positions. Whatever calls a session has had, a free position lies
/// between any two of its runs, and its total size is that of the subtrees of all runs together. It allocates nothing.
///
/// - `DONE`: it is written.
/// - `EMPTY_HANDLE`: the handle is empty.
///
/// Since 1.1.
#[unsafe(no_mangle)]
pub extern "C" fn yurewha_session_num_runs(
    alloc: Global,
    session: &mut SessionHandle,
    count: &mut usize,
) -> u32
    ensures count { Reads session.old.value session.new.value result (count.new ≡ count.old)
        (λ kept. count.new ≡ length kept.session.runs) }
    ensures apart { IfSome session.old.value (λ kept. AreApart kept.session.runs) }
    ensures size { IfSome session.old.value (λ kept.
        kept.session.size ≡ size_of_runs {A = Global} subtrees kept.session.runs) }
{
    let Some(kept) = session.take(alloc) else {
        return EMPTY_HANDLE;
    };
    *count = kept.session.num_runs();
    session.put(kept);
    DONE
}

// Returns the first position of a run and a copy of its range. Fails with the status.
fn copied_run(session: &Session, index: usize) -> Result<(u64, MerkleHashSubtree), u32>
    ensures copied { IfOk result (λ copied. IsSomeAnd (slice_get session.now.runs index) (λ run.
        (copied.0 ≡ run.0) × (copied.1 ≡ run.1.range))) }
    ensures refused { IfErr result (λ status. ((status ≡ ARGUMENTS) × (slice_get session.now.runs index ≡ None))
        ⊎ ((status ≡ MEMORY) × (slice_get session.now.runs index ≢ None))) }
{
    let Some((first, range)) = session.range(index) else {
        return Err(ARGUMENTS);
    };
    match range.try_clone() {
        Ok(copy) => Ok((first, copy)),
        Err(error) => Err(status_of(error)),
    }
}

/// Writes the first position of a run of adjacent taken positions, and a copy of the subtree of its chunks. The subtree
/// is open at both ends, and `range` owns it. Runs are numbered from 0, by rising position. The time is proportional to
/// the index.
///
/// - `DONE`: they are written.
/// - `EMPTY_HANDLE`: if and only if the handle of the session is empty.
/// - `ARGUMENTS`: if and only if there is a session, and it has no such run.
/// - `MEMORY`: an allocation failed.
///
/// Since 1.1.
#[unsafe(no_mangle)]
pub extern "C" fn yurewha_session_run(
    alloc: Global,
    session: &mut SessionHandle,
    index: usize,
    first: &mut u64,
    range: &mut SubtreeHandle,
) -> u32
    ensures run { result ≡ DONE → IsSomeAnd session.old.value (λ kept.
        IsSomeAnd (slice_get kept.session.runs index) (λ run. (first.new ≡ run.0) × (range.new.value ≡ Some run.1.range))) }
    ensures arguments { (result ≡ ARGUMENTS) ↔ IsSomeAnd session.old.value (λ kept. slice_get kept.session.runs index ≡ None) }
    ensures empty { (result ≡ EMPTY_HANDLE) ↔ (session.old.value ≡ None) }
    ensures statuses { (result ≡ DONE) ⊎ ((result ≡ EMPTY_HANDLE) ⊎ ((result ≡ ARGUMENTS) ⊎ (result ≡ MEMORY))) }
    ensures kept { session.new.value ≡ session.old.value }
    ensures unchanged { result ≢ DONE → (first.new ≡ first.old) × (range.new.value ≡ range.old.value) }
{
    let Some(kept) = session.take(alloc) else {
        return EMPTY_HANDLE;
    };
    let copied = copied_run(&kept.session, index);
    session.put(kept);
    match copied {
        Ok((position, copy)) => {
            let status = range.hold(alloc, copy);
            if status == DONE {
                *first = position;
            }
            status
        }
        Err(status) => status,
    }
}

// Returns the first run that ends after a position: its first position, the position after its last one, and a copy of
// its range. Fails with the status.
fn copied_run_from(kept: &KeptSession, position: u64) -> Result<(u64, u64, MerkleHashSubtree), u32>
    ensures copied { IfOk result (λ copied. run_from kept.now position ≡ Some (run_of copied.0 copied.1 copied.2)) }
    ensures refused { IfErr result (λ status. ((status ≡ ARGUMENTS) × (run_from kept.now position ≡ None))
        ⊎ ((status ≡ MEMORY) × (run_from kept.now position ≢ None))) }
{
    let Some((first, end, range)) = kept.session.run_from(position) else {
        return Err(ARGUMENTS);
    };
    match range.try_clone() {
        Ok(copy) => Ok((first, end, copy)),
        Err(error) => Err(status_of(error)),
    }
}

/// Writes the first run that ends after a position: the run that holds it or else the next one. `first` gets the run's
/// first position, and `end` the position after its last one. `range` owns a copy of the subtree of its chunks, which
/// is open at both ends. To go through all runs, begin at position 0 and go on at each run's end. Finding a run takes
/// logarithmic time.
///
/// - `DONE`: they are written.
/// - `EMPTY_HANDLE`: if and only if the handle of the session is empty.
/// - `ARGUMENTS`: if and only if there is a session, and no run ends after the position.
/// - `MEMORY`: an allocation failed.
///
/// Since 1.1.
#[unsafe(no_mangle)]
pub extern "C" fn yurewha_session_run_from(
    alloc: Global,
    session: &mut SessionHandle,
    position: u64,
    first: &mut u64,
    end: &mut u64,
    range: &mut SubtreeHandle,
) -> u32
    ensures run { result ≡ DONE → BothHold session.old.value range.new.value (λ kept range.
        run_from kept position ≡ Some (run_of first.new end.new range)) }
    ensures arguments { IfSome session.old.value (λ kept. (result ≡ ARGUMENTS) ↔ (run_from kept position ≡ None)) }
    ensures empty { (result ≡ EMPTY_HANDLE) ↔ (session.old.value ≡ None) }
    ensures statuses { (result ≡ DONE) ⊎ ((result ≡ EMPTY_HANDLE) ⊎ ((result ≡ ARGUMENTS) ⊎ (result ≡ MEMORY))) }
    ensures kept { session.new.value ≡ session.old.value }
    ensures unchanged { result ≢ DONE → (first.new ≡ first.old) × (end.new ≡ end.old)
        × (range.new.value ≡ range.old.value) }
{
    let Some(kept) = session.take(alloc) else {
        return EMPTY_HANDLE;
    };
    let copied = copied_run_from(&kept, position);
    session.put(kept);
    match copied {
        Ok((from, to, copy)) => {
            let status = range.hold(alloc, copy);
            if status == DONE {
                *first = from;
                *end = to;
            }
            status
        }
        Err(status) => status,
    }
}

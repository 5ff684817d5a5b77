//! Reads a session from its JSON text.

ghost use Rattle.serde_json.specs.Data.{Data};
ghost use Rattle.serde_json.specs.View.{view};
ghost use Rattle.std.specs.Prelude.{◌≡◌, ◌⊎◌, ◌↔◌, ℕ, ◌^◌, ◌<◌, ◌≤◌, All, List, [], map, IfOk, IfErr, IsTrue, OnOk, if◌then◌else◌};
ghost use Rattle.std.specs.List.{AllZip};
ghost use Rattle.std.specs.declared.alloc.Global.{Global};
ghost use Rattle.upload_session.specs.Hashes.{hashes_of, Knows};
ghost use Rattle.upload_session.specs.Session.{CanFollow, EndBefore};
ghost use Rattle.upload_session.specs.Subtrees.{subtrees};
ghost use Rattle.session_json.specs.Reading.{BreaksSubtreeOf, CanFollowEach, HasFault, IsRunValue, IsStrictText, ReadsLists, SaysSession, size_of};
ghost use Rattle.session_json.specs.Steps.SavedRuns.{placed, all_placed, ReadsSaved};

use crate::fault::SessionTextFault;
use crate::lists::{RunMembers, are_runs, read_hashes, read_lists, read_run, read_value};
use serde_json::Value;
use std::alloc::{AllocError, Global};
use upload_session::session::Session;
use xet_merkle::merkle_hash_subtree::MerkleHashSubtree;
use xet_roots::CoreError;
use xet_roots::aggregated_hashes::Node;

// A run that is read.
#[derive(Drop)]
struct SavedRun {
    first: u64,
    end: u64,
    range: MerkleHashSubtree,
}

// What a text has, before the runs are checked together.
#[derive(Drop)]
struct Parts {
    runs: Vec<SavedRun>,
    // The known hashes, as chunks of size 0.
    hashes: Vec<Node>,
}

// Returns the runs of some values, which are runs except for the values of their chunks.
fn read_runs(alloc: Global, values: &[Value]) -> Result<Vec<SavedRun>, SessionTextFault>
    requires { All IsRunValue (map view values.now) }
    ensures read { IfOk result (λ runs. AllZip ReadsSaved (map view values.now) runs.items) }
    ensures refused { IfErr result (λ e. (e ≡ SessionTextFault.Memory)
        ⊎ ((rule : ℕ) × (e ≡ SessionTextFault.Subtree rule) × BreaksSubtreeOf (map view values.now) rule)) }
{
    let mut runs = Vec::with_capacity(alloc, values.len())?;
    'runs: for value in values {
        let RunMembers { first, end, chunks } = read_run(value).unwrap();
        match MerkleHashSubtree::from_json(alloc, chunks) {
            Ok(range) => runs.push(SavedRun { first, end, range })?,
            Err(CoreError::InvalidJson(rule)) => return Err(SessionTextFault::Subtree(rule)),
            Err(_) => return Err(SessionTextFault::Memory),
        }
    }
    Ok(runs)
}

// Reads the parts of a text: rules 1 to 5.
fn read_parts(alloc: Global, text: &[u8]) -> Result<Parts, SessionTextFault>
    ensures read { IfOk result (λ parts. (json : Data) × IsStrictText text.now json
        × ReadsLists json (all_placed parts.runs.items) (hashes_of parts.hashes.items)) }
    ensures refused { IfErr result (HasFault text.now) }
{
    let value = read_value(alloc, text)?;
    let lists = match read_lists(&value) {
        Ok(lists) => lists,
        Err(rule) => return Err(SessionTextFault::Rule(rule)),
    };
    if !are_runs(lists.runs) {
        return Err(SessionTextFault::Rule(3));
    }
    let hashes = read_hashes(alloc, lists.hashes)?;
    let runs = read_runs(alloc, lists.runs)?;
    Ok(Parts { runs, hashes })
}

// Returns whether a run begins and ends before a position.
fn is_before(run: &SavedRun, position: u64) -> bool
    ensures { IsTrue result ↔ ((run.now.first < position) × (run.now.end < position)) }
{
    run.first < position && run.end < position
}

// Returns whether the last of some runs, if there is one, begins and ends before a position.
fn end_before(runs: &[SavedRun], position: u64) -> bool
    ensures { IsTrue result ↔ EndBefore (all_placed runs.now) position }
{
    match runs.last() {
        Some(last) => is_before(last, position),
        None => true,
    }
}

// Returns whether a run can follow others.
fn follows(others: &[SavedRun], run: &SavedRun) -> bool
    ensures { IsTrue result ↔ CanFollow {A = Global} subtrees (all_placed others.now) (placed run.now) }
{
    run.first < run.end
        && !run.range.at_start()
        && !run.range.at_end()
        && end_before(others, run.first)
}

// Returns whether each run can follow those before it.
fn follow_each(runs: &[SavedRun]) -> bool
    ensures { IsTrue result ↔ CanFollowEach (all_placed runs.now) }
{
    'runs: for i in 0..runs.len() {
        if !follows(&runs[..i], &runs[i]) {
            return false;
        }
    }
    true
}

// Adds runs to a session without runs.
fn push_runs(session: &mut Session, runs: Vec<SavedRun>) -> Result<(), SessionTextFault>
    requires none { session.old.runs ≡ [] }
    requires size { session.old.size ≡ 0 }
    ensures runs { OnOk result (session.new.runs ≡ all_placed runs.items) }
    ensures size { OnOk result (session.new.size ≡ size_of (all_placed runs.items)) }
    ensures kept { session.new.kept ≡ session.old.kept }
    ensures refused { IfErr result (λ e. (e ≡ SessionTextFault.Memory)
        ⊎ ((e ≡ SessionTextFault.Rule 7) × (2 ^ 64 ≤ size_of (all_placed runs.items)))) }
{
    let mut runs = runs;
    runs.reverse();
    'runs: while let Some(next) = runs.pop() {
        match session.push_run(next.first, next.end, next.range) {
            Ok(()) => {}
            Err(CoreError::SizeOverflow) => return Err(SessionTextFault::Rule(7)),
            Err(_) => return Err(SessionTextFault::Memory),
        }
    }
    Ok(())
}

// Lets a session that knows no hashes know those of some chunks, if they are to be kept.
fn know_hashes(session: &mut Session, hashes: &[Node], keep_hashes: bool) -> Result<(), AllocError>
    requires { Knows session.old.kept [] }
    ensures known { OnOk result (Knows session.new.kept (if keep_hashes then hashes_of hashes.now else [])) }
    ensures runs { session.new.runs ≡ session.old.runs }
    ensures size { session.new.size ≡ session.old.size }
{
    if !keep_hashes {
        return Ok(());
    }
    session.keep_hashes(hashes)
}

/// Reads a session from its JSON text. It gets the hashes of the text if `keep_hashes`, and none otherwise.
///
/// Members other than the five are ignored. A number with a fraction or an exponent isn't a whole number. Time and memory are
/// in proportion to the text.
///
/// Fails with [`SessionTextFault::Text`] if the text isn't UTF-8 or isn't JSON, if it is nested more than 32 deep, if a number in
/// it is too large for a float, or if an object in it has a member twice.
/// Otherwise fails with the lowest rule that the value breaks:
///
/// 1. it is an object;
/// 2. `runs` and `known_hashes` are arrays;
/// 3. a run is an object with `first` and `end`, whole numbers from 0 to 2^64 - 1, and `chunks`;
/// 4. a known hash is an array of four whole numbers from 0 to 2^64 - 1;
/// 5. the `chunks` of each run are a subtree; if not, the fault is [`SessionTextFault::Subtree`];
/// 6. each run can follow those before it, as [`push_run`](Session::push_run) checks;
/// 7. the sizes of all chunks add up to at most 2^64 - 1.
///
/// Fails with [`SessionTextFault::Memory`] if an allocation fails; this may be returned instead of another fault.
pub fn read_session(
    alloc: Global,
    text: &[u8],
    keep_hashes: bool,
) -> Result<Session, SessionTextFault>
    ensures says { IfOk result (SaysSession text.now keep_hashes) }
    ensures refused { IfErr result (HasFault text.now) }
{
    let Parts { runs, hashes } = read_parts(alloc, text)?;
    if !follow_each(&runs) {
        return Err(SessionTextFault::Rule(6));
    }
    let mut session = Session::new(alloc);
    push_runs(&mut session, runs)?;
    know_hashes(&mut session, &hashes, keep_hashes)?;
    Ok(session)
}

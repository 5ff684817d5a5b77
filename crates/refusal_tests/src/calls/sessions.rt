//! Sessions over each kind of range.

use super::ranges::Kind;
use super::{Call, Outcome, Refusing, outcome_of};
use std::alloc::Global;
use std::process::Abort;
use test_support::reference_list;
use test_support::texts::{four_fields, three_fields};
use upload_session::range_fault::RangeFault;
use upload_session::session::{Session, SessionOf};
use upload_session::session_fault::SessionFault;
use xet_hash::data_hash::MerkleHash;
use xet_merkle::CoreError;
use xet_merkle::aggregated_hashes::{Node, file_hash, xorb_hash};

/// Calls of a session. Each row has the reference chunks of all positions in the end, the puts before the call, the puts
/// after a refusal, and the puts after another end. A put has its first position, its chunks, and how many hashes are new.
/// The first put after a refusal says what the call puts, pushes or keeps.
pub const OF_SESSIONS: &str = "put alone|1,2,3||2:3:1 0:1,2:2|0:1,2:2
put of equal chunks|1,1,1,1||0:1,1:1 2:1,1:0|2:1,1:0
put before a run|1,2,3|2:3:1|0:1,2:2|
put after a run|1,1,1,1|0:1,1:1|2:1,1:0|
put between two runs|1,2,3|0:1:1 2:3:1|1:2:1|
put before a longer run|1,2,3,1|1:2,3,1:3|0:1:0|
put between a run and a longer one|1,2,3,2,1|0:1:1 2:3,2,1:2|1:2:0|
push of a run|1,2,3||2:3:1 0:1,2:2|0:1,2:2
range alone|1,2,3||2:3:1 0:1,2:2|0:1,2:2
range between two runs|1,2,3|0:1:1 2:3:1|1:2:1|
hashes to keep|0,1,2,3,4,5,6,7||0:0,1,2,3,4,5,6,7:8|0:0,1,2,3,4,5,6,7:0
finish|1,2,3|2:3:1 0:1,2:2||
finish with equal chunks|1,1,1,1|0:1,1:1 2:1,1:0||
root|1,2,3|2:3:1 0:1,2:2||
root and file hash|1,2,3|2:3:1 0:1,2:2||
root and file hash|1,1,1,1|0:1,1:1 2:1,1:0||";

/// Calls that join sessions over subtrees, in the form of [`OF_SESSIONS`].
pub const OF_JOINS: &str = "join with a run|1,2,3|0:1:1 2:3:1|1:2:1|
join with two runs|1,2,4,3|0:1:1 3:3:1|1:2,4:2|";

// Returns whether a call returns what it should.
fn is_right<T: PartialEq + Drop>(
    answer: Result<T, SessionFault>,
    expected: T,
) -> Result<bool, CoreError> {
    match answer {
        Ok(value) => Ok(value == expected),
        Err(SessionFault::Memory) => Err(CoreError::OutOfMemory),
        Err(_) => Ok(false),
    }
}

// Returns whether a call that puts a range or another session returns what it should.
fn is_put<T: PartialEq + Drop>(
    answer: Result<T, RangeFault>,
    expected: T,
) -> Result<bool, CoreError> {
    match answer {
        Ok(value) => Ok(value == expected),
        Err(RangeFault::Memory) => Err(CoreError::OutOfMemory),
        Err(_) => Ok(false),
    }
}

/// A put: its first position, its chunks, and how many hashes are new.
#[derive(Drop, PartialEq)]
struct Put {
    first: u64,
    chunks: Vec<Node>,
    new: u64,
}

// Reads a put from a text.
fn read(rt: &impl Abort, memory: Global, text: &str) -> Put {
    let (first, chunks, new) = three_fields(text, ':').expect(rt, "three fields");
    Put {
        first: first.parse().expect(rt, "a position"),
        chunks: reference_list(memory, chunks).expect(rt, "chunks"),
        new: new.parse().expect(rt, "a number"),
    }
}

// Returns whether puts return what they should.
fn are_put<'a, R: Kind<Alloc = &'a Refusing>>(
    rt: &impl Abort,
    memory: Global,
    session: &mut SessionOf<R>,
    puts: &str,
) -> bool {
    for text in puts.split_whitespace() {
        let put = read(rt, memory, text);
        if session.put(put.first, &put.chunks) != Ok(put.new) {
            return false;
        }
    }
    true
}

// Returns whether two sessions have the same ranges and, among the first positions, the same taken ones.
fn are_same<'a, R: Kind<Alloc = &'a Refusing>>(
    session: &SessionOf<R>,
    other: &SessionOf<R>,
) -> bool {
    for i in 0..4 {
        let is_same = match (session.range(i), other.range(i)) {
            (Some((first, range)), Some((other_first, other_range))) => {
                first == other_first && range.equals(other_range)
            }
            (None, None) => true,
            _ => false,
        };
        if !is_same || session.taken(i as u64) != other.taken(i as u64) {
            return false;
        }
    }
    true
}

// How many chunks a session has in the end, their root and their file hash.
#[derive(Clone, Copy)]
struct End {
    total: u64,
    root: MerkleHash,
    file: MerkleHash,
}

// Returns the end of a session of some reference chunks.
fn end_of(rt: &impl Abort, memory: Global, numbers: &str) -> End {
    let chunks = reference_list(memory, numbers).expect(rt, "chunks");
    End {
        total: chunks.len() as u64,
        root: xorb_hash(memory, &chunks).expect(rt, "a hash"),
        file: file_hash(memory, &chunks).expect(rt, "a hash"),
    }
}

// Returns a session of a put alone.
fn session_of<'a, R: Kind<Alloc = &'a Refusing>>(
    alloc: &'a Refusing,
    put: &Put,
) -> Result<SessionOf<R>, CoreError> {
    let mut session = SessionOf::new_in(alloc)?;
    is_right(session.put(put.first, &put.chunks), 0)?;
    Ok(session)
}

// Makes a call with the chunks of a put. Returns whether it returns what it should.
fn takes<'a, R: Kind<Alloc = &'a Refusing>>(
    alloc: &'a Refusing,
    session: &mut SessionOf<R>,
    call: &str,
    put: &Put,
) -> Result<bool, CoreError> {
    let (first, chunks) = (put.first, put.chunks.as_slice());
    match call {
        "push of a run" => {
            let range = R::from_chunks(alloc, false, chunks, false)?;
            session.push_run(first, first.saturating_add(chunks.len() as u64), range)?;
            Ok(true)
        }
        "hashes to keep" => {
            session.keep_hashes(chunks)?;
            Ok(true)
        }
        "range alone" | "range between two runs" => {
            let range = R::from_chunks(alloc, false, chunks, false)?;
            is_put(session.put_range(first, chunks.len() as u64, range), ())
        }
        "join with a run" => {
            let other = session_of(alloc, put)?;
            is_put(R::joined(session, &other), put.new)
        }
        "join with two runs" => {
            let mut joined = session_of(alloc, put)?;
            let is_right = is_put(R::joined(&mut joined, session), put.new)?;
            *session = joined;
            Ok(is_right)
        }
        _ => is_right(session.put(first, chunks), put.new),
    }
}

// Returns whether a call gives the root of all chunks, both hashes, or else the file hash.
fn ends<'a, R: Kind<Alloc = &'a Refusing>>(
    session: &SessionOf<R>,
    call: &str,
    end: &End,
) -> Result<bool, CoreError> {
    match call {
        "root" => is_right(session.root(end.total), end.root),
        "root and file hash" => is_right(session.hashes(end.total), (end.root, end.file)),
        _ => is_right(session.finish(end.total), end.file),
    }
}

// Returns a session after some puts.
fn begun<'a, R: Kind<Alloc = &'a Refusing>>(
    rt: &impl Abort,
    alloc: &'a Refusing,
    memory: Global,
    puts: &str,
) -> SessionOf<R> {
    let mut session = SessionOf::new_in(alloc).expect(rt, "a session");
    assert!(rt;
        are_put(rt, memory, &mut session, puts),
        "a put before the call"
    );
    session
}

// Returns the first of some puts.
fn first_put(rt: &impl Abort, memory: Global, puts: &str) -> Option<Put> {
    match puts.split_whitespace().next() {
        Some(text) => Some(read(rt, memory, text)),
        None => None,
    }
}

// Tries a call with the chunks of the first of some puts, if there is one. The session is that after the puts before.
fn tried<'a, R: Kind<Alloc = &'a Refusing>>(
    rt: &impl Abort,
    (alloc, granted, memory): (&'a Refusing, u32, Global),
    session: &mut SessionOf<R>,
    (call, before, puts): (&str, &str, &str),
    end: &End,
) -> Outcome {
    let put = first_put(rt, memory, puts);
    let other: SessionOf<R> = begun(rt, alloc, memory, before);
    alloc.grant(granted);
    let answer = match &put {
        Some(put) => takes(alloc, session, call, put),
        None => ends(session, call, end),
    };
    let outcome = outcome_of(alloc, answer, are_same(session, &other));
    alloc.grant(u32::MAX);
    outcome.if_so(put == first_put(rt, memory, puts))
}

// Returns whether a session takes some more puts and then has the right root and file hash.
fn goes_on<'a, R: Kind<Alloc = &'a Refusing>>(
    rt: &impl Abort,
    memory: Global,
    session: &mut SessionOf<R>,
    puts: &str,
    end: &End,
) -> bool {
    are_put(rt, memory, session, puts)
        && ends(session, "root", end).expect(rt, "memory")
        && ends(session, "", end).expect(rt, "memory")
}

/// Tries a call of a session. After a refusal it goes on from the session as it was.
pub fn attempt<'a, R: Kind<Alloc = &'a Refusing>>(
    rt: &impl Abort,
    alloc: &'a Refusing,
    granted: u32,
    memory: Global,
    row: &str,
) -> Outcome {
    let (call, chunks, before, puts) = four_fields(row, '|').expect(rt, "four fields");
    let (after_refusal, others) = puts.split_once('|').expect(rt, "two fields");
    let end = end_of(rt, memory, chunks);
    let mut session: SessionOf<R> = begun(rt, alloc, memory, before);
    let granted = (alloc, granted, memory);
    let outcome = tried(
        rt,
        granted,
        &mut session,
        (call, before, after_refusal),
        &end,
    );
    let remaining = if matches!(outcome, Outcome::Refused) {
        after_refusal
    } else {
        others
    };
    outcome.if_so(goes_on(rt, memory, &mut session, remaining, &end))
}

// Returns whether a session of two runs, or the list of the three hashes that it knows, is copied.
fn is_copied<'a>(call: Call, session: &Session<&'a Refusing>) -> Result<bool, CoreError> {
    match call {
        Call::KnownHashes => Ok(session.known_hashes()?.len() == 3),
        _ => {
            let copy = session.try_clone()?;
            Ok(copy.num_known_hashes() == 3 && are_same(&copy, session))
        }
    }
}

/// Tries a call that copies a session, or the hashes that it knows.
pub fn copy(
    rt: &impl Abort,
    call: Call,
    alloc: &Refusing,
    granted: u32,
    memory: Global,
) -> Outcome {
    let session: Session<&Refusing> = begun(rt, alloc, memory, "0:0,1:2 3:2:1");
    alloc.grant(granted);
    let answer = is_copied(call, &session);
    outcome_of(alloc, answer, true)
}

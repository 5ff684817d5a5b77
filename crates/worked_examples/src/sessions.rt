//! Upload sessions.

use crate::read::{list, number};
use crate::told::told;
use anyhow::{Context, Result, bail};
use std::alloc::Global;
use upload_session::session::SessionOf;
use xet_merkle::chunk_range::ChunkRange;
use xet_merkle::merkle_hash_subtree::MerkleHashSubtree;
use xet_merkle::plain_range::PlainRange;

// A kind of range. Plain ranges can't be copied, so sessions of them can't be joined.
trait Kind: ChunkRange<Alloc = Global> {
    // Joins a session to another, and returns what this returned.
    fn joined(
        alloc: Global,
        session: &mut SessionOf<Self>,
        other: &SessionOf<Self>,
    ) -> Result<String>;
}

impl Kind for MerkleHashSubtree {
    fn joined(
        alloc: Global,
        session: &mut SessionOf<Self>,
        other: &SessionOf<Self>,
    ) -> Result<String> {
        Ok(told(alloc, session.join(other))?)
    }
}

impl Kind for PlainRange {
    fn joined(
        _alloc: Global,
        _session: &mut SessionOf<Self>,
        _other: &SessionOf<Self>,
    ) -> Result<String> {
        bail!("no such call")
    }
}

/// Makes the calls of a session, which have commas between them. Returns `None` if the name is another one.
pub fn answer(alloc: Global, name: &str, arguments: &str) -> Result<Option<String>> {
    let text = match name {
        "session:" => answers::<MerkleHashSubtree>(alloc, arguments)?,
        "plain_session:" => answers::<PlainRange>(alloc, arguments)?,
        _ => return Ok(None),
    };
    Ok(Some(text))
}

// Returns what the calls of a new session return.
fn answers<C: Kind>(alloc: Global, calls: &str) -> Result<String> {
    let mut session: SessionOf<C> = SessionOf::new(alloc);
    let mut text = String::new(alloc);
    for call in calls.split(", ") {
        if !text.is_empty() {
            text.push_str(", ")?;
        }
        text.push_str(called(alloc, &mut session, call)?.as_str())?;
    }
    Ok(text)
}

// Makes a call of a session, and returns what it returned.
fn called<C: Kind>(alloc: Global, session: &mut SessionOf<C>, call: &str) -> Result<String> {
    let (name, argument) = call.split_once(' ').context("no argument")?;
    let text = match name {
        "put" => put(alloc, session, argument)?,
        "put_range" => put_range(alloc, session, false, argument)?,
        "put_range_at_start" => put_range(alloc, session, true, argument)?,
        "join" => join(alloc, session, argument)?,
        "finish" => told(alloc, session.finish(number(argument)?))?,
        "root" => told(alloc, session.root(number(argument)?))?,
        "taken" => session.taken(number(argument)?).to_string(alloc)?,
        "range" => range(alloc, session, argument)?,
        _ => bail!("no such call"),
    };
    Ok(text)
}

// Puts chunks at the positions from a first one on.
fn put<C: Kind>(alloc: Global, session: &mut SessionOf<C>, argument: &str) -> Result<String> {
    let (first, chunks) = argument.split_once(' ').context("no chunks")?;
    Ok(told(alloc, session.put(number(first)?, &list(alloc, chunks)?))?)
}

// Puts a range of chunks, which is said to be of a number of chunks, at the positions from a first one on.
fn put_range<C: Kind>(
    alloc: Global,
    session: &mut SessionOf<C>,
    at_start: bool,
    argument: &str,
) -> Result<String> {
    let (first, counted) = argument.split_once(' ').context("no number")?;
    let (count, chunks) = counted.split_once(' ').context("no chunks")?;
    let range = C::from_chunks(alloc, at_start, &list(alloc, chunks)?, false)?;
    Ok(
        match session.put_range(number(first)?, number(count)?, range) {
            Ok(()) => String::from_str(alloc, "put")?,
            Err(fault) => format!(in alloc; "{fault:?}")?,
        },
    )
}

// Joins a session of chunks at the positions from a first one on.
fn join<C: Kind>(alloc: Global, session: &mut SessionOf<C>, argument: &str) -> Result<String> {
    let mut other = SessionOf::new(alloc);
    put(alloc, &mut other, argument)?;
    C::joined(alloc, session, &other)
}

// Returns the first position of a run and the size of its range.
fn range<C: Kind>(alloc: Global, session: &SessionOf<C>, argument: &str) -> Result<String> {
    match session.range(argument.parse()?) {
        Some((first, range)) => {
            let size = range.total_size();
            Ok(format!(in alloc; "{size} bytes from {first} on")?)
        }
        None => Ok(String::from_str(alloc, "none")?),
    }
}

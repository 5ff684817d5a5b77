//! Hashes of messages: whole, in pieces, and as they are written to a writer.

use crate::read::bytes;
use anyhow::{Context, Result, bail};
use std::alloc::Global;
use std::io::{self, Write};
use std::mem;
use xet_hash::blake3::{Hasher, keyed_hash};
use xet_hash::data_hash::{DATA_KEY, DataHash, HashedWrite, compute_data_hash};

/// Makes a call that hashes a message. Returns `None` if there is none of this name.
pub fn answer(alloc: Global, name: &str, arguments: &str) -> Result<Option<String>> {
    let text = match name {
        "compute_data_hash" => compute_data_hash(&message(alloc, arguments)?).hex(alloc)?,
        "keyed_hash" => in_all_cuttings(alloc, &message(alloc, arguments)?)?,
        "Hasher" => hasher(alloc, arguments)?,
        "HashedWrite" => hashed_write(alloc, arguments)?,
        _ => return Ok(None),
    };
    Ok(Some(text))
}

// Reads a message: bytes, or the number of bytes whose values are their numbers modulo 251.
fn message(alloc: Global, text: &str) -> Result<Vec<u8>> {
    let Some(len) = text.strip_suffix(" counted bytes") else {
        return bytes(alloc, text);
    };
    let mut message = Vec::new(alloc);
    for i in 0..len.parse::<u64>()? {
        message.push((i % 251) as u8)?;
    }
    Ok(message)
}

// Returns the hash of a message in pieces. They have two lengths in turn.
fn hash_of_pieces(message: &[u8], first: usize, second: usize) -> DataHash {
    let mut hasher = Hasher::new_keyed(&DATA_KEY);
    let (mut length, mut next) = (first, second);
    let mut rest = message;
    for _ in 0..message.len() {
        let (piece, after) = rest.split_at(length.min(rest.len()));
        update(&mut hasher, piece);
        rest = after;
        mem::swap(&mut length, &mut next);
    }
    DataHash::from(hasher.finalize())
}

// Appends a piece to a message if it has room for it.
fn update(hasher: &mut Hasher, piece: &[u8]) {
    if hasher.has_room(piece.len()) {
        hasher.update(piece);
    }
}

// Returns the hash of a message under the data key, if it is the same byte by byte and in pieces of 1 and 1024 bytes.
fn in_all_cuttings(alloc: Global, message: &[u8]) -> Result<String> {
    let whole = DataHash::from(keyed_hash(&DATA_KEY, message));
    for (first, second) in [(1, 1), (1, 1024), (1024, 1)] {
        if hash_of_pieces(message, first, second) != whole {
            bail!("another hash in pieces");
        }
    }
    Ok(whole.hex(alloc)?)
}

// Returns the hash of a message in two pieces.
fn hasher(alloc: Global, arguments: &str) -> Result<String> {
    let (text, cut) = arguments.split_once(", cut at ").context("no cut")?;
    let message = message(alloc, text)?;
    let (front, back) = message
        .as_slice()
        .split_at_checked(cut.parse()?)
        .context("a cut past the end")?;
    let mut hasher = Hasher::new_keyed(&DATA_KEY);
    update(&mut hasher, front);
    update(&mut hasher, back);
    Ok(DataHash::from(hasher.finalize()).hex(alloc)?)
}

// A writer that takes a number of bytes a call, and fails after a number of calls.
#[derive(Drop)]
struct Slow {
    taken: Vec<u8>,
    at_most: usize,
    calls: u64,
}

impl Write for Slow {
    fn write(&mut self, slice: &[u8]) -> io::Result<usize> {
        let Some(calls) = self.calls.checked_sub(1) else {
            return Err(io::Error::other("no more calls"));
        };
        self.calls = calls;
        let len = slice.len().min(self.at_most);
        self.taken.extend_from_slice(&slice[..len])?;
        Ok(len)
    }

    fn flush(&mut self) -> io::Result<()> {
        Ok(())
    }
}

// Reads a writer: how many bytes it takes a call, and maybe after how many calls it fails.
fn writer(alloc: Global, text: &str) -> Result<Slow> {
    let (at_most, calls) = match text.split_once(" bytes a call, ") {
        Some((at_most, calls)) => (at_most, calls.parse()?),
        None => (
            text.strip_suffix(" bytes a call").context("no writer")?,
            u64::MAX,
        ),
    };
    Ok(Slow {
        taken: Vec::new(alloc),
        at_most: at_most.parse()?,
        calls,
    })
}

// Writes a message by one call of `write_all`, and returns the hash and the number of bytes that were taken.
fn hashed_write(alloc: Global, arguments: &str) -> Result<String> {
    let (text, told_writer) = arguments.split_once(", ").context("no writer")?;
    let mut writer = HashedWrite::new(writer(alloc, told_writer)?);
    let is_written = writer.write_all(&message(alloc, text)?).is_ok();
    let hash = writer.hash();
    let Slow {
        taken,
        at_most: _,
        calls: _,
    } = writer.into_inner();
    if compute_data_hash(&taken) != hash {
        bail!("another hash than that of the taken bytes");
    }
    let end = if is_written { "written" } else { "failed" };
    Ok(format!(in alloc; "{end}, {} bytes taken, {hash}", taken.len())?)
}

//! Where a message is cut into chunks, as a whole, in pieces, and out of the candidates of pieces; and the file hash of it.

use crate::read::bytes;
use anyhow::{Context, Result, bail};
use std::alloc::Global;
use xet_chunker::{CandidateFinder, Chunker, CutChoice};
use xet_file::FileHasher;
use xet_merkle::merkle_hash_subtree::MerkleHashSubtree;

// How many bytes before a piece its machine needs to see.
const NEAR: usize = 63;

/// Makes a call that cuts a message. Returns `None` if there is none of this name.
pub fn answer(alloc: Global, name: &str, arguments: &str) -> Result<Option<String>> {
    let text = match name {
        "cuts" => in_all_ways(alloc, &message(alloc, arguments)?)?,
        "FileHasher" => file_hash(alloc, &message(alloc, arguments)?)?,
        "candidates" => {
            let message = message(alloc, arguments)?;
            listed(alloc, &candidates(alloc, &message, message.len().max(1))?)?
        }
        _ => return Ok(None),
    };
    Ok(Some(text))
}

// Reads a message: as many bytes of SplitMix64 from the seed 0, or as many bytes of others that are repeated.
fn message(alloc: Global, text: &str) -> Result<Vec<u8>> {
    if let Some(count) = text.strip_suffix(" mixed bytes") {
        return mixed(alloc, count.parse()?);
    }
    let (count, repeated) = text.split_once(" bytes of ").context("no message")?;
    let repeated = bytes(alloc, repeated)?;
    let mut message = Vec::new(alloc);
    for byte in repeated.iter().cycle().take(count.parse()?) {
        message.push(*byte)?;
    }
    Ok(message)
}

// Returns bytes of SplitMix64 from the seed 0. Each number gives eight, the lowest first.
fn mixed(alloc: Global, count: usize) -> Result<Vec<u8>> {
    let mut message = Vec::new(alloc);
    let mut state: u64 = 0;
    for _ in 0..count.div_ceil(8) {
        state = state.wrapping_add(0x9E3779B97F4A7C15);
        let z = (state ^ (state >> 30)).wrapping_mul(0xBF58476D1CE4E5B9);
        let z = (z ^ (z >> 27)).wrapping_mul(0x94D049BB133111EB);
        message.extend_from_slice(&(z ^ (z >> 31)).to_le_bytes())?;
    }
    message.truncate(count);
    Ok(message)
}

// Returns the cuts of a message, if they are the same in each of some pieces, and out of the candidates of some pieces.
fn in_all_ways(alloc: Global, message: &[u8]) -> Result<String> {
    let cuts = cuts_in_pieces(alloc, message, message.len().max(1))?;
    for piece in [1, 63, 8192, 65537] {
        if cuts_in_pieces(alloc, message, piece)? != cuts {
            bail!("other cuts in pieces");
        }
    }
    for piece in [1000, 8192, 300000] {
        let found = candidates(alloc, message, piece)?;
        if chosen(alloc, &found, message.len() as u64)? != cuts {
            bail!("other cuts out of candidates");
        }
    }
    listed(alloc, &cuts)
}

// Returns the file hash of a message, if it is the same in pieces, after each of which the hash so far was asked for.
fn file_hash(alloc: Global, message: &[u8]) -> Result<String> {
    let mut whole: FileHasher<MerkleHashSubtree> = FileHasher::new(alloc)?;
    whole.update(message)?;
    let mut pieces: FileHasher<MerkleHashSubtree> = FileHasher::new(alloc)?;
    for piece in message.chunks(50000) {
        pieces.file_hash()?;
        pieces.update(piece)?;
    }
    if pieces.file_hash()? != whole.file_hash()? || pieces.size() != message.len() as u64 {
        bail!("another hash in pieces");
    }
    Ok(whole.file_hash()?.hex(alloc)?)
}

// Returns the cuts of a message that comes in pieces of one length.
fn cuts_in_pieces(alloc: Global, message: &[u8], length: usize) -> Result<Vec<u64>> {
    let mut chunker = Chunker::new();
    let mut cuts = Vec::new(alloc);
    let mut at: u64 = 0;
    for piece in message.chunks(length.max(1)) {
        let mut rest = piece;
        for _ in 0..=piece.len() {
            let Some(end) = chunker.next_boundary(rest) else {
                break;
            };
            cuts.push(at.saturating_add(place_in(piece, rest, end)))?;
            (_, rest) = rest.split_at(end);
        }
        at = at.saturating_add(piece.len() as u64);
    }
    if chunker.taken() > 0 {
        cuts.push(at)?;
    }
    Ok(cuts)
}

// Returns the place in a piece that is some bytes after the beginning of its rest.
fn place_in(piece: &[u8], rest: &[u8], end: usize) -> u64 {
    let begin = piece.len().saturating_sub(rest.len());
    begin.saturating_add(end) as u64
}

// Returns the candidates of a message, as machines find them that have pieces of one length.
fn candidates(alloc: Global, message: &[u8], length: usize) -> Result<Vec<u64>> {
    let mut found = Vec::new(alloc);
    let mut begin = 0;
    for piece in message.chunks(length.max(1)) {
        let (before, _) = message.split_at_checked(begin).context("a piece")?;
        let (_, near) = before.split_at(before.len().saturating_sub(NEAR));
        let mut finder = CandidateFinder::new();
        if finder.next_candidate(near).is_some() {
            bail!("a candidate in 63 bytes");
        }
        push_candidates(&mut found, &mut finder, begin as u64, piece)?;
        begin = begin.saturating_add(piece.len());
    }
    Ok(found)
}

// Appends the candidates of a piece that begins at a place.
fn push_candidates(
    found: &mut Vec<u64>,
    finder: &mut CandidateFinder,
    begin: u64,
    piece: &[u8],
) -> Result<()> {
    let mut rest = piece;
    for _ in 0..=piece.len() {
        let Some(end) = finder.next_candidate(rest) else {
            break;
        };
        found.push(begin.saturating_add(place_in(piece, rest, end)))?;
        (_, rest) = rest.split_at(end);
    }
    Ok(())
}

// Returns the cuts that follow from candidates and the length of the message.
fn chosen(alloc: Global, candidates: &[u64], length: u64) -> Result<Vec<u64>> {
    let mut choice = CutChoice::new();
    let mut cuts = Vec::new(alloc);
    for candidate in candidates {
        for _ in 0..=length {
            let Some(cut) = choice.next_cut(*candidate) else {
                break;
            };
            cuts.push(cut)?;
        }
    }
    for _ in 0..=length {
        let Some(cut) = choice.next_at_end(length) else {
            break;
        };
        cuts.push(cut)?;
    }
    Ok(cuts)
}

// Returns places as text, with spaces between them, or `none`.
fn listed(alloc: Global, places: &[u64]) -> Result<String> {
    let mut text = String::new(alloc);
    for place in places {
        if !text.is_empty() {
            text.push(' ')?;
        }
        text.push_str(place.to_string(alloc)?.as_str())?;
    }
    if text.is_empty() {
        text.push_str("none")?;
    }
    Ok(text)
}

//! An index of hashes.

use crate::read::{hash, number};
use crate::told::{found, in_order};
use anyhow::{Context, Result, bail};
use hash_numbers::HashIndex;
use std::alloc::Global;
use xet_hash::data_hash::MerkleHash;

/// Makes the calls of a new index. Returns `None` if the name is another one.
pub fn answer(alloc: Global, name: &str, arguments: &str) -> Result<Option<String>> {
    match name {
        "index:" => Ok(Some(answers(alloc, arguments)?)),
        _ => Ok(None),
    }
}

// Returns what the calls of a new index return.
fn answers(alloc: Global, calls: &str) -> Result<String> {
    let mut index = HashIndex::new(alloc);
    let mut text = String::new(alloc);
    for call in calls.split(", ") {
        if !text.is_empty() {
            text.push_str(", ")?;
        }
        text.push_str(called(alloc, &mut index, call)?.as_str())?;
    }
    Ok(text)
}

// Makes a call of an index, and returns what it returned.
fn called(alloc: Global, index: &mut HashIndex, call: &str) -> Result<String> {
    let (name, argument) = call.split_once(' ').unwrap_or((call, ""));
    match name {
        "insert" => Ok(
            index
                .insert(alloc, &pairs(alloc, argument)?)?
                .to_string(alloc)?,
        ),
        "get" => Ok(found(alloc, index.get(&hash(argument)?))?),
        "len" => Ok(index.len().to_string(alloc)?),
        "iter" => entries(alloc, index),
        _ => bail!("no such call"),
    }
}

// Returns the hashes of an index in order, each with its number after an equals sign.
fn entries(alloc: Global, index: &HashIndex) -> Result<String> {
    let mut texts = Vec::new(alloc);
    for (hash, number) in index.iter() {
        texts.push(format!(in alloc; "{hash}={number}")?)?;
    }
    Ok(in_order(alloc, texts)?)
}

// Reads hashes with spaces between them, or `none`. Each has its number after an equals sign.
fn pairs(alloc: Global, text: &str) -> Result<Vec<(MerkleHash, u64)>> {
    let mut pairs = Vec::new(alloc);
    if text == "none" {
        return Ok(pairs);
    }
    for pair in text.split(' ') {
        let (said, given) = pair.split_once('=').context("no number")?;
        pairs.push((hash(said)?, number(given)?))?;
    }
    Ok(pairs)
}

//! Calls that make a proof, or check data with one.

use crate::openings::told_opening;
use crate::read::{nodes_of_data, range_of_list, two_numbers};
use anyhow::{Context, Result, bail};
use range_proof::{HashTree, OpenedRange, RangeProof};
use std::alloc::Global;
use xet_hash::data_hash::MerkleHash;

/// Makes a call. Returns `None` if there is none of this name.
pub fn answer(alloc: Global, name: &str, arguments: &str) -> Result<Option<String>> {
    let text = match name {
        "prove" => proved(alloc, arguments)?,
        "prove_data" => proved_data(alloc, arguments)?,
        "check" => checked(alloc, arguments)?,
        "read" => read(alloc, arguments)?,
        _ => return Ok(None),
    };
    Ok(Some(text))
}

// Makes the proof of a range in both ways, and opens one with the file hash under a salt, the other with the root.
fn proved(alloc: Global, arguments: &str) -> Result<String> {
    let ((first, end), chunks) = range_of_list(alloc, arguments)?;
    let (first, end) = (first as usize, end as usize);
    let proof = match RangeProof::from_chunks(alloc, &chunks, first, end) {
        Ok(proof) => proof,
        Err(error) => return Ok(format!(in alloc; "{error:?}")?),
    };
    let tree = HashTree::from_chunks(alloc, &chunks)?;
    let other = tree.proof(alloc, first, end)?;
    if other != proof || other.try_clone()? != proof {
        bail!("another proof");
    }
    let salt = MerkleHash::random_from_seed(4).as_bytes();
    let of_file = told_opening(alloc, proof.open(&tree.file_hash(&salt), &salt))?;
    let of_root = told_opening(alloc, other.open_root(&tree.root()))?;
    if of_file != of_root {
        bail!("another range");
    }
    Ok(of_file)
}

// Reads two numbers, `of` and the data of chunks, and returns the proof of that range, opened with the file hash.
fn opened_data(alloc: Global, text: &str) -> Result<OpenedRange> {
    let (range, data) = text.split_once(" of ").context("no data")?;
    let (first, end) = two_numbers(range)?;
    let tree = HashTree::from_chunks(alloc, &nodes_of_data(alloc, data)?)?;
    let file_hash = tree.file_hash(&[0; 32]);
    let proof = tree.proof(alloc, first as usize, end as usize)?;
    match proof.open(&file_hash, &[0; 32]) {
        Ok(range) => Ok(range),
        Err(_) => bail!("not opened"),
    }
}

// Returns the JSON text of the proof of some chunks, whose data is said.
fn proved_data(alloc: Global, arguments: &str) -> Result<String> {
    let range = opened_data(alloc, arguments)?;
    Ok(range.proof().to_json(alloc)?.to_string(alloc)?)
}

// Checks data as that of a chunk of a range.
fn checked(alloc: Global, arguments: &str) -> Result<String> {
    let (chunk, range) = arguments.split_once(" in ").context("no range")?;
    let (number, data) = chunk.split_once(' ').context("no data")?;
    let opened = opened_data(alloc, range)?;
    match opened.check(number.parse()?, data.as_bytes()) {
        Some(place) => Ok(place.to_string(alloc)?),
        None => Ok(String::from_str(alloc, "none")?),
    }
}

// Reads bytes of the file from the data of a range.
fn read(alloc: Global, arguments: &str) -> Result<String> {
    let (call, range) = arguments.split_once(" in ").context("no range")?;
    let (places, data) = call.split_once(" of ").context("no data")?;
    let (from, to) = two_numbers(places)?;
    let opened = opened_data(alloc, range)?;
    match opened.read(from, to, data.as_bytes()) {
        Some(bytes) => Ok(format!(in alloc; "{:?}", str::from_utf8(bytes)?)?),
        None => Ok(String::from_str(alloc, "none")?),
    }
}

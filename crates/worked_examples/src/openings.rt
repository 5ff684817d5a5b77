//! Calls on a proof as JSON: opening it, and reading it again.

use crate::read::hash;
use anyhow::{Context, Result, bail};
use range_proof::{OpenError, OpenedRange, RangeProof};
use serde_json::Value;
use std::alloc::Global;
use std::fmt::Write;
use xet_merkle::CoreError;

/// Makes a call. Returns `None` if there is none of this name.
pub fn answer(alloc: Global, name: &str, arguments: &str) -> Result<Option<String>> {
    let text = match name {
        "open" => opened(alloc, arguments)?,
        "open_root" => opened_with_root(alloc, arguments)?,
        "proof_from_json" => read_again(alloc, arguments)?,
        _ => return Ok(None),
    };
    Ok(Some(text))
}

// Returns how many nodes are on both sides of each level, and where an opened range begins in a file of what size.
fn told_range(alloc: Global, range: &OpenedRange) -> Result<String> {
    let mut text = String::new(alloc);
    let proof = range.proof();
    for level in 0..proof.num_levels() {
        let (left, right) = (proof.left(level).len(), proof.right(level).len());
        write!(text, "({left}, {right}) ")?;
    }
    if proof.num_levels() == 0 {
        text.push_str("no level ")?;
    }
    let begin = range.begins(0).context("no chunk")?;
    write!(text, "{begin} of {}", range.file_size())?;
    Ok(text)
}

/// Returns an opened range, or why the proof wasn't opened.
pub fn told_opening(alloc: Global, outcome: Result<OpenedRange, OpenError>) -> Result<String> {
    match outcome {
        Ok(range) => told_range(alloc, &range),
        Err(error) => Ok(format!(in alloc; "{:?}", error.fault)?),
    }
}

// Reads a proof from its JSON text.
fn read_proof(alloc: Global, text: &str) -> Result<Result<RangeProof, CoreError>> {
    let value = Value::from_str(alloc, text)?;
    Ok(RangeProof::from_json(alloc, &value))
}

// Opens a proof with a file hash and a salt.
fn opened(alloc: Global, arguments: &str) -> Result<String> {
    let (file_hash, rest) = arguments.split_once(' ').context("no salt")?;
    let (salt, text) = rest.split_once(' ').context("no proof")?;
    match read_proof(alloc, text)? {
        Ok(proof) => told_opening(
            alloc,
            proof.open(&hash(file_hash)?, &hash(salt)?.as_bytes()),
        ),
        Err(error) => Ok(format!(in alloc; "{error:?}")?),
    }
}

// Opens a proof with a root.
fn opened_with_root(alloc: Global, arguments: &str) -> Result<String> {
    let (root, text) = arguments.split_once(' ').context("no proof")?;
    match read_proof(alloc, text)? {
        Ok(proof) => told_opening(alloc, proof.open_root(&hash(root)?)),
        Err(error) => Ok(format!(in alloc; "{error:?}")?),
    }
}

// Reads a proof, and says whether `to_json` gives the same text. Its flat lists must give the same proof.
fn read_again(alloc: Global, text: &str) -> Result<String> {
    let proof = match read_proof(alloc, text)? {
        Ok(proof) => proof,
        Err(error) => return Ok(format!(in alloc; "{error:?}")?),
    };
    let (counts, nodes) = proof.to_flat()?;
    if RangeProof::from_flat(alloc, &counts, &nodes)? != proof {
        bail!("another proof");
    }
    let is_same = proof.to_json(alloc)?.to_string(alloc)?.as_str() == text;
    let told = if is_same {
        "the same text"
    } else {
        "another text"
    };
    Ok(String::from_str(alloc, told)?)
}

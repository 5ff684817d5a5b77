//! Calls on hashes.

use crate::read::{bytes, hash, number, quoted};
use crate::told::told;
use anyhow::{Context, Result, bail};
use serde_json::Value;
use std::alloc::{AllocError, Global};
use std::fmt::Write;
use xet_hash::data_hash::{DataHash, compute_internal_node_hash};

/// Makes a call on hashes. Returns `None` if there is none of this name.
pub fn answer(alloc: Global, name: &str, arguments: &str) -> Result<Option<String>> {
    if let Some(divisor) = arguments.strip_prefix("% ") {
        return Ok(Some(remainder(alloc, name, divisor)?));
    }
    let text = match name {
        "random_from_seed" => hex(alloc, &DataHash::random_from_seed(number(arguments)?))?,
        "compute_internal_node_hash" => internal_node_hash(alloc, arguments)?,
        "hex" => hash(arguments)?.hex(alloc)?,
        "base64" => hash(arguments)?.base64(alloc)?,
        "as_bytes" => numbers(alloc, &hash(arguments)?.as_bytes())?,
        "to_vec" => numbers(alloc, &hash(arguments)?.to_vec(alloc)?)?,
        "from_slice" => told(alloc, DataHash::from_slice(&bytes(alloc, arguments)?))?,
        "try_from" => tried(alloc, &bytes(alloc, arguments)?)?,
        "from_hex" => told(
            alloc,
            DataHash::from_hex(quoted(alloc, arguments)?.as_str()),
        )?,
        "from_base64" => from_base64(alloc, arguments)?,
        "DataHash::to_json" => hash(arguments)?.to_json(alloc)?.to_string(alloc)?,
        "DataHash::from_json" => from_json(alloc, arguments)?,
        "compare" => compared(alloc, arguments)?,
        "hmac" => hmac(alloc, arguments)?,
        _ => return Ok(None),
    };
    Ok(Some(text))
}

// Returns the hex text of a hash.
fn hex(alloc: Global, hash: &DataHash) -> Result<String, AllocError> {
    hash.hex(alloc)
}

// Returns bytes as decimal numbers.
fn numbers(alloc: Global, bytes: &[u8]) -> Result<String, AllocError> {
    let mut text = String::new(alloc);
    for byte in bytes {
        if !text.is_empty() {
            text.push(' ')?;
        }
        write!(text, "{byte}")?;
    }
    Ok(text)
}

// Returns the hash of an inner node's text, and how many bytes the text has.
fn internal_node_hash(alloc: Global, arguments: &str) -> Result<String> {
    let text = bytes(alloc, arguments)?;
    let (hash, len) = (compute_internal_node_hash(&text), text.len());
    Ok(format!(in alloc; "{hash}, of {len} bytes")?)
}

fn tried(alloc: Global, bytes: &[u8]) -> Result<String, AllocError> {
    told(alloc, DataHash::try_from(bytes))
}

fn from_base64(alloc: Global, arguments: &str) -> Result<String> {
    let text = quoted(alloc, arguments)?;
    Ok(told(alloc, DataHash::from_base64(alloc, text.as_str()))?)
}

fn from_json(alloc: Global, arguments: &str) -> Result<String> {
    let value = Value::from_str(alloc, arguments)?;
    Ok(told(alloc, DataHash::from_json(&value))?)
}

// Returns the order of two hashes.
fn compared(alloc: Global, arguments: &str) -> Result<String> {
    let (left, right) = arguments.split_once(" with ").context("no second hash")?;
    let order = hash(left)?.cmp(&hash(right)?);
    Ok(format!(in alloc; "{order:?}")?)
}

fn hmac(alloc: Global, arguments: &str) -> Result<String> {
    let (message, key) = arguments.split_once(" under ").context("no key")?;
    Ok(hex(alloc, &hash(message)?.hmac(hash(key)?))?)
}

// Returns what a hash leaves on division. 0 is no divisor.
fn remainder(alloc: Global, name: &str, divisor: &str) -> Result<String> {
    let divisor = number(divisor)?;
    if divisor == 0 {
        bail!("no divisor");
    }
    Ok((hash(name)? % divisor).to_string(alloc)?)
}

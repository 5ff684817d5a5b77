//! Roots and file hashes of lists, and stable points.

use crate::read::{hash, list};
use crate::told::{found, told};
use anyhow::{Context, Result};
use std::alloc::Global;
use xet_merkle::aggregated_hashes::{file_hash, file_hash_with_salt, xorb_hash};
use xet_merkle::merkle_hash_subtree::{find_stable_end, find_stable_start};

/// Makes a call on a list of chunks. Returns `None` if there is none of this name.
pub fn answer(alloc: Global, name: &str, arguments: &str) -> Result<Option<String>> {
    let text = match name {
        "xorb_hash" => told(alloc, xorb_hash(alloc, &list(alloc, arguments)?))?,
        "file_hash" => told(alloc, file_hash(alloc, &list(alloc, arguments)?))?,
        "file_hash_with_salt" => salted(alloc, arguments)?,
        "find_stable_start" => found(alloc, find_stable_start(&list(alloc, arguments)?))?,
        "find_stable_end" => found(alloc, find_stable_end(&list(alloc, arguments)?))?,
        _ => return Ok(None),
    };
    Ok(Some(text))
}

fn salted(alloc: Global, arguments: &str) -> Result<String> {
    let (salt, chunks) = arguments.split_once(" of ").context("no list")?;
    let salt = hash(salt)?.as_bytes();
    Ok(told(
        alloc,
        file_hash_with_salt(alloc, &list(alloc, chunks)?, &salt),
    )?)
}

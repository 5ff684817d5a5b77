//! Calls on hash trees: where chunks are, the hashes of their list, and what two lists have in common.

use crate::read::{list, number, range_of_list};
use anyhow::{Context, Result};
use range_proof::HashTree;
use std::alloc::Global;

/// Makes a call. Returns `None` if there is none of this name.
pub fn answer(alloc: Global, name: &str, arguments: &str) -> Result<Option<String>> {
    let text = match name {
        "chunks_at" => chunks_at(alloc, arguments)?,
        "bytes_of" => bytes_of(alloc, arguments)?,
        "tree_hashes" => hashes(alloc, arguments)?,
        "common_prefix" => common_prefix(alloc, arguments)?,
        "common_suffix" => common_suffix(alloc, arguments)?,
        _ => return Ok(None),
    };
    Ok(Some(text))
}

// Returns two numbers, or `none`.
fn told_pair(alloc: Global, pair: Option<(u64, u64)>) -> Result<String> {
    match pair {
        Some((first, end)) => Ok(format!(in alloc; "{first} {end}")?),
        None => Ok(String::from_str(alloc, "none")?),
    }
}

fn chunks_at(alloc: Global, arguments: &str) -> Result<String> {
    let ((from, to), chunks) = range_of_list(alloc, arguments)?;
    let range = HashTree::from_chunks(alloc, &chunks)?.chunks_at(from, to);
    told_pair(alloc, range.map(|(first, end)| (first as u64, end as u64)))
}

fn bytes_of(alloc: Global, arguments: &str) -> Result<String> {
    let ((first, end), chunks) = range_of_list(alloc, arguments)?;
    let tree = HashTree::from_chunks(alloc, &chunks)?;
    told_pair(alloc, tree.bytes_of(first as usize, end as usize))
}

// Returns the root and the file hash without a salt that a tree gives, and the size of the file.
fn hashes(alloc: Global, arguments: &str) -> Result<String> {
    let tree = HashTree::from_chunks(alloc, &list(alloc, arguments)?)?;
    let (root, file_hash) = (tree.root(), tree.file_hash(&[0; 32]));
    Ok(format!(in alloc; "{root} {file_hash} {}", tree.total_size())?)
}

// Reads two lists of chunks with `with` between them, and returns the tree of each.
fn two_trees(alloc: Global, text: &str) -> Result<(HashTree, HashTree)> {
    let (first, second) = text.split_once(" with ").context("no second list")?;
    let first = HashTree::from_chunks(alloc, &list(alloc, first)?)?;
    let second = HashTree::from_chunks(alloc, &list(alloc, second)?)?;
    Ok((first, second))
}

fn common_prefix(alloc: Global, arguments: &str) -> Result<String> {
    let (first, second) = two_trees(alloc, arguments)?;
    Ok(first.common_prefix(&second).to_string(alloc)?)
}

// The first number is how many chunks are counted at most.
fn common_suffix(alloc: Global, arguments: &str) -> Result<String> {
    let (most, lists) = arguments.split_once(" of ").context("no lists")?;
    let (first, second) = two_trees(alloc, lists)?;
    let count = first.common_suffix(&second, number(most)? as usize);
    Ok(count.to_string(alloc)?)
}

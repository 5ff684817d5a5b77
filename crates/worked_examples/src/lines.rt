//! The lines of worked examples. A line is a call, an arrow, and what the call returns. Lines that begin with `#`, and
//! empty ones, are headings and comments.

use crate::{
    cuts, groups, hash_trees, hashes, indexes, maps, merges, messages, openings, programs,
    range_proofs, roots, sessions, subtrees,
};
use anyhow::{Context, Result};
use std::alloc::{AllocError, Global};

/// Returns a text of examples, with what its calls returned in the place of its answers.
pub fn answered(alloc: Global, text: &str) -> Result<String, AllocError> {
    let mut printed = String::new(alloc);
    for line in text.lines() {
        printed.push_str(answered_line(alloc, line)?.as_str())?;
        printed.push('\n')?;
    }
    Ok(printed)
}

// Returns a line with what its call returned. If that is what the line says, and for a comment, it is the same line.
fn answered_line(alloc: Global, line: &str) -> Result<String, AllocError> {
    if line.is_empty() || line.starts_with('#') {
        return String::from_str(alloc, line);
    }
    let (call, said) = line.split_once(" -> ").unwrap_or((line, "nothing"));
    match answer(alloc, call) {
        Ok(answer) if answer.as_str() == said => String::from_str(alloc, line),
        Ok(answer) => format!(in alloc; "{call} -> {answer}, and not {said}"),
        Err(_) => format!(in alloc; "{call} -> not understood"),
    }
}

// Makes a call, and returns what it returned. Fails if it can't read the call, or if an allocation fails.
fn answer(alloc: Global, call: &str) -> Result<String> {
    let (name, arguments) = call.split_once(' ').unwrap_or((call, ""));
    if let Some(text) = answer_on_values(alloc, name, arguments)? {
        return Ok(text);
    }
    if let Some(text) = answer_on_proofs(alloc, name, arguments)? {
        return Ok(text);
    }
    answer_on_lists(alloc, name, arguments)?.context("no such call")
}

// Makes a call on messages, hashes, maps, indexes, sessions or the programs.
fn answer_on_values(alloc: Global, name: &str, arguments: &str) -> Result<Option<String>> {
    if let Some(text) = cuts::answer(alloc, name, arguments)? {
        return Ok(Some(text));
    }
    if let Some(text) = messages::answer(alloc, name, arguments)? {
        return Ok(Some(text));
    }
    if let Some(text) = hashes::answer(alloc, name, arguments)? {
        return Ok(Some(text));
    }
    if let Some(text) = maps::answer(alloc, name, arguments)? {
        return Ok(Some(text));
    }
    if let Some(text) = indexes::answer(alloc, name, arguments)? {
        return Ok(Some(text));
    }
    if let Some(text) = sessions::answer(alloc, name, arguments)? {
        return Ok(Some(text));
    }
    programs::answer(alloc, name, arguments)
}

// Makes a call on lists of chunks, groups or ranges.
fn answer_on_lists(alloc: Global, name: &str, arguments: &str) -> Result<Option<String>> {
    if let Some(text) = roots::answer(alloc, name, arguments)? {
        return Ok(Some(text));
    }
    if let Some(text) = groups::answer(alloc, name, arguments)? {
        return Ok(Some(text));
    }
    if let Some(text) = subtrees::answer(alloc, name, arguments)? {
        return Ok(Some(text));
    }
    merges::answer(alloc, name, arguments)
}

// Makes a call on range proofs or hash trees.
fn answer_on_proofs(alloc: Global, name: &str, arguments: &str) -> Result<Option<String>> {
    if let Some(text) = range_proofs::answer(alloc, name, arguments)? {
        return Ok(Some(text));
    }
    if let Some(text) = openings::answer(alloc, name, arguments)? {
        return Ok(Some(text));
    }
    hash_trees::answer(alloc, name, arguments)
}

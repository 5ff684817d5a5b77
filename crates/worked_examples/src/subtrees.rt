//! Calls on subtrees: making and copying them, and their JSON form.

use crate::ranges::{SaidRange, merged, range, subtree, told_subtree};
use crate::told::found;
use anyhow::{Context, Result};
use json_text::reading::read;
use std::alloc::Global;
use std::fmt::Write;
use xet_merkle::CoreError;
use xet_merkle::aggregated_hashes::Node;
use xet_merkle::merkle_hash_subtree::MerkleHashSubtree;

/// Makes a call on a subtree. Returns `None` if there is none of this name.
pub fn answer(alloc: Global, name: &str, arguments: &str) -> Result<Option<String>> {
    let text = match name {
        "from_chunks" => made(alloc, arguments)?,
        "from_flat" => made(alloc, arguments)?,
        "try_clone" => copied(alloc, arguments)?,
        "final_hash" => found(alloc, of(alloc, arguments)?.final_hash())?,
        "total_size" => of(alloc, arguments)?.total_size().to_string(alloc)?,
        "left" => side(alloc, arguments, false)?,
        "right" => side(alloc, arguments, true)?,
        "to_json" => json(alloc, &merged(alloc, arguments)?)?,
        "from_json" => from_json(alloc, arguments)?,
        "json_fronts" => fronts(alloc, arguments)?,
        _ => return Ok(None),
    };
    Ok(Some(text))
}

// Returns the subtree of a range.
fn of(alloc: Global, arguments: &str) -> Result<MerkleHashSubtree> {
    Ok(subtree(alloc, &range(alloc, arguments)?)?)
}

/// Returns what a subtree keeps, or the name of an error.
pub fn told_outcome(
    alloc: Global,
    outcome: Result<MerkleHashSubtree, CoreError>,
) -> Result<String> {
    match outcome {
        Ok(subtree) => told_subtree(alloc, &subtree),
        Err(error) => Ok(format!(in alloc; "{error:?}")?),
    }
}

fn made(alloc: Global, arguments: &str) -> Result<String> {
    told_outcome(alloc, subtree(alloc, &range(alloc, arguments)?))
}

// Returns whether a copy is equal.
fn copied(alloc: Global, arguments: &str) -> Result<String> {
    let subtree = of(alloc, arguments)?;
    let is_equal = subtree.try_clone()? == subtree;
    Ok(String::from_str(alloc, if is_equal { "equal" } else { "other" })?)
}

// Returns the hashes and sizes of the nodes on a side of a level.
fn side(alloc: Global, arguments: &str, is_right: bool) -> Result<String> {
    let (level, range) = arguments.split_once(" of ").context("no range")?;
    let (level, subtree) = (level.parse()?, of(alloc, range)?);
    let nodes = if is_right {
        subtree.right(level)
    } else {
        subtree.left(level)
    };
    told_nodes(alloc, nodes)
}

// Returns nodes as a list.
fn told_nodes(alloc: Global, nodes: &[Node]) -> Result<String> {
    let mut text = String::new(alloc);
    for (hash, size) in nodes {
        if !text.is_empty() {
            text.push(' ')?;
        }
        write!(text, "{hash}:{size}")?;
    }
    if text.is_empty() {
        text.push_str("none")?;
    }
    Ok(text)
}

/// Returns the JSON text of a subtree.
pub fn json(alloc: Global, subtree: &MerkleHashSubtree) -> Result<String> {
    Ok(subtree.to_json(alloc)?.to_string(alloc)?)
}

// Reads a subtree from a JSON text, or from the JSON form of a range that is said by its levels.
fn from_json(alloc: Global, arguments: &str) -> Result<String> {
    if arguments == "null" || !arguments.starts_with(|letter: char| letter.is_ascii_lowercase()) {
        return read_again(alloc, arguments);
    }
    let text = text_of(alloc, &range(alloc, arguments)?)?;
    read_again(alloc, text.as_str())
}

// Reads a subtree from a JSON text, and says whether `to_json` gives the same text.
fn read_again(alloc: Global, text: &str) -> Result<String> {
    let value = match read(alloc, text.as_bytes()) {
        Ok(value) => value,
        Err(_) => return Ok(String::from_str(alloc, "no JSON text")?),
    };
    match MerkleHashSubtree::from_json(alloc, &value) {
        Ok(subtree) => {
            let told = told_subtree(alloc, &subtree)?;
            let is_same = json(alloc, &subtree)?.as_str() == text;
            let end = if is_same {
                ", the same text"
            } else {
                ", another text"
            };
            Ok(format!(in alloc; "{told}{end}")?)
        }
        Err(error) => Ok(format!(in alloc; "{error:?}")?),
    }
}

// Returns the JSON text of the marks, the levels and the nodes of a range, whatever rules they break.
fn text_of(alloc: Global, range: &SaidRange) -> Result<String> {
    let SaidRange {
        at_start,
        at_end,
        counts,
        nodes,
    } = range;
    let mut text = format!(in alloc; "{{\"at_end\":{at_end},\"at_start\":{at_start},\"levels\":[")?;
    let counts = counts.as_ref().context("no levels")?;
    for (i, (left, right)) in counts.iter().enumerate() {
        let comma = if i == 0 { "" } else { "," };
        write!(text, "{comma}[{left},{right}]")?;
    }
    text.push_str("],\"nodes\":[")?;
    for (i, (hash, size)) in nodes.iter().enumerate() {
        let comma = if i == 0 { "" } else { "," };
        write!(text, "{comma}{{\"hash\":\"{hash}\",\"size\":{size}}}")?;
    }
    text.push_str("]}")?;
    Ok(text)
}

// Returns how many fronts of a text are JSON texts. The whole text isn't counted.
fn fronts(alloc: Global, text: &str) -> Result<String> {
    let mut count = 0u64;
    for (end, _) in text.char_indices() {
        let (front, _) = text.split_at_checked(end).context("no place in the text")?;
        if read(alloc, front.as_bytes()).is_ok() {
            count = count.saturating_add(1);
        }
    }
    Ok(count.to_string(alloc)?)
}

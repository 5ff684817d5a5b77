//! Ranges of chunks in the arguments of a call: their marks, and their chunks or their levels.

use crate::read::list;
use anyhow::{Context, Result, bail};
use std::alloc::Global;
use std::fmt::Write;
use xet_merkle::CoreError;
use xet_merkle::aggregated_hashes::Node;
use xet_merkle::merkle_hash_subtree::MerkleHashSubtree;

/// A range as a line says it.
#[derive(Drop)]
pub struct SaidRange {
    pub at_start: bool,
    pub at_end: bool,
    /// The numbers of left and right nodes of each level, if the range is said by its levels.
    pub counts: Option<Vec<(usize, usize)>>,
    /// The chunks, or the nodes of all levels as in the JSON form.
    pub nodes: Vec<Node>,
}

/// Reads a range: a word for its marks, and a list of chunks. Instead of chunks it may have `levels`, the numbers of left
/// and right nodes of each level as `8+4 2+0`, `of` and the list of all nodes.
pub fn range(alloc: Global, text: &str) -> Result<SaidRange> {
    let (marks, nodes) = text.split_once(' ').context("no chunks")?;
    let (at_start, at_end) = marks_of(marks)?;
    let (counts, nodes) = match nodes.strip_prefix("levels ") {
        Some(levels) => {
            let (counts, nodes) = levels.split_once(" of ").context("no nodes")?;
            (Some(read_counts(alloc, counts)?), nodes)
        }
        None => (None, nodes),
    };
    Ok(SaidRange {
        at_start,
        at_end,
        counts,
        nodes: list(alloc, nodes)?,
    })
}

// Returns whether a range with these marks is at the start and at the end of a file.
fn marks_of(word: &str) -> Result<(bool, bool)> {
    match word {
        "open" => Ok((false, false)),
        "start" => Ok((true, false)),
        "end" => Ok((false, true)),
        "closed" => Ok((true, true)),
        _ => bail!("no marks"),
    }
}

// Reads the numbers of left and right nodes of each level.
fn read_counts(alloc: Global, text: &str) -> Result<Vec<(usize, usize)>> {
    let mut counts = Vec::new(alloc);
    if text == "none" {
        return Ok(counts);
    }
    for word in text.split_whitespace() {
        let (left, right) = word.split_once('+').context("no two counts")?;
        counts.push((left.parse()?, right.parse()?))?;
    }
    Ok(counts)
}

/// Reads ranges with ` + ` between them.
pub fn ranges(alloc: Global, text: &str) -> Result<Vec<SaidRange>> {
    let mut ranges = Vec::new(alloc);
    for part in text.split(" + ") {
        ranges.push(range(alloc, part)?)?;
    }
    Ok(ranges)
}

/// Makes the subtree of a range.
pub fn subtree(alloc: Global, range: &SaidRange) -> Result<MerkleHashSubtree, CoreError> {
    match &range.counts {
        None => MerkleHashSubtree::from_chunks(alloc, range.at_start, &range.nodes, range.at_end),
        Some(counts) => {
            let (counts, nodes) = (counts.clone()?, range.nodes.clone()?);
            MerkleHashSubtree::from_flat(alloc, range.at_start, counts, nodes, range.at_end)
        }
    }
}

/// Reads ranges with ` + ` between them, and returns what they are merged to, from the left.
pub fn merged(alloc: Global, text: &str) -> Result<MerkleHashSubtree> {
    let mut merged: Option<MerkleHashSubtree> = None;
    for part in text.split(" + ") {
        let next = subtree(alloc, &range(alloc, part)?)?;
        merged = match merged {
            None => Some(next),
            Some(front) => Some(joined(front, &next)?),
        };
    }
    merged.context("no range")
}

// Returns what two ranges are merged to.
fn joined(
    front: MerkleHashSubtree,
    back: &MerkleHashSubtree,
) -> Result<MerkleHashSubtree, CoreError> {
    let mut front = front;
    front.merge_into(back)?;
    Ok(front)
}

/// Returns the subtree that `from_chunks` makes of the chunks of all ranges, under the first start mark and the last end
/// mark.
pub fn whole(alloc: Global, ranges: &[SaidRange]) -> Result<MerkleHashSubtree, CoreError> {
    let mut chunks = Vec::new(alloc);
    let (mut at_start, mut at_end) = (true, true);
    for (i, range) in ranges.iter().enumerate() {
        if i == 0 {
            at_start = range.at_start;
        }
        at_end = range.at_end;
        chunks.extend_from_slice(&range.nodes)?;
    }
    MerkleHashSubtree::from_chunks(alloc, at_start, &chunks, at_end)
}

// Returns the word for a number of things.
fn word(count: usize) -> &'static str {
    if count == 1 { "node" } else { "nodes" }
}

/// Returns the numbers of left and right nodes of each level, the number of all nodes, and the root if there is one.
pub fn told_subtree(alloc: Global, subtree: &MerkleHashSubtree) -> Result<String> {
    let mut text = String::from_str(alloc, "levels")?;
    for level in 0..subtree.num_levels() {
        let (left, right) = (subtree.left(level).len(), subtree.right(level).len());
        write!(text, " {left}+{right}")?;
    }
    let count = subtree.num_nodes();
    write!(text, ", {count} {}", word(count))?;
    if let Some(root) = subtree.final_hash() {
        write!(text, ", final_hash {root}")?;
    }
    Ok(text)
}

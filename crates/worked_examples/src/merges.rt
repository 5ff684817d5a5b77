//! Calls that merge ranges.

ghost use Rattle.std.specs.Prelude.{◌≡◌, [], ◌∷◌, length};

use crate::ranges::{SaidRange, merged, range, ranges, subtree, told_subtree, whole};
use crate::subtrees::{json, told_outcome};
use anyhow::{Context, Result};
use std::alloc::Global;
use xet_hash::data_hash::MerkleHash;
use xet_merkle::CoreError;
use xet_merkle::aggregated_hashes::Node;
use xet_merkle::chunk_range::ChunkRange;
use xet_merkle::merkle_hash_subtree::{MergeTree, MerkleHashSubtree, ParentMaker};

/// Makes a call that merges ranges. Returns `None` if there is none of this name.
pub fn answer(alloc: Global, name: &str, arguments: &str) -> Result<Option<String>> {
    let text = match name {
        "merge_into" => merge_into(alloc, arguments)?,
        "merge_into_counted" => merge_counted(alloc, arguments)?,
        "merge_into_by_length" => merge_by_length(alloc, arguments)?,
        "merge" => merge(alloc, arguments)?,
        "MergeTree::run" => run(alloc, arguments)?,
        _ => return Ok(None),
    };
    Ok(Some(text))
}

// Returns what the ranges before and after `with` are merged to.
fn operands(alloc: Global, arguments: &str) -> Result<(MerkleHashSubtree, MerkleHashSubtree)> {
    let (front, back) = arguments.split_once(" with ").context("no second range")?;
    Ok((merged(alloc, front)?, merged(alloc, back)?))
}

// Returns whether a subtree is the one that `from_chunks` makes of the chunks of all ranges, in words.
fn compared(alloc: Global, arguments: &str, subtree: &MerkleHashSubtree) -> Result<&'static str> {
    let all = arguments.replace(alloc, " with ", " + ")?;
    let all = all
        .as_str()
        .replace(alloc, "(", "")?
        .as_str()
        .replace(alloc, ")", "")?;
    let whole = whole(alloc, &ranges(alloc, all.as_str())?)?;
    let is_equal = whole == *subtree && json(alloc, &whole)? == json(alloc, subtree)?;
    Ok(if is_equal {
        ", as from_chunks of all"
    } else {
        ""
    })
}

// Returns the name of an error, and whether a subtree is unchanged.
fn refused(
    alloc: Global,
    error: CoreError,
    old: &MerkleHashSubtree,
    new: &MerkleHashSubtree,
) -> Result<String> {
    let end = if old == new { "unchanged" } else { "changed" };
    Ok(format!(in alloc; "{error:?}, self {end}")?)
}

fn merge_into(alloc: Global, arguments: &str) -> Result<String> {
    let (mut front, back) = operands(alloc, arguments)?;
    let old = front.try_clone()?;
    if let Err(error) = front.merge_into(&back) {
        return refused(alloc, error, &old, &front);
    }
    let (told, end) = (
        told_subtree(alloc, &front)?,
        compared(alloc, arguments, &front)?,
    );
    Ok(format!(in alloc; "{told}{end}")?)
}

// Returns what a merge gives, and how many parents it makes.
fn told_count(
    alloc: Global,
    arguments: &str,
    subtree: &MerkleHashSubtree,
    count: u128,
) -> Result<String> {
    let (told, end) = (
        told_subtree(alloc, subtree)?,
        compared(alloc, arguments, subtree)?,
    );
    let parents = if count == 1 { "parent" } else { "parents" };
    Ok(format!(in alloc; "{count} {parents}, {told}{end}")?)
}

fn merge_counted(alloc: Global, arguments: &str) -> Result<String> {
    let (mut front, back) = operands(alloc, arguments)?;
    let old = front.try_clone()?;
    match front.merge_into_counted(&back) {
        Ok(count) => told_count(alloc, arguments, &front, count),
        Err(error) => refused(alloc, error, &old, &front),
    }
}

// Gives a group a hash that depends only on its length.
#[derive(Drop)]
struct LengthHashes {
    made: u128,
}

impl ParentMaker for LengthHashes {
    ghost hash_of = { λ group. length group ∷ 0 ∷ 0 ∷ 1 ∷ [] };

    ghost count = { λ hashes. hashes.made };

    fn make(&mut self, group: &[Node]) -> MerkleHash {
        self.made += 1;
        MerkleHash::from([group.len() as u64, 0, 0, 1])
    }

    fn made(&self) -> u128 {
        self.made
    }
}

fn merge_by_length(alloc: Global, arguments: &str) -> Result<String> {
    let (mut front, back) = operands(alloc, arguments)?;
    let maker = front.merge_into_by(&back, LengthHashes { made: 0 })?;
    told_count(alloc, arguments, &front, maker.made())
}

// Returns the subtrees of ranges.
fn subtrees(alloc: Global, ranges: &[SaidRange]) -> Result<Vec<MerkleHashSubtree>> {
    let mut made = Vec::new(alloc);
    for range in ranges {
        made.push(subtree(alloc, range)?)?;
    }
    Ok(made)
}

// Merges a list of ranges.
fn merge(alloc: Global, arguments: &str) -> Result<String> {
    if arguments == "no ranges" {
        return told_outcome(alloc, MerkleHashSubtree::merge(alloc, &[]));
    }
    let subtrees = subtrees(alloc, &ranges(alloc, arguments)?)?;
    match MerkleHashSubtree::merge(alloc, &subtrees) {
        Ok(merged) => {
            let (told, end) = (
                told_subtree(alloc, &merged)?,
                compared(alloc, arguments, &merged)?,
            );
            Ok(format!(in alloc; "{told}{end}")?)
        }
        Err(error) => Ok(format!(in alloc; "{error:?}")?),
    }
}

// Merges ranges as parentheses say.
fn run(alloc: Global, arguments: &str) -> Result<String> {
    match tree(alloc, arguments)?.run() {
        Ok(merged) => {
            let (told, end) = (
                told_subtree(alloc, &merged)?,
                compared(alloc, arguments, &merged)?,
            );
            Ok(format!(in alloc; "{told}{end}")?)
        }
        Err(error) => Ok(format!(in alloc; "{error:?}")?),
    }
}

// Reads a bracketing. Each merge of two has parentheses around it, but not the outermost one.
fn tree(alloc: Global, text: &str) -> Result<MergeTree<MerkleHashSubtree>> {
    let mut trees: Vec<MergeTree<MerkleHashSubtree>> = Vec::new(alloc);
    for part in text.split(" + ") {
        let leaf = part.trim_start_matches('(');
        let (leaf, merges) = match leaf.split_once(')') {
            Some((leaf, others)) => (leaf, others.len().saturating_add(1)),
            None => (leaf, 0),
        };
        trees.push(MergeTree::Leaf(subtree(alloc, &range(alloc, leaf)?)?))?;
        for _ in 0..merges {
            merge_last(alloc, &mut trees)?;
        }
    }
    if trees.len() > 1 {
        merge_last(alloc, &mut trees)?;
    }
    trees.pop().context("no tree")
}

// Merges the last two trees.
fn merge_last<R: ChunkRange>(alloc: Global, trees: &mut Vec<MergeTree<R>>) -> Result<()> {
    let back = trees.pop().context("no tree")?;
    let front = trees.pop().context("no second tree")?;
    trees.push(MergeTree::Join(Box::new(alloc, front)?, Box::new(alloc, back)?))?;
    Ok(())
}

//! The groups of a list, as a maker of parents sees them.

ghost use Rattle.std.specs.Prelude.{◌≡◌};
ghost use Rattle.xet_merkle.specs.Roots.{parent_hash};

use crate::read::list;
use anyhow::Result;
use std::alloc::{AllocError, Global};
use std::fmt::Write;
use xet_hash::data_hash::MerkleHash;
use xet_merkle::CoreError;
use xet_merkle::aggregated_hashes::Node;
use xet_merkle::merkle_hash_subtree::{MerkleHashSubtree, ParentMaker};
use xet_merkle::parent_maker::ParentHashes;

// How many nodes a group has, and the hash of its parent.
type Group = (usize, MerkleHash);

// The maker of the hashes of the format. It keeps what it saw of each group.
#[derive(Drop)]
struct SeenGroups {
    hashes: ParentHashes,
    seen: Vec<Group>,
}

impl ParentMaker for SeenGroups {
    ghost hash_of = { parent_hash };

    ghost count = { λ groups. groups.hashes };

    fn make(&mut self, group: &[Node]) -> MerkleHash {
        let hash = self.hashes.make(group);
        // A group that there is no memory for is missing in the answer.
        let _ = self.seen.push((group.len(), hash));
        hash
    }

    fn made(&self) -> u128 {
        self.hashes.made()
    }
}

/// Makes a call on the groups of a list. Returns `None` if there is none of this name.
pub fn answer(alloc: Global, name: &str, arguments: &str) -> Result<Option<String>> {
    let text = match name {
        "groups" => told_lengths(alloc, &first_groups(alloc, &list(alloc, arguments)?)?)?,
        "parents" => told_parents(alloc, &first_groups(alloc, &list(alloc, arguments)?)?)?,
        _ => return Ok(None),
    };
    Ok(Some(text))
}

// Merges some chunks into a range, and appends the groups that this makes parents of.
fn merge_chunks(
    alloc: Global,
    range: &mut MerkleHashSubtree,
    chunks: &[Node],
    at_end: bool,
    seen: Vec<Group>,
) -> Result<Vec<Group>, CoreError> {
    let back = MerkleHashSubtree::from_chunks(alloc, false, chunks, at_end)?;
    let maker = SeenGroups {
        hashes: ParentHashes::new(),
        seen,
    };
    let SeenGroups { hashes: _, seen } = range.merge_into_by(&back, maker)?;
    Ok(seen)
}

// Returns the groups that are made parents of while chunks are merged one after another into the range from a file's
// start to its end.
fn all_groups(alloc: Global, chunks: &[Node]) -> Result<Vec<Group>, CoreError> {
    let mut range = MerkleHashSubtree::from_chunks(alloc, true, &[], false)?;
    let mut seen = Vec::new(alloc);
    for chunk in chunks {
        seen = merge_chunks(alloc, &mut range, &[*chunk], false, seen)?;
    }
    merge_chunks(alloc, &mut range, &[], true, seen)
}

// Returns the groups of a list of chunks, without those of their parents. It takes the first ones that have as many
// chunks together as the list. That is right if no parents are grouped before the last chunks are.
fn first_groups(alloc: Global, chunks: &[Node]) -> Result<Vec<Group>, CoreError> {
    let mut groups = Vec::new(alloc);
    let mut rest = chunks.len();
    for (len, parent) in &all_groups(alloc, chunks)? {
        if rest == 0 {
            break;
        }
        groups.push((*len, *parent))?;
        rest = rest.saturating_sub(*len);
    }
    Ok(groups)
}

// Returns the lengths of groups. Equal neighbours are counted.
fn told_lengths(alloc: Global, groups: &[Group]) -> Result<String, AllocError> {
    let mut text = String::new(alloc);
    let (mut count, mut previous) = (0u64, 0);
    for (len, _) in groups {
        if *len != previous {
            push_lengths(&mut text, count, previous)?;
            count = 0;
            previous = *len;
        }
        count = count.saturating_add(1);
    }
    push_lengths(&mut text, count, previous)?;
    Ok(text)
}

// Appends the number of some groups of one length, if there is one.
fn push_lengths(text: &mut String, count: u64, len: usize) -> Result<(), AllocError> {
    if count == 0 {
        return Ok(());
    }
    let comma = if text.is_empty() { "" } else { ", " };
    write!(text, "{comma}{count} of {len}")
}

// Returns the hashes of the parents of groups.
fn told_parents(alloc: Global, groups: &[Group]) -> Result<String, AllocError> {
    let mut text = String::new(alloc);
    for (_, parent) in groups {
        let comma = if text.is_empty() { "" } else { ", " };
        write!(text, "{comma}{parent}")?;
    }
    Ok(text)
}

//! Trees of merges by their bracketings.

use crate::{EACH_FOURTH, with_cuts};
use std::alloc::{AllocError, Global};
use xet_merkle::CoreError;
use xet_merkle::aggregated_hashes::Node;
use xet_merkle::chunk_range::ChunkRange;
use xet_merkle::merge_tree::MergeTree;

/// The five bracketings of four ranges, and how deep their merges go.
pub const BRACKETINGS: [(&str, u32); 5] = [
    ("..+.+.+", 3),
    ("...++.+", 3),
    ("..+..++", 2),
    ("...+.++", 3),
    ("....+++", 3),
];

/// Returns the tree that merges two trees.
pub fn merge<R: ChunkRange>(
    alloc: Global,
    front: MergeTree<R>,
    back: MergeTree<R>,
) -> Result<MergeTree<R>, AllocError> {
    Ok(MergeTree::Join(Box::new(alloc, front)?, Box::new(alloc, back)?))
}

/// Returns the tree of a bracketing. A point is the next range, and a plus merges the last two trees.
pub fn tree<R: ChunkRange>(
    alloc: Global,
    bracketing: &str,
    ranges: Vec<R>,
) -> Result<Option<MergeTree<R>>, AllocError> {
    let mut ranges = ranges.into_iter();
    let mut trees: Vec<MergeTree<R>> = Vec::new(alloc);
    for step in bracketing.bytes() {
        if step == b'.' {
            let Some(range) = ranges.next() else {
                return Ok(None);
            };
            trees.push(MergeTree::Leaf(range))?;
        } else {
            let (Some(back), Some(front)) = (trees.pop(), trees.pop()) else {
                return Ok(None);
            };
            trees.push(merge(alloc, front, back)?)?;
        }
    }
    Ok(trees.pop())
}

/// Returns four ranges of 28 nodes, each fourth of which is a natural cut: the nodes 0 to 3, 4 to 23, 24 to 27, and
/// none. The first range is marked at its start, the last at its end.
pub fn four_ranges<R: ChunkRange<Alloc = Global>>(alloc: Global) -> Result<Vec<R>, CoreError> {
    let nodes = with_cuts::<28>(&EACH_FOURTH);
    let mut ranges = Vec::new(alloc);
    for (begin, end) in [(0, 4), (4, 24), (24, 28), (28, 28)] {
        let chunks = nodes.as_slice().get(begin..end).unwrap_or_default();
        ranges.push(R::from_chunks(alloc, begin == 0, chunks, begin == 28)?)?;
    }
    Ok(ranges)
}

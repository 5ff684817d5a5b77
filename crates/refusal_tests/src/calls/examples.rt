//! Worked examples over nodes of size 1, with the answers that they have.

use super::{Chunks, Outcome, Refusing, outcome_of};
use std::alloc::Global;
use std::process::Abort;
use test_support::texts::four_fields;
use test_support::trees::tree;
use test_support::{has_counts, told_nodes};
use xet_merkle::CoreError;
use xet_merkle::aggregated_hashes::{Node, xorb_hash};
use xet_merkle::chunk_range::ChunkRange;
use xet_merkle::merkle_hash_subtree::MerkleHashSubtree;
use xet_merkle::plain_range::PlainRange;

/// Each row has a call, a list with the marks of its ends, how the call makes the list's subtree, and the numbers of
/// left and right nodes of the subtree's levels. A list is merged at a place, which takes a number of parents, or as
/// four ranges with a bracketing. A subtree that is made may have a JSON text.
pub const EXAMPLES: &str =
    r#"make [] {"at_end":true,"at_start":true,"levels":[[0,0]],"nodes":[]} 0,0
make (.] - 1,0
make [.) - 1,0
make (.) - 1,0
make (...|...|...|...|...|) - 8,4 2,0
read (...|...|...|...|...|...|) - 8,4 3,0
merge (...|...|...|...|...|...|) 20:1 8,4 3,0
merge (...|...|...|...|...|...|) 4:1 8,4 3,0
merge [...|...|...|...|...|...|...|) 4:3 0,4 6,0
merge [...|...|...|...|...|...|...|] 28:4 0,0 0,0 0,0 1,0
run [...|...|...|...|...|...|...|] ..+.+.+ 0,0 0,0 0,0 1,0
run [...|...|...|...|...|...|...|] ...++.+ 0,0 0,0 0,0 1,0
run [...|...|...|...|...|...|...|] ..+..++ 0,0 0,0 0,0 1,0
run [...|...|...|...|...|...|...|] ...+.++ 0,0 0,0 0,0 1,0
run [...|...|...|...|...|...|...|] ....+++ 0,0 0,0 0,0 1,0
run-plain [...|...|...|...|...|...|...|] ..+.+.+ -
run-plain [...|...|...|...|...|...|...|] ...++.+ -
run-plain [...|...|...|...|...|...|...|] ..+..++ -
run-plain [...|...|...|...|...|...|...|] ...+.++ -
run-plain [...|...|...|...|...|...|...|] ....+++ -"#;

type Subtree<'a> = MerkleHashSubtree<&'a Refusing>;

type Plain<'a> = PlainRange<&'a Refusing>;

// Returns the subtree of some chunks, which another allocator makes.
fn plain_subtree(rt: &impl Abort, chunks: &Chunks<'_>) -> MerkleHashSubtree {
    let (alloc, nodes) = (chunks.alloc, chunks.nodes);
    MerkleHashSubtree::from_chunks(alloc, chunks.at_start, nodes, chunks.at_end).expect(
        rt,
        "a subtree",
    )
}

// Returns the JSON text of the subtree of some chunks, which another allocator makes.
fn json_of(rt: &impl Abort, chunks: &Chunks<'_>) -> String {
    let subtree = plain_subtree(rt, chunks);
    let value = subtree.to_json(chunks.alloc).expect(rt, "memory");
    value.to_string(chunks.alloc).expect(rt, "memory")
}

// Returns whether each level of a subtree has the numbers of left and right nodes of a text.
fn has_told_counts(rt: &impl Abort, memory: Global, subtree: &Subtree<'_>, text: &str) -> bool {
    let mut counts = Vec::new(memory);
    for word in text.split(' ') {
        let (left, right) = word.split_once(',').expect(rt, "two fields");
        let (left, right) = (
            left.parse().expect(rt, "a number"),
            right.parse().expect(rt, "a number"),
        );
        counts.push((left, right)).expect(rt, "memory");
    }
    has_counts(subtree, &counts)
}

// Returns whether a subtree is that of some chunks, and has the numbers of nodes of a text in its levels. It has a root
// if both ends are marked.
fn is_subtree(rt: &impl Abort, subtree: &Subtree<'_>, chunks: &Chunks<'_>, counts: &str) -> bool {
    let memory = chunks.alloc;
    let root = if chunks.at_start && chunks.at_end {
        Some(xorb_hash(memory, chunks.nodes).expect(rt, "a hash"))
    } else {
        None
    };
    let value = subtree.to_json(memory).expect(rt, "memory");
    let text = value.to_string(memory).expect(rt, "memory");
    let is_made = subtree.final_hash() == root && text == json_of(rt, chunks);
    is_made && has_told_counts(rt, memory, subtree, counts)
}

// Returns how a call ended that should return the subtree of some chunks, with these numbers of nodes.
fn outcome_of_subtree(
    rt: &impl Abort,
    alloc: &Refusing,
    found: Result<Subtree<'_>, CoreError>,
    chunks: &Chunks<'_>,
    counts: &str,
    is_same: bool,
) -> Outcome {
    match found {
        Ok(subtree) => {
            let is_right = is_subtree(rt, &subtree, chunks, counts);
            outcome_of(alloc, Ok(is_right), is_same)
        }
        Err(error) => outcome_of(alloc, Err(error), is_same),
    }
}

// Returns the range of some chunks.
fn range<'a, R: ChunkRange<Alloc = &'a Refusing>>(
    alloc: &'a Refusing,
    chunks: &Chunks<'_>,
) -> Result<R, CoreError> {
    R::from_chunks(alloc, chunks.at_start, chunks.nodes, chunks.at_end)
}

// Tries to make the subtree of some chunks, which has a JSON text or a dash.
fn make(
    rt: &impl Abort,
    alloc: &Refusing,
    granted: u32,
    chunks: &Chunks<'_>,
    counts: &str,
    json: &str,
) -> Outcome {
    let is_text = json == "-" || json_of(rt, chunks).as_str() == json;
    let before = chunks.nodes.to_vec(chunks.alloc).expect(rt, "memory");
    alloc.grant(granted);
    let made = range(alloc, chunks);
    let is_same = chunks.nodes == before.as_slice();
    let outcome = outcome_of_subtree(rt, alloc, made, chunks, counts, is_same);
    outcome.if_so(is_text)
}

// Tries to read the subtree of some chunks from its JSON value.
fn read(
    rt: &impl Abort,
    alloc: &Refusing,
    granted: u32,
    chunks: &Chunks<'_>,
    counts: &str,
) -> Outcome {
    let subtree = plain_subtree(rt, chunks);
    let value = subtree.to_json(chunks.alloc).expect(rt, "memory");
    let before = subtree.to_json(chunks.alloc).expect(rt, "memory");
    alloc.grant(granted);
    let found = MerkleHashSubtree::from_json(alloc, &value);
    outcome_of_subtree(rt, alloc, found, chunks, counts, value == before)
}

// Returns the subtrees of the chunks before a place and from it on. That of the latter is merged if there are more
// than 20.
fn parts<'a>(
    rt: &impl Abort,
    alloc: &'a Refusing,
    chunks: &Chunks<'_>,
    place: usize,
) -> (Subtree<'a>, Subtree<'a>) {
    let [first, rest] = chunks.split(place);
    let [second, third] = rest.split(20);
    let mut back: Subtree<'a> = range(alloc, &second).expect(rt, "a subtree");
    let third: Subtree<'a> = range(alloc, &third).expect(rt, "a subtree");
    back.merge_into(&third).expect(rt, "a merge");
    (range(alloc, &first).expect(rt, "a subtree"), back)
}

// Tries to merge the subtree of some chunks at a place, which takes a number of parents.
fn merge(
    rt: &impl Abort,
    alloc: &Refusing,
    granted: u32,
    chunks: &Chunks<'_>,
    counts: &str,
    how: &str,
) -> Outcome {
    let (place, count) = how.split_once(':').expect(rt, "two fields");
    let place = place.parse().expect(rt, "a place");
    let count = count.parse().expect(rt, "a number");
    let (front_before, back_before) = parts(rt, alloc, chunks, place);
    let (mut front, back) = parts(rt, alloc, chunks, place);
    alloc.grant(granted);
    match front.merge_into_counted(&back) {
        Ok(made) => {
            let is_right = back == back_before && made == count;
            outcome_of_subtree(rt, alloc, Ok(front), chunks, counts, true).if_so(is_right)
        }
        Err(error) => {
            let is_same = front == front_before && back == back_before;
            outcome_of(alloc, Err(error), is_same)
        }
    }
}

// Returns the ranges of the chunks 0 to 3, 4 to 23, 24 to 27, and of no chunks.
fn four_ranges<'a, R: ChunkRange<Alloc = &'a Refusing>>(
    rt: &impl Abort,
    alloc: &'a Refusing,
    chunks: &Chunks<'_>,
) -> Vec<R> {
    let mut ranges = Vec::new(chunks.alloc);
    let mut rest = *chunks;
    for length in [4, 20, 4] {
        let [front, back] = rest.split(length);
        let range = range(alloc, &front).expect(rt, "a range");
        ranges.push(range).expect(rt, "memory");
        rest = back;
    }
    let last = range(alloc, &rest).expect(rt, "a range");
    ranges.push(last).expect(rt, "memory");
    ranges
}

// Merges the four ranges of some chunks in the order of a bracketing.
fn run<'a, R: ChunkRange<Alloc = &'a Refusing>>(
    rt: &impl Abort,
    alloc: &'a Refusing,
    granted: u32,
    chunks: &Chunks<'_>,
    bracketing: &str,
) -> Result<R, CoreError> {
    let ranges = four_ranges(rt, alloc, chunks);
    let made = tree(chunks.alloc, bracketing, ranges).expect(rt, "memory");
    let tree = made.expect(rt, "a tree");
    alloc.grant(granted);
    tree.run()
}

// Returns how a call ended that should return a range of these chunks.
fn outcome_of_plain(
    alloc: &Refusing,
    found: Result<Plain<'_>, CoreError>,
    nodes: &[Node],
) -> Outcome {
    match found {
        Ok(range) => {
            let is_right = range.at_start() && range.at_end() && range.chunks() == nodes;
            outcome_of(alloc, Ok(is_right), true)
        }
        Err(error) => outcome_of(alloc, Err(error), true),
    }
}

/// Tries the call of an example.
pub fn attempt(
    rt: &impl Abort,
    alloc: &Refusing,
    granted: u32,
    memory: Global,
    row: &str,
) -> Outcome {
    let (call, list, how, counts) = four_fields(row, ' ').expect(rt, "four fields");
    let nodes = told_nodes(memory, list).expect(rt, "memory");
    let chunks = Chunks {
        alloc: memory,
        at_start: list.starts_with('['),
        nodes: &nodes,
        at_end: list.ends_with(']'),
    };
    match call {
        "make" => make(rt, alloc, granted, &chunks, counts, how),
        "read" => read(rt, alloc, granted, &chunks, counts),
        "merge" => merge(rt, alloc, granted, &chunks, counts, how),
        "run" => {
            let found: Result<Subtree<'_>, CoreError> = run(rt, alloc, granted, &chunks, how);
            outcome_of_subtree(rt, alloc, found, &chunks, counts, true)
        }
        _ => outcome_of_plain(alloc, run(rt, alloc, granted, &chunks, how), &nodes),
    }
}

//! Stable points, canonical subtrees and merging, mostly for random lists. Calls on given lists are in the worked examples.

mod boundaries;
mod drawn;
mod forged;
mod json;
mod json_rules;
mod levels;
mod merged_levels;
mod merging;
mod shapes;
mod texts;

use std::alloc::Global;
use std::process::Abort;
use test_support::{EACH_FOURTH, MARKS, read_json, with_cuts};
use xet_hash::data_hash::MerkleHash;
use xet_merkle::aggregated_hashes::{Node, xorb_hash};
use xet_merkle::chunk_range::ChunkRange;
use xet_merkle::merkle_hash_subtree::MerkleHashSubtree;
use xet_merkle::plain_range::PlainRange;

// Reads a subtree from a text.
fn read(rt: &impl Abort, alloc: Global, text: &str) -> MerkleHashSubtree {
    let read = read_json(alloc, text).expect(rt, "a JSON text");
    read.expect(rt, "a subtree")
}

// Returns the JSON text of a subtree.
fn written(rt: &impl Abort, alloc: Global, subtree: &MerkleHashSubtree) -> String {
    let json = subtree.to_json(alloc).expect(rt, "memory");
    json.to_string(alloc).expect(rt, "memory")
}

// Returns the final hash of the subtree of a list.
fn final_hash(
    rt: &impl Abort,
    alloc: Global,
    chunks: &[Node],
    (at_start, at_end): (bool, bool),
) -> Option<MerkleHash> {
    let subtree = MerkleHashSubtree::from_chunks(alloc, at_start, chunks, at_end);
    subtree.expect(rt, "a subtree").final_hash()
}

// Returns the root of the range of a list.
fn root<R: ChunkRange<Alloc = Global>>(
    rt: &impl Abort,
    alloc: Global,
    chunks: &[Node],
    (at_start, at_end): (bool, bool),
) -> Option<MerkleHash> {
    let range = R::from_chunks(alloc, at_start, chunks, at_end).expect(rt, "a range");
    range.root().expect(rt, "a root")
}

// Returns whether the subtree and both kinds of range of a list have a root, or none.
fn have_root(
    rt: &impl Abort,
    alloc: Global,
    chunks: &[Node],
    marks: (bool, bool),
    expected: Option<MerkleHash>,
) -> bool {
    final_hash(rt, alloc, chunks, marks) == expected
        && root::<MerkleHashSubtree>(rt, alloc, chunks, marks) == expected
        && root::<PlainRange>(rt, alloc, chunks, marks) == expected
}

#[test]
fn closed_ranges_have_the_root_of_their_list(rt: HostRuntime) {
    let nodes = with_cuts::<28>(&EACH_FOURTH);
    for chunks in [nodes.as_slice(), &nodes[..1], &[]] {
        let of_list = xorb_hash(rt.alloc(), chunks).expect(&rt, "a root");
        for marks in MARKS {
            let expected = (marks == (true, true)).then_some(of_list);
            assert!(rt;
                have_root(&rt, rt.alloc(), chunks, marks, expected),
                "{marks:?}"
            );
        }
    }
}

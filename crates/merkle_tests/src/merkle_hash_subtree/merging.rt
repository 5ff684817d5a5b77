//! Merges the subtrees of adjacent ranges: the roots of reference lists and of random lists that are split.

use rand_core::{Rng, SeedableRng};
use rand_xoshiro::Xoshiro256PlusPlus;
use std::alloc::Global;
use std::process::Abort;
use test_support::{EACH_FOURTH, drawn_lengths, drawn_list, ranges, reference_list, with_cuts};
use xet_hash::data_hash::{DataHash, MerkleHash};
use xet_merkle::aggregated_hashes::{Node, xorb_hash};
use xet_merkle::merkle_hash_subtree::{MerkleHashSubtree, find_stable_end, find_stable_start};

#[test]
fn ranges_are_merged_to_the_root_of_the_whole(rt: HostRuntime) {
    let alloc = rt.alloc();
    let all = with_cuts::<28>(&EACH_FOURTH);
    let (first, second) = all.split_at(11);
    let start = MerkleHashSubtree::from_chunks(alloc, true, first, false);
    let middle = MerkleHashSubtree::from_chunks(alloc, false, second, false);
    let end = MerkleHashSubtree::from_chunks(alloc, false, &[], true);
    let mut file = start.expect(&rt, "a subtree");
    file.merge_into(&middle.expect(&rt, "a subtree"))
        .expect(&rt, "a subtree");
    file.merge_into(&end.expect(&rt, "a subtree"))
        .expect(&rt, "a subtree");
    let root = xorb_hash(alloc, &all).expect(&rt, "a root");
    assert!(rt; file.final_hash() == Some(root));
}

// Each row has the numbers of a list's chunks and its root.
const REFERENCES: &str = "1,2,3 71ec1275fca074724e2dd666921b3277c7cee603e4d025bcab2d4050015be2bc
1,2,1,2,3,4 52c826f99507aa05d0b45e9837fa1709e0485425cfbcb1e80db3905cf98b3ee9
0,1,2,3,4,5,6,7 f62abe77e3fb9c954fe52b0028027ddc90c064c45951a4fd2211d87e5c0011db
0,1,2,3,4,5,6,7,1,1,1,1 e7fc30b73ec9930593f80fe777b334e9d3bb73e45e6a79fa5784b2603446158b
0,0,1,1,2,2,3,3,4,4,5,5,6,6,7,7 636c65db520ec16e8166f9ec7a0cf9f74b26369077ac60160ec0221c86bc9f77
";

// Returns the root of a closed list that is merged from ranges. They have the given lengths, and the last one has the
// nodes that are left.
fn merged_root(
    rt: &impl Abort,
    alloc: Global,
    nodes: &[Node],
    lengths: &[usize],
) -> Option<MerkleHash> {
    let ranges = ranges(alloc, nodes, lengths, (true, true)).expect(rt, "ranges");
    let merged = MerkleHashSubtree::merge(alloc, &ranges).expect(rt, "a subtree");
    merged.final_hash()
}

/// Returns whether a list merges to its root at some splits into two ranges. The first range has from `least` to `most`
/// nodes.
pub fn merges_at_splits(
    rt: &impl Abort,
    alloc: Global,
    nodes: &[Node],
    (least, most): (usize, usize),
) -> bool {
    let root = Some(xorb_hash(alloc, nodes).expect(rt, "a root"));
    for first in least..=most {
        if merged_root(rt, alloc, nodes, &[first]) != root {
            return false;
        }
    }
    true
}

// Returns whether a list merges to its root at each split into three ranges.
fn merges_at_each_two_splits(rt: &impl Abort, alloc: Global, nodes: &[Node]) -> bool {
    let root = Some(xorb_hash(alloc, nodes).expect(rt, "a root"));
    for first in 0..=nodes.len() {
        for second in 0..=nodes.len().saturating_sub(first) {
            if merged_root(rt, alloc, nodes, &[first, second]) != root {
                return false;
            }
        }
    }
    true
}

// Returns whether the list of a row has its root, and merges to it at each split.
fn merges_to_root(rt: &impl Abort, alloc: Global, row: &str) -> bool {
    let (numbers, root) = row.split_once(' ').expect(rt, "a root");
    let nodes = reference_list(alloc, numbers).expect(rt, "chunks");
    let found = xorb_hash(alloc, &nodes).expect(rt, "a root");
    let has_root = found == DataHash::from_hex(root).expect(rt, "a hash");
    has_root && merges_at_splits(rt, alloc, &nodes, (0, nodes.len()))
}

#[test]
fn reference_lists_merge_to_their_root_at_each_split(rt: HostRuntime) {
    for row in REFERENCES.lines() {
        assert!(rt; merges_to_root(&rt, rt.alloc(), row), "{row}");
    }
}

#[test]
fn short_drawn_lists_merge_to_their_root_at_each_split(rt: HostRuntime) {
    let mut generator = Xoshiro256PlusPlus::seed_from_u64(6);
    for number in 0..30 {
        let nodes = drawn_list(&mut generator, rt.alloc(), 16).expect(&rt, "memory");
        assert!(rt;
            merges_at_splits(&rt, rt.alloc(), &nodes, (0, 16)),
            "{number}"
        );
    }
    for length in [8, 12, 16, 20, 24] {
        let nodes = drawn_list(&mut generator, rt.alloc(), length).expect(&rt, "memory");
        assert!(rt;
            merges_at_each_two_splits(&rt, rt.alloc(), &nodes),
            "{length}"
        );
    }
}

#[test]
fn drawn_lists_merge_to_their_root_from_drawn_ranges(rt: HostRuntime) {
    let mut generator = Xoshiro256PlusPlus::seed_from_u64(7);
    for length in 20..=200 {
        let nodes = drawn_list(&mut generator, rt.alloc(), length).expect(&rt, "memory");
        let lengths = drawn_lengths(&mut generator, rt.alloc(), length).expect(&rt, "memory");
        let found = merged_root(&rt, rt.alloc(), &nodes, &lengths);
        let root = xorb_hash(rt.alloc(), &nodes).expect(&rt, "a root");
        assert!(rt; found == Some(root), "{length}");
    }
}

// How many of the 100 lists have a stable point was computed without this code.
#[test]
fn drawn_lists_merge_to_their_root_at_stable_points(rt: HostRuntime) {
    let mut generator = Xoshiro256PlusPlus::seed_from_u64(8);
    let mut count = 0usize;
    for number in 0..100 {
        let length = generator.next_u64() % 470 + 30;
        let nodes = drawn_list(&mut generator, rt.alloc(), length).expect(&rt, "memory");
        if let (Some(first), Some(last)) = (find_stable_start(&nodes), find_stable_end(&nodes)) {
            assert!(rt;
                merges_at_splits(&rt, rt.alloc(), &nodes, (first, first))
                    && merges_at_splits(&rt, rt.alloc(), &nodes, (last, last)),
                "{number}"
            );
            count = count.saturating_add(1);
        }
    }
    assert!(rt; count == 98);
}

//! The subtrees of random lists: their roots, how much they keep, and what is read back from their JSON texts.

use super::{read, written};
use rand_core::{Rng, SeedableRng};
use rand_xoshiro::Xoshiro256PlusPlus;
use std::alloc::Global;
use std::process::Abort;
use test_support::{MARKS, drawn_list, ranges};
use xet_merkle::aggregated_hashes::{Node, xorb_hash};
use xet_merkle::merkle_hash_subtree::MerkleHashSubtree;

// Returns whether a subtree of this many chunks keeps at most as many nodes, and has more chunks than 3 to the power of
// the number of its levels less 2, if there are two levels.
fn is_within_bounds(subtree: &MerkleHashSubtree, chunks: usize) -> bool {
    let mut kept = 0usize;
    let mut power = 1usize;
    for level in 0..subtree.num_levels() {
        kept = kept
            .saturating_add(subtree.left(level).len())
            .saturating_add(subtree.right(level).len());
        if level >= 2 {
            power = power.saturating_mul(3);
        }
    }
    kept <= chunks && (power < chunks || subtree.num_levels() == 1)
}

// Returns a subtree as it is read back from its JSON text.
fn read_back(rt: &impl Abort, alloc: Global, subtree: &MerkleHashSubtree) -> MerkleHashSubtree {
    read(rt, alloc, written(rt, alloc, subtree).as_str())
}

// Returns whether the subtree of a list has its root, keeps no more than it may, and is read back.
fn is_as_told(
    rt: &impl Abort,
    alloc: Global,
    nodes: &[Node],
    (at_start, at_end): (bool, bool),
) -> bool {
    let subtree = MerkleHashSubtree::from_chunks(alloc, at_start, nodes, at_end);
    let subtree = subtree.expect(rt, "a subtree");
    let root = xorb_hash(alloc, nodes).expect(rt, "a root");
    let has_root = subtree.final_hash() == (at_start && at_end).then_some(root);
    let is_read = read_back(rt, alloc, &subtree) == subtree;
    has_root && is_read && is_within_bounds(&subtree, nodes.len())
}

#[test]
fn subtrees_of_drawn_lists_are_small_and_read_back(rt: HostRuntime) {
    let mut generator = Xoshiro256PlusPlus::seed_from_u64(3);
    for length in (0..=30).chain([50, 100, 200, 500, 1000, 5000]) {
        let nodes = drawn_list(&mut generator, rt.alloc(), length).expect(&rt, "memory");
        for marks in MARKS {
            assert!(rt;
                is_as_told(&rt, rt.alloc(), &nodes, marks),
                "{length} {marks:?}"
            );
        }
    }
}

// Returns whether the ranges of a list, merged from the left, stay within the bounds on nodes, levels and parents.
// The ranges have the given lengths.
fn merge_within_bounds(rt: &impl Abort, alloc: Global, nodes: &[Node], lengths: &[usize]) -> bool {
    let ranges = ranges(alloc, nodes, lengths, (false, false)).expect(rt, "ranges");
    let empty = MerkleHashSubtree::from_chunks(alloc, false, &[], false);
    let mut merged = empty.expect(rt, "a subtree");
    let mut chunks = 0usize;
    for (range, length) in ranges.iter().zip(lengths.iter()) {
        let of_both = merged.num_nodes().saturating_add(range.num_nodes());
        let parents = merged.merge_into_counted(range).expect(rt, "a subtree");
        let most = of_both.saturating_add(merged.num_levels().saturating_mul(2));
        chunks = chunks.saturating_add(*length).min(nodes.len());
        if parents.saturating_mul(2) > most as u128 || !is_within_bounds(&merged, chunks) {
            return false;
        }
    }
    chunks == nodes.len()
}

// Returns random lengths from 10 to 49 that add up to at least `count`.
fn short_lengths(
    rt: &impl Abort,
    generator: &mut Xoshiro256PlusPlus,
    alloc: Global,
    count: u64,
) -> Vec<usize> {
    let mut lengths = Vec::new(alloc);
    for _ in 0..count / 10 {
        let length = (generator.next_u64() % 40 + 10) as usize;
        lengths.push(length).expect(rt, "memory");
    }
    lengths
}

#[test]
fn merges_of_drawn_ranges_stay_within_the_bounds(rt: HostRuntime) {
    let mut generator = Xoshiro256PlusPlus::seed_from_u64(4);
    for length in [100, 200, 500, 1000, 2000] {
        let nodes = drawn_list(&mut generator, rt.alloc(), length).expect(&rt, "memory");
        let halves = [nodes.len() / 2, nodes.len() / 2];
        assert!(rt;
            merge_within_bounds(&rt, rt.alloc(), &nodes, &halves),
            "{length}"
        );
        let lengths = short_lengths(&rt, &mut generator, rt.alloc(), length);
        assert!(rt;
            merge_within_bounds(&rt, rt.alloc(), &nodes, &lengths),
            "{length}"
        );
    }
}

// Returns whether the first nodes of a closed list and the others merge to one subtree, whether or not all three are
// written and read in between.
fn merge_when_read(rt: &impl Abort, alloc: Global, nodes: &[Node], first: usize) -> bool {
    let ranges = ranges(alloc, nodes, &[first], (true, true)).expect(rt, "ranges");
    let [front, back] = ranges.as_slice() else {
        return false;
    };
    let mut merged = front.try_clone().expect(rt, "memory");
    merged.merge_into(back).expect(rt, "a subtree");
    let mut read = read_back(rt, alloc, front);
    read.merge_into(&read_back(rt, alloc, back))
        .expect(rt, "a subtree");
    let root = read_back(rt, alloc, &merged).final_hash();
    read == merged && root == Some(xorb_hash(alloc, nodes).expect(rt, "a root"))
}

#[test]
fn subtrees_that_were_read_merge_as_those_that_were_not(rt: HostRuntime) {
    let mut generator = Xoshiro256PlusPlus::seed_from_u64(5);
    let nodes = drawn_list(&mut generator, rt.alloc(), 50).expect(&rt, "memory");
    for first in 0..=nodes.len() {
        assert!(rt; merge_when_read(&rt, rt.alloc(), &nodes, first), "{first}");
    }
}

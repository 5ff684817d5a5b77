//! Calls on more than 2^20 chunks or ranges, with enough memory. Their results are proved, so all that can be wrong is
//! that they report to be out of memory. bindings/c/large.c has the calls that C has, too.

use refusing_allocator::RefusingAllocator;
use std::alloc::Global;
use std::process::Abort;
use test_support::trees::merge;
use xet_hash::data_hash::MerkleHash;
use xet_merkle::aggregated_hashes::{Node, xorb_hash};
use xet_merkle::chunk_range::ChunkRange;
use xet_merkle::merge_tree::MergeTree;
use xet_merkle::plain_range::PlainRange;

type Counting = RefusingAllocator<Global>;

type Plain<'a> = PlainRange<&'a Counting>;

// How many chunks or ranges there are.
const LARGEST: usize = (1 << 20) + 1;

// Returns chunks that are no natural cuts.
fn chunks(rt: &impl Abort, alloc: Global) -> Vec<Node> {
    let mut chunks = Vec::with_capacity(alloc, LARGEST).expect(rt, "memory");
    for number in 0..LARGEST as u64 {
        chunks
            .push((MerkleHash::from([number, 0, 0, 1]), 1))
            .expect(rt, "memory");
    }
    chunks
}

// Returns a range of some chunks, which is open at both ends.
fn range<'a>(rt: &impl Abort, alloc: &'a Counting, chunks: &[Node]) -> Plain<'a> {
    Plain::from_chunks(alloc, false, chunks, false).expect(rt, "a range")
}

#[test]
fn the_longest_list_has_a_root(rt: HostRuntime) {
    let chunks = chunks(&rt, rt.alloc());
    xorb_hash(rt.alloc(), &chunks).expect(&rt, "a root");
}

#[test]
fn the_largest_ranges_are_joined(rt: HostRuntime) {
    let alloc = RefusingAllocator::new(rt.alloc(), u32::MAX);
    let chunks = chunks(&rt, rt.alloc());
    let mut front = range(&rt, &alloc, &chunks);
    let back = range(&rt, &alloc, &chunks);
    front.join(&back).expect(&rt, "a merge");
    assert!(rt; front.chunks().len() == LARGEST * 2);
}

#[test]
fn the_largest_tree_is_run(rt: HostRuntime) {
    let alloc = RefusingAllocator::new(rt.alloc(), u32::MAX);
    let mut tree: MergeTree<Plain<'_>> = MergeTree::Leaf(range(&rt, &alloc, &[]));
    for _ in 1..LARGEST {
        let leaf = MergeTree::Leaf(range(&rt, &alloc, &[]));
        tree = merge(rt.alloc(), tree, leaf).expect(&rt, "memory");
    }
    let merged = tree.run().expect(&rt, "a merge");
    assert!(rt; merged.chunks().is_empty());
}

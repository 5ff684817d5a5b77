//! Calls on long lists, on long texts and on many ranges, with enough memory. A call may only be out of memory because
//! of a refused request. Each result is compared with that of another call, or with what the values were made from. The
//! crate `line_tests` has long inputs of lines.
//!
//! Lists that are hashed are shorter than other values, so that these tests take seconds.

use super::maps::{Numbers, fill, has_numbers};
use super::ranges::Kind;
use super::{Call, Chunks, FILLING_MAPS, OF_CHUNKS, Outcome, Refusing, attempt, refusing};
use rand_core::SeedableRng;
use rand_xoshiro::Xoshiro256PlusPlus;
use std::alloc::Global;
use std::process::Abort;
use test_support::drawn_nodes;
use test_support::trees::merge;
use upload_session::session::SessionOf;
use xet_hash::data_hash::{DataHash, HashTextError, MerkleHash};
use xet_hash::passthrough_hashmap::PassThroughHashMap;
use xet_merkle::aggregated_hashes::{Node, file_hash, xorb_hash};
use xet_merkle::merge_tree::MergeTree;
use xet_merkle::merkle_hash_subtree::MerkleHashSubtree;
use xet_merkle::plain_range::PlainRange;

// How many nodes, ranges, numbers or letters there are: slightly more than 10^3, 10^4 and 10^5.
const MANY: usize = 1_001;

const MORE: usize = 10_001;

const MOST: usize = 100_001;

// Returns `count` nodes that are no natural cuts.
fn uncut(rt: &impl Abort, alloc: Global, count: usize) -> Vec<Node> {
    let mut nodes = Vec::new(alloc);
    for number in 0..count as u64 {
        nodes
            .push((MerkleHash::from([number, 0, 0, 1]), 1))
            .expect(rt, "memory");
    }
    nodes
}

// Returns `count` random nodes. A quarter are natural cuts.
fn drawn(rt: &impl Abort, alloc: Global, count: usize) -> Vec<Node> {
    let mut generator = Xoshiro256PlusPlus::seed_from_u64(21);
    drawn_nodes(&mut generator, alloc, count, 1).expect(rt, "memory")
}

#[test]
fn calls_on_long_lists_are_answered(rt: HostRuntime) {
    for count in [MANY, MORE] {
        let nodes = uncut(&rt, rt.alloc(), count);
        for (number, (call, _)) in OF_CHUNKS.iter().enumerate() {
            // Only a range with both marks has a root.
            let is_marked = matches!(call, Call::RootOfPlain);
            let chunks = Chunks {
                alloc: rt.alloc(),
                at_start: is_marked,
                nodes: &nodes,
                at_end: is_marked,
            };
            let outcome = attempt(&rt, *call, &refusing(rt.alloc()), u32::MAX, &chunks);
            assert!(rt;
                matches!(outcome, Outcome::Answered),
                "call {number} of the table, {count}"
            );
        }
    }
}

// Returns the subtree of a list's beginning, merged with that of the others.
fn merged(rt: &impl Abort, alloc: Global, nodes: &[Node]) -> MerkleHashSubtree {
    let (front, back) = nodes.split_at(MOST.min(nodes.len()));
    let mut merged = MerkleHashSubtree::from_chunks(alloc, true, front, false).expect(
        rt,
        "a subtree",
    );
    let back = MerkleHashSubtree::from_chunks(alloc, false, back, false).expect(rt, "a subtree");
    merged.merge_into(&back).expect(rt, "a merge");
    merged
}

// Returns whether the subtree of nodes that are no natural cuts is copied, and made from them.
fn is_copied(rt: &impl Abort, alloc: Global, subtree: &MerkleHashSubtree, nodes: &[Node]) -> bool {
    let counts = [(nodes.len(), 0)].to_vec(alloc).expect(rt, "memory");
    let kept = nodes.to_vec(alloc).expect(rt, "memory");
    let made = MerkleHashSubtree::from_flat(alloc, true, counts, kept, false).expect(
        rt,
        "a subtree",
    );
    made == *subtree && subtree.try_clone().expect(rt, "memory") == *subtree
}

// Returns the final hash of the subtree of a file's chunks, if the file's end is merged after them.
fn hash_of_ended(rt: &impl Abort, alloc: Global, chunks: &[Node]) -> Option<MerkleHash> {
    let mut ended = MerkleHashSubtree::from_chunks(alloc, true, chunks, false).expect(
        rt,
        "a subtree",
    );
    let end = MerkleHashSubtree::from_chunks(alloc, false, &[], true).expect(rt, "a subtree");
    ended.merge_into(&end).expect(rt, "a merge");
    ended.final_hash()
}

#[test]
fn the_longest_lists_are_answered(rt: HostRuntime) {
    let nodes = uncut(&rt, rt.alloc(), MOST * 2);
    let merged = merged(&rt, rt.alloc(), &nodes);
    assert!(rt; merged.num_nodes() == MOST * 2 && merged.left(0) == nodes.as_slice());
    assert!(rt; is_copied(&rt, rt.alloc(), &merged, &nodes));
    let (front, _) = nodes.split_at(MOST.min(nodes.len()));
    let root = xorb_hash(rt.alloc(), front).expect(&rt, "a hash");
    assert!(rt; hash_of_ended(&rt, rt.alloc(), front) == Some(root));
}

// Returns whether the range of some chunks equals an empty range with these chunks appended.
fn is_made<'a, R: Kind<Alloc = &'a Refusing>>(
    rt: &impl Abort,
    alloc: &'a Refusing,
    nodes: &[Node],
) -> bool {
    let range = R::from_chunks(alloc, false, nodes, false).expect(rt, "a range");
    let mut merged = R::from_chunks(alloc, false, &[], false).expect(rt, "a range");
    merged.join(&range).expect(rt, "a merge");
    merged.equals(&range)
}

#[test]
fn ranges_of_each_length_are_answered(rt: HostRuntime) {
    let alloc = refusing(rt.alloc());
    let nodes = uncut(&rt, rt.alloc(), MANY);
    for count in 0..=nodes.len() {
        let (front, _) = nodes.split_at(count);
        assert!(rt;
            is_made::<MerkleHashSubtree<&Refusing>>(&rt, &alloc, front),
            "{count}"
        );
        assert!(rt;
            is_made::<PlainRange<&Refusing>>(&rt, &alloc, front),
            "{count}"
        );
    }
}

// Returns whether maps of `count` numbers are made and copied.
fn are_maps_made(rt: &impl Abort, alloc: &Refusing, count: u64) -> bool {
    let room: Numbers<'_> = PassThroughHashMap::with_capacity(alloc, count as usize).expect(
        rt, "memory",
    );
    let numbers = PassThroughHashMap::from_pairs(alloc, (0..count).zip(0..count)).expect(
        rt, "memory",
    );
    let copy = numbers.try_clone().expect(rt, "memory");
    room.is_empty() && has_numbers(&numbers, count) && has_numbers(&copy, count)
}

#[test]
fn maps_of_many_numbers_are_filled(rt: HostRuntime) {
    let alloc = refusing(rt.alloc());
    for count in [MANY, MORE] {
        assert!(rt; are_maps_made(&rt, &alloc, count as u64), "{count}");
        for (number, call) in FILLING_MAPS.iter().enumerate() {
            let outcome = fill(*call, &alloc, u32::MAX, count as u64);
            assert!(rt;
                matches!(outcome, Outcome::Answered),
                "call {number} of the table, {count}"
            );
        }
    }
}

// Returns whether a session takes chunks one by one, first those at even positions, then those at odd ones. Each hash
// is new.
fn takes_one_by_one<'a, R: Kind<Alloc = &'a Refusing>>(
    rt: &impl Abort,
    alloc: &'a Refusing,
    nodes: &[Node],
) -> bool {
    let mut session: SessionOf<R> = SessionOf::new_in(alloc).expect(rt, "a session");
    for odd in [0, 1] {
        for (position, node) in (0..).zip(nodes) {
            if position % 2 == odd && session.put(position, &[*node]) != Ok(1) {
                return false;
            }
        }
    }
    let file = file_hash(alloc, nodes).expect(rt, "a hash");
    session.finish(nodes.len() as u64) == Ok(file)
}

// Returns whether a session takes chunks by one put. All their hashes are new.
fn takes_at_once<'a, R: Kind<Alloc = &'a Refusing>>(
    rt: &impl Abort,
    alloc: &'a Refusing,
    nodes: &[Node],
) -> bool {
    let mut session: SessionOf<R> = SessionOf::new_in(alloc).expect(rt, "a session");
    let all = R::from_chunks(alloc, false, nodes, false).expect(rt, "a range");
    let is_put = session.put(0, nodes) == Ok(nodes.len() as u64);
    match session.range(0) {
        Some((first, range)) => is_put && first == 0 && range.equals(&all),
        None => false,
    }
}

// Returns whether a tree of ranges of one chunk each gives the range of all chunks. Each is merged with all before it.
fn is_run<'a, R: Kind<Alloc = &'a Refusing>>(
    rt: &impl Abort,
    alloc: &'a Refusing,
    memory: Global,
    nodes: &[Node],
) -> bool {
    let empty = R::from_chunks(alloc, false, &[], false).expect(rt, "a range");
    let mut tree: MergeTree<R> = MergeTree::Leaf(empty);
    for node in nodes {
        let range = R::from_chunks(alloc, false, &[*node], false).expect(rt, "a range");
        tree = merge(memory, tree, MergeTree::Leaf(range)).expect(rt, "memory");
    }
    let all = R::from_chunks(alloc, false, nodes, false).expect(rt, "a range");
    tree.run().expect(rt, "a merge").equals(&all)
}

// Returns whether ranges of one chunk each are merged to that of all chunks.
fn are_merged(rt: &impl Abort, alloc: &Refusing, memory: Global, nodes: &[Node]) -> bool {
    let mut ranges = Vec::new(memory);
    for node in nodes {
        let range = MerkleHashSubtree::from_chunks(alloc, false, &[*node], false).expect(
            rt,
            "a subtree",
        );
        ranges.push(range).expect(rt, "memory");
    }
    let merged = MerkleHashSubtree::merge(alloc, &ranges).expect(rt, "a merge");
    let all = MerkleHashSubtree::from_chunks(alloc, false, nodes, false).expect(rt, "a subtree");
    merged == all
}

// Returns whether calls that take ranges of one chunk each succeed for one kind of range.
fn are_ranges_taken<'a, R: Kind<Alloc = &'a Refusing>>(
    rt: &impl Abort,
    alloc: &'a Refusing,
    memory: Global,
    nodes: &[Node],
) -> bool {
    takes_one_by_one::<R>(rt, alloc, nodes)
        && takes_at_once::<R>(rt, alloc, nodes)
        && is_run::<R>(rt, alloc, memory, nodes)
}

// Returns whether ranges of one chunk each are merged, whatever their kind.
fn are_all_merged(rt: &impl Abort, memory: Global, nodes: &[Node]) -> bool {
    let alloc = refusing(memory);
    are_merged(rt, &alloc, memory, nodes)
        && are_ranges_taken::<MerkleHashSubtree<&Refusing>>(rt, &alloc, memory, nodes)
        && are_ranges_taken::<PlainRange<&Refusing>>(rt, &alloc, memory, nodes)
}

#[test]
fn many_ranges_are_merged(rt: HostRuntime) {
    assert!(rt; are_all_merged(&rt, rt.alloc(), &drawn(&rt, rt.alloc(), MANY)));
    assert!(rt; are_all_merged(&rt, rt.alloc(), &uncut(&rt, rt.alloc(), MORE)));
}

#[test]
fn a_session_takes_the_most_chunks_at_once(rt: HostRuntime) {
    let alloc = refusing(rt.alloc());
    let nodes = uncut(&rt, rt.alloc(), MOST);
    assert!(rt; takes_at_once::<MerkleHashSubtree<&Refusing>>(&rt, &alloc, &nodes));
}

// Returns whether many equal letters are refused as base64.
fn is_no_hash(rt: &impl Abort, memory: Global, letter: &str, count: usize) -> bool {
    let text = letter.repeat(memory, count).expect(rt, "memory");
    let answer = DataHash::from_base64(&refusing(memory), &text);
    matches!(answer, Err(HashTextError::Bytes(_)))
}

#[test]
fn long_texts_are_no_hashes(rt: HostRuntime) {
    for count in [MANY, MORE, MOST] {
        assert!(rt; is_no_hash(&rt, rt.alloc(), "a", count), "{count}");
        assert!(rt; is_no_hash(&rt, rt.alloc(), "=", count), "{count}");
    }
}

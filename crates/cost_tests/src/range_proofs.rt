//! Range proofs and hash trees of many chunks, and how many bytes they ask of an allocator as these grow. No test measures
//! time.
//!
//! A body that reports that memory ran out where none was refused is proved, since each of these calls may fail so. The calls
//! here are made above the sizes at which other tests end. `large.c` makes trees and JSON of more chunks.

use range_proof::{HashTree, OpenFault, RangeProof};
use refusing_allocator::RefusingAllocator;
use std::alloc::Global;
use std::process::Abort;
use xet_hash::data_hash::MerkleHash;
use xet_merkle::aggregated_hashes::{Node, xorb_hash};

type Counting = RefusingAllocator<Global>;

// More than 2^17 chunks.
const MANY: usize = 131_073;

// The most levels of a proof.
const LEVELS: usize = 64;

// Returns `count` chunks of one byte, none a natural cut.
fn chunks(rt: &impl Abort, memory: Global, count: u64) -> Vec<Node> {
    let mut chunks = Vec::new(memory);
    for number in 0..count {
        let chunk = (MerkleHash::from([number, 0, 0, 1]), 1);
        chunks.push(chunk).expect(rt, "memory");
    }
    chunks
}

// Returns the proof of the first `MANY` of `MANY` + 9 chunks, and the root of all.
fn long_proof(rt: &impl Abort, memory: Global) -> (RangeProof, MerkleHash) {
    let chunks = chunks(rt, memory, (MANY as u64).saturating_add(9));
    let tree = HashTree::from_chunks(memory, &chunks).expect(rt, "a tree");
    let proof = tree.proof(memory, 0, MANY).expect(rt, "a proof");
    (proof, tree.root())
}

#[test]
fn a_proof_of_more_than_2_to_the_17_chunks_is_opened(rt: HostRuntime) {
    let (proof, root) = long_proof(&rt, rt.alloc());
    let Ok(range) = proof.open_root(&root) else {
        panic!(rt; "the proof isn't opened");
    };
    assert!(rt; range.num_chunks() == MANY && range.begins(MANY - 1) == Some(131_072));
}

#[test]
fn a_proof_of_more_than_2_to_the_17_chunks_is_copied(rt: HostRuntime) {
    let (proof, _) = long_proof(&rt, rt.alloc());
    assert!(rt; proof.try_clone().expect(&rt, "a copy") == proof);
}

#[test]
fn a_proof_of_more_than_2_to_the_17_chunks_has_flat_lists(rt: HostRuntime) {
    let (proof, _) = long_proof(&rt, rt.alloc());
    let (counts, nodes) = proof.to_flat().expect(&rt, "flat lists");
    let read = RangeProof::from_flat(rt.alloc(), &counts, &nodes).expect(&rt, "a proof");
    assert!(rt; read == proof);
}

#[test]
fn a_proof_of_more_than_2_to_the_17_chunks_has_bytes(rt: HostRuntime) {
    let (proof, _) = long_proof(&rt, rt.alloc());
    let bytes = proof.to_bytes().expect(&rt, "bytes");
    let read = RangeProof::from_bytes(rt.alloc(), &bytes).expect(&rt, "a proof");
    assert!(rt; read == proof);
}

// Returns a proof of one chunk with a node after it on each of `LEVELS` levels, and the root that it shows.
fn deep_proof(rt: &impl Abort, memory: Global) -> (RangeProof, MerkleHash) {
    let beside = chunks(rt, memory, LEVELS as u64);
    let mut counts = Vec::new(memory);
    let mut nodes = Vec::new(memory);
    let mut top = MerkleHash::from([1, 2, 3, 5]);
    nodes.push((top, 1)).expect(rt, "memory");
    for node in beside.iter().rev() {
        counts.push((0, 1)).expect(rt, "memory");
        nodes.push(*node).expect(rt, "memory");
    }
    let mut size = 1u64;
    for node in &beside {
        top = xorb_hash(memory, &[(top, size), *node]).expect(rt, "a root");
        size = size.saturating_add(1);
    }
    let proof = RangeProof::from_flat(memory, &counts, &nodes).expect(rt, "a proof");
    (proof, top)
}

#[test]
fn a_proof_of_64_levels_is_opened(rt: HostRuntime) {
    let (proof, root) = deep_proof(&rt, rt.alloc());
    let Ok(range) = proof.open_root(&root) else {
        panic!(rt; "the proof isn't opened");
    };
    assert!(rt; range.file_size() == 65);
}

#[test]
fn a_proof_that_shows_another_root_is_a_mismatch(rt: HostRuntime) {
    let (proof, _) = deep_proof(&rt, rt.alloc());
    let Err(refused) = proof.open_root(&MerkleHash::from([1, 2, 3, 4])) else {
        panic!(rt; "the proof is opened");
    };
    assert!(rt; refused.fault == OpenFault::Mismatch);
}

// The bytes of a node: four words of its hash, and its size.
const NODE: u64 = 40;

// The nodes of room that don't grow with the chunks: the sides of a few levels.
const FEW: u64 = 200;

// Calls, each with the nodes of room that it may ask for per chunk:
//
// - A tree copies its chunks, keeps a place for each, which is a fifth of a node, and has at most half as many nodes on
//   each level above, with the places of its groups.
// - A proof copies the chunks of its range. That of one chunk copies a few nodes of each level.
// - Opening copies the nodes of each level, makes their parents, and keeps a place for each chunk.
// - Flat lists have all nodes in one list, whose room is doubled. So do the nodes that are read from JSON.
// - Bytes are as long as the nodes, and are made of the flat list and read to one.
const CALLS: &str = "tree|4
proof of all|1
proof of one|0
copy|1
open|4
to flat lists|4
from flat lists|1
to bytes|5
from bytes|2
from JSON|4";

// Makes a call with `count` chunks. Returns the bytes that it asks for.
fn asked(rt: &impl Abort, memory: Global, call: &str, count: u64) -> u64 {
    let alloc: Counting = RefusingAllocator::new(memory, u32::MAX);
    let chunks = chunks(rt, memory, count);
    let tree = HashTree::from_chunks(&alloc, &chunks).expect(rt, "a tree");
    let proof = tree.proof(&alloc, 0, chunks.len()).expect(rt, "a proof");
    let (counts, nodes) = proof.to_flat().expect(rt, "flat lists");
    let bytes = proof.to_bytes().expect(rt, "bytes");
    alloc.grant(u32::MAX);
    match call {
        "tree" => {
            HashTree::from_chunks(&alloc, &chunks).expect(rt, "a tree");
        }
        "proof of all" => {
            tree.proof(&alloc, 0, chunks.len()).expect(rt, "a proof");
        }
        "proof of one" => {
            tree.proof(&alloc, 700, 701).expect(rt, "a proof");
        }
        "copy" => {
            proof.try_clone().expect(rt, "a copy");
        }
        "open" => {
            let opened = proof.open_root(&tree.root()).is_ok();
            assert!(rt; opened, "the proof isn't opened");
        }
        "to flat lists" => {
            proof.to_flat().expect(rt, "flat lists");
        }
        "from flat lists" => {
            RangeProof::from_flat(&alloc, &counts, &nodes).expect(rt, "a proof");
        }
        "to bytes" => {
            proof.to_bytes().expect(rt, "bytes");
        }
        "from bytes" => {
            RangeProof::from_bytes(&alloc, &bytes).expect(rt, "a proof");
        }
        _ => {
            let value = proof.to_json(memory).expect(rt, "a value");
            RangeProof::from_json(&alloc, &value).expect(rt, "a proof");
        }
    }
    alloc.granted().bytes
}

#[test]
fn calls_ask_for_bytes_in_proportion_to_their_nodes(rt: HostRuntime) {
    for row in CALLS.lines() {
        let (call, nodes) = row.split_once('|').expect(&rt, "two fields");
        let nodes: u64 = nodes.parse().expect(&rt, "a number");
        for count in [1_000, 4_000] {
            let asked = asked(&rt, rt.alloc(), call, count);
            let room = nodes.saturating_mul(count).saturating_add(FEW);
            assert!(rt;
                asked <= room.saturating_mul(NODE),
                "{call}, {count}: {asked}"
            );
        }
    }
}

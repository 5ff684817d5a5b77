//! Range proofs, and the hash tree that makes them.

use super::{Call, Chunks, Outcome, Refusing, outcome_of};
use range_proof::{HashTree, OpenError, OpenFault, OpenedRange, RangeProof};
use std::process::Abort;
use xet_merkle::CoreError;
use xet_merkle::aggregated_hashes::{file_hash, xorb_hash};

// The range whose proof is made.
const FIRST: usize = 70;

const END: usize = 75;

/// The calls that make, copy, open and read a proof.
pub const OF_PROOFS: [Call; 11] = [
    Call::HashTree,
    Call::TreeProof,
    Call::ProofFromChunks,
    Call::ProofTryClone,
    Call::Open,
    Call::OpenRoot,
    Call::ProofFromJson,
    Call::ProofFromFlat,
    Call::ProofToFlat,
    Call::ProofFromBytes,
    Call::ProofToBytes,
];

// Returns the proof of a range of some chunks.
fn proof<'a>(
    alloc: &'a Refusing,
    chunks: &Chunks<'_>,
) -> Result<RangeProof<&'a Refusing>, CoreError> {
    RangeProof::from_chunks(alloc, chunks.nodes, FIRST, END)
}

// Returns how a call ended that should return a proof.
fn proof_outcome<'a>(
    alloc: &Refusing,
    answer: Result<RangeProof<&'a Refusing>, CoreError>,
    expected: &RangeProof<&'a Refusing>,
) -> Outcome {
    match answer {
        Ok(proof) => outcome_of(alloc, Ok(proof == *expected), true),
        Err(error) => outcome_of(alloc, Err(error), true),
    }
}

// Returns how opening a proof ended. If memory was refused, the proof must come back unchanged.
fn opening_outcome<'a>(
    alloc: &Refusing,
    answer: Result<OpenedRange<&'a Refusing>, OpenError<&'a Refusing>>,
    expected: &RangeProof<&'a Refusing>,
) -> Outcome {
    match answer {
        Ok(range) => outcome_of(alloc, Ok(*range.proof() == *expected), true),
        Err(error) => {
            if error.fault == OpenFault::OutOfMemory {
                outcome_of(alloc, Err(CoreError::OutOfMemory), error.proof == *expected)
            } else {
                Outcome::Wrong
            }
        }
    }
}

// Tries to make the hash tree of some chunks.
fn make_tree(rt: &impl Abort, alloc: &Refusing, granted: u32, chunks: &Chunks<'_>) -> Outcome {
    let root = xorb_hash(alloc, chunks.nodes).expect(rt, "a hash");
    alloc.grant(granted);
    match HashTree::from_chunks(alloc, chunks.nodes) {
        Ok(tree) => outcome_of(alloc, Ok(tree.root() == root), true),
        Err(error) => outcome_of(alloc, Err(error), true),
    }
}

// Tries to open a proof with the file hash of some chunks, or with their root.
fn open(
    rt: &impl Abort,
    call: Call,
    alloc: &Refusing,
    granted: u32,
    chunks: &Chunks<'_>,
) -> Outcome {
    let (file, root) = (
        file_hash(alloc, chunks.nodes).expect(rt, "a hash"),
        xorb_hash(alloc, chunks.nodes).expect(rt, "a hash"),
    );
    let given = proof(alloc, chunks).expect(rt, "a proof");
    let expected = given.try_clone().expect(rt, "memory");
    alloc.grant(granted);
    let answer = match call {
        Call::Open => given.open(&file, &[0; 32]),
        _ => given.open_root(&root),
    };
    opening_outcome(alloc, answer, &expected)
}

// Tries to read a proof from its JSON value, from its flat lists, or from its bytes.
fn read(
    rt: &impl Abort,
    call: Call,
    alloc: &Refusing,
    granted: u32,
    chunks: &Chunks<'_>,
) -> Outcome {
    let expected = proof(alloc, chunks).expect(rt, "a proof");
    let value = expected.to_json(chunks.alloc).expect(rt, "memory");
    let (counts, nodes) = expected.to_flat().expect(rt, "memory");
    let bytes = expected.to_bytes().expect(rt, "memory");
    alloc.grant(granted);
    let answer = match call {
        Call::ProofFromJson => RangeProof::from_json(alloc, &value),
        Call::ProofFromBytes => RangeProof::from_bytes(alloc, &bytes),
        _ => RangeProof::from_flat(alloc, &counts, &nodes),
    };
    proof_outcome(alloc, answer, &expected)
}

// Tries to return the flat lists of a proof.
fn to_flat(rt: &impl Abort, alloc: &Refusing, granted: u32, chunks: &Chunks<'_>) -> Outcome {
    let given = proof(alloc, chunks).expect(rt, "a proof");
    let (counts, nodes) = given.to_flat().expect(rt, "memory");
    alloc.grant(granted);
    match given.to_flat() {
        Ok(lists) => {
            let is_right = lists.0 == counts && lists.1 == nodes;
            outcome_of(alloc, Ok(is_right), true)
        }
        Err(error) => outcome_of(alloc, Err(error), true),
    }
}

// Tries to return the bytes of a proof.
fn to_bytes(rt: &impl Abort, alloc: &Refusing, granted: u32, chunks: &Chunks<'_>) -> Outcome {
    let given = proof(alloc, chunks).expect(rt, "a proof");
    let expected = given.to_bytes().expect(rt, "memory");
    alloc.grant(granted);
    match given.to_bytes() {
        Ok(bytes) => outcome_of(alloc, Ok(bytes == expected), true),
        Err(error) => outcome_of(alloc, Err(error), true),
    }
}

// Tries to make a proof, or to copy it.
fn make(
    rt: &impl Abort,
    call: Call,
    alloc: &Refusing,
    granted: u32,
    chunks: &Chunks<'_>,
) -> Outcome {
    let expected = proof(alloc, chunks).expect(rt, "a proof");
    let tree = HashTree::from_chunks(alloc, chunks.nodes).expect(rt, "a tree");
    alloc.grant(granted);
    let answer = match call {
        Call::TreeProof => tree.proof(alloc, FIRST, END),
        Call::ProofTryClone => expected.try_clone(),
        _ => proof(alloc, chunks),
    };
    proof_outcome(alloc, answer, &expected)
}

/// Tries a call on the proof of a range of some chunks.
pub fn attempt(
    rt: &impl Abort,
    call: Call,
    alloc: &Refusing,
    granted: u32,
    chunks: &Chunks<'_>,
) -> Outcome {
    match call {
        Call::HashTree => make_tree(rt, alloc, granted, chunks),
        Call::Open | Call::OpenRoot => open(rt, call, alloc, granted, chunks),
        Call::ProofFromJson | Call::ProofFromFlat | Call::ProofFromBytes => {
            read(rt, call, alloc, granted, chunks)
        }
        Call::ProofToFlat => to_flat(rt, alloc, granted, chunks),
        Call::ProofToBytes => to_bytes(rt, alloc, granted, chunks),
        _ => make(rt, call, alloc, granted, chunks),
    }
}

//! The forms of a hash, and the hashes of a list.

use super::{Call, Chunks, Outcome, Refusing, outcome_of};
use std::process::Abort;
use test_support::{OwnNode, own_nodes};
use xet_hash::data_hash::{DataHash, HashTextError};
use xet_merkle::CoreError;
use xet_merkle::aggregated_hashes::{Node, file_hash, file_hash_with_salt, xorb_hash};
use xet_merkle::as_node::xorb_hash_of;

const BYTES: [u8; 32] = [
    22, 175, 58, 132, 4, 75, 131, 214, 190, 153, 138, 66, 226, 3, 153, 242, 204, 86, 80, 234, 249,
    153, 80, 99, 159, 80, 65, 138, 236, 231, 149, 78,
];

// Each row has the hex text and the base64 text of a hash. The first is the hash of the bytes above.
const TEXTS: &str =
    "d6834b04843aaf16f29903e2428a99be635099f9ea5056cc4e95e7ec8a41509f Fq86hARLg9a-mYpC4gOZ8sxWUOr5mVBjn1BBiuznlU4
0000000000000000000000000000000000000000000000000000000000000000 AAAAAAAAAAAAAAAAAAAAAAAAAAAAAAAAAAAAAAAAAAA
ffffffffffffffffffffffffffffffffffffffffffffffffffffffffffffffff __________________________________________8";

// Returns whether reading a base64 text gives a hash.
fn is_read(answer: Result<DataHash, HashTextError>, hash: &DataHash) -> Result<bool, CoreError> {
    match answer {
        Ok(read) => Ok(read == *hash),
        Err(HashTextError::OutOfMemory) => Err(CoreError::OutOfMemory),
        Err(_) => Ok(false),
    }
}

// Returns whether a hash has the form of a row that a call returns or reads.
fn has_form(
    call: Call,
    alloc: &Refusing,
    hash: &DataHash,
    (hex, base64): (&str, &str),
) -> Result<bool, CoreError> {
    match call {
        Call::Hex => Ok(hash.hex(alloc)?.as_str() == hex),
        Call::Base64 => Ok(hash.base64(alloc)?.as_str() == base64),
        Call::ToVec => Ok(hash.to_vec(alloc)?.as_slice() == hash.as_bytes().as_slice()),
        Call::FromBase64Characters => {
            is_read(
                DataHash::from_base64_characters(alloc, base64.as_bytes()),
                hash,
            )
        }
        _ => is_read(DataHash::from_base64(alloc, base64), hash),
    }
}

// Returns whether each hash has the form that a call returns or reads.
fn have_forms(call: Call, alloc: &Refusing, hashes: &[DataHash; 3]) -> Result<bool, CoreError> {
    let mut have_forms = true;
    for (hash, row) in hashes.iter().zip(TEXTS.lines()) {
        let texts = row.split_once(' ').unwrap_or_default();
        have_forms = have_forms && has_form(call, alloc, hash, texts)?;
    }
    Ok(have_forms)
}

/// Tries a form of three hashes, one after another.
pub fn attempt(rt: &impl Abort, call: Call, alloc: &Refusing, granted: u32) -> Outcome {
    let hashes = [
        DataHash::from_slice(&BYTES).expect(rt, "a hash"),
        DataHash::default(),
        DataHash::marker(),
    ];
    let before = hashes;
    alloc.grant(granted);
    let answer = have_forms(call, alloc, &hashes);
    outcome_of(alloc, answer, hashes == before)
}

const SALT: [u8; 32] = [7; 32];

fn hash(
    call: Call,
    alloc: &Refusing,
    nodes: &[Node],
    own: &[OwnNode],
) -> Result<DataHash, CoreError> {
    match call {
        Call::XorbHash => xorb_hash(alloc, nodes),
        Call::XorbHashOf => xorb_hash_of(alloc, own),
        Call::FileHash => file_hash(alloc, nodes),
        _ => file_hash_with_salt(alloc, nodes, &SALT),
    }
}

/// Tries a hash of a list.
pub fn of_chunks(
    rt: &impl Abort,
    call: Call,
    alloc: &Refusing,
    granted: u32,
    chunks: &Chunks<'_>,
) -> Outcome {
    let own = own_nodes(chunks.alloc, chunks.nodes).expect(rt, "memory");
    let expected = hash(call, alloc, chunks.nodes, &own).expect(rt, "a hash");
    let before = chunks.nodes.to_vec(chunks.alloc).expect(rt, "memory");
    alloc.grant(granted);
    let answer = hash(call, alloc, chunks.nodes, &own);
    let is_same = chunks.nodes == before.as_slice();
    outcome_of(alloc, answer.map(|hash| hash == expected), is_same)
}

//! What is kept of the hashes of chunks.

use std::alloc::Global;
use std::process::Abort;
use upload_session::kept_hashes::{KeptHashes, NoHashes, SeenHashes};
use xet_hash::data_hash::MerkleHash;
use xet_merkle::aggregated_hashes::Node;

// Returns the chunk of a number, of size 1.
fn chunk(number: u64) -> Node {
    (MerkleHash::from([number, 0, 0, 0]), 1)
}

// Returns whether the hashes are those of some numbers, in this order.
fn are_of(hashes: &[MerkleHash], numbers: &[u64]) -> bool {
    hashes.len() == numbers.len()
        && hashes
            .iter()
            .zip(numbers)
            .all(|(hash, number)| *hash == chunk(*number).0)
}

// Returns whether the hashes that some chunks add are those of some numbers.
fn tells(
    rt: &impl Abort,
    alloc: Global,
    seen: &mut SeenHashes,
    chunks: &[Node],
    numbers: &[u64],
) -> bool {
    let hashes = seen.keep(alloc, chunks).expect(rt, "memory");
    are_of(&hashes, numbers)
}

#[test]
fn new_hashes_are_told_once(rt: HostRuntime) {
    let alloc = rt.alloc();
    let mut seen: SeenHashes = KeptHashes::new(alloc);
    let first = [chunk(1), chunk(1), chunk(2)];
    assert!(rt; tells(&rt, alloc, &mut seen, &first, &[1, 2]));
    assert!(rt; tells(&rt, alloc, &mut seen, &[chunk(2), chunk(3), chunk(1)], &[3]));
    seen.give_up(&[chunk(3).0]);
    assert!(rt; tells(&rt, alloc, &mut seen, &[chunk(3), chunk(1)], &[3]));
    let none = KeptHashes::keep(&mut NoHashes, alloc, &[chunk(1)]).expect(&rt, "memory");
    assert!(rt; none.is_empty());
}

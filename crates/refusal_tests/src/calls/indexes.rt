//! An index of hashes.

use super::{Outcome, Refusing, outcome_of, refusing};
use hash_numbers::HashIndex;
use std::alloc::{AllocError, Global};
use std::process::Abort;
use xet_hash::data_hash::MerkleHash;
use xet_merkle::CoreError;

/// An index of the hashes of the seeds from 0 on. The first few have their seeds as numbers, and the others have 1000 more.
type Index<'a> = HashIndex<&'a Refusing>;

// How many hashes have their seeds as numbers.
const FEW: u64 = 3;

// Returns the hashes of the seeds below a count, each with its seed and `more` as its number.
fn pairs(rt: &impl Abort, memory: Global, count: u64, more: u64) -> Vec<(MerkleHash, u64)> {
    let mut pairs = Vec::new(memory);
    for seed in 0..count {
        let hash = MerkleHash::random_from_seed(seed);
        pairs
            .push((hash, seed.saturating_add(more)))
            .expect(rt, "memory");
    }
    pairs
}

// Returns whether an index has exactly the hashes of the seeds below a count, and not that of the next seed.
fn has_hashes(index: &Index<'_>, count: u64) -> bool {
    for seed in 0..count {
        let number = if seed < FEW {
            seed
        } else {
            seed.saturating_add(1000)
        };
        if index.get(&MerkleHash::random_from_seed(seed)) != Some(number) {
            return false;
        }
    }
    index.get(&MerkleHash::random_from_seed(count)).is_none() && index.len() as u64 == count
}

// Returns an index of a few hashes.
fn few<'a>(rt: &impl Abort, alloc: &'a Refusing, memory: Global) -> Index<'a> {
    let mut index = HashIndex::new(alloc);
    index
        .insert(alloc, &pairs(rt, memory, FEW, 0))
        .expect(rt, "memory");
    index
}

/// Tries to put the hashes of the seeds below a count, more than a few, into an index of a few. After a refusal it must
/// have these few alone.
pub fn insert(
    rt: &impl Abort,
    alloc: &Refusing,
    granted: u32,
    memory: Global,
    count: u64,
) -> Outcome {
    let mut index = few(rt, alloc, memory);
    let all = pairs(rt, memory, count, 1000);
    alloc.grant(granted);
    match index.insert(alloc, &all) {
        Ok(new) => {
            let is_right = new as u64 == count.saturating_sub(FEW) && has_hashes(&index, count);
            outcome_of(alloc, Ok(is_right), true)
        }
        Err(AllocError) => {
            let is_same = has_hashes(&index, FEW);
            outcome_of(alloc, Err(CoreError::OutOfMemory), is_same)
        }
    }
}

#[test]
fn indexes_of_many_hashes_are_filled(rt: HostRuntime) {
    for count in [1_001, 10_001] {
        let outcome = insert(&rt, &refusing(rt.alloc()), u32::MAX, rt.alloc(), count);
        assert!(rt; matches!(outcome, Outcome::Answered), "{count}");
    }
}

#[test]
fn indexes_are_read_without_memory(rt: HostRuntime) {
    let alloc = refusing(rt.alloc());
    let index = few(&rt, &alloc, rt.alloc());
    alloc.grant(0);
    let none: Index<'_> = HashIndex::new(&alloc);
    assert!(rt; has_hashes(&none, 0));
    assert!(rt; has_hashes(&index, FEW));
    assert!(rt; !alloc.has_refused());
}

//! Each call is made with no memory left, then with 16 bytes, and so on until it is answered. Until then it is out of
//! memory, and what it borrowed stays as it was.

use crate::memory::{Memory, STEPS};
use std::alloc::{AllocError, Global};
use std::process::Abort;
use test_support::trees::{BRACKETINGS, four_ranges, tree};
use test_support::{EACH_FOURTH, with_cuts};
use xet_hash::data_hash::DataHash;
use xet_merkle::CoreError;
use xet_merkle::merge_tree::MergeTree;
use xet_merkle::merkle_hash_subtree::MerkleHashSubtree;
use xet_merkle::plain_range::PlainRange;

#[test]
fn a_hash_goes_to_json(rt: HostRuntime) {
    let hash = DataHash::random_from_seed(1);
    let wanted = hash.to_json(rt.alloc()).expect(&rt, "memory");
    let mut memory = Memory::use_up(&rt, rt.alloc());
    let mut refused = 0;
    let mut answer = Err(AllocError);
    for steps in 0..STEPS {
        memory.leave_more(&rt);
        answer = hash.to_json(rt.alloc());
        if answer.is_ok() {
            refused = steps;
            break;
        }
    }
    drop(memory);
    assert!(rt; refused > 0);
    assert!(rt; answer.expect(&rt, "a value") == wanted);
}

// Returns after how many steps the JSON value of a subtree can be made.
fn refused_values(rt: &impl Abort, alloc: Global, subtree: &MerkleHashSubtree) -> usize {
    let before = subtree.try_clone().expect(rt, "memory");
    let wanted = subtree.to_json(alloc).expect(rt, "memory");
    let mut memory = Memory::use_up(rt, alloc);
    for steps in 0..STEPS {
        memory.leave_more(rt);
        let answer = subtree.to_json(alloc);
        assert!(rt; *subtree == before, "the subtree is another");
        if let Ok(value) = answer {
            drop(memory);
            assert!(rt; value == wanted, "another value");
            return steps;
        }
    }
    panic!(rt; "the value was never made")
}

#[test]
fn subtrees_go_to_json(rt: HostRuntime) {
    let chunks = [(1, 100), (2, 200), (3, 300)].map(|(seed, size)| (
        DataHash::random_from_seed(seed),
        size,
    ));
    let subtree = MerkleHashSubtree::from_chunks(rt.alloc(), true, &chunks, false);
    let empty = MerkleHashSubtree::from_chunks(rt.alloc(), true, &[], true);
    let (few, more) = (
        refused_values(&rt, rt.alloc(), &empty.expect(&rt, "a subtree")),
        refused_values(&rt, rt.alloc(), &subtree.expect(&rt, "a subtree")),
    );
    assert!(rt; 0 < few && few < more, "{few} and {more}");
}

// Returns after how many steps the trees of a bracketing can be run.
fn refused_runs(rt: &impl Abort, alloc: Global, bracketing: &str) -> usize {
    let mut trees: Vec<MergeTree<PlainRange>> = Vec::new(alloc);
    for _ in 0..STEPS {
        let ranges = four_ranges(alloc).expect(rt, "four ranges");
        if let Some(tree) = tree(alloc, bracketing, ranges).expect(rt, "memory") {
            trees.push(tree).expect(rt, "memory");
        }
    }
    let mut memory = Memory::use_up(rt, alloc);
    for steps in 0..STEPS {
        let Some(tree) = trees.pop() else {
            break;
        };
        memory.leave_more(rt);
        match tree.run() {
            Err(CoreError::OutOfMemory) => {}
            answer => {
                drop(memory);
                let range = answer.expect(rt, "a range");
                let is_right = range.chunks() == with_cuts::<28>(&EACH_FOURTH).as_slice();
                assert!(rt; is_right, "another range");
                return steps;
            }
        }
    }
    panic!(rt; "no tree was run")
}

#[test]
fn trees_of_ranges_are_run(rt: HostRuntime) {
    for (bracketing, _) in BRACKETINGS {
        assert!(rt;
            refused_runs(&rt, rt.alloc(), bracketing) > 0,
            "{bracketing}"
        );
    }
}

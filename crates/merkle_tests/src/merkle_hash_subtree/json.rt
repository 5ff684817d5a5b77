//! Reading subtrees from JSON texts that are nested deep.

use serde_json::Value;
use std::alloc::Global;
use std::process::Abort;
use test_support::NO_PAIRS;
use xet_merkle::merkle_hash_subtree::MerkleHashSubtree;

// Returns whether a text can't be read, because it isn't JSON or describes no subtree.
fn is_refused(alloc: Global, text: &str) -> bool {
    match Value::from_str(alloc, text) {
        Ok(value) => MerkleHashSubtree::from_json(alloc, &value).is_err(),
        Err(_) => true,
    }
}

// Returns a text with a front and an end that are repeated.
fn nested(rt: &impl Abort, alloc: Global, front: &str, end: &str) -> String {
    let mut text = front.repeat(alloc, 100_000).expect(rt, "memory");
    for _ in 0..100_000 {
        text.push_str(end).expect(rt, "memory");
    }
    text
}

#[test]
fn texts_nested_deep_are_refused(rt: HostRuntime) {
    for (front, end) in [("[", ""), ("[", "]"), ("{\"levels\":", "")] {
        assert!(rt;
            is_refused(rt.alloc(), &nested(&rt, rt.alloc(), front, end)),
            "{front}{end}"
        );
    }
    let list = nested(&rt, rt.alloc(), "[", "]");
    let inside = NO_PAIRS
        .replace(rt.alloc(), "[]", &list)
        .expect(&rt, "memory");
    assert!(rt; is_refused(rt.alloc(), &inside));
}

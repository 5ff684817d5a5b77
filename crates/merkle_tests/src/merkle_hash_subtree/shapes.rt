//! Lists of bad shapes, without natural cuts and of only natural cuts, merged at each split. Other calls with them are in the
//! worked examples.

use super::merging::merges_at_splits;
use test_support::with_cuts;
use xet_merkle::aggregated_hashes::Node;

// Returns a thousand nodes without a natural cut.
fn no_cuts() -> [Node; 1000] {
    with_cuts(&[])
}

#[test]
fn cuts_alone_merge_to_their_root_at_each_split(rt: HostRuntime) {
    let nodes = with_cuts::<10>(&[0, 1, 2, 3, 4, 5, 6, 7, 8, 9]);
    assert!(rt; merges_at_splits(&rt, rt.alloc(), &nodes, (0, 10)));
}

// The splits of the list without natural cuts are four tests, since `rt try` checks each memory access and is slow.
#[test]
fn no_cuts_merge_to_their_root_at_splits_to_250(rt: HostRuntime) {
    assert!(rt; merges_at_splits(&rt, rt.alloc(), &no_cuts(), (0, 250)));
}

#[test]
fn no_cuts_merge_to_their_root_at_splits_to_500(rt: HostRuntime) {
    assert!(rt; merges_at_splits(&rt, rt.alloc(), &no_cuts(), (251, 500)));
}

#[test]
fn no_cuts_merge_to_their_root_at_splits_to_750(rt: HostRuntime) {
    assert!(rt; merges_at_splits(&rt, rt.alloc(), &no_cuts(), (501, 750)));
}

#[test]
fn no_cuts_merge_to_their_root_at_splits_to_1000(rt: HostRuntime) {
    assert!(rt; merges_at_splits(&rt, rt.alloc(), &no_cuts(), (751, 1000)));
}

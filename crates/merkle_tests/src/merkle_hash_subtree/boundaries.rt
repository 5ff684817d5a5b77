//! The stable points of random lists, with other random nodes before or after the list.

use rand_core::{Rng, SeedableRng};
use rand_xoshiro::Xoshiro256PlusPlus;
use std::alloc::Global;
use std::process::Abort;
use test_support::drawn_list;
use xet_merkle::aggregated_hashes::Node;
use xet_merkle::merkle_hash_subtree::{find_stable_end, find_stable_start};

// Returns whether one of the groups of two consecutive lists ends at this place. A group ends at the first natural cut
// from its third node on, or at its ninth node.
fn has_group_end(first: &[Node], second: &[Node], place: usize) -> bool {
    let mut passed = 0usize;
    let mut len = 0usize;
    for (hash, _) in first.iter().chain(second.iter()) {
        passed = passed.saturating_add(1);
        len = len.saturating_add(1);
        if len == 9 || len >= 3 && *hash % 4 == 0 {
            if passed == place {
                return true;
            }
            len = 0;
        }
    }
    false
}

// Returns 20 random lists of each length from 1 to 20.
fn drawn_lists(
    rt: &impl Abort,
    generator: &mut Xoshiro256PlusPlus,
    alloc: Global,
) -> Vec<Vec<Node>> {
    let mut lists = Vec::new(alloc);
    for length in 1..21 {
        for _ in 0..20 {
            let list = drawn_list(generator, alloc, length).expect(rt, "memory");
            lists.push(list).expect(rt, "memory");
        }
    }
    lists
}

// Returns whether a group still ends at the first stable point of some nodes after each of some lists, and at the last
// one before each.
fn stay_group_ends(nodes: &[Node], start: usize, end: usize, others: &[Vec<Node>]) -> bool {
    others.iter().all(|other| {
        has_group_end(other.as_slice(), nodes, start.saturating_add(other.len()))
            && has_group_end(nodes, other.as_slice(), end)
    })
}

// How many of the 1000 lists have a stable point was computed without this code.
#[test]
fn stable_points_end_groups_among_drawn_nodes(rt: HostRuntime) {
    let mut generator = Xoshiro256PlusPlus::seed_from_u64(1);
    let others = drawn_lists(&rt, &mut Xoshiro256PlusPlus::seed_from_u64(2), rt.alloc());
    let mut count = 0usize;
    for number in 0..1000 {
        let length = generator.next_u64() % 85 + 15;
        let nodes = drawn_list(&mut generator, rt.alloc(), length).expect(&rt, "memory");
        let nodes = nodes.as_slice();
        if let (Some(start), Some(end)) = (find_stable_start(nodes), find_stable_end(nodes)) {
            assert!(rt;
                stay_group_ends(nodes, start, end, others.as_slice()),
                "{number}"
            );
            count = count.saturating_add(1);
        }
    }
    assert!(rt; count == 765);
}

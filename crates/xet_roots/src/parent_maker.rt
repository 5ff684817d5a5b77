//! Makes the hashes of parents while ranges are merged, and counts them.

ghost use Rattle.std.specs.Prelude.{◌≡◌, ℕ, ◌+◌, ◌^◌, ◌<◌, ◌≤◌, List, [], get_or, length, map};
ghost use Rattle.xet_roots.specs.Groups.{Node};
ghost use Rattle.xet_roots.specs.Roots.{total_size, parent_hash};

use crate::aggregated_hashes::Node;
use crate::groups::{MOST_AT_ONCE, parent_hash, parent_hashes, two_parent_hashes};
use std::marker::Model;
use xet_hash::data_hash::MerkleHash;

/// Makes the hash of each parent of a merge, and counts the hashes that it made. A merge gets the hash of a parent only
/// from its maker, so the count misses none.
///
/// A maker gives each group one hash, whatever it made before. [`ParentHashes`] gives the hashes of the Xet format.
/// Another maker gives the parents of a different tree.
pub trait ParentMaker: Drop {
    // The hash that the maker gives a group.
    ghost hash_of: { List Node → List ℕ };

    // The number of hashes that it made.
    ghost count: { Self → ℕ };

    /// Returns the hash of the parent of a group. The group has 1 to 9 nodes, whose sizes add up to at most `u64::MAX`.
    /// The call allocates nothing. The maker must have made fewer than 2^100 hashes before.
    fn make(&mut self, group: &[Node]) -> MerkleHash
        requires some { 0 < length group.now }
        requires few { length group.now ≤ 9 }
        requires fits { total_size group.now < 2 ^ 64 }
        requires room { count self.old < 2 ^ 100 }
        ensures hash { result ≡ hash_of group.now }
        ensures count { count self.new ≡ count self.old + 1 };

    /// Returns the hashes of the parents of two groups, which count as two. A maker that can make both at once in less time
    /// has a body of its own; the body here calls [`make`](ParentMaker::make) for the first and then for the second.
    fn make_two(&mut self, first: &[Node], second: &[Node]) -> (MerkleHash, MerkleHash)
        requires some { (0 < length first.now) × (0 < length second.now) }
        requires few { (length first.now ≤ 9) × (length second.now ≤ 9) }
        requires fits { (total_size first.now < 2 ^ 64) × (total_size second.now < 2 ^ 64) }
        requires room { count self.old + 1 < 2 ^ 100 }
        ensures first { result.0 ≡ hash_of first.now }
        ensures second { result.1 ≡ hash_of second.now }
        ensures count { count self.new ≡ count self.old + 2 }
    {
        let of_first = self.make(first);
        let of_second = self.make(second);
        (of_first, of_second)
    }

    /// Returns the hashes of the parents of at most [`MOST_AT_ONCE`] groups: element j of the result is that of group j. Each counts
    /// as one. A maker that can make several at once in less time has a body of its own; the body here calls
    /// [`make`](ParentMaker::make) for one after the other. Elements past the last group may be any hashes.
    fn make_each(&mut self, groups: &[&[Node]]) -> [MerkleHash; MOST_AT_ONCE]
        requires groups { length groups.now ≤ MOST_AT_ONCE }
        requires some { (j : ℕ) → j < length groups.now → 0 < length (get_or (map (λ g. g.now) groups.now) j []) }
        requires few { (j : ℕ) → j < length groups.now → length (get_or (map (λ g. g.now) groups.now) j []) ≤ 9 }
        requires fits { (j : ℕ) → j < length groups.now → total_size (get_or (map (λ g. g.now) groups.now) j []) < 2 ^ 64 }
        requires room { count self.old + length groups.now ≤ 2 ^ 100 }
        ensures hashes { (j : ℕ) → j < length groups.now → get_or result j [] ≡ hash_of (get_or (map (λ g. g.now) groups.now) j []) }
        ensures count { count self.new ≡ count self.old + length groups.now }
    {
        let mut hashes = [MerkleHash::default(); MOST_AT_ONCE];
        'hashes: for j in 0..groups.len() {
            hashes[j] = self.make(groups[j]);
        }
        hashes
    }

    /// Returns the number of hashes that it made.
    fn made(&self) -> u128
        ensures { result ≡ count self.now };
}

/// The maker of the hashes of the Xet format. The hash of a group's parent is the internal node hash of the group's
/// text. The text has one line per node, with the node's hash and size.
#[derive(Debug, Drop)]
pub struct ParentHashes {
    made: u128,
}

impl Model for ParentHashes {
    ghost Value = { ℕ };

    ghost view = { λ hashes. hashes.made };
}

impl ParentHashes {
    /// Makes a maker that has made no hash yet.
    pub fn new() -> Self
        ensures { result ≡ 0 }
    {
        ParentHashes { made: 0 }
    }
}

impl ParentMaker for ParentHashes {
    ghost hash_of = { parent_hash };

    ghost count = { λ hashes. hashes };

    fn make(&mut self, group: &[Node]) -> MerkleHash {
        self.made += 1;
        parent_hash(group)
    }

    fn make_two(&mut self, first: &[Node], second: &[Node]) -> (MerkleHash, MerkleHash) {
        self.made += 2;
        two_parent_hashes(first, second)
    }

    fn make_each(&mut self, groups: &[&[Node]]) -> [MerkleHash; MOST_AT_ONCE] {
        self.made += groups.len() as u128;
        parent_hashes(groups)
    }

    fn made(&self) -> u128 {
        self.made
    }
}

//! Groups of nodes and their parents. This ports part of the module `aggregated_hashes` of the crate
//! `xet-core-structures`.
//!
//! A list of nodes is cut into groups, and each group becomes a parent. The hash of the parent is the hash of the
//! group's text. Its size is the sum of the sizes in the group.

ghost use Rattle.std.specs.Prelude.{◌≡◌, ℕ, ◌+◌, ◌^◌, ◌<◌, ◌≤◌, ◌*◌, ◌++◌, [], get_or, length, map, take, drop, slice_index, IsSome, SomeIff};
ghost use Rattle.xet_roots.specs.Groups.{Node, IsGroup, is_cut};
ghost use Rattle.xet_roots.specs.Roots.{total_size, node_line, group_text, parent_hash, parent};
ghost use Rattle.xet_roots.specs.Steps.Places.{IsListed};
ghost use Rattle.xet_roots.specs.Steps.Scan.{IsFirstGroup, AreFirstGroups, StayFirstGroups};

use crate::aggregated_hashes::Node;
use crate::sizes::write_size;
use xet_hash::blake3::{SLOT_LEN, SLOTS};
use xet_hash::data_hash::{
    MerkleHash, compute_internal_node_hash, compute_internal_node_hashes_in_slots,
    compute_two_internal_node_hashes,
};

/// One in this many hashes is a natural cut. A group has 5.5 nodes on average, since no group ends before its third
/// node unless the list does, and none has more than nine.
pub const AGGREGATED_HASHES_MEAN_TREE_BRANCHING_FACTOR: u64 = 4;

/// The fewest nodes of a group that another group follows.
pub const MIN_GROUP_LEN: usize = 3;

/// The most nodes of a group.
pub const MAX_GROUP_LEN: usize = 9;

/// The most groups whose parents are made at once.
pub const MOST_AT_ONCE: usize = 64;

// The first index in a group at which a natural cut ends the group.
const FIRST_CUT_INDEX: usize = MIN_GROUP_LEN - 1;

// The most bytes of a node's line: 64 digits, 3 characters, 20 digits and a newline.
const MAX_LINE_LEN: usize = 88;

// The most bytes of a group's text.
const MAX_TEXT_LEN: usize = MAX_GROUP_LEN * MAX_LINE_LEN;

/// Returns whether a node is a natural cut.
#[tactic(auto, unfolding(crate::specs::Groups::is_cut))]
pub fn is_natural_cut(node: &Node) -> bool
    ensures { result ≡ is_cut node.now }
{
    node.0 % AGGREGATED_HASHES_MEAN_TREE_BRANCHING_FACTOR == 0
}

/// Returns the number of nodes in the first group of some nodes, of which there is at least one.
pub fn first_group_len(nodes: &[Node]) -> usize
    requires { 0 < length nodes.now }
    ensures bound { result ≤ length nodes.now }
    ensures first { IsFirstGroup (take result nodes.now) (drop result nodes.now) }
{
    let longest = nodes.len().min(MAX_GROUP_LEN);
    'scan: for i in FIRST_CUT_INDEX..longest {
        if is_natural_cut(&nodes[i]) {
            return i + 1;
        }
    }
    longest
}

// The nodes of as many groups as have their parents made at once, if each has as many as it may. Of so many nodes, none of these
// groups ends only because the nodes do.
pub(crate) const ENOUGH: usize = MOST_AT_ONCE * MAX_GROUP_LEN;

// The fewest nodes whose groups are taken several at a time.
pub(crate) const SEVERAL: usize = SLOTS * MAX_GROUP_LEN;

// Writes the first groups of some nodes to `groups`, as many as there is room for. Returns how many groups and how many nodes these are.
// If there are enough nodes, the groups stay the same whatever nodes follow.
pub(crate) fn first_groups<'a>(
    nodes: &'a [Node],
    groups: &mut [&'a [Node]; MOST_AT_ONCE],
) -> (usize, usize)
    ensures within { (result.0 ≤ MOST_AT_ONCE) × (result.0 ≤ result.1) × (result.1 ≤ length nodes.now) }
    ensures some { 0 < length nodes.now → 0 < result.0 }
    ensures room { length groups.new ≡ MOST_AT_ONCE }
    ensures first { AreFirstGroups nodes.now (take result.0 (map (λ g. g.now) groups.new)) (drop result.1 nodes.now) }
    ensures stay { ENOUGH ≤ length nodes.now →
        StayFirstGroups nodes.now (take result.0 (map (λ g. g.now) groups.new)) (drop result.1 nodes.now) }
    ensures groups { (j : ℕ) → j < result.0 → IsGroup (get_or (map (λ g. g.now) groups.new) j []) }
    ensures sizes { (j : ℕ) → j < result.0 → total_size (get_or (map (λ g. g.now) groups.new) j []) ≤ total_size nodes.now }
{
    let mut count = 0;
    let mut read = 0;
    let mut rest = nodes;
    'groups: while count < MOST_AT_ONCE && !rest.is_empty() {
        let len = first_group_len(rest);
        let (group, after) = rest.split_at(len);
        groups[count] = group;
        count += 1;
        read += len;
        rest = after;
    }
    (count, read)
}

// Writes bytes into a text at a place. Returns where they end.
#[inline]
fn write_bytes(text: &mut [u8], bytes: &[u8], at: usize) -> usize
    requires { at + length bytes.now ≤ length text.old }
    ensures end { result ≡ at + length bytes.now }
    ensures size { length text.new ≡ length text.old }
    ensures written { take result text.new ≡ take at text.old ++ bytes.now }
{
    let end = at + bytes.len();
    text[at..end].copy_from_slice(bytes);
    end
}

// Writes a node's line into a text at a place. Returns where it ends.
#[tactic(auto, unfolding(crate::specs::Roots::node_line))]
fn write_line(text: &mut [u8], node: &Node, at: usize) -> usize
    requires { at + MAX_LINE_LEN ≤ length text.old }
    ensures end { result ≤ at + MAX_LINE_LEN }
    ensures size { length text.new ≡ length text.old }
    ensures written { take result text.new ≡ take at text.old ++ node_line node.now }
{
    let (hash, size) = *node;
    let at = write_bytes(text, &hash.hex_digits(), at);
    let at = write_bytes(text, b" : ", at);
    let at = write_size(text, size, at);
    write_bytes(text, b"\n", at)
}

// Writes the text of a group, one line per node, at the start of `text`. Returns its length. It stays a function, so that machine code
// that hashes texts can be run on any text, apart from what writes them.
#[inline(never)]
fn write_text(text: &mut [u8], group: &[Node]) -> usize
    requires few { length group.now ≤ MAX_GROUP_LEN }
    requires room { length text.old ≡ MAX_TEXT_LEN }
    ensures size { length text.new ≡ MAX_TEXT_LEN }
    ensures within { result ≤ MAX_TEXT_LEN }
    ensures written { take result text.new ≡ group_text group.now }
{
    let mut end = 0;
    'lines: for i in 0..group.len() {
        end = write_line(text, &group[i], end);
    }
    end
}

/// Returns the sum of the sizes of some nodes, or `None` if it is more than `u64::MAX`. The sum of one size never is.
pub fn total_size(nodes: &[Node]) -> Option<u64>
    ensures short { length nodes.now ≤ 1 → IsSome result }
    ensures total { SomeIff result (total_size nodes.now < 2 ^ 64) (total_size nodes.now) }
{
    let mut total = 0u64;
    for (_, size) in nodes {
        total = total.checked_add(*size)?;
    }
    Some(total)
}

// Returns the hash of a group's parent.
#[tactic(auto, unfolding(crate::specs::Roots::parent_hash))]
pub(crate) fn parent_hash(group: &[Node]) -> MerkleHash
    requires { length group.now ≤ MAX_GROUP_LEN }
    ensures { result ≡ parent_hash group.now }
{
    let mut text = [0; MAX_TEXT_LEN];
    let len = write_text(&mut text, group);
    compute_internal_node_hash(&text[..len])
}

// Returns the hashes of two groups' parents. The two texts are hashed at once.
#[inline(never)]
#[tactic(auto, unfolding(crate::specs::Roots::parent_hash))]
pub(crate) fn two_parent_hashes(first: &[Node], second: &[Node]) -> (MerkleHash, MerkleHash)
    requires first { length first.now ≤ MAX_GROUP_LEN }
    requires second { length second.now ≤ MAX_GROUP_LEN }
    ensures first { result.0 ≡ parent_hash first.now }
    ensures second { result.1 ≡ parent_hash second.now }
{
    let mut first_text = [0; MAX_TEXT_LEN];
    let first_len = write_text(&mut first_text, first);
    let mut second_text = [0; MAX_TEXT_LEN];
    let second_len = write_text(&mut second_text, second);
    compute_two_internal_node_hashes(&first_text[..first_len], &second_text[..second_len])
}

// Writes the text of a group at the start of a slot. Returns its length.
#[inline(always)]
fn put_text(slot: &mut [u8; SLOT_LEN], group: &[Node]) -> usize
    requires { length group.now ≤ MAX_GROUP_LEN }
    ensures size { length slot.new ≡ 1024 }
    ensures within { result ≤ MAX_TEXT_LEN }
    ensures written { take result slot.new ≡ group_text group.now }
{
    write_text(&mut slot[..MAX_TEXT_LEN], group)
}

// Writes the hashes of the parents of the groups at some places to these places. The texts are hashed side by side.
fn hash_at(
    groups: &[&[Node]],
    places: &[usize],
    slots: &mut [[u8; SLOT_LEN]; SLOTS],
    hashes: &mut [MerkleHash; MOST_AT_ONCE],
)
    requires groups { length groups.now ≤ MOST_AT_ONCE }
    requires few { (j : ℕ) → j < length groups.now → length (get_or (map (λ g. g.now) groups.now) j []) ≤ MAX_GROUP_LEN }
    requires sizes { (j : ℕ) → j < 16 → length (get_or slots.old j []) ≡ 1024 }
    requires places { (length places.now ≤ 16) × ((k : ℕ) → k < length places.now → slice_index places.now k < length groups.now) }
    ensures sizes { (j : ℕ) → j < 16 → length (get_or slots.new j []) ≡ 1024 }
    ensures hashed { (k : ℕ) → k < length places.now → get_or hashes.new (slice_index places.now k) []
        ≡ parent_hash (get_or (map (λ g. g.now) groups.now) (slice_index places.now k) []) }
    ensures kept { (j : ℕ) → get_or hashes.old j [] ≡ parent_hash (get_or (map (λ g. g.now) groups.now) j [])
        → get_or hashes.new j [] ≡ parent_hash (get_or (map (λ g. g.now) groups.now) j []) }
{
    let mut lens = [0; SLOTS];
    'texts: for k in 0..places.len() {
        lens[k] = put_text(&mut slots[k], groups[places[k]]);
    }
    let of_each = compute_internal_node_hashes_in_slots(slots, &lens[..places.len()]);
    'hashes: for k in 0..places.len() {
        hashes[places[k]] = of_each[k];
    }
}

// The places of groups, listed by the number of nodes that the groups have.
struct ByLen {
    lists: [[u8; MOST_AT_ONCE]; MAX_GROUP_LEN + 1],
    counts: [usize; MAX_GROUP_LEN + 1],
}

// Lists the places of groups by the number of nodes that the groups have.
#[inline(always)]
fn by_len(groups: &[&[Node]]) -> ByLen
    requires groups { length groups.now ≤ MOST_AT_ONCE }
    requires few { (j : ℕ) → j < length groups.now → length (get_or (map (λ g. g.now) groups.now) j []) ≤ MAX_GROUP_LEN }
    ensures sizes { (length result.lists ≡ 10) × (length result.counts ≡ 10) }
    ensures lists { (len : ℕ) → len < 10 → length (get_or result.lists len []) ≡ MOST_AT_ONCE }
    ensures counts { (len : ℕ) → slice_index result.counts len ≤ MOST_AT_ONCE }
    ensures within { (len k : ℕ) → k < slice_index result.counts len → slice_index (get_or result.lists len []) k < length groups.now }
    ensures listed { (j : ℕ) → j < length groups.now
        → IsListed result.lists result.counts (length (get_or (map (λ g. g.now) groups.now) j [])) j }
{
    let mut lists = [[0; MOST_AT_ONCE]; MAX_GROUP_LEN + 1];
    let mut counts = [0; MAX_GROUP_LEN + 1];
    'groups: for j in 0..groups.len() {
        let len = groups[j].len();
        let count = counts[len];
        lists[len][count] = j as u8;
        counts[len] = count + 1;
    }
    ByLen { lists, counts }
}

// Returns the hashes of groups' parents. Groups with as many nodes have their texts hashed together, since these have about as many
// blocks.
#[inline(never)]
pub(crate) fn parent_hashes(groups: &[&[Node]]) -> [MerkleHash; MOST_AT_ONCE]
    requires groups { length groups.now ≤ MOST_AT_ONCE }
    requires few { (j : ℕ) → j < length groups.now → length (get_or (map (λ g. g.now) groups.now) j []) ≤ MAX_GROUP_LEN }
    ensures { (j : ℕ) → j < length groups.now → get_or result j [] ≡ parent_hash (get_or (map (λ g. g.now) groups.now) j []) }
{
    let ByLen { lists, counts } = by_len(groups);
    let mut hashes = [MerkleHash::default(); MOST_AT_ONCE];
    let mut slots = [[0; SLOT_LEN]; SLOTS];
    let mut places = [0; SLOTS];
    let mut count = 0;
    'lens: for len in 0..MAX_GROUP_LEN + 1 {
        'listed: for i in 0..counts[len] {
            places[count] = lists[len][i] as usize;
            count += 1;
            if count == SLOTS {
                hash_at(groups, &places, &mut slots, &mut hashes);
                count = 0;
            }
        }
    }
    hash_at(groups, &places[..count], &mut slots, &mut hashes);
    hashes
}

// Returns the sum of the sizes in a group.
pub(crate) fn group_size(group: &[Node]) -> u64
    requires { total_size group.now < 2 ^ 64 }
    ensures { result ≡ total_size group.now }
{
    group.iter().map(|node| node.1).sum()
}

// Returns the parent of a group.
pub(crate) fn parent(group: &[Node]) -> Node
    requires few { length group.now ≤ MAX_GROUP_LEN }
    requires fits { total_size group.now < 2 ^ 64 }
    ensures { result ≡ parent group.now }
{
    (parent_hash(group), group_size(group))
}

// Returns the parents of two groups.
pub(crate) fn two_parents(first: &[Node], second: &[Node]) -> (Node, Node)
    requires few { (length first.now ≤ MAX_GROUP_LEN) × (length second.now ≤ MAX_GROUP_LEN) }
    requires fits { (total_size first.now < 2 ^ 64) × (total_size second.now < 2 ^ 64) }
    ensures first { result.0 ≡ parent first.now }
    ensures second { result.1 ≡ parent second.now }
{
    let (of_first, of_second) = two_parent_hashes(first, second);
    (
        (of_first, group_size(first)),
        (of_second, group_size(second)),
    )
}

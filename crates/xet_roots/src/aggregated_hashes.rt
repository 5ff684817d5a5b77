//! The root and the file hash of a list of chunks. This ports the module `aggregated_hashes` of the crate
//! `xet-core-structures`.
//!
//! The root of a list is the root of the parents of its groups.

ghost use Rattle.std.specs.Prelude.{◌≡◌, ◌⊎◌, ◌+◌, ◌^◌, ◌<◌, ◌≤◌, ◌↔◌, ◌++◌, List, drop, length, map, replicate, take, IsOk, IfOk, IfErr, IsErrOf, IsFalse, IsTrue};
ghost use Rattle.xet_roots.specs.Groups.{Node};
ghost use Rattle.xet_roots.specs.Roots.{total_size, parent_by, parent, salted_root, IsRoot, IsFileHash};
ghost use Rattle.xet_roots.specs.Steps.Scan.{AreFirstGroups, AreParents, MadeSoFar, PushesParents, StayFirstGroups};
ghost use Rattle.xet_roots.specs.Steps.Room.{most_made};

use crate::error::CoreError;
pub use crate::groups::AGGREGATED_HASHES_MEAN_TREE_BRANCHING_FACTOR;
use crate::groups::{
    ENOUGH, MIN_GROUP_LEN, MOST_AT_ONCE, SEVERAL, first_group_len, first_groups, group_size,
    parent, total_size, two_parents,
};
use crate::parent_maker::{ParentHashes, ParentMaker};
use std::alloc::{AllocError, Allocator};
use xet_hash::data_hash::{HMACKey, MerkleHash};

/// A node of the tree over a list of chunks: its hash, and its size in bytes.
pub type Node = (MerkleHash, u64);

// Returns the parents of the first groups of some nodes, as many as are made at once; how many they are; and how many nodes they have.
// If there are enough nodes, the groups stay the same whatever nodes follow.
pub(crate) fn first_parents<P: ParentMaker>(
    nodes: &[Node],
    maker: &mut P,
) -> ([Node; MOST_AT_ONCE], usize, usize)
    requires fits { total_size nodes.now < 2 ^ 64 }
    requires room { P.count maker.old + MOST_AT_ONCE ≤ 2 ^ 100 }
    ensures within { (result.1 ≤ MOST_AT_ONCE) × (result.1 ≤ result.2) × (result.2 ≤ length nodes.now) }
    ensures some { 0 < length nodes.now → 0 < result.1 }
    ensures size { length result.0 ≡ MOST_AT_ONCE }
    ensures parents { (groups : List (List Node)) × AreFirstGroups nodes.now groups (drop result.2 nodes.now)
        × (take result.1 result.0 ≡ map (parent_by P.hash_of) groups)
        × (ENOUGH ≤ length nodes.now → StayFirstGroups nodes.now groups (drop result.2 nodes.now)) }
    ensures count { P.count maker.new ≡ P.count maker.old + result.1 }
{
    let mut groups: [&[Node]; MOST_AT_ONCE] = [&[]; MOST_AT_ONCE];
    let (count, read) = first_groups(nodes, &mut groups);
    let hashes = maker.make_each(&groups[..count]);
    let mut parents = [(MerkleHash::default(), 0); MOST_AT_ONCE];
    'parents: for j in 0..count {
        parents[j] = (hashes[j], group_size(groups[j]));
    }
    (parents, count, read)
}

// Adds the parents of the first groups of some nodes to a list, as many as are made at once. Returns how many nodes these groups have. If
// there are enough nodes, the groups stay the same whatever nodes follow. It stays a function, since it clears memory for all the parents
// that there may be.
#[inline(never)]
pub(crate) fn push_first_parents<A: Allocator, P: ParentMaker>(
    made: &mut Vec<Node, A>,
    nodes: &[Node],
    maker: &mut P,
) -> Result<usize, AllocError>
    requires some { 0 < length nodes.now }
    requires fits { total_size nodes.now < 2 ^ 64 }
    requires room { P.count maker.old + MOST_AT_ONCE ≤ 2 ^ 100 }
    ensures within { IfOk result (λ read. (0 < read) × (read ≤ length nodes.now)) }
    ensures parents { IfOk result (λ read. (groups : List (List Node)) × AreFirstGroups nodes.now groups (drop read nodes.now)
        × (made.new.items ≡ made.old.items ++ map (parent_by P.hash_of) groups)
        × (ENOUGH ≤ length nodes.now → StayFirstGroups nodes.now groups (drop read nodes.now))) }
    ensures few { IfOk result (λ read. length made.new.items ≤ length made.old.items + read) }
    ensures count { IfOk result (λ _. P.count maker.new + length made.old.items ≡ P.count maker.old + length made.new.items) }
{
    let (parents, count, read) = first_parents(nodes, maker);
    made.extend_from_slice(&parents[..count])?;
    Ok(read)
}

// Adds the parents of the groups of some nodes to a list. The hashes come from a maker. Few groups go two by two, since
// a call for several has to clear memory for all that there may be.
pub(crate) fn push_parents<A: Allocator, P: ParentMaker>(
    made: &mut Vec<Node, A>,
    nodes: &[Node],
    maker: &mut P,
) -> Result<(), AllocError>
    requires fits { total_size nodes.now < 2 ^ 64 }
    requires few { length made.old.items + length nodes.now < 2 ^ 64 }
    requires room { P.count maker.old ≤ most_made + length made.old.items }
    ensures parents { IfOk result (λ _. PushesParents (parent_by P.hash_of) nodes.now made.old.items made.new.items) }
    ensures count { IfOk result (λ _. P.count maker.new + length made.old.items ≡ P.count maker.old + length made.new.items) }
    ensures few { IfOk result (λ _. length made.new.items < 2 ^ 64) }
{
    let mut rest = nodes;
    'batches: while rest.len() >= SEVERAL {
        let read = push_first_parents(made, rest, maker)?;
        let (_, after) = rest.split_at(read);
        rest = after;
    }
    'groups: while !rest.is_empty() {
        let (first, after) = rest.split_at(first_group_len(rest));
        if after.is_empty() {
            return Ok(made.push((maker.make(first), group_size(first)))?);
        }
        let (second, after) = after.split_at(first_group_len(after));
        let (of_first, of_second) = maker.make_two(first, second);
        made.push((of_first, group_size(first)))?;
        made.push((of_second, group_size(second)))?;
        rest = after;
    }
    Ok(())
}

/// Returns the parents of the groups of some nodes, in a new list. The hashes come from a maker.
pub fn parents<A: Allocator, P: ParentMaker>(
    alloc: A,
    nodes: &[Node],
    maker: &mut P,
) -> Result<Vec<Node, A>, AllocError>
    requires fits { total_size nodes.now < 2 ^ 64 }
    requires room { P.count maker.old ≤ most_made }
    ensures parents { IfOk result (λ made. AreParents (parent_by P.hash_of) nodes.now made.items) }
    ensures count { IfOk result (λ made. P.count maker.new ≡ P.count maker.old + length made.items) }
    ensures few { IfOk result (λ made. length made.items < 2 ^ 64) }
{
    // Each group but the last has at least three nodes.
    let mut made = Vec::with_capacity(alloc, nodes.len().div_ceil(MIN_GROUP_LEN))?;
    push_parents(&mut made, nodes, maker)?;
    Ok(made)
}

// Replaces nodes by the parents of their first groups, several at a time, in place. Returns how many parents they are, and where the nodes
// that are left begin. It stays a function for the same reason.
#[inline(never)]
fn shrink_several<A: Allocator>(nodes: &mut Vec<Node, A>) -> (usize, usize)
    requires { total_size nodes.old.items < 2 ^ 64 }
    ensures within { (result.0 ≤ result.1) × (result.1 ≤ length nodes.new.items) }
    ensures so_far { MadeSoFar parent nodes.old.items (take result.0 nodes.new.items) (drop result.1 nodes.new.items) }
    ensures fits { total_size (drop result.1 nodes.new.items) ≤ total_size nodes.old.items }
{
    let mut made = 0;
    let mut read = 0;
    'batches: while nodes.len() - read >= SEVERAL {
        let (parents, count, more) = first_parents(&nodes[read..], &mut ParentHashes::new());
        'parents: for j in 0..count {
            nodes[made + j] = parents[j];
        }
        made += count;
        read += more;
    }
    (made, read)
}

// Replaces nodes by the parents of their groups, in place.
fn shrink<A: Allocator>(nodes: &mut Vec<Node, A>)
    requires { total_size nodes.old.items < 2 ^ 64 }
    ensures { AreParents parent nodes.old.items nodes.new.items }
{
    let (mut made, mut read) = (0, 0);
    if nodes.len() >= SEVERAL {
        (made, read) = shrink_several(nodes);
    }
    'groups: while read < nodes.len() {
        let rest = &nodes[read..];
        let first = first_group_len(rest);
        let (group, after) = rest.split_at(first);
        if after.is_empty() {
            nodes[made] = parent(group);
            nodes.truncate(made + 1);
            return;
        }
        let second = first_group_len(after);
        let (of_first, of_second) = two_parents(group, &after[..second]);
        nodes[made] = of_first;
        nodes[made + 1] = of_second;
        made += 2;
        read += first + second;
    }
    nodes.truncate(made);
}

// Returns the root of a list that has a node. It works in the memory of the list.
pub(crate) fn root<A: Allocator>(mut nodes: Vec<Node, A>) -> MerkleHash
    requires some { 0 < length nodes.items }
    requires fits { total_size nodes.items < 2 ^ 64 }
    ensures { IsRoot nodes.items result }
{
    'levels: while nodes.len() > 1 {
        shrink(&mut nodes);
    }
    nodes[0].0
}

/// Returns the root of a list of chunks. With no chunks it is the default hash. With one it is the chunk's own hash.
/// With more it is the root of the parents of the list's groups.
///
/// Fails with [`CoreError::SizeOverflow`] if the sizes add up to more than `u64::MAX`, before it allocates. Fails with
/// [`CoreError::OutOfMemory`] if an allocation fails. With at most one chunk it allocates nothing and never fails.
pub fn xorb_hash<A: Allocator>(alloc: A, chunks: &[Node]) -> Result<MerkleHash, CoreError>
    ensures root { IfOk result (IsRoot chunks.now) }
    ensures overflow { IsErrOf result CoreError.SizeOverflow ↔ (2 ^ 64 ≤ total_size chunks.now) }
    ensures errors { IfErr result (λ e. (e ≡ CoreError.SizeOverflow) ⊎ (e ≡ CoreError.OutOfMemory)) }
    ensures short { length chunks.now ≤ 1 → IsOk result }
{
    if total_size(chunks).is_none() {
        return Err(CoreError::SizeOverflow);
    }
    match chunks {
        [] => Ok(MerkleHash::default()),
        [(hash, _)] => Ok(*hash),
        _ => Ok(root(parents(alloc, chunks, &mut ParentHashes::new())?)),
    }
}

/// Returns the file hash of a list of chunks under a salt. With no chunks it is the default hash, whatever the salt.
/// Otherwise it is the [`hmac`](xet_hash::data_hash::DataHash::hmac) of the root under the 32 bytes of the salt.
///
/// Fails like [`xorb_hash`], in the same order.
pub fn file_hash_with_salt<A: Allocator>(
    alloc: A,
    chunks: &[Node],
    salt: &[u8; 32],
) -> Result<MerkleHash, CoreError>
    ensures file { IfOk result (IsFileHash chunks.now salt.now) }
    ensures overflow { IsErrOf result CoreError.SizeOverflow ↔ (2 ^ 64 ≤ total_size chunks.now) }
    ensures errors { IfErr result (λ e. (e ≡ CoreError.SizeOverflow) ⊎ (e ≡ CoreError.OutOfMemory)) }
    ensures short { length chunks.now ≤ 1 → IsOk result }
{
    let root = xorb_hash(alloc, chunks)?;
    Ok(file_hash_of_root(root, chunks.is_empty(), salt))
}

/// Returns the file hash of a list of chunks under a salt, given their root. The chunks are not needed. With no chunks
/// it is the root, which is the default hash, whatever the salt. Otherwise it is the
/// [`hmac`](xet_hash::data_hash::DataHash::hmac) of the root under the 32 bytes of the salt.
///
/// The caller passes whether the list is empty, since the root doesn't show it: a list of one chunk has the chunk's own
/// hash as its root, and that may be the default hash too.
pub fn file_hash_of_root(root: MerkleHash, is_empty: bool, salt: &[u8; 32]) -> MerkleHash
    ensures chunks { (chunks : List Node) → IsRoot chunks root → (IsTrue is_empty ↔ (length chunks ≡ 0)) →
        IsFileHash chunks salt.now result }
    ensures none { IsTrue is_empty → result ≡ root }
    ensures some { IsFalse is_empty → result ≡ salted_root salt.now root }
{
    if is_empty {
        return root;
    }
    root.hmac(HMACKey::from(salt))
}

/// Returns the file hash of a list of chunks without a salt. It is the file hash under 32 zero bytes.
///
/// Fails like [`xorb_hash`], in the same order.
pub fn file_hash<A: Allocator>(alloc: A, chunks: &[Node]) -> Result<MerkleHash, CoreError>
    ensures file { IfOk result (IsFileHash chunks.now (replicate 32 0)) }
    ensures overflow { IsErrOf result CoreError.SizeOverflow ↔ (2 ^ 64 ≤ total_size chunks.now) }
    ensures errors { IfErr result (λ e. (e ≡ CoreError.SizeOverflow) ⊎ (e ≡ CoreError.OutOfMemory)) }
    ensures short { length chunks.now ≤ 1 → IsOk result }
{
    file_hash_with_salt(alloc, chunks, &[0; 32])
}

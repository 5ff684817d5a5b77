//! Roots of lists whose elements are nodes in a form of the caller's own, such as chunks as C passes them. The list is read piece by
//! piece, so no copy of it is made: beside it there are only the parents of its groups.

ghost use Rattle.std.specs.Prelude.{◌≡◌, ◌⊎◌, ◌+◌, ◌^◌, ◌<◌, ◌≤◌, ◌↔◌, ◌++◌, length, map, min, take, IsOk, IsSome, IfOk, IfErr, IsErrOf, SomeIff};
ghost use Rattle.xet_roots.specs.Groups.{Node};
ghost use Rattle.xet_roots.specs.Roots.{total_size, parent_by, IsRoot};
ghost use Rattle.xet_roots.specs.Steps.Scan.{AreParents};
ghost use Rattle.xet_roots.specs.Steps.Room.{most_made};

use crate::aggregated_hashes::{Node, push_first_parents, push_parents, root};
use crate::error::CoreError;
use crate::groups::{ENOUGH, MIN_GROUP_LEN};
use crate::parent_maker::{ParentHashes, ParentMaker};
use std::alloc::{AllocError, Allocator};
use xet_hash::data_hash::MerkleHash;

/// A node in a form of the caller's own.
pub trait AsNode {
    // The node.
    ghost node_of: { Self → Node };

    /// Returns the node: its hash, and its size in bytes.
    fn node(&self) -> Node
        ensures { result ≡ node_of self.now };
}

impl AsNode for Node {
    ghost node_of = { λ node. node };

    fn node(&self) -> Node {
        *self
    }
}

/// Returns the sum of the sizes of some nodes, or `None` if it is more than `u64::MAX`. The sum of one size never is.
pub fn total_size_of<T: AsNode>(nodes: &[T]) -> Option<u64>
    ensures short { length nodes.now ≤ 1 → IsSome result }
    ensures total { SomeIff result (total_size (map T.node_of nodes.now) < 2 ^ 64) (total_size (map T.node_of nodes.now)) }
{
    let mut total = 0u64;
    'sizes: for node in nodes {
        total = total.checked_add(node.node().1)?;
    }
    Some(total)
}

// Adds nodes to a list.
fn push_nodes<A: Allocator, T: AsNode>(
    read: &mut Vec<Node, A>,
    nodes: &[T],
) -> Result<(), AllocError>
    ensures { IfOk result (λ _. read.new.items ≡ read.old.items ++ map T.node_of nodes.now) }
{
    'nodes: for node in nodes {
        read.push(node.node())?;
    }
    Ok(())
}

/// Returns all nodes of a list, in a new list.
pub fn read_nodes<A: Allocator, T: AsNode>(
    alloc: A,
    nodes: &[T],
) -> Result<Vec<Node, A>, AllocError>
    ensures { IfOk result (λ read. read.items ≡ map T.node_of nodes.now) }
{
    let mut read = Vec::with_capacity(alloc, nodes.len())?;
    push_nodes(&mut read, nodes)?;
    Ok(read)
}

// Reads the first nodes of a list into a piece, as many as are enough, or all if there are fewer.
fn read_piece<A: Allocator, T: AsNode>(
    piece: &mut Vec<Node, A>,
    nodes: &[T],
) -> Result<(), AllocError>
    ensures { IfOk result (λ _. piece.new.items ≡ map T.node_of (take ENOUGH nodes.now)) }
{
    piece.clear();
    let (first, _) = nodes.split_at(ENOUGH.min(nodes.len()));
    push_nodes(piece, first)?;
    Ok(())
}

/// Returns the parents of the groups of a list, in a new list. The hashes come from a maker.
pub fn parents_of<A: Allocator + Clone, T: AsNode, P: ParentMaker>(
    alloc: A,
    nodes: &[T],
    maker: &mut P,
) -> Result<Vec<Node, A>, AllocError>
    requires fits { total_size (map T.node_of nodes.now) < 2 ^ 64 }
    requires room { P.count maker.old ≤ most_made }
    ensures parents { IfOk result (λ made. AreParents (parent_by P.hash_of) (map T.node_of nodes.now) made.items) }
    ensures count { IfOk result (λ made. P.count maker.new ≡ P.count maker.old + length made.items) }
    ensures few { IfOk result (λ made. length made.items < 2 ^ 64) }
{
    // Each group but the last has at least three nodes.
    let mut made = Vec::with_capacity(alloc.clone()?, nodes.len().div_ceil(MIN_GROUP_LEN))?;
    let mut piece = Vec::with_capacity(alloc, nodes.len().min(ENOUGH))?;
    let mut rest = nodes;
    'pieces: while rest.len() > ENOUGH {
        read_piece(&mut piece, rest)?;
        let read = push_first_parents(&mut made, &piece, maker)?;
        let (_, after) = rest.split_at(read);
        rest = after;
    }
    read_piece(&mut piece, rest)?;
    push_parents(&mut made, &piece, maker)?;
    Ok(made)
}

/// Returns the root of a list of chunks. With no chunks it is the default hash. With one it is the chunk's own hash.
/// With more it is the root of the parents of the list's groups.
///
/// Fails like [`xorb_hash`](crate::aggregated_hashes::xorb_hash), in the same order.
pub fn xorb_hash_of<A: Allocator + Clone, T: AsNode>(
    alloc: A,
    chunks: &[T],
) -> Result<MerkleHash, CoreError>
    ensures root { IfOk result (IsRoot (map T.node_of chunks.now)) }
    ensures overflow { IsErrOf result CoreError.SizeOverflow ↔ (2 ^ 64 ≤ total_size (map T.node_of chunks.now)) }
    ensures errors { IfErr result (λ e. (e ≡ CoreError.SizeOverflow) ⊎ (e ≡ CoreError.OutOfMemory)) }
    ensures short { length chunks.now ≤ 1 → IsOk result }
{
    if total_size_of(chunks).is_none() {
        return Err(CoreError::SizeOverflow);
    }
    match chunks {
        [] => Ok(MerkleHash::default()),
        [chunk] => Ok(chunk.node().0),
        _ => Ok(root(parents_of(alloc, chunks, &mut ParentHashes::new())?)),
    }
}

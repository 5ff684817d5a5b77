//! The binary form of a range proof.

ghost use Rattle.std.specs.Prelude.{◌≡◌, ◌⊎◌, ℕ, ◌%◌, ◌^◌, ◌<◌, ◌++◌, length, map, IfOk, IfErr, OnOk};
ghost use Rattle.std.specs.List.{flat_map};
ghost use Rattle.xet_hash.specs.Hash.{IsHash};
ghost use Rattle.xet_roots.specs.declared.error.CoreError.TheVariants.{InvalidLists};
ghost use Rattle.level_nodes.specs.FlatLevels.{count_of};
ghost use Rattle.range_proof.specs.ProofJson.{HasFewBeside};
ghost use Rattle.range_proof.specs.ProofBytes.{AreNodes, BreakRule, SayProof, count_bytes, node_bytes};

use crate::flat::nodes_of;
use crate::proof::RangeProof;
use crate::reading::read_all_words;
use level_nodes::levels::LevelNodes;
use std::alloc::{AllocError, Allocator};
use xet_hash::data_hash::MerkleHash;
use xet_roots::aggregated_hashes::Node;
use xet_roots::error::CoreError;

// The number of bytes of a node.
const NODE_LEN: usize = 40;

// Appends the numbers of nodes on both sides of each level, two bytes for each.
fn put_counts<A: Allocator>(
    bytes: &mut Vec<u8, A>,
    levels: &[LevelNodes<A>],
) -> Result<(), AllocError>
    requires { HasFewBeside levels.now }
    ensures { OnOk result (bytes.new.items ≡ bytes.old.items ++ count_bytes (map count_of levels.now)) }
{
    'levels: for level in levels {
        bytes.push(level.left().len() as u8)?;
        bytes.push(level.right().len() as u8)?;
    }
    Ok(())
}

// Appends some nodes, 40 bytes each.
fn put_nodes<A: Allocator>(bytes: &mut Vec<u8, A>, nodes: &[Node]) -> Result<(), AllocError>
    ensures { OnOk result (bytes.new.items ≡ bytes.old.items ++ flat_map node_bytes nodes.now) }
{
    'nodes: for (hash, size) in nodes {
        bytes.extend_from_slice(&hash.as_bytes())?;
        bytes.extend_from_slice(&size.to_le_bytes())?;
    }
    Ok(())
}

// Returns the counts of some levels, which have two bytes each.
fn read_counts<A: Allocator>(alloc: A, bytes: &[u8]) -> Result<Vec<(usize, usize), A>, AllocError>
    requires { length bytes.now % 2 ≡ 0 }
    ensures { IfOk result (λ counts. count_bytes counts.items ≡ bytes.now) }
{
    let mut counts = Vec::with_capacity(alloc, bytes.len() / 2)?;
    let mut rest = bytes;
    'counts: while let [left, right, others @ ..] = rest {
        counts.push((usize::from(*left), usize::from(*right)))?;
        rest = others;
    }
    Ok(counts)
}

// Returns the node in 40 bytes.
fn read_node(bytes: &[u8]) -> Node
    requires { length bytes.now ≡ 40 }
    ensures bytes { node_bytes result ≡ bytes.now }
    ensures is_hash { IsHash result.0 }
    ensures fits { result.1 < 2 ^ 64 }
{
    let (of_hash, of_size) = bytes.split_at(32);
    let mut hash = [0; 32];
    hash.copy_from_slice(of_hash);
    let mut size = [0; 8];
    size.copy_from_slice(of_size);
    let hash = MerkleHash::from(&hash);
    // The words of the hash, for the clause `is_hash`.
    let _words = hash.words();
    (hash, u64::from_le_bytes(size))
}

// Returns the nodes in some bytes, which have 40 each.
fn read_nodes<A: Allocator>(alloc: A, bytes: &[u8]) -> Result<Vec<Node, A>, AllocError>
    requires { length bytes.now % 40 ≡ 0 }
    ensures bytes { IfOk result (λ nodes. flat_map node_bytes nodes.items ≡ bytes.now) }
    ensures fit { IfOk result (λ nodes. AreNodes nodes.items) }
{
    let mut nodes = Vec::with_capacity(alloc, bytes.len() / NODE_LEN)?;
    let mut rest = bytes;
    'nodes: while rest.len() >= NODE_LEN {
        let (node, others) = rest.split_at(NODE_LEN);
        nodes.push(read_node(node))?;
        rest = others;
    }
    Ok(nodes)
}

impl<A: Allocator + Clone> RangeProof<A> {
    /// Makes a proof from its binary form, which [`Self::to_bytes`] returns.
    ///
    /// Fails with [`CoreError::InvalidLists`] and the lowest rule that the bytes break. It is one of these, or of the rules
    /// from 5 to 8 of [`Self::from_flat`]:
    ///
    /// - rule 1: there is a first byte;
    /// - rule 3: two bytes follow for each level;
    /// - rule 4: whole nodes follow, of 40 bytes each.
    ///
    /// Fails with [`CoreError::OutOfMemory`] if an allocation fails; this may be returned instead of a rule. Time and
    /// memory are at most proportional to the number of bytes.
    pub fn from_bytes(alloc: A, bytes: &[u8]) -> Result<Self, CoreError>
        ensures says { IfOk result (SayProof bytes.now) }
        ensures errors { IfErr result (λ e. (e ≡ CoreError.OutOfMemory)
            ⊎ ((rule : ℕ) × (e ≡ InvalidLists rule) × BreakRule bytes.now rule)) }
    {
        let [levels, rest @ ..] = bytes else {
            return Err(CoreError::InvalidLists(1));
        };
        let len = 2 * usize::from(*levels);
        if rest.len() < len {
            return Err(CoreError::InvalidLists(3));
        }
        let (counts, nodes) = rest.split_at(len);
        if nodes.len() % NODE_LEN != 0 {
            return Err(CoreError::InvalidLists(4));
        }
        let counts = read_counts(alloc.clone()?, counts)?;
        let nodes = read_nodes(alloc.clone()?, nodes)?;
        RangeProof::from_flat(alloc, &counts, &nodes)
    }

    /// Returns the binary form of the proof: a byte with the number of levels; for each level, from the chunks up, two
    /// bytes with the numbers of its left and right nodes; and all nodes in the order of the file, as in
    /// [`Self::to_flat`], each with the 32 bytes of its hash and the 8 of its size, little-endian.
    ///
    /// Fails with [`CoreError::OutOfMemory`] if an allocation fails.
    pub fn to_bytes(&self) -> Result<Vec<u8, A>, CoreError>
        ensures says { IfOk result (λ bytes. SayProof bytes.items self.now) }
        ensures errors { IfErr result (λ e. e ≡ CoreError.OutOfMemory) }
    {
        // The words of each hash, for the clause `says`.
        read_all_words(self);
        let levels = self.levels();
        let nodes = nodes_of(self.allocator()?, self.chunks(), levels)?;
        let len = nodes
            .len()
            .saturating_mul(NODE_LEN)
            .saturating_add(1 + 2 * levels.len());
        let mut bytes = Vec::with_capacity(self.allocator()?, len)?;
        bytes.push(levels.len() as u8)?;
        put_counts(&mut bytes, levels)?;
        put_nodes(&mut bytes, &nodes)?;
        Ok(bytes)
    }
}

//! Writes the JSON text of a subtree, without a tree of values.

ghost use Rattle.std.specs.Prelude.{◌≡◌, ◌++◌, List, [], map, IfOk, OnOk};
ghost use Rattle.serde_json.specs.Data.{array, boolean};
ghost use Rattle.serde_json.specs.View.{items_of};
ghost use Rattle.serde_json.specs.Written.{compact_text, items_text};
ghost use Rattle.xet_roots.specs.Groups.{Node};
ghost use Rattle.level_nodes.specs.FlatLevels.{count_of, flat_nodes};
ghost use Rattle.level_nodes.specs.NodeJson.{node_json, nodes_json};
ghost use Rattle.xet_merkle.specs.SubtreeJson.{counts_json, subtree_json};

use crate::pieces::{push_comma, push_number, push_truth};
use std::alloc::{AllocError, Global};
use xet_merkle::merkle_hash_subtree::MerkleHashSubtree;
use xet_roots::aggregated_hashes::Node;

// About how many bytes a node takes, and what is around the nodes. A text that is longer makes its room larger.
const PER_NODE: usize = 104;

const AROUND: usize = 512;

// Writes the numbers of left and right nodes of a level as an array.
fn push_counts(text: &mut Vec<u8>, left: usize, right: usize) -> Result<(), AllocError>
    ensures { OnOk result (text.new.items ≡ text.old.items ++ compact_text (counts_json (left, right))) }
{
    text.push(b'[')?;
    push_number(text, left as u64)?;
    text.push(b',')?;
    push_number(text, right as u64)?;
    text.push(b']')?;
    Ok(())
}

// Writes the numbers of left and right nodes of all levels as an array.
fn push_levels(text: &mut Vec<u8>, subtree: &MerkleHashSubtree) -> Result<(), AllocError>
    ensures { OnOk result (text.new.items ≡ text.old.items
        ++ compact_text (array (items_of (map counts_json (map count_of subtree.now.levels))))) }
{
    text.push(b'[')?;
    let mut later = false;
    'levels: for level in 0..subtree.num_levels() {
        let (left, right) = (subtree.left(level), subtree.right(level));
        push_comma(text, later)?;
        push_counts(text, left.len(), right.len())?;
        later = true;
    }
    text.push(b']')?;
    Ok(())
}

// Writes a node as an object of its hash in hex and its size.
#[tactic(auto, unfolding(json::specs::Print::escape_byte))]
fn push_node(text: &mut Vec<u8>, node: &Node) -> Result<(), AllocError>
    ensures { OnOk result (text.new.items ≡ text.old.items ++ compact_text (node_json node.now)) }
{
    text.extend_from_slice(b"{\"hash\":\"")?;
    text.extend_from_slice(&node.0.hex_digits())?;
    text.extend_from_slice(b"\",\"size\":")?;
    push_number(text, node.1)?;
    text.push(b'}')?;
    Ok(())
}

// Writes nodes, each after a comma if something stands before. Returns whether something stands before what follows.
fn push_nodes(text: &mut Vec<u8>, later: bool, nodes: &[Node]) -> Result<bool, AllocError>
    ensures { IfOk result (λ more. (rest : List Node) → text.new.items ++ items_text more (items_of (map node_json rest))
        ≡ text.old.items ++ items_text later (items_of (map node_json (nodes.now ++ rest)))) }
{
    let mut later = later;
    'nodes: for node in nodes {
        push_comma(text, later)?;
        push_node(text, node)?;
        later = true;
    }
    Ok(later)
}

// Writes the nodes of all levels as an array: the left ones, lowest level first, then the right ones, highest level first.
fn push_sides(text: &mut Vec<u8>, subtree: &MerkleHashSubtree) -> Result<(), AllocError>
    ensures { OnOk result (text.new.items ≡ text.old.items ++ compact_text (nodes_json (flat_nodes subtree.now.levels []))) }
{
    text.push(b'[')?;
    let mut later = false;
    'lefts: for level in 0..subtree.num_levels() {
        later = push_nodes(text, later, subtree.left(level))?;
    }
    let mut above = subtree.num_levels();
    'rights: while above > 0 {
        above -= 1;
        later = push_nodes(text, later, subtree.right(above))?;
    }
    text.push(b']')?;
    Ok(())
}

// Writes a subtree as an object of its marks, levels and nodes.
#[tactic(auto, unfolding(json::specs::Print::escape_byte))]
pub(crate) fn push_subtree(
    text: &mut Vec<u8>,
    subtree: &MerkleHashSubtree,
) -> Result<(), AllocError>
    ensures { OnOk result (text.new.items ≡ text.old.items ++ compact_text (subtree_json subtree.now)) }
{
    text.extend_from_slice(b"{\"at_end\":")?;
    push_truth(text, subtree.at_end())?;
    text.extend_from_slice(b",\"at_start\":")?;
    push_truth(text, subtree.at_start())?;
    text.extend_from_slice(b",\"levels\":")?;
    push_levels(text, subtree)?;
    text.extend_from_slice(b",\"nodes\":")?;
    push_sides(text, subtree)?;
    text.push(b'}')?;
    Ok(())
}

/// Returns the compact JSON text of a subtree. Fails if an allocation fails.
pub fn subtree_text(alloc: Global, subtree: &MerkleHashSubtree) -> Result<Vec<u8>, AllocError>
    ensures { IfOk result (λ text. text.items ≡ compact_text (subtree_json subtree.now)) }
{
    let room = subtree.num_nodes().saturating_mul(PER_NODE);
    let mut text = Vec::with_capacity(alloc, room.saturating_add(AROUND))?;
    push_subtree(&mut text, subtree)?;
    Ok(text)
}

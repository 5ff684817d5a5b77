//! Subtrees as flat lists, for binary formats.

ghost use Rattle.std.specs.Prelude.{◌≡◌, ◌≢◌, ◌⊎◌, ◌↔◌, ℕ, ◌+◌, ◌<◌, ◌≤◌, None, [], IsSomeAnd, IfOk, ◌++◌, drop, length, map, take};
ghost use Rattle.xet_merkle.specs.FlatLevels.{IsFlat, count_of, left_nodes, right_nodes};
ghost use Rattle.xet_merkle.specs.Levels.{node_count};
ghost use Rattle.xet_merkle.specs.JsonRules.{BreaksValueRule};
ghost use Rattle.yurewha_c.specs.Chunks.{nodes_of};
ghost use Rattle.yurewha_c.specs.FlatLists.{counts_of};

use crate::chunks::Chunk;
use crate::status::{DONE, EMPTY_HANDLE, MEMORY, ROOM, RULE, status_of};
use crate::subtree_handle::SubtreeHandle;
use std::alloc::{AllocError, Global};
use xet_merkle::aggregated_hashes::Node;
use xet_merkle::as_node::read_nodes;
use xet_merkle::merkle_hash_subtree::MerkleHashSubtree;

/// How many nodes a subtree or a range proof has on a level, on the left side and on the right side.
#[derive(Clone, Copy)]
#[repr(C)]
pub struct Level {
    pub left: usize,
    pub right: usize,
}

// Returns the counts of some levels, in allocated memory.
pub(crate) fn counts_of(alloc: Global, levels: &[Level]) -> Result<Vec<(usize, usize)>, AllocError>
    ensures { IfOk result (λ counts. counts.items ≡ counts_of levels.now) }
{
    let mut counts = Vec::with_capacity(alloc, levels.len())?;
    'levels: for level in levels {
        counts.push((level.left, level.right))?;
    }
    Ok(counts)
}

/// Makes a subtree from marks and flat lists. The handle owns it. `levels` has the number of left and right nodes of
/// each level, from the chunks up. `nodes` has the left nodes of all levels, lowest level first, then the right nodes
/// of all levels, highest level first.
///
/// - `DONE`: it is made.
/// - `RULE` + rule: they break this rule, from 5 to 13 of `yurewha_subtree_from_json`, and none of these with a lower
///   number.
/// - `MEMORY`: an allocation failed; this may be returned instead of a rule.
///
/// Since 1.1.
#[unsafe(no_mangle)]
pub extern "C" fn yurewha_subtree_from_flat(
    alloc: Global,
    at_start: bool,
    levels: &[Level],
    nodes: &[Chunk],
    at_end: bool,
    subtree: &mut SubtreeHandle,
) -> u32
    ensures made { result ≡ DONE → IsSomeAnd subtree.new.value (λ made. (made.at_start ≡ at_start)
        × (made.at_end ≡ at_end)
        × IsFlat (counts_of levels.now) (nodes_of nodes.now) made.levels []) }
    ensures statuses { (result ≡ DONE) ⊎ ((result ≡ MEMORY) ⊎ ((rule : ℕ) × (result ≡ RULE + rule)
        × BreaksValueRule at_start at_end (counts_of levels.now) (nodes_of nodes.now) rule)) }
    ensures unchanged { result ≢ DONE → subtree.new.value ≡ subtree.old.value }
{
    let Ok(counts) = counts_of(alloc, levels) else {
        return MEMORY;
    };
    let Ok(nodes) = read_nodes(alloc, nodes) else {
        return MEMORY;
    };
    match MerkleHashSubtree::from_flat(alloc, at_start, counts, nodes, at_end) {
        Ok(made) => subtree.hold(alloc, made),
        Err(error) => status_of(error),
    }
}

// Writes some nodes to a list from `at` on. Returns the place after them.
pub(crate) fn write_nodes(nodes: &[Node], list: &mut [Chunk], at: usize) -> usize
    requires { at + length nodes.now ≤ length list.old }
    ensures place { result ≡ at + length nodes.now }
    ensures written { nodes_of (take result list.new) ≡ nodes_of (take at list.old) ++ nodes.now }
    ensures rest { drop result list.new ≡ drop result list.old }
{
    'nodes: for i in 0..nodes.len() {
        list[at + i] = Chunk::of(&nodes[i]);
    }
    at + nodes.len()
}

// Writes the numbers of left and right nodes of each level of a subtree, from the chunks up.
fn write_counts(subtree: &MerkleHashSubtree, levels: &mut [Level])
    requires { length subtree.now.levels ≤ length levels.old }
    ensures written { counts_of (take (length subtree.now.levels) levels.new)
        ≡ map count_of subtree.now.levels }
    ensures rest { drop (length subtree.now.levels) levels.new
        ≡ drop (length subtree.now.levels) levels.old }
{
    'levels: for i in 0..subtree.num_levels() {
        levels[i] = Level {
            left: subtree.left(i).len(),
            right: subtree.right(i).len(),
        };
    }
}

// Writes the left nodes of all levels of a subtree, lowest level first. Returns the place after them.
fn write_lefts(subtree: &MerkleHashSubtree, nodes: &mut [Chunk]) -> usize
    requires { length (left_nodes subtree.now.levels) ≤ length nodes.old }
    ensures place { result ≡ length (left_nodes subtree.now.levels) }
    ensures written { nodes_of (take result nodes.new) ≡ left_nodes subtree.now.levels }
    ensures rest { drop result nodes.new ≡ drop result nodes.old }
{
    let mut place = 0;
    'lefts: for i in 0..subtree.num_levels() {
        place = write_nodes(subtree.left(i), nodes, place);
    }
    place
}

// Writes the right nodes of all levels of a subtree, highest level first, from `at` on. Returns the place after them.
fn write_rights(subtree: &MerkleHashSubtree, nodes: &mut [Chunk], at: usize) -> usize
    requires { at + length (right_nodes subtree.now.levels) ≤ length nodes.old }
    ensures place { result ≡ at + length (right_nodes subtree.now.levels) }
    ensures written { nodes_of (take result nodes.new)
        ≡ nodes_of (take at nodes.old) ++ right_nodes subtree.now.levels }
    ensures rest { drop result nodes.new ≡ drop result nodes.old }
{
    let count = subtree.num_levels();
    let mut place = at;
    'rights: for i in 0..count {
        place = write_nodes(subtree.right(count - 1 - i), nodes, place);
    }
    place
}

// Writes the counts and the nodes of a subtree. There must be room for them.
fn write_flat(subtree: &MerkleHashSubtree, levels: &mut [Level], nodes: &mut [Chunk])
    requires levels { length subtree.now.levels ≤ length levels.old }
    requires nodes { node_count subtree.now.levels ≤ length nodes.old }
    ensures written { IsFlat (counts_of (take (length subtree.now.levels) levels.new))
        (nodes_of (take (node_count subtree.now.levels) nodes.new)) subtree.now.levels [] }
    ensures levels_rest { drop (length subtree.now.levels) levels.new
        ≡ drop (length subtree.now.levels) levels.old }
    ensures nodes_rest { drop (node_count subtree.now.levels) nodes.new
        ≡ drop (node_count subtree.now.levels) nodes.old }
{
    write_counts(subtree, levels);
    let lefts = write_lefts(subtree, nodes);
    write_rights(subtree, nodes, lefts);
}

/// Writes a subtree as flat lists, which have the form that `yurewha_subtree_from_flat` takes. `level_len` and
/// `node_len` get the lengths of the lists. The lists and the marks together are the whole subtree. It allocates
/// nothing.
///
/// - `DONE`: the lists are written.
/// - `ROOM`: a list is longer than its room; nothing is written to either, and `level_len` and `node_len` are the
///   needed lengths.
/// - `EMPTY_HANDLE`: if and only if the handle is empty.
///
/// Since 1.1.
#[unsafe(no_mangle)]
pub extern "C" fn yurewha_subtree_to_flat(
    alloc: Global,
    subtree: &mut SubtreeHandle,
    levels: &mut [Level],
    nodes: &mut [Chunk],
    level_len: &mut usize,
    node_len: &mut usize,
) -> u32
    ensures lens { (result ≡ DONE) ⊎ (result ≡ ROOM) → IsSomeAnd subtree.old.value (λ kept.
        (level_len.new ≡ length kept.levels) × (node_len.new ≡ node_count kept.levels)) }
    ensures written { result ≡ DONE → IsSomeAnd subtree.old.value (λ kept.
        IsFlat (counts_of (take level_len.new levels.new)) (nodes_of (take node_len.new nodes.new)) kept.levels []) }
    ensures rest { result ≡ DONE → (drop level_len.new levels.new ≡ drop level_len.new levels.old)
        × (drop node_len.new nodes.new ≡ drop node_len.new nodes.old) }
    ensures done { result ≡ DONE → (level_len.new ≤ length levels.old) × (node_len.new ≤ length nodes.old) }
    ensures room { result ≡ ROOM → (length levels.old < level_len.new) ⊎ (length nodes.old < node_len.new) }
    ensures empty { (result ≡ EMPTY_HANDLE) ↔ (subtree.old.value ≡ None) }
    ensures statuses { (result ≡ DONE) ⊎ ((result ≡ ROOM) ⊎ (result ≡ EMPTY_HANDLE)) }
    ensures unchanged { result ≢ DONE → (levels.new ≡ levels.old) × (nodes.new ≡ nodes.old) }
    ensures no_lens { result ≡ EMPTY_HANDLE → (level_len.new ≡ level_len.old) × (node_len.new ≡ node_len.old) }
    ensures kept { subtree.new.value ≡ subtree.old.value }
{
    let Some(kept) = subtree.take(alloc) else {
        return EMPTY_HANDLE;
    };
    *level_len = kept.num_levels();
    *node_len = kept.num_nodes();
    if levels.len() < *level_len || nodes.len() < *node_len {
        subtree.put(kept);
        return ROOM;
    }
    write_flat(&kept, levels, nodes);
    subtree.put(kept);
    DONE
}

//! The JSON form of a subtree.

ghost use Rattle.std.specs.Prelude.{◌≡◌, ℕ, Bool, ◌^◌, ◌<◌, ◌⊎◌, ◌↔◌, [], map, length, IfOk, IfErr, IsTrue};
ghost use Rattle.std.specs.List.{AllByRecursion};
ghost use Rattle.serde_json.specs.Data.{array};
ghost use Rattle.serde_json.specs.View.{view, items_of};
ghost use Rattle.xet_hash.specs.Hash.{IsHash};
ghost use Rattle.xet_roots.specs.Groups.{Node};
ghost use Rattle.xet_roots.specs.Roots.{total_size};
ghost use Rattle.level_nodes.specs.FlatLevels.{IsFlat, count_of, count_sum, flat_nodes};
ghost use Rattle.level_nodes.specs.NodeJson.{nodes_json};
ghost use Rattle.subtree_levels.specs.WellFormed.{IsWellFormed};
ghost use Rattle.xet_merkle.specs.JsonRules.{Reads, BreaksValueRule, BreaksRule};
ghost use Rattle.xet_roots.specs.declared.error.CoreError.TheVariants.{InvalidJson, InvalidLists};
ghost use Rattle.xet_merkle.specs.SubtreeJson.{counts_json, subtree_object, subtree_json};
ghost use Rattle.xet_merkle.specs.Steps.FlatMaking.{IsMadeOf};

use super::MerkleHashSubtree;
use crate::merkle_hash_subtree::json_parts::read_parts;
use level_nodes::flat::{FlatParts, count_of, count_sum, cut_levels};
use level_nodes::levels::LevelNodes;
use level_nodes::node_json::with_nodes;
use serde_json::{Value, json};
use std::alloc::{AllocError, Allocator, Global};
use subtree_levels::level_rules::broken_rule;
use xet_hash::laws::{hex_text_is_lowercase_digits, hex_text_tells_hashes_apart};
use xet_roots::aggregated_hashes::Node;
use xet_roots::error::CoreError;
use xet_roots::groups::total_size;

// Returns the numbers of left and right nodes of a level.
fn count_to_json<A: Allocator>(alloc: Global, level: &LevelNodes<A>) -> Result<Value, AllocError>
    ensures { IfOk result (λ value. view value ≡ counts_json (count_of level.now)) }
{
    let (left, right) = count_of(level);
    json!(in alloc; [left, right])
}

// Returns the numbers of left and right nodes of all levels.
fn counts_to_json<A: Allocator>(
    alloc: Global,
    levels: &[LevelNodes<A>],
) -> Result<Value, AllocError>
    ensures { IfOk result (λ value. view value ≡ array (items_of (map counts_json (map count_of levels.now)))) }
{
    let mut values = Vec::new(alloc);
    'counts: for level in levels {
        values.push(count_to_json(alloc, level)?)?;
    }
    Ok(Value::Array(values))
}

// Returns the nodes of all levels: the left ones, lowest level first, then the right ones, highest level first.
fn nodes_to_json<A: Allocator>(alloc: Global, levels: &[LevelNodes<A>]) -> Result<Value, AllocError>
    ensures json { IfOk result (λ value. view value ≡ nodes_json (flat_nodes levels.now [])) }
    ensures hashes { IfOk result (λ _. AllByRecursion (λ node. IsHash node.0) (flat_nodes levels.now [])) }
{
    let mut values = Vec::new(alloc);
    'lefts: for level in levels {
        values = with_nodes(alloc, values, level.left())?;
    }
    let mut rest = levels;
    'rights: while let [below @ .., level] = rest {
        values = with_nodes(alloc, values, level.right())?;
        rest = below;
    }
    Ok(Value::Array(values))
}

// Returns the object of a subtree's marks, levels and nodes.
fn object_of(
    alloc: Global,
    at_start: bool,
    at_end: bool,
    levels: Value,
    nodes: Value,
) -> Result<Value, AllocError>
    ensures { IfOk result (λ value. view value ≡ subtree_object at_start at_end (view levels) (view nodes)) }
{
    json!(in alloc; {"at_end": at_end, "at_start": at_start, "levels": levels, "nodes": nodes})
}

// Returns whether counts add up to a number of nodes.
fn add_up(counts: &[(usize, usize)], len: usize) -> bool
    ensures { IsTrue result ↔ (count_sum counts.now ≡ len) }
{
    count_sum(counts) == Some(len)
}

// Returns the sum of the sizes of flat lists, or the lowest rule from 5 to 7 that they break.
fn flat_size(counts: &[(usize, usize)], nodes: &[Node]) -> Result<u64, u8>
    ensures keeps { IfOk result (λ size. (0 < length counts.now) × (count_sum counts.now ≡ length nodes.now)
        × (size ≡ total_size nodes.now) × (size < 2 ^ 64)) }
    ensures breaks { IfErr result (λ rule. (at_start at_end : Bool) → BreaksValueRule at_start at_end counts.now nodes.now rule) }
{
    if counts.is_empty() {
        return Err(5);
    }
    if !add_up(counts, nodes.len()) {
        return Err(6);
    }
    match total_size(nodes) {
        Some(size) => Ok(size),
        None => Err(7),
    }
}

impl<A: Allocator + Clone> MerkleHashSubtree<A> {
    /// Reads a subtree from a JSON value of the form that [`Self::to_json`] writes. Upper-case hex digits are read too.
    /// Members other than the four are ignored. A number with a fraction or an exponent isn't a whole number.
    ///
    /// Fails with [`CoreError::InvalidJson`] and the lowest rule that the value breaks:
    ///
    /// 1. it is an object;
    /// 2. `nodes` and `levels` are arrays, and `at_start` and `at_end` are booleans;
    /// 3. a node is an object with `hash`, a string of 64 hex digits, and `size`, a whole number from 0 to 2^64 - 1;
    /// 4. a level is an array of two whole numbers from 0 to 2^64 - 1;
    /// 5. there is at least one level;
    /// 6. the counts of all levels add up to the number of nodes;
    /// 7. the sizes of all nodes add up to at most 2^64 - 1;
    /// 8. the top level has no right nodes; with `at_end`, no level has any;
    /// 9. with `at_start`, no level below the top has left nodes;
    /// 10. with both marks, the top level has at most one node;
    /// 11. if there are several levels, the top level has a node;
    /// 12. without `at_start`, the left nodes of each level below the top end with a natural cut 3 to 7 nodes after the
    ///     natural cut before it, and have no stable point among them;
    /// 13. without `at_end`, the right nodes of each level below the top have their first natural cut at index 2 to 6,
    ///     and have no stable point among them, even with a natural cut put in front of them.
    ///
    /// Fails with [`CoreError::OutOfMemory`] if an allocation fails; this may be returned instead of a rule. Only this
    /// port has this call. It replaces the `Deserialize` of the Rust crate.
    pub fn from_json(alloc: A, value: &Value) -> Result<Self, CoreError>
        ensures reads { IfOk result (Reads (view value.now)) }
        ensures errors { IfErr result (λ e. (e ≡ CoreError.OutOfMemory)
            ⊎ ((rule : ℕ) × (e ≡ InvalidJson rule) × BreaksRule (view value.now) rule)) }
    {
        // A law of hex texts, for the clause `reads`.
        hex_text_tells_hashes_apart();
        let parts = read_parts(alloc.clone()?, value)?;
        match Self::from_lists(
            alloc,
            parts.at_start,
            &parts.counts,
            &parts.nodes,
            parts.at_end,
        )? {
            Ok(subtree) => Ok(subtree),
            Err(rule) => Err(CoreError::InvalidJson(rule)),
        }
    }

    /// Makes a subtree from marks and flat lists. `counts` has the numbers of left and right nodes of each level, from
    /// the chunks up. `nodes` has the left nodes of all levels, lowest level first, then the right nodes of all levels,
    /// highest level first.
    ///
    /// Fails with [`CoreError::InvalidLists`] and the lowest rule from 5 to 13 of [`Self::from_json`] that they break.
    /// Fails with [`CoreError::OutOfMemory`] if an allocation fails; this may be returned instead of a rule. Only this
    /// port has this call. It replaces the `Deserialize` of the Rust crate in binary formats.
    pub fn from_flat(
        alloc: A,
        at_start: bool,
        counts: Vec<(usize, usize), A>,
        nodes: Vec<Node, A>,
        at_end: bool,
    ) -> Result<Self, CoreError>
        ensures start { IfOk result (λ subtree. subtree.at_start ≡ at_start) }
        ensures end { IfOk result (λ subtree. subtree.at_end ≡ at_end) }
        ensures flat { IfOk result (λ subtree. IsFlat counts.items nodes.items subtree.levels []) }
        ensures well_formed { IfOk result IsWellFormed }
        ensures errors { IfErr result (λ e. (e ≡ CoreError.OutOfMemory) ⊎ ((rule : ℕ) × (e ≡ InvalidLists rule)
            × BreaksValueRule at_start at_end counts.items nodes.items rule)) }
    {
        match Self::from_lists(alloc, at_start, &counts, &nodes, at_end)? {
            Ok(subtree) => Ok(subtree),
            Err(rule) => Err(CoreError::InvalidLists(rule)),
        }
    }

    // Makes a subtree from marks and flat lists, or returns the lowest rule from 5 to 13 that they break.
    fn from_lists(
        alloc: A,
        at_start: bool,
        counts: &[(usize, usize)],
        nodes: &[Node],
        at_end: bool,
    ) -> Result<Result<Self, u8>, AllocError>
        ensures made { IfOk result (λ made. IfOk made (IsMadeOf at_start at_end counts.now nodes.now)) }
        ensures broken { IfOk result (λ made. IfErr made (BreaksValueRule at_start at_end counts.now nodes.now)) }
    {
        let total_size = match flat_size(counts, nodes) {
            Ok(size) => size,
            Err(rule) => return Ok(Err(rule)),
        };
        let FlatParts { levels, .. } = cut_levels(alloc, counts, nodes)?;
        if let Some(rule) = broken_rule(&levels, at_start, at_end) {
            return Ok(Err(rule));
        }
        Ok(Ok(Self::from_levels(levels, at_start, at_end, total_size)?))
    }
}

impl<A: Allocator> MerkleHashSubtree<A> {
    /// Returns the subtree as a JSON object. `levels` has the numbers of left and right nodes of each level, from the
    /// chunks up. `nodes` has the left nodes of all levels, lowest level first, then the right nodes of all levels,
    /// highest level first. Each has its `hash` in hex and its `size` in bytes. `at_start` and `at_end` are the marks.
    ///
    /// Fails with [`CoreError::OutOfMemory`] if an allocation fails. Only this port has this call. It replaces the
    /// `Serialize` of the Rust crate.
    pub fn to_json(&self, alloc: Global) -> Result<Value, CoreError>
        ensures json { IfOk result (λ value. view value ≡ subtree_json self.now) }
        ensures says { IfOk result (λ value. Reads (view value) self.now) }
        ensures errors { IfErr result (λ e. e ≡ CoreError.OutOfMemory) }
    {
        let levels = counts_to_json(alloc, self.levels())?;
        let nodes = nodes_to_json(alloc, self.levels())?;
        // Laws of hex texts, for the clause `says`.
        hex_text_is_lowercase_digits();
        hex_text_tells_hashes_apart();
        Ok(object_of(alloc, self.at_start, self.at_end, levels, nodes)?)
    }
}

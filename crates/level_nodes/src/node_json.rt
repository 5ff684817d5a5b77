//! Nodes as JSON: an object with the `hash` of a node in hex and its `size` in bytes. Only this port has this module.

ghost use Rattle.serde_json.specs.Find.{get, as_array};
ghost use Rattle.serde_json.specs.View.{view, items_view};
ghost use Rattle.std.specs.Prelude.{◌≡◌, ◌⊎◌, ◌++◌, List, map, option_map, option_and_then, IfOk, IfErr, IfSome, IfNone};
ghost use Rattle.std.specs.List.{AllByRecursion, AllZip};
ghost use Rattle.xet_hash.specs.Hash.{IsHash};
ghost use Rattle.xet_roots.specs.Groups.{Node};
ghost use Rattle.xet_roots.specs.declared.error.CoreError.TheVariants.{OutOfMemory, InvalidJson};
ghost use Rattle.level_nodes.specs.NodeJson.{node_json, ReadsNode};

use serde_json::{Value, json};
use std::alloc::{AllocError, Allocator, Global};
use xet_hash::data_hash::DataHash;
use xet_roots::aggregated_hashes::Node;
use xet_roots::error::CoreError;

/// Returns the values of a member that is an array, or `None` if there is no such member.
pub fn array_member<'v>(value: &'v Value, name: &str) -> Option<&'v [Value]>
    ensures { option_map (λ values. items_view values.now) result ≡ option_and_then as_array (get name.now (view value.now)) }
{
    Some(value.get(name)?.as_array()?.as_slice())
}

/// Returns the node in an object with `hash`, a string of 64 hex digits, and `size`, a whole number from 0 to 2^64 - 1.
/// Returns `None` if the value is no such object. Other members are ignored.
pub fn read_node(value: &Value) -> Option<Node>
    ensures some { IfSome result (λ node. ReadsNode (view value.now) node) }
    ensures none { IfNone result ((node : Node) → ¬ (ReadsNode (view value.now) node)) }
{
    let hash = DataHash::from_json(value.get("hash")?).ok()?;
    let size = value.get("size")?.as_u64()?;
    Some((hash, size))
}

/// Returns the nodes in some values.
///
/// Fails with [`CoreError::InvalidJson`] and this rule if a value is no node as [`read_node`] takes it. Fails with
/// [`CoreError::OutOfMemory`] if an allocation fails.
pub fn read_nodes<A: Allocator>(
    alloc: A,
    values: &[Value],
    rule: u8,
) -> Result<Vec<Node, A>, CoreError>
    ensures read { IfOk result (λ nodes. AllZip ReadsNode (map view values.now) nodes.items) }
    ensures refused { IfErr result (λ e. (e ≡ OutOfMemory)
        ⊎ ((e ≡ InvalidJson rule) × ((nodes : List Node) → ¬ (AllZip ReadsNode (map view values.now) nodes)))) }
{
    let mut nodes = Vec::with_capacity(alloc, values.len())?;
    'nodes: for value in values {
        let Some(node) = read_node(value) else {
            return Err(CoreError::InvalidJson(rule));
        };
        nodes.push(node)?;
    }
    Ok(nodes)
}

/// Appends the values of some nodes, each an object with its `hash` as hex text and its `size` in bytes. Fails if an
/// allocation fails.
pub fn with_nodes(
    alloc: Global,
    values: Vec<Value>,
    nodes: &[Node],
) -> Result<Vec<Value>, AllocError>
    ensures json { IfOk result (λ all. map view all.items ≡ map view values.items ++ map node_json nodes.now) }
    ensures hashes { IfOk result (λ _. AllByRecursion (λ node. IsHash node.0) nodes.now) }
{
    let mut values = values;
    'nodes: for (hash, size) in nodes {
        values.push(json!(in alloc; {"hash": hash.to_json(alloc)?, "size": *size})?)?;
    }
    Ok(values)
}

//! Reads the parts of a subtree's JSON value, before its levels and nodes are checked together.

ghost use Rattle.serde_json.specs.Data.{Data};
ghost use Rattle.serde_json.specs.Find.{get, as_bool};
ghost use Rattle.serde_json.specs.View.{view};
ghost use Rattle.std.specs.Prelude.{◌≡◌, ◌⊎◌, ℕ, Bool, List, map, option_and_then, IfOk, IfErr, IfSome, IfNone};
ghost use Rattle.std.specs.List.{AllZip};
ghost use Rattle.xet_roots.specs.Groups.{Node};
ghost use Rattle.xet_roots.specs.declared.error.CoreError.TheVariants.{OutOfMemory, InvalidJson};
ghost use Rattle.level_nodes.specs.NodeJson.{whole};
ghost use Rattle.xet_merkle.specs.JsonParts.{ReadsCounts, HasMembers, ReadsParts, BreaksPartRule};

use level_nodes::node_json::{array_member, read_nodes};
use serde_json::Value;
use std::alloc::Allocator;
use xet_roots::aggregated_hashes::Node;
use xet_roots::error::CoreError;

// The marks, the counts of each level and the nodes in a value.
#[derive(Drop)]
pub(super) struct Parts<A: Allocator> {
    pub(super) at_start: bool,
    pub(super) at_end: bool,
    // The numbers of left and right nodes of each level.
    pub(super) counts: Vec<(usize, usize), A>,
    pub(super) nodes: Vec<Node, A>,
}

// The members of a subtree's object, each of the right type.
#[derive(Drop)]
struct Members<'v> {
    at_start: bool,
    at_end: bool,
    levels: &'v [Value],
    nodes: &'v [Value],
}

// Returns a member that is a boolean.
fn truth_member(value: &Value, name: &str) -> Option<bool>
    ensures { result ≡ option_and_then as_bool (get name.now (view value.now)) }
{
    value.get(name)?.as_bool()
}

// Returns the members of a subtree's object, if each exists and has the right type.
fn read_members<'v>(value: &'v Value) -> Option<Members<'v>>
    ensures some { IfSome result (λ members. HasMembers (view value.now) members.at_start members.at_end
        (map view members.levels.now) (map view members.nodes.now)) }
    ensures none { IfNone result ((at_start at_end : Bool) (levels nodes : List Data) →
        ¬ (HasMembers (view value.now) at_start at_end levels nodes)) }
{
    let at_start = truth_member(value, "at_start")?;
    let at_end = truth_member(value, "at_end")?;
    let levels = array_member(value, "levels")?;
    let nodes = array_member(value, "nodes")?;
    Some(Members {
        at_start,
        at_end,
        levels,
        nodes,
    })
}

// Returns the whole number in a value, as a count of nodes.
fn read_count(value: &Value) -> Option<usize>
    ensures { result ≡ whole (view value.now) }
{
    let count = value.as_u64()?;
    Some(count as usize)
}

// Returns the counts of left and right nodes in a value.
fn read_counts(value: &Value) -> Option<(usize, usize)>
    ensures some { IfSome result (λ count. ReadsCounts (view value.now) count) }
    ensures none { IfNone result ((count : ℕ × ℕ) → ¬ (ReadsCounts (view value.now) count)) }
{
    let [left, right] = value.as_array()?.as_slice() else {
        return None;
    };
    Some((read_count(left)?, read_count(right)?))
}

// Returns the counts in some values.
fn read_levels<A: Allocator>(
    alloc: A,
    values: &[Value],
) -> Result<Vec<(usize, usize), A>, CoreError>
    ensures read { IfOk result (λ counts. AllZip ReadsCounts (map view values.now) counts.items) }
    ensures refused { IfErr result (λ e. (e ≡ OutOfMemory)
        ⊎ ((e ≡ InvalidJson 4) × ((counts : List (ℕ × ℕ)) → ¬ (AllZip ReadsCounts (map view values.now) counts)))) }
{
    let mut counts = Vec::with_capacity(alloc, values.len())?;
    'levels: for value in values {
        let Some(count) = read_counts(value) else {
            return Err(CoreError::InvalidJson(4));
        };
        counts.push(count)?;
    }
    Ok(counts)
}

// Returns the parts of a subtree in a value. Fails with the lowest rule from 1 to 4 that the value breaks.
pub(super) fn read_parts<A: Allocator + Clone>(
    alloc: A,
    value: &Value,
) -> Result<Parts<A>, CoreError>
    ensures parts { IfOk result (λ parts. ReadsParts (view value.now) parts.at_start parts.at_end parts.counts.items parts.nodes.items) }
    ensures errors { IfErr result (λ e. (e ≡ OutOfMemory)
        ⊎ ((rule : ℕ) × (e ≡ InvalidJson rule) × BreaksPartRule (view value.now) rule)) }
{
    if !value.is_object() {
        return Err(CoreError::InvalidJson(1));
    }
    let Some(members) = read_members(value) else {
        return Err(CoreError::InvalidJson(2));
    };
    let nodes = read_nodes(alloc.clone()?, members.nodes, 3)?;
    let counts = read_levels(alloc, members.levels)?;
    Ok(Parts {
        at_start: members.at_start,
        at_end: members.at_end,
        counts,
        nodes,
    })
}

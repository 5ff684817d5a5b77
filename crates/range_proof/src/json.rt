//! The JSON form of a range proof.

ghost use Rattle.std.specs.Prelude.{◌≡◌, ◌⊎◌, ◌↔◌, ℕ, All, List, map, IfOk, IfErr, IfSome, IfNone, IsTrue};
ghost use Rattle.std.specs.List.{AllZip};
ghost use Rattle.serde_json.specs.Data.{Data, array};
ghost use Rattle.serde_json.specs.View.{view, items_of};
ghost use Rattle.xet_roots.specs.declared.error.CoreError.TheVariants.{OutOfMemory, InvalidJson};
ghost use Rattle.level_nodes.specs.Level.{Level};
ghost use Rattle.level_nodes.specs.NodeJson.{nodes_json};
ghost use Rattle.range_proof.specs.RangeProof.{AreHashes};
ghost use Rattle.range_proof.specs.ProofJson.{sides_json, proof_object, proof_json, HasMembers, HasSides, ReadsSides, AreLevels, Reads, BreaksRule};

use crate::proof::RangeProof;
use crate::proof_parts::from_parts;
use level_nodes::levels::LevelNodes;
use level_nodes::node_json::{array_member, read_nodes, with_nodes};
use serde_json::{Value, json};
use std::alloc::{AllocError, Allocator, Global};
use xet_hash::laws::{hex_text_is_lowercase_digits, hex_text_tells_hashes_apart};
use xet_roots::aggregated_hashes::Node;
use xet_roots::error::CoreError;

// Returns the values of some nodes, in an array.
fn nodes_to_json(alloc: Global, nodes: &[Node]) -> Result<Value, AllocError>
    ensures json { IfOk result (λ value. view value ≡ nodes_json nodes.now) }
    ensures hashes { IfOk result (λ _. AreHashes nodes.now) }
{
    Ok(Value::Array(with_nodes(alloc, Vec::new(alloc), nodes)?))
}

// Returns the object of a level's sides.
fn sides_to_json<A: Allocator>(alloc: Global, sides: &LevelNodes<A>) -> Result<Value, AllocError>
    ensures json { IfOk result (λ value. view value ≡ sides_json sides.now) }
    ensures left { IfOk result (λ _. AreHashes sides.now.left) }
    ensures right { IfOk result (λ _. AreHashes sides.now.right) }
{
    let left = nodes_to_json(alloc, sides.left())?;
    let right = nodes_to_json(alloc, sides.right())?;
    json!(in alloc; {"left": left, "right": right})
}

// Returns the objects of the sides of all levels, in an array.
fn levels_to_json<A: Allocator>(
    alloc: Global,
    levels: &[LevelNodes<A>],
) -> Result<Value, AllocError>
    ensures json { IfOk result (λ value. view value ≡ array (items_of (map sides_json levels.now))) }
    ensures left { IfOk result (λ _. All (λ sides. AreHashes sides.left) levels.now) }
    ensures right { IfOk result (λ _. All (λ sides. AreHashes sides.right) levels.now) }
{
    let mut values = Vec::new(alloc);
    'levels: for level in levels {
        values.push(sides_to_json(alloc, level)?)?;
    }
    Ok(Value::Array(values))
}

// Returns the object of a proof's chunks and levels.
fn object_of(alloc: Global, chunks: Value, levels: Value) -> Result<Value, AllocError>
    ensures { IfOk result (λ value. view value ≡ proof_object (view chunks) (view levels)) }
{
    json!(in alloc; {"chunks": chunks, "levels": levels})
}

// The members of a proof's object, each an array.
#[derive(Drop)]
struct Members<'v> {
    chunks: &'v [Value],
    levels: &'v [Value],
}

// Returns the members of a proof's object, if both are arrays.
fn read_members<'v>(value: &'v Value) -> Option<Members<'v>>
    ensures some { IfSome result (λ members. HasMembers (view value.now) (map view members.chunks.now) (map view members.levels.now)) }
    ensures none { IfNone result ((chunks levels : List Data) → ¬ (HasMembers (view value.now) chunks levels)) }
{
    let chunks = array_member(value, "chunks")?;
    let levels = array_member(value, "levels")?;
    Some(Members { chunks, levels })
}

// The values on the left and on the right side of a level.
#[derive(Drop)]
struct SideValues<'v> {
    left: &'v [Value],
    right: &'v [Value],
}

// Returns the values on both sides of a level, if its value is an object with two arrays.
fn read_side_values<'v>(value: &'v Value) -> Option<SideValues<'v>>
    ensures some { IfSome result (λ sides. HasSides (view value.now) (map view sides.left.now) (map view sides.right.now)) }
    ensures none { IfNone result ((left right : List Data) → ¬ (HasSides (view value.now) left right)) }
{
    let left = array_member(value, "left")?;
    let right = array_member(value, "right")?;
    Some(SideValues { left, right })
}

// Returns whether each value is an object with two arrays.
fn are_levels(values: &[Value]) -> bool
    ensures { IsTrue result ↔ AreLevels (map view values.now) }
{
    'levels: for value in values {
        let Some(_) = read_side_values(value) else {
            return false;
        };
    }
    true
}

// Returns the sides of a level in a value. Fails with rule 4 if there are none.
fn read_sides<A: Allocator + Clone>(alloc: A, value: &Value) -> Result<LevelNodes<A>, CoreError>
    ensures read { IfOk result (ReadsSides (view value.now)) }
    ensures refused { IfErr result (λ e. (e ≡ OutOfMemory)
        ⊎ ((e ≡ InvalidJson 4) × ((sides : Level) → ¬ (ReadsSides (view value.now) sides)))) }
{
    let Some(values) = read_side_values(value) else {
        return Err(CoreError::InvalidJson(4));
    };
    let left = read_nodes(alloc.clone()?, values.left, 4)?;
    let right = read_nodes(alloc, values.right, 4)?;
    Ok(LevelNodes::new(left, right))
}

// Returns the sides of all levels in some values. Fails with rule 4 if a value has none.
fn read_levels<A: Allocator + Clone>(
    alloc: A,
    values: &[Value],
) -> Result<Vec<LevelNodes<A>, A>, CoreError>
    ensures read { IfOk result (λ levels. AllZip ReadsSides (map view values.now) levels.items) }
    ensures refused { IfErr result (λ e. (e ≡ OutOfMemory)
        ⊎ ((e ≡ InvalidJson 4) × ((levels : List Level) → ¬ (AllZip ReadsSides (map view values.now) levels)))) }
{
    let mut levels = Vec::with_capacity(alloc.clone()?, values.len())?;
    'levels: for value in values {
        levels.push(read_sides(alloc.clone()?, value)?)?;
    }
    Ok(levels)
}

impl<A: Allocator + Clone> RangeProof<A> {
    /// Reads a proof from a JSON value of the form that [`Self::to_json`] writes. Upper-case hex digits are read too.
    /// Other members are ignored. A number with a fraction or an exponent isn't a whole number.
    ///
    /// Fails with [`CoreError::InvalidJson`] and the lowest rule that the value breaks:
    ///
    /// 1. it is an object;
    /// 2. `chunks` and `levels` are arrays;
    /// 3. a level is an object, and its `left` and `right` are arrays;
    /// 4. a node is an object with `hash`, a string of 64 hex digits, and `size`, a whole number from 0 to 2^64 - 1;
    /// 5. there is at least one chunk;
    /// 6. there are at most 64 levels;
    /// 7. a side of a level has at most 8 nodes;
    /// 8. the sizes of all nodes add up to at most 2^64 - 1.
    ///
    /// Fails with [`CoreError::OutOfMemory`] if an allocation fails; this may be returned instead of a rule. Time and
    /// memory are at most proportional to the size of the value.
    pub fn from_json(alloc: A, value: &Value) -> Result<Self, CoreError>
        ensures reads { IfOk result (Reads (view value.now)) }
        ensures errors { IfErr result (λ e. (e ≡ CoreError.OutOfMemory)
            ⊎ ((rule : ℕ) × (e ≡ InvalidJson rule) × BreaksRule (view value.now) rule)) }
    {
        // A law of hex texts, for the clause `reads`.
        hex_text_tells_hashes_apart();
        if !value.is_object() {
            return Err(CoreError::InvalidJson(1));
        }
        let Some(members) = read_members(value) else {
            return Err(CoreError::InvalidJson(2));
        };
        if !are_levels(members.levels) {
            return Err(CoreError::InvalidJson(3));
        }
        let chunks = read_nodes(alloc.clone()?, members.chunks, 4)?;
        let levels = read_levels(alloc, members.levels)?;
        match from_parts(chunks, levels) {
            Ok(proof) => Ok(proof),
            Err(rule) => Err(CoreError::InvalidJson(rule)),
        }
    }
}

impl<A: Allocator> RangeProof<A> {
    /// Returns the proof as a JSON object. `chunks` has the nodes of the range's chunks. `levels` has an object for each
    /// level, from the chunks up, with the nodes of both sides as `left` and `right`. Each node has its `hash` in hex and
    /// its `size` in bytes.
    ///
    /// Fails with [`CoreError::OutOfMemory`] if an allocation fails.
    pub fn to_json(&self, alloc: Global) -> Result<Value, CoreError>
        ensures json { IfOk result (λ value. view value ≡ proof_json self.now) }
        ensures says { IfOk result (λ value. Reads (view value) self.now) }
        ensures errors { IfErr result (λ e. e ≡ CoreError.OutOfMemory) }
    {
        let chunks = nodes_to_json(alloc, self.chunks())?;
        let levels = levels_to_json(alloc, self.levels())?;
        // Laws of hex texts, for the clause `says`.
        hex_text_is_lowercase_digits();
        hex_text_tells_hashes_apart();
        Ok(object_of(alloc, chunks, levels)?)
    }
}

//! Reads a text as JSON, and the runs and hashes of the value one by one: rules 1 to 4.

ghost use Rattle.serde_json.specs.Data.{Data};
ghost use Rattle.serde_json.specs.View.{view};
ghost use Rattle.json.specs.Json.{document};
ghost use Rattle.json.specs.Strict.{HasUniqueKeys};
ghost use Rattle.std.specs.Prelude.{◌≡◌, ◌⊎◌, ◌↔◌, ℕ, All, List, map, IfOk, IfErr, IfSome, IfNone, IsSomeAnd, IsTrue, OnOk};
ghost use Rattle.std.specs.List.{AllZip};
ghost use Rattle.upload_session.specs.Hashes.{Hash, hashes_of};
ghost use Rattle.session_json.specs.Reading.{IsStrictText, BreaksRule, HasLists, HasRunMembers, IsRunValue, ReadsHash};

use crate::fault::SessionTextFault;
use json::Scratch;
use json_text::nesting::is_shallow;
use level_nodes::node_json::array_member;
use serde_json::Value;
use std::alloc::Global;
use xet_hash::data_hash::DataHash;
use xet_roots::aggregated_hashes::Node;

// Checks that a text is JSON, and that no object has a member twice. A `Value` keeps the last one.
fn check_members(alloc: Global, text: &str) -> Result<(), SessionTextFault>
    ensures unique { OnOk result (IsSomeAnd (document text.now) HasUniqueKeys) }
    ensures errors { IfErr result (λ e. (e ≡ SessionTextFault.Memory)
        ⊎ ((e ≡ SessionTextFault.Text) × ¬ (IsSomeAnd (document text.now) HasUniqueKeys))) }
{
    let mut scratch = Scratch::new(alloc);
    match json::Value::parse_strict(alloc, text, &mut scratch) {
        Ok(_) => Ok(()),
        Err(json::Error::OutOfMemory) => Err(SessionTextFault::Memory),
        Err(json::Error::Invalid) => Err(SessionTextFault::Text),
        Err(json::Error::DuplicateKey) => Err(SessionTextFault::Text),
        Err(json::Error::TooLong) => Err(SessionTextFault::Text),
    }
}

// Returns the value of a text. Both parsers recurse, so a text that is nested too deep comes to neither.
pub(crate) fn read_value(alloc: Global, text: &[u8]) -> Result<Value, SessionTextFault>
    ensures value { IfOk result (λ value. IsStrictText text.now (view value)) }
    ensures errors { IfErr result (λ e. (e ≡ SessionTextFault.Memory)
        ⊎ ((e ≡ SessionTextFault.Text) × ((json : Data) → ¬ (IsStrictText text.now json)))) }
{
    if !is_shallow(text) {
        return Err(SessionTextFault::Text);
    }
    let Ok(text) = str::from_utf8(text) else {
        return Err(SessionTextFault::Text);
    };
    check_members(alloc, text)?;
    match Value::from_str(alloc, text) {
        Ok(value) => Ok(value),
        Err(error) if error.is_memory() => Err(SessionTextFault::Memory),
        Err(_) => Err(SessionTextFault::Text),
    }
}

// The values of runs and known hashes.
#[derive(Clone, Copy)]
pub(crate) struct Lists<'v> {
    pub(crate) runs: &'v [Value],
    pub(crate) hashes: &'v [Value],
}

// Returns the lists of a session's object, if both are arrays.
fn find_lists(value: &Value) -> Option<Lists<'_>>
    ensures some { IfSome result (λ lists. HasLists (view value.now) (map view lists.runs.now) (map view lists.hashes.now)) }
    ensures none { IfNone result ((runs hashes : List Data) → ¬ (HasLists (view value.now) runs hashes)) }
{
    let runs = array_member(value, "runs")?;
    let hashes = array_member(value, "known_hashes")?;
    Some(Lists { runs, hashes })
}

// Returns the lists of a session in a value, or the lower of the rules 1 and 2 that it breaks.
pub(crate) fn read_lists(value: &Value) -> Result<Lists<'_>, u8>
    ensures lists { IfOk result (λ lists. HasLists (view value.now) (map view lists.runs.now) (map view lists.hashes.now)) }
    ensures broken { IfErr result (BreaksRule (view value.now)) }
{
    if !value.is_object() {
        return Err(1);
    }
    let Some(lists) = find_lists(value) else {
        return Err(2);
    };
    Ok(lists)
}

// A run whose subtree isn't read.
#[derive(Clone, Copy)]
pub(crate) struct RunMembers<'v> {
    pub(crate) first: u64,
    pub(crate) end: u64,
    pub(crate) chunks: &'v Value,
}

// Returns the members of a run's object, if each exists and has the right type.
pub(crate) fn read_run(value: &Value) -> Option<RunMembers<'_>>
    ensures some { IfSome result (λ run. HasRunMembers (view value.now) run.first run.end (view run.chunks.now)) }
    ensures none { IfNone result ((first end : ℕ) (chunks : Data) → ¬ (HasRunMembers (view value.now) first end chunks)) }
{
    let first = value.get("first")?.as_u64()?;
    let end = value.get("end")?.as_u64()?;
    let chunks = value.get("chunks")?;
    Some(RunMembers { first, end, chunks })
}

// Returns whether each value is a run, whatever the value of its chunks.
pub(crate) fn are_runs(values: &[Value]) -> bool
    ensures { IsTrue result ↔ All IsRunValue (map view values.now) }
{
    'runs: for value in values {
        let Some(_) = read_run(value) else {
            return false;
        };
    }
    true
}

// Returns the hash of four words.
fn read_hash(value: &Value) -> Option<DataHash>
    ensures some { IfSome result (λ hash. ReadsHash (view value.now) hash) }
    ensures none { IfNone result ((hash : Hash) → ¬ (ReadsHash (view value.now) hash)) }
{
    let [a, b, c, d] = value.as_array()?.as_slice() else {
        return None;
    };
    let words = [a.as_u64()?, b.as_u64()?, c.as_u64()?, d.as_u64()?];
    Some(DataHash::from(words))
}

// Returns the hashes of some values, as chunks of size 0.
pub(crate) fn read_hashes(alloc: Global, values: &[Value]) -> Result<Vec<Node>, SessionTextFault>
    ensures read { IfOk result (λ nodes. AllZip ReadsHash (map view values.now) (hashes_of nodes.items)) }
    ensures refused { IfErr result (λ e. (e ≡ SessionTextFault.Memory)
        ⊎ ((e ≡ SessionTextFault.Rule 4) × ((hashes : List Hash) → ¬ (AllZip ReadsHash (map view values.now) hashes)))) }
{
    let mut nodes = Vec::with_capacity(alloc, values.len())?;
    'hashes: for value in values {
        let Some(hash) = read_hash(value) else {
            return Err(SessionTextFault::Rule(4));
        };
        nodes.push((hash, 0))?;
    }
    Ok(nodes)
}

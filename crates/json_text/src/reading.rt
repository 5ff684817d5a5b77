//! Reads JSON texts.

ghost use Rattle.std.specs.Prelude.{◌≡◌, ◌⊎◌, IfOk, IfErr};
ghost use Rattle.serde_json.specs.Data.{Data};
ghost use Rattle.serde_json.specs.View.{view};
ghost use Rattle.json_text.specs.JsonText.{IsJsonText};

use crate::nesting::is_shallow;
use serde_json::Value;
use std::alloc::Global;

/// Why a text wasn't read.
#[derive(Clone, Copy, Debug, PartialEq, Eq)]
pub enum TextFault {
    /// The text isn't UTF-8, isn't JSON, or is nested more than [`DEEPEST`](crate::nesting::DEEPEST) deep.
    Text,
    /// An allocation failed.
    Memory,
}

/// Returns the value of a JSON text.
///
/// Fails with [`TextFault::Text`] if the text isn't UTF-8, isn't JSON, or is nested more than
/// [`DEEPEST`](crate::nesting::DEEPEST) deep. Fails with [`TextFault::Memory`] if an allocation fails; this may be
/// returned instead.
pub fn read(alloc: Global, text: &[u8]) -> Result<Value, TextFault>
    ensures value { IfOk result (λ value. IsJsonText text.now (view value)) }
    ensures refused { IfErr result (λ fault. (fault ≡ TextFault.Memory)
        ⊎ ((fault ≡ TextFault.Text) × ((json : Data) → ¬ (IsJsonText text.now json)))) }
{
    if !is_shallow(text) {
        return Err(TextFault::Text);
    }
    match Value::from_slice(alloc, text) {
        Ok(value) => Ok(value),
        Err(error) if error.is_memory() => Err(TextFault::Memory),
        Err(_) => Err(TextFault::Text),
    }
}

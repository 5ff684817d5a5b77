//! The line of a range.

ghost use Rattle.std.specs.Prelude.{IfOk, IfErr};
ghost use Rattle.line_io.specs.Faults.{IfFaulty};
ghost use Rattle.xetrange_text.specs.Steps.MergedLines.{IsNoRange};
ghost use Rattle.xetrange_text.specs.Ranges.{IsOpen, IsRangeLine, SaysRange};

use crate::fault::LineFault;
use json_text::reading::{TextFault, read};
use line_io::fault::Refusal;
use std::alloc::{AllocError, Allocator, Global};
use xet_merkle::error::CoreError;
use xet_merkle::laws::subtree_json_has_no_float;
use xet_merkle::merkle_hash_subtree::MerkleHashSubtree;

/// Returns the line of a range that is open at both ends: its compact JSON text and a newline.
///
/// Fails if an allocation fails.
pub fn write_range<A: Allocator>(
    json: Global,
    range: &MerkleHashSubtree<A>,
) -> Result<Vec<u8>, AllocError>
    ensures { IfOk result (λ line. IsOpen range.now → IsRangeLine line.items range.now) }
{
    let Ok(value) = range.to_json(json) else {
        return Err(AllocError);
    };
    // The contract needs this law: `to_vec` promises its text only for values without floats.
    subtree_json_has_no_float();
    let mut line = value.to_vec(json)?;
    line.push(b'\n')?;
    Ok(line)
}

/// Returns the range that a line says. The line comes without its newline.
///
/// Fails with [`LineFault::NoRange`] if it says none. Fails with [`Refusal::Memory`] if an allocation fails; this may
/// be returned instead of a rule.
pub fn read_range<A: Allocator + Clone>(
    alloc: A,
    json: Global,
    line: &[u8],
) -> Result<MerkleHashSubtree<A>, Refusal<LineFault>>
    ensures says { IfOk result (SaysRange line.now) }
    ensures fault { IfErr result (λ refusal. IfFaulty refusal (IsNoRange line.now)) }
{
    let value = match read(json, line) {
        Ok(value) => value,
        Err(TextFault::Text) => return Err(Refusal::Faulty(LineFault::NoRange(None))),
        Err(TextFault::Memory) => return Err(Refusal::Memory),
    };
    let range = match MerkleHashSubtree::from_json(alloc, &value) {
        Ok(range) => range,
        Err(CoreError::InvalidJson(rule)) => {
            return Err(Refusal::Faulty(LineFault::NoRange(Some(rule))));
        }
        Err(_) => return Err(Refusal::Memory),
    };
    if range.at_start() || range.at_end() {
        return Err(Refusal::Faulty(LineFault::NoRange(None)));
    }
    Ok(range)
}

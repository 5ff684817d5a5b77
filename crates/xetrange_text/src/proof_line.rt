//! The line of a range proof.

ghost use Rattle.std.specs.Prelude.{IfErr, IfOk};
ghost use Rattle.line_io.specs.Faults.{IfFaulty};
ghost use Rattle.xetrange_text.specs.Proofs.{IsProofLine, SaysNoProof, SaysProof};

use json_text::reading::{TextFault, read};
use line_io::fault::Refusal;
use range_proof::RangeProof;
use range_proof::laws::proof_json_has_no_float;
use std::alloc::{AllocError, Allocator, Global};
use xet_merkle::error::CoreError;

/// Returns the line of a range proof: its compact JSON text and a newline.
///
/// Fails if an allocation fails.
pub fn write_proof<A: Allocator>(json: Global, proof: &RangeProof<A>) -> Result<Vec<u8>, AllocError>
    ensures { IfOk result (λ line. IsProofLine line.items proof.now) }
{
    let Ok(value) = proof.to_json(json) else {
        return Err(AllocError);
    };
    // The contract needs this law: `to_vec` promises its text only for values without floats.
    proof_json_has_no_float();
    let mut line = value.to_vec(json)?;
    line.push(b'\n')?;
    Ok(line)
}

/// Returns the range proof that a line says. The line comes without its newline.
///
/// Fails with the lowest rule that its value breaks, or with `None` if it isn't JSON text, or is nested more than 32 deep.
/// Fails with [`Refusal::Memory`] if an allocation fails; this may be returned instead of a rule.
pub fn read_proof<A: Allocator + Clone>(
    alloc: A,
    json: Global,
    line: &[u8],
) -> Result<RangeProof<A>, Refusal<Option<u8>>>
    ensures says { IfOk result (SaysProof line.now) }
    ensures fault { IfErr result (λ refusal. IfFaulty refusal (SaysNoProof line.now)) }
{
    let value = match read(json, line) {
        Ok(value) => value,
        Err(TextFault::Text) => return Err(Refusal::Faulty(None)),
        Err(TextFault::Memory) => return Err(Refusal::Memory),
    };
    match RangeProof::from_json(alloc, &value) {
        Ok(proof) => Ok(proof),
        Err(CoreError::InvalidJson(rule)) => Err(Refusal::Faulty(Some(rule))),
        Err(_) => Err(Refusal::Memory),
    }
}

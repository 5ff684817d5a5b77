//! Verifies parts of a file.

ghost use Rattle.std.specs.Prelude.{◌≡◌, ℕ, List, replicate, IfErr, IfOk};
ghost use Rattle.commitment.specs.Commitment.{chunk_nodes};
ghost use Rattle.line_io.specs.Answers.{AnswersInput};
ghost use Rattle.range_proof.specs.RangeProof.{Shows};
ghost use Rattle.xet_merkle.specs.Roots.{IsFileHash, total_size};
ghost use Rattle.xetrange_text.specs.Proofs.{SaysProof};
ghost use Rattle.xetrange_text.specs.Verifying.{IsOpenFaultOf, IsPartUnlessCollision, IsVerifiedOf, IsVerifyFaultOf};

use crate::fault::RangeFault;
use crate::laws::verified_bytes_are_those_of_the_file;
use crate::proof_line::read_proof;
use line_io::devices::write_all;
use line_io::fault::Refusal;
use line_io::line_and_data::LineAndData;
use range_proof::laws::json_says_one_range_proof;
use range_proof::{OpenFault, OpenedRange};
use std::alloc::{Allocator, Global};
use std::io::{Read, Write};
use xet_hash::data_hash::MerkleHash;
use xet_roots::groups::total_size;

/// Reads the JSON text of a range proof to the end of the line, and the data of the proof's chunks to the end of `r`.
/// Then writes the bytes of the file from the place `from` up to, but without, the place `to` to `w`, and flushes it. The
/// proof must show the file hash under the salt of 32 zero bytes, and the data must be that of all chunks of the proof,
/// one after another, and nothing else.
///
/// It keeps the line, which has at most 2^40 bytes, the proof and the data. It stops reading if there is more data than
/// the proof says. `alloc` allocates these. `json` allocates the JSON value.
///
/// Each file with this file hash has the bytes that it writes between these places, unless a message that was hashed to
/// verify them and a different one that is hashed for the file have the same BLAKE3 hash.
///
/// [`RangeFault`] lists the faults. After `Write` it has written a beginning of the output, and after any other fault
/// nothing. How much of the input it has read after a fault isn't specified.
pub fn verify<R: Read, W: Write>(
    alloc: impl Allocator,
    json: Global,
    file_hash: &MerkleHash,
    from: u64,
    to: u64,
    r: &mut R,
    w: &mut W,
) -> Result<(), RangeFault>
    ensures answers { AnswersInput (IsVerifiedOf file_hash.now from to) (IsVerifyFaultOf file_hash.now from to) RangeFault.Write
        (R.remaining r.old) (R.remaining r.new) (W.contents w.old) (W.contents w.new) result }
    ensures sound { (file : List (List ℕ)) → IsFileHash (chunk_nodes file) (replicate 32 0) file_hash.now →
        AnswersInput (IsPartUnlessCollision file from to) (IsVerifyFaultOf file_hash.now from to) RangeFault.Write
        (R.remaining r.old) (R.remaining r.new) (W.contents w.old) (W.contents w.new) result }
{
    // The law of verified bytes, for the clause `sound`.
    verified_bytes_are_those_of_the_file();
    verify_in(&alloc, json, file_hash, from, to, r, w)
}

// Does the same as `verify` with an allocator that can be cloned.
fn verify_in<A: Allocator + Clone, R: Read, W: Write>(
    alloc: A,
    json: Global,
    file_hash: &MerkleHash,
    from: u64,
    to: u64,
    r: &mut R,
    w: &mut W,
) -> Result<(), RangeFault>
    ensures { AnswersInput (IsVerifiedOf file_hash.now from to) (IsVerifyFaultOf file_hash.now from to) RangeFault.Write
        (R.remaining r.old) (R.remaining r.new) (W.contents w.old) (W.contents w.new) result }
{
    // The law that a JSON value says one proof, for the fault `Mismatch`.
    json_says_one_range_proof();
    let mut input = LineAndData::read_line(alloc.clone()?, r)?;
    let range = open_line(alloc, json, file_hash, &input.line)?;
    input.read_data(r, size_of_chunks(&range))?;
    match range.read(from, to, &input.data) {
        Some(bytes) => Ok(write_all(w, bytes)?),
        None => Err(RangeFault::Mismatch),
    }
}

// Opens the proof that a line says with a file hash.
fn open_line<A: Allocator + Clone>(
    alloc: A,
    json: Global,
    file_hash: &MerkleHash,
    line: &[u8],
) -> Result<OpenedRange<A>, RangeFault>
    ensures says { IfOk result (SaysProof line.now) }
    ensures shows { IfOk result (λ range. Shows range file_hash.now (replicate 32 0)) }
    ensures fault { IfErr result (IsOpenFaultOf file_hash.now line.now) }
{
    let proof = match read_proof(alloc, json, line) {
        Ok(proof) => proof,
        Err(Refusal::Faulty(rule)) => return Err(RangeFault::BadRange(1, rule)),
        Err(Refusal::Memory) => return Err(RangeFault::Memory),
    };
    match proof.open(file_hash, &[0; 32]) {
        Ok(range) => Ok(range),
        Err(error) => match error.fault {
            OpenFault::Mismatch => Err(RangeFault::Mismatch),
            OpenFault::OutOfMemory => Err(RangeFault::Memory),
        },
    }
}

// Returns the sum of the sizes of a range's chunks.
fn size_of_chunks<A: Allocator>(range: &OpenedRange<A>) -> u64
    ensures { result ≡ total_size range.now.chunks }
{
    total_size(range.proof().chunks()).unwrap()
}

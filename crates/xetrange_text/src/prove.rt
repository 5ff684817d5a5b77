//! Proves ranges of chunks.

ghost use Rattle.line_io.specs.Answers.{AnswersInput};
ghost use Rattle.xetrange_text.specs.Answers.{IsProvedOf, IsProveFaultOf, LacksChunks};

use crate::chunks::Chunks;
use crate::fault::{NoChunks, RangeFault};
use crate::proof_line::write_proof;
use chunk_ranges::plain_range::PlainRange;
use line_io::answer_lines::answer_lines;
use line_io::fault::Refusal;
use line_io::take_lines::AnswerLines;
use pair_text::said_lines::SaidLines;
use range_proof::RangeProof;
use std::alloc::{Allocator, Global};
use std::io::{Read, Write};
use xet_merkle::error::CoreError;

/// Reads lines to the end of `r`, each a pair, a chunk or `--`. Then writes the proof of the chunks from number `first`
/// up to, but without, number `end`, as compact JSON text with a newline to `w`, and flushes it. An input has at most
/// 2^40 bytes.
///
/// It keeps all pairs, 40 bytes each, and the hash tree over them. `alloc` allocates these. `json` allocates the text
/// and its value.
///
/// [`RangeFault`] lists the faults. After `Write` it has written a beginning of the output, and after any other fault
/// nothing. How much of the input it has read after a fault isn't specified.
pub fn prove<R: Read, W: Write>(
    alloc: impl Allocator,
    json: Global,
    first: usize,
    end: usize,
    r: &mut R,
    w: &mut W,
) -> Result<(), RangeFault>
    ensures { AnswersInput (IsProvedOf first end) (IsProveFaultOf first end) RangeFault.Write
        (R.remaining r.old) (R.remaining r.new) (W.contents w.old) (W.contents w.new) result }
{
    prove_in(&alloc, json, first, end, r, w)
}

// Does the same as `prove` with an allocator that can be cloned.
fn prove_in<A: Allocator + Clone, R: Read, W: Write>(
    alloc: A,
    json: Global,
    first: usize,
    end: usize,
    r: &mut R,
    w: &mut W,
) -> Result<(), RangeFault>
    ensures { AnswersInput (IsProvedOf first end) (IsProveFaultOf first end) RangeFault.Write
        (R.remaining r.old) (R.remaining r.new) (W.contents w.old) (W.contents w.new) result }
{
    let lines = SaidLines::new(Chunks::<PlainRange<A>>::new(alloc.clone()?)?);
    let proof = ProofOfRange {
        alloc,
        json,
        first,
        end,
    };
    Ok(answer_lines(lines, proof, r, w)?)
}

// The line of the proof of a range of the chunks. `alloc` allocates the proof, and `json` its line.
#[derive(Drop)]
struct ProofOfRange<A: Allocator + Clone> {
    alloc: A,
    json: Global,
    first: usize,
    end: usize,
}

impl<A: Allocator + Clone> AnswerLines<SaidLines<Chunks<PlainRange<A>>>> for ProofOfRange<A> {
    type Output = Vec<u8>;

    type Fault = NoChunks;

    ghost is_answer = { λ asked. IsProvedOf asked.first asked.end };

    ghost is_fault = { λ asked text _. LacksChunks asked.first asked.end text };

    fn answer(self, lines: SaidLines<Chunks<PlainRange<A>>>) -> Result<Vec<u8>, Refusal<NoChunks>> {
        let all = lines.said.into_range()?;
        match RangeProof::from_chunks(self.alloc, all.chunks(), self.first, self.end) {
            Ok(proof) => Ok(write_proof(self.json, &proof)?),
            Err(CoreError::InvalidArguments) => Err(Refusal::Faulty(NoChunks)),
            Err(_) => Err(Refusal::Memory),
        }
    }
}

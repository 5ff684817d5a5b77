//! Makes the range of some pairs.

ghost use Rattle.line_io.specs.Answers.{AnswersInput};
ghost use Rattle.xetrange_text.specs.Answers.{IsMadeOf, IsMakeFaultOf};

use crate::chunks::Chunks;
use crate::fault::RangeFault;
use crate::range_line::write_range;
use line_io::answer_lines::answer_lines;
use line_io::fault::Refusal;
use line_io::take_lines::AnswerLines;
use pair_text::said_lines::SaidLines;
use std::alloc::{Allocator, Global};
use std::convert::Infallible;
use std::io::{Read, Write};
use xet_merkle::merkle_hash_subtree::MerkleHashSubtree;

/// Reads lines to the end of `r`, each a pair, a chunk or `--`. Then writes the subtree of their pairs, open at both
/// ends, as compact JSON text with a newline to `w`, and flushes it. An input has at most 2^40 bytes.
///
/// It keeps a subtree, which is small if there are stable points; at most 4096 pairs after it; and at most as many
/// bytes of the open line as the longest pair line has. `alloc` allocates these. `json` allocates the text and its
/// value.
///
/// [`RangeFault`] lists the faults. After `Write` it has written a beginning of the output, and after any other fault
/// nothing. How much of the input it has read after a fault isn't specified.
pub fn make<R: Read, W: Write>(
    alloc: impl Allocator,
    json: Global,
    r: &mut R,
    w: &mut W,
) -> Result<(), RangeFault>
    ensures { AnswersInput IsMadeOf IsMakeFaultOf RangeFault.Write
        (R.remaining r.old) (R.remaining r.new) (W.contents w.old) (W.contents w.new) result }
{
    make_in(&alloc, json, r, w)
}

// Does the same as `make` with an allocator that can be cloned.
fn make_in<A: Allocator + Clone, R: Read, W: Write>(
    alloc: A,
    json: Global,
    r: &mut R,
    w: &mut W,
) -> Result<(), RangeFault>
    ensures { AnswersInput IsMadeOf IsMakeFaultOf RangeFault.Write
        (R.remaining r.old) (R.remaining r.new) (W.contents w.old) (W.contents w.new) result }
{
    let lines = SaidLines::new(Chunks::<MerkleHashSubtree<A>>::new(alloc)?);
    Ok(answer_lines(lines, MadeRange { json }, r, w)?)
}

// The line of the range of all pairs. `json` allocates it.
#[derive(Drop)]
struct MadeRange {
    json: Global,
}

impl<A: Allocator + Clone> AnswerLines<SaidLines<Chunks<MerkleHashSubtree<A>>>> for MadeRange {
    type Output = Vec<u8>;

    type Fault = Infallible;

    ghost is_answer = { λ _. IsMadeOf };

    ghost is_fault = { λ _ _ _. ⊥ };

    fn answer(
        self,
        lines: SaidLines<Chunks<MerkleHashSubtree<A>>>,
    ) -> Result<Vec<u8>, Refusal<Infallible>> {
        let range = lines.said.into_range()?;
        Ok(write_range(self.json, &range)?)
    }
}

//! The work of the program: it reads lines, and writes two hashes.

ghost use Rattle.line_io.specs.Answers.{AnswersInput};
ghost use Rattle.xetroot_text.specs.Answer.{HasGap, IsAnswer, IsFaultOf};

use crate::fault::{Fault, Gap};
use crate::placed_pairs::PlacedPairs;
use arrayvec::ArrayVec;
use chunk_ranges::chunk_range::ChunkRange;
use line_io::answer_lines::answer_lines;
use line_io::fault::Refusal;
use line_io::take_lines::AnswerLines;
use pair_text::output::{OUTPUT_LEN, output};
use pair_text::said_lines::SaidLines;
use std::alloc::Allocator;
use std::io::{Read, Write};
use xet_merkle::merkle_hash_subtree::MerkleHashSubtree;

/// Reads lines to the end of `r`. Then writes the root and the file hash of their pairs to `w`, as `xorb <hex>` and
/// `file <hex>`, and flushes it. An input has at most 2^40 bytes.
///
/// It keeps three things:
///
/// - a session of the ended ranges, with a subtree for each run of adjacent positions, which is small if there are
///   stable points;
/// - the pairs of the open range, at most 4096;
/// - at most as many bytes of the open line as the longest pair line has.
///
/// [`Fault`] lists the faults. After `Write` it has written a beginning of the output, and after any other fault
/// nothing. How much of the input it has read after a fault isn't specified.
pub fn run<R: Read, W: Write>(alloc: impl Allocator, r: &mut R, w: &mut W) -> Result<(), Fault>
    ensures { AnswersInput IsAnswer IsFaultOf Fault.Write
        (R.remaining r.old) (R.remaining r.new) (W.contents w.old) (W.contents w.new) result }
{
    run_with::<MerkleHashSubtree<_>, R, W>(&alloc, r, w)
}

/// Does the same as [`run`] with another kind of range. It keeps each run of adjacent positions as one `C`, which is
/// allocated by `alloc`, and everything else as `run` does. The output, the faults, and what is read and written in
/// each case are those of `run`. Only the allocations depend on `C`.
pub fn run_with<C: ChunkRange, R: Read, W: Write>(
    alloc: C::Alloc,
    r: &mut R,
    w: &mut W,
) -> Result<(), Fault>
    ensures { AnswersInput IsAnswer IsFaultOf Fault.Write
        (R.remaining r.old) (R.remaining r.new) (W.contents w.old) (W.contents w.new) result }
{
    let lines = SaidLines::new(PlacedPairs::<C>::new(alloc)?);
    Ok(answer_lines(lines, RootAndFile, r, w)?)
}

// The root and the file hash of all pairs in the order of their positions.
#[derive(Drop)]
struct RootAndFile;

impl<C: ChunkRange> AnswerLines<SaidLines<PlacedPairs<C>>> for RootAndFile {
    type Output = ArrayVec<u8, OUTPUT_LEN>;

    type Fault = Gap;

    ghost is_answer = { λ _. IsAnswer };

    ghost is_fault = { λ _ text _. HasGap text };

    fn answer(
        self,
        lines: SaidLines<PlacedPairs<C>>,
    ) -> Result<ArrayVec<u8, OUTPUT_LEN>, Refusal<Gap>> {
        let (root, file) = lines.said.hashes()?;
        Ok(output(&root, &file))
    }
}

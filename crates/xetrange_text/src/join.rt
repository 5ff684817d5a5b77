//! Merges ranges to one, and to the hashes of the whole.

ghost use Rattle.std.specs.Prelude.{◌≡◌, ◌<◌, List, length, replicate, IfNone, IfOk, IfSome};
ghost use Rattle.line_io.specs.Answers.{AnswersInput};
ghost use Rattle.xet_merkle.specs.Groups.{Node};
ghost use Rattle.xet_merkle.specs.Roots.{IsFileHash, IsRoot};
ghost use Rattle.xet_merkle.specs.Subtree.{IsCanonical};
ghost use Rattle.xetrange_text.specs.Answers.{IsJoinedOf, IsRangeFaultOf, IsRootOf};

use crate::fault::RangeFault;
use crate::merged_lines::MergedLines;
use crate::range_line::write_range;
use arrayvec::ArrayVec;
use line_io::answer_lines::answer_lines;
use line_io::fault::Refusal;
use line_io::take_lines::AnswerLines;
use pair_text::output::{OUTPUT_LEN, output};
use std::alloc::{AllocError, Allocator, Global};
use std::convert::Infallible;
use std::io::{Read, Write};
use xet_hash::data_hash::MerkleHash;
use xet_merkle::chunk_range::hashes_of_open;
use xet_merkle::merkle_hash_subtree::MerkleHashSubtree;

/// Reads lines to the end of `r`, each the JSON text of a subtree that is open at both ends. Merges these subtrees in
/// order. Then writes the JSON text of the result, which is open at both ends too, and a newline to `w`, and flushes
/// it. An input has at most 2^40 bytes.
///
/// It keeps the merged subtree, and one whole line with its subtree. `alloc` allocates subtrees and the line. `json`
/// allocates JSON values and the text that is written.
///
/// [`RangeFault`] lists the faults. After `Write` it has written a beginning of the output, and after any other fault
/// nothing. How much of the input it has read after a fault isn't specified.
pub fn join<R: Read, W: Write>(
    alloc: impl Allocator,
    json: Global,
    r: &mut R,
    w: &mut W,
) -> Result<(), RangeFault>
    ensures { AnswersInput IsJoinedOf IsRangeFaultOf RangeFault.Write
        (R.remaining r.old) (R.remaining r.new) (W.contents w.old) (W.contents w.new) result }
{
    let lines = MergedLines::new(&alloc, json)?;
    Ok(answer_lines(lines, JoinedRange { json }, r, w)?)
}

/// Reads the lines that [`join`] reads, and merges their subtrees. Then it marks both ends, and writes the root and the
/// file hash as the two lines that [`xetroot_text::run::run`] writes.
///
/// What it keeps, its faults and what it has written after one are those of [`join`].
pub fn root<R: Read, W: Write>(
    alloc: impl Allocator,
    json: Global,
    r: &mut R,
    w: &mut W,
) -> Result<(), RangeFault>
    ensures { AnswersInput IsRootOf IsRangeFaultOf RangeFault.Write
        (R.remaining r.old) (R.remaining r.new) (W.contents w.old) (W.contents w.new) result }
{
    let lines = MergedLines::new(&alloc, json)?;
    Ok(answer_lines(lines, RootAndFile { alloc: &alloc }, r, w)?)
}

// The line of the merged range. `json` allocates it.
#[derive(Drop)]
struct JoinedRange {
    json: Global,
}

impl<A: Allocator + Clone> AnswerLines<MergedLines<A>> for JoinedRange {
    type Output = Vec<u8>;

    type Fault = Infallible;

    ghost is_answer = { λ _. IsJoinedOf };

    ghost is_fault = { λ _ _ _. ⊥ };

    fn answer(self, lines: MergedLines<A>) -> Result<Vec<u8>, Refusal<Infallible>> {
        Ok(write_range(self.json, &lines.merged)?)
    }
}

// The root and the file hash of the merged range.
#[derive(Drop)]
struct RootAndFile<A: Allocator + Clone> {
    alloc: A,
}

impl<A: Allocator + Clone> AnswerLines<MergedLines<A>> for RootAndFile<A> {
    type Output = ArrayVec<u8, OUTPUT_LEN>;

    type Fault = Infallible;

    ghost is_answer = { λ _. IsRootOf };

    ghost is_fault = { λ _ _ _. ⊥ };

    fn answer(
        self,
        lines: MergedLines<A>,
    ) -> Result<ArrayVec<u8, OUTPUT_LEN>, Refusal<Infallible>> {
        let (root, file) = close(self.alloc, &lines.merged)?;
        Ok(output(&root, &file))
    }
}

// Returns the root and the file hash of a range that is open at both ends, as if both were marked. Fails if an
// allocation fails.
fn close<A: Allocator + Clone>(
    alloc: A,
    merged: &MerkleHashSubtree<A>,
) -> Result<(MerkleHash, MerkleHash), AllocError>
    ensures root { IfOk result (λ hashes. (chunks : List Node) → IsCanonical merged.now chunks → IsRoot chunks hashes.0) }
    ensures file { IfOk result (λ hashes. (chunks : List Node) → IsCanonical merged.now chunks →
        IsFileHash chunks (replicate 32 0) hashes.1) }
{
    let Ok(hashes) = hashes_of_open(&alloc, with_chunks(merged)) else {
        return Err(AllocError);
    };
    Ok(hashes)
}

// Returns a range, if it has a chunk.
fn with_chunks<A: Allocator + Clone>(range: &MerkleHashSubtree<A>) -> Option<&MerkleHashSubtree<A>>
    ensures none { IfNone result ((chunks : List Node) → IsCanonical range.now chunks → length chunks ≡ 0) }
    ensures some { IfSome result (λ same. (same.now ≡ range.now)
        × ((chunks : List Node) → IsCanonical range.now chunks → 0 < length chunks)) }
{
    if range.is_empty() { None } else { Some(range) }
}

//! Lines of ranges, merged in order.

ghost use Rattle.std.specs.Prelude.{[], IfOk};
ghost use Rattle.xetrange_text.specs.Answers.{IsLineFault};
ghost use Rattle.xetrange_text.specs.Steps.MergedLines.{HasTaken};

use crate::fault::LineFault;
use crate::range_line::read_range;
use line_io::fault::Refusal;
use line_io::take_lines::TakeLines;
use std::alloc::{AllocError, Allocator, Global};
use xet_merkle::error::CoreError;
use xet_merkle::merkle_hash_subtree::MerkleHashSubtree;

/// What the lines so far say, as one subtree, and the whole open line.
#[derive(Drop)]
pub struct MergedLines<A: Allocator + Clone> {
    /// The subtree that the ranges of the whole lines are merged to.
    pub merged: MerkleHashSubtree<A>,
    line: Vec<u8, A>,
    json: Global,
}

impl<A: Allocator + Clone> MergedLines<A> {
    /// Starts without lines. Fails if an allocation fails.
    pub fn new(alloc: A, json: Global) -> Result<Self, AllocError>
        ensures { IfOk result (λ lines. HasTaken lines [] []) }
    {
        let Ok(merged) = MerkleHashSubtree::from_chunks(alloc.clone()?, false, &[], false) else {
            return Err(AllocError);
        };
        Ok(MergedLines {
            merged,
            line: Vec::new(alloc),
            json,
        })
    }
}

impl<A: Allocator + Clone> TakeLines for MergedLines<A> {
    type Fault = LineFault;

    ghost has_taken = { HasTaken };

    ghost is_fault = { IsLineFault };

    fn extend_line(&mut self, bytes: &[u8]) -> Result<(), Refusal<LineFault>> {
        self.line.extend_from_slice(bytes)?;
        Ok(())
    }

    fn end_line(&mut self) -> Result<(), Refusal<LineFault>> {
        let alloc = self.line.allocator().clone()?;
        let range = read_range(alloc, self.json, &self.line)?;
        match self.merged.merge_into(&range) {
            Ok(()) => {}
            Err(CoreError::SizeOverflow) => return Err(Refusal::Faulty(LineFault::Sizes)),
            Err(_) => return Err(Refusal::Memory),
        }
        self.line.clear();
        Ok(())
    }

    fn past_limit(&self) -> LineFault {
        LineFault::Bad
    }
}

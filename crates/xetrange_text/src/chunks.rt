//! Chunks in order, collected range by range.

ghost use Rattle.std.specs.Prelude.{◌≡◌, ◌+◌, ◌^◌, ◌<◌, ◌≤◌, false, List, [], ◌∷◌, ◌++◌, IfOk, IfErr, OnErr, OnOk};
ghost use Rattle.line_io.specs.Faults.{IfFaulty};
ghost use Rattle.xet_merkle.specs.Groups.{Node};
ghost use Rattle.xet_merkle.specs.Roots.{total_size};

use line_io::fault::Refusal;
use pair_text::line::Line;
use pair_text::pair_fault::PairFault;
use pair_text::said_lines::TakeSaid;
use std::alloc::AllocError;
use xet_merkle::aggregated_hashes::Node;
use xet_merkle::chunk_range::ChunkRange;
use xet_merkle::error::CoreError;

// The most chunks after the ended range. More are cut into several ranges.
const MAX_LAST_LEN: usize = 4096;

/// The chunks so far. It keeps the last chunks, 40 bytes each and at most [`MAX_LAST_LEN`], and one range without marks
/// of all chunks before them.
#[derive(Drop)]
pub struct Chunks<C: ChunkRange> {
    ended: C,
    last: Vec<Node, C::Alloc>,
    // The sum of all sizes.
    total: u64,
    ghost start: { C.start ended ≡ false },
    ghost end: { C.end ended ≡ false },
    ghost sizes: { C.total ended + total_size last.items ≡ total },
    ghost fits: { total < 2 ^ 64 },
}

impl<C: ChunkRange> Chunks<C> {
    ghost use Rattle.xetrange_text.specs.Steps.Chunks.{StandForChunks};

    /// Starts without chunks. Fails if an allocation fails.
    pub fn new(alloc: C::Alloc) -> Result<Self, AllocError>
        ensures { IfOk result (λ chunks. StandForChunks chunks []) }
    {
        let ended = C::from_chunks(alloc.clone()?, false, &[], false);
        Ok(Chunks {
            ended: ended.map_err(out_of_memory)?,
            last: Vec::new(alloc),
            total: 0,
        })
    }

    /// Adds a chunk.
    ///
    /// Fails with [`PairFault::Sizes`] if all sizes add up to more than `u64::MAX` bytes. Fails with
    /// [`Refusal::Memory`] if an allocation fails.
    pub fn push(&mut self, chunk: Node) -> Result<(), Refusal<PairFault>>
        ensures pushed { OnOk result ((chunks : List Node) → StandForChunks self.old chunks →
            (total_size chunks + chunk.1 < 2 ^ 64) × StandForChunks self.new (chunks ++ chunk ∷ [])) }
        ensures fault { IfErr result (λ refusal. (chunks : List Node) → StandForChunks self.old chunks →
            IfFaulty refusal (λ fault. (fault ≡ PairFault.Sizes) × (2 ^ 64 ≤ total_size chunks + chunk.1))) }
        ensures kept { OnErr result ((chunks : List Node) → StandForChunks self.old chunks → StandForChunks self.new chunks) }
    {
        let Some(total) = self.total.checked_add(chunk.1) else {
            return Err(Refusal::Faulty(PairFault::Sizes));
        };
        if self.last.len() >= MAX_LAST_LEN {
            self.end_range()?;
        }
        self.last.push(chunk)?;
        self.total = total;
        Ok(())
    }

    /// Returns the range of all chunks, without marks. Fails if an allocation fails.
    pub fn into_range(mut self) -> Result<C, AllocError>
        ensures stands { IfOk result (λ range. (chunks : List Node) → StandForChunks self chunks → C.stands range chunks) }
        ensures start { IfOk result (λ range. C.start range ≡ false) }
        ensures end { IfOk result (λ range. C.end range ≡ false) }
    {
        self.end_range()?;
        Ok(self.ended)
    }

    // Merges the range of the last chunks into the range of those before them.
    fn end_range(&mut self) -> Result<(), AllocError>
        ensures same { OnOk result ((chunks : List Node) → StandForChunks self.old chunks → StandForChunks self.new chunks) }
        ensures total { self.new.total ≡ self.old.total }
        ensures none { OnOk result (self.new.last.items ≡ []) }
        ensures kept { OnErr result ((chunks : List Node) → StandForChunks self.old chunks → StandForChunks self.new chunks) }
    {
        let alloc = self.last.allocator().clone()?;
        let range = C::from_chunks(alloc, false, &self.last, false).map_err(out_of_memory)?;
        self.ended.join(&range).map_err(out_of_memory)?;
        self.last.clear();
        Ok(())
    }
}

impl<C: ChunkRange> TakeSaid for Chunks<C> {
    type Fault = PairFault;

    ghost use Rattle.pair_text.specs.PairText.{IsLineFault};
    ghost use Rattle.xetrange_text.specs.Steps.Chunks.{StandForLines};

    ghost stands_for = { StandForLines };

    ghost is_fault = { IsLineFault };

    // A separator changes no pair.
    fn take(&mut self, said: Line) -> Result<(), Refusal<PairFault>> {
        match said {
            Line::Separator => Ok(()),
            Line::Position(_) => Err(Refusal::Faulty(PairFault::Bad)),
            Line::Pair(chunk) => self.push(chunk),
        }
    }

    fn bad(&self) -> PairFault {
        PairFault::Bad
    }
}

// Converts the error of a call that fails only for lack of memory.
fn out_of_memory(error: CoreError) -> AllocError
    requires { error ≡ CoreError.OutOfMemory }
{
    match error {
        CoreError::OutOfMemory => AllocError,
        _ => unreachable!(),
    }
}

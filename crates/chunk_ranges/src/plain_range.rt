//! A range that keeps all of its chunks.

ghost use Rattle.std.specs.Prelude.{◌≡◌, ◌<◌};
ghost use Rattle.xet_roots.specs.Roots.{total_size};
ghost use Rattle.chunk_ranges.specs.PlainRange.{Plain, IsSizeOf};

use crate::chunk_range::ChunkRange;
use std::alloc::{Allocator, Global};
use std::marker::Model;
use xet_hash::data_hash::MerkleHash;
use xet_roots::aggregated_hashes::{Node, xorb_hash};
use xet_roots::error::CoreError;
use xet_roots::groups::total_size;

/// A range of chunks that keeps each chunk. It is the simplest way to merge ranges, for tests and for short lists.
#[derive(Debug, Drop)]
pub struct PlainRange<A: Allocator = Global> {
    at_start: bool,
    at_end: bool,
    chunks: Vec<Node, A>,
    // The sum of the sizes of all chunks.
    total_size: u64,
}

impl<A: Allocator> Model for PlainRange<A> {
    ghost Value = { Plain };

    ghost view = { λ range. record { at_start = range.at_start; at_end = range.at_end; chunks = range.chunks.items } };

    ghost invariant = { λ range. IsSizeOf range.total_size range.chunks.items };
}

impl<A: Allocator> PlainRange<A> {
    /// Returns the chunks in order.
    pub fn chunks(&self) -> &[Node]
        ensures { result.now ≡ self.now.chunks }
    {
        &self.chunks
    }
}

impl<A: Allocator + Clone> ChunkRange for PlainRange<A> {
    type Alloc = A;

    ghost stands = { λ range chunks. range.chunks ≡ chunks };

    ghost start = { λ range. range.at_start };

    ghost end = { λ range. range.at_end };

    ghost total = { λ range. total_size range.chunks };

    fn from_chunks(
        alloc: A,
        at_start: bool,
        chunks: &[Node],
        at_end: bool,
    ) -> Result<Self, CoreError> {
        let Some(total_size) = total_size(chunks) else {
            return Err(CoreError::SizeOverflow);
        };
        Ok(PlainRange {
            at_start,
            at_end,
            chunks: chunks.to_vec(alloc)?,
            total_size,
        })
    }

    fn at_start(&self) -> bool {
        self.at_start
    }

    fn at_end(&self) -> bool {
        self.at_end
    }

    fn total_size(&self) -> u64 {
        self.total_size
    }

    fn join(&mut self, back: &Self) -> Result<(), CoreError> {
        if self.at_end || back.at_start {
            return Err(CoreError::InvalidArguments);
        }
        let Some(total_size) = self.total_size.checked_add(back.total_size) else {
            return Err(CoreError::SizeOverflow);
        };
        self.chunks.extend_from_slice(&back.chunks)?;
        self.at_end = back.at_end;
        self.total_size = total_size;
        Ok(())
    }

    fn root(&self) -> Result<Option<MerkleHash>, CoreError> {
        if !(self.at_start && self.at_end) {
            return Ok(None);
        }
        let alloc = self.chunks.allocator().clone()?;
        Ok(Some(xorb_hash(alloc, &self.chunks)?))
    }
}

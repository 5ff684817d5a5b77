//! The promises of merging as a trait, so that other representations of a range can keep them too.

ghost use Rattle.std.specs.Prelude.{◌≡◌, ℕ, ◌+◌, ◌^◌, ◌<◌, ◌≤◌, ◌⊎◌, ◌↔◌, Bool, false, List, ◌++◌, IfOk, IfErr, OnOk, OnErr, IfSome, IsSome, IsErrOf, IsTrue};
ghost use Rattle.xet_roots.specs.Groups.{Node};
ghost use Rattle.xet_roots.specs.Roots.{total_size, IsRoot};
ghost use Rattle.chunk_ranges.specs.Ranges.{Refusals};

pub use crate::open_range::hashes_of_open;
use std::alloc::Allocator;
use xet_hash::data_hash::MerkleHash;
use xet_roots::aggregated_hashes::Node;
use xet_roots::error::CoreError;

/// A range of adjacent chunks. An implementation keeps as much of it as it needs. It makes a range from chunks, merges
/// it with the range that follows without the chunks, and returns the root of the list once both ends are marked.
///
/// A value stands for a list of chunks. A value from elsewhere may stand for no list; each implementation documents
/// what it does then.
pub trait ChunkRange: Drop {
    /// The allocator that the range uses.
    type Alloc: Allocator + Clone;

    // The range stands for a list of chunks, under the marks that it shows.
    ghost stands: { Self → List Node → Type 0 };

    // Whether the start of the list is marked; `end` is the same for its end.
    ghost start: { Self → Bool };

    ghost end: { Self → Bool };

    // The sum of all sizes.
    ghost total: { Self → ℕ };

    /// Makes the range of some chunks. The caller marks its start, its end, both or neither.
    ///
    /// Fails with [`CoreError::SizeOverflow`] if the sizes add up to more than `u64::MAX`. Fails with
    /// [`CoreError::OutOfMemory`] if an allocation fails.
    fn from_chunks(
        alloc: Self::Alloc,
        at_start: bool,
        chunks: &[Node],
        at_end: bool,
    ) -> Result<Self, CoreError>
        ensures stands { IfOk result (λ range. stands range chunks.now) }
        ensures start { IfOk result (λ range. start range ≡ at_start) }
        ensures end { IfOk result (λ range. end range ≡ at_end) }
        ensures total { IfOk result (λ range. total range ≡ total_size chunks.now) }
        ensures overflow { IsErrOf result CoreError.SizeOverflow ↔ (2 ^ 64 ≤ total_size chunks.now) }
        ensures errors { IfErr result (λ e. (e ≡ CoreError.SizeOverflow) ⊎ (e ≡ CoreError.OutOfMemory)) };

    /// Returns whether the start of the list is marked.
    fn at_start(&self) -> bool
        ensures { result ≡ start self.now };

    /// Returns whether the end of the list is marked.
    fn at_end(&self) -> bool
        ensures { result ≡ end self.now };

    /// Returns the sum of the sizes of the chunks, in bytes.
    fn total_size(&self) -> u64
        ensures total { result ≡ total self.now }
        ensures chunks { (chunks : List Node) → stands self.now chunks → result ≡ total_size chunks };

    /// Merges the range that follows into this one. This range then stands for both lists, one after the other. It
    /// keeps its own start mark and takes the end mark of the other.
    ///
    /// Fails with [`CoreError::InvalidArguments`] if this range is marked at its end or the other at its start, even if
    /// one of them is empty. Otherwise fails with [`CoreError::SizeOverflow`] if the two sizes add up to more than
    /// `u64::MAX`. Fails with [`CoreError::OutOfMemory`] if an allocation fails. After a failure this range is
    /// unchanged.
    fn join(&mut self, back: &Self) -> Result<(), CoreError>
        ensures stands { OnOk result ((first second : List Node) →
            stands self.old first → stands back.now second → stands self.new (first ++ second)) }
        ensures start { OnOk result (start self.new ≡ start self.old) }
        ensures end { OnOk result (end self.new ≡ end back.now) }
        ensures total { OnOk result (total self.new ≡ total self.old + total back.now) }
        ensures unchanged { OnErr result (self.new ≡ self.old) }
        ensures refusals { Refusals ((end self.old ≡ false) × (start back.now ≡ false))
            (total self.old + total back.now) result };

    /// Merges the range before this one into it. This range becomes what [`ChunkRange::join`] makes of `front` and this
    /// range. It fails like `join`, and after a failure this range is unchanged. An implementation that changes its
    /// memory in place takes time only for the nodes of `front`.
    fn prepend(&mut self, front: Self) -> Result<(), CoreError>
    where
        Self: Sized,
        ensures stands { OnOk result ((first second : List Node) →
            stands front first → stands self.old second → stands self.new (first ++ second)) }
        ensures start { OnOk result (start self.new ≡ start front) }
        ensures end { OnOk result (end self.new ≡ end self.old) }
        ensures total { OnOk result (total self.new ≡ total front + total self.old) }
        ensures unchanged { OnErr result (self.new ≡ self.old) }
        ensures refusals { Refusals ((end front ≡ false) × (start self.old ≡ false))
            (total front + total self.old) result }
    {
        let mut joined = front;
        joined.join(self)?;
        *self = joined;
        Ok(())
    }

    /// Returns the number of kept nodes. It helps to choose which of two adjacent ranges to change in place, by
    /// [`ChunkRange::join`] or [`ChunkRange::prepend`]. No clause constrains the number. If ranges return 0, `join` is chosen.
    fn num_nodes(&self) -> usize {
        0
    }

    /// Returns the root of the list if both of its ends are marked, and `None` if not. Fails with
    /// [`CoreError::OutOfMemory`] if an allocation fails.
    fn root(&self) -> Result<Option<MerkleHash>, CoreError>
        ensures marks { IfOk result (λ root. IsSome root ↔ (IsTrue (start self.now) × IsTrue (end self.now))) }
        ensures root { (chunks : List Node) → stands self.now chunks → IfOk result (λ root. IfSome root (IsRoot chunks)) }
        ensures errors { IfErr result (λ e. e ≡ CoreError.OutOfMemory) };
}

/// A range that can be copied.
pub trait CopyableRange: ChunkRange {
    /// Returns a copy. Fails with [`CoreError::OutOfMemory`] if an allocation fails.
    fn try_clone(&self) -> Result<Self, CoreError>
        ensures copy { IfOk result (λ copy. copy ≡ self.now) }
        ensures errors { IfErr result (λ e. e ≡ CoreError.OutOfMemory) };
}

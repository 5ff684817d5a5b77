//! A range of a file's chunks that a proof shows.

ghost use Rattle.std.specs.Prelude.{◌≡◌, ℕ, ◌+◌, ◌<◌, ◌↔◌, List, length, Some, slice_get, IsSome, IsTrue, IfOk, IfErr, IfSome, IfNone, SomeIff};
ghost use Rattle.commitment.specs.Commitment.{chunk_node};
ghost use Rattle.range_proof.specs.RangeProof.{file_size_of, begin_of, HasHashes, IsWellFormed};
ghost use Rattle.range_proof.specs.Reading.{IsRead};
ghost use Rattle.range_proof.specs.Checking.{IsSoundCheck, IsSoundCheckForRoot, IsSoundRead, IsSoundReadForRoot};
ghost use Rattle.range_proof.specs.declared.open_error.OpenFault.TheVariants.{OutOfMemory};

use crate::laws::{
    bytes_that_are_read_are_those_of_the_file, range_proofs_of_file_hashes_are_sound,
    range_proofs_of_roots_are_sound,
};
use crate::open_error::{OpenError, OpenFault};
use crate::places::places;
use crate::proof::RangeProof;
use crate::reading::{are_chunks, is_chunk, read_all_words};
use crate::sides::{size_of_nodes, sizes_beside};
use std::alloc::{Allocator, Global};
use std::marker::Model;

/// A range of a file's chunks, and where in the file it is, as a range proof shows it. It checks the chunks' data as
/// they arrive, in any order.
///
/// Until a chunk was checked, the places and the file's size are the proof's own word: they tell a reader where to cut,
/// and no more. A node alone shows nothing, only data that was checked.
#[derive(Debug, Drop)]
pub struct OpenedRange<A: Allocator = Global> {
    proof: RangeProof<A>,
    // Where in the file each chunk of the range begins, and last where the range ends.
    places: Vec<u64, A>,
    file_size: u64,
}

impl<A: Allocator> Model for OpenedRange<A> {
    ghost use Rattle.range_proof.specs.RangeProof.{Proof};
    ghost use Rattle.range_proof.specs.Steps.Opening.{IsOpened};

    ghost Value = { Proof };

    ghost view = { λ range. range.proof };

    ghost invariant = { λ range. IsOpened range.proof range.places.items range.file_size };
}

impl<A: Allocator + Clone> OpenedRange<A> {
    // Opens a proof that was found to show a hash. Fails with `OpenFault::OutOfMemory` if an allocation fails.
    pub(crate) fn new(proof: RangeProof<A>) -> Result<Self, OpenError<A>>
        ensures same { IfOk result (λ range. range ≡ proof) }
        ensures given_back { IfErr result (λ e. e.proof ≡ proof) }
        ensures errors { IfErr result (λ e. e.fault ≡ OutOfMemory) }
    {
        read_all_words(&proof);
        let (before, after) = sizes_beside(proof.levels());
        let file_size = before + size_of_nodes(proof.chunks()) + after;
        match proof.places_from(before) {
            Ok(places) => Ok(OpenedRange {
                proof,
                places,
                file_size,
            }),
            Err(_) => Err(OpenError {
                proof,
                fault: OpenFault::OutOfMemory,
            }),
        }
    }
}

impl<A: Allocator> OpenedRange<A> {
    /// Returns the proof.
    pub fn proof(&self) -> &RangeProof<A>
        ensures { result.now ≡ self.now }
    {
        &self.proof
    }

    /// Returns the size of the file in bytes.
    pub fn file_size(&self) -> u64
        ensures { result ≡ file_size_of self.now }
    {
        self.file_size
    }

    /// Returns the number of chunks of the range. There is at least one.
    pub fn num_chunks(&self) -> usize
        ensures chunks { result ≡ length self.now.chunks }
        ensures well_formed { IsWellFormed self.now }
        ensures hashes { HasHashes self.now }
    {
        self.proof.chunks().len()
    }

    /// Returns where in the file the range begins, in bytes.
    pub fn begin(&self) -> u64
        ensures { result ≡ begin_of self.now 0 }
    {
        self.places[0]
    }

    /// Returns where in the file the range ends: the place after its last byte.
    pub fn end(&self) -> u64
        ensures { result ≡ begin_of self.now (length self.now.chunks) }
    {
        self.places[self.num_chunks()]
    }

    /// Returns where in the file a chunk of the range begins, in bytes, or `None` if there is no such chunk. The chunks
    /// of the range count from 0.
    pub fn begins(&self, k: usize) -> Option<u64>
        ensures { SomeIff result (k < length self.now.chunks) (begin_of self.now k) }
    {
        let _node = self.proof.chunks().get(k)?;
        Some(self.places[k])
    }

    /// Returns where in the file a chunk of the range ends: the place after its last byte, or `None` if there is no such
    /// chunk. The chunks of the range count from 0.
    pub fn ends(&self, k: usize) -> Option<u64>
        ensures { SomeIff result (k < length self.now.chunks) (begin_of self.now (k + 1)) }
    {
        let _node = self.proof.chunks().get(k)?;
        Some(self.places[k + 1])
    }

    /// Checks the data of a chunk of the range. Returns where in the file it begins, in bytes, if the data's hash and
    /// length are those of the chunk's node. Returns `None` if not, or if there is no such chunk. The chunks of the range
    /// count from 0. It allocates nothing.
    pub fn check(&self, k: usize, data: &[u8]) -> Option<u64>
        ensures place { SomeIff result (slice_get self.now.chunks k ≡ Some (chunk_node «data».now)) (begin_of self.now k) }
        ensures sound { IsSome result → IsSoundCheck self.now k «data».now }
        ensures sound_for_root { IsSome result → IsSoundCheckForRoot self.now k «data».now }
    {
        // The laws of soundness, for the last two clauses.
        range_proofs_of_file_hashes_are_sound();
        range_proofs_of_roots_are_sound();
        if !self.is_chunk_at(k, data) {
            return None;
        }
        self.begins(k)
    }

    // Returns whether some data is that of a chunk of the range.
    fn is_chunk_at(&self, k: usize, data: &[u8]) -> bool
        ensures same { IsTrue result ↔ (slice_get self.now.chunks k ≡ Some (chunk_node «data».now)) }
        ensures well_formed { IsWellFormed self.now }
        ensures hashes { HasHashes self.now }
    {
        match self.proof.chunks().get(k) {
            Some(node) => is_chunk(node, data),
            None => false,
        }
    }

    /// Checks the data of all chunks of the range, and returns the bytes of the file from the place `from` up to, but
    /// without, the place `to`. `data` is the data of these chunks, one after another, and nothing else. Returns `None`
    /// unless each chunk checks and the range holds the places. It allocates nothing.
    pub fn read<'d>(&self, from: u64, to: u64, data: &'d [u8]) -> Option<&'d [u8]>
        ensures read { IfSome result (λ bytes. IsRead self.now from to «data».now bytes.now) }
        ensures none { IfNone result ((bytes : List ℕ) → ¬ (IsRead self.now from to «data».now bytes)) }
        ensures sound { IfSome result (λ bytes. IsSoundRead self.now from to «data».now bytes.now) }
        ensures sound_for_root { IfSome result (λ bytes. IsSoundReadForRoot self.now from to «data».now bytes.now) }
    {
        // The law of what was read, for the last two clauses, and what it takes.
        bytes_that_are_read_are_those_of_the_file();
        let _count = self.num_chunks();
        let (begin, end) = (self.begin(), self.end());
        if from < begin || to < from || end < to || !are_chunks(self.proof.chunks(), data) {
            return None;
        }
        Some(&data[(from - begin) as usize..(to - begin) as usize])
    }
}

//! The proof of a range of a file's chunks.

ghost use Rattle.xet_roots.specs.Roots.{total_size};
ghost use Rattle.std.specs.Prelude.{◌≡◌, ◌+◌, ◌^◌, ◌<◌, ◌↔◌, length, true, false, Ok, IfOk, IfErr, IsTrue};
ghost use Rattle.level_nodes.specs.Level.{left_at, right_at};
ghost use Rattle.range_proof.specs.RangeProof.{Shows, ShowsRoot, IsWellFormed, same_proof};
ghost use Rattle.range_proof.specs.Steps.Equality.{same_proof-per, same_proof-equiv};
ghost use Rattle.range_proof.specs.Steps.Opening.{HasTop};
ghost use Rattle.range_proof.specs.Steps.Places.{ArePlaces};
ghost use Rattle.range_proof.specs.declared.open_error.OpenFault.TheVariants.{Mismatch};

use crate::open_error::{OpenError, OpenFault};
use crate::opened_range::OpenedRange;
use crate::places::places;
use crate::tops::{is_found, top};
use level_nodes::levels::{LevelNodes, copy_levels, left_at, right_at};
use std::alloc::{AllocError, Allocator, Global};
use std::marker::Model;
use xet_hash::data_hash::MerkleHash;
use xet_roots::aggregated_hashes::{Node, file_hash_of_root};
use xet_roots::error::CoreError;

/// The nodes of some adjacent chunks of a file, and the other nodes of each group on the way up.
///
/// Whoever knows the file hash or the root opens a proof and checks the chunks with it. A proof may come from anybody:
/// nothing but its form is assumed until it is opened.
#[derive(Debug, Drop)]
pub struct RangeProof<A: Allocator = Global> {
    chunks: Vec<Node, A>,
    // From the chunks up.
    levels: Vec<LevelNodes<A>, A>,
}

impl<A: Allocator> Model for RangeProof<A> {
    ghost use Rattle.range_proof.specs.RangeProof.{Proof, IsWellFormed};

    ghost Value = { Proof };

    ghost view = { λ stored. record { chunks = stored.chunks.items; levels = stored.levels.items } };

    ghost invariant = { λ stored. IsWellFormed (record { chunks = stored.chunks.items; levels = stored.levels.items }) };
}

impl<A: Allocator + Clone> RangeProof<A> {
    /// Opens the proof with a file hash under a salt. The proof shows that hash if its nodes have a common root, whose
    /// keyed hash under the salt is the file hash. The default hash is never shown, since it is the file hash of the
    /// empty file under each salt.
    ///
    /// Fails with [`OpenFault::Mismatch`] if the proof doesn't show the hash, and with [`OpenFault::OutOfMemory`] if an
    /// allocation fails. The error gives the proof back, unchanged. Time and memory are proportional to the number of
    /// its nodes and levels.
    pub fn open(
        self,
        file_hash: &MerkleHash,
        salt: &[u8; 32],
    ) -> Result<OpenedRange<A>, OpenError<A>>
        ensures same { IfOk result (λ range. range ≡ self) }
        ensures shows { IfOk result (λ range. Shows range file_hash.now salt.now) }
        ensures given_back { IfErr result (λ e. e.proof ≡ self) }
        ensures mismatch { IfErr result (λ e. e.fault ≡ Mismatch → ¬ (Shows self file_hash.now salt.now)) }
    {
        let shown = self.shows(file_hash, salt);
        self.opened(shown)
    }

    /// Opens the proof with the root of a list of chunks, as [`open`](Self::open) does with a file hash. The default
    /// hash is never shown, since it is the root of the empty list.
    ///
    /// Fails like `open`.
    pub fn open_root(self, root: &MerkleHash) -> Result<OpenedRange<A>, OpenError<A>>
        ensures same { IfOk result (λ range. range ≡ self) }
        ensures shows { IfOk result (λ range. ShowsRoot range root.now) }
        ensures given_back { IfErr result (λ e. e.proof ≡ self) }
        ensures mismatch { IfErr result (λ e. e.fault ≡ Mismatch → ¬ (ShowsRoot self root.now)) }
    {
        let shown = self.shows_root(root);
        self.opened(shown)
    }

    // Opens the proof if it was found to show a hash.
    fn opened(self, shown: Result<bool, AllocError>) -> Result<OpenedRange<A>, OpenError<A>>
        ensures same { IfOk result (λ range. range ≡ self) }
        ensures shown { IfOk result (λ _. shown ≡ Ok true) }
        ensures given_back { IfErr result (λ e. e.proof ≡ self) }
        ensures mismatch { IfErr result (λ e. e.fault ≡ Mismatch → shown ≡ Ok false) }
    {
        match shown {
            Ok(true) => OpenedRange::new(self),
            Ok(false) => Err(OpenError {
                proof: self,
                fault: OpenFault::Mismatch,
            }),
            Err(_) => Err(OpenError {
                proof: self,
                fault: OpenFault::OutOfMemory,
            }),
        }
    }

    // Returns whether the proof shows a file hash under a salt.
    fn shows(&self, file_hash: &MerkleHash, salt: &[u8; 32]) -> Result<bool, AllocError>
        ensures { IfOk result (λ shown. IsTrue shown ↔ Shows self.now file_hash.now salt.now) }
    {
        let Some(root) = self.top()? else {
            return Ok(false);
        };
        let shown = file_hash_of_root(root, false, salt);
        Ok(is_found(&shown, file_hash))
    }

    // Returns whether the proof shows a root.
    fn shows_root(&self, root: &MerkleHash) -> Result<bool, AllocError>
        ensures { IfOk result (λ shown. IsTrue shown ↔ ShowsRoot self.now root.now) }
    {
        let Some(top) = self.top()? else {
            return Ok(false);
        };
        Ok(is_found(&top, root))
    }

    // Returns the hash of the proof's top, if it has one.
    fn top(&self) -> Result<Option<MerkleHash>, AllocError>
        ensures { IfOk result (HasTop self.now) }
    {
        top(self.chunks.allocator().clone()?, &self.chunks, &self.levels)
    }

    // Returns where each chunk of the range begins if the first begins at `start`, and last where the last one ends.
    pub(crate) fn places_from(&self, start: u64) -> Result<Vec<u64, A>, AllocError>
        requires { start + total_size self.now.chunks < 2 ^ 64 }
        ensures { IfOk result (λ places. ArePlaces start self.now.chunks places.items) }
    {
        places(self.chunks.allocator().clone()?, start, &self.chunks)
    }

    // Returns a copy of the allocator.
    pub(crate) fn allocator(&self) -> Result<A, AllocError> {
        self.chunks.allocator().clone()
    }

    /// Returns a copy. Fails with [`CoreError::OutOfMemory`] if an allocation fails.
    pub fn try_clone(&self) -> Result<Self, CoreError>
        ensures copy { IfOk result (λ copy. copy ≡ self.now) }
        ensures errors { IfErr result (λ e. e ≡ CoreError.OutOfMemory) }
    {
        let alloc = self.chunks.allocator();
        Ok(RangeProof {
            chunks: self.chunks.to_vec(alloc.clone()?)?,
            levels: copy_levels(alloc.clone()?, &self.levels)?,
        })
    }
}

impl<A: Allocator> RangeProof<A> {
    // Makes a proof of its chunks and levels.
    pub(crate) fn new(chunks: Vec<Node, A>, levels: Vec<LevelNodes<A>, A>) -> Self
        requires { IsWellFormed (record { chunks = chunks.items; levels = levels.items }) }
        ensures { result ≡ record { chunks = chunks.items; levels = levels.items } }
    {
        RangeProof { chunks, levels }
    }

    /// Returns the nodes of the range's chunks. There is at least one.
    pub fn chunks(&self) -> &[Node]
        ensures nodes { result.now ≡ self.now.chunks }
        ensures well_formed { IsWellFormed self.now }
    {
        &self.chunks
    }

    /// Returns the number of levels on which nodes are beside those of the range.
    pub fn num_levels(&self) -> usize
        ensures levels { result ≡ length self.now.levels }
        ensures well_formed { IsWellFormed self.now }
    {
        self.levels.len()
    }

    // Returns the sides of all levels, from the chunks up.
    pub(crate) fn levels(&self) -> &[LevelNodes<A>]
        ensures levels { result.now ≡ self.now.levels }
        ensures well_formed { IsWellFormed self.now }
    {
        &self.levels
    }

    /// Returns the nodes before those of the range on a level, or none if there is no such level. Levels count from the
    /// chunks up, from 0.
    pub fn left(&self, level: usize) -> &[Node]
        ensures { result.now ≡ left_at self.now.levels level }
    {
        left_at(&self.levels, level)
    }

    /// Returns the nodes after those of the range on a level, or none if there is no such level. Levels count from the
    /// chunks up, from 0.
    pub fn right(&self, level: usize) -> &[Node]
        ensures { result.now ≡ right_at self.now.levels level }
    {
        right_at(&self.levels, level)
    }
}

impl<A: Allocator> PartialEq for RangeProof<A> {
    ghost eq = { same_proof };

    ghost laws = { same_proof-per };

    fn eq(&self, other: &Self) -> bool {
        self.chunks == other.chunks && self.levels == other.levels
    }
}

impl<A: Allocator> Eq for RangeProof<A> {
    ghost laws = { same_proof-equiv };
}

//! A part of a file that was asked for. It checks data as it arrives.

ghost use Rattle.std.specs.Prelude.{◌≡◌, ◌⊎◌, ◌+◌, ◌-◌, ◌<◌, ◌≤◌, [], ◌∷◌, ◌++◌, ℕ, List, length, drop, min, take, slice_get, slice_range, All, IfErr, IfOk, IfNone, IfSome, IsSome, IsTrue, OnErr, OnOk, Some};
ghost use Rattle.commitment.specs.Commitment.{chunk_node};
ghost use Rattle.range_proof.specs.RangeProof.{Shows, begin_of, file_size_of};
ghost use Rattle.range_proof.specs.Checking.{IsSoundRead};
ghost use Rattle.range_proof.specs.Reading.{AreChunksOf, IsRead};
ghost use Rattle.verified_reader.specs.Kept.{Chunk};
ghost use Rattle.verified_reader.specs.Reader.{AreAllRight, AreCopied, AreRight, BeginsWith, GoesFrom, HoldsPlaces, IsCheckedBy, IsFarFrom, IsWhyRefused};

use crate::kept_chunks::KeptChunk;
use crate::part_fault::PartFault;
use range_proof::laws::bytes_that_are_read_are_those_of_the_file;
use range_proof::{OpenFault, OpenedRange, RangeProof};
use std::alloc::{AllocError, Allocator, Global};
use std::cmp::min;
use std::marker::Model;
use xet_hash::data_hash::MerkleHash;

/// A part of a file that was asked for, and what was checked of it.
///
/// It belongs to whoever asked: opening a proof and hashing data need nothing of the reader. Any number may be open, and
/// may be given to the reader in any order.
#[derive(Drop)]
pub struct WantedPart<A: Allocator = Global> {
    pub(crate) hash: MerkleHash,
    pub(crate) salt: [u8; 32],
    pub(crate) range: OpenedRange<A>,
    from: u64,
    to: u64,
    // How many of the range's first chunks were right.
    pub(crate) right: usize,
    pub(crate) chunks: Vec<KeptChunk<A>, A>,
    alloc: A,
}

impl<A: Allocator> Model for WantedPart<A> {
    ghost use Rattle.std.specs.Prelude.{map};
    ghost use Rattle.verified_reader.specs.Reader.{Part};
    ghost use Rattle.verified_reader.specs.Steps.KeptChunks.{chunk_of};
    ghost use Rattle.verified_reader.specs.Steps.Parts.{IsWanted};

    ghost Value = { Part };

    ghost view = { λ stored. record {
      hash = stored.hash;
      salt = stored.salt;
      proof = stored.range;
      from = stored.from;
      to = stored.to;
      right = stored.right;
      checked = map chunk_of stored.chunks.items;
    } };

    ghost invariant = { λ stored. IsWanted stored.range stored.hash stored.salt stored.from stored.to stored.right
        (map chunk_of stored.chunks.items) };
}

impl<A: Allocator + Clone> WantedPart<A> {
    /// Opens a proof for the bytes of a file from the place `from` up to, but without, the place `to`, or up to the end of
    /// the file if that comes first. The proof may come from anybody. The part begins without checked chunks.
    ///
    /// Fails with the first of these that applies:
    ///
    /// - [`PartFault::Mismatch`] if the proof doesn't show the file hash under the salt;
    /// - [`PartFault::Elsewhere`] if its range doesn't hold these bytes, of which there must be one unless the file has none;
    /// - [`PartFault::TooFar`] if the range begins more than `beyond` bytes before them, or ends more than that after them.
    ///
    /// Fails with [`PartFault::OutOfMemory`] if an allocation fails.
    pub fn open(
        alloc: A,
        proof: RangeProof<A>,
        hash: &MerkleHash,
        salt: &[u8; 32],
        from: u64,
        to: u64,
        beyond: u64,
    ) -> Result<Self, PartFault>
        ensures opened { IfOk result (λ part. part ≡ record {
          hash = hash.now;
          salt = salt.now;
          proof = proof;
          from = min from (file_size_of proof);
          to = min to (file_size_of proof);
          right = 0;
          checked = [];
        }) }
        ensures shows { IfOk result (λ _. Shows proof hash.now salt.now) }
        ensures holds { IfOk result (λ _. HoldsPlaces proof from to) }
        ensures near { IfOk result (λ _. ¬ (IsFarFrom proof from to beyond)) }
        ensures refused { IfErr result (IsWhyRefused proof hash.now salt.now from to beyond) }
    {
        let range = match proof.open(hash, salt) {
            Ok(range) => range,
            Err(error) => {
                return Err(match error.fault {
                    OpenFault::Mismatch => PartFault::Mismatch,
                    OpenFault::OutOfMemory => PartFault::OutOfMemory,
                });
            }
        };
        let (begin, end, size) = (range.begin(), range.end(), range.file_size());
        let (first, last) = (min(from, size), min(to, size));
        if first < begin || end < last || (last <= from && 0 < size) {
            return Err(PartFault::Elsewhere(begin, end));
        }
        if beyond < first - begin || beyond < end - last {
            return Err(PartFault::TooFar(begin, end));
        }
        let Ok(of_chunks) = alloc.clone() else {
            return Err(PartFault::OutOfMemory);
        };
        Ok(WantedPart {
            hash: *hash,
            salt: *salt,
            range,
            from: first,
            to: last,
            right: 0,
            chunks: Vec::new(of_chunks),
            alloc,
        })
    }

    /// Returns where in the file the range begins and ends, in bytes: the data of these places is what has to be checked.
    pub fn places(&self) -> (u64, u64)
        ensures { GoesFrom self.now.proof result.0 result.1 }
    {
        (self.range.begin(), self.range.end())
    }

    /// Checks the data of the range's chunks, which come one after another with nothing else. Returns the wanted bytes, all of
    /// them: a part of `data`. Returns `None` if the data isn't that of these chunks.
    ///
    /// `data` may be cut off anywhere. If `keep` is true, the part gets copies of the first chunks that are right, up to the one
    /// that is wrong, whatever is returned, instead of those of an earlier call. A chunk for which an allocation fails isn't
    /// copied. If `keep` is false, the part has no chunks, and nothing is allocated.
    pub fn check<'d>(&mut self, data: &'d [u8], keep: bool) -> Option<&'d [u8]>
        ensures read { IfSome result (λ bytes. IsRead self.new.proof self.new.from self.new.to «data».now bytes.now) }
        ensures sound { IfSome result (λ bytes. IsSoundRead self.new.proof self.new.from self.new.to «data».now bytes.now) }
        ensures none { IfNone result ((bytes : List ℕ) → ¬ (IsRead self.new.proof self.new.from self.new.to «data».now bytes)) }
        ensures right { AreAllRight self.new.proof self.new.right «data».now }
        ensures shows { Shows self.new.proof self.new.hash self.new.salt }
        ensures by { All (IsCheckedBy self.new.proof self.new.hash self.new.salt) self.new.checked }
        ensures copied { AreCopied self.new.proof self.new.right «data».now self.new.checked }
        ensures uncopied { ¬ (IsTrue keep) → self.new.checked ≡ [] }
        ensures same { self.new ≡ record self.old { right = self.new.right; checked = self.new.checked } }
    {
        // The law of what was read, for the second clause.
        bytes_that_are_read_are_those_of_the_file();
        self.chunks.clear();
        self.right = 0;
        let done = self.check_chunks(data, keep);
        let bytes = self.wanted(data);
        if self.right < self.range.num_chunks() || done < data.len() {
            return None;
        }
        Some(bytes)
    }

    /// Returns the size of the file in bytes, as the proof says it. It is the proof's own word until data was checked.
    pub fn file_size(&self) -> u64
        ensures { result ≡ file_size_of self.now.proof }
    {
        self.range.file_size()
    }

    /// Returns how many bytes of the range's data stand before the wanted ones.
    pub fn skipped(&self) -> u64
        ensures { result ≡ self.now.from - begin_of self.now.proof 0 }
    {
        self.from - self.range.begin()
    }

    /// Returns how many of the range's first chunks the last call of [`check`](Self::check) found right, and where in the file
    /// these end, in bytes.
    pub fn right(&self) -> (usize, u64)
        ensures count { result.0 ≡ self.now.right }
        ensures place { result.1 ≡ begin_of self.now.proof self.now.right }
    {
        match self.range.begins(self.right) {
            Some(begin) => (self.right, begin),
            None => (self.right, self.range.end()),
        }
    }

    // Checks the data of the chunks, one after another up to the first one that is wrong. Returns how many bytes those that
    // are right have.
    fn check_chunks(&mut self, data: &[u8], keep: bool) -> usize
        requires { self.old.right ≡ 0 }
        ensures within { result ≤ length «data».now }
        ensures right { AreRight self.new.proof self.new.right «data».now (drop result «data».now) }
        ensures stops { ¬ (BeginsWith self.new.proof self.new.right (drop result «data».now)) }
        ensures some { self.new.right < length self.new.proof.chunks → (chunks : List (List ℕ)) →
            ¬ (AreChunksOf self.new.proof.chunks «data».now chunks) }
        ensures all { result < length «data».now → (chunks : List (List ℕ)) →
            ¬ (AreChunksOf self.new.proof.chunks «data».now chunks) }
        ensures copied { (copies : List Chunk) × (self.new.checked ≡ self.old.checked ++ copies)
            × AreCopied self.new.proof self.new.right «data».now copies }
        ensures uncopied { ¬ (IsTrue keep) → self.new.checked ≡ self.old.checked }
        ensures same { self.new ≡ record self.old { right = self.new.right; checked = self.new.checked } }
    {
        let mut done = 0;
        'chunks: for k in 0..self.range.num_chunks() {
            let Some(size) = self.check_chunk(k, &data[done..], keep) else {
                return done;
            };
            done += size;
        }
        done
    }

    // Checks the data of a chunk, which stands at the front of `rest`, and counts it as right. Keeps it if that is asked. Returns
    // its length, or `None` if it isn't there whole or isn't that of the chunk. Then nothing has changed.
    fn check_chunk(&mut self, k: usize, rest: &[u8], keep: bool) -> Option<usize>
        ensures within { IfSome result (λ size. size ≤ length rest.now) }
        ensures right { IfSome result (λ size. slice_get self.old.proof.chunks k ≡ Some (chunk_node (take size rest.now))) }
        ensures counted { IsSome result → self.new.right ≡ k + 1 }
        ensures none { IfNone result (¬ (BeginsWith self.old.proof k rest.now)) }
        ensures unchanged { IfNone result (self.new ≡ self.old) }
        ensures copied { IfSome result (λ size. (self.new.checked ≡ self.old.checked)
            ⊎ (self.new.checked ≡ self.old.checked ++ record { begin = begin_of self.old.proof k; bytes = take size rest.now } ∷ [])) }
        ensures uncopied { ¬ (IsTrue keep) → self.new.checked ≡ self.old.checked }
        ensures same { self.new ≡ record self.old { right = self.new.right; checked = self.new.checked } }
    {
        if k >= self.range.num_chunks() {
            return None;
        }
        let from = self.range.begins(k)?;
        let to = self.range.ends(k)?;
        if to < from || (rest.len() as u64) < to - from {
            return None;
        }
        let size = (to - from) as usize;
        let chunk = &rest[..size];
        let begin = self.range.check(k, chunk)?;
        self.right = k + 1;
        if !keep {
            return Some(size);
        }
        let _kept = self.keep(begin, chunk);
        Some(size)
    }

    // Keeps a copy of a chunk. Fails if an allocation fails.
    fn keep(&mut self, begin: u64, chunk: &[u8]) -> Result<(), AllocError>
        requires { IsCheckedBy self.old.proof self.old.hash self.old.salt (record { begin = begin; bytes = chunk.now }) }
        ensures kept { OnOk result (self.new.checked ≡ self.old.checked ++ record { begin = begin; bytes = chunk.now } ∷ []) }
        ensures unchanged { OnErr result (self.new.checked ≡ self.old.checked) }
        ensures same { self.new ≡ record self.old { checked = self.new.checked } }
    {
        let bytes = Vec::from_slice(self.alloc.clone()?, chunk)?;
        self.chunks.push(KeptChunk { begin, bytes })?;
        Ok(())
    }

    // Returns the wanted bytes of the range's data.
    fn wanted<'d>(&self, data: &'d [u8]) -> &'d [u8]
        ensures wanted { result.now ≡ slice_range «data».now (self.now.from - begin_of self.now.proof 0) (self.now.to - begin_of self.now.proof 0) }
        ensures begin { begin_of self.now.proof 0 ≤ self.now.from }
        ensures in_order { self.now.from ≤ self.now.to }
        ensures end { self.now.to ≤ begin_of self.now.proof (length self.now.proof.chunks) }
        ensures shows { Shows self.now.proof self.now.hash self.now.salt }
        ensures by { All (IsCheckedBy self.now.proof self.now.hash self.now.salt) self.now.checked }
    {
        let begin = self.range.begin();
        let first = min((self.from - begin) as usize, data.len());
        let last = min((self.to - begin) as usize, data.len());
        &data[first..last]
    }
}

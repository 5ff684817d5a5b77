//! A reader of a file that is somewhere else: what was checked of it, and is kept.

ghost use Rattle.std.specs.Prelude.{◌≡◌, ◌⊎◌, ◌+◌, ◌<◌, ◌≤◌, ◌↔◌, ◌∷◌, ◌++◌, List, [], None, Some, Option, length, take, drop, All, IfNone, IfOk, IfSome, IsOk, max, min, IsTrue};
ghost use Rattle.range_proof.specs.RangeProof.{file_size_of};
ghost use Rattle.verified_reader.specs.Kept.{AllKept, AreKeptAt, AreUsed, Chunk, DropsOldest, IsFirstMissing, IsKept, KeepsAll, size_of_kept};
ghost use Rattle.verified_reader.specs.Reader.{AreOfFile, Check, HasLearned, IsCheckedBy, IsCheckOf, IsPartOf, IsPieceAt, IsShownBy, IsSizeOfFile, checks_of, last_place, within_file};

use crate::kept_chunks::KeptChunks;
use crate::part::WantedPart;
use std::alloc::{AllocError, Allocator, Global};
use std::cmp::{max, min};
use std::marker::Model;
use xet_hash::data_hash::MerkleHash;

/// Chunks of a file that were checked against its hash, up to a number of bytes, and the file's size once that was shown.
///
/// It asks nobody for anything. Whoever reads the file fetches proofs and data, checks them in a [`WantedPart`], and gives
/// that to [`take`](Self::take).
#[derive(Drop)]
pub struct VerifiedReader<A: Allocator = Global> {
    hash: MerkleHash,
    salt: [u8; 32],
    most: u64,
    chunks: KeptChunks<A>,
    size: Option<u64>,
}

impl<A: Allocator> Model for VerifiedReader<A> {
    ghost use Rattle.std.specs.Prelude.{◌≤◌, List};
    ghost use Rattle.verified_reader.specs.Kept.{size_of_kept};
    ghost use Rattle.verified_reader.specs.Reader.{Check, IsShownBy, Reader};

    ghost Value = { Reader };

    ghost view = { λ stored. record {
      hash = stored.hash;
      salt = stored.salt;
      most = stored.most;
      kept = stored.chunks;
      size = stored.size;
    } };

    ghost invariant = { λ stored. (size_of_kept stored.chunks ≤ stored.most) × (checks : List Check) × IsShownBy checks (record {
      hash = stored.hash;
      salt = stored.salt;
      most = stored.most;
      kept = stored.chunks;
      size = stored.size;
    }) };
}

impl<A: Allocator + Clone> VerifiedReader<A> {
    /// Makes a reader of the file with a file hash under a salt. It keeps nothing yet. Its chunks will count at most `most`,
    /// where each counts its bytes and 128 for the memory beside them. Fails if `alloc` can't be cloned. It allocates
    /// nothing itself.
    pub fn new(alloc: A, hash: &MerkleHash, salt: &[u8; 32], most: u64) -> Result<Self, AllocError>
        ensures made { IfOk result (λ reader. reader ≡ record { hash = hash.now; salt = salt.now; most = most; kept = []; size = None }) }
        ensures succeeds { ((a : A) → A.is_infallible a) → IsOk result }
    {
        Ok(VerifiedReader {
            hash: *hash,
            salt: *salt,
            most,
            chunks: KeptChunks::new(alloc)?,
            size: None,
        })
    }

    /// Returns what all chunks count, which is at most what was said when the reader was made. It allocates nothing.
    pub fn counted(&self) -> u64
        ensures counts { result ≡ size_of_kept self.now.kept }
        ensures most { result ≤ self.now.most }
        ensures shown { (checks : List Check) × IsShownBy checks self.now }
    {
        self.chunks.size()
    }

    /// Returns the size of the file in bytes, or `None` until a chunk was checked. It allocates nothing.
    pub fn size(&self) -> Option<u64>
        ensures same { result ≡ self.now.size }
        ensures sound { (checks : List Check) → IsShownBy checks self.now →
            IfSome result (IsSizeOfFile checks self.now.hash self.now.salt) }
        ensures shown { (checks : List Check) × IsShownBy checks self.now }
    {
        self.size
    }

    /// Changes what all chunks may count to `most`, and drops the chunks that were used longest ago until they do. It
    /// allocates nothing.
    pub fn keep_at_most(&mut self, most: u64)
        ensures dropped { DropsOldest most self.old.kept self.new.kept }
        ensures same { self.new ≡ record self.old { most = most; kept = self.new.kept } }
        ensures stays { (checks : List Check) → IsShownBy checks self.old → IsShownBy checks self.new }
    {
        self.chunks.drop_oldest(most);
        self.most = most;
    }

    /// Copies the bytes that are kept from a place on to the front of `room`, as far as they follow one another. Returns how
    /// many these are. The rest of `room` stays the same. Their chunks count as used, the last one last, unless an allocation
    /// for that fails. It allocates nothing else.
    pub fn read(&mut self, from: u64, room: &mut [u8]) -> usize
        ensures within { result ≤ length room.new }
        ensures copied { AreKeptAt self.old.kept from (take result room.new) }
        ensures stops { result < length room.new → ¬ (IsKept self.old.kept (from + result)) }
        ensures sound { (checks : List Check) → IsShownBy checks self.old →
            AreOfFile checks self.old.hash self.old.salt from (take result room.new) }
        ensures shown { (checks : List Check) × IsShownBy checks self.old }
        ensures rest { drop result room.new ≡ drop result room.old }
        ensures used { AreUsed self.old.kept from (from + result) self.new.kept }
        ensures same { self.new ≡ record self.old { kept = self.new.kept } }
        ensures stays { (checks : List Check) → IsShownBy checks self.old → IsShownBy checks self.new }
    {
        self.chunks.read(from, room)
    }

    /// Returns what is still missing of the bytes from the place `from` up to, but without, the place `to`, or up to the end
    /// of the file if its size is known: the place of the first byte that isn't kept, and up to where the bytes from it on are
    /// wanted, at most `piece` bytes, or one if that is 0. Returns `None` if all these bytes are kept. It allocates nothing.
    pub fn needs(&self, from: u64, to: u64, piece: u64) -> Option<(u64, u64)>
        ensures some { IfSome result (λ wanted. IsFirstMissing self.now.kept from (within_file self.now.size to) wanted.0) }
        ensures end { IfSome result (λ wanted. wanted.1 ≡ min (within_file self.now.size to) (wanted.0 + max 1 piece)) }
        ensures none { IfNone result (AllKept self.now.kept from (within_file self.now.size to)) }
    {
        let last = self.within_file(to);
        let first = self.chunks.first_missing(from, last)?;
        let end = first.saturating_add(max(1, piece));
        Some((first, min(end, last)))
    }

    /// Returns the piece of the file that has a place, where pieces of `piece` bytes follow one another from the file's start:
    /// where it begins, and where it ends, which is the end of the file for the last one, if the size is known. So proofs that
    /// were made of each piece can be asked for. Returns `None` if `piece` is 0, or if no file of the known size, or of any size
    /// below 2^64, has a byte at the place. It allocates nothing.
    pub fn piece_at(&self, place: u64, piece: u64) -> Option<(u64, u64)>
        ensures some { IfSome result (λ found. IsPieceAt self.now.size piece place found.0 found.1) }
        ensures none { IfNone result ((piece ≡ 0) ⊎ (last_place self.now.size ≤ place)) }
    {
        let last = self.within_file(u64::MAX);
        if piece == 0 || last <= place {
            return None;
        }
        let begin = place - place % piece;
        Some((begin, min(begin.saturating_add(piece), last)))
    }

    // Returns a place, or the end of the file if its size is known and it comes first.
    fn within_file(&self, place: u64) -> u64
        ensures { result ≡ within_file self.now.size place }
    {
        match self.size {
            Some(size) => min(place, size),
            None => place,
        }
    }

    /// Keeps the chunks of a part that were checked, one after another, and drops the chunks that were used longest ago until
    /// all count at most what was said when the reader was made. A chunk for which an allocation fails isn't kept. It hashes
    /// nothing, and copies no data.
    ///
    /// Returns `false`, and changes nothing, if the part is of another file hash or salt, or if another size of the file is
    /// known than the part's proof says.
    pub fn take(&mut self, part: WantedPart<A>) -> bool
        ensures taken { IsTrue result ↔ IsPartOf self.old part }
        ensures refused { ¬ (IsTrue result) → self.new ≡ self.old }
        ensures kept { IsTrue result → KeepsAll self.old.most self.old.kept part.checked self.new.kept }
        ensures size { IsTrue result → HasLearned self.old part self.new }
        ensures same { self.new ≡ record self.old { kept = self.new.kept; size = self.new.size } }
        ensures stays { IsTrue result → (checks : List Check) → IsShownBy checks self.old →
            (check : Check) × IsCheckOf part check × IsShownBy (check ∷ checks_of part ++ checks) self.new }
    {
        if !self.is_part(&part) {
            return false;
        }
        let size = self.size_with(&part);
        let WantedPart { chunks, .. } = part;
        self.size = size;
        self.chunks.keep_all(self.most, chunks);
        true
    }

    // Returns the size of the file as it is known with a part of it, too.
    fn size_with(&self, part: &WantedPart<A>) -> Option<u64>
        ensures some { 0 < part.now.right → result ≡ Some (file_size_of part.now.proof) }
        ensures none { part.now.right ≡ 0 → result ≡ self.now.size }
        ensures shown { 0 < part.now.right → (chunk : Chunk) × IsCheckedBy part.now.proof part.now.hash part.now.salt chunk }
        ensures by { All (IsCheckedBy part.now.proof part.now.hash part.now.salt) part.now.checked }
    {
        if part.right == 0 {
            return self.size;
        }
        Some(part.range.file_size())
    }

    /// Returns whether a part is of this reader's file: whether it has the same file hash and salt, and its proof the size of
    /// the file, if that is known.
    pub fn is_part(&self, part: &WantedPart<A>) -> bool
        ensures { IsTrue result ↔ IsPartOf self.now part.now }
    {
        if part.hash != self.hash || part.salt != self.salt {
            return false;
        }
        match self.size {
            Some(size) => size == part.range.file_size(),
            None => true,
        }
    }
}

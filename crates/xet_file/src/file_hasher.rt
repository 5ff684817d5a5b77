//! A hasher of a file that comes in pieces.

ghost use Rattle.std.specs.Prelude.{◌≡◌, ℕ, ◌+◌, ◌/◌, ◌^◌, ◌<◌, ◌≤◌, ◌⊎◌, ◌↔◌, false, true, List, [], ◌++◌, length, replicate, vec_capacity, vec_len, IfOk, IfErr, OnOk, OnErr, IsErrOf};
ghost use Rattle.keyed_blake3.specs.Blake3Hasher.{Holds as Hashes};
ghost use Rattle.xet_hash.specs.Hash.{data_key};
ghost use Rattle.xet_chunker.specs.Chunker.{Holds as IsOpen};
ghost use Rattle.xet_roots.specs.Groups.{Node};
ghost use Rattle.xet_roots.specs.Roots.{total_size, IsRoot};
ghost use Rattle.commitment.specs.Commitment.{chunk_nodes};
ghost use Rattle.xet_file.specs.Chunks.{chunks_of, IsHashOfBytes};
ghost use Rattle.xet_file.specs.FileHasher.{Holds, Takes};

use chunk_ranges::chunk_range::CopyableRange;
use std::alloc::{AllocError, Allocator};
use std::marker::Model;
use xet_chunker::Chunker;
use xet_chunker::laws::chunks_are_sized;
use xet_hash::blake3::Hasher;
use xet_hash::data_hash::{DATA_KEY, DataHash, MerkleHash};
use xet_roots::CoreError;
use xet_roots::aggregated_hashes::{Node, file_hash_of_root};

// The fewest bytes of a chunk that isn't the last of a file.
const LEAST: usize = 8 * 1024;

// So many ended chunks wait at most, before the next piece is taken, until they are joined to the range.
const MOST_WAITING: usize = 4096;

/// Hashes a file that comes in pieces, and keeps none of its bytes.
///
/// It cuts the bytes into chunks, and keeps a range of the chunks that have ended, beside the hashes of at most 4096 of them and of those
/// that end in one piece. If the hashes of the chunks are random, the range takes tens of kilobytes, whatever the size of the file. If all
/// chunks are equal, it keeps all of their hashes.
#[derive(Drop)]
pub struct FileHasher<C: CopyableRange> {
    chunker: Chunker,
    // The bytes of the open chunk.
    hasher: Hasher,
    // The first ended chunks; the start of the file is marked.
    range: C,
    // The ended chunks after these.
    waiting: Vec<Node, C::Alloc>,
    // How many bytes were taken.
    size: u64,
    alloc: C::Alloc,
}

impl<C: CopyableRange> Model for FileHasher<C> {
    ghost use Rattle.std.specs.Prelude.{ℕ, List};
    ghost use Rattle.xet_file.specs.FileHasher.{Holds, Parts};

    ghost Value = { Parts C };

    ghost view = { λ stored. record {
      chunker = stored.chunker;
      hasher = stored.hasher;
      range = stored.range;
      waiting = stored.waiting.items;
      size = stored.size;
    } };

    ghost invariant = { λ stored. (file : List ℕ) × Holds C.ChunkRange (record {
      chunker = stored.chunker;
      hasher = stored.hasher;
      range = stored.range;
      waiting = stored.waiting.items;
      size = stored.size;
    }) file };
}

impl<C: CopyableRange> FileHasher<C> {
    /// Makes a hasher of the empty file. Fails with [`CoreError::OutOfMemory`] if an allocation fails.
    pub fn new(alloc: C::Alloc) -> Result<Self, CoreError>
        ensures empty { IfOk result (λ hasher. Holds C.ChunkRange hasher []) }
        ensures errors { IfErr result (λ e. e ≡ CoreError.OutOfMemory) }
    {
        Ok(FileHasher {
            chunker: Chunker::new(),
            hasher: Hasher::new_keyed(&DATA_KEY),
            range: C::from_chunks(alloc.clone()?, true, &[], false)?,
            waiting: Vec::new(alloc.clone()?),
            size: 0,
            alloc,
        })
    }

    /// Returns how many bytes the file has so far.
    pub fn size(&self) -> u64
        ensures size { result ≡ self.now.size }
        ensures file { (file : List ℕ) → Holds C.ChunkRange self.now file → result ≡ length file }
    {
        self.size
    }

    /// Appends a piece to the file.
    ///
    /// Fails with [`CoreError::SizeOverflow`] if the file would have more than `u64::MAX` bytes, and otherwise with
    /// [`CoreError::OutOfMemory`] if an allocation fails. Then nothing of the piece is taken, and the hasher is unchanged.
    pub fn update(&mut self, piece: &[u8]) -> Result<(), CoreError>
        ensures taken { OnOk result ((file : List ℕ) → Holds C.ChunkRange self.old file →
            Holds C.ChunkRange self.new (file ++ piece.now)) }
        ensures overflow { IsErrOf result CoreError.SizeOverflow ↔ (2 ^ 64 ≤ self.old.size + length piece.now) }
        ensures errors { IfErr result (λ e. (e ≡ CoreError.SizeOverflow) ⊎ (e ≡ CoreError.OutOfMemory)) }
        ensures unchanged { OnErr result (self.new ≡ self.old) }
    {
        let size = self
            .size
            .checked_add(piece.len() as u64)
            .ok_or(CoreError::SizeOverflow)?;
        self.waiting.reserve(piece.len() / LEAST + 16)?;
        join_waiting(&self.alloc, &mut self.range, &mut self.waiting)?;
        take(
            &mut self.chunker,
            &mut self.hasher,
            &mut self.waiting,
            piece,
        );
        self.size = size;
        Ok(())
    }
}

impl<C: CopyableRange> FileHasher<C> {
    /// Returns the file hash of the bytes so far, which is the one under 32 zero bytes. The hasher is unchanged, so it can take more.
    /// Fails with [`CoreError::OutOfMemory`] if an allocation fails.
    pub fn file_hash(&self) -> Result<MerkleHash, CoreError>
        ensures hash { IfOk result (λ hash. (file : List ℕ) → Holds C.ChunkRange self.now file →
            IsHashOfBytes file (replicate 32 0) hash) }
        ensures errors { IfErr result (λ e. e ≡ CoreError.OutOfMemory) }
    {
        self.file_hash_with_salt(&[0; 32])
    }

    /// Returns the file hash of the bytes so far under a salt. The hasher is unchanged. Fails with [`CoreError::OutOfMemory`] if
    /// an allocation fails.
    pub fn file_hash_with_salt(&self, salt: &[u8; 32]) -> Result<MerkleHash, CoreError>
        ensures hash { IfOk result (λ hash. (file : List ℕ) → Holds C.ChunkRange self.now file →
            IsHashOfBytes file salt.now hash) }
        ensures errors { IfErr result (λ e. e ≡ CoreError.OutOfMemory) }
    {
        chunks_are_sized();
        let root = self.root()?;
        Ok(file_hash_of_root(root, self.size == 0, salt))
    }

    /// Returns the root of the chunks of the bytes so far. The hasher is unchanged. Fails with [`CoreError::OutOfMemory`] if an
    /// allocation fails.
    pub fn root(&self) -> Result<MerkleHash, CoreError>
        ensures root { IfOk result (λ root. (file : List ℕ) → Holds C.ChunkRange self.now file →
            IsRoot (chunk_nodes (chunks_of file)) root) }
        ensures errors { IfErr result (λ e. e ≡ CoreError.OutOfMemory) }
    {
        let mut all = self.range.try_clone()?;
        let waiting = C::from_chunks(self.alloc.clone()?, false, &self.waiting, false)?;
        all.join(&waiting)?;
        let count = self.chunker.taken();
        let last = [(DataHash::from(self.hasher.finalize()), count as u64)];
        let last = C::from_chunks(self.alloc.clone()?, false, &last[..count.min(1)], true)?;
        all.join(&last)?;
        Ok(all.root()?.unwrap())
    }
}

// Joins the waiting chunks to the range before them, if they are many. Fails only if an allocation fails, and then nothing has changed.
fn join_waiting<C: CopyableRange>(
    alloc: &C::Alloc,
    range: &mut C,
    waiting: &mut Vec<Node, C::Alloc>,
) -> Result<(), CoreError>
    requires start { C.start range.old ≡ true }
    requires end { C.end range.old ≡ false }
    requires fits { C.total range.old + total_size waiting.old.items < 2 ^ 64 }
    ensures start { C.start range.new ≡ true }
    ensures end { C.end range.new ≡ false }
    ensures joined { OnOk result ((nodes : List Node) → C.stands range.old nodes → C.total range.old ≡ total_size nodes →
        (ranged : List Node) × C.stands range.new ranged × (C.total range.new ≡ total_size ranged)
        × (nodes ++ waiting.old.items ≡ ranged ++ waiting.new.items)) }
    ensures capacity { vec_capacity waiting.new ≡ vec_capacity waiting.old }
    ensures len { vec_len waiting.new ≤ vec_len waiting.old }
    ensures errors { IfErr result (λ e. e ≡ CoreError.OutOfMemory) }
    ensures unchanged { OnErr result ((range.new ≡ range.old) × (waiting.new ≡ waiting.old)) }
{
    if waiting.len() < MOST_WAITING {
        return Ok(());
    }
    let back = C::from_chunks(alloc.clone()?, false, waiting, false)?;
    range.join(&back)?;
    waiting.clear();
    Ok(())
}

// Takes a piece after the bytes of the open chunk, and lists the chunks that end in it. There must be room for them.
fn take<A: Allocator>(
    chunker: &mut Chunker,
    hasher: &mut Hasher,
    ended: &mut Vec<Node, A>,
    piece: &[u8],
)
    requires open_chunk { (chunk : List ℕ) × IsOpen chunker.old chunk × Hashes data_key hasher.old chunk }
    requires room { vec_len ended.old + (length piece.now / 8192 + 16) ≤ vec_capacity ended.old }
    ensures { (chunk : List ℕ) → IsOpen chunker.old chunk → Hashes data_key hasher.old chunk →
        (nodes : List Node) × (ended.new.items ≡ ended.old.items ++ nodes)
        × Takes chunk piece.now chunker.new hasher.new nodes }
{
    let mut rest = piece;
    'chunks: while let Some(end) = chunker.next_boundary(rest) {
        let (last, after) = rest.split_at(end);
        hasher.update(last);
        let node = (DataHash::from(hasher.finalize()), hasher.count());
        match ended.push(node) {
            Ok(()) => {}
            Err(_) => unreachable!(),
        }
        *hasher = Hasher::new_keyed(&DATA_KEY);
        rest = after;
    }
    hasher.update(rest);
}

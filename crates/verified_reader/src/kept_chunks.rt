//! Chunks that are kept. Each is found by the places of its bytes, and the one that was used longest ago goes first.

ghost use Rattle.std.specs.Prelude.{◌≡◌, ◌⊎◌, ◌↔◌, ℕ, ◌+◌, ◌^◌, ◌<◌, ◌≤◌, [], ◌∷◌, ◌++◌, length, map, take, drop, IfOk, IsOk, IfSome, IfNone, IsTrue, OnOk, OnErr, Contains};
ghost use Rattle.verified_reader.specs.Kept.{AllKept, AreKeptAt, AreKeptFrom, AreUsed, Chunk, DropsOldest, HasPlace, IsFirstMissing, IsFree, IsKept, IsUsed, Keeps, KeepsAll, size_of_kept};

use std::alloc::{AllocError, Allocator, Global};
use std::cmp::min;
use std::collections::BTreeMap;
use std::marker::Model;

// What each chunk counts beside its bytes, for the memory that is taken for it.
const BESIDE: u64 = 128;

// A chunk, and where in the file it begins.
#[derive(Drop)]
pub(crate) struct KeptChunk<A: Allocator> {
    pub(crate) begin: u64,
    pub(crate) bytes: Vec<u8, A>,
}

/// Chunks of a file, in the order of their last uses.
#[derive(Drop)]
pub struct KeptChunks<A: Allocator = Global> {
    // The chunks by the numbers of their last uses.
    by_use: BTreeMap<u64, KeptChunk<A>, A>,
    // These numbers, by where the chunks begin.
    uses: BTreeMap<u64, u64, A>,
    // The number of the next use.
    next_use: u64,
    // What all chunks count.
    size: u64,
    alloc: A,
}

impl<A: Allocator> Model for KeptChunks<A> {
    ghost use Rattle.std.specs.Prelude.{List};
    ghost use Rattle.verified_reader.specs.Kept.{Chunk};
    ghost use Rattle.verified_reader.specs.Steps.KeptChunks.{chunks_of, AreInOrder};

    ghost Value = { List Chunk };

    ghost view = { λ stored. chunks_of stored.by_use.entries };

    ghost invariant = { λ stored. AreInOrder stored.by_use.entries stored.uses.entries stored.next_use stored.size };
}

impl<A: Allocator + Clone> KeptChunks<A> {
    ghost use Rattle.verified_reader.specs.Steps.KeptChunks.{chunk_of};

    /// Makes it without chunks. Fails if `alloc` can't be cloned.
    pub fn new(alloc: A) -> Result<Self, AllocError>
        ensures empty { IfOk result (λ kept. kept ≡ []) }
        ensures succeeds { ((a : A) → A.is_infallible a) → IsOk result }
    {
        Ok(KeptChunks {
            by_use: BTreeMap::new(alloc.clone()?),
            uses: BTreeMap::new(alloc.clone()?),
            next_use: 0,
            size: 0,
            alloc,
        })
    }

    /// Returns what all chunks count: their bytes, and 128 for each.
    pub fn size(&self) -> u64
        ensures { result ≡ size_of_kept self.now }
    {
        self.size
    }

    /// Returns the bytes of the chunk with the byte at a place, from that byte on, or `None` if that byte isn't kept.
    pub fn at(&self, place: u64) -> Option<&[u8]>
        ensures some { IfSome result (λ bytes. AreKeptFrom self.now place bytes.now) }
        ensures none { IfNone result (¬ (IsKept self.now place)) }
    {
        let chunk = self.chunk_at(place)?;
        Some(&chunk.bytes[(place - chunk.begin) as usize..])
    }

    // Returns the chunk with the byte at a place, or `None` if that byte isn't kept.
    fn chunk_at(&self, place: u64) -> Option<&KeptChunk<A>>
        ensures some { IfSome result (λ chunk. Contains self.now (chunk_of chunk.now) × HasPlace (chunk_of chunk.now) place) }
        ensures none { IfNone result (¬ (IsKept self.now place)) }
    {
        let (_, number) = self.uses.range(..=place).next_back()?;
        let chunk = self.by_use.get(number)?;
        let begin = chunk.begin;
        if place < begin || chunk.bytes.len() as u64 <= place - begin {
            return None;
        }
        Some(chunk)
    }

    /// Returns whether no byte from one place to another is kept.
    pub fn is_free(&self, begin: u64, end: u64) -> bool
        requires { begin < end }
        ensures { IsTrue result ↔ IsFree self.now begin end }
    {
        if self.chunk_at(begin).is_some() {
            return false;
        }
        match self.uses.range(begin..).next() {
            Some((next, _)) => end <= *next,
            None => true,
        }
    }

    /// Returns the first place from one place on and below another whose byte isn't kept, or `None` if all are. It allocates
    /// nothing.
    pub fn first_missing(&self, from: u64, to: u64) -> Option<u64>
        ensures missing { IfSome result (IsFirstMissing self.now from to) }
        ensures none { IfNone result (AllKept self.now from to) }
    {
        let mut place = from;
        'chunks: while place < to {
            let Some(bytes) = self.at(place) else {
                return Some(place);
            };
            let next = place.saturating_add(bytes.len() as u64);
            place = next;
        }
        None
    }

    /// Keeps a chunk, which is used now. Fails if an allocation fails. Then nothing has changed.
    pub fn push(&mut self, begin: u64, bytes: Vec<u8, A>) -> Result<(), AllocError>
        requires some { 0 < length bytes.items }
        requires fits { begin + length bytes.items < 2 ^ 64 }
        requires free { IsFree self.old begin (begin + length bytes.items) }
        ensures pushed { OnOk result (self.new ≡ self.old ++ record { begin = begin; bytes = bytes.items } ∷ []) }
        ensures unchanged { OnErr result (self.new ≡ self.old) }
    {
        let now = self.next_use;
        let weight = bytes.len() as u64 + BESIDE;
        let (Some(next), Some(size)) = (now.checked_add(1), self.size.checked_add(weight)) else {
            return Err(AllocError);
        };
        self.uses.insert(begin, now)?;
        match self.by_use.insert(now, KeptChunk { begin, bytes }) {
            Ok(_) => {
                self.next_use = next;
                self.size = size;
                Ok(())
            }
            Err(_) => {
                self.uses.remove(&begin);
                Err(AllocError)
            }
        }
    }

    /// Drops the chunk that was used longest ago, if there is one.
    pub fn pop(&mut self)
        ensures { self.new ≡ drop 1 self.old }
    {
        if let Some((_, chunk)) = self.by_use.pop_first() {
            self.uses.remove(&chunk.begin);
            self.size -= chunk.bytes.len() as u64 + BESIDE;
        }
    }

    /// Copies the bytes that are kept from a place on to the front of `room`, as far as they follow one another, and notes
    /// that their chunks are used. Returns how many these are. It allocates nothing but for these notes. If that fails,
    /// the chunks stay where they were in the order.
    pub fn read(&mut self, from: u64, room: &mut [u8]) -> usize
        ensures within { result ≤ length room.new }
        ensures copied { AreKeptAt self.old from (take result room.new) }
        ensures stops { result < length room.new → ¬ (IsKept self.old (from + result)) }
        ensures rest { drop result room.new ≡ drop result room.old }
        ensures used { AreUsed self.old from (from + result) self.new }
    {
        self.places_fit();
        let mut done = 0;
        'chunks: while done < room.len() {
            let Some(place) = from.checked_add(done as u64) else {
                return done;
            };
            let Some(bytes) = self.at(place) else {
                return done;
            };
            let size = min(bytes.len(), room.len() - done);
            room[done..done + size].copy_from_slice(&bytes[..size]);
            self.use_at(place);
            done += size;
        }
        done
    }

    /// Keeps a chunk, and then drops the chunks that were used longest ago until all count at most `most`. If the byte
    /// where it begins is kept already, notes only that this one is used. Doesn't keep a chunk that is empty, counts more
    /// than `most` by itself, ends past 64 bits, or has a byte that is kept already. Fails if an allocation fails. Then nothing has changed.
    pub fn keep(&mut self, most: u64, begin: u64, bytes: Vec<u8, A>) -> Result<(), AllocError>
        ensures kept { OnOk result (Keeps most self.old (record { begin = begin; bytes = bytes.items }) self.new) }
        ensures unchanged { OnErr result (self.new ≡ self.old) }
    {
        let len = bytes.len() as u64;
        if self.chunk_at(begin).is_some() {
            self.use_at(begin);
            return Ok(());
        }
        let Some(end) = begin.checked_add(len) else {
            return Ok(());
        };
        if len == 0 || most < len + BESIDE || !self.is_free(begin, end) {
            return Ok(());
        }
        self.push(begin, bytes)?;
        self.drop_oldest(most);
        Ok(())
    }

    // The places of all bytes that are kept fit 64 bits. It does nothing.
    fn places_fit(&self)
        ensures { (place : ℕ) → IsKept self.now place → place < 2 ^ 64 }
    {
        let _counts = self.size;
    }

    /// Drops the chunks that were used longest ago until all count at most `most`.
    pub fn drop_oldest(&mut self, most: u64)
        ensures { DropsOldest most self.old self.new }
    {
        'oldest: while most < self.size() {
            self.pop();
        }
    }

    /// Keeps some chunks, one after another, as [`keep`](Self::keep) does. A chunk for which an allocation fails isn't
    /// kept.
    pub fn keep_all(&mut self, most: u64, chunks: Vec<KeptChunk<A>, A>)
        ensures { KeepsAll most self.old (map chunk_of chunks.items) self.new }
    {
        'chunks: for chunk in chunks {
            let KeptChunk { begin, bytes } = chunk;
            let _kept = self.keep(most, begin, bytes);
        }
    }

    /// Notes that the chunk with the byte at a place is used now. If an allocation fails, nothing changes.
    pub fn use_at(&mut self, place: u64)
        ensures { IsUsed self.old place self.new ⊎ (self.new ≡ self.old) }
    {
        let _noted = self.move_last(place);
    }

    // Does so, and fails if an allocation fails.
    fn move_last(&mut self, place: u64) -> Result<(), AllocError>
        ensures { IsUsed self.old place self.new ⊎ (self.new ≡ self.old) }
    {
        let Some(chunk) = self.chunk_at(place) else {
            return Ok(());
        };
        let begin = chunk.begin;
        let Some(last) = self.uses.get(&begin) else {
            return Ok(());
        };
        let last = *last;
        let now = self.next_use;
        let Some(next) = now.checked_add(1) else {
            return Err(AllocError);
        };
        let bytes = Vec::new(self.alloc.clone()?);
        // Its new entry is made first, since that may fail.
        self.by_use.insert(now, KeptChunk { begin: 0, bytes })?;
        let Some(chunk) = self.by_use.remove(&last) else {
            return Ok(());
        };
        self.by_use.insert(now, chunk)?;
        self.uses.insert(begin, now)?;
        self.next_use = next;
        Ok(())
    }
}

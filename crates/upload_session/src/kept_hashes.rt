//! What is kept of the hashes of chunks, to find out which later hashes are new.

ghost use Rattle.std.specs.Prelude.{◌≡◌, not, List, [], ◌&&◌, ◌||◌, is_some, length, IfOk, OnOk, OnErr};
ghost use Rattle.std.specs.List.{IsDistinct};
ghost use Rattle.xet_hash.specs.FiniteMap.{value_at};
ghost use Rattle.upload_session.specs.Hashes.{Hash, hash_eq, hashes_of, is_among, AreBoth, AreNew, AreWithout, Knows};

use hash_numbers::HashTable;
use std::alloc::{AllocError, Allocator, Global};
use xet_hash::data_hash::MerkleHash;
use xet_roots::aggregated_hashes::Node;

/// What is kept of the hashes of chunks, to find out which later hashes are new.
pub trait KeptHashes<A: Allocator>: Drop {
    // It knows exactly the hashes of a list.
    ghost knows: { Self → List Hash → Type 0 };

    // Which hashes it reports as new. The lists are: those it knows, those it is given, and those it reports.
    ghost tells: { List Hash → List Hash → List Hash → Type 0 };

    /// Makes one that knows no hashes. It allocates nothing.
    fn new(alloc: A) -> Self
        ensures { knows result [] };

    /// Keeps the hashes of some chunks. Returns those that are new, each once, in a list that is allocated by `alloc`.
    ///
    /// Fails if an allocation fails. It then knows what it knew before.
    fn keep(&mut self, alloc: A, chunks: &[Node]) -> Result<Vec<MerkleHash, A>, AllocError>
        ensures new { IfOk result (λ new. (known : List Hash) →
            knows self.old known → tells known (hashes_of chunks.now) new.items) }
        ensures kept { OnOk result ((known all : List Hash) →
            knows self.old known → AreBoth known (hashes_of chunks.now) all → knows self.new all) }
        ensures refused { OnErr result ((known : List Hash) →
            knows self.old known → knows self.new known) };

    /// Keeps the hashes that another one knows, too. Returns those that are new, each once, in a list that is allocated by
    /// `alloc`, as are other lists during the call.
    ///
    /// Fails if an allocation fails. It then knows what it knew before.
    fn keep_all(&mut self, alloc: A, other: &Self) -> Result<Vec<MerkleHash, A>, AllocError>
        ensures new { IfOk result (λ new. (known more : List Hash) →
            knows self.old known → knows other.now more → tells known more new.items) }
        ensures others { OnOk result ((more : List Hash) × knows other.now more) }
        ensures kept { OnOk result ((known more all : List Hash) →
            knows self.old known → knows other.now more → AreBoth known more all → knows self.new all) }
        ensures refused { OnErr result ((known : List Hash) →
            knows self.old known → knows self.new known) };

    /// Forgets some hashes. If they are those that the last [`KeptHashes::keep`] reported as new, it then knows what it
    /// knew before that call. It allocates nothing.
    fn give_up(&mut self, new: &[MerkleHash])
        ensures kept { (known hashes all : List Hash) → AreBoth known hashes all →
            tells known hashes new.now → knows self.old all → knows self.new known }
        ensures others { (all rest : List Hash) → AreWithout all new.now rest →
            knows self.old all → knows self.new rest };
}

/// Keeps all hashes, each once.
#[derive(Drop)]
pub struct SeenHashes<A: Allocator = Global> {
    hashes: HashTable<(), A>,
}

impl<A: Allocator + Clone> SeenHashes<A> {
    /// Returns a copy. Fails if an allocation fails.
    pub fn try_clone(&self) -> Result<Self, AllocError>
        ensures { IfOk result (λ copy. copy ≡ self.now) }
    {
        Ok(SeenHashes {
            hashes: self.hashes.try_clone()?,
        })
    }

    /// Forgets all hashes, and frees their memory. Hashes that are kept later take memory of `alloc`.
    pub fn forget_all(&mut self, alloc: A)
        ensures { Knows self.new [] }
    {
        self.hashes = HashTable::new(alloc);
    }

    /// Returns whether a hash is known. It allocates nothing.
    pub fn contains(&self, hash: &MerkleHash) -> bool
        ensures { (known : List Hash) → Knows self.now known → result ≡ is_among known hash.now }
    {
        self.hashes.contains_key(hash)
    }

    /// Returns the number of hashes. It allocates nothing.
    pub fn len(&self) -> usize
        ensures { (distinct : List Hash) → Knows self.now distinct → IsDistinct hash_eq distinct →
            result ≡ length distinct }
    {
        self.hashes.len()
    }

    /// Returns all hashes, each once, in no particular order. The list allocates by `alloc`. Fails if an allocation
    /// fails.
    pub fn to_vec(&self, alloc: A) -> Result<Vec<MerkleHash, A>, AllocError>
        ensures all { IfOk result (λ hashes. Knows self.now hashes.items) }
        ensures each_once { IfOk result (λ hashes. IsDistinct hash_eq hashes.items) }
    {
        let mut hashes = Vec::with_capacity(alloc, self.hashes.len())?;
        'entries: for (hash, ()) in self.hashes.entries() {
            hashes.push(*hash)?;
        }
        Ok(hashes)
    }

    // Keeps the hashes of some chunks, and lists those that are new, each once. If it fails, the list has the hashes
    // that it kept.
    fn keep_into(&mut self, chunks: &[Node], new: &mut Vec<MerkleHash, A>) -> Result<(), AllocError>
        requires { new.old.items ≡ [] }
        ensures kept { OnOk result ((hash : Hash) → is_some (value_at hash_eq self.new.hashes hash)
            ≡ (is_some (value_at hash_eq self.old.hashes hash)
            || is_among (hashes_of chunks.now) hash)) }
        ensures each_once { OnOk result (IsDistinct hash_eq new.new.items) }
        ensures among { OnOk result ((hash : Hash) → is_among new.new.items hash
            ≡ (is_among (hashes_of chunks.now) hash
            && not (is_some (value_at hash_eq self.old.hashes hash)))) }
        ensures refused { OnErr result ((hash : Hash) →
            is_some (value_at hash_eq self.old.hashes hash)
            ≡ (is_some (value_at hash_eq self.new.hashes hash)
            && not (is_among new.new.items hash))) }
    {
        'chunks: for (hash, _) in chunks {
            if !self.hashes.contains_key(hash) {
                new.push(*hash)?;
                self.hashes.insert(*hash, ())?;
            }
        }
        Ok(())
    }

    // Removes some hashes.
    fn remove_all(&mut self, hashes: &[MerkleHash])
        ensures { (hash : Hash) → is_some (value_at hash_eq self.new.hashes hash)
            ≡ (is_some (value_at hash_eq self.old.hashes hash) && not (is_among hashes.now hash)) }
    {
        'hashes: for hash in hashes {
            self.hashes.remove(hash);
        }
    }
}

impl<A: Allocator + Clone> KeptHashes<A> for SeenHashes<A> {
    ghost knows = { Knows };

    ghost tells = { AreNew };

    fn new(alloc: A) -> Self {
        SeenHashes {
            hashes: HashTable::new(alloc),
        }
    }

    fn keep(&mut self, alloc: A, chunks: &[Node]) -> Result<Vec<MerkleHash, A>, AllocError> {
        let mut new = Vec::new(alloc);
        match self.keep_into(chunks, &mut new) {
            Ok(()) => Ok(new),
            Err(error) => {
                self.remove_all(&new);
                Err(error)
            }
        }
    }

    fn keep_all(&mut self, alloc: A, other: &Self) -> Result<Vec<MerkleHash, A>, AllocError> {
        let hashes = other.to_vec(alloc.clone()?)?;
        let chunks = with_no_sizes(alloc.clone()?, &hashes)?;
        Ok(self.keep(alloc, &chunks)?)
    }

    fn give_up(&mut self, new: &[MerkleHash]) {
        self.remove_all(new);
    }
}

/// Keeps no hashes, and reports none as new.
#[derive(Clone, Copy, Debug, Drop)]
pub struct NoHashes;

impl<A: Allocator> KeptHashes<A> for NoHashes {
    ghost knows = { λ _ _. Unit {0} };

    ghost tells = { λ _ _ new. new ≡ [] };

    fn new(_alloc: A) -> Self {
        NoHashes
    }

    fn keep(&mut self, alloc: A, _chunks: &[Node]) -> Result<Vec<MerkleHash, A>, AllocError> {
        Ok(Vec::new(alloc))
    }

    fn keep_all(&mut self, alloc: A, _other: &Self) -> Result<Vec<MerkleHash, A>, AllocError> {
        let none = Vec::new(alloc);
        Ok(none)
    }

    fn give_up(&mut self, _new: &[MerkleHash]) {}
}

// Makes chunks of size 0 with these hashes.
fn with_no_sizes<A: Allocator>(alloc: A, hashes: &[MerkleHash]) -> Result<Vec<Node, A>, AllocError>
    ensures { IfOk result (λ chunks. hashes_of chunks.items ≡ hashes.now) }
{
    let mut chunks = Vec::new(alloc);
    'hashes: for hash in hashes {
        chunks.push((*hash, 0))?;
    }
    Ok(chunks)
}

//! An index of hashes: a number for each of some hashes.

ghost use Rattle.std.specs.Prelude.{◌≡◌, ◌++◌, [], length, ℕ, IfOk, OnErr, OnOk};
ghost use Rattle.std.specs.Iterator.Adapters.{IterYieldsInOrder};
ghost use Rattle.std.specs.Slice.Iter.{iter_rest};
ghost use Rattle.hash_numbers.specs.Index.{number_of, AreSame, Hash, Inserts, IsIndex, SameNumbers};
ghost use Rattle.hash_numbers.specs.Steps.Removing.{IsWithout};

use crate::table::HashTable;
use std::alloc::{AllocError, Allocator, Global};
use std::marker::Model;
use std::slice::Iter;
use xet_hash::data_hash::MerkleHash;

/// A number for each of some hashes.
///
/// In a contract it is the list of its entries, each a hash and its number, in no particular order.
#[derive(Drop)]
pub struct HashIndex<A: Allocator = Global> {
    map: HashTable<u64, A>,
}

impl<A: Allocator> Model for HashIndex<A> {
    ghost use Rattle.std.specs.Prelude.{List};
    ghost use Rattle.hash_numbers.specs.Index.{Entry};

    ghost Value = { List Entry };

    ghost view = { λ index. index.map };
}

impl<A: Allocator + Clone> HashIndex<A> {
    /// Makes an index without hashes. It allocates nothing.
    pub fn new(alloc: A) -> Self
        ensures { result ≡ [] }
    {
        HashIndex {
            map: HashTable::new(alloc),
        }
    }

    /// Gives the hash of each pair the number beside it, unless the hash has one already: the number that came first stays.
    /// Returns how many hashes had none. `alloc` allocates a list of these for the time of the call.
    ///
    /// Fails if an allocation fails. The index is then as it was.
    pub fn insert(&mut self, alloc: A, pairs: &[(MerkleHash, u64)]) -> Result<usize, AllocError>
        ensures inserts { IfOk result (Inserts self.old pairs.now self.new) }
        ensures refused { OnErr result (AreSame self.old self.new) }
    {
        let before = self.map.len();
        let mut added = Vec::new(alloc);
        match put_new(&mut self.map, pairs, &mut added) {
            Ok(()) => Ok(self.map.len() - before),
            Err(error) => {
                remove_all(&mut self.map, &added);
                // Calling `len` shows a proof that no hash is there twice.
                let _len = self.map.len();
                Err(error)
            }
        }
    }

    /// Returns the number of a hash, or `None` if it has none. It allocates nothing.
    pub fn get(&self, hash: &MerkleHash) -> Option<u64>
        ensures { result ≡ number_of self.now hash.now }
    {
        self.map.get(hash)
    }

    /// Returns how many hashes have a number. It allocates nothing.
    pub fn len(&self) -> usize
        ensures entries { result ≡ length self.now }
        ensures index { IsIndex self.now }
    {
        self.map.len()
    }

    /// Returns the entries, each a hash and its number, in no particular order. It allocates nothing.
    pub fn entries(&self) -> &[(MerkleHash, u64)]
        ensures entries { result.now ≡ self.now }
        ensures index { IsIndex self.now }
    {
        self.map.entries()
    }

    /// Returns an iterator over the entries, each a hash and its number, in no particular order. It allocates nothing.
    pub fn iter(&self) -> Iter<'_, (MerkleHash, u64)>
        ensures entries { iter_rest result ≡ self.now }
        ensures runs { IterYieldsInOrder (Hash × ℕ) }
        ensures index { IsIndex self.now }
    {
        self.map.entries().iter()
    }
}

// Puts in the pairs whose hashes a map doesn't have, and lists these hashes. If it fails, the list has at least the hashes
// that it put in, and none that the map had before.
fn put_new<A: Allocator + Clone>(
    map: &mut HashTable<u64, A>,
    pairs: &[(MerkleHash, u64)],
    added: &mut Vec<MerkleHash, A>,
) -> Result<(), AllocError>
    requires { added.old.items ≡ [] }
    ensures numbers { OnOk result (SameNumbers map.new (map.old ++ pairs.now)) }
    ensures refused { OnErr result (IsWithout map.new added.new.items map.old) }
{
    'pairs: for (hash, number) in pairs {
        if !map.contains_key(hash) {
            added.push(*hash)?;
            map.insert(*hash, *number)?;
        }
    }
    Ok(())
}

// Removes some hashes.
fn remove_all<A: Allocator + Clone>(map: &mut HashTable<u64, A>, hashes: &[MerkleHash])
    ensures { IsWithout map.old hashes.now map.new }
{
    'hashes: for hash in hashes {
        map.remove(hash);
    }
}

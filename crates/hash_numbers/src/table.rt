//! A table from hashes to values. No call takes more than a bounded number of steps beside a search in an ordered map, whoever
//! chose the hashes.

ghost use Rattle.std.specs.Prelude.{◌≡◌, ◌<◌, ◌^◌, false, List, Some, None, ◌++◌, ◌∷◌, [], get_or, length, is_some, IfOk, IfSome, IfNone, OnErr, OnOk};
ghost use Rattle.std.specs.List.{IsDistinct};
ghost use Rattle.xet_hash.specs.FiniteMap.{value_at, IsFiniteMap, Sets};
ghost use Rattle.hash_numbers.specs.Index.{Hash, hash_eq};
ghost use Rattle.hash_numbers.specs.Steps.Places.{IsEntryOf};
ghost use Rattle.hash_numbers.specs.Steps.Finding.{AreFound, IsTable, MovesLast};

use crate::slots::Slots;
use std::alloc::{AllocError, Allocator, Global};
use std::marker::Model;
use xet_hash::data_hash::MerkleHash;

/// A finite map from hashes to values.
///
/// In a contract it is the list of its entries, in no particular order.
#[derive(Drop)]
pub struct HashTable<V: Copy, A: Allocator = Global> {
    entries: Vec<(MerkleHash, V), A>,
    slots: Option<Slots<A>>,
}

impl<V: Copy, A: Allocator> Model for HashTable<V, A> {
    ghost use Rattle.std.specs.Prelude.{List};
    ghost use Rattle.hash_numbers.specs.Index.{Hash};

    ghost Value = { List (Hash × V) };

    ghost use Rattle.hash_numbers.specs.Steps.Finding.{IsTable};

    ghost view = { λ table. table.entries.items };

    ghost invariant = { λ table. IsTable table.entries.items table.slots };
}

impl<V: Copy, A: Allocator + Clone> HashTable<V, A> {
    /// Makes an empty table. It allocates nothing.
    pub fn new(alloc: A) -> HashTable<V, A>
        ensures { result ≡ [] }
    {
        HashTable {
            entries: Vec::new(alloc),
            slots: None,
        }
    }

    /// Returns the entries, in no particular order.
    pub fn entries(&self) -> &[(MerkleHash, V)]
        ensures entries { result.now ≡ self.now }
        ensures map { IsFiniteMap hash_eq self.now }
    {
        &self.entries
    }

    /// Returns the number of entries.
    pub fn len(&self) -> usize
        ensures entries { result ≡ length self.now }
        ensures map { IsFiniteMap hash_eq self.now }
    {
        self.entries.len()
    }

    // Returns the index of the entry with a hash, if there is one.
    fn position(&self, hash: &MerkleHash) -> Option<usize>
        ensures found { IfSome result (λ i. IsEntryOf self.now i hash.now) }
        ensures absent { IfNone result (value_at hash_eq self.now hash.now ≡ None) }
        ensures map { IsFiniteMap hash_eq self.now }
    {
        match &self.slots {
            Some(slots) => slots.find(&self.entries, hash),
            None => None,
        }
    }

    /// Returns the value at a hash, or `None` if there is none.
    pub fn get(&self, hash: &MerkleHash) -> Option<V>
        ensures { result ≡ value_at hash_eq self.now hash.now }
    {
        match self.position(hash) {
            Some(i) => Some(self.entries[i].1),
            None => None,
        }
    }

    /// Returns whether there is a value at a hash.
    pub fn contains_key(&self, hash: &MerkleHash) -> bool
        ensures { result ≡ is_some (value_at hash_eq self.now hash.now) }
    {
        self.get(hash).is_some()
    }

    /// Puts a value at a hash that has none.
    ///
    /// Fails if an allocation fails. The table is then unchanged.
    pub fn insert(&mut self, hash: MerkleHash, value: V) -> Result<(), AllocError>
        requires { is_some (value_at hash_eq self.old hash) ≡ false }
        ensures sets { OnOk result (Sets hash_eq self.old hash (Some value) self.new) }
        ensures refused { OnErr result (self.new ≡ self.old) }
    {
        make_room(&mut self.slots, &self.entries)?;
        place_last(&mut self.slots, &hash, self.entries.len())?;
        self.entries.push((hash, value))?;
        Ok(())
    }

    /// Removes a hash and its value. Returns the value, or `None` if there is none. It allocates nothing.
    pub fn remove(&mut self, hash: &MerkleHash) -> Option<V>
        ensures value { result ≡ value_at hash_eq self.old hash.now }
        ensures sets { Sets hash_eq self.old hash.now None self.new }
    {
        let i = self.position(hash)?;
        let last = self.entries.len() - 1;
        let moved = self.entries[last].0;
        move_last(&mut self.slots, hash, i, &moved, last);
        let (_, value) = self.entries.swap_remove(i);
        Some(value)
    }

    /// Returns a table with the same entries.
    ///
    /// Fails if an allocation fails.
    pub fn try_clone(&self) -> Result<HashTable<V, A>, AllocError>
        ensures { IfOk result (λ copy. copy ≡ self.now) }
    {
        let alloc = self.entries.allocator();
        if self.entries.is_empty() {
            return Ok(HashTable::new(alloc.clone()?));
        }
        let slots = Slots::of_entries(alloc.clone()?, &self.entries)?;
        Ok(HashTable {
            entries: copied(alloc.clone()?, &self.entries)?,
            slots: Some(slots),
        })
    }
}

// Returns a copy of some entries.
fn copied<V: Copy, A: Allocator>(
    alloc: A,
    entries: &[(MerkleHash, V)],
) -> Result<Vec<(MerkleHash, V), A>, AllocError>
    ensures { IfOk result (λ copy. copy.items ≡ entries.now) }
{
    let mut copy = Vec::new(alloc);
    copy.extend_from_slice(entries)?;
    Ok(copy)
}

// Makes slots with room for one more entry, unless there are such slots.
fn make_room<V: Copy, A: Allocator + Clone>(
    slots: &mut Option<Slots<A>>,
    entries: &Vec<(MerkleHash, V), A>,
) -> Result<(), AllocError>
    requires { IsTable entries.now.items slots.old }
    ensures { IsTable entries.now.items slots.new }
{
    if let Some(slots) = slots {
        if slots.has_room(entries.len()) {
            return Ok(());
        }
    }
    *slots = Some(Slots::of_entries(entries.allocator().clone()?, entries)?);
    Ok(())
}

// Gives the next index to a hash.
fn place_last<A: Allocator + Clone>(
    slots: &mut Option<Slots<A>>,
    hash: &MerkleHash,
    count: usize,
) -> Result<(), AllocError>
    requires { count < 2 ^ 63 }
    ensures placed { OnOk result ((hashes : List Hash) → length hashes ≡ count → IsDistinct hash_eq (hashes ++ hash.now ∷ []) →
        AreFound hashes slots.old → AreFound (hashes ++ hash.now ∷ []) slots.new) }
    ensures refused { OnErr result ((hashes : List Hash) → AreFound hashes slots.old → AreFound hashes slots.new) }
{
    match slots {
        Some(slots) => slots.place(hash, count),
        None => Err(AllocError),
    }
}

// Takes the index of a hash away, and gives it to the hash that had the last index.
fn move_last<A: Allocator + Clone>(
    slots: &mut Option<Slots<A>>,
    hash: &MerkleHash,
    i: usize,
    moved: &MerkleHash,
    last: usize,
)
    requires i { i < 2 ^ 63 }
    requires last { last < 2 ^ 63 }
    ensures { (hashes rest : List Hash) → MovesLast hashes i rest → length rest ≡ last →
        get_or hashes i [] ≡ hash.now → get_or hashes last [] ≡ moved.now → AreFound hashes slots.old → AreFound rest slots.new }
{
    if let Some(slots) = slots {
        slots.take(hash, i);
        if i != last {
            slots.renumber(moved, last, i);
        }
    }
}

//! Where a table finds its entries. The index of an entry stands in a slot near the home of its hash. If no slot there is free, an
//! ordered map has it. So each search takes a bounded number of steps beside one in the map, which is empty for random hashes.

ghost use Rattle.std.specs.Prelude.{◌≡◌, ◌≢◌, ◌↔◌, ◌⊎◌, ℕ, ◌+◌, ◌^◌, ◌<◌, ◌≤◌, false, ◌++◌, [], ◌∷◌, get_or, length, slice_index, IfOk, IfSome, IfNone, IsTrue, OnErr, OnOk};
ghost use Rattle.std.specs.List.{IsDistinct};
ghost use Rattle.std.specs.Map.{keys_of};
ghost use Rattle.hash_numbers.specs.Index.{Hash, hash_eq};
ghost use Rattle.hash_numbers.specs.Steps.Places.{home_of, IsEntryOf, Reaches};
ghost use Rattle.hash_numbers.specs.Steps.Finding.{AllFound, Finds};

use std::alloc::{AllocError, Allocator};
use std::collections::BTreeMap;
use xet_hash::data_hash::MerkleHash;

// How many slots a search looks at.
const WINDOW: usize = 32;

// What stands in a slot whose entry was removed. It is no entry's number.
const REMOVED: usize = usize::MAX;

/// Where a table finds its entries.
#[derive(Drop)]
pub struct Slots<A: Allocator> {
    // 0 for an empty slot, and else the index of an entry and 1.
    numbers: Vec<usize, A>,
    // Which bits of a hash say its home.
    mask: u64,
    // The indices of entries that have no slot.
    overflow: BTreeMap<MerkleHash, usize, A>,
}

// Returns where the search for a hash begins.
fn home(hash: &MerkleHash, mask: u64) -> usize
    ensures { result ≡ home_of mask hash.now }
{
    (hash.words()[0] & mask) as usize
}

// Returns where the search that begins at `home` ends at the latest.
fn window_end(numbers: &[usize], home: usize) -> usize
    ensures within { result ≤ length numbers.now }
    ensures last { (place : ℕ) → place < home + 32 → place < length numbers.now → place < result }
    ensures near { result ≤ home + 32 }
{
    let end = home.saturating_add(WINDOW);
    if end < numbers.len() {
        end
    } else {
        numbers.len()
    }
}

// Returns whether an entry has a hash.
fn is_entry_of<V>(entries: &[(MerkleHash, V)], i: usize, hash: &MerkleHash) -> bool
    ensures { IsTrue result ↔ IsEntryOf entries.now i hash.now }
{
    i < entries.len() && entries[i].0 == *hash
}

// Returns the index of the entry with a hash, if its number stands before the first empty slot of a window.
fn find_near<V>(
    numbers: &[usize],
    home: usize,
    entries: &[(MerkleHash, V)],
    hash: &MerkleHash,
) -> Option<usize>
    ensures found { IfSome result (λ i. IsEntryOf entries.now i hash.now) }
    ensures absent { IfNone result ((i place : ℕ) → IsEntryOf entries.now i hash.now → Reaches numbers.now home place →
        slice_index numbers.now place ≢ i + 1) }
{
    let end = window_end(numbers, home);
    'window: for place in home..end {
        let number = numbers[place];
        if number == 0 {
            return None;
        }
        if is_entry_of(entries, number - 1, hash) {
            return Some(number - 1);
        }
    }
    None
}

// Returns the place of a number, if it stands before the first empty slot of a window.
fn place_of(numbers: &[usize], home: usize, number: usize) -> Option<usize>
    ensures found { IfSome result (λ place. Reaches numbers.now home place × (slice_index numbers.now place ≡ number)) }
    ensures absent { IfNone result ((place : ℕ) → Reaches numbers.now home place → slice_index numbers.now place ≢ number) }
{
    let end = window_end(numbers, home);
    'window: for place in home..end {
        let there = numbers[place];
        if there == number {
            return Some(place);
        }
        if there == 0 {
            return None;
        }
    }
    None
}

// Returns the first place of a window where no entry before `count` has its number, if there is one.
fn free_place(numbers: &[usize], home: usize, count: usize) -> Option<usize>
    ensures { IfSome result (λ place. Reaches numbers.now home place
        × ((i : ℕ) → i < count → slice_index numbers.now place ≢ i + 1)) }
{
    let end = window_end(numbers, home);
    'window: for place in home..end {
        let number = numbers[place];
        if number == 0 || number > count {
            return Some(place);
        }
    }
    None
}

impl<A: Allocator + Clone> Slots<A> {
    // Makes slots for more than `count` entries.
    fn new(alloc: A, count: usize) -> Result<Slots<A>, AllocError> {
        let mask = u64::MAX >> count.leading_zeros().saturating_sub(1) | 15;
        let mut numbers = Vec::new(alloc.clone()?);
        numbers.resize((mask as usize).saturating_add(WINDOW), 0)?;
        Ok(Slots {
            numbers,
            mask,
            overflow: BTreeMap::new(alloc),
        })
    }

    /// Makes slots for some entries, and room for more.
    pub fn of_entries<V>(alloc: A, entries: &[(MerkleHash, V)]) -> Result<Slots<A>, AllocError>
        requires { IsDistinct hash_eq (keys_of entries.now) }
        ensures { IfOk result (AllFound (keys_of entries.now)) }
    {
        let mut slots = Slots::new(alloc, entries.len())?;
        'entries: for i in 0..entries.len() {
            slots.place(&entries[i].0, i)?;
        }
        Ok(slots)
    }

    /// Returns whether another entry may have a slot. If this is wrong, a search takes longer, and finds the same.
    pub fn has_room(&self, count: usize) -> bool {
        (count as u64) < self.mask / 2
    }

    /// Returns the index of the entry with a hash, if it is found.
    pub fn find<V>(&self, entries: &[(MerkleHash, V)], hash: &MerkleHash) -> Option<usize>
        ensures found { IfSome result (λ i. IsEntryOf entries.now i hash.now) }
        ensures absent { IfNone result ((i : ℕ) → IsEntryOf entries.now i hash.now → Finds self.now hash.now i → ⊥) }
    {
        let near = find_near(&self.numbers, home(hash, self.mask), entries, hash);
        if near.is_some() || self.overflow.is_empty() {
            return near;
        }
        match self.overflow.get(hash) {
            Some(i) if is_entry_of(entries, *i, hash) => Some(*i),
            _ => None,
        }
    }

    /// Gives the index `i` to a hash. Indices below `i` that other hashes have are still found.
    ///
    /// Fails if an allocation fails. All that was found is then still found.
    pub fn place(&mut self, hash: &MerkleHash, i: usize) -> Result<(), AllocError>
        requires { i < 2 ^ 63 }
        ensures placed { OnOk result (Finds self.new hash.now i) }
        ensures others { (other : Hash) (j : ℕ) → j < i → hash_eq hash.now other ≡ false → Finds self.old other j →
            Finds self.new other j }
        ensures refused { OnErr result ((other : Hash) (j : ℕ) → Finds self.old other j → Finds self.new other j) }
    {
        match free_place(&self.numbers, home(hash, self.mask), i) {
            Some(place) => self.numbers[place] = i + 1,
            None => {
                self.overflow.insert(*hash, i)?;
            }
        }
        Ok(())
    }

    /// Takes the index `i` of a hash away. Other indices that other hashes have are still found.
    pub fn take(&mut self, hash: &MerkleHash, i: usize)
        requires { i < 2 ^ 63 }
        ensures { (other : Hash) (j : ℕ) → j ≢ i → hash_eq hash.now other ≡ false → Finds self.old other j →
            Finds self.new other j }
    {
        match place_of(&self.numbers, home(hash, self.mask), i + 1) {
            Some(place) => self.numbers[place] = REMOVED,
            None => {
                self.overflow.remove(hash);
            }
        }
    }

    /// Gives the index `to` to a hash that has the index `from`. Other indices that other hashes have are still found.
    pub fn renumber(&mut self, hash: &MerkleHash, from: usize, to: usize)
        requires from { from < 2 ^ 63 }
        requires to { to < 2 ^ 63 }
        ensures moved { Finds self.old hash.now from → Finds self.new hash.now to }
        ensures others { (other : Hash) (j : ℕ) → j ≢ from → hash_eq hash.now other ≡ false → Finds self.old other j →
            Finds self.new other j }
    {
        match place_of(&self.numbers, home(hash, self.mask), from + 1) {
            Some(place) => self.numbers[place] = to + 1,
            None => {
                if self.overflow.contains_key(hash) {
                    // A value of a hash that is there is replaced without an allocation.
                    let _old = self.overflow.insert(*hash, to);
                }
            }
        }
    }
}

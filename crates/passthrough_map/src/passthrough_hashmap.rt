//! A map for deduplication, built on the standard library's `HashMap`. Its keys are already hashes. This ports the
//! module `passthrough_hashmap` of the crate `xet-core-structures` 1.5.2.

ghost use Rattle.std.specs.Prelude.{◌≡◌, ◌↔◌, List, [], Some, None, length, is_some, option_map, option_copied, IfNone, IfOk, OnOk, OnErr, IsTrue};
ghost use Rattle.std.specs.Borrow.{sem};
ghost use Rattle.std.specs.Option.{option_copied_mut};
ghost use Rattle.std.specs.Iterator.{Drains, IsFinite};
ghost use Rattle.passthrough_map.specs.Entry.{entry_map, entry_key, IsLive};
ghost use Rattle.std.specs.Map.{keys_of, values_of};
ghost use Rattle.std.specs.Map.Iter.{GivesInOrder, ShowsInOrder, deref, deref_pair};
ghost use Rattle.passthrough_map.specs.FiniteMap.{value_at, key_at, IsFiniteMap, IsMapOf, Puts, Removes, Sets};
ghost use Rattle.passthrough_map.specs.MapLends.{lends_map, lends_value};

mod entry;

use crate::passthrough_hasher::U64HashExtractable;
pub use entry::{Entry, OccupiedEntry, VacantEntry};
use std::alloc::{AllocError, AllocFailed, Allocator, Global};
use std::collections::HashMap;
use std::collections::hash_map::{IntoIter, Iter, Keys, Values};
use std::hash::{BuildHasherDefault, FoldHasher, Hash};
use std::marker::Model;

/// The hasher builder of the inner map. It is the default of the standard library's `HashMap`.
///
/// Only this port has this item.
pub type DefaultBuildHasher = BuildHasherDefault<FoldHasher>;

/// A finite map from keys that are hashes to values.
///
/// In a contract it is the list of its entries, in no particular order.
#[derive(Drop)]
pub struct PassThroughHashMap<Key: U64HashExtractable + Hash + Eq, Val, A: Allocator = Global> {
    map: HashMap<Key, Val, DefaultBuildHasher, A>,
}

impl<Key: U64HashExtractable + Hash + Eq, Val, A: Allocator> Model
    for PassThroughHashMap<Key, Val, A> {
    ghost use Rattle.std.specs.Prelude.{List};

    ghost Value = { List (Key × Val) };

    ghost view = { λ stored. stored.map.entries };
}

impl<Key: U64HashExtractable + Hash + Eq, Val, A: Allocator> PassThroughHashMap<Key, Val, A> {
    /// Makes an empty map. It allocates nothing.
    pub fn new(alloc: A) -> PassThroughHashMap<Key, Val, A>
        ensures { result ≡ [] }
    {
        PassThroughHashMap {
            map: HashMap::new(alloc),
        }
    }

    /// Makes an empty map with room for `capacity` entries.
    ///
    /// Fails if an allocation fails.
    pub fn with_capacity(
        alloc: A,
        capacity: usize,
    ) -> Result<PassThroughHashMap<Key, Val, A>, AllocError>
    where
        A: Clone,
        ensures { IfOk result (λ map. map ≡ []) }
    {
        Ok(PassThroughHashMap {
            map: HashMap::with_capacity(alloc, capacity)?,
        })
    }

    /// Returns the number of entries.
    pub fn len(&self) -> usize
        ensures entries { result ≡ length self.now }
        ensures map { IsFiniteMap Key.eq self.now }
    {
        self.map.len()
    }

    /// Returns whether there are no entries.
    pub fn is_empty(&self) -> bool
        ensures { IsTrue result ↔ (self.now ≡ []) }
    {
        self.map.is_empty()
    }

    /// Returns the value at `key`, or `None` if there is none.
    pub fn get(&self, key: &Key) -> Option<&Val>
        ensures { option_copied result ≡ value_at Key.eq self.now key.now }
    {
        self.map.get(key)
    }

    /// Returns the stored key that is equal to `key`, with its value, or `None` if there is none.
    pub fn get_key_value(&self, key: &Key) -> Option<(&Key, &Val)>
        ensures key { option_map (λ entry. entry.0.now) result ≡ key_at Key.eq self.now key.now }
        ensures value { option_map (λ entry. entry.1.now) result ≡ value_at Key.eq self.now key.now }
    {
        self.map.get_key_value(key)
    }

    /// Returns whether there is a value at `key`.
    pub fn contains_key(&self, key: &Key) -> bool
        ensures { result ≡ is_some (value_at Key.eq self.now key.now) }
    {
        self.map.contains_key(key)
    }

    /// Puts `value` at `key`, and returns the value that was there. A stored key stays.
    ///
    /// Fails if there was no value and an allocation fails. The map is then unchanged, and the pair is dropped.
    pub fn insert(&mut self, key: Key, value: Val) -> Result<Option<Val>, AllocError>
    where
        Key: Drop,
        Val: Drop,
        A: Clone,
        ensures old { IfOk result (λ old. old ≡ value_at Key.eq self.old key) }
        ensures sets { OnOk result (Sets Key.eq self.old key (Some value) self.new) }
        ensures puts { OnOk result (Puts Key.eq self.old key value self.new) }
        ensures map { IsFiniteMap Key.eq self.new }
        ensures refused { OnErr result (self.new ≡ self.old) }
        ensures absent { OnErr result (value_at Key.eq self.old key ≡ None) }
    {
        Ok(self.map.insert(key, value)?)
    }

    /// Returns the entry of `key`, through which its value can be read, written or added. It allocates nothing, and
    /// changes nothing.
    pub fn entry(&mut self, key: Key) -> Entry<'_, Key, Val, A>
        ensures same_map { (entry_map result).ghost_name ≡ self.entry.ghost_name }
        ensures unchanged { (entry_map result).now ≡ self.old }
        ensures key { entry_key result ≡ key }
        ensures live { IsLive Key.eq result }
    {
        if self.contains_key(&key) {
            return Entry::Occupied(OccupiedEntry { map: self, key });
        }
        Entry::Vacant(VacantEntry { map: self, key })
    }

    /// Removes `key` and its value. Returns the value, or `None` if there is none.
    pub fn remove(&mut self, key: &Key) -> Option<Val>
    where
        Key: Drop,
        ensures value { result ≡ value_at Key.eq self.old key.now }
        ensures sets { Sets Key.eq self.old key.now None self.new }
        ensures removes { Removes Key.eq self.old key.now self.new }
        ensures unchanged { IfNone result (self.new ≡ self.old) }
    {
        self.map.remove(key)
    }

    /// Removes `key` and its value. Returns the stored key and the value, or `None` if there is none.
    pub fn remove_entry(&mut self, key: &Key) -> Option<(Key, Val)>
        ensures key { option_map (λ entry. entry.0) result ≡ key_at Key.eq self.old key.now }
        ensures value { option_map (λ entry. entry.1) result ≡ value_at Key.eq self.old key.now }
        ensures sets { Sets Key.eq self.old key.now None self.new }
        ensures removes { Removes Key.eq self.old key.now self.new }
        ensures unchanged { IfNone result (self.new ≡ self.old) }
    {
        self.map.remove_entry(key)
    }

    /// Returns a mutable reference to the value at `key`, or `None` if there is none.
    pub fn get_mut(&mut self, key: &Key) -> Option<&mut Val>
        ensures* written { sem 𝓛 (lends_value Key.row Val.row A.row Key.U64HashExtractable Key.Hash A.Allocator self.entry key.now result) }
        ensures value { option_copied_mut result ≡ value_at Key.eq self.old key.now }
    {
        self.map.get_mut(key)
    }

    /// Returns an iterator over the entries, each a key and its value, in no particular order.
    pub fn iter(&self) -> Iter<'_, Key, Val>
        ensures entries { result ≡ self.now }
        ensures runs { ShowsInOrder (deref_pair {K = Key} {X = Val}) }
        ensures map { IsFiniteMap Key.eq self.now }
    {
        self.map.iter()
    }

    /// Returns an iterator over the keys, in the order of [`PassThroughHashMap::iter`].
    pub fn keys(&self) -> Keys<'_, Key, Val>
        ensures keys { result ≡ keys_of self.now }
        ensures runs { ShowsInOrder (deref {X = Key}) }
        ensures map { IsFiniteMap Key.eq self.now }
    {
        self.map.keys()
    }

    /// Returns an iterator over the values, in the order of [`PassThroughHashMap::iter`].
    pub fn values(&self) -> Values<'_, Key, Val>
        ensures values { result ≡ values_of self.now }
        ensures runs { ShowsInOrder (deref {X = Val}) }
    {
        self.map.values()
    }

    /// Removes all entries.
    pub fn clear(&mut self)
    where
        Key: Drop,
        Val: Drop,
        ensures { self.new ≡ [] }
    {
        self.map.clear();
    }

    /// Returns the inner map.
    ///
    /// Only this port has this call. It replaces the dereferencing of the Rust type.
    pub fn as_map(&self) -> &HashMap<Key, Val, DefaultBuildHasher, A>
        ensures { result.now.entries ≡ self.now }
    {
        &self.map
    }

    /// Returns a mutable reference to the inner map. This map then has the entries that are left there.
    ///
    /// Only this port has this call. It replaces the dereferencing of the Rust type.
    pub fn as_map_mut(&mut self) -> &mut HashMap<Key, Val, DefaultBuildHasher, A>
        ensures* written { sem 𝓛 (lends_map Key.row Val.row A.row Key.U64HashExtractable Key.Hash A.Allocator self.entry result) }
        ensures entries { result.now.entries ≡ self.old }
    {
        &mut self.map
    }
}

impl<'a, Key: U64HashExtractable + Hash + Eq, Val, A: Allocator> IntoIterator
    for &'a PassThroughHashMap<Key, Val, A> {
    type Item = (&'a Key, &'a Val);

    type IntoIter = Iter<'a, Key, Val>;

    ghost into_iter_gives = { λ map entries. (entries ≡ map.now) × ShowsInOrder (deref_pair {K = Key} {X = Val}) × IsFiniteMap Key.eq map.now };

    /// Returns the iterator of [`PassThroughHashMap::iter`].
    fn into_iter(self) -> Iter<'a, Key, Val> {
        self.iter()
    }
}

impl<Key: U64HashExtractable + Hash + Eq + Drop, Val: Drop, A: Allocator> IntoIterator
    for PassThroughHashMap<Key, Val, A> {
    type Item = (Key, Val);

    type IntoIter = IntoIter<Key, Val, A>;

    ghost into_iter_gives = { λ map entries. (entries ≡ map) × GivesInOrder (Key × Val) × IsFiniteMap Key.eq map };

    /// Returns an iterator over the owned entries, in no particular order.
    fn into_iter(self) -> IntoIter<Key, Val, A> {
        let PassThroughHashMap { map } = self;
        map.into_iter()
    }
}

impl<Key: U64HashExtractable + Hash + Eq, Val, A: Allocator> From<
    HashMap<Key, Val, DefaultBuildHasher, A>,
> for PassThroughHashMap<Key, Val, A> {
    ghost from_gives = { λ inner map. map ≡ inner.entries };

    /// Makes a map with the same entries.
    fn from(map: HashMap<Key, Val, DefaultBuildHasher, A>) -> PassThroughHashMap<Key, Val, A> {
        PassThroughHashMap { map }
    }
}

impl<Key: U64HashExtractable + Hash + Eq, Val, A: Allocator> From<PassThroughHashMap<Key, Val, A>>
    for HashMap<Key, Val, DefaultBuildHasher, A> {
    ghost from_gives = { λ map inner. inner.entries ≡ map };

    /// Returns the inner map, with the same entries.
    fn from(map: PassThroughHashMap<Key, Val, A>) -> HashMap<Key, Val, DefaultBuildHasher, A> {
        let PassThroughHashMap { map } = map;
        map
    }
}

impl<
    Key: U64HashExtractable + Hash + Eq + Drop,
    Val: Drop,
    A: Allocator + Clone,
> PassThroughHashMap<Key, Val, A> {
    /// Makes a map of the pairs of an iterator. If several pairs have equal keys, the first key and the last value
    /// stay.
    ///
    /// Fails if an allocation fails. The iterator may then be partly consumed.
    ///
    /// Only this port has this call. It replaces `FromIterator`.
    pub fn from_pairs<I: IntoIterator<Item = (Key, Val)>>(
        alloc: A,
        pairs: I,
    ) -> Result<PassThroughHashMap<Key, Val, A>, AllocError>
        requires { (it : I.IntoIter) → I.into_iter_gives pairs it
            → I.IntoIter.can_next it × IsFinite (I.IntoIter.remaining it) }
        ensures { IfOk result (λ map. (it : I.IntoIter) × (given : List (Key × Val))
            × I.into_iter_gives pairs it × Drains I.IntoIter.next_gives it given × IsMapOf Key.eq given map) }
    {
        let mut map = PassThroughHashMap::new(alloc);
        'pairs: for (key, value) in pairs {
            map.insert(key, value)?;
        }
        Ok(map)
    }
}

impl<
    Key: U64HashExtractable + Hash + Eq + Copy,
    Val: Copy,
    A: Allocator + Clone,
> PassThroughHashMap<Key, Val, A> {
    /// Makes a map of some pairs. If several pairs have equal keys, the first key and the last value stay.
    ///
    /// Fails if an allocation fails.
    ///
    /// Only this port has this call. It replaces `From<[(Key, Value); N]>`. For pairs that can't be copied, use
    /// [`PassThroughHashMap::from_pairs`].
    pub fn from_array<const N: usize>(
        alloc: A,
        pairs: [(Key, Val); N],
    ) -> Result<PassThroughHashMap<Key, Val, A>, AllocError>
        ensures { IfOk result (IsMapOf Key.eq pairs) }
    {
        PassThroughHashMap::from_slice(alloc, &pairs)
    }

    fn from_slice(
        alloc: A,
        pairs: &[(Key, Val)],
    ) -> Result<PassThroughHashMap<Key, Val, A>, AllocError>
        ensures { IfOk result (IsMapOf Key.eq pairs.now) }
    {
        let mut map = PassThroughHashMap::with_capacity(alloc, pairs.len())?;
        for (key, value) in pairs {
            map.insert(*key, *value)?;
        }
        Ok(map)
    }
}

impl<
    Key: U64HashExtractable + Hash + Eq + Clone,
    Val: Clone,
    A: Allocator + Clone,
> PassThroughHashMap<Key, Val, A> {
    /// Returns a map with the same entries.
    ///
    /// Fails if an allocation fails, or the clone of a key or of a value.
    ///
    /// Only this port has this call. It replaces `Clone`.
    pub fn try_clone(&self) -> Result<PassThroughHashMap<Key, Val, A>, AllocError>
        requires keys { (key copy : Key) → Key.is_clone key copy → copy ≡ key }
        requires values { (value copy : Val) → Val.is_clone value copy → copy ≡ value }
        ensures { IfOk result (λ copy. copy ≡ self.now) }
    {
        Ok(PassThroughHashMap {
            map: self.map.clone()?,
        })
    }
}

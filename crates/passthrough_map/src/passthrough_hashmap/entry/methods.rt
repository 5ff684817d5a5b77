// The methods of entries.

ghost use Rattle.std.specs.Prelude.{◌≡◌, Some, None, unwrap_or, IfOk, OnErr};
ghost use Rattle.std.specs.Borrow.{sem, Bor, MutBor};
ghost use Rattle.std.specs.Fn.{FnOnceReturnsAt};
ghost use Rattle.std.specs.Map.{set_value};
ghost use Rattle.std.specs.Map.Calls.{ModifiesValue};
ghost use Rattle.std.specs.Option.{UnwrapsOrElse};
ghost use Rattle.passthrough_map.specs.FiniteMap.{key_at, Removes, Sets};
ghost use Rattle.passthrough_map.specs.Entry.{Occupied, Vacant, entry_map, entry_key, entry_value, with_value, writes_there, writes_in_place, puts_there, stays_if_refused, IsLive, IsFilled, IsPlaceAfter};

use super::{Entry, OccupiedEntry, VacantEntry};
use crate::passthrough_hasher::U64HashExtractable;
use std::alloc::{AllocError, Allocator};
use std::hash::Hash;
use std::mem;

impl<'a, Key: U64HashExtractable + Hash + Eq, Val, A: Allocator> Entry<'a, Key, Val, A> {
    /// Returns the stored key that is equal to the requested one, or the requested one if the map has no value at it.
    pub fn key(&self) -> &Key
        requires { IsLive Key.eq self.now }
        ensures { result.now ≡ unwrap_or (key_at Key.eq (entry_map self.now).now (entry_key self.now)) (entry_key self.now) }
    {
        match self {
            Entry::Occupied(place) => place.key(),
            Entry::Vacant(place) => place.key(),
        }
    }

    /// Changes the value by `f`, if there is one.
    pub fn and_modify<F: FnOnce(&mut Val) + Drop>(self, f: F) -> Entry<'a, Key, Val, A>
        requires live { IsLive Key.eq self }
        requires callable { (value : MutBor Val) → entry_value Key.eq self ≡ Some value.now → F.pre f value }
        ensures live { IsLive Key.eq result }
        ensures same_map { (entry_map result).ghost_name ≡ (entry_map self.entry).ghost_name }
        ensures key { entry_key result ≡ entry_key self.entry }
        ensures value { ModifiesValue F.FnOnce f (entry_value Key.eq self.entry) (entry_value Key.eq result) }
        ensures others { (value : Val) → set_value (Key.eq (entry_key self.entry)) (entry_map result).now value
            ≡ set_value (Key.eq (entry_key self.entry)) (entry_map self.entry).now value }
    {
        match self {
            Entry::Occupied(mut place) => {
                place.modify(f);
                Entry::Occupied(place)
            }
            Entry::Vacant(place) => Entry::Vacant(place),
        }
    }
}

impl<'a, Key: U64HashExtractable + Hash + Eq + Copy, Val: Drop, A: Allocator + Clone> Entry<
    'a,
    Key,
    Val,
    A,
> {
    /// Returns a mutable reference to the value, for as long as the map is borrowed. If there is no value, it first
    /// adds `default`.
    ///
    /// Fails if there was no value and an allocation fails. The map is then unchanged.
    pub fn or_insert(self, default: Val) -> Result<&'a mut Val, AllocError>
        requires { IsLive Key.eq self }
        ensures* written { sem 𝓛 (puts_there Key.row Val.row A.row Key.U64HashExtractable Key.Hash A.Allocator self.entry result) }
        ensures value { IfOk result (λ value. value.now ≡ unwrap_or (entry_value Key.eq self.entry) default) }
        ensures absent { OnErr result (entry_value Key.eq self.entry ≡ None) }
    {
        match self {
            Entry::Occupied(occupied) => Ok(occupied.into_mut()),
            Entry::Vacant(vacant) => vacant.insert(default),
        }
    }

    /// Returns a mutable reference to the value, for as long as the map is borrowed. If there is no value, it first
    /// adds what `default` returns.
    ///
    /// Fails if there was no value and an allocation fails. The map is then unchanged.
    pub fn or_insert_with<F: FnOnce() -> Val + Drop>(
        self,
        default: F,
    ) -> Result<&'a mut Val, AllocError>
        requires live { IsLive Key.eq self }
        requires callable { entry_value Key.eq self ≡ None → F.pre default }
        ensures* written { sem 𝓛 (puts_there Key.row Val.row A.row Key.U64HashExtractable Key.Hash A.Allocator self.entry result) }
        ensures value { IfOk result (λ value. UnwrapsOrElse (entry_value Key.eq self.entry) (F.post default) value.now) }
        ensures absent { OnErr result (entry_value Key.eq self.entry ≡ None) }
    {
        match self {
            Entry::Occupied(place) => Ok(place.into_mut()),
            Entry::Vacant(place) => place.insert(default()),
        }
    }

    /// Returns a mutable reference to the value, for as long as the map is borrowed. If there is no value, it first
    /// adds what `default` returns for the requested key.
    ///
    /// Fails if there was no value and an allocation fails. The map is then unchanged.
    pub fn or_insert_with_key<F: FnOnce(&Key) -> Val + Drop>(
        self,
        default: F,
    ) -> Result<&'a mut Val, AllocError>
        requires live { IsLive Key.eq self }
        requires callable { entry_value Key.eq self ≡ None → (key : Bor Key) → key.now ≡ entry_key self → F.pre default key }
        ensures* written { sem 𝓛 (puts_there Key.row Val.row A.row Key.U64HashExtractable Key.Hash A.Allocator self.entry result) }
        ensures value { IfOk result (λ value. UnwrapsOrElse (entry_value Key.eq self.entry)
            (FnOnceReturnsAt F.FnOnce default (entry_key self.entry)) value.now) }
        ensures absent { OnErr result (entry_value Key.eq self.entry ≡ None) }
    {
        match self {
            Entry::Occupied(place) => Ok(place.into_mut()),
            Entry::Vacant(place) => {
                let value = default(place.key());
                place.insert(value)
            }
        }
    }

    /// Returns a mutable reference to the value, for as long as the map is borrowed. If there is no value, it first
    /// adds the default of the type.
    ///
    /// Fails if there was no value and an allocation fails. The map is then unchanged.
    pub fn or_default(self) -> Result<&'a mut Val, AllocError>
    where
        Val: Default,
        requires { IsLive Key.eq self }
        ensures* written { sem 𝓛 (puts_there Key.row Val.row A.row Key.U64HashExtractable Key.Hash A.Allocator self.entry result) }
        ensures value { IfOk result (λ value. UnwrapsOrElse (entry_value Key.eq self.entry) Val.is_default value.now) }
        ensures absent { OnErr result (entry_value Key.eq self.entry ≡ None) }
    {
        match self {
            Entry::Occupied(place) => Ok(place.into_mut()),
            Entry::Vacant(place) => place.insert(Val::default()),
        }
    }

    /// Puts `value` at the key, and returns the occupied entry.
    ///
    /// Fails if there was no value and an allocation fails. The map is then unchanged.
    pub fn insert_entry(self, value: Val) -> Result<OccupiedEntry<'a, Key, Val, A>, AllocError>
        requires { IsLive Key.eq self }
        ensures* refused { sem 𝓛 (stays_if_refused Key.row Val.row A.row Key.U64HashExtractable Key.Hash A.Allocator self.entry result) }
        ensures written { IfOk result (IsFilled Key.eq self.entry value) }
        ensures absent { OnErr result (entry_value Key.eq self.entry ≡ None) }
    {
        match self {
            Entry::Occupied(place) => place.insert_entry(value),
            Entry::Vacant(place) => place.insert_entry(value),
        }
    }
}

impl<'a, Key: U64HashExtractable + Hash + Eq, Val, A: Allocator> OccupiedEntry<'a, Key, Val, A> {
    /// Returns the stored key.
    pub fn key(&self) -> &Key
        requires { IsLive Key.eq (Occupied self.now) }
        ensures { key_at Key.eq (entry_map (Occupied self.now)).now (entry_key (Occupied self.now)) ≡ Some result.now }
    {
        self.map.get_key_value(&self.key).unwrap().0
    }

    /// Returns the value.
    pub fn get(&self) -> &Val
        requires { IsLive Key.eq (Occupied self.now) }
        ensures { entry_value Key.eq (Occupied self.now) ≡ Some result.now }
    {
        self.map.get(&self.key).unwrap()
    }

    /// Returns a mutable reference to the value, for as long as the entry is borrowed.
    pub fn get_mut(&mut self) -> &mut Val
    where
        Key: Copy,
        requires { IsLive Key.eq (Occupied self.old) }
        ensures* written { sem 𝓛 (writes_in_place Key.row Val.row A.row Key.U64HashExtractable Key.Hash A.Allocator self.entry result) }
        ensures value { entry_value Key.eq (Occupied self.old) ≡ Some result.now }
        ensures live { (value : Val) → IsLive Key.eq (Occupied (with_value Key.eq self.old value)) }
    {
        let key = self.key;
        self.map.get_mut(&key).unwrap()
    }

    // Changes the value by `f`.
    fn modify<F: FnOnce(&mut Val) + Drop>(&mut self, f: F)
        requires live { IsLive Key.eq (Occupied self.old) }
        requires callable { (value : MutBor Val) → entry_value Key.eq (Occupied self.old) ≡ Some value.now → F.pre f value }
        ensures same_map { (entry_map (Occupied self.new)).ghost_name ≡ (entry_map (Occupied self.old)).ghost_name }
        ensures key { entry_key (Occupied self.new) ≡ entry_key (Occupied self.old) }
        ensures live { IsLive Key.eq (Occupied self.new) }
        ensures value { ModifiesValue F.FnOnce f (entry_value Key.eq (Occupied self.old)) (entry_value Key.eq (Occupied self.new)) }
        ensures others { (value : Val) → set_value (Key.eq (entry_key (Occupied self.old))) (entry_map (Occupied self.new)).now value
            ≡ set_value (Key.eq (entry_key (Occupied self.old))) (entry_map (Occupied self.old)).now value }
    {
        f(self.map.get_mut(&self.key).unwrap());
    }

    /// Writes `value`, and returns the value that was there.
    pub fn insert(&mut self, value: Val) -> Val
        requires { IsLive Key.eq (Occupied self.old) }
        ensures live { IsLive Key.eq (Occupied self.new) }
        ensures old { entry_value Key.eq (Occupied self.old) ≡ Some result }
        ensures written { IsPlaceAfter (Occupied self.old) (Occupied self.new)
            (set_value (Key.eq (entry_key (Occupied self.old))) (entry_map (Occupied self.old)).now value) }
    {
        mem::replace(self.map.get_mut(&self.key).unwrap(), value)
    }
}

impl<'a, Key: U64HashExtractable + Hash + Eq + Copy, Val: Drop, A: Allocator + Clone> OccupiedEntry<
    'a,
    Key,
    Val,
    A,
> {
    // Puts `value` at the key.
    fn insert_entry(self, value: Val) -> Result<OccupiedEntry<'a, Key, Val, A>, AllocError>
        requires { IsLive Key.eq (Occupied self) }
        ensures* refused { sem 𝓛 (stays_if_refused Key.row Val.row A.row Key.U64HashExtractable Key.Hash A.Allocator (Occupied self.entry) result) }
        ensures written { IfOk result (IsFilled Key.eq (Occupied self.entry) value) }
        ensures absent { OnErr result (entry_value Key.eq (Occupied self.entry) ≡ None) }
    {
        let OccupiedEntry { map, key } = self;
        map.insert(key, value)?;
        Ok(Self { map, key })
    }
}

impl<'a, Key: U64HashExtractable + Hash + Eq + Drop, Val, A: Allocator> OccupiedEntry<
    'a,
    Key,
    Val,
    A,
> {
    /// Returns a mutable reference to the value, for as long as the map is borrowed.
    pub fn into_mut(self) -> &'a mut Val
        requires { IsLive Key.eq (Occupied self) }
        ensures* written { sem 𝓛 (writes_there Key.row Val.row A.row Key.U64HashExtractable Key.Hash A.Allocator (Occupied self.entry) result) }
        ensures value { entry_value Key.eq (Occupied self.entry) ≡ Some result.now }
    {
        let OccupiedEntry { map, key } = self;
        map.get_mut(&key).unwrap()
    }

    /// Removes the key and its value. Returns the value.
    pub fn remove(self) -> Val
        requires { IsLive Key.eq (Occupied self) }
        ensures value { entry_value Key.eq (Occupied self.entry) ≡ Some result }
        ensures sets { Sets Key.eq (entry_map (Occupied self.entry)).now (entry_key (Occupied self.entry)) None self.exit.0.now }
        ensures removes { Removes Key.eq (entry_map (Occupied self.entry)).now (entry_key (Occupied self.entry)) self.exit.0.now }
    {
        let OccupiedEntry { map, key } = self;
        map.remove(&key).unwrap()
    }

    /// Removes the key and its value. Returns the stored key and the value.
    pub fn remove_entry(self) -> (Key, Val)
        requires { IsLive Key.eq (Occupied self) }
        ensures key { key_at Key.eq (entry_map (Occupied self.entry)).now (entry_key (Occupied self.entry)) ≡ Some result.0 }
        ensures value { entry_value Key.eq (Occupied self.entry) ≡ Some result.1 }
        ensures sets { Sets Key.eq (entry_map (Occupied self.entry)).now (entry_key (Occupied self.entry)) None self.exit.0.now }
        ensures removes { Removes Key.eq (entry_map (Occupied self.entry)).now (entry_key (Occupied self.entry)) self.exit.0.now }
    {
        let OccupiedEntry { map, key } = self;
        map.remove_entry(&key).unwrap()
    }
}

impl<'a, Key: U64HashExtractable + Hash + Eq, Val, A: Allocator> VacantEntry<'a, Key, Val, A> {
    /// Returns the requested key.
    pub fn key(&self) -> &Key
        ensures { result.now ≡ entry_key (Vacant self.now) }
    {
        &self.key
    }

    /// Returns the requested key, and leaves the map unchanged.
    pub fn into_key(self) -> Key
        ensures key { result ≡ entry_key (Vacant self.entry) }
        ensures unchanged { self.exit.0.now ≡ (entry_map (Vacant self.entry)).now }
    {
        let VacantEntry { map: _, key } = self;
        key
    }
}

impl<'a, Key: U64HashExtractable + Hash + Eq + Copy, Val: Drop, A: Allocator + Clone> VacantEntry<
    'a,
    Key,
    Val,
    A,
> {
    /// Puts `value` at the key. Returns a mutable reference to it, for as long as the map is borrowed.
    ///
    /// Fails if an allocation fails. The map is then unchanged.
    pub fn insert(self, value: Val) -> Result<&'a mut Val, AllocError>
        requires { IsLive Key.eq (Vacant self) }
        ensures* written { sem 𝓛 (puts_there Key.row Val.row A.row Key.U64HashExtractable Key.Hash A.Allocator (Vacant self.entry) result) }
        ensures value { IfOk result (λ place. place.now ≡ value) }
    {
        let VacantEntry { map, key } = self;
        map.insert(key, value)?;
        Ok(map.get_mut(&key).unwrap())
    }

    /// Puts `value` at the key, and returns the occupied entry.
    ///
    /// Fails if an allocation fails. The map is then unchanged.
    pub fn insert_entry(self, value: Val) -> Result<OccupiedEntry<'a, Key, Val, A>, AllocError>
        requires { IsLive Key.eq (Vacant self) }
        ensures* refused { sem 𝓛 (stays_if_refused Key.row Val.row A.row Key.U64HashExtractable Key.Hash A.Allocator (Vacant self.entry) result) }
        ensures written { IfOk result (IsFilled Key.eq (Vacant self.entry) value) }
    {
        let VacantEntry { map, key } = self;
        map.insert(key, value)?;
        Ok(OccupiedEntry { map, key })
    }
}

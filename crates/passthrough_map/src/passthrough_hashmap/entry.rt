//! The entry of a key in a map, through which its value can be read, written or added, as in
//! `std::collections::hash_map::Entry`.

mod methods;

use super::PassThroughHashMap;
use crate::passthrough_hasher::U64HashExtractable;
use std::alloc::Allocator;
use std::hash::Hash;

/// The entry of a key in a map. It holds the borrowed map and the requested key.
#[derive(Drop)]
pub enum Entry<'a, Key: U64HashExtractable + Hash + Eq, Val, A: Allocator> {
    /// The map has a value at the key.
    Occupied(OccupiedEntry<'a, Key, Val, A>),
    /// The map has no value at the key.
    Vacant(VacantEntry<'a, Key, Val, A>),
}

/// The entry of a key at which a map has a value.
#[derive(Drop)]
pub struct OccupiedEntry<'a, Key: U64HashExtractable + Hash + Eq, Val, A: Allocator> {
    pub(super) map: &'a mut PassThroughHashMap<Key, Val, A>,
    pub(super) key: Key,
}

/// The entry of a key at which a map has no value.
#[derive(Drop)]
pub struct VacantEntry<'a, Key: U64HashExtractable + Hash + Eq, Val, A: Allocator> {
    pub(super) map: &'a mut PassThroughHashMap<Key, Val, A>,
    pub(super) key: Key,
}

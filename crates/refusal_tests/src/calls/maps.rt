//! The map for deduplication.

use super::{Call, Outcome, Refusing, outcome_of};
use std::alloc::AllocError;
use std::process::Abort;
use xet_hash::data_hash::DataHash;
use xet_hash::passthrough_hashmap::{Entry, PassThroughHashMap};
use xet_merkle::CoreError;

/// A map of the numbers from 0 on, each with itself as its value.
pub type Numbers<'a> = PassThroughHashMap<u64, u64, &'a Refusing>;

/// Eight numbers, each with itself.
pub const EIGHT: [(u64, u64); 8] = [
    (0, 0),
    (1, 1),
    (2, 2),
    (3, 3),
    (4, 4),
    (5, 5),
    (6, 6),
    (7, 7),
];

/// Returns whether a map has exactly the numbers below a count.
pub fn has_numbers(map: &Numbers<'_>, count: u64) -> bool {
    for number in 0..count {
        if map.get(&number) != Some(&number) {
            return false;
        }
    }
    map.len() as u64 == count
}

// Returns whether a map that a call makes has its numbers.
fn is_made(call: Call, alloc: &Refusing, eight: &Numbers<'_>) -> Result<bool, CoreError> {
    match call {
        Call::MapWithCapacity => Ok(has_numbers(&PassThroughHashMap::with_capacity(alloc, 8)?, 0)),
        Call::MapFromPairs => Ok(has_numbers(&PassThroughHashMap::from_pairs(alloc, EIGHT)?, 8)),
        Call::MapFromArray => Ok(has_numbers(&PassThroughHashMap::from_array(alloc, EIGHT)?, 8)),
        _ => Ok(has_numbers(&eight.try_clone()?, 8)),
    }
}

/// Tries a call that makes a map.
pub fn make(rt: &impl Abort, call: Call, alloc: &Refusing, granted: u32) -> Outcome {
    let eight = PassThroughHashMap::from_array(alloc, EIGHT).expect(rt, "memory");
    alloc.grant(granted);
    let answer = is_made(call, alloc, &eight);
    outcome_of(alloc, answer, has_numbers(&eight, 8))
}

// Puts a new number into a map, at its vacant entry. Returns the value there.
fn put_at_vacant(call: Call, map: &mut Numbers<'_>, number: u64) -> Result<u64, AllocError> {
    match map.entry(number) {
        Entry::Vacant(place) if matches!(call, Call::VacantInsert) => Ok(*place.insert(number)?),
        Entry::Vacant(place) => Ok(*place.insert_entry(number)?.get()),
        Entry::Occupied(_) => Ok(u64::MAX),
    }
}

// Puts a new number into a map, through its entry or not. Returns the value there.
fn put(call: Call, map: &mut Numbers<'_>, number: u64) -> Result<u64, AllocError> {
    match call {
        Call::OrInsert => Ok(*map.entry(number).or_insert(number)?),
        Call::OrInsertWith => Ok(*map.entry(number).or_insert_with(|| number)?),
        Call::OrInsertWithKey => Ok(*map.entry(number).or_insert_with_key(|key| *key)?),
        Call::OrDefault => {
            let value = map.entry(number).or_default()?;
            if *value == 0 {
                *value = number;
            }
            Ok(*value)
        }
        Call::InsertEntry => Ok(*map.entry(number).insert_entry(number)?.get()),
        Call::VacantInsert | Call::VacantInsertEntry => put_at_vacant(call, map, number),
        _ => {
            map.insert(number, number)?;
            Ok(number)
        }
    }
}

/// Tries to put the numbers below a count into a map. After a refusal it must have the numbers before the refused one.
pub fn fill(call: Call, alloc: &Refusing, granted: u32, count: u64) -> Outcome {
    let mut map = PassThroughHashMap::new(alloc);
    alloc.grant(granted);
    for number in 0..count {
        match put(call, &mut map, number) {
            Ok(value) if value == number => {}
            Ok(_) => return Outcome::Wrong,
            Err(AllocError) => {
                return outcome_of(
                    alloc,
                    Err(CoreError::OutOfMemory),
                    has_numbers(&map, number),
                );
            }
        }
    }
    outcome_of(alloc, Ok(has_numbers(&map, count)), true)
}

// A map from hashes to texts.
type Texts<'a> = PassThroughHashMap<DataHash, &'static str, &'a Refusing>;

// Puts two values at a key, one after another. Returns whether the first is replaced.
fn replaces(map: &mut Texts<'_>, key: DataHash) -> Result<bool, CoreError> {
    let is_new = map.insert(key, "value1")?.is_none();
    let replaced = map.insert(key, "value2")?;
    Ok(is_new && replaced == Some("value1") && map.get(&key) == Some(&"value2"))
}

/// Tries to put two values at a key of an empty map. Only the first can be refused.
pub fn replace(alloc: &Refusing, granted: u32) -> Outcome {
    let mut map = PassThroughHashMap::new(alloc);
    alloc.grant(granted);
    let answer = replaces(&mut map, DataHash::random_from_seed(1));
    outcome_of(alloc, answer, map.is_empty())
}

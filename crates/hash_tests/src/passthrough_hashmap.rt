//! Calls of the map for deduplication whose keys are hashes, numbers, or of a type that is defined here, and the entries of
//! its keys. More calls are in the worked examples, and `refusal_tests` has those that fill a map.

ghost use Rattle.std.specs.Prelude.{◌≡◌, Some, IfSome, OnErr, OnOk, nat_eq};
ghost use Rattle.xet_hash.specs.FiniteMap.{value_at};

use std::alloc::{AllocError, Global};
use std::collections::HashMap;
use std::hash::Hash;
use std::process::Abort;
use xet_hash::data_hash::DataHash;
use xet_hash::laws::written_value_is_found;
use xet_hash::passthrough_hasher::U64HashExtractable;
use xet_hash::passthrough_hashmap::{Entry, PassThroughHashMap};

// A key of another type.
#[derive(Clone, Copy, Debug, PartialEq, Eq, Hash)]
struct ChunkName {
    number: u64,
    part: u8,
}

impl U64HashExtractable for ChunkName {
    ghost use Rattle.std.specs.Cmp.Rules.{hashing};
    ghost use Rattle.std.proofs.Common.{rules};

    ghost hash_value = { λ name. name.number };

    ghost equal_values = { Prim.search (hashing, rules) };

    fn u64_hash_value(&self) -> u64 {
        self.number
    }
}

// Two keys, and one that a map of the two doesn't have. Keys with equal numbers needn't be equal.
const HASHES: [[u64; 4]; 3] = [[12345, 0, 0, 1], [67890, 0, 0, 2], [12345, 0, 0, 3]];

const NUMBERS: [u64; 3] = [12345, 67890, 1];

const NAMES: [ChunkName; 3] = [
    ChunkName {
        number: 12345,
        part: 1,
    },
    ChunkName {
        number: 67890,
        part: 1,
    },
    ChunkName {
        number: 12345,
        part: 2,
    },
];

type Names = PassThroughHashMap<ChunkName, u32>;

// Returns whether each call that reads a map finds two keys, with the values 10 and 20, and not a third one.
fn reads(map: &Names) -> bool {
    let [first, second, lacking] = NAMES;
    let mut sum = 0u32;
    for (key, value) in map {
        if map.get(key) == Some(value) {
            sum = sum.saturating_add(*value);
        }
    }
    sum == 30
        && map.len() == 2
        && !map.is_empty()
        && map.get(&first) == Some(&10)
        && map.get_key_value(&second) == Some((&second, &20))
        && map.as_map().get(&second) == Some(&20)
        && map.contains_key(&first)
        && !map.contains_key(&lacking)
        && map.get(&lacking).is_none()
        && map.iter().count() == 2
        && map.keys().count() == 2
        && map.values().copied().max() == Some(20)
}

// Adds a value at the entry of a new key, and then changes it.
fn enters<K: U64HashExtractable + Hash + Copy>(
    rt: &impl Abort,
    map: &mut PassThroughHashMap<K, u32>,
    key: K,
) -> bool {
    let is_filled = *map.entry(key).or_insert(20).expect(rt, "memory") == 20;
    map.entry(key)
        .and_modify(|value| *value = 21)
        .or_insert_with(|| 22)
        .expect(rt, "memory");
    is_filled && map.get(&key) == Some(&21)
}

// Returns whether inserting two keys into an empty map, and changing the values there, does what it should.
fn inserts<K: U64HashExtractable + Hash + Copy>(
    rt: &impl Abort,
    map: &mut PassThroughHashMap<K, u32>,
    [first, second, lacking]: &[K; 3],
) -> bool {
    let are_inserted = map.is_empty()
        && matches!(map.insert(*first, 10), Ok(None))
        && matches!(map.insert(*first, 30), Ok(Some(10)))
        && enters(rt, map, *second);
    if let Some(value) = map.get_mut(first) {
        *value = 40;
    }
    are_inserted && map.get(first) == Some(&40) && map.get_mut(lacking).is_none()
}

// Returns whether removing those keys does what it should. In the end the map is empty.
fn removes<K: U64HashExtractable + Hash + Copy>(
    map: &mut PassThroughHashMap<K, u32>,
    [first, second, lacking]: &[K; 3],
) -> bool {
    let are_removed = map.len() == 2
        && map.remove(lacking).is_none()
        && map.remove(first) == Some(40)
        && matches!(map.remove_entry(second), Some((key, 21)) if key == *second)
        && map.remove_entry(second).is_none()
        && map.is_empty();
    let is_inside = matches!(map.as_map_mut().insert(*second, 50), Ok(None))
        && map.get(second) == Some(&50);
    map.clear();
    are_removed && is_inside && map.is_empty()
}

// Returns whether a map of the two keys keeps its entries when it is converted to a standard map and back.
fn converts(map: Names) -> bool {
    let [first, second, _] = NAMES;
    let mut inner: HashMap<ChunkName, u32> = map.into();
    let had_both = inner.len() == 2 && inner.remove(&first) == Some(10);
    let map = PassThroughHashMap::from(inner);
    let has_one = map.len() == 1;
    for (key, value) in map {
        if key != second || value != 20 {
            return false;
        }
    }
    had_both && has_one
}

#[test]
fn keys_of_another_type_are_found(rt: HostRuntime) {
    let [first, second, lacking] = NAMES;
    let same = ChunkName { ..first };
    assert!(rt; first == same && first.u64_hash_value() == same.u64_hash_value());
    assert!(rt; first != lacking && first.u64_hash_value() == lacking.u64_hash_value());
    let pairs = [(first, 10), (second, 20)];
    let map = PassThroughHashMap::from_pairs(rt.alloc(), pairs).expect(&rt, "memory");
    let copy = map.try_clone().expect(&rt, "memory");
    assert!(rt; reads(&map) && reads(&copy));
    assert!(rt; converts(copy));
    let mut map = PassThroughHashMap::new(rt.alloc());
    assert!(rt; inserts(&rt, &mut map, &NAMES) && removes(&mut map, &NAMES));
}

#[test]
fn changes_at_hashes_and_numbers(rt: HostRuntime) {
    let hashes = HASHES.map(|words| DataHash::from(words));
    let mut of_hashes = PassThroughHashMap::new(rt.alloc());
    assert!(rt; inserts(&rt, &mut of_hashes, &hashes) && removes(&mut of_hashes, &hashes));
    let mut of_numbers = PassThroughHashMap::with_capacity(rt.alloc(), 100).expect(&rt, "memory");
    assert!(rt; inserts(&rt, &mut of_numbers, &NUMBERS) && removes(&mut of_numbers, &NUMBERS));
}

#[test]
fn a_map_of_pairs_has_each_of_them(rt: HostRuntime) {
    let pairs = [(12345u64, "first"), (67890, "second")];
    let map = PassThroughHashMap::from_pairs(rt.alloc(), pairs).expect(&rt, "memory");
    assert!(rt; map.len() == 2);
    assert!(rt; map.get(&12345) == Some(&"first"));
    assert!(rt; map.get(&67890) == Some(&"second"));
    assert!(rt; map.get(&1).is_none());
}

#[test]
fn the_last_value_of_equal_keys_stays(rt: HostRuntime) {
    let pairs = [(1u64, 10), (2, 20), (1, 30)];
    let map = PassThroughHashMap::from_array(rt.alloc(), pairs).expect(&rt, "memory");
    assert!(rt; map.len() == 2);
    assert!(rt; map.get(&1) == Some(&30));
    assert!(rt; map.get(&2) == Some(&20));
}

// Writes through a reference into a map. The contract says that the map has what was written.
fn write_one(map: &mut PassThroughHashMap<u64, u64>, key: u64)
    ensures { IfSome (value_at nat_eq map.old key) (λ _. value_at nat_eq map.new key ≡ Some 1) }
{
    written_value_is_found::<u64, u64>();
    if let Some(value) = map.get_mut(&key) {
        *value = 1;
    }
}

fn write_one_inside(map: &mut PassThroughHashMap<u64, u64>, key: u64) -> Result<(), AllocError>
    ensures { OnOk result (value_at nat_eq map.new key ≡ Some 1) }
{
    map.as_map_mut().insert(key, 1)?;
    Ok(())
}

fn write_one_at_place(map: &mut PassThroughHashMap<u64, u64>, key: u64) -> Result<(), AllocError>
    ensures written { OnOk result (value_at nat_eq map.new key ≡ Some 1) }
    ensures refused { OnErr result (map.new ≡ map.old) }
{
    *map.entry(key).or_insert(0)? = 1;
    Ok(())
}

// Adds a value at the vacant entry of a key, and then one to it.
fn fills(rt: &impl Abort, map: &mut Names, key: ChunkName) -> bool {
    match map.entry(key) {
        Entry::Occupied(_) => false,
        Entry::Vacant(place) => {
            let is_of_key = *place.key() == key;
            *place.insert(1).expect(rt, "memory") += 1;
            is_of_key
        }
    }
}

// Reads the value 2 at the occupied entry of a key, and writes to it three times.
fn overwrites(map: &mut Names, key: ChunkName) -> bool {
    match map.entry(key) {
        Entry::Occupied(mut place) => {
            let was_two = *place.key() == key && *place.get() == 2 && place.insert(3) == 2;
            *place.get_mut() = 5;
            let is_five = *place.get() == 5;
            *place.into_mut() = 4;
            was_two && is_five
        }
        Entry::Vacant(_) => false,
    }
}

// Removes the entry of a key. Returns the key and the value, or only the key if the entry is vacant.
fn emptied(map: &mut Names, key: ChunkName) -> (ChunkName, Option<u32>) {
    match map.entry(key) {
        Entry::Occupied(place) => {
            let (key, value) = place.remove_entry();
            (key, Some(value))
        }
        Entry::Vacant(place) => (place.into_key(), None),
    }
}

#[test]
fn places_are_read_filled_and_emptied(rt: HostRuntime) {
    let [first, second, _] = NAMES;
    let mut map = PassThroughHashMap::new(rt.alloc());
    assert!(rt; fills(&rt, &mut map, first) && overwrites(&mut map, first));
    assert!(rt; emptied(&mut map, second) == (second, None));
    assert!(rt; emptied(&mut map, first) == (first, Some(4)));
    assert!(rt; map.is_empty());
}

#[test]
fn has_what_was_written_through_references(rt: HostRuntime) {
    let mut map = PassThroughHashMap::from_array(rt.alloc(), [(12345, 7)]).expect(&rt, "memory");
    write_one(&mut map, 12345);
    write_one_inside(&mut map, 67890).expect(&rt, "memory");
    write_one_at_place(&mut map, 1).expect(&rt, "memory");
    for key in NUMBERS {
        assert!(rt; map.get(&key) == Some(&1));
    }
}

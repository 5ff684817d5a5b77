//! The map for deduplication, and its hasher.

ghost use Rattle.std.specs.Prelude.{◌≡◌};

use crate::read::{bytes, hash, number};
use crate::told::{found, in_order};
use anyhow::{Context, Result, bail};
use std::alloc::{AllocError, Global};
use std::collections::HashMap;
use std::fmt::Display;
use std::hash::{Hash, Hasher};
use xet_hash::data_hash::MerkleHash;
use xet_hash::passthrough_hasher::{U64DirectHasher, U64HashExtractable};
use xet_hash::passthrough_hashmap::PassThroughHashMap;

// A key that a line can say.
trait SaidKey: U64HashExtractable + Hash + Eq + Display + Copy {
    // Reads a key.
    fn read(text: &str) -> Result<Self>;

    // Returns a copy of a map.
    fn copied<'a>(
        map: &PassThroughHashMap<Self, &'a str>,
    ) -> Result<PassThroughHashMap<Self, &'a str>, AllocError>;
}

impl SaidKey for u64 {
    fn read(text: &str) -> Result<u64> {
        number(text)
    }

    fn copied<'a>(
        map: &PassThroughHashMap<u64, &'a str>,
    ) -> Result<PassThroughHashMap<u64, &'a str>, AllocError> {
        map.try_clone()
    }
}

impl SaidKey for MerkleHash {
    fn read(text: &str) -> Result<MerkleHash> {
        hash(text)
    }

    fn copied<'a>(
        map: &PassThroughHashMap<MerkleHash, &'a str>,
    ) -> Result<PassThroughHashMap<MerkleHash, &'a str>, AllocError> {
        map.try_clone()
    }
}

/// Makes a call of the map or of its hasher. Returns `None` if the name is another one.
pub fn answer(alloc: Global, name: &str, arguments: &str) -> Result<Option<String>> {
    let text = match name {
        "map_of_u64:" => answers::<u64>(alloc, arguments)?,
        "map_of_hashes:" => answers::<MerkleHash>(alloc, arguments)?,
        "u64_hash_value" => hash_value(alloc, arguments)?,
        "hasher:" => hashed(alloc, arguments)?,
        _ => return Ok(None),
    };
    Ok(Some(text))
}

// Returns the number that serves as the hash of a key.
fn hash_value(alloc: Global, argument: &str) -> Result<String> {
    let value = match number(argument) {
        Ok(number) => number.u64_hash_value(),
        Err(_) => hash(argument)?.u64_hash_value(),
    };
    Ok(format!(in alloc; "{value:016x}")?)
}

// Makes the calls of a new hasher, and returns its last state.
fn hashed(alloc: Global, calls: &str) -> Result<String> {
    let mut hasher = U64DirectHasher::<MerkleHash>::default();
    for call in calls.split(", ") {
        let (name, argument) = call.split_once(' ').unwrap_or((call, ""));
        match name {
            "write_u64" => hasher.write_u64(state(argument)?),
            "write" => hasher.write(&bytes(alloc, argument)?),
            "hash" => hash(argument)?.hash(&mut hasher),
            _ => bail!("no such call"),
        }
    }
    let state = hasher.finish();
    Ok(format!(in alloc; "{state:016x}")?)
}

// Reads the state of a hasher: 16 hex digits.
fn state(text: &str) -> Result<u64> {
    Ok(u64::from_str_radix(text, 16)?)
}

// Returns what the calls of a new map return. It is made of some pairs, or has no entry.
fn answers<K: SaidKey>(alloc: Global, calls: &str) -> Result<String> {
    if let Some(calls) = calls.strip_prefix("from_pairs ") {
        let (said, calls) = calls.split_once(", ").context("no call")?;
        let map = PassThroughHashMap::from_pairs(alloc, pairs::<K>(alloc, said)?)?;
        return answers_of(alloc, map, calls);
    }
    if let Some(calls) = calls.strip_prefix("from_array ") {
        let (said, calls) = calls.split_once(", ").context("no call")?;
        let map = from_array::<K>(alloc, &pairs(alloc, said)?)?;
        return answers_of(alloc, map, calls);
    }
    let map: PassThroughHashMap<K, &str> = PassThroughHashMap::with_capacity(alloc, 100)?;
    answers_of(alloc, map, calls)
}

// Returns what the calls of a map return.
fn answers_of<'a, K: SaidKey>(
    alloc: Global,
    map: PassThroughHashMap<K, &'a str>,
    calls: &'a str,
) -> Result<String> {
    let mut map = map;
    let mut text = String::new(alloc);
    for call in calls.split(", ") {
        if !text.is_empty() {
            text.push_str(", ")?;
        }
        text.push_str(called(alloc, &mut map, call)?.as_str())?;
    }
    Ok(text)
}

// Makes a call of a map, and returns what it returned.
fn called<'a, K: SaidKey>(
    alloc: Global,
    map: &mut PassThroughHashMap<K, &'a str>,
    call: &'a str,
) -> Result<String> {
    let Some((name, argument)) = call.split_once(' ') else {
        return called_on_all(alloc, map, call);
    };
    let (key, value) = argument.split_once(' ').unwrap_or((argument, ""));
    let key = K::read(key)?;
    if value.is_empty() {
        return looked_up(alloc, map, name, key);
    }
    written(alloc, map, name, key, value)
}

// Reads keys and values with spaces between them. Each key has its value after an equals sign.
fn pairs<'a, K: SaidKey>(alloc: Global, text: &'a str) -> Result<Vec<(K, &'a str)>> {
    let mut pairs = Vec::new(alloc);
    for pair in text.split(' ') {
        let (key, value) = pair.split_once('=').context("no value")?;
        pairs.push((K::read(key)?, value))?;
    }
    Ok(pairs)
}

// Returns the map of three pairs.
fn from_array<'a, K: SaidKey>(
    alloc: Global,
    pairs: &[(K, &'a str)],
) -> Result<PassThroughHashMap<K, &'a str>> {
    let [(first, front), (second, middle), (third, back)] = pairs else {
        bail!("not three pairs");
    };
    Ok(PassThroughHashMap::from_array(
        alloc,
        [(*first, *front), (*second, *middle), (*third, *back)],
    )?)
}

// Makes a call that has no argument.
fn called_on_all<'a, K: SaidKey>(
    alloc: Global,
    map: &mut PassThroughHashMap<K, &'a str>,
    name: &str,
) -> Result<String> {
    match name {
        "len" => Ok(map.len().to_string(alloc)?),
        "is_empty" => Ok(map.is_empty().to_string(alloc)?),
        "clear" => {
            map.clear();
            Ok(String::from_str(alloc, "cleared")?)
        }
        "iter" => entries(alloc, map),
        "keys" => keys(alloc, map),
        "values" => values(alloc, map),
        "try_clone" => entries(alloc, &K::copied(map)?),
        "to_std_and_back" => {
            let inner: HashMap<K, &str> = HashMap::from(K::copied(map)?);
            entries(alloc, &PassThroughHashMap::from(inner))
        }
        "as_map" => Ok(map.as_map().len().to_string(alloc)?),
        _ => bail!("no such call"),
    }
}

// Makes a call that has a key.
fn looked_up<K: SaidKey>(
    alloc: Global,
    map: &mut PassThroughHashMap<K, &str>,
    name: &str,
    key: K,
) -> Result<String> {
    let text = match name {
        "get" => found(alloc, map.get(&key).copied())?,
        "get_key_value" => found(alloc, map.get_key_value(&key).map(|entry| *entry.1))?,
        "contains_key" => map.contains_key(&key).to_string(alloc)?,
        "remove" => found(alloc, map.remove(&key))?,
        "remove_entry" => found(alloc, map.remove_entry(&key).map(|entry| entry.1))?,
        _ => bail!("no such call"),
    };
    Ok(text)
}

// Makes a call that has a key and a value.
fn written<'a, K: SaidKey>(
    alloc: Global,
    map: &mut PassThroughHashMap<K, &'a str>,
    name: &str,
    key: K,
    value: &'a str,
) -> Result<String> {
    let text = match name {
        "insert" => found(alloc, map.insert(key, value)?)?,
        "get_mut" => match map.get_mut(&key) {
            Some(old) => replaced(alloc, old, value)?,
            None => String::from_str(alloc, "none")?,
        },
        "or_insert" => map.entry(key).or_insert(value)?.to_string(alloc)?,
        "and_modify" => {
            map.entry(key).and_modify(|old| *old = value);
            found(alloc, map.get(&key).copied())?
        }
        _ => bail!("no such call"),
    };
    Ok(text)
}

// Writes a new value, and returns the old one.
fn replaced<'a>(alloc: Global, old: &mut &'a str, new: &'a str) -> Result<String, AllocError> {
    let text = old.to_string(alloc)?;
    *old = new;
    Ok(text)
}

fn entries<K: SaidKey>(alloc: Global, map: &PassThroughHashMap<K, &str>) -> Result<String> {
    let mut texts = Vec::new(alloc);
    for (key, value) in map.iter() {
        texts.push(format!(in alloc; "{key}={value}")?)?;
    }
    Ok(in_order(alloc, texts)?)
}

fn keys<K: SaidKey>(alloc: Global, map: &PassThroughHashMap<K, &str>) -> Result<String> {
    let mut texts = Vec::new(alloc);
    for key in map.keys() {
        texts.push(key.to_string(alloc)?)?;
    }
    Ok(in_order(alloc, texts)?)
}

fn values<K: SaidKey>(alloc: Global, map: &PassThroughHashMap<K, &str>) -> Result<String> {
    let mut texts = Vec::new(alloc);
    for value in map.values() {
        texts.push(value.to_string(alloc)?)?;
    }
    Ok(in_order(alloc, texts)?)
}

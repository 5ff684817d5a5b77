//! Tests of `xet_hash` and of the crates below it, with values that were computed without this code.
#![tactic(auto)]

#[cfg(test)]
mod blake3;
#[cfg(test)]
mod data_hash;
#[cfg(test)]
mod forms;
#[cfg(test)]
mod hashed_write;
#[cfg(test)]
mod passthrough_hasher;
#[cfg(test)]
mod passthrough_hashmap;
#[cfg(test)]
mod recursive_reference;

//! Hashes: of data, from seeds, their bytes, their order.

ghost use Rattle.std.specs.Prelude.{◌≡◌, ◌≢◌, ◌↔◌, ◌%◌, slice_index};
ghost use Rattle.xet_hash.specs.Blake3.{keyed_hash};
ghost use Rattle.xet_hash.specs.Hash.{bytes_of, data_key, hash_of, internal_key, IsHash};
ghost use Rattle.xet_hash.specs.HashForms.{hash_cmp, random_hash};
ghost use Rattle.yurewha_c.specs.Order.{sign_of};

use crate::status::{ARGUMENTS, DONE};
use std::cmp::Ordering;
use xet_hash::data_hash::{DataHash, compute_data_hash, compute_internal_node_hash};

/// A hash: four words. Its 32 bytes are the words in order, each little-endian.
#[derive(Clone, Copy)]
#[repr(C)]
pub struct Hash {
    pub words: [u64; 4],
}

/// A key, a salt, or the bytes of a hash.
#[derive(Clone, Copy)]
#[repr(C)]
pub struct Bytes {
    pub bytes: [u8; 32],
}

impl Hash {
    // Converts a hash of the library to C.
    pub(crate) fn of(hash: DataHash) -> Hash
        ensures { result.words ≡ hash }
    {
        Hash {
            words: hash.words(),
        }
    }

    // Returns the library's hash.
    pub(crate) fn value(&self) -> DataHash
        ensures value { result ≡ self.now.words }
        ensures fits { IsHash self.now.words }
    {
        let hash = DataHash::from(self.words);
        // Calling `words` shows a proof that the words fit.
        let _words = hash.words();
        hash
    }
}

/// Writes the hash of a chunk. `bytes` is its data. The hash is keyed BLAKE3 under the data key. It allocates nothing.
///
/// Since 1.1.
#[unsafe(no_mangle)]
pub extern "C" fn yurewha_data_hash(bytes: &[u8], hash: &mut Hash)
    ensures { hash.new.words ≡ hash_of (keyed_hash data_key bytes.now) }
{
    *hash = Hash::of(compute_data_hash(bytes));
}

/// Writes the hash of an inner node of the tree. `bytes` is its text. The hash is keyed BLAKE3 under the internal key.
/// It allocates nothing.
///
/// Since 1.1.
#[unsafe(no_mangle)]
pub extern "C" fn yurewha_internal_node_hash(bytes: &[u8], hash: &mut Hash)
    ensures { hash.new.words ≡ hash_of (keyed_hash internal_key bytes.now) }
{
    *hash = Hash::of(compute_internal_node_hash(bytes));
}

/// Writes the keyed BLAKE3 hash of the bytes of `hash`, under the bytes of `key`. It allocates nothing.
///
/// Since 1.1.
#[unsafe(no_mangle)]
pub extern "C" fn yurewha_hmac(hash: &Hash, key: &Hash, keyed: &mut Hash)
    ensures { keyed.new.words ≡ hash_of (keyed_hash (bytes_of key.now.words) (bytes_of hash.now.words)) }
{
    *keyed = Hash::of(hash.value().hmac(key.value()));
}

/// Writes a pseudorandom hash, for tests. Its bytes are the first 32 of Xoshiro256++, seeded by SplitMix64 from `seed`.
///
/// Since 1.1.
#[unsafe(no_mangle)]
pub extern "C" fn yurewha_random_from_seed(seed: u64, hash: &mut Hash)
    ensures { hash.new.words ≡ random_hash seed }
{
    *hash = Hash::of(DataHash::random_from_seed(seed));
}

/// Writes the 32 bytes of a hash: its words in order, each little-endian on every machine.
///
/// Since 1.1.
#[unsafe(no_mangle)]
pub extern "C" fn yurewha_hash_to_bytes(hash: &Hash, bytes: &mut Bytes)
    ensures { bytes.new.bytes ≡ bytes_of hash.now.words }
{
    *bytes = Bytes {
        bytes: hash.value().as_bytes(),
    };
}

/// Writes the hash that has these 32 bytes.
///
/// Since 1.1.
#[unsafe(no_mangle)]
pub extern "C" fn yurewha_hash_from_bytes(bytes: &Bytes, hash: &mut Hash)
    ensures value { hash.new.words ≡ hash_of bytes.now.bytes }
    ensures back { bytes_of hash.new.words ≡ bytes.now.bytes }
{
    *hash = Hash::of(DataHash::from(bytes.bytes));
}

/// Compares the words of two hashes in order. This is also the order of their hex texts. Returns -1, 0 or 1 if the
/// first hash is less, equal or greater.
///
/// Since 1.1.
#[unsafe(no_mangle)]
pub extern "C" fn yurewha_compare(first: &Hash, second: &Hash) -> i32
    ensures { result ≡ sign_of (hash_cmp first.now.words second.now.words) }
{
    match first.value().cmp(&second.value()) {
        Ordering::Less => -1,
        Ordering::Equal => 0,
        Ordering::Greater => 1,
    }
}

/// Writes word 3 of a hash modulo `divisor`.
///
/// - `DONE`: the divisor isn't 0.
/// - `ARGUMENTS`: the divisor is 0.
///
/// Since 1.1.
#[unsafe(no_mangle)]
pub extern "C" fn yurewha_remainder(hash: &Hash, divisor: u64, remainder: &mut u64) -> u32
    ensures done { (result ≡ DONE) ↔ (divisor ≢ 0) }
    ensures arguments { (result ≡ ARGUMENTS) ↔ (divisor ≡ 0) }
    ensures value { result ≡ DONE → remainder.new ≡ slice_index hash.now.words 3 % divisor }
    ensures unchanged { result ≢ DONE → remainder.new ≡ remainder.old }
{
    if divisor == 0 {
        return ARGUMENTS;
    }
    *remainder = hash.value() % divisor;
    DONE
}

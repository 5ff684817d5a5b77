//! The streaming hasher, in the caller's own memory. A copy of its bytes is a copy of the hasher.

ghost use Rattle.std.specs.Prelude.{◌≡◌, ◌≢◌, ◌↔◌, ℕ, ◌+◌, ◌^◌, ◌<◌, ◌≤◌, List, ◌++◌, length};
ghost use Rattle.keyed_blake3.specs.Blake3Hasher.{Holds, count_of};
ghost use Rattle.xet_hash.specs.Blake3.{keyed_hash};
ghost use Rattle.xet_hash.specs.Hash.{data_key, hash_of, internal_key};
ghost use Rattle.yurewha_c.specs.Hashers.{Begins};

use crate::hash::{Bytes, Hash};
use crate::status::{DONE, SIZES};
use xet_hash::blake3::Hasher;
use xet_hash::data_hash::{DATA_KEY, DataHash, INTERNAL_KEY};

/// Begins a hasher of the empty message under the data key. It computes the same as `yurewha_data_hash`.
///
/// Since 1.1.
#[unsafe(no_mangle)]
pub extern "C" fn yurewha_hasher_begin_data(hasher: &mut Hasher)
    ensures { Begins data_key hasher.new }
{
    *hasher = Hasher::new_keyed(&DATA_KEY);
}

/// Begins a hasher of the empty message under the internal key. It computes the same as `yurewha_internal_node_hash`.
///
/// Since 1.1.
#[unsafe(no_mangle)]
pub extern "C" fn yurewha_hasher_begin_internal(hasher: &mut Hasher)
    ensures { Begins internal_key hasher.new }
{
    *hasher = Hasher::new_keyed(&INTERNAL_KEY);
}

/// Begins a hasher of the empty message under any key of 32 bytes.
///
/// Since 1.1.
#[unsafe(no_mangle)]
pub extern "C" fn yurewha_hasher_begin_keyed(hasher: &mut Hasher, key: &Bytes)
    ensures { Begins key.now.bytes hasher.new }
{
    *hasher = Hasher::new_keyed(&key.bytes);
}

/// Returns the length of the message in bytes.
///
/// Since 1.1.
#[unsafe(no_mangle)]
pub extern "C" fn yurewha_hasher_count(hasher: &Hasher) -> u64
    ensures count { result ≡ count_of hasher.now }
    ensures message { (key m : List ℕ) → Holds key hasher.now m → result ≡ length m }
{
    hasher.count()
}

/// Appends a piece to the message.
///
/// - `DONE`: the message now has at most 2^64 - 1 bytes.
/// - `SIZES`: it would have more.
///
/// Since 1.1.
#[unsafe(no_mangle)]
pub extern "C" fn yurewha_hasher_update(hasher: &mut Hasher, piece: &[u8]) -> u32
    ensures done { (result ≡ DONE) ↔ (count_of hasher.old + length piece.now < 2 ^ 64) }
    ensures sizes { (result ≡ SIZES) ↔ (2 ^ 64 ≤ count_of hasher.old + length piece.now) }
    ensures message { result ≡ DONE → (key m : List ℕ) → Holds key hasher.old m → Holds key hasher.new (m ++ piece.now) }
    ensures count { result ≡ DONE → count_of hasher.new ≡ count_of hasher.old + length piece.now }
    ensures unchanged { result ≢ DONE → hasher.new ≡ hasher.old }
{
    if !hasher.has_room(piece.len()) {
        return SIZES;
    }
    hasher.update(piece);
    DONE
}

/// Writes the keyed hash of the message. The hasher is unchanged, so it can take more pieces, and be finalized again.
///
/// Since 1.1.
#[unsafe(no_mangle)]
pub extern "C" fn yurewha_hasher_finalize(hasher: &Hasher, hash: &mut Hash)
    ensures { (key m : List ℕ) → Holds key hasher.now m → hash.new.words ≡ hash_of (keyed_hash key m) }
{
    *hash = Hash::of(DataHash::from(hasher.finalize()));
}

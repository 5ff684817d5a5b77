//! Hashes as text: hex and base64.

ghost use Rattle.std.specs.Prelude.{◌≡◌, ◌≢◌, ◌↔◌, ◌⊎◌, ℕ, ◌<◌, ◌≤◌, List, ◌++◌, drop, length};
ghost use Rattle.std.specs.Str.{str_to_ascii_lowercase};
ghost use Rattle.xet_hash.specs.Hash.{hex_text, IsHash, IsHexText};
ghost use Rattle.xet_hash.specs.HashForms.{base64_text};

use crate::hash::Hash;
use crate::status::{DONE, MEMORY, ROOM, TEXT};
use crate::text::write_text;
use std::alloc::Global;
use xet_hash::data_hash::{DataHash, HashTextError};

/// Writes the hex text of a hash to `room`. The text is 64 lower-case digits: 16 for each word in order, its highest
/// digit first. So it isn't the hex of the 32 bytes of the hash, in which each word is little-endian. `text_len` always
/// becomes 64.
///
/// - `DONE`: there is room for at least 64 bytes.
/// - `ROOM`: there is room for fewer than 64 bytes.
///
/// Since 1.1.
#[unsafe(no_mangle)]
pub extern "C" fn yurewha_hex(hash: &Hash, room: &mut [u8], text_len: &mut usize) -> u32
    ensures done { (result ≡ DONE) ↔ (64 ≤ length room.old) }
    ensures room { (result ≡ ROOM) ↔ (length room.old < 64) }
    ensures written { result ≡ DONE → room.new ≡ hex_text hash.now.words ++ drop 64 room.old }
    ensures unchanged { result ≢ DONE → room.new ≡ room.old }
    ensures len { text_len.new ≡ 64 }
{
    write_text(&hash.value().hex_digits(), room, text_len)
}

/// Writes the hash that has this hex text. It allocates nothing.
///
/// - `DONE`: the text is 64 hex digits, lower or upper case.
/// - `TEXT`: the text is anything else.
///
/// Since 1.1.
#[unsafe(no_mangle)]
pub extern "C" fn yurewha_from_hex(text: &[u8], hash: &mut Hash) -> u32
    ensures done { (result ≡ DONE) ↔ IsHexText text.now }
    ensures text { (result ≡ TEXT) ↔ (¬ IsHexText text.now) }
    ensures value { result ≡ DONE → hex_text hash.new.words ≡ str_to_ascii_lowercase text.now }
    ensures unchanged { result ≢ DONE → hash.new ≡ hash.old }
{
    match DataHash::from_hex_digits(text) {
        Ok(value) => {
            *hash = Hash::of(value);
            DONE
        }
        Err(_) => TEXT,
    }
}

/// Writes the base64 text of a hash to `room`. The text is 43 characters of the URL-safe alphabet, without padding.
/// `text_len` always becomes 43. It allocates nothing.
///
/// - `DONE`: there is room for at least 43 bytes.
/// - `ROOM`: there is room for fewer than 43 bytes.
///
/// Since 1.1.
#[unsafe(no_mangle)]
pub extern "C" fn yurewha_base64(hash: &Hash, room: &mut [u8], text_len: &mut usize) -> u32
    ensures done { (result ≡ DONE) ↔ (43 ≤ length room.old) }
    ensures room { (result ≡ ROOM) ↔ (length room.old < 43) }
    ensures written { result ≡ DONE → room.new ≡ base64_text hash.now.words ++ drop 43 room.old }
    ensures unchanged { result ≢ DONE → room.new ≡ room.old }
    ensures len { text_len.new ≡ 43 }
{
    write_text(&hash.value().base64_characters(), room, text_len)
}

/// Writes the hash that has this base64 text.
///
/// - `DONE`: the text is one that `yurewha_base64` writes.
/// - `TEXT`: it is any other text.
/// - `MEMORY`: an allocation failed.
///
/// Since 1.1.
#[unsafe(no_mangle)]
pub extern "C" fn yurewha_from_base64(alloc: Global, text: &[u8], hash: &mut Hash) -> u32
    ensures statuses { (result ≡ DONE) ⊎ ((result ≡ TEXT) ⊎ (result ≡ MEMORY)) }
    ensures value { result ≡ DONE → base64_text hash.new.words ≡ text.now }
    ensures text { result ≡ TEXT → (words : List ℕ) → IsHash words → base64_text words ≢ text.now }
    ensures unchanged { result ≢ DONE → hash.new ≡ hash.old }
{
    match DataHash::from_base64_characters(alloc, text) {
        Ok(value) => {
            *hash = Hash::of(value);
            DONE
        }
        Err(HashTextError::Bytes(_)) => TEXT,
        Err(HashTextError::OutOfMemory) => MEMORY,
    }
}

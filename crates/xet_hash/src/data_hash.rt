//! The 256-bit Merkle hash of a chunk, a xorb or a file, and its forms as words, bytes and hex text. This ports the
//! module `merklehash::data_hash` of the crate `xet-core-structures` 1.5.2.

ghost use Rattle.std.specs.Prelude.{◌≡◌, ◌≢◌, ◌+◌, ◌%◌, slice_index, ◌*◌, ◌↔◌, ◌<◌, ◌≤◌, ℕ, List, Some, [], codes, drop, get_or, length, map, take, IsOk, IfOk};
ghost use Rattle.std.specs.Fmt.{WritesOnOk, WritesStyledOnOk};
ghost use Rattle.std.specs.Str.{IsAscii, str_to_ascii_lowercase};
ghost use Rattle.hex.specs.Hex.{encode_lower};
ghost use Rattle.keyed_blake3.specs.Blake3.{keyed_hash};
ghost use Rattle.xet_hash.specs.HashForms.{random_hash};
ghost use Rattle.xet_hash.specs.Hash.{default_hash, bytes_of, hash_of, hex_text, data_key, internal_key, marker_hash, IsHash, IsHexText};

use crate::hex_digits::{is_hex_text, lower_digits, spelled_bytes};
use keyed_blake3::{
    SLOT_LEN, SLOTS, keyed_hash, keyed_hash_each, keyed_hash_slots, keyed_hash_two,
};
use rand_core::{Rng, SeedableRng};
use rand_xoshiro::Xoshiro256PlusPlus;
use std::marker::Model;
use std::ops::Rem;
use std::{error, fmt, str};

mod compared;
mod forms;
mod hashed_write;

pub use forms::{DataHashBytesParseError, HashTextError};
pub use hashed_write::HashedWrite;

/// The key of [`compute_data_hash`]. With it a [`Hasher`](crate::blake3::Hasher) computes the same hash from pieces.
/// Only this port has this item.
pub const DATA_KEY: [u8; 32] = [
    102, 151, 245, 119, 91, 149, 80, 222, 49, 53, 203, 172, 165, 151, 24, 28, 157, 228, 33, 16,
    155, 235, 43, 88, 180, 208, 176, 75, 147, 173, 242, 41,
];

/// The key of [`compute_internal_node_hash`]. Only this port has this item.
pub const INTERNAL_KEY: [u8; 32] = [
    1, 126, 197, 199, 165, 71, 41, 150, 253, 148, 102, 102, 180, 138, 2, 230, 93, 221, 83, 111, 55,
    199, 109, 210, 248, 99, 82, 230, 74, 83, 113, 63,
];

/// A Merkle hash of 256 bits, as four words.
///
/// In a contract it is the list of the words.
#[derive(Clone, Copy, PartialEq, Eq)]
pub struct DataHash {
    words: [u64; 4],
}

/// The hash of a chunk, a xorb or a file.
pub type MerkleHash = DataHash;

/// A key of [`DataHash::hmac`].
pub type HMACKey = DataHash;

impl Model for DataHash {
    ghost Value = { List ℕ };

    ghost view = { λ hash. hash.words };

    ghost inverse = { λ words. record { words = words } };
}

impl Default for DataHash {
    ghost is_default = { λ hash. hash ≡ default_hash };

    /// Returns the hash of all zero bits. It is the root of a list without chunks.
    fn default() -> DataHash {
        DataHash { words: [0; 4] }
    }
}

impl DataHash {
    /// Returns the four words.
    ///
    /// Only this port has this call. It replaces the dereferencing of the Rust type.
    pub fn words(&self) -> [u64; 4]
        ensures value { result ≡ self.now }
        ensures fits { IsHash self.now }
    {
        // Reading each word here shows a proof that it fits.
        let [first, second, third, fourth] = self.words;
        [first, second, third, fourth]
    }

    /// Returns the 32 bytes: the words in order, each little-endian on every machine.
    pub fn as_bytes(&self) -> [u8; 32]
        ensures { result ≡ bytes_of self.now }
    {
        let mut bytes = [0; 32];
        bytes[0..8].copy_from_slice(&self.words[0].to_le_bytes());
        bytes[8..16].copy_from_slice(&self.words[1].to_le_bytes());
        bytes[16..24].copy_from_slice(&self.words[2].to_le_bytes());
        bytes[24..32].copy_from_slice(&self.words[3].to_le_bytes());
        bytes
    }

    /// Returns the hex text: each word in order as 16 lower-case digits, the high digit first.
    ///
    /// Only this port has this call. It returns what [`fmt::Display`] writes, without a writer or memory.
    pub fn hex_digits(&self) -> [u8; 64]
        ensures text { result ≡ hex_text self.now }
        ensures ascii { IsAscii result }
    {
        lower_digits(&self.text_bytes())
    }

    /// Reads a hash from its hex text, in lower or upper case. Fails if and only if `text` isn't 64 ASCII hex digits.
    pub fn from_hex(text: &str) -> Result<DataHash, DataHashHexParseError>
        ensures accepted { IsOk result ↔ IsHexText text.now }
        ensures is_hash { IfOk result IsHash }
        ensures value { IfOk result (λ hash. hex_text hash ≡ str_to_ascii_lowercase text.now) }
    {
        DataHash::from_hex_digits(text.as_bytes())
    }

    /// Does the same as [`DataHash::from_hex`] for bytes that may not be UTF-8.
    ///
    /// Only this port has this call.
    pub fn from_hex_digits(digits: &[u8]) -> Result<DataHash, DataHashHexParseError>
        ensures accepted { IsOk result ↔ IsHexText digits.now }
        ensures is_hash { IfOk result IsHash }
        ensures value { IfOk result (λ hash. hex_text hash ≡ str_to_ascii_lowercase digits.now) }
    {
        if !is_hex_text(digits) {
            return Err(DataHashHexParseError);
        }
        Ok(DataHash::from_text_bytes(&spelled_bytes(digits)))
    }

    /// Returns the keyed BLAKE3 hash of this hash's bytes under the bytes of `key`.
    pub fn hmac(&self, key: HMACKey) -> DataHash
        ensures { result ≡ hash_of (keyed_hash (bytes_of key) (bytes_of self.now)) }
    {
        DataHash::from(keyed_hash(&key.as_bytes(), &self.as_bytes()))
    }

    /// Returns the hash of all one bits.
    pub fn marker() -> DataHash
        ensures { result ≡ marker_hash }
    {
        DataHash {
            words: [u64::MAX; 4],
        }
    }

    /// Returns a pseudorandom hash, for tests and simulations. Its bytes are the first 32 of Xoshiro256++, seeded by
    /// `seed_from_u64` from `seed`.
    #[tactic(auto, unfolding(crate::specs::HashForms::random_hash))]
    pub fn random_from_seed(seed: u64) -> DataHash
        ensures { result ≡ random_hash seed }
    {
        let mut bytes = [0; 32];
        Xoshiro256PlusPlus::seed_from_u64(seed).fill_bytes(&mut bytes);
        DataHash::from(bytes)
    }

    // Returns the 32 bytes in the order of the hex text: each word with its high byte first.
    fn text_bytes(&self) -> [u8; 32]
        ensures text { encode_lower result ≡ hex_text self.now }
        ensures fits { IsHash self.now }
    {
        let mut bytes = [0; 32];
        bytes[0..8].copy_from_slice(&self.words[0].to_be_bytes());
        bytes[8..16].copy_from_slice(&self.words[1].to_be_bytes());
        bytes[16..24].copy_from_slice(&self.words[2].to_be_bytes());
        bytes[24..32].copy_from_slice(&self.words[3].to_be_bytes());
        bytes
    }

    // Returns the hash of 32 bytes in the order of the hex text.
    fn from_text_bytes(bytes: &[u8; 32]) -> DataHash
        ensures is_hash { IsHash result }
        ensures text { hex_text result ≡ encode_lower bytes.now }
    {
        DataHash {
            words: [
                u64::from_be_bytes(word_bytes(bytes, 0)),
                u64::from_be_bytes(word_bytes(bytes, 1)),
                u64::from_be_bytes(word_bytes(bytes, 2)),
                u64::from_be_bytes(word_bytes(bytes, 3)),
            ],
        }
    }
}

impl From<[u64; 4]> for DataHash {
    ghost from_gives = { λ words hash. hash ≡ words };

    fn from(words: [u64; 4]) -> DataHash {
        DataHash { words }
    }
}

impl From<&[u8; 32]> for DataHash {
    ghost from_gives = { λ bytes hash. (hash ≡ hash_of bytes.now) × (bytes_of hash ≡ bytes.now) };

    #[tactic(auto, unfolding(crate::specs::Hash::hash_of))]
    fn from(bytes: &[u8; 32]) -> DataHash {
        DataHash {
            words: [
                u64::from_le_bytes(word_bytes(bytes, 0)),
                u64::from_le_bytes(word_bytes(bytes, 1)),
                u64::from_le_bytes(word_bytes(bytes, 2)),
                u64::from_le_bytes(word_bytes(bytes, 3)),
            ],
        }
    }
}

impl From<[u8; 32]> for DataHash {
    ghost from_gives = { λ bytes hash. (hash ≡ hash_of bytes) × (bytes_of hash ≡ bytes) };

    fn from(bytes: [u8; 32]) -> DataHash {
        DataHash::from(&bytes)
    }
}

impl From<DataHash> for [u8; 32] {
    ghost from_gives = { λ hash bytes. bytes ≡ bytes_of hash };

    fn from(hash: DataHash) -> [u8; 32] {
        hash.as_bytes()
    }
}

impl Rem<u64> for DataHash {
    type Output = u64;

    ghost can_rem = { λ hash divisor. divisor ≢ 0 };

    ghost rem_gives = { λ hash divisor rest. rest ≡ slice_index hash 3 % divisor };

    /// Returns word 3 modulo `divisor`, which must not be 0.
    fn rem(self, divisor: u64) -> u64 {
        self.words[3] % divisor
    }
}

/// Returns the hash of a chunk. `bytes` is its data. It is the keyed BLAKE3 hash under [`DATA_KEY`].
pub fn compute_data_hash(bytes: &[u8]) -> DataHash
    ensures { result ≡ hash_of (keyed_hash data_key bytes.now) }
{
    DataHash::from(keyed_hash(&DATA_KEY, bytes))
}

/// Returns the hash of an inner node of a tree. `bytes` is its text. It is the keyed BLAKE3 hash under
/// [`INTERNAL_KEY`].
pub fn compute_internal_node_hash(bytes: &[u8]) -> DataHash
    ensures { result ≡ hash_of (keyed_hash internal_key bytes.now) }
{
    DataHash::from(keyed_hash(&INTERNAL_KEY, bytes))
}

/// Returns the hashes of two inner nodes, each that of [`compute_internal_node_hash`]. It takes less time than two calls if
/// neither text has more than 1024 bytes.
pub fn compute_two_internal_node_hashes(first: &[u8], second: &[u8]) -> (DataHash, DataHash)
    ensures first { result.0 ≡ hash_of (keyed_hash internal_key first.now) }
    ensures second { result.1 ≡ hash_of (keyed_hash internal_key second.now) }
{
    let (of_first, of_second) = keyed_hash_two(&INTERNAL_KEY, first, second);
    (DataHash::from(of_first), DataHash::from(of_second))
}

/// Returns the hashes of at most `N` inner nodes, each that of [`compute_internal_node_hash`]: element j of the result is that of
/// text j. If no text has more than 1024 bytes, it takes less time than a call for each. Elements past the last text are the
/// default hash.
pub fn compute_internal_node_hashes<const N: usize>(texts: &[&[u8]]) -> [DataHash; N]
    requires { length texts.now ≤ N }
    ensures hashes { (j : ℕ) → j < length texts.now → get_or result j []
        ≡ hash_of (keyed_hash internal_key (get_or (map (λ text. text.now) texts.now) j [])) }
    ensures past { (j : ℕ) → length texts.now ≤ j → j < N → get_or result j [] ≡ default_hash }
{
    let of_each = keyed_hash_each::<N>(&INTERNAL_KEY, texts);
    let mut hashes = [DataHash::default(); N];
    'hashes: for j in 0..texts.len() {
        hashes[j] = DataHash::from(of_each[j]);
    }
    hashes
}

/// Returns the hashes of inner nodes, each that of [`compute_internal_node_hash`]: element j of the result is that of text j, which is
/// the first `lens[j]` bytes of slot j. The texts are hashed where they are. What follows a text in its slot may be overwritten.
pub fn compute_internal_node_hashes_in_slots(
    slots: &mut [[u8; SLOT_LEN]; SLOTS],
    lens: &[usize],
) -> [DataHash; SLOTS]
    requires sizes { (j : ℕ) → j < 16 → length (get_or slots.old j []) ≡ 1024 }
    requires few { length lens.now ≤ 16 }
    requires short { (j : ℕ) → j < length lens.now → slice_index lens.now j ≤ 1024 }
    ensures sizes { (j : ℕ) → j < 16 → length (get_or slots.new j []) ≡ 1024 }
    ensures hashes { (j : ℕ) → j < length lens.now → get_or result j []
        ≡ hash_of (keyed_hash internal_key (take (slice_index lens.now j) (get_or slots.old j []))) }
{
    let of_each = keyed_hash_slots(&INTERNAL_KEY, slots, lens);
    let mut hashes = [DataHash::default(); SLOTS];
    'hashes: for k in 0..lens.len() {
        hashes[k] = DataHash::from(of_each[k]);
    }
    hashes
}

// Returns the eight bytes of word `k` of 32 bytes.
fn word_bytes(bytes: &[u8; 32], k: usize) -> [u8; 8]
    requires { k < 4 }
    ensures { result ≡ take 8 (drop (8 * k) bytes.now) }
{
    let mut word = [0; 8];
    word.copy_from_slice(&bytes[8 * k..8 * k + 8]);
    word
}

/// The error of [`DataHash::from_hex`]: the text isn't 64 hex digits.
#[derive(Clone, Debug, Drop)]
pub struct DataHashHexParseError;

impl fmt::Display for DataHashHexParseError {
    ghost output = { λ _. Some (codes "Invalid hex input for DataHash") };

    ghost styled_output = { λ _ _. Some (codes "Invalid hex input for DataHash") };

    fn fmt<W: fmt::Write>(&self, f: &mut fmt::Formatter<W>) -> fmt::Result {
        f.write_str("Invalid hex input for DataHash")
    }
}

impl error::Error for DataHashHexParseError {}

impl fmt::Display for DataHash {
    ghost output = { λ hash. Some (hex_text hash) };

    ghost styled_output = { λ hash _. Some (hex_text hash) };

    /// Writes the hex text. It ignores the requested width and flags.
    fn fmt<W: fmt::Write>(&self, f: &mut fmt::Formatter<W>) -> fmt::Result {
        let digits = self.hex_digits();
        f.write_str(str::from_utf8(&digits).unwrap())
    }
}

impl fmt::Debug for DataHash {
    ghost debug_output = { λ hash. Some (hex_text hash) };

    /// Writes the hex text. It ignores the requested width and flags.
    fn fmt<W: fmt::Write>(&self, f: &mut fmt::Formatter<W>) -> fmt::Result
        ensures writes { WritesOnOk W.write_str_gives f.old result (hex_text self.now) f.new }
        ensures styled { WritesStyledOnOk W.write_str_gives f.old result (hex_text self.now) f.new }
    {
        fmt::Display::fmt(self, f)
    }
}

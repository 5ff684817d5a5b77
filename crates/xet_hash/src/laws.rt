//! Laws of the definitions that the contracts of this crate use. Each function does nothing: its contract is the law.

ghost use Rattle.std.specs.Prelude.{◌≡◌, ◌↔◌, ℕ, List, Some, IsTrue, fold, length, slice_index};
ghost use Rattle.std.specs.Cmp.{IsTotalOrder};
ghost use Rattle.std.specs.Cmp.Lexicographic.{slice_cmp};
ghost use Rattle.std.specs.Ordering.{nat_cmp, is_eq};
ghost use Rattle.std.specs.Str.{str_to_ascii_lowercase};
ghost use Rattle.xet_hash.specs.Hash.{bytes_of, hash_of, hex_text, IsHash, IsHashBytes, IsHexText};
ghost use Rattle.xet_hash.specs.HashForms.{base64_text, hash_cmp, hash_writes};
ghost use Rattle.passthrough_map.specs.PassthroughHasher.{overwrite_low};

use crate::data_hash::DataHash;
use passthrough_map::laws::passthrough_hasher_hands_numbers_on;
pub use passthrough_map::laws::written_value_is_found;
use std::hash::Hash;

/// A hash has 32 bytes, and reading them gives the hash back.
pub fn hash_reads_back_from_bytes()
    ensures bytes { (words : List ℕ) → IsHash words → IsHashBytes (bytes_of words) }
    ensures back { (words : List ℕ) → IsHash words → hash_of (bytes_of words) ≡ words }
{}

/// Any 32 bytes are the bytes of their hash.
pub fn bytes_read_back_from_hash()
    ensures hash { (bytes : List ℕ) → IsHashBytes bytes → IsHash (hash_of bytes) }
    ensures back { (bytes : List ℕ) → IsHashBytes bytes → bytes_of (hash_of bytes) ≡ bytes }
{}

/// The hex text of a hash is 64 hex digits, all in lower case.
pub fn hex_text_is_lowercase_digits()
    ensures digits { (words : List ℕ) → IsHash words → IsHexText (hex_text words) }
    ensures lowercase { (words : List ℕ) → IsHash words
        → str_to_ascii_lowercase (hex_text words) ≡ hex_text words }
{}

/// Any 64 hex digits, in lower or upper case, are the digits of a hash.
pub fn hex_digits_are_those_of_a_hash()
    ensures { (digits : List ℕ) → IsHexText digits →
        (words : List ℕ) × IsHash words × (hex_text words ≡ str_to_ascii_lowercase digits) }
{}

/// Two hashes with the same hex text are equal.
pub fn hex_text_tells_hashes_apart()
    ensures { (a b : List ℕ) → IsHash a → IsHash b → hex_text a ≡ hex_text b → a ≡ b }
{}

/// Reading the hex text of a hash gives the hash back.
pub fn hash_reads_back_from_hex_text()
    ensures { (words answer : List ℕ) → IsHash words → IsHash answer
        → hex_text answer ≡ str_to_ascii_lowercase (hex_text words) → answer ≡ words }
{}

/// The base64 text of a hash has 43 characters, and reading it gives the hash back.
pub fn hash_reads_back_from_base64_text()
    ensures characters { (words : List ℕ) → IsHash words → length (base64_text words) ≡ 43 }
    ensures back { (words answer : List ℕ) → IsHash words → IsHash answer
        → base64_text answer ≡ base64_text words → answer ≡ words }
{}

/// The order of hashes is the byte order of their hex texts.
pub fn hash_order_is_that_of_hex_texts()
    ensures { (a b : List ℕ) → IsHash a → IsHash b
        → hash_cmp a b ≡ slice_cmp nat_cmp (hex_text a) (hex_text b) }
{}

/// The comparisons of hashes agree with each other and with `Hash`.
pub fn hash_comparisons_agree()
    ensures order { IsTotalOrder ⟦<DataHash as Ord>⟧.cmp }
    ensures partial { (a b : List ℕ)
        → ⟦<DataHash as PartialOrd>⟧.partial_cmp a b ≡ Some (⟦<DataHash as Ord>⟧.cmp a b) }
    ensures ties { (a b : List ℕ)
        → ⟦<DataHash as PartialEq>⟧.eq a b ≡ is_eq (⟦<DataHash as Ord>⟧.cmp a b) }
    ensures equal { (a b : List ℕ) → IsTrue (⟦<DataHash as PartialEq>⟧.eq a b) ↔ (a ≡ b) }
    ensures alike { (a b : List ℕ) → IsTrue (⟦<DataHash as PartialEq>⟧.eq a b)
        → ⟦<DataHash as Hash>⟧.hash_input a ≡ ⟦<DataHash as Hash>⟧.hash_input b }
{}

/// A [`U64DirectHasher`](crate::passthrough_hasher::U64DirectHasher) that is fed a hash returns its word 0. So two
/// hashes leave equal states if and only if they have the same word 0.
pub fn passthrough_hasher_hands_word_zero_on()
    ensures hash { (state : ℕ) (words : List ℕ) → IsHash words
        → fold overwrite_low state (hash_writes words) ≡ slice_index words 0 }
    ensures shared { (s t : ℕ) (a b : List ℕ) → IsHash a → IsHash b
        → fold overwrite_low s (hash_writes a) ≡ fold overwrite_low t (hash_writes b) ↔ slice_index a 0 ≡ slice_index b 0 }
{
    passthrough_hasher_hands_numbers_on();
}

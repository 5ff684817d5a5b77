// A hash as text, bytes and JSON in allocated memory, and back.
ghost use Rattle.std.specs.Prelude.{◌≡◌, ◌≢◌, ◌↔◌, ℕ, List, Some, codes, length, string_bytes, IsOk, IfOk, IfErr, IfSome, IsSomeAnd};
ghost use Rattle.std.specs.Fmt.{WritesOnOk, WritesStyledOnOk};
ghost use Rattle.std.specs.Str.{str_to_ascii_lowercase};
ghost use Rattle.serde_json.specs.Data.{string};
ghost use Rattle.serde_json.specs.Find.{as_str};
ghost use Rattle.serde_json.specs.View.{view};
ghost use Rattle.xet_hash.specs.Hash.{bytes_of, hash_of, hex_text, IsHash, IsHexText};
ghost use Rattle.xet_hash.specs.HashForms.{base64_text, hash_text_error_text};
ghost use Rattle.xet_hash.specs.declared.data_hash.forms.HashTextError.TheVariants.{Bytes};

use super::{DataHash, DataHashHexParseError};
use base64::DecodeAllocError;
use base64::engine::general_purpose::URL_SAFE_NO_PAD;
use serde_json::Value;
use std::alloc::{AllocError, Allocator, Global};
use std::{error, fmt};

// The characters of a base64 text: four for each three bytes, and three for the last two.
const BASE64_LEN: usize = 43;

impl DataHash {
    /// Returns the 32 bytes of [`DataHash::as_bytes`] in a vector. Fails if an allocation fails.
    pub fn to_vec<A: Allocator>(&self, alloc: A) -> Result<Vec<u8, A>, AllocError>
        ensures { IfOk result (λ bytes. bytes.items ≡ bytes_of self.now) }
    {
        self.as_bytes().to_vec(alloc)
    }

    /// Returns the hash that has these bytes. Fails if and only if there aren't exactly 32.
    pub fn from_slice(bytes: &[u8]) -> Result<DataHash, DataHashBytesParseError>
        ensures accepted { IsOk result ↔ (length bytes.now ≡ 32) }
        ensures value { IfOk result (λ hash. hash ≡ hash_of bytes.now) }
    {
        match <[u8; 32]>::try_from(bytes) {
            Ok(bytes) => Ok(DataHash::from(bytes)),
            Err(_) => Err(DataHashBytesParseError),
        }
    }

    /// Returns the hex text, 64 characters. Fails if an allocation fails.
    pub fn hex<A: Allocator>(&self, alloc: A) -> Result<String<A>, AllocError>
        ensures text { IfOk result (λ text. string_bytes text ≡ hex_text self.now) }
        ensures fits { IsHash self.now }
    {
        hex::encode(alloc, self.text_bytes())
    }

    /// Returns the base64 text: 43 characters of the URL-safe alphabet, without padding (RFC 4648, section 5). Fails if
    /// an allocation fails.
    #[tactic(auto, unfolding(crate::specs::HashForms::base64_text))]
    pub fn base64<A: Allocator>(&self, alloc: A) -> Result<String<A>, AllocError>
        ensures { IfOk result (λ text. string_bytes text ≡ base64_text self.now) }
    {
        URL_SAFE_NO_PAD.encode(alloc, &self.as_bytes())
    }

    /// Returns the characters of the text that [`DataHash::base64`] returns. It allocates nothing.
    ///
    /// Only this port has this call.
    #[tactic(auto, unfolding(crate::specs::HashForms::base64_text))]
    pub fn base64_characters(&self) -> [u8; BASE64_LEN]
        ensures { result ≡ base64_text self.now }
    {
        let mut text = [0; BASE64_LEN];
        let _written = URL_SAFE_NO_PAD.encode_slice(&self.as_bytes(), &mut text);
        text
    }

    /// Reads a hash from its base64 text. Fails with [`HashTextError::Bytes`] if `text` isn't one that
    /// [`DataHash::base64`] returns, and with [`HashTextError::OutOfMemory`] if an allocation fails.
    pub fn from_base64<A: Allocator>(alloc: A, text: &str) -> Result<DataHash, HashTextError>
        ensures is_hash { IfOk result IsHash }
        ensures value { IfOk result (λ hash. base64_text hash ≡ text.now) }
        ensures refused { IfErr result (λ e. e ≢ HashTextError.OutOfMemory
            → (words : List ℕ) → IsHash words → base64_text words ≢ text.now) }
    {
        DataHash::from_base64_characters(alloc, text.as_bytes())
    }

    /// Does the same as [`DataHash::from_base64`] for bytes that may not be UTF-8.
    ///
    /// Only this port has this call.
    pub fn from_base64_characters<A: Allocator>(
        alloc: A,
        text: &[u8],
    ) -> Result<DataHash, HashTextError>
        ensures is_hash { IfOk result IsHash }
        ensures value { IfOk result (λ hash. base64_text hash ≡ text.now) }
        ensures refused { IfErr result (λ e. e ≢ HashTextError.OutOfMemory
            → (words : List ℕ) → IsHash words → base64_text words ≢ text.now) }
    {
        match URL_SAFE_NO_PAD.decode(alloc, text) {
            Ok(bytes) => Ok(DataHash::from_slice(&bytes)?),
            Err(DecodeAllocError::OutOfMemory) => Err(HashTextError::OutOfMemory),
            Err(DecodeAllocError::DecodeError(_)) => {
                Err(HashTextError::Bytes(DataHashBytesParseError))
            }
        }
    }

    /// Returns the hex text as a JSON string. Fails if an allocation fails.
    ///
    /// Only this port has this call. It replaces `hex::serde::serialize` of the Rust crate.
    pub fn to_json(&self, alloc: Global) -> Result<Value, AllocError>
        ensures text { IfOk result (λ value. view value ≡ string (hex_text self.now)) }
        ensures fits { IsHash self.now }
    {
        Ok(Value::String(self.hex(alloc)?))
    }

    /// Reads a hash from a JSON string, as [`DataHash::from_hex`] does. Fails for any other value.
    ///
    /// Only this port has this call. It replaces `hex::serde::deserialize` of the Rust crate.
    pub fn from_json(value: &Value) -> Result<DataHash, DataHashHexParseError>
        ensures accepted { IsOk result ↔ IsSomeAnd (as_str (view value.now)) IsHexText }
        ensures is_hash { IfOk result IsHash }
        ensures value { IfOk result (λ hash. IfSome (as_str (view value.now))
            (λ text. hex_text hash ≡ str_to_ascii_lowercase text)) }
    {
        match value.as_str() {
            Some(text) => DataHash::from_hex(text),
            None => Err(DataHashHexParseError),
        }
    }
}

impl TryFrom<&[u8]> for DataHash {
    type Error = DataHashBytesParseError;

    ghost try_from_gives = { λ bytes result. (IsOk result ↔ (length bytes.now ≡ 32))
        × IfOk result (λ hash. hash ≡ hash_of bytes.now) };

    /// Does the same as [`DataHash::from_slice`].
    fn try_from(bytes: &[u8]) -> Result<DataHash, DataHashBytesParseError> {
        DataHash::from_slice(bytes)
    }
}

impl fmt::LowerHex for DataHash {
    /// Writes the hex text. It ignores the requested width and flags.
    fn fmt<W: fmt::Write>(&self, f: &mut fmt::Formatter<W>) -> fmt::Result
        ensures writes { WritesOnOk W.write_str_gives f.old result (hex_text self.now) f.new }
        ensures styled { WritesStyledOnOk W.write_str_gives f.old result (hex_text self.now) f.new }
    {
        fmt::Display::fmt(self, f)
    }
}

/// The error of [`DataHash::from_slice`]: there aren't exactly 32 bytes.
#[derive(Clone, Debug, Drop)]
pub struct DataHashBytesParseError;

impl fmt::Display for DataHashBytesParseError {
    ghost output = { λ _. Some (codes "Invalid bytes input for DataHash") };

    ghost styled_output = { λ _ _. Some (codes "Invalid bytes input for DataHash") };

    fn fmt<W: fmt::Write>(&self, f: &mut fmt::Formatter<W>) -> fmt::Result {
        f.write_str("Invalid bytes input for DataHash")
    }
}

impl error::Error for DataHashBytesParseError {}

/// The error of [`DataHash::from_base64`].
#[derive(Debug, Drop)]
pub enum HashTextError {
    /// The text isn't one that [`DataHash::base64`] returns.
    Bytes(DataHashBytesParseError),
    /// An allocation failed.
    OutOfMemory,
}

impl From<DataHashBytesParseError> for HashTextError {
    ghost from_gives = { λ e result. result ≡ Bytes e };

    fn from(e: DataHashBytesParseError) -> HashTextError {
        HashTextError::Bytes(e)
    }
}

impl fmt::Display for HashTextError {
    ghost output = { λ e. Some (hash_text_error_text e) };

    ghost styled_output = { λ e _. Some (hash_text_error_text e) };

    fn fmt<W: fmt::Write>(&self, f: &mut fmt::Formatter<W>) -> fmt::Result {
        match self {
            HashTextError::Bytes(e) => fmt::Display::fmt(e, f),
            HashTextError::OutOfMemory => f.write_str("out of memory"),
        }
    }
}

impl error::Error for HashTextError {}

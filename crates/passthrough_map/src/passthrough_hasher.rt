//! A hasher that returns a number of the key unchanged, for keys that are already hashes. This ports the module
//! `passthrough_hasher` of the crate `xet-core-structures` 1.5.2.

ghost use Rattle.std.specs.Prelude.{◌≡◌, ℕ, IsTrue, fold, ⊤};
ghost use Rattle.std.specs.Hash as written;
ghost use Rattle.std.specs.Cmp.Rules.{hashing};
ghost use Rattle.std.proofs.Common.{rules};
ghost use Rattle.passthrough_map.specs.PassthroughHasher.{overwrite_low};

use std::alloc::AllocError;
use std::hash::{BuildHasher, Hasher};
use std::marker::{Model, PhantomData};

/// A key with a 64-bit number that can serve as its hash.
pub trait U64HashExtractable: Eq {
    // The number of a key.
    ghost hash_value: { Self → ℕ };

    /// Returns the number of this key. Equal keys have equal numbers.
    fn u64_hash_value(&self) -> u64
        ensures { result ≡ hash_value self.now };

    // Equal keys have equal numbers.
    ghost equal_values: { (x y : Self) → IsTrue (Self.eq x y) → hash_value x ≡ hash_value y };
}

impl U64HashExtractable for u64 {
    ghost hash_value = { λ number. number };

    ghost equal_values = { Prim.search (hashing, rules) };

    /// Returns the number itself.
    fn u64_hash_value(&self) -> u64 {
        *self
    }
}

/// A hasher whose state is one number: 0 at first, and then the last one that was written.
///
/// In a contract it is this number.
pub struct U64DirectHasher<T: U64HashExtractable> {
    state: u64,
    of: PhantomData<T>,
}

impl<T: U64HashExtractable> Model for U64DirectHasher<T> {
    ghost Value = { ℕ };

    ghost view = { λ hasher. hasher.state };

    ghost inverse = { λ number. record { state = number; of = record {} } };
}

impl<T: U64HashExtractable> Default for U64DirectHasher<T> {
    ghost is_default = { λ hasher. hasher ≡ 0 };

    /// Makes a hasher in the state 0.
    fn default() -> U64DirectHasher<T> {
        U64DirectHasher {
            state: 0,
            of: PhantomData,
        }
    }
}

impl<T: U64HashExtractable> Clone for U64DirectHasher<T> {
    ghost is_clone = { λ hasher copy. copy ≡ hasher };

    ghost is_infallible = { λ _. ⊤ };

    fn clone(&self) -> Result<U64DirectHasher<T>, AllocError> {
        Ok(U64DirectHasher {
            state: self.state,
            of: PhantomData,
        })
    }
}

impl<T: U64HashExtractable> Copy for U64DirectHasher<T> {}

impl<T: U64HashExtractable> Hasher for U64DirectHasher<T> {
    ghost write = { overwrite_low };

    ghost finish = { λ number. number };

    /// Returns the state.
    fn finish(&self) -> u64 {
        self.state
    }

    /// Overwrites the low bytes of the state with the first eight of `bytes`, or with all if there are fewer. The first
    /// byte becomes the lowest. The higher bytes stay.
    fn write(&mut self, bytes: &[u8]) {
        let mut state = self.state.to_le_bytes();
        let len = bytes.len().min(8);
        state[..len].copy_from_slice(&bytes[..len]);
        self.state = u64::from_le_bytes(state);
    }

    /// Sets the state to `number`.
    fn write_u64(&mut self, number: u64)
        ensures written { self.new ≡ fold overwrite_low self.old (written.u64 number) }
        ensures state { self.new ≡ number }
    {
        self.state = number;
    }
}

impl<T: U64HashExtractable> BuildHasher for U64DirectHasher<T> {
    type Hasher = U64DirectHasher<T>;

    ghost build_hasher = { λ _. 0 };

    /// Makes a hasher in the state 0, whatever the state of this one.
    fn build_hasher(&self) -> U64DirectHasher<T> {
        U64DirectHasher::default()
    }
}

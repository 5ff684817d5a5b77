// The order of hashes, and what a hash table reads of one.
ghost use Rattle.std.specs.Prelude.{Some, refl, slice_index};
ghost use Rattle.std.specs.Cmp.Lexicographic.{nat_list_cmp_total, texts_po, texts_ties};
ghost use Rattle.std.specs.Cmp.Rules.{hashing};
ghost use Rattle.std.proofs.Common.{rules};
ghost use Rattle.xet_hash.specs.HashForms.{hash_cmp, hash_writes};

use super::DataHash;
use crate::passthrough_hasher::U64HashExtractable;
use std::cmp::Ordering;
use std::hash::{Hash, Hasher};

impl PartialOrd for DataHash {
    ghost partial_cmp = { λ a b. Some (hash_cmp a b) };

    ghost laws = { texts_po };

    fn partial_cmp(&self, other: &DataHash) -> Option<Ordering> {
        Some(self.cmp(other))
    }
}

impl Ord for DataHash {
    ghost cmp = { hash_cmp };

    ghost total = { nat_list_cmp_total };

    ghost matches_partial_cmp = { λ a b. refl };

    ghost matches_eq = { texts_ties };

    /// Compares the words in order. This is also the byte order of the hex texts.
    fn cmp(&self, other: &DataHash) -> Ordering {
        self.words.cmp(&other.words)
    }
}

impl Hash for DataHash {
    ghost hash_input = { hash_writes };

    ghost respects_eq = { Prim.search (hashing, rules) };

    /// Gives `state` only word 0.
    fn hash<H: Hasher>(&self, state: &mut H) {
        state.write_u64(self.words[0]);
    }
}

impl U64HashExtractable for DataHash {
    ghost hash_value = { λ hash. slice_index hash 0 };

    ghost equal_values = { Prim.search (hashing, rules) };

    /// Returns word 0.
    fn u64_hash_value(&self) -> u64 {
        self.words[0]
    }
}

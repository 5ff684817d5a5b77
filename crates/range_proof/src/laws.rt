//! Laws of range proofs. Each function does nothing: its contract is the law.

ghost use Rattle.std.specs.Prelude.{◌≡◌, ℕ, ◌+◌, ◌-◌, ◌^◌, ◌<◌, ◌≤◌, ◌⊎◌, false, List, length, take, drop};
ghost use Rattle.serde_json.specs.Data.{Data};
ghost use Rattle.serde_json.specs.Written.{has_float};
ghost use Rattle.xet_hash.specs.Hash.{default_hash};
ghost use Rattle.xet_roots.specs.Groups.{Node};
ghost use Rattle.xet_roots.specs.Roots.{total_size, IsRoot, IsFileHash};
ghost use Rattle.commitment.specs.Commitment.{chunk_nodes, HashedForRoot, HashedForFile, Collision};
ghost use Rattle.range_proof.specs.RangeProof.{Proof, HasHashes, IsProofOf, Shows, ShowsRoot, IsWellFormed, begin_of, file_size_of};
ghost use Rattle.range_proof.specs.ProofBytes.{BreakRule, SayProof};
ghost use Rattle.range_proof.specs.ProofJson.{Reads, proof_json};
ghost use Rattle.level_nodes.specs.FlatLevels.{IsFlat};
ghost use Rattle.range_proof.specs.Soundness.{AreChunksAt, CheckedForRoot, CheckedForFile, HasChunksAt};
ghost use Rattle.range_proof.specs.Reading.{IsRead};
ghost use Rattle.range_proof.specs.Checking.{IsSoundRead, IsSoundReadForRoot};

use xet_hash::laws::hex_text_tells_hashes_apart;

/// Range proofs of roots are sound. Take a proof from anybody that shows a root, and chunks whose hashes and lengths are
/// those of its nodes from number k on. Then each file with this root has these chunks, one after another, at the place
/// that the proof names for the first of them, and is as long as the proof says. Otherwise there is a collision: a message
/// that was hashed to check the chunks, and a different one that is hashed for the file, have the same BLAKE3 hash.
///
/// Nothing is assumed of the proof but what its type keeps: each hash is four words of 64 bits, and the sum of all sizes
/// fits 64 bits. Nothing at all is assumed of the file.
pub fn range_proofs_of_roots_are_sound()
    ensures { (proof : Proof) (root : List ℕ) (k : ℕ) (chunks file : List (List ℕ)) →
        HasHashes proof → file_size_of proof < 2 ^ 64 → ShowsRoot proof root →
        0 < length chunks → AreChunksAt proof k chunks → IsRoot (chunk_nodes file) root →
        HasChunksAt file proof k chunks ⊎ Collision (CheckedForRoot proof chunks) (HashedForRoot file) }
{}

/// Range proofs of file hashes are sound, as those of roots are. The messages of a collision may then also be the bytes
/// of a root under the salt.
pub fn range_proofs_of_file_hashes_are_sound()
    ensures { (proof : Proof) (hash salt : List ℕ) (k : ℕ) (chunks file : List (List ℕ)) →
        HasHashes proof → file_size_of proof < 2 ^ 64 → Shows proof hash salt →
        0 < length chunks → AreChunksAt proof k chunks → IsFileHash (chunk_nodes file) salt hash →
        HasChunksAt file proof k chunks ⊎ Collision (CheckedForFile proof chunks salt) (HashedForFile file salt) }
{}

/// Bytes that were read are those of the file. Take a proof from anybody, and the data of all its chunks. Then each file
/// with a hash that the proof shows has the bytes that are read from this data between the same two places, and is as
/// long as the proof says. Otherwise there is a collision, as above.
pub fn bytes_that_are_read_are_those_of_the_file()
    ensures file_hash { (proof : Proof) (from to : ℕ) (all bytes : List ℕ) →
        HasHashes proof → IsWellFormed proof → IsRead proof from to all bytes → IsSoundRead proof from to all bytes }
    ensures root { (proof : Proof) (from to : ℕ) (all bytes : List ℕ) →
        HasHashes proof → IsWellFormed proof → IsRead proof from to all bytes → IsSoundReadForRoot proof from to all bytes }
{}

/// The proof of a range shows the root of its list, unless that is the default hash.
pub fn range_proofs_show_the_root()
    ensures { (nodes : List Node) (first end : ℕ) (proof : Proof) (root : List ℕ) →
        IsProofOf nodes first end proof → IsRoot nodes root → ¬ (root ≡ default_hash) → ShowsRoot proof root }
{}

/// The proof of a range shows the file hash of its list under each salt, unless that is the default hash.
pub fn range_proofs_show_the_file_hash()
    ensures { (nodes : List Node) (first end : ℕ) (proof : Proof) (hash salt : List ℕ) →
        IsProofOf nodes first end proof → IsFileHash nodes salt hash → ¬ (hash ≡ default_hash) → Shows proof hash salt }
{}

/// The proof of a range names the place of each of its chunks in the file, and where the range ends, and the size of the
/// file.
pub fn range_proofs_name_places()
    ensures begins { (nodes : List Node) (first end : ℕ) (proof : Proof) (k : ℕ) →
        IsProofOf nodes first end proof → first + k ≤ end → begin_of proof k ≡ total_size (take (first + k) nodes) }
    ensures size { (nodes : List Node) (first end : ℕ) (proof : Proof) →
        IsProofOf nodes first end proof → file_size_of proof ≡ total_size nodes }
{}

/// The proof of a range takes the chunks of that range: their hashes and lengths are those of its nodes.
pub fn range_proofs_take_their_chunks()
    ensures { (file : List (List ℕ)) (first end : ℕ) (proof : Proof) →
        IsProofOf (chunk_nodes file) first end proof → AreChunksAt proof 0 (take (end - first) (drop first file)) }
{}

/// The proof of a range keeps the rules of every proof, if the list has fewer than 2^64 nodes and the sum of their sizes
/// fits 64 bits.
pub fn range_proofs_are_well_formed()
    ensures { (nodes : List Node) (first end : ℕ) (proof : Proof) →
        IsProofOf nodes first end proof → length nodes < 2 ^ 64 → total_size nodes < 2 ^ 64 → IsWellFormed proof }
{}

/// A range of a list has exactly one proof.
pub fn one_range_proof()
    ensures exists { (nodes : List Node) (first end : ℕ) → first < end → end ≤ length nodes →
        (proof : Proof) × IsProofOf nodes first end proof }
    ensures unique { (nodes : List Node) (first end : ℕ) (proof other : Proof) →
        IsProofOf nodes first end proof → IsProofOf nodes first end other → proof ≡ other }
{}

/// The JSON value of a range proof has no floats, so `compact_text` gives its text.
pub fn proof_json_has_no_float()
    ensures { (proof : Proof) → has_float (proof_json proof) ≡ false }
{}

/// A JSON value describes at most one range proof. So reading what `to_json` returns gives the same proof, unless an
/// allocation fails.
pub fn json_says_one_range_proof()
    ensures { (json : Data) (a b : Proof) → Reads json a → Reads json b → a ≡ b }
{
    hex_text_tells_hashes_apart();
}

/// A range proof that a JSON value describes keeps the rules of every proof, and the hash of each of its nodes is a hash.
pub fn json_says_well_formed_range_proofs()
    ensures well_formed { (json : Data) (proof : Proof) → Reads json proof → IsWellFormed proof }
    ensures hashes { (json : Data) (proof : Proof) → Reads json proof → HasHashes proof }
{}

/// Counts and nodes are those of at most one range proof. So making a proof from what `to_flat` returns gives the same
/// proof, unless an allocation fails.
pub fn flat_lists_say_one_range_proof()
    ensures { (counts : List (ℕ × ℕ)) (nodes : List Node) (a b : Proof) →
        IsFlat counts nodes a.levels a.chunks → IsFlat counts nodes b.levels b.chunks → a ≡ b }
{}

/// Bytes say at most one range proof. So reading what `to_bytes` returns gives the same proof, unless an allocation fails.
/// Bytes that say a proof break no rule.
pub fn bytes_say_one_range_proof()
    ensures one { (bytes : List ℕ) (a b : Proof) → SayProof bytes a → SayProof bytes b → a ≡ b }
    ensures kept { (bytes : List ℕ) (proof : Proof) (rule : ℕ) → SayProof bytes proof → ¬ (BreakRule bytes rule) }
{}

/// Bytes break at most one rule, the lowest.
pub fn bytes_break_one_rule()
    ensures { (bytes : List ℕ) (rule other : ℕ) → BreakRule bytes rule → BreakRule bytes other → rule ≡ other }
{}

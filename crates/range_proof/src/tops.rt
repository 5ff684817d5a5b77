//! The top of a range proof: the node that the nodes of all levels lead to.

ghost use Rattle.std.specs.Prelude.{◌≡◌, ℕ, ◌↔◌, [], ◌∷◌, length, IfOk, IsTrue, MatchOption};
ghost use Rattle.xet_hash.specs.Hash.{default_hash};
ghost use Rattle.range_proof.specs.RangeProof.{IsWellFormed};
ghost use Rattle.range_proof.specs.Steps.Opening.{HasTop};

use crate::sides::parents_between;
use level_nodes::levels::LevelNodes;
use std::alloc::{AllocError, Allocator};
use xet_hash::data_hash::MerkleHash;
use xet_roots::aggregated_hashes::Node;

// Returns the hash of a node that is alone.
pub(crate) fn only_hash(nodes: &[Node]) -> Option<MerkleHash>
    ensures { MatchOption result (¬ (length nodes.now ≡ 1)) (λ hash. (size : ℕ) × (nodes.now ≡ (hash, size) ∷ [])) }
{
    match nodes {
        [(hash, _)] => Some(*hash),
        _ => None,
    }
}

// Returns whether a hash was found that was expected. The default hash never is, since an empty list has it.
pub(crate) fn is_found(found: &MerkleHash, expected: &MerkleHash) -> bool
    ensures { IsTrue result ↔ ((found.now ≡ expected.now) × ¬ (expected.now ≡ default_hash)) }
{
    *found == *expected && *expected != MerkleHash::default()
}

// Returns the hash of the top of the proof with these chunks and levels, if it has one.
pub(crate) fn top<A: Allocator + Clone>(
    alloc: A,
    chunks: &[Node],
    levels: &[LevelNodes<A>],
) -> Result<Option<MerkleHash>, AllocError>
    requires { IsWellFormed (record { chunks = chunks.now; levels = levels.now }) }
    ensures { IfOk result (HasTop (record { chunks = chunks.now; levels = levels.now })) }
{
    let mut nodes = chunks.to_vec(alloc.clone()?)?;
    'levels: for level in levels {
        nodes = parents_between(alloc.clone()?, level, &nodes)?;
    }
    Ok(only_hash(&nodes))
}

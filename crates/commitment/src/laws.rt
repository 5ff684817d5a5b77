//! Laws of roots and file hashes. Each function does nothing: its contract is the law.

ghost use Rattle.std.specs.Prelude.{◌≡◌, ℕ, ◌^◌, ◌<◌, ◌⊎◌, All, List, length};
ghost use Rattle.xet_hash.specs.Hash.{IsHash};
ghost use Rattle.xet_roots.specs.Groups.{Node};
ghost use Rattle.xet_roots.specs.Roots.{group_text, IsRoot, IsFileHash};
ghost use Rattle.commitment.specs.Commitment.{chunk_nodes, HashedForRoot, HashedForFile, Collision};

/// A root commits to the chunks. If two lists of chunks, neither empty, have the same root, they are the same list, or
/// two different messages that were hashed for them, one for each, have the same BLAKE3 hash.
///
/// The collision is one of *these* messages. That some two messages collide is true of every hash function, since there
/// are more messages than hashes, and says nothing.
pub fn roots_bind()
    ensures { (chunks others : List (List ℕ)) (root : List ℕ) → 0 < length chunks → 0 < length others →
        IsRoot (chunk_nodes chunks) root → IsRoot (chunk_nodes others) root →
        (chunks ≡ others) ⊎ Collision (HashedForRoot chunks) (HashedForRoot others) }
{}

/// A file hash commits to the chunks and to the salt. If two lists of chunks, neither empty, have the same file hash
/// under two salts, the lists and the salts are the same, or two different messages that were hashed for them, one for
/// each, have the same BLAKE3 hash. (An empty list has the default hash, whatever the salt.)
pub fn file_hashes_bind()
    ensures { (chunks others : List (List ℕ)) (salt other hash : List ℕ) → 0 < length chunks → 0 < length others →
        IsFileHash (chunk_nodes chunks) salt hash → IsFileHash (chunk_nodes others) other hash →
        ((chunks ≡ others) × (salt ≡ other)) ⊎ Collision (HashedForFile chunks salt) (HashedForFile others other) }
{}

/// The text of a group tells its nodes: two groups with the same text are the same group, if the sizes of one of them fit
/// 64 bits.
pub fn group_texts_tell_nodes()
    ensures { (group other : List Node) → All (λ node. IsHash node.0) group → All (λ node. IsHash node.0) other →
        All (λ node. node.1 < 2 ^ 64) group → group_text group ≡ group_text other → group ≡ other }
{}

//! The hasher of a file that a handle owns.

use xet_file::FileHasher;
use xet_merkle::merkle_hash_subtree::MerkleHashSubtree;

// A hasher of a file over subtrees, under a name without parameters.
#[derive(Drop)]
pub(crate) struct KeptFile {
    pub(crate) hasher: FileHasher<MerkleHashSubtree>,
}

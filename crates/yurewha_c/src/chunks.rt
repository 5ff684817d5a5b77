//! Chunks as C passes them.

ghost use Rattle.std.specs.Prelude.{◌≡◌, ◌↔◌, ◌^◌, ◌<◌, IsTrue};
ghost use Rattle.xet_merkle.specs.Roots.{total_size};
ghost use Rattle.yurewha_c.specs.Chunks.{node_of, nodes_of};

use crate::hash::Hash;
use xet_merkle::aggregated_hashes::Node;
use xet_merkle::as_node::{AsNode, total_size_of};

/// A chunk, or any other node of the tree: its hash, and its size in bytes.
#[derive(Clone, Copy)]
#[repr(C)]
pub struct Chunk {
    pub hash: Hash,
    pub size: u64,
}

impl AsNode for Chunk {
    ghost node_of = { node_of };

    fn node(&self) -> Node {
        (self.hash.value(), self.size)
    }
}

impl Chunk {
    // Converts a node of the library to C.
    pub(crate) fn of(node: &Node) -> Chunk
        ensures { node_of result ≡ node.now }
    {
        Chunk {
            hash: Hash::of(node.0),
            size: node.1,
        }
    }
}

// Returns whether the sizes add up to at most `u64::MAX`.
pub(crate) fn sizes_fit(chunks: &[Chunk]) -> bool
    ensures { IsTrue result ↔ (total_size (nodes_of chunks.now) < 2 ^ 64) }
{
    total_size_of(chunks).is_some()
}

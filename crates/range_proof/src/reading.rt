//! Checks data against nodes.

ghost use Rattle.std.specs.Prelude.{◌≡◌, ℕ, ◌↔◌, List, IsTrue};
ghost use Rattle.commitment.specs.Commitment.{chunk_node};
ghost use Rattle.range_proof.specs.RangeProof.{AreHashes, HasHashes};
ghost use Rattle.range_proof.specs.Reading.{AreChunksOf};

use crate::proof::RangeProof;
use level_nodes::levels::LevelNodes;
use std::alloc::Allocator;
use xet_hash::data_hash::compute_data_hash;
use xet_roots::aggregated_hashes::Node;

// Returns whether a node is that of a chunk with this data.
pub(crate) fn is_chunk(node: &Node, data: &[u8]) -> bool
    ensures { IsTrue result ↔ (node.now ≡ chunk_node «data».now) }
{
    let (hash, size) = *node;
    data.len() as u64 == size && compute_data_hash(data) == hash
}

// Returns whether some data is that of chunks with these nodes, one after another.
pub(crate) fn are_chunks(nodes: &[Node], data: &[u8]) -> bool
    ensures { IsTrue result ↔ ((chunks : List (List ℕ)) × AreChunksOf nodes.now «data».now chunks) }
{
    let mut rest = data;
    'chunks: for node in nodes {
        if (rest.len() as u64) < node.1 {
            return false;
        }
        let (chunk, after) = rest.split_at(node.1 as usize);
        if !is_chunk(node, chunk) {
            return false;
        }
        rest = after;
    }
    rest.is_empty()
}

// Shows a proof that the words of each node are those of a hash, by reading them.
fn read_words(nodes: &[Node])
    ensures { AreHashes nodes.now }
{
    'nodes: for node in nodes {
        let _words = node.0.words();
    }
}

// Shows a proof the same of the nodes on both sides of a level.
fn read_side_words<A: Allocator>(level: &LevelNodes<A>)
    ensures left { AreHashes level.now.left }
    ensures right { AreHashes level.now.right }
{
    read_words(level.left());
    read_words(level.right());
}

// Shows a proof the same of all nodes of a range proof.
pub(crate) fn read_all_words<A: Allocator>(proof: &RangeProof<A>)
    ensures { HasHashes proof.now }
{
    let chunks = proof.chunks();
    read_words(chunks);
    let levels = proof.levels();
    'levels: for level in levels {
        read_side_words(level);
    }
}

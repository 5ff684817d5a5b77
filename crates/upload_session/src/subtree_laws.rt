//! Laws that tie sessions to the kinds of ranges. Each function does nothing: its contract is the law.

ghost use Rattle.std.specs.Prelude.{◌≡◌, List, []};
ghost use Rattle.xet_roots.specs.Groups.{Node};
ghost use Rattle.xet_roots.specs.Roots.{total_size};
ghost use Rattle.subtree_levels.specs.Subtree.{Subtree};
ghost use Rattle.upload_session.specs.declared.kept_hashes.SeenHashes.{SeenHashes};
ghost use Rattle.upload_session.specs.Hashes.{hashes_of, Knows};
ghost use Rattle.upload_session.specs.Session.{Parts, Placed, PlacedRun, chunks_of, size_of_runs, HaveOneRange, KeepsKnown, LearnsHashes, StandFor};
ghost use Rattle.upload_session.specs.Sizes.{HaveChunkSizes};

use crate::kept_hashes::{KeptHashes, SeenHashes};
use chunk_ranges::chunk_range::ChunkRange;
use chunk_ranges::plain_range::PlainRange;
use std::alloc::Allocator;
use xet_merkle::merkle_hash_subtree::MerkleHashSubtree;

/// A session can be saved and restored. If a session has the same runs as another, and its size is the sum of the sizes
/// of its ranges, then it stands for what the other stands for, and its size is the sum of the sizes of these chunks. A
/// new session comes to this by `push_run` of each run in order. If it also gets the known hashes of the other, by
/// `keep_hashes`, then it knows exactly the hashes that the other knows.
pub fn sessions_can_be_restored<A: Allocator + Clone>()
    ensures stands { (saved restored : Parts Subtree (SeenHashes A)) (placed : List Placed) →
        StandFor ⟦<MerkleHashSubtree<A> as ChunkRange>⟧ saved.runs placed →
        restored.runs ≡ saved.runs →
        restored.size ≡ size_of_runs ⟦<MerkleHashSubtree<A> as ChunkRange>⟧ restored.runs →
        StandFor ⟦<MerkleHashSubtree<A> as ChunkRange>⟧ restored.runs placed
        × (restored.size ≡ total_size (chunks_of placed)) }
    ensures hashes { (saved new restored : Parts Subtree (SeenHashes A)) (chunks : List Node) →
        Knows new.kept [] → Knows saved.kept (hashes_of chunks) →
        LearnsHashes ⟦<SeenHashes<A> as KeptHashes<A>>⟧ new.kept chunks restored.kept →
        KeepsKnown ⟦<SeenHashes<A> as KeptHashes<A>>⟧ saved.kept restored.kept }
{}

/// Each subtree has the size of the chunks that it stands for, and so has each plain range. So in every state the size
/// of a session over them is the sum of the sizes of its chunks.
pub fn ranges_have_the_sizes_of_their_chunks<A: Allocator + Clone>()
    ensures subtrees { HaveChunkSizes ⟦<MerkleHashSubtree<A> as ChunkRange>⟧ }
    ensures plain { HaveChunkSizes ⟦<PlainRange<A> as ChunkRange>⟧ }
{}

/// Chunks have one subtree under the same marks. So two sessions over subtrees that stand for the same chunks have the
/// same runs, with equal subtrees, whether they came to them by puts, by `put_range`, by `join` or by `push_run`, and in
/// whatever order.
pub fn chunks_tell_the_subtrees<A: Allocator + Clone>()
    ensures subtrees { HaveOneRange ⟦<MerkleHashSubtree<A> as ChunkRange>⟧ }
    ensures runs { (runs others : List (PlacedRun Subtree)) (placed : List Placed) →
        StandFor ⟦<MerkleHashSubtree<A> as ChunkRange>⟧ runs placed →
        StandFor ⟦<MerkleHashSubtree<A> as ChunkRange>⟧ others placed → runs ≡ others }
{}

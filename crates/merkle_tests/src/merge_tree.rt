//! Trees of merges over several kinds of range.

ghost use Rattle.std.specs.Prelude.{◌≡◌};
ghost use Rattle.xet_merkle.specs.Roots.{total_size};

use std::alloc::Global;
use std::process::Abort;
use test_support::trees::{BRACKETINGS, four_ranges, merge, tree};
use test_support::{EACH_FOURTH, with_cuts};
use xet_hash::data_hash::MerkleHash;
use xet_merkle::CoreError;
use xet_merkle::aggregated_hashes::{Node, xorb_hash};
use xet_merkle::chunk_range::ChunkRange;
use xet_merkle::merge_tree::MergeTree;
use xet_merkle::merkle_hash_subtree::MerkleHashSubtree;
use xet_merkle::plain_range::PlainRange;

// A range that counts the merges that made it, and how deep they go. It wraps a range that keeps its chunks.
#[derive(Drop)]
struct CountedRange {
    plain: PlainRange,
    merges: u32,
    depth: u32,
}

impl ChunkRange for CountedRange {
    type Alloc = Global;

    ghost stands = { λ range chunks. range.plain.chunks ≡ chunks };

    ghost start = { λ range. range.plain.at_start };

    ghost end = { λ range. range.plain.at_end };

    ghost total = { λ range. total_size range.plain.chunks };

    fn from_chunks(
        alloc: Global,
        at_start: bool,
        chunks: &[Node],
        at_end: bool,
    ) -> Result<Self, CoreError> {
        Ok(CountedRange {
            plain: PlainRange::from_chunks(alloc, at_start, chunks, at_end)?,
            merges: 0,
            depth: 0,
        })
    }

    fn at_start(&self) -> bool {
        self.plain.at_start()
    }

    fn at_end(&self) -> bool {
        self.plain.at_end()
    }

    fn total_size(&self) -> u64 {
        self.plain.total_size()
    }

    fn join(&mut self, back: &Self) -> Result<(), CoreError> {
        self.plain.join(&back.plain)?;
        self.merges = self.merges.wrapping_add(back.merges).wrapping_add(1);
        self.depth = self.depth.max(back.depth).wrapping_add(1);
        Ok(())
    }

    fn root(&self) -> Result<Option<MerkleHash>, CoreError> {
        self.plain.root()
    }
}

fn run<R: ChunkRange<Alloc = Global>>(rt: &impl Abort, alloc: Global, bracketing: &str) -> R {
    let ranges = four_ranges(alloc).expect(rt, "four ranges");
    let tree = tree(alloc, bracketing, ranges).expect(rt, "memory");
    tree.expect(rt, "a tree").run().expect(rt, "a range")
}

// Returns whether four ranges of a kind have a root, merged under a bracketing.
fn has_root<R: ChunkRange<Alloc = Global>>(
    rt: &impl Abort,
    alloc: Global,
    bracketing: &str,
    root: MerkleHash,
) -> bool {
    let range: R = run(rt, alloc, bracketing);
    range.root() == Ok(Some(root))
}

// Returns how many merges make four ranges one under a bracketing, and how deep they go.
fn merges_and_depth(rt: &impl Abort, alloc: Global, bracketing: &str) -> (u32, u32) {
    let counted: CountedRange = run(rt, alloc, bracketing);
    (counted.merges, counted.depth)
}

#[test]
fn ranges_of_each_kind_have_the_root(rt: HostRuntime) {
    let root = xorb_hash(rt.alloc(), &with_cuts::<28>(&EACH_FOURTH)).expect(&rt, "a root");
    for (bracketing, depth) in BRACKETINGS {
        let have_root = has_root::<CountedRange>(&rt, rt.alloc(), bracketing, root)
            && has_root::<PlainRange>(&rt, rt.alloc(), bracketing, root)
            && has_root::<MerkleHashSubtree>(&rt, rt.alloc(), bracketing, root);
        let found = merges_and_depth(&rt, rt.alloc(), bracketing);
        assert!(rt; have_root && found == (3, depth), "{bracketing}");
    }
}

// Returns a tree of `merges` merges of empty ranges. Each is the front of the next one, or its back.
fn leaning(rt: &impl Abort, alloc: Global, merges: u32, is_front: bool) -> MergeTree<CountedRange> {
    let range = CountedRange::from_chunks(alloc, false, &[], false).expect(rt, "a range");
    let mut tree = MergeTree::Leaf(range);
    for _ in 0..merges {
        let range = CountedRange::from_chunks(alloc, false, &[], false).expect(rt, "a range");
        let leaf = MergeTree::Leaf(range);
        let merged = if is_front {
            merge(alloc, tree, leaf)
        } else {
            merge(alloc, leaf, tree)
        };
        tree = merged.expect(rt, "memory");
    }
    tree
}

#[test]
fn trees_of_great_depth_are_run(rt: HostRuntime) {
    for is_front in [true, false] {
        let tree = leaning(&rt, rt.alloc(), 100_000, is_front);
        let range = tree.run().expect(&rt, "a range");
        assert!(rt;
            (range.merges, range.depth) == (100_000, 100_000),
            "{is_front}"
        );
    }
}

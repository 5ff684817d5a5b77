//! Ranges of chunks of each kind, their merges and trees.

use super::{Call, Chunks, Outcome, Refusing, outcome_of};
use serde_json::Value;
use std::alloc::Global;
use std::process::Abort;
use test_support::texts::with_hashes;
use upload_session::range_fault::RangeFault;
use upload_session::session::SessionOf;
use xet_merkle::CoreError;
use xet_merkle::aggregated_hashes::{Node, file_hash, xorb_hash};
use xet_merkle::chunk_range::{ChunkRange, hashes_of_open};
use xet_merkle::merge_tree::MergeTree;
use xet_merkle::merkle_hash_subtree::MerkleHashSubtree;
use xet_merkle::parent_maker::{ParentHashes, ParentMaker};
use xet_merkle::plain_range::PlainRange;

/// A kind of range whose values can be compared.
pub trait Kind: ChunkRange {
    /// Returns whether two ranges are equal.
    fn equals(&self, other: &Self) -> bool;

    /// Joins a session to another. Plain ranges can't be copied, so sessions of them can't be joined.
    fn joined(session: &mut SessionOf<Self>, other: &SessionOf<Self>) -> Result<u64, RangeFault>;
}

impl Kind for MerkleHashSubtree<&Refusing> {
    fn equals(&self, other: &Self) -> bool {
        self == other
    }

    fn joined(session: &mut SessionOf<Self>, other: &SessionOf<Self>) -> Result<u64, RangeFault> {
        session.join(other)
    }
}

impl Kind for PlainRange<&Refusing> {
    fn equals(&self, other: &Self) -> bool {
        self.at_start() == other.at_start()
            && self.chunks() == other.chunks()
            && self.at_end() == other.at_end()
            && self.total_size() == other.total_size()
    }

    fn joined(_session: &mut SessionOf<Self>, _other: &SessionOf<Self>) -> Result<u64, RangeFault> {
        Err(RangeFault::Range)
    }
}

// Returns the range of some chunks.
fn range<'a, R: Kind<Alloc = &'a Refusing>>(
    alloc: &'a Refusing,
    chunks: &Chunks<'_>,
) -> Result<R, CoreError> {
    R::from_chunks(alloc, chunks.at_start, chunks.nodes, chunks.at_end)
}

// Returns the subtree of some chunks.
fn subtree<'a>(
    rt: &impl Abort,
    alloc: &'a Refusing,
    chunks: &Chunks<'_>,
) -> MerkleHashSubtree<&'a Refusing> {
    MerkleHashSubtree::from_chunks(alloc, chunks.at_start, chunks.nodes, chunks.at_end).expect(
        rt,
        "a subtree",
    )
}

// Returns how a call ended that should return a range.
fn range_outcome<'a, R: Kind<Alloc = &'a Refusing>>(
    alloc: &Refusing,
    answer: Result<R, CoreError>,
    expected: &R,
    is_same: bool,
) -> Outcome {
    match answer {
        Ok(range) => outcome_of(alloc, Ok(range.equals(expected)), is_same),
        Err(error) => outcome_of(alloc, Err(error), is_same),
    }
}

// Tries to make the range of some chunks.
fn from_chunks<'a, R: Kind<Alloc = &'a Refusing>>(
    rt: &impl Abort,
    alloc: &'a Refusing,
    granted: u32,
    chunks: &Chunks<'_>,
) -> Outcome {
    let expected: R = range(alloc, chunks).expect(rt, "a range");
    let before = chunks.nodes.to_vec(chunks.alloc).expect(rt, "memory");
    alloc.grant(granted);
    let answer = range(alloc, chunks);
    let is_same = chunks.nodes == before.as_slice();
    range_outcome(alloc, answer, &expected, is_same)
}

// Tries to copy the subtree of some chunks.
fn try_clone(rt: &impl Abort, alloc: &Refusing, granted: u32, chunks: &Chunks<'_>) -> Outcome {
    let subtree = subtree(rt, alloc, chunks);
    let before = subtree.try_clone().expect(rt, "memory");
    alloc.grant(granted);
    let answer = subtree.try_clone();
    range_outcome(alloc, answer, &before, subtree == before)
}

// Returns whether a call merges a range into the one before it, and returns the number of parents if it counts them.
fn merges<'a>(
    call: Call,
    front: &mut MerkleHashSubtree<&'a Refusing>,
    back: &MerkleHashSubtree<&'a Refusing>,
    count: u128,
) -> Result<bool, CoreError> {
    match call {
        Call::MergeIntoCounted => Ok(front.merge_into_counted(back)? == count),
        Call::MergeIntoBy => { Ok(front.merge_into_by(back, ParentHashes::new())?.made() == count) }
        _ => {
            front.merge_into(back)?;
            Ok(true)
        }
    }
}

// Two subtrees, the front one first.
type Pair<'a> = (
    MerkleHashSubtree<&'a Refusing>,
    MerkleHashSubtree<&'a Refusing>,
);

// Returns the subtrees of two lists of chunks.
fn both<'a>(rt: &impl Abort, alloc: &'a Refusing, parts: &[Chunks<'_>; 2]) -> Pair<'a> {
    let [first, second] = parts;
    (subtree(rt, alloc, first), subtree(rt, alloc, second))
}

// Returns what the subtrees of two lists of chunks merge to, and how many parents that hashes.
fn merged<'a>(
    rt: &impl Abort,
    alloc: &'a Refusing,
    parts: &[Chunks<'_>; 2],
) -> (MerkleHashSubtree<&'a Refusing>, u128) {
    let (mut front, back) = both(rt, alloc, parts);
    let count = front.merge_into_counted(&back).expect(rt, "a merge");
    (front, count)
}

// Tries to merge the second of two lists of chunks into the first.
fn merge_into(
    rt: &impl Abort,
    call: Call,
    alloc: &Refusing,
    granted: u32,
    parts: &[Chunks<'_>; 2],
) -> Outcome {
    let (merged, count) = merged(rt, alloc, parts);
    let (front_before, back_before) = both(rt, alloc, parts);
    let (mut front, back) = both(rt, alloc, parts);
    alloc.grant(granted);
    let answer = merges(call, &mut front, &back, count);
    let is_merged = front == merged;
    let is_same = front == front_before && back == back_before;
    outcome_of(alloc, answer.map(|is_right| is_right && is_merged), is_same)
}

// Returns the subtrees of three parts of some chunks.
fn thirds<'a>(
    rt: &impl Abort,
    alloc: &'a Refusing,
    chunks: &Chunks<'_>,
) -> [MerkleHashSubtree<&'a Refusing>; 3] {
    let [first, rest] = chunks.split(chunks.nodes.len() / 3);
    let [second, third] = rest.split(rest.nodes.len() / 2);
    [
        subtree(rt, alloc, &first),
        subtree(rt, alloc, &second),
        subtree(rt, alloc, &third),
    ]
}

// Tries to merge the subtrees of three parts of some chunks.
fn merge(rt: &impl Abort, alloc: &Refusing, granted: u32, chunks: &Chunks<'_>) -> Outcome {
    let expected = subtree(rt, alloc, chunks);
    let (ranges, before) = (thirds(rt, alloc, chunks), thirds(rt, alloc, chunks));
    alloc.grant(granted);
    let answer = MerkleHashSubtree::merge(alloc, &ranges);
    range_outcome(alloc, answer, &expected, ranges == before)
}

// Returns the ranges of two parts of some chunks.
fn parts<'a, R: Kind<Alloc = &'a Refusing>>(
    rt: &impl Abort,
    alloc: &'a Refusing,
    chunks: &Chunks<'_>,
) -> (R, R) {
    let [first, second] = chunks.split(100);
    (
        range(alloc, &first).expect(rt, "a range"),
        range(alloc, &second).expect(rt, "a range"),
    )
}

// Tries to merge two parts of some chunks by [`ChunkRange::join`].
fn join<'a, R: Kind<Alloc = &'a Refusing>>(
    rt: &impl Abort,
    alloc: &'a Refusing,
    granted: u32,
    chunks: &Chunks<'_>,
) -> Outcome {
    let expected: R = range(alloc, chunks).expect(rt, "a range");
    let (front_before, back_before): (R, R) = parts(rt, alloc, chunks);
    let (mut front, back): (R, R) = parts(rt, alloc, chunks);
    alloc.grant(granted);
    let answer = front.join(&back);
    let is_same = front.equals(&front_before) && back.equals(&back_before);
    match answer {
        Ok(()) => outcome_of(alloc, Ok(front.equals(&expected)), is_same),
        Err(error) => outcome_of(alloc, Err(error), is_same),
    }
}

// Tries to merge two parts of some chunks by [`ChunkRange::prepend`].
fn prepend<'a, R: Kind<Alloc = &'a Refusing>>(
    rt: &impl Abort,
    alloc: &'a Refusing,
    granted: u32,
    chunks: &Chunks<'_>,
) -> Outcome {
    let expected: R = range(alloc, chunks).expect(rt, "a range");
    let (_, before): (R, R) = parts(rt, alloc, chunks);
    let (front, mut back): (R, R) = parts(rt, alloc, chunks);
    alloc.grant(granted);
    let answer = back.prepend(front);
    let is_same = back.equals(&before);
    match answer {
        Ok(()) => outcome_of(alloc, Ok(back.equals(&expected)), is_same),
        Err(error) => outcome_of(alloc, Err(error), is_same),
    }
}

// Tries to get the root and the file hash of some chunks, whose ends are open.
fn hashes<'a, R: Kind<Alloc = &'a Refusing>>(
    rt: &impl Abort,
    alloc: &'a Refusing,
    granted: u32,
    chunks: &Chunks<'_>,
) -> Outcome {
    let [open, _] = chunks.split(chunks.nodes.len());
    let open = Chunks {
        at_start: false,
        ..open
    };
    let expected = (
        xorb_hash(chunks.alloc, open.nodes).expect(rt, "a hash"),
        file_hash(chunks.alloc, open.nodes).expect(rt, "a hash"),
    );
    let (range, before): (R, R) = (
        range(alloc, &open).expect(rt, "a range"),
        range(alloc, &open).expect(rt, "a range"),
    );
    alloc.grant(granted);
    let answer = match hashes_of_open(&alloc, Some(&range)) {
        Ok(hashes) => Ok(hashes == expected),
        Err(error) => Err(error),
    };
    let is_same = range.equals(&before);
    outcome_of(alloc, answer, is_same)
}

// Tries to get the root of some chunks.
fn root<'a, R: Kind<Alloc = &'a Refusing>>(
    rt: &impl Abort,
    alloc: &'a Refusing,
    granted: u32,
    chunks: &Chunks<'_>,
) -> Outcome {
    let expected = xorb_hash(alloc, chunks.nodes).expect(rt, "a hash");
    let (range, before): (R, R) = (
        range(alloc, chunks).expect(rt, "a range"),
        range(alloc, chunks).expect(rt, "a range"),
    );
    alloc.grant(granted);
    let answer = range.root();
    let is_same = range.equals(&before);
    match answer {
        Ok(root) => outcome_of(alloc, Ok(root == Some(expected)), is_same),
        Err(error) => outcome_of(alloc, Err(error), is_same),
    }
}

// Returns the range of some chunks, as a tree without merges.
fn leaf<'a, R: Kind<Alloc = &'a Refusing>>(
    rt: &impl Abort,
    alloc: &'a Refusing,
    chunks: &Chunks<'_>,
) -> Box<MergeTree<R>> {
    let range = range(alloc, chunks).expect(rt, "a range");
    Box::new(chunks.alloc, MergeTree::Leaf(range)).expect(rt, "memory")
}

// Tries to merge three parts of some chunks. The last two are merged first.
fn run<'a, R: Kind<Alloc = &'a Refusing>>(
    rt: &impl Abort,
    alloc: &'a Refusing,
    granted: u32,
    chunks: &Chunks<'_>,
) -> Outcome {
    let [first, rest] = chunks.split(60);
    let [second, third] = rest.split(70);
    let merged = MergeTree::Join(leaf(rt, alloc, &second), leaf(rt, alloc, &third));
    let merged = Box::new(chunks.alloc, merged).expect(rt, "memory");
    let tree: MergeTree<R> = MergeTree::Join(leaf(rt, alloc, &first), merged);
    let expected: R = range(alloc, chunks).expect(rt, "a range");
    alloc.grant(granted);
    range_outcome(alloc, tree.run(), &expected, true)
}

// How many left and right nodes each level of a subtree has, and all of its nodes.
type FlatLists<'a> = (Vec<(usize, usize), &'a Refusing>, Vec<Node, &'a Refusing>);

// Returns the flat lists of a subtree.
fn flat_lists<'a>(
    rt: &impl Abort,
    alloc: &'a Refusing,
    subtree: &MerkleHashSubtree<&'a Refusing>,
) -> FlatLists<'a> {
    let (mut counts, mut nodes) = (Vec::new(alloc), Vec::new(alloc));
    for level in 0..subtree.num_levels() {
        let (left, right) = (subtree.left(level), subtree.right(level));
        counts.push((left.len(), right.len())).expect(rt, "memory");
        nodes.extend_from_slice(left).expect(rt, "memory");
    }
    for level in (0..subtree.num_levels()).rev() {
        nodes
            .extend_from_slice(subtree.right(level))
            .expect(rt, "memory");
    }
    (counts, nodes)
}

// Tries to make the subtree of some chunks from its flat lists.
fn from_flat(rt: &impl Abort, alloc: &Refusing, granted: u32, chunks: &Chunks<'_>) -> Outcome {
    let expected = subtree(rt, alloc, chunks);
    let (counts, nodes) = flat_lists(rt, alloc, &expected);
    alloc.grant(granted);
    let answer = MerkleHashSubtree::from_flat(alloc, chunks.at_start, counts, nodes, chunks.at_end);
    range_outcome(alloc, answer, &expected, true)
}

// Tries to read the JSON value of the subtree of some chunks.
fn from_json(rt: &impl Abort, alloc: &Refusing, granted: u32, chunks: &Chunks<'_>) -> Outcome {
    let expected = subtree(rt, alloc, chunks);
    let value = expected.to_json(chunks.alloc).expect(rt, "memory");
    let before = expected.to_json(chunks.alloc).expect(rt, "memory");
    alloc.grant(granted);
    let answer = MerkleHashSubtree::from_json(alloc, &value);
    range_outcome(alloc, answer, &expected, value == before)
}

// The kinds of range that take memory from the allocator of these tests.
type Subtree<'a> = MerkleHashSubtree<&'a Refusing>;

type Plain<'a> = PlainRange<&'a Refusing>;

/// Tries a call on the range of some chunks.
pub fn attempt(
    rt: &impl Abort,
    call: Call,
    alloc: &Refusing,
    granted: u32,
    chunks: &Chunks<'_>,
) -> Outcome {
    match call {
        Call::FromChunks => from_chunks::<Subtree<'_>>(rt, alloc, granted, chunks),
        Call::FromChunksPlain => from_chunks::<Plain<'_>>(rt, alloc, granted, chunks),
        Call::TryClone => try_clone(rt, alloc, granted, chunks),
        Call::MergeAt(place) => merge_into(rt, call, alloc, granted, &chunks.split(place)),
        Call::Merge => merge(rt, alloc, granted, chunks),
        Call::JoinSubtree => join::<Subtree<'_>>(rt, alloc, granted, chunks),
        Call::JoinPlain => join::<Plain<'_>>(rt, alloc, granted, chunks),
        Call::PrependSubtree => prepend::<Subtree<'_>>(rt, alloc, granted, chunks),
        Call::PrependPlain => prepend::<Plain<'_>>(rt, alloc, granted, chunks),
        Call::RootOfPlain => root::<Plain<'_>>(rt, alloc, granted, chunks),
        Call::HashesOfSubtree => hashes::<Subtree<'_>>(rt, alloc, granted, chunks),
        Call::HashesOfPlain => hashes::<Plain<'_>>(rt, alloc, granted, chunks),
        Call::RunSubtrees => run::<Subtree<'_>>(rt, alloc, granted, chunks),
        Call::RunPlain => run::<Plain<'_>>(rt, alloc, granted, chunks),
        Call::FromJson => from_json(rt, alloc, granted, chunks),
        Call::FromFlat => from_flat(rt, alloc, granted, chunks),
        _ => merge_into(
            rt,
            call,
            alloc,
            granted,
            &chunks.split(chunks.nodes.len() / 2),
        ),
    }
}

/// JSON texts of no subtree, each after the rule that it breaks. Reading them takes memory. The last two are wrong
/// forms of the subtree of 24 nodes, each fourth of which is a natural cut: there is a stable point among the left
/// nodes of one, and the right nodes of the other aren't natural cuts.
pub const BROKEN_JSON: &str =
    r#"3|{"at_end":false,"at_start":false,"levels":[[1,0]],"nodes":[{"hash":"h1","size":-1}]}
4|{"at_end":false,"at_start":false,"levels":[[1]],"nodes":[{"hash":"h1","size":1}]}
5|{"at_end":false,"at_start":false,"levels":[],"nodes":[{"hash":"h1","size":1}]}
6|{"at_end":false,"at_start":false,"levels":[[1,0]],"nodes":[]}
7|{"at_end":false,"at_start":false,"levels":[[2,0]],"nodes":[{"hash":"h1","size":18446744073709551615},{"hash":"h2","size":1}]}
8|{"at_end":false,"at_start":false,"levels":[[0,1]],"nodes":[{"hash":"h1","size":1}]}
9|{"at_end":false,"at_start":true,"levels":[[1,0],[1,0]],"nodes":[{"hash":"h1","size":1},{"hash":"h2","size":1}]}
10|{"at_end":true,"at_start":true,"levels":[[2,0]],"nodes":[{"hash":"h1","size":1},{"hash":"h2","size":1}]}
11|{"at_end":false,"at_start":false,"levels":[[0,0],[0,0]],"nodes":[]}
12|{"at_end":false,"at_start":false,"levels":[[1,0],[1,0]],"nodes":[{"hash":"h1","size":1},{"hash":"h2","size":1}]}
13|{"at_end":false,"at_start":true,"levels":[[0,1],[1,0]],"nodes":[{"hash":"h1","size":1},{"hash":"h2","size":1}]}
12|{"at_end":false,"at_start":false,"levels":[[16,0],[2,0]],"nodes":[{"hash":"0000000000000000000000000000000000000000000000000000000000000001","size":1},{"hash":"0000000000000001000000000000000000000000000000000000000000000001","size":1},{"hash":"0000000000000002000000000000000000000000000000000000000000000001","size":1},{"hash":"0000000000000003000000000000000000000000000000000000000000000000","size":1},{"hash":"0000000000000004000000000000000000000000000000000000000000000001","size":1},{"hash":"0000000000000005000000000000000000000000000000000000000000000001","size":1},{"hash":"0000000000000006000000000000000000000000000000000000000000000001","size":1},{"hash":"0000000000000007000000000000000000000000000000000000000000000000","size":1},{"hash":"0000000000000010000000000000000000000000000000000000000000000001","size":1},{"hash":"0000000000000011000000000000000000000000000000000000000000000001","size":1},{"hash":"0000000000000012000000000000000000000000000000000000000000000001","size":1},{"hash":"0000000000000013000000000000000000000000000000000000000000000000","size":1},{"hash":"0000000000000014000000000000000000000000000000000000000000000001","size":1},{"hash":"0000000000000015000000000000000000000000000000000000000000000001","size":1},{"hash":"0000000000000016000000000000000000000000000000000000000000000001","size":1},{"hash":"0000000000000017000000000000000000000000000000000000000000000000","size":1},{"hash":"c766feb0be4b62597c1be56c1aa297274545e8e94fcc313313ccfb684e123649","size":4},{"hash":"ce79d67ad718dac0b301672e7f29024f181900ce3c6becb11e085604932e7ac0","size":4}]}
13|{"at_end":false,"at_start":false,"levels":[[8,4],[3,0]],"nodes":[{"hash":"0000000000000000000000000000000000000000000000000000000000000001","size":1},{"hash":"0000000000000001000000000000000000000000000000000000000000000001","size":1},{"hash":"0000000000000002000000000000000000000000000000000000000000000001","size":1},{"hash":"0000000000000003000000000000000000000000000000000000000000000000","size":1},{"hash":"0000000000000004000000000000000000000000000000000000000000000001","size":1},{"hash":"0000000000000005000000000000000000000000000000000000000000000001","size":1},{"hash":"0000000000000006000000000000000000000000000000000000000000000001","size":1},{"hash":"0000000000000007000000000000000000000000000000000000000000000000","size":1},{"hash":"c766feb0be4b62597c1be56c1aa297274545e8e94fcc313313ccfb684e123649","size":4},{"hash":"ce79d67ad718dac0b301672e7f29024f181900ce3c6becb11e085604932e7ac0","size":4},{"hash":"9be3facbaae4494a9a611ede3da9f8841fa048519e0124dd2694e5605c29b2a8","size":4},{"hash":"0000000000000014000000000000000000000000000000000000000000000001","size":1},{"hash":"0000000000000015000000000000000000000000000000000000000000000001","size":1},{"hash":"0000000000000016000000000000000000000000000000000000000000000001","size":1},{"hash":"0000000000000017000000000000000000000000000000000000000000000001","size":1}]}"#;

// Returns the JSON value of a text in which h1 and h2 stand for hashes.
fn json_value(rt: &impl Abort, memory: Global, text: &str) -> Value {
    let text = with_hashes(memory, text).expect(rt, "memory");
    Value::from_str(memory, &text).expect(rt, "a value")
}

/// Tries to read the JSON value of a row, which breaks the row's rule.
pub fn from_broken_json(
    rt: &impl Abort,
    alloc: &Refusing,
    granted: u32,
    memory: Global,
    row: &str,
) -> Outcome {
    let (rule, text) = row.split_once('|').expect(rt, "two fields");
    let refusal = CoreError::InvalidJson(rule.parse().expect(rt, "a number"));
    let (value, before) = (json_value(rt, memory, text), json_value(rt, memory, text));
    alloc.grant(granted);
    let answer = match MerkleHashSubtree::from_json(alloc, &value) {
        Err(error) if error == refusal => Ok(true),
        Err(error) => Err(error),
        Ok(_) => Ok(false),
    };
    outcome_of(alloc, answer, value == before)
}

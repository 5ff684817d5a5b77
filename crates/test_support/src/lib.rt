//! What tests of several crates share: random nodes and lists, lists with given natural cuts, ranges, and summaries of
//! subtrees.
#![tactic(auto)]

pub mod texts;
pub mod trees;

use rand_core::{Rng, SeedableRng};
use rand_xoshiro::Xoshiro256PlusPlus;
use serde_json::Value;
use std::alloc::{AllocError, Allocator, Global};
use std::fmt::Write;
use xet_hash::data_hash::{DataHash, MerkleHash, compute_data_hash};
use xet_merkle::CoreError;
use xet_merkle::aggregated_hashes::Node;
use xet_merkle::as_node::AsNode;
use xet_merkle::merkle_hash_subtree::MerkleHashSubtree;

/// All choices of a start mark and an end mark.
pub const MARKS: [(bool, bool); 4] = [(false, false), (true, false), (false, true), (true, true)];

/// Returns a random hash, with a size from 100 to 9999.
pub fn drawn_node(generator: &mut Xoshiro256PlusPlus) -> Node {
    let hash = DataHash::random_from_seed(generator.next_u64());
    (hash, generator.next_u64() % 9900 + 100)
}

/// Returns `count` random nodes.
pub fn drawn_list(
    generator: &mut Xoshiro256PlusPlus,
    alloc: Global,
    count: u64,
) -> Result<Vec<Node>, AllocError> {
    let mut nodes = Vec::new(alloc);
    for _ in 0..count {
        nodes.push(drawn_node(generator))?;
    }
    Ok(nodes)
}

/// Returns `count` nodes with random hashes and sizes below 1000. On average `cuts_in_four` of four nodes are natural
/// cuts.
pub fn drawn_nodes(
    generator: &mut Xoshiro256PlusPlus,
    alloc: Global,
    count: usize,
    cuts_in_four: u64,
) -> Result<Vec<Node>, AllocError> {
    let mut nodes = Vec::new(alloc);
    for _ in 0..count {
        let hash = DataHash::random_from_seed(generator.next_u64());
        let is_cut = generator.next_u64() % 4 < cuts_in_four;
        nodes.push((with_cut(hash, is_cut), generator.next_u64() % 1000))?;
    }
    Ok(nodes)
}

/// A node in a form that isn't the library's.
#[derive(Clone, Copy)]
pub struct OwnNode {
    size: u64,
    hash: MerkleHash,
}

impl AsNode for OwnNode {
    ghost node_of = { λ own. (own.hash, own.size) };

    fn node(&self) -> Node {
        (self.hash, self.size)
    }
}

/// Returns some nodes in that form.
pub fn own_nodes(alloc: Global, nodes: &[Node]) -> Result<Vec<OwnNode>, AllocError> {
    let mut own = Vec::new(alloc);
    for (hash, size) in nodes {
        own.push(OwnNode {
            size: *size,
            hash: *hash,
        })?;
    }
    Ok(own)
}

/// Returns nodes of size 1. Those at the given indices are natural cuts.
pub fn with_cuts<const N: usize>(cuts: &[u64]) -> [Node; N] {
    let mut nodes = [(MerkleHash::default(), 1); N];
    let mut number = 0;
    for node in nodes.iter_mut() {
        let is_cut = cuts.contains(&number);
        node.0 = MerkleHash::from([number, 0, 0, u64::from(!is_cut)]);
        number = number.saturating_add(1);
    }
    nodes
}

/// The JSON text of the closed subtree of no pairs.
pub const NO_PAIRS: &str = "{\"at_end\":true,\"at_start\":true,\"levels\":[[0,0]],\"nodes\":[]}";

/// The indices of natural cuts at each fourth node.
pub const EACH_FOURTH: [u64; 7] = [3, 7, 11, 15, 19, 23, 27];

/// Returns whether each level of a subtree has these numbers of left and right nodes.
pub fn has_counts<A: Allocator>(subtree: &MerkleHashSubtree<A>, counts: &[(usize, usize)]) -> bool {
    let mut total = 0usize;
    for (level, (left, right)) in counts.iter().enumerate() {
        if subtree.left(level).len() != *left || subtree.right(level).len() != *right {
            return false;
        }
        total = total.saturating_add(*left).saturating_add(*right);
    }
    subtree.num_levels() == counts.len()
        && subtree.num_nodes() == total
        && subtree.is_empty() == (total == 0)
        && subtree.left(counts.len()).is_empty()
        && subtree.right(usize::MAX).is_empty()
}

// A list has fewer nodes than this. Lists take these bounds in turn.
const LENGTHS: [u64; 5] = [10, 40, 100, 300, 1000];

// The gaps from one natural cut to the next. A list draws each of its gaps from a table. With `None`, natural cuts are
// where the random hashes have them. Lists take these tables in turn.
const GAPS: [Option<[u64; 8]>; 7] = [
    None,
    Some([3, 4, 5, 6, 7, 3, 5, 7]),
    Some([3, 7, 3, 7, 3, 7, 3, 7]),
    Some([2, 3, 7, 8, 2, 3, 7, 8]),
    Some([3, 4, 5, 6, 8, 9, 10, 19]),
    Some([1, 2, 3, 4, 5, 6, 7, 9]),
    Some([1, 1, 2, 1, 1, 4, 1, 1]),
];

/// Returns a hash with some of its bits changed, so that it is a natural cut if `is_cut` is set, and none otherwise.
pub fn with_cut(hash: MerkleHash, is_cut: bool) -> MerkleHash {
    let [first, second, third, last] = hash.words();
    let cut = last & !3;
    let last = if is_cut { cut } else { last.max(cut | 1) };
    MerkleHash::from([first, second, third, last])
}

/// Returns the list of a number. Its natural cuts are at random gaps or places.
pub fn numbered_list(alloc: Global, number: u64) -> Result<Vec<Node>, AllocError> {
    let mut generator = Xoshiro256PlusPlus::seed_from_u64(number);
    let gaps = GAPS[(number % 7) as usize];
    let count = generator.next_u64() % LENGTHS[(number % 5) as usize];
    let mut nodes = Vec::new(alloc);
    let mut until_cut = 0u64;
    for _ in 0..count {
        let mut hash = DataHash::random_from_seed(generator.next_u64());
        let size = generator.next_u64() >> (generator.next_u64() % 50 + 14);
        if let Some(gaps) = gaps {
            if until_cut == 0 {
                until_cut = gaps[(generator.next_u64() % 8) as usize];
            }
            until_cut = until_cut.saturating_sub(1);
            hash = with_cut(hash, until_cut == 0);
        }
        nodes.push((hash, size))?;
    }
    Ok(nodes)
}

// The chunks of the reference lists, each with its number, its hash, and its size in bytes.
const CHUNKS: &str = "0 0000000000000000000000000000000000000000000000000000000000000000 0
1 cfc5d07f6f03c29bbf424132963fe08d19a37d5757aaf520bf08119f05cd56d6 100
2 c3e67584b5c4fc2a89837ec39e40f2c8a6bb0b2987ac94cd4b31e5fbdd210a72 200
3 0d2beb91b9196929a5ddec9f6e306924ddf4a24268e3e59fd8464738d525af37 300
4 adf8773496a9b7319b2e50dc98093f344053b17d8ad37100b9c07d9805988784 400
5 4ac202caf347fc1e9c874b1ef6a1c5e619141eb775a6f43f0f0124ccd0060d9e 500
6 b3b28636f65c149ea52eb1f94669466f70f033b54cea792824c696ba6ef3c389 600
7 0e2c1a002aae913d2c0fc8ddfa4e9e14b7b311b3b0d458726d5d9f6a6318013c 700
";

/// Returns the reference chunk of a number, if there is one.
pub fn reference_chunk(number: &str) -> Option<Node> {
    for row in CHUNKS.lines() {
        let mut columns = row.split(' ');
        if columns.next() == Some(number) {
            let hash = DataHash::from_hex(columns.next()?).ok()?;
            return Some((hash, columns.next()?.parse().ok()?));
        }
    }
    None
}

/// Returns the reference chunks whose numbers are in a word, separated by commas, if there are such chunks and memory
/// for them. `-` is no chunk.
pub fn reference_list(alloc: Global, numbers: &str) -> Option<Vec<Node>> {
    let mut nodes = Vec::new(alloc);
    for number in numbers.split(',') {
        if number != "-" {
            nodes.push(reference_chunk(number)?).ok()?;
        }
    }
    Some(nodes)
}

// Appends the 32 bytes of each node's hash, and the 8 of its size, lowest first.
fn push_nodes(bytes: &mut Vec<u8>, nodes: &[Node]) -> Result<(), AllocError> {
    for (hash, size) in nodes {
        bytes.extend_from_slice(&hash.as_bytes())?;
        bytes.extend_from_slice(&size.to_le_bytes())?;
    }
    Ok(())
}

/// Returns a summary of a subtree: the numbers of left and right nodes of each level, and the first word of the data
/// hash of all nodes. The nodes are the left ones, lowest level first, then the right ones, highest level first, and
/// last the root, if there is one.
pub fn summary(alloc: Global, subtree: &MerkleHashSubtree) -> Result<String, AllocError> {
    let mut text = String::new(alloc);
    let mut bytes = Vec::new(alloc);
    for level in 0..subtree.num_levels() {
        let (left, right) = (subtree.left(level), subtree.right(level));
        write!(text, "{},{} ", left.len(), right.len())?;
        push_nodes(&mut bytes, left)?;
    }
    for level in (0..subtree.num_levels()).rev() {
        push_nodes(&mut bytes, subtree.right(level))?;
    }
    if let Some(root) = subtree.final_hash() {
        bytes.extend_from_slice(&root.as_bytes())?;
    }
    let [word, _, _, _] = compute_data_hash(bytes.as_slice()).words();
    write!(text, "{word:016x}")?;
    Ok(text)
}

/// Returns the subtrees of a list's ranges. Each range has as many nodes as the next of `lengths`, and the last has all
/// that are left. `marks` says whether the list's start and end are marked.
pub fn ranges(
    alloc: Global,
    nodes: &[Node],
    lengths: &[usize],
    marks: (bool, bool),
) -> Result<Vec<MerkleHashSubtree>, CoreError> {
    let mut ranges = Vec::new(alloc);
    let mut rest = nodes;
    let (mut at_start, at_end) = marks;
    for length in lengths {
        let (range, after) = rest.split_at((*length).min(rest.len()));
        ranges.push(MerkleHashSubtree::from_chunks(alloc, at_start, range, false)?)?;
        rest = after;
        at_start = false;
    }
    ranges.push(MerkleHashSubtree::from_chunks(alloc, at_start, rest, at_end)?)?;
    Ok(ranges)
}

// Returns the node of a letter, with its number as first word.
fn node(number: u64, letter: char) -> Node {
    let size = match letter {
        '+' => u64::MAX,
        'o' => 0,
        _ => 1,
    };
    let last = u64::from(letter != '|');
    (MerkleHash::from([number, 0, 0, last]), size)
}

// Returns the nodes of all ranges, and how many each range but the last has.
fn nodes_and_lengths(alloc: Global, text: &str) -> Result<(Vec<Node>, Vec<usize>), AllocError> {
    let mut nodes = Vec::new(alloc);
    let mut lengths = Vec::new(alloc);
    let mut length = 0usize;
    for letter in text.chars() {
        match letter {
            '[' | '(' | ']' | ')' => {}
            '/' => {
                lengths.push(length)?;
                length = 0;
            }
            _ => {
                nodes.push(node(nodes.len() as u64, letter))?;
                length = length.saturating_add(1);
            }
        }
    }
    Ok((nodes, lengths))
}

/// Returns the ranges that a text describes. `[` and `]` mark the list's start and end, and `(` and `)` don't. A `/`
/// separates two ranges. Each other letter is a node: `|` is a natural cut of size 1. The others are no natural cuts:
/// `.` has size 1, `+` the largest size, and `o` size 0.
pub fn told_ranges(alloc: Global, text: &str) -> Result<Vec<MerkleHashSubtree>, CoreError> {
    let marks = (text.starts_with('['), text.ends_with(']'));
    let (nodes, lengths) = nodes_and_lengths(alloc, text)?;
    ranges(alloc, nodes.as_slice(), lengths.as_slice(), marks)
}

/// Returns the nodes that a text describes, as [`told_ranges`] reads them.
pub fn told_nodes(alloc: Global, text: &str) -> Result<Vec<Node>, AllocError> {
    let (nodes, _) = nodes_and_lengths(alloc, text)?;
    Ok(nodes)
}

/// Merges the range at a place into the one before it.
pub fn merge_into_previous(
    ranges: &mut Vec<MerkleHashSubtree>,
    place: usize,
) -> Result<(), CoreError> {
    if place < ranges.len() {
        let (before, after) = ranges.split_at_mut(place);
        if let ([.., front], [back, ..]) = (before, after) {
            front.merge_into(back)?;
        }
        ranges.remove(place);
    }
    Ok(())
}

/// Returns random lengths of all ranges but the last, for two to six ranges.
pub fn drawn_lengths(
    generator: &mut Xoshiro256PlusPlus,
    alloc: Global,
    count: u64,
) -> Result<Vec<usize>, AllocError> {
    let ranges = generator.next_u64() % 5 + 2;
    let most = count / ranges * 2;
    let mut lengths = Vec::new(alloc);
    for _ in 1..ranges {
        lengths.push((generator.next_u64() % most.saturating_add(1)) as usize)?;
    }
    Ok(lengths)
}

/// Reads a subtree from the JSON value of a text, if it is one.
pub fn read_json(alloc: Global, text: &str) -> Option<Result<MerkleHashSubtree, CoreError>> {
    let value = Value::from_str(alloc, text).ok()?;
    Some(MerkleHashSubtree::from_json(alloc, &value))
}

//! The calls that answer lines. If one is refused a request, it writes nothing. JSON values use another allocator.

use super::{Outcome, Refusing, outcome_of};
use range_proof::RangeProof;
use std::alloc::Global;
use std::fmt::Write as _;
use std::io::Write;
use std::process::Abort;
use test_support::texts::{ABC, THREE_PAIRS, lines_of_row};
use test_support::{EACH_FOURTH, with_cuts};
use xet_hash::data_hash::DataHash;
use xet_merkle::CoreError;
use xet_merkle::aggregated_hashes::{Node, file_hash, xorb_hash};
use xet_merkle::merkle_hash_subtree::MerkleHashSubtree;
use xet_merkle::plain_range::PlainRange;
use xetrange_text::fault::RangeFault;
use xetrange_text::join::{join, root};
use xetrange_text::make::make;
use xetrange_text::prove::prove;
use xetrange_text::verify::verify;
use xetroot_text::run::{run, run_with};

/// Calls that answer lines. Each has its lines if these are pairs and chunks. The commands of `xetrange` use those of
/// 28 nodes.
pub const OF_LINES: &str = "run|h1 100;h2 200;h3 300;
run|h1 100;h2 200;--;h3 300;
run|@2;h3 300;@0;h1 100;@1;h2 200;
run|+abc
run over plain ranges|h1 100;h2 200;h3 300;
run over plain ranges|h1 100;h2 200;--;h3 300;
run over plain ranges|@2;h3 300;@0;h1 100;@1;h2 200;
run over plain ranges|+abc
make|
join|
root|
prove|
verify|";

/// Returns the two lines of a list of nodes.
pub fn answer_to(rt: &impl Abort, memory: Global, nodes: &[Node]) -> String {
    let root = xorb_hash(memory, nodes).expect(rt, "a hash");
    let file = file_hash(memory, nodes).expect(rt, "a hash");
    format!(in memory; "xorb {root}\nfile {file}\n").expect(rt, "memory")
}

/// Returns the line of the range of some nodes.
pub fn range_of(rt: &impl Abort, memory: Global, nodes: &[Node]) -> String {
    let range = MerkleHashSubtree::from_chunks(memory, false, nodes, false).expect(rt, "a subtree");
    let value = range.to_json(memory).expect(rt, "memory");
    let mut line = value.to_string(memory).expect(rt, "memory");
    line.push('\n').expect(rt, "memory");
    line
}

// Returns the line of the proof of the chunks 10 to 21 of some nodes.
fn proof_of(rt: &impl Abort, memory: Global, nodes: &[Node]) -> String {
    let proof = RangeProof::from_chunks(memory, nodes, 10, 22).expect(rt, "a proof");
    let value = proof.to_json(memory).expect(rt, "memory");
    let mut line = value.to_string(memory).expect(rt, "memory");
    line.push('\n').expect(rt, "memory");
    line
}

// The file hash of the chunks `a chunk`, `another` and `and a third`, and the proof of the second one.
const FILE_HASH: &str = "0497c2ffdb9b034977074a6a2fe7c2a9dcfc7cc0a4f98777ed580f0b8444090f";

const PROOF: &str =
    r#"{"chunks":[{"hash":"3481034b52254c2f1e0143ae20ce9e2459685799a774f5764bf5585211c865c1","size":7}],"levels":[{"left":[{"hash":"fc2d9e764137e94a0c4d7bdc0b584e73a34945fbf4efeef155acc8927c1399ff","size":7}],"right":[{"hash":"b5d2de3673ccda688a6ae4c470f097787aa87b128f134b1f5a7d33379b2f66e9","size":11}]}]}"#;

// Verifies the bytes 8 and 9 of these chunks.
fn verify_part<W: Write>(
    alloc: &Refusing,
    memory: Global,
    input: &mut &[u8],
    output: &mut W,
) -> Result<(), RangeFault> {
    let Ok(file_hash) = DataHash::from_hex(FILE_HASH) else {
        return Err(RangeFault::Mismatch);
    };
    verify(alloc, memory, &file_hash, 8, 10, input, output)
}

// Returns the lines of some pairs.
fn pairs_of(rt: &impl Abort, memory: Global, nodes: &[Node]) -> String {
    let mut pairs = String::new(memory);
    for (hash, size) in nodes {
        writeln!(pairs, "{hash} {size}").expect(rt, "memory");
    }
    pairs
}

// Returns some nodes twice.
fn twice(rt: &impl Abort, memory: Global, nodes: &[Node]) -> Vec<Node> {
    let mut twice = Vec::new(memory);
    twice.extend_from_slice(nodes).expect(rt, "memory");
    twice.extend_from_slice(nodes).expect(rt, "memory");
    twice
}

// Returns what `join` and `root` read: the range of some nodes, twice.
fn two_ranges_of(rt: &impl Abort, memory: Global, nodes: &[Node]) -> String {
    let range = range_of(rt, memory, nodes);
    format!(in memory; "{range}{range}").expect(rt, "memory")
}

// Returns what a command of `xetrange` reads, and what it should write.
fn of_command(rt: &impl Abort, memory: Global, call: &str) -> (String, String) {
    let nodes = with_cuts::<28>(&EACH_FOURTH);
    match call {
        "make" => (pairs_of(rt, memory, &nodes), range_of(rt, memory, &nodes)),
        "join" => {
            let answer = range_of(rt, memory, &twice(rt, memory, &nodes));
            (two_ranges_of(rt, memory, &nodes), answer)
        }
        "prove" => (pairs_of(rt, memory, &nodes), proof_of(rt, memory, &nodes)),
        "verify" => (
            format!(in memory; "{PROOF}\nanother").expect(rt, "memory"),
            String::from_str(memory, "no").expect(rt, "memory"),
        ),
        _ => {
            let answer = answer_to(rt, memory, &twice(rt, memory, &nodes));
            (two_ranges_of(rt, memory, &nodes), answer)
        }
    }
}

// Returns what a call reads, and what it should write.
fn input_and_answer(rt: &impl Abort, memory: Global, call: &str, lines: &str) -> (String, String) {
    if !call.starts_with("run") {
        return of_command(rt, memory, call);
    }
    let answer = if lines == "+abc" { ABC } else { THREE_PAIRS };
    (
        lines_of_row(memory, lines).expect(rt, "memory"),
        String::from_str(memory, answer).expect(rt, "memory"),
    )
}

/// Makes a call, and returns its status, or 0 if it succeeds.
pub fn status_of<W: Write>(
    alloc: &Refusing,
    memory: Global,
    call: &str,
    mut input: &[u8],
    output: &mut W,
) -> u8 {
    let r = &mut input;
    let result = match call {
        "run" => run(alloc, r, output).map_err(|fault| fault.status()),
        "make" => make(alloc, memory, r, output).map_err(|fault| fault.status()),
        "join" => join(alloc, memory, r, output).map_err(|fault| fault.status()),
        "root" => root(alloc, memory, r, output).map_err(|fault| fault.status()),
        "prove" => prove(alloc, memory, 10, 22, r, output).map_err(|fault| fault.status()),
        "verify" => verify_part(alloc, memory, r, output).map_err(|fault| fault.status()),
        _ => run_with::<PlainRange<&Refusing>, _, _>(alloc, r, output).map_err(
            |fault| fault.status(),
        ),
    };
    result.err().unwrap_or(0)
}

/// Tries a call that answers lines. It writes into an array, which takes no memory.
pub fn attempt(
    rt: &impl Abort,
    alloc: &Refusing,
    granted: u32,
    memory: Global,
    row: &str,
) -> Outcome {
    let (call, lines) = row.split_once('|').expect(rt, "two fields");
    let (input, expected) = input_and_answer(rt, memory, call, lines);
    let mut array = [0; 4096];
    let mut room = array.as_mut_slice();
    alloc.grant(granted);
    let status = status_of(alloc, memory, call, input.as_bytes(), &mut room);
    let unused = room.len();
    let (written, _) = array.split_at(array.len().saturating_sub(unused));
    let answer = match status {
        0 => Ok(written == expected.as_bytes()),
        3 => Err(CoreError::OutOfMemory),
        _ => Ok(false),
    };
    outcome_of(alloc, answer, written.is_empty())
}

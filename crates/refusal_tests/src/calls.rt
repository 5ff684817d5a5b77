//! Calls with an allocator that refuses one request and each later one. The tests refuse the first request that a call
//! makes, then the second, and so on, until the call makes no more. If a request is refused, the call must report that
//! it is out of memory, and everything that it borrowed must equal a copy made before. The crate `global_refusals`
//! tests what calls of `serde_json::Value` allocate by the global allocator.

mod examples;
mod hashes;
mod indexes;
mod large;
mod lines;
mod maps;
mod no_memory;
mod range_proofs;
mod ranges;
mod sessions;

use examples::EXAMPLES;
use lines::OF_LINES;
use rand_core::SeedableRng;
use rand_xoshiro::Xoshiro256PlusPlus;
use range_proofs::OF_PROOFS;
use ranges::BROKEN_JSON;
use refusing_allocator::RefusingAllocator;
use sessions::{OF_JOINS, OF_SESSIONS};
use std::alloc::Global;
use std::process::Abort;
use test_support::{MARKS, drawn_list, drawn_nodes};
use xet_merkle::CoreError;
use xet_merkle::aggregated_hashes::Node;
use xet_merkle::merkle_hash_subtree::MerkleHashSubtree;
use xet_merkle::plain_range::PlainRange;

/// The allocator of these tests.
pub type Refusing = RefusingAllocator<Global>;

/// Makes such an allocator without a limit. A test later limits the requests that it grants to a call.
pub fn refusing(alloc: Global) -> Refusing {
    RefusingAllocator::new(alloc, u32::MAX)
}

/// A list of chunks and the marks of its ends, and an allocator that refuses nothing.
#[derive(Clone, Copy)]
pub struct Chunks<'a> {
    pub alloc: Global,
    pub at_start: bool,
    pub nodes: &'a [Node],
    pub at_end: bool,
}

impl<'a> Chunks<'a> {
    /// Returns no chunks, for a call that has values of its own.
    pub fn none(alloc: Global) -> Chunks<'a> {
        Chunks {
            alloc,
            at_start: false,
            nodes: &[],
            at_end: false,
        }
    }

    /// Splits the chunks into the first `len` and the others.
    pub fn split(&self, len: usize) -> [Chunks<'a>; 2] {
        let (first, second) = self.nodes.split_at(len.min(self.nodes.len()));
        [
            Chunks {
                nodes: first,
                at_end: false,
                ..*self
            },
            Chunks {
                nodes: second,
                at_start: false,
                ..*self
            },
        ]
    }
}

/// How a call ends that is granted only some requests.
#[derive(Clone, Copy)]
pub enum Outcome {
    /// It was out of memory, and everything that it borrowed is unchanged.
    Refused,
    /// It returned what it should.
    Answered,
    /// Neither.
    Wrong,
}

impl Outcome {
    /// Returns the same outcome, unless something after the call isn't right.
    pub fn if_so(self, is_right: bool) -> Outcome {
        if is_right { self } else { Outcome::Wrong }
    }
}

/// Returns how a call ended. Its allocator must have been granted nothing since. The call must be out of memory if and
/// only if a request was refused. `answer` says whether it returned what it should. `is_same` says whether everything
/// that it borrowed is unchanged.
pub fn outcome_of(alloc: &Refusing, answer: Result<bool, CoreError>, is_same: bool) -> Outcome {
    match (answer, alloc.has_refused()) {
        (Ok(true), false) => Outcome::Answered,
        (Err(CoreError::OutOfMemory), true) if is_same => Outcome::Refused,
        _ => Outcome::Wrong,
    }
}

/// The calls that take an allocator and allocate.
#[derive(Clone, Copy)]
pub enum Call {
    Hex,
    Base64,
    ToVec,
    FromBase64,
    FromBase64Characters,
    MapWithCapacity,
    MapFromPairs,
    MapFromArray,
    MapTryClone,
    MapInsert,
    MapReplace,
    OrInsert,
    OrInsertWith,
    OrInsertWithKey,
    OrDefault,
    InsertEntry,
    VacantInsert,
    VacantInsertEntry,
    SessionTryClone,
    KnownHashes,
    IndexInsert,
    XorbHash,
    XorbHashOf,
    FileHash,
    FileHashWithSalt,
    FromChunks,
    FromChunksPlain,
    TryClone,
    MergeInto,
    MergeIntoCounted,
    MergeIntoBy,
    Merge,
    JoinSubtree,
    JoinPlain,
    PrependSubtree,
    PrependPlain,
    RootOfPlain,
    HashesOfSubtree,
    HashesOfPlain,
    RunSubtrees,
    RunPlain,
    FromJson,
    FromFlat,
    HashTree,
    TreeProof,
    ProofFromChunks,
    ProofTryClone,
    Open,
    OpenRoot,
    ProofFromJson,
    ProofFromFlat,
    ProofToFlat,
    ProofFromBytes,
    ProofToBytes,
    // Merges the chunks from a place on into those before it.
    MergeAt(usize),
    // Each has its row: that of an example, that of a JSON text that is no subtree, that of a session, or that of a
    // call that answers lines.
    Example(&'static str),
    FromBrokenJson(&'static str),
    SessionOfSubtrees(&'static str),
    SessionOfPlainRanges(&'static str),
    OfLines(&'static str),
}

// The calls that work on a list of chunks, each with the seed of the list. `MergeAt` has lists of its own.
const OF_CHUNKS: [(Call, u64); 22] = [
    (Call::XorbHash, 3),
    (Call::XorbHashOf, 28),
    (Call::FileHash, 5),
    (Call::FileHashWithSalt, 6),
    (Call::FromChunks, 4),
    (Call::TryClone, 7),
    (Call::MergeInto, 11),
    (Call::MergeIntoCounted, 8),
    (Call::MergeIntoBy, 9),
    (Call::Merge, 10),
    (Call::JoinSubtree, 14),
    (Call::JoinPlain, 13),
    (Call::RootOfPlain, 17),
    (Call::RunSubtrees, 16),
    (Call::RunPlain, 15),
    (Call::FromJson, 12),
    (Call::FromChunksPlain, 22),
    (Call::PrependSubtree, 23),
    (Call::PrependPlain, 24),
    (Call::HashesOfSubtree, 25),
    (Call::HashesOfPlain, 26),
    (Call::FromFlat, 27),
];

// The calls that have values of their own.
const OF_OWN_VALUES: [Call; 13] = [
    Call::Hex,
    Call::Base64,
    Call::ToVec,
    Call::FromBase64,
    Call::FromBase64Characters,
    Call::MapReplace,
    Call::MapWithCapacity,
    Call::MapFromPairs,
    Call::MapFromArray,
    Call::MapTryClone,
    Call::SessionTryClone,
    Call::KnownHashes,
    Call::IndexInsert,
];

// The calls that fill a map.
const FILLING_MAPS: [Call; 8] = [
    Call::MapInsert,
    Call::OrInsert,
    Call::OrInsertWith,
    Call::OrInsertWithKey,
    Call::OrDefault,
    Call::InsertEntry,
    Call::VacantInsert,
    Call::VacantInsertEntry,
];

// Makes a call that is granted some requests. Returns how it ends.
fn attempt(
    rt: &impl Abort,
    call: Call,
    alloc: &Refusing,
    granted: u32,
    chunks: &Chunks<'_>,
) -> Outcome {
    let memory = chunks.alloc;
    match call {
        Call::Hex | Call::Base64 | Call::ToVec | Call::FromBase64 | Call::FromBase64Characters =>
            hashes::attempt(rt, call, alloc, granted),
        Call::MapWithCapacity | Call::MapFromPairs | Call::MapFromArray | Call::MapTryClone => {
            maps::make(rt, call, alloc, granted)
        }
        Call::MapReplace => maps::replace(alloc, granted),
        Call::MapInsert
        | Call::OrInsert
        | Call::OrInsertWith
        | Call::OrInsertWithKey
        | Call::OrDefault
        | Call::InsertEntry
        | Call::VacantInsert
        | Call::VacantInsertEntry => maps::fill(call, alloc, granted, 100),
        Call::SessionTryClone | Call::KnownHashes => sessions::copy(
            rt, call, alloc, granted, memory,
        ),
        Call::IndexInsert => indexes::insert(rt, alloc, granted, memory, 100),
        Call::XorbHash | Call::XorbHashOf | Call::FileHash | Call::FileHashWithSalt => {
            hashes::of_chunks(rt, call, alloc, granted, chunks)
        }
        Call::Example(row) => examples::attempt(rt, alloc, granted, memory, row),
        Call::FromBrokenJson(row) => ranges::from_broken_json(rt, alloc, granted, memory, row),
        Call::SessionOfSubtrees(row) => {
            sessions::attempt::<MerkleHashSubtree<&Refusing>>(rt, alloc, granted, memory, row)
        }
        Call::SessionOfPlainRanges(row) => {
            sessions::attempt::<PlainRange<&Refusing>>(rt, alloc, granted, memory, row)
        }
        Call::OfLines(row) => lines::attempt(rt, alloc, granted, memory, row),
        Call::HashTree
        | Call::TreeProof
        | Call::ProofFromChunks
        | Call::ProofTryClone
        | Call::Open
        | Call::OpenRoot
        | Call::ProofFromJson
        | Call::ProofFromFlat
        | Call::ProofToFlat
        | Call::ProofFromBytes
        | Call::ProofToBytes => range_proofs::attempt(rt, call, alloc, granted, chunks),
        _ => ranges::attempt(rt, call, alloc, granted, chunks),
    }
}

// At least as many requests as each call makes.
const MOST_REQUESTS: u32 = 500;

// Returns whether a call is out of memory if and only if one of its requests is refused, and is otherwise right. At
// least one request must be refused.
fn is_refused_with_each_request(rt: &impl Abort, call: Call, chunks: &Chunks<'_>) -> bool {
    for granted in 0..MOST_REQUESTS {
        match attempt(rt, call, &refusing(chunks.alloc), granted, chunks) {
            Outcome::Refused => {}
            Outcome::Answered => return 0 < granted,
            Outcome::Wrong => return false,
        }
    }
    false
}

// Makes a call on chunks with each request refused, and with each pair of marks.
fn refuse_with_each_pair_of_marks(
    rt: &impl Abort,
    alloc: Global,
    number: usize,
    call: Call,
    nodes: &[Node],
) {
    for (at_start, at_end) in MARKS {
        // Only a range with both marks has a root.
        if matches!(call, Call::RootOfPlain) && !(at_start && at_end) {
            continue;
        }
        let chunks = Chunks {
            alloc,
            at_start,
            nodes,
            at_end,
        };
        assert!(rt;
            is_refused_with_each_request(rt, call, &chunks),
            "call {number} of the table, {at_start}, {at_end}"
        );
    }
}

#[test]
fn calls_on_chunks_are_refused_with_each_request(rt: HostRuntime) {
    for (number, (call, seed)) in OF_CHUNKS.iter().enumerate() {
        let mut generator = Xoshiro256PlusPlus::seed_from_u64(*seed);
        let nodes = drawn_list(&mut generator, rt.alloc(), 200).expect(&rt, "memory");
        refuse_with_each_pair_of_marks(&rt, rt.alloc(), number, *call, &nodes);
    }
}

#[test]
fn calls_on_values_of_their_own_are_refused_with_each_request(rt: HostRuntime) {
    for calls in [OF_OWN_VALUES.as_slice(), FILLING_MAPS.as_slice()] {
        for (number, call) in calls.iter().enumerate() {
            assert!(rt;
                is_refused_with_each_request(&rt, *call, &Chunks::none(rt.alloc())),
                "call {number} of {}",
                calls.len()
            );
        }
    }
}

#[test]
fn calls_of_range_proofs_are_refused_with_each_request(rt: HostRuntime) {
    let nodes = drawn_list(&mut Xoshiro256PlusPlus::seed_from_u64(28), rt.alloc(), 200).expect(
        &rt, "memory",
    );
    let chunks = Chunks {
        alloc: rt.alloc(),
        at_start: false,
        nodes: nodes.as_slice(),
        at_end: false,
    };
    for (number, call) in OF_PROOFS.iter().enumerate() {
        assert!(rt;
            is_refused_with_each_request(&rt, *call, &chunks),
            "call {number} of the table"
        );
    }
}

#[test]
fn worked_examples_are_refused_with_each_request(rt: HostRuntime) {
    for row in EXAMPLES.lines() {
        assert!(rt;
            is_refused_with_each_request(&rt, Call::Example(row), &Chunks::none(rt.alloc())),
            "{row}"
        );
    }
}

#[test]
fn json_of_no_subtree_is_refused_with_each_request(rt: HostRuntime) {
    for row in BROKEN_JSON.lines() {
        assert!(rt;
            is_refused_with_each_request(&rt, Call::FromBrokenJson(row), &Chunks::none(rt.alloc())),
            "{row}"
        );
    }
}

#[test]
fn calls_of_sessions_are_refused_with_each_request(rt: HostRuntime) {
    for row in OF_SESSIONS.lines() {
        for call in [
            Call::SessionOfSubtrees(row),
            Call::SessionOfPlainRanges(row),
        ] {
            assert!(rt;
                is_refused_with_each_request(&rt, call, &Chunks::none(rt.alloc())),
                "{row}"
            );
        }
    }
    for row in OF_JOINS.lines() {
        assert!(rt;
            is_refused_with_each_request(
                &rt,
                Call::SessionOfSubtrees(row),
                &Chunks::none(rt.alloc()),
            ),
            "{row}"
        );
    }
}

#[test]
fn calls_that_answer_lines_are_refused_with_each_request(rt: HostRuntime) {
    for row in OF_LINES.lines() {
        assert!(rt;
            is_refused_with_each_request(&rt, Call::OfLines(row), &Chunks::none(rt.alloc())),
            "{row}"
        );
    }
}

#[test]
fn appending_changes_nothing_where_a_request_is_refused(rt: HostRuntime) {
    let mut generator = Xoshiro256PlusPlus::seed_from_u64(18);
    for (cuts_in_four, at_start) in [(0, true), (1, false), (1, true), (2, false), (4, false)] {
        let nodes = drawn_nodes(&mut generator, rt.alloc(), 60, cuts_in_four).expect(&rt, "memory");
        for count in 1..nodes.len() {
            let (front, _) = nodes.split_at(count);
            let chunks = Chunks {
                alloc: rt.alloc(),
                at_start,
                nodes: front,
                at_end: false,
            };
            assert!(rt;
                is_refused_with_each_request(&rt, Call::MergeAt(count.saturating_sub(1)), &chunks),
                "{count}"
            );
        }
    }
}

//! How many requests and bytes calls ask of an allocator, as the ranges that they change grow. No test measures time.
//!
//! A list without natural cuts is kept whole, so the ranges here keep as many nodes as they have chunks. The bounds
//! follow from the design:
//!
//! - Room that is used up is doubled. Nodes that are added one by one take room for less than four times as many, in as
//!   many requests as there are doublings.
//! - A range of one chunk takes two requests, for a level and for a node, and room for fewer than three nodes.
//! - A map of hashes has 32 bytes for each, and 16 for its place in a table. Its room is doubled too, so hashes that are
//!   added take fewer than five nodes.

use rand_core::{Rng, SeedableRng};
use rand_xoshiro::Xoshiro256PlusPlus;
use refusing_allocator::{Granted, RefusingAllocator};
use std::alloc::Global;
use std::collections::BTreeMap;
use std::process::Abort;
use test_support::own_nodes;
use test_support::texts::three_fields;
use upload_session::kept_hashes::{KeptHashes, NoHashes, SeenHashes};
use upload_session::session::{Session, SessionOf};
use upload_session::session_fault::SessionFault;
use xet_hash::data_hash::MerkleHash;
use xet_hash::passthrough_hashmap::PassThroughHashMap;
use xet_merkle::aggregated_hashes::{Node, xorb_hash};
use xet_merkle::as_node::xorb_hash_of;
use xet_merkle::chunk_range::ChunkRange;
use xet_merkle::merkle_hash_subtree::MerkleHashSubtree;

type Counting = RefusingAllocator<Global>;

type Subtree<'a> = MerkleHashSubtree<&'a Counting>;

// Returns an allocator that refuses nothing, and counts.
fn counting(memory: Global) -> Counting {
    RefusingAllocator::new(memory, u32::MAX)
}

// The bytes of a node: four words of its hash, and its size.
const NODE: u64 = 40;

// The requests of a call that don't repeat for each chunk: doublings, and the levels of a merge.
const FEW: u64 = 60;

// Changes, each with the requests and the nodes of room that it may ask for per chunk:
//
// - An append makes the range of a chunk. A prepend also copies its node.
// - A merge copies the nodes in sight, collapses them to a third or less, and copies those of a side.
// - Ranges that are merged together are added to a copy of the first.
// - A put of a chunk makes its range, an empty range, a place in the map of runs, and a copy of the shorter neighbour.
//   In order, it makes its range, and adds its node to the range before. A run of 1,000 chunks before or after the puts
//   doubles its room at the first of them: 2,000 nodes, fewer than three for each of 900 puts.
// - In random order the neighbours are long. A node is copied four times, with twice the room, each time the range that
//   holds it doubles its nodes. For 7200 nodes that is 13 times.
// - Chunks that are all natural cuts make no stable point, since three in a row are too near to each other. So nothing
//   is collapsed, as without cuts.
// - A session that keeps hashes also lists the new ones of a put, in room for four, and adds them to its map.
// - A pushed run takes fewer than four nodes in the map of runs, beside its range.
// - Hashes that are kept at once are listed in room that is doubled, fewer than four nodes, and added to the map.
// - A copy of a session takes as much for each run as pushing it, and fewer than two nodes for each hash. The list of
//   its hashes takes a request, and less than a node for each.
// - A map that is made for some numbers has room for fewer than twice as many in its table.
const CHANGES: &str = "append|2|7
prepend|3|8
append of cuts alone|2|7
prepend of cuts alone|3|8
append after cuts|2|7
prepend before cuts|3|8
merge|0|4
merge before|0|5
merge of cuts|0|4
merge before of cuts|0|4
ranges merged together|0|4
put rising|4|7
put rising after 10|4|7
put rising after 1000|4|12
put falling|6|13
put falling before 10|6|13
put falling before 1000|6|18
put even, then odd|6|13
put even, then odd falling|6|13
put blocks before cuts|6|13
put drawn|6|117
put falling, hashes kept|7|22
push runs|3|7
keep hashes one by one|1|9
keep hashes at once|0|9
copy runs and hashes|3|9
list hashes|0|1
room in a map|0|2";

// Which chunks of a list are natural cuts.
#[derive(Clone, Copy)]
enum Cuts {
    Nowhere,
    // Each fourth of the 28 chunks in the middle.
    InTheMiddle,
    Everywhere,
}

// Returns `count` chunks with natural cuts.
fn chunks(rt: &impl Abort, memory: Global, count: u64, cuts: Cuts) -> Vec<Node> {
    let middle = count / 2..(count / 2).saturating_add(28);
    let mut chunks = Vec::new(memory);
    for number in 0..count {
        let is_cut = match cuts {
            Cuts::Nowhere => false,
            Cuts::InTheMiddle => middle.contains(&number) && number % 4 == 3,
            Cuts::Everywhere => true,
        };
        let chunk = (MerkleHash::from([number, 0, 0, u64::from(!is_cut)]), 1);
        chunks.push(chunk).expect(rt, "memory");
    }
    chunks
}

// Returns the cuts among the chunks that a range or a session has before a change.
fn cuts_before(change: &str) -> Cuts {
    if change.ends_with("cuts") {
        Cuts::InTheMiddle
    } else {
        Cuts::Nowhere
    }
}

// Returns the cuts among the chunks that a change adds one by one.
fn cuts_added(change: &str) -> Cuts {
    if change.ends_with("cuts alone") {
        Cuts::Everywhere
    } else {
        Cuts::Nowhere
    }
}

// Returns the subtree of some chunks, with neither mark.
fn subtree<'a>(rt: &impl Abort, alloc: &'a Counting, chunks: &[Node]) -> Subtree<'a> {
    MerkleHashSubtree::from_chunks(alloc, false, chunks, false).expect(rt, "a subtree")
}

// Puts chunks one by one after a range, or before it.
fn extend<'a>(
    rt: &impl Abort,
    alloc: &'a Counting,
    range: &mut Subtree<'a>,
    chunks: &[Node],
    is_after: bool,
) {
    for chunk in chunks {
        let one = subtree(rt, alloc, &[*chunk]);
        if is_after {
            range.join(&one).expect(rt, "a merge");
        } else {
            range.prepend(one).expect(rt, "a merge");
        }
    }
}

// Adds `count` chunks to a range of some chunks, or of none. Returns what that asks for.
fn change_range(
    rt: &impl Abort,
    alloc: &Counting,
    memory: Global,
    change: &str,
    count: u64,
) -> Granted {
    let cuts = cuts_before(change);
    let chunks = chunks(rt, memory, count, cuts);
    let is_after = !change.contains("before") && !change.starts_with("prepend");
    let is_merge = change.starts_with("merge");
    let begun = if is_merge || matches!(cuts, Cuts::InTheMiddle) {
        chunks.as_slice()
    } else {
        &[]
    };
    let mut range = subtree(rt, alloc, begun);
    let other = subtree(rt, alloc, &chunks);
    alloc.grant(u32::MAX);
    if !is_merge {
        let added = self::chunks(rt, memory, count, cuts_added(change));
        extend(rt, alloc, &mut range, &added, is_after);
    } else if is_after {
        range.join(&other).expect(rt, "a merge");
    } else {
        range.prepend(other).expect(rt, "a merge");
    }
    alloc.granted()
}

// Merges `count` ranges of one chunk each. Returns what that asks for.
fn merge_ranges(rt: &impl Abort, alloc: &Counting, memory: Global, count: u64) -> Granted {
    let mut ranges = Vec::new(memory);
    for chunk in &chunks(rt, memory, count, Cuts::Nowhere) {
        ranges
            .push(subtree(rt, alloc, &[*chunk]))
            .expect(rt, "memory");
    }
    alloc.grant(u32::MAX);
    MerkleHashSubtree::merge(alloc, &ranges).expect(rt, "a merge");
    alloc.granted()
}

// The length of a block of chunks. It keeps more nodes than the top of a range with cuts.
const BLOCK: u64 = 8;

// Returns when the put of the chunk at a position comes, and how many chunks it has. Blocks come first, and then the
// chunks between them.
fn order_of(change: &str, count: u64, position: u64, drawn: u64) -> (u64, u64) {
    let falling = count.saturating_sub(position);
    let others = if position % 2 == 0 { 0 } else { count };
    match change {
        "put even, then odd" => (position.saturating_add(others), 1),
        "put even, then odd falling" => (falling.saturating_add(others), 1),
        "put drawn" => (drawn, 1),
        _ if change.starts_with("put rising") => (position, 1),
        "put blocks before cuts" => match position % (BLOCK + 1) {
            0 => (position, BLOCK),
            BLOCK => (falling.saturating_add(count), 1),
            _ => (position, 0),
        },
        _ => (falling, 1),
    }
}

// Returns the puts at the positions below a count in order. Each has its first position and its number of chunks.
fn puts(rt: &impl Abort, memory: Global, change: &str, count: u64) -> BTreeMap<u64, (u64, u64)> {
    let mut generator = Xoshiro256PlusPlus::seed_from_u64(22);
    let mut puts = BTreeMap::new(memory);
    for position in 0..count {
        let (order, len) = order_of(change, count, position, generator.next_u64());
        if len > 0 {
            let inserted: Result<_, _> = puts.insert(order, (position, len));
            inserted.expect(rt, "memory");
        }
    }
    puts
}

// Returns the chunks of the run that is there before the puts of a change.
fn neighbour(rt: &impl Abort, memory: Global, change: &str, count: u64) -> Vec<Node> {
    if change.ends_with("cuts") {
        chunks(rt, memory, count, Cuts::InTheMiddle)
    } else if change.ends_with("1000") {
        chunks(rt, memory, 1_000, Cuts::Nowhere)
    } else if change.ends_with("10") {
        chunks(rt, memory, 10, Cuts::Nowhere)
    } else {
        Vec::new(memory)
    }
}

// Puts the run that is there before a change: before the puts if they rise, and else after them. Returns the first
// position of the puts.
fn put_neighbour<'a, H: KeptHashes<&'a Counting>>(
    rt: &impl Abort,
    session: &mut SessionOf<Subtree<'a>, H>,
    memory: Global,
    change: &str,
    count: u64,
) -> u64 {
    let neighbour = neighbour(rt, memory, change, count);
    let is_before = change.starts_with("put rising");
    let position = if is_before { 0 } else { count };
    session.put(position, &neighbour).expect(rt, "a put");
    if is_before { neighbour.len() as u64 } else { 0 }
}

// Puts chunks one by one or in blocks, beside a run if the change names one. Returns what the puts ask for.
fn change_session<'a, H: KeptHashes<&'a Counting>>(
    rt: &impl Abort,
    alloc: &'a Counting,
    memory: Global,
    change: &str,
    count: u64,
) -> Granted {
    let mut session: SessionOf<Subtree<'a>, H> = SessionOf::new_in(alloc).expect(rt, "a session");
    let begin = put_neighbour(rt, &mut session, memory, change, count);
    let chunks = chunks(rt, memory, count, Cuts::Nowhere);
    alloc.grant(u32::MAX);
    for (first, len) in puts(rt, memory, change, count).values() {
        let end = first.saturating_add(*len) as usize;
        let put = chunks.get(*first as usize..end).unwrap_or_default();
        session
            .put(begin.saturating_add(*first), put)
            .expect(rt, "a put");
    }
    let asked = alloc.granted();
    assert!(rt; session.num_runs() == 1, "more than one run");
    asked
}

// Adds runs of one chunk each to a session. A free position is left after each.
fn push_runs<'a>(
    rt: &impl Abort,
    alloc: &'a Counting,
    session: &mut Session<&'a Counting>,
    chunks: &[Node],
) {
    let mut first = 0u64;
    for chunk in chunks {
        let range = subtree(rt, alloc, &[*chunk]);
        session
            .push_run(first, first.saturating_add(1), range)
            .expect(rt, "a push");
        first = first.saturating_add(2);
    }
}

// Restores a part of a session, of `count` chunks. Returns what that asks for.
fn restore(rt: &impl Abort, alloc: &Counting, memory: Global, change: &str, count: u64) -> Granted {
    let chunks = chunks(rt, memory, count, Cuts::Nowhere);
    let mut session: Session<&Counting> = SessionOf::new_in(alloc).expect(rt, "a session");
    alloc.grant(u32::MAX);
    if change == "push runs" {
        push_runs(rt, alloc, &mut session, &chunks);
    } else if change == "keep hashes at once" {
        session.keep_hashes(&chunks).expect(rt, "memory");
    } else {
        for chunk in &chunks {
            session.keep_hashes(&[*chunk]).expect(rt, "memory");
        }
    }
    alloc.granted()
}

// Copies a session of `count` runs that knows as many hashes, or lists these. Returns what that asks for.
fn save(rt: &impl Abort, alloc: &Counting, memory: Global, change: &str, count: u64) -> Granted {
    let chunks = chunks(rt, memory, count, Cuts::Nowhere);
    let mut session: Session<&Counting> = SessionOf::new_in(alloc).expect(rt, "a session");
    push_runs(rt, alloc, &mut session, &chunks);
    session.keep_hashes(&chunks).expect(rt, "memory");
    alloc.grant(u32::MAX);
    if change == "copy runs and hashes" {
        session.try_clone().expect(rt, "memory");
    } else {
        session.known_hashes().expect(rt, "memory");
    }
    alloc.granted()
}

// Makes a map with room for `count` numbers, which then come without a further request. Returns what that asks for.
fn make_room(rt: &impl Abort, alloc: &Counting, count: u64) -> Granted {
    let mut map: PassThroughHashMap<u64, u64, &Counting> = PassThroughHashMap::with_capacity(
        alloc,
        count as usize,
    ).expect(rt, "memory");
    let asked = alloc.granted();
    assert!(rt; map.is_empty(), "a map that isn't empty");
    for number in 0..count {
        map.insert(number, number).expect(rt, "memory");
    }
    assert!(rt;
        alloc.granted() == asked,
        "room for fewer than {count} numbers: {asked:?}"
    );
    asked
}

// Returns what a change by `count` chunks asks for.
fn asked(rt: &impl Abort, memory: Global, change: &str, count: u64) -> Granted {
    let alloc = counting(memory);
    if change.ends_with("hashes kept") {
        return change_session::<SeenHashes<&Counting>>(rt, &alloc, memory, change, count);
    }
    match change.split(' ').next() {
        Some("put") => change_session::<NoHashes>(rt, &alloc, memory, change, count),
        Some("push" | "keep") => restore(rt, &alloc, memory, change, count),
        Some("copy" | "list") => save(rt, &alloc, memory, change, count),
        Some("ranges") => merge_ranges(rt, &alloc, memory, count),
        Some("room") => make_room(rt, &alloc, count),
        _ => change_range(rt, &alloc, memory, change, count),
    }
}

// Returns whether `asked` is at most `requests` requests and `nodes` nodes per chunk.
fn is_within(asked: Granted, count: u64, requests: u64, nodes: u64) -> bool {
    let room = nodes.saturating_mul(count).saturating_add(FEW);
    asked.requests <= requests.saturating_mul(count).saturating_add(FEW)
        && asked.bytes <= room.saturating_mul(NODE)
}

// Numbers of chunks: multiples of 9, a block and the chunk after it.
const COUNTS: [u64; 2] = [900, 7_200];

#[test]
fn changes_ask_for_memory_in_proportion_to_the_chunks(rt: HostRuntime) {
    for row in CHANGES.lines() {
        let (change, requests, nodes) = three_fields(row, '|').expect(&rt, "three fields");
        let requests = requests.parse().expect(&rt, "a number");
        let nodes = nodes.parse().expect(&rt, "a number");
        for count in COUNTS {
            let asked = asked(&rt, rt.alloc(), change, count);
            assert!(rt;
                is_within(asked, count, requests, nodes),
                "{change}, {count}: {asked:?}"
            );
        }
    }
}

// The most nodes of a list that are copied at once where its elements are nodes in a form of their own.
const PIECE: u64 = 576;

#[test]
fn a_root_takes_room_for_a_third_of_the_chunks(rt: HostRuntime) {
    for count in COUNTS {
        let chunks = chunks(&rt, rt.alloc(), count, Cuts::Nowhere);
        let own = own_nodes(rt.alloc(), &chunks).expect(&rt, "memory");
        let alloc = counting(rt.alloc());
        let root = xorb_hash(&alloc, &chunks).expect(&rt, "a hash");
        let asked = alloc.granted();
        alloc.grant(u32::MAX);
        let same = xorb_hash_of(&alloc, &own).expect(&rt, "a hash") == root;
        let asked_of_own = alloc.granted();
        let room = count.div_ceil(3);
        assert!(rt;
            asked.requests == 1 && asked.bytes <= room.saturating_mul(NODE),
            "{count}: {asked:?}"
        );
        assert!(rt;
            same && asked_of_own.requests == 2
                && asked_of_own.bytes <= room.saturating_add(PIECE).saturating_mul(NODE),
            "{count}: {asked_of_own:?}"
        );
    }
}

// Twice as many puts in random order, in which each node is copied several times for each doubling.
const DRAWN: u64 = 1_800;

#[test]
fn twice_as_many_puts_ask_for_little_more_than_twice_the_bytes(rt: HostRuntime) {
    let once = asked(&rt, rt.alloc(), "put drawn", DRAWN);
    let twice = asked(&rt, rt.alloc(), "put drawn", DRAWN * 2);
    assert!(rt;
        twice.bytes.saturating_mul(10) <= once.bytes.saturating_mul(23),
        "{once:?}, {twice:?}"
    );
}

#[test]
fn forgotten_hashes_leave_no_room(rt: HostRuntime) {
    let alloc = counting(rt.alloc());
    let chunks = chunks(&rt, rt.alloc(), DRAWN, Cuts::Nowhere);
    let mut session: Session<&Counting> = SessionOf::new_in(&alloc).expect(&rt, "a session");
    session.keep_hashes(&chunks).expect(&rt, "memory");
    session.forget_hashes(&alloc);
    alloc.grant(u32::MAX);
    session.try_clone().expect(&rt, "memory");
    let asked = alloc.granted();
    assert!(rt; asked.bytes <= NODE, "{asked:?}");
}

// More than a thousand runs.
const RUNS: u64 = 1_500;

// Returns whether a run of a session begins at a position.
fn begins_at(session: &SessionOf<Subtree<'_>, NoHashes>, position: u64) -> bool {
    matches!(session.run_from(position), Some((first, _, _)) if first == position)
}

#[test]
fn sessions_of_many_runs_tell_what_is_taken_without_memory(rt: HostRuntime) {
    let alloc = counting(rt.alloc());
    let mut session: SessionOf<Subtree<'_>, NoHashes> = SessionOf::new_in(&alloc).expect(
        &rt,
        "a session",
    );
    let chunk = [(MerkleHash::default(), 1)];
    for number in 0..RUNS {
        session
            .put(number.saturating_mul(2), &chunk)
            .expect(&rt, "a put");
    }
    alloc.grant(0);
    for number in 0..RUNS {
        let position = number.saturating_mul(2);
        assert!(rt; session.taken(position) && !session.taken(position.saturating_add(1)));
        assert!(rt; begins_at(&session, position));
        assert!(rt; session.put(position, &chunk) == Err(SessionFault::Overlap));
    }
    assert!(rt; session.num_runs() as u64 == RUNS && session.range(1_001).is_some());
    assert!(rt; session.finish(RUNS) == Err(SessionFault::Gap));
    assert!(rt; !alloc.has_refused());
}

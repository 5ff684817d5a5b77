//! A file of ten chunks of ten bytes, each byte its own place, and what a reader has of it.

use range_proof::HashTree;
use refusing_allocator::RefusingAllocator;
use std::alloc::Global;
use std::process::Abort;
use verified_reader::{PartFault, VerifiedReader, WantedPart};
use xet_hash::data_hash::{MerkleHash, compute_data_hash};
use xet_roots::aggregated_hashes::{Node, file_hash};

// The size of each chunk in bytes, and what it counts when it is kept.
const SIZE: usize = 10;

const COUNTS: u64 = 138;

const SALT: [u8; 32] = [0; 32];

// The tests' allocator.
type Memory<'a> = &'a RefusingAllocator<Global>;

#[derive(Drop)]
struct File<'a> {
    bytes: Vec<u8, Memory<'a>>,
    tree: HashTree<Memory<'a>>,
    hash: MerkleHash,
}

fn refusing(alloc: Global) -> RefusingAllocator<Global> {
    RefusingAllocator::new(alloc, u32::MAX)
}

fn make_file<'a>(rt: &impl Abort, memory: Memory<'a>) -> File<'a> {
    let mut bytes = Vec::new(memory);
    for place in 0..100u8 {
        bytes.push(place).expect(rt, "memory");
    }
    let mut chunks: Vec<Node, Memory<'a>> = Vec::new(memory);
    for chunk in bytes.chunks(SIZE) {
        let node = (compute_data_hash(chunk), SIZE as u64);
        chunks.push(node).expect(rt, "memory");
    }
    let hash = file_hash(memory, &chunks).expect(rt, "a file hash");
    let tree = HashTree::from_chunks(memory, &chunks).expect(rt, "a tree");
    File { bytes, tree, hash }
}

// Opens the part of the chunks from number `first` up to, but without, number `end`.
fn part<'a>(
    rt: &impl Abort,
    memory: Memory<'a>,
    file: &File<'a>,
    first: u8,
    end: u8,
) -> WantedPart<Memory<'a>> {
    let proof = file
        .tree
        .proof(memory, first as usize, end as usize)
        .expect(rt, "a proof");
    let (from, to) = (first as u64 * 10, end as u64 * 10);
    WantedPart::open(memory, proof, &file.hash, &SALT, from, to, 0).expect(rt, "a part")
}

fn reader<'a>(
    rt: &impl Abort,
    memory: Memory<'a>,
    file: &File<'a>,
    most: u64,
) -> VerifiedReader<Memory<'a>> {
    VerifiedReader::new(memory, &file.hash, &SALT, most).expect(rt, "a reader")
}

// Checks the whole data of some chunks, and gives them to a reader.
fn take<'a>(
    rt: &impl Abort,
    memory: Memory<'a>,
    file: &File<'a>,
    kept: &mut VerifiedReader<Memory<'a>>,
    first: u8,
    end: u8,
) {
    let mut part = part(rt, memory, file, first, end);
    let (from, to) = (first as usize * SIZE, end as usize * SIZE);
    let count = end.saturating_sub(first) as usize;
    let all = data(rt, file, from, to);
    assert!(rt; part.check(all, true) == Some(all) && part.right() == (count, to as u64));
    assert!(rt; kept.take(part));
}

// Returns the bytes of the file from one place up to, but without, another.
fn data<'b>(rt: &impl Abort, file: &'b File<'_>, from: usize, to: usize) -> &'b [u8] {
    file.bytes.get(from..to).expect(rt, "bytes")
}

// Returns how many bytes a reader has from a place on. They are those of the file.
fn has<'a>(rt: &impl Abort, kept: &mut VerifiedReader<Memory<'a>>, from: u8) -> usize {
    let mut room = [255; 100];
    let count = kept.read(from as u64, &mut room);
    let mut place = from;
    for byte in &room[..count] {
        assert!(rt; *byte == place);
        place = place.saturating_add(1);
    }
    assert!(rt; room[count..].iter().all(|byte| *byte == 255));
    count
}

#[test]
fn what_was_checked_is_read_over_chunks(rt: HostRuntime) {
    let memory = refusing(rt.alloc());
    let file = make_file(&rt, &memory);
    let mut kept = reader(&rt, &memory, &file, 10_000);
    assert!(rt; kept.size() == None && has(&rt, &mut kept, 0) == 0);
    take(&rt, &memory, &file, &mut kept, 4, 6);
    take(&rt, &memory, &file, &mut kept, 2, 4);
    assert!(rt; kept.size() == Some(100) && kept.counted() == 4 * COUNTS);
    assert!(rt; has(&rt, &mut kept, 25) == 35 && has(&rt, &mut kept, 59) == 1);
    assert!(rt; has(&rt, &mut kept, 19) == 0 && has(&rt, &mut kept, 60) == 0);
}

#[test]
fn data_may_be_cut_off_anywhere(rt: HostRuntime) {
    let memory = refusing(rt.alloc());
    let file = make_file(&rt, &memory);
    for length in 0..41usize {
        let mut kept = reader(&rt, &memory, &file, 10_000);
        let mut cut = part(&rt, &memory, &file, 2, 6);
        let whole = length / SIZE;
        let bytes = data(&rt, &file, 20, 20 + length);
        assert!(rt; cut.check(bytes, true).is_some() == (length == 40));
        assert!(rt; cut.right() == (whole, 20 + whole as u64 * 10));
        assert!(rt; kept.take(cut) && has(&rt, &mut kept, 20) == whole * SIZE);
    }
}

#[test]
fn a_wrong_chunk_ends_what_is_checked(rt: HostRuntime) {
    let memory = refusing(rt.alloc());
    let file = make_file(&rt, &memory);
    let mut kept = reader(&rt, &memory, &file, 10_000);
    let mut wrong = part(&rt, &memory, &file, 0, 3);
    let mut bytes = [0; 30];
    for k in 0..30usize {
        bytes[k] = k as u8;
    }
    bytes[15] = 16;
    assert!(rt; wrong.check(&bytes, true) == None && wrong.right() == (1, 10));
    assert!(rt; kept.take(wrong) && has(&rt, &mut kept, 0) == 10);
}

#[test]
fn data_that_is_too_long_is_refused_and_its_chunks_are_kept(rt: HostRuntime) {
    let memory = refusing(rt.alloc());
    let file = make_file(&rt, &memory);
    let mut kept = reader(&rt, &memory, &file, 10_000);
    let mut long = part(&rt, &memory, &file, 0, 3);
    assert!(rt; long.check(data(&rt, &file, 0, 31), true) == None && long.right() == (3, 30));
    assert!(rt; kept.take(long) && has(&rt, &mut kept, 0) == 30);
}

#[test]
fn chunks_that_are_not_to_be_kept_show_the_size_alone(rt: HostRuntime) {
    let memory = refusing(rt.alloc());
    let file = make_file(&rt, &memory);
    let mut kept = reader(&rt, &memory, &file, 10_000);
    let mut part = part(&rt, &memory, &file, 2, 6);
    memory.grant(0);
    let bytes = data(&rt, &file, 20, 60);
    assert!(rt; part.check(bytes, false) == Some(bytes) && !memory.has_refused());
    assert!(rt; part.right() == (4, 60) && part.file_size() == 100);
    assert!(rt; kept.take(part) && kept.size() == Some(100) && kept.counted() == 0);
    memory.grant(u32::MAX);
}

#[test]
fn a_part_is_checked_again_with_other_data(rt: HostRuntime) {
    let memory = refusing(rt.alloc());
    let file = make_file(&rt, &memory);
    let mut kept = reader(&rt, &memory, &file, 10_000);
    let mut part = part(&rt, &memory, &file, 2, 4);
    assert!(rt; part.check(data(&rt, &file, 30, 50), true) == None && part.right() == (0, 20));
    let bytes = data(&rt, &file, 20, 40);
    assert!(rt; part.check(bytes, true) == Some(bytes) && part.right() == (2, 40));
    assert!(rt; kept.take(part) && kept.counted() == 2 * COUNTS);
}

// Opens the proof of one chunk without data, for some bytes, and gives it to a reader. Returns the size that is known then.
fn size_of_empty(rt: &impl Abort, memory: Memory<'_>, from: u64, to: u64) -> Option<u64> {
    let chunks = [(compute_data_hash(b""), 0)];
    let hash = file_hash(memory, &chunks).expect(rt, "a file hash");
    let tree = HashTree::from_chunks(memory, &chunks).expect(rt, "a tree");
    let proof = tree.proof(memory, 0, 1).expect(rt, "a proof");
    let mut kept = VerifiedReader::new(memory, &hash, &SALT, 10_000).expect(rt, "a reader");
    let mut part = WantedPart::open(memory, proof, &hash, &SALT, from, to, 0).expect(rt, "a part");
    assert!(rt; part.places() == (0, 0) && part.check(b"", true) == Some(b""));
    assert!(rt; kept.take(part) && kept.needs(from, to, 100) == None);
    kept.size()
}

#[test]
fn a_file_of_chunks_without_data_has_size_0(rt: HostRuntime) {
    let memory = refusing(rt.alloc());
    assert!(rt; size_of_empty(&rt, &memory, 0, 9) == Some(0));
    assert!(rt; size_of_empty(&rt, &memory, 5, 9) == Some(0));
}

#[test]
fn a_lower_limit_drops_what_was_used_longest_ago(rt: HostRuntime) {
    let memory = refusing(rt.alloc());
    let file = make_file(&rt, &memory);
    let mut kept = reader(&rt, &memory, &file, COUNTS);
    kept.keep_at_most(10_000);
    take(&rt, &memory, &file, &mut kept, 0, 5);
    assert!(rt; kept.counted() == 5 * COUNTS && has(&rt, &mut kept, 1) == 49);
    kept.keep_at_most(2 * COUNTS + 1);
    assert!(rt; kept.counted() == 2 * COUNTS && has(&rt, &mut kept, 30) == 20);
    take(&rt, &memory, &file, &mut kept, 0, 2);
    assert!(rt; kept.counted() == 2 * COUNTS && has(&rt, &mut kept, 0) == 20);
}

#[test]
fn the_chunk_that_was_used_longest_ago_goes_first(rt: HostRuntime) {
    let memory = refusing(rt.alloc());
    let file = make_file(&rt, &memory);
    let mut kept = reader(&rt, &memory, &file, 3 * COUNTS);
    take(&rt, &memory, &file, &mut kept, 0, 1);
    take(&rt, &memory, &file, &mut kept, 2, 3);
    take(&rt, &memory, &file, &mut kept, 4, 5);
    assert!(rt; has(&rt, &mut kept, 5) == 5);
    take(&rt, &memory, &file, &mut kept, 6, 7);
    assert!(rt; kept.counted() == 3 * COUNTS);
    assert!(rt; has(&rt, &mut kept, 20) == 0 && has(&rt, &mut kept, 0) == 10);
    take(&rt, &memory, &file, &mut kept, 8, 9);
    assert!(rt; has(&rt, &mut kept, 40) == 0 && has(&rt, &mut kept, 0) == 10);
}

#[test]
fn more_chunks_than_may_be_kept_leave_the_last_ones(rt: HostRuntime) {
    let memory = refusing(rt.alloc());
    let file = make_file(&rt, &memory);
    let mut kept = reader(&rt, &memory, &file, 2 * COUNTS + 1);
    take(&rt, &memory, &file, &mut kept, 0, 10);
    assert!(rt; has(&rt, &mut kept, 80) == 20 && has(&rt, &mut kept, 79) == 0);
    let mut none = reader(&rt, &memory, &file, COUNTS - 1);
    take(&rt, &memory, &file, &mut none, 0, 10);
    assert!(rt; none.counted() == 0 && none.size() == Some(100));
}

#[test]
fn what_is_missing_begins_at_the_first_byte_that_is_not_kept(rt: HostRuntime) {
    let memory = refusing(rt.alloc());
    let file = make_file(&rt, &memory);
    let mut kept = reader(&rt, &memory, &file, 10_000);
    assert!(rt; kept.needs(95, 1_000, 50) == Some((95, 145)));
    take(&rt, &memory, &file, &mut kept, 2, 4);
    take(&rt, &memory, &file, &mut kept, 6, 7);
    assert!(rt;
        kept.needs(5, 1_000, 50) == Some((5, 55)) && kept.needs(5, 15, 50) == Some((5, 15))
    );
    assert!(rt; kept.needs(25, 1_000, 50) == Some((40, 90)) && kept.needs(25, 40, 50) == None);
    assert!(rt; kept.needs(65, 1_000, 20) == Some((70, 90)));
    assert!(rt; kept.needs(65, u64::MAX, u64::MAX) == Some((70, 100)));
    assert!(rt; kept.needs(99, 1_000, 0) == Some((99, 100)) && kept.needs(100, 1_000, 50) == None);
}

// Returns why a proof of the chunks 2 to 5 isn't that of some bytes.
fn fault<'a>(
    rt: &impl Abort,
    memory: Memory<'a>,
    file: &File<'a>,
    hash: &MerkleHash,
    from: u64,
    to: u64,
    beyond: u64,
) -> Option<PartFault> {
    let proof = file.tree.proof(memory, 2, 6).expect(rt, "a proof");
    match WantedPart::open(memory, proof, hash, &SALT, from, to, beyond) {
        Ok(_) => None,
        Err(fault) => Some(fault),
    }
}

#[test]
fn a_proof_of_something_else_is_refused(rt: HostRuntime) {
    let memory = refusing(rt.alloc());
    let file = make_file(&rt, &memory);
    let other = MerkleHash::from([1, 2, 3, 4]);
    assert!(rt; fault(&rt, &memory, &file, &other, 20, 60, 0) == Some(PartFault::Mismatch));
    let elsewhere = Some(PartFault::Elsewhere(20, 60));
    assert!(rt; fault(&rt, &memory, &file, &file.hash, 19, 60, 9) == elsewhere);
    assert!(rt; fault(&rt, &memory, &file, &file.hash, 20, 61, 9) == elsewhere);
    assert!(rt; fault(&rt, &memory, &file, &file.hash, 30, 30, 9) == elsewhere);
    assert!(rt; fault(&rt, &memory, &file, &file.hash, 100, 200, 99) == elsewhere);
    let too_far = Some(PartFault::TooFar(20, 60));
    assert!(rt; fault(&rt, &memory, &file, &file.hash, 25, 55, 4) == too_far);
    assert!(rt; fault(&rt, &memory, &file, &file.hash, 25, 55, 5) == None);
}

#[test]
fn the_end_of_the_file_ends_a_part(rt: HostRuntime) {
    let memory = refusing(rt.alloc());
    let file = make_file(&rt, &memory);
    let proof = file.tree.proof(&memory, 9, 10).expect(&rt, "a proof");
    let mut last = WantedPart::open(&memory, proof, &file.hash, &SALT, 95, 1_000, 5).expect(
        &rt, "a part",
    );
    let wanted = data(&rt, &file, 95, 100);
    assert!(rt; last.places() == (90, 100) && last.skipped() == 5);
    assert!(rt; last.check(data(&rt, &file, 90, 100), true) == Some(wanted));
}

#[test]
fn refused_memory_leaves_a_reader_as_it_was(rt: HostRuntime) {
    let memory = refusing(rt.alloc());
    let file = make_file(&rt, &memory);
    let mut kept = reader(&rt, &memory, &file, 10_000);
    for granted in 0..2u32 {
        let mut part = part(&rt, &memory, &file, 2, 3);
        assert!(rt; part.check(data(&rt, &file, 20, 30), true).is_some());
        memory.grant(granted);
        assert!(rt; kept.take(part) && memory.has_refused());
        assert!(rt; kept.counted() == 0 && has(&rt, &mut kept, 20) == 0);
        memory.grant(u32::MAX);
    }
    take(&rt, &memory, &file, &mut kept, 2, 3);
    assert!(rt; has(&rt, &mut kept, 20) == 10);
}

#[test]
fn refused_memory_leaves_chunks_out_that_are_right(rt: HostRuntime) {
    let memory = refusing(rt.alloc());
    let file = make_file(&rt, &memory);
    let mut kept = reader(&rt, &memory, &file, 10_000);
    let mut part = part(&rt, &memory, &file, 2, 6);
    let bytes = data(&rt, &file, 20, 60);
    memory.grant(0);
    assert!(rt; part.check(bytes, true) == Some(bytes) && memory.has_refused());
    memory.grant(u32::MAX);
    assert!(rt; part.right() == (4, 60) && kept.take(part));
    assert!(rt; kept.size() == Some(100) && kept.counted() == 0);
}

#[test]
fn a_part_of_another_file_is_not_taken(rt: HostRuntime) {
    let memory = refusing(rt.alloc());
    let file = make_file(&rt, &memory);
    let other = MerkleHash::from([1, 2, 3, 4]);
    let mut kept = VerifiedReader::new(&memory, &other, &SALT, 10_000).expect(&rt, "a reader");
    let mut part = part(&rt, &memory, &file, 2, 3);
    assert!(rt; part.check(data(&rt, &file, 20, 30), true).is_some() && !kept.is_part(&part));
    assert!(rt; !kept.take(part) && kept.size() == None && kept.counted() == 0);
}

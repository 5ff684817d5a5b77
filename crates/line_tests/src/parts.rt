//! Parts of files, most of them longer than many reads: what `prove` and `verify` write for them, devices that fail in the
//! middle of them, and how much memory `verify` asks for.

use super::devices::{EVEN, Input, Manner, Output, failing_at};
use refusing_allocator::{Granted, RefusingAllocator};
use std::alloc::Global;
use std::fmt::Write;
use std::ops::Range;
use std::process::Abort;
use xet_hash::data_hash::{DataHash, compute_data_hash};
use xetrange_text::prove::prove;
use xetrange_text::verify::verify;

// A file of `count` chunks, and a range of them. Each chunk has `more` bytes more than the one before it.
#[derive(Clone, Copy, Debug)]
struct Part {
    count: u64,
    least: usize,
    more: usize,
    range: (u64, u64),
    // The places of the second byte of the range and of its last byte.
    places: (u64, u64),
    // The file hash.
    file: &'static str,
    // The data hash of the line of the proof.
    line: &'static str,
}

const SMALL: Part = Part {
    count: 3,
    least: 50,
    more: 0,
    range: (1, 2),
    places: (51, 99),
    file: "376c6eb2d7d532aea2e710156620634113e422ac2546de8b5f5ee8ad04988e0e",
    line: "f3d473505ee621f2735278d7ea179bc5bc8a3714ba96cee490e06dbf7573dc06",
};

// The range has chunks of 64 KiB to 128 KiB, which are those that a file of Xet has.
const LARGE_CHUNKS: Part = Part {
    count: 6,
    least: 49_152,
    more: 16_384,
    range: (1, 6),
    places: (49_153, 540_671),
    file: "f877ac9ed1304e90e57edef96f5e4903a66c7fd2742e6599d493ecae28d47c73",
    line: "0013002991baf1301866c4025b493abb4296774d40ceb1564cc58cbcfecda5f5",
};

// The line of the proof has half a MiB.
const MANY_CHUNKS: Part = Part {
    count: 6_000,
    least: 20,
    more: 0,
    range: (20, 5_990),
    places: (401, 119_799),
    file: "dc5e2d1df5c235a13c895e4a67647e93bbe85fcfc59a69d5b8ff8247750247e9",
    line: "2b43edfdb30d2c5e2f255b1670c3ad70f4c3a95fb3c74636a92952884f4867b2",
};

const PARTS: [Part; 3] = [SMALL, LARGE_CHUNKS, MANY_CHUNKS];

// A whole file of more than two MiB.
const LONG: Part = Part {
    count: 17,
    least: 131_072,
    more: 0,
    range: (0, 17),
    places: (1, 2_228_223),
    file: "62bdd6f5afb1f155299958f2e813a0d9b26f17dc125a3167a6c00aeecbfb5256",
    line: "890ca6df277be0ea88079d22afde10c2aeab6da89c95c55a22457cdeeb77cfc2",
};

// Returns the data of the chunks of a file with these numbers, each between two texts. The data of a chunk is letters and
// then ten digits.
fn chunks_of(
    rt: &impl Abort,
    alloc: Global,
    part: Part,
    numbers: Range<u64>,
    (before, after): (&str, &str),
) -> String {
    let mut text = String::new(alloc);
    for number in numbers {
        let size = part
            .more
            .saturating_mul(number as usize)
            .saturating_add(part.least);
        let letters = "a"
            .repeat(alloc, size.saturating_sub(10))
            .expect(rt, "memory");
        let digits = number.saturating_add(1_000_000_000);
        write!(text, "{before}{letters}{digits}{after}").expect(rt, "memory");
    }
    text
}

// Returns the data of the range.
fn data_of(rt: &impl Abort, alloc: Global, part: Part) -> String {
    let (first, end) = part.range;
    chunks_of(rt, alloc, part, first..end, ("", ""))
}

// Returns the line that `prove` writes for the range.
fn proof_of(rt: &impl Abort, alloc: Global, part: Part) -> Vec<u8> {
    let lines = chunks_of(rt, alloc, part, 0..part.count, ("+", "\n"));
    let (first, end) = part.range;
    let (mut reader, mut line) = (lines.as_bytes(), Vec::new(alloc));
    let proved = prove(
        alloc,
        alloc,
        first as usize,
        end as usize,
        &mut reader,
        &mut line,
    );
    assert!(rt; proved.is_ok(), "{part:?}: {proved:?}");
    line
}

// How many spaces end the line of a proof, and how many bytes follow the data of its range.
type Added = (usize, usize);

// More spaces than two MiB, and more bytes than `verify` reads at once.
const SPACES: usize = 2_100_000;

const EXCESS: usize = 1_000_000;

// Returns what `verify` reads: the line of the proof, and the data of the range.
fn input_of(rt: &impl Abort, alloc: Global, part: Part, (spaces, excess): Added) -> Vec<u8> {
    let mut input = proof_of(rt, alloc, part);
    let spaces = " ".repeat(alloc, spaces).expect(rt, "memory");
    let data = data_of(rt, alloc, part);
    let more = "a".repeat(alloc, excess).expect(rt, "memory");
    assert!(rt; input.pop() == Some(b'\n'));
    for text in [spaces.as_str(), "\n", data.as_str(), more.as_str()] {
        input
            .extend_from_slice(text.as_bytes())
            .expect(rt, "memory");
    }
    input
}

// What `verify` did with devices of some manners.
#[derive(Drop)]
struct Outcome {
    status: u8,
    calls: (usize, usize),
    written: Vec<u8>,
    granted: Granted,
}

// Verifies the range without its first and its last byte.
fn verify_part(
    rt: &impl Abort,
    alloc: Global,
    part: Part,
    input: &[u8],
    (reads, writes): (Manner, Manner),
) -> Outcome {
    let counting: RefusingAllocator<Global> = RefusingAllocator::new(alloc, u32::MAX);
    let (mut r, mut w) = (Input::new(input, reads), Output::new(alloc, writes, EVEN));
    let file_hash = DataHash::from_hex(part.file).expect(rt, "a hash");
    let (from, to) = part.places;
    let status = match verify(&counting, alloc, &file_hash, from, to, &mut r, &mut w) {
        Ok(()) => 0,
        Err(fault) => fault.status(),
    };
    let Output { bytes, device, .. } = w;
    Outcome {
        status,
        calls: (r.device.calls, device.calls),
        written: bytes,
        granted: counting.granted(),
    }
}

// The most bytes that a read or a write transfers where the tests of failing calls cut the range.
const MOST: usize = 200_000;

// Returns the manners of devices whose calls of these numbers fail, and none if a number is 0.
fn failing(read: usize, write: usize) -> (Manner, Manner) {
    (failing_at(read, MOST), failing_at(write, MOST))
}

#[test]
fn the_proof_of_a_range_is_that_of_the_model(rt: HostRuntime) {
    for part in PARTS {
        let line = proof_of(&rt, rt.alloc(), part);
        let expected = DataHash::from_hex(part.line).expect(&rt, "a hash");
        assert!(rt; compute_data_hash(&line) == expected, "{part:?}");
    }
}

// Returns whether some bytes are the data of the range without its first and its last byte.
fn is_inside(rt: &impl Abort, alloc: Global, part: Part, bytes: &[u8]) -> bool {
    let data = data_of(rt, alloc, part);
    let last = data.len().saturating_sub(1);
    data.as_bytes().get(1..last) == Some(bytes)
}

// Fails unless the range is verified.
fn is_verified(rt: &impl Abort, alloc: Global, part: Part, added: Added) {
    let input = input_of(rt, alloc, part, added);
    let outcome = verify_part(rt, alloc, part, &input, failing(0, 0));
    assert!(rt; outcome.status == 0, "{part:?}: fault {}", outcome.status);
    assert!(rt; is_inside(rt, alloc, part, &outcome.written), "{part:?}");
}

#[test]
fn many_and_large_chunks_are_verified(rt: HostRuntime) {
    for part in PARTS {
        is_verified(&rt, rt.alloc(), part, (0, 0));
    }
}

#[test]
fn a_line_of_more_than_two_mib_is_verified(rt: HostRuntime) {
    is_verified(&rt, rt.alloc(), SMALL, (SPACES, 0));
}

#[test]
fn more_than_two_mib_are_verified(rt: HostRuntime) {
    is_verified(&rt, rt.alloc(), LONG, (0, 0));
}

// Returns whether a failed call of a device is told by the status, after the calls before it, and nothing follows it.
fn is_fault(failed: &Outcome, status: u8, calls: (usize, usize), even: &Outcome) -> bool {
    let taken = calls.1.saturating_sub(1).saturating_mul(MOST);
    failed.status == status
        && failed.calls == calls
        && failed.written.len() == taken
        && even.written.starts_with(&failed.written)
}

#[test]
fn each_failed_read_and_write_of_a_range_is_told(rt: HostRuntime) {
    for part in PARTS {
        let input = input_of(&rt, rt.alloc(), part, (0, 0));
        let even = verify_part(&rt, rt.alloc(), part, &input, failing(0, 0));
        let (reads, writes) = even.calls;
        for number in 1..=reads {
            let failed = verify_part(&rt, rt.alloc(), part, &input, failing(number, 0));
            assert!(rt;
                is_fault(&failed, 4, (number, 0), &even),
                "{part:?}: read {number}"
            );
        }
        for number in 1..=writes {
            let failed = verify_part(&rt, rt.alloc(), part, &input, failing(0, number));
            assert!(rt;
                is_fault(&failed, 5, (reads, number), &even),
                "{part:?}: write {number}"
            );
        }
    }
}

// Returns whether `verify` asks for fewer than eight bytes for each byte that it has to keep: those of the line and of the
// data of the range, and at most 65,535 after them.
fn asks_in_proportion(rt: &impl Abort, alloc: Global, part: Part, added: Added) -> bool {
    let input = input_of(rt, alloc, part, added);
    let outcome = verify_part(rt, alloc, part, &input, failing(0, 0));
    let (_, excess) = added;
    let kept = input.len().saturating_sub(excess.saturating_sub(65_535));
    let status = if excess == 0 { 0 } else { 10 };
    outcome.status == status && outcome.granted.bytes < (kept as u64).saturating_mul(8)
}

// What `verify` reads, each the part of a file and what is added.
const GIVEN: [(Part, Added); 5] = [
    (SMALL, (0, 0)),
    (SMALL, (SPACES, 0)),
    (SMALL, (0, EXCESS)),
    (LARGE_CHUNKS, (0, 0)),
    (MANY_CHUNKS, (0, 0)),
];

#[test]
fn verify_asks_for_memory_in_proportion_to_its_input(rt: HostRuntime) {
    for (part, added) in GIVEN {
        assert!(rt;
            asks_in_proportion(&rt, rt.alloc(), part, added),
            "{part:?}, {added:?}"
        );
    }
}

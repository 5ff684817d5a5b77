//! What the program writes for whole inputs, and how it prints faults.

use std::alloc::Global;
use std::io::{Read, Write};
use std::ops::Range;
use std::process::Abort;
use test_support::texts::{ABC, H1, NO_PAIR, THREE_PAIRS, lines_of_row, with_hashes};
use xet_hash::data_hash::DataHash;
use xet_merkle::plain_range::PlainRange;
use xetroot_text::fault::Fault;
use xetroot_text::run::{run, run_with};

const ONE_PAIR: &str = "xorb cfc5d07f6f03c29bbf424132963fe08d19a37d5757aaf520bf08119f05cd56d6
file 8e16257caa3fe079d484d872a8975264b2ff683b0d6db9028cc7c0f968a45661
";

// The answer to h1 100, four times.
const FOUR_EQUAL_PAIRS: &str =
    "xorb 89f2ada89ff8c96763c6b25010e6dd76a4c05b1466207633ea559acf2093211b
file 2cdba690d0e09563596e0cda626d43eb4c96ef1e994fe72d9b2f5a83cfcd36dd
";

// The answer to h1 100, h2 200, h1 100, h2 200.
const TWO_PAIRS_TWICE: &str = "xorb 90f8313ef12df385d237a067aded02562c35ded12116e32eba401dbc86c38031
file 284ea045e5a579e99c21ec597c20de1fc0c09e7168162aac00db8f61b3d82dbb
";

// The kind of range that a run keeps.
#[derive(Clone, Copy)]
enum Kind {
    Subtree,
    Plain,
}

// Runs the program over a kind of range.
fn run_over<R: Read, W: Write>(
    alloc: Global,
    kind: Kind,
    r: &mut R,
    w: &mut W,
) -> Result<(), Fault> {
    match kind {
        Kind::Subtree => run(alloc, r, w),
        Kind::Plain => run_with::<PlainRange, _, _>(alloc, r, w),
    }
}

// Returns what a run writes, and after it the text of its fault.
fn output_of(rt: &impl Abort, alloc: Global, kind: Kind, input: &[u8]) -> Vec<u8> {
    let (mut reader, mut output) = (input, Vec::new(alloc));
    if let Err(fault) = run_over(alloc, kind, &mut reader, &mut output) {
        let text = fault.to_string(alloc).expect(rt, "memory");
        output
            .extend_from_slice(text.as_bytes())
            .expect(rt, "memory");
    }
    output
}

// Returns whether a run writes a text and nothing else, or has the fault of a text and writes nothing, over both kinds
// of range.
fn answers(rt: &impl Abort, alloc: Global, input: &[u8], expected: &str) -> bool {
    let expected = expected.as_bytes();
    output_of(rt, alloc, Kind::Subtree, input).as_slice() == expected
        && output_of(rt, alloc, Kind::Plain, input).as_slice() == expected
}

// Returns the answer of a name, or the fault of a text.
fn answer_of(expected: &str) -> &str {
    match expected {
        "no pair" => NO_PAIR,
        "one pair" => ONE_PAIR,
        "three pairs" => THREE_PAIRS,
        "four equal pairs" => FOUR_EQUAL_PAIRS,
        "two pairs twice" => TWO_PAIRS_TWICE,
        fault => fault,
    }
}

// Returns whether the lines of a row give the answer or the fault at its end.
fn is_answered(rt: &impl Abort, alloc: Global, row: &str) -> bool {
    let (lines, expected) = row.split_once('|').expect(rt, "two fields");
    let lines = lines_of_row(alloc, lines).expect(rt, "memory");
    answers(rt, alloc, lines.as_bytes(), answer_of(expected))
}

// Fails unless the lines of each row give the answer or the fault at its end.
fn are_answered(rt: &impl Abort, alloc: Global, rows: &str) {
    for row in rows.lines() {
        assert!(rt; is_answered(rt, alloc, row), "{row}");
    }
}

const PAIRS: &str = "|no pair
--|no pair
h1 100|one pair
h1 100;h1 100;h1 100;h1 100|four equal pairs
h1 100;h2 200;h1 100;h2 200|two pairs twice
h1 100;h2 200;h3 300;|three pairs
--;--;h1 100;--;h2 200;h3 300;--|three pairs";

#[test]
fn answers_pairs_in_lines(rt: HostRuntime) {
    let lower = with_hashes(rt.alloc(), "h1 100").expect(&rt, "memory");
    let upper = lower
        .as_str()
        .to_ascii_uppercase(rt.alloc())
        .expect(&rt, "memory");
    assert!(rt; answers(&rt, rt.alloc(), upper.as_bytes(), ONE_PAIR));
    are_answered(&rt, rt.alloc(), PAIRS);
}

const POSITIONS: &str = "@2;h3 300;@0;h1 100;h2 200|three pairs
@0;h1 100;@1;h2 200;@7;@2;h3 300;@1|three pairs
@2;h1 100;h2 200;@0;--;h1 100;--;h2 200|two pairs twice
@5|no pair
@1;h1 100|xetroot: fault 7
h1 100;@0;h2 200|xetroot: fault 6 at line 3
@1;h2 200;@0;h1 100;h3 300|xetroot: fault 6 at line 5
h1 18446744073709551615;@0;h2 1|xetroot: fault 6 at line 3
h1 18446744073709551615;@7;h2 1|xetroot: fault 2 at line 3
@01|xetroot: fault 1 at line 1
@|xetroot: fault 1 at line 1
@+1|xetroot: fault 1 at line 1
@ 1|xetroot: fault 1 at line 1
@18446744073709551616|xetroot: fault 1 at line 1
@18446744073709551615;h1 100|xetroot: fault 1 at line 2
@18446744073709551615;+abc|xetroot: fault 1 at line 2
@18446744073709551614;h1 100|xetroot: fault 7
@18446744073709551614;h1 100;h2 200|xetroot: fault 1 at line 3
@1;h1 100;!|xetroot: fault 1 at line 3";

#[test]
fn position_lines_place_the_pairs_after_them(rt: HostRuntime) {
    are_answered(&rt, rt.alloc(), POSITIONS);
}

// Three pairs, or two, with a separator at each place where one may be.
const SEPARATED: &str = "h1 100;h2 200;h3 300;|three pairs
h1 100;h2 200;h3 300;--;|three pairs
h1 100;h2 200;h3 300;--;--|three pairs
h1 100;h2 200;--;h3 300;|three pairs
h1 100;h2 200;--;h3 300;--;|three pairs
h1 100;h2 200;--;h3 300;--;--|three pairs
h1 100;--;h2 200;h3 300;|three pairs
h1 100;--;h2 200;h3 300;--;|three pairs
h1 100;--;h2 200;h3 300;--;--|three pairs
h1 100;--;h2 200;--;h3 300;|three pairs
h1 100;--;h2 200;--;h3 300;--;|three pairs
h1 100;--;h2 200;--;h3 300;--;--|three pairs
--;h1 100;h2 200;h3 300;|three pairs
--;h1 100;h2 200;h3 300;--;|three pairs
--;h1 100;h2 200;h3 300;--;--|three pairs
--;h1 100;h2 200;--;h3 300;|three pairs
--;h1 100;h2 200;--;h3 300;--;|three pairs
--;h1 100;h2 200;--;h3 300;--;--|three pairs
--;h1 100;--;h2 200;h3 300;|three pairs
--;h1 100;--;h2 200;h3 300;--;|three pairs
--;h1 100;--;h2 200;h3 300;--;--|three pairs
--;h1 100;--;h2 200;--;h3 300;|three pairs
--;h1 100;--;h2 200;--;h3 300;--;|three pairs
--;h1 100;--;h2 200;--;h3 300;--;--|three pairs";

// More lines than 2^20.
const MOST_LINES: usize = 1_048_577;

#[test]
fn separators_change_nothing(rt: HostRuntime) {
    let many = "--\n".repeat(rt.alloc(), MOST_LINES).expect(&rt, "memory");
    let output = output_of(&rt, rt.alloc(), Kind::Subtree, many.as_bytes());
    assert!(rt; output.as_slice() == NO_PAIR.as_bytes());
    are_answered(&rt, rt.alloc(), SEPARATED);
}

#[test]
fn a_fault_after_more_than_a_million_pairs_is_named(rt: HostRuntime) {
    let pair = with_hashes(rt.alloc(), "h1 0\n").expect(&rt, "memory");
    let mut pairs = pair
        .as_str()
        .repeat(rt.alloc(), MOST_LINES)
        .expect(&rt, "memory");
    pairs.push_str("!").expect(&rt, "memory");
    let output = output_of(&rt, rt.alloc(), Kind::Subtree, pairs.as_bytes());
    assert!(rt; output.as_slice() == b"xetroot: fault 1 at line 1048578".as_slice());
}

// The answer to 20,000 pairs of size 1, whose hashes have the words i, 0, 0 and i modulo 4.
pub(crate) const MANY_PAIRS: &str =
    "xorb 951ddfa7a459b95ea55bb6cf4cc2d4329fd1b2520abe09727bf118a687459d2c
file c5b91c43e27f1d0785ce40a29b7baee822db7f5136611cbc2eaf04a3ac6d4004
";

// Appends the lines of the pairs of this kind with these numbers.
pub(crate) fn push_lines(rt: &impl Abort, lines: &mut String, numbers: Range<u64>) {
    for i in numbers {
        let hash = DataHash::from([i, 0, 0, i % 4]);
        writeln!(lines, "{hash} 1").expect(rt, "memory");
    }
}

// The answer to the first 9000 of them.
const FEWER_PAIRS: &str = "xorb 1fa8c4f5d2b1ecb1ed7ec711894bcfaaa0c225182391131bc4f8c2b740f58ac0
file 05fe8458ce220b994314c014b404ea97b6b86ef0ed06b74ab4c4b60cf2bc1beb
";

// Returns the lines of 9000 pairs, the last half first.
fn halves_in_reverse(rt: &impl Abort, alloc: Global) -> String {
    let mut lines = String::new(alloc);
    writeln!(lines, "@4500").expect(rt, "memory");
    push_lines(rt, &mut lines, 4500..9000);
    writeln!(lines, "@0").expect(rt, "memory");
    push_lines(rt, &mut lines, 0..4500);
    lines
}

// Returns the lines of the same pairs, those at even positions first.
fn even_then_odd(rt: &impl Abort, alloc: Global) -> String {
    let mut lines = String::new(alloc);
    for odd in [0, 1] {
        for i in 0..4500u64 {
            let position = i.saturating_mul(2).saturating_add(odd);
            writeln!(lines, "@{position}").expect(rt, "memory");
            push_lines(rt, &mut lines, position..position.saturating_add(1));
        }
    }
    lines
}

#[test]
fn long_ranges_are_answered_as_a_whole(rt: HostRuntime) {
    let mut in_order = String::new(rt.alloc());
    push_lines(&rt, &mut in_order, 0..20_000);
    assert!(rt; answers(&rt, rt.alloc(), in_order.as_bytes(), MANY_PAIRS));
    let in_reverse = halves_in_reverse(&rt, rt.alloc());
    assert!(rt; answers(&rt, rt.alloc(), in_reverse.as_bytes(), FEWER_PAIRS));
    let odd_last = even_then_odd(&rt, rt.alloc());
    assert!(rt; answers(&rt, rt.alloc(), odd_last.as_bytes(), FEWER_PAIRS));
}

const NO_BYTES: &str = "xorb e0f2cf784e7e5f10c34f84af150e9a5ff9664216debad915364d741049870f67
file c5b8746ae7e55c74d71e80fd99d34bf9a2c5666c690f1c113dec6d292790488a
";

// The answer to `{H1} 100`, and to the chunks of no bytes, of `+a`, a zero byte and a carriage return, and of `--`.
const PAIR_AND_CHUNKS: &str = "xorb 859115aa66e63b78efe686437a7cdda2aec8e69a732662ad5fe5c62c665c459e
file 5ca6e50a28a8d975b146c9925696bf176766a6661f828c4108bcf4f2a8dac543
";

// The answer to the chunk of a million letters a.
const LONG_CHUNK: &str = "xorb 9af74aa9a252880f8c22ca2ff1e11bef7b2e4b90a350fe7ee0bb08f5725bdbf6
file f51f13f534f02922122f84c1c3cb040392afd49ff95185d599d31942e1fcc597
";

#[test]
fn answers_chunks_in_lines(rt: HostRuntime) {
    let mixed = format!(in rt.alloc(); "{H1} 100\n+\n--\n++a\0\r\n+--\n").expect(&rt, "memory");
    let faulty = "a".repeat(rt.alloc(), 1_000_000).expect(&rt, "memory");
    let long = format!(in rt.alloc(); "+{faulty}").expect(&rt, "memory");
    for (input, want) in [
        ("+abc", ABC),
        ("+", NO_BYTES),
        (mixed.as_str(), PAIR_AND_CHUNKS),
        (long.as_str(), LONG_CHUNK),
        (faulty.as_str(), "xetroot: fault 1 at line 1"),
    ] {
        assert!(rt; answers(&rt, rt.alloc(), input.as_bytes(), want));
    }
}

const FAULTY: &str = "h1 0100|xetroot: fault 1 at line 1
h1 18446744073709551616|xetroot: fault 1 at line 1
h1 +1|xetroot: fault 1 at line 1
h1 |xetroot: fault 1 at line 1
h1  1|xetroot: fault 1 at line 1
h1 1 |xetroot: fault 1 at line 1
h1 1\r;|xetroot: fault 1 at line 1
h1|xetroot: fault 1 at line 1
h10 1|xetroot: fault 1 at line 1
h1 1;;--|xetroot: fault 1 at line 2
h1 1;--;-;|xetroot: fault 1 at line 3
h1 000000000000000000000000000000000000000000001;|xetroot: fault 1 at line 1
h1 18446744073709551615;h2 1|xetroot: fault 2 at line 2
h1 18446744073709551615;--;h2 1;!|xetroot: fault 2 at line 3";

#[test]
fn names_the_first_faulty_line(rt: HostRuntime) {
    are_answered(&rt, rt.alloc(), FAULTY);
}

// The line numbers that faults are printed with.
pub(crate) const LINES: [u64; 9] = [1, 9, 10, 99, 100, 101, 1000, 65536, u64::MAX];

// Returns whether a fault has a status, and prints as it should.
fn prints(rt: &impl Abort, alloc: Global, fault: Fault, status: u8, end: &str) -> bool {
    let text = format!(in alloc; "xetroot: fault {status}{end}").expect(rt, "memory");
    fault.status() == status && fault.to_string(alloc).expect(rt, "memory") == text
}

// Returns whether the faults of a line print it.
fn print_line(rt: &impl Abort, alloc: Global, line: u64) -> bool {
    let end = format!(in alloc; " at line {line}").expect(rt, "memory");
    prints(rt, alloc, Fault::BadLine(line), 1, &end)
        && prints(rt, alloc, Fault::Sizes(line), 2, &end)
        && prints(rt, alloc, Fault::Overlap(line), 6, &end)
}

#[test]
fn faults_print_their_status_and_line(rt: HostRuntime) {
    for line in LINES {
        assert!(rt; print_line(&rt, rt.alloc(), line), "{line}");
    }
    for (fault, status) in [
        (Fault::Memory, 3),
        (Fault::Read, 4),
        (Fault::Write, 5),
        (Fault::Gap, 7),
    ] {
        assert!(rt; prints(&rt, rt.alloc(), fault, status, ""), "{status}");
    }
}

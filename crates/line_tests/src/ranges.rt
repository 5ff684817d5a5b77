//! What `make`, `join` and `root` write, and how they print faults.

use super::lines::{LINES, MANY_PAIRS, push_lines};
use super::memory;
use std::alloc::{Allocator, Global};
use std::io::{Read, Write};
use std::process::Abort;
use test_support::texts::{NO_CHUNK, NO_PAIR, THREE_PAIRS, lines_of_row, with_hashes};
use xet_hash::data_hash::DataHash;
use xetrange_text::fault::RangeFault;
use xetrange_text::join::{join, root};
use xetrange_text::make::make;
use xetroot_text::run::run;

#[derive(Clone, Copy)]
enum Command {
    Make,
    Join,
    Root,
}

fn run_command<R: Read, W: Write>(
    command: Command,
    alloc: impl Allocator,
    json: Global,
    r: &mut R,
    w: &mut W,
) -> Result<(), RangeFault> {
    match command {
        Command::Make => make(alloc, json, r, w),
        Command::Join => join(alloc, json, r, w),
        Command::Root => root(alloc, json, r, w),
    }
}

// Returns what a command writes if it ends without a fault.
fn output_of(rt: &impl Abort, alloc: Global, command: Command, input: &[u8]) -> String {
    let (mut reader, mut output) = (input, Vec::new(alloc));
    let result = run_command(command, alloc, alloc, &mut reader, &mut output);
    if result.is_err() {
        return format!(in alloc; "{result:?}").expect(rt, "memory");
    }
    String::from_utf8(output).unwrap_or(String::new(alloc))
}

// Lines, each with the range that `make` writes for them.
const MADE: &str = r#"|{"at_end":false,"at_start":false,"levels":[[0,0]],"nodes":[]}
--;--|{"at_end":false,"at_start":false,"levels":[[0,0]],"nodes":[]}
h1 100|{"at_end":false,"at_start":false,"levels":[[1,0]],"nodes":[{"hash":"h1","size":100}]}
h1 100;--;h2 200;|{"at_end":false,"at_start":false,"levels":[[2,0]],"nodes":[{"hash":"h1","size":100},{"hash":"h2","size":200}]}"#;

// Returns whether `make` writes the range of a row for its lines.
fn is_made(rt: &impl Abort, alloc: Global, row: &str) -> bool {
    let (lines, json) = row.split_once('|').expect(rt, "two fields");
    let lines = lines_of_row(alloc, lines).expect(rt, "memory");
    let output = output_of(rt, alloc, Command::Make, lines.as_bytes());
    let expected = with_hashes(alloc, json).expect(rt, "memory");
    output.as_str().strip_suffix('\n') == Some(expected.as_str())
}

#[test]
fn make_writes_the_compact_json_of_an_open_subtree(rt: HostRuntime) {
    for row in MADE.lines() {
        assert!(rt; is_made(&rt, rt.alloc(), row), "{row}");
    }
}

#[test]
fn no_input_is_the_empty_range(rt: HostRuntime) {
    let joined = output_of(&rt, rt.alloc(), Command::Join, b"");
    assert!(rt; joined.as_str().trim_end() == NO_CHUNK);
    assert!(rt; output_of(&rt, rt.alloc(), Command::Root, b"").as_str() == NO_PAIR);
    assert!(rt; output_of(&rt, rt.alloc(), Command::Root, joined.as_bytes()).as_str() == NO_PAIR);
}

// Returns the root of two pieces. Each is made, and if `is_merged` is set, they are first merged by `join`.
fn root_of_pieces(
    rt: &impl Abort,
    alloc: Global,
    front: &[u8],
    back: &[u8],
    is_merged: bool,
) -> String {
    let mut input = output_of(rt, alloc, Command::Make, front);
    let back = output_of(rt, alloc, Command::Make, back);
    input.push_str(back.as_str()).expect(rt, "memory");
    if is_merged {
        input = output_of(rt, alloc, Command::Join, input.as_bytes());
    }
    output_of(rt, alloc, Command::Root, input.as_bytes())
}

// Returns whether the root of all pieces is what `run` writes for the whole, for each cut at a line end.
fn agrees_at_each_cut(rt: &impl Abort, alloc: Global, text: &[u8]) -> bool {
    let (mut reader, mut output) = (text, Vec::new(alloc));
    if run(alloc, &mut reader, &mut output).is_err() {
        return false;
    }
    for (i, byte) in text.iter().enumerate() {
        let Some((front, back)) = text.split_at_checked(i.saturating_add(1)) else {
            return false;
        };
        for is_merged in [false, true] {
            if *byte == b'\n'
                && root_of_pieces(rt, alloc, front, back, is_merged).as_bytes()
                    != output.as_slice()
            {
                return false;
            }
        }
    }
    true
}

// Texts that are cut at each line end.
const TEXTS: &str = "
--;
h1 100;
h1 100;h2 200;h3 300;
--;--;h1 100;--;h2 200;h3 300;--
h1 100;h1 100;h1 100;h1 100;
h1 100;h2 200;h1 100;h2 200
+abc;
h1 100;+;+abc;";

#[test]
fn the_root_of_pieces_is_that_of_the_whole(rt: HostRuntime) {
    for row in TEXTS.lines() {
        let text = lines_of_row(rt.alloc(), row).expect(&rt, "memory");
        assert!(rt;
            agrees_at_each_cut(&rt, rt.alloc(), text.as_bytes()),
            "{row}"
        );
    }
    let whole = with_hashes(rt.alloc(), "h1 100\nh2 200\nh3 300\n").expect(&rt, "memory");
    let made = output_of(&rt, rt.alloc(), Command::Make, whole.as_bytes());
    assert!(rt; output_of(&rt, rt.alloc(), Command::Root, made.as_bytes()).as_str() == THREE_PAIRS);
}

// Returns how a command prints its fault for some lines. It is empty if there is none, and ends with what was written.
fn fault_of(rt: &impl Abort, alloc: Global, command: Command, lines: &str) -> String {
    let input = lines_of_row(alloc, lines).expect(rt, "memory");
    let (mut reader, mut output) = (input.as_bytes(), Vec::new(alloc));
    let result = run_command(command, alloc, alloc, &mut reader, &mut output);
    let mut text = match result {
        Ok(()) => String::new(alloc),
        Err(error) => error.to_string(alloc).expect(rt, "memory"),
    };
    let written = String::from_utf8(output).expect(rt, "a text");
    text.push_str(&written).expect(rt, "memory");
    text
}

// Fails unless a command gives the fault at the end of each row for its lines, and writes nothing.
fn are_refused(rt: &impl Abort, alloc: Global, command: Command, rows: &str) {
    for row in rows.lines() {
        let (lines, fault) = row.split_once('|').expect(rt, "two fields");
        assert!(rt;
            fault_of(rt, alloc, command, lines).as_str() == fault,
            "{row}"
        );
    }
}

const FAULTY: &str = r#"@0|xetrange: fault 1 at line 1
h1 100;@1;!|xetrange: fault 1 at line 2
h1 0100|xetrange: fault 1 at line 1
h1 100;;h2 200|xetrange: fault 1 at line 2
h1 18446744073709551615;--;h2 1;!|xetrange: fault 2 at line 3
{"at_end":false,"at_start":false,"levels":[[0,0]],"nodes":[]}|xetrange: fault 1 at line 1"#;

#[test]
fn make_names_the_first_faulty_line(rt: HostRuntime) {
    are_refused(&rt, rt.alloc(), Command::Make, FAULTY);
}

// Fails unless `join` and `root` give the fault of each row for its lines.
fn are_no_ranges(rt: &impl Abort, alloc: Global, rows: &str) {
    are_refused(rt, alloc, Command::Join, rows);
    are_refused(rt, alloc, Command::Root, rows);
}

// Values that describe no subtree, or one with a mark, each after the lowest rule that it breaks.
const FORGED: &str = r#"|
| 
|--
|{"at_end":false
|{"at_end":true,"at_start":true,"levels":[[0,0]],"nodes":[]}
|{"at_end":false,"at_start":true,"levels":[[0,0]],"nodes":[]}
|{"at_end":true,"at_start":false,"levels":[[0,0]],"nodes":[]}
|{}{}
: rule 1|[]
: rule 2|{}
: rule 3|{"at_end":false,"at_start":false,"levels":[[1,0]],"nodes":[{"hash":"h1","size":-1}]}
: rule 4|{"at_end":false,"at_start":false,"levels":[[1]],"nodes":[{"hash":"h1","size":1}]}
: rule 5|{"at_end":false,"at_start":false,"levels":[],"nodes":[]}
: rule 6|{"at_end":false,"at_start":false,"levels":[[1,0]],"nodes":[]}
: rule 7|{"at_end":false,"at_start":false,"levels":[[2,0]],"nodes":[{"hash":"h1","size":18446744073709551615},{"hash":"h2","size":1}]}
: rule 8|{"at_end":false,"at_start":false,"levels":[[0,1]],"nodes":[{"hash":"h1","size":1}]}
: rule 9|{"at_end":false,"at_start":true,"levels":[[1,0],[1,0]],"nodes":[{"hash":"h1","size":1},{"hash":"h2","size":1}]}
: rule 10|{"at_end":true,"at_start":true,"levels":[[2,0]],"nodes":[{"hash":"h1","size":1},{"hash":"h2","size":1}]}
: rule 11|{"at_end":false,"at_start":false,"levels":[[0,0],[0,0]],"nodes":[]}
: rule 12|{"at_end":false,"at_start":false,"levels":[[1,0],[1,0]],"nodes":[{"hash":"h1","size":1},{"hash":"h2","size":1}]}
: rule 13|{"at_end":false,"at_start":true,"levels":[[0,0],[1,0]],"nodes":[{"hash":"h1","size":1}]}"#;

// Returns whether a command refuses bytes that are no text.
fn refuses_bytes(alloc: Global, command: Command) -> bool {
    let (mut reader, mut output) = (b"\xff\n".as_slice(), Vec::new(alloc));
    let result = run_command(command, alloc, alloc, &mut reader, &mut output);
    result == Err(RangeFault::BadRange(1, None)) && output.is_empty()
}

#[test]
fn lines_from_strangers_are_refused_by_their_least_rule(rt: HostRuntime) {
    for row in FORGED.lines() {
        let (rule, line) = row.split_once('|').expect(&rt, "two fields");
        let row = format!(in rt.alloc();
            "{NO_CHUNK};{line};{NO_CHUNK};|xetrange: fault 8 at line 2{rule}"
        ).expect(&rt, "memory");
        are_no_ranges(&rt, rt.alloc(), row.as_str());
    }
    assert!(rt; refuses_bytes(rt.alloc(), Command::Join));
    assert!(rt; refuses_bytes(rt.alloc(), Command::Root));
}

#[test]
fn two_subtrees_on_a_line_are_no_range(rt: HostRuntime) {
    let row = format!(in rt.alloc(); "{NO_CHUNK}{NO_CHUNK};|xetrange: fault 8 at line 1").expect(
        &rt, "memory",
    );
    are_no_ranges(&rt, rt.alloc(), row.as_str());
}

const TOO_LARGE: &str =
    r#"{"at_end":false,"at_start":false,"levels":[[1,0]],"nodes":[{"hash":"h1","size":18446744073709551615}]};{"at_end":false,"at_start":false,"levels":[[0,0]],"nodes":[]};{"at_end":false,"at_start":false,"levels":[[1,0]],"nodes":[{"hash":"h2","size":1}]};!|xetrange: fault 2 at line 3"#;

#[test]
fn sizes_of_all_ranges_fit(rt: HostRuntime) {
    are_no_ranges(&rt, rt.alloc(), TOO_LARGE);
}

// The bytes of two MiB. The line of a range of 25,000 nodes has more.
const TWO_MIB: usize = 2_097_152;

// The answer to the 25,000 pairs of `memory::pairs`, whose range keeps them all.
const UNCUT_PAIRS: &str = "xorb 19843c4a132f40019f5eee85375f3149e1fc21412913a1055ba16d70a41b5a49
file a1b329a75e9bb6a309375e0eb29c1a84cecd1582ffb3f5d0a6af2ae200fa0ac1
";

#[test]
fn the_range_of_many_pairs_has_their_root(rt: HostRuntime) {
    let mut pairs = String::new(rt.alloc());
    push_lines(&rt, &mut pairs, 0..20_000);
    let made = output_of(&rt, rt.alloc(), Command::Make, pairs.as_bytes());
    let root = output_of(&rt, rt.alloc(), Command::Root, made.as_bytes());
    assert!(rt; root.as_str() == MANY_PAIRS);
    let uncut = memory::pairs(&rt, rt.alloc(), 25_000);
    let made = output_of(&rt, rt.alloc(), Command::Make, uncut.as_bytes());
    assert!(rt; made.len() > TWO_MIB);
    let root = output_of(&rt, rt.alloc(), Command::Root, made.as_bytes());
    assert!(rt; root.as_str() == UNCUT_PAIRS);
}

// Returns the ranges of one chunk each of the pairs of `MANY_PAIRS`.
fn many_ranges(rt: &impl Abort, alloc: Global) -> String {
    let mut ranges = String::new(alloc);
    for i in 0..20_000 {
        let hash = DataHash::from([i, 0, 0, i % 4]);
        writeln!(
            ranges,
            "{{\"at_end\":false,\"at_start\":false,\"levels\":[[1,0]],\"nodes\":[{{\"hash\":\"{hash}\",\"size\":1}}]}}"
        )
        .expect(rt, "memory");
    }
    ranges
}

#[test]
fn many_ranges_are_merged(rt: HostRuntime) {
    let ranges = many_ranges(&rt, rt.alloc());
    assert!(rt;
        output_of(&rt, rt.alloc(), Command::Root, ranges.as_bytes()).as_str() == MANY_PAIRS
    );
    let joined = output_of(&rt, rt.alloc(), Command::Join, ranges.as_bytes());
    assert!(rt;
        output_of(&rt, rt.alloc(), Command::Root, joined.as_bytes()).as_str() == MANY_PAIRS
    );
}

#[test]
fn a_faulty_line_may_be_long(rt: HostRuntime) {
    let line = "a".repeat(rt.alloc(), 1_000_000).expect(&rt, "memory");
    for (command, fault) in [
        (Command::Make, "xetrange: fault 1 at line 1"),
        (Command::Join, "xetrange: fault 8 at line 1"),
        (Command::Root, "xetrange: fault 8 at line 1"),
    ] {
        assert!(rt; fault_of(&rt, rt.alloc(), command, &line).as_str() == fault);
    }
}

// Returns whether a fault has a status, and prints as it should.
fn prints(rt: &impl Abort, alloc: Global, fault: RangeFault, status: u8, end: &str) -> bool {
    let text = format!(in alloc; "xetrange: fault {status}{end}").expect(rt, "memory");
    fault.status() == status && fault.to_string(alloc).expect(rt, "memory") == text
}

// Returns whether the faults of a line print it.
fn print_line(rt: &impl Abort, alloc: Global, line: u64) -> bool {
    let end = format!(in alloc; " at line {line}").expect(rt, "memory");
    prints(rt, alloc, RangeFault::BadLine(line), 1, &end)
        && prints(rt, alloc, RangeFault::Sizes(line), 2, &end)
        && prints(rt, alloc, RangeFault::BadRange(line, None), 8, &end)
}

// Returns whether the fault of a line and a rule prints both.
fn prints_rule(rt: &impl Abort, alloc: Global, line: u64, rule: u8) -> bool {
    let end = format!(in alloc; " at line {line}: rule {rule}").expect(rt, "memory");
    prints(rt, alloc, RangeFault::BadRange(line, Some(rule)), 8, &end)
}

#[test]
fn faults_print_their_status_line_and_rule(rt: HostRuntime) {
    assert!(rt; prints(&rt, rt.alloc(), RangeFault::Memory, 3, ""));
    assert!(rt; prints(&rt, rt.alloc(), RangeFault::Read, 4, ""));
    assert!(rt; prints(&rt, rt.alloc(), RangeFault::Write, 5, ""));
    assert!(rt; prints(&rt, rt.alloc(), RangeFault::NoChunks, 9, ""));
    assert!(rt; prints(&rt, rt.alloc(), RangeFault::Mismatch, 10, ""));
    for line in LINES {
        assert!(rt; print_line(&rt, rt.alloc(), line), "{line}");
        for rule in 1..=13 {
            assert!(rt; prints_rule(&rt, rt.alloc(), line, rule), "{line} {rule}");
        }
    }
}

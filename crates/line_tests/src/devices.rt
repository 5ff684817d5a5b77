//! Devices that fail, that are interrupted, or that give or take few bytes, under each call that reads lines.

mod lines_of_pairs;

use std::alloc::Global;
use std::io::{self, ErrorKind, Read, Write};
use std::process::Abort;
use test_support::texts::{NO_CHUNK, lines_of_row};
use xet_hash::data_hash::DataHash;
use xet_merkle::plain_range::PlainRange;
use xetrange_text::fault::RangeFault;
use xetrange_text::join::{join, root};
use xetrange_text::make::make;
use xetrange_text::prove::prove;
use xetrange_text::verify::verify;
use xetroot_text::fault::Fault;
use xetroot_text::run::{run, run_with};

// A call that reads lines.
#[derive(Clone, Copy, Debug)]
enum Call {
    Run,
    RunOverPlainRanges,
    Make,
    Join,
    Root,
    Prove,
    Verify,
}

const CALLS: [Call; 7] = [
    Call::Run,
    Call::RunOverPlainRanges,
    Call::Make,
    Call::Join,
    Call::Root,
    Call::Prove,
    Call::Verify,
];

// The proof of a file's only chunk, and its data.
const PART: &str =
    r#"{"chunks":[{"hash":"07b16765932361639f328df9ed08ff3016cf008e11ff9487dda7b5a465e25b8d","size":86}],"levels":[]}
the data of one chunk, with more than the sixty bytes of three writes of a slow device"#;

const FILE_OF_PART: &str = "f6338fcbca789f406854401b5bb4e2a3fea0d8f43668c53dcfd41f18f3324133";

// Returns a line that the call takes, or a line and data.
fn line_of(call: Call) -> &'static str {
    match call {
        Call::Run | Call::RunOverPlainRanges | Call::Make | Call::Prove => {
            "+a chunk of more bytes than the forty that two reads give"
        }
        Call::Join | Call::Root => NO_CHUNK,
        Call::Verify => PART,
    }
}

// The status of a fault, and its line number.
#[derive(Clone, Copy, PartialEq)]
struct End {
    status: u8,
    line: Option<u64>,
}

const DONE: End = End {
    status: 0,
    line: None,
};

fn end_of_run(fault: Fault) -> End {
    let line = match fault {
        Fault::BadLine(line) | Fault::Sizes(line) | Fault::Overlap(line) => Some(line),
        Fault::Memory | Fault::Read | Fault::Write | Fault::Gap => None,
    };
    End {
        status: fault.status(),
        line,
    }
}

fn end_of_range(fault: RangeFault) -> End {
    let line = match fault {
        RangeFault::BadLine(line) | RangeFault::Sizes(line) | RangeFault::BadRange(line, _) => {
            Some(line)
        }
        RangeFault::Memory
        | RangeFault::Read
        | RangeFault::Write
        | RangeFault::NoChunks
        | RangeFault::Mismatch => None,
    };
    End {
        status: fault.status(),
        line,
    }
}

// Verifies all bytes of the file of one chunk.
fn verify_file<R: Read, W: Write>(alloc: Global, r: &mut R, w: &mut W) -> Result<(), RangeFault> {
    match DataHash::from_hex(FILE_OF_PART) {
        Ok(file_hash) => verify(alloc, alloc, &file_hash, 0, 86, r, w),
        Err(_) => Err(RangeFault::Mismatch),
    }
}

// Makes a call, and returns how it ends.
fn end_of_call<R: Read, W: Write>(alloc: Global, call: Call, r: &mut R, w: &mut W) -> End {
    let result = match call {
        Call::Run => run(alloc, r, w).map_err(end_of_run),
        Call::RunOverPlainRanges => run_with::<PlainRange, _, _>(alloc, r, w).map_err(end_of_run),
        Call::Make => make(alloc, alloc, r, w).map_err(end_of_range),
        Call::Join => join(alloc, alloc, r, w).map_err(end_of_range),
        Call::Root => root(alloc, alloc, r, w).map_err(end_of_range),
        Call::Prove => prove(alloc, alloc, 0, 1, r, w).map_err(end_of_range),
        Call::Verify => verify_file(alloc, r, w).map_err(end_of_range),
    };
    result.err().unwrap_or(DONE)
}

// How the calls of a device go. Each transfers at most `most` bytes, and is interrupted `interruptions` times before it
// succeeds. The call number `odd_call`, from 1, goes wrong `odd_times` times before it succeeds: it fails, or nothing
// is given or taken.
#[derive(Clone, Copy)]
pub(crate) struct Manner {
    pub(crate) most: usize,
    interruptions: usize,
    odd_call: usize,
    odd_times: usize,
    odd_kind: Option<ErrorKind>,
}

pub(crate) const EVEN: Manner = Manner {
    most: 20,
    interruptions: 0,
    odd_call: 0,
    odd_times: 0,
    odd_kind: None,
};

// Each call is interrupted as often as it can be borne before it transfers one byte.
const SLOW: Manner = Manner {
    most: 1,
    interruptions: 16,
    odd_call: 0,
    odd_times: 0,
    odd_kind: None,
};

// Each call fails.
pub(crate) const FAILING: Manner = Manner {
    most: 0,
    interruptions: 0,
    odd_call: 1,
    odd_times: usize::MAX,
    odd_kind: Some(ErrorKind::Other),
};

fn odd(odd_call: usize, odd_times: usize, odd_kind: Option<ErrorKind>) -> Manner {
    Manner {
        most: 20,
        interruptions: 0,
        odd_call,
        odd_times,
        odd_kind,
    }
}

// Returns the manner of a device that transfers at most `most` bytes a call. The call number `failing_call`, from 1, fails
// once, and none if that is 0.
pub(crate) fn failing_at(failing_call: usize, most: usize) -> Manner {
    let mut manner = odd(failing_call, 1, Some(ErrorKind::Other));
    manner.most = most;
    manner
}

// A device, the number of its calls and of those that succeeded, and how often the current one went wrong.
#[derive(Clone, Copy)]
pub(crate) struct Device {
    manner: Manner,
    pub(crate) calls: usize,
    done: usize,
    wrong: usize,
}

impl Device {
    fn new(manner: Manner) -> Self {
        Device {
            manner,
            calls: 0,
            done: 0,
            wrong: 0,
        }
    }

    // Returns the most bytes that the next call may transfer.
    fn call(&mut self) -> io::Result<usize> {
        let manner = self.manner;
        let is_odd = self.done.saturating_add(1) == manner.odd_call;
        let times = if is_odd {
            manner.odd_times
        } else {
            manner.interruptions
        };
        self.calls = self.calls.saturating_add(1);
        if self.wrong >= times {
            self.done = self.done.saturating_add(1);
            self.wrong = 0;
            return Ok(manner.most);
        }
        self.wrong = self.wrong.saturating_add(1);
        if !is_odd {
            return Err(io::Error::from(ErrorKind::Interrupted));
        }
        match manner.odd_kind {
            Some(kind) => Err(io::Error::from(kind)),
            None => Ok(0),
        }
    }
}

// A reader of a text, and the most bytes that it was asked for.
#[derive(Drop)]
pub(crate) struct Input<'a> {
    text: &'a [u8],
    pub(crate) device: Device,
    largest: usize,
}

impl<'a> Input<'a> {
    pub(crate) fn new(text: &'a [u8], manner: Manner) -> Self {
        Input {
            text,
            device: Device::new(manner),
            largest: 0,
        }
    }
}

impl Read for Input<'_> {
    fn read(&mut self, buf: &mut [u8]) -> io::Result<usize> {
        self.largest = self.largest.max(buf.len());
        let most = self.device.call()?;
        let len = self.text.len().min(buf.len()).min(most);
        let (front, rest) = self.text.split_at(len);
        buf[..len].copy_from_slice(front);
        self.text = rest;
        Ok(len)
    }
}

// A writer that keeps what it takes.
#[derive(Drop)]
pub(crate) struct Output {
    pub(crate) bytes: Vec<u8>,
    pub(crate) device: Device,
    flush: Device,
}

impl Output {
    // Makes a writer, given the manners of its writes and of its flush.
    pub(crate) fn new(alloc: Global, writes: Manner, flush: Manner) -> Self {
        Output {
            bytes: Vec::new(alloc),
            device: Device::new(writes),
            flush: Device::new(flush),
        }
    }
}

impl Write for Output {
    fn write(&mut self, buf: &[u8]) -> io::Result<usize> {
        let len = self.device.call()?.min(buf.len());
        self.bytes.extend_from_slice(&buf[..len])?;
        Ok(len)
    }

    fn flush(&mut self) -> io::Result<()> {
        let _most = self.flush.call()?;
        Ok(())
    }
}

// How the reads, the writes and the flush of a run go.
#[derive(Clone, Copy)]
struct Manners {
    read: Manner,
    write: Manner,
    flush: Manner,
}

const ALL_EVEN: Manners = Manners {
    read: EVEN,
    write: EVEN,
    flush: EVEN,
};

const ALL_SLOW: Manners = Manners {
    read: SLOW,
    write: SLOW,
    flush: SLOW,
};

// What a run did: how it ended, the numbers of its reads, writes and flushes, the most bytes that were read at once,
// and what it wrote.
#[derive(Drop)]
struct Outcome {
    end: End,
    calls: (usize, usize, usize),
    largest: usize,
    written: Vec<u8>,
}

// A call and the text that it reads.
#[derive(Clone, Copy)]
struct Run<'a> {
    alloc: Global,
    call: Call,
    text: &'a [u8],
}

fn outcome_of(run: Run<'_>, manners: Manners) -> Outcome {
    let mut r = Input::new(run.text, manners.read);
    let mut w = Output::new(run.alloc, manners.write, manners.flush);
    let end = end_of_call(run.alloc, run.call, &mut r, &mut w);
    let Output {
        bytes,
        device,
        flush,
    } = w;
    Outcome {
        end,
        calls: (r.device.calls, device.calls, flush.calls),
        largest: r.largest,
        written: bytes,
    }
}

// The place of a device in a run.
#[derive(Clone, Copy, Debug)]
enum Place {
    Read,
    Write,
    Flush,
}

const PLACES: [Place; 3] = [Place::Read, Place::Write, Place::Flush];

// Returns how many calls a run makes at a place.
fn calls_at(outcome: &Outcome, place: Place) -> usize {
    let (reads, writes, flushes) = outcome.calls;
    match place {
        Place::Read => reads,
        Place::Write => writes,
        Place::Flush => flushes,
    }
}

// Returns the manners of a run in which one place has this one.
fn manners_with(place: Place, manner: Manner) -> Manners {
    let mut manners = ALL_EVEN;
    match place {
        Place::Read => manners.read = manner,
        Place::Write => manners.write = manner,
        Place::Flush => manners.flush = manner,
    }
    manners
}

// Returns whether a run without a fault goes like an even one, except for `times` more calls at a place.
fn is_borne(even: &Outcome, late: &Outcome, place: Place, times: usize) -> bool {
    let (mut reads, mut writes, mut flushes) = even.calls;
    match place {
        Place::Read => reads = reads.saturating_add(times),
        Place::Write => writes = writes.saturating_add(times),
        Place::Flush => flushes = flushes.saturating_add(times),
    }
    late.end == DONE && late.calls == (reads, writes, flushes) && late.written == even.written
}

// Returns whether a run has the fault of a place. The calls before the odd one must have succeeded, and no call may
// follow it.
fn is_fault(even: &Outcome, failed: &Outcome, place: Place, manner: Manner) -> bool {
    let done = manner.odd_call.saturating_sub(1);
    let calls = done.saturating_add(manner.odd_times);
    let (reads, writes, _) = even.calls;
    let (status, expected, len) = match place {
        Place::Read => (4, (calls, 0, 0), 0),
        Place::Write => (5, (reads, calls, 0), manner.most.saturating_mul(done)),
        Place::Flush => (5, (reads, writes, calls), even.written.len()),
    };
    failed.end == End { status, line: None }
        && failed.calls == expected
        && failed.written.len() == len
        && even.written.starts_with(&failed.written)
}

// Returns whether a run goes on as an even one does if a place goes wrong in this manner.
fn bears(run: Run<'_>, even: &Outcome, place: Place, manner: Manner) -> bool {
    let late = outcome_of(run, manners_with(place, manner));
    is_borne(even, &late, place, manner.odd_times)
}

// Returns whether a run has the fault of a place that goes wrong in this manner.
fn fails(run: Run<'_>, even: &Outcome, place: Place, manner: Manner) -> bool {
    let failed = outcome_of(run, manners_with(place, manner));
    is_fault(even, &failed, place, manner)
}

// Returns whether a run makes each call of an even device once.
fn is_even(run: Run<'_>, even: &Outcome) -> bool {
    // The last read finds the end.
    let reads = run.text.len().div_ceil(20).saturating_add(1);
    let writes = even.written.len().div_ceil(20);
    even.end == DONE && even.calls == (reads, writes, 1) && even.largest == 65536
}

// Returns whether a run goes on after 1, 15 and 16 interruptions in a row, and fails at 17.
fn is_repeated(run: Run<'_>, even: &Outcome, place: Place, odd_call: usize) -> bool {
    let interrupted = Some(ErrorKind::Interrupted);
    bears(run, even, place, odd(odd_call, 1, interrupted))
        && bears(run, even, place, odd(odd_call, 15, interrupted))
        && bears(run, even, place, odd(odd_call, 16, interrupted))
        && fails(run, even, place, odd(odd_call, 17, interrupted))
}

// Returns whether a run with slow devices writes the same as an even one.
fn is_done_slowly(run: Run<'_>, even: &Outcome) -> bool {
    let slow = outcome_of(run, ALL_SLOW);
    slow.end == DONE && slow.written == even.written
}

// Returns the run of a call on a line that it takes.
fn run_of(alloc: Global, call: Call) -> Run<'static> {
    Run {
        alloc,
        call,
        text: line_of(call).as_bytes(),
    }
}

#[test]
fn each_call_is_made_once_and_repeated_sixteen_times_where_it_is_interrupted(rt: HostRuntime) {
    for call in CALLS {
        let run = run_of(rt.alloc(), call);
        let even = outcome_of(run, ALL_EVEN);
        assert!(rt;
            is_even(run, &even) && is_done_slowly(run, &even),
            "{call:?}"
        );
        for place in PLACES {
            for odd_call in 1..=calls_at(&even, place) {
                assert!(rt;
                    is_repeated(run, &even, place, odd_call),
                    "{call:?} {place:?} {odd_call}"
                );
            }
        }
    }
}

// Kinds of errors that end a run at once.
const LASTING: [ErrorKind; 11] = [
    ErrorKind::Other,
    ErrorKind::WouldBlock,
    ErrorKind::TimedOut,
    ErrorKind::UnexpectedEof,
    ErrorKind::BrokenPipe,
    ErrorKind::ConnectionReset,
    ErrorKind::InvalidInput,
    ErrorKind::InvalidData,
    ErrorKind::WriteZero,
    ErrorKind::OutOfMemory,
    ErrorKind::StorageFull,
];

// Returns whether each error that lasts ends a run at once.
fn ends_at_errors(run: Run<'_>, even: &Outcome, place: Place, odd_call: usize) -> bool {
    let mut is_ended = true;
    for kind in LASTING {
        is_ended = is_ended && fails(run, even, place, odd(odd_call, 1, Some(kind)));
    }
    is_ended
}

#[test]
fn no_call_follows_an_error_that_lasts_or_a_write_that_takes_nothing(rt: HostRuntime) {
    for call in CALLS {
        let run = run_of(rt.alloc(), call);
        let even = outcome_of(run, ALL_EVEN);
        for place in PLACES {
            for odd_call in 1..=calls_at(&even, place) {
                assert!(rt;
                    ends_at_errors(run, &even, place, odd_call),
                    "{call:?} {place:?} {odd_call}"
                );
            }
        }
        for manner in [odd(1, 1, None), odd(3, 1, None)] {
            assert!(rt; fails(run, &even, Place::Write, manner), "{call:?}");
        }
    }
}

// Returns whether a run has written the bytes before the write that fails, and no others.
fn leaves_a_beginning(run: Run<'_>, even: &Outcome, odd_call: usize) -> bool {
    let mut manners = manners_with(Place::Write, SLOW);
    manners.write.odd_call = odd_call;
    manners.write.odd_times = 17;
    let failed = outcome_of(run, manners);
    let done = odd_call.saturating_sub(1);
    failed.end.status == 5
        && failed.written.len() == done
        && even.written.starts_with(&failed.written)
}

#[test]
fn a_failed_write_leaves_a_beginning(rt: HostRuntime) {
    for call in CALLS {
        let run = run_of(rt.alloc(), call);
        let even = outcome_of(run, manners_with(Place::Write, SLOW));
        for odd_call in 1..=even.written.len() {
            assert!(rt;
                leaves_a_beginning(run, &even, odd_call),
                "{call:?} {odd_call}"
            );
        }
    }
}

// Returns whether a run ends after the first of three lines if the second read gives nothing. A read gives one line,
// without its newline.
fn ends_at_the_first_end(rt: &impl Abort, alloc: Global, call: Call) -> bool {
    let line = line_of(call);
    let lines = format!(in alloc; "{line}\n{line}\n{line}\n").expect(rt, "memory");
    let mut manner = odd(2, 1, None);
    manner.most = line.len();
    let run = Run {
        alloc,
        call,
        text: lines.as_bytes(),
    };
    let ended = outcome_of(run, manners_with(Place::Read, manner));
    let single = outcome_of(run_of(alloc, call), ALL_EVEN);
    ended.end == DONE && ended.calls.0 == 2 && ended.written == single.written
}

#[test]
fn the_first_end_of_the_input_is_its_end(rt: HostRuntime) {
    for call in CALLS {
        assert!(rt; ends_at_the_first_end(&rt, rt.alloc(), call), "{call:?}");
    }
}

// Lines before a read that fails, each after the status of the run.
const BEFORE_A_FAILURE: &str = "4|
1|zz;
4|zz
4|h1 100;
4|h1 100;--;!
1|h1 100;!;--
6|h1 100;@0;h2 200;
4|@1;h1 100;";

// Returns whether a run has a status and writes nothing if a read fails after its lines.
fn has_status(run: Run<'_>, status: u8) -> bool {
    // All lines come with one read.
    let odd_call = if run.text.is_empty() { 1 } else { 2 };
    let mut read = odd(odd_call, 1, Some(ErrorKind::Other));
    read.most = usize::MAX;
    let failed = outcome_of(run, manners_with(Place::Read, read));
    failed.end.status == status && failed.written.is_empty()
}

// Returns whether a call has the status of a row.
fn has_status_of_row(rt: &impl Abort, alloc: Global, call: Call, row: &str) -> bool {
    let (status, lines) = row.split_once('|').expect(rt, "two fields");
    let status = status.parse().expect(rt, "a number");
    let input = lines_of_row(alloc, lines).expect(rt, "memory");
    let run = Run {
        alloc,
        call,
        text: input.as_bytes(),
    };
    has_status(run, status)
}

#[test]
fn a_failed_read_is_a_fault_unless_a_line_before_it_is_faulty(rt: HostRuntime) {
    for row in BEFORE_A_FAILURE.lines() {
        assert!(rt; has_status_of_row(&rt, rt.alloc(), Call::Run, row), "{row}");
        assert!(rt;
            has_status_of_row(&rt, rt.alloc(), Call::RunOverPlainRanges, row),
            "{row}"
        );
    }
}

//! Devices under lines of pairs. Neither the answer nor the line number of a fault depends on how the bytes come.

use super::{
    ALL_EVEN, ALL_SLOW, Call, DONE, End, Manner, Outcome, Place, Run, SLOW, bears, fails,
    manners_with, odd, outcome_of,
};
use std::alloc::Global;
use std::io::ErrorKind;
use std::process::Abort;
use test_support::texts::{THREE_PAIRS, four_fields, lines_of_row, with_hashes};

// The calls that read lines of pairs.
const CALLS: [Call; 3] = [Call::Run, Call::RunOverPlainRanges, Call::Make];

const THREE_LINES: &str = "h1 100;h2 200;h3 300;";

// The range of the three pairs.
const RANGE: &str =
    r#"{"at_end":false,"at_start":false,"levels":[[3,0]],"nodes":[{"hash":"h1","size":100},{"hash":"h2","size":200},{"hash":"h3","size":300}]}
"#;

// Returns what a call writes for the three pairs.
fn answer(call: Call) -> &'static str {
    match call {
        Call::Run | Call::RunOverPlainRanges => THREE_PAIRS,
        Call::Make | Call::Join | Call::Root | Call::Prove | Call::Verify => RANGE,
    }
}

const INTERRUPTED: ErrorKind = ErrorKind::Interrupted;

const LASTING: ErrorKind = ErrorKind::Other;

const FAILED_READ: End = End {
    status: 4,
    line: None,
};

// Returns a device that transfers one byte a call. The call number `odd_call`, from 1, goes wrong `odd_times` times
// before it succeeds.
fn bytewise(odd_call: usize, odd_times: usize, odd_kind: ErrorKind) -> Manner {
    Manner {
        most: 1,
        interruptions: 0,
        odd_call,
        odd_times,
        odd_kind: Some(odd_kind),
    }
}

// Returns whether a run goes on after 16 interruptions in a row, and fails at 17, and at an error that lasts.
fn bears_interruptions(run: Run<'_>, even: &Outcome, place: Place, odd_call: usize) -> bool {
    bears(run, even, place, bytewise(odd_call, 16, INTERRUPTED))
        && fails(run, even, place, bytewise(odd_call, 17, INTERRUPTED))
        && fails(run, even, place, bytewise(odd_call, 1, LASTING))
}

// Returns whether a run writes an answer, whichever call of a device is interrupted.
fn is_answered(run: Run<'_>, place: Place, expected: &str) -> bool {
    let even = outcome_of(run, manners_with(place, bytewise(0, 0, LASTING)));
    let count = match place {
        Place::Read => run.text.len().saturating_add(1),
        Place::Write => expected.len(),
        Place::Flush => 1,
    };
    for odd_call in 1..=count {
        if !bears_interruptions(run, &even, place, odd_call) {
            return false;
        }
    }
    even.end == DONE && even.written.as_slice() == expected.as_bytes()
}

// Returns whether a run writes an answer if both devices transfer one byte a call, and also if one of them or both are
// slow.
fn is_answered_bytewise(run: Run<'_>, expected: &str) -> bool {
    let mut one_byte = manners_with(Place::Read, bytewise(0, 0, LASTING));
    one_byte.write = one_byte.read;
    for manners in [
        one_byte,
        manners_with(Place::Read, SLOW),
        manners_with(Place::Write, SLOW),
        ALL_SLOW,
    ] {
        let found = outcome_of(run, manners);
        if found.end != DONE || found.written.as_slice() != expected.as_bytes() {
            return false;
        }
    }
    true
}

// Returns whether a run fails at the first write that takes nothing, or at one in the middle.
fn fails_where_nothing_is_taken(run: Run<'_>) -> bool {
    let even = outcome_of(run, ALL_EVEN);
    fails(run, &even, Place::Write, odd(1, 1, None))
        && fails(run, &even, Place::Write, odd(3, 1, None))
}

#[test]
fn three_pairs_are_answered_though_any_call_of_a_device_is_interrupted(rt: HostRuntime) {
    let input = lines_of_row(rt.alloc(), THREE_LINES).expect(&rt, "memory");
    for call in CALLS {
        let expected = with_hashes(rt.alloc(), answer(call)).expect(&rt, "memory");
        let run = Run {
            alloc: rt.alloc(),
            call,
            text: input.as_bytes(),
        };
        for place in [Place::Read, Place::Write, Place::Flush] {
            assert!(rt; is_answered(run, place, &expected), "{call:?} {place:?}");
        }
        assert!(rt; is_answered_bytewise(run, &expected), "{call:?}");
        assert!(rt; fails_where_nothing_is_taken(run), "{call:?}");
    }
}

// Each row has the status of a fault and its line number, the lines up to the faulty one, and the lines after it.
const FAULTY: &str = "1|1|zz;|h1 100;
1|2|h1 100;zz;|h2 200;h3 300;
1|4|h1 100;h2 200;h3 300;;|h1 100;
1|2|--;-;|h1 100;h2 200
2|2|h1 18446744073709551615;h2 1;|h3 300;zz
2|3|h1 100;h2 200;h3 18446744073709551316;|zz;";

// Returns whether a run ends in this way and writes nothing, if its reads go in this manner.
fn ends(run: Run<'_>, read: Manner, end: End) -> bool {
    let failed = outcome_of(run, manners_with(Place::Read, read));
    failed.end == end && failed.written.is_empty()
}

// Returns whether a run has a fault of its first `front` bytes. A failed read of one of them must be its fault instead.
fn has_fault(run: Run<'_>, front: usize, fault: End) -> bool {
    for odd_call in 1..=run.text.len() {
        let expected = if odd_call <= front {
            FAILED_READ
        } else {
            fault
        };
        if !ends(run, bytewise(odd_call, 17, INTERRUPTED), expected)
            || !ends(run, bytewise(odd_call, 1, LASTING), expected)
        {
            return false;
        }
    }
    let slow = outcome_of(run, ALL_SLOW);
    slow.end == fault && slow.written.is_empty()
}

// Returns the lines of two fields, and how many bytes those of the first have.
fn input_of(rt: &impl Abort, alloc: Global, front: &str, rest: &str) -> (String, usize) {
    let mut input = lines_of_row(alloc, front).expect(rt, "memory");
    let length = input.len();
    let rest = lines_of_row(alloc, rest).expect(rt, "memory");
    input.push_str(&rest).expect(rt, "memory");
    (input, length)
}

// Returns whether a call has the fault of a row, though any read is interrupted or fails.
fn has_fault_of_row(rt: &impl Abort, alloc: Global, call: Call, row: &str) -> bool {
    let (status, line, front, rest) = four_fields(row, '|').expect(rt, "four fields");
    let fault = End {
        status: status.parse().expect(rt, "a number"),
        line: Some(line.parse().expect(rt, "a number")),
    };
    let (input, front) = input_of(rt, alloc, front, rest);
    let run = Run {
        alloc,
        call,
        text: input.as_bytes(),
    };
    has_fault(run, front, fault)
}

#[test]
fn a_fault_names_its_line_though_any_read_is_interrupted_or_fails(rt: HostRuntime) {
    for row in FAULTY.lines() {
        for call in CALLS {
            assert!(rt;
                has_fault_of_row(&rt, rt.alloc(), call, row),
                "{call:?} {row}"
            );
        }
    }
}

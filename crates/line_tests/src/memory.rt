//! The lists that keep pairs before they are merged. Counting allocations shows their lengths.

use refusing_allocator::RefusingAllocator;
use std::alloc::Global;
use std::io::Write;
use std::process::Abort;
use xet_hash::data_hash::DataHash;
use xet_merkle::plain_range::PlainRange;
use xetrange_text::make::make;
use xetroot_text::run::{run, run_with};

// A call that reads pairs.
#[derive(Clone, Copy, Debug)]
enum Call {
    Run,
    RunOverPlainRanges,
    Make,
}

// Returns whether this many allocations are enough for a call.
fn are_enough(alloc: Global, call: Call, mut input: &[u8], granted: u32) -> bool {
    let refusing: RefusingAllocator<Global> = RefusingAllocator::new(alloc, granted);
    let mut output = Vec::new(alloc);
    match call {
        Call::Run => run(&refusing, &mut input, &mut output).is_ok(),
        Call::RunOverPlainRanges => {
            run_with::<PlainRange<&RefusingAllocator<Global>>, _, _>(
                &refusing,
                &mut input,
                &mut output,
            ).is_ok()
        }
        Call::Make => make(&refusing, alloc, &mut input, &mut output).is_ok(),
    }
}

// Returns the lines of `count` pairs. Only the first is a natural cut, so they have one level.
pub(crate) fn pairs(rt: &impl Abort, alloc: Global, count: u64) -> String {
    let mut lines = String::new(alloc);
    for i in 0..count {
        let hash = DataHash::from([i, 0, 0, u64::from(i != 0)]);
        writeln!(lines, "{hash} 1").expect(rt, "memory");
    }
    lines
}

#[test]
fn a_list_has_4096_pairs(rt: HostRuntime) {
    let (full, more) = (pairs(&rt, rt.alloc(), 4096), pairs(&rt, rt.alloc(), 4097));
    // The allocations by which a list grows to 4096 pairs and is merged. One more pair ends the list, which needs more
    // than the one allocation that growing would need.
    for (call, requests) in [
        (Call::Run, 26),
        (Call::RunOverPlainRanges, 15),
        (Call::Make, 15),
    ] {
        assert!(rt;
            are_enough(rt.alloc(), call, full.as_bytes(), requests),
            "{call:?}"
        );
        assert!(rt;
            !are_enough(rt.alloc(), call, more.as_bytes(), requests + 1),
            "{call:?}"
        );
    }
}

//! The texts of the error.

use xet_merkle::CoreError;

#[test]
fn prints_why_a_call_was_refused(rt: HostRuntime) {
    for (error, text) in [
        (CoreError::InvalidArguments, "invalid arguments"),
        (CoreError::SizeOverflow, "size overflow"),
        (CoreError::OutOfMemory, "out of memory"),
        (CoreError::InvalidJson(13), "invalid JSON: rule 13"),
        (CoreError::InvalidLists(13), "invalid flat lists: rule 13"),
    ] {
        let printed = format!(in rt.alloc(); "{error}").expect(&rt, "memory");
        assert!(rt; printed.as_str() == text);
    }
}

//! The names that callers of `xetroot` reach its session and its work by.

use test_support::texts::{THREE_PAIRS, lines_of_row};
use upload_session::session::Session as SessionOfItsCrate;
use xet_hash::data_hash::DataHash;
use xet_merkle::merkle_hash_subtree::MerkleHashSubtree;
use xet_merkle::plain_range::PlainRange;
use xetroot_text::kept_hashes::NoHashes;
use xetroot_text::run::run;
use xetroot_text::session::{Session, SessionOf};
use xetroot_text::session_fault::SessionFault;

#[test]
fn the_program_passes_on_the_session(rt: HostRuntime) {
    let chunk = [(DataHash::random_from_seed(1), 100)];
    let mut session = Session::new(rt.alloc());
    assert!(rt; session.put(0, &chunk) == Ok(1));
    assert!(rt; session.put(0, &chunk) == Err(SessionFault::Overlap));
    let subtree = MerkleHashSubtree::from_chunks(rt.alloc(), false, &chunk, false);
    let (first, range) = session.range(0).expect(&rt, "a run");
    assert!(rt; first == 0 && Ok(range) == subtree.as_ref());
    let again: SessionOfItsCrate = session;
    assert!(rt; again.num_runs() == 1);
    let mut of_roots: SessionOf<PlainRange, NoHashes> = SessionOf::new(rt.alloc());
    assert!(rt; of_roots.put(0, &chunk) == Ok(0));
}

#[test]
fn the_program_runs_without_a_kind_of_range(rt: HostRuntime) {
    let lines = lines_of_row(rt.alloc(), "h1 100;h2 200;h3 300;").expect(&rt, "memory");
    let (mut reader, mut output) = (lines.as_bytes(), Vec::new(rt.alloc()));
    assert!(rt; run(rt.alloc(), &mut reader, &mut output) == Ok(()));
    assert!(rt; output.as_slice() == THREE_PAIRS.as_bytes());
}

//! Parts of a file that come in any order: ranges at positions, and sessions that are put together.

use rand_core::{Rng, SeedableRng};
use rand_xoshiro::Xoshiro256PlusPlus;
use std::alloc::Global;
use std::process::Abort;
use std::vec::Vec;
use test_support::drawn_list;
use upload_session::range_fault::RangeFault;
use upload_session::session::Session;
use xet_merkle::aggregated_hashes::{Node, file_hash};
use xet_merkle::chunk_range::ChunkRange;
use xet_merkle::merkle_hash_subtree::MerkleHashSubtree;

// Returns the subtree of some chunks, open at both ends.
fn subtree(rt: &impl Abort, alloc: Global, chunks: &[Node]) -> MerkleHashSubtree {
    <MerkleHashSubtree as ChunkRange>::from_chunks(alloc, false, chunks, false).expect(
        rt,
        "a subtree",
    )
}

// Returns the bounds of parts of a list: at most twelve, of at least one chunk each.
fn drawn_cuts(
    rt: &impl Abort,
    alloc: Global,
    generator: &mut Xoshiro256PlusPlus,
    count: u64,
) -> Vec<(usize, usize)> {
    let mut cuts = Vec::new(alloc);
    let mut begin = 0u64;
    for _ in 0..count {
        if begin < count {
            let end = begin
                .saturating_add(generator.next_u64() % 60)
                .saturating_add(1)
                .min(count);
            cuts.push((begin as usize, end as usize))
                .expect(rt, "memory");
            begin = end;
        }
    }
    cuts
}

// Returns whether parts give the file hash, whichever of them come first, as ranges and as sessions that two by two are
// put together.
fn parts_agree(
    rt: &impl Abort,
    alloc: Global,
    generator: &mut Xoshiro256PlusPlus,
    count: u64,
) -> bool {
    let chunks = drawn_list(generator, alloc, count).expect(rt, "memory");
    let mut cuts = drawn_cuts(rt, alloc, generator, count);
    let expected = file_hash(alloc, &chunks).expect(rt, "memory");
    let mut ranges = Session::new(alloc);
    let mut sessions = Vec::new(alloc);
    let mut agree = true;
    for _ in 0..count {
        if cuts.is_empty() {
            break;
        }
        let at = (generator.next_u64() % cuts.len() as u64) as usize;
        let (begin, end) = cuts.swap_remove(at);
        let part = chunks.get(begin..end).unwrap_or_default();
        let (first, many) = (begin as u64, part.len() as u64);
        agree = agree && ranges.put_range(first, many, subtree(rt, alloc, part)) == Ok(());
        agree = agree
            && ranges.put_range(first, many, subtree(rt, alloc, part))
                == Err(RangeFault::Overlap(first));
        let mut session = Session::new(alloc);
        agree = agree && session.put(first, part).is_ok();
        sessions.push(session).expect(rt, "memory");
    }
    for _ in 0..count {
        if sessions.len() < 2 {
            break;
        }
        let at = (generator.next_u64() % sessions.len() as u64) as usize;
        let one = sessions.swap_remove(at);
        let at = (generator.next_u64() % sessions.len() as u64) as usize;
        if let Some(session) = sessions.get_mut(at) {
            agree = agree && session.join(&one).is_ok();
            agree = agree && matches!(session.join(&one), Err(RangeFault::Overlap(_)));
        }
    }
    for session in &sessions {
        agree = agree && session.finish(count) == Ok(expected);
    }
    agree && sessions.len() == 1 && ranges.finish(count) == Ok(expected)
}

#[test]
fn parts_come_in_any_order(rt: HostRuntime) {
    let mut generator = Xoshiro256PlusPlus::seed_from_u64(41);
    for count in [1, 2, 9, 60, 300, 1000] {
        for _ in 0..4 {
            assert!(rt; parts_agree(&rt, rt.alloc(), &mut generator, count));
        }
    }
}

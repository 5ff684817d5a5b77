//! Compares random sessions with a simple model of chunks by position.

use rand_core::{Rng, SeedableRng};
use rand_xoshiro::Xoshiro256PlusPlus;
use std::alloc::Global;
use std::process::Abort;
use upload_session::session::SessionOf;
use upload_session::session_fault::SessionFault;
use xet_hash::data_hash::DataHash;
use xet_merkle::aggregated_hashes::{Node, file_hash, file_hash_with_salt};
use xet_merkle::chunk_range::ChunkRange;
use xet_merkle::merkle_hash_subtree::MerkleHashSubtree;
use xet_merkle::plain_range::PlainRange;

// How many positions there are, and how many hashes. So hashes repeat.
const POSITIONS: usize = 200;

const HASHES: usize = 60;

// The number of the hash at each position, which positions are taken, and which hashes have been put.
#[derive(Clone, Copy)]
struct Plain {
    numbers: [usize; POSITIONS],
    taken: [bool; POSITIONS],
    seen: [bool; HASHES],
}

impl Plain {
    // Returns a model with random hashes, and no position taken.
    fn drawn(generator: &mut Xoshiro256PlusPlus) -> Plain {
        let mut numbers = [0; POSITIONS];
        for number in numbers.iter_mut() {
            *number = (generator.next_u64() % HASHES as u64) as usize;
        }
        Plain {
            numbers,
            taken: [false; POSITIONS],
            seen: [false; HASHES],
        }
    }

    // Returns the chunks of all positions.
    fn chunks(&self) -> [Node; POSITIONS] {
        let numbers = self.numbers;
        numbers.map(|number| (DataHash::random_from_seed(number as u64), number as u64))
    }

    // Takes a position. Returns whether its hash is new.
    fn take(&mut self, position: usize) -> bool {
        let mut is_new = false;
        if position < POSITIONS {
            self.taken[position] = true;
            let number = self.numbers[position];
            if number < HASHES {
                is_new = !self.seen[number];
                self.seen[number] = true;
            }
        }
        is_new
    }

    // Returns what a session should return for a put, and takes the positions if it succeeds.
    fn put(&mut self, begin: usize, end: usize) -> Result<u64, SessionFault> {
        let places = self.taken.get(begin..end).unwrap_or_default();
        if places.iter().any(|is_taken| *is_taken) {
            return Err(SessionFault::Overlap);
        }
        let mut count = 0u64;
        for position in begin..end {
            count = count.saturating_add(u64::from(self.take(position)));
        }
        Ok(count)
    }
}

// Returns whether a session has the model's chunks and knows its hashes.
fn has_chunks<C: ChunkRange<Alloc = Global>>(
    session: &SessionOf<C>,
    plain: &Plain,
    chunks: &[Node],
) -> bool {
    let (mut count, mut size) = (0u64, 0u64);
    for (is_taken, (_, bytes)) in plain.taken.iter().zip(chunks) {
        if *is_taken {
            count = count.saturating_add(1);
            size = size.saturating_add(*bytes);
        }
    }
    let mut agree = session.num_chunks() == count && session.total_size() == size;
    for (number, is_known) in (0u64..).zip(&plain.seen) {
        agree = agree && session.knows(&DataHash::random_from_seed(number)) == *is_known;
    }
    agree
}

// Returns whether a session finds the gap that a plain search finds from each position on.
fn has_gaps<C: ChunkRange<Alloc = Global>>(session: &SessionOf<C>, taken: &[bool]) -> bool {
    let total = taken.len() as u64;
    let (mut gap, mut agree) = (None, true);
    for (place, is_taken) in taken.iter().enumerate().rev() {
        let (position, next) = (place as u64, (place as u64).saturating_add(1));
        gap = match gap {
            _ if *is_taken => gap,
            Some((first, end)) if first == next => Some((position, end)),
            _ => Some((position, next)),
        };
        agree = agree && session.next_gap(position, total) == gap;
    }
    agree
}

// Returns whether the ranges of a session begin exactly at the taken positions that come after one that isn't taken.
fn has_runs<C: ChunkRange<Alloc = Global>>(session: &SessionOf<C>, taken: &[bool]) -> bool {
    let mut count = 0;
    let mut follows = false;
    for (position, is_taken) in (0u64..).zip(taken) {
        if *is_taken && !follows {
            if !matches!(session.range(count), Some((first, _)) if first == position) {
                return false;
            }
            count = count.saturating_add(1);
        }
        follows = *is_taken;
    }
    session.range(count).is_none()
}

// Returns whether a put returns what the model does, and the session has the model's runs, before it is whole and then.
fn agrees<C: ChunkRange<Alloc = Global>>(
    session: &mut SessionOf<C>,
    plain: &mut Plain,
    chunks: &[Node],
    (begin, end): (usize, usize),
) -> bool {
    let expected = plain.put(begin, end);
    let answer = session.put(begin as u64, chunks.get(begin..end).unwrap_or_default());
    let is_whole = plain.taken.iter().all(|is_taken| *is_taken);
    let is_gap = session.finish(POSITIONS as u64) == Err(SessionFault::Gap);
    answer == expected
        && is_gap != is_whole
        && has_runs(session, &plain.taken)
        && has_chunks(session, plain, chunks)
        && has_gaps(session, &plain.taken)
}

// Puts chunks at random positions, most of them taken before, and then at each position.
fn are_put<C: ChunkRange<Alloc = Global>>(
    generator: &mut Xoshiro256PlusPlus,
    session: &mut SessionOf<C>,
    plain: &mut Plain,
    chunks: &[Node],
) -> bool {
    let mut agree = true;
    for _ in 0..100 {
        let begin = (generator.next_u64() % POSITIONS as u64) as usize;
        let end = begin.saturating_add((generator.next_u64() % 20) as usize);
        agree = agree && agrees(session, plain, chunks, (begin, end.min(POSITIONS)));
    }
    for begin in 0..POSITIONS {
        agree = agree && agrees(session, plain, chunks, (begin, begin + 1));
    }
    agree
}

// Returns whether a random session returns what the model does, and in the end the file hash of the list.
fn is_as_the_model<C: ChunkRange<Alloc = Global>>(
    rt: &impl Abort,
    alloc: Global,
    seed: u64,
) -> bool {
    let mut generator = Xoshiro256PlusPlus::seed_from_u64(seed);
    let mut plain = Plain::drawn(&mut generator);
    let chunks = plain.chunks();
    let file = file_hash(alloc, &chunks).expect(rt, "a file hash");
    let mut session: SessionOf<C> = SessionOf::new(alloc);
    let agree = are_put(&mut generator, &mut session, &mut plain, &chunks);
    let salt = [7; 32];
    let salted = file_hash_with_salt(alloc, &chunks, &salt).expect(rt, "a file hash");
    agree
        && session.finish(POSITIONS as u64) == Ok(file)
        && session.finish_with_salt(POSITIONS as u64, &salt) == Ok(salted)
}

#[test]
fn drawn_sessions_answer_as_a_plain_model_does(rt: HostRuntime) {
    for seed in 0..100 {
        let agree = (
            is_as_the_model::<MerkleHashSubtree>(&rt, rt.alloc(), seed),
            is_as_the_model::<PlainRange>(&rt, rt.alloc(), seed),
        );
        assert!(rt; agree == (true, true), "{seed}");
    }
}

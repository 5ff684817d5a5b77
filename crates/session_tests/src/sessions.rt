//! Sessions that test what no contract says: worked examples with the results of other implementations, many runs and
//! positions, and printed texts.

use std::alloc::Global;
use std::fmt::{self, Display};
use std::process::Abort;
use std::vec::Vec;
use test_support::texts::four_fields;
use upload_session::kept_hashes::{KeptHashes, NoHashes, SeenHashes};
use upload_session::session::{Session, SessionOf};
use upload_session::session_fault::SessionFault;
use xet_hash::data_hash::{DataHash, MerkleHash};
use xet_merkle::aggregated_hashes::{Node, file_hash};
use xet_merkle::chunk_range::ChunkRange;
use xet_merkle::merkle_hash_subtree::MerkleHashSubtree;
use xet_merkle::plain_range::PlainRange;

// Sessions, each a row of calls separated by `;`. A call has its word, a position or the total, the seed of the hash and
// the size of each chunk, and what it should return. A pushed run has its first and its last position. After the first
// rows, three test that a chunk can leave no room for another's size; that a put of no chunks changes nothing at any
// position; and that positions are reported before sizes, and a taken position before both. Four begin with a hash that no
// chunk has, and with runs of more positions than their ranges have chunks: none, or two. The last ones ask for both
// hashes: of no chunks, with a gap in the middle or at the start, and with a total that is too small or too large.
const SESSIONS: &str =
    "put 2 3:300 1;put 0 1:100,2:200 2;finish 3 - 54e55dccc6653c612bdb5576c5d3cb34bb31bc4e100248abccf4c908b3ef7715;root 3 - 71ec1275fca074724e2dd666921b3277c7cee603e4d025bcab2d4050015be2bc
put 0 1:100,1:100 1;put 2 1:100,1:100 0;finish 4 - 2cdba690d0e09563596e0cda626d43eb4c96ef1e994fe72d9b2f5a83cfcd36dd
put 18446744073709551615 1:100 Positions
put 18446744073709551614 1:100 1;put 18446744073709551614 1:100,2:200 Overlap
put 1 1:100 1;finish 1 - Gap;finish 2 - Gap
put 2 1:100,2:200 2;put 0 1:100,2:200 0;finish 4 - 284ea045e5a579e99c21ec597c20de1fc0c09e7168162aac00db8f61b3d82dbb;finish 3 - Gap;put 3 3:300 Overlap
finish 0 - 0000000000000000000000000000000000000000000000000000000000000000;finish 1 - Gap
put 0 1:18446744073709551615 1;put 5 2:1 Sizes;put 0 - 0;finish 1 - 8e16257caa3fe079d484d872a8975264b2ff683b0d6db9028cc7c0f968a45661
put 0 1:100 1;put 0 - 0;put 18446744073709551615 - 0
put 18446744073709551614 1:18446744073709551615 1;put 18446744073709551615 2:1 Positions;put 18446744073709551613 2:1,2:1,2:1 Overlap
keep 0 9:900 kept;taken 0 - false;finish 0 - 0000000000000000000000000000000000000000000000000000000000000000;put 0 1:100 1;put 0 2:200 Overlap;finish 1 - 8e16257caa3fe079d484d872a8975264b2ff683b0d6db9028cc7c0f968a45661;finish 2 - Gap;put 1 9:900 0;finish 2 - 1225864990a632f1f27a99ebcc714ab9639545cc6cf778c0c9372195d194d688
push 100-104 - pushed;put 0 1:100 1;taken 0 - true;taken 104 - true;taken 105 - false;put 102 2:200 Overlap;taken 102 - true;finish 1 - Gap;root 105 - Gap
push 0-4 - pushed;root 5 - 0000000000000000000000000000000000000000000000000000000000000000;finish 5 - 638a6bc391964a85939d48f008e8bdbae6a7975e7ca2d87a3ce2492f4e4d8a4c
push 0-4 1:100,2:200 pushed;finish 2 - Gap;root 5 - 1781874dd958989a7f9f227409a704632c65d8aa7121d409d1cca234f7342f7f;finish 5 - 968db6222856ba08edbc73c521d36908f018534c2eee29640ddce3db3608898e;put 4 3:300 Overlap;put 5 3:300 1;finish 6 - 54e55dccc6653c612bdb5576c5d3cb34bb31bc4e100248abccf4c908b3ef7715
hashes 0 - 0000000000000000000000000000000000000000000000000000000000000000,0000000000000000000000000000000000000000000000000000000000000000;hashes 1 - Gap
put 0 1:100 1;put 2 3:300 1;hashes 2 - Gap;hashes 3 - Gap;hashes 1 - Gap;put 1 2:200 1;hashes 3 - 71ec1275fca074724e2dd666921b3277c7cee603e4d025bcab2d4050015be2bc,54e55dccc6653c612bdb5576c5d3cb34bb31bc4e100248abccf4c908b3ef7715
put 1 1:100,2:200 2;hashes 2 - Gap;hashes 3 - Gap
put 0 1:100,2:200 2;hashes 0 - Gap;hashes 1 - Gap;hashes 3 - Gap;hashes 18446744073709551615 - Gap;hashes 2 - 1781874dd958989a7f9f227409a704632c65d8aa7121d409d1cca234f7342f7f,968db6222856ba08edbc73c521d36908f018534c2eee29640ddce3db3608898e";

// Returns a chunk whose hash comes from a seed.
fn node(seed: u64, size: u64) -> Node {
    (DataHash::random_from_seed(seed), size)
}

// Returns the number with a text.
pub(crate) fn to_number(rt: &impl Abort, text: &str) -> u64 {
    text.parse().expect(rt, "a number")
}

// Returns the chunks of a call. `-` is none.
pub(crate) fn nodes(rt: &impl Abort, alloc: Global, chunks: &str) -> Vec<Node> {
    let mut nodes = Vec::new(alloc);
    for chunk in chunks.split(',') {
        if chunk != "-" {
            let (seed, size) = chunk.split_once(':').expect(rt, "a size");
            let node = node(to_number(rt, seed), to_number(rt, size));
            nodes.push(node).expect(rt, "memory");
        }
    }
    nodes
}

// Returns a result as text, or the name of a fault.
fn text_of<T: Display + Drop>(
    rt: &impl Abort,
    alloc: Global,
    answer: Result<T, SessionFault>,
) -> String {
    let text = match answer {
        Ok(value) => format!(in alloc; "{value}"),
        Err(fault) => format!(in alloc; "{fault:?}"),
    };
    text.expect(rt, "memory")
}

// A root and a file hash, which are written with a comma between them.
#[derive(Drop)]
struct Hashes {
    root: MerkleHash,
    file: MerkleHash,
}

impl Display for Hashes {
    fn fmt<W: fmt::Write>(&self, f: &mut fmt::Formatter<W>) -> fmt::Result {
        write!(f, "{},{}", self.root, self.file)
    }
}

// Pushes a run with its first and its last position. Its range is of these chunks, however many positions there are.
fn push<C: ChunkRange<Alloc = Global>, H: KeptHashes<Global>>(
    rt: &impl Abort,
    alloc: Global,
    session: &mut SessionOf<C, H>,
    positions: &str,
    chunks: &[Node],
) -> String {
    let (first, last) = positions.split_once('-').expect(rt, "a last position");
    let end = to_number(rt, last).saturating_add(1);
    let range = C::from_chunks(alloc, false, chunks, false).expect(rt, "a range");
    session
        .push_run(to_number(rt, first), end, range)
        .expect(rt, "a run");
    format!(in alloc; "pushed").expect(rt, "memory")
}

// Makes a call, and returns its result as text.
fn answer<C: ChunkRange<Alloc = Global>, H: KeptHashes<Global>>(
    rt: &impl Abort,
    alloc: Global,
    session: &mut SessionOf<C, H>,
    (word, number, chunks): (&str, &str, &str),
) -> String {
    let chunks = nodes(rt, alloc, chunks);
    match word {
        "put" => text_of(rt, alloc, session.put(to_number(rt, number), &chunks)),
        "push" => push(rt, alloc, session, number, &chunks),
        "keep" => {
            session.keep_hashes(&chunks).expect(rt, "memory");
            format!(in alloc; "kept").expect(rt, "memory")
        }
        "taken" => text_of(rt, alloc, Ok(session.taken(to_number(rt, number)))),
        "finish" => text_of(rt, alloc, session.finish(to_number(rt, number))),
        "hashes" => {
            let hashes = session.hashes(to_number(rt, number));
            text_of(rt, alloc, hashes.map(|(root, file)| Hashes { root, file }))
        }
        _ => text_of(rt, alloc, session.root(to_number(rt, number))),
    }
}

// Returns whether a call returns what it should. `counts` says whether the number of new hashes is compared.
fn is_answered<C: ChunkRange<Alloc = Global>, H: KeptHashes<Global>>(
    rt: &impl Abort,
    alloc: Global,
    session: &mut SessionOf<C, H>,
    call: &str,
    counts: bool,
) -> bool {
    let (word, number, chunks, expected) = four_fields(call, ' ').expect(rt, "four fields");
    let answer = answer(rt, alloc, session, (word, number, chunks));
    let is_any = !counts && word == "put" && is_number(&answer) && is_number(expected);
    is_any || answer.as_str() == expected
}

fn is_number(text: &str) -> bool {
    text.parse::<u64>().is_ok()
}

// Returns whether the calls of a row return what they should.
fn answers<C: ChunkRange<Alloc = Global>, H: KeptHashes<Global>>(
    rt: &impl Abort,
    alloc: Global,
    session: &mut SessionOf<C, H>,
    row: &str,
    counts: bool,
) -> bool {
    for call in row.split(';') {
        if !is_answered(rt, alloc, session, call, counts) {
            return false;
        }
    }
    true
}

// Returns whether the calls of a row return what they should in a new session.
fn new_session_answers<C: ChunkRange<Alloc = Global>, H: KeptHashes<Global>>(
    rt: &impl Abort,
    alloc: Global,
    row: &str,
    counts: bool,
) -> bool {
    let mut session: SessionOf<C, H> = SessionOf::new(alloc);
    answers(rt, alloc, &mut session, row, counts)
}

#[test]
fn sessions_answer_as_other_implementations_do(rt: HostRuntime) {
    let alloc = rt.alloc();
    for row in SESSIONS.lines() {
        let are_right = [
            new_session_answers::<MerkleHashSubtree, SeenHashes>(&rt, alloc, row, true),
            new_session_answers::<PlainRange, SeenHashes>(&rt, alloc, row, true),
            new_session_answers::<MerkleHashSubtree, NoHashes>(&rt, alloc, row, false),
        ];
        assert!(rt; are_right == [true; 3], "{row}");
    }
}

#[test]
fn chunks_are_put_in_any_order(rt: HostRuntime) {
    let (first, second, third) = (node(1, 100), node(2, 200), node(3, 300));
    let mut session: Session = SessionOf::new(rt.alloc());
    let early = [
        session.put(2, &[third]),
        session.put(0, &[first, second]),
        session.put(1, &[third]),
        session.put(4, &[third]),
    ];
    assert!(rt; early == [Ok(1), Ok(2), Err(SessionFault::Overlap), Ok(0)]);
    assert!(rt; session.taken(2) && !session.taken(3));
    assert!(rt; session.finish(4) == Err(SessionFault::Gap));
    assert!(rt; session.put(3, &[first]) == Ok(0));
    let chunks = [first, second, third, first, third];
    let file = file_hash(rt.alloc(), &chunks).expect(&rt, "a file hash");
    assert!(rt; session.finish(5) == Ok(file));
}

// Returns whether a range of a session is the subtree of some chunks, from a position on.
fn lends(
    rt: &impl Abort,
    alloc: Global,
    session: &Session,
    i: usize,
    first: u64,
    chunks: &str,
) -> bool {
    let chunks = nodes(rt, alloc, chunks);
    let subtree = MerkleHashSubtree::from_chunks(alloc, false, &chunks, false);
    let subtree = subtree.expect(rt, "a subtree");
    match session.range(i) {
        Some((position, range)) => position == first && *range == subtree,
        None => false,
    }
}

// Returns a session with two runs, of three chunks and of one.
fn of_two_runs(rt: &impl Abort, alloc: Global) -> Session {
    let mut session: Session = SessionOf::new(alloc);
    session.put(2, &[node(3, 300)]).expect(rt, "a number");
    session.put(7, &[node(4, 400)]).expect(rt, "a number");
    session
        .put(0, &[node(1, 100), node(2, 200)])
        .expect(rt, "a number");
    session
}

// Returns where the first run begins and ends that ends after a position.
fn run_from(session: &Session, position: u64) -> Option<(u64, u64)> {
    match session.run_from(position) {
        Some((first, end, _)) => Some((first, end)),
        None => None,
    }
}

// Returns whether a session has the positions of these two runs.
fn has_two_runs(session: &Session) -> bool {
    let mut is_right = session.range(2).is_none();
    for position in 0..9 {
        let is_taken = position < 3 || position == 7;
        let run = if position < 3 {
            Some((0, 3))
        } else {
            (position < 8).then_some((7, 8))
        };
        let found = (session.taken(position), run_from(session, position));
        is_right = is_right && found == (is_taken, run);
    }
    is_right
}

// Looks at the runs of a session of two runs.
fn two_runs_are_lent(rt: &impl Abort, alloc: Global) {
    let session = of_two_runs(rt, alloc);
    assert!(rt; has_two_runs(&session));
    assert!(rt; lends(rt, alloc, &session, 0, 0, "1:100,2:200,3:300"));
    assert!(rt; lends(rt, alloc, &session, 1, 7, "4:400"));
}

// Looks at the run that a put joins with the run after it.
fn joined_puts_are_lent(rt: &impl Abort, alloc: Global) {
    let mut session: Session = SessionOf::new(alloc);
    assert!(rt; session.put(2, &[node(3, 300)]) == Ok(1));
    assert!(rt; session.put(0, &[node(1, 100), node(2, 200)]) == Ok(2));
    assert!(rt; lends(rt, alloc, &session, 0, 0, "1:100,2:200,3:300"));
    assert!(rt; session.range(1).is_none());
}

#[test]
fn a_session_lends_the_ranges_of_its_runs(rt: HostRuntime) {
    two_runs_are_lent(&rt, rt.alloc());
    joined_puts_are_lent(&rt, rt.alloc());
}

// Adds the runs of a session to another one.
fn push_runs(rt: &impl Abort, restored: &mut Session, session: &Session) {
    let mut position = 0;
    for _ in 0..session.num_runs() {
        if let Some((first, end, range)) = session.run_from(position) {
            let range = range.try_clone().expect(rt, "memory");
            restored.push_run(first, end, range).expect(rt, "a run");
            position = end;
        }
    }
}

// Keeps the hashes that a session knows in another one.
fn keep_known(rt: &impl Abort, alloc: Global, restored: &mut Session, session: &Session) {
    let mut known = Vec::new(alloc);
    for hash in &session.known_hashes().expect(rt, "memory") {
        known.push((*hash, 0)).expect(rt, "memory");
    }
    restored.keep_hashes(&known).expect(rt, "memory");
}

// Returns a session with the runs and the hashes of another one.
fn restored(rt: &impl Abort, alloc: Global, session: &Session) -> Session {
    let mut restored: Session = SessionOf::new(alloc);
    push_runs(rt, &mut restored, session);
    keep_known(rt, alloc, &mut restored, session);
    restored
}

// More positions than 2^20.
const POSITIONS: u64 = 1_048_577;

// Returns whether a session answers for so many positions. It takes the caller's word for the number of chunks of a
// pushed run, so one chunk is enough.
fn answers_for_many_positions(rt: &impl Abort, alloc: Global) -> bool {
    let chunks = [node(1, 100)];
    let range = MerkleHashSubtree::from_chunks(alloc, false, &chunks, false);
    let mut session: Session = SessionOf::new(alloc);
    let range = range.expect(rt, "a subtree");
    session.push_run(0, POSITIONS, range).expect(rt, "a run");
    let file = file_hash(alloc, &chunks).expect(rt, "a file hash");
    let [(root, _)] = chunks;
    session.hashes(POSITIONS) == Ok((root, file))
        && session.root(POSITIONS) == Ok(root)
        && session.finish(POSITIONS) == Ok(file)
}

// Puts the chunks that a session of two runs lacks, and returns the file hash.
fn finished(rt: &impl Abort, alloc: Global, mut session: Session) -> MerkleHash {
    assert!(rt; session.num_known_hashes() == 4);
    let rest = "put 3 4:400,5:500,1:100,6:600 2";
    assert!(rt; answers(rt, alloc, &mut session, rest, true));
    session.finish(8).expect(rt, "a file hash")
}

#[test]
fn a_saved_session_is_restored(rt: HostRuntime) {
    let session = of_two_runs(&rt, rt.alloc());
    let restored = restored(&rt, rt.alloc(), &session);
    let file_hash = finished(&rt, rt.alloc(), restored);
    assert!(rt; file_hash == finished(&rt, rt.alloc(), session));
    assert!(rt; answers_for_many_positions(&rt, rt.alloc()));
}

// How many runs of one chunk a session has. A free position is left after each.
const RUNS: u64 = 50_001;

// Returns the chunk of a number. Each has another hash.
fn numbered(number: u64) -> Node {
    (MerkleHash::from([number, 0, 0, number]), number)
}

// Returns a session of so many runs.
fn of_many_runs(rt: &impl Abort, alloc: Global) -> Session {
    let mut session: Session = SessionOf::new(alloc);
    for number in 0..RUNS {
        let chunks = [numbered(number)];
        session
            .put(number.saturating_mul(2), &chunks)
            .expect(rt, "a number");
    }
    session
}

// Returns whether two sessions have the same run from a position on, or the next one after it.
fn have_same_run(session: &Session, other: &Session, position: u64) -> bool {
    match (session.run_from(position), other.run_from(position)) {
        (Some((first, end, range)), Some((other_first, other_end, other_range))) => {
            first == other_first && end == other_end && *range == *other_range
        }
        _ => false,
    }
}

// Returns whether a session has the same runs and as many hashes as that of so many runs, and then takes more chunks.
fn goes_on(session: &Session, mut other: Session) -> bool {
    let mut is_same = other.num_runs() as u64 == RUNS && other.num_known_hashes() as u64 == RUNS;
    for number in 0..RUNS {
        is_same = is_same && have_same_run(session, &other, number.saturating_mul(2));
    }
    is_same
        && other.taken(RUNS * 2 - 2)
        && !other.taken(RUNS * 2 - 1)
        && other.put(1, &[numbered(RUNS - 1)]) == Ok(0)
        && other.put(3, &[numbered(RUNS)]) == Ok(1)
        && other.num_runs() as u64 == RUNS - 2
}

#[test]
fn a_session_of_many_runs_is_saved_restored_and_copied(rt: HostRuntime) {
    let session = of_many_runs(&rt, rt.alloc());
    assert!(rt; goes_on(&session, restored(&rt, rt.alloc(), &session)));
    assert!(rt; goes_on(&session, session.try_clone().expect(&rt, "memory")));
}

#[test]
fn faults_print_what_was_wrong(rt: HostRuntime) {
    let texts = [
        (SessionFault::Overlap, "a position is taken"),
        (SessionFault::Positions, "positions past 2^64 - 1"),
        (SessionFault::Sizes, "sizes past 2^64 - 1"),
        (SessionFault::Memory, "out of memory"),
        (
            SessionFault::Gap,
            "a position isn't taken, or one is past the total",
        ),
    ];
    for (fault, text) in &texts {
        let printed = format!(in rt.alloc(); "{fault}").expect(&rt, "memory");
        assert!(rt; printed.as_str() == *text);
    }
}

//! Calls that allocate nothing, with each request refused. A call that gets no allocator, and no value that holds one,
//! has none to use. All others are called here.

use super::maps::{EIGHT, Numbers, has_numbers};
use super::{Refusing, refusing};
use std::collections::HashMap;
use std::process::Abort;
use test_support::{EACH_FOURTH, has_counts, reference_chunk, with_cuts};
use upload_session::session::SessionOf;
use upload_session::session_fault::SessionFault;
use xet_hash::data_hash::{DataHash, MerkleHash};
use xet_hash::passthrough_hashmap::{Entry, PassThroughHashMap};
use xet_merkle::CoreError;
use xet_merkle::aggregated_hashes::{Node, file_hash, file_hash_with_salt, xorb_hash};
use xet_merkle::chunk_range::ChunkRange;
use xet_merkle::merkle_hash_subtree::{MerkleHashSubtree, find_stable_end, find_stable_start};
use xet_merkle::plain_range::PlainRange;

// Returns the root of some pairs, and their file hash without a salt and under a salt of zeros.
fn hashes(alloc: &Refusing, pairs: &[Node]) -> Result<[MerkleHash; 3], CoreError> {
    Ok([
        xorb_hash(alloc, pairs)?,
        file_hash(alloc, pairs)?,
        file_hash_with_salt(alloc, pairs, &[0; 32])?,
    ])
}

#[test]
fn hashes_of_at_most_one_pair_take_no_memory(rt: HostRuntime) {
    let root = "cfc5d07f6f03c29bbf424132963fe08d19a37d5757aaf520bf08119f05cd56d6";
    let root = DataHash::from_hex(root).expect(&rt, "a hash");
    let file = "8e16257caa3fe079d484d872a8975264b2ff683b0d6db9028cc7c0f968a45661";
    let file = DataHash::from_hex(file).expect(&rt, "a hash");
    let zero = [(DataHash::default(), 0)];
    let of_zero = "638a6bc391964a85939d48f008e8bdbae6a7975e7ca2d87a3ce2492f4e4d8a4c";
    let of_zero = DataHash::from_hex(of_zero).expect(&rt, "a hash");
    let salt = "f4aa7219b7bc6145df344b930c1cf63680037e13236f4b3b8f439aba1520d443";
    let salt = DataHash::from_hex(salt).expect(&rt, "a hash").as_bytes();
    let salted = "3e44e4a200e05a69afc979eb2e0507817e4f0ddff128a97e563c0e05fed3bd25";
    let salted = DataHash::from_hex(salted).expect(&rt, "a hash");
    let alloc = refusing(rt.alloc());
    alloc.grant(0);
    assert!(rt; hashes(&alloc, &[]) == Ok([DataHash::default(); 3]));
    assert!(rt; hashes(&alloc, &[(root, u64::MAX)]) == Ok([root, file, file]));
    assert!(rt; file_hash(&alloc, &zero) == Ok(of_zero));
    assert!(rt; file_hash_with_salt(&alloc, &zero, &salt) == Ok(salted));
    assert!(rt; !alloc.has_refused());
}

// Returns whether a subtree has both marks or none, this size, and this root as its final hash.
fn shows<'a>(
    subtree: &MerkleHashSubtree<&'a Refusing>,
    is_marked: bool,
    size: u64,
    root: Option<MerkleHash>,
) -> bool {
    subtree.at_start() == is_marked
        && subtree.at_end() == is_marked
        && subtree.total_size() == size
        && subtree.final_hash() == root
        && subtree.root() == Ok(root)
}

// Returns whether an open subtree of 24 nodes and a closed one of 28 show the right values.
fn show_what_they_are<'a>(
    open: &MerkleHashSubtree<&'a Refusing>,
    closed: &MerkleHashSubtree<&'a Refusing>,
    root: MerkleHash,
) -> bool {
    has_counts(open, &[(8, 4), (3, 0)])
        && shows(open, false, 24, None)
        && open != closed
        && shows(closed, true, 28, Some(root))
}

// Returns whether a range that is marked at its start is refused after another one, which is left as it is.
fn is_refused<'a>(
    range: &mut MerkleHashSubtree<&'a Refusing>,
    marked: &MerkleHashSubtree<&'a Refusing>,
    before: &MerkleHashSubtree<&'a Refusing>,
) -> bool {
    range.merge_into(marked) == Err(CoreError::InvalidArguments) && &*range == before
}

// Returns whether a list has only this stable point.
fn has_stable_point(nodes: &[Node], place: Option<usize>) -> bool {
    find_stable_start(nodes) == place && find_stable_end(nodes) == place
}

// Looks for stable points in lists of nodes and among the left nodes of an open subtree.
fn stable_points_are_found(rt: &impl Abort, nodes: &[Node; 28], left: &[Node]) {
    assert!(rt; find_stable_start(left).is_none());
    assert!(rt; find_stable_end(nodes) == Some(24));
    assert!(rt;
        find_stable_start(&nodes[..20]) == Some(8) && find_stable_end(&nodes[..20]) == Some(16)
    );
    assert!(rt; has_stable_point(&with_cuts::<7>(&[0, 3, 6]), Some(4)));
    assert!(rt; has_stable_point(&with_cuts::<15>(&[0, 7, 14]), Some(8)));
    assert!(rt; has_stable_point(&with_cuts::<17>(&[0, 8, 16]), None));
    assert!(rt; has_stable_point(&with_cuts::<5>(&[0, 2, 4]), None));
}

// Returns a subtree of some nodes, both of whose marks are `is_marked`.
fn subtree<'a>(
    rt: &impl Abort,
    alloc: &'a Refusing,
    nodes: &[Node],
    is_marked: bool,
) -> MerkleHashSubtree<&'a Refusing> {
    MerkleHashSubtree::from_chunks(alloc, is_marked, nodes, is_marked).expect(rt, "a subtree")
}

// Returns whether a plain range from a file's start on shows its chunks, and has no root.
fn shows_its_chunks<'a>(plain: &PlainRange<&'a Refusing>, nodes: &[Node]) -> bool {
    plain.root() == Ok(None) && plain.at_start() && !plain.at_end() && plain.chunks() == nodes
}

#[test]
fn looking_at_ranges_takes_no_memory(rt: HostRuntime) {
    let nodes = with_cuts::<28>(&EACH_FOURTH);
    let root = xorb_hash(rt.alloc(), &nodes).expect(&rt, "a hash");
    let alloc = refusing(rt.alloc());
    let mut range = subtree(&rt, &alloc, &nodes[..24], false);
    let marked = MerkleHashSubtree::from_chunks(&alloc, true, &[], false).expect(&rt, "a subtree");
    let open = subtree(&rt, &alloc, &nodes[..24], false);
    let closed = subtree(&rt, &alloc, &nodes, true);
    let plain = PlainRange::from_chunks(&alloc, true, &nodes, false).expect(&rt, "a range");
    alloc.grant(0);
    assert!(rt; show_what_they_are(&open, &closed, root));
    assert!(rt; is_refused(&mut range, &marked, &open));
    assert!(rt; shows_its_chunks(&plain, &nodes));
    stable_points_are_found(&rt, &nodes, open.left(0));
    assert!(rt; !alloc.has_refused());
}

// Returns whether look-ups in a map of eight numbers and iterations over it find them.
fn is_read(map: &Numbers<'_>) -> bool {
    let mut sum = 0u64;
    for (number, value) in map {
        sum = sum.saturating_add(*number).saturating_add(*value);
    }
    sum == 56
        && has_numbers(map, 8)
        && map.get_key_value(&7) == Some((&7, &7))
        && map.contains_key(&7)
        && !map.contains_key(&8)
        && !map.is_empty()
        && map.iter().next().is_some()
        && map.keys().copied().max() == Some(7)
        && map.values().copied().max() == Some(7)
        && map.as_map().len() == 8
}

// Returns whether numbers in a map of eight can be changed and removed.
fn is_changed(map: &mut Numbers<'_>) -> bool {
    if let Some(value) = map.get_mut(&6) {
        *value = 60;
    }
    if let Entry::Occupied(mut place) = map.entry(5) {
        *place.get_mut() = 50;
    }
    let taken = match map.entry(5) {
        Entry::Occupied(place) => Some(place.remove()),
        Entry::Vacant(_) => None,
    };
    taken == Some(50)
        && map.remove(&7) == Some(7)
        && map.remove_entry(&6) == Some((6, 60))
        && map.remove(&6).is_none()
        && map.as_map_mut().remove(&0) == Some(0)
        && map.len() == 4
}

#[test]
fn maps_are_read_and_emptied_without_memory(rt: HostRuntime) {
    let alloc = refusing(rt.alloc());
    let mut map: Numbers<'_> = PassThroughHashMap::from_array(&alloc, EIGHT).expect(&rt, "memory");
    alloc.grant(0);
    let none: Numbers<'_> = PassThroughHashMap::new(&alloc);
    assert!(rt; none.is_empty());
    assert!(rt; is_read(&map));
    assert!(rt; is_changed(&mut map));
    let inner: HashMap<u64, u64, _, &Refusing> = map.into();
    assert!(rt; inner.len() == 4);
    let mut map: Numbers<'_> = PassThroughHashMap::from(inner);
    assert!(rt; map.get(&1) == Some(&1));
    map.clear();
    assert!(rt; map.is_empty());
    assert!(rt; map.into_iter().count() == 0);
    assert!(rt; !alloc.has_refused());
}

// Returns whether calls of a session, whose only chunk is at position 2, are answered or refused as they should be.
fn has_one_chunk<'a, R: ChunkRange<Alloc = &'a Refusing>>(
    session: &mut SessionOf<R>,
    chunk: &[Node],
) -> bool {
    let has_chunk = session.put(2, &[]) == Ok(0) && session.taken(2) && !session.taken(3);
    let has_range = matches!(session.range(0), Some((2, _))) && session.range(1).is_none();
    let is_refused = session.put(2, chunk) == Err(SessionFault::Overlap)
        && session.root(1) == Err(SessionFault::Gap)
        && session.finish(1) == Err(SessionFault::Gap);
    has_chunk && has_range && is_refused
}

// Returns whether the calls of a session that allocate nothing succeed while each request is refused, without a chunk
// and with one.
fn answers_without_memory<'a, R: ChunkRange<Alloc = &'a Refusing>>(
    rt: &impl Abort,
    alloc: &'a Refusing,
) -> bool {
    let chunk = [reference_chunk("1").expect(rt, "a chunk")];
    alloc.grant(0);
    let mut session: SessionOf<R> = SessionOf::new_in(alloc).expect(rt, "a session");
    let is_empty = session.put(2, &[]) == Ok(0) && session.range(0).is_none() && !session.taken(2);
    let has_asked = alloc.has_refused();
    alloc.grant(u32::MAX);
    let is_put = session.put(2, &chunk) == Ok(1);
    alloc.grant(0);
    let is_right = is_empty && is_put && has_one_chunk(&mut session, &chunk);
    is_right && !has_asked && !alloc.has_refused()
}

#[test]
fn sessions_answer_what_takes_no_memory_without_it(rt: HostRuntime) {
    let alloc = refusing(rt.alloc());
    assert!(rt; answers_without_memory::<MerkleHashSubtree<&Refusing>>(&rt, &alloc));
    assert!(rt; answers_without_memory::<PlainRange<&Refusing>>(&rt, &alloc));
}

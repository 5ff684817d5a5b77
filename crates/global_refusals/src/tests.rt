use serde_json::Value;
use std::alloc::{AllocError, Global};
use std::fmt::{self, Write as _};
use std::hash::{BuildHasher, Hash, Hasher as _};
use std::io;
use std::test::Fail;
use xet_hash::blake3::{Hasher, keyed_hash};
use xet_hash::data_hash::{
    DATA_KEY, DataHash, HashedWrite, compute_data_hash, compute_internal_node_hash,
};
use xet_hash::passthrough_hasher::{U64DirectHasher, U64HashExtractable};
use xet_merkle::CoreError;
use xet_merkle::aggregated_hashes::Node;
use xet_merkle::merkle_hash_subtree::{
    ChunkRange, MergeTree, MerkleHashSubtree, PlainRange, find_stable_end, find_stable_start,
};
use xetrange_text::fault::RangeFault;
use xetrange_text::join::{join, root};
use xetrange_text::make::make;
use xetrange_text::prove::prove;
use xetrange_text::verify::verify;

// Returns three chunks, each with its seed.
fn chunks() -> [Node; 3] {
    [1, 2, 3].map(|seed| (DataHash::random_from_seed(seed), seed))
}

#[test]
fn a_subtree_goes_to_json(rt: HostRuntime) -> Result<(), Fail> {
    let subtree = MerkleHashSubtree::from_chunks(rt.alloc(), true, &chunks(), false)?;
    let before = subtree.try_clone()?;
    let answer = subtree.to_json(rt.alloc());
    assert!(rt; subtree == before);
    let value = answer?;
    assert!(rt; MerkleHashSubtree::from_json(rt.alloc(), &value)? == subtree);
    Ok(())
}

// The text of the closed subtree of no chunks.
const NO_CHUNKS: &str = r#"{"at_end":true,"at_start":true,"levels":[[0,0]],"nodes":[]}"#;

#[test]
fn no_chunks_have_their_json_text(rt: HostRuntime) -> Result<(), Fail> {
    let closed = MerkleHashSubtree::from_chunks(rt.alloc(), true, &[], true)?;
    let text = closed.to_json(rt.alloc())?.to_string(rt.alloc())?;
    assert!(rt; text.as_str() == NO_CHUNKS);
    Ok(())
}

// Returns a tree of ten ranges of one chunk each and an empty one. Each is merged with all before it.
fn tree(alloc: Global, is_left: bool) -> Result<MergeTree<PlainRange>, CoreError> {
    let mut tree = MergeTree::Leaf(PlainRange::from_chunks(alloc, false, &[], false)?);
    for seed in 0..10 {
        let chunk = (DataHash::random_from_seed(seed), 1);
        let leaf = MergeTree::Leaf(PlainRange::from_chunks(alloc, false, &[chunk], false)?);
        let (left, right) = if is_left { (tree, leaf) } else { (leaf, tree) };
        tree = MergeTree::Join(Box::new(alloc, left)?, Box::new(alloc, right)?);
    }
    Ok(tree)
}

#[test]
fn trees_of_ranges_are_run(rt: HostRuntime) -> Result<(), Fail> {
    for (is_left, seed) in [(true, 0), (false, 9)] {
        let joined = tree(rt.alloc(), is_left)?.run()?;
        let first = (DataHash::random_from_seed(seed), 1);
        assert!(rt; joined.chunks().first() == Some(&first));
        assert!(rt; joined.total_size() == 10);
    }
    Ok(())
}

#[test]
fn a_hash_goes_to_json(rt: HostRuntime) -> Result<(), Fail> {
    let hash = DataHash::random_from_seed(1);
    let value = hash.to_json(rt.alloc())?;
    assert!(rt; DataHash::from_json(&value).ok() == Some(hash));
    Ok(())
}

// A writer that keeps nothing.
#[derive(Drop)]
struct Nowhere;

impl io::Write for Nowhere {
    fn write(&mut self, slice: &[u8]) -> io::Result<usize> {
        Ok(slice.len())
    }

    fn flush(&mut self) -> io::Result<()> {
        Ok(())
    }
}

// The same for texts.
#[derive(Drop)]
struct Unread;

impl fmt::Write for Unread {
    fn write_str(&mut self, _text: &str) -> fmt::Result {
        Ok(())
    }
}

// Two ranges of one chunk each, as lines.
const RANGES: &[u8] =
    br#"{"at_end":false,"at_start":false,"levels":[[1,0]],"nodes":[{"hash":"cfc5d07f6f03c29bbf424132963fe08d19a37d5757aaf520bf08119f05cd56d6","size":100}]}
{"at_end":false,"at_start":false,"levels":[[1,0]],"nodes":[{"hash":"c3e67584b5c4fc2a89837ec39e40f2c8a6bb0b2987ac94cd4b31e5fbdd210a72","size":200}]}
"#;

// The file hash of the chunks `a chunk`, `another` and `and a third`, and the proof and the data of the second one.
const FILE_HASH: &str = "0497c2ffdb9b034977074a6a2fe7c2a9dcfc7cc0a4f98777ed580f0b8444090f";

const PART: &[u8] =
    br#"{"chunks":[{"hash":"3481034b52254c2f1e0143ae20ce9e2459685799a774f5764bf5585211c865c1","size":7}],"levels":[{"left":[{"hash":"fc2d9e764137e94a0c4d7bdc0b584e73a34945fbf4efeef155acc8927c1399ff","size":7}],"right":[{"hash":"b5d2de3673ccda688a6ae4c470f097787aa87b128f134b1f5a7d33379b2f66e9","size":11}]}]}
another"#;

// Verifies the bytes 8 and 9 of these chunks.
fn verify_part<W: io::Write>(alloc: Global, writer: &mut W) -> Result<(), RangeFault> {
    match DataHash::from_hex(FILE_HASH) {
        Ok(file_hash) => verify(alloc, alloc, &file_hash, 8, 10, &mut &*PART, writer),
        Err(_) => Err(RangeFault::Mismatch),
    }
}

#[test]
fn ranges_are_made_joined_proved_and_verified(rt: HostRuntime) -> Result<(), Fail> {
    let alloc = rt.alloc();
    for command in 0..5 {
        let mut writer = HashedWrite::new(Nowhere);
        let (unwritten, mut ranges) = (writer.hash(), RANGES);
        let result = match command {
            0 => make(alloc, alloc, &mut b"+a\n--\n+b".as_slice(), &mut writer),
            1 => join(alloc, alloc, &mut ranges, &mut writer),
            2 => prove(
                alloc,
                alloc,
                0,
                1,
                &mut b"+a\n--\n+b".as_slice(),
                &mut writer,
            ),
            3 => verify_part(alloc, &mut writer),
            _ => root(alloc, alloc, &mut ranges, &mut writer),
        };
        if result == Err(RangeFault::Memory) {
            assert!(rt; writer.hash() == unwritten);
            return Err(Fail::from(AllocError));
        }
        assert!(rt; result == Ok(()));
        assert_ne!(rt; writer.hash(), unwritten);
    }
    Ok(())
}

// Prints a hash by its `LowerHex`.
#[derive(Drop)]
struct LowerHexOf(DataHash);

impl fmt::Display for LowerHexOf {
    fn fmt<W: fmt::Write>(&self, f: &mut fmt::Formatter<W>) -> fmt::Result {
        fmt::LowerHex::fmt(&self.0, f)
    }
}

const ABC: &str = "a8803506f7aff014f19aa9e9b79dc6455c49672570f96156071329698dd0284e";

#[test]
fn forms_of_hashes_take_no_memory(rt: HostRuntime) {
    let hash = DataHash::from_hex(ABC).expect(&rt, "a hash");
    assert!(rt; DataHash::from_hex_digits(&hash.hex_digits()).ok() == Some(hash));
    let bytes = hash.as_bytes();
    assert!(rt; DataHash::from_slice(&bytes).ok() == Some(hash));
    assert!(rt; DataHash::try_from(bytes.as_slice()).ok() == Some(hash));
    assert!(rt; DataHash::from(hash.words()) == hash);
    assert!(rt; DataHash::from_json(&Value::Null).is_err());
    assert!(rt; DataHash::default() < hash && hash < DataHash::marker());
    assert!(rt; DataHash::marker() % 4 == 3);
    let hex = LowerHexOf(hash);
    write!(Unread, "{hash} {hash:?} {hex}").expect(&rt, "a text");
}

#[test]
fn hashes_take_no_memory(rt: HostRuntime) {
    let hash = compute_data_hash(b"abc");
    assert!(rt; hash == DataHash::from_hex(ABC).expect(&rt, "a hash"));
    assert!(rt; DataHash::from(keyed_hash(&DATA_KEY, b"abc")) == hash);
    assert_ne!(rt; compute_internal_node_hash(b"abc"), hash);
    assert_ne!(rt; hash.hmac(hash), DataHash::random_from_seed(1));
    let mut state = U64DirectHasher::<DataHash>::default();
    hash.hash(&mut state);
    assert!(rt; state.finish() == hash.u64_hash_value());
    assert!(rt; state.build_hasher().finish() == 0);
    assert!(rt; find_stable_start(&chunks()).is_none());
    assert!(rt; find_stable_end(&chunks()).is_none());
}

#[test]
fn messages_take_no_memory(rt: HostRuntime) {
    let hash = DataHash::from_hex(ABC).expect(&rt, "a hash");
    let mut hasher = Hasher::new_keyed(&DATA_KEY);
    hasher.update(b"abc");
    assert!(rt; hasher.has_room(1) && hasher.count() == 3);
    assert!(rt; DataHash::from(hasher.finalize()) == hash);
    let mut writer = HashedWrite::new(Nowhere);
    io::Write::write_all(&mut writer, b"ab").expect(&rt, "a write");
    assert!(rt; io::Write::write(&mut writer, b"c").expect(&rt, "a write") == 1);
    io::Write::flush(&mut writer).expect(&rt, "a flush");
    assert!(rt; writer.hash() == hash);
    let Nowhere = writer.into_inner();
}

//! The forms of a hash and its comparisons. Other calls on hashes are in the worked examples.

use std::cmp::Ordering;
use std::hash::{DefaultHasher, Hash, Hasher};
use xet_hash::data_hash::{DataHash, MerkleHash};

// A hash as its 32 bytes, as its words and as its text.
const BYTES: [u8; 32] = [
    22, 175, 58, 132, 4, 75, 131, 214, 190, 153, 138, 66, 226, 3, 153, 242, 204, 86, 80, 234, 249,
    153, 80, 99, 159, 80, 65, 138, 236, 231, 149, 78,
];

const WORDS: [u64; 4] = [
    15457280828836065046,
    17481007698929162686,
    7156389106548758220,
    5662687109606101151,
];

const TEXT: &str = "d6834b04843aaf16f29903e2428a99be635099f9ea5056cc4e95e7ec8a41509f";

#[test]
fn has_one_value_in_each_form(rt: HostRuntime) {
    let hash = DataHash::from(BYTES);
    assert!(rt; hash.words() == WORDS);
    assert!(rt; hash.as_bytes() == BYTES);
    assert!(rt; <[u8; 32]>::from(hash) == BYTES);
    assert!(rt; hash.hex_digits().as_slice() == TEXT.as_bytes());
    assert!(rt; DataHash::from(WORDS) == hash);
    assert!(rt; DataHash::from(&BYTES) == hash);
    assert!(rt; MerkleHash::default().words() == [0; 4]);
    assert!(rt; hash != MerkleHash::default());
}

// Each row has a text, and whether reading it gives the hash.
const READ_TEXTS: &str = "d6834b04843aaf16f29903e2428a99be635099f9ea5056cc4e95e7ec8a41509f true
D6834B04843AAF16F29903E2428A99BE635099F9EA5056CC4E95E7EC8A41509F true
d6834b04843aaf16f29903e2428a99be635099f9ea5056cc4e95e7ec8a41509 false
d6834b04843aaf16f29903e2428a99be635099f9ea5056cc4e95e7ec8a41509f0 false
é834b04843aaf16f29903e2428a99be635099f9ea5056cc4e95e7ec8a41509f false
+6834b04843aaf16f29903e2428a99be635099f9ea5056cc4e95e7ec8a41509f false
 false
";

#[test]
fn reads_64_hex_digits(rt: HostRuntime) {
    let hash = DataHash::from(BYTES);
    for row in READ_TEXTS.lines() {
        let (text, is_read) = row.split_once(' ').expect(&rt, "an answer");
        let expected = if is_read == "true" { Some(hash) } else { None };
        assert!(rt; DataHash::from_hex(text).ok() == expected, "{text}");
        let of_bytes = DataHash::from_hex_digits(text.as_bytes()).ok();
        assert!(rt; of_bytes == expected, "{text}");
    }
    assert!(rt; DataHash::from_hex_digits(&[0xFF; 64]).is_err());
}

#[test]
fn prints_the_text_whatever_the_flags(rt: HostRuntime) {
    let hash = DataHash::from(BYTES);
    let printed = format!(in rt.alloc(); "{hash} {hash:*^80.3} {hash:?} {hash:#080?}").expect(
        &rt, "memory",
    );
    for word in printed.split(' ') {
        assert!(rt; word == TEXT);
    }
}

#[test]
fn compares_words(rt: HostRuntime) {
    let low = DataHash::from([1, 0, 0, 0]);
    let high = DataHash::from([256, 0, 0, 0]);
    assert!(rt; low < high);
    assert!(rt; low.cmp(&high) == Ordering::Less);
    assert!(rt; high.cmp(&high) == Ordering::Equal);
    assert!(rt; DataHash::from([0, 0, 0, 1]) < low);
    assert!(rt; DataHash::marker() % 4 == 3);
    assert!(rt; DataHash::default() % 4 == 0);
    assert!(rt; DataHash::from([1, 2, 3, 14]) % 10 == 4);
}

#[test]
fn feeds_word_zero_to_a_hash_function(rt: HostRuntime) {
    let mut of_hash = DefaultHasher::new();
    DataHash::from([5, 6, 7, 8]).hash(&mut of_hash);
    let mut of_word = DefaultHasher::new();
    of_word.write_u64(5);
    assert!(rt; of_hash.finish() == of_word.finish());
}

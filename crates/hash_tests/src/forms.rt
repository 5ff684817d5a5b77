//! Texts of a hash in allocated memory, and back.

use std::alloc::Global;
use std::fmt;
use std::process::Abort;
use xet_hash::data_hash::{
    DataHash, DataHashBytesParseError, DataHashHexParseError, HashTextError,
};

// A hash in two of its forms.
const BYTES: [u8; 32] = [
    22, 175, 58, 132, 4, 75, 131, 214, 190, 153, 138, 66, 226, 3, 153, 242, 204, 86, 80, 234, 249,
    153, 80, 99, 159, 80, 65, 138, 236, 231, 149, 78,
];

const HEX: &str = "d6834b04843aaf16f29903e2428a99be635099f9ea5056cc4e95e7ec8a41509f";

// Prints a hash by its `LowerHex`. `{:x}` prints only integers.
#[derive(Drop)]
struct LowerHexOf(DataHash);

impl fmt::Display for LowerHexOf {
    fn fmt<W: fmt::Write>(&self, f: &mut fmt::Formatter<W>) -> fmt::Result {
        fmt::LowerHex::fmt(&self.0, f)
    }
}

#[test]
fn writes_hex_whatever_the_flags(rt: HostRuntime) {
    let hash = DataHash::from(BYTES);
    assert!(rt; hash.hex(rt.alloc()).expect(&rt, "memory").as_str() == HEX);
    let hex = LowerHexOf(hash);
    let printed = format!(in rt.alloc(); "{hex} {hex:#80.3}").expect(&rt, "memory");
    for word in printed.split(' ') {
        assert!(rt; word == HEX);
    }
}

// Each row has a base64 text and the hex text of its hash, or a dash if no hash has the text.
const BASE64_TEXTS: &str =
    "Fq86hARLg9a-mYpC4gOZ8sxWUOr5mVBjn1BBiuznlU4 d6834b04843aaf16f29903e2428a99be635099f9ea5056cc4e95e7ec8a41509f
AAAAAAAAAAAAAAAAAAAAAAAAAAAAAAAAAAAAAAAAAAA 0000000000000000000000000000000000000000000000000000000000000000
__________________________________________8 ffffffffffffffffffffffffffffffffffffffffffffffffffffffffffffffff
IPkvGxKfzEOLhTAiabwQRGn5GUglJmE22VCZqf-OoZ4 43cc9f121b2ff9204410bc692230858b366126254819f9699ea18effa99950d9
AAAAAAAAAAAAAAAAAAAAAAAAAAAAAAAAAAAAAAAAAAB -
Fq86hARLg9a-mYpC4gOZ8sxWUOr5mVBjn1BBiuznlU4= -
Fq86hARLg9a+mYpC4gOZ8sxWUOr5mVBjn1BBiuznlU4 -
AAAAAAAAAAAAAAAAAAAAAAAAAAAAAAAAAAAAAAAAAA -
AAAAAAAAAAAAAAAAAAAAAAAAAAAAAAAAAAAAAAAAAAAAAA -
 -
";

// Returns the hex text of the hash with a base64 text, or a dash if there is none. A failed allocation ends the process.
fn read_base64(rt: &impl Abort, alloc: Global, text: &str) -> String {
    match DataHash::from_base64(alloc, text) {
        Ok(hash) => hash.hex(alloc).expect(rt, "memory"),
        Err(HashTextError::Bytes(_)) => format!(in alloc; "-").expect(rt, "memory"),
        Err(HashTextError::OutOfMemory) => panic!(rt; "out of memory"),
    }
}

// Returns whether a base64 text reads as the hash of a hex text, and this hash writes the base64 text back. If `hex` is
// a dash, returns whether the base64 text is that of no hash.
fn reads_back(rt: &impl Abort, alloc: Global, text: &str, hex: &str) -> bool {
    let is_read = read_base64(rt, alloc, text).as_str() == hex;
    match DataHash::from_hex(hex) {
        Ok(hash) => is_read && hash.base64(alloc).expect(rt, "memory").as_str() == text,
        Err(_) => is_read,
    }
}

// Returns whether the texts of a random hash are those of one hash.
fn texts_agree(rt: &impl Abort, alloc: Global, seed: u64) -> bool {
    let hash = DataHash::random_from_seed(seed);
    let text = hash.base64(alloc).expect(rt, "memory");
    let hex = hash.hex(alloc).expect(rt, "memory");
    reads_back(rt, alloc, text.as_str(), hex.as_str())
}

#[test]
fn reads_what_base64_writes(rt: HostRuntime) {
    for row in BASE64_TEXTS.lines() {
        let (text, hex) = row.split_once(' ').expect(&rt, "a hash");
        assert!(rt; reads_back(&rt, rt.alloc(), text, hex), "{row}");
    }
    for seed in 0..512 {
        assert!(rt; texts_agree(&rt, rt.alloc(), seed), "{seed}");
    }
}

#[test]
fn errors_speak(rt: HostRuntime) {
    let bytes = HashTextError::Bytes(DataHashBytesParseError);
    let memory = HashTextError::OutOfMemory;
    let printed = format!(in rt.alloc();
        "{DataHashHexParseError}; {DataHashBytesParseError}; {bytes}; {memory}"
    ).expect(&rt, "memory");
    let expected =
        "Invalid hex input for DataHash; Invalid bytes input for DataHash; Invalid bytes input for DataHash; out of memory";
    assert!(rt; printed.as_str() == expected);
}

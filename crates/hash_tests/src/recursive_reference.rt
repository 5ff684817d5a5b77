//! Keyed BLAKE3 as its specification defines it, by recursion: a subtree is the parent of its two halves, and a chunk is
//! taken in block by block. It shares no code with the crate `keyed_blake3`.

// The first words of the state's second half (2.2).
const IV: [u32; 4] = [0x6a09e667, 0xbb67ae85, 0x3c6ef372, 0xa54ff53a];

// The flags (2.3).
const CHUNK_START: u32 = 1;

const CHUNK_END: u32 = 2;

const PARENT: u32 = 4;

const ROOT: u32 = 8;

const KEYED_HASH: u32 = 16;

// The bytes of the largest left half that there may be.
const LARGEST_HALF: usize = 1 << 20;

// Mixes four words of the state with a word of the message, which is a half of the function G (2.2).
fn half_mixed(a: u32, b: u32, c: u32, d: u32, word: u32, first: u32, second: u32) -> [u32; 4] {
    let a = a.wrapping_add(b).wrapping_add(word);
    let d = (d ^ a).rotate_right(first);
    let c = c.wrapping_add(d);
    let b = (b ^ c).rotate_right(second);
    [a, b, c, d]
}

// Mixes four words of the state with two words of the message (2.2).
fn mixed(a: u32, b: u32, c: u32, d: u32, x: u32, y: u32) -> [u32; 4] {
    let [a, b, c, d] = half_mixed(a, b, c, d, x, 16, 12);
    half_mixed(a, b, c, d, y, 8, 7)
}

// Makes a round: the columns of the state, and then its diagonals (2.2).
fn round(s: &[u32; 16], m: &[u32; 16]) -> [u32; 16] {
    let [a0, b0, c0, d0] = mixed(s[0], s[4], s[8], s[12], m[0], m[1]);
    let [a1, b1, c1, d1] = mixed(s[1], s[5], s[9], s[13], m[2], m[3]);
    let [a2, b2, c2, d2] = mixed(s[2], s[6], s[10], s[14], m[4], m[5]);
    let [a3, b3, c3, d3] = mixed(s[3], s[7], s[11], s[15], m[6], m[7]);
    let [a0, b1, c2, d3] = mixed(a0, b1, c2, d3, m[8], m[9]);
    let [a1, b2, c3, d0] = mixed(a1, b2, c3, d0, m[10], m[11]);
    let [a2, b3, c0, d1] = mixed(a2, b3, c0, d1, m[12], m[13]);
    let [a3, b0, c1, d2] = mixed(a3, b0, c1, d2, m[14], m[15]);
    [
        a0, a1, a2, a3, b0, b1, b2, b3, c0, c1, c2, c3, d0, d1, d2, d3,
    ]
}

// Returns the words of a message in the order of the next round (2.2).
fn permuted(m: &[u32; 16]) -> [u32; 16] {
    [
        m[2], m[6], m[3], m[10], m[7], m[0], m[4], m[13], m[1], m[11], m[12], m[5], m[9], m[14],
        m[15], m[8],
    ]
}

// Compresses a block into a chaining value (2.2).
fn compressed(h: &[u32; 8], block: &[u32; 16], counter: u32, len: u32, flags: u32) -> [u32; 8] {
    let mut m = *block;
    let mut s = [
        h[0], h[1], h[2], h[3], h[4], h[5], h[6], h[7], IV[0], IV[1], IV[2], IV[3], counter, 0,
        len, flags,
    ];
    for _ in 0..7 {
        s = round(&s, &m);
        m = permuted(&m);
    }
    [
        s[0] ^ s[8],
        s[1] ^ s[9],
        s[2] ^ s[10],
        s[3] ^ s[11],
        s[4] ^ s[12],
        s[5] ^ s[13],
        s[6] ^ s[14],
        s[7] ^ s[15],
    ]
}

// Returns the words of at most 64 bytes, filled up with zero bytes.
fn words(bytes: &[u8]) -> [u32; 16] {
    let mut words = [0; 16];
    for (word, bytes) in words.iter_mut().zip(bytes.chunks(4)) {
        let mut four = [0; 4];
        for (to, byte) in four.iter_mut().zip(bytes) {
            *to = *byte;
        }
        *word = u32::from_le_bytes(four);
    }
    words
}

// Returns the value of a chunk, which has a byte (2.4).
fn chunk(key: &[u32; 8], bytes: &[u8], number: u32, root: u32) -> [u32; 8] {
    let last = bytes.len().div_ceil(64).saturating_sub(1);
    let mut value = *key;
    for (n, block) in bytes.chunks(64).enumerate() {
        let start = if n == 0 { CHUNK_START } else { 0 };
        let end = if n == last { CHUNK_END | root } else { 0 };
        let len = u32::try_from(block.len()).unwrap_or(64);
        value = compressed(&value, &words(block), number, len, KEYED_HASH | start | end);
    }
    value
}

// Returns the value of a parent (2.5).
fn parent(key: &[u32; 8], left: &[u32; 8], right: &[u32; 8], root: u32) -> [u32; 8] {
    let [l0, l1, l2, l3, l4, l5, l6, l7] = *left;
    let [r0, r1, r2, r3, r4, r5, r6, r7] = *right;
    let block = [
        l0, l1, l2, l3, l4, l5, l6, l7, r0, r1, r2, r3, r4, r5, r6, r7,
    ];
    compressed(key, &block, 0, 64, KEYED_HASH | PARENT | root)
}

// Returns the value of a subtree of at most twice `half` bytes, of which chunk `number` is the first. The left half has
// the most bytes that are a power of two and leave some for the right half (2.1).
fn subtree(key: &[u32; 8], bytes: &[u8], half: usize, number: u32, root: u32) -> [u32; 8] {
    if half < 1024 {
        return chunk(key, bytes, number, root);
    }
    if bytes.len() <= half {
        return subtree(key, bytes, half / 2, number, root);
    }
    let (left, right) = bytes.split_at(half);
    let next = number.wrapping_add(u32::try_from(half / 1024).unwrap_or(0));
    let left = subtree(key, left, half / 2, number, 0);
    let right = subtree(key, right, half / 2, next, 0);
    parent(key, &left, &right, root)
}

/// Returns the words of the hash of a message of 1 to 2^21 bytes under the words of a key.
pub fn hash_words(key: &[u32; 8], message: &[u8]) -> [u32; 8] {
    subtree(key, message, LARGEST_HALF, 0, ROOT)
}

/// Returns the words of 32 bytes.
pub fn words_of(bytes: &[u8; 32]) -> [u32; 8] {
    let [w0, w1, w2, w3, w4, w5, w6, w7, ..] = words(bytes);
    [w0, w1, w2, w3, w4, w5, w6, w7]
}

//! The tree of chaining values above the chunks, as it grows (BLAKE3 specification, 2.5 and 5.1.2).

ghost use Rattle.std.specs.Prelude.{◌≡◌, ◌==◌, ℕ, ◌+◌, ◌*◌, ◌/◌, ◌%◌, ◌^◌, ◌≤◌, ◌<◌, if◌then◌else◌, IsFalse, IsTrue, List, drop, length, take};
ghost use Rattle.std.specs.Int.{to_le_bytes, w32};
ghost use Rattle.std.specs.List.{flat_map};
ghost use Rattle.keyed_blake3.specs.Blake3.{parent_value, root_flag};
ghost use Rattle.keyed_blake3.specs.Steps.Lanes.{AreFull, lane};
ghost use Rattle.keyed_blake3.specs.declared.compression.width.TheConstants.{WIDEST};
ghost use Rattle.keyed_blake3.specs.Steps.Tree.{IsAbsorbed, IsEnded, IsWaiting, IsWaitingAtEnd, joined, subtree_at};

use crate::chunk::{
    BLOCK_LEN, BLOCKS_PER_CHUNK, CHUNK_END, CHUNK_LEN, KEYED_HASH, compress_block, start_flag,
};
use crate::compression::compress;
use crate::compression::lanes::lane;
use crate::compression::width::{Eight, Four, Lanes, Sixteen, WIDEST, Width};
use crate::subtrees::{PARENT, join_in_pairs, subtree_values};

// The most chaining values that may wait: a message has at most 2^54 chunks.
pub(crate) const MAX_DEPTH: usize = 54;

// The fewest chunks that are hashed side by side.
const FEWEST: usize = 2;

// The domain flag (table 3) of the root.
pub(crate) const ROOT: u32 = 8;

// Returns ROOT if no chaining value waits, and else 0.
#[inline(always)]
pub(crate) fn root_flag(waiting: usize) -> u32
    ensures { result ≡ (if waiting == 0 then root_flag else 0) }
{
    if waiting == 0 { ROOT } else { 0 }
}

// Returns the chaining value of two subtrees' parent (2.5).
pub(crate) fn parent_value(
    key: &[u32; 8],
    left: &[u32; 8],
    right: &[u32; 8],
    flags: u32,
) -> [u32; 8]
    requires { flags ≤ 8 }
    ensures { result ≡ parent_value key.now left.now right.now flags }
{
    let mut message = [0u32; 16];
    message[..8].copy_from_slice(left);
    message[8..].copy_from_slice(right);
    let flags = KEYED_HASH + PARENT + flags;
    compress(key, &message, 0, BLOCK_LEN as u32, flags)
}

// Returns the bytes of eight words, little-endian.
pub(crate) fn output(value: &[u32; 8]) -> [u8; 32]
    ensures { result ≡ flat_map (to_le_bytes w32) value.now }
{
    let mut bytes = [0u8; 32];
    'words: for i in 0..8 {
        bytes[4 * i..4 * i + 4].copy_from_slice(&value[i].to_le_bytes());
    }
    bytes
}

// Returns whether a value is joined with the last of the `used` values that wait: `rest`, the number of subtrees of its
// size before it, is odd, and more than `kept` values wait.
fn is_joined(rest: u64, used: usize, kept: usize) -> bool
    ensures joined { IsTrue result → (rest % 2 ≡ 1) × (kept < used) }
    ensures put { IsFalse result → rest % 2 ≡ 1 → used ≤ kept }
{
    rest % 2 == 1 && used > kept
}

// Adds the value of subtree number `number` of one size to those that wait, joined with each of its size on its left: as
// a 1 is added to a binary number, with a carry for each join. The first `kept` values aren't joined: `kept` is 0 if more
// bytes follow, and 1 if the message ends, since that join may make the root. It is never inlined, as `compress` isn't.
#[inline(never)]
fn add_subtree_value(
    cv_stack: &mut [[u32; 8]; MAX_DEPTH],
    key: &[u32; 8],
    number: u64,
    value: [u32; 8],
    kept: usize,
)
    requires { number + 1 < 2 ^ 54 }
    ensures joined { kept ≡ 0 → (k c : ℕ) (m : List ℕ) → c ≡ 2 ^ k * number → IsWaiting key.now cv_stack.old c m
        → value ≡ subtree_at key.now k c m → c + 2 ^ k < 2 ^ 54 → 1024 * (c + 2 ^ k) ≤ length m
        → IsWaiting key.now cv_stack.new (c + 2 ^ k) m }
    ensures kept { kept ≡ 1 → 0 < number → (k c : ℕ) (m : List ℕ) → c ≡ 2 ^ k * number
        → IsWaiting key.now cv_stack.old c m → value ≡ subtree_at key.now k c m → c + 2 ^ k < 2 ^ 54
        → 1024 * (c + 2 ^ k) ≤ length m → IsWaitingAtEnd key.now cv_stack.new (c + 2 ^ k) m }
{
    let mut value = value;
    let mut rest = number;
    let mut used = number.count_ones() as usize;
    'joins: while is_joined(rest, used, kept) {
        used -= 1;
        value = parent_value(key, &cv_stack[used], &value, 0);
        rest /= 2;
    }
    cv_stack[used] = value;
}

// Returns the number of chunks in each of `L` subtrees side by side, the first of which begins with chunk number
// `first`: the largest power of two that divides `first` and for which `chunks` chunks suffice. It is 1 where there could be more
// lanes, since only few chunks take fewer.
fn subtree_len<W: Width<L, B>, const L: usize, const B: usize>(first: u64, chunks: usize) -> usize
    requires { chunks < 2 ^ 54 }
    ensures len { (k : ℕ) × (result ≡ 2 ^ k) × (first % result ≡ 0) × (0 < k → L * result ≤ chunks) }
    ensures narrow { L < WIDEST → result ≡ 1 }
{
    if L < WIDEST {
        return 1;
    }
    let most = chunks / L;
    let mut len = 1;
    'doubled: while 2 * len <= most && first % (2 * len as u64) == 0 {
        len *= 2;
    }
    len
}

// What a message's blocks before its last one have made: the chaining value of the open chunk, and those of
// the subtrees on its left, which wait for what is on their right.
#[derive(Drop)]
#[repr(C)]
pub(crate) struct Tree {
    pub(crate) key: [u32; 8],
    pub(crate) chaining_value: [u32; 8],
    pub(crate) cv_stack: [[u32; 8]; MAX_DEPTH],
}

impl Tree {
    // Takes in block number `number`, which is not the message's last.
    pub(crate) fn absorb(&mut self, number: u64, block: &[u8])
        requires number { number + 1 < 2 ^ 58 }
        requires block { length block.now ≡ 64 }
        ensures { (key m : List ℕ) → IsAbsorbed key self.old number m → 64 * number + 64 ≤ length m
            → block.now ≡ take 64 (drop (64 * number) m) → IsAbsorbed key self.new (number + 1) m }
    {
        let chunk = number / BLOCKS_PER_CHUNK;
        let place = number % BLOCKS_PER_CHUNK;
        if place == BLOCKS_PER_CHUNK - 1 {
            let flags = KEYED_HASH + CHUNK_END;
            let value = compress_block(&self.chaining_value, block, chunk, BLOCK_LEN as u32, flags);
            add_subtree_value(&mut self.cv_stack, &self.key, chunk, value, 0);
            self.chaining_value = self.key;
        } else {
            let flags = KEYED_HASH + start_flag(place);
            self.chaining_value = compress_block(
                &self.chaining_value,
                block,
                chunk,
                BLOCK_LEN as u32,
                flags,
            );
        }
    }

    // Adds the values of the first `count` of some subtrees of one size, of which the first has number `number`.
    fn add_values<const L: usize>(&mut self, number: u64, count: usize, values: &[Lanes<L>; 8])
        requires number { number + count < 2 ^ 54 }
        requires count { count ≤ L }
        requires full { AreFull L values.now }
        ensures key { self.new.key ≡ self.old.key }
        ensures chaining_value { self.new.chaining_value ≡ self.old.chaining_value }
        ensures waits { (k c : ℕ) (m : List ℕ) → c ≡ 2 ^ k * number → IsWaiting self.old.key self.old.cv_stack c m
            → c + 2 ^ k * count < 2 ^ 54 → 1024 * (c + 2 ^ k * count) ≤ length m
            → ((j : ℕ) → j < count → lane j values.now ≡ subtree_at self.old.key k (c + 2 ^ k * j) m)
            → IsWaiting self.old.key self.new.cv_stack (c + 2 ^ k * count) m }
    {
        'values: for j in 0..count {
            let value = lane(values, j);
            add_subtree_value(&mut self.cv_stack, &self.key, number + j as u64, value, 0);
        }
    }

    // Takes in `count` subtrees of `len` chunks each, of which the first begins with chunk number `first`. `kept` is 1 if the
    // message ends with them, and else 0.
    fn absorb_subtrees<W: Width<L, B>, const L: usize, const B: usize>(
        &mut self,
        first: u64,
        len: usize,
        count: usize,
        chunks: &[u8],
        kept: usize,
    )
        requires len { (k : ℕ) × (len ≡ 2 ^ k) }
        requires first { first % len ≡ 0 }
        requires end { first + len * count < 2 ^ 54 }
        requires some { 1 < count }
        requires count { count ≤ L }
        requires all { 1 < len → count ≡ L }
        requires narrow { L < WIDEST → len ≡ 1 }
        requires chunks { length chunks.now ≡ 1024 * (len * count) }
        ensures absorbed { kept ≡ 0 → (key m : List ℕ) → IsAbsorbed key self.old (16 * first) m
            → 1024 * (first + len * count) ≤ length m
            → chunks.now ≡ take (1024 * (len * count)) (drop (1024 * first) m)
            → IsAbsorbed key self.new (16 * (first + len * count)) m }
        ensures ended { kept ≡ 1 → (key m : List ℕ) → IsAbsorbed key self.old (16 * first) m
            → 1024 * (first + len * count) ≤ length m
            → chunks.now ≡ take (1024 * (len * count)) (drop (1024 * first) m)
            → IsEnded key self.new (first + len * count) m }
    {
        let mut values = subtree_values::<W, L, B>(&self.key, chunks, first);
        let number = first / len as u64;
        let (number, count) = join_in_pairs::<W, L, B>(&self.key, number, count, &mut values);
        let last = count - 1;
        self.add_values(number, last, &values);
        let value = lane(&values, last);
        let number = number + last as u64;
        add_subtree_value(&mut self.cv_stack, &self.key, number, value, kept);
    }

    // Takes in the last block of chunk number `chunk`, with which the message ends.
    pub(crate) fn end_with_block(&mut self, chunk: u64, block: &[u8])
        requires some { 0 < chunk }
        requires chunk { chunk + 1 < 2 ^ 54 }
        requires block { length block.now ≡ 64 }
        ensures { (key m : List ℕ) → IsAbsorbed key self.old (16 * chunk + 15) m → 1024 * (chunk + 1) ≤ length m
            → block.now ≡ take 64 (drop (1024 * chunk + 960) m) → IsEnded key self.new (chunk + 1) m }
    {
        let flags = KEYED_HASH + CHUNK_END;
        let value = compress_block(&self.chaining_value, block, chunk, BLOCK_LEN as u32, flags);
        add_subtree_value(&mut self.cv_stack, &self.key, chunk, value, 1);
        self.chaining_value = self.key;
    }

    // Joins the message's halves, which wait if it has a power of two of chunks, since more bytes follow. It has `chunks`
    // chunks so far.
    pub(crate) fn join_halves(&mut self, chunks: u64)
        requires { chunks < 2 ^ 54 }
        ensures { (key m : List ℕ) → IsEnded key self.old chunks m → 1024 * chunks ≤ length m
            → IsAbsorbed key self.new (16 * chunks) m }
    {
        if chunks.count_ones() == 1 {
            let (left, right) = (self.cv_stack[0], self.cv_stack[1]);
            self.cv_stack[0] = parent_value(&self.key, &left, &right, 0);
        }
    }

    // Takes in the next of `whole` chunks with which `rest` begins, in `L` lanes. Returns the number of blocks.
    fn absorb_in_lanes<W: Width<L, B>, const L: usize, const B: usize>(
        &mut self,
        number: u64,
        whole: usize,
        rest: &[u8],
    ) -> usize
        requires number { 64 * number + length rest.now < 2 ^ 64 }
        requires first { number % 16 ≡ 0 }
        requires some { 1 < whole }
        requires whole { whole ≡ length rest.now / 1024 }
        ensures some { 0 < result }
        ensures rest { 64 * result ≤ length rest.now }
        ensures absorbed { 64 * result < length rest.now → (key m : List ℕ) → IsAbsorbed key self.old number m
            → rest.now ≡ drop (64 * number) m → IsAbsorbed key self.new (number + result) m }
        ensures whole { 64 * result ≡ length rest.now → ((number + result) % 16 ≡ 0) × (16 < result) }
        ensures ended { 64 * result ≡ length rest.now → (key m : List ℕ) → IsAbsorbed key self.old number m
            → rest.now ≡ drop (64 * number) m → IsEnded key self.new ((number + result) / 16) m }
    {
        let first = number / BLOCKS_PER_CHUNK;
        let len = subtree_len::<W, L, B>(first, whole);
        let count = whole.min(L);
        let chunks = &rest[..CHUNK_LEN * (len * count)];
        if chunks.len() == rest.len() {
            self.absorb_subtrees::<W, L, B>(first, len, count, chunks, 1);
            return chunks.len() / BLOCK_LEN;
        }
        self.absorb_subtrees::<W, L, B>(first, len, count, chunks, 0);
        chunks.len() / BLOCK_LEN
    }

    // Takes in the next of `whole` chunks with which `rest` begins, in the fewest lanes that hold them all, or in the most that
    // there may be: a lane that stands empty costs less than a second pass. Returns the number of blocks.
    fn absorb_chunks(&mut self, number: u64, whole: usize, rest: &[u8]) -> usize
        requires number { 64 * number + length rest.now < 2 ^ 64 }
        requires first { number % 16 ≡ 0 }
        requires some { 1 < whole }
        requires whole { whole ≡ length rest.now / 1024 }
        ensures some { 0 < result }
        ensures rest { 64 * result ≤ length rest.now }
        ensures absorbed { 64 * result < length rest.now → (key m : List ℕ) → IsAbsorbed key self.old number m
            → rest.now ≡ drop (64 * number) m → IsAbsorbed key self.new (number + result) m }
        ensures whole { 64 * result ≡ length rest.now → ((number + result) % 16 ≡ 0) × (16 < result) }
        ensures ended { 64 * result ≡ length rest.now → (key m : List ℕ) → IsAbsorbed key self.old number m
            → rest.now ≡ drop (64 * number) m → IsEnded key self.new ((number + result) / 16) m }
    {
        if WIDEST > 8 && whole > 8 {
            return self.absorb_in_lanes::<Sixteen, 16, 64>(number, whole, rest);
        }
        if WIDEST > 4 && whole > 4 {
            return self.absorb_in_lanes::<Eight, 8, 32>(number, whole, rest);
        }
        self.absorb_in_lanes::<Four, 4, 16>(number, whole, rest)
    }

    // Takes in what comes next of `rest`, the bytes of the message from block number `number` on: whole chunks if several
    // begin here, and else a block. Returns the number of blocks. If no bytes follow them, the message ends with them.
    pub(crate) fn absorb_next(&mut self, number: u64, rest: &[u8]) -> usize
        requires number { 64 * number + length rest.now < 2 ^ 64 }
        requires rest { 64 < length rest.now }
        ensures some { 0 < result }
        ensures rest { 64 * result ≤ length rest.now }
        ensures absorbed { 64 * result < length rest.now → (key m : List ℕ) → IsAbsorbed key self.old number m
            → rest.now ≡ drop (64 * number) m → IsAbsorbed key self.new (number + result) m }
        ensures whole { 64 * result ≡ length rest.now → ((number + result) % 16 ≡ 0) × (16 < result) }
        ensures ended { 64 * result ≡ length rest.now → (key m : List ℕ) → IsAbsorbed key self.old number m
            → rest.now ≡ drop (64 * number) m → IsEnded key self.new ((number + result) / 16) m }
    {
        let whole = rest.len() / CHUNK_LEN;
        if number % BLOCKS_PER_CHUNK > 0 || whole < FEWEST {
            let block = &rest[..BLOCK_LEN];
            self.absorb(number, block);
            return 1;
        }
        self.absorb_chunks(number, whole, rest)
    }

    // Returns the value `value` of what follows the first `used` values that wait, joined with them: the root's.
    pub(crate) fn joined(&self, used: usize, value: [u32; 8]) -> [u32; 8]
        requires { used ≤ 54 }
        ensures { (x : ℕ → List ℕ) → value ≡ x (if used == 0 then root_flag else 0)
            → result ≡ joined self.now.key (take used self.now.cv_stack) x root_flag }
    {
        let mut value = value;
        let mut used = used;
        'joins: while used > 0 {
            used -= 1;
            let left = &self.cv_stack[used];
            value = parent_value(&self.key, left, &value, root_flag(used));
        }
        value
    }
}

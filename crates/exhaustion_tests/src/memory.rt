//! The memory that a process can get, used up but for a few bytes.
//!
//! Nothing is written to the blocks that hold it, so they take places in the address space and hardly any memory, and only
//! this process runs out. The sanitizer of `rt try` grants small blocks without end, so these tests fail there.

use std::alloc::Global;
use std::process::Abort;

type Blocks = Vec<Vec<u8>>;

// The largest block that is tried. Of an address space of 2^47 bytes, 8192 blocks of 16 GiB take all.
const LARGEST: usize = 1 << 44;

const MOST_BLOCKS: usize = 50_000;

// `malloc` keeps freed blocks of up to 1032 bytes by their sizes, in steps of 16, and cuts none of them into smaller ones.
const SMALL: usize = 65;

// A larger block, which it cuts.
const ROOM: usize = 4096;

// How many bytes more are left each time, and how often.
const STEP: usize = 16;

pub(crate) const STEPS: usize = 400;

/// All memory of the process. Dropping it gives the memory back.
#[derive(Drop)]
pub(crate) struct Memory {
    alloc: Global,
    blocks: Blocks,
    // Blocks that are given back one by one, from the last one on, which is the smallest.
    rooms: Blocks,
}

// Takes blocks of a size for as long as they are granted.
fn take(rt: &impl Abort, alloc: Global, size: usize, blocks: &mut Blocks) {
    for _ in 0..MOST_BLOCKS {
        let Ok(block) = Vec::with_capacity(alloc, size) else {
            return;
        };
        if blocks.len() >= MOST_BLOCKS {
            break;
        }
        blocks.push(block).expect(rt, "room for a block");
    }
    panic!(rt; "this memory can't be used up")
}

// Takes all that is left in small blocks.
fn take_rest(rt: &impl Abort, alloc: Global, blocks: &mut Blocks) {
    for steps in 0..SMALL {
        take(rt, alloc, STEP * (SMALL - steps), blocks);
    }
}

impl Memory {
    /// Takes all memory.
    pub(crate) fn use_up(rt: &impl Abort, alloc: Global) -> Memory {
        let mut blocks = Vec::with_capacity(alloc, MOST_BLOCKS).expect(rt, "memory");
        let mut rooms: Blocks = Vec::with_capacity(alloc, STEPS).expect(rt, "memory");
        for step in 0..STEPS {
            let room = Vec::with_capacity(alloc, ROOM + STEP * (STEPS - 1 - step));
            rooms.push(room.expect(rt, "memory")).expect(rt, "memory");
        }
        for halvings in 0..34u32 {
            take(rt, alloc, LARGEST >> halvings, &mut blocks);
        }
        Memory {
            alloc,
            blocks,
            rooms,
        }
    }

    /// Takes what is left, and leaves 16 bytes more than the last time. The first time it leaves none.
    pub(crate) fn leave_more(&mut self, rt: &impl Abort) {
        take_rest(rt, self.alloc, &mut self.blocks);
        drop(self.rooms.pop());
        let block = Vec::with_capacity(self.alloc, ROOM).expect(rt, "memory");
        self.blocks.push(block).expect(rt, "room for a block");
    }
}

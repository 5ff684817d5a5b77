//! An allocator for tests. It fails on request, and counts the allocations that succeed.
#![tactic(auto)]

use std::alloc::{AllocError, Allocator};
use std::cell::Cell;

/// How many requests an allocator granted, and for how many bytes in all.
#[derive(Clone, Copy, Debug, PartialEq, Eq)]
pub struct Granted {
    pub requests: u64,
    pub bytes: u64,
}

// No requests.
const NONE: Granted = Granted {
    requests: 0,
    bytes: 0,
};

// The requests since the start, or since `grant` was last called.
#[derive(Clone, Copy)]
struct Counts {
    // How many more requests are granted. It is below zero once one was refused.
    left: i64,
    granted: Granted,
}

/// An allocator that grants its first requests by passing them on to another allocator, and refuses each later one.
/// Growing a collection is a request. Collections that hold a `&` to it share its counts.
///
/// No contract can mention the counts, which change behind a `&`.
pub struct RefusingAllocator<B: Allocator> {
    inner: B,
    counts: Cell<Counts>,
}

impl<B: Allocator> RefusingAllocator<B> {
    /// Makes an allocator that grants `granted` requests.
    pub fn new(inner: B, granted: u32) -> Self {
        RefusingAllocator {
            inner,
            counts: Cell::new(first(granted)),
        }
    }

    /// Grants `granted` requests from here on, and refuses each later one.
    pub fn grant(&self, granted: u32) {
        self.counts.set(first(granted));
    }

    /// Returns whether a request was refused since the start, or since `grant` was last called.
    pub fn has_refused(&self) -> bool {
        self.counts.get().left < 0
    }

    /// Returns the requests that were granted since the start, or since `grant` was last called.
    pub fn granted(&self) -> Granted {
        self.counts.get().granted
    }
}

impl<B: Allocator> Drop for RefusingAllocator<B> {
    fn drop(self) {
        let Self {
            inner: _,
            counts: _,
        } = self;
    }
}

// The counts if `granted` requests are to be granted, and none was made yet.
fn first(granted: u32) -> Counts {
    Counts {
        left: i64::from(granted),
        granted: NONE,
    }
}

// Counts a request for `size` bytes. Returns whether it is refused.
fn refuses(counts: &Cell<Counts>, size: usize) -> bool {
    let Counts { left, mut granted } = counts.get();
    let left = left.saturating_sub(1);
    let is_refused = left < 0;
    if !is_refused {
        granted.requests = granted.requests.saturating_add(1);
        granted.bytes = granted.bytes.saturating_add(size as u64);
    }
    counts.set(Counts { left, granted });
    is_refused
}

unsafe impl<B: Allocator> Allocator for RefusingAllocator<B> {
    ghost dealloc_token = { λ heap ty ptr. B.dealloc_token heap.inner ty ptr };

    fn allocate(&self, size: usize, align: usize) -> Result<*mut u8, AllocError> {
        if refuses(&self.counts, size) {
            return Err(AllocError);
        }
        self.inner.allocate(size, align)
    }

    unsafe fn deallocate(&self, ptr: *mut u8, size: usize, align: usize) {
        self.inner.deallocate(ptr, size, align);
    }
}

//! Test doubles: an allocator that refuses one request, a reader that fails, and a writer that fails.
pub mod readers;
pub mod sinks;

use std::alloc::{AllocError, Allocator};
use std::cell::Cell;

/// An allocator that passes each request to another one, and refuses one of them.
#[derive(Drop)]
pub struct RefusesOne<B: Allocator> {
    inner: B,
    left: Cell<u64>,
}

impl<B: Allocator> RefusesOne<B> {
    /// Refuses the request after `granted` ones.
    pub fn new(inner: B, granted: u64) -> RefusesOne<B> {
        RefusesOne {
            inner,
            left: Cell::new(granted),
        }
    }

    /// The allocator that requests are passed to.
    pub fn inner(&self) -> &B {
        &self.inner
    }

    /// How many more requests are granted before one is refused. Each request subtracts one, the refused one and those after it
    /// too, modulo 2^64.
    pub fn left(&self) -> u64 {
        self.left.get()
    }
}

// Counts this request, and returns whether it is granted.
fn is_granted(left: &Cell<u64>) -> bool {
    let count = left.get();
    left.set(count.wrapping_sub(1));
    count != 0
}

unsafe impl<B: Allocator> Allocator for RefusesOne<B> {
    // The token to free a block is the inner allocator's.
    ghost dealloc_token = { λ heap ty ptr. B.dealloc_token heap.inner ty ptr };

    fn allocate(&self, size: usize, align: usize) -> Result<*mut u8, AllocError> {
        if is_granted(&self.left) {
            self.inner.allocate(size, align)
        } else {
            Err(AllocError)
        }
    }

    unsafe fn deallocate(&self, ptr: *mut u8, size: usize, align: usize) {
        self.inner.deallocate(ptr, size, align);
    }
}

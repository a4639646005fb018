//! An allocator that refuses one growth, for tests that try each growth of a call in turn.
//! A test is a helper that is generic over `A: Allocator + Copy`, run with `&heap` for n = 1, 2, .. until it no longer waits.

use std::alloc::{AllocError, Allocator};
use std::cell::Cell;

/// Passes each call on to `inner`, but refuses the one that `left` counts down to. With 0 it refuses none.
pub struct Refusing<B: Allocator> {
    inner: B,
    left: Cell<u64>,
}

impl<B: Allocator> Refusing<B> {
    /// Refuses the `nth` growth, and none with 0. Takes no memory.
    pub fn new(inner: B, nth: u64) -> Refusing<B> {
        Refusing {
            inner,
            left: Cell::new(nth),
        }
    }

    /// Refuses the `nth` growth from now on, and none with 0.
    pub fn arm(&self, nth: u64) {
        self.left.set(nth);
    }

    /// Whether the growth to be refused has not come yet.
    pub fn is_waiting(&self) -> bool {
        self.left.get() > 0
    }
}

// The heap that is passed on to is dropped like any other value.
impl<B: Allocator> Drop for Refusing<B> {
    fn drop(self) {
        let Self { inner: _, left: _ } = self;
    }
}

// Counts one growth down, and answers whether it is the one to be refused.
fn refuses(left: &Cell<u64>) -> bool {
    let before = left.get();
    left.set(before.saturating_sub(1));
    before == 1
}

unsafe impl<B: Allocator> Allocator for Refusing<B> {
    ghost dealloc_token = { λ heap ty ptr. B.dealloc_token heap.inner ty ptr };

    fn allocate(&self, size: usize, align: usize) -> Result<*mut u8, AllocError> {
        if refuses(&self.left) {
            return Err(AllocError);
        }
        self.inner.allocate(size, align)
    }

    unsafe fn deallocate(&self, ptr: *mut u8, size: usize, align: usize) {
        self.inner.deallocate(ptr, size, align);
    }
}

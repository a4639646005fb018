//! What was done to a disk.

use std::alloc::Allocator;

/// A call of a disk that was done, at least in part.
#[derive(Drop)]
pub enum Call<A: Allocator> {
    /// These bytes were written from a place on.
    Wrote { at: u64, bytes: Vec<u8, A> },
    /// What stood from a place on was cut off.
    CutOff { at: u64 },
    /// What was written and cut before was made durable.
    Synced,
}

//! A text that counts its reads.

ghost use Rattle.std.specs.Prelude.{◌≡◌, ◌<◌, ◌≤◌, length, Some, IfOk};
ghost use Rattle.gx_at.specs.Reads.{ReadsAt};

use gx_at::{ReadAt, TextAt};
use gx_text::Failed;
use std::cell::Cell;

/// A text in memory, whose reads are counted, and fail from one on.
#[derive(Drop)]
pub(crate) struct Counted<'a> {
    pub(crate) text: TextAt<'a>,
    pub(crate) reads: &'a Cell<u64>,
    pub(crate) most: u64,
}

impl<'a> ReadAt for Counted<'a> {
    ghost text = { λ s. Some s.text.text.now };

    fn read_at(&self, at: u64, room: &mut [u8]) -> Result<usize, Failed>
        requires nonempty { 0 < length room.old }
        ensures same_room { length room.new ≡ length room.old }
        ensures bound { IfOk result (λ n. n ≤ length room.new) }
        ensures bytes { ReadsAt (Some self.now.text.text.now) at room.new result }
    {
        let reads = self.reads.get();
        if reads >= self.most {
            return Err(Failed);
        }
        self.reads.set(reads.saturating_add(1));
        self.text.read_at(at, room)
    }
}

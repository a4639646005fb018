//! What gives the bytes at a place.

ghost use Rattle.std.specs.Prelude.{◌≡◌, ◌<◌, ◌≤◌, length, Option, IfOk};
ghost use Rattle.gx_at.specs.Reads.{ReadsAt};
ghost use Rattle.gx_model.specs.Texts.{Bytes};

use gx_text::Failed;

/// What gives the bytes at a place. It is asked by a shared reference, so its text is the same before and after a read.
pub trait ReadAt {
    /// The whole text, where that is known.
    ghost text: { Self → Option Bytes };

    /// Writes the bytes from a place on to the front of the room, and answers how many: at least one, and none where the
    /// text ends at the place or before. Takes no memory.
    fn read_at(&self, at: u64, room: &mut [u8]) -> Result<usize, Failed>
        requires nonempty { 0 < length room.old }
        ensures same_room { length room.new ≡ length room.old }
        ensures bound { IfOk result (λ n. n ≤ length room.new) }
        ensures bytes { ReadsAt (text self.now) at room.new result };
}

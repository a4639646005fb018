//! A text in memory.

ghost use Rattle.std.specs.Prelude.{◌≡◌, ◌<◌, ◌≤◌, ◌-◌, length, min, max, Some, IfOk, IsOk};
ghost use Rattle.gx_at.specs.Reads.{ReadsAt};

use crate::ReadAt;
use gx_text::Failed;

/// A text in memory, of which one read gives at most `piece` bytes, and one byte where that is 0.
#[derive(Clone, Copy, Drop)]
pub struct TextAt<'a> {
    pub text: &'a [u8],
    pub piece: usize,
}

impl<'a> ReadAt for TextAt<'a> {
    ghost text = { λ s. Some s.text.now };

    /// Gives as many bytes as are left, as fit the room, and as `piece` allows. Cost: their number.
    fn read_at(&self, at: u64, room: &mut [u8]) -> Result<usize, Failed>
        requires nonempty { 0 < length room.old }
        ensures same_room { length room.new ≡ length room.old }
        ensures bound { IfOk result (λ n. n ≤ length room.new) }
        ensures bytes { ReadsAt (Some self.now.text.now) at room.new result }
        ensures read { IsOk result }
        ensures all { IfOk result (λ n.
            n ≡ min (min (length self.now.text.now - at) (max self.now.piece 1))
            (length room.old)) }
    {
        if at >= self.text.len() as u64 {
            return Ok(0);
        }
        let rest = &self.text[at as usize..];
        let count = rest.len().min(self.piece.max(1)).min(room.len());
        room[..count].copy_from_slice(&rest[..count]);
        Ok(count)
    }
}

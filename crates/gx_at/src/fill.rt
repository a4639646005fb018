//! Filling a room from a place on.

ghost use Rattle.std.specs.Prelude.{◌≡◌, ◌+◌, ◌<◌, ◌^◌, length, OnOk};
ghost use Rattle.gx_at.specs.Reads.{StandsAt};

use crate::ReadAt;
use gx_text::Failed;

/// Fills the room with the bytes from a place on. `Failed` where a read fails, or the text ends before.
///
/// Cost: as many reads as the bytes come in. Takes no memory.
pub fn fill_at<S: ReadAt>(source: &S, at: u64, room: &mut [u8]) -> Result<(), Failed>
    requires { at + length room.old < 2 ^ 64 }
    ensures same_room { length room.new ≡ length room.old }
    ensures there { OnOk result (StandsAt (S.text source.now) at room.new) }
{
    let mut done = 0;
    while done < room.len() {
        let count = source.read_at(at + done as u64, &mut room[done..])?;
        if count == 0 {
            return Err(Failed);
        }
        done += count;
    }
    Ok(())
}

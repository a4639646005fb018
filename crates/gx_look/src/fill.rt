//! Reading from a place on.

ghost use Rattle.std.specs.Prelude.{◌≡◌, ◌+◌, ◌<◌, ◌≤◌, ◌^◌, length, IfErr, OnOk};
ghost use Rattle.gx_at.specs.Reads.{StandsAt};
ghost use Rattle.gx_look.specs.Reading.{EndsBefore};

use gx_at::ReadAt;
use gx_objects::LookFault;
use std::alloc::Allocator;

/// How many bytes are read together, before more than these have come.
const PIECE: usize = 65_536;

/// Fills the room with the bytes from a place on. `Damaged` where the text ends before.
pub(crate) fn fill<S: ReadAt>(source: &S, at: u64, room: &mut [u8]) -> Result<(), LookFault>
    requires { at + length room.old < 2 ^ 64 }
    ensures same_room { length room.new ≡ length room.old }
    ensures there { OnOk result (StandsAt (S.text source.now) at room.new) }
    ensures fault { IfErr result (EndsBefore (S.text source.now) (at + length room.old)) }
{
    let mut done = 0;
    while done < room.len() {
        let count = source.read_at(at + done as u64, &mut room[done..])?;
        if count == 0 {
            return Err(LookFault::Damaged);
        }
        done += count;
    }
    Ok(())
}

/// Fills the room with so many bytes from a place on, in place of what it held. `Damaged` where the text ends before.
pub(crate) fn refill<S: ReadAt, A: Allocator + Copy>(
    source: &S,
    at: u64,
    count: usize,
    room: &mut Vec<u8, A>,
) -> Result<(), LookFault>
    requires { at + count < 2 ^ 64 }
    ensures count { OnOk result (length room.new.items ≡ count) }
    ensures there { OnOk result (StandsAt (S.text source.now) at room.new.items) }
    ensures fault { IfErr result (EndsBefore (S.text source.now) (at + count)) }
{
    room.resize(count, 0)?;
    fill(source, at, room.as_mut_slice())
}

/// Reads on behind the bytes that stand in the room until it has so many from a place on. The room grows as they come, to at
/// most twice as many. `Damaged` where the text ends before.
pub(crate) fn read_on<S: ReadAt, A: Allocator + Copy>(
    source: &S,
    at: u64,
    count: usize,
    room: &mut Vec<u8, A>,
) -> Result<(), LookFault>
    requires fits { at + count < 2 ^ 64 }
    requires within { length room.old.items ≤ count }
    requires there { StandsAt (S.text source.now) at room.old.items }
    ensures count { OnOk result (length room.new.items ≡ count) }
    ensures there { OnOk result (StandsAt (S.text source.now) at room.new.items) }
    ensures fault { IfErr result (EndsBefore (S.text source.now) (at + count)) }
{
    while room.len() < count {
        let done = room.len();
        let more = (count - done).min(done.max(PIECE));
        room.resize(done + more, 0)?;
        fill(source, at + done as u64, &mut room.as_mut_slice()[done..])?;
    }
    Ok(())
}

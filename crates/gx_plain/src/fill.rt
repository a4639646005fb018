//! Reading from a place on.

ghost use Rattle.std.specs.Prelude.{◌≢◌, ◌+◌, ◌<◌, ◌≤◌, ◌^◌, length, IfErr, OnOk};
ghost use Rattle.gx_objects.specs.declared.fault.LookFault.TheVariants.{Damaged};
ghost use Rattle.gx_look.specs.Reading.{EndsBefore};
ghost use Rattle.gx_plain.specs.Reading.{HasFront, IsFrontAt};

use gx_at::ReadAt;
use gx_objects::LookFault;
use std::alloc::Allocator;

/// How many bytes are read together, before more than these have come.
const PIECE: usize = 65_536;

/// Has the room have so many bytes from a place on, in place of what it held, and fewer where the text ends before.
///
/// Cost: as many reads as the bytes come in. Memory: the room, which grows as they come, to at most twice as many.
pub(crate) fn read_front<S: ReadAt, A: Allocator + Copy>(
    source: &S,
    at: u64,
    count: usize,
    room: &mut Vec<u8, A>,
) -> Result<(), LookFault>
    requires { at + count < 2 ^ 64 }
    ensures within { OnOk result (length room.new.items ≤ count) }
    ensures front { OnOk result (IsFrontAt (S.text source.now) at count room.new.items) }
    ensures fault { IfErr result (λ fault. fault ≢ Damaged) }
{
    room.clear();
    while room.len() < count {
        let done = room.len();
        let more = (count - done).min(done.max(PIECE));
        room.resize(done + more, 0)?;
        let came = source.read_at(at + done as u64, &mut room.as_mut_slice()[done..])?;
        room.truncate(done + came);
        if came == 0 {
            return Ok(());
        }
    }
    Ok(())
}

/// Has a room, which has bytes from a place on, have more of them than stand before an end. `Damaged` where the text ends before.
pub(crate) fn read_behind<S: ReadAt, A: Allocator + Copy>(
    source: &S,
    at: u64,
    end: usize,
    room: &mut Vec<u8, A>,
) -> Result<(), LookFault>
    requires near { at + end + 1 < 2 ^ 64 }
    requires front { HasFront (S.text source.now) at room.old.items }
    ensures front { OnOk result (HasFront (S.text source.now) at room.new.items) }
    ensures behind { OnOk result (end < length room.new.items) }
    ensures fault { IfErr result (EndsBefore (S.text source.now) (at + end + 1)) }
{
    if end < room.len() {
        return Ok(());
    }
    read_front(source, at, end + 1, room)?;
    if end < room.len() {
        Ok(())
    } else {
        Err(LookFault::Damaged)
    }
}

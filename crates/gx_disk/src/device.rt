//! What is read of a disk in memory, and what is written to it.

ghost use Rattle.std.specs.Prelude.{◌≡◌, ◌<◌, ◌≤◌, length, Some, IfOk};
ghost use Rattle.gx_at.specs.Reads.{ReadsAt};
ghost use Rattle.gx_append.specs.Devices.{CountsFaults};

use crate::disk::Disk;
use gx_append::Device;
use gx_at::{ReadAt, TextAt};
use gx_text::Failed;
use std::alloc::Allocator;
use std::io;

impl<A: Allocator + Copy> ReadAt for Disk<A> {
    ghost text = { λ d. Some d.text.items };

    fn read_at(&self, at: u64, room: &mut [u8]) -> Result<usize, Failed>
        requires nonempty { 0 < length room.old }
        ensures same_room { length room.new ≡ length room.old }
        ensures bound { IfOk result (λ n. n ≤ length room.new) }
        ensures bytes { ReadsAt (Some self.now.text.items) at room.new result }
    {
        let whole = TextAt {
            text: self.text.as_slice(),
            piece: usize::MAX,
        };
        whole.read_at(at, room)
    }
}

/// Any of the writes and cuts since the last sync may be missing after a stop, or be there in part, or torn. A call that the plan
/// lets fail, and one that wants memory, count as failed.
impl<A: Allocator + Copy> Device for Disk<A> {
    ghost use Rattle.gx_disk.specs.Disks.{MayLeave, LeftSince, begun, counts_now, only_now, replayed};

    ghost may_leave = { λ d. MayLeave (replayed (begun d.first.items) d.calls.items) };

    ghost moment = { λ d. length d.calls.items };

    ghost left_since = { λ d. LeftSince d.first.items d.calls.items };

    ghost faults = { λ d. d.faults };

    ghost counts_now = { λ d. counts_now d.first.items d.calls.items };

    ghost only_now = { λ d. only_now d.first.items d.calls.items };

    /// Behind the end nothing is written: that fails. Cost: the text.
    fn write_at(&mut self, at: u64, bytes: &[u8]) -> io::Result<()> {
        let done = self.write(at, bytes);
        count(done, &mut self.faults)
    }

    /// Behind the end nothing stands. Cost: what is cut off.
    fn cut(&mut self, at: u64) -> io::Result<()> {
        let done = self.cut_off(at);
        count(done, &mut self.faults)
    }

    fn sync(&mut self) -> io::Result<()> {
        let done = self.settle();
        count(done, &mut self.faults)
    }
}

/// Counts a call that failed.
fn count(done: io::Result<()>, faults: &mut u64) -> io::Result<()>
    ensures same { result ≡ done }
    ensures counted { CountsFaults faults.old faults.new done }
{
    if done.is_err() {
        *faults = faults.saturating_add(1);
    }
    done
}

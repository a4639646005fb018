//! What a growing text stands on: its bytes, and what a stop of the machine leaves of them.

ghost use Rattle.std.specs.Prelude.{◌≡◌, ◌≤◌, ℕ, length, OnOk};
ghost use Rattle.gx_model.specs.Texts.{Bytes};
ghost use Rattle.gx_append.specs.Devices.{Cut, Cuts, Elapses, FailsFor, Follows, OnlyText, Torn, Writes};

use gx_at::ReadAt;
use std::io;

/// A file that is read and written at places, which stands on a disk.
///
/// The machine may stop at any moment. Of a write that isn't synced any part may be left then, and any bytes in its range.
pub trait Device: ReadAt {
    /// What a stop at this moment may leave.
    ghost may_leave: { Self → Bytes → Type 0 };

    /// This moment, as a number that doesn't fall.
    ghost moment: { Self → ℕ };

    /// What a stop at some moment from that one on might have left, during a call or between two.
    ghost left_since: { Self → ℕ → Bytes → Type 0 };

    /// How often a call has failed, for want of memory, too. The count may end at 2^64 - 1.
    ghost faults: { Self → ℕ };

    /// Writes bytes from a place on, over what is there and behind the end.
    fn write_at(&mut self, at: u64, bytes: &[u8]) -> io::Result<()>
        ensures written { Writes at bytes.now result (Self.text self.old) (Self.text self.new) }
        ensures left { Follows (Torn at (length bytes.now)) (may_leave self.old)
            (may_leave self.new) }
        ensures time { Elapses moment left_since may_leave self.old self.new }
        ensures cause { FailsFor (Self.text self.old) (faults self.old) (faults self.new) result };

    /// Cuts off what stands from a place on.
    fn cut(&mut self, at: u64) -> io::Result<()>
        ensures kept { Cuts at result (Self.text self.old) (Self.text self.new) }
        ensures left { Follows (Cut at) (may_leave self.old) (may_leave self.new) }
        ensures time { Elapses moment left_since may_leave self.old self.new }
        ensures cause { FailsFor (Self.text self.old) (faults self.old) (faults self.new) result };

    /// Makes durable what was written and cut: from then on a stop leaves what is read.
    fn sync(&mut self) -> io::Result<()>
        ensures same { Self.text self.new ≡ Self.text self.old }
        ensures durable { OnOk result (OnlyText (Self.text self.old) (may_leave self.new)) }
        ensures left { (c : Bytes) → may_leave self.new c → may_leave self.old c }
        ensures time { Elapses moment left_since may_leave self.old self.new }
        ensures cause { FailsFor (Self.text self.old) (faults self.old) (faults self.new) result };

    /// This moment is one of those from an earlier one on.
    ghost counts_now: { (device : Self) (t : ℕ) (c : Bytes)
        → t ≤ moment device → may_leave device c → left_since device t c };

    /// From this moment on there is no other yet.
    ghost only_now: { (device : Self) (c : Bytes)
        → left_since device (moment device) c → may_leave device c };
}

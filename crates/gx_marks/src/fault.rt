//! Why a text isn't one of marks.

ghost use Rattle.std.specs.Prelude.{◌≡◌};
ghost use Rattle.gx_marks.specs.declared.fault.MarksFault.TheVariants.{OutOfMemory};

use std::alloc::AllocFailed;

/// Why the marks of a text aren't read.
#[derive(Clone, Copy, Debug, PartialEq, Eq, Drop)]
pub enum MarksFault {
    /// A growth was refused.
    OutOfMemory,
    /// The number of the first line that tells no mark, from 1. One without an LF tells none.
    BadLine(usize),
}

impl<T: Drop> From<AllocFailed<T>> for MarksFault {
    ghost from_gives = { λ _ fault. fault ≡ OutOfMemory };

    fn from(_error: AllocFailed<T>) -> MarksFault {
        MarksFault::OutOfMemory
    }
}

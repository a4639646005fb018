//! Why a segment isn't appended.

ghost use Rattle.std.specs.Prelude.{◌≡◌};
ghost use Rattle.gx_additions.specs.declared.fault.AdditionFault.TheVariants.{OutOfMemory, ReadFailed};

use gx_append::AppendFault;
use gx_text::Failed;
use std::alloc::{AllocError, AllocFailed};

/// Why a growing text isn't given what a segment brings, or it isn't known whether it is.
#[derive(Clone, Copy, Debug, Drop)]
pub enum AdditionFault {
    /// A growth was refused, or the text would have 2^63 bytes or more. Nothing was written.
    OutOfMemory,
    /// A read failed, or the text ends before rows of a live run. Nothing was written.
    ReadFailed,
    /// The device failed while it was written.
    Append(AppendFault),
}

impl From<AllocError> for AdditionFault {
    ghost from_gives = { λ _ fault. fault ≡ OutOfMemory };

    fn from(_error: AllocError) -> AdditionFault {
        AdditionFault::OutOfMemory
    }
}

impl<T: Drop> From<AllocFailed<T>> for AdditionFault {
    ghost from_gives = { λ _ fault. fault ≡ OutOfMemory };

    fn from(_error: AllocFailed<T>) -> AdditionFault {
        AdditionFault::OutOfMemory
    }
}

impl From<Failed> for AdditionFault {
    ghost from_gives = { λ _ fault. fault ≡ ReadFailed };

    fn from(_error: Failed) -> AdditionFault {
        AdditionFault::ReadFailed
    }
}

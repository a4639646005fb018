//! Why an object or a ref isn't told.

ghost use Rattle.std.specs.Prelude.{◌≡◌};
ghost use Rattle.gx_objects.specs.declared.fault.LookFault.TheVariants.{OutOfMemory, ReadFailed};

use gx_text::Failed;
use std::alloc::{AllocError, AllocFailed};

/// Why an object or a ref isn't told.
#[derive(Clone, Copy, Debug, PartialEq, Eq, Drop)]
pub enum LookFault {
    /// A growth was refused.
    OutOfMemory,
    /// A read failed.
    ReadFailed,
    /// What stands there is no repository's.
    Damaged,
}

impl From<AllocError> for LookFault {
    ghost from_gives = { λ _ fault. fault ≡ OutOfMemory };

    fn from(_error: AllocError) -> LookFault {
        LookFault::OutOfMemory
    }
}

impl<T: Drop> From<AllocFailed<T>> for LookFault {
    ghost from_gives = { λ _ fault. fault ≡ OutOfMemory };

    fn from(_error: AllocFailed<T>) -> LookFault {
        LookFault::OutOfMemory
    }
}

impl From<Failed> for LookFault {
    ghost from_gives = { λ _ fault. fault ≡ ReadFailed };

    fn from(_error: Failed) -> LookFault {
        LookFault::ReadFailed
    }
}

//! Why a text isn't made.

ghost use Rattle.std.specs.Prelude.{◌≡◌};
ghost use Rattle.gx_kept.specs.Faults.{of_look};
ghost use Rattle.gx_kept.specs.declared.fault.KeptFault.TheVariants.{OutOfMemory, WriteFailed};

use gx_objects::LookFault;
use gx_text::Failed;
use std::alloc::{AllocError, AllocFailed};

/// Why a text isn't made. What went out by then is a front of it.
#[derive(Clone, Copy, Debug, PartialEq, Eq, Drop)]
pub enum KeptFault {
    /// A growth was refused, or the text has 2^63 bytes or more.
    OutOfMemory,
    /// A read failed.
    ReadFailed,
    /// What is asked is no repository.
    Damaged,
    /// The sink failed.
    WriteFailed,
}

impl From<AllocError> for KeptFault {
    ghost from_gives = { λ _ fault. fault ≡ OutOfMemory };

    fn from(_error: AllocError) -> KeptFault {
        KeptFault::OutOfMemory
    }
}

impl<T: Drop> From<AllocFailed<T>> for KeptFault {
    ghost from_gives = { λ _ fault. fault ≡ OutOfMemory };

    fn from(_error: AllocFailed<T>) -> KeptFault {
        KeptFault::OutOfMemory
    }
}

impl From<Failed> for KeptFault {
    ghost from_gives = { λ _ fault. fault ≡ WriteFailed };

    fn from(_error: Failed) -> KeptFault {
        KeptFault::WriteFailed
    }
}

impl From<LookFault> for KeptFault {
    ghost from_gives = { λ from fault. fault ≡ of_look from };

    fn from(fault: LookFault) -> KeptFault {
        match fault {
            LookFault::OutOfMemory => KeptFault::OutOfMemory,
            LookFault::ReadFailed => KeptFault::ReadFailed,
            LookFault::Damaged => KeptFault::Damaged,
        }
    }
}

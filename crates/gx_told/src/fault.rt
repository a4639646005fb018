//! Why a question to a store isn't answered.

ghost use Rattle.std.specs.Prelude.{◌≡◌};
ghost use Rattle.gx_told.specs.Faults.{of_batch, of_look};
ghost use Rattle.gx_told.specs.declared.fault.ToldFault.TheVariants.{OutOfMemory};

use gx_batch::BatchFault;
use gx_objects::LookFault;
use gx_rev::RevFault;
use std::alloc::{AllocError, AllocFailed};

/// Why a question to a store isn't answered.
#[derive(Clone, Copy, Debug, PartialEq, Eq, Drop)]
pub enum ToldFault {
    /// A growth was refused.
    OutOfMemory,
    /// The store couldn't be read.
    StoreReadFailed,
    /// What the store holds is no repository's.
    Damaged,
    /// The source failed, or gave more than 2^63 - 1 bytes.
    ReadFailed,
    /// The sink didn't take all of the text.
    WriteFailed,
    /// The word with this number, from 1, isn't one or gives nothing.
    Revision { number: u64, kind: RevFault },
}

impl From<AllocError> for ToldFault {
    ghost from_gives = { λ _ fault. fault ≡ OutOfMemory };

    fn from(_error: AllocError) -> ToldFault {
        ToldFault::OutOfMemory
    }
}

impl<T: Drop> From<AllocFailed<T>> for ToldFault {
    ghost from_gives = { λ _ fault. fault ≡ OutOfMemory };

    fn from(_error: AllocFailed<T>) -> ToldFault {
        ToldFault::OutOfMemory
    }
}

impl From<LookFault> for ToldFault {
    ghost from_gives = { λ fault told. told ≡ of_look fault };

    fn from(fault: LookFault) -> ToldFault {
        match fault {
            LookFault::OutOfMemory => ToldFault::OutOfMemory,
            LookFault::ReadFailed => ToldFault::StoreReadFailed,
            LookFault::Damaged => ToldFault::Damaged,
        }
    }
}

impl From<BatchFault> for ToldFault {
    ghost from_gives = { λ fault told. told ≡ of_batch fault };

    fn from(fault: BatchFault) -> ToldFault {
        match fault {
            BatchFault::OutOfMemory => ToldFault::OutOfMemory,
            BatchFault::ReadFailed => ToldFault::ReadFailed,
            BatchFault::WriteFailed => ToldFault::WriteFailed,
        }
    }
}

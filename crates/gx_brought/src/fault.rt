//! Why it isn't told what an import over a small repository brings.

ghost use Rattle.std.specs.Prelude.{◌≡◌};
ghost use Rattle.gx_brought.specs.Brought.{of_look};
ghost use Rattle.gx_brought.specs.declared.fault.BroughtFault.TheVariants.{OutOfMemory};

use gx_objects::LookFault;
use std::alloc::AllocError;

/// Why it isn't told what an import over a small repository brings.
#[derive(Clone, Copy, Debug, PartialEq, Eq, Drop)]
pub enum BroughtFault {
    /// A growth was refused.
    OutOfMemory,
    /// A read failed.
    ReadFailed,
    /// What is asked is no repository's.
    Damaged,
    /// A new object has another's name.
    NotTaken,
    /// The whole repository holds another object under the name of a new one.
    NameHeld,
}

impl From<AllocError> for BroughtFault {
    ghost from_gives = { λ _ fault. fault ≡ OutOfMemory };

    fn from(_error: AllocError) -> BroughtFault {
        BroughtFault::OutOfMemory
    }
}

impl From<LookFault> for BroughtFault {
    ghost from_gives = { λ from fault. fault ≡ of_look from };

    fn from(fault: LookFault) -> BroughtFault {
        match fault {
            LookFault::OutOfMemory => BroughtFault::OutOfMemory,
            LookFault::ReadFailed => BroughtFault::ReadFailed,
            LookFault::Damaged => BroughtFault::Damaged,
        }
    }
}

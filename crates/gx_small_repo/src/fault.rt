//! Why a small repository isn't made.

ghost use Rattle.std.specs.Prelude.{◌≡◌, ◌≢◌};
ghost use Rattle.gx_objects.specs.declared.fault.LookFault.TheVariants as looks;
ghost use Rattle.gx_small_repo.specs.declared.fault.SmallFault.TheVariants.{Damaged, NotTaken, OutOfMemory};

use gx_object::BadObject;
use gx_objects::LookFault;
use gx_repo::{AddFault, PublishFault};
use std::alloc::{AllocError, AllocFailed};

/// Why a small repository isn't made.
#[derive(Clone, Copy, Debug, PartialEq, Eq, Drop)]
pub enum SmallFault {
    /// A growth was refused.
    OutOfMemory,
    /// A read failed.
    ReadFailed,
    /// What is asked is no repository.
    Damaged,
    /// The stream's texts lead to too many commits.
    TooMany,
    /// An object isn't held as what it is to be, or isn't taken as the one that it is.
    NotTaken,
}

impl From<AllocError> for SmallFault {
    ghost from_gives = { λ _ fault. fault ≡ OutOfMemory };

    fn from(_error: AllocError) -> SmallFault {
        SmallFault::OutOfMemory
    }
}

impl<T: Drop> From<AllocFailed<T>> for SmallFault {
    ghost from_gives = { λ _ fault. fault ≡ OutOfMemory };

    fn from(_error: AllocFailed<T>) -> SmallFault {
        SmallFault::OutOfMemory
    }
}

impl From<LookFault> for SmallFault {
    ghost from_gives = { λ from fault. fault ≡ Damaged → from ≡ looks.Damaged };

    fn from(fault: LookFault) -> SmallFault {
        match fault {
            LookFault::OutOfMemory => SmallFault::OutOfMemory,
            LookFault::ReadFailed => SmallFault::ReadFailed,
            LookFault::Damaged => SmallFault::Damaged,
        }
    }
}

impl From<BadObject> for SmallFault {
    ghost from_gives = { λ _ fault. fault ≡ NotTaken };

    fn from(_error: BadObject) -> SmallFault {
        SmallFault::NotTaken
    }
}

impl From<AddFault> for SmallFault {
    ghost from_gives = { λ _ fault. fault ≢ Damaged };

    fn from(fault: AddFault) -> SmallFault {
        match fault {
            AddFault::OutOfMemory => SmallFault::OutOfMemory,
            _ => SmallFault::NotTaken,
        }
    }
}

impl From<PublishFault> for SmallFault {
    ghost from_gives = { λ _ fault. fault ≢ Damaged };

    fn from(fault: PublishFault) -> SmallFault {
        match fault {
            PublishFault::OutOfMemory => SmallFault::OutOfMemory,
            _ => SmallFault::NotTaken,
        }
    }
}

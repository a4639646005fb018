//! Why a question isn't answered.

ghost use Rattle.std.specs.Prelude.{◌≡◌};
ghost use Rattle.gx_questions.specs.Answers.{of_look, of_revision};
ghost use Rattle.gx_questions.specs.declared.fault.AskFault.TheVariants.{Damaged, OutOfMemory};

use gx_object::BadObject;
use gx_objects::LookFault;
use gx_rev::RevFault;
use std::alloc::AllocError;

/// Why a question isn't answered.
#[derive(Clone, Copy, Debug, PartialEq, Eq, Drop)]
pub enum AskFault {
    /// A growth was refused.
    OutOfMemory,
    /// A read failed.
    ReadFailed,
    /// What is asked is no repository.
    Damaged,
    /// The revision is refused, not for want of memory.
    Revision(RevFault),
}

impl From<AllocError> for AskFault {
    ghost from_gives = { λ _ fault. fault ≡ OutOfMemory };

    fn from(_error: AllocError) -> AskFault {
        AskFault::OutOfMemory
    }
}

impl From<LookFault> for AskFault {
    ghost from_gives = { λ from fault. fault ≡ of_look from };

    fn from(fault: LookFault) -> AskFault {
        match fault {
            LookFault::OutOfMemory => AskFault::OutOfMemory,
            LookFault::ReadFailed => AskFault::ReadFailed,
            LookFault::Damaged => AskFault::Damaged,
        }
    }
}

impl From<RevFault> for AskFault {
    ghost from_gives = { λ from fault. fault ≡ of_revision from };

    fn from(fault: RevFault) -> AskFault {
        match fault {
            RevFault::OutOfMemory => AskFault::OutOfMemory,
            _ => AskFault::Revision(fault),
        }
    }
}

impl From<BadObject> for AskFault {
    ghost from_gives = { λ _ fault. fault ≡ Damaged };

    /// What a repository holds can be decoded.
    fn from(_error: BadObject) -> AskFault {
        AskFault::Damaged
    }
}

//! Why what is sent stops.

ghost use Rattle.std.specs.Prelude.{◌≡◌};
ghost use Rattle.gx_sending.specs.Faults.{of_ask, of_export, of_look};
ghost use Rattle.gx_sending.specs.declared.fault.SendFault.TheVariants.{OutOfMemory};

use gx_export::ExportFault;
use gx_objects::LookFault;
use gx_questions::AskFault;
use std::alloc::{AllocError, AllocFailed};

/// Why what is sent stops. What went out by then is a front of the text.
#[derive(Clone, Copy, Debug, PartialEq, Eq, Drop)]
pub enum SendFault {
    /// A growth was refused.
    OutOfMemory,
    /// A read failed.
    ReadFailed,
    /// What is asked is no repository.
    Damaged,
    /// The sink took so many bytes and failed, or the text has more than 2^63 - 1, which were written.
    WriteFailed { written: u64 },
    /// A commit that is to go out has a header that no stream can say, and nothing went out.
    Unsupported,
}

impl From<AllocError> for SendFault {
    ghost from_gives = { λ _ fault. fault ≡ OutOfMemory };

    fn from(_error: AllocError) -> SendFault {
        SendFault::OutOfMemory
    }
}

impl<T: Drop> From<AllocFailed<T>> for SendFault {
    ghost from_gives = { λ _ fault. fault ≡ OutOfMemory };

    fn from(_error: AllocFailed<T>) -> SendFault {
        SendFault::OutOfMemory
    }
}

impl From<ExportFault> for SendFault {
    ghost from_gives = { λ from fault. fault ≡ of_export from };

    fn from(fault: ExportFault) -> SendFault {
        match fault {
            ExportFault::OutOfMemory => SendFault::OutOfMemory,
            ExportFault::WriteFailed { written } => SendFault::WriteFailed { written },
            ExportFault::Unsupported => SendFault::Unsupported,
        }
    }
}

impl From<LookFault> for SendFault {
    ghost from_gives = { λ from fault. fault ≡ of_look from };

    fn from(fault: LookFault) -> SendFault {
        match fault {
            LookFault::OutOfMemory => SendFault::OutOfMemory,
            LookFault::ReadFailed => SendFault::ReadFailed,
            LookFault::Damaged => SendFault::Damaged,
        }
    }
}

impl From<AskFault> for SendFault {
    ghost from_gives = { λ from fault. fault ≡ of_ask from };

    /// What is held by a repository is refused by none of its questions.
    fn from(fault: AskFault) -> SendFault {
        match fault {
            AskFault::OutOfMemory => SendFault::OutOfMemory,
            AskFault::ReadFailed => SendFault::ReadFailed,
            AskFault::Damaged | AskFault::Revision(_) => SendFault::Damaged,
        }
    }
}

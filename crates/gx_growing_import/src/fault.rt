//! Why a stream goes the whole way.

use gx_asked::AskedFault;
use gx_brought::BroughtFault;
use gx_command::CommandFault;
use gx_import::{ImportFault, ImportKind};
use gx_objects::LookFault;
use gx_small_repo::SmallFault;
use std::alloc::AllocError;

/// Why a stream isn't imported so: it goes the whole way, over all of the repository, which tells what comes of it.
#[derive(Clone, Copy, Debug, Drop)]
pub enum WholeWay {
    /// A growth was refused.
    OutOfMemory,
    /// A read failed.
    ReadFailed,
    /// What is asked is no repository.
    Damaged,
    /// The stream isn't one of commands.
    Unread(CommandFault),
    /// What the stream brings would stand for another object.
    StandsForAnother,
    /// The stream's texts lead to too many commits.
    TooMany,
    /// An object isn't taken as the one that it is.
    NotTaken,
    /// A text of the stream gives another object here than there, or another fault.
    Differs,
    /// The stream is refused here.
    Refused(ImportFault),
    /// The name of a new object is another object's.
    NameHeld,
}

impl From<AllocError> for WholeWay {
    fn from(_error: AllocError) -> WholeWay {
        WholeWay::OutOfMemory
    }
}

impl From<LookFault> for WholeWay {
    fn from(fault: LookFault) -> WholeWay {
        match fault {
            LookFault::OutOfMemory => WholeWay::OutOfMemory,
            LookFault::ReadFailed => WholeWay::ReadFailed,
            LookFault::Damaged => WholeWay::Damaged,
        }
    }
}

impl From<AskedFault> for WholeWay {
    fn from(fault: AskedFault) -> WholeWay {
        match fault {
            AskedFault::OutOfMemory => WholeWay::OutOfMemory,
            AskedFault::Unread(fault) => WholeWay::Unread(fault),
            AskedFault::StandsForAnother => WholeWay::StandsForAnother,
        }
    }
}

impl From<SmallFault> for WholeWay {
    fn from(fault: SmallFault) -> WholeWay {
        match fault {
            SmallFault::OutOfMemory => WholeWay::OutOfMemory,
            SmallFault::ReadFailed => WholeWay::ReadFailed,
            SmallFault::Damaged => WholeWay::Damaged,
            SmallFault::TooMany => WholeWay::TooMany,
            SmallFault::NotTaken => WholeWay::NotTaken,
        }
    }
}

impl From<ImportFault> for WholeWay {
    fn from(fault: ImportFault) -> WholeWay {
        match fault.kind {
            // the lines of progress go to memory
            ImportKind::OutOfMemory | ImportKind::WriteFailed => WholeWay::OutOfMemory,
            _ => WholeWay::Refused(fault),
        }
    }
}

impl From<BroughtFault> for WholeWay {
    fn from(fault: BroughtFault) -> WholeWay {
        match fault {
            BroughtFault::OutOfMemory => WholeWay::OutOfMemory,
            BroughtFault::ReadFailed => WholeWay::ReadFailed,
            BroughtFault::Damaged => WholeWay::Damaged,
            BroughtFault::NotTaken => WholeWay::NotTaken,
            BroughtFault::NameHeld => WholeWay::NameHeld,
        }
    }
}

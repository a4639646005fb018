//! Why an export of changes stops.

ghost use Rattle.std.specs.Prelude.{◌≡◌};
ghost use Rattle.gx_changes.specs.Faults.{of_look, of_range, of_send};

use gx_objects::LookFault;
use gx_questions::AskFault;
use gx_ranges::RangeFault;
use gx_rev::RevFault;
use gx_sending::SendFault;

/// Why an export of changes stops.
#[derive(Clone, Copy, Debug, PartialEq, Eq, Drop)]
pub enum ChangesFault {
    /// A growth was refused.
    OutOfMemory,
    /// A read failed.
    ReadFailed,
    /// What is asked is no repository.
    Damaged,
    /// The sink took so many bytes and failed, or the text has more than 2^63 - 1, which were written.
    WriteFailed { written: u64 },
    /// A commit that is to go out has a header that no stream can say, and nothing went out.
    Unsupported,
    /// The range word with this number, from 1, is refused, and nothing went out.
    Word { number: usize, kind: RevFault },
}

impl From<SendFault> for ChangesFault {
    ghost from_gives = { λ from fault. fault ≡ of_send from };

    fn from(fault: SendFault) -> ChangesFault {
        match fault {
            SendFault::OutOfMemory => ChangesFault::OutOfMemory,
            SendFault::ReadFailed => ChangesFault::ReadFailed,
            SendFault::Damaged => ChangesFault::Damaged,
            SendFault::WriteFailed { written } => ChangesFault::WriteFailed { written },
            SendFault::Unsupported => ChangesFault::Unsupported,
        }
    }
}

impl From<LookFault> for ChangesFault {
    ghost from_gives = { λ from fault. fault ≡ of_look from };

    fn from(fault: LookFault) -> ChangesFault {
        match fault {
            LookFault::OutOfMemory => ChangesFault::OutOfMemory,
            LookFault::ReadFailed => ChangesFault::ReadFailed,
            LookFault::Damaged => ChangesFault::Damaged,
        }
    }
}

impl From<RangeFault> for ChangesFault {
    ghost from_gives = { λ from fault. fault ≡ of_range from.word from.kind };

    fn from(fault: RangeFault) -> ChangesFault {
        match fault.kind {
            AskFault::OutOfMemory => ChangesFault::OutOfMemory,
            AskFault::ReadFailed => ChangesFault::ReadFailed,
            AskFault::Damaged => ChangesFault::Damaged,
            AskFault::Revision(kind) => ChangesFault::Word {
                number: fault.word,
                kind,
            },
        }
    }
}

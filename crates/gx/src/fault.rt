//! Why a run of the program is refused.

ghost use Rattle.std.specs.Prelude.{◌≡◌, Some};
ghost use Rattle.gx.specs.RunFaults.{
  line_of,
  of_bundle,
  of_changes,
  of_kept,
  of_look,
  of_range,
  of_told,
};

use gx_adapt::AdaptFault;
use gx_changes::ChangesFault;
use gx_cli::{BlobsKind, CliFault};
use gx_export::ExportFault;
use gx_kept::{BundleFault, KeptFault};
use gx_objects::LookFault;
use gx_questions::AskFault;
use gx_ranges::RangeFault;
use gx_told::ToldFault;
use std::alloc::AllocError;
use std::fmt;
use thiserror::Error;

/// A refusal, which prints as its line on standard error.
#[derive(Clone, Copy, Debug, Error)]
pub(crate) enum RunFault {
    /// What the library answers, or what it has a line for.
    Command(CliFault),
    /// The file of the next text can't be locked.
    LockFailed,
    /// The store file's name is so long that the one of its next text would be too long.
    LongName,
    /// The store file isn't the one with the stamp that was given.
    StoreChanged,
    /// What was given is no stamp.
    BadStamp,
    /// The system gives no random bytes.
    RandomFailed,
    /// A question met what no growing store has.
    Damaged,
    /// The import can't be done over a small repository, as it is asked for.
    NotSmall,
    /// There are more objects than a bundle can have.
    ManyObjects,
    /// The range words of a bundle name no ref.
    EmptyBundle,
    /// The number of the item of a text of refs and objects, from 1, and the word of what is against it.
    Item { number: usize, word: &'static str },
}

impl fmt::Display for RunFault {
    ghost output = { λ fault. Some (line_of fault) };

    fn fmt<W: fmt::Write>(&self, f: &mut fmt::Formatter<W>) -> fmt::Result {
        match self {
            RunFault::Command(fault) => write!(f, "{fault}"),
            RunFault::LockFailed => f.write_str("gx: lock failed"),
            RunFault::LongName => f.write_str("gx: name too long"),
            RunFault::StoreChanged => f.write_str("gx: store changed"),
            RunFault::BadStamp => f.write_str("gx: bad stamp"),
            RunFault::RandomFailed => f.write_str("gx: random bytes failed"),
            RunFault::Damaged => f.write_str("gx: store: Damaged"),
            RunFault::NotSmall => f.write_str("gx: no small repository"),
            RunFault::ManyObjects => f.write_str("gx: bundle: Unsupported"),
            RunFault::EmptyBundle => f.write_str("gx: bundle: Empty"),
            RunFault::Item { number, word } => write!(f, "gx: object {number}: {word}"),
        }
    }
}

impl RunFault {
    /// Whether what is imported, or a line of its push, is at fault.
    pub(crate) fn is_of_import(&self) -> bool {
        matches!(
            self,
            RunFault::Command(CliFault::Import(_) | CliFault::Push { .. }) | RunFault::Item { .. }
        )
    }

    /// Whether standard output didn't take what a command is there to print.
    pub(crate) fn is_failed_output(&self) -> bool {
        match self {
            RunFault::Command(CliFault::Blobs(fault)) => fault.kind == BlobsKind::WriteFailed,
            RunFault::Command(CliFault::Export(ExportFault::WriteFailed { written: _ })) => true,
            RunFault::Command(CliFault::Adapt(AdaptFault::WriteFailed)) => true,
            RunFault::Command(CliFault::WriteFailed) => true,
            _ => false,
        }
    }
}

impl From<CliFault> for RunFault {
    fn from(fault: CliFault) -> RunFault {
        RunFault::Command(fault)
    }
}

impl From<LookFault> for RunFault {
    ghost from_gives = { λ look fault. fault ≡ of_look look };

    fn from(fault: LookFault) -> RunFault {
        match fault {
            LookFault::OutOfMemory => RunFault::Command(CliFault::OutOfMemory),
            LookFault::ReadFailed => RunFault::Command(CliFault::ReadFailed),
            LookFault::Damaged => RunFault::Damaged,
        }
    }
}

impl From<KeptFault> for RunFault {
    ghost from_gives = { λ kept fault. fault ≡ of_kept kept };

    fn from(fault: KeptFault) -> RunFault {
        match fault {
            KeptFault::OutOfMemory => RunFault::Command(CliFault::OutOfMemory),
            KeptFault::ReadFailed => RunFault::Command(CliFault::ReadFailed),
            KeptFault::Damaged => RunFault::Damaged,
            KeptFault::WriteFailed => RunFault::Command(CliFault::WriteFailed),
        }
    }
}

impl From<BundleFault> for RunFault {
    ghost from_gives = { λ bundle fault. fault ≡ of_bundle bundle };

    fn from(fault: BundleFault) -> RunFault {
        match fault {
            BundleFault::Unsupported => RunFault::ManyObjects,
            BundleFault::Stopped(kept) => RunFault::from(kept),
        }
    }
}

impl From<RangeFault> for RunFault {
    ghost from_gives = { λ from fault. fault ≡ of_range from };

    fn from(fault: RangeFault) -> RunFault {
        match fault.kind {
            AskFault::OutOfMemory => RunFault::Command(CliFault::OutOfMemory),
            AskFault::ReadFailed => RunFault::Command(CliFault::ReadFailed),
            AskFault::Damaged => RunFault::Damaged,
            AskFault::Revision(kind) => RunFault::Command(CliFault::Revision {
                number: fault.word as u64,
                kind,
            }),
        }
    }
}

impl From<ToldFault> for RunFault {
    ghost from_gives = { λ told fault. fault ≡ of_told told };

    fn from(fault: ToldFault) -> RunFault {
        match fault {
            ToldFault::OutOfMemory => RunFault::Command(CliFault::OutOfMemory),
            ToldFault::StoreReadFailed => RunFault::Command(CliFault::ReadFailed),
            ToldFault::Damaged => RunFault::Damaged,
            ToldFault::ReadFailed => RunFault::Command(CliFault::ReadFailed),
            ToldFault::WriteFailed => RunFault::Command(CliFault::WriteFailed),
            ToldFault::Revision { number, kind } => {
                RunFault::Command(CliFault::Revision { number, kind })
            }
        }
    }
}

impl From<ChangesFault> for RunFault {
    ghost from_gives = { λ from fault. fault ≡ of_changes from };

    fn from(fault: ChangesFault) -> RunFault {
        match fault {
            ChangesFault::OutOfMemory => RunFault::Command(CliFault::OutOfMemory),
            ChangesFault::ReadFailed => RunFault::Command(CliFault::ReadFailed),
            ChangesFault::Damaged => RunFault::Damaged,
            ChangesFault::WriteFailed { written } => {
                RunFault::Command(CliFault::Export(ExportFault::WriteFailed { written }))
            }
            ChangesFault::Unsupported => {
                RunFault::Command(CliFault::Export(ExportFault::Unsupported))
            }
            ChangesFault::Word { number, kind } => RunFault::Command(CliFault::Revision {
                number: number as u64,
                kind,
            }),
        }
    }
}

impl From<AllocError> for RunFault {
    fn from(_error: AllocError) -> RunFault {
        RunFault::Command(CliFault::OutOfMemory)
    }
}

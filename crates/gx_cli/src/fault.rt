//! Why a command is refused.

ghost use Rattle.std.specs.Prelude.{◌≡◌, Some};
ghost use Rattle.gx_cli.specs.FaultLines.{line_of};
ghost use Rattle.gx_cli.specs.Gathering.{of_archive, of_batch, of_format, of_growing, of_push, of_set};
ghost use Rattle.gx_cli.specs.declared.fault.CliFault.TheVariants.{OutOfMemory};

use crate::BlobsFault;
use crate::words::refused;
use gx_adapt::AdaptFault;
use gx_archive::ArchiveFault;
use gx_batch::{BatchFault, FormatFault};
use gx_export::ExportFault;
use gx_file::FileFault;
use gx_growing::GrowingFault;
use gx_import::ImportFault;
use gx_push::{PushFault, RefFault, SetFault};
use gx_rev::RevFault;
use gx_where::WhereFault;
use std::alloc::{AllocError, AllocFailed};
use std::fmt;
use thiserror::Error;

/// A refusal, which prints as its line on standard error.
#[derive(Clone, Copy, Debug, PartialEq, Eq, Error)]
pub enum CliFault {
    Blobs(BlobsFault),
    Import(ImportFault),
    /// The number of the revision among the words, from 1, and why it is refused.
    Revision { number: u64, kind: RevFault },
    /// The number of the line of a push, from 1, and what is against it.
    Push { number: u64, kind: RefFault },
    /// The number of the change of a ref, from 1, and what is against it.
    Ref { number: u64, kind: RefFault },
    /// Why the store's text isn't read.
    Store(FileFault),
    /// The store's text, of version 3, isn't read, since its rows don't tell where each object stands. The program answers it,
    /// which reads such texts.
    BadRows,
    /// Why the store isn't exported as a whole.
    Export(ExportFault),
    /// Why a stream isn't adapted to its end.
    Adapt(AdaptFault),
    /// Why it isn't told where a command begins.
    Where(WhereFault),
    /// The number, from 1, of the line that isn't the 40 digits of an object to keep.
    Keep { number: u64 },
    /// The format of a batch isn't one.
    BadFormat,
    /// There is a store where a new one is to be made. The program answers it, which looks at files.
    StoreExists,
    /// The source failed whose lines are answered, or whose text is searched. The program answers it, too, where it can't read
    /// the store's file.
    ReadFailed,
    /// The sink didn't take all of the output.
    WriteFailed,
    /// A growth was refused.
    OutOfMemory,
}

impl fmt::Display for CliFault {
    ghost output = { λ fault. Some (line_of fault) };

    fn fmt<W: fmt::Write>(&self, f: &mut fmt::Formatter<W>) -> fmt::Result {
        match self {
            CliFault::Blobs(fault) => write!(f, "gx: {fault}"),
            CliFault::Import(fault) => write!(f, "gx: command {}: {}", fault.command, fault.kind),
            CliFault::Revision { number, kind } => write!(f, "gx: revision {number}: {kind}"),
            CliFault::Push { number, kind } => write!(f, "gx: push {number}: {kind}"),
            CliFault::Ref { number, kind } => write!(f, "gx: ref {number}: {kind}"),
            CliFault::Store(fault) => write!(f, "gx: store: {fault}"),
            CliFault::BadRows => f.write_str("gx: store: BadRows"),
            CliFault::Export(fault) => write!(f, "gx: export: {fault}"),
            CliFault::Adapt(fault) => write!(f, "gx: adapt: {fault}"),
            CliFault::Where(fault) => write!(f, "gx: where: {fault}"),
            CliFault::Keep { number } => write!(f, "gx: keep {number}: BadLine"),
            CliFault::BadFormat => f.write_str("gx: BadFormat"),
            CliFault::StoreExists => f.write_str("gx: store exists"),
            CliFault::ReadFailed => f.write_str("gx: read failed"),
            CliFault::WriteFailed => f.write_str("gx: write failed"),
            CliFault::OutOfMemory => f.write_str("gx: out of memory"),
        }
    }
}

impl From<AllocError> for CliFault {
    ghost from_gives = { λ _ fault. fault ≡ OutOfMemory };

    fn from(_error: AllocError) -> CliFault {
        CliFault::OutOfMemory
    }
}

impl From<ArchiveFault> for CliFault {
    ghost from_gives = { λ from fault. fault ≡ of_archive from };

    fn from(fault: ArchiveFault) -> CliFault {
        match fault {
            ArchiveFault::Revision(kind) => refused(1, kind),
            ArchiveFault::WriteFailed => CliFault::WriteFailed,
            ArchiveFault::OutOfMemory => CliFault::OutOfMemory,
        }
    }
}

impl From<BatchFault> for CliFault {
    ghost from_gives = { λ from fault. fault ≡ of_batch from };

    fn from(fault: BatchFault) -> CliFault {
        match fault {
            BatchFault::OutOfMemory => CliFault::OutOfMemory,
            BatchFault::ReadFailed => CliFault::ReadFailed,
            BatchFault::WriteFailed => CliFault::WriteFailed,
        }
    }
}

impl From<GrowingFault> for CliFault {
    ghost from_gives = { λ from fault. fault ≡ of_growing from };

    fn from(fault: GrowingFault) -> CliFault {
        match fault {
            GrowingFault::Text(fault) => CliFault::Store(fault),
            GrowingFault::BadRows => CliFault::BadRows,
        }
    }
}

impl From<PushFault> for CliFault {
    ghost from_gives = { λ from fault. fault ≡ of_push from };

    fn from(fault: PushFault) -> CliFault {
        match fault {
            PushFault::Line { number, kind } => CliFault::Push { number, kind },
            PushFault::Import(fault) => CliFault::Import(fault),
            PushFault::OutOfMemory => CliFault::OutOfMemory,
        }
    }
}

impl From<SetFault> for CliFault {
    ghost from_gives = { λ from fault. fault ≡ of_set from };

    fn from(fault: SetFault) -> CliFault {
        match fault {
            SetFault::Line { number, kind } => CliFault::Ref { number, kind },
            SetFault::OutOfMemory => CliFault::OutOfMemory,
        }
    }
}

impl From<FormatFault> for CliFault {
    ghost from_gives = { λ from fault. fault ≡ of_format from };

    fn from(fault: FormatFault) -> CliFault {
        match fault {
            FormatFault::OutOfMemory => CliFault::OutOfMemory,
            FormatFault::BadFormat => CliFault::BadFormat,
        }
    }
}

impl<T: Drop> From<AllocFailed<T>> for CliFault {
    ghost from_gives = { λ _ fault. fault ≡ OutOfMemory };

    fn from(_error: AllocFailed<T>) -> CliFault {
        CliFault::OutOfMemory
    }
}

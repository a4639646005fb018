//! Why an export stops.

ghost use Rattle.std.specs.Prelude.{◌≡◌};
ghost use Rattle.gx_export.specs.declared.fault.ExportFault.TheVariants.{OutOfMemory};
ghost use Rattle.gx_export.specs.declared.fault.RangeFault.TheVariants.{Export, Walk};

use gx_rev::WalkFault;
use std::alloc::AllocError;
use std::error::Error;
use std::fmt;

/// Why an export stops. Each prints its word.
#[derive(Clone, Copy, Debug, PartialEq, Eq)]
pub enum ExportFault {
    /// A growth was refused.
    OutOfMemory,
    /// The sink took so many bytes and failed, or the text has more than 2^63 - 1, which were written.
    WriteFailed { written: u64 },
    /// A commit that is to go out has a header that no stream can say, and nothing was written.
    Unsupported,
}

impl ExportFault {
    ghost use Rattle.gx_export.specs.Faults.{word};

    /// The word that a fault prints, which is its name. Takes no memory.
    pub fn word(self) -> &'static str
        ensures { result.now ≡ word self }
    {
        match self {
            ExportFault::OutOfMemory => "OutOfMemory",
            ExportFault::WriteFailed { .. } => "WriteFailed",
            ExportFault::Unsupported => "Unsupported",
        }
    }
}

impl fmt::Display for ExportFault {
    ghost use Rattle.std.specs.Prelude.{Some};
    ghost use Rattle.gx_export.specs.Faults.{word};

    ghost output = { λ fault. Some (word fault) };

    fn fmt<W: fmt::Write>(&self, f: &mut fmt::Formatter<W>) -> fmt::Result {
        f.write_str(self.word())
    }
}

impl Error for ExportFault {}

impl From<AllocError> for ExportFault {
    ghost from_gives = { λ _ fault. fault ≡ OutOfMemory };

    fn from(_error: AllocError) -> ExportFault {
        ExportFault::OutOfMemory
    }
}

/// Why an export of a range stops. A refused word prints as a refused walk, and a stop as its word.
#[derive(Clone, Copy, Debug, PartialEq, Eq)]
pub enum RangeFault {
    /// A word is refused, and nothing went out.
    Walk(WalkFault),
    /// The export stops.
    Export(ExportFault),
}

impl fmt::Display for RangeFault {
    ghost use Rattle.std.specs.Prelude.{Some};
    ghost use Rattle.gx_export.specs.Faults.{refusal};

    ghost output = { λ fault. Some (refusal fault) };

    fn fmt<W: fmt::Write>(&self, f: &mut fmt::Formatter<W>) -> fmt::Result {
        match self {
            RangeFault::Walk(fault) => write!(f, "{fault}"),
            RangeFault::Export(fault) => f.write_str(fault.word()),
        }
    }
}

impl Error for RangeFault {}

impl From<WalkFault> for RangeFault {
    ghost from_gives = { λ walk fault. fault ≡ Walk walk };

    fn from(fault: WalkFault) -> RangeFault {
        RangeFault::Walk(fault)
    }
}

impl From<ExportFault> for RangeFault {
    ghost from_gives = { λ stop fault. fault ≡ Export stop };

    fn from(fault: ExportFault) -> RangeFault {
        RangeFault::Export(fault)
    }
}

//! Why no further line is answered, and why a text is no format.

ghost use Rattle.std.specs.Prelude.{◌≡◌, Some};
ghost use Rattle.gx_batch.specs.BatchFaults.{format_refusal, refusal};
ghost use Rattle.gx_batch.specs.declared.fault.BatchFault.TheVariants.{OutOfMemory};
ghost use Rattle.gx_batch.specs.declared.fault.FormatFault.TheVariants as format;

use std::alloc::{AllocError, AllocFailed};
use std::fmt;
use thiserror::Error;

/// Why no further line is answered.
#[derive(Clone, Copy, Debug, PartialEq, Eq, Drop, Error)]
pub enum BatchFault {
    /// A growth was refused.
    OutOfMemory,
    /// The source failed, or gave more than 2^63 - 1 bytes.
    ReadFailed,
    /// The sink didn't take all of an answer.
    WriteFailed,
}

impl fmt::Display for BatchFault {
    ghost output = { λ fault. Some (refusal fault) };

    fn fmt<W: fmt::Write>(&self, f: &mut fmt::Formatter<W>) -> fmt::Result {
        f.write_str(match self {
            BatchFault::OutOfMemory => "out of memory",
            BatchFault::ReadFailed => "read failed",
            BatchFault::WriteFailed => "write failed",
        })
    }
}

impl From<AllocError> for BatchFault {
    ghost from_gives = { λ _ fault. fault ≡ OutOfMemory };

    fn from(_error: AllocError) -> BatchFault {
        BatchFault::OutOfMemory
    }
}

impl<T: Drop> From<AllocFailed<T>> for BatchFault {
    ghost from_gives = { λ _ fault. fault ≡ OutOfMemory };

    fn from(_error: AllocFailed<T>) -> BatchFault {
        BatchFault::OutOfMemory
    }
}

/// Why a text is no format.
#[derive(Clone, Copy, Debug, PartialEq, Eq, Drop, Error)]
pub enum FormatFault {
    /// A growth was refused.
    OutOfMemory,
    /// Behind `%(` stands a name that isn't known here, or no `)`.
    BadFormat,
}

impl fmt::Display for FormatFault {
    ghost output = { λ fault. Some (format_refusal fault) };

    fn fmt<W: fmt::Write>(&self, f: &mut fmt::Formatter<W>) -> fmt::Result {
        f.write_str(match self {
            FormatFault::OutOfMemory => "out of memory",
            FormatFault::BadFormat => "bad format",
        })
    }
}

impl From<AllocError> for FormatFault {
    ghost from_gives = { λ _ fault. fault ≡ format.OutOfMemory };

    fn from(_error: AllocError) -> FormatFault {
        FormatFault::OutOfMemory
    }
}

impl<T: Drop> From<AllocFailed<T>> for FormatFault {
    ghost from_gives = { λ _ fault. fault ≡ format.OutOfMemory };

    fn from(_error: AllocFailed<T>) -> FormatFault {
        FormatFault::OutOfMemory
    }
}

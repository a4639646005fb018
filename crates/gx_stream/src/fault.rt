//! Why a stream has no further item.

ghost use Rattle.std.specs.Prelude.{◌≡◌, Some};
ghost use Rattle.gx_model.specs.Faults.FaultWords.{word_of};
ghost use Rattle.gx_stream.specs.Faults.{fault_of};

use gx_model::Fault;
use std::fmt;
use thiserror::Error;

/// Why a stream has no further item. Each prints its name.
#[derive(Clone, Copy, Debug, PartialEq, Eq, Error)]
pub enum StreamFault {
    /// There was no memory for what came.
    OutOfMemory,
    /// The source failed, or gave more than 2^63 - 1 bytes.
    ReadFailed,
    /// The text ends within a block.
    TruncatedData,
    /// A `data` line has neither a number nor `<<`.
    BadNumber,
}

impl fmt::Display for StreamFault {
    ghost output = { λ fault. Some (word_of (fault_of fault)) };

    fn fmt<W: fmt::Write>(&self, f: &mut fmt::Formatter<W>) -> fmt::Result {
        f.write_str(Fault::from(*self).word())
    }
}

impl From<StreamFault> for Fault {
    ghost from_gives = { λ from fault. fault ≡ fault_of from };

    fn from(fault: StreamFault) -> Fault {
        match fault {
            StreamFault::OutOfMemory => Fault::OutOfMemory,
            StreamFault::ReadFailed => Fault::ReadFailed,
            StreamFault::TruncatedData => Fault::TruncatedData,
            StreamFault::BadNumber => Fault::BadNumber,
        }
    }
}

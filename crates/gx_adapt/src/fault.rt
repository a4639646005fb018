//! Why a stream isn't adapted to its end.

ghost use Rattle.std.specs.Prelude.{◌≡◌, Some};
ghost use Rattle.gx_model.specs.Faults.FaultWords.{word_of};
ghost use Rattle.gx_adapt.specs.Adapting.{of_stream};
ghost use Rattle.gx_adapt.specs.AdaptFaults.{fault_of};
ghost use Rattle.gx_adapt.specs.declared.fault.AdaptFault.TheVariants.{OutOfMemory};

use gx_model::Fault;
use gx_stream::StreamFault;
use std::alloc::AllocError;
use std::fmt;
use thiserror::Error;

/// Why a stream isn't adapted to its end. Each prints its name.
#[derive(Clone, Copy, Debug, PartialEq, Eq, Error)]
pub enum AdaptFault {
    /// There was no memory for an item.
    OutOfMemory,
    /// The source failed, or gave more than 2^63 - 1 bytes.
    ReadFailed,
    /// The sink failed.
    WriteFailed,
    /// The stream ends within a block.
    TruncatedData,
    /// A `data` line has neither a number nor `<<`.
    BadNumber,
}

impl fmt::Display for AdaptFault {
    ghost output = { λ fault. Some (word_of (fault_of fault)) };

    fn fmt<W: fmt::Write>(&self, f: &mut fmt::Formatter<W>) -> fmt::Result {
        f.write_str(Fault::from(*self).word())
    }
}

impl From<AllocError> for AdaptFault {
    ghost from_gives = { λ _ fault. fault ≡ OutOfMemory };

    fn from(_error: AllocError) -> AdaptFault {
        AdaptFault::OutOfMemory
    }
}

impl From<StreamFault> for AdaptFault {
    ghost from_gives = { λ from fault. fault ≡ of_stream from };

    fn from(fault: StreamFault) -> AdaptFault {
        match fault {
            StreamFault::OutOfMemory => AdaptFault::OutOfMemory,
            StreamFault::ReadFailed => AdaptFault::ReadFailed,
            StreamFault::TruncatedData => AdaptFault::TruncatedData,
            StreamFault::BadNumber => AdaptFault::BadNumber,
        }
    }
}

impl From<AdaptFault> for Fault {
    ghost from_gives = { λ from fault. fault ≡ fault_of from };

    fn from(fault: AdaptFault) -> Fault {
        match fault {
            AdaptFault::OutOfMemory => Fault::OutOfMemory,
            AdaptFault::ReadFailed => Fault::ReadFailed,
            AdaptFault::WriteFailed => Fault::WriteFailed,
            AdaptFault::TruncatedData => Fault::TruncatedData,
            AdaptFault::BadNumber => Fault::BadNumber,
        }
    }
}

//! Why a text is refused.

ghost use Rattle.std.specs.Prelude.{◌≡◌, Some};
ghost use Rattle.gx_model.specs.Faults.FaultWords.{word_of};
ghost use Rattle.gx_text.specs.TextFaults.{fault_of};
ghost use Rattle.gx_text.specs.declared.fault.TextFault.TheVariants.{OutOfMemory};

use gx_model::Fault;
use std::alloc::{AllocError, AllocFailed};
use std::fmt;
use thiserror::Error;

/// Why a text is refused. Each prints its name.
#[derive(Clone, Copy, Debug, PartialEq, Eq, Error)]
pub enum TextFault {
    OutOfMemory,
    BadPath,
    PathTooLong,
    BadIdent,
}

impl fmt::Display for TextFault {
    ghost output = { λ fault. Some (word_of (fault_of fault)) };

    fn fmt<W: fmt::Write>(&self, f: &mut fmt::Formatter<W>) -> fmt::Result {
        f.write_str(Fault::from(*self).word())
    }
}

impl From<AllocError> for TextFault {
    ghost from_gives = { λ _ e. e ≡ OutOfMemory };

    fn from(_error: AllocError) -> TextFault {
        TextFault::OutOfMemory
    }
}

impl<T: Drop> From<AllocFailed<T>> for TextFault {
    ghost from_gives = { λ _ e. e ≡ OutOfMemory };

    fn from(_error: AllocFailed<T>) -> TextFault {
        AllocError.into()
    }
}

impl From<TextFault> for Fault {
    ghost from_gives = { λ from fault. fault ≡ fault_of from };

    fn from(fault: TextFault) -> Fault {
        match fault {
            TextFault::OutOfMemory => Fault::OutOfMemory,
            TextFault::BadPath => Fault::BadPath,
            TextFault::PathTooLong => Fault::PathTooLong,
            TextFault::BadIdent => Fault::BadIdent,
        }
    }
}

//! Why an object isn't put.

ghost use Rattle.std.specs.Prelude.{◌≡◌, Some};
ghost use Rattle.gx_model.specs.Faults.FaultWords.{word_of};
ghost use Rattle.gx_store.specs.StoreFaults.{fault_of};

use gx_model::Fault;
use std::fmt;
use thiserror::Error;

/// Why an object isn't put into a store, which is then unchanged. Each prints its name.
#[derive(Clone, Copy, Debug, PartialEq, Eq, Drop, Error)]
pub enum StoreFault {
    /// A growth was refused.
    OutOfMemory,
    /// The object's name is held for another kind or other bytes.
    NameHeld,
}

impl fmt::Display for StoreFault {
    ghost output = { λ fault. Some (word_of (fault_of fault)) };

    fn fmt<W: fmt::Write>(&self, f: &mut fmt::Formatter<W>) -> fmt::Result {
        f.write_str(Fault::from(*self).word())
    }
}

impl From<StoreFault> for Fault {
    ghost from_gives = { λ from fault. fault ≡ fault_of from };

    fn from(fault: StoreFault) -> Fault {
        match fault {
            StoreFault::OutOfMemory => Fault::OutOfMemory,
            StoreFault::NameHeld => Fault::NameHeld,
        }
    }
}

//! Why it isn't told what a stream asks for.

ghost use Rattle.std.specs.Prelude.{◌≡◌};
ghost use Rattle.gx_asked.specs.Asking.{of_command};
ghost use Rattle.gx_asked.specs.declared.fault.AskedFault.TheVariants.{OutOfMemory};

use gx_command::CommandFault;
use std::alloc::{AllocError, AllocFailed};

/// Why it isn't told what a stream asks for.
#[derive(Clone, Copy, Debug, PartialEq, Eq, Drop)]
pub enum AskedFault {
    /// A growth was refused.
    OutOfMemory,
    /// The stream isn't one of commands: its fault.
    Unread(CommandFault),
    /// What the stream brings might stand for another object.
    StandsForAnother,
}

impl From<AllocError> for AskedFault {
    ghost from_gives = { λ _ fault. fault ≡ OutOfMemory };

    fn from(_error: AllocError) -> AskedFault {
        AskedFault::OutOfMemory
    }
}

impl<T: Drop> From<AllocFailed<T>> for AskedFault {
    ghost from_gives = { λ _ fault. fault ≡ OutOfMemory };

    fn from(_error: AllocFailed<T>) -> AskedFault {
        AskedFault::OutOfMemory
    }
}

impl From<CommandFault> for AskedFault {
    ghost from_gives = { λ from fault. fault ≡ of_command from };

    fn from(fault: CommandFault) -> AskedFault {
        match fault {
            CommandFault::OutOfMemory => AskedFault::OutOfMemory,
            fault => AskedFault::Unread(fault),
        }
    }
}

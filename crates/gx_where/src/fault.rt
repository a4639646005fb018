//! Why it isn't told where a command begins.

ghost use Rattle.std.specs.Prelude.{◌≡◌, Some};
ghost use Rattle.gx_where.specs.Faults.{of_behind, refusal};

use gx_command::{BehindFault, CommandFault};
use std::fmt;
use thiserror::Error;

/// Why it isn't told where a command begins.
#[derive(Clone, Copy, Debug, PartialEq, Eq, Error)]
pub enum WhereFault {
    /// Commands are counted from 1, or the stream has fewer and not one fewer.
    NoSuchCommand,
    /// A command before it, with this number, meets this fault.
    Command {
        /// The number of the command that is at fault.
        command: u64,
        /// Its fault.
        kind: CommandFault,
    },
    /// The text has more than 2^63 - 1 bytes.
    ReadFailed,
    /// A growth was refused.
    OutOfMemory,
}

impl fmt::Display for WhereFault {
    ghost output = { λ fault. Some (refusal fault) };

    fn fmt<W: fmt::Write>(&self, f: &mut fmt::Formatter<W>) -> fmt::Result {
        match self {
            WhereFault::NoSuchCommand => f.write_str("no such command"),
            WhereFault::Command { command, kind } => write!(f, "command {command}: {kind}"),
            WhereFault::ReadFailed => f.write_str("read failed"),
            WhereFault::OutOfMemory => f.write_str("out of memory"),
        }
    }
}

impl From<BehindFault> for WhereFault {
    ghost from_gives = { λ fault given. given ≡ of_behind fault };

    fn from(fault: BehindFault) -> WhereFault {
        match fault {
            BehindFault::OutOfMemory => WhereFault::OutOfMemory,
            BehindFault::Command { command, kind } => WhereFault::Command { command, kind },
        }
    }
}

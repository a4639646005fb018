//! Why there is no line.

ghost use Rattle.std.specs.Prelude.{◌≡◌, Some};
ghost use Rattle.gx_line.specs.Faults.{refusal};
ghost use Rattle.gx_line.specs.declared.fault.LineFault.TheVariants.{OutOfMemory};

use std::alloc::AllocError;
use std::fmt;
use thiserror::Error;

/// Why there is no line: no memory, or the status to end with and the text to print, which are clap's.
/// Status 0 is a request for help, 2 a command line that isn't accepted.
#[derive(Debug, Drop, Error)]
pub enum LineFault {
    OutOfMemory,
    Status { status: u8, text: String },
}

impl fmt::Display for LineFault {
    ghost output = { λ fault. Some (refusal fault) };

    fn fmt<W: fmt::Write>(&self, f: &mut fmt::Formatter<W>) -> fmt::Result {
        match self {
            LineFault::OutOfMemory => f.write_str("gx: out of memory"),
            LineFault::Status { text, .. } => write!(f, "{text}"),
        }
    }
}

impl From<AllocError> for LineFault {
    ghost from_gives = { λ _ fault. fault ≡ OutOfMemory };

    fn from(_error: AllocError) -> LineFault {
        LineFault::OutOfMemory
    }
}

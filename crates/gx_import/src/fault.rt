//! Why an import is refused.

ghost use Rattle.std.specs.Prelude.{◌≡◌, Some};
ghost use Rattle.gx_import.specs.Faults.{refusal};

pub use gx_model::Fault as ImportKind;
use std::fmt;
use thiserror::Error;

/// Why an import is refused: the number of the command, from 1, and what is wrong with it.
/// A fault after the last command has the number of commands and one. What the checkpoints before it published stays.
#[derive(Clone, Copy, Debug, PartialEq, Eq, Error)]
pub struct ImportFault {
    pub command: u64,
    pub kind: ImportKind,
    /// How many checkpoints were applied before it.
    pub checkpoints: u64,
}

impl fmt::Display for ImportFault {
    ghost output = { λ fault. Some (refusal fault) };

    fn fmt<W: fmt::Write>(&self, f: &mut fmt::Formatter<W>) -> fmt::Result {
        write!(f, "command {}: {}", self.command, self.kind)
    }
}

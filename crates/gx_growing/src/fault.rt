//! Why a growing store's text is refused.

ghost use Rattle.std.specs.Prelude.{◌≡◌, Some};
ghost use Rattle.gx_growing.specs.Faults.{word};
ghost use Rattle.gx_growing.specs.declared.fault.GrowingFault.TheVariants.{Text};

use gx_model::FileFault;
use std::error::Error;
use std::fmt;

/// Why a growing store's text is refused: the first fault from the front. Each prints its word.
#[derive(Clone, Copy, Debug, PartialEq, Eq)]
pub enum GrowingFault {
    /// What is against the head, a segment or a tail. What stands there is that of other store texts, and a line `rows` or
    /// `runs`, a slot that is picked, or the place of the last tail, that isn't as written, is `BadRecord`.
    Text(FileFault),
    /// The digest of the last tail isn't that of the slot, or its live runs don't tell where each object stands.
    BadRows,
}

impl GrowingFault {
    /// The word that a fault prints. Takes no memory.
    pub fn word(self) -> &'static str
        ensures { result.now ≡ word self }
    {
        match self {
            GrowingFault::Text(fault) => fault.word(),
            GrowingFault::BadRows => "BadRows",
        }
    }
}

impl fmt::Display for GrowingFault {
    ghost output = { λ fault. Some (word fault) };

    fn fmt<W: fmt::Write>(&self, f: &mut fmt::Formatter<W>) -> fmt::Result {
        f.write_str(self.word())
    }
}

impl Error for GrowingFault {}

impl From<FileFault> for GrowingFault {
    ghost from_gives = { λ kind fault. fault ≡ Text kind };

    fn from(kind: FileFault) -> GrowingFault {
        GrowingFault::Text(kind)
    }
}

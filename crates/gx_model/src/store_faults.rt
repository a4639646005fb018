//! Why a store file's text, or a record, is refused.

use std::alloc::AllocFailed;
use std::error::Error;
use std::fmt;

/// Why a store text is refused: the first fault from the front. Each prints its word. The definitions never give OutOfMemory.
///
/// It stands here for the definitions of store texts and for the calls that read them alike.
#[derive(Clone, Copy, Debug, PartialEq, Eq)]
pub enum FileFault {
    /// A growth was refused.
    OutOfMemory,
    /// The first line doesn't begin with `gxstore` and a space.
    BadMagic,
    /// The version is neither 1 nor 2.
    BadVersion,
    /// The text ends inside a line, or inside a body with its LF.
    Truncated,
    /// A line `objects`, `refs` or `end`, or that of a record, isn't as written, or a body has no LF behind it.
    BadRecord,
    /// The digits in a record's line aren't the name of its kind and body.
    NameMismatch,
    /// A record's name is that of an earlier one.
    DuplicateObject,
    /// A record links to one that doesn't stand before it, or that is of another kind.
    Dangling,
    /// A record's body isn't a canonical one of its kind, or what is below a tree isn't allowed.
    BadObject,
    /// A ref's line isn't as written, or the ref may not hold its object.
    BadRef,
    /// A ref's name isn't greater than the one before.
    RefOrder,
    /// Bytes follow the last line.
    TrailingBytes,
}

impl FileFault {
    ghost use Rattle.std.specs.Prelude.{◌≡◌};
    ghost use Rattle.gx_model.specs.Faults.StoreFaults.{word};

    /// The word that a fault prints, which is its name. Takes no memory.
    pub fn word(self) -> &'static str
        ensures { result.now ≡ word self }
    {
        match self {
            FileFault::OutOfMemory => "OutOfMemory",
            FileFault::BadMagic => "BadMagic",
            FileFault::BadVersion => "BadVersion",
            FileFault::Truncated => "Truncated",
            FileFault::BadRecord => "BadRecord",
            FileFault::NameMismatch => "NameMismatch",
            FileFault::DuplicateObject => "DuplicateObject",
            FileFault::Dangling => "Dangling",
            FileFault::BadObject => "BadObject",
            FileFault::BadRef => "BadRef",
            FileFault::RefOrder => "RefOrder",
            FileFault::TrailingBytes => "TrailingBytes",
        }
    }
}

impl fmt::Display for FileFault {
    ghost use Rattle.std.specs.Prelude.{Some};
    ghost use Rattle.gx_model.specs.Faults.StoreFaults.{word};

    ghost output = { λ fault. Some (word fault) };

    fn fmt<W: fmt::Write>(&self, f: &mut fmt::Formatter<W>) -> fmt::Result {
        f.write_str(self.word())
    }
}

impl Error for FileFault {}

impl<T: Drop> From<AllocFailed<T>> for FileFault {
    ghost use Rattle.std.specs.Prelude.{◌≡◌};
    ghost use Rattle.gx_model.specs.declared.store_faults.FileFault.TheVariants.{OutOfMemory};

    ghost from_gives = { λ _ fault. fault ≡ OutOfMemory };

    fn from(_error: AllocFailed<T>) -> FileFault {
        FileFault::OutOfMemory
    }
}

//! Why a text, a stream, an edit, a revision or an import is refused.

ghost use Rattle.std.specs.Prelude.{◌≡◌, Some};
ghost use Rattle.gx_model.specs.Faults.FaultWords.{number_of, word_of};
ghost use Rattle.gx_model.specs.declared.faults.Fault.TheVariants.{OutOfMemory};

use std::alloc::{AllocError, AllocFailed};
use std::error::Error;
use std::fmt::{self, Display, Formatter, Write};

/// What is wrong with a text, a command, an edit or a revision: one fault for all definitions and for an import, into which each
/// crate's own faults are embedded. Each prints its name. The definitions never give OutOfMemory, WriteFailed and NameHeld: those
/// are of memory, a device and the names in use. Source: git-fast-import(1), in the profile of this project.
#[derive(Clone, Copy, Debug, PartialEq, Eq)]
pub enum Fault {
    /// A growth was refused.
    OutOfMemory = 1,
    /// The source failed, or gave more than 2^63 - 1 bytes, before the command was whole.
    ReadFailed,
    /// The sink didn't take the whole line of a `progress`.
    WriteFailed,
    /// Where a command is expected, there is a block, or a line whose word begins no command.
    UnknownCommand,
    /// A line or a block is missing, or a line hasn't its form.
    BadLine,
    /// A `data` line has neither a number nor `<<`, or a mark is no number from 1 to 2^64 - 1.
    BadNumber,
    /// The stream ends within a block.
    TruncatedData,
    /// A path has an empty component, `.`, `..` or NUL, or isn't quoted well.
    BadPath,
    /// A path has more than 4,095 bytes, or would have after a copy or a rename.
    PathTooLong,
    /// A modify's mode is none of those of files, links, gitlinks and directories.
    BadMode,
    /// An author, a committer or a tagger isn't a name, an email and a date.
    BadIdent,
    /// A commit's or a reset's ref, or `refs/tags/` with a tag's name, is no ref name.
    BadRefName,
    /// No object has the mark.
    UnknownMark,
    /// A commit-ish gives no commit, or a dataref no blob; or a revision's suffix asks for another kind.
    WrongKind,
    /// No object has the name.
    UnknownObject,
    /// Nothing stands at or below the source of a copy or a rename, or at a revision's path.
    NoSuchPath,
    /// A file would be the root.
    RootNotTree,
    /// A commit or a reset names its own branch.
    FromItself,
    /// A commit-ish is a branch of this import without a commit.
    EmptyBranch,
    /// The stream holds what git-fast-import(1) has and this import has not.
    Unsupported,
    /// A `feature` or an `option` comes after another command.
    LateOption,
    /// The stream ends without `done`, which `feature done` asked for.
    MissingDone,
    /// A published branch would lose commits.
    NotFastForward,
    /// An object to be added has the name of another one.
    NameHeld,
    /// A commit-ish that is no branch isn't a revision.
    BadRevision,
    /// The base of a revision names no ref, and is no abbreviation of an object's name.
    UnknownRef,
    /// The base of a revision begins the names of several objects.
    Ambiguous,
    /// A commit in a revision has fewer parents.
    NoParent,
}

impl Fault {
    /// Its name, as it prints. Constant time, and no memory.
    pub fn word(self) -> &'static str
        ensures { result.now ≡ word_of self }
    {
        match self {
            Fault::OutOfMemory => "OutOfMemory",
            Fault::ReadFailed => "ReadFailed",
            Fault::WriteFailed => "WriteFailed",
            Fault::UnknownCommand => "UnknownCommand",
            Fault::BadLine => "BadLine",
            Fault::BadNumber => "BadNumber",
            Fault::TruncatedData => "TruncatedData",
            Fault::BadPath => "BadPath",
            Fault::PathTooLong => "PathTooLong",
            Fault::BadMode => "BadMode",
            Fault::BadIdent => "BadIdent",
            Fault::BadRefName => "BadRefName",
            Fault::UnknownMark => "UnknownMark",
            Fault::WrongKind => "WrongKind",
            Fault::UnknownObject => "UnknownObject",
            Fault::NoSuchPath => "NoSuchPath",
            Fault::RootNotTree => "RootNotTree",
            Fault::FromItself => "FromItself",
            Fault::EmptyBranch => "EmptyBranch",
            Fault::Unsupported => "Unsupported",
            Fault::LateOption => "LateOption",
            Fault::MissingDone => "MissingDone",
            Fault::NotFastForward => "NotFastForward",
            Fault::NameHeld => "NameHeld",
            Fault::BadRevision => "BadRevision",
            Fault::UnknownRef => "UnknownRef",
            Fault::Ambiguous => "Ambiguous",
            Fault::NoParent => "NoParent",
        }
    }

    /// Its number, from 1 to 28. Constant time, and no memory.
    pub fn number(self) -> u8
        ensures { result ≡ number_of self }
    {
        self as u8
    }
}

impl Display for Fault {
    ghost output = { λ kind. Some (word_of kind) };

    fn fmt<W: Write>(&self, f: &mut Formatter<W>) -> fmt::Result {
        f.write_str(self.word())
    }
}

impl Error for Fault {}

impl From<AllocError> for Fault {
    ghost from_gives = { λ _ fault. fault ≡ OutOfMemory };

    fn from(_error: AllocError) -> Fault {
        Fault::OutOfMemory
    }
}

impl<T: Drop> From<AllocFailed<T>> for Fault {
    ghost from_gives = { λ _ fault. fault ≡ OutOfMemory };

    fn from(_error: AllocFailed<T>) -> Fault {
        Fault::OutOfMemory
    }
}

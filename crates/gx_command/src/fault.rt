//! Why a stream has no further command.

ghost use Rattle.std.specs.Prelude.{◌≡◌};
ghost use Rattle.gx_command.specs.declared.fault.CommandFault.TheVariants.{OutOfMemory};
ghost use Rattle.gx_command.specs.CommandFaults.{fault_of, of_stream, of_text};

use gx_model::Fault;
use gx_stream::StreamFault;
use gx_text::TextFault;
use std::alloc::{AllocError, AllocFailed};
use std::error::Error;
use std::fmt;

/// Why a stream has no further command. Each prints its name. Source: git-fast-import(1), in the profile of this project.
#[derive(Clone, Copy, Debug, PartialEq, Eq)]
pub enum CommandFault {
    /// There was no memory for what came.
    OutOfMemory,
    /// The source failed, or gave more than 2^63 - 1 bytes, before the command was whole.
    ReadFailed,
    /// The stream ends within a block.
    TruncatedData,
    /// A `data` line has neither a number nor `<<`, or a mark is no number from 1 to 2^64 - 1.
    BadNumber,
    /// Where a command is expected, there is a block, or a line whose word begins no command.
    UnknownCommand,
    /// The command lacks a line or a block that it needs; a line lacks what follows its word, or has what may not follow it;
    /// or a part of a line hasn't its form: a mark has no colon, an encoding is empty, a dataref is none, more than the line's
    /// end or a space follows a quoted path, or a source has no space after it.
    BadLine,
    /// A path has an empty component, `.`, `..` or NUL, or isn't quoted well.
    BadPath,
    /// A path has more than 4,095 bytes.
    PathTooLong,
    /// A modify's mode is none of those of files, links, gitlinks and directories.
    BadMode,
    /// An author, a committer or a tagger isn't a name, an email and a date.
    BadIdent,
    /// A commit's or a reset's ref, or `refs/tags/` with a tag's name, is no ref name. Source: git-check-ref-format(1).
    BadRefName,
    /// What git-fast-import(1) has and this reader has not: `ls`, `cat-blob`, `get-mark`, `alias`, `gpgsig` and `N`, a
    /// directory's mode, a gitlink by mark or `inline`, forty zeros as an object, and any feature but `done`,
    /// `date-format=raw` and `force`.
    Unsupported,
    /// A `feature` or an `option` comes after another command.
    LateOption,
    /// The stream ends without `done`, which `feature done` asked for.
    MissingDone,
}

impl CommandFault {
    ghost use Rattle.gx_command.specs.CommandFaults.{word};

    /// The word that a fault prints, which is its name. Takes no memory.
    pub fn word(self) -> &'static str
        ensures { result.now ≡ word self }
    {
        match self {
            CommandFault::OutOfMemory => "OutOfMemory",
            CommandFault::ReadFailed => "ReadFailed",
            CommandFault::TruncatedData => "TruncatedData",
            CommandFault::BadNumber => "BadNumber",
            CommandFault::UnknownCommand => "UnknownCommand",
            CommandFault::BadLine => "BadLine",
            CommandFault::BadPath => "BadPath",
            CommandFault::PathTooLong => "PathTooLong",
            CommandFault::BadMode => "BadMode",
            CommandFault::BadIdent => "BadIdent",
            CommandFault::BadRefName => "BadRefName",
            CommandFault::Unsupported => "Unsupported",
            CommandFault::LateOption => "LateOption",
            CommandFault::MissingDone => "MissingDone",
        }
    }
}

impl fmt::Display for CommandFault {
    ghost use Rattle.std.specs.Prelude.{Some};
    ghost use Rattle.gx_command.specs.CommandFaults.{word};

    ghost output = { λ fault. Some (word fault) };

    fn fmt<W: fmt::Write>(&self, f: &mut fmt::Formatter<W>) -> fmt::Result {
        f.write_str(self.word())
    }
}

impl Error for CommandFault {}

impl From<AllocError> for CommandFault {
    ghost from_gives = { λ _ fault. fault ≡ OutOfMemory };

    fn from(_error: AllocError) -> CommandFault {
        CommandFault::OutOfMemory
    }
}

impl<T: Drop> From<AllocFailed<T>> for CommandFault {
    ghost from_gives = { λ _ fault. fault ≡ OutOfMemory };

    fn from(_error: AllocFailed<T>) -> CommandFault {
        CommandFault::OutOfMemory
    }
}

impl From<StreamFault> for CommandFault {
    ghost from_gives = { λ from fault. fault ≡ of_stream from };

    fn from(fault: StreamFault) -> CommandFault {
        match fault {
            StreamFault::OutOfMemory => CommandFault::OutOfMemory,
            StreamFault::ReadFailed => CommandFault::ReadFailed,
            StreamFault::TruncatedData => CommandFault::TruncatedData,
            StreamFault::BadNumber => CommandFault::BadNumber,
        }
    }
}

impl From<TextFault> for CommandFault {
    ghost from_gives = { λ from fault. fault ≡ of_text from };

    fn from(fault: TextFault) -> CommandFault {
        match fault {
            TextFault::OutOfMemory => CommandFault::OutOfMemory,
            TextFault::BadPath => CommandFault::BadPath,
            TextFault::PathTooLong => CommandFault::PathTooLong,
            TextFault::BadIdent => CommandFault::BadIdent,
        }
    }
}

impl From<CommandFault> for Fault {
    ghost from_gives = { λ from fault. fault ≡ fault_of from };

    fn from(fault: CommandFault) -> Fault {
        match fault {
            CommandFault::OutOfMemory => Fault::OutOfMemory,
            CommandFault::ReadFailed => Fault::ReadFailed,
            CommandFault::TruncatedData => Fault::TruncatedData,
            CommandFault::BadNumber => Fault::BadNumber,
            CommandFault::UnknownCommand => Fault::UnknownCommand,
            CommandFault::BadLine => Fault::BadLine,
            CommandFault::BadPath => Fault::BadPath,
            CommandFault::PathTooLong => Fault::PathTooLong,
            CommandFault::BadMode => Fault::BadMode,
            CommandFault::BadIdent => Fault::BadIdent,
            CommandFault::BadRefName => Fault::BadRefName,
            CommandFault::Unsupported => Fault::Unsupported,
            CommandFault::LateOption => Fault::LateOption,
            CommandFault::MissingDone => Fault::MissingDone,
        }
    }
}

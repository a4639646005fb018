//! Why refs aren't changed.

ghost use Rattle.std.specs.Prelude.{◌≡◌, Some};
ghost use Rattle.gx_push.specs.Faults.{refusal, set_refusal, word};
ghost use Rattle.gx_push.specs.declared.fault.PushFault.TheVariants.{OutOfMemory};
ghost use Rattle.gx_push.specs.declared.fault.SetFault.TheVariants.{OutOfMemory as no_set};

use gx_import::ImportFault;
use std::alloc::{AllocError, AllocFailed};
use std::fmt;
use thiserror::Error;

/// Why the change of a ref is refused.
#[derive(Clone, Copy, Debug, PartialEq, Eq, Drop, Error)]
pub enum RefFault {
    /// The line tells no change, or of a ref that a line before it tells of.
    BadLine,
    /// The name isn't that of a ref.
    BadRefName,
    /// The ref isn't what it has to be.
    RefMoved,
    /// The object isn't held.
    UnknownObject,
    /// It is neither a commit nor a tag whose own name makes the ref's.
    WrongKind,
    /// The ref would lose commits.
    NotFastForward,
}

impl RefFault {
    /// The word that it prints: the variant's name. Takes no memory.
    pub fn word(self) -> &'static str
        ensures { result.now ≡ word self }
    {
        match self {
            RefFault::BadLine => "BadLine",
            RefFault::BadRefName => "BadRefName",
            RefFault::RefMoved => "RefMoved",
            RefFault::UnknownObject => "UnknownObject",
            RefFault::WrongKind => "WrongKind",
            RefFault::NotFastForward => "NotFastForward",
        }
    }
}

impl fmt::Display for RefFault {
    ghost output = { λ fault. Some (word fault) };

    fn fmt<W: fmt::Write>(&self, f: &mut fmt::Formatter<W>) -> fmt::Result {
        f.write_str(self.word())
    }
}

/// Why no ref is changed.
#[derive(Clone, Copy, Debug, PartialEq, Eq, Error)]
pub enum PushFault {
    /// The number of the line, from 1, and what is against it. A ref that changes and has no line is of the one behind the last.
    Line { number: u64, kind: RefFault },
    /// The stream is refused.
    Import(ImportFault),
    /// A growth was refused.
    OutOfMemory,
}

impl fmt::Display for PushFault {
    ghost output = { λ fault. Some (refusal fault) };

    fn fmt<W: fmt::Write>(&self, f: &mut fmt::Formatter<W>) -> fmt::Result {
        match self {
            PushFault::Line { number, kind } => write!(f, "line {number}: {kind}"),
            PushFault::Import(fault) => write!(f, "command {}: {}", fault.command, fault.kind),
            PushFault::OutOfMemory => f.write_str("out of memory"),
        }
    }
}

impl From<AllocError> for PushFault {
    ghost from_gives = { λ _ fault. fault ≡ OutOfMemory };

    fn from(_error: AllocError) -> PushFault {
        PushFault::OutOfMemory
    }
}

impl<T: Drop> From<AllocFailed<T>> for PushFault {
    ghost from_gives = { λ _ fault. fault ≡ OutOfMemory };

    fn from(_error: AllocFailed<T>) -> PushFault {
        PushFault::OutOfMemory
    }
}

/// Why no ref is set.
#[derive(Clone, Copy, Debug, PartialEq, Eq, Error)]
pub enum SetFault {
    /// The number of the line, from 1, and what is against it.
    Line { number: u64, kind: RefFault },
    /// A growth was refused.
    OutOfMemory,
}

impl fmt::Display for SetFault {
    ghost output = { λ fault. Some (set_refusal fault) };

    fn fmt<W: fmt::Write>(&self, f: &mut fmt::Formatter<W>) -> fmt::Result {
        match self {
            SetFault::Line { number, kind } => write!(f, "line {number}: {kind}"),
            SetFault::OutOfMemory => f.write_str("out of memory"),
        }
    }
}

impl From<AllocError> for SetFault {
    ghost from_gives = { λ _ fault. fault ≡ no_set };

    fn from(_error: AllocError) -> SetFault {
        SetFault::OutOfMemory
    }
}

impl<T: Drop> From<AllocFailed<T>> for SetFault {
    ghost from_gives = { λ _ fault. fault ≡ no_set };

    fn from(_error: AllocFailed<T>) -> SetFault {
        SetFault::OutOfMemory
    }
}

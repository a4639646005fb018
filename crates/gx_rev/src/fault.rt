//! Why a revision or a range word is refused.

ghost use Rattle.std.specs.Prelude.{◌≡◌, Some};
ghost use Rattle.gx_rev.specs.declared.fault.RevFault.TheVariants.{OutOfMemory};
ghost use Rattle.gx_rev.specs.RevFaults.{AreBoth, of_text, refusal, word};

use gx_model::Fault;
use gx_text::TextFault;
use std::alloc::{AllocError, AllocFailed};
use std::fmt;
use thiserror::Error;

/// Why a revision or a range word is refused.
#[derive(Clone, Copy, Debug, PartialEq, Eq, Drop, Error)]
pub enum RevFault {
    /// A growth was refused.
    OutOfMemory,
    /// The text isn't a revision, or isn't a range word.
    BadRevision,
    /// What follows the `:` isn't a path.
    BadPath,
    /// What follows the `:` has more than 4,095 bytes.
    PathTooLong,
    /// The base names no ref, and is no abbreviation of an object's name.
    UnknownRef,
    /// The base is the name of an object that isn't held.
    UnknownObject,
    /// The base begins the names of several objects.
    Ambiguous,
    /// A commit has fewer parents.
    NoParent,
    /// The object is of another kind.
    WrongKind,
    /// Nothing stands at the path.
    NoSuchPath,
}

impl RevFault {
    /// The word that it prints: the variant's name. Takes no memory.
    pub fn word(self) -> &'static str
        ensures { result.now ≡ word self }
    {
        match self {
            RevFault::OutOfMemory => "OutOfMemory",
            RevFault::BadRevision => "BadRevision",
            RevFault::BadPath => "BadPath",
            RevFault::PathTooLong => "PathTooLong",
            RevFault::UnknownRef => "UnknownRef",
            RevFault::UnknownObject => "UnknownObject",
            RevFault::Ambiguous => "Ambiguous",
            RevFault::NoParent => "NoParent",
            RevFault::WrongKind => "WrongKind",
            RevFault::NoSuchPath => "NoSuchPath",
        }
    }
}

impl fmt::Display for RevFault {
    ghost output = { λ fault. Some (word fault) };

    fn fmt<W: fmt::Write>(&self, f: &mut fmt::Formatter<W>) -> fmt::Result {
        f.write_str(self.word())
    }
}

impl From<AllocError> for RevFault {
    ghost from_gives = { λ _ fault. fault ≡ OutOfMemory };

    fn from(_error: AllocError) -> RevFault {
        RevFault::OutOfMemory
    }
}

impl<T: Drop> From<AllocFailed<T>> for RevFault {
    ghost from_gives = { λ _ fault. fault ≡ OutOfMemory };

    fn from(_error: AllocFailed<T>) -> RevFault {
        RevFault::OutOfMemory
    }
}

impl From<TextFault> for RevFault {
    ghost from_gives = { λ from fault. fault ≡ of_text from };

    fn from(fault: TextFault) -> RevFault {
        match fault {
            TextFault::OutOfMemory => RevFault::OutOfMemory,
            TextFault::BadPath => RevFault::BadPath,
            TextFault::PathTooLong => RevFault::PathTooLong,
            // a path is never refused so
            TextFault::BadIdent => RevFault::BadRevision,
        }
    }
}

/// The values of two answers; or the first fault, where want of memory gives way to a fault behind it.
pub(crate) fn both<X: Drop, Y: Drop>(
    first: Result<X, RevFault>,
    second: Result<Y, RevFault>,
) -> Result<(X, Y), RevFault>
    ensures { AreBoth first second result }
{
    match first {
        Ok(first) => Ok((first, second?)),
        Err(RevFault::OutOfMemory) => {
            let _second = second?;
            Err(RevFault::OutOfMemory)
        }
        Err(fault) => Err(fault),
    }
}

/// Why a walk is refused: the number of the first range word that is refused, from 1, and its fault.
/// OutOfMemory has the number 0.
#[derive(Clone, Copy, Debug, PartialEq, Eq, Drop, Error)]
pub struct WalkFault {
    pub word: usize,
    pub kind: RevFault,
}

impl fmt::Display for WalkFault {
    ghost output = { λ fault. Some (refusal fault) };

    fn fmt<W: fmt::Write>(&self, f: &mut fmt::Formatter<W>) -> fmt::Result {
        write!(f, "revision {}: {}", self.word, self.kind)
    }
}

impl From<AllocError> for WalkFault {
    ghost from_gives = { λ _ fault. (fault.word ≡ 0) × (fault.kind ≡ OutOfMemory) };

    fn from(_error: AllocError) -> WalkFault {
        WalkFault {
            word: 0,
            kind: RevFault::OutOfMemory,
        }
    }
}

impl From<RevFault> for Fault {
    ghost use Rattle.gx_rev.specs.RevFaults.{fault_of};

    ghost from_gives = { λ from fault. fault ≡ fault_of from };

    fn from(fault: RevFault) -> Fault {
        match fault {
            RevFault::OutOfMemory => Fault::OutOfMemory,
            RevFault::BadRevision => Fault::BadRevision,
            RevFault::BadPath => Fault::BadPath,
            RevFault::PathTooLong => Fault::PathTooLong,
            RevFault::UnknownRef => Fault::UnknownRef,
            RevFault::UnknownObject => Fault::UnknownObject,
            RevFault::Ambiguous => Fault::Ambiguous,
            RevFault::NoParent => Fault::NoParent,
            RevFault::WrongKind => Fault::WrongKind,
            RevFault::NoSuchPath => Fault::NoSuchPath,
        }
    }
}

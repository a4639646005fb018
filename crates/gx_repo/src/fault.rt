//! Why a repository refuses a call.
ghost use Rattle.std.specs.Prelude.{◌≡◌, Some};
ghost use Rattle.gx_model.specs.Faults.FaultWords.{word_of};
ghost use Rattle.gx_model.specs.Faults.StoreFaults.{word};
ghost use Rattle.gx_repo.specs.declared.fault.AddFault.TheVariants.{BadObject};
ghost use Rattle.gx_repo.specs.Dropping.{drop_fault};
ghost use Rattle.gx_repo.specs.Publishing.{fault_of};
ghost use Rattle.gx_repo.specs.Records.{add_fault};

use gx_model::{Fault, FileFault};
use std::alloc::{AllocError, AllocFailed};
use std::fmt;
use thiserror::Error;

/// A growth was refused.
pub type OutOfMemory = AllocError;

/// Why a record isn't added: what it has against it first, in this order.
#[derive(Clone, Copy, Debug, Error, PartialEq, Eq)]
pub enum AddFault {
    /// A growth was refused.
    OutOfMemory,
    /// The body isn't a canonical one of its kind. Or an entry names a tree without entries, or a path below the tree has
    /// more than 4,095 bytes.
    BadObject,
    /// A link isn't held, or is held as another kind.
    Dangling,
    /// The name is held, whatever its bytes.
    DuplicateObject,
}

impl fmt::Display for AddFault {
    ghost output = { λ fault. Some (word (add_fault fault)) };

    fn fmt<W: fmt::Write>(&self, f: &mut fmt::Formatter<W>) -> fmt::Result {
        f.write_str(FileFault::from(*self).word())
    }
}

impl From<gx_object::BadObject> for AddFault {
    ghost from_gives = { λ _ fault. fault ≡ BadObject };

    fn from(_fault: gx_object::BadObject) -> AddFault {
        AddFault::BadObject
    }
}

impl From<AddFault> for FileFault {
    ghost from_gives = { λ from fault. fault ≡ add_fault from };

    fn from(fault: AddFault) -> FileFault {
        match fault {
            AddFault::OutOfMemory => FileFault::OutOfMemory,
            AddFault::BadObject => FileFault::BadObject,
            AddFault::Dangling => FileFault::Dangling,
            AddFault::DuplicateObject => FileFault::DuplicateObject,
        }
    }
}

/// Why changes of refs are refused: what the first change that is refused has against it.
#[derive(Clone, Copy, Debug, Error, PartialEq, Eq)]
pub enum PublishFault {
    /// A growth was refused.
    OutOfMemory,
    /// The name isn't that of a ref.
    BadRefName,
    /// The object isn't held.
    UnknownObject,
    /// The object is neither a commit nor a tag whose own name makes the ref's.
    WrongKind,
}

impl fmt::Display for PublishFault {
    ghost output = { λ fault. Some (word_of (fault_of fault)) };

    fn fmt<W: fmt::Write>(&self, f: &mut fmt::Formatter<W>) -> fmt::Result {
        f.write_str(Fault::from(*self).word())
    }
}

impl From<PublishFault> for Fault {
    ghost from_gives = { λ from fault. fault ≡ fault_of from };

    fn from(fault: PublishFault) -> Fault {
        match fault {
            PublishFault::OutOfMemory => Fault::OutOfMemory,
            PublishFault::BadRefName => Fault::BadRefName,
            PublishFault::UnknownObject => Fault::UnknownObject,
            PublishFault::WrongKind => Fault::WrongKind,
        }
    }
}

impl From<AllocError> for PublishFault {
    ghost use Rattle.std.specs.Prelude.{◌≡◌};
    ghost use Rattle.gx_repo.specs.declared.fault.PublishFault.TheVariants.{OutOfMemory};

    ghost from_gives = { λ _ fault. fault ≡ OutOfMemory };

    fn from(_error: AllocError) -> PublishFault {
        PublishFault::OutOfMemory
    }
}

/// Why refs aren't dropped.
#[derive(Clone, Copy, Debug, Error, PartialEq, Eq)]
pub enum DropFault {
    /// A growth was refused.
    OutOfMemory,
    /// No ref has the name with this number, counted from 1, or it is given before.
    UnknownRef { number: u64 },
}

impl fmt::Display for DropFault {
    ghost output = { λ fault. Some (word_of (drop_fault fault)) };

    fn fmt<W: fmt::Write>(&self, f: &mut fmt::Formatter<W>) -> fmt::Result {
        f.write_str(Fault::from(*self).word())
    }
}

impl From<DropFault> for Fault {
    ghost from_gives = { λ from fault. fault ≡ drop_fault from };

    fn from(fault: DropFault) -> Fault {
        match fault {
            DropFault::OutOfMemory => Fault::OutOfMemory,
            DropFault::UnknownRef { number: _ } => Fault::UnknownRef,
        }
    }
}

impl<T: Drop> From<AllocFailed<T>> for DropFault {
    ghost use Rattle.std.specs.Prelude.{◌≡◌};
    ghost use Rattle.gx_repo.specs.declared.fault.DropFault.TheVariants.{OutOfMemory};

    ghost from_gives = { λ _ fault. fault ≡ OutOfMemory };

    fn from(_error: AllocFailed<T>) -> DropFault {
        DropFault::OutOfMemory
    }
}

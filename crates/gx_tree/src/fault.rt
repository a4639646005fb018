//! Why a tree refuses a call.
ghost use Rattle.std.specs.Prelude.{◌≡◌, Some};
ghost use Rattle.gx_model.specs.Faults.FaultWords.{word_of};
ghost use Rattle.gx_tree.specs.Faults.{fault_of};

use gx_model::Fault;
use gx_store::StoreFault;
use std::alloc::AllocError;
use std::fmt;
use thiserror::Error;

/// Why an edit of a tree, its writing or its loading is refused.
#[derive(Clone, Copy, Debug, Error, PartialEq, Eq)]
pub enum TreeFault {
    /// A growth was refused.
    OutOfMemory,
    /// Nothing stands at or below the source of a copy or a rename.
    NoSuchPath,
    /// A file would be the root.
    RootNotTree,
    /// A new path has more than 4,095 bytes.
    PathTooLong,
    /// A tree to be stored has the name of another object.
    NameHeld,
}

impl fmt::Display for TreeFault {
    ghost output = { λ fault. Some (word_of (fault_of fault)) };

    fn fmt<W: fmt::Write>(&self, f: &mut fmt::Formatter<W>) -> fmt::Result {
        f.write_str(Fault::from(*self).word())
    }
}

impl From<AllocError> for TreeFault {
    ghost use Rattle.std.specs.Prelude.{◌≡◌};
    ghost use Rattle.gx_tree.specs.declared.fault.TreeFault.TheVariants.{OutOfMemory};

    ghost from_gives = { λ _ fault. fault ≡ OutOfMemory };

    fn from(_error: AllocError) -> TreeFault {
        TreeFault::OutOfMemory
    }
}

impl From<StoreFault> for TreeFault {
    ghost use Rattle.std.specs.Prelude.{◌≡◌};
    ghost use Rattle.gx_tree.specs.StoreFaults.{tree_fault};

    ghost from_gives = { λ error fault. fault ≡ tree_fault error };

    fn from(error: StoreFault) -> TreeFault {
        match error {
            StoreFault::OutOfMemory => TreeFault::OutOfMemory,
            StoreFault::NameHeld => TreeFault::NameHeld,
        }
    }
}

impl From<TreeFault> for Fault {
    ghost use Rattle.gx_tree.specs.Faults.{fault_of};

    ghost from_gives = { λ from fault. fault ≡ fault_of from };

    fn from(fault: TreeFault) -> Fault {
        match fault {
            TreeFault::OutOfMemory => Fault::OutOfMemory,
            TreeFault::NoSuchPath => Fault::NoSuchPath,
            TreeFault::RootNotTree => Fault::RootNotTree,
            TreeFault::PathTooLong => Fault::PathTooLong,
            TreeFault::NameHeld => Fault::NameHeld,
        }
    }
}

//! Why objects that are given aren't placed.

ghost use Rattle.std.specs.Prelude.{◌≡◌};
ghost use Rattle.gx_placed.specs.declared.fault.PlaceFault.TheVariants.{OutOfMemory};

use gx_object::Name;
use std::alloc::{AllocError, AllocFailed};

/// What is against an object that is given.
#[derive(Clone, Copy, Debug, PartialEq, Eq, Drop)]
pub enum ObjectFault {
    /// The body isn't a canonical one of its kind. Or an entry names a tree without entries, or a path below the tree has more
    /// than 4,095 bytes.
    BadObject,
    /// Another object is held under its name.
    NameHeld,
    /// A link of this name is neither held nor given, or as another kind, or it is needed for itself.
    Dangling(Name),
}

/// Why objects aren't placed.
#[derive(Clone, Copy, Debug, PartialEq, Eq, Drop)]
pub enum PlaceFault {
    /// A growth was refused.
    OutOfMemory,
    /// The place of an object among those that are given, from 0, and what is against it.
    Object(usize, ObjectFault),
}

impl From<AllocError> for PlaceFault {
    ghost from_gives = { λ _ fault. fault ≡ OutOfMemory };

    fn from(_error: AllocError) -> PlaceFault {
        PlaceFault::OutOfMemory
    }
}

impl<T: Drop> From<AllocFailed<T>> for PlaceFault {
    ghost from_gives = { λ _ fault. fault ≡ OutOfMemory };

    fn from(_error: AllocFailed<T>) -> PlaceFault {
        PlaceFault::OutOfMemory
    }
}

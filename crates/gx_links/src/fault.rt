//! Why it isn't told what a body names.

ghost use Rattle.std.specs.Prelude.{◌≡◌};
ghost use Rattle.gx_links.specs.declared.fault.LinksFault.TheVariants.{OutOfMemory};

use std::alloc::{AllocError, AllocFailed};

/// Why it isn't told what a body names.
#[derive(Clone, Copy, Debug, PartialEq, Eq, Drop)]
pub enum LinksFault {
    /// A growth was refused.
    OutOfMemory,
    /// The body isn't a canonical one of its kind, or it has what no repository holds.
    BadBody,
}

impl From<AllocError> for LinksFault {
    ghost from_gives = { λ _ fault. fault ≡ OutOfMemory };

    fn from(_error: AllocError) -> LinksFault {
        LinksFault::OutOfMemory
    }
}

impl<T: Drop> From<AllocFailed<T>> for LinksFault {
    ghost from_gives = { λ _ fault. fault ≡ OutOfMemory };

    fn from(_error: AllocFailed<T>) -> LinksFault {
        LinksFault::OutOfMemory
    }
}

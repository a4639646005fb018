//! Why a push goes the whole way.

use gx_growing_import::WholeWay;
use gx_objects::LookFault;
use std::alloc::{AllocError, AllocFailed};

/// Why a push isn't made so: it goes the whole way, over all of the repository, which tells what comes of it.
#[derive(Clone, Copy, Debug, Drop)]
pub enum WholePush {
    /// The stream isn't imported so; or a growth was refused, a read failed, or what is asked is no repository.
    Import(WholeWay),
    /// A line isn't one, or its ref isn't as it has it; or commits tell whether the ref may change.
    Lines,
    /// A ref changes that no line has.
    Others,
}

impl From<AllocError> for WholePush {
    fn from(_error: AllocError) -> WholePush {
        WholePush::Import(WholeWay::OutOfMemory)
    }
}

impl<T: Drop> From<AllocFailed<T>> for WholePush {
    fn from(_error: AllocFailed<T>) -> WholePush {
        WholePush::Import(WholeWay::OutOfMemory)
    }
}

impl From<LookFault> for WholePush {
    fn from(fault: LookFault) -> WholePush {
        WholePush::Import(WholeWay::from(fault))
    }
}

impl From<WholeWay> for WholePush {
    fn from(way: WholeWay) -> WholePush {
        WholePush::Import(way)
    }
}

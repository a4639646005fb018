//! What a repository refuses, as a fault of the store text that brings it. Source: this project's own format.
ghost use Rattle.std.specs.Prelude.{◌≡◌};
ghost use Rattle.gx_file.specs.Faults.{refs_fault};
ghost use Rattle.gx_repo.specs.Records.{add_fault};

use crate::FileFault;
use gx_repo::{AddFault, PublishFault};

/// The fault of a record that isn't added.
pub(crate) fn record_fault(fault: AddFault) -> FileFault
    ensures { result ≡ add_fault fault }
{
    match fault {
        AddFault::OutOfMemory => FileFault::OutOfMemory,
        AddFault::BadObject => FileFault::BadObject,
        AddFault::Dangling => FileFault::Dangling,
        AddFault::DuplicateObject => FileFault::DuplicateObject,
    }
}

/// The fault of refs that aren't set.
pub(crate) fn refs_fault(fault: PublishFault) -> FileFault
    ensures { result ≡ refs_fault fault }
{
    match fault {
        PublishFault::OutOfMemory => FileFault::OutOfMemory,
        PublishFault::BadRefName | PublishFault::UnknownObject | PublishFault::WrongKind =>
            FileFault::BadRef,
    }
}

//! Objects that are held, by kind and name.

ghost use Rattle.std.specs.Prelude.{◌≡◌};
ghost use Rattle.gx_import.specs.Objects.{name_of_kind};
ghost use Rattle.gx_import.specs.Calls.{ShowsCommit};

use crate::ImportKind;
use gx_object::{Kind, Name, Namer};
use gx_repo::Repo;
use std::alloc::Allocator;

/// An object that is held.
#[derive(Clone, Copy)]
pub(crate) struct Object {
    pub(crate) kind: Kind,
    pub(crate) name: Name,
}

/// The commit that an object is, or that it names as a tag.
pub(crate) fn commit_in<N: Namer, A: Allocator + Copy>(
    repo: &Repo<N, A>,
    object: Object,
) -> Result<Name, ImportKind>
    ensures { ShowsCommit N.name_of repo.now object result }
{
    match repo.peel(&object.name) {
        Some(commit) => Ok(commit),
        None => Err(ImportKind::WrongKind),
    }
}

/// The name of an object of this kind.
pub(crate) fn name_of_kind(object: Object, kind: Kind) -> Result<Name, ImportKind>
    ensures { result ≡ name_of_kind object kind }
{
    if object.kind == kind {
        Ok(object.name)
    } else {
        Err(ImportKind::WrongKind)
    }
}

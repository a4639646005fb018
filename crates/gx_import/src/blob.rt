//! Blob commands. Source: git-fast-import(1), "blob".

ghost use Rattle.std.specs.Prelude.{◌≡◌};
ghost use Rattle.gx_command.specs.Views.{shown_blob};
ghost use Rattle.gx_import.specs.Standing.{OnlyAdds};
ghost use Rattle.gx_import.specs.Calls.{HidesNoBlob, Makes};

use crate::ImportKind;
use crate::object::Object;
use crate::tables::Tables;
use gx_command::Blob;
use gx_model::repository_laws::puts_add_values;
use gx_object::{Kind, Namer};
use gx_repo::Repo;
use std::alloc::Allocator;

/// Puts a blob, and then sets its mark. The store keeps the blob's own bytes.
pub(crate) fn apply_blob<N: Namer, A: Allocator + Copy>(
    repo: &mut Repo<N, A>,
    tables: &mut Tables<A>,
    blob: Blob<A>,
) -> Result<(), ImportKind>
    ensures branches { tables.new.branches ≡ tables.old.branches }
    ensures loaded { tables.new.loaded ≡ tables.old.loaded }
    ensures only { OnlyAdds repo.old repo.new }
    ensures hidden { HidesNoBlob N.name_of repo.old blob result }
    ensures steps { Makes N.name_of repo.old repo.new tables.old tables.new
        (shown_blob blob) result }
{
    repo.sound();
    puts_add_values();
    let name = repo.add_blob_owned(blob.bytes)?;
    let kind = Kind::Blob;
    Ok(tables.marks.set(blob.mark, Object { kind, name })?)
}

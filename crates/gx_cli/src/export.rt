//! The export of a store. Source: git-fast-export(1).

ghost use Rattle.gx_cli.specs.Forms.{ExportsAs};
ghost use Rattle.gx_cli.specs.Serving.{SendsExport};

use crate::{CliFault, ExportForm};
use gx_export::{ExportFault, export, export_changes};
use gx_object::Namer;
use gx_repo::Repo;
use gx_text::Sink;
use std::alloc::Allocator;

/// Exports a repository. The stream goes out as it is made.
///
/// Cost: that of `gx_export::export` or `export_changes`.
pub(crate) fn send_export<N: Namer, W: Sink, A: Allocator + Copy>(
    alloc: A,
    repo: &Repo<N, A>,
    form: ExportForm,
    sink: &mut W,
) -> Result<(), CliFault>
    ensures { SendsExport (N.name_of repo.now.0) form repo.now.1
        (W.taken sink.old) (W.taken sink.new) result }
{
    match export_as(alloc, repo, form, sink) {
        Ok(()) => Ok(()),
        Err(fault) => Err(CliFault::Export(fault)),
    }
}

/// Writes a repository as a stream of this form.
pub(crate) fn export_as<N: Namer, W: Sink, A: Allocator + Copy>(
    alloc: A,
    repo: &Repo<N, A>,
    form: ExportForm,
    sink: &mut W,
) -> Result<(), ExportFault>
    ensures { ExportsAs (N.name_of repo.now.0) form repo.now.1
        (W.taken sink.old) (W.taken sink.new) result }
{
    match form {
        ExportForm::FullTree => export(alloc, repo, sink),
        ExportForm::Changes { done } => export_changes(alloc, repo, sink, done),
    }
}

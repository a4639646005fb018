//! Questions to growing store files, each of which reads what it needs.

mod changes;
pub(crate) mod file_at;

use crate::fault::RunFault;
use crate::run::Run;
use crate::stores::host::Host;
pub(crate) use changes::{export_looked, ranges_of};
use file_at::FileAt;
use gx_at::ReadAt;
use gx_cli::CliFault;
use gx_look::Look;
use gx_object::Sha1Namer;
use gx_objects::LookFault;
use gx_place::{FileKind, System};
use gx_versions::{StoreForm, form_of};
use std::alloc::Global;
use std::io;

/// So often is a store opened again whose head another run may have been writing.
const MOST_LOOKS: u32 = 8;

/// So many bytes a row of a run has.
const BYTES_OF_ROW: u64 = 28;

/// A growing store file that is open.
pub(crate) type FileLook<'a> = Look<FileAt<'a>, Sha1Namer, Global>;

/// The file of a growing store, where that is one.
pub(crate) fn growing_file<'a>(
    run: &'a Run<'a>,
    file: &'a str,
) -> Result<Option<FileAt<'a>>, CliFault> {
    run.want_read(growing_at(Host::new(run, file), file))
}

/// Opens a file at a path of which the first line is a growing store's.
pub(crate) fn growing_at<'a>(host: Host<'a>, path: &str) -> io::Result<Option<FileAt<'a>>> {
    file_in_form(host, path, StoreForm::Growing)
}

/// Opens a file at a path of which the first line isn't a growing store's.
pub(crate) fn plain_at<'a>(host: Host<'a>, path: &str) -> io::Result<Option<FileAt<'a>>> {
    file_in_form(host, path, StoreForm::Plain)
}

/// Opens a file at a path whose text is of a form. A look comes first, since to open a pipe would wait.
fn file_in_form<'a>(host: Host<'a>, path: &str, form: StoreForm) -> io::Result<Option<FileAt<'a>>> {
    let mut host = host;
    if host.look(path)?.kind != FileKind::File {
        return Ok(None);
    }
    let opened = host.open(path)?;
    if host.look_at(&opened)?.kind != FileKind::File {
        return Ok(None);
    }
    let source = FileAt::read_only(host.run, opened);
    let mut front = [0; 10];
    match source.read_at(0, &mut front) {
        Ok(count) if form_of(&front[..count]) == form => Ok(Some(source)),
        _ => Ok(None),
    }
}

/// Looks into a growing store file that is open. Where it is damaged it is opened again, since another run may have been writing
/// its head.
pub(crate) fn look_into<'a>(
    run: &'a Run<'a>,
    file: &'a str,
    opened: FileAt<'a>,
) -> Result<FileLook<'a>, RunFault> {
    let mut look = Look::open(run.rt.alloc(), Sha1Namer, opened);
    for _look in 0..MOST_LOOKS {
        if !is_damaged(&look) {
            break;
        }
        if let Some(again) = growing_file(run, file)? {
            look = Look::open(run.rt.alloc(), Sha1Namer, again);
        }
    }
    Ok(look?)
}

/// How many rows the live runs of a growing store file have: as many as it has objects.
pub(crate) fn row_count(look: &FileLook<'_>) -> u64 {
    let runs = look.ending().runs.iter();
    runs.fold(0u64, |sum, run| sum.saturating_add(run.count))
}

/// Whether a growing store file has room for the rows that it tells. One that hasn't is damaged.
pub(crate) fn has_room_for_rows(look: &FileLook<'_>) -> bool {
    row_count(look) <= look.ending().ends / BYTES_OF_ROW
}

fn is_damaged<T>(look: &Result<T, LookFault>) -> bool {
    matches!(look, Err(LookFault::Damaged))
}

//! The texts that a repository is written as. Source: git-fast-export(1), git-archive(1), and this project's own
//! format.

ghost use Rattle.std.specs.Prelude.{map};
ghost use Rattle.gx_model.specs.Records.HistoryOf.{history_of};
ghost use Rattle.gx_rev.specs.Views.{shown_range};
ghost use Rattle.gx_archive.specs.Archives.{archive_of};
ghost use Rattle.gx_versions.specs.Versions.{text_in};
ghost use Rattle.gx_c.specs.Answers.{AnswersText};
ghost use Rattle.gx_c.specs.Written.{AnswersChanges, AnswersExport, AnswersRange, archive_answer};

use crate::answer::{Answer, Why};
use gx_archive::{ArchiveFault, archive};
use gx_export::{ExportFault, RangeFault, export, export_changes, export_range};
use gx_object::Namer;
use gx_repo::Repo;
use gx_rev::{Range, RevFault, Revision};
use gx_text::Growing;
use gx_versions::{StoreForm, send_store};
use std::alloc::Allocator;

/// The store text of the repository in a form: of version 2, or a growing text.
///
/// Refused for want of memory alone. Cost: that of `gx_versions::send_store`, and the text.
pub(crate) fn text<N: Namer, A: Allocator + Copy>(
    alloc: A,
    repo: &Repo<N, A>,
    form: StoreForm,
) -> Answer<A>
    ensures { AnswersText (Ok (text_in form repo.now.1)) result }
{
    let mut text = Growing::new(alloc);
    match send_store(alloc, repo, form, &mut text) {
        Ok(()) => Answer::given(text.into_bytes(), 0),
        Err(_) => Answer::refused(alloc, Why::Revision(RevFault::OutOfMemory), 0),
    }
}

/// The repository as a stream, each commit with all of its files.
///
/// Refused where a commit that refs reach has a header but that of an encoding, and for want of memory, also where the
/// text had more than 2^63 - 1 bytes. Cost: that of `gx_export::export`, and the text.
pub(crate) fn stream<N: Namer, A: Allocator + Copy>(alloc: A, repo: &Repo<N, A>) -> Answer<A>
    ensures { AnswersExport (history_of repo.now.1) result }
{
    let mut text = Growing::new(alloc);
    match export(alloc, repo, &mut text) {
        Ok(()) => Answer::given(text.into_bytes(), 0),
        Err(ExportFault::Unsupported) => Answer::refused(alloc, Why::Unsupported, 0),
        Err(_) => Answer::refused(alloc, Why::Revision(RevFault::OutOfMemory), 0),
    }
}

/// The repository as a stream, each commit by what differs from its first parent; where it is `closed` with `done` at
/// its end.
///
/// Refused as `stream` is. Cost: that of `gx_export::export_changes`, and the text.
pub(crate) fn changes<N: Namer, A: Allocator + Copy>(
    alloc: A,
    repo: &Repo<N, A>,
    closed: bool,
) -> Answer<A>
    ensures { AnswersChanges (N.name_of repo.now.0) (history_of repo.now.1) closed result }
{
    let mut text = Growing::new(alloc);
    match export_changes(alloc, repo, &mut text, closed) {
        Ok(()) => Answer::given(text.into_bytes(), 0),
        Err(ExportFault::Unsupported) => Answer::refused(alloc, Why::Unsupported, 0),
        Err(_) => Answer::refused(alloc, Why::Revision(RevFault::OutOfMemory), 0),
    }
}

/// The same of the commits that range words list.
///
/// Refused by the first word that gives nothing, with its number, and as `stream` is. Cost: that of
/// `gx_export::export_range`, and the text.
pub(crate) fn range<N: Namer, A: Allocator + Copy>(
    alloc: A,
    repo: &Repo<N, A>,
    words: &[Range<A>],
    closed: bool,
) -> Answer<A>
    ensures { AnswersRange (N.name_of repo.now.0) (history_of repo.now.1) closed
        (map shown_range words.now) result }
{
    let mut text = Growing::new(alloc);
    match export_range(alloc, repo, words, &mut text, closed) {
        Ok(()) => Answer::given(text.into_bytes(), 0),
        Err(RangeFault::Walk(fault)) => {
            Answer::refused(alloc, Why::Revision(fault.kind), fault.word as u64)
        }
        Err(RangeFault::Export(ExportFault::Unsupported)) => {
            Answer::refused(alloc, Why::Unsupported, 0)
        }
        Err(RangeFault::Export(_)) => {
            Answer::refused(alloc, Why::Revision(RevFault::OutOfMemory), 0)
        }
    }
}

/// The archive of what a text gives as a revision, with these bytes before each path.
///
/// Refused by the fault of the revision, and for want of memory. Cost: that of `gx_archive::archive`, and the archive.
pub(crate) fn tar<N: Namer, A: Allocator + Copy>(
    alloc: A,
    repo: &Repo<N, A>,
    revision: &[u8],
    prefix: &[u8],
) -> Answer<A>
    ensures { AnswersText (archive_answer (N.name_of repo.now.0) (history_of repo.now.1)
        revision.now prefix.now) result }
{
    match Revision::read(alloc, revision) {
        Ok(revision) => tar_of(alloc, repo, &revision, prefix),
        Err(fault) => Answer::refused(alloc, Why::Revision(fault), 0),
    }
}

fn tar_of<N: Namer, A: Allocator + Copy>(
    alloc: A,
    repo: &Repo<N, A>,
    revision: &Revision<A>,
    prefix: &[u8],
) -> Answer<A>
    ensures { AnswersText (archive_of (N.name_of repo.now.0) (history_of repo.now.1) revision.now
        prefix.now) result }
{
    let mut text = Growing::new(alloc);
    match archive(alloc, repo, revision, prefix, &mut text) {
        Ok(()) => Answer::given(text.into_bytes(), 0),
        Err(ArchiveFault::Revision(fault)) => Answer::refused(alloc, Why::Revision(fault), 0),
        Err(_) => Answer::refused(alloc, Why::Revision(RevFault::OutOfMemory), 0),
    }
}

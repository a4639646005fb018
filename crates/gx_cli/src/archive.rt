//! The archive of a revision's tree. Source: git-archive(1).

ghost use Rattle.gx_model.specs.Records.HistoryOf.{history_of};
ghost use Rattle.gx_archive.specs.Archives.{archive_of};
ghost use Rattle.gx_print.specs.Stored.{only_word};
ghost use Rattle.gx_cli.specs.Archived.{tar_text};
ghost use Rattle.gx_cli.specs.Answers.{Prints};

use crate::CliFault;
use crate::words::refused;
use gx_archive::archive;
use gx_object::Namer;
use gx_repo::Repo;
use gx_rev::Revision;
use gx_text::Sink;
use std::alloc::Allocator;

/// Writes the archive of the tree that a word gives as a revision, as it is made. The prefix stands before each path.
///
/// `Revision`: the word isn't a revision, or it gives no tree. Nothing goes out then. Cost and memory: those of
/// `gx_archive::archive`.
pub(crate) fn print_archive<N: Namer, A: Allocator + Copy, W: Sink>(
    alloc: A,
    repo: &Repo<N, A>,
    prefix: &[u8],
    word: &[u8],
    sink: &mut W,
) -> Result<(), CliFault>
    ensures { Prints (tar_text (N.name_of repo.now.0) prefix.now (history_of repo.now.1) word.now)
        (W.taken sink.old) (W.taken sink.new) result }
{
    match Revision::read(alloc, word) {
        Ok(revision) => archive_revision(alloc, repo, &revision, prefix, sink),
        Err(kind) => Err(refused(1, kind)),
    }
}

/// Writes the archive of a revision that was read.
fn archive_revision<N: Namer, A: Allocator + Copy, W: Sink>(
    alloc: A,
    repo: &Repo<N, A>,
    revision: &Revision<A>,
    prefix: &[u8],
    sink: &mut W,
) -> Result<(), CliFault>
    ensures { Prints (only_word
        (archive_of (N.name_of repo.now.0) (history_of repo.now.1) revision.now prefix.now))
        (W.taken sink.old) (W.taken sink.new) result }
{
    match archive(alloc, repo, revision, prefix, sink) {
        Ok(()) => Ok(()),
        Err(fault) => Err(CliFault::from(fault)),
    }
}

//! The archive of a revision's tree, printed. Source: git-archive(1).

ghost use Rattle.std.specs.Prelude.{◌≡◌};
ghost use Rattle.gx_model.specs.Records.HistoryOf.{history_of};
ghost use Rattle.gx_archive.specs.Archives.{archive_of};
ghost use Rattle.gx_print.specs.Stored.{only_word};
ghost use Rattle.gx_questions.specs.Answers.{IfTold};
ghost use Rattle.gx_told.specs.Archiving.{of_archive, tar_text};
ghost use Rattle.gx_told.specs.Printing.{Prints};

use crate::ToldFault;
use crate::words::refused;
use gx_archive::{AskedArchiveFault, archive_of_objects};
use gx_objects::Objects;
use gx_questions::AskFault;
use gx_rev::Revision;
use gx_text::Sink;
use std::alloc::Allocator;

/// Writes the archive of the tree that a word gives as a revision, as it is made, with this before each path.
///
/// `Revision`: the word isn't a revision, or it gives no tree. Nothing goes out then. Cost and memory: those of
/// `gx_archive::archive_of_objects`.
pub(crate) fn print_archive<O: Objects, A: Allocator + Copy, W: Sink>(
    alloc: A,
    objects: &O,
    prefix: &[u8],
    word: &[u8],
    sink: &mut W,
) -> Result<(), ToldFault>
    ensures { IfTold (O.told objects.now)
        (λ r. Prints (tar_text (O.name_of objects.now) prefix.now (history_of r) word.now)
        (W.taken sink.old) (W.taken sink.new)) result }
{
    match Revision::read(alloc, word) {
        Ok(revision) => archive_revision(alloc, objects, &revision, prefix, sink),
        Err(kind) => Err(refused(1, AskFault::from(kind))),
    }
}

/// Writes the archive of a revision that was read.
fn archive_revision<O: Objects, A: Allocator + Copy, W: Sink>(
    alloc: A,
    objects: &O,
    revision: &Revision<A>,
    prefix: &[u8],
    sink: &mut W,
) -> Result<(), ToldFault>
    ensures { IfTold (O.told objects.now) (λ r. Prints (only_word
        (archive_of (O.name_of objects.now) (history_of r) revision.now prefix.now))
        (W.taken sink.old) (W.taken sink.new)) result }
{
    match archive_of_objects(alloc, objects, revision, prefix, sink) {
        Ok(()) => Ok(()),
        Err(fault) => Err(ToldFault::from(fault)),
    }
}

impl From<AskedArchiveFault> for ToldFault {
    ghost from_gives = { λ fault told. told ≡ of_archive fault };

    fn from(fault: AskedArchiveFault) -> ToldFault {
        match fault {
            AskedArchiveFault::Revision(kind) => ToldFault::Revision { number: 1, kind },
            AskedArchiveFault::WriteFailed => ToldFault::WriteFailed,
            AskedArchiveFault::OutOfMemory => ToldFault::OutOfMemory,
            AskedArchiveFault::ReadFailed => ToldFault::StoreReadFailed,
            AskedArchiveFault::Damaged => ToldFault::Damaged,
        }
    }
}

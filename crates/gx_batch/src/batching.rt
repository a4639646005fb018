//! The lines of a source, each answered as a revision.

ghost use Rattle.gx_model.specs.Records.HistoryOf.{history_of};
ghost use Rattle.gx_batch.specs.Answers.{batch_answer};
ghost use Rattle.gx_batch.specs.Batches.{Answers};
ghost use Rattle.gx_batch.specs.Formats.{default_parts};
ghost use Rattle.gx_batch.specs.declared.ending.LineEnding.TheVariants.{Lf};

use crate::answers::answer_revision;
use crate::{Answerer, BatchFault, Format, LineEnding, answer_lines};
use gx_object::Namer;
use gx_repo::Repo;
use gx_text::{Sink, Source};
use std::alloc::Allocator;

/// Answers a line as a revision of a repository, as `answer_revision` does.
#[derive(Drop)]
pub struct Revisions<'a, N: Namer, A: Allocator> {
    /// The allocator that a revision's memory is taken of.
    pub alloc: A,
    /// The repository.
    pub repo: &'a Repo<N, A>,
    /// Whether an object is told by its line alone.
    pub check: bool,
    /// How the line of an object is made.
    pub format: &'a Format<A>,
}

impl<'a, N: Namer, A: Allocator + Copy> Answerer<A> for Revisions<'a, N, A> {
    ghost answer_to = { λ self. batch_answer (N.name_of self.repo.now.0) self.check
        self.format.now.parts.items (history_of self.repo.now.1) };

    fn answer<W: Sink>(
        &self,
        line: &[u8],
        buffer: &mut Vec<u8, A>,
        sink: &mut W,
    ) -> Result<(), BatchFault> {
        answer_revision(
            self.alloc,
            self.repo,
            self.check,
            self.format,
            line,
            buffer,
            sink,
        )
    }
}

/// Answers each line of a source as a revision, in the usual format: the object's name, kind and size in a line, and unless
/// `check` is asked for its bytes and an LF. Where it gives no object, the line itself is answered, and behind it `missing`, or
/// `ambiguous` where it abbreviates the names of several. A line ends with LF or CR LF. What stands behind the last LF is a line,
/// too, unless it is empty. Behind the path of a directory one `/` may stand, as in `main:docs/`.
///
/// Each answer goes out before more of the source is pulled than its line needs: at once where the object has less than 64 KiB.
///
/// `ReadFailed`: the source failed, or gave more than 2^63 - 1 bytes. The lines before were answered; one that was cut is not.
/// `WriteFailed`: the sink didn't take all of an answer. `OutOfMemory`: the answers before went out, and nothing of the next.
/// Cost: the bytes of the lines, however they are cut, that of `Revision::eval` for each, and what goes out. Memory: the
/// longest line, its revision or its answer, and two pieces of 64 KiB.
/// Source: git-cat-file(1), "BATCH OUTPUT", and what git 2.39 does with a CR and a `/`.
pub fn batch<N: Namer, R: Source + Drop, W: Sink, A: Allocator + Copy>(
    alloc: A,
    repo: &Repo<N, A>,
    check: bool,
    source: R,
    sink: &mut W,
) -> Result<(), BatchFault>
    ensures { Answers (batch_answer (N.name_of repo.now.0) check default_parts
        (history_of repo.now.1)) Lf
        (R.coming source) (W.taken sink.old) (W.taken sink.new) result }
{
    let format = Format::usual(alloc)?;
    let revisions = Revisions {
        alloc,
        repo,
        check,
        format: &format,
    };
    answer_lines(alloc, &revisions, LineEnding::Lf, source, sink)
}

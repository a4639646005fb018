//! Many questions to one store, a line each. Source: git-cat-file(1), "BATCH OUTPUT" and "--batch-command".

ghost use Rattle.gx_questions.specs.Answers.{IfTold};
ghost use Rattle.gx_told.specs.Batching.{AnswersBatch, SendsAnswer, line_answer};

mod commands;
mod revisions;

use crate::ToldFault;
use commands::answer_command;
use gx_asks::BatchForm;
use gx_batch::{Format, LineEnding, LineReader};
use gx_objects::Objects;
use gx_text::{Sink, Source};
use revisions::answer_revision;
use std::alloc::Allocator;

/// Answers each line of a source, which is a revision or a command. What stands behind the last line ending is a line, too, unless
/// it is empty. Each answer goes out before more of the source is pulled than its line needs.
///
/// `ReadFailed`: the source failed, or gave more than 2^63 - 1 bytes; the lines before were answered. `WriteFailed`: the sink
/// didn't take all of an answer. `OutOfMemory`, `StoreReadFailed`: the answers before went out, and nothing of the next. `Damaged`:
/// what the store holds is no repository's.
/// Cost: the bytes of the lines, that of `gx_questions::eval` for each, or of its command, and what goes out. Memory: the longest
/// line, and what an answer takes; of a revision its object, of a command what it prints.
pub fn batch<O: Objects, R: Source + Drop, W: Sink, A: Allocator + Copy>(
    alloc: A,
    objects: &O,
    form: BatchForm,
    format: &Format<A>,
    ending: LineEnding,
    source: R,
    sink: &mut W,
) -> Result<(), ToldFault>
    ensures { IfTold (O.told objects.now) (λ r. AnswersBatch
        (line_answer (O.name_of objects.now) form format.now.parts.items r) ending (R.coming source)
        (W.taken sink.old) (W.taken sink.new)) result }
{
    let mut lines = LineReader::new(alloc, source)?;
    let mut line = Vec::new(alloc);
    let mut room = Vec::new(alloc);
    let mut buffer = Vec::new(alloc);
    while lines.next(ending, &mut line)? {
        answer_line(
            alloc,
            objects,
            form,
            format,
            &line,
            &mut room,
            &mut buffer,
            sink,
        )?;
    }
    Ok(())
}

/// Sends what is answered to a line.
fn answer_line<O: Objects, W: Sink, A: Allocator + Copy>(
    alloc: A,
    objects: &O,
    form: BatchForm,
    format: &Format<A>,
    line: &[u8],
    room: &mut Vec<u8, A>,
    buffer: &mut Vec<u8, A>,
    sink: &mut W,
) -> Result<(), ToldFault>
    ensures { IfTold (O.told objects.now) (λ r. SendsAnswer
        (line_answer (O.name_of objects.now) form format.now.parts.items r line.now)
        (W.taken sink.old) (W.taken sink.new)) result }
{
    match form {
        BatchForm::Bytes => answer_revision(
            alloc, objects, false, format, line, room, buffer, sink,
        ),
        BatchForm::Check => answer_revision(alloc, objects, true, format, line, room, buffer, sink),
        BatchForm::Commands => answer_command(alloc, objects, format, line, room, buffer, sink),
    }
}

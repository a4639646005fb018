//! What answers lines, and the lines of a source, each answered before the next one is asked for.

ghost use Rattle.gx_model.specs.Texts.{Bytes};
ghost use Rattle.gx_batch.specs.Batches.{Answers, Sent};

use crate::lines::LineReader;
use crate::{BatchFault, LineEnding};
use gx_text::{Sink, Source};
use std::alloc::Allocator;

/// What answers lines.
pub trait Answerer<A: Allocator> {
    /// What is answered to a line.
    ghost answer_to: { Self → Bytes → Bytes };

    /// Sends the answer to a line. The buffer is room for its text: what stands in it is lost.
    ///
    /// `WriteFailed`: the sink didn't take all of the answer. `OutOfMemory`: nothing of it went out.
    fn answer<W: Sink>(
        &self,
        line: &[u8],
        buffer: &mut Vec<u8, A>,
        sink: &mut W,
    ) -> Result<(), BatchFault>
        ensures { Sent (answer_to self.now line.now) (W.taken sink.old) (W.taken sink.new) result };
}

/// Answers each line of a source. What stands behind the last line ending is a line, too, unless it is empty.
///
/// Each answer goes out before more of the source is pulled than its line needs.
///
/// `ReadFailed`: the source failed, or gave more than 2^63 - 1 bytes. The lines before were answered; one that was cut is not.
/// `WriteFailed`: the sink didn't take all of an answer. `OutOfMemory`: the answers before went out, and nothing of the next.
/// Cost: the bytes of the lines, however they are cut, and that of each answer. Memory: the longest line, what an answer takes,
/// and a piece of 64 KiB.
pub fn answer_lines<T: Answerer<A>, R: Source + Drop, W: Sink, A: Allocator + Copy>(
    alloc: A,
    answerer: &T,
    ending: LineEnding,
    source: R,
    sink: &mut W,
) -> Result<(), BatchFault>
    ensures { Answers (T.answer_to answerer.now) ending
        (R.coming source) (W.taken sink.old) (W.taken sink.new) result }
{
    let mut lines = LineReader::new(alloc, source)?;
    let mut line = Vec::new(alloc);
    let mut buffer = Vec::new(alloc);
    while lines.next(ending, &mut line)? {
        answerer.answer(&line, &mut buffer, sink)?;
    }
    Ok(())
}

//! The lines that a source gives.

ghost use Rattle.std.specs.Prelude.{◌≡◌, ◌<◌, ◌≤◌, ◌+◌, [], length, slice_range, IfOk, IsErrOf, OnErr};
ghost use Rattle.std.specs.Option.{option_map};
ghost use Rattle.std.specs.Io.BufRead.{strip_last};
ghost use Rattle.gx_batch.specs.Lines.{trimmed};
ghost use Rattle.gx_batch.specs.Batches.{GivesLines};
ghost use Rattle.gx_batch.specs.Reading.{Falls, IsSound, Reads, TakesPart, most, rest_of, shown_from};
ghost use Rattle.gx_batch.specs.declared.fault.BatchFault.TheVariants.{OutOfMemory};
ghost use Rattle.gx_stream.specs.Heard.{heard};
ghost use Rattle.gx_stream.specs.Pulled.{Passes, pulls_left};
ghost use Rattle.gx_stream.specs.declared.pulls.SourceState.TheVariants.{Open};

use crate::{BatchFault, LineEnding};
use gx_stream::{LIMIT, SourceState, pull_piece};
use gx_text::{PIECE, Source, cut};
use std::alloc::{AllocError, Allocator};

/// A reader of lines. What came and isn't read yet stands in the piece, between `at` and `end`; at most `room` bytes may
/// still come.
#[derive(Drop)]
pub struct LineReader<R: Source, A: Allocator> {
    source: R,
    piece: Vec<u8, A>,
    at: usize,
    end: usize,
    room: usize,
    state: SourceState,
}

impl<R: Source + Drop, A: Allocator + Copy> LineReader<R, A> {
    /// A reader of all the lines of a source. Nothing is pulled yet. Memory: one piece.
    pub fn new(alloc: A, source: R) -> Result<LineReader<R, A>, AllocError>
        ensures sound { IfOk result IsSound }
        ensures seen { IfOk result
            (λ reader. shown_from R.coming reader ≡ option_map heard (R.coming source)) }
    {
        let mut piece = Vec::new(alloc);
        piece.resize(PIECE, 0)?;
        Ok(LineReader {
            source,
            piece,
            at: 0,
            end: 0,
            room: LIMIT,
            state: SourceState::Open,
        })
    }

    /// Reads the next line, without its ending. Answers whether there is one: what stands behind the last ending is one where
    /// the source ends, unless it is empty. After `false` and after a fault it is over.
    ///
    /// `ReadFailed`: the source failed. `OutOfMemory`: what came has no room in the line; a failed read is never told so.
    ///
    /// Cost: the line's bytes. Memory: the longest line.
    pub fn next(&mut self, ending: LineEnding, line: &mut Vec<u8, A>) -> Result<bool, BatchFault>
        requires { IsSound self.old }
        ensures sound { IsSound self.new }
        ensures reads { Reads ending
            (shown_from R.coming self.old) (shown_from R.coming self.new) line.new.items result }
        ensures falls { Falls (most self.old) (most self.new) result }
        ensures memory { IsErrOf result OutOfMemory → 0 < length (rest_of self.new) }
    {
        let byte = ending.byte();
        line.clear();
        loop {
            if take_part(byte, &self.piece, &mut self.at, self.end, line)? {
                trim(ending, line);
                return Ok(true);
            }
            match self.state {
                SourceState::Open => self.pull(),
                SourceState::Ended => return Ok(!line.is_empty()),
                SourceState::Failed => return Err(BatchFault::ReadFailed),
            }
        }
    }

    /// Pulls one piece, where all is read that came.
    fn pull(&mut self)
        requires sound { IsSound self.old }
        requires open { self.old.state ≡ Open }
        requires read { rest_of self.old ≡ [] }
        ensures sound { IsSound self.new }
        ensures keeps { Passes [] (shown_from R.coming self.old) (shown_from R.coming self.new) }
        ensures most { most self.new ≤ most self.old }
        ensures fewer { pulls_left self.new.state self.new.room
            < pulls_left self.old.state self.old.room }
    {
        let (state, count) = pull_piece(&mut self.source, &mut self.piece, &mut self.room);
        self.state = state;
        self.at = 0;
        self.end = count;
    }
}

/// Reads all the lines of a source, without their endings. What stands behind the last ending is a line, too, unless it is empty.
///
/// `ReadFailed`: the source failed, or gave more than 2^63 - 1 bytes. `OutOfMemory`: a growth was refused.
/// Cost: the bytes of the lines, however they are cut. Memory: the lines, the longest one again, and a piece of 64 KiB.
pub fn read_lines<R: Source + Drop, A: Allocator + Copy>(
    alloc: A,
    ending: LineEnding,
    source: R,
) -> Result<Vec<Vec<u8, A>, A>, BatchFault>
    ensures { GivesLines ending (R.coming source) result }
{
    let mut reader = LineReader::new(alloc, source)?;
    let mut lines = Vec::new(alloc);
    let mut line = Vec::new(alloc);
    while reader.next(ending, &mut line)? {
        lines.push(Vec::from_slice(alloc, &line)?)?;
    }
    Ok(lines)
}

/// Appends what stands before the next such byte, and moves behind it, or appends all that is left. Answers whether there is
/// one. A growth is refused only where something is left, and nothing is passed then.
fn take_part<A: Allocator>(
    byte: u8,
    piece: &[u8],
    at: &mut usize,
    end: usize,
    line: &mut Vec<u8, A>,
) -> Result<bool, AllocError>
    requires { (at.old ≤ end) × (end ≤ length piece.now) }
    ensures within { at.new ≤ end }
    ensures takes { IfOk result (TakesPart byte
        (slice_range piece.now at.old end) (slice_range piece.now at.new end)
        line.old.items line.new.items) }
    ensures refused { OnErr result (0 < length (slice_range piece.now at.old end)) }
    ensures stays { OnErr result (at.new ≡ at.old) }
{
    let rest = &piece[*at..end];
    match cut(rest, byte) {
        Some((front, after)) => {
            line.extend_from_slice(front)?;
            *at = end - after.len();
            Ok(true)
        }
        None => {
            line.extend_from_slice(rest)?;
            *at = end;
            Ok(false)
        }
    }
}

/// Takes from a line what belongs to its ending: a CR, where it ends with LF.
fn trim<A: Allocator>(ending: LineEnding, line: &mut Vec<u8, A>)
    ensures { line.new.items ≡ trimmed ending line.old.items }
{
    match ending {
        LineEnding::Lf => drop_cr(line),
        LineEnding::Nul => {}
    }
}

/// Takes a CR from a line's end.
fn drop_cr<A: Allocator>(line: &mut Vec<u8, A>)
    ensures { line.new.items ≡ strip_last 13 line.old.items }
{
    let count = line.len();
    if count > 0 && line[count - 1] == b'\r' {
        line.truncate(count - 1);
    }
}

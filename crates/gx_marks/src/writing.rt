//! Writing marks. Source: git-fast-import(1), "--export-marks".

ghost use Rattle.gx_marks.specs.Marks.{mark_line, marks_text};
ghost use Rattle.gx_marks.specs.Sending.{Sent, SendsParts};
ghost use Rattle.gx_marks.specs.Shown.{shown_mark, shown_marks};

use crate::Mark;
use gx_text::{Failed, Sink, send};
use itoa::Buffer;

/// Sends the text of marks, a line each in their order. In git's files they stand in the order of their numbers.
///
/// `Failed` where the sink fails. What it took is a front of the text.
/// Cost: the text, in five pushes a mark where the sink takes what it is given. Takes no memory.
/// Source: git-fast-import(1), "--export-marks".
pub fn write_marks<W: Sink>(marks: &[Mark], sink: &mut W) -> Result<(), Failed>
    ensures { Sent (marks_text (shown_marks marks.now)) (W.taken sink.old)
        (W.taken sink.new) result }
{
    for mark in marks {
        write_mark(*mark, sink)?;
    }
    Ok(())
}

/// Sends the line of a mark.
fn write_mark<W: Sink>(mark: Mark, sink: &mut W) -> Result<(), Failed>
    ensures { Sent (mark_line (shown_mark mark)) (W.taken sink.old) (W.taken sink.new) result }
{
    let mut number = Buffer::new();
    let digits = mark.name.hex();
    send_all(
        sink,
        &[
            b":".as_slice(),
            number.format(mark.number).as_bytes(),
            b" ",
            digits.as_slice(),
            b"\n",
        ],
    )
}

/// Sends these texts, one after the other.
fn send_all<W: Sink>(sink: &mut W, parts: &[&[u8]]) -> Result<(), Failed>
    ensures { SendsParts W.taken parts.now sink.old sink.new result }
{
    for part in parts {
        send_text(sink, part)?;
    }
    Ok(())
}

/// Sends a text.
fn send_text<W: Sink>(sink: &mut W, text: &[u8]) -> Result<(), Failed>
    ensures { Sent text.now (W.taken sink.old) (W.taken sink.new) result }
{
    match send(sink, text) {
        Ok(()) => Ok(()),
        Err(_) => Err(Failed),
    }
}

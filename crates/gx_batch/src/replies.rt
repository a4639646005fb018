//! Replies to lines: a line, with a text behind it or without one.

ghost use Rattle.std.specs.Prelude.{◌≡◌, ◌≤◌, ◌∷◌, ◌++◌, [], length, IfErr, OnOk};
ghost use Rattle.gx_model.specs.Objects.{line};
ghost use Rattle.gx_batch.specs.Batches.{Sent};
ghost use Rattle.gx_batch.specs.declared.fault.BatchFault.TheVariants.{WriteFailed};

use crate::BatchFault;
use gx_text::{Sink, send};
use std::alloc::{AllocError, Allocator};

/// A text of fewer bytes goes out at once with its line.
const SMALL: usize = 0x1_0000;

/// Makes a line of two texts, with a space between them, in place of what the buffer has.
///
/// Cost: the texts' lengths. Memory: the line.
pub fn make_line<A: Allocator>(
    front: &[u8],
    behind: &[u8],
    buffer: &mut Vec<u8, A>,
) -> Result<(), AllocError>
    ensures { OnOk result (buffer.new.items ≡ line front.now behind.now) }
{
    buffer.clear();
    buffer.extend_from_slice(front)?;
    buffer.push(b' ')?;
    buffer.extend_from_slice(behind)?;
    Ok(buffer.push(b'\n')?)
}

/// Sends a text, and behind it why it isn't answered otherwise. The buffer is room for the line: what stands in it is lost.
///
/// `WriteFailed`: the sink didn't take all of the line. `OutOfMemory`: nothing of it went out. Cost: the line's length.
pub fn refuse<W: Sink, A: Allocator>(
    text: &[u8],
    why: &[u8],
    buffer: &mut Vec<u8, A>,
    sink: &mut W,
) -> Result<(), BatchFault>
    ensures { Sent (line text.now why.now) (W.taken sink.old) (W.taken sink.new) result }
{
    make_line(text, why, buffer)?;
    put(sink, buffer)
}

/// Sends the line that stands in a buffer, a text behind it and an LF: at once where the text has less than 64 KiB. A longer one
/// takes no memory. What stands in the buffer is lost.
///
/// `WriteFailed`: the sink didn't take all of it. `OutOfMemory`: nothing of it went out.
/// Cost: what goes out. Memory: what goes out at once.
pub fn put_behind<W: Sink, A: Allocator>(
    text: &[u8],
    buffer: &mut Vec<u8, A>,
    sink: &mut W,
) -> Result<(), BatchFault>
    ensures sent { Sent (buffer.old.items ++ (text.now ++ 10 ∷ []))
        (W.taken sink.old) (W.taken sink.new) result }
    ensures memory { 65_536 ≤ length text.now → IfErr result (λ fault. fault ≡ WriteFailed) }
{
    if text.len() < SMALL {
        buffer.extend_from_slice(text)?;
        buffer.push(b'\n')?;
        put(sink, buffer)
    } else {
        put_parts(sink, buffer, text)
    }
}

/// Sends a line, a text and an LF, one after the other. Takes no memory.
fn put_parts<W: Sink>(sink: &mut W, line: &[u8], text: &[u8]) -> Result<(), BatchFault>
    ensures sent { Sent (line.now ++ (text.now ++ 10 ∷ []))
        (W.taken sink.old) (W.taken sink.new) result }
    ensures memory { IfErr result (λ fault. fault ≡ WriteFailed) }
{
    put(sink, line)?;
    put(sink, text)?;
    put(sink, b"\n")
}

/// Sends a text. Takes no memory.
pub(crate) fn put<W: Sink>(sink: &mut W, text: &[u8]) -> Result<(), BatchFault>
    ensures sent { Sent text.now (W.taken sink.old) (W.taken sink.new) result }
    ensures memory { IfErr result (λ fault. fault ≡ WriteFailed) }
{
    match send(sink, text) {
        Ok(()) => Ok(()),
        Err(_) => Err(BatchFault::WriteFailed),
    }
}

//! Texts that go out to a sink.

ghost use Rattle.gx_told.specs.Printing.{Sent};

use crate::ToldFault;
use gx_text::{Sink, send};

/// Sends a text. Takes no memory.
pub(crate) fn put_text<W: Sink>(sink: &mut W, text: &[u8]) -> Result<(), ToldFault>
    ensures { Sent text.now (W.taken sink.old) (W.taken sink.new) result }
{
    match send(sink, text) {
        Ok(()) => Ok(()),
        Err(_) => Err(ToldFault::WriteFailed),
    }
}

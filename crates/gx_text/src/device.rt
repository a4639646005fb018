//! What gives bytes and what takes them.

ghost use Rattle.std.specs.Prelude.{◌≡◌, ◌<◌, ◌≤◌, length, Option, IfOk, IfErr};
ghost use Rattle.gx_model.specs.Texts.Sinks.{Taken, Sends};
ghost use Rattle.gx_text.specs.Devices.{Coming, Pulls, Pushes};

/// How many bytes a pull asks for, where nothing else is wanted.
pub const PIECE: usize = 0x1_0000;

/// A device didn't do what it was asked.
#[derive(Clone, Copy, Debug, PartialEq, Eq, Drop)]
pub struct Failed;

/// What gives bytes.
pub trait Source {
    /// What it will still give, where that is known.
    ghost coming: { Self → Option Coming };

    /// Writes the next bytes to the front of the buffer, and answers how many: at least one, and none at the end.
    /// `Failed` follows the last byte of a source that has no end. Takes no memory.
    fn pull(&mut self, buffer: &mut [u8]) -> Result<usize, Failed>
        requires nonempty { 0 < length buffer.old }
        ensures bound { IfOk result (λ n. n ≤ length buffer.new) }
        ensures bytes { Pulls (coming self.old) (coming self.new) buffer.new result };
}

/// What takes bytes.
pub trait Sink {
    /// What it holds, where that is known.
    ghost taken: { Self → Option Taken };

    /// Takes bytes from the front, at least one, and answers how many.
    /// Once it has failed it takes none and answers `Failed` each time. Takes no memory.
    fn push(&mut self, bytes: &[u8]) -> Result<usize, Failed>
        requires nonempty { 0 < length bytes.now }
        ensures bound { IfOk result (λ n. n ≤ length bytes.now) }
        ensures some { IfOk result (λ n. 0 < n) }
        ensures bytes { Pushes (taken self.old) (taken self.new) bytes.now result };
}

/// Pushes all the bytes, or answers how many were taken before the sink failed: none by a sink that had failed before.
///
/// Cost: one push per piece that the sink takes. Takes no memory.
pub fn send<W: Sink>(sink: &mut W, bytes: &[u8]) -> Result<(), usize>
    ensures bytes { Sends (W.taken sink.old) (W.taken sink.new) bytes.now result }
    ensures bound { IfErr result (λ n. n < length bytes.now) }
{
    let mut sent = 0;
    while sent < bytes.len() {
        match sink.push(&bytes[sent..]) {
            Ok(count) => sent += count,
            Err(Failed) => return Err(sent),
        }
    }
    Ok(())
}

//! Devices over the readers and writers of the system, which tell no bytes.

ghost use Rattle.std.specs.Prelude.{◌≡◌, ◌<◌, ◌≤◌, ◌↔◌, length, None, IfOk, IsErr, IsTrue, false};
ghost use Rattle.std.specs.Io.KnownBytes.{ReadConsumes, WriteAppends};
ghost use Rattle.gx_text.specs.Devices.{Pulls, Pushes};

use crate::device::{Failed, Sink, Source};
use std::io::{ErrorKind, Read, Write};

/// How often a call that a signal interrupted is tried, before it counts as failed.
const MOST_TRIES: u32 = 1000;

/// A reader as a source. A call that a signal interrupts is tried again, at most so often that every pull ends.
/// Once a read has failed nothing is read any more.
#[derive(Drop)]
pub struct FromRead<R> {
    reader: R,
    failed: bool,
}

impl<R: Read> FromRead<R> {
    /// A source that gives what the reader reads. Takes no memory.
    pub fn new(reader: R) -> FromRead<R>
        ensures reader { result.reader ≡ reader }
        ensures works { result.failed ≡ false }
    {
        FromRead {
            reader,
            failed: false,
        }
    }
}

impl<R: Read> Source for FromRead<R> {
    ghost coming = { λ _. None };

    fn pull(&mut self, buffer: &mut [u8]) -> Result<usize, Failed>
        requires nonempty { 0 < length buffer.old }
        ensures bound { IfOk result (λ n. n ≤ length buffer.new) }
        ensures bytes { Pulls None None buffer.new result }
        ensures read { ReadConsumes
            (R.remaining self.old.reader) (R.remaining self.new.reader) result buffer.new }
        ensures fails { IsErr result ↔ IsTrue self.new.failed }
        ensures stays { IsTrue self.old.failed → IsTrue self.new.failed }
        ensures unread { IsTrue self.old.failed → self.new.reader ≡ self.old.reader }
    {
        if self.failed {
            return Err(Failed);
        }
        let read = read_tried(&mut self.reader, buffer);
        self.failed = read.is_err();
        read
    }
}

/// A writer as a sink. A call that a signal interrupts is tried again, as a `FromRead` does.
/// Once a write has failed nothing is written any more.
#[derive(Drop)]
pub struct IntoWrite<W> {
    writer: W,
    failed: bool,
}

impl<W: Write> IntoWrite<W> {
    /// A sink that writes what it takes. Takes no memory.
    pub fn new(writer: W) -> IntoWrite<W>
        ensures writer { result.writer ≡ writer }
        ensures works { result.failed ≡ false }
    {
        IntoWrite {
            writer,
            failed: false,
        }
    }
}

impl<W: Write> Sink for IntoWrite<W> {
    ghost taken = { λ _. None };

    fn push(&mut self, bytes: &[u8]) -> Result<usize, Failed>
        requires nonempty { 0 < length bytes.now }
        ensures bound { IfOk result (λ n. n ≤ length bytes.now) }
        ensures some { IfOk result (λ n. 0 < n) }
        ensures bytes { Pushes None None bytes.now result }
        ensures written { WriteAppends
            (W.contents self.old.writer) (W.contents self.new.writer) result bytes.now }
        ensures fails { IsErr result ↔ IsTrue self.new.failed }
        ensures stays { IsTrue self.old.failed → IsTrue self.new.failed }
        ensures unwritten { IsTrue self.old.failed → self.new.writer ≡ self.old.writer }
    {
        if self.failed {
            return Err(Failed);
        }
        let written = write_tried(&mut self.writer, bytes);
        self.failed = written.is_err();
        written
    }
}

/// Reads, in so many tries as that takes.
fn read_tried<R: Read>(reader: &mut R, buffer: &mut [u8]) -> Result<usize, Failed>
    ensures bound { IfOk result (λ n. n ≤ length buffer.new) }
    ensures read { ReadConsumes (R.remaining reader.old)
        (R.remaining reader.new) result buffer.new }
{
    for _try in 0..MOST_TRIES {
        match reader.read(buffer) {
            Ok(count) => return Ok(count),
            Err(error) if error.kind() == ErrorKind::Interrupted => {}
            Err(_) => return Err(Failed),
        }
    }
    Err(Failed)
}

/// Writes, in so many tries as that takes. A writer that takes nothing has failed.
fn write_tried<W: Write>(writer: &mut W, bytes: &[u8]) -> Result<usize, Failed>
    ensures bound { IfOk result (λ n. n ≤ length bytes.now) }
    ensures some { IfOk result (λ n. 0 < n) }
    ensures written { WriteAppends (W.contents writer.old)
        (W.contents writer.new) result bytes.now }
{
    for _try in 0..MOST_TRIES {
        match writer.write(bytes) {
            Ok(0) => return Err(Failed),
            Ok(count) => return Ok(count),
            Err(error) if error.kind() == ErrorKind::Interrupted => {}
            Err(_) => return Err(Failed),
        }
    }
    Err(Failed)
}

//! How far a long command is, on a terminal: one line of standard error, which is written anew as bytes go by.

use super::devices::Noted;
use crate::run::Run;
use std::cell::Cell;
use std::io::{self, IsTerminal, Stdout, Write};
use std::time::Instant;

/// So many milliseconds the line stands at least.
const PERIOD: u128 = 100;

/// The line, which is there or isn't. Nothing hangs on whether the terminal takes it.
#[derive(Drop)]
pub(crate) struct ProgressLine<'a> {
    run: &'a Run<'a>,
    bytes: Cell<u64>,
    /// When it was written last, or could have been; nothing where it isn't to be seen.
    last: Cell<Option<Instant>>,
    is_shown: Cell<bool>,
}

impl<'a> ProgressLine<'a> {
    /// The line of no bytes, which is to be seen where standard error is a terminal and there is a clock.
    pub(crate) fn new(run: &'a Run<'a>) -> ProgressLine<'a> {
        let last = if run.is_watched() {
            Instant::now(run.rt).ok()
        } else {
            None
        };
        ProgressLine {
            run,
            bytes: Cell::new(0),
            last: Cell::new(last),
            is_shown: Cell::new(false),
        }
    }

    /// Counts bytes, and shows how many there are where the line stood long enough.
    pub(crate) fn add(&self, count: usize) {
        let bytes = self.bytes.get().saturating_add(count as u64);
        self.bytes.set(bytes);
        if let Some(now) = self.due() {
            self.last.set(Some(now));
            self.show(bytes);
        }
    }

    /// The time, if the line is to be written anew by now.
    fn due(&self) -> Option<Instant> {
        let last = self.last.get()?;
        let now = Instant::now(self.run.rt).ok()?;
        if now.duration_since(last).as_millis() >= PERIOD {
            Some(now)
        } else {
            None
        }
    }

    fn show(&self, bytes: u64) {
        let tenths = bytes / 100_000;
        let (whole, tenth) = (tenths / 10, tenths % 10);
        let _ = eprint!(self.run.rt; "\rgx: {whole}.{tenth} MB\x1b[K");
        self.is_shown.set(true);
    }

    /// Takes the line away, if it is there.
    pub(crate) fn clear(&self) {
        if self.is_shown.get() {
            let _ = eprint!(self.run.rt; "\r\x1b[K");
            self.is_shown.set(false);
        }
    }
}

/// Standard output. Where it is a terminal, the line goes before anything is written, since it may stand there.
#[derive(Drop)]
pub(crate) struct Beside<'a> {
    line: &'a ProgressLine<'a>,
    output: Noted<'a, Stdout>,
    is_terminal: bool,
    /// So many of the next bytes went out before.
    sent: usize,
}

impl<'a> Beside<'a> {
    pub(crate) fn new(line: &'a ProgressLine<'a>) -> Beside<'a> {
        Beside::behind(line, 0)
    }

    /// That on which so many of the bytes that are to be written stand already.
    pub(crate) fn behind(line: &'a ProgressLine<'a>, sent: usize) -> Beside<'a> {
        Beside {
            line,
            output: Noted::output(line.run),
            is_terminal: line.run.rt.stdout().is_terminal(),
            sent,
        }
    }
}

impl Write for Beside<'_> {
    fn write(&mut self, buf: &[u8]) -> io::Result<usize> {
        let before = self.sent.min(buf.len());
        if before > 0 {
            self.sent -= before;
            return Ok(before);
        }
        if self.is_terminal {
            self.line.clear();
        }
        self.output.write(buf)
    }

    fn flush(&mut self) -> io::Result<()> {
        self.output.flush()
    }
}

//! The standard streams, whose failures are kept as the cause of a refusal.

use super::progress::ProgressLine;
use crate::run::{Run, Subject};
use gx_cli::CliFault;
use std::fs::File;
use std::io::{self, BufWriter, ErrorKind, IsTerminal, Read, Stdin, Stdout, Write};
use std::os::fd::AsRawFd;

/// The number of standard input.
const INPUT: i32 = 0;

/// A run that begins with a standard stream closed would give its number to the first file that it opens, and print into that.
/// So the three numbers are taken before, by files that nothing is read from and nothing is written to: what is tried there fails.
/// Where the streams are open, these are three others.
pub(crate) fn hold_standard_streams(rt: &HostRuntime) -> [io::Result<File>; 3] {
    [hold_next(rt), hold_next(rt), hold_next(rt)]
}

/// Takes the lowest number that is free.
fn hold_next(rt: &HostRuntime) -> io::Result<File> {
    let unread = File::options().write(true).open(rt, "/dev/null")?;
    if unread.as_raw_fd() == INPUT {
        return Ok(unread);
    }
    drop(unread);
    File::open(rt, "/dev/null")
}

/// A reader or a writer of the system. What it couldn't do is kept, and its bytes are counted where they are to be shown.
#[derive(Drop)]
pub(crate) struct Noted<'a, D> {
    device: D,
    run: &'a Run<'a>,
    subject: Subject,
    progress: Option<&'a ProgressLine<'a>>,
}

impl<'a> Noted<'a, Stdin> {
    /// Standard input.
    pub(crate) fn input(run: &'a Run<'a>) -> Noted<'a, Stdin> {
        Noted::new(run, Subject::Input, run.rt.stdin())
    }
}

impl<'a> Noted<'a, Stdout> {
    /// Standard output.
    pub(crate) fn output(run: &'a Run<'a>) -> Noted<'a, Stdout> {
        Noted::new(run, Subject::Output, run.rt.stdout())
    }
}

impl<'a, D> Noted<'a, D> {
    /// A device for this subject.
    pub(crate) fn new(run: &'a Run<'a>, subject: Subject, device: D) -> Noted<'a, D> {
        Noted {
            device,
            run,
            subject,
            progress: None,
        }
    }

    /// Keeps why a call failed. One that a signal interrupted has not failed: it is made again.
    pub(crate) fn note(&self, error: io::Error) {
        if error.kind() != ErrorKind::Interrupted {
            self.run.note(self.subject, error);
        }
    }

    /// Keeps why a call failed that moves bytes, or counts them.
    fn note_moved(&self, answer: &io::Result<usize>) {
        match (answer, self.progress) {
            (Ok(count), Some(progress)) => progress.add(*count),
            (Ok(_), None) => {}
            (Err(error), _) => self.note(*error),
        }
    }
}

impl<'a, D: IsTerminal> Noted<'a, D> {
    /// The same, where a line shows how many bytes went by, unless they are typed or printed at a terminal.
    pub(crate) fn shown_by(mut self, progress: &'a ProgressLine<'a>) -> Noted<'a, D> {
        if !self.device.is_terminal() {
            self.progress = Some(progress);
        }
        self
    }
}

impl<D: Read> Read for Noted<'_, D> {
    fn read(&mut self, buf: &mut [u8]) -> io::Result<usize> {
        let answer = self.device.read(buf);
        self.note_moved(&answer);
        answer
    }
}

impl<D: Write> Write for Noted<'_, D> {
    fn write(&mut self, buf: &[u8]) -> io::Result<usize> {
        let answer = self.device.write(buf);
        self.note_moved(&answer);
        answer
    }

    fn flush(&mut self) -> io::Result<()> {
        let answer = self.device.flush();
        if let Err(error) = &answer {
            self.note(*error);
        }
        answer
    }
}

/// Lines that fail where the last one has no LF, as where the program that writes them was cut off.
#[derive(Drop)]
pub(crate) struct WholeLines<D> {
    device: D,
    is_in_line: bool,
}

impl<D> WholeLines<D> {
    /// The lines of a device.
    pub(crate) fn new(device: D) -> WholeLines<D> {
        WholeLines {
            device,
            is_in_line: false,
        }
    }
}

impl<D: Read> Read for WholeLines<D> {
    fn read(&mut self, buf: &mut [u8]) -> io::Result<usize> {
        let count = self.device.read(buf)?;
        if count > 0 {
            self.is_in_line = buf[count - 1] != b'\n';
            return Ok(count);
        }
        if self.is_in_line {
            return Err(io::Error::from(ErrorKind::UnexpectedEof));
        }
        Ok(0)
    }
}

/// What a command answers once its buffer is flushed, also where it is refused: its own fault comes first.
pub(crate) fn flushed<T: Drop, F: From<CliFault>, W: Write + Drop>(
    out: &mut BufWriter<W>,
    answer: Result<T, F>,
) -> Result<T, F> {
    let is_flushed = out.flush().is_ok();
    match answer {
        Ok(_) if !is_flushed => Err(F::from(CliFault::WriteFailed)),
        answer => answer,
    }
}

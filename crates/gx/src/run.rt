//! One run of the program: the system that it runs on, and why it couldn't do what it was asked.

use crate::fault::RunFault;
use gx_cli::{CliFault, printed_path};
use gx_place::{Patience, PlaceFault};
use std::alloc::AllocError;
use std::cell::Cell;
use std::io::{self, ErrorKind, IsTerminal, Write};

/// From so many bytes on a store without tables is told to be large.
const LARGE: u64 = 100_000_000;

/// What a call of the system was about.
#[derive(Clone, Copy, PartialEq, Eq)]
pub(crate) enum Subject {
    Store,
    /// A store file that may have what was appended to it.
    Unsettled,
    NextText,
    Folder,
    Input,
    Output,
    /// A file that an option names.
    Told,
}

impl From<gx_place::Subject> for Subject {
    fn from(subject: gx_place::Subject) -> Subject {
        match subject {
            gx_place::Subject::Store => Subject::Store,
            gx_place::Subject::NextText => Subject::NextText,
            gx_place::Subject::Folder => Subject::Folder,
        }
    }
}

/// How an import is done, where that is asked for.
#[derive(Clone, Copy, PartialEq, Eq)]
pub(crate) enum Way {
    /// Over all of the store file.
    Whole,
    /// Over a small repository, or not at all.
    Small,
}

/// Why a call of the system failed.
#[derive(Clone, Copy)]
struct Cause {
    subject: Subject,
    error: io::Error,
}

/// The system, and the last failure of its calls.
#[derive(Drop)]
pub(crate) struct Run<'a> {
    pub(crate) rt: &'a HostRuntime,
    way: Option<Way>,
    explains: Cell<bool>,
    explanation: Cell<Option<Vec<u8>>>,
    cause: Cell<Option<Cause>>,
    has_told_wait: Cell<bool>,
    patience: Cell<Patience>,
}

impl<'a> Run<'a> {
    /// A run of which nothing has failed. It tells the causes of failures where it is asked to, or where somebody reads them as they
    /// come.
    pub(crate) fn new(rt: &'a HostRuntime, explains: bool) -> Run<'a> {
        Run {
            rt,
            way: None,
            explains: Cell::new(explains || rt.stderr().is_terminal()),
            explanation: Cell::new(None),
            cause: Cell::new(None),
            has_told_wait: Cell::new(false),
            patience: Cell::new(Patience::endless()),
        }
    }

    /// The same run, whose imports are done in this way, where one is asked for.
    pub(crate) fn by_way(mut self, way: Option<Way>) -> Run<'a> {
        self.way = way;
        self
    }

    /// How imports are done, where that is asked for.
    pub(crate) fn way(&self) -> Option<Way> {
        self.way
    }

    /// Whether somebody reads standard error as it comes.
    pub(crate) fn is_watched(&self) -> bool {
        self.rt.stderr().is_terminal()
    }

    /// Whether a refusal is to be explained.
    pub(crate) fn explains(&self) -> bool {
        self.explains.get()
    }

    /// Asks for the explanation of a refusal, where a command's option does.
    pub(crate) fn explain_if(&self, is_asked: bool) {
        if is_asked {
            self.explains.set(true);
        }
    }

    /// Keeps the lines that explain why a stream is refused, should that be told.
    pub(crate) fn explain(&self, lines: Vec<u8>) {
        self.explanation.set(Some(lines));
    }

    /// Keeps why a call failed, in place of what was kept before.
    pub(crate) fn note(&self, subject: Subject, error: io::Error) {
        self.cause.set(Some(Cause { subject, error }));
    }

    /// What a call of the system answers that writes, or is there to write. Why it failed is kept.
    pub(crate) fn want_written<T>(
        &self,
        subject: Subject,
        answer: io::Result<T>,
    ) -> Result<T, CliFault> {
        match answer {
            Ok(value) => Ok(value),
            Err(error) => {
                self.note(subject, error);
                Err(CliFault::WriteFailed)
            }
        }
    }

    /// The same of one that reads a store file.
    pub(crate) fn want_read<T>(&self, answer: io::Result<T>) -> Result<T, CliFault> {
        match answer {
            Ok(value) => Ok(value),
            Err(error) if error.kind() == ErrorKind::OutOfMemory => Err(CliFault::OutOfMemory),
            Err(error) => {
                self.note(Subject::Store, error);
                Err(CliFault::ReadFailed)
            }
        }
    }

    /// What comes of a store file's place. Why it isn't read or written is kept.
    pub(crate) fn placed<T>(&self, answer: Result<T, PlaceFault>) -> Result<T, RunFault> {
        match answer {
            Ok(value) => Ok(value),
            Err(PlaceFault::Exists) => Err(RunFault::Command(CliFault::StoreExists)),
            Err(PlaceFault::Unread(error)) => Err(self.failed(
                Subject::Store,
                error,
                CliFault::ReadFailed,
            )),
            Err(PlaceFault::Unwritten(subject, error)) => {
                Err(self.failed(Subject::from(subject), error, CliFault::WriteFailed))
            }
            Err(PlaceFault::Unlocked(error)) => {
                self.note(Subject::NextText, error);
                Err(RunFault::LockFailed)
            }
            Err(PlaceFault::Changed) => Err(RunFault::StoreChanged),
            Err(PlaceFault::Overtaken) => Err(self.failed(
                Subject::Store,
                io::Error::other("changed since it was read; the new text stays in FILE.new"),
                CliFault::WriteFailed,
            )),
            Err(PlaceFault::LongName) => {
                let error = io::Error::other(
                    "FILE.new would have more bytes than the 255 of a name",
                );
                self.note(Subject::Store, error);
                Err(RunFault::LongName)
            }
            Err(PlaceFault::OutOfMemory) => Err(RunFault::Command(CliFault::OutOfMemory)),
        }
    }

    /// The refusal of what the system couldn't do. Why is kept.
    pub(crate) fn failed(&self, subject: Subject, error: io::Error, fault: CliFault) -> RunFault {
        self.note(subject, error);
        RunFault::Command(fault)
    }

    /// How long the run waits for others.
    pub(crate) fn patience(&self) -> Patience {
        self.patience.get()
    }

    /// Waits for others for so many seconds, where a command's option tells them.
    pub(crate) fn wait_for_others(&self, seconds: Option<u64>) {
        if let Some(seconds) = seconds {
            self.patience.set(Patience::of_seconds(seconds));
        }
    }

    /// Tells, once, that another run is waited for, where somebody reads it.
    pub(crate) fn tell_wait(&self, file: &str) {
        if self.is_watched() && !self.has_told_wait.get() {
            self.has_told_wait.set(true);
            let file = self.shown(file, "");
            let _ = eprintln!(self.rt; "gx: waiting for another run on {file}");
        }
    }

    /// Tells that a file that was replaced has fewer permissions than before.
    pub(crate) fn tell_narrowed(&self, file: &str) {
        let file = self.shown(file, "");
        let _ = eprintln!(self.rt; "gx: {file}: permissions were left out");
    }

    /// Tells that a store file is read as it was before something was appended, since its last tail can't be.
    pub(crate) fn tell_other_slot(&self, file: &str) {
        let file = self.shown(file, "");
        let _ = eprintln!(self.rt;
            "gx: {file}: what was appended last can't be read; saved is what stood before"
        );
    }

    /// Tells of `gx grow`, where a store file without tables has so many bytes that questions of it are slow, and somebody reads it.
    pub(crate) fn tell_large(&self, file: &str, bytes: u64) {
        if self.is_watched() && bytes >= LARGE {
            let (file, megabytes) = (self.shown(file, ""), bytes / 1_000_000);
            let _ = eprintln!(self.rt;
                "gx: {file} has {megabytes} MB: gx grow {file} makes questions fast"
            );
        }
    }

    /// Tells why the run is refused, in a line. Where it is to be explained, further ones tell where the fault of a stream stands and
    /// what it or a line of a push is about, what helps with a damaged store, and the file and the system's cause of what couldn't be
    /// read, written or locked; the one that is written may be another. Whoever closed the pipe that is written into isn't told.
    pub(crate) fn tell(&self, fault: &RunFault, file: Option<&str>, written: Option<&str>) {
        let cause = self.cause.get();
        let is_cut_off = has_closed_pipe(&cause);
        if is_cut_off && fault.is_failed_output() {
            return;
        }
        let _ = eprintln!(self.rt; "{fault}");
        if fault.is_of_import() {
            self.tell_explanation();
        }
        if self.explains.get() && matches!(fault, RunFault::Damaged) {
            self.tell_help(file.unwrap_or("-"));
        }
        if let Some(cause) = &cause {
            if self.explains.get() && !is_cut_off {
                let file = match cause.subject {
                    Subject::NextText | Subject::Folder => written,
                    _ => file,
                };
                self.tell_cause(cause, file.unwrap_or("-"));
            }
        }
    }

    /// A file's name with what is put behind it, as paths are printed; nothing where there is no memory for it.
    fn shown(&self, file: &str, behind: &str) -> String {
        match self.shown_name(file, behind) {
            Ok(name) => name,
            Err(_) => String::new(self.rt.alloc()),
        }
    }

    fn shown_name(&self, file: &str, behind: &str) -> Result<String, AllocError> {
        let alloc = self.rt.alloc();
        let name = format!(in alloc; "{file}{behind}")?;
        String::from_utf8_lossy(alloc, &printed_path(alloc, name.as_bytes())?)
    }

    fn tell_explanation(&self) {
        if let Some(lines) = self.explanation.replace(None) {
            let _ = self.rt.stderr().write_all(&lines);
        }
    }

    /// Tells what helps with a growing store that is damaged.
    fn tell_help(&self, file: &str) {
        let file = self.shown(file, "");
        let _ = eprintln!(self.rt;
            "gx: gx verify {file} tells the first fault, and gx verify --salvage NEW {file} saves refs"
        );
    }

    fn tell_cause(&self, cause: &Cause, file: &str) {
        let error = cause.error;
        let behind = if cause.subject == Subject::NextText {
            ".new"
        } else {
            ""
        };
        let file = self.shown(file, behind);
        let _ = match cause.subject {
            Subject::Store | Subject::NextText => eprintln!(self.rt; "gx: {file}: {error}"),
            Subject::Unsettled => {
                eprintln!(self.rt; "gx: {file}: {error}; it may have what is new")
            }
            Subject::Folder => eprintln!(self.rt; "gx: the folder of {file}: {error}"),
            Subject::Input => eprintln!(self.rt; "gx: standard input: {error}"),
            Subject::Output => eprintln!(self.rt; "gx: standard output: {error}"),
            Subject::Told => eprintln!(self.rt; "gx: the file that an option names: {error}"),
        };
    }
}

/// Whether nobody takes standard output any more.
fn has_closed_pipe(cause: &Option<Cause>) -> bool {
    match cause {
        Some(cause) => {
            cause.subject == Subject::Output && cause.error.kind() == ErrorKind::BrokenPipe
        }
        None => false,
    }
}

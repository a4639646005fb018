//! The notation of sessions: titles, commands with what they read, and what is to come of them. docs/TESTING.md tells it.

use crate::shown::put_read;
use std::alloc::{AllocError, Global};

/// The line behind a last line that has no end.
pub(crate) const NO_END: &str = "\\ No newline at end of file";

/// The line in an input behind which the next read fails.
const READ_FAILS: &str = "\\ The next read fails";

/// The line behind the title of a session whose objects have the names that `ShortNamer` gives them.
const SHORT_NAMES: &str = "\\ Objects have short names";

/// The front of the line that tells how many objects and refs a store has.
pub(crate) const HELD: &str = "\\ The store holds ";

/// The front of a line that standard error gets, and that doesn't begin as the program's own.
const TOLD: &str = "\\ Standard error gets ";

/// What a step is.
#[derive(Clone, Copy, PartialEq, Eq)]
enum Part {
    /// A command before the first session, which each session begins with.
    Opening,
    /// The title of a session.
    Title,
    Command,
}

/// A title, or a command with what is to come of it.
#[derive(Drop)]
pub(crate) struct Step<'a> {
    part: Part,
    /// Where it stands in its file, from 1.
    pub(crate) number: usize,
    /// The title or the command.
    pub(crate) text: &'a str,
    pub(crate) input: Vec<u8>,
    /// The source fails behind the input.
    pub(crate) fails: bool,
    pub(crate) printed: Vec<u8>,
    /// What standard error gets.
    pub(crate) told: Vec<u8>,
    /// What the store holds, where that is told.
    pub(crate) held: &'a str,
    pub(crate) has_short_names: bool,
}

impl<'a> Step<'a> {
    fn new(alloc: Global, part: Part, number: usize, text: &'a str) -> Step<'a> {
        Step {
            part,
            number,
            text,
            input: Vec::new(alloc),
            fails: false,
            printed: Vec::new(alloc),
            told: Vec::new(alloc),
            held: "",
            has_short_names: false,
        }
    }

    pub(crate) fn is_opening(&self) -> bool {
        self.part == Part::Opening
    }

    pub(crate) fn begins_session(&self) -> bool {
        self.part == Part::Title
    }

    pub(crate) fn is_command(&self) -> bool {
        self.part == Part::Command
    }

    /// Takes a line of the input.
    fn take_input(&mut self, line: &str) -> Result<(), AllocError> {
        if line == NO_END {
            self.input.pop();
        } else if line == READ_FAILS {
            self.fails = true;
        } else {
            put_read(&mut self.input, line)?;
            self.input.push(b'\n')?;
        }
        Ok(())
    }

    /// Takes a line behind the command or the title.
    fn take_answer(&mut self, line: &'a str) -> Result<(), AllocError> {
        if line == NO_END {
            self.printed.pop();
        } else if line == SHORT_NAMES {
            self.has_short_names = true;
        } else if let Some(held) = line.strip_prefix(HELD) {
            self.held = held;
        } else if let Some(told) = line.strip_prefix(TOLD) {
            self.take_told(told)?;
        } else if line.starts_with("gx: ") {
            self.take_told(line)?;
        } else {
            put_read(&mut self.printed, line)?;
            self.printed.push(b'\n')?;
        }
        Ok(())
    }

    fn take_told(&mut self, line: &str) -> Result<(), AllocError> {
        self.told.extend_from_slice(line.as_bytes())?;
        self.told.push(b'\n')?;
        Ok(())
    }

    /// The empty line before a title is none of the answer.
    fn end_session(&mut self) {
        if self.printed.ends_with(b"\n") {
            self.printed.pop();
        }
    }
}

/// The steps of a text so far.
#[derive(Drop)]
struct Reader<'a> {
    alloc: Global,
    steps: Vec<Step<'a>>,
    has_session: bool,
    /// The line that ends the input, if one has begun.
    end: Option<&'a str>,
}

impl<'a> Reader<'a> {
    fn take(&mut self, number: usize, line: &'a str) -> Result<(), AllocError> {
        if let Some(end) = self.end {
            return self.take_input(line, end);
        }
        if let Some(command) = line.strip_prefix("$ ") {
            return self.begin_command(number, command);
        }
        if let Some(title) = line.strip_prefix("# ") {
            return self.begin_session(number, title);
        }
        match self.steps.last_mut() {
            Some(step) if self.has_session => step.take_answer(line),
            _ => Ok(()),
        }
    }

    fn take_input(&mut self, line: &'a str, end: &str) -> Result<(), AllocError> {
        if line == end {
            self.end = None;
            return Ok(());
        }
        match self.steps.last_mut() {
            Some(step) => step.take_input(line),
            None => Ok(()),
        }
    }

    fn begin_command(&mut self, number: usize, command: &'a str) -> Result<(), AllocError> {
        let part = if self.has_session {
            Part::Command
        } else {
            Part::Opening
        };
        self.end = match command.split_once(" <<") {
            Some((_, end)) => Some(end),
            None => None,
        };
        self.steps
            .push(Step::new(self.alloc, part, number, command))?;
        Ok(())
    }

    fn begin_session(&mut self, number: usize, title: &'a str) -> Result<(), AllocError> {
        if let Some(step) = self.steps.last_mut() {
            step.end_session();
        }
        self.has_session = true;
        let step = Step::new(self.alloc, Part::Title, number, title);
        self.steps.push(step)?;
        Ok(())
    }
}

/// The steps of a file's text.
pub(crate) fn steps_of<'a>(alloc: Global, text: &'a str) -> Result<Vec<Step<'a>>, AllocError> {
    let mut reader = Reader {
        alloc,
        steps: Vec::new(alloc),
        has_session: false,
        end: None,
    };
    let text = text.strip_suffix('\n').unwrap_or(text);
    let mut number = 0usize;
    for line in text.split('\n') {
        number = number.saturating_add(1);
        reader.take(number, line)?;
    }
    Ok(reader.steps)
}

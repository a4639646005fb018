//! The words of a command, as a shell splits them, and the files that it reads and writes.

use std::alloc::{AllocError, Global};

/// A command: its words, the first of which is its name.
#[derive(Drop)]
pub(crate) struct Command<'a> {
    pub(crate) words: Vec<&'a str>,
    /// The file behind `<`.
    pub(crate) input: Option<&'a str>,
    /// The file behind `>`.
    pub(crate) output: Option<&'a str>,
}

impl<'a> Command<'a> {
    /// The word at a place; an empty one where there is none.
    pub(crate) fn word(&self, place: usize) -> &'a str {
        self.words.get(place).copied().unwrap_or("")
    }

    /// Takes a part without quotes, or an empty one between spaces.
    fn take(&mut self, part: &'a str) -> Result<(), AllocError> {
        if part.is_empty() || part.starts_with("<<") {
            return Ok(());
        }
        if let Some(name) = part.strip_prefix('<') {
            self.input = Some(name);
            return Ok(());
        }
        if let Some(name) = part.strip_prefix('>') {
            self.output = Some(name);
            return Ok(());
        }
        self.words.push(part)?;
        Ok(())
    }

    /// Takes all parts between spaces.
    fn take_all(&mut self, text: &'a str) -> Result<(), AllocError> {
        for part in text.split(' ') {
            self.take(part)?;
        }
        Ok(())
    }
}

/// The command of a line. What stands between two `'` is one word.
pub(crate) fn command_of<'a>(alloc: Global, text: &'a str) -> Result<Command<'a>, AllocError> {
    let mut command = Command {
        words: Vec::new(alloc),
        input: None,
        output: None,
    };
    let mut is_quoted = false;
    for part in text.split('\'') {
        if is_quoted {
            command.words.push(part)?;
        } else {
            command.take_all(part)?;
        }
        is_quoted = !is_quoted;
    }
    Ok(command)
}

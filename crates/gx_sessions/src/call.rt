//! What a command calls, and what that does to the files of a session.

use crate::answer::{Answer, run_line};
use crate::command::Command;
use crate::folder::Folder;
use crate::notation::Step;
use crate::pass::Pass;
use gx_cli::{Line, read_line};
use std::alloc::{AllocError, Global};

/// What a command calls.
#[derive(Drop)]
pub(crate) enum Call<'a> {
    Gx(Line<'a>),
    /// The input is printed.
    Input,
    /// A file is printed.
    File(&'a str),
    /// Two files are compared, and nothing is printed where they are the same.
    Same(&'a str, &'a str),
    /// Words that aren't accepted, with what is told of them.
    Unknown(String),
}

/// What the words of a command call.
pub(crate) fn call_of<'a>(alloc: Global, command: &'a Command<'a>) -> Result<Call<'a>, AllocError> {
    let call = match (command.word(0), command.words.len()) {
        ("cat", 1) => Call::Input,
        ("cat", 2) => Call::File(command.word(1)),
        ("cmp", 3) => Call::Same(command.word(1), command.word(2)),
        ("gx", _) => return gx_of(alloc, command),
        (word, _) => Call::Unknown(format!(in alloc; "{word} isn't run\n")?),
    };
    Ok(call)
}

fn gx_of<'a>(alloc: Global, command: &'a Command<'_>) -> Result<Call<'a>, AllocError> {
    match read_line(alloc, command.words.get(1..).unwrap_or(&[])) {
        Ok(line) => Ok(Call::Gx(line)),
        Err(fault) => Ok(Call::Unknown(format!(in alloc; "{fault}")?)),
    }
}

/// Does a command on the files of a session.
pub(crate) fn done(
    folder: &mut Folder,
    command: &Command<'_>,
    call: &Call<'_>,
    step: &Step<'_>,
    pass: Pass,
) -> Result<Answer, AllocError> {
    let alloc = folder.alloc();
    let mut answer = answered(folder, command, call, step, pass)?;
    if let Some(name) = command.output {
        let printed = answer.printed;
        answer.printed = Vec::new(alloc);
        folder.put(name, printed, false)?;
    }
    Ok(answer)
}

/// What a command answers, before that goes to a file.
fn answered(
    folder: &mut Folder,
    command: &Command<'_>,
    call: &Call<'_>,
    step: &Step<'_>,
    pass: Pass,
) -> Result<Answer, AllocError> {
    let alloc = folder.alloc();
    if let Some(name) = missing(folder, command.input, call) {
        return Ok(Answer::refusing(alloc, format!(in alloc; "{name} isn't there\n")?));
    }
    match call {
        Call::Gx(line) => {
            let input = match command.input {
                Some(name) => Vec::from_slice(alloc, folder.bytes(name))?,
                None => Vec::from_slice(alloc, &step.input)?,
            };
            run_line(folder, line, &input, step, pass)
        }
        Call::Input => Ok(Answer::printing(alloc, Vec::from_slice(alloc, &step.input)?)),
        Call::File(name) => {
            let bytes = Vec::from_slice(alloc, folder.bytes(name))?;
            Ok(Answer::printing(alloc, bytes))
        }
        Call::Same(one, other) if folder.bytes(one) == folder.bytes(other) => {
            Ok(Answer::printing(alloc, Vec::new(alloc)))
        }
        Call::Same(one, other) => {
            let told = format!(in alloc; "{one} and {other} differ\n")?;
            Ok(Answer::refusing(alloc, told))
        }
        Call::Unknown(told) => Ok(Answer::refusing(alloc, told.clone()?)),
    }
}

/// A file that a command reads and that isn't there.
fn missing<'a>(folder: &Folder, input: Option<&'a str>, call: &Call<'a>) -> Option<&'a str> {
    let names = match call {
        Call::File(name) => [Some(*name), input],
        Call::Same(one, other) => [Some(*one), Some(*other)],
        _ => [None, input],
    };
    match names {
        [Some(name), _] if folder.file(name).is_none() => Some(name),
        [_, Some(name)] if folder.file(name).is_none() => Some(name),
        _ => None,
    }
}

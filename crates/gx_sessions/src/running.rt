//! The sessions of a file, each command of which is run in all ways.

use crate::answer::{Answer, answer_text};
use crate::call::{call_of, done};
use crate::command::{Command, command_of};
use crate::folder::Folder;
use crate::notation::Step;
use crate::pass::{Pass, passes};
use crate::shown::read_text;
use std::alloc::{AllocError, Global};
use std::hash::RandomState;

/// An answer that is not the one that was expected.
#[derive(Drop)]
pub(crate) struct Wrong<'a> {
    pub(crate) number: usize,
    pub(crate) command: &'a str,
    /// The way in which the command was run.
    pub(crate) way: &'static str,
    pub(crate) expected: String,
    pub(crate) got: String,
}

/// The session as far as it is done, in one way.
#[derive(Drop)]
struct Run {
    pass: Pass,
    folder: Folder,
}

/// Does the steps of a file. The first answer that is wrong is told.
pub(crate) fn first_wrong<'a>(
    alloc: Global,
    steps: &[Step<'a>],
    state: RandomState,
) -> Result<Option<Wrong<'a>>, AllocError> {
    let mut runs = Vec::new(alloc);
    for step in steps {
        if step.begins_session() {
            runs = runs_of(alloc, steps, step, state)?;
        } else if step.is_command() {
            let wrong = wrong_in(alloc, &mut runs, step)?;
            if wrong.is_some() {
                return Ok(wrong);
            }
        }
    }
    Ok(None)
}

/// A session that begins, in all ways.
fn runs_of(
    alloc: Global,
    steps: &[Step<'_>],
    title: &Step<'_>,
    state: RandomState,
) -> Result<Vec<Run>, AllocError> {
    let mut runs = Vec::new(alloc);
    for pass in passes(title.has_short_names, state) {
        let folder = opened(alloc, steps, pass)?;
        runs.push(Run { pass, folder })?;
    }
    Ok(runs)
}

/// The folder that a session begins with.
fn opened(alloc: Global, steps: &[Step<'_>], pass: Pass) -> Result<Folder, AllocError> {
    let mut folder = Folder::new(alloc);
    for step in steps {
        if step.is_opening() {
            let command = command_of(alloc, step.text)?;
            open(&mut folder, &command, step, pass)?;
        }
    }
    Ok(folder)
}

/// Does a command that each session begins with.
fn open(
    folder: &mut Folder,
    command: &Command<'_>,
    step: &Step<'_>,
    pass: Pass,
) -> Result<(), AllocError> {
    let call = call_of(folder.alloc(), command)?;
    done(folder, command, &call, step, pass)?;
    Ok(())
}

/// Runs a step's command in all ways. The first wrong answer is told.
fn wrong_in<'a>(
    alloc: Global,
    runs: &mut Vec<Run>,
    step: &Step<'a>,
) -> Result<Option<Wrong<'a>>, AllocError> {
    let text = read_text(alloc, step.text)?;
    let command = command_of(alloc, text.as_str())?;
    wrong_of(alloc, runs, &command, step)
}

/// The same of the step's words.
fn wrong_of<'a>(
    alloc: Global,
    runs: &mut Vec<Run>,
    command: &Command<'_>,
    step: &Step<'a>,
) -> Result<Option<Wrong<'a>>, AllocError> {
    let call = call_of(alloc, command)?;
    for run in runs.iter_mut() {
        let answer = done(&mut run.folder, command, &call, step, run.pass)?;
        if !answer.is_told(step) {
            return Ok(Some(told_wrong(alloc, step, &answer, run.pass)?));
        }
    }
    Ok(None)
}

fn told_wrong<'a>(
    alloc: Global,
    step: &Step<'a>,
    answer: &Answer,
    pass: Pass,
) -> Result<Wrong<'a>, AllocError> {
    let told = String::from_utf8_lossy(alloc, &step.told)?;
    Ok(Wrong {
        number: step.number,
        command: step.text,
        way: pass.name,
        expected: answer_text(alloc, &step.printed, told.as_str(), step.held)?,
        got: answer.text(alloc)?,
    })
}

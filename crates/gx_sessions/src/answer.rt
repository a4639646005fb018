//! What comes of a command of `gx`, over the files of a session.

use crate::folder::Folder;
use crate::notation::{HELD, Step};
use crate::pass::Pass;
use crate::serving::{Ending, serve_line};
use crate::shown::shown;
use crate::store_text::store_of;
use gx_asks::Change;
use gx_cli::{CliFault, Line};
use std::alloc::{AllocError, Global};

/// What comes of a command.
#[derive(Drop)]
pub(crate) struct Answer {
    pub(crate) printed: Vec<u8>,
    /// What standard error gets; none where that isn't known of an accepted command.
    pub(crate) told: Option<String>,
    pub(crate) is_refused: bool,
    /// What the store holds, where that is to be told.
    pub(crate) held: String,
}

impl Answer {
    /// The answer of an accepted command that prints this.
    pub(crate) fn printing(alloc: Global, printed: Vec<u8>) -> Answer {
        Answer {
            printed,
            told: None,
            is_refused: false,
            held: String::new(alloc),
        }
    }

    /// The answer of a refused command that prints nothing.
    pub(crate) fn refusing(alloc: Global, told: String) -> Answer {
        Answer {
            printed: Vec::new(alloc),
            told: Some(told),
            is_refused: true,
            held: String::new(alloc),
        }
    }

    /// Whether this is what a step tells. Where it tells no report of an accepted command, none is compared.
    pub(crate) fn is_told(&self, step: &Step<'_>) -> bool {
        self.printed == step.printed && self.held.as_str() == step.held && self.tells(&step.told)
    }

    fn tells(&self, told: &[u8]) -> bool {
        match &self.told {
            Some(own) if self.is_refused || !told.is_empty() => own.as_bytes() == told,
            _ => !self.is_refused && !is_refusal(told),
        }
    }

    /// The answer as a session shows it.
    pub(crate) fn text(&self, alloc: Global) -> Result<String, AllocError> {
        let told = match &self.told {
            Some(told) => told.as_str(),
            None => "",
        };
        answer_text(alloc, &self.printed, told, self.held.as_str())
    }
}

/// Whether lines on standard error end with a refusal. Those of a report end with a number, with how a stream ended, or with what
/// it lost.
fn is_refusal(told: &[u8]) -> bool {
    match told.strip_suffix(b"\n") {
        Some(line) => !is_report(line),
        None => false,
    }
}

fn is_report(line: &[u8]) -> bool {
    line.ends_with(b" done") || line.ends_with(b" are lost") || ends_with_digit(line)
}

fn ends_with_digit(line: &[u8]) -> bool {
    match line.last() {
        Some(byte) => byte.is_ascii_digit(),
        None => false,
    }
}

/// An answer as a session shows it.
pub(crate) fn answer_text(
    alloc: Global,
    printed: &[u8],
    told: &str,
    held: &str,
) -> Result<String, AllocError> {
    let mut text = shown(alloc, printed)?;
    text.push_str(told)?;
    if !held.is_empty() {
        text.push_str(HELD)?;
        text.push_str(held)?;
        text.push('\n')?;
    }
    Ok(text)
}

/// Runs a command of `gx` on the files of a session.
pub(crate) fn run_line(
    folder: &mut Folder,
    line: &Line<'_>,
    input: &[u8],
    step: &Step<'_>,
    pass: Pass,
) -> Result<Answer, AllocError> {
    let alloc = folder.alloc();
    let file = file_of(line).unwrap_or("");
    if let Some(fault) = file_fault(folder, line) {
        return Ok(Answer::refusing(alloc, format!(in alloc; "{fault}\n")?));
    }
    let store = store_bytes(folder, file, pass)?;
    let ending = serve_line(alloc, line, store, (input, step.fails), pass)?;
    answer_of(folder, file, ending, step)
}

/// The answer that a served command gives, whose next text takes the place of the store's.
fn answer_of(
    folder: &mut Folder,
    file: &str,
    ending: Ending,
    step: &Step<'_>,
) -> Result<Answer, AllocError> {
    let alloc = folder.alloc();
    let Ending {
        printed,
        told,
        is_refused,
        makes_text,
        store,
    } = ending;
    let is_changed = store.is_some();
    let has_missed = makes_text && !is_refused && !is_changed;
    if let Some(text) = store {
        folder.put(file, text, true)?;
    }
    let held = if has_missed {
        String::from_str(alloc, "no next text")?
    } else if !step.held.is_empty() || is_refused && is_changed {
        held_text(alloc, folder.bytes(file))?
    } else {
        String::new(alloc)
    };
    Ok(Answer {
        printed,
        told,
        is_refused,
        held,
    })
}

/// How much a store holds.
fn held_text(alloc: Global, text: &[u8]) -> Result<String, AllocError> {
    match store_of(alloc, text)? {
        Some(store) => {
            let (objects, refs) = (store.objects, store.refs);
            format!(in alloc; "objects: {objects}, refs: {refs}")
        }
        None => String::from_str(alloc, "no text of a store"),
    }
}

/// A store's text, in the first version where that is asked of what a command left.
fn store_bytes(folder: &Folder, file: &str, pass: Pass) -> Result<Vec<u8>, AllocError> {
    let alloc = folder.alloc();
    match folder.file(file) {
        Some(found) if found.is_made && pass.is_first_version => {
            match store_of(alloc, &found.bytes)? {
                Some(store) => Ok(store.text),
                None => Vec::from_slice(alloc, &found.bytes),
            }
        }
        Some(found) => Vec::from_slice(alloc, &found.bytes),
        None => Ok(Vec::new(alloc)),
    }
}

/// Why a command isn't run at all, as the program says it, which looks for the file.
fn file_fault(folder: &Folder, line: &Line<'_>) -> Option<CliFault> {
    let file = file_of(line)?;
    let is_there = folder.file(file).is_some();
    let is_init = matches!(
        line,
        Line::Change {
            change: Change::Init { .. },
            ..
        }
    );
    match (is_init, is_there) {
        (true, true) => Some(CliFault::StoreExists),
        (false, false) => Some(CliFault::ReadFailed),
        _ => None,
    }
}

/// The store's file in a command line.
fn file_of<'a>(line: &Line<'a>) -> Option<&'a str> {
    match line {
        Line::Stream(_) => None,
        Line::Ask { file, .. }
        | Line::Change { file, .. }
        | Line::Verify { file, .. }
        | Line::Bundle { file, .. } => Some(file),
    }
}

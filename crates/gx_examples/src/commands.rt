//! The command of a step, and what it is tried for.

use crate::growths::refused_growths;
use crate::limits::stops_everywhere;
use crate::steps::{Step, words_of};
use crate::texts::text;
use gx_asks::{Change, Question};
use gx_cli::{CliFault, Line, Outcome, read_line, serve, serve_owned};
use gx_object::Sha1Namer;
use gx_text::{Bytes, Held, Sink, Source};
use std::alloc::{AllocError, Allocator, Global};
use std::hash::RandomState;

/// What a command is tried for.
#[derive(Clone, Copy)]
pub(crate) enum Task {
    /// It stops where its sink is full.
    Stop,
    /// At least as many growths as the step's line says are refused before it succeeds.
    Growths,
    /// On a text that is lent to it so many growths more are refused than on one that it is given.
    Copies(u64),
}

/// The words of a command that clap doesn't accept: it wants a revision.
const NO_REVISION: &str = "rev-parse store";

/// Tries a step's command on a store's text. Answers whether what is to come of it came.
pub(crate) fn tried(
    alloc: Global,
    step: &Step<'_>,
    store: &[u8],
    task: Task,
    state: RandomState,
) -> bool {
    if step.words == NO_REVISION {
        let line = Line::Ask {
            file: "store",
            question: Question::Names {
                revisions: Vec::new(alloc),
            },
        };
        return line_tried(alloc, &line, step, store, task, state);
    }
    match words_of(alloc, step.words, ' ') {
        Ok(words) => match read_line(alloc, words.as_slice()) {
            Ok(line) => line_tried(alloc, &line, step, store, task, state),
            Err(_) => false,
        },
        Err(_) => false,
    }
}

/// The same, where this is its line.
fn line_tried(
    alloc: Global,
    line: &Line<'_>,
    step: &Step<'_>,
    store: &[u8],
    task: Task,
    state: RandomState,
) -> bool {
    match task {
        Task::Stop => stops_everywhere(alloc, line, step, store, state),
        Task::Growths => match step.line.parse::<u64>() {
            Ok(fewest) => { refused_growths(alloc, line, step, (store, false), state) >= fewest }
            Err(_) => false,
        },
        Task::Copies(count) => {
            let lent = refused_growths(alloc, line, step, (store, false), state);
            let given = refused_growths(alloc, line, step, (store, true), state);
            given > 0 && lent.checked_sub(given) == Some(count)
        }
    }
}

/// What a command does with a store's text, a source and a sink. What the devices tell is left open here, so no caller has
/// more to prove than that the call is safe.
pub(crate) fn ran<A: Allocator + Copy, R: Source + Drop, W: Sink>(
    alloc: A,
    line: &Line<'_>,
    store: &[u8],
    source: R,
    sink: &mut W,
    state: RandomState,
) -> Outcome<A> {
    serve(alloc, Sha1Namer, line, store, source, sink, state)
}

/// The same with a text that is given to the command, or lent to it.
pub(crate) fn ran_on<A: Allocator + Copy, R: Source + Drop, W: Sink>(
    alloc: A,
    line: &Line<'_>,
    store: Vec<u8, A>,
    is_given: bool,
    source: R,
    sink: &mut W,
    state: RandomState,
) -> Outcome<A> {
    if is_given {
        serve_owned(alloc, Sha1Namer, line, store, source, sink, state)
    } else {
        ran(alloc, line, &store, source, sink, state)
    }
}

/// Whether a fault prints this line, and none prints an empty one.
pub(crate) fn has_line(alloc: Global, fault: Option<CliFault>, line: &str) -> bool {
    match fault {
        None => line.is_empty(),
        Some(fault) => is_text(format!(in alloc; "{fault}"), line),
    }
}

/// Whether a text that was made is this one.
pub(crate) fn is_text(made: Result<String, AllocError>, text: &str) -> bool {
    match made {
        Ok(made) => made.as_str() == text,
        Err(_) => false,
    }
}

/// The text of a new store with this stream imported; none where the import is refused.
pub(crate) fn stored(alloc: Global, stream: &[u8], state: RandomState) -> Option<Vec<u8>> {
    let Ok(mut sink) = Held::new(alloc, 64) else {
        return None;
    };
    let line = Line::Change {
        file: "store",
        wait: None,
        change: Change::Import {
            done: false,
            force: false,
            report: false,
            explain: false,
        },
    };
    let source = Bytes::new(stream, 4096, false);
    ran(alloc, &line, text("empty"), source, &mut sink, state).store
}

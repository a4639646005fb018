//! The commands that answer the repository whose text is a store's next one, and what is to be told of it.

use crate::serving::Report;
use gx_cli::{
    CliFault, Explanation, Features, Outcome, Repo, collect_store, import_store,
    import_store_reporting, send_store,
};
use gx_object::Namer;
use gx_text::{Held, Sink, Source};
use std::alloc::Global;
use std::hash::RandomState;

/// Stores have fewer bytes.
const ROOM: usize = 0x10_0000;

/// An import with its counts.
pub(crate) fn imported<N: Namer + Drop, R: Source + Drop, W: Sink>(
    alloc: Global,
    namer: N,
    store: Vec<u8>,
    source: R,
    sink: &mut W,
    features: Features,
    state: RandomState,
) -> (Outcome<Global>, Report) {
    let mut told = Explanation::none();
    let (left, answer) = import_store(
        alloc, namer, store, source, sink, features, state, &mut told,
    );
    let text = match left {
        Some(repo) => text_of(alloc, &repo),
        None => None,
    };
    match answer {
        Ok(report) => (outcome_of(0, None, text), Report::Import(report)),
        Err(fault) => (outcome_of(1, Some(fault), text), Report::Unknown),
    }
}

/// An import with the lines of the refs that it changes.
pub(crate) fn reported<N: Namer + Drop, R: Source + Drop, W: Sink>(
    alloc: Global,
    namer: N,
    store: Vec<u8>,
    source: R,
    sink: &mut W,
    features: Features,
    state: RandomState,
) -> (Outcome<Global>, Report) {
    let mut told = Explanation::none();
    let (left, answer) = import_store_reporting(
        alloc, namer, store, source, sink, features, state, &mut told,
    );
    let (text, lines) = match left {
        Some((repo, lines)) => (text_of(alloc, &repo), lines),
        None => (None, Vec::new(alloc)),
    };
    match answer {
        Ok(report) => (
            outcome_of(0, None, text),
            Report::Changes(lines, Some(report)),
        ),
        Err(fault) => (
            outcome_of(1, Some(fault), text),
            Report::Changes(lines, None),
        ),
    }
}

/// A collection with what went.
pub(crate) fn collected<N: Namer + Drop>(
    alloc: Global,
    namer: N,
    store: Vec<u8>,
    state: RandomState,
) -> (Outcome<Global>, Report) {
    match collect_store(alloc, namer, store, state) {
        Ok((repo, gone)) => (
            outcome_of(0, None, text_of(alloc, &repo)),
            Report::Pruned(gone),
        ),
        Err(fault) => (outcome_of(1, Some(fault), None), Report::Unknown),
    }
}

fn outcome_of(status: u8, fault: Option<CliFault>, store: Option<Vec<u8>>) -> Outcome<Global> {
    Outcome {
        status,
        fault,
        store,
    }
}

/// The text of a repository; none where there is no room for it.
fn text_of<N: Namer>(alloc: Global, repo: &Repo<N, Global>) -> Option<Vec<u8>> {
    let mut sink = Held::new(alloc, ROOM).ok()?;
    send_store(repo, &mut sink).ok()?;
    Vec::from_slice(alloc, sink.bytes()).ok()
}

//! Standard input and output: the commands that change no file.

pub(crate) mod devices;
pub(crate) mod explanation;
pub(crate) mod kept;
pub(crate) mod progress;
pub(crate) mod refused_item;
pub(crate) mod reports;
mod steps;
pub(crate) mod traced;
mod trail;

use crate::fault::RunFault;
use crate::run::Run;
use crate::stores::files::read_store;
use devices::{Noted, flushed};
use explanation::explained;
use gx_asks::Trial;
use gx_cli::{
    CliFault, Explanation, Features, Line, adapt_status, adapt_stream, check_stream, find_fault,
    serve_owned, try_revision,
};
use gx_object::Sha1Namer;
use gx_text::{FromRead, IntoWrite};
use gx_versions::{VerifyFault, verify_store};
use progress::{Beside, ProgressLine};
use reports::{tell_adaption, tell_typed_stream};
use std::hash::RandomState;
use std::io::BufWriter;
use traced::Traced;

/// Answers what is asked of standard input, of which nothing is kept. Answers the status.
pub(crate) fn try_input(
    run: &Run<'_>,
    line: &Line<'_>,
    trial: &Trial<'_>,
    state: RandomState,
) -> Result<u8, RunFault> {
    match trial {
        Trial::Blobs | Trial::Where(_) => answer_input(run, line, state)?,
        Trial::Adapt { drop_signatures } => return Ok(adapt(run, *drop_signatures)?),
        Trial::Try {
            revision,
            done,
            force,
            explain,
        } => {
            run.explain_if(*explain);
            try_stream(run, Tried::Revision(revision), features(done, force), state)?;
        }
        Trial::Check {
            done,
            force,
            explain,
        } => {
            run.explain_if(*explain);
            try_stream(run, Tried::Trip, features(done, force), state)?;
        }
        Trial::WhereFault { done, force } => {
            run.explain_if(true);
            try_stream(run, Tried::Fault, features(done, force), state)?;
        }
    }
    Ok(0)
}

/// The features that a command's options ask for.
pub(crate) fn features(done: &bool, force: &bool) -> Features {
    Features {
        done: *done,
        force: *force,
    }
}

/// Answers what comes on standard input, of no store. What it prints goes out as it comes.
fn answer_input(run: &Run<'_>, line: &Line<'_>, state: RandomState) -> Result<(), CliFault> {
    let alloc = run.rt.alloc();
    let store = Vec::new(alloc);
    let source = FromRead::new(Noted::input(run));
    let mut sink = IntoWrite::new(Noted::output(run));
    let outcome = serve_owned(alloc, Sha1Namer, line, store, source, &mut sink, state);
    match outcome.fault {
        Some(fault) => Err(fault),
        None => Ok(()),
    }
}

/// Tells what a store holds, which is read as a whole.
pub(crate) fn verify(run: &Run<'_>, file: &str, state: RandomState) -> Result<(), CliFault> {
    let store = read_store(run, file)?;
    let mut sink = IntoWrite::new(Noted::output(run));
    match verify_store(run.rt.alloc(), Sha1Namer, store, state, &mut sink) {
        Ok(()) => Ok(()),
        Err(VerifyFault::Store(fault)) => Err(CliFault::from(fault)),
        Err(VerifyFault::WriteFailed) => Err(CliFault::WriteFailed),
    }
}

/// Adapts standard input, through a buffer, and tells what was changed. Answers the status.
fn adapt(run: &Run<'_>, drop_signatures: bool) -> Result<u8, CliFault> {
    match BufWriter::new(run.rt.alloc(), Noted::output(run)) {
        Ok(mut out) => {
            let source = FromRead::new(Noted::input(run));
            let mut sink = IntoWrite::new(&mut out);
            let adapted = adapt_stream(run.rt.alloc(), source, &mut sink, drop_signatures);
            let adapted = flushed(&mut out, adapted)?;
            tell_adaption(run, &adapted, drop_signatures);
            Ok(adapt_status(&adapted))
        }
        Err(_) => Err(CliFault::OutOfMemory),
    }
}

/// What is asked of a stream whose import into an empty store is tried.
#[derive(Clone, Copy)]
enum Tried<'a> {
    /// What a revision gives there.
    Revision(&'a str),
    /// Whether it comes back by its export.
    Trip,
    /// Why it is refused.
    Fault,
}

/// Imports standard input into an empty store of which nothing is kept, and shows how far that is. What is asked of it is printed.
fn try_stream(
    run: &Run<'_>,
    tried: Tried<'_>,
    features: Features,
    state: RandomState,
) -> Result<(), CliFault> {
    tell_typed_stream(run);
    let alloc = run.rt.alloc();
    let progress = ProgressLine::new(run);
    let mut input = Traced::input(run, &progress, false);
    let mut told = Explanation::none();
    let source = FromRead::new(&mut input);
    let mut sink = IntoWrite::new(Beside::new(&progress));
    let (sink, told) = (&mut sink, &mut told);
    let answer = match tried {
        Tried::Revision(revision) => {
            let word = revision.as_bytes();
            try_revision(alloc, Sha1Namer, word, source, sink, features, state, told)
        }
        Tried::Trip => check_stream(alloc, Sha1Namer, source, sink, features, state, told),
        Tried::Fault => find_fault(alloc, Sha1Namer, source, features, state, told),
    };
    progress.clear();
    explained(run, input.trail(), answer, told)
}

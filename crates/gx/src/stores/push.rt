//! Pushes into a store file.

use super::import::{Asks, Told, import_told};
use super::next_text::NextText;
use super::told_lines;
use crate::fault::RunFault;
use crate::run::Run;
use crate::streams::explanation::explained;
use crate::streams::kept::Kept;
use crate::streams::progress::Beside;
use crate::streams::reports::{tell_changes, tell_import, tell_nameless};
use crate::streams::traced::Traced;
use gx_cli::{CliFault, Explanation, Features, Pushed, push_opened, refused_text};
use gx_text::{FromRead, IntoWrite};
use std::hash::RandomState;

/// Imports standard input into a store file as a push, whose lines are in the file `told`. They are read once the store file is claimed,
/// so that who writes them into a pipe knows that nothing else changes it. A refused push leaves it as it was. What is told of it comes
/// once the store file is free.
pub(crate) fn push(
    run: &Run<'_>,
    file: &str,
    told: &str,
    done: bool,
    report: bool,
    state: RandomState,
) -> Result<(), RunFault> {
    let mut next = NextText::claim_next(run, file)?;
    let lines = told_lines(run, told)?;
    let asks = Asks {
        lines: Some(lines.as_slice()),
        features: Features { done, force: true },
        report,
        state,
    };
    let told = import_told(run, &mut next, asks)?;
    drop(next);
    if report {
        tell_changes(run, &told.changes);
    }
    tell_import(run, &told.answer?, report);
    if report {
        tell_nameless(run, told.nameless);
    }
    Ok(())
}

/// Imports a stream over all of a store file as a push.
pub(super) fn push_whole(
    run: &Run<'_>,
    next: &mut NextText<'_>,
    stream: &mut Kept<'_>,
    output: Beside<'_>,
    lines: &[Vec<u8>],
    asks: Asks<'_>,
) -> Result<Told, RunFault> {
    let alloc = run.rt.alloc();
    let repo = next.read_repo(asks.state)?;
    stream.tell_typed(run);
    let mut input = Traced::new(run, &mut *stream, asks.report);
    let mut told = Explanation::none();
    let (source, mut sink) = (FromRead::new(&mut input), IntoWrite::new(output));
    let done = asks.features.done;
    let pushed = push_opened(alloc, repo, lines, source, &mut sink, done, &mut told);
    let pushed = explained(run, input.trail(), pushed, &told);
    if let Err(CliFault::Push { number, .. }) = &pushed {
        explain_line(run, next, lines, *number, asks.state);
    }
    let Pushed {
        repo,
        changes,
        report,
    } = pushed?;
    next.publish_added(&repo)?;
    Ok(Told {
        changes,
        answer: Ok(report),
        nameless: input.trail().map_or(0, |trail| trail.nameless()),
    })
}

/// Keeps the line that tells what a refused line is about, should that be told. The store file, which no one has changed, is read
/// once more for it.
fn explain_line(
    run: &Run<'_>,
    next: &mut NextText<'_>,
    lines: &[Vec<u8>],
    number: u64,
    state: RandomState,
) {
    if !run.explains() {
        return;
    }
    let Some(line) = lines.get(number.saturating_sub(1) as usize) else {
        return;
    };
    if let Ok(repo) = next.read_repo(state) {
        if let Ok(told) = refused_text(run.rt.alloc(), &repo, line.as_slice()) {
            run.explain(told);
        }
    }
}

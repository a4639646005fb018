//! Imports into store files.

use super::next_text::NextText;
use super::push::push_whole;
use super::small::{Short, import_small};
use crate::fault::RunFault;
use crate::run::{Run, Way};
use crate::streams::devices::Noted;
use crate::streams::explanation::explained;
use crate::streams::kept::Kept;
use crate::streams::progress::{Beside, ProgressLine};
use crate::streams::reports::{tell_changes, tell_import, tell_nameless};
use crate::streams::traced::Traced;
use gx_cli::{CliFault, Explanation, Features, ImportReport, Repo, import_opened, report_opened};
use gx_object::Sha1Namer;
use gx_text::{FromRead, IntoWrite};
use gx_versions::StoreForm;
use std::alloc::Global;
use std::hash::RandomState;

/// What an import left, with the lines of the refs that it changed, where they are asked for.
type Left = Option<(Repo<Sha1Namer, Global>, Vec<u8>)>;

/// What an import is asked for: as a push, where it has lines.
#[derive(Clone, Copy)]
pub(super) struct Asks<'a> {
    pub(super) lines: Option<&'a [Vec<u8>]>,
    pub(super) features: Features,
    pub(super) report: bool,
    pub(super) state: RandomState,
}

/// What is told of an import once its store file is free: the lines of the refs that it changed, what came of it, and how many
/// identities had no name, where a report is asked for.
#[derive(Drop)]
pub(super) struct Told {
    pub(super) changes: Vec<u8>,
    pub(super) answer: Result<ImportReport, CliFault>,
    pub(super) nameless: u64,
}

/// Imports standard input into a store file, which a refused import leaves as the last checkpoint made it. What is told of it
/// comes once the store file is free.
pub(crate) fn import(
    run: &Run<'_>,
    file: &str,
    features: Features,
    report: bool,
    state: RandomState,
) -> Result<(), RunFault> {
    let mut next = NextText::claim_next(run, file)?;
    let asks = Asks {
        lines: None,
        features,
        report,
        state,
    };
    let told = import_told(run, &mut next, asks)?;
    let (form, bytes) = (next.form(), next.size());
    drop(next);
    tell_changes(run, &told.changes);
    tell_import(run, &told.answer?, report);
    if report {
        tell_nameless(run, told.nameless);
    }
    if form == StoreForm::Plain {
        run.tell_large(file, bytes);
    }
    Ok(())
}

/// Imports standard input over a small repository, where that can be done, and else over all of the store file, and shows how far it is.
pub(super) fn import_told(
    run: &Run<'_>,
    next: &mut NextText<'_>,
    asks: Asks<'_>,
) -> Result<Told, RunFault> {
    let progress = ProgressLine::new(run);
    let told = import_in_way(run, next, &progress, asks);
    progress.clear();
    told
}

/// Does so in one way, where that is asked for.
fn import_in_way(
    run: &Run<'_>,
    next: &mut NextText<'_>,
    progress: &ProgressLine<'_>,
    asks: Asks<'_>,
) -> Result<Told, RunFault> {
    let input = Noted::input(run).shown_by(progress);
    let mut stream = Kept::new(run.rt.alloc(), input);
    let way = run.way();
    let short = if way == Some(Way::Whole) {
        Short::Not { sent: 0 }
    } else {
        import_small(run, next, &mut stream, progress, asks)?
    };
    match short {
        Short::Done(told) => Ok(told),
        Short::Not { .. } if way == Some(Way::Small) => Err(RunFault::NotSmall),
        Short::Not { sent } => {
            stream.read_again();
            let output = Beside::behind(progress, sent);
            match asks.lines {
                None => import_whole(run, next, &mut stream, output, asks),
                Some(lines) => push_whole(run, next, &mut stream, output, lines, asks),
            }
        }
    }
}

/// Imports a stream over all of a store file.
fn import_whole(
    run: &Run<'_>,
    next: &mut NextText<'_>,
    stream: &mut Kept<'_>,
    output: Beside<'_>,
    asks: Asks<'_>,
) -> Result<Told, RunFault> {
    let repo = next.read_repo(asks.state)?;
    stream.tell_typed(run);
    let mut input = Traced::new(run, stream, asks.report);
    let mut told = Explanation::none();
    let (left, answer) = imported(run, repo, &mut input, output, asks, &mut told);
    let answer = explained(run, input.trail(), answer, &told);
    let changes = match left {
        Some((repo, changes)) => {
            next.publish_added(&repo)?;
            changes
        }
        None => Vec::new(run.rt.alloc()),
    };
    Ok(Told {
        changes,
        answer,
        nameless: input.trail().map_or(0, |trail| trail.nameless()),
    })
}

/// What an import leaves, with the lines of the refs that it changed where a report is asked for.
fn imported(
    run: &Run<'_>,
    repo: Repo<Sha1Namer, Global>,
    input: &mut Traced<&mut Kept<'_>>,
    output: Beside<'_>,
    asks: Asks<'_>,
    told: &mut Explanation<Global>,
) -> (Left, Result<ImportReport, CliFault>) {
    let alloc = run.rt.alloc();
    let (source, mut sink) = (FromRead::new(input), IntoWrite::new(output));
    if asks.report {
        return report_opened(alloc, repo, source, &mut sink, asks.features, told);
    }
    let (left, answer) = import_opened(alloc, repo, source, &mut sink, asks.features, told);
    (left.map(|repo| (repo, Vec::new(alloc))), answer)
}

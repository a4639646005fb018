//! What runs the command of each line.

use crate::bundling::{BundleAsked, bundle};
use crate::fault::RunFault;
use crate::questions::ask;
use crate::run::Run;
use crate::salvaging::salvage_into;
use crate::stores::{collect, drop_refs, grow, import, import_objects, init, push, put, set_ref};
use crate::streams::{features, try_input, verify};
use gx_asks::Change;
use gx_cli::Line;
use gx_versions::StoreForm;
use std::hash::RandomState;
use std::process::ExitCode;

/// Runs a command with random keys for the tables of names, which a stream could choose to be slow. Answers the status of one that
/// isn't refused.
pub(crate) fn run_line(run: &Run<'_>, line: &Line<'_>) -> Result<u8, RunFault> {
    let Ok(state) = RandomState::new(run.rt) else {
        return Err(RunFault::RandomFailed);
    };
    match line {
        Line::Ask { file, question } => return ask(run, question, file, state),
        Line::Change { file, wait, change } => {
            run.wait_for_others(*wait);
            make(run, change, file, state)?;
        }
        Line::Stream(trial) => return try_input(run, line, trial, state),
        Line::Verify {
            file,
            salvage: Some(new),
        } => return salvage_into(run, file, new, state),
        Line::Verify {
            file,
            salvage: None,
        } => verify(run, file, state)?,
        Line::Bundle {
            file,
            ranges,
            all,
            head,
            pack,
        } => {
            let asked = BundleAsked {
                ranges: ranges.as_slice(),
                all: *all,
                head: *head,
                pack: *pack,
            };
            bundle(run, file, &asked, state)?;
        }
    }
    Ok(0)
}

/// Prints why a command is refused. Answers the status.
pub(crate) fn tell_refusal(run: &Run<'_>, line: &Line<'_>, fault: &RunFault) -> ExitCode {
    let (file, written) = files_of(line);
    run.tell(fault, file, written);
    ExitCode::from(1)
}

/// The store file that a command names, and the one that it writes, if it writes one.
fn files_of<'a>(line: &Line<'a>) -> (Option<&'a str>, Option<&'a str>) {
    match line {
        Line::Ask { file, .. } | Line::Change { file, .. } => (Some(*file), Some(*file)),
        Line::Verify { file, salvage } => (Some(*file), *salvage),
        Line::Bundle { file, .. } => (Some(*file), None),
        Line::Stream(_) => (None, None),
    }
}

/// Makes a change of a store file.
fn make(
    run: &Run<'_>,
    change: &Change<'_>,
    file: &str,
    state: RandomState,
) -> Result<(), RunFault> {
    match change {
        Change::Init { growing } => init(run, file, form_of(*growing), state),
        Change::Grow => grow(run, file, state),
        Change::Drop { refs, stdin } => drop_refs(run, file, refs.as_slice(), *stdin, state),
        Change::Gc { report, keep } => collect(run, file, *keep, *report, state),
        Change::SetRef { change, force } => set_ref(run, file, *change, *force, state),
        Change::Put { stamp } => put(run, file, stamp, state),
        Change::Import {
            done,
            force,
            report,
            explain,
        } => {
            run.explain_if(*explain);
            import(run, file, features(done, force), *report, state)
        }
        Change::Objects {
            force,
            report,
            explain,
        } => {
            run.explain_if(*explain);
            import_objects(run, file, *force, *report, state)
        }
        Change::Push {
            push: told,
            done,
            report,
            explain,
        } => {
            run.explain_if(*explain);
            push(run, file, told, *done, *report, state)
        }
    }
}

/// The form of a new store.
fn form_of(growing: bool) -> StoreForm {
    if growing {
        StoreForm::Growing
    } else {
        StoreForm::Plain
    }
}

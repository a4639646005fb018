//! Imports of texts of refs and objects into store files.

use super::next_text::NextText;
use crate::fault::RunFault;
use crate::run::Run;
use crate::streams::devices::Noted;
use crate::streams::progress::ProgressLine;
use crate::streams::refused_item::refused;
use crate::streams::reports::{tell_changes, tell_taken, tell_typed};
use gx_cli::Repo;
use gx_object::Sha1Namer;
use gx_repo::report_changes;
use gx_taken::take_text;
use gx_text::FromRead;
use gx_versions::StoreForm;
use std::alloc::Global;
use std::hash::RandomState;

/// Takes the text of refs and objects that standard input gives into a store file, which stays as it was where it is refused. Where
/// `report` asks for it, the refs that it changed are told, and how many objects came, once the store file is free.
pub(crate) fn import_objects(
    run: &Run<'_>,
    file: &str,
    force: bool,
    report: bool,
    state: RandomState,
) -> Result<(), RunFault> {
    let mut next = NextText::claim_next(run, file)?;
    let repo = next.read_repo(state)?;
    tell_typed(run, "refs and objects");
    let held = repo.store().len();
    let before = repo.copy_refs()?;
    let repo = taken(run, repo, force)?;
    let changes = report_changes(run.rt.alloc(), before.refs(), repo.refs())?;
    next.publish_added(&repo)?;
    let (form, bytes) = (next.form(), next.size());
    drop(next);
    if report {
        tell_changes(run, &changes);
    }
    let objects = repo.store().len().saturating_sub(held);
    let refs = changes.iter().filter(|byte| **byte == b'\n').count();
    tell_taken(run, objects, refs, report);
    if form == StoreForm::Plain {
        run.tell_large(file, bytes);
    }
    Ok(())
}

/// What a repository becomes by the text on standard input, of which it is shown how far it is read.
fn taken(
    run: &Run<'_>,
    repo: Repo<Sha1Namer, Global>,
    force: bool,
) -> Result<Repo<Sha1Namer, Global>, RunFault> {
    let progress = ProgressLine::new(run);
    let source = FromRead::new(Noted::input(run).shown_by(&progress));
    let taken = take_text(run.rt.alloc(), &Sha1Namer, repo, source, force);
    progress.clear();
    match taken {
        Ok(repo) => Ok(repo),
        Err(fault) => Err(refused(run, &fault)),
    }
}

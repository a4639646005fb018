//! Objects that leave a store file since nothing reaches them. Source: git-gc(1).

use super::next_text::NextText;
use super::told_lines;
use crate::fault::RunFault;
use crate::run::Run;
use crate::streams::reports::tell_pruned;
use gx_cli::{Pruned, collect_opened, names_in};
use gx_object::Name;
use std::hash::RandomState;

/// Leaves out of a store file what neither refs reach nor the objects that the lines of the file `keep` name; where that is
/// refused, it stays as it was. Of a growing one no more is held than what its objects are called and where they stand, and what goes
/// isn't read. The lines are read before the store file is claimed. How much went is told once that is free.
pub(crate) fn collect(
    run: &Run<'_>,
    file: &str,
    keep: Option<&str>,
    report: bool,
    state: RandomState,
) -> Result<(), RunFault> {
    let alloc = run.rt.alloc();
    let lines = match keep {
        Some(told) => told_lines(run, told)?,
        None => Vec::new(alloc),
    };
    let mut next = NextText::claim_next(run, file)?;
    let kept = names_in(alloc, lines.as_slice())?;
    let gone = match next.open_look()? {
        Some(look) => next.publish_kept(&look, kept.as_slice(), state)?,
        None => collect_whole(&mut next, kept.as_slice(), state)?,
    };
    drop(next);
    tell_pruned(run, &gone, report);
    Ok(())
}

/// Does so in a store file that is read as a whole.
fn collect_whole(
    next: &mut NextText<'_>,
    kept: &[Name],
    state: RandomState,
) -> Result<Pruned, RunFault> {
    let repo = next.read_repo(state)?;
    let (left, gone) = collect_opened(repo, kept)?;
    next.publish_store(&left)?;
    Ok(gone)
}

//! Refs that leave a store file. Source: git-update-ref(1), "delete".

use super::appending::InPlace;
use super::next_text::NextText;
use crate::fault::RunFault;
use crate::run::Run;
use crate::streams::devices::Noted;
use gx_cli::{CliFault, drop_named, lines_from};
use gx_left_refs::{LeftRefs, left_refs};
use gx_objects::Objects;
use gx_print::{add_lines, texts_of};
use gx_ref_lines::RefLines;
use gx_repo::DropFault;
use gx_rev::RevFault;
use gx_text::FromRead;
use std::alloc::Global;
use std::hash::RandomState;

/// Drops refs from a store file, which stays as it was where that is refused. Of a growing one no more is read than its refs.
pub(crate) fn drop_refs(
    run: &Run<'_>,
    file: &str,
    refs: &[&str],
    stdin: bool,
    state: RandomState,
) -> Result<(), RunFault> {
    let mut next = NextText::claim_next(run, file)?;
    if let Some(opened) = next.open_in_place() {
        if drop_in_place(run, &next, &opened, refs, stdin)? {
            return Ok(());
        }
    }
    let repo = next.read_repo(state)?;
    let source = FromRead::new(Noted::input(run));
    let left = drop_named(run.rt.alloc(), repo, refs, stdin, source)?;
    next.publish_added(&left)?;
    Ok(())
}

/// Does so in a growing store file that can be appended to. Answers false, and does nothing, where its refs can't be read.
fn drop_in_place(
    run: &Run<'_>,
    next: &NextText<'_>,
    opened: &InPlace<'_>,
    refs: &[&str],
    stdin: bool,
) -> Result<bool, RunFault> {
    let alloc = run.rt.alloc();
    let mut room = Vec::new(alloc);
    let Ok(lines) = opened.look.ref_lines(&mut room) else {
        return Ok(false);
    };
    let Ok(held) = RefLines::read(alloc, lines) else {
        return Ok(false);
    };
    let more = if stdin {
        lines_from(alloc, FromRead::new(Noted::input(run)))?
    } else {
        Vec::new(alloc)
    };
    match left_without(alloc, &held, refs, &more)? {
        None => opened.settle(next.place())?,
        Some(left) => {
            if !opened.append_refs(next.place(), left.count, &left.lines)? {
                return Err(RunFault::Command(CliFault::OutOfMemory));
            }
        }
    }
    Ok(true)
}

/// The refs that have none of the names that words and lines give; none where these give no name. The first name that is no ref's, or
/// that is given before, is refused.
fn left_without<'a>(
    alloc: Global,
    held: &RefLines<'_, Global>,
    words: &[&'a str],
    lines: &'a [Vec<u8>],
) -> Result<Option<LeftRefs<Global>>, CliFault> {
    let mut names = texts_of(alloc, words)?;
    add_lines(&mut names, lines)?;
    if names.is_empty() {
        return Ok(None);
    }
    match left_refs(alloc, held, &names) {
        Ok(left) => Ok(Some(left)),
        Err(DropFault::OutOfMemory) => Err(CliFault::OutOfMemory),
        Err(DropFault::UnknownRef { number }) => Err(CliFault::Revision {
            number,
            kind: RevFault::UnknownRef,
        }),
    }
}

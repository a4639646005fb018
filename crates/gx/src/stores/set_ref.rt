//! Refs of a store file that are set.

use super::next_text::NextText;
use crate::fault::RunFault;
use crate::run::{Run, Subject};
use crate::streams::devices::{Noted, WholeLines};
use gx_cli::{RefChange, set_told};
use gx_text::FromRead;
use std::hash::RandomState;

/// Sets a ref of a store file, or those that standard input tells; all of them, or the file stays as it was.
pub(crate) fn set_ref(
    run: &Run<'_>,
    file: &str,
    change: Option<RefChange<'_>>,
    force: bool,
    state: RandomState,
) -> Result<(), RunFault> {
    let mut next = NextText::claim_next(run, file)?;
    let repo = next.read_repo(state)?;
    let lines = WholeLines::new(run.rt.stdin());
    let source = FromRead::new(Noted::new(run, Subject::Input, lines));
    let left = set_told(run.rt.alloc(), repo, change, source, force)?;
    next.publish_added(&left)?;
    Ok(())
}

//! Store files that get tables. Source: this project's own format.

use super::next_text::NextText;
use crate::fault::RunFault;
use crate::run::Run;
use gx_versions::StoreForm;
use std::hash::RandomState;

/// Makes a growing text of a store file's text, and leaves one that is. A plain one is read twice, and no more is held of it than what
/// its objects are called and where they stand; one that is refused is read as a whole then, which tells why.
pub(crate) fn grow(run: &Run<'_>, file: &str, state: RandomState) -> Result<(), RunFault> {
    let mut next = NextText::claim_next(run, file)?;
    if next.publish_grown(state)? {
        return Ok(());
    }
    grow_whole(&mut next, state)
}

/// Does so with a text that is read as a whole.
fn grow_whole(next: &mut NextText<'_>, state: RandomState) -> Result<(), RunFault> {
    let repo = next.read_repo(state)?;
    if next.form() == StoreForm::Plain {
        next.shape(StoreForm::Growing);
        next.publish_store(&repo)?;
    }
    Ok(())
}
